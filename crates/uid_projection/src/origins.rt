//! The table of the origins of a folder's versions, by the versions' ids.

ghost use Rattle.std.specs.Prelude.{◌≡◌, ◌<◌, ◌≤◌, ◌+◌, None, if◌then◌else◌};
ghost use Rattle.indexmap.specs.IndexMap.{spare};
ghost use Rattle.tags_clocks.specs.declared.id.OpId.{OpId};
ghost use Rattle.crdt_ops.specs.SortedSets.{same_id};
ghost use Rattle.uid_projection.specs.EntryMoves.{origins_with, origins_without};
ghost use Rattle.uid_projection.specs.ChartTable.{origin_at};

use indexmap::IndexMap;
use tags_clocks::OpId;

/// The origin of the version with this id, or `None` if there is no such version.
pub fn origin_at(versions: &IndexMap<OpId, OpId>, id: &OpId) -> Option<OpId>
    ensures { result ≡ origin_at versions.now.entries id.now }
{
    versions.get(id).copied()
}

/// Removes the versions with these ids.
pub fn remove_versions(versions: &mut IndexMap<OpId, OpId>, removed: &[OpId])
    ensures updated { (i : OpId)
        → origin_at versions.new.entries i
        ≡ origins_without (origin_at versions.old.entries) removed.now i }
    ensures room { spare versions.old ≤ spare versions.new }
{
    for id in removed {
        remove_version(versions, id);
    }
}

/// Removes the version with this id.
fn remove_version(versions: &mut IndexMap<OpId, OpId>, id: &OpId)
    ensures updated { (i : OpId)
        → origin_at versions.new.entries i
        ≡ (if same_id id.now i then None else origin_at versions.old.entries i) }
    ensures room { spare versions.old ≤ spare versions.new }
{
    versions.swap_remove(id);
}

/// Inserts a version of this origin. The table has room for it.
pub fn insert_version(versions: &mut IndexMap<OpId, OpId>, id: &OpId, origin: &OpId)
    requires { 0 < spare versions.old }
    ensures updated { (i : OpId)
        → origin_at versions.new.entries i
        ≡ origins_with (origin_at versions.old.entries) id.now origin.now i }
    ensures room { spare versions.old ≤ spare versions.new + 1 }
{
    if versions.insert(*id, *origin).is_err() {
        unreachable!();
    }
}
