//! An index from origins to UIDs.

ghost use Rattle.std.specs.Prelude.{◌≡◌, ◌+◌, ◌<◌, ◌≤◌, None, Some, false, if◌then◌else◌};
ghost use Rattle.indexmap.specs.IndexMap.{spare};
ghost use Rattle.tags_clocks.specs.declared.id.OpId.{OpId};
ghost use Rattle.mailbox_rows.specs.ListingEntries.{is_id, indexed_value};

use indexmap::IndexMap;
use tags_clocks::OpId;

/// The UID that the index has for an origin.
pub fn uid_of(uids: &IndexMap<OpId, u32>, origin: &OpId) -> Option<u32>
    ensures { result ≡ indexed_value uids.now.entries origin.now }
{
    uids.get(origin).copied()
}

/// Sets the UID of an origin in the index. There is room for it.
pub fn note(uids: &mut IndexMap<OpId, u32>, origin: &OpId, uid: u32)
    requires { 0 < spare uids.old }
    ensures lookups { (i : OpId)
        → indexed_value uids.new.entries i
        ≡ (if is_id origin.now i then Some uid else indexed_value uids.old.entries i) }
    ensures room { spare uids.old ≤ spare uids.new + 1 }
{
    if uids.insert(*origin, uid).is_err() {
        unreachable!();
    }
}

/// Removes an origin from the index.
pub fn remove_origin(uids: &mut IndexMap<OpId, u32>, origin: &OpId)
    ensures lookups { (i : OpId)
        → indexed_value uids.new.entries i
        ≡ (if is_id origin.now i then None else indexed_value uids.old.entries i) }
    ensures room { spare uids.old ≤ spare uids.new }
{
    uids.swap_remove(origin);
}
