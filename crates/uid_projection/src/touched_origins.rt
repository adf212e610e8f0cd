//! Lists of added ids, one list for each origin whose message may have changed.

ghost use Rattle.std.specs.Prelude.{◌≡◌, None, Some, IsSome, OnOk};
ghost use Rattle.std.specs.Map.{lookup};
ghost use Rattle.tags_clocks.specs.declared.id.OpId.{OpId};
ghost use Rattle.merge_laws.specs.Orders.{IsIn};
ghost use Rattle.crdt_ops.specs.SortedSets.{same_id};
ghost use Rattle.uid_projection.specs.TagChanges.{Grows, IsListed};

use indexmap::IndexMap;
use std::alloc::{AllocError, Global};
use tags_clocks::OpId;

/// Makes an empty list for this origin, unless it has one. `Err` if memory runs out.
pub fn touch(
    alloc: Global,
    versions: &mut IndexMap<OpId, Vec<OpId>>,
    origin: &OpId,
) -> Result<(), AllocError>
    ensures grows { Grows versions.old.entries versions.new.entries }
    ensures touched { OnOk result (IsSome (lookup (same_id origin.now) versions.new.entries)) }
{
    if versions.contains_key(origin) {
        return Ok(());
    }
    begin(versions, origin, Vec::new(alloc))
}

/// Adds an id to the list of this origin. `Err` if memory runs out.
pub fn list_id(
    alloc: Global,
    versions: &mut IndexMap<OpId, Vec<OpId>>,
    origin: &OpId,
    id: &OpId,
) -> Result<(), AllocError>
    ensures grows { Grows versions.old.entries versions.new.entries }
    ensures listed { OnOk result
        (IsListed id.now (lookup (same_id origin.now) versions.new.entries)) }
{
    touch(alloc, versions, origin)?;
    match versions.get_mut(origin) {
        Some(ids) => push(ids, id),
        None => unreachable!(),
    }
}

/// Appends an id to a list. `Err` if memory runs out; the list is then unchanged.
fn push(ids: &mut Vec<OpId>, id: &OpId) -> Result<(), AllocError>
    ensures retained { (i : OpId) → IsIn i ids.old.items → IsIn i ids.new.items }
    ensures put { OnOk result (IsIn id.now ids.new.items) }
{
    ids.push(*id)?;
    Ok(())
}

/// Inserts the list of an origin that has none. `Err` if memory runs out.
fn begin(
    versions: &mut IndexMap<OpId, Vec<OpId>>,
    origin: &OpId,
    ids: Vec<OpId>,
) -> Result<(), AllocError>
    requires { lookup (same_id origin.now) versions.old.entries ≡ None }
    ensures grows { Grows versions.old.entries versions.new.entries }
    ensures touched { OnOk result (IsSome (lookup (same_id origin.now) versions.new.entries)) }
{
    if versions.insert(*origin, ids).is_err() {
        return Err(AllocError);
    }
    Ok(())
}
