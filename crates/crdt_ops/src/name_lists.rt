//! Ascending lists of distinct names.

ghost use Rattle.std.specs.Prelude.{◌≡◌, ◌≤◌, MatchResult, OnErr, OnOk, insert, length};
ghost use Rattle.imap_types.specs.Ascending.{octet_order};
ghost use Rattle.crdt_ops.specs.SortedSets.{insert_ordered};

use imap_types::Name;
use std::alloc::{AllocError, Global};
use std::cmp::Ordering;

/// Inserts a copy of the name in its place among ascending names, if they lack it. `Err` if memory
/// runs out, and then the names are as they were.
pub fn insert_name(alloc: Global, names: &mut Vec<Name>, name: &Name) -> Result<(), AllocError>
    ensures ok { OnOk result
        (names.new.items ≡ insert_ordered octet_order name.now names.old.items) }
    ensures err { OnErr result (names.new.items ≡ names.old.items) }
{
    if let Err(at) = place_of(names, name) {
        names.insert(at, name.copy(alloc)?)?;
    }
    Ok(())
}

/// The place of the name, or else the place at which it would be inserted.
fn place_of(names: &[Name], name: &Name) -> Result<usize, usize>
    ensures { MatchResult result
        (λ at. insert_ordered octet_order name.now names.now ≡ names.now)
        (λ at. (at ≤ length names.now)
        × (insert_ordered octet_order name.now names.now ≡ insert names.now at name.now)) }
{
    for (at, other) in names.iter().enumerate() {
        match name.compare(other) {
            Ordering::Less => return Err(at),
            Ordering::Equal => return Ok(at),
            Ordering::Greater => {}
        }
    }
    Err(names.len())
}
