//! Lists of versions in ascending order of their ids.

ghost use Rattle.std.specs.Prelude.{◌≡◌, ◌≤◌, OnOk, MatchResult, insert, length};
ghost use Rattle.crdt_ops.specs.SortedSets.{insert_ordered};
ghost use Rattle.uid_projection.specs.TagChanges.{by_id};

use imap_types::Version;
use std::alloc::AllocError;

/// Puts the version in its place. If the list has one with its id, the list is unchanged. `Err` if
/// memory runs out.
pub fn place(versions: &mut Vec<Version>, version: Version) -> Result<(), AllocError>
    ensures { OnOk result (versions.new.items ≡ insert_ordered by_id version versions.old.items) }
{
    if let Err(at) = place_of(versions, &version) {
        if versions.insert(at, version).is_err() {
            return Err(AllocError);
        }
    }
    Ok(())
}

/// The place of the version with this one's id (`Ok`), or the place where this one belongs (`Err`).
fn place_of(versions: &[Version], version: &Version) -> Result<usize, usize>
    ensures { MatchResult result
        (λ at. insert_ordered by_id version.now versions.now ≡ versions.now)
        (λ at. (at ≤ length versions.now)
        × (insert_ordered by_id version.now versions.now
        ≡ insert versions.now at version.now)) }
{
    for (at, other) in versions.iter().enumerate() {
        if version.id == other.id {
            return Ok(at);
        }
        if version.id < other.id {
            return Err(at);
        }
    }
    Err(versions.len())
}
