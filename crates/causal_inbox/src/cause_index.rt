//! The cause index: one entry for each held operation, ordered by the cause that it waits for.

ghost use Rattle.std.specs.Prelude.{◌≡◌, ◌≢◌, ◌↔◌, ℕ, ◌+◌, ◌<◌, ◌≤◌, ◌^◌, List, [], ◌∷◌, length};
ghost use Rattle.std.specs.Prelude.{insert, slice_get, take, IsTrue, MatchOption, Some};
ghost use Rattle.std.specs.Prelude.{slice_index_or};
ghost use Rattle.merge_laws.specs.Orders.{IsIn, HasId};
ghost use Rattle.causal_inbox.specs.Inbox.{IsClockOf};
ghost use Rattle.causal_inbox.specs.CauseIndex.{AreOrdered, IsCauseLess, IsIndexedBefore};
ghost use Rattle.causal_inbox.specs.CauseIndex.{IsIndexedUnder};

use crate::search::awaited_cause;
use merge_laws::Caused;
use tags_clocks::{Clock, OpId};
use tree_list::{Slot, TreeList};

/// The index entry of a held operation.
#[derive(Clone, Copy, PartialEq, Eq, Debug)]
pub struct CauseEntry {
    /// The cause that the operation waits for: the last of its causes from the replica of its least
    /// missing cause. `None` if the operation is ripe.
    pub cause: Option<OpId>,
    /// The operation's id.
    pub id: OpId,
}

/// The operation's index entry, for the clock that covers the applied operations.
pub fn entry_of<O: Caused>(clock: &Clock, op: &O) -> CauseEntry
    ensures id { result.id ≡ O.id op.now }
    ensures indexed { (applied : List O)
        → IsClockOf O.id applied clock.now
        → ¬ HasId O.id applied (O.id op.now)
        → IsIndexedUnder O.id O.clock applied op.now result.cause }
{
    CauseEntry {
        cause: awaited_cause(clock, op),
        id: op.id(),
    }
}

/// Whether `one` comes before `other`: `None` comes before every id, and ids are ordered.
fn is_lesser_cause(one: &Option<OpId>, other: &Option<OpId>) -> bool
    ensures { IsTrue result ↔ IsCauseLess one.now other.now }
{
    match (one, other) {
        (None, Some(_)) => true,
        (Some(one), Some(other)) => *one < *other,
        _ => false,
    }
}

/// Whether both are the same cause, or both are `None`.
fn is_same_cause(one: &Option<OpId>, other: &Option<OpId>) -> bool
    ensures { IsTrue result ↔ (one.now ≡ other.now) }
{
    match (one, other) {
        (None, None) => true,
        (Some(one), Some(other)) => *one == *other,
        _ => false,
    }
}

/// Whether `one` comes before `other` in the index.
fn is_indexed_before(one: &CauseEntry, other: &CauseEntry) -> bool
    ensures { IsTrue result ↔ IsIndexedBefore one.now other.now }
{
    if is_same_cause(&one.cause, &other.cause) {
        one.id < other.id
    } else {
        is_lesser_cause(&one.cause, &other.cause)
    }
}

/// The number of entries that come before `entry`.
pub fn place_of(entries: &TreeList<CauseEntry>, entry: &CauseEntry) -> usize
    requires { AreOrdered IsIndexedBefore entries.now }
    ensures within { result ≤ length entries.now }
    ensures place { ¬ IsIn entry.now entries.now
        → AreOrdered IsIndexedBefore (insert entries.now result entry.now) }
    ensures member { IsIn entry.now entries.now → slice_get entries.now result ≡ Some entry.now }
{
    entries.partition_point(|_, one| is_indexed_before(one, entry))
}

/// The place of the first entry under `cause`, or `None` if there is none.
pub fn first_entry_under_cause(
    entries: &TreeList<CauseEntry>,
    cause: &Option<OpId>,
) -> Option<usize>
    requires { AreOrdered IsIndexedBefore entries.now }
    ensures { MatchOption result ((f : CauseEntry) → IsIn f entries.now → f.cause ≢ cause.now)
        (λ at. (at < length entries.now)
        × ((f : CauseEntry) → slice_get entries.now at ≡ Some f → f.cause ≡ cause.now)) }
{
    let at = entries.partition_point(|_, one| is_lesser_cause(&one.cause, cause));
    let one = entries.get(at)?;
    if is_same_cause(&one.cause, cause) {
        Some(at)
    } else {
        None
    }
}
