//! The least of the ids of operations that name a given replica.

ghost use Rattle.std.specs.Prelude.{◌≡◌, ◌↔◌, IsTrue};
ghost use Rattle.causal_inbox.specs.Inbox.{IsLess};
ghost use Rattle.causal_inbox.specs.OwnIds.{IsLesserOwn, IsLeastOwn, Precedes};

use merge_laws::Caused;
use tags_clocks::{OpId, ReplicaId};

/// The least id of `ops` that names the replica `name`, or `None` if none does.
pub fn least_own<O: Caused>(name: ReplicaId, ops: &[O]) -> Option<OpId>
    ensures { IsLeastOwn O.id name ops.now result }
{
    let mut least = None;
    for op in ops {
        take_lesser_own(&mut least, name, op.id());
    }
    least
}

/// Replaces `least` by `id` if `id` names the replica `name` and is less than `least`, or `least`
/// is `None`.
fn take_lesser_own(least: &mut Option<OpId>, name: ReplicaId, id: OpId)
    ensures { IsLesserOwn name id least.old least.new }
{
    if precedes(name, &id, least) {
        *least = Some(id);
    }
}

/// Whether `id` names the replica `name`, and is less than `other` if there is one.
fn precedes(name: ReplicaId, id: &OpId, other: &Option<OpId>) -> bool
    ensures { IsTrue result ↔ Precedes name id.now other.now }
{
    match other {
        None => id.replica == name,
        Some(least) => is_own_below(name, id, least),
    }
}

/// Whether `id` names the replica `name`, and is less than `other`.
fn is_own_below(name: ReplicaId, id: &OpId, other: &OpId) -> bool
    ensures { IsTrue result ↔ ((id.now.replica ≡ name) × IsLess id.now other.now) }
{
    id.replica == name && *id < *other
}
