//! The replica of a process, as its links see it.

ghost use Rattle.std.specs.Prelude.{◌≡◌, ℕ, List, IfSome, drop, take};
ghost use Rattle.merge_laws.specs.Orders.{IsCausal};
ghost use Rattle.crdt_ops.specs.declared.op.Op.{Op};
ghost use Rattle.crdt_ops.specs.Ops.{clock_of, id_of};
ghost use Rattle.causal_inbox.specs.Inbox.{IsClockOf, uncovered_ops};

use crdt_ops::SoundOp;
use std::alloc::Global;
use tags_clocks::{Clock, ReplicaId};

/// What became of an operation that a link delivered.
#[derive(Clone, Copy, Debug, PartialEq, Eq)]
pub enum Delivery {
    /// The replica applied it, or had it.
    Taken,
    /// It is held until its causes arrive, or was refused.
    Lacking,
    /// The replica has another operation with its id.
    Other,
}

/// The replica of a process, for all of its links. Its methods may wait.
pub trait LinkReplica {
    /// Its name.
    ghost named: { Self → ℕ };

    /// Its name.
    fn name(&self) -> ReplicaId
        ensures { result ≡ named self.now };

    /// Delivers an operation of another process.
    fn deliver(&self, op: SoundOp) -> Delivery;

    /// A copy of the clock of the operations that it applied; `None` if memory runs out.
    fn clock(&self) -> Option<Clock>
        ensures { IfSome result (λ clock. (applied : List Op) × IsCausal id_of clock_of applied
            × IsClockOf id_of applied clock) };

    /// Copies of the first `limit` operations that it applied and the clock doesn't cover, in their
    /// order, once they are synced; `None` if memory runs out or they can't be synced.
    fn ops_since(&self, clock: &Clock, limit: usize) -> Option<Vec<SoundOp>>
        ensures { IfSome result (λ ops. (applied : List Op) × IsCausal id_of clock_of applied
            × (ops.items ≡ take limit (uncovered_ops id_of clock.now applied))) };

    /// Copies of at most `limit` operations that it applied after the first `count`, in their order;
    /// `None` if memory runs out.
    fn ops_from(&self, count: u64, limit: usize) -> Option<Vec<SoundOp>>
        ensures { IfSome result (λ ops. (applied : List Op) × IsCausal id_of clock_of applied
            × (ops.items ≡ take limit (drop count applied))) };
}
