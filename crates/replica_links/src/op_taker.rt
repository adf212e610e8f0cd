//! Operations that arrive, and the replica that takes them.

ghost use Rattle.std.specs.Prelude.{◌≡◌, ℕ, List, MatchOption};
ghost use Rattle.crdt_ops.specs.declared.op.Op.{Op};
ghost use Rattle.replica_links.specs.Links.{HasTakenOps};
ghost use Rattle.replica_links.specs.declared.took.Took.{Took};

use crate::took::Took;
use crdt_ops::SoundOp;
use tags_clocks::Clock;

/// A replica that takes operations, one after another.
pub trait Taker {
    /// The state after a delivery of an operation with this result.
    ghost takes: { Self → Op → Took → Self → Type 0 };

    /// The state after held operations whose causes were applied were applied.
    ghost drains: { Self → Self → Type 0 };

    /// This clock counts what the replica applied.
    ghost has: { Self → List (ℕ × ℕ) → Type 0 };

    /// These are the operations that the replica applied and the clock doesn't cover, in their
    /// order.
    ghost gives: { Self → List (ℕ × ℕ) → List Op → Type 0 };

    /// Memory may run out for a copy.
    ghost lacks: { Self → Type 0 };

    /// Delivers an operation.
    fn deliver(&mut self, op: SoundOp) -> Took
        ensures { takes self.old op result self.new };

    /// Applies held operations whose causes were applied.
    fn drain(&mut self)
        ensures { drains self.old self.new };

    /// A copy of the replica's clock; `None` if memory runs out.
    fn clock(&self) -> Option<Clock>
        ensures { MatchOption result (lacks self.now) (λ clock. has self.now clock) };

    /// Copies of the operations applied that the clock doesn't cover, in their order; `None` if
    /// memory runs out.
    fn ops_since(&self, clock: &Clock) -> Option<Vec<SoundOp>>
        ensures { MatchOption result (lacks self.now) (λ ops. gives self.now clock.now ops.items) };
}

/// Delivers the operations, each once and in their order, whatever the results. Each field of the
/// result is true if it is true in one of the results.
pub fn hand_on<T: Taker>(taker: &mut T, ops: Vec<SoundOp>) -> Took
    ensures { HasTakenOps T.takes taker.old ops.items result taker.new }
{
    let mut took = Took::complete();
    for op in ops {
        let one = taker.deliver(op);
        took = took.joined_with(one);
    }
    took
}
