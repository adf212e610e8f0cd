//! The side that gives the operations of a link.

ghost use Rattle.std.specs.Prelude.{IfSome, List};
ghost use Rattle.crdt_ops.specs.declared.op.Op.{Op};
ghost use Rattle.link_connection.specs.Sent.{AreFirstUncovered};

use crdt_ops::SoundOp;
use tags_clocks::Clock;

/// What gives the operations that a peer lacks.
pub trait OpSource {
    /// This is a list of the operations that were applied and synced, in the order in which they
    /// were applied. If others apply operations meanwhile, several lists are.
    ghost lists: { Self → List Op → Type 0 };

    /// Copies of the first `limit` operations that the clock doesn't cover among those that were
    /// applied and synced, in their order; `None` if memory runs out.
    fn ops_after(&self, clock: &Clock, limit: usize) -> Option<Vec<SoundOp>>
        ensures { IfSome result
            (λ ops. AreFirstUncovered (lists self.now) clock.now limit ops.items) };
}
