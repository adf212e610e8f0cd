//! `Replicated`: values that operations change.

ghost use Rattle.std.specs.Prelude.{◌≡◌, List, [], ◌∷◌, OnOk};
ghost use Rattle.merge_laws.specs.Orders.{IsConcurrent};

use crate::caused::Caused;
use std::alloc::{AllocError, Global};

/// A value that operations change, in any causal order.
pub trait Replicated {
    /// The type of the operations.
    type Op: Caused + Drop;

    /// The type of contents, whatever the value stores them in.
    ghost Meaning: { Type 0 };

    /// The contents of a value.
    ghost meaning: { Self → Meaning };

    /// The contents after an operation.
    ghost effect: { Meaning → Self.Op → Meaning };

    /// The initial contents.
    ghost initial: { Meaning };

    /// These operations can be applied in this order with no more memory.
    ghost is_prepared: { Self → List Self.Op → Type 0 };

    /// Makes room for these operations, to be applied in this order. `Err` if memory runs out: the
    /// contents stay, and nothing is prepared.
    fn prepare(&mut self, alloc: Global, ops: &[Self::Op]) -> Result<(), AllocError>
        ensures meaning { meaning self.new ≡ meaning self.old }
        ensures prepared { OnOk result (is_prepared self.new ops.now) };

    /// Applies an operation that was prepared. Takes no memory, and those prepared after it stay
    /// prepared.
    fn apply(&mut self, op: &Self::Op)
        requires { is_prepared self.old (op.now ∷ []) }
        ensures meaning { meaning self.new ≡ effect (meaning self.old) op.now }
        ensures others { (rest : List Self.Op)
            → is_prepared self.old (op.now ∷ rest)
            → is_prepared self.new rest };

    /// If some operations are prepared, the first of them is.
    ghost first: { (x : Self) (o : Self.Op) (os : List Self.Op) → is_prepared x (o ∷ os)
        → is_prepared x (o ∷ []) };

    /// Sound operations that are concurrent commute.
    ghost commutes: { (v : Meaning) (a b : Self.Op) → Self.Op.is_sound a → Self.Op.is_sound b
        → IsConcurrent Self.Op.id Self.Op.clock a b
        → effect (effect v a) b ≡ effect (effect v b) a };
}
