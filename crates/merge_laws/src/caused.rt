//! `Caused`: what has an id and causes, as operations do.

ghost use Rattle.std.specs.Prelude.{◌≡◌, ◌↔◌, ℕ, ◌+◌, List, IsTrue, IfOk};
ghost use Rattle.tags_clocks.specs.declared.id.OpId.{OpId};
ghost use Rattle.tags_clocks.specs.Clock.{count_of, IsCause};
ghost use Rattle.merge_laws.specs.Orders.{IsIn};

use std::alloc::{AllocError, Global};
use tags_clocks::{Clock, OpId};

/// An operation: it has an id and a clock that counts its causes, and may remove what others added.
pub trait Caused {
    /// Its id.
    ghost id: { Self → OpId };

    /// For each replica, the number of its operations that came before this one.
    ghost clock: { Self → List (ℕ × ℕ) };

    /// The ids of what it removes.
    ghost removed: { Self → List OpId };

    /// True of the operations that a check accepted.
    ghost is_sound: { Self → Type 0 };

    /// Its id.
    fn id(&self) -> OpId
        ensures { result ≡ id self.now };

    /// For each replica, the number of its operations that came before this one.
    fn clock(&self) -> &Clock
        ensures { result.now ≡ clock self.now };

    /// The ids of what it removes.
    fn removed_ids(&self) -> &[OpId]
        ensures { result.now ≡ removed self.now };

    /// Whether `other` is the very same operation.
    fn same(&self, other: &Self) -> bool
        ensures { IsTrue result ↔ (self.now ≡ other.now) };

    /// A copy; `Err` if memory runs out.
    fn copy(&self, alloc: Global) -> Result<Self, AllocError>
        ensures { IfOk result (λ copied. copied ≡ self.now) };

    /// Does nothing. Its contract is that each value of the type is sound.
    fn prove_sound(&self)
        ensures { is_sound self.now };

    /// A sound operation comes right after those that its clock counts of its own replica.
    ghost next_number: { (o : Self) → is_sound o
        → count_of (clock o) (id o).replica + 1 ≡ (id o).number };

    /// A sound operation removes only what came before it.
    ghost removes_causes: { (o : Self) → is_sound o → (i : OpId) → IsIn i (removed o)
        → IsCause (clock o) i };
}
