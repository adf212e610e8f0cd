//! `Follower`: an account of the operations that were applied to a replicated value.

ghost use Rattle.std.specs.Prelude.{◌≡◌, ◌↔◌, List, [], ◌∷◌, ◌++◌, OnOk, Err};
ghost use Rattle.merge_laws.specs.Orders.{IsCausal, fold_of};
ghost use Rattle.merge_laws.specs.declared.follower.NotReady.TheVariants.{Exhausted as UsedUp};

use crate::replicated::Replicated;
use std::alloc::Global;
use thiserror::Error;

/// Why a follower can't be made ready for operations.
#[derive(Clone, Copy, Debug, PartialEq, Eq, Error)]
pub enum NotReady {
    /// One of its counters has no number left.
    #[error("number used up")]
    Exhausted,
    /// Memory ran out.
    #[error("no memory")]
    NoMemory,
}

/// An account of the operations applied to an `R`, each of which it notes. All that it shows
/// follows from what it began with and the list of operations noted.
pub trait Follower<R: Replicated> {
    /// What a follower begins with: the first numbers of its counters.
    type Start;

    /// What this follower began with.
    ghost start: { Self → Self.Start };

    /// This follower noted these operations, in this order.
    ghost follows: { Self → List R.Op → Type 0 };

    /// This follower noted the first list, and can note the second after it, in this order, with no
    /// more memory.
    ghost is_ready: { Self → List R.Op → List R.Op → Type 0 };

    /// After the first list, noting the second would take a counter past its last number.
    ghost exhausts: { Self.Start → List R.Op → List R.Op → Type 0 };

    /// Makes room for noting `ops`, in this order, given the value after the operations noted so
    /// far. If these and `ops` together are causal, the error is `Exhausted` exactly when a counter
    /// has no number left for one of `ops`. An error leaves all that the follower shows as it was.
    fn ready(&mut self, alloc: Global, value: &R, ops: &[R::Op]) -> Result<(), NotReady>
        ensures start { start self.new ≡ start self.old }
        ensures follows { (list : List R.Op) → follows self.old list → follows self.new list }
        ensures ready { OnOk result ((list : List R.Op) → follows self.old list
            → IsCausal R.Op.id R.Op.clock (list ++ ops.now)
            → R.meaning value.now ≡ fold_of R.effect R.initial list
            → is_ready self.new list ops.now) }
        ensures exhausted { (list : List R.Op) → follows self.old list
            → IsCausal R.Op.id R.Op.clock (list ++ ops.now)
            → R.meaning value.now ≡ fold_of R.effect R.initial list
            → ((result ≡ Err UsedUp) ↔ exhausts (start self.old) list ops.now) };

    /// Notes an operation for which the follower was made ready, given the value after that
    /// operation. Takes no memory, and the follower stays ready for the operations after it.
    fn note(&mut self, value: &R, op: &R::Op)
        requires { (list : List R.Op)
            × (follows self.old list)
            × (is_ready self.old list (op.now ∷ []))
            × (IsCausal R.Op.id R.Op.clock (list ++ op.now ∷ []))
            × (R.meaning value.now ≡ fold_of R.effect R.initial (list ++ op.now ∷ [])) }
        ensures start { start self.new ≡ start self.old }
        ensures follows { (list : List R.Op) → follows self.old list
            → is_ready self.old list (op.now ∷ [])
            → IsCausal R.Op.id R.Op.clock (list ++ op.now ∷ [])
            → R.meaning value.now ≡ fold_of R.effect R.initial (list ++ op.now ∷ [])
            → follows self.new (list ++ op.now ∷ []) }
        ensures others { (list rest : List R.Op) → follows self.old list
            → is_ready self.old list (op.now ∷ rest)
            → IsCausal R.Op.id R.Op.clock (list ++ op.now ∷ [])
            → R.meaning value.now ≡ fold_of R.effect R.initial (list ++ op.now ∷ [])
            → is_ready self.new (list ++ op.now ∷ []) rest };

    /// A follower that is ready for some operations is ready for the first of them.
    ghost first: { (x : Self) (list : List R.Op) (o : R.Op) (os : List R.Op)
        → is_ready x list (o ∷ os)
        → is_ready x list (o ∷ []) };
}

/// A follower that is always ready and notes nothing.
#[derive(Drop, Clone, Copy, Debug, PartialEq, Eq)]
pub struct Unfollowed;

impl<R: Replicated> Follower<R> for Unfollowed {
    type Start = ();

    ghost start = { λ _. tt };

    ghost follows = { λ _ _. Unit {0} };

    ghost is_ready = { λ _ _ _. Unit {0} };

    ghost exhausts = { λ _ _ _. ⊥ };

    ghost first = { λ _ _ _ _ _. tt };

    fn ready(&mut self, _alloc: Global, _value: &R, _ops: &[R::Op]) -> Result<(), NotReady> {
        Ok(())
    }

    fn note(&mut self, _value: &R, _op: &R::Op) {}
}
