//! Values and followers that are refused memory at one call.

use crate::refused_call::is_refused;
use merge_laws::{Follower, NotReady, Replicated};
use std::alloc::{AllocError, Global};

/// A value that is refused memory at one call: the first if `before` is 0.
#[derive(Drop)]
pub struct RefusingValue<R> {
    /// The value.
    pub value: R,
    /// The number of calls before the refused one; `None` if no call is refused.
    pub before: Option<u32>,
}

impl<R: Replicated> Replicated for RefusingValue<R> {
    type Op = R::Op;

    ghost Meaning = { R.Meaning };

    ghost meaning = { λ x. R.meaning x.value };

    ghost effect = { R.effect };

    ghost initial = { R.initial };

    ghost is_prepared = { λ x ops. R.is_prepared x.value ops };

    ghost first = { λ x o os h. R.first x.value o os h };

    ghost commutes = { R.commutes };

    fn prepare(&mut self, alloc: Global, ops: &[R::Op]) -> Result<(), AllocError> {
        if is_refused(&mut self.before) {
            return Err(AllocError);
        }
        self.value.prepare(alloc, ops)
    }

    fn apply(&mut self, op: &R::Op) {
        self.value.apply(op);
    }
}

/// A follower that is refused memory at one call: the first if `before` is 0.
#[derive(Drop)]
pub struct RefusingFollower {
    /// The number of calls before the refused one; `None` if no call is refused.
    pub before: Option<u32>,
}

impl<R: Replicated> Follower<R> for RefusingFollower {
    type Start = ();

    ghost start = { λ _. tt };

    ghost follows = { λ _ _. Unit {0} };

    ghost is_ready = { λ _ _ _. Unit {0} };

    ghost exhausts = { λ _ _ _. ⊥ };

    ghost first = { λ _ _ _ _ _. tt };

    fn ready(&mut self, _alloc: Global, _value: &R, _ops: &[R::Op]) -> Result<(), NotReady> {
        if is_refused(&mut self.before) {
            return Err(NotReady::NoMemory);
        }
        Ok(())
    }

    fn note(&mut self, _value: &R, _op: &R::Op) {}
}
