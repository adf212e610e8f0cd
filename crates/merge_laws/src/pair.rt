//! `Pair`: two values changed by the same operations.

use crate::follower::{Follower, NotReady};
use crate::replicated::Replicated;
use std::alloc::{AllocError, Global};

/// Two values that the same operations change.
#[derive(Drop)]
pub struct Pair<A, B> {
    /// The first value.
    pub first: A,
    /// The second value.
    pub second: B,
}

impl<A: Replicated, B: Replicated<Op = A::Op>> Replicated for Pair<A, B> {
    type Op = A::Op;

    ghost Meaning = { A.Meaning × B.Meaning };

    ghost meaning = { λ p. (A.meaning p.first, B.meaning p.second) };

    ghost effect = { λ v o. (A.effect v.0 o, B.effect v.1 o) };

    ghost initial = { (A.initial, B.initial) };

    ghost is_prepared = { λ p os. A.is_prepared p.first os × B.is_prepared p.second os };

    ghost first = { λ p o os h. (A.first p.first o os h.0, B.first p.second o os h.1) };

    ghost commutes = { λ v a b s t c. λ i. (
      A.commutes v.0 a b s t c i,
      B.commutes v.1 a b s t c i,
    ) };

    fn prepare(&mut self, alloc: Global, ops: &[A::Op]) -> Result<(), AllocError> {
        self.first.prepare(alloc, ops)?;
        self.second.prepare(alloc, ops)
    }

    fn apply(&mut self, op: &A::Op) {
        self.first.apply(op);
        self.second.apply(op);
    }
}

/// A follower of the first value of a pair, as a follower of the pair.
#[derive(Drop)]
pub struct FirstFollower<F> {
    /// The follower of the first value.
    pub follower: F,
}

impl<A: Replicated, B: Replicated<Op = A::Op>, F: Follower<A>> Follower<Pair<A, B>>
    for FirstFollower<F> {
    type Start = F::Start;

    ghost start = { λ x. F.start x.follower };

    ghost follows = { λ x list. F.follows x.follower list };

    ghost is_ready = { λ x list ops. F.is_ready x.follower list ops };

    ghost exhausts = { F.exhausts };

    ghost first = { λ x list o os h. F.first x.follower list o os h };

    fn ready(&mut self, alloc: Global, value: &Pair<A, B>, ops: &[A::Op]) -> Result<(), NotReady> {
        self.follower.ready(alloc, &value.first, ops)
    }

    fn note(&mut self, value: &Pair<A, B>, op: &A::Op) {
        self.follower.note(&value.first, op);
    }
}
