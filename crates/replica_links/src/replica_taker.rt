//! A replica under its lock that takes operations.

ghost use Rattle.std.specs.Prelude.{◌≡◌, None, Some};
ghost use Rattle.std.specs.Option.{option_map};
ghost use Rattle.replica_links.specs.Links.{AreUncoveredOps, IsClockOfList, IsDrainedBy, IsTakenBy};
ghost use Rattle.replica_links.specs.Links.{MayLack, intake_of};
ghost use Rattle.replica_lock.specs.declared.outcome.Outcome.{Outcome};

use crate::op_taker::Taker;
use crate::took::Took;
use causal_inbox::{Arrival, DeliverFault};
use crdt_ops::SoundOp;
use replica_lock::{Outcome, Pass, Shared};
use std::alloc::Global;
use std::marker::Model;
use std::sync::Wait;
use std::sync::ledger::Ledger;
use tags_clocks::Clock;

/// Delivers operations to a replica under its lock, each by one call that its pass notes.
#[derive(Drop)]
pub struct ReplicaTaker<'a, L: Ledger, R: Wait> {
    rt: &'a R,
    alloc: Global,
    shared: &'a Shared<L>,
    pass: Pass<L>,
}

impl<'a, L: Ledger, R: Wait> Model for ReplicaTaker<'a, L, R> {
    ghost use Rattle.replica_lock.specs.Passes.{PassState};

    ghost Value = { PassState };

    ghost view = { λ t. t.pass };
}

impl<'a, L: Ledger, R: Wait> ReplicaTaker<'a, L, R> {
    /// A taker for this replica, whose calls this pass notes. The pass has no session.
    pub fn new(
        rt: &'a R,
        alloc: Global,
        shared: &'a Shared<L>,
        pass: Pass<L>,
    ) -> ReplicaTaker<'a, L, R>
        requires { pass.session ≡ None }
        ensures { result ≡ pass }
    {
        ReplicaTaker {
            rt,
            alloc,
            shared,
            pass,
        }
    }

    /// The pass, with all calls noted.
    pub fn into_pass(self) -> Pass<L>
        ensures { result ≡ self.entry }
    {
        let ReplicaTaker {
            rt: _,
            alloc: _,
            shared: _,
            pass,
        } = self;
        pass
    }
}

impl<'a, L: Ledger, R: Wait> Taker for ReplicaTaker<'a, L, R> {
    ghost takes = { λ s op took t. IsTakenBy s op took t };

    ghost drains = { λ s t. IsDrainedBy s t };

    ghost has = { λ s clock. IsClockOfList clock };

    ghost gives = { λ s clock ops. AreUncoveredOps clock ops };

    ghost lacks = { λ s. MayLack s };

    fn deliver(&mut self, op: SoundOp) -> Took {
        deliver_in(self.rt, self.alloc, self.shared, &mut self.pass, op)
    }

    fn drain(&mut self) {
        let _ = self.shared.drain(self.rt, self.alloc, &mut self.pass);
    }

    fn clock(&self) -> Option<Clock> {
        self.shared.clock(self.rt, self.alloc).ok()
    }

    fn ops_since(&self, clock: &Clock) -> Option<Vec<SoundOp>> {
        self.shared.ops_since(self.rt, self.alloc, clock).ok()
    }
}

/// Delivers an operation by one call that the pass notes.
fn deliver_in<L: Ledger, R: Wait>(
    rt: &R,
    alloc: Global,
    shared: &Shared<L>,
    pass: &mut Pass<L>,
    op: SoundOp,
) -> Took
    ensures { IsTakenBy pass.old op result pass.new }
{
    match shared.deliver(rt, alloc, pass, op) {
        Ok(()) => intake_of_last(pass.last()),
        Err(_) => Took::lacking(),
    }
}

/// The result of a delivery, from a pass's last outcome; lacking if it has none.
fn intake_of_last(last: Option<&Outcome>) -> Took
    ensures { (outcome : Outcome)
        → option_map (λ o. o.now) last.entry ≡ Some outcome
        → result ≡ intake_of outcome }
{
    match last {
        Some(outcome) => intake_of(outcome),
        None => Took::lacking(),
    }
}

/// The result of a delivery with this outcome.
fn intake_of(outcome: &Outcome) -> Took
    ensures { result ≡ intake_of outcome.now }
{
    match outcome {
        Outcome::Delivered {
            answer: Ok(receipt),
        } => Took {
            lacking: receipt.arrival == Arrival::Held,
            stalled: receipt.stalled,
        },
        Outcome::Delivered {
            answer: Err(DeliverFault::Conflict { .. }),
        } => Took::complete(),
        _ => Took::lacking(),
    }
}
