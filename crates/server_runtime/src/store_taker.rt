//! The replica of a link, with the room in its store that deliveries need.

ghost use Rattle.std.specs.Prelude.{◌≡◌, None};
ghost use Rattle.replica_links.specs.Links.{AreUncoveredOps, IsClockOfList, IsDrainedBy, IsTakenBy};
ghost use Rattle.replica_links.specs.Links.{MayLack};

use crate::connection_threads::ReplicaContext;
use crdt_ops::SoundOp;
use replica_links::{ReplicaTaker, Taker, Took};
use replica_lock::Pass;
use std::alloc::Global;
use std::marker::Model;
use std::rt::Clock as Time;
use std::sync::Wait;
use std::sync::ledger::Ledger;
use tags_clocks::Clock;

/// Delivers operations to a replica under its lock. If its store has no room for one, room is made;
/// if that isn't possible, or the store failed, the operation isn't delivered.
#[derive(Drop)]
pub struct StoreTaker<'a, L: Ledger, R: Wait + Time> {
    rt: &'a R,
    alloc: Global,
    context: &'a ReplicaContext<'a, L>,
    inner: ReplicaTaker<'a, L, R>,
}

impl<'a, L: Ledger, R: Wait + Time> Model for StoreTaker<'a, L, R> {
    ghost use Rattle.replica_lock.specs.Passes.{PassState};

    ghost Value = { PassState };

    ghost view = { λ t. t.inner };
}

impl<'a, L: Ledger, R: Wait + Time> StoreTaker<'a, L, R> {
    /// A taker for the replica of this context, whose calls this pass notes. The pass has no
    /// session.
    pub fn new(
        rt: &'a R,
        alloc: Global,
        context: &'a ReplicaContext<'a, L>,
        pass: Pass<L>,
    ) -> StoreTaker<'a, L, R>
        requires { pass.session ≡ None }
        ensures { result ≡ pass }
    {
        StoreTaker {
            rt,
            alloc,
            context,
            inner: ReplicaTaker::new(rt, alloc, context.shared, pass),
        }
    }

    /// The pass, with all calls noted.
    pub fn into_pass(self) -> Pass<L>
        ensures { result ≡ self.entry }
    {
        let StoreTaker {
            rt: _,
            alloc: _,
            context: _,
            inner,
        } = self;
        inner.into_pass()
    }

    /// Whether the replica's store, if it has one, works and has room for an operation.
    fn has_room_for(&self, op: &SoundOp) -> bool {
        match self.context.store {
            Some(store) => {
                !store.has_failed(self.rt)
                    && store.has_room_for(self.rt, self.alloc, self.context, op)
            }
            None => true,
        }
    }
}

impl<'a, L: Ledger, R: Wait + Time> Taker for StoreTaker<'a, L, R> {
    ghost takes = { λ s op took t. IsTakenBy s op took t };

    ghost drains = { λ s t. IsDrainedBy s t };

    ghost has = { λ s clock. IsClockOfList clock };

    ghost gives = { λ s clock ops. AreUncoveredOps clock ops };

    ghost lacks = { λ s. MayLack s };

    fn deliver(&mut self, op: SoundOp) -> Took {
        if !self.has_room_for(&op) {
            drop(op);
            return Took::lacking();
        }
        self.inner.deliver(op)
    }

    fn drain(&mut self) {
        self.inner.drain()
    }

    fn clock(&self) -> Option<Clock> {
        self.inner.clock()
    }

    fn ops_since(&self, clock: &Clock) -> Option<Vec<SoundOp>> {
        self.inner.ops_since(clock)
    }
}
