//! The replica of a process that is linked with others.

use crate::connection_threads::ReplicaContext;
use causal_inbox::{Arrival, DeliverFault};
use crdt_ops::SoundOp;
use link_runtime::{Delivery, LinkContext, LinkReplica, serve_links};
use log::Log;
use replica_lock::{Outcome, Pass};
use std::alloc::Global;
use std::net::{Net, TcpListener, TcpStream};
use std::rt::Clock as Time;
use std::sync::ledger::Ledger;
use std::sync::{Mutex, Wait};
use std::thread::Threads;
use tags_clocks::{Clock, ReplicaId};

/// A replica under its lock, for the links of its process. All of them deliver with one pass, each
/// operation by one call that it notes. If the store has no room for an operation, room is made; if
/// that isn't possible, or the store failed, the operation isn't delivered.
#[derive(Drop)]
pub struct LinkedReplica<'a, L: Ledger, R: Wait + Time> {
    rt: &'a R,
    alloc: Global,
    context: &'a ReplicaContext<'a, L>,
    pass: &'a Mutex<Pass<L>>,
}

impl<'a, L: Ledger, R: Wait + Time> LinkedReplica<'a, L, R> {
    /// Whether the replica's store, if it has one, works and has room for an operation.
    fn has_room_for(&self, op: &SoundOp) -> bool {
        match self.context.store {
            Some(store) => {
                !store.has_failed(self.rt)
                    && store.has_room_for(self.rt, self.alloc, self.context, op)
            }
            None => true,
        }
    }

    /// Whether all that the replica applied is synced, for which it may wait.
    fn is_synced(&self) -> bool {
        let Some(store) = self.context.store else {
            return true;
        };
        let count = self.context.shared.op_count(self.rt);
        store
            .sync_to(self.rt, self.alloc, self.context, count)
            .is_ok()
    }
}

impl<'a, L: Ledger, R: Wait + Time> LinkReplica for LinkedReplica<'a, L, R> {
    ghost named = { λ r. r.context.now.clients.now.replica };

    fn name(&self) -> ReplicaId {
        self.context.clients.replica
    }

    fn deliver(&self, op: SoundOp) -> Delivery {
        if !self.has_room_for(&op) {
            drop(op);
            return Delivery::Lacking;
        }
        let mut pass = self.pass.lock(self.rt);
        let shared = self.context.shared;
        if shared.deliver(self.rt, self.alloc, &mut pass, op).is_err() {
            return Delivery::Lacking;
        }
        let (delivery, stalled) = delivery_of(pass.last());
        if stalled {
            let _ = shared.drain(self.rt, self.alloc, &mut pass);
        }
        delivery
    }

    fn clock(&self) -> Option<Clock> {
        self.context.shared.clock(self.rt, self.alloc).ok()
    }

    fn ops_since(&self, clock: &Clock, limit: usize) -> Option<Vec<SoundOp>> {
        let ops = self
            .context
            .shared
            .first_ops_since(self.rt, self.alloc, clock, limit)
            .ok()?;
        if ops.is_empty() || self.is_synced() {
            return Some(ops);
        }
        drop(ops);
        None
    }

    fn ops_from(&self, count: u64, limit: usize) -> Option<Vec<SoundOp>> {
        self.context
            .shared
            .first_ops_after(self.rt, self.alloc, count, limit)
            .ok()
    }
}

/// What became of an operation, by the outcome of its delivery, and whether a ripe operation is
/// still held.
fn delivery_of(last: Option<&Outcome>) -> (Delivery, bool) {
    match last {
        Some(
            Outcome::Delivered {
                answer: Ok(delivered),
            },
        ) => {
            let delivery = if delivered.arrival == Arrival::Held {
                Delivery::Lacking
            } else {
                Delivery::Taken
            };
            (delivery, delivered.stalled)
        }
        Some(
            Outcome::Delivered {
                answer: Err(DeliverFault::Conflict { .. }),
            },
        ) => (Delivery::Other, false),
        _ => (Delivery::Lacking, false),
    }
}

/// Serves the links to other processes, if there are any, until they are stopped, and returns the
/// pass.
pub fn run_process_links<
    'a,
    L: Ledger + Send + Sync,
    R: Threads + Wait + Time + Log + Print + Sync + Net<Listener = TcpListener, Stream = TcpStream>,
>(rt: &R, alloc: Global, context: &'a ReplicaContext<'a, L>, pass: Pass<L>) -> Pass<L> {
    let Some(links) = &context.server.links else {
        return pass;
    };
    let pass = Mutex::new(pass);
    let replica = LinkedReplica {
        rt,
        alloc,
        context: context,
        pass: &pass,
    };
    serve_links(
        rt,
        alloc,
        &LinkContext {
            links,
            replica: &replica,
        },
    );
    drop(replica);
    pass.into_inner()
}
