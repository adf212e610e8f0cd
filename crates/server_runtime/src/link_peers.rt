//! The way of a link's thread to the other replicas.

use crate::connection_threads::ReplicaContext;
use crate::peer_sender::PeerSender;
use crdt_ops::SoundOp;
use replica_links::PeerLinks;
use std::alloc::Global;
use std::sync::Wait;
use std::sync::ledger::Ledger;
use tags_clocks::Clock;

/// The way of a replica's link to the others. Operations are sent once all that the replica applied
/// by then is synced, and not at all if that fails. A request shows only a clock, for which nothing
/// has to be synced: who is asked concludes nothing from it. None is sent while the store refuses
/// deliveries, which would only be refused again.
#[derive(Drop)]
pub struct LinkPeers<'a, L: Ledger, R: Wait> {
    rt: &'a R,
    alloc: Global,
    context: &'a ReplicaContext<'a, L>,
    sender: PeerSender<'a, R>,
}

impl<'a, L: Ledger, R: Wait> LinkPeers<'a, L, R> {
    /// The way of the replica of this context.
    pub fn new(
        rt: &'a R,
        alloc: Global,
        context: &'a ReplicaContext<'a, L>,
    ) -> LinkPeers<'a, L, R> {
        LinkPeers {
            rt,
            alloc,
            context,
            sender: PeerSender::new(rt, context.server, context.own),
        }
    }

    /// Whether the store refuses deliveries.
    fn refuses(&self) -> bool {
        match self.context.store {
            Some(store) => store.refuses(self.rt),
            None => false,
        }
    }

    /// Whether all that the replica applied is synced, for which it may wait.
    fn is_synced(&self) -> bool {
        let Some(store) = self.context.store else {
            return true;
        };
        let count = self.context.shared.op_count(self.rt);
        store
            .sync_to(self.rt, self.alloc, self.context, count)
            .is_ok()
    }
}

impl<'a, L: Ledger, R: Wait> PeerLinks for LinkPeers<'a, L, R> {
    ghost asks = { λ p to clock q. Unit {0} };

    ghost sends = { λ p to ops q. Unit {0} };

    fn ask(&mut self, to: usize, clock: Clock) {
        if self.refuses() {
            drop(clock);
            return;
        }
        self.sender.ask(to, clock);
    }

    fn send_ops(&mut self, to: usize, ops: Vec<SoundOp>) {
        if self.is_synced() {
            self.sender.send_ops(to, ops);
        }
    }
}
