//! The way from one replica to the others.

use crate::server_state::ServerState;
use crdt_ops::SoundOp;
use merge_laws::Caused;
use replica_links::{LinkMsg, PeerLinks, PeerMsg};
use std::alloc::{AllocError, Global};
use std::sync::Wait;
use tags_clocks::Clock;

/// Sends messages to the other replicas of a server. A message to one that hasn't joined is
/// dropped: when it joins, it asks for what it lacks.
#[derive(Drop)]
pub struct PeerSender<'a, R: Wait> {
    rt: &'a R,
    server: &'a ServerState<'a>,
    own: usize,
}

impl<'a, R: Wait> PeerSender<'a, R> {
    /// The way from the replica at place `own`.
    pub fn new(rt: &'a R, server: &'a ServerState<'a>, own: usize) -> PeerSender<'a, R> {
        PeerSender {
            rt,
            server: server,
            own,
        }
    }

    fn send(&self, to: usize, message: LinkMsg) {
        let msg = PeerMsg {
            from: self.own,
            message,
        };
        if let Some(handle) = self.server.replicas.get(to) {
            handle.send(self.rt, msg);
        }
    }

    /// Sends these operations to all other open replicas. If memory runs out for one, it is left
    /// out, and asks for what it lacks.
    pub fn send_to_all(&self, alloc: Global, ops: &[SoundOp]) {
        if ops.is_empty() {
            return;
        }
        for (place, handle) in self.server.replicas.iter().enumerate() {
            if place != self.own && handle.is_open(self.rt) {
                self.send_ops_to(alloc, place, ops);
            }
        }
    }

    fn send_ops_to(&self, alloc: Global, place: usize, ops: &[SoundOp]) {
        if let Ok(ops) = copy_ops(alloc, ops) {
            self.send(place, LinkMsg::Ops(ops));
        }
    }
}

impl<'a, R: Wait> PeerLinks for PeerSender<'a, R> {
    ghost asks = { λ p to clock q. Unit {0} };

    ghost sends = { λ p to ops q. Unit {0} };

    fn ask(&mut self, to: usize, clock: Clock) {
        self.send(to, LinkMsg::Have(clock));
    }

    fn send_ops(&mut self, to: usize, ops: Vec<SoundOp>) {
        self.send(to, LinkMsg::Ops(ops));
    }
}

fn copy_ops(alloc: Global, ops: &[SoundOp]) -> Result<Vec<SoundOp>, AllocError> {
    let mut copies = Vec::with_capacity(alloc, ops.len())?;
    for op in ops {
        copies.push(op.copy(alloc)?)?;
    }
    Ok(copies)
}
