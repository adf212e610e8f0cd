//! The state that all threads of a process's links share.

use crate::chains::Chains;
use crate::connection::LinkConnection;
use crate::link_replica::LinkReplica;
use crate::link_slots::LinkSlots;
use crate::link_table::LinkEntry;
use crate::op_batch::MOST_OPS;
use crate::signal::LinkSignal;
use crdt_ops::SoundOp;
use keyed_digest::hmac;
use link_wire::{ByeReason, WireMessage};
use std::alloc::{AllocError, Global};
use std::net::{Net, TcpListener, TcpStream};
use std::rt::Clock as Time;
use std::sync::{Arc, Mutex, Wait};
use std::time::Instant;
use tags_clocks::{Clock, ReplicaId};

/// A process to which this one opens connections.
#[derive(Clone, Copy, Debug, PartialEq, Eq)]
pub struct LinkPeer<'a> {
    /// The name of its replica.
    pub name: ReplicaId,
    /// The address at which it listens for links.
    pub address: &'a str,
}

/// What the links of a process need to start.
#[derive(Drop)]
pub struct LinkSetup<'a> {
    /// The name of its replica.
    pub own: ReplicaId,
    /// The octets that the process drew when it started, and says on each connection.
    pub run: [u8; 16],
    /// The octets that it drew when it started, and says to nobody: what it draws later is computed
    /// from them.
    pub seed: [u8; 32],
    /// What all processes know.
    pub secret: Vec<u8>,
    /// Where it listens for links, if it does.
    pub listener: Option<TcpListener>,
    /// The processes to which it opens connections.
    pub peers: Vec<LinkPeer<'a>>,
}

/// The links of a process.
#[derive(Drop)]
pub struct Links<'a> {
    /// What they started with.
    pub setup: LinkSetup<'a>,
    /// Given when there may be something to write or to end.
    pub signal: LinkSignal,
    began: Option<Instant>,
    drawn: Mutex<u64>,
    chains: Mutex<Chains>,
    slots: Mutex<LinkSlots>,
}

impl<'a> Links<'a> {
    /// None yet.
    pub fn new<R: Time>(rt: &R, alloc: Global, setup: LinkSetup<'a>) -> Links<'a> {
        Links {
            setup,
            signal: LinkSignal::new(),
            began: Instant::now(rt).ok(),
            drawn: Mutex::new(0),
            chains: Mutex::new(Chains::new(alloc)),
            slots: Mutex::new(LinkSlots::new(alloc)),
        }
    }

    /// The milliseconds since they began; 0 if the clock can't be read.
    pub fn now<R: Time>(&self, rt: &R) -> u64 {
        match self.began {
            Some(began) => match began.elapsed(rt) {
                Ok(elapsed) => u64::try_from(elapsed.as_millis()).unwrap_or(u64::MAX),
                Err(_) => 0,
            },
            None => 0,
        }
    }

    /// Octets that nobody else can know, others at each call.
    pub fn draw<R: Wait>(&self, rt: &R) -> [u8; 32] {
        let mut drawn = self.drawn.lock(rt);
        let number = *drawn;
        *drawn = number.wrapping_add(1);
        hmac(&self.setup.seed, &number.to_be_bytes())
    }

    /// A new connection. `None` if memory runs out.
    pub fn connection<R: Wait>(
        &self,
        rt: &R,
        alloc: Global,
        stream: TcpStream,
    ) -> Option<Arc<LinkConnection>> {
        let number = self.slots.lock(rt).take_number();
        Arc::new(alloc, LinkConnection::new(number, stream)).ok()
    }

    /// Adds an accepted connection, whose peer hasn't proved itself, to those that wait for a
    /// thread. If there are as many as there may be, the oldest ends. False if memory runs out.
    pub fn add_accepted<R: Wait>(&self, rt: &R, connection: Arc<LinkConnection>) -> bool {
        let Ok(known) = Arc::try_clone(&connection) else {
            return false;
        };
        let (is_added, oldest) = self.slots.lock(rt).add_accepted(connection, known);
        close(oldest);
        is_added
    }

    /// One of the connections that wait for a thread.
    pub fn take_accepted<R: Wait>(&self, rt: &R) -> Option<Arc<LinkConnection>> {
        self.slots.lock(rt).take_accepted()
    }

    /// The peer of this connection proved itself, or the connection ended.
    pub fn remove_unproved<R: Wait>(&self, rt: &R, number: u64) {
        let removed = self.slots.lock(rt).remove_unproved(number);
        drop(removed);
    }

    /// Makes a connection a link, if it may be one. The one whose place it takes ends.
    pub fn admit<R: Wait>(
        &self,
        rt: &R,
        entry: &LinkEntry,
        connection: &Arc<LinkConnection>,
    ) -> Result<(), ByeReason> {
        let Ok(connection) = Arc::try_clone(connection) else {
            return Err(ByeReason::Memory);
        };
        match self.slots.lock(rt).admit(entry, connection) {
            Ok(replaced) => {
                close(replaced);
                Ok(())
            }
            Err(reason) => Err(reason),
        }
    }

    /// The link with this number ended.
    pub fn remove<R: Wait>(&self, rt: &R, number: u64) {
        let removed = self.slots.lock(rt).remove(number);
        drop(removed);
        self.signal.give(rt);
    }

    /// Whether there is a link with this name.
    pub fn is_linked<R: Wait>(&self, rt: &R, peer: ReplicaId) -> bool {
        self.slots.lock(rt).is_linked(peer)
    }

    /// Links this peer no more. False if it wasn't to be linked before. If memory runs out, it may
    /// be linked again.
    pub fn refuse<R: Wait>(&self, rt: &R, peer: ReplicaId, reason: ByeReason) -> bool {
        let mut slots = self.slots.lock(rt);
        if slots.refusal(peer).is_some() {
            return false;
        }
        let _ = slots.refuse(peer, reason);
        true
    }

    /// Whether this peer isn't linked any more.
    pub fn is_refused<R: Wait>(&self, rt: &R, peer: ReplicaId) -> bool {
        self.slots.lock(rt).refusal(peer).is_some()
    }

    /// Whether the links are to end.
    pub fn is_stopped<R: Wait>(&self, rt: &R) -> bool {
        self.slots.lock(rt).is_stopped()
    }

    /// Ends all links, and the threads that would begin further ones.
    pub fn stop<R: Wait + Net<Listener = TcpListener, Stream = TcpStream>>(&self, rt: &R) {
        self.slots.lock(rt).stop();
        self.signal.give(rt);
        self.wake_acceptor(rt);
    }

    /// Opens a connection to the own listener, so that its thread sees that the links are to end.
    fn wake_acceptor<R: Net<Listener = TcpListener, Stream = TcpStream>>(&self, rt: &R) {
        if let Some(listener) = &self.setup.listener {
            if let Ok(address) = listener.local_addr() {
                let _ = TcpStream::connect(rt, address);
            }
        }
    }

    /// What the replica has, with its chains. `None` if memory runs out.
    pub fn have<R: Wait, P: LinkReplica>(
        &self,
        rt: &R,
        alloc: Global,
        replica: &P,
    ) -> Option<WireMessage> {
        let mut chains = self.chains.lock(rt);
        note_applied(rt, alloc, &mut chains, replica)?;
        let (clock, chains) = chains.have(alloc).ok()?;
        Some(WireMessage::Have { clock, chains })
    }

    /// The first replica of whose operations a peer has others than this one, by its clock and
    /// chains. Nothing is compared that memory doesn't suffice for.
    pub fn first_fork<R: Wait, P: LinkReplica>(
        &self,
        rt: &R,
        alloc: Global,
        replica: &P,
        clock: &Clock,
        peer_chains: &[u8],
    ) -> Option<ReplicaId> {
        let mut chains = self.chains.lock(rt);
        let _ = note_applied(rt, alloc, &mut chains, replica);
        chains.first_fork(clock, peer_chains)
    }
}

/// Notes what the replica applied since, some operations at a time.
fn note_applied<R: Wait, P: LinkReplica>(
    rt: &R,
    alloc: Global,
    chains: &mut Chains,
    replica: &P,
) -> Option<()> {
    for _ in rt.forever() {
        let ops = replica.ops_from(chains.count(), MOST_OPS)?;
        note_all(alloc, chains, &ops).ok()?;
        if ops.len() < MOST_OPS {
            break;
        }
    }
    Some(())
}

fn note_all(alloc: Global, chains: &mut Chains, ops: &[SoundOp]) -> Result<(), AllocError> {
    for op in ops {
        chains.note(alloc, op)?;
    }
    Ok(())
}

/// Closes a connection, if there is one.
fn close(connection: Option<Arc<LinkConnection>>) {
    if let Some(connection) = connection {
        connection.close();
    }
}
