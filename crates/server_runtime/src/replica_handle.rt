//! The replicas of a server, as others reach them.

ghost use Rattle.std.specs.Prelude.{◌≡◌, IfOk};
ghost use Rattle.server_runtime.specs.Places.{all_but};

use crdt_ops::SoundOp;
use crossbeam_channel::{Receiver, Sender};
use replica_links::{LinkMsg, PeerMsg};
use std::alloc::{AllocError, Global};
use std::net::{Net, SocketAddr, TcpListener, TcpStream};
use std::sync::{Mutex, Wait};

/// A request to the thread that copies its replica's operations.
#[derive(Drop)]
pub enum CopyRequest {
    /// Send copies of the operations, in the order in which they were applied; `None` if memory
    /// runs out.
    Copy(Sender<Option<Vec<SoundOp>>>),
    /// End the thread.
    Stop,
}

/// A replica, as others reach it.
#[derive(Drop)]
pub struct ReplicaHandle {
    /// Sends messages to it.
    pub link: Sender<PeerMsg>,
    /// Sends requests for copies of its operations.
    pub copy_requests: Sender<CopyRequest>,
    /// The address at which it listens; `None` as long as it hasn't joined.
    pub address: Mutex<Option<SocketAddr>>,
    /// Locked from a client's command until what it issued was sent, so that the others get a
    /// replica's operations in their order.
    pub send_lock: Mutex<()>,
}

impl ReplicaHandle {
    /// Whether the replica runs; false until one that is to join has joined.
    pub fn is_open<R: Wait>(&self, rt: &R) -> bool {
        self.address.lock(rt).is_some()
    }

    /// Opens the replica for others: it listens at this address.
    pub fn open<R: Wait>(&self, rt: &R, address: SocketAddr) {
        *self.address.lock(rt) = Some(address);
    }

    /// Sends a message to the replica, if it runs.
    pub fn send<R: Wait>(&self, rt: &R, msg: PeerMsg) {
        if self.is_open(rt) {
            let _ = self.link.send(rt, msg);
        }
    }

    /// Wakes the replica's threads, so that they notice that the server stops: by a connection, a
    /// message `Stop` from the replica's own place, and a request `Stop`.
    pub fn wake<R: Wait + Net<Listener = TcpListener, Stream = TcpStream>>(
        &self,
        rt: &R,
        place: usize,
    ) {
        let address = *self.address.lock(rt);
        let Some(address) = address else {
            return;
        };
        let _ = TcpStream::connect(rt, address);
        let msg = PeerMsg {
            from: place,
            message: LinkMsg::Stop,
        };
        let _ = self.link.send(rt, msg);
        let _ = self.copy_requests.send(rt, CopyRequest::Stop);
    }
}

/// The signals between the thread of a replica that is to join and the thread that starts the
/// joins.
#[derive(Drop)]
pub struct JoinSignal {
    /// Sends the signal to join.
    pub begin: Sender<()>,
    /// Receives the signal that it has joined, or couldn't.
    pub done: Receiver<()>,
}

/// The replicas that are to join once the first connection has ended.
#[derive(Drop)]
pub struct JoiningReplicas {
    signals: Mutex<Vec<JoinSignal>>,
}

impl JoiningReplicas {
    /// The replicas with these signals, in their order.
    pub fn new(signals: Vec<JoinSignal>) -> JoiningReplicas {
        JoiningReplicas {
            signals: Mutex::new(signals),
        }
    }

    /// At its first call, signals each replica to join, in their order, and waits until it did or
    /// couldn't. A caller that arrives in the meantime waits too.
    pub fn begin_all<R: Wait>(&self, rt: &R) {
        let mut signals = self.signals.lock(rt);
        for signal in signals.iter() {
            if signal.begin.send(rt, ()).is_ok() {
                let _ = signal.done.recv(rt);
            }
        }
        signals.clear();
    }
}

/// The places below `places` except `own`, ascending. `Err` if memory runs out.
#[tactic(auto, using(crate::proofs::PlaceLemmas::all_but_own, crate::proofs::PlaceLemmas::all_but_other))]
pub fn others(alloc: Global, places: usize, own: usize) -> Result<Vec<usize>, AllocError>
    ensures { IfOk result (λ others. others.items ≡ all_but own places) }
{
    let mut others = Vec::with_capacity(alloc, places)?;
    for place in 0..places {
        if place != own {
            others.push(place)?;
        }
    }
    Ok(others)
}
