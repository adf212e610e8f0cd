//! Replicas that join while the server runs.

use crate::connection_threads::ReplicaContext;
use crate::replica_handle::{CopyRequest, others};
use crate::replica_store::ReplicaStore;
use crate::server_state::ServerState;
use crdt_ops::SoundOp;
use crossbeam_channel::{Receiver, Sender, unbounded};
use durable_log::DurableLog;
use log_files::FileDevice;
use replica_lock::{Book, Pass};
use server_settings::{Join, Place, bind_listener};
use std::alloc::Global;
use std::fmt;
use std::net::{Net, TcpListener, TcpStream};
use std::rt::Clock;
use std::sync::ledger::Ledger;
use std::sync::{Mutex, Wait};
use std::time::Duration;
use tags_clocks::ReplicaId;

/// A replica that is to join.
#[derive(Drop)]
pub struct JoiningReplica<'a> {
    /// Its name and address, and the name of the replica whose operations it takes.
    pub join: Join<'a>,
    /// The place of that replica among all.
    pub peer: usize,
    /// Receives the signal to join.
    pub begin: Receiver<()>,
    /// Sends the signal that it has joined, or couldn't.
    pub done: Sender<()>,
    /// Its log without operations, until it joins; `None` if the server stores nothing.
    pub log: Mutex<Option<DurableLog<FileDevice>>>,
}

/// A replica that runs: its book, its listener, and the places of the others.
#[derive(Drop)]
pub struct JoinedReplica {
    /// Its book.
    pub book: Book,
    /// Its listener.
    pub listener: TcpListener,
    /// The places of the others.
    pub peers: Vec<usize>,
    /// Its store, if it has one.
    pub store: Option<ReplicaStore>,
}

/// Whether a replica joined. The program prints its text.
#[derive(Clone, Copy, Debug, PartialEq, Eq)]
pub enum JoinOutcome<'a> {
    /// It joined, and listens.
    Joined(Join<'a>),
    /// It couldn't join.
    Failed(Join<'a>),
}

impl fmt::Display for JoinOutcome<'_> {
    fn fmt<W: fmt::Write>(&self, f: &mut fmt::Formatter<W>) -> fmt::Result {
        match self {
            JoinOutcome::Joined(Join { place, peer }) => {
                let Place { replica, address } = place;
                write!(f, "joined {replica} {peer}\nlistening {replica} {address}")
            }
            JoinOutcome::Failed(Join { place, peer }) => {
                let Place { replica, .. } = place;
                write!(f, "cannot join {replica} {peer}")
            }
        }
    }
}

impl JoiningReplica<'_> {
    /// Waits for the signal to join, and joins: it listens, takes the operations that its peer
    /// applied, and from then on is open to the others. Prints whether it joined, and signals that
    /// it is done. `None` if it couldn't join.
    pub fn join<R: Print + Wait + Clock + Net<Listener = TcpListener, Stream = TcpStream>>(
        &self,
        rt: &R,
        alloc: Global,
        server: &ServerState<'_>,
        replica: ReplicaId,
        own: usize,
    ) -> Option<JoinedReplica> {
        self.begin.recv(rt).ok()?;
        let joined = self.try_join(rt, alloc, server, replica, own);
        let end = match joined {
            Some(_) => JoinOutcome::Joined(self.join),
            None => JoinOutcome::Failed(self.join),
        };
        let _ = println!(rt; "{end}");
        let _ = self.done.send(rt, ());
        joined
    }

    fn try_join<R: Wait + Clock + Net<Listener = TcpListener, Stream = TcpStream>>(
        &self,
        rt: &R,
        alloc: Global,
        server: &ServerState<'_>,
        replica: ReplicaId,
        own: usize,
    ) -> Option<JoinedReplica> {
        let handle = server.replicas.get(own)?;
        let peers = others(alloc, server.replicas.len(), own).ok()?;
        let Ok(listener) = bind_listener(rt, self.join.place.address) else {
            drop(peers);
            return None;
        };
        let Ok(address) = listener.local_addr() else {
            drop(peers);
            drop(listener);
            return None;
        };
        let Some(book) = book_of_joining(rt, alloc, server, replica, self.peer) else {
            drop(peers);
            drop(listener);
            return None;
        };
        let Some(store) = store_of_joining(alloc, replica, self.log.lock(rt).take(), &book) else {
            drop(peers);
            drop(listener);
            drop(book);
            return None;
        };
        handle.open(rt, address);
        Some(JoinedReplica {
            book,
            listener,
            peers,
            store,
        })
    }
}

/// The book of a replica that joins with the operations of the replica at place `peer`.
/// `None` if it gets no copies of them, or can't join with them.
fn book_of_joining<R: Wait + Clock>(
    rt: &R,
    alloc: Global,
    server: &ServerState<'_>,
    replica: ReplicaId,
    peer: usize,
) -> Option<Book> {
    let ops = request_op_copies(rt, alloc, server, peer)?;
    let book = Book::join(alloc, replica, &ops);
    drop(ops);
    book.ok()
}

/// The store of a replica that joins, with all its operations, if it has a log; `None` if that
/// can't be written.
fn store_of_joining(
    alloc: Global,
    replica: ReplicaId,
    log: Option<DurableLog<FileDevice>>,
    book: &Book,
) -> Option<Option<ReplicaStore>> {
    let Some(mut log) = log else {
        return Some(None);
    };
    if !write_all(alloc, &mut log, book.node().op_list()) {
        drop(log);
        return None;
    }
    match ReplicaStore::new(alloc, replica, log) {
        Ok(store) => Some(Some(store)),
        Err(_) => None,
    }
}

/// Writes and syncs the operations. False if that fails.
fn write_all(alloc: Global, log: &mut DurableLog<FileDevice>, ops: &[SoundOp]) -> bool {
    (ops.is_empty() || log.append(alloc, ops).is_ok()) && log.sync().is_ok()
}

/// Copies of the operations that the replica at a place applied. `None` if it hasn't joined, if
/// memory runs out for the copies, or if it doesn't answer within a minute.
fn request_op_copies<R: Wait + Clock>(
    rt: &R,
    alloc: Global,
    server: &ServerState<'_>,
    place: usize,
) -> Option<Vec<SoundOp>> {
    let handle = server.replicas.get(place)?;
    if !handle.is_open(rt) {
        return None;
    }
    let (reply, copies) = unbounded(alloc).ok()?;
    handle
        .copy_requests
        .send(rt, CopyRequest::Copy(reply))
        .ok()?;
    copies.recv_timeout(rt, Duration::from_secs(60)).ok()?
}

/// Answers requests for copies of a replica's operations until one says `Stop`, and returns the
/// pass. Copies are sent once the operations are synced.
pub fn send_copies<L: Ledger, R: Wait>(
    rt: &R,
    alloc: Global,
    context: &ReplicaContext<'_, L>,
    pass: Pass<L>,
    copy_requests: &Receiver<CopyRequest>,
) -> Pass<L> {
    for _ in rt.forever() {
        match copy_requests.recv(rt) {
            Ok(CopyRequest::Copy(reply)) => {
                let copies = synced_copies(rt, alloc, context, &pass);
                let _ = reply.send(rt, copies);
            }
            Ok(CopyRequest::Stop) => return pass,
            Err(_) => return pass,
        }
    }
    pass
}

/// Copies of a replica's operations, once they are synced. `None` if memory runs out or they can't
/// be synced.
fn synced_copies<L: Ledger, R: Wait>(
    rt: &R,
    alloc: Global,
    context: &ReplicaContext<'_, L>,
    pass: &Pass<L>,
) -> Option<Vec<SoundOp>> {
    let copies = context.shared.ops_copy(rt, alloc, pass).ok()?;
    let Some(store) = context.store else {
        return Some(copies);
    };
    match store.sync_to(rt, alloc, context, copies.len() as u64) {
        Ok(()) => Some(copies),
        Err(_) => {
            drop(copies);
            None
        }
    }
}
