//! The line `restart`, at which a replica starts again from the operations that it applied.

use crate::event_watch::EventWatch;
use crate::given_events::give_op;
use crate::lines::new_book;
use crate::play_fault::PlayFault;
use crate::play_state::{BookSession, PlayRecord, PlayState, replica_place};
use crdt_ops::SoundOp;
use merge_laws::Caused;
use replica_lock::{Book, JoinFault};
use std::alloc::{AllocError, Global};
use std::mem;
use tags_clocks::ReplicaId;

/// Has a replica start again from the operations that it applied; its sessions end.
pub fn restart(
    alloc: Global,
    state: &mut PlayState,
    name: ReplicaId,
    record: &mut PlayRecord,
) -> Result<(), PlayFault> {
    let Some(place) = replica_place(&state.replicas, name) else {
        return Err(PlayFault::BadScript);
    };
    let restarted = restarted_book(alloc, &state.replicas[place].book, &mut record.watch)?;
    drop(mem::replace(&mut state.replicas[place].book, restarted));
    end_sessions(&mut state.sessions, name);
    Ok(())
}

/// The book of a replica with the same first numbers that applied the same operations. If its
/// numbers count from 1 it is restored, otherwise the operations are delivered to a new book.
fn restarted_book(alloc: Global, book: &Book, watch: &mut EventWatch) -> Result<Book, PlayFault> {
    let node = book.node();
    let start = node.replica().start();
    if start.uid == 1 && start.k == 1 {
        return restored(alloc, start.replica, node.op_list());
    }
    let mut restarted = new_book(alloc, &start)?;
    if let Err(fault) = give_all(alloc, &mut restarted, node.op_list(), watch) {
        drop(restarted);
        return Err(PlayFault::from(fault));
    }
    Ok(restarted)
}

/// The book that is restored with copies of these operations, made once more if memory runs out.
fn restored(alloc: Global, name: ReplicaId, ops: &[SoundOp]) -> Result<Book, PlayFault> {
    match restored_once(alloc, name, ops) {
        Ok(book) => Ok(book),
        Err(PlayFault::NoMemory) => restored_once(alloc, name, ops),
        Err(PlayFault::BadScript) => Err(PlayFault::BadScript),
    }
}

fn restored_once(alloc: Global, name: ReplicaId, ops: &[SoundOp]) -> Result<Book, PlayFault> {
    match Book::restore(alloc, name, copy_ops(alloc, ops)?) {
        Ok(book) => Ok(book),
        Err(JoinFault::NoMemory) => Err(PlayFault::NoMemory),
        Err(_) => Err(PlayFault::BadScript),
    }
}

fn copy_ops(alloc: Global, ops: &[SoundOp]) -> Result<Vec<SoundOp>, AllocError> {
    let mut copies = Vec::with_capacity(alloc, ops.len())?;
    for op in ops {
        copies.push(op.copy(alloc)?)?;
    }
    Ok(copies)
}

/// Delivers copies of these operations to a book, in their order.
fn give_all(
    alloc: Global,
    book: &mut Book,
    ops: &[SoundOp],
    watch: &mut EventWatch,
) -> Result<(), AllocError> {
    for op in ops {
        drop(give_op(alloc, book, op, watch)?);
    }
    Ok(())
}

/// Ends the sessions of the replica of this name.
fn end_sessions(sessions: &mut [BookSession], name: ReplicaId) {
    for session in sessions.iter_mut() {
        if session.replica == name {
            drop(session.connection.take());
        }
    }
}
