//! Replicas, sessions and commands for the tests.

use crdt_ops::{SoundOp, into_sound_op, read_op};
use imap_grammar::parse;
use imap_node::{Auth, Node};
use imap_types::Moment;
use merge_laws::Caused;
use replica_lock::{Book, Pass, Shared};
use std::alloc::{AllocError, Global};
use std::sync::Wait;
use std::sync::ledger::Ledger;
use tags_clocks::ReplicaId;
use uid_projection::Counters;

/// A new replica with this number and with this first UID of INBOX; `None` for 0.
pub fn book_from(alloc: Global, number: u32, uid: u32) -> Option<Book> {
    if uid == 0 {
        return None;
    }
    let replica = ReplicaId::new(number)?;
    let start = Counters { replica, uid, k: 1 };
    match Node::new(alloc, start) {
        Ok(node) => Some(Book::new(alloc, node)),
        Err(_) => None,
    }
}

/// Opens a session of a known user; false if the pass has one, or it can't be opened.
pub fn open_one<L: Ledger, R: Wait>(
    rt: &R,
    alloc: Global,
    shared: &Shared<L>,
    pass: &mut Pass<L>,
) -> bool {
    if pass.session().is_some() {
        return false;
    }
    shared.open(rt, alloc, pass, Auth::Preauth).is_ok() && pass.session().is_some()
}

/// Gives the pass's session the command that a line spells; false if there is no session or no such
/// command.
pub fn give<L: Ledger, R: Wait>(
    rt: &R,
    alloc: Global,
    shared: &Shared<L>,
    pass: &mut Pass<L>,
    line: &[u8],
) -> bool {
    if pass.session().is_none() {
        return false;
    }
    match parse(alloc, line) {
        Ok(tagged) => shared
            .command(rt, alloc, pass, Moment::epoch(), tagged)
            .is_ok(),
        Err(_) => false,
    }
}

/// The operations that lines spell, in their order; `None` if a line spells no sound operation.
pub fn operations(alloc: Global, lines: &[&str]) -> Option<Vec<SoundOp>> {
    let mut ops = Vec::new(alloc);
    if push_operations(alloc, lines, &mut ops) {
        Some(ops)
    } else {
        drop(ops);
        None
    }
}

fn push_operations(alloc: Global, lines: &[&str], ops: &mut Vec<SoundOp>) -> bool {
    for line in lines {
        let Some(op) = operation(alloc, line) else {
            return false;
        };
        if ops.push(op).is_err() {
            return false;
        }
    }
    true
}

/// The operation that a line spells, if it is sound.
pub fn operation(alloc: Global, line: &str) -> Option<SoundOp> {
    match read_op(alloc, line.as_bytes()) {
        Ok(op) => into_sound_op(op),
        Err(_) => None,
    }
}

/// Copies of operations.
pub fn copies(alloc: Global, ops: &[SoundOp]) -> Result<Vec<SoundOp>, AllocError> {
    let mut copies = Vec::new(alloc);
    match push_copies(alloc, ops, &mut copies) {
        Ok(()) => Ok(copies),
        Err(fault) => {
            drop(copies);
            Err(fault)
        }
    }
}

fn push_copies(
    alloc: Global,
    ops: &[SoundOp],
    copies: &mut Vec<SoundOp>,
) -> Result<(), AllocError> {
    for op in ops {
        copies.push(op.copy(alloc)?)?;
    }
    Ok(())
}

/// The book of a replica that joins with these operations, if it does.
pub fn join(alloc: Global, number: u32, ops: &[SoundOp]) -> Option<Book> {
    let id = ReplicaId::new(number)?;
    Book::join(alloc, id, ops).ok()
}
