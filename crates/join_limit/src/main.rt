//! The program `join_limit`, which lets a replica join with the creations of as many folders as a
//! replica can hold, and with those of one more, and prints how each join ends.
//!
//! UIDVALIDITY is below 2^32, and 65,536 times the number of the creation plus the replica's
//! number, so that the 65,536th creation is refused. It is a program and no test since a test,
//! which is built with all checks, would take minutes for so many operations.
#![tactic(auto)]

use crdt_ops::{SoundOp, into_sound_op, read_op};
use replica_lock::{Book, JoinFault};
use std::alloc::Global;
use std::process::ExitCode;
use tags_clocks::ReplicaId;

/// The number of folders that a replica can create.
const MOST_FOLDERS: u32 = 65_535;

fn main(rt: HostRuntime) -> ExitCode {
    for count in [MOST_FOLDERS, MOST_FOLDERS + 1] {
        let outcome = outcome_of_join(rt.alloc(), count);
        if println!(rt; "{count} creations: {outcome}").is_err() {
            return ExitCode::from(3);
        }
    }
    ExitCode::from(0)
}

/// How the join of a replica with the creations of this many folders ends.
fn outcome_of_join(alloc: Global, count: u32) -> &'static str {
    let Some(id) = ReplicaId::new(2) else {
        return "no replica";
    };
    let Some(ops) = creations(alloc, count) else {
        return "no operations";
    };
    let joined = Book::join(alloc, id, &ops);
    drop(ops);
    match joined {
        Ok(book) => {
            drop(book);
            "joined"
        }
        Err(fault) => fault_text(fault),
    }
}

fn fault_text(fault: JoinFault) -> &'static str {
    match fault {
        JoinFault::Own { .. } => "Own",
        JoinFault::NotCausal { .. } => "NotCausal",
        JoinFault::Exhausted => "Exhausted",
        JoinFault::NoMemory => "NoMemory",
    }
}

/// The creations of this many folders by the first replica, one after another.
fn creations(alloc: Global, count: u32) -> Option<Vec<SoundOp>> {
    let mut ops = Vec::new(alloc);
    for before in 0..count {
        let pushed = match creation(alloc, before) {
            Some(op) => ops.push(op).is_ok(),
            None => false,
        };
        if !pushed {
            drop(ops);
            return None;
        }
    }
    Some(ops)
}

/// The creation of a folder by the first replica, after `before` others.
fn creation(alloc: Global, before: u32) -> Option<SoundOp> {
    if before == 0 {
        return operation(alloc, "1:1 - create f1");
    }
    let number = before.saturating_add(1);
    let line = format!(in alloc; "1:{number} 1={before} create f{number}").ok()?;
    operation(alloc, line.as_str())
}

/// The operation that a line spells, if it is sound.
fn operation(alloc: Global, line: &str) -> Option<SoundOp> {
    match read_op(alloc, line.as_bytes()) {
        Ok(op) => into_sound_op(op),
        Err(_) => None,
    }
}
