//! Operations that lines spell, and the texts of operations.

use crdt_ops::{OpFault, SoundOp, into_sound_op, read_op, write_op};
use durable_log::StoreFault;
use log_files::FolderFault;
use std::alloc::{AllocError, AllocFailed, Global};
use std::io;
use tags_clocks::ReplicaId;

/// Why a test can't go on.
#[derive(Debug, Drop)]
pub enum Trouble {
    /// Memory ran out.
    NoMemory,
    /// A line or a number isn't what a test needs.
    NotInForm,
    /// A log has a fault.
    Log,
    /// A folder or a log in it has a fault.
    Folder,
    /// The system refused a call.
    System,
}

impl From<AllocError> for Trouble {
    fn from(_fault: AllocError) -> Trouble {
        Trouble::NoMemory
    }
}

impl<T: Drop> From<AllocFailed<T>> for Trouble {
    fn from(_fault: AllocFailed<T>) -> Trouble {
        Trouble::NoMemory
    }
}

impl From<StoreFault> for Trouble {
    fn from(_fault: StoreFault) -> Trouble {
        Trouble::Log
    }
}

impl From<FolderFault> for Trouble {
    fn from(_fault: FolderFault) -> Trouble {
        Trouble::Folder
    }
}

impl From<io::Error> for Trouble {
    fn from(_fault: io::Error) -> Trouble {
        Trouble::System
    }
}

/// Two operations of one replica, and one of another.
pub const LINES: &[&str] = &[
    "1:1 - create work",
    "1:2 1=1 append work (\\Seen zed) \"17-Jul-1996 02:44:25 -0700\" =x~0Ay",
    "2:1 1=1 create a~20b",
];

/// The replica whose log it is.
pub fn replica(number: u32) -> Result<ReplicaId, Trouble> {
    ReplicaId::new(number).ok_or(Trouble::NotInForm)
}

/// The operation that a line spells.
fn operation(alloc: Global, line: &str) -> Result<SoundOp, Trouble> {
    match read_op(alloc, line.as_bytes()) {
        Ok(op) => into_sound_op(op).ok_or(Trouble::NotInForm),
        Err(OpFault::NoMemory) => Err(Trouble::NoMemory),
        Err(OpFault::NotInForm) => Err(Trouble::NotInForm),
    }
}

/// The operations that these lines spell.
pub fn operations(alloc: Global, lines: &[&str]) -> Result<Vec<SoundOp>, Trouble> {
    let mut ops = Vec::new(alloc);
    for line in lines {
        ops.push(operation(alloc, line)?)?;
    }
    Ok(ops)
}

/// The texts of operations, each with a line end.
pub fn text_of(alloc: Global, ops: &[SoundOp]) -> Result<Vec<u8>, Trouble> {
    let mut text = Vec::new(alloc);
    for op in ops {
        write_op(alloc, op, &mut text)?;
        text.push(b'\n')?;
    }
    Ok(text)
}

/// The text of the operations that lines spell.
pub fn text_of_lines(alloc: Global, lines: &[&str]) -> Result<Vec<u8>, Trouble> {
    let ops = operations(alloc, lines)?;
    text_of(alloc, &ops)
}
