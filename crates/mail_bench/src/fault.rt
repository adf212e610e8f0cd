//! Why a run ended early.

use crate::answers::Status;
use crate::replies::ReplyFault;
use std::alloc::{AllocError, AllocFailed};
use std::io::ErrorKind;
use std::{fmt, io};

/// Why a run ended early; the program prints its text.
#[derive(Clone, Copy)]
pub enum BenchFault {
    /// No connection could be made.
    Connect,
    /// The server closed the connection.
    Closed,
    /// The server said BYE.
    Bye,
    /// A command was answered NO.
    No,
    /// A command was answered BAD.
    Bad,
    /// An answer can't be read, or has another tag.
    Unreadable,
    /// An answer's line is too long.
    LongLine,
    /// An answer's literal is too long.
    LongLiteral,
    /// More answers arrived than are read for one command.
    Endless,
    /// Nothing arrived for too long.
    Silent,
    /// A read failed.
    Read,
    /// A write failed.
    Write,
    /// The mailbox has fewer messages than were appended.
    Missing,
    /// The clock can't be read.
    Clock,
    /// The line can't be printed.
    Print,
    /// Memory ran out.
    NoMemory,
}

impl BenchFault {
    /// The text that the program prints.
    fn text(self) -> &'static str {
        match self {
            BenchFault::Connect => "cannot connect",
            BenchFault::Closed => "the server closed the connection",
            BenchFault::Bye => "the server said BYE",
            BenchFault::No => "the server answered NO",
            BenchFault::Bad => "the server answered BAD",
            BenchFault::Unreadable => "the server's answer is unreadable",
            BenchFault::LongLine => "the server's answer has too long a line",
            BenchFault::LongLiteral => "the server's answer has too long a literal",
            BenchFault::Endless => "the server's answers don't end",
            BenchFault::Silent => "the server was silent for 30 seconds",
            BenchFault::Read => "a read failed",
            BenchFault::Write => "a write failed",
            BenchFault::Missing => "the mailbox has fewer messages than were appended",
            BenchFault::Clock => "the clock can't be read",
            BenchFault::Print => "the measurement can't be printed",
            BenchFault::NoMemory => "no memory",
        }
    }
}

impl fmt::Display for BenchFault {
    fn fmt<W: fmt::Write>(&self, f: &mut fmt::Formatter<W>) -> fmt::Result {
        f.write_str(self.text())
    }
}

impl From<AllocError> for BenchFault {
    fn from(_none: AllocError) -> BenchFault {
        BenchFault::NoMemory
    }
}

impl<T: Drop> From<AllocFailed<T>> for BenchFault {
    fn from(_none: AllocFailed<T>) -> BenchFault {
        BenchFault::NoMemory
    }
}

impl From<ReplyFault> for BenchFault {
    fn from(fault: ReplyFault) -> BenchFault {
        match fault {
            ReplyFault::LongLine => BenchFault::LongLine,
            ReplyFault::LongLiteral => BenchFault::LongLiteral,
            ReplyFault::NoMemory => BenchFault::NoMemory,
        }
    }
}

/// Why a read failed.
pub fn read_fault(error: &io::Error) -> BenchFault {
    match error.kind() {
        ErrorKind::WouldBlock | ErrorKind::TimedOut => BenchFault::Silent,
        _ => BenchFault::Read,
    }
}

/// The result of a command with this status: `Err` if it isn't OK.
pub fn status_result(status: Status) -> Result<(), BenchFault> {
    match status {
        Status::Done => Ok(()),
        Status::No => Err(BenchFault::No),
        Status::Bad => Err(BenchFault::Bad),
    }
}
