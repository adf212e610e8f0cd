//! Why a line has no answer.

use imap_types::EscapeFault;
use std::alloc::{AllocError, AllocFailed};

/// Why a line has no answer.
#[derive(Clone, Copy)]
pub enum Trouble {
    /// The line doesn't have the form of a case, or a program's result for it doesn't.
    NotACase,
    /// The line names a message number that doesn't exist.
    OutOfRange,
    /// Memory ran out.
    NoMemory,
}

impl From<AllocError> for Trouble {
    fn from(_fault: AllocError) -> Trouble {
        Trouble::NoMemory
    }
}

impl<T: Drop> From<AllocFailed<T>> for Trouble {
    fn from(_fault: AllocFailed<T>) -> Trouble {
        Trouble::NoMemory
    }
}

impl From<EscapeFault> for Trouble {
    fn from(fault: EscapeFault) -> Trouble {
        match fault {
            EscapeFault::NotEscaped => Trouble::NotACase,
            EscapeFault::NoMemory => Trouble::NoMemory,
        }
    }
}
