//! Why a line isn't read.

ghost use Rattle.std.specs.Prelude.{◌≡◌};

use crdt_ops::{OpFault, Unsound};
use hex::FromHexError;
use std::alloc::{AllocError, AllocFailed};
use thiserror::Error;

/// Why a line isn't read as a message.
#[derive(Clone, Copy, Debug, PartialEq, Eq, Error)]
pub enum LineFault {
    /// It spells no message.
    #[error("not the form of a message")]
    NotInForm,
    /// It spells an operation that isn't sound.
    #[error("unsound operation")]
    Unsound(Unsound),
    /// Memory ran out for its parts.
    #[error("no memory")]
    NoMemory,
}

impl From<AllocError> for LineFault {
    ghost use Rattle.link_wire.specs.declared.line_fault.LineFault.TheVariants.{NoMemory};

    ghost from_gives = { λ _ fault. fault ≡ NoMemory };

    fn from(_: AllocError) -> LineFault {
        LineFault::NoMemory
    }
}

impl<T: Drop> From<AllocFailed<T>> for LineFault {
    ghost use Rattle.link_wire.specs.declared.line_fault.LineFault.TheVariants.{NoMemory};

    ghost from_gives = { λ _ fault. fault ≡ NoMemory };

    fn from(_: AllocFailed<T>) -> LineFault {
        LineFault::NoMemory
    }
}

impl From<OpFault> for LineFault {
    ghost use Rattle.link_wire.specs.LineFaults.{of_op_fault};

    ghost from_gives = { λ fault line_fault. line_fault ≡ of_op_fault fault };

    fn from(fault: OpFault) -> LineFault {
        match fault {
            OpFault::NotInForm => LineFault::NotInForm,
            OpFault::NoMemory => LineFault::NoMemory,
        }
    }
}

impl From<FromHexError> for LineFault {
    ghost use Rattle.link_wire.specs.LineFaults.{of_hex_error};

    ghost from_gives = { λ error line_fault. line_fault ≡ of_hex_error error };

    fn from(error: FromHexError) -> LineFault {
        match error {
            FromHexError::OutOfMemory => LineFault::NoMemory,
            _ => LineFault::NotInForm,
        }
    }
}
