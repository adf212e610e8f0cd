//! Why no further commands can be read from a connection.

ghost use Rattle.std.specs.Prelude.{◌≡◌};

use crate::item::Item;
use std::alloc::{AllocError, AllocFailed};
use thiserror::Error;

/// Why the framer failed. Every later call returns `Failed`.
#[derive(Clone, Copy, Debug, PartialEq, Eq, Error)]
pub enum FrameFaultKind {
    /// A command has more octets outside its literals than the limit allows.
    #[error("line too long")]
    LineTooLong,
    /// A mark `{n+}` announces more octets than the limit leaves.
    #[error("literal too long")]
    LiteralTooLong,
    /// An octet is NUL, even within a literal (RFC 9051, section 9: neither `CHAR` nor `CHAR8`
    /// includes it).
    #[error("NUL octet")]
    NulByte,
    /// Memory ran out for an octet or an item.
    #[error("no memory")]
    NoMemory,
    /// The framer failed in an earlier call.
    #[error("failed earlier")]
    Failed,
}

/// A fault, and the items before it in the same piece of input.
#[derive(Drop, Debug)]
pub struct FrameFault {
    /// The items before the fault. With `NoMemory`, the first items that the piece completes,
    /// possibly not all: memory may run out at any octet.
    pub items: Vec<Item>,
    /// Which fault it is.
    pub why: FrameFaultKind,
}

impl From<AllocError> for FrameFaultKind {
    ghost use Rattle.imap_lex.specs.declared.fault.FrameFaultKind.TheVariants.{NoMemory};

    ghost from_gives = { λ _ why. why ≡ NoMemory };

    fn from(_: AllocError) -> FrameFaultKind {
        FrameFaultKind::NoMemory
    }
}

impl<T: Drop> From<AllocFailed<T>> for FrameFaultKind {
    ghost use Rattle.imap_lex.specs.declared.fault.FrameFaultKind.TheVariants.{NoMemory};

    ghost from_gives = { λ _ why. why ≡ NoMemory };

    fn from(_: AllocFailed<T>) -> FrameFaultKind {
        FrameFaultKind::NoMemory
    }
}
