//! Faults of frames that are no command.

use std::alloc::{AllocError, AllocFailed};

/// Why a frame is no command. A fault changes nothing.
#[derive(Clone, Copy, Debug, PartialEq, Eq, thiserror::Error)]
pub enum ParseFault {
    /// The frame doesn't begin with a tag and a space.
    #[error("no tag")]
    NoTag,
    /// The word after the tag isn't that of a command.
    #[error("unknown command")]
    UnknownCommand,
    /// The command's syntax is wrong.
    #[error("bad syntax")]
    BadSyntax,
    /// A form of IMAP that this server doesn't support.
    #[error("not in this profile")]
    NotInProfile,
    /// Memory ran out.
    #[error("no memory")]
    NoMemory,
}

impl From<AllocError> for ParseFault {
    ghost use Rattle.std.specs.Prelude.{◌≡◌};
    ghost use Rattle.imap_grammar.specs.declared.fault.ParseFault.TheVariants.{NoMemory};

    ghost from_gives = { λ _ e. e ≡ NoMemory };

    fn from(_e: AllocError) -> ParseFault {
        ParseFault::NoMemory
    }
}

impl<T: Drop> From<AllocFailed<T>> for ParseFault {
    ghost use Rattle.std.specs.Prelude.{◌≡◌};
    ghost use Rattle.imap_grammar.specs.declared.fault.ParseFault.TheVariants.{NoMemory};

    ghost from_gives = { λ _ e. e ≡ NoMemory };

    fn from(_e: AllocFailed<T>) -> ParseFault {
        ParseFault::NoMemory
    }
}
