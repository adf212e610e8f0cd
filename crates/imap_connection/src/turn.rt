//! The turns of a conversation, and the faults that end it.

ghost use Rattle.std.specs.Prelude.{◌≡◌};

use imap_lex::FrameFaultKind;
use imap_types::Octets;
use std::alloc::AllocError;

/// One turn of a conversation.
#[derive(Drop)]
pub enum Turn {
    /// A complete command or line that arrived, or the beginning of a command that was refused for
    /// its literal.
    Got(Octets),
    /// One answer that is sent, with its CRLF.
    Sent(Octets),
}

/// Why a conversation ends. The session is closed.
#[derive(Clone, Copy, Debug, PartialEq, Eq)]
pub enum TalkFaultKind {
    /// The octets can't be cut any further.
    Framing(FrameFaultKind),
    /// Memory ran out for a turn.
    NoMemory,
    /// A line of IDLE was refused because memory ran out.
    LineRefused,
}

impl From<AllocError> for TalkFaultKind {
    ghost use Rattle.imap_connection.specs.declared.turn.TalkFaultKind.TheVariants.{NoMemory};

    ghost from_gives = { λ _ kind. kind ≡ NoMemory };

    fn from(_none: AllocError) -> TalkFaultKind {
        TalkFaultKind::NoMemory
    }
}

/// The end of a conversation, with the turns before it.
#[derive(Drop)]
pub struct TalkFault {
    /// The turns before the fault, with the BYE after `LineTooLong`, `LiteralTooLong`, `NulByte`
    /// and `LineRefused`.
    pub turns: Vec<Turn>,
    /// Which fault.
    pub why: TalkFaultKind,
}
