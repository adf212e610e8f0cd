//! How a conversation ends.

ghost use Rattle.std.specs.Prelude.{◌≡◌};
ghost use Rattle.imap_connection.specs.EndReasons.{bye_text_of, end_reason_of, log_text_of};
ghost use Rattle.imap_connection.specs.declared.end_reason.Ended.TheVariants.{Framing as EndsFraming};

use crate::fault::PortFault;
use imap_answers::ByeReason;
use imap_lex::FrameFaultKind;

/// How a conversation ended.
#[derive(Clone, Copy, Debug, PartialEq, Eq)]
pub enum Ended {
    /// A LOGOUT was answered OK.
    Logout,
    /// The client sends no more.
    PeerClosed,
    /// All sessions of the replica are in use.
    TooManySessions,
    /// The octets can't be cut any further.
    Framing(FrameFaultKind),
    /// A read failed.
    ReadFailed,
    /// A write failed.
    WriteFailed,
    /// Memory ran out.
    NoMemory,
    /// The replica's journal was cut, or the replica doesn't know the session.
    Torn,
    /// The server ended the connection.
    ServerEnded,
}

/// How a conversation ends at this fault of the port.
pub fn end_reason_of(fault: PortFault) -> Ended
    ensures { result ≡ end_reason_of fault }
{
    match fault {
        PortFault::TooManySessions => Ended::TooManySessions,
        PortFault::NoMemory | PortFault::NoRoom => Ended::NoMemory,
        PortFault::Torn | PortFault::PassedOver => Ended::Torn,
        PortFault::ServerEnded => Ended::ServerEnded,
    }
}

/// The BYE that names the end, with its line end; empty if the end has none.
#[tactic(auto, unfolding(imap_answers::specs::AnswerText::line_of_answer))]
pub fn bye_text_of(reason: Ended) -> &'static [u8]
    ensures { result.now ≡ bye_text_of reason }
{
    match reason {
        Ended::Logout
        | Ended::PeerClosed
        | Ended::ReadFailed
        | Ended::WriteFailed
        | Ended::ServerEnded => b"",
        Ended::TooManySessions => b"* BYE too many sessions\r\n",
        Ended::Framing(why) => framing_text(why),
        Ended::NoMemory => b"* BYE no memory\r\n",
        Ended::Torn => b"* BYE replica changed\r\n",
    }
}

#[tactic(auto, unfolding(imap_answers::specs::AnswerText::line_of_answer))]
fn framing_text(why: FrameFaultKind) -> &'static [u8]
    ensures { result.now ≡ bye_text_of (EndsFraming why) }
{
    match why {
        FrameFaultKind::LineTooLong => b"* BYE line too long\r\n",
        FrameFaultKind::LiteralTooLong => b"* BYE literal too long\r\n",
        FrameFaultKind::NulByte => b"* BYE NUL in text\r\n",
        FrameFaultKind::NoMemory => b"* BYE no memory\r\n",
        FrameFaultKind::Failed => b"",
    }
}

/// The text for an end in the log.
pub fn log_text_of(reason: Ended) -> &'static str
    ensures { result.now ≡ log_text_of reason }
{
    match reason {
        Ended::Logout => "logout",
        Ended::PeerClosed => "closed by the client",
        Ended::TooManySessions => "too many sessions",
        Ended::Framing(_) => "bad framing",
        Ended::ReadFailed => "read failed",
        Ended::WriteFailed => "write failed",
        Ended::NoMemory => "no memory",
        Ended::Torn => "replica changed",
        Ended::ServerEnded => "ended by the server",
    }
}
