//! What an item of the framer is to a session: a command, a line of IDLE, or an item that is
//! answered at once.

ghost use Rattle.std.specs.Prelude.{◌≡◌, IfOk, None};
ghost use Rattle.std.specs.Option.{option_copied};
ghost use Rattle.imap_lex.specs.declared.item.Item.TheVariants.{Frame as FrameItem};
ghost use Rattle.imap_lex.specs.declared.item.Item.TheVariants.{Refused as RefusedItem};
ghost use Rattle.imap_connection.specs.FaultAnswers.{IsLiteralAnswer};
ghost use Rattle.imap_connection.specs.RequestSteps.{AnswersFault, IsRequest, reason_for};

use imap_answers::{Answer, Continuation, Refusal};
use imap_grammar::{IdleLine, ParseFault, Tagged, idle_line, parse, tag_of};
use imap_lex::Item;
use imap_types::Octets;
use std::alloc::{AllocError, Global};

/// What an item of the framer is to a session.
#[derive(Drop)]
pub enum Request {
    /// An item that is answered at once: by a continuation request for a literal, or by the answer
    /// to a fault.
    Immediate(Answer),
    /// A command of a session that doesn't idle.
    Command(Tagged),
    /// A line of a session that idles.
    Line {
        /// The tag of the IDLE.
        tag: Octets,
        /// The line.
        line: IdleLine,
    },
}

/// What an item is to a session that idles with this tag, or doesn't idle; `Err` if memory runs
/// out.
pub fn request_of(
    alloc: Global,
    idling: Option<&Octets>,
    item: &Item,
) -> Result<Request, AllocError>
    ensures { IfOk result (IsRequest (option_copied idling.entry) item.now) }
{
    match item {
        Item::Ready => Ok(Request::Immediate(Answer::Continue {
            with: Continuation::Ready,
        })),
        Item::Frame(frame) => frame_request(alloc, idling, frame.bytes()),
        Item::Refused(front) => refused_request(alloc, idling, front.bytes()),
    }
}

fn frame_request(
    alloc: Global,
    idling: Option<&Octets>,
    octets: &[u8],
) -> Result<Request, AllocError>
    ensures { IfOk result (IsRequest (option_copied idling.entry) (FrameItem octets.now)) }
{
    match idling {
        Some(tag) => Ok(Request::Line {
            tag: tag.copy(alloc)?,
            line: idle_line(octets),
        }),
        None => parsed_request(alloc, octets),
    }
}

fn refused_request(
    alloc: Global,
    idling: Option<&Octets>,
    front: &[u8],
) -> Result<Request, AllocError>
    ensures { IfOk result (IsRequest (option_copied idling.entry) (RefusedItem front.now)) }
{
    match idling {
        Some(tag) => Ok(Request::Line {
            tag: tag.copy(alloc)?,
            line: IdleLine::Other,
        }),
        None => Ok(Request::Immediate(literal_answer(alloc, front)?)),
    }
}

/// What a frame is to a session that doesn't idle; `Err` if memory runs out.
fn parsed_request(alloc: Global, octets: &[u8]) -> Result<Request, AllocError>
    ensures { IfOk result (IsRequest None (FrameItem octets.now)) }
{
    match parse(alloc, octets) {
        Ok(tagged) => Ok(Request::Command(tagged)),
        Err(why) => Ok(Request::Immediate(fault_answer(alloc, octets, why)?)),
    }
}

/// The answer to a frame with this fault; `Err` if memory runs out.
fn fault_answer(alloc: Global, octets: &[u8], why: ParseFault) -> Result<Answer, AllocError>
    ensures { IfOk result (AnswersFault why octets.now) }
{
    match tag_of(octets) {
        None => Ok(Answer::NoTag),
        Some(tag) => Ok(Answer::Refused {
            tag: Octets::from_slice(alloc, tag)?,
            reason: refusal_of_fault(why),
        }),
    }
}

fn refusal_of_fault(why: ParseFault) -> Refusal
    ensures { result ≡ reason_for why }
{
    match why {
        ParseFault::UnknownCommand => Refusal::UnknownCommand,
        ParseFault::NotInProfile => Refusal::NotInProfile,
        ParseFault::NoMemory => Refusal::NoMemory,
        ParseFault::NoTag | ParseFault::BadSyntax => Refusal::BadSyntax,
    }
}

/// The answer to the beginning of a command that is refused for its literal; `Err` if memory runs
/// out.
fn literal_answer(alloc: Global, front: &[u8]) -> Result<Answer, AllocError>
    ensures { IfOk result (IsLiteralAnswer front.now) }
{
    match tag_of(front) {
        None => Ok(Answer::LiteralTooLong),
        Some(tag) => Ok(Answer::Refused {
            tag: Octets::from_slice(alloc, tag)?,
            reason: Refusal::LiteralTooLong,
        }),
    }
}
