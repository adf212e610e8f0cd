//! What an item of the framer is to a session.

ghost use Rattle.std.specs.Prelude.{◌≡◌, IfOk};
ghost use Rattle.imap_lex.specs.declared.item.Item.TheVariants.{Frame as FrameItem};
ghost use Rattle.imap_lex.specs.declared.item.Item.TheVariants.{Refused as RefusedItem};
ghost use Rattle.imap_connection.specs.FaultAnswers.{IsLiteralAnswer};
ghost use Rattle.rev1_connection.specs.FrontRequests.{IsItemRequest, IsTakenRequest, lacks_memory};
ghost use Rattle.rev1_connection.specs.FrontRequests.{request_of};

use crate::fetch_frame::untaken_request;
use crate::manner::Manner;
use crate::session::FrontSession;
use imap_answers::{Answer, Refusal};
use imap_grammar::{IdleLine, tag_of};
use imap_syntax::Tagged;
use imap_types::{Name, Octets};
use rev1_front::{Awaited, FrontRefusal, Taken, take};
use std::alloc::{AllocError, Global};

/// What an item of the framer is to a session.
#[derive(Drop)]
pub enum FrontRequest {
    /// An item that is answered at once.
    Immediate(Taken),
    /// AUTHENTICATE PLAIN without a response.
    Challenge { tag: Octets },
    /// A command of the profile, and how its answers are shown.
    Command { tagged: Tagged, manner: Manner },
    /// A line of the IDLE with this tag.
    Line { tag: Octets, line: IdleLine },
    /// RENAME.
    Rename(Renaming),
    /// A search by the days on which messages were sent: this FETCH gives the texts that have them.
    Days { fetch: Tagged },
}

/// A RENAME, with its tag.
#[derive(Drop)]
pub struct Renaming {
    pub tag: Octets,
    pub from: Name,
    pub to: Name,
}

/// What a frame is to a session. `Err` if memory runs out.
pub fn frame_request(
    alloc: Global,
    session: &FrontSession,
    frame: &[u8],
) -> Result<FrontRequest, AllocError>
    ensures { IfOk result (IsItemRequest session.now (FrameItem frame.now)) }
{
    let taken = take(alloc, session.mode, &session.awaited, frame)?;
    taken_request(alloc, frame, taken)
}

/// What a frame is that is this to the front. `Err` if memory runs out.
fn taken_request(alloc: Global, frame: &[u8], taken: Taken) -> Result<FrontRequest, AllocError>
    ensures { IfOk result (IsTakenRequest frame.now taken) }
{
    match taken {
        Taken::Answer(answer) => {
            if lacks_memory(&answer) {
                return Ok(FrontRequest::Immediate(Taken::Answer(answer)));
            }
            untaken_request(alloc, frame, answer)
        }
        taken => Ok(request_of(taken)),
    }
}

/// What a frame is to a session that is this to the front.
pub fn request_of(taken: Taken) -> FrontRequest
    ensures { result ≡ request_of taken }
{
    match taken {
        Taken::Command { tagged, form } => FrontRequest::Command {
            tagged,
            manner: Manner::Form(form),
        },
        Taken::AsksDays { fetch } => FrontRequest::Days { fetch },
        Taken::Line { tag, line } => FrontRequest::Line { tag, line },
        Taken::Rename { tag, from, to } => FrontRequest::Rename(Renaming { tag, from, to }),
        Taken::Challenge { tag } => FrontRequest::Challenge { tag },
        taken => FrontRequest::Immediate(taken),
    }
}

/// Whether an answer says that memory ran out.
fn lacks_memory(answer: &Answer) -> bool
    ensures { result ≡ lacks_memory answer.now }
{
    matches!(
        answer,
        Answer::Refused {
            reason: Refusal::NoMemory,
            ..
        }
    )
}

/// What the beginning of a command that was refused for its literal is to a session. `Err` if
/// memory runs out.
pub fn refused_request(
    alloc: Global,
    session: &FrontSession,
    front: &[u8],
) -> Result<FrontRequest, AllocError>
    ensures { IfOk result (IsItemRequest session.now (RefusedItem front.now)) }
{
    match &session.awaited {
        Awaited::Command => Ok(FrontRequest::Immediate(Taken::Answer(literal_answer(
            alloc, front,
        )?))),
        Awaited::Line { tag } => Ok(FrontRequest::Line {
            tag: tag.copy(alloc)?,
            line: IdleLine::Other,
        }),
        Awaited::Response { tag } => Ok(FrontRequest::Immediate(Taken::Refused {
            tag: tag.copy(alloc)?,
            reason: FrontRefusal::BadSyntax,
        })),
    }
}

/// The answer to the beginning of a command that is refused for its literal. `Err` if memory runs
/// out.
fn literal_answer(alloc: Global, front: &[u8]) -> Result<Answer, AllocError>
    ensures { IfOk result (IsLiteralAnswer front.now) }
{
    match tag_of(front) {
        None => Ok(Answer::LiteralTooLong),
        Some(tag) => Ok(Answer::Refused {
            tag: Octets::from_slice(alloc, tag)?,
            reason: Refusal::LiteralTooLong,
        }),
    }
}
