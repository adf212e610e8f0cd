//! What the conversation does with one item of the framer.

ghost use Rattle.std.specs.Prelude.{◌≡◌, ◌++◌, ℕ, List, IfErr, IfOk, OnOk, None};
ghost use Rattle.imap_answers.specs.AnswerText.{text_of_answer};
ghost use Rattle.imap_answers.specs.declared.answer.Answer.TheVariants.{Continue as Continues};
ghost use Rattle.imap_answers.specs.declared.fixed_words.Continuation.TheVariants as continuations;
ghost use Rattle.imap_connection.specs.EndReasons.{failed_reads, failed_writes};
ghost use Rattle.imap_connection.specs.declared.end_reason.Ended.TheVariants.{NoMemory};
ghost use Rattle.imap_lex.specs.declared.item.Item.TheVariants.{Frame, Refused};
ghost use Rattle.rev1_connection.specs.Handling.{FailsRequest, HandlesItem, HandlesRequest};
ghost use Rattle.rev1_connection.specs.Handling.{StopsAt, StopsBy};
ghost use Rattle.rev1_connection.specs.TakingSteps.{Takes};

use crate::call_steps::take_call;
use crate::day_steps::take_days;
use crate::rename_port::RenamePort;
use crate::reply_writer::UnshownReply;
use crate::request::{FrontRequest, frame_request, refused_request};
use crate::session::FrontSession;
use imap_answers::{Answer, Continuation};
use imap_connection::Ended;
use imap_lex::Item;
use imap_print::print;
use std::alloc::Global;

/// Takes an item: gives the port what it is, and adds what is shown, except of the last reply,
/// which is returned. `Err` if the conversation ends.
pub fn take_item<P: RenamePort>(
    alloc: Global,
    port: &mut P,
    session: &mut FrontSession,
    item: &Item,
    text: &mut Vec<u8>,
) -> Result<Option<UnshownReply>, Ended>
    ensures ok { IfOk result (λ unshown. Takes
        (HandlesItem P.steps P.renames port.old session.old item.now) unshown text.old.items
        port.new session.new text.new.items) }
    ensures err { IfErr result (λ ended. (given : List ℕ)
        × StopsAt P.steps P.renames port.old session.old item.now ended given port.new
        × (text.new.items ≡ text.old.items ++ given)) }
    ensures devices { IfErr result (λ ended. (failed_reads ended ≡ 0) × (failed_writes ended ≡ 0)) }
{
    match item {
        Item::Ready => push_ready(text),
        Item::Frame(frame) => take_frame(alloc, port, session, frame.bytes(), text),
        Item::Refused(front) => take_refused(alloc, port, session, front.bytes(), text),
    }
}

/// Adds a continuation request for a literal.
fn push_ready(text: &mut Vec<u8>) -> Result<Option<UnshownReply>, Ended>
    ensures ok { OnOk result (text.new.items ≡ text.old.items
        ++ text_of_answer (Continues continuations.Ready)) }
    ensures none { IfOk result (λ unshown. unshown ≡ None) }
    ensures err { IfErr result (λ ended. (ended ≡ NoMemory) × (text.new.items ≡ text.old.items)) }
    ensures devices { IfErr result (λ ended. (failed_reads ended ≡ 0) × (failed_writes ended ≡ 0)) }
{
    let ready = Answer::Continue {
        with: Continuation::Ready,
    };
    match print(&ready, text) {
        Ok(()) => Ok(None),
        Err(_) => Err(Ended::NoMemory),
    }
}

/// Takes a frame, as `take_item` does.
fn take_frame<P: RenamePort>(
    alloc: Global,
    port: &mut P,
    session: &mut FrontSession,
    frame: &[u8],
    text: &mut Vec<u8>,
) -> Result<Option<UnshownReply>, Ended>
    ensures ok { IfOk result (λ unshown. Takes
        (HandlesItem P.steps P.renames port.old session.old (Frame frame.now)) unshown
        text.old.items port.new session.new text.new.items) }
    ensures err { IfErr result (λ ended. (given : List ℕ)
        × StopsAt P.steps P.renames port.old session.old (Frame frame.now) ended given port.new
        × (text.new.items ≡ text.old.items ++ given)) }
    ensures devices { IfErr result (λ ended. (failed_reads ended ≡ 0) × (failed_writes ended ≡ 0)) }
{
    match frame_request(alloc, session, frame) {
        Ok(request) => take_request(alloc, port, session, frame, request, text),
        Err(_) => Err(Ended::NoMemory),
    }
}

/// Takes the beginning of a command that was refused for its literal, as `take_item` does.
fn take_refused<P: RenamePort>(
    alloc: Global,
    port: &mut P,
    session: &mut FrontSession,
    front: &[u8],
    text: &mut Vec<u8>,
) -> Result<Option<UnshownReply>, Ended>
    ensures ok { IfOk result (λ unshown. Takes
        (HandlesItem P.steps P.renames port.old session.old (Refused front.now)) unshown
        text.old.items port.new session.new text.new.items) }
    ensures err { IfErr result (λ ended. (given : List ℕ)
        × StopsAt P.steps P.renames port.old session.old (Refused front.now) ended given port.new
        × (text.new.items ≡ text.old.items ++ given)) }
    ensures devices { IfErr result (λ ended. (failed_reads ended ≡ 0) × (failed_writes ended ≡ 0)) }
{
    match refused_request(alloc, session, front) {
        Ok(request) => take_request(alloc, port, session, front, request, text),
        Err(_) => Err(Ended::NoMemory),
    }
}

/// Takes what an item with these octets is to the session.
fn take_request<P: RenamePort>(
    alloc: Global,
    port: &mut P,
    session: &mut FrontSession,
    frame: &[u8],
    request: FrontRequest,
    text: &mut Vec<u8>,
) -> Result<Option<UnshownReply>, Ended>
    ensures ok { IfOk result (λ unshown. Takes
        (HandlesRequest P.steps P.renames port.old session.old.mode frame.now request) unshown
        text.old.items port.new session.new text.new.items) }
    ensures err { IfErr result (λ ended. (given : List ℕ)
        × StopsBy (HandlesRequest P.steps P.renames port.old session.old.mode frame.now request)
        (FailsRequest P.steps P.renames port.old session.old.mode frame.now request) port.old ended
        given port.new
        × (text.new.items ≡ text.old.items ++ given)) }
    ensures devices { IfErr result (λ ended. (failed_reads ended ≡ 0) × (failed_writes ended ≡ 0)) }
{
    match request {
        FrontRequest::Days { fetch } => take_days(alloc, port, session, frame, fetch, text),
        request => take_call(alloc, port, session, request, text),
    }
}
