//! What `converse` does with one item of the framer: the calls of the port, and the answers.

ghost use Rattle.std.specs.Prelude.{◌≡◌, ◌++◌, ◌∷◌, [], true, false, Some, None, List, ℕ, Option};
ghost use Rattle.std.specs.Prelude.{OnOk, IfOk, IfErr, if◌then◌else◌};
ghost use Rattle.imap_answers.specs.declared.answer.Answer.{Answer};
ghost use Rattle.imap_connection.specs.EndReasons.{failed_reads, failed_writes};
ghost use Rattle.imap_lex.specs.declared.item.Item.{Item};
ghost use Rattle.imap_connection.specs.Conversations.{HasTaken, EndsOverItems, TakesItem};
ghost use Rattle.imap_connection.specs.Requests.{FailsRequest, HandlesRequest, IsAskingOf, is_done};
ghost use Rattle.imap_connection.specs.Requests.{TakesRequest, is_logout};
ghost use Rattle.imap_connection.specs.Requests.{texts};
ghost use Rattle.imap_connection.specs.declared.end_reason.Ended.TheVariants.{Logout};
ghost use Rattle.imap_connection.specs.declared.end_reason.Ended.TheVariants.{NoMemory};
ghost use Rattle.imap_connection.specs.declared.request.Request.TheVariants as requests;

use crate::answer_writer::{UnprintedReply, print_reply};
use crate::batch::Batch;
use crate::end_reason::{Ended, end_reason_of};
use crate::io_traits::Port;
use crate::replies::is_out_of_memory;
use crate::request::{Request, request_of};
use imap_answers::Answer;
use imap_commands::{is_brief, is_idle};
use imap_lex::Item;
use imap_node::Reply;
use imap_print::print;
use imap_syntax::{Command, IdleLine, Tagged};
use imap_types::Octets;
use std::alloc::Global;

/// Takes an item of a session that idles with this tag, or doesn't idle. A brief command joins the
/// batch. For anything else the batch is given to the port first, then the request, and the answers
/// are added, except those of a reply that may be long, which is returned. `Err` if the conversation
/// ends.
pub fn take_item<P: Port>(
    alloc: Global,
    port: &mut P,
    idling: &mut Option<Octets>,
    batch: &mut Batch,
    item: &Item,
    text: &mut Vec<u8>,
) -> Result<Option<UnprintedReply>, Ended>
    ensures ok { (first : P) (from : Option (List ℕ)) (items : List Item) (output : List ℕ)
        → HasTaken P.steps first from items output port.old idling.old batch.old
        → IfOk result (λ unprinted. TakesItem P.steps first from (items ++ item.now ∷ []) output
        unprinted text.old.items port.new idling.new batch.new text.new.items) }
    ensures err { (first : P) (from : Option (List ℕ)) (items : List Item) (output : List ℕ)
        → HasTaken P.steps first from items output port.old idling.old batch.old
        → IfErr result (λ ended. (more : List ℕ)
        × EndsOverItems P.steps first from (items ++ item.now ∷ []) ended (output ++ more) port.new
        × (text.new.items ≡ text.old.items ++ more)) }
    ensures devices { IfErr result (λ ended. (failed_reads ended ≡ 0) × (failed_writes ended ≡ 0)) }
{
    let Ok(request) = request_of(alloc, idling.as_ref(), item) else {
        return Err(Ended::NoMemory);
    };
    match asking_of(request) {
        Asking::Later(tagged) => match batch.push(alloc, tagged) {
            Ok(()) => Ok(None),
            Err(_) => Err(Ended::NoMemory),
        },
        Asking::Now(request) => {
            match batch.carry_out(alloc, port, text) {
                Ok(()) => {}
                Err(ended) => return Err(ended),
            }
            take_request(alloc, port, idling, request, text)
        }
    }
}

/// When a request is given to the port.
enum Asking {
    /// With the batch: a brief command.
    Later(Tagged),
    /// At once.
    Now(Request),
}

fn asking_of(request: Request) -> Asking
    ensures { IsAskingOf request result }
{
    match request {
        Request::Command(tagged) => {
            if is_brief(&tagged.command) {
                Asking::Later(tagged)
            } else {
                Asking::Now(Request::Command(tagged))
            }
        }
        other => Asking::Now(other),
    }
}

fn take_request<P: Port>(
    alloc: Global,
    port: &mut P,
    idling: &mut Option<Octets>,
    request: Request,
    text: &mut Vec<u8>,
) -> Result<Option<UnprintedReply>, Ended>
    ensures ok { IfOk result (λ unprinted. TakesRequest P.steps port.old idling.old request unprinted
        text.old.items port.new idling.new text.new.items) }
    ensures err { IfErr result (λ ended. (given : List Answer)
        × FailsRequest P.steps port.old idling.old request ended given port.new
        × (text.new.items ≡ text.old.items ++ texts given)) }
    ensures devices { IfErr result (λ ended. (failed_reads ended ≡ 0) × (failed_writes ended ≡ 0)) }
{
    match request {
        Request::Immediate(answer) => match print_answer(answer, text) {
            Ok(()) => Ok(None),
            Err(ended) => Err(ended),
        },
        Request::Command(tagged) => take_command(alloc, port, idling, tagged, text),
        Request::Line { tag, line } => match take_line(alloc, port, idling, tag, line, text) {
            Ok(()) => Ok(None),
            Err(ended) => Err(ended),
        },
    }
}

/// Adds an answer; `NoMemory`, and no change, if memory runs out.
fn print_answer(answer: Answer, text: &mut Vec<u8>) -> Result<(), Ended>
    ensures ok { OnOk result (text.new.items ≡ text.old.items ++ texts (answer ∷ [])) }
    ensures err { IfErr result (λ ended. (ended ≡ NoMemory) × (text.new.items ≡ text.old.items)) }
{
    let printed = print(&answer, text);
    drop(answer);
    match printed {
        Ok(()) => Ok(()),
        Err(_) => Err(Ended::NoMemory),
    }
}

/// Gives the session a command, and returns the reply; adds its answers if the command is IDLE or
/// LOGOUT.
fn take_command<P: Port>(
    alloc: Global,
    port: &mut P,
    idling: &mut Option<Octets>,
    tagged: Tagged,
    text: &mut Vec<u8>,
) -> Result<Option<UnprintedReply>, Ended>
    ensures ok { IfOk result (λ unprinted. TakesRequest P.steps port.old idling.old
        (requests.Command tagged) unprinted text.old.items port.new idling.new text.new.items) }
    ensures err { IfErr result (λ ended. (given : List Answer)
        × FailsRequest P.steps port.old idling.old (requests.Command tagged) ended given port.new
        × (text.new.items ≡ text.old.items ++ texts given)) }
    ensures devices { IfErr result (λ ended. (failed_reads ended ≡ 0) × (failed_writes ended ≡ 0)) }
{
    // The command moves into the call, and its tag is needed after it.
    let Ok(tag) = tagged.tag.copy(alloc) else {
        drop(tagged);
        return Err(Ended::NoMemory);
    };
    let idles = is_idle(&tagged.command);
    let leaves = is_logout(&tagged.command);
    let reply = match port.command(alloc, tagged) {
        Ok(reply) => reply,
        Err(fault) => {
            drop(tag);
            return Err(end_reason_of(fault));
        }
    };
    if !idles && !leaves {
        drop(idling.take());
        return Ok(Some(UnprintedReply { tag, reply }));
    }
    let Ok(()) = print_reply(alloc, text, &tag, &reply) else {
        drop(reply);
        drop(tag);
        return Err(Ended::NoMemory);
    };
    let done = is_done(&reply);
    drop(reply);
    match set_idling(idles && done, leaves && done, tag, idling) {
        Ok(()) => Ok(None),
        Err(ended) => Err(ended),
    }
}

fn is_logout(command: &Command) -> bool
    ensures { result ≡ is_logout command.now }
{
    matches!(command, Command::Logout)
}

fn is_done(reply: &Reply) -> bool
    ensures { result ≡ is_done reply.now }
{
    matches!(reply, Reply::Done { .. })
}

/// What follows a command that was answered: the IDLE with this tag, the end of the conversation,
/// or neither.
fn set_idling(
    idles: bool,
    leaves: bool,
    tag: Octets,
    idling: &mut Option<Octets>,
) -> Result<(), Ended>
    ensures idling { idling.new ≡ (if idles then Some tag else None) }
    ensures ok { OnOk result (leaves ≡ false) }
    ensures err { IfErr result (λ ended. (ended ≡ Logout) × (leaves ≡ true)) }
{
    *idling = if idles { Some(tag) } else { None };
    if leaves {
        return Err(Ended::Logout);
    }
    Ok(())
}

/// Gives the session, whose IDLE has this tag, a line, and adds the answers.
fn take_line<P: Port>(
    alloc: Global,
    port: &mut P,
    idling: &mut Option<Octets>,
    tag: Octets,
    line: IdleLine,
    text: &mut Vec<u8>,
) -> Result<(), Ended>
    ensures ok { OnOk result ((given : List Answer)
        × HandlesRequest P.steps port.old idling.old (requests.Line tag line) given port.new
        idling.new false × (text.new.items ≡ text.old.items ++ texts given)) }
    ensures err { IfErr result (λ ended. (given : List Answer)
        × FailsRequest P.steps port.old idling.old (requests.Line tag line) ended given port.new
        × (text.new.items ≡ text.old.items ++ texts given)) }
    ensures devices { IfErr result (λ ended. (failed_reads ended ≡ 0) × (failed_writes ended ≡ 0)) }
{
    *idling = None;
    let reply = match port.done(alloc, line) {
        Ok(reply) => reply,
        Err(fault) => return Err(end_reason_of(fault)),
    };
    if is_out_of_memory(&reply) {
        return Err(Ended::NoMemory);
    }
    let Ok(()) = print_reply(alloc, text, &tag, &reply) else {
        return Err(Ended::NoMemory);
    };
    drop(reply);
    Ok(())
}
