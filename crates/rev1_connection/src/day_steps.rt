//! What the conversation does with a search by the days on which messages were sent.

ghost use Rattle.std.specs.Prelude.{◌≡◌, ◌++◌, ℕ, List, [], IfErr, IfOk, Some, false};
ghost use Rattle.imap_connection.specs.EndReasons.{failed_reads, failed_writes};
ghost use Rattle.imap_node.specs.declared.reply.Reply.TheVariants.{Refused as RefusedReply};
ghost use Rattle.rev1_front.specs.ClientFrames.{IsCommandFrame};
ghost use Rattle.rev1_front.specs.SentDays.{sent_days};
ghost use Rattle.rev1_front.specs.declared.form.Form.TheVariants.{Plain};
ghost use Rattle.rev1_front.specs.declared.taken.Taken.{Taken as TakenFrame};
ghost use Rattle.rev1_connection.specs.FrontRequests.{request_of};
ghost use Rattle.rev1_connection.specs.Handling.{EndsBy, FailsDays, FailsSearch, FollowsSearch};
ghost use Rattle.rev1_connection.specs.Handling.{HandlesRequest, StopsBy, awake, is_of_no_message};
ghost use Rattle.rev1_connection.specs.TakingSteps.{Takes};
ghost use Rattle.rev1_connection.specs.declared.manner.Manner.TheVariants.{Form as FormManner};
ghost use Rattle.rev1_connection.specs.declared.request.FrontRequest.TheVariants as requests;

use crate::call_steps::take_call;
use crate::manner::Manner;
use crate::rename_port::RenamePort;
use crate::reply_writer::UnshownReply;
use crate::request::{FrontRequest, request_of};
use crate::session::FrontSession;
use crate::shown_answers::show_all_news;
use imap_answers::{Answer, Refusal};
use imap_connection::{Ended, end_reason_of};
use imap_node::{Answers, Reply};
use imap_syntax::Tagged;
use imap_types::Octets;
use rev1_front::{Form, Mode, sent_days, take_with_days};
use std::alloc::{AllocError, Global};

/// Takes a search by the days on which messages were sent, for which this FETCH asks.
pub fn take_days<P: RenamePort>(
    alloc: Global,
    port: &mut P,
    session: &mut FrontSession,
    frame: &[u8],
    fetch: Tagged,
    text: &mut Vec<u8>,
) -> Result<Option<UnshownReply>, Ended>
    ensures ok { IfOk result (λ unshown. Takes
        (HandlesRequest P.steps P.renames port.old session.old.mode frame.now
        (requests.Days fetch)) unshown text.old.items port.new session.new text.new.items) }
    ensures err { IfErr result (λ ended. (given : List ℕ)
        × StopsBy (HandlesRequest P.steps P.renames port.old session.old.mode frame.now
        (requests.Days fetch))
        (FailsDays P.steps P.renames port.old session.old.mode frame.now fetch) port.old ended given
        port.new
        × (text.new.items ≡ text.old.items ++ given)) }
    ensures devices { IfErr result (λ ended. (failed_reads ended ≡ 0) × (failed_writes ended ≡ 0)) }
{
    let Ok(tag) = fetch.tag.copy(alloc) else {
        drop(fetch);
        return Err(Ended::NoMemory);
    };
    let reply = match port.command(alloc, fetch) {
        Ok(reply) => reply,
        Err(fault) => {
            drop(tag);
            return Err(end_reason_of(fault));
        }
    };
    match reply {
        Reply::Done {
            answers,
            silent: _,
            issued: _,
        } => {
            drop(tag);
            follow_search(alloc, port, session, frame, answers, text)
        }
        Reply::Refused { why, closed } => {
            if is_of_no_message(why, closed) {
                drop(tag);
                return search_no_days(alloc, port, session, frame, text);
            }
            Ok(Some(refuse_search(session, tag, why, closed)))
        }
    }
}

/// Whether a FETCH of all messages was refused since there is none.
fn is_of_no_message(why: Refusal, closed: bool) -> bool
    ensures { result ≡ is_of_no_message why closed }
{
    match (why, closed) {
        (Refusal::NoSuchMessage, false) => true,
        _ => false,
    }
}

/// Takes a search by days in a mailbox without messages.
fn search_no_days<P: RenamePort>(
    alloc: Global,
    port: &mut P,
    session: &mut FrontSession,
    frame: &[u8],
    text: &mut Vec<u8>,
) -> Result<Option<UnshownReply>, Ended>
    ensures ok { IfOk result (λ unshown. Takes
        (FollowsSearch P.steps P.renames port.old session.old.mode frame.now []) unshown
        text.old.items port.new session.new text.new.items) }
    ensures err { IfErr result (λ ended. (given : List ℕ)
        × EndsBy (FollowsSearch P.steps P.renames port.old session.old.mode frame.now [])
        (FailsSearch P.steps P.renames port.old session.old.mode frame.now []) ended given port.new
        × (text.new.items ≡ text.old.items ++ given)) }
    ensures devices { IfErr result (λ ended. (failed_reads ended ≡ 0) × (failed_writes ended ≡ 0)) }
{
    let Ok(none) = Answers::new(Vec::new(alloc)) else {
        return Err(Ended::NoMemory);
    };
    follow_search(alloc, port, session, frame, none, text)
}

/// The reply to a search whose FETCH was refused.
fn refuse_search(
    session: &mut FrontSession,
    tag: Octets,
    why: Refusal,
    closed: bool,
) -> UnshownReply
    ensures reply { result ≡ record {
      tag = tag;
      reply = RefusedReply why closed;
      mode = session.old.mode;
      manner = FormManner Plain;
      leaves = false;
    } }
    ensures session { session.new ≡ awake session.old.mode }
{
    let mode = session.mode;
    *session = FrontSession::awake(mode);
    UnshownReply {
        tag,
        reply: Reply::Refused { why, closed },
        mode,
        manner: Manner::Form(Form::Plain),
        leaves: false,
    }
}

/// Takes a search by the days that these answers to its FETCH have.
fn follow_search<P: RenamePort>(
    alloc: Global,
    port: &mut P,
    session: &mut FrontSession,
    frame: &[u8],
    answers: Answers,
    text: &mut Vec<u8>,
) -> Result<Option<UnshownReply>, Ended>
    ensures ok { IfOk result (λ unshown. Takes
        (FollowsSearch P.steps P.renames port.old session.old.mode frame.now answers) unshown
        text.old.items port.new session.new text.new.items) }
    ensures err { IfErr result (λ ended. (given : List ℕ)
        × EndsBy (FollowsSearch P.steps P.renames port.old session.old.mode frame.now answers)
        (FailsSearch P.steps P.renames port.old session.old.mode frame.now answers) ended given
        port.new
        × (text.new.items ≡ text.old.items ++ given)) }
    ensures devices { IfErr result (λ ended. (failed_reads ended ≡ 0) × (failed_writes ended ≡ 0)) }
{
    match show_all_news(answers.as_slice(), text) {
        Ok(()) => {}
        Err(_) => {
            drop(answers);
            return Err(Ended::NoMemory);
        }
    }
    let dated = dated_request(alloc, session.mode, answers.as_slice(), frame);
    drop(answers);
    match dated {
        Ok(request) => take_call(alloc, port, session, request, text),
        Err(_) => Err(Ended::NoMemory),
    }
}

/// What a frame is, once the days in these answers are known. `Err` if memory runs out.
fn dated_request(
    alloc: Global,
    mode: Mode,
    answers: &[Answer],
    frame: &[u8],
) -> Result<FrontRequest, AllocError>
    ensures { IfOk result (λ request. (it : TakenFrame)
        × IsCommandFrame mode (Some (sent_days answers.now)) frame.now it
        × (request ≡ request_of it)) }
{
    let days = sent_days(alloc, answers)?;
    let taken = take_with_days(alloc, mode, &days, frame)?;
    Ok(request_of(taken))
}
