//! What the conversation does with one request: the calls of the port, and what is shown.

ghost use Rattle.std.specs.Prelude.{◌≡◌, ◌⊎◌, ◌++◌, ℕ, List, [], IfErr, IfOk, OnOk, None};
ghost use Rattle.imap_connection.specs.EndReasons.{failed_reads, failed_writes};
ghost use Rattle.imap_connection.specs.declared.end_reason.Ended.TheVariants.{NoMemory};
ghost use Rattle.rev1_front.specs.FrontTexts.{challenge_line, text_at_once};
ghost use Rattle.rev1_front.specs.declared.session.Awaited.TheVariants as awaits;
ghost use Rattle.rev1_connection.specs.Handling.{FailsCall, FailsCommand, FailsLine, FailsRename};
ghost use Rattle.rev1_connection.specs.Handling.{FollowsRename, HandlesCall, HandlesCommand};
ghost use Rattle.rev1_connection.specs.Handling.{HandlesLine, HandlesRename, IsUnasked, StopsBy};
ghost use Rattle.rev1_connection.specs.Handling.{awake, noop_of};
ghost use Rattle.rev1_connection.specs.TakingSteps.{Gives, Takes};
ghost use Rattle.rev1_connection.specs.declared.rename_port.RenameEnd.TheVariants.{Renamed};

use crate::manner::Manner;
use crate::rename_port::{RenameEnd, RenamePort};
use crate::reply_writer::UnshownReply;
use crate::request::{FrontRequest, Renaming};
use crate::session::{FrontSession, awaited_after, is_logout, logs_out, session_after};
use imap_answers::Answer;
use imap_connection::{Ended, end_reason_of, is_out_of_memory};
use imap_grammar::IdleLine;
use imap_syntax::{Command, Tagged};
use imap_types::Octets;
use rev1_front::{Awaited, Form, FrontRefusal, Taken, print_at_once};
use std::alloc::Global;

/// Takes a request that doesn't ask for days.
pub fn take_call<P: RenamePort>(
    alloc: Global,
    port: &mut P,
    session: &mut FrontSession,
    request: FrontRequest,
    text: &mut Vec<u8>,
) -> Result<Option<UnshownReply>, Ended>
    ensures ok { IfOk result (λ unshown. Takes
        (HandlesCall P.steps P.renames port.old session.old.mode request) unshown text.old.items
        port.new session.new text.new.items) }
    ensures err { IfErr result (λ ended. (given : List ℕ)
        × StopsBy (HandlesCall P.steps P.renames port.old session.old.mode request)
        (FailsCall P.steps P.renames port.old request) port.old ended given port.new
        × (text.new.items ≡ text.old.items ++ given)) }
    ensures devices { IfErr result (λ ended. (failed_reads ended ≡ 0) × (failed_writes ended ≡ 0)) }
{
    match request {
        FrontRequest::Immediate(taken) => answer_at_once(session, taken, text),
        FrontRequest::Challenge { tag } => challenge(session, tag, text),
        FrontRequest::Command { tagged, manner } => {
            give_command(alloc, port, session, tagged, manner)
        }
        FrontRequest::Line { tag, line } => give_line(alloc, port, session, tag, line),
        FrontRequest::Rename(renaming) => take_rename(alloc, port, session, renaming, text),
        FrontRequest::Days { fetch } => {
            drop(fetch);
            *session = FrontSession::awake(session.mode);
            Ok(None)
        }
    }
}

/// Adds what a frame is answered with at once.
fn answer_at_once(
    session: &mut FrontSession,
    taken: Taken,
    text: &mut Vec<u8>,
) -> Result<Option<UnshownReply>, Ended>
    ensures ok { OnOk result (text.new.items ≡ text.old.items ++ text_at_once taken) }
    ensures none { IfOk result (λ unshown. unshown ≡ None) }
    ensures session { session.new ≡ awake session.old.mode }
    ensures err { IfErr result (λ ended. (ended ≡ NoMemory) × (text.new.items ≡ text.old.items)) }
    ensures devices { IfErr result (λ ended. (failed_reads ended ≡ 0) × (failed_writes ended ≡ 0)) }
{
    *session = FrontSession::awake(session.mode);
    let printed = print_at_once(&taken, text);
    drop(taken);
    match printed {
        Ok(()) => Ok(None),
        Err(_) => Err(Ended::NoMemory),
    }
}

/// Adds the challenge of the AUTHENTICATE with this tag, whose response the session awaits then.
fn challenge(
    session: &mut FrontSession,
    tag: Octets,
    text: &mut Vec<u8>,
) -> Result<Option<UnshownReply>, Ended>
    ensures ok { OnOk result (text.new.items ≡ text.old.items ++ challenge_line) }
    ensures none { IfOk result (λ unshown. unshown ≡ None) }
    ensures session { OnOk result
        (session.new ≡ record { mode = session.old.mode; awaited = awaits.Response tag }) }
    ensures err { IfErr result (λ ended. (ended ≡ NoMemory) × (text.new.items ≡ text.old.items)) }
    ensures devices { IfErr result (λ ended. (failed_reads ended ≡ 0) × (failed_writes ended ≡ 0)) }
{
    match text.extend_from_slice(b"+ \r\n") {
        Ok(()) => {}
        Err(_) => {
            drop(tag);
            return Err(Ended::NoMemory);
        }
    }
    *session = FrontSession {
        mode: session.mode,
        awaited: Awaited::Response { tag },
    };
    Ok(None)
}

/// Gives the session a command, and returns the reply, to be shown in this manner.
fn give_command<P: RenamePort>(
    alloc: Global,
    port: &mut P,
    session: &mut FrontSession,
    tagged: Tagged,
    manner: Manner,
) -> Result<Option<UnshownReply>, Ended>
    ensures ok { IfOk result (Gives
        (HandlesCommand P.steps port.old session.old.mode tagged manner) port.new
        session.new) }
    ensures err { IfErr result (λ ended. IsUnasked port.old ended [] port.new
        ⊎ FailsCommand P.steps port.old tagged ended [] port.new) }
    ensures devices { IfErr result (λ ended. (failed_reads ended ≡ 0) × (failed_writes ended ≡ 0)) }
{
    let Ok(tag) = tagged.tag.copy(alloc) else {
        drop(tagged);
        drop(manner);
        return Err(Ended::NoMemory);
    };
    let Ok(awaited) = awaited_after(alloc, &tagged) else {
        drop(tagged);
        drop(manner);
        drop(tag);
        return Err(Ended::NoMemory);
    };
    let is_logout = is_logout(&tagged.command);
    let reply = match port.command(alloc, tagged) {
        Ok(reply) => reply,
        Err(fault) => {
            drop(manner);
            drop(tag);
            drop(awaited);
            return Err(end_reason_of(fault));
        }
    };
    let mode = session.mode;
    *session = session_after(mode, awaited, &reply);
    let leaves = logs_out(is_logout, &reply);
    Ok(Some(UnshownReply {
        tag,
        reply,
        mode,
        manner,
        leaves,
    }))
}

/// Gives the session, whose IDLE has this tag, a line, and returns the reply.
fn give_line<P: RenamePort>(
    alloc: Global,
    port: &mut P,
    session: &mut FrontSession,
    tag: Octets,
    line: IdleLine,
) -> Result<Option<UnshownReply>, Ended>
    ensures ok { IfOk result (Gives
        (HandlesLine P.steps port.old session.old.mode tag line) port.new session.new) }
    ensures err { IfErr result (λ ended. FailsLine P.steps port.old line ended [] port.new) }
    ensures devices { IfErr result (λ ended. (failed_reads ended ≡ 0) × (failed_writes ended ≡ 0)) }
{
    let reply = match port.done(alloc, line) {
        Ok(reply) => reply,
        Err(fault) => {
            drop(tag);
            return Err(end_reason_of(fault));
        }
    };
    if is_out_of_memory(&reply) {
        drop(reply);
        drop(tag);
        return Err(Ended::NoMemory);
    }
    let mode = session.mode;
    *session = FrontSession::awake(mode);
    Ok(Some(UnshownReply {
        tag,
        reply,
        mode,
        manner: Manner::Form(Form::Plain),
        leaves: false,
    }))
}

/// Takes a RENAME.
fn take_rename<P: RenamePort>(
    alloc: Global,
    port: &mut P,
    session: &mut FrontSession,
    renaming: Renaming,
    text: &mut Vec<u8>,
) -> Result<Option<UnshownReply>, Ended>
    ensures ok { IfOk result (λ unshown. Takes
        (HandlesRename P.steps P.renames port.old session.old.mode renaming) unshown text.old.items
        port.new session.new text.new.items) }
    ensures err { IfErr result (λ ended. (given : List ℕ)
        × StopsBy (HandlesRename P.steps P.renames port.old session.old.mode renaming)
        (FailsRename P.steps P.renames port.old renaming) port.old ended given port.new
        × (text.new.items ≡ text.old.items ++ given)) }
    ensures devices { IfErr result (λ ended. (failed_reads ended ≡ 0) × (failed_writes ended ≡ 0)) }
{
    let end = match port.rename(alloc, &renaming.from, &renaming.to) {
        Ok(end) => end,
        Err(fault) => {
            drop(renaming);
            return Err(end_reason_of(fault));
        }
    };
    let Renaming {
        tag,
        from: _,
        to: _,
    } = renaming;
    follow_rename(alloc, port, session, end, tag, text)
}

/// Takes what follows a RENAME that ended so.
fn follow_rename<P: RenamePort>(
    alloc: Global,
    port: &mut P,
    session: &mut FrontSession,
    end: RenameEnd,
    tag: Octets,
    text: &mut Vec<u8>,
) -> Result<Option<UnshownReply>, Ended>
    ensures ok { IfOk result (λ unshown. Takes
        (FollowsRename P.steps P.renames port.old session.old.mode tag end) unshown text.old.items
        port.new session.new text.new.items) }
    ensures err { IfErr result (λ ended.
        (IsUnasked port.old ended [] port.new
        ⊎ ((end ≡ Renamed) × FailsCommand P.steps port.old (noop_of tag) ended [] port.new))
        × (text.new.items ≡ text.old.items)) }
    ensures devices { IfErr result (λ ended. (failed_reads ended ≡ 0) × (failed_writes ended ≡ 0)) }
{
    match end {
        RenameEnd::NoSecondSession => {
            let reason = FrontRefusal::NoSecondSession;
            answer_at_once(session, Taken::Refused { tag, reason }, text)
        }
        RenameEnd::Refused(reason) => {
            let refused = Answer::Refused { tag, reason };
            answer_at_once(session, Taken::Answer(refused), text)
        }
        RenameEnd::Renamed => {
            let command = Command::Noop;
            give_command(
                alloc,
                port,
                session,
                Tagged { tag, command },
                Manner::Renamed,
            )
        }
    }
}
