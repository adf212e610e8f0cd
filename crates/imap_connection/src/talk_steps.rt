//! A connection's input, piece by piece, and its turns.

ghost use Rattle.std.specs.Prelude.{◌≡◌, ◌++◌, ◌⊎◌, ◌∷◌, [], ◌↔◌, List, Ok, Err, IsErr, IfOk};
ghost use Rattle.std.specs.Prelude.{IfErr, OnOk, IsTrue};
ghost use Rattle.std.specs.Option.{option_copied};
ghost use Rattle.imap_answers.specs.declared.answer.Answer.{Answer};
ghost use Rattle.imap_lex.specs.Framing.{cut_from};
ghost use Rattle.imap_lex.specs.declared.fault.FrameFaultKind.{FrameFaultKind};
ghost use Rattle.imap_node.specs.Nodes.{HasLoggedOut, IsActive, IsIdlingAt};
ghost use Rattle.imap_connection.specs.Conversation.{BreaksOff, Converses, StopsAt, TakesItemAt};
ghost use Rattle.imap_connection.specs.Conversation.{turns_of_answers, item_at, items_at, turns_of};
ghost use Rattle.imap_connection.specs.RequestSteps.{AwaitsRequest, FailsRequest, HandlesRequest};
ghost use Rattle.imap_connection.specs.Replies.{idling_at};
ghost use Rattle.imap_connection.specs.Talks.{BreaksPoll, EndsTalk, IsPoll, EndsWithBye};
ghost use Rattle.imap_connection.specs.Talks.{EndsAtRefusedLine, TakesPiece, cut_at, bye_of};
ghost use Rattle.imap_connection.specs.declared.request.Request.TheVariants.{Command as CommandRequest};
ghost use Rattle.imap_connection.specs.declared.request.Request.TheVariants.{Line as LineRequest};
ghost use Rattle.imap_connection.specs.declared.turn.TalkFaultKind.TheVariants as kinds;
ghost use Rattle.imap_connection.specs.declared.turn.Turn.{Turn};

use crate::replies::is_out_of_memory;
use crate::request::{Request, request_of};
use crate::turn::{TalkFault, TalkFaultKind, Turn};
use crate::turn_writer::{send, send_polled, send_reply, show};
use imap_answers::{Answer, ByeReason};
use imap_grammar::{IdleLine, Tagged};
use imap_lex::{FrameFault, FrameFaultKind, Framer, Item};
use imap_node::{Node, Reply, SessionNo, State};
use imap_types::{Moment, Octets};
use std::alloc::Global;

/// Takes the next octets of a connection, which arrived at this moment, and returns their turns:
/// the commands and lines that they complete, each before the answers to it. Input after a LOGOUT
/// that was answered OK is dropped, and the session is closed.
///
/// An error closes the session too, and leaves the node as it is after the complete commands so
/// far. `Framing` says which fault of the framer ends the conversation; the turns before it are
/// returned, with the BYE after `LineTooLong`, `LiteralTooLong` and `NulByte`. After `Framing` the
/// framer has failed for good: each later `feed` of it fails. `LineRefused` says that a line of
/// IDLE was refused because memory ran out; the turns before it are returned, with the line and a
/// BYE. `NoMemory` says that memory ran out for a turn.
pub fn talk(
    alloc: Global,
    node: &mut Node,
    framer: &mut Framer,
    session: SessionNo,
    moment: Moment,
    piece: &[u8],
) -> Result<Vec<Turn>, TalkFault>
    requires { IsActive node.old.state session }
    ensures ok { IfOk result (λ turns. TakesPiece node.old.state session
        (cut_at moment (cut_from framer.old.limits framer.old.state piece.now)) turns.items
        node.new.state framer.new.state) }
    ensures err { IfErr result (λ fault. EndsTalk fault.why node.old.state session framer.old.state
        (cut_at moment (cut_from framer.old.limits framer.old.state piece.now)) fault.turns.items
        node.new.state) }
    ensures failed { IfErr result
        (λ fault. (why : FrameFaultKind) → fault.why ≡ kinds.Framing why → IsErr framer.new.state) }
    ensures limits { framer.new.limits ≡ framer.old.limits }
{
    let mut turns = Vec::new(alloc);
    match framer.feed(alloc, piece) {
        Ok(items) => match take_all(alloc, node, session, moment, &items, &mut turns) {
            Ok(()) => Ok(turns),
            Err(why) => Err(TalkFault { turns, why }),
        },
        Err(fault) => {
            let FrameFault { items, why } = fault;
            if let Err(why) = take_all(alloc, node, session, moment, &items, &mut turns) {
                return Err(TalkFault { turns, why });
            }
            if !is_active(node, session) {
                return Ok(turns);
            }
            node.close(session);
            let why = say_goodbye(alloc, why, &mut turns);
            Err(TalkFault { turns, why })
        }
    }
}

/// Polls a session that idles. Returns the answers that report what has changed (RFC 2177, section
/// 3), as turns; none if the node refuses the poll. The only error, `NoMemory`, says that memory
/// ran out for an answer; it closes the session and returns the turns before that answer.
pub fn poll_turns(
    alloc: Global,
    node: &mut Node,
    session: SessionNo,
) -> Result<Vec<Turn>, TalkFault>
    requires { IsIdlingAt node.old.state session }
    ensures ok { IfOk result (λ turns. IsPoll node.old.state session turns.items node.new.state) }
    ensures err { IfErr result (λ fault. (fault.why ≡ kinds.NoMemory)
        × BreaksPoll node.old.state session fault.turns.items node.new.state) }
{
    let mut turns = Vec::new(alloc);
    let reply = node.poll(alloc, session);
    match send_polled(alloc, &mut turns, reply) {
        Ok(()) => Ok(turns),
        Err(_) => {
            node.close(session);
            Err(TalkFault {
                turns,
                why: TalkFaultKind::NoMemory,
            })
        }
    }
}

/// Takes items in their order, up to a LOGOUT answered OK, after which the session is closed. An
/// error closes it too.
fn take_all(
    alloc: Global,
    node: &mut Node,
    session: SessionNo,
    moment: Moment,
    items: &[Item],
    turns: &mut Vec<Turn>,
) -> Result<(), TalkFaultKind>
    requires { IsActive node.old.state session }
    ensures ok { OnOk result ((more : List Turn) × (turns.new.items ≡ turns.old.items ++ more)
        × Converses node.old.state session (items_at moment items.now) more node.new.state) }
    ensures err { IfErr result (λ why. (more : List Turn)
        × (turns.new.items ≡ turns.old.items ++ more)
        × BreaksOff why node.old.state session (items_at moment items.now) more node.new.state) }
{
    for item in items {
        if let Err(why) = take_item(alloc, node, session, moment, item, turns) {
            node.close(session);
            return Err(why);
        }
        if has_logged_out(node, session) {
            node.close(session);
            return Ok(());
        }
    }
    Ok(())
}

/// Takes one item: shows what the client sent, and adds the answers.
fn take_item(
    alloc: Global,
    node: &mut Node,
    session: SessionNo,
    moment: Moment,
    item: &Item,
    turns: &mut Vec<Turn>,
) -> Result<(), TalkFaultKind>
    requires { IsActive node.old.state session }
    ensures ok { OnOk result ((given : List Answer)
        × TakesItemAt node.old.state session (item_at moment item.now) given node.new.state
        × (turns.new.items ≡ turns.old.items ++ turns_of item.now given)) }
    ensures err { IfErr result (λ why. (more : List Turn)
        × (turns.new.items ≡ turns.old.items ++ more)
        × StopsAt why node.old.state session (item_at moment item.now) more node.new.state) }
    ensures open { IsActive node.new.state session ⊎ HasLoggedOut node.new.state session }
{
    let Ok(()) = show(alloc, turns, item) else {
        return Err(TalkFaultKind::NoMemory);
    };
    let Ok(request) = request_of(alloc, tag_of_idling(node, session), item) else {
        return Err(TalkFaultKind::NoMemory);
    };
    take_request(alloc, node, session, moment, request, turns)
}

/// The tag of the IDLE that the session is in.
fn tag_of_idling(node: &Node, session: SessionNo) -> Option<&Octets>
    ensures { option_copied result ≡ idling_at node.now.state session }
{
    match node.session(session) {
        Some(session) => session.idling.as_ref(),
        None => None,
    }
}

/// Adds one answer; `NoMemory`, and no change, if memory runs out.
fn send_one(alloc: Global, turns: &mut Vec<Turn>, answer: Answer) -> Result<(), TalkFaultKind>
    ensures ok { OnOk result (turns.new.items ≡ turns.old.items ++ turns_of_answers (answer ∷ [])) }
    ensures err { IfErr result
        (λ why. (why ≡ kinds.NoMemory) × (turns.new.items ≡ turns.old.items)) }
{
    let sent = send(alloc, turns, &answer);
    drop(answer);
    match sent {
        Ok(()) => Ok(()),
        Err(_) => Err(TalkFaultKind::NoMemory),
    }
}

/// Carries out a request that the session awaits, and adds the answers.
fn take_request(
    alloc: Global,
    node: &mut Node,
    session: SessionNo,
    moment: Moment,
    request: Request,
    turns: &mut Vec<Turn>,
) -> Result<(), TalkFaultKind>
    requires active { IsActive node.old.state session }
    requires awaited { AwaitsRequest node.old.state session request }
    ensures ok { OnOk result ((given : List Answer)
        × HandlesRequest node.old.state session moment request given node.new.state
        × (turns.new.items ≡ turns.old.items ++ turns_of_answers given)) }
    ensures err { IfErr result (λ why. (front : List Turn)
        × (turns.new.items ≡ turns.old.items ++ front)
        × FailsRequest why node.old.state session moment request front node.new.state) }
    ensures open { IsActive node.new.state session ⊎ HasLoggedOut node.new.state session }
{
    match request {
        Request::Immediate(answer) => send_one(alloc, turns, answer),
        Request::Command(tagged) => take_command(alloc, node, session, moment, tagged, turns),
        Request::Line { tag, line } => take_line(alloc, node, session, tag, line, turns),
    }
}

/// Carries out a command of a session that doesn't idle, and adds the answers.
fn take_command(
    alloc: Global,
    node: &mut Node,
    session: SessionNo,
    moment: Moment,
    tagged: Tagged,
    turns: &mut Vec<Turn>,
) -> Result<(), TalkFaultKind>
    requires active { IsActive node.old.state session }
    requires awake { IsIdlingAt node.old.state session → ⊥ }
    ensures ok { OnOk result ((given : List Answer)
        × HandlesRequest node.old.state session moment (CommandRequest tagged) given node.new.state
        × (turns.new.items ≡ turns.old.items ++ turns_of_answers given)) }
    ensures err { IfErr result (λ why. (front : List Turn)
        × (turns.new.items ≡ turns.old.items ++ front)
        × FailsRequest why node.old.state session moment (CommandRequest tagged) front
        node.new.state) }
    ensures open { IsActive node.new.state session ⊎ HasLoggedOut node.new.state session }
{
    // The command moves into the call, and the answer to a refused one bears its tag.
    let Ok(tag) = tagged.tag.copy(alloc) else {
        return Err(TalkFaultKind::NoMemory);
    };
    let reply = node.command(alloc, session, moment, tagged);
    match send_reply(alloc, turns, tag, reply) {
        Ok(()) => Ok(()),
        Err(_) => Err(TalkFaultKind::NoMemory),
    }
}

/// Takes a line of a session that idles, whose IDLE has this tag, and adds the answers; a BYE if it
/// is refused because memory ran out.
fn take_line(
    alloc: Global,
    node: &mut Node,
    session: SessionNo,
    tag: Octets,
    line: IdleLine,
    turns: &mut Vec<Turn>,
) -> Result<(), TalkFaultKind>
    requires active { IsActive node.old.state session }
    requires idles { IsIdlingAt node.old.state session }
    ensures ok { OnOk result ((given : List Answer)
        × HandlesRequest node.old.state session 0 (LineRequest tag line) given node.new.state
        × (turns.new.items ≡ turns.old.items ++ turns_of_answers given)) }
    ensures err { IfErr result (λ why. (front : List Turn)
        × (turns.new.items ≡ turns.old.items ++ front)
        × FailsRequest why node.old.state session 0 (LineRequest tag line) front node.new.state) }
    ensures open { IsActive node.new.state session ⊎ HasLoggedOut node.new.state session }
{
    let reply = node.done(alloc, session, line);
    if is_out_of_memory(&reply) {
        drop(reply);
        return Err(refuse_line(alloc, turns));
    }
    match send_reply(alloc, turns, tag, reply) {
        Ok(()) => Ok(()),
        Err(_) => Err(TalkFaultKind::NoMemory),
    }
}

/// Adds the BYE for a line of IDLE that was refused. Returns how the conversation ends.
fn refuse_line(alloc: Global, turns: &mut Vec<Turn>) -> TalkFaultKind
    ensures { EndsAtRefusedLine result turns.old.items turns.new.items }
{
    let bye = Answer::Bye {
        reason: ByeReason::NoMemory,
    };
    match send_one(alloc, turns, bye) {
        Ok(()) => TalkFaultKind::LineRefused,
        Err(_) => TalkFaultKind::NoMemory,
    }
}

/// Adds the BYE that a fault of the framer calls for, if any. Returns how the conversation ends.
fn say_goodbye(alloc: Global, why: FrameFaultKind, turns: &mut Vec<Turn>) -> TalkFaultKind
    ensures { EndsWithBye why result turns.old.items turns.new.items }
{
    let Some(answer) = goodbye(why) else {
        return TalkFaultKind::Framing(why);
    };
    let sent = send(alloc, turns, &answer);
    drop(answer);
    match sent {
        Ok(()) => TalkFaultKind::Framing(why),
        Err(_) => TalkFaultKind::NoMemory,
    }
}

/// The BYE that ends a connection for this fault of the framer; `None` if memory ran out or the
/// framer had failed before.
fn goodbye(why: FrameFaultKind) -> Option<Answer>
    ensures { result ≡ bye_of why }
{
    match why {
        FrameFaultKind::LineTooLong => Some(Answer::Bye {
            reason: ByeReason::LineTooLong,
        }),
        FrameFaultKind::LiteralTooLong => Some(Answer::Bye {
            reason: ByeReason::LiteralTooLong,
        }),
        FrameFaultKind::NulByte => Some(Answer::Bye {
            reason: ByeReason::NulInText,
        }),
        FrameFaultKind::NoMemory | FrameFaultKind::Failed => None,
    }
}

fn has_logged_out(node: &Node, session: SessionNo) -> bool
    ensures { IsTrue result ↔ HasLoggedOut node.now.state session }
{
    match node.session(session) {
        Some(session) => matches!(session.state, State::LoggedOut),
        None => false,
    }
}

fn is_active(node: &Node, session: SessionNo) -> bool
    ensures { IsTrue result ↔ IsActive node.now.state session }
{
    match node.session(session) {
        Some(session) => !matches!(session.state, State::LoggedOut),
        None => false,
    }
}
