//! The items of a session's client, and the answers to them.

use crate::answers::{print_answer, print_answers, print_closed, print_item, print_reply};
use crate::event_source::EventSource;
use crate::given_events::{close, give};
use crate::play_fault::PlayFault;
use crate::play_state::PlayRecord;
use imap_connection::{Node, Reply, Request, SessionNo, State, request_of};
use imap_grammar::{IdleLine, Tagged};
use imap_lex::{FrameFaultKind, Item};
use imap_print::{Answer, ByeReason, Refusal};
use imap_types::{Moment, Octets};
use mail_script::SessionName;
use replica_lock::{Book, Outcome};
use std::alloc::{AllocError, Global};

/// Whose input it is, and when it arrives.
#[derive(Drop)]
pub struct Talk<'a> {
    /// The session's name.
    pub name: &'a SessionName,
    /// Its number at its replica.
    pub session: SessionNo,
    /// The time.
    pub moment: Moment,
}

/// Takes items in their order, up to a LOGOUT answered OK, after which the session is closed.
pub fn take_items(
    alloc: Global,
    book: &mut Book,
    talk: &Talk<'_>,
    items: &[Item],
    record: &mut PlayRecord,
) -> Result<(), PlayFault> {
    for item in items {
        take_item(alloc, book, talk, item, record)?;
        if has_logged_out(book.node(), talk.session) {
            close(book, talk.session, record)?;
            return Ok(());
        }
    }
    Ok(())
}

fn take_item(
    alloc: Global,
    book: &mut Book,
    talk: &Talk<'_>,
    item: &Item,
    record: &mut PlayRecord,
) -> Result<(), PlayFault> {
    print_item(talk.name, item, &mut record.printed)?;
    match made_request(alloc, book.node(), talk.session, item)? {
        Request::Immediate(answer) => {
            print_answer(alloc, talk.name, &answer, &mut record.printed)?;
            Ok(())
        }
        Request::Command(tagged) => take_command(alloc, book, talk, item, tagged, record),
        Request::Line { tag, line } => take_line(alloc, book, talk, tag, line, record),
    }
}

/// What an item is to its session, found out once more if memory runs out; `Err` if it runs out
/// twice.
fn made_request(
    alloc: Global,
    node: &Node,
    session: SessionNo,
    item: &Item,
) -> Result<Request, AllocError> {
    match request_of(alloc, tag_of_idling(node, session), item) {
        Ok(request) => {
            if !is_unread(&request) {
                return Ok(request);
            }
            drop(request);
        }
        Err(AllocError) => {}
    }
    request_of(alloc, tag_of_idling(node, session), item)
}

/// Whether memory ran out before the command was read.
fn is_unread(request: &Request) -> bool {
    matches!(
        request,
        Request::Immediate(Answer::Refused {
            reason: Refusal::NoMemory,
            ..
        })
    )
}

/// The tag of the IDLE that the session is in.
fn tag_of_idling(node: &Node, session: SessionNo) -> Option<&Octets> {
    match node.session(session) {
        Some(session) => session.idling.as_ref(),
        None => None,
    }
}

/// Carries out a command, and prints the answers.
fn take_command(
    alloc: Global,
    book: &mut Book,
    talk: &Talk<'_>,
    item: &Item,
    tagged: Tagged,
    record: &mut PlayRecord,
) -> Result<(), PlayFault> {
    let source = EventSource::Command {
        session: talk.session,
        moment: talk.moment,
        octets: octets_of(item),
    };
    let outcome = give(alloc, book, &source, &mut record.watch)?;
    if record.watch.take_closed() {
        print_closed(alloc, talk.name, &mut record.printed)?;
    }
    print_replied(alloc, talk.name, &tagged.tag, &outcome, &mut record.printed)
}

/// Prints the answers to an input; `BadScript` if its session didn't take it.
fn print_replied(
    alloc: Global,
    name: &SessionName,
    tag: &Octets,
    outcome: &Outcome,
    printed: &mut Vec<u8>,
) -> Result<(), PlayFault> {
    match outcome {
        Outcome::Replied { reply } => {
            print_reply(alloc, name, tag, reply, printed)?;
            Ok(())
        }
        _ => Err(PlayFault::BadScript),
    }
}

fn octets_of(item: &Item) -> &[u8] {
    match item {
        Item::Ready => b"",
        Item::Frame(frame) => frame.bytes(),
        Item::Refused(front) => front.bytes(),
    }
}

/// Takes a line of a session that idles, whose IDLE has this tag, and prints the answers.
fn take_line(
    alloc: Global,
    book: &mut Book,
    talk: &Talk<'_>,
    tag: Octets,
    line: IdleLine,
    record: &mut PlayRecord,
) -> Result<(), PlayFault> {
    let source = EventSource::Line {
        session: talk.session,
        line,
    };
    let outcome = give(alloc, book, &source, &mut record.watch)?;
    print_replied(alloc, talk.name, &tag, &outcome, &mut record.printed)
}

/// Polls a session that idles, and prints the answers that report changes.
pub fn poll(
    alloc: Global,
    book: &mut Book,
    talk: &Talk<'_>,
    record: &mut PlayRecord,
) -> Result<(), PlayFault> {
    let source = EventSource::Poll {
        session: talk.session,
    };
    let outcome = give(alloc, book, &source, &mut record.watch)?;
    print_changes(alloc, talk.name, &outcome, &mut record.printed)
}

/// Prints the answers to a poll, none if it was refused; `BadScript` if its session didn't take it.
fn print_changes(
    alloc: Global,
    name: &SessionName,
    outcome: &Outcome,
    printed: &mut Vec<u8>,
) -> Result<(), PlayFault> {
    match outcome {
        Outcome::Replied {
            reply: Reply::Done { answers, .. },
        } => {
            print_answers(alloc, name, answers.as_slice(), printed)?;
            Ok(())
        }
        Outcome::Replied {
            reply: Reply::Refused { .. },
        } => Ok(()),
        _ => Err(PlayFault::BadScript),
    }
}

/// Closes a session whose client's octets can't be cut any further, and prints the BYE.
pub fn end(
    alloc: Global,
    book: &mut Book,
    talk: &Talk<'_>,
    why: FrameFaultKind,
    record: &mut PlayRecord,
) -> Result<(), PlayFault> {
    close(book, talk.session, record)?;
    let reason = match why {
        FrameFaultKind::LineTooLong => ByeReason::LineTooLong,
        FrameFaultKind::LiteralTooLong => ByeReason::LiteralTooLong,
        FrameFaultKind::NulByte => ByeReason::NulInText,
        FrameFaultKind::NoMemory | FrameFaultKind::Failed => return Err(PlayFault::NoMemory),
    };
    let bye = Answer::Bye { reason };
    print_answer(alloc, talk.name, &bye, &mut record.printed)?;
    Ok(())
}

/// Whether the session is open and has logged out.
fn has_logged_out(node: &Node, session: SessionNo) -> bool {
    match node.session(session) {
        Some(session) => matches!(session.state, State::LoggedOut),
        None => false,
    }
}

/// Whether the session is open and hasn't logged out.
pub fn is_active(node: &Node, session: SessionNo) -> bool {
    match node.session(session) {
        Some(session) => !matches!(session.state, State::LoggedOut),
        None => false,
    }
}
