//! Events given to books, once more if memory runs out.

use crate::event_source::{EventSource, new_delivery, new_event};
use crate::event_watch::EventWatch;
use crate::play_state::PlayRecord;
use causal_inbox::DeliverFault;
use crdt_ops::SoundOp;
use imap_connection::{Node, OpenFault, SessionNo, State, is_out_of_memory};
use imap_grammar::Command;
use replica_lock::{Book, BookEvent, Outcome};
use std::alloc::{AllocError, Global};

/// Gives a book an event, and once more if memory runs out for it; `Err` if it runs out twice. If
/// the first one is refused, the watch notes what the book is then.
pub fn give(
    alloc: Global,
    book: &mut Book,
    source: &EventSource<'_>,
    watch: &mut EventWatch,
) -> Result<Outcome, AllocError> {
    let event = new_event(alloc, source)?;
    match give_once(alloc, book, event, watch)? {
        Some(outcome) => Ok(outcome),
        None => give_again(alloc, book, new_event(alloc, source)?),
    }
}

/// Delivers a copy of an operation to a book, as `give` gives an event.
pub fn give_op(
    alloc: Global,
    book: &mut Book,
    op: &SoundOp,
    watch: &mut EventWatch,
) -> Result<Outcome, AllocError> {
    let event = new_delivery(alloc, op)?;
    match give_once(alloc, book, event, watch)? {
        Some(outcome) => Ok(outcome),
        None => give_again(alloc, book, new_delivery(alloc, op)?),
    }
}

/// Gives a book an event for the first time; `None` if it is refused, and then the watch notes what
/// the book is.
fn give_once(
    alloc: Global,
    book: &mut Book,
    event: BookEvent,
    watch: &mut EventWatch,
) -> Result<Option<Outcome>, AllocError> {
    watch.look(alloc, book)?;
    let unselected = unselected_session(book.node(), &event);
    match book.step(alloc, event) {
        Ok(outcome) => {
            if !is_refusal(&outcome) {
                watch.count();
                return Ok(Some(outcome));
            }
            drop(outcome);
            watch.note_refusal(alloc, book, 1, unselected)?;
        }
        Err(_) => watch.note_refusal(alloc, book, 0, None)?,
    }
    watch.count();
    Ok(None)
}

fn give_again(alloc: Global, book: &mut Book, event: BookEvent) -> Result<Outcome, AllocError> {
    match book.step(alloc, event) {
        Ok(outcome) => Ok(outcome),
        Err(_) => Err(AllocError),
    }
}

/// Whether the event was refused because memory ran out.
fn is_refusal(outcome: &Outcome) -> bool {
    match outcome {
        Outcome::Opened { answer } => matches!(answer, Err(OpenFault::NoMemory)),
        Outcome::Replied { reply } => is_out_of_memory(reply),
        Outcome::Delivered { answer } => matches!(answer, Err(DeliverFault::NoMemory)),
        Outcome::Drained { .. } | Outcome::Closed | Outcome::PassedOver => false,
    }
}

/// The session whose mailbox is left by the event even if it is refused: the command is SELECT or
/// EXAMINE, and the session has a mailbox selected.
fn unselected_session(node: &Node, event: &BookEvent) -> Option<SessionNo> {
    match event {
        BookEvent::Command {
            session,
            tagged,
            ..
        } => {
            if !selects(&tagged.command) {
                return None;
            }
            if !has_mailbox(node, *session) {
                return None;
            }
            Some(*session)
        }
        _ => None,
    }
}

fn selects(command: &Command) -> bool {
    matches!(command, Command::Select { .. } | Command::Examine { .. })
}

fn has_mailbox(node: &Node, session: SessionNo) -> bool {
    match node.session(session) {
        Some(session) => matches!(session.state, State::Selected { .. }),
        None => false,
    }
}

/// Closes an open session, which takes no memory; prints a line if that is refused.
pub fn close(
    book: &mut Book,
    session: SessionNo,
    record: &mut PlayRecord,
) -> Result<(), AllocError> {
    let alloc = book.alloc();
    match book.step(alloc, BookEvent::Close { session }) {
        Ok(_) => Ok(()),
        Err(_) => record.printed.extend_from_slice(b"a close was refused\n"),
    }
}
