//! The lines `open`, `line`, `send`, `poll` and `close`, which are about sessions.

ghost use Rattle.std.specs.Prelude.{◌<◌, IfOk, length};

use crate::answers::print_answer;
use crate::event_source::EventSource;
use crate::framing::{CutItems, cut};
use crate::given_events::{close, give};
use crate::play_fault::PlayFault;
use crate::play_state::{
    BookReplica, BookSession, Connection, PlayRecord, PlayState, replica_place, reserve_one,
    session_place,
};
use crate::talk::{Talk, end, is_active, poll, take_items};
use imap_connection::{OpenFault, SessionNo};
use imap_lex::{Framer, Limits};
use imap_print::{Answer, ByeReason, Login};
use mail_script::SessionName;
use replica_lock::{Book, Outcome};
use std::alloc::{AllocError, Global};
use tags_clocks::ReplicaId;

/// Opens a session at a replica, and prints the greeting, or the BYE of a replica that has too many
/// open sessions.
pub fn open(
    alloc: Global,
    state: &mut PlayState,
    replica: ReplicaId,
    name: SessionName,
    record: &mut PlayRecord,
) -> Result<(), PlayFault> {
    let Some(place) = replica_place(&state.replicas, replica) else {
        return Err(PlayFault::BadScript);
    };
    if session_place(&state.sessions, &name).is_some() {
        return Err(PlayFault::BadScript);
    }
    reserve_one(&mut state.sessions)?;
    let connection = begin(alloc, &mut state.replicas[place].book, &name, record)?;
    let session = BookSession {
        name,
        replica,
        connection,
    };
    add_session(&mut state.sessions, session)?;
    Ok(())
}

fn add_session(sessions: &mut Vec<BookSession>, session: BookSession) -> Result<(), AllocError> {
    sessions.push(session)?;
    Ok(())
}

/// Opens a session at a replica, and prints its first answer; returns its connection, or `None` if
/// the session has ended.
fn begin(
    alloc: Global,
    book: &mut Book,
    name: &SessionName,
    record: &mut PlayRecord,
) -> Result<Option<Connection>, PlayFault> {
    let outcome = give(alloc, book, &EventSource::Open, &mut record.watch)?;
    match opened(&outcome) {
        Ok(number) => {
            let greeting = Answer::Greeting {
                login: Login::PreAuthenticated,
            };
            print_answer(alloc, name, &greeting, &mut record.printed)?;
            Ok(Some(Connection {
                number,
                framer: Framer::new(alloc, Limits::STANDARD),
                sent: Vec::new(alloc),
            }))
        }
        Err(OpenFault::TooManySessions) => {
            let bye = Answer::Bye {
                reason: ByeReason::TooManySessions,
            };
            print_answer(alloc, name, &bye, &mut record.printed)?;
            Ok(None)
        }
        Err(OpenFault::NoMemory) => Err(PlayFault::NoMemory),
    }
}

fn opened(outcome: &Outcome) -> Result<SessionNo, OpenFault> {
    match outcome {
        Outcome::Opened { answer } => *answer,
        _ => Err(OpenFault::NoMemory),
    }
}

/// The places of a session and of its replica; `BadScript` if it wasn't opened.
fn places(state: &PlayState, name: &SessionName) -> Result<(usize, usize), PlayFault>
    ensures { IfOk result (λ places. (places.0 < length state.now.sessions.items)
        × (places.1 < length state.now.replicas.items)) }
{
    let Some(place) = session_place(&state.sessions, name) else {
        return Err(PlayFault::BadScript);
    };
    match replica_place(&state.replicas, state.sessions[place].replica) {
        Some(at) => Ok((place, at)),
        None => Err(PlayFault::BadScript),
    }
}

/// Feeds a session octets, and prints what they complete and the answers.
pub fn feed(
    alloc: Global,
    state: &mut PlayState,
    name: &SessionName,
    octets: &[u8],
    record: &mut PlayRecord,
) -> Result<(), PlayFault> {
    let (place, at) = places(state, name)?;
    let session = &mut state.sessions[place];
    let Some(connection) = session.connection.take() else {
        return Err(PlayFault::BadScript);
    };
    let moment = state.moment;
    let replica = &mut state.replicas[at];
    let applied = replica.book.node().op_list().len();
    let talk = Talk {
        name,
        session: connection.number,
        moment,
    };
    session.connection = converse(alloc, &mut replica.book, &talk, connection, octets, record)?;
    note_issued(replica, applied)?;
    Ok(())
}

/// Feeds a connection octets; returns it, or `None` if the session has ended.
fn converse(
    alloc: Global,
    book: &mut Book,
    talk: &Talk<'_>,
    mut connection: Connection,
    octets: &[u8],
    record: &mut PlayRecord,
) -> Result<Option<Connection>, PlayFault> {
    if !is_active(book.node(), talk.session) {
        return Err(PlayFault::BadScript);
    }
    let CutItems { items, fault } = cut(alloc, &mut connection, octets)?;
    take_items(alloc, book, talk, &items, record)?;
    if !is_active(book.node(), talk.session) {
        return Ok(None);
    }
    match fault {
        None => Ok(Some(connection)),
        Some(why) => {
            end(alloc, book, talk, why, record)?;
            Ok(None)
        }
    }
}

/// Notes that a session issued the operations after the first `applied`.
fn note_issued(replica: &mut BookReplica, applied: usize) -> Result<(), AllocError> {
    let now = replica.book.node().op_list().len();
    if applied == now {
        return Ok(());
    }
    reserve_one(&mut replica.issued)?;
    replica.issued.push((applied, now))?;
    Ok(())
}

/// Polls an idling session.
pub fn poll_session(
    alloc: Global,
    state: &mut PlayState,
    name: &SessionName,
    record: &mut PlayRecord,
) -> Result<(), PlayFault> {
    let (place, at) = places(state, name)?;
    let Some(connection) = &state.sessions[place].connection else {
        return Err(PlayFault::BadScript);
    };
    let talk = Talk {
        name,
        session: connection.number,
        moment: state.moment,
    };
    let book = &mut state.replicas[at].book;
    if !book.node().is_idling(talk.session) {
        return Err(PlayFault::BadScript);
    }
    poll(alloc, book, &talk, record)
}

/// Closes a session.
pub fn close_session(
    state: &mut PlayState,
    name: &SessionName,
    record: &mut PlayRecord,
) -> Result<(), PlayFault> {
    let (place, at) = places(state, name)?;
    let session = &mut state.sessions[place];
    let Some(connection) = session.connection.take() else {
        return Err(PlayFault::BadScript);
    };
    let number = connection.number;
    drop(connection);
    let book = &mut state.replicas[at].book;
    if !book.node().is_open(number) {
        return Err(PlayFault::BadScript);
    }
    close(book, number, record)?;
    Ok(())
}
