//! The lines of a script.

ghost use Rattle.std.specs.Prelude.{◌≤◌};

use crate::deliveries::{deliver, drain, forge};
use crate::exchanges::{compare, exchange};
use crate::joins::{declare, join};
use crate::play_fault::PlayFault;
use crate::play_state::{PlayRecord, PlayState, replica_place};
use crate::restarts::restart;
use crate::session_lines::{close_session, feed, open, poll_session};
use imap_connection::{Node, write_dump};
use imap_types::Octets;
use mail_script::{LineFault, ScriptLine, read_line};
use replica_lock::Book;
use std::alloc::{AllocError, Global};
use tags_clocks::ReplicaId;
use uid_projection::Counters;

/// Plays a line of the script, which is passed without its LF, and prints its output.
pub fn play_line(
    alloc: Global,
    state: &mut PlayState,
    line: &[u8],
    record: &mut PlayRecord,
) -> Result<(), PlayFault> {
    let meaning = read(alloc, line)?;
    play_meaning(alloc, state, meaning, record)
}

/// What a line says, read once more if memory runs out.
fn read(alloc: Global, line: &[u8]) -> Result<ScriptLine, PlayFault> {
    match read_once(alloc, line) {
        Ok(meaning) => Ok(meaning),
        Err(PlayFault::NoMemory) => read_once(alloc, line),
        Err(PlayFault::BadScript) => Err(PlayFault::BadScript),
    }
}

fn read_once(alloc: Global, line: &[u8]) -> Result<ScriptLine, PlayFault> {
    match read_line(alloc, line) {
        Ok(meaning) => Ok(meaning),
        Err(LineFault::NotALine) => Err(PlayFault::BadScript),
        Err(LineFault::NoMemory) => Err(PlayFault::NoMemory),
    }
}

fn play_meaning(
    alloc: Global,
    state: &mut PlayState,
    meaning: ScriptLine,
    record: &mut PlayRecord,
) -> Result<(), PlayFault> {
    match meaning {
        ScriptLine::Blank => Ok(()),
        ScriptLine::Node { replica, uid, k } => {
            declare_new(alloc, state, &Counters { replica, uid, k })
        }
        ScriptLine::Now { moment } => {
            state.moment = moment;
            Ok(())
        }
        ScriptLine::Open { replica, session } => open(alloc, state, replica, session, record),
        ScriptLine::Line { session, text } => {
            let octets = with_line_end(text)?;
            feed(alloc, state, &session, &octets, record)
        }
        ScriptLine::Send { session, text } => {
            feed(alloc, state, &session, text.as_bytes(), record)
        }
        ScriptLine::Poll { session } => poll_session(alloc, state, &session, record),
        ScriptLine::Close { session } => close_session(state, &session, record),
        ScriptLine::Show { replica } => show(alloc, state, replica, record),
        ScriptLine::Deliver { id, replica } => deliver(alloc, state, id, replica, record),
        ScriptLine::Forge { replica, operation } => {
            forge(alloc, state, replica, operation.as_bytes(), record)
        }
        ScriptLine::Drain { replica } => drain(alloc, state, replica, record),
        ScriptLine::Settle => exchange(alloc, state, record),
        ScriptLine::Agree { first, second } => compare(state, first, second, record),
        ScriptLine::Join { replica, peer } => join(alloc, state, replica, peer, record),
        ScriptLine::Restart { replica } => restart(alloc, state, replica, record),
    }
}

/// The text with CRLF after it, which is added once more if memory runs out.
fn with_line_end(text: Octets) -> Result<Vec<u8>, AllocError> {
    let mut octets = text.into_vec();
    if octets.extend_from_slice(b"\r\n").is_err() {
        octets.extend_from_slice(b"\r\n")?;
    }
    Ok(octets)
}

/// Declares a replica that has received nothing and has these counters.
fn declare_new(alloc: Global, state: &mut PlayState, start: &Counters) -> Result<(), PlayFault> {
    if start.uid == 0 {
        return Err(PlayFault::BadScript);
    }
    if replica_place(&state.replicas, start.replica).is_some() {
        return Err(PlayFault::BadScript);
    }
    let book = new_book(alloc, start)?;
    declare(alloc, &mut state.replicas, start.replica, book)?;
    Ok(())
}

/// The book of a replica that has received nothing, made once more if memory runs out.
pub fn new_book(alloc: Global, start: &Counters) -> Result<Book, AllocError>
    requires { 1 ≤ start.now.uid }
{
    match new_book_once(alloc, start) {
        Ok(book) => Ok(book),
        Err(AllocError) => new_book_once(alloc, start),
    }
}

fn new_book_once(alloc: Global, start: &Counters) -> Result<Book, AllocError>
    requires { 1 ≤ start.now.uid }
{
    let node = Node::new(alloc, *start)?;
    Ok(Book::new(alloc, node))
}

/// Prints the dump of a replica, once more if memory runs out.
fn show(
    alloc: Global,
    state: &PlayState,
    name: ReplicaId,
    record: &mut PlayRecord,
) -> Result<(), PlayFault> {
    let Some(place) = replica_place(&state.replicas, name) else {
        return Err(PlayFault::BadScript);
    };
    let node = state.replicas[place].book.node();
    if write_dump(alloc, node, &mut record.printed).is_err() {
        write_dump(alloc, node, &mut record.printed)?;
    }
    Ok(())
}
