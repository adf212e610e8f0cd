//! The play of a script, and of the same script again to look at a refused event.

use crate::answers::print_outcome;
use crate::event_watch::EventWatch;
use crate::lines::play_line;
use crate::play_fault::PlayFault;
use crate::play_state::{PlayRecord, PlayState};
use mail_script::OutcomeLine;
use std::alloc::{AllocError, Global};
use text_fields::split;

/// Plays a script, and returns the program's status: 0 if every line was played, otherwise 3. `Err`
/// if memory runs out twice.
pub fn play(alloc: Global, script: &[u8], record: &mut PlayRecord) -> Result<u8, AllocError> {
    let status = play_lines(alloc, script, record)?;
    if record.watch.has_event() {
        look_again(alloc, script, record)?;
    }
    Ok(status)
}

/// Prints a line if a refused event changed its book.
fn look_again(alloc: Global, script: &[u8], record: &mut PlayRecord) -> Result<(), AllocError> {
    if !has_changed(alloc, script, &record.watch)? {
        return Ok(());
    }
    record
        .printed
        .extend_from_slice(b"changed by a refused event\n")
}

/// Whether the watched event changed its book when it was refused: in another play of the script,
/// with all memory, the text of the book before that event is another one.
fn has_changed(alloc: Global, script: &[u8], watch: &EventWatch) -> Result<bool, AllocError> {
    let mut again = PlayRecord::new(alloc, watch.again(alloc));
    play_lines(alloc, script, &mut again)?;
    Ok(!again.watch.has_text_of(watch))
}

/// Plays the lines of a script up to the first bad one, and returns the program's status.
fn play_lines(alloc: Global, script: &[u8], record: &mut PlayRecord) -> Result<u8, AllocError> {
    let mut state = PlayState::new(alloc);
    let mut rest = script;
    for number in 0..script.len() {
        if rest.is_empty() {
            return Ok(0);
        }
        let (line, after) = first_line(rest);
        match play_line(alloc, &mut state, line, record) {
            Ok(()) => rest = after,
            Err(PlayFault::BadScript) => {
                print_bad_line(number as u64 + 1, record)?;
                return Ok(3);
            }
            Err(PlayFault::NoMemory) => return Err(AllocError),
        }
    }
    Ok(0)
}

/// The first line without its LF, and the octets after it.
fn first_line(text: &[u8]) -> (&[u8], &[u8]) {
    match split(b'\n', text) {
        Some((line, rest)) => (line, rest),
        None => (text, &text[text.len()..]),
    }
}

fn print_bad_line(line: u64, record: &mut PlayRecord) -> Result<(), AllocError> {
    print_outcome(&OutcomeLine::BadScript { line }, &mut record.printed)
}
