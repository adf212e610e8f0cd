//! The grammar's results for frames.

use crate::commands::put_tagged;
use crate::damage::{Demand, first_failing, put_failing};
use crate::parts::concat;
use case_lines::Words;
use imap_grammar::{IdleLine, ParseFault, idle_line, parse, tag_of};
use std::alloc::{AllocError, Global};

/// The greatest length, in octets, of frames that are damaged at each octet.
const SHORT: usize = 400;

/// Puts the tag and the command that a line with its CRLF spells, or the fault. If that frame is
/// short and isn't answered when it is cut or damaged at some place, the first such place follows.
pub fn put_command(alloc: Global, words: &mut Words, line: &[u8]) {
    match concat(alloc, line, b"\r\n") {
        Ok(frame) => put_frame(alloc, words, &frame),
        Err(AllocError) => words.give_up(),
    }
}

fn put_frame(alloc: Global, words: &mut Words, frame: &[u8]) {
    match parse(alloc, frame) {
        Ok(tagged) => {
            put_tagged(words, &tagged);
            drop(tagged);
        }
        Err(fault) => words.put_name("", &fault),
    }
    let word = ", not answered where damaged at ";
    put_failing(alloc, words, Demand::Answered, SHORT, frame, word);
}

/// Puts the tag with which a frame begins.
pub fn put_tag(words: &mut Words, frame: &[u8]) {
    match tag_of(frame) {
        Some(tag) => words.put_text("", tag),
        None => words.put("none"),
    }
}

/// Puts whether a frame ends IDLE.
pub fn put_idle(words: &mut Words, frame: &[u8]) {
    words.put_lowered("", &idle_line(frame));
}

/// Puts whether each prefix of a frame, and the frame with each damage at each octet, is answered.
pub fn put_damaged(alloc: Global, words: &mut Words, frame: &[u8]) {
    match first_failing(alloc, words, Demand::Answered, frame) {
        None => words.put("answered"),
        Some(place) => words.put_number("not answered: damaged at ", place),
    }
}

/// Whether a frame is answered by a command or by a fault of its own. The fault `NoTag` is right
/// exactly when the frame has no tag.
pub fn is_answered(alloc: Global, frame: &[u8]) -> bool {
    let has_tag = tag_of(frame).is_some();
    match parse(alloc, frame) {
        Ok(tagged) => {
            drop(tagged);
            has_tag && idle_line(frame) == IdleLine::Other
        }
        Err(ParseFault::NoTag) => !has_tag,
        Err(ParseFault::NoMemory) => false,
        Err(_) => has_tag,
    }
}
