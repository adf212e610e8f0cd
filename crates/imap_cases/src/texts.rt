//! Cases of IMAP texts: which code answers each kind.

use crate::repeats::{written_out, written_short};
use crate::{flag_orders, frames, numbers, round_trips, streams};
use case_lines::Words;
use imap_lex::Limits;
use imap_types::{Escape, EscapeFault, read_escaped, write_escaped};
use std::alloc::{AllocError, Global};

/// The code's answer to an input of this kind, in the escape. `Err` if memory runs out.
pub fn answer_to(alloc: Global, kind: &str, input: &str) -> Result<Vec<u8>, AllocError> {
    let text = written_out(alloc, input)?;
    match read_escaped(alloc, Escape::Text, &text) {
        Ok(octets) => answer_in_escape(alloc, kind, octets.as_bytes()),
        Err(EscapeFault::NotEscaped) => b"not in the escape".to_vec(alloc),
        Err(EscapeFault::NoMemory) => Err(AllocError),
    }
}

fn answer_in_escape(alloc: Global, kind: &str, input: &[u8]) -> Result<Vec<u8>, AllocError> {
    let mut words = Words::new(alloc);
    put_answer(alloc, &mut words, kind, input);
    escaped(alloc, &words.finish()?)
}

fn escaped(alloc: Global, octets: &[u8]) -> Result<Vec<u8>, AllocError> {
    let mut text = Vec::new(alloc);
    write_escaped(Escape::Text, octets, &mut text)?;
    written_short(alloc, &text)
}

fn put_answer(alloc: Global, words: &mut Words, kind: &str, input: &[u8]) {
    match kind {
        "command" => frames::put_command(alloc, words, input),
        "damaged" => frames::put_damaged(alloc, words, input),
        "tag" => frames::put_tag(words, input),
        "idle" => frames::put_idle(words, input),
        "stream" => streams::put_stream(alloc, words, Limits::STANDARD, input),
        "narrow" => streams::put_stream(alloc, words, streams::NARROW, input),
        "answer" => round_trips::put_read(alloc, words, input),
        "mailbox" => round_trips::put_mailbox(alloc, words, input),
        "flags" => flag_orders::put_shown(alloc, words, input),
        "numbers" => numbers::put_set(alloc, words, input),
        _ => words.put("no such kind"),
    }
}
