//! The short form of repeated texts: `~<64 NOT ~>` is 64 times `NOT `.

ghost use Rattle.std.specs.Prelude.{◌<◌};

use case_lines::{Words, parts_around};
use std::alloc::{AllocError, Global};

/// The least number of repetitions that are written in the short form.
const MIN_REPEATS: usize = 50;
/// The longest repeated text, in octets, that is looked for.
const LONGEST: usize = 16;

/// The text with each short form expanded.
pub fn written_out(alloc: Global, text: &str) -> Result<Vec<u8>, AllocError> {
    let mut words = Words::new(alloc);
    let (front, pieces) = parts_around(text, "~<");
    words.put(front);
    for piece in pieces.split("~<") {
        put_piece(&mut words, piece);
    }
    words.finish()
}

/// Puts what follows `~<`: for `COUNT TEXT~>REST` the text COUNT times, then the rest.
fn put_piece(words: &mut Words, piece: &str) {
    let (group, rest) = parts_around(piece, "~>");
    put_group(words, group);
    words.put(rest);
}

fn put_group(words: &mut Words, group: &str) {
    let (count, text) = parts_around(group, " ");
    put_times(words, count.parse::<u32>().unwrap_or(0), text);
}

fn put_times(words: &mut Words, count: u32, text: &str) {
    for _ in 0..count {
        words.put(text);
    }
}

/// The text, with repeated texts in the short form. Each repetition is taken at the first place
/// where a text is repeated, with the shortest such text.
pub fn written_short(alloc: Global, text: &[u8]) -> Result<Vec<u8>, AllocError> {
    let mut words = Words::new(alloc);
    let mut rest = text;
    for _ in 0..text.len() {
        let taken = put_front(&mut words, rest);
        (_, rest) = rest.split_at(taken.min(rest.len()));
    }
    words.finish()
}

/// Puts the first octet, or all repetitions that begin there, and returns how many octets these
/// are.
fn put_front(words: &mut Words, rest: &[u8]) -> usize {
    for length in 1..=LONGEST {
        let (text, _) = rest.split_at(length.min(rest.len()));
        let count = times(rest, text, length);
        if count >= MIN_REPEATS {
            put_short(words, text, count);
            return length.saturating_mul(count);
        }
    }
    let (first, _) = rest.split_at(rest.len().min(1));
    words.put_octets(first);
    1
}

fn put_short(words: &mut Words, text: &[u8], count: usize) {
    words.put_number("~<", count as u64);
    words.put_after(" ", text);
    words.put("~>");
}

/// How often a text of this length is repeated at the start of `rest`.
fn times(rest: &[u8], text: &[u8], length: usize) -> usize
    requires { 0 < length }
{
    let mut count: usize = 0;
    for piece in rest.chunks(length) {
        if piece != text {
            return count;
        }
        count = count.saturating_add(1);
    }
    count
}
