//! How the framer cuts streams into frames.

use crate::damage::{Demand, put_failing};
use case_lines::Words;
use imap_lex::{FrameFault, Framer, Item, Limits};
use std::alloc::{AllocError, Global};

/// Limits that short streams exceed.
pub const NARROW: Limits = Limits {
    line: 9,
    literals: 4,
};

/// The sizes of pieces, in octets, that streams are cut into, besides single octets.
const SIZES: [usize; 5] = [2, 3, 100, 1_000, 2_000_000];

/// The greatest length, in octets, of streams that are also cut in two at each place.
const SHORT: usize = 100;

/// Puts what the framer gives for a stream that arrives octet by octet: `(ready)`,
/// `(frame OCTETS)`, `(refused OCTETS)`, and the first fault with the framer's answer to one
/// further octet. If the stream gives something else when it is cut otherwise, that follows.
pub fn put_stream(alloc: Global, words: &mut Words, limits: Limits, stream: &[u8]) {
    match in_pieces(alloc, limits, b"", stream, 1) {
        Ok(given) => {
            words.put_octets(&given);
            put_other_cuts(alloc, words, limits, stream, &given);
        }
        Err(AllocError) => words.give_up(),
    }
    let word = ", otherwise octet by octet where damaged at ";
    put_failing(
        alloc,
        words,
        Demand::SameInPieces(limits),
        SHORT,
        stream,
        word,
    );
}

fn put_other_cuts(alloc: Global, words: &mut Words, limits: Limits, stream: &[u8], given: &[u8]) {
    let size = other_size(alloc, words, limits, stream, given);
    words.put_optional(", otherwise in pieces of ", size);
    let first = other_cut(alloc, words, limits, stream, given);
    words.put_optional(", otherwise when cut after ", first);
}

/// Whether a stream gives the same in one piece and octet by octet.
pub fn is_same_in_pieces(alloc: Global, words: &mut Words, limits: Limits, stream: &[u8]) -> bool {
    match in_pieces(alloc, limits, b"", stream, SHORT) {
        Ok(whole) => has_output(alloc, words, limits, b"", stream, 1, &whole),
        Err(AllocError) => {
            words.give_up();
            false
        }
    }
}

/// The first size of pieces in which the stream gives something else, if any.
fn other_size(
    alloc: Global,
    words: &mut Words,
    limits: Limits,
    stream: &[u8],
    given: &[u8],
) -> Option<u64> {
    for size in SIZES {
        if !has_output(alloc, words, limits, b"", stream, size, given) {
            return Some(size as u64);
        }
    }
    None
}

/// The first place where the stream can be cut in two so that it gives something else, if any.
fn other_cut(
    alloc: Global,
    words: &mut Words,
    limits: Limits,
    stream: &[u8],
    given: &[u8],
) -> Option<u64> {
    for first in 0..stream.len().min(SHORT) {
        let (front, back) = stream.split_at(first);
        if !has_output(alloc, words, limits, front, back, SHORT, given) {
            return Some(first as u64);
        }
    }
    None
}

/// Whether a stream gives this if its first part arrives in one piece and the rest in pieces of
/// `size` octets.
fn has_output(
    alloc: Global,
    words: &mut Words,
    limits: Limits,
    front: &[u8],
    rest: &[u8],
    size: usize,
    given: &[u8],
) -> bool {
    match in_pieces(alloc, limits, front, rest, size) {
        Ok(other) => other.as_slice() == given,
        Err(AllocError) => {
            words.give_up();
            false
        }
    }
}

/// What a stream gives if its first part arrives in one piece and the rest in pieces of `size`
/// octets.
fn in_pieces(
    alloc: Global,
    limits: Limits,
    front: &[u8],
    rest: &[u8],
    size: usize,
) -> Result<Vec<u8>, AllocError> {
    let mut framing = Framing::new(alloc, limits);
    framing.feed(front);
    for piece in rest.chunks(size.max(1)) {
        framing.feed(piece);
    }
    framing.finish()
}

/// A framer and what it gave so far, as text.
#[derive(Drop)]
struct Framing {
    alloc: Global,
    framer: Framer,
    words: Words,
    has_failed: bool,
}

impl Framing {
    fn new(alloc: Global, limits: Limits) -> Framing {
        Framing {
            alloc,
            framer: Framer::new(alloc, limits),
            words: Words::new(alloc),
            has_failed: false,
        }
    }

    fn finish(self) -> Result<Vec<u8>, AllocError> {
        self.words.finish()
    }

    /// Feeds one piece, and after a fault one further octet.
    fn feed(&mut self, piece: &[u8]) {
        if self.has_failed {
            return;
        }
        self.feed_any(piece);
        if self.has_failed {
            self.feed_any(b"\n");
        }
    }

    fn feed_any(&mut self, piece: &[u8]) {
        match self.framer.feed(self.alloc, piece) {
            Ok(items) => put_items(&mut self.words, &items),
            Err(fault) => {
                self.has_failed = true;
                put_fault(&mut self.words, &fault);
            }
        }
    }
}

fn put_fault(words: &mut Words, fault: &FrameFault) {
    put_items(words, &fault.items);
    words.put_name("(", &fault.why);
    words.put(")");
}

fn put_items(words: &mut Words, items: &[Item]) {
    for item in items {
        put_item(words, item);
    }
}

fn put_item(words: &mut Words, item: &Item) {
    match item {
        Item::Ready => words.put("(ready)"),
        Item::Frame(frame) => put_octets(words, "(frame ", frame.bytes()),
        Item::Refused(front) => put_octets(words, "(refused ", front.bytes()),
    }
}

fn put_octets(words: &mut Words, word: &str, octets: &[u8]) {
    words.put_after(word, octets);
    words.put(")");
}
