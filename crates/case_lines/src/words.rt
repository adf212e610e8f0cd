//! The text of an answer, as it grows.

use crate::Trouble;
use crdt_ops::{Ids, SoundOp, write_clock, write_flags, write_id, write_ids, write_op};
use imap_types::{Escape, Flags, write_escaped};
use std::alloc::{AllocError, Global};
use std::fmt::Debug;
use tags_clocks::{Clock, OpId};
use text_fields::push_number;

/// A text that grows at its end, mostly by a word and a value after it. Once memory has run out it
/// is incomplete, and `finish` gives `Err`.
#[derive(Drop)]
pub struct Words {
    alloc: Global,
    octets: Vec<u8>,
    is_whole: bool,
}

impl Words {
    /// The empty text.
    pub fn new(alloc: Global) -> Words {
        Words {
            alloc,
            octets: Vec::new(alloc),
            is_whole: true,
        }
    }

    /// The allocator.
    pub fn alloc(&self) -> Global {
        self.alloc
    }

    /// The text; `Err` if memory ran out for it.
    pub fn finish(self) -> Result<Vec<u8>, AllocError> {
        if self.is_whole {
            Ok(self.octets)
        } else {
            Err(AllocError)
        }
    }

    /// The text as far as memory sufficed.
    pub fn so_far(&self) -> &[u8] {
        self.octets.as_slice()
    }

    /// Marks the text as incomplete, since memory ran out for the next part.
    pub fn give_up(&mut self) {
        self.is_whole = false;
    }

    fn note_result(&mut self, done: Result<(), AllocError>) {
        if done.is_err() {
            self.give_up();
        }
    }

    /// Appends a word.
    pub fn put(&mut self, word: &str) {
        self.put_octets(word.as_bytes());
    }

    /// Appends octets.
    pub fn put_octets(&mut self, octets: &[u8]) {
        let done = self.octets.extend_from_slice(octets);
        self.note_result(done);
    }

    /// Appends a word if a condition holds.
    pub fn put_if(&mut self, holds: bool, word: &str) {
        if holds {
            self.put(word);
        }
    }

    /// Appends a word, and `yes` or `no`.
    pub fn put_whether(&mut self, word: &str, holds: bool) {
        self.put(word);
        self.put(if holds { "yes" } else { "no" });
    }

    /// Appends a word, and octets.
    pub fn put_after(&mut self, word: &str, octets: &[u8]) {
        self.put(word);
        self.put_octets(octets);
    }

    /// Appends a word, and octets between `<` and `>`.
    pub fn put_text(&mut self, word: &str, octets: &[u8]) {
        self.put(word);
        self.put_after("<", octets);
        self.put(">");
    }

    /// Appends a word, and octets escaped so that spaces stay as they are.
    pub fn put_escaped(&mut self, word: &str, octets: &[u8]) {
        self.put(word);
        let done = write_escaped(Escape::Text, octets, &mut self.octets);
        self.note_result(done);
    }

    /// Appends a word, and octets escaped as in fields.
    pub fn put_field(&mut self, word: &str, octets: &[u8]) {
        self.put(word);
        let done = write_escaped(Escape::Field, octets, &mut self.octets);
        self.note_result(done);
    }

    /// Appends a word, and a number in decimal.
    pub fn put_number(&mut self, word: &str, number: u64) {
        self.put(word);
        let done = push_number(number, &mut self.octets);
        self.note_result(done);
    }

    /// Appends a word and a number, if there is one.
    pub fn put_optional(&mut self, word: &str, number: Option<u64>) {
        if let Some(number) = number {
            self.put_number(word, number);
        }
    }

    /// Appends a word, and a value by its name in the code.
    pub fn put_name<T: Debug>(&mut self, word: &str, value: &T) {
        self.put(word);
        match format!(in self.alloc; "{value:?}") {
            Ok(name) => self.put(&name),
            Err(AllocError) => self.give_up(),
        }
    }

    /// Appends a word, and a value by its name in the code, in lower case.
    pub fn put_lowered<T: Debug>(&mut self, word: &str, value: &T) {
        self.put(word);
        match format!(in self.alloc; "{value:?}") {
            Ok(mut name) => {
                name.make_ascii_lowercase();
                self.put(&name);
            }
            Err(AllocError) => self.give_up(),
        }
    }

    /// Appends a word, and flags as operations spell them.
    pub fn put_flags(&mut self, word: &str, flags: &Flags) {
        self.put(word);
        let done = write_flags(flags, &mut self.octets);
        self.note_result(done);
    }

    /// Appends a word, and the id of an operation.
    pub fn put_id(&mut self, word: &str, id: OpId) {
        self.put(word);
        let done = write_id(self.alloc, id, &mut self.octets);
        self.note_result(done);
    }

    /// Appends a word, and ids of operations.
    pub fn put_ids(&mut self, word: &str, ids: &Ids) {
        self.put(word);
        let done = write_ids(self.alloc, ids, &mut self.octets);
        self.note_result(done);
    }

    /// Appends a word, and a clock.
    pub fn put_clock(&mut self, word: &str, clock: &Clock) {
        self.put(word);
        let done = write_clock(self.alloc, clock, &mut self.octets);
        self.note_result(done);
    }

    /// Appends a word, and an operation.
    pub fn put_op(&mut self, word: &str, op: &SoundOp) {
        self.put(word);
        let done = write_op(self.alloc, op, &mut self.octets);
        self.note_result(done);
    }

    /// Appends an answer below its question: a first line, which is given with one space before it,
    /// and lines that are given with an LF and two spaces before them.
    pub fn put_answer(&mut self, answer: &[u8]) {
        self.put_if(answer.starts_with(b" "), "\n ");
        self.put_octets(answer);
    }

    /// Appends octets, or marks the text as incomplete if memory ran out for them.
    pub fn put_result(&mut self, made: Result<Vec<u8>, AllocError>) {
        match made {
            Ok(octets) => self.put_octets(&octets),
            Err(AllocError) => self.give_up(),
        }
    }

    /// Appends a word, and why there is no answer; marks the text as incomplete if memory ran out.
    pub fn put_trouble(&mut self, word: &str, trouble: Trouble) {
        self.put(word);
        match trouble {
            Trouble::NotACase => self.put("no case"),
            Trouble::OutOfRange => self.put("out of range"),
            Trouble::NoMemory => self.give_up(),
        }
    }
}
