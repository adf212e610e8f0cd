//! The parts of a text, and date-times.

use crate::parts::put_day;
use crate::queries::fields::take_each;
use crate::queries::messages::date_time;
use case_lines::{Trouble, Words, long_number, pair};
use imap_types::{Moment, Octets};
use mail_text::{body, civil, fields, header, other_fields, partial, written_day};
use std::alloc::{AllocError, Global};

/// Puts the answer of this kind about a text or a date-time.
pub fn put_text_answer(alloc: Global, words: &mut Words, text: &[u8], kind: &str, input: &str) {
    match kind {
        "header" => put_between(words, header(text)),
        "body" => put_between(words, body(text)),
        "partial" => put_partial(words, text, input),
        "fields" => put_fields(alloc, words, text, input, false),
        "other_fields" => put_fields(alloc, words, text, input, true),
        "civil" => put_civil(words, input),
        "written_day" => put_written_day(words, input),
        _ => words.put_trouble("", Trouble::NotACase),
    }
}

/// Puts octets in the escape, between `<` and `>`.
fn put_between(words: &mut Words, octets: &[u8]) {
    words.put_escaped("<", octets);
    words.put(">");
}

/// `START COUNT`: puts the part of the text that a partial FETCH asks for.
fn put_partial(words: &mut Words, text: &[u8], input: &str) {
    match pair(" ", input) {
        Ok((start, count)) => put_between(words, partial(text, start, count)),
        Err(trouble) => words.put_trouble("", trouble),
    }
}

/// Puts the fields with these names, or the other fields.
fn put_fields(alloc: Global, words: &mut Words, text: &[u8], names: &str, others: bool) {
    let mut all: Vec<Octets> = Vec::new(alloc);
    match take_each(alloc, &mut all, ' ', names) {
        Ok(()) => put_chosen_fields(words, chosen(alloc, text, &all, others)),
        Err(trouble) => words.put_trouble("", trouble),
    }
}

fn chosen(
    alloc: Global,
    text: &[u8],
    names: &[Octets],
    others: bool,
) -> Result<Vec<u8>, AllocError> {
    if others {
        other_fields(alloc, text, names)
    } else {
        fields(alloc, text, names)
    }
}

fn put_chosen_fields(words: &mut Words, chosen_text: Result<Vec<u8>, AllocError>) {
    match chosen_text {
        Ok(chosen_text) => put_between(words, &chosen_text),
        Err(AllocError) => words.give_up(),
    }
}

fn put_civil(words: &mut Words, input: &str) {
    match long_number(input) {
        Ok(seconds) => match Moment::new(seconds) {
            Some(moment) => words.put_escaped("", civil(moment).as_bytes()),
            None => words.put("no moment"),
        },
        Err(trouble) => words.put_trouble("", trouble),
    }
}

fn put_written_day(words: &mut Words, input: &str) {
    match date_time(input.as_bytes()) {
        Ok(date) => put_day(words, "year ", " month ", " day ", written_day(&date)),
        Err(trouble) => words.put_trouble("", trouble),
    }
}
