//! Questions that are answered by yes or no.

use crate::queries::fields::octets;
use case_lines::{Words, parts_around};
use imap_query::matches;
use imap_types::Escape;
use mail_text::{contains_nocase, date_ok, field_contains_nocase};
use std::alloc::{AllocError, Global};

/// A question about the text, or only about the octets that the case gives.
#[derive(Clone, Copy)]
pub enum Question {
    /// `WORD`: whether the text contains it.
    Contains,
    /// `NAME WORD`: whether a field of this name contains the word.
    FieldContains,
    /// `DATE`: whether it is a date-time.
    DateOk,
    /// `PATTERN NAME`: whether the pattern matches the name.
    Matches,
}

/// Puts yes or no to the question.
pub fn put_yes_or_no(
    alloc: Global,
    words: &mut Words,
    text: &[u8],
    question: Question,
    input: &str,
) {
    let (first, second) = match question {
        Question::FieldContains | Question::Matches => parts_around(input, " "),
        Question::Contains | Question::DateOk => ("", input),
    };
    match octets(alloc, Escape::Field, first) {
        Ok(first) => put_answer_to_question(alloc, words, text, question, first.as_bytes(), second),
        Err(trouble) => words.put_trouble("", trouble),
    }
}

fn put_answer_to_question(
    alloc: Global,
    words: &mut Words,
    text: &[u8],
    question: Question,
    first: &[u8],
    second: &str,
) {
    let escape = match question {
        Question::Matches => Escape::Field,
        _ => Escape::Text,
    };
    match octets(alloc, escape, second) {
        Ok(second) => put_answer(
            words,
            answer(alloc, text, question, first, second.as_bytes()),
        ),
        Err(trouble) => words.put_trouble("", trouble),
    }
}

fn answer(
    alloc: Global,
    text: &[u8],
    question: Question,
    first: &[u8],
    second: &[u8],
) -> Result<bool, AllocError> {
    match question {
        Question::Contains => contains_nocase(alloc, text, second),
        Question::FieldContains => field_contains_nocase(alloc, text, first, second),
        Question::DateOk => Ok(date_ok(second)),
        Question::Matches => matches(alloc, first, second),
    }
}

fn put_answer(words: &mut Words, answer: Result<bool, AllocError>) {
    match answer {
        Ok(is_so) => words.put_whether("", is_so),
        Err(AllocError) => words.give_up(),
    }
}
