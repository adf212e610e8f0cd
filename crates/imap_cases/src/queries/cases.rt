//! Chooses the code that answers a query.

use crate::queries::commands::put_command;
use crate::queries::question::{Question, put_yes_or_no};
use crate::queries::setup::Setup;
use crate::queries::texts::put_text_answer;
use case_lines::Words;
use std::alloc::Global;

/// Puts the code's answer to a query.
pub fn put_query(alloc: Global, words: &mut Words, setup: &Setup, kind: &str, input: &str) {
    let text = setup.text.as_bytes();
    match kind {
        "command" => put_command(alloc, words, setup, input),
        "contains_nocase" => put_yes_or_no(alloc, words, text, Question::Contains, input),
        "field_contains_nocase" => {
            put_yes_or_no(alloc, words, text, Question::FieldContains, input)
        }
        "date_ok" => put_yes_or_no(alloc, words, text, Question::DateOk, input),
        "matches" => put_yes_or_no(alloc, words, text, Question::Matches, input),
        _ => put_text_answer(alloc, words, text, kind, input),
    }
}
