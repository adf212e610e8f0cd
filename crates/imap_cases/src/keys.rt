//! Writes search keys as text.

use crate::commands::put_set;
use crate::parts::put_day;
use case_lines::Words;
use imap_grammar::{SearchStep, SearchTest};

/// Puts the steps in the order in which they are executed, each after a space.
pub fn put_steps(words: &mut Words, steps: &[SearchStep]) {
    words.put(":");
    for step in steps {
        put_step(words, step);
    }
}

fn put_step(words: &mut Words, step: &SearchStep) {
    match step {
        SearchStep::Test(test) => put_test(words, test),
        SearchStep::Not => words.put(" NOT"),
        SearchStep::Or => words.put(" OR"),
        SearchStep::And => words.put(" AND"),
    }
}

fn put_test(words: &mut Words, test: &SearchTest) {
    match test {
        SearchTest::All => words.put(" all"),
        SearchTest::System { flag, is_set } => words.put_name(sign(*is_set), flag),
        SearchTest::Keyword { keyword, is_set } => {
            words.put_text(sign(*is_set), keyword.as_bytes());
        }
        SearchTest::Holds { place, text } => {
            words.put_lowered(" ", place);
            words.put_text("", text.as_bytes());
        }
        SearchTest::Header { name, text } => {
            words.put_text(" header", name.as_bytes());
            words.put_text("", text.as_bytes());
        }
        SearchTest::Dated { order, day } => {
            words.put_lowered(" ", order);
            put_day(words, "-", "/", "/", *day);
        }
        SearchTest::Larger { octets } => words.put_number(" larger-than-", *octets),
        SearchTest::Smaller { octets } => words.put_number(" smaller-than-", *octets),
        SearchTest::ModSeq { value } => words.put_number(" modseq-", *value),
        SearchTest::Uids { uids } => {
            words.put(" uids");
            put_set(words, uids);
        }
        SearchTest::Numbers { numbers } => {
            words.put(" numbers");
            put_set(words, numbers);
        }
    }
}

fn sign(is_set: bool) -> &'static str {
    if is_set { " +" } else { " -" }
}
