//! Reads the lines of cases, and prints each with its answer.

use crate::queries::{Setup, is_setting, put_query, put_view};
use crate::texts::answer_to;
use case_lines::{Words, parts_around};
use std::alloc::{AllocError, Global};

/// The kind of cases that a text has.
#[derive(Clone, Copy)]
enum Subject {
    /// IMAP texts.
    Texts,
    /// Queries: some lines set the mailbox and the text that later lines ask about.
    Queries,
    /// Views.
    Views,
}

/// Plays cases of IMAP texts and returns them with the answers that the code gives now. `Err` if
/// memory runs out.
pub fn play(alloc: Global, text: &str) -> Result<Vec<u8>, AllocError> {
    played(alloc, Subject::Texts, text)
}

/// Plays cases of queries and returns them with the answers that the code gives now. `Err` if
/// memory runs out.
pub fn play_queries(alloc: Global, text: &str) -> Result<Vec<u8>, AllocError> {
    played(alloc, Subject::Queries, text)
}

/// Plays cases of views and returns them with the answers that the code gives now. `Err` if memory
/// runs out.
pub fn play_views(alloc: Global, text: &str) -> Result<Vec<u8>, AllocError> {
    played(alloc, Subject::Views, text)
}

fn played(alloc: Global, subject: Subject, text: &str) -> Result<Vec<u8>, AllocError> {
    let mut setup = Setup::new(alloc);
    let mut page = Words::new(alloc);
    for line in text.split_terminator('\n') {
        put_line(alloc, &mut page, &mut setup, subject, line);
    }
    drop(setup);
    page.finish()
}

/// Puts the line with its LF, and below a case, `KIND INPUT`, the answer that the code gives now.
/// Comments, which begin with `#`, empty lines and lines that set a query's subject are put
/// unchanged; lines that begin with two spaces are old answers and are left out.
fn put_line(alloc: Global, page: &mut Words, setup: &mut Setup, subject: Subject, line: &str) {
    if line.starts_with("  ") {
        return;
    }
    if line.is_empty() || line.starts_with('#') {
        page.put(line);
    } else {
        put_outcome(alloc, page, setup, subject, line);
    }
    page.put("\n");
}

fn put_outcome(alloc: Global, page: &mut Words, setup: &mut Setup, subject: Subject, line: &str) {
    let (kind, rest) = parts_around(line, " ");
    if matches!(subject, Subject::Queries) && is_setting(kind) {
        page.put(line);
        if let Err(trouble) = setup.set(alloc, kind, rest) {
            page.put_trouble("\n  ", trouble);
        }
    } else {
        put_case(alloc, page, setup, subject, line);
    }
}

fn put_case(alloc: Global, page: &mut Words, setup: &Setup, subject: Subject, line: &str) {
    page.put(line);
    match answer(alloc, setup, subject, line) {
        Ok(answer) => {
            page.put_if(!answer.is_empty(), "\n  ");
            page.put_octets(&answer);
        }
        Err(AllocError) => page.give_up(),
    }
}

/// The code's answer to a case. `Err` if memory runs out.
fn answer(
    alloc: Global,
    setup: &Setup,
    subject: Subject,
    line: &str,
) -> Result<Vec<u8>, AllocError> {
    let (kind, input) = parts_around(line, " ");
    let mut words = Words::new(alloc);
    match subject {
        Subject::Texts => words.put_result(answer_to(alloc, kind, input)),
        Subject::Queries => put_query(alloc, &mut words, setup, kind, input),
        Subject::Views => put_view(alloc, &mut words, kind, input),
    }
    words.finish()
}
