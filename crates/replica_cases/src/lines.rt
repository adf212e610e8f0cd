//! Reads the lines of cases, and puts their answers.

use case_lines::Words;
use std::alloc::{AllocError, Global};

/// The state that the lines of cases work on.
pub trait Plays {
    /// Executes a line, and puts its answer: a first line after one space, if it has one, and lines
    /// after an LF and two spaces.
    fn execute(&mut self, question: &str, answer: &mut Words);
}

/// Plays the lines of a text and returns them, each with its new answer below it in place of the
/// old one. `Err` if memory runs out.
pub fn play_text<P: Plays + Drop>(
    alloc: Global,
    setup: P,
    text: &str,
) -> Result<Vec<u8>, AllocError> {
    let mut setup = setup;
    let mut page = Words::new(alloc);
    for line in text.split_terminator('\n') {
        serve(&mut setup, line, &mut page);
    }
    drop(setup);
    page.finish()
}

/// Puts the line with its new answer. Lines that begin with two spaces belong to an old answer and
/// are passed over.
fn serve<P: Plays>(setup: &mut P, line: &str, page: &mut Words) {
    if !line.starts_with("  ") {
        page.put(line);
        put_answer(setup, line, page);
        page.put("\n");
    }
}

fn put_answer<P: Plays>(setup: &mut P, question: &str, page: &mut Words) {
    let mut answer = Words::new(page.alloc());
    setup.execute(question, &mut answer);
    match answer.finish() {
        Ok(answer) => page.put_answer(&answer),
        Err(AllocError) => page.give_up(),
    }
}
