//! The results of a hundred runs, as text.

use crate::idle::runs::{RunResult, play_run};
use case_lines::{Trouble, Words, long_number};
use std::alloc::{AllocError, Global};

/// The results of a hundred runs.
#[derive(Drop)]
struct Tally {
    /// The first run that ended wrong, or can't be played.
    first_wrong: Option<u64>,
    /// Whether a client that ignores EXPUNGE went wrong in some run.
    needs_expunge: bool,
    /// Whether a client that ignores EXISTS went wrong in some run.
    needs_exists: bool,
    /// Whether a client that ignores FETCH went wrong in some run.
    needs_fetch: bool,
    /// Whether the mailbox no longer existed at the end of some run.
    has_ended: bool,
    has_stayed: bool,
}

/// Plays the hundred runs of each line `runs FIRST`, and returns the lines with the results below
/// them; other lines as they are, but for those that begin with two spaces. `Err` if memory runs
/// out.
pub fn play(alloc: Global, text: &str) -> Result<Vec<u8>, AllocError> {
    let mut page = Words::new(alloc);
    for line in text.split_terminator('\n') {
        if !line.starts_with("  ") {
            page.put_after(line, b"\n");
            put_results(alloc, line, &mut page);
        }
    }
    page.finish()
}

fn put_results(alloc: Global, line: &str, page: &mut Words) {
    if let Some(first) = line.strip_prefix("runs ") {
        match long_number(first) {
            Ok(first) => put_hundred(alloc, first, page),
            Err(trouble) => {
                page.put_trouble("  ", trouble);
                page.put("\n");
            }
        }
    }
}

fn put_hundred(alloc: Global, first: u64, page: &mut Words) {
    match hundred(alloc, first) {
        Ok(tally) => tally.put_lines(page),
        Err(AllocError) => page.give_up(),
    }
}

/// Plays the hundred runs from this number on. `Err` if memory runs out.
fn hundred(alloc: Global, first: u64) -> Result<Tally, AllocError> {
    let mut tally = Tally {
        first_wrong: None,
        needs_expunge: false,
        needs_exists: false,
        needs_fetch: false,
        has_ended: false,
        has_stayed: false,
    };
    for run in first..first.saturating_add(100) {
        count(alloc, &mut tally, run)?;
    }
    Ok(tally)
}

fn count(alloc: Global, tally: &mut Tally, run: u64) -> Result<(), AllocError> {
    match play_run(alloc, run) {
        Ok(run_result) => {
            tally.add(run, run_result);
            Ok(())
        }
        Err(Trouble::NoMemory) => Err(AllocError),
        Err(_) => {
            tally.note_failure(run);
            Ok(())
        }
    }
}

impl Tally {
    fn add(&mut self, run: u64, run_result: RunResult) {
        if !run_result.is_right {
            self.note_failure(run);
        }
        self.needs_expunge = self.needs_expunge || !run_result.without_expunge;
        self.needs_exists = self.needs_exists || !run_result.without_exists;
        self.needs_fetch = self.needs_fetch || !run_result.without_fetch;
        self.has_ended = self.has_ended || run_result.has_ended;
        self.has_stayed = self.has_stayed || !run_result.has_ended;
    }

    fn note_failure(&mut self, run: u64) {
        if self.first_wrong.is_none() {
            self.first_wrong = Some(run);
        }
    }

    /// Puts the results, in two lines.
    fn put_lines(&self, page: &mut Words) {
        match self.first_wrong {
            None => page.put("  all end as they should"),
            Some(run) => {
                page.put_number("  run ", run);
                page.put(" does not");
            }
        }
        put_some("\n  without EXPUNGE ", self.needs_expunge, page);
        put_some(" would not, without EXISTS ", self.needs_exists, page);
        put_some(", without FETCH ", self.needs_fetch, page);
        let both = self.has_ended && self.has_stayed;
        put_some("; mailboxes that ended: ", both, page);
        page.put("\n");
    }
}

/// Puts a word, and whether there were some.
fn put_some(word: &str, some: bool, page: &mut Words) {
    page.put(word);
    page.put(if some { "some" } else { "none" });
}
