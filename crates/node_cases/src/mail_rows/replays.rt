//! Replays scripts, and puts the results.

use case_lines::Words;
use mail_audit::audit;
use mail_replay::{ReplayEnd, replay};
use std::alloc::Global;

/// A longer run of one octet is put as its length.
const LONGEST_RUN: usize = 100;

/// What a replay printed, and how it ended.
#[derive(Drop)]
pub struct Replay {
    pub printed: Vec<u8>,
    pub end: ReplayEnd,
}

/// Replays a script.
pub fn play_script(alloc: Global, script: &[u8]) -> Replay {
    let mut reader = script;
    let mut printed = Vec::new(alloc);
    let end = replay(alloc, &mut reader, &mut printed);
    Replay { printed, end }
}

impl Replay {
    /// Whether both replays printed the same and ended in the same way.
    pub fn is_same(&self, other: &Replay) -> bool {
        self.end == other.end && self.printed.as_slice() == other.printed.as_slice()
    }

    /// Puts everything that was printed, and the end.
    pub fn put_report(&self, page: &mut Words) {
        put_shortened(&self.printed, page);
        self.put_last_line(page);
    }

    /// Puts how many lines were printed, the last `last` of them, and the end.
    pub fn put_last(&self, last: usize, page: &mut Words) {
        let count = count_line_ends(&self.printed);
        page.put_number("-- ", count as u64);
        page.put_number(" lines, the last ", last as u64);
        page.put(":\n");
        let lines = self.printed.split_inclusive(|octet| *octet == b'\n');
        for line in lines.skip(count.saturating_sub(last)) {
            put_shortened(line, page);
        }
        self.put_last_line(page);
    }

    /// Puts how many of the printed lines are this one, and the end.
    pub fn put_count(&self, line: &str, page: &mut Words) {
        page.put_number("-- ", count_lines(&self.printed, line.as_bytes()) as u64);
        page.put(" lines: ");
        page.put(line);
        page.put("\n");
        self.put_last_line(page);
    }

    /// Puts the end and, if the script ran to its end, the audit's answer to everything that
    /// was printed.
    pub fn put_last_line(&self, page: &mut Words) {
        put_end(self.end, page);
        if self.end == ReplayEnd::Done {
            page.put("-- audit: ");
            put_audit(&self.printed, page);
        }
    }
}

/// Puts the audit's answer to what was printed.
fn put_audit(printed: &[u8], page: &mut Words) {
    let mut reader = printed;
    let mut written = Vec::new(page.alloc());
    audit(page.alloc(), &mut reader, &mut written);
    page.put_octets(&written);
}

/// The number of line ends in a text.
pub fn count_line_ends(text: &[u8]) -> usize {
    text.iter().filter(|octet| **octet == b'\n').count()
}

/// The number of lines of the text that equal `target`.
fn count_lines(text: &[u8], target: &[u8]) -> usize {
    text.split(|octet| *octet == b'\n')
        .filter(|line| *line == target)
        .count()
}

/// Puts what was printed. Each long run of one octet is put as its length and the octet, in braces.
pub fn put_shortened(printed: &[u8], page: &mut Words) {
    for run in printed.chunk_by(|one, next| *one == *next) {
        if run.len() <= LONGEST_RUN {
            page.put_octets(run);
        } else {
            page.put_number("{", run.len() as u64);
            page.put_escaped(" ", &run[..1]);
            page.put("}");
        }
    }
}

/// Puts how a replay ended.
fn put_end(end: ReplayEnd, page: &mut Words) {
    match end {
        ReplayEnd::Done => page.put("-- done\n"),
        ReplayEnd::BadScript { line } => {
            page.put_number("-- bad script: line ", line);
            page.put("\n");
        }
        ReplayEnd::ReadFailed => page.put("-- cannot read\n"),
        ReplayEnd::WriteFailed => page.put("-- cannot write\n"),
        ReplayEnd::NoMemory => page.put("-- no memory\n"),
    }
}
