//! Flags set in any order, as answers show them.

use crate::parts::flags_named;
use crate::round_trips::put_printed;
use case_lines::Words;
use imap_print::{Answer, FetchItems, Notice, Sections};
use imap_types::Flags;
use std::alloc::{AllocError, Global};
use std::str;

/// An answer that shows flags.
#[derive(Clone, Copy)]
enum Shown {
    /// The answer FLAGS.
    All,
    /// The code PERMANENTFLAGS.
    Permanent,
    /// The answer FETCH.
    Fetched,
}

/// Puts the answers FLAGS, PERMANENTFLAGS and FETCH with flags that were set in the order of these
/// names, which are separated by single spaces.
pub fn put_shown(alloc: Global, words: &mut Words, names: &[u8]) {
    match str::from_utf8(names) {
        Ok(names) => put_all(alloc, words, names),
        Err(_) => words.put("no names"),
    }
}

fn put_all(alloc: Global, words: &mut Words, names: &str) {
    for shown in [Shown::All, Shown::Permanent, Shown::Fetched] {
        match flags_named(alloc, names) {
            Ok(flags) => put_printed(alloc, words, answer(alloc, shown, flags)),
            Err(AllocError) => words.give_up(),
        }
    }
}

fn answer(alloc: Global, shown: Shown, flags: Flags) -> Answer {
    match shown {
        Shown::All => Answer::Flags { flags },
        Shown::Permanent => Answer::UntaggedOk {
            notice: Notice::PermanentFlags { flags: Some(flags) },
        },
        Shown::Fetched => fetched(alloc, flags),
    }
}

fn fetched(alloc: Global, flags: Flags) -> Answer {
    Answer::Fetch {
        number: 1,
        items: FetchItems {
            uid: None,
            flags: Some(flags),
            date: None,
            size: None,
            modseq: None,
            sections: Sections::new(Vec::new(alloc)),
        },
    }
}
