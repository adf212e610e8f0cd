//! The answers of a view to a set or a sync.

ghost use Rattle.session_view.specs.NoteChanges.{NoteAllChanges};

use crate::queries::messages::{Message, rows_of};
use crate::queries::views::differences::{differences, note_of_end};
use crate::queries::views::view_reader::{messages_in, set_in, view_in};
use crate::queries::views::view_writer::{put_answers, put_entries, put_numbers};
use case_lines::{Trouble, Words, meaning, parts_around};
use imap_answers::Answer;
use mailbox_rows::Rows;
use session_view::{BadSet, Changes, SyncForm, SyncKind, View, replay_reply};
use std::alloc::{AllocError, Global};

/// The words for the forms of a sync.
const FORMS: &[(&str, SyncForm)] = &[
    (
        "full",
        SyncForm {
            kind: SyncKind::Full,
            modseq: false,
        },
    ),
    (
        "full-modseq",
        SyncForm {
            kind: SyncKind::Full,
            modseq: true,
        },
    ),
    (
        "partial",
        SyncForm {
            kind: SyncKind::Partial,
            modseq: false,
        },
    ),
    (
        "partial-modseq",
        SyncForm {
            kind: SyncKind::Partial,
            modseq: true,
        },
    ),
];

/// `WHICH VIEW OTHER`: puts the code's answer.
pub fn put_view(alloc: Global, words: &mut Words, kind: &str, input: &str) {
    let (which, rest) = parts_around(input, " ");
    let (view, other) = parts_around(rest, " ");
    match view_in(alloc, view) {
        Ok(view) => {
            put_view_answer(alloc, words, &view, kind, which, other);
            drop(view);
        }
        Err(trouble) => words.put_trouble("", trouble),
    }
}

fn put_view_answer(
    alloc: Global,
    words: &mut Words,
    view: &View,
    kind: &str,
    which: &str,
    other: &str,
) {
    match kind {
        "resolve" => put_resolved(alloc, words, view, other, which == "uid"),
        "sync" => put_sync(alloc, words, view, other, meaning(FORMS, which)),
        _ => words.put_trouble("", Trouble::NotACase),
    }
}

fn put_resolved(alloc: Global, words: &mut Words, view: &View, set: &str, by_uid: bool) {
    match set_in(alloc, set) {
        Ok(set) => put_named(words, view.resolve(alloc, &set, by_uid)),
        Err(trouble) => words.put_trouble("", trouble),
    }
}

fn put_named(words: &mut Words, numbers: Result<Vec<u32>, BadSet>) {
    match numbers {
        Ok(numbers) => put_numbers(words, &numbers),
        Err(BadSet::OutOfRange) => words.put_trouble("", Trouble::OutOfRange),
        Err(BadSet::NoMemory) => words.give_up(),
    }
}

fn put_sync(alloc: Global, words: &mut Words, view: &View, listing: &str, form: Option<SyncForm>) {
    match form {
        Some(form) => put_listed(alloc, words, view, listing, form),
        None => words.put_trouble("", Trouble::NotACase),
    }
}

fn put_listed(alloc: Global, words: &mut Words, view: &View, listing: &str, form: SyncForm) {
    match messages_in(alloc, listing) {
        Ok(messages) => put_sync_of_messages(alloc, words, view, &messages, form),
        Err(trouble) => words.put_trouble("", trouble),
    }
}

fn put_sync_of_messages(
    alloc: Global,
    words: &mut Words,
    view: &View,
    messages: &[Message],
    form: SyncForm,
) {
    match rows_of(alloc, messages, false) {
        Ok(rows) => {
            put_synced(alloc, words, view, &rows, form);
            drop(rows);
        }
        Err(trouble) => words.put_trouble("", trouble),
    }
}

/// Puts the answers of a sync, the view after it, and the view that a replay of the answers makes
/// from the view before it. If a sync by notes gives other answers or another view, these are put
/// in a line of their own.
fn put_synced(alloc: Global, words: &mut Words, view: &View, rows: &Rows<'_>, form: SyncForm) {
    match view.copy(alloc) {
        Ok(mut after) => {
            put_after(alloc, words, view, &mut after, rows, form);
            drop(after);
        }
        Err(AllocError) => words.give_up(),
    }
}

fn put_after(
    alloc: Global,
    words: &mut Words,
    view: &View,
    after: &mut View,
    rows: &Rows<'_>,
    form: SyncForm,
) {
    match after.sync(alloc, rows, form) {
        Ok(answers) => {
            match outcome_text(alloc, &answers, after) {
                Ok(outcome) => {
                    words.put_octets(&outcome);
                    put_replayed(alloc, words, view, rows, &answers);
                    put_noted(alloc, words, view, rows, form, &outcome);
                    drop(outcome);
                }
                Err(AllocError) => words.give_up(),
            }
            drop(answers);
        }
        Err(AllocError) => words.give_up(),
    }
}

/// The answers of a sync, and the view after it.
fn outcome_text(alloc: Global, answers: &[Answer], after: &View) -> Result<Vec<u8>, AllocError> {
    let mut words = Words::new(alloc);
    put_answers(&mut words, answers);
    words.put("\n  ");
    put_entries(&mut words, after.entries());
    words.finish()
}

/// Puts those outcomes of two syncs by notes that differ from the expected one: a sync by a note of
/// each message that differs, and one by the note that names all messages.
fn put_noted(
    alloc: Global,
    words: &mut Words,
    view: &View,
    rows: &Rows<'_>,
    form: SyncForm,
    expected: &[u8],
) {
    match differences(alloc, rows, view.entries()) {
        Ok(changes) => {
            put_if_other(
                words,
                expected,
                outcome_by_notes(alloc, view, rows, &changes, form),
            );
            drop(changes);
        }
        Err(AllocError) => words.give_up(),
    }
    match note_of_end(alloc) {
        Ok(changes) => {
            put_if_other(
                words,
                expected,
                outcome_by_notes(alloc, view, rows, &changes, form),
            );
            drop(changes);
        }
        Err(AllocError) => words.give_up(),
    }
}

/// The answers of a sync by notes, and the view after it.
fn outcome_by_notes(
    alloc: Global,
    view: &View,
    rows: &Rows<'_>,
    changes: &Changes,
    form: SyncForm,
) -> Result<Vec<u8>, AllocError>
    requires { NoteAllChanges changes.now rows.now view.now.entries }
{
    let mut after = view.copy(alloc)?;
    let outcome = match after.sync_by(alloc, rows, changes, form) {
        Ok(answers) => {
            let outcome = outcome_text(alloc, &answers, &after);
            drop(answers);
            outcome
        }
        Err(AllocError) => Err(AllocError),
    };
    drop(after);
    outcome
}

fn put_if_other(words: &mut Words, expected: &[u8], outcome: Result<Vec<u8>, AllocError>) {
    match outcome {
        Ok(outcome) => {
            if outcome.as_slice() != expected {
                words.put_after("\n  by notes\n  ", &outcome);
            }
            drop(outcome);
        }
        Err(AllocError) => words.give_up(),
    }
}

fn put_replayed(
    alloc: Global,
    words: &mut Words,
    view: &View,
    rows: &Rows<'_>,
    answers: &[Answer],
) {
    match replay_reply(alloc, rows, view.entries(), &[], answers) {
        Ok(replayed) => {
            words.put("\n  ");
            put_entries(words, &replayed);
            drop(replayed);
        }
        Err(AllocError) => words.give_up(),
    }
}
