//! Questions about the UIDs and mod-sequences of a folder.

use crate::uids::setup::{Node, Setup, charts, folders, listing};
use case_lines::{Words, long_number, name, number, parts_around};
use imap_types::Name;
use mailbox_rows::{Row, Rows};
use std::alloc::AllocError;
use uid_projection::{changed_since, highest};

/// A question about a folder.
#[derive(Clone, Copy)]
pub enum Question {
    /// `folder NAME`: its UIDVALIDITY, UIDNEXT and HIGHESTMODSEQ, and its messages.
    Folder,
    /// `after NAME`: what `folder NAME` asks for, as the operations that come next would leave it.
    After,
    /// `row NAME UID`: the message with the UID, and when it was received.
    Row,
    /// `changed NAME MODSEQ`: the messages that changed since the mod-sequence.
    Changed,
}

/// Puts the answer about the folder that the line names.
pub fn put_asked(setup: &Setup, question: Question, fields: &str, answer: &mut Words) {
    let (folder, number) = match question {
        Question::Folder | Question::After => (fields, ""),
        Question::Row | Question::Changed => parts_around(fields, " "),
    };
    match name(answer.alloc(), folder) {
        Ok(name) => put_asked_of(setup, question, &name, number, answer),
        Err(trouble) => answer.put_trouble(" ", trouble),
    }
}

fn put_asked_of(setup: &Setup, question: Question, name: &Name, number: &str, answer: &mut Words) {
    match question {
        Question::Folder => put_folder(&setup.inbox, name, answer),
        Question::After => put_after_ready(setup, name, answer),
        Question::Row => put_row_of(&setup.inbox, name, number, answer),
        Question::Changed => put_changed(&setup.inbox, name, number, answer),
    }
}

/// Puts the folder's UIDVALIDITY, UIDNEXT and HIGHESTMODSEQ, and its messages.
pub fn put_folder(inbox: &Node, name: &Name, answer: &mut Words) {
    put_numbers_now(inbox, name, answer);
    put_listing(listing(answer.alloc(), inbox, name), answer);
}

/// Puts what `put_folder` does, as the operations that come next would leave it.
pub fn put_after_ready(setup: &Setup, name: &Name, answer: &mut Words) {
    put_numbers_after(setup, name, answer);
    put_listing_after(setup, name, answer);
}

fn put_row_of(inbox: &Node, name: &Name, uid: &str, answer: &mut Words) {
    match number(uid) {
        Ok(uid) => put_row_with(inbox, name, uid, answer),
        Err(trouble) => answer.put_trouble(" ", trouble),
    }
}

fn put_changed(inbox: &Node, name: &Name, modseq: &str, answer: &mut Words) {
    match long_number(modseq) {
        Ok(modseq) => put_changes(inbox, name, modseq, answer),
        Err(trouble) => answer.put_trouble(" ", trouble),
    }
}

fn put_numbers_now(inbox: &Node, name: &Name, answer: &mut Words) {
    let charts = charts(inbox);
    put_numbers(
        charts.uidvalidity(name),
        charts.uidnext(name),
        highest(charts, name),
        answer,
    );
}

fn put_listing(listing: Result<Rows<'_>, AllocError>, answer: &mut Words) {
    match listing {
        Ok(rows) => {
            put_rows(&rows, answer);
            drop(rows);
        }
        Err(AllocError) => answer.give_up(),
    }
}

fn put_numbers_after(setup: &Setup, name: &Name, answer: &mut Words) {
    let charts = charts(&setup.inbox);
    let folders = folders(&setup.inbox);
    put_numbers(
        charts.uidvalidity_after(folders, name, &setup.next),
        charts.uidnext_after(folders, name, &setup.next),
        charts.highest_after(folders, name, &setup.next),
        answer,
    );
}

fn put_listing_after(setup: &Setup, name: &Name, answer: &mut Words) {
    let folders = folders(&setup.inbox);
    let listing = charts(&setup.inbox).rows_after(answer.alloc(), folders, name, &setup.next);
    put_listing(listing, answer);
}

/// Puts the message with the UID and when it was received, or `none`.
pub fn put_row_with(inbox: &Node, name: &Name, uid: u32, answer: &mut Words) {
    match charts(inbox).row_by_uid(folders(inbox), name, uid) {
        Some(row) => put_dated_row(&row, answer),
        None => answer.put(" none"),
    }
}

fn put_dated_row(row: &Row<'_>, answer: &mut Words) {
    let date = row.shown_date();
    answer.put_after(" ", date.as_bytes());
    put_row(row, answer);
}

/// Puts the messages with mod-sequences above this one.
pub fn put_changes(inbox: &Node, name: &Name, modseq: u64, answer: &mut Words) {
    let charts = charts(inbox);
    let changed = changed_since(charts, answer.alloc(), folders(inbox), name, modseq);
    put_listing(changed, answer);
}

fn put_numbers(uidvalidity: Option<u32>, uidnext: u32, highest: u64, answer: &mut Words) {
    match uidvalidity {
        Some(number) => answer.put_number(" ", u64::from(number)),
        None => answer.put(" -"),
    }
    answer.put_number(" ", u64::from(uidnext));
    answer.put_number(" ", highest);
}

fn put_rows(rows: &Rows<'_>, answer: &mut Words) {
    for place in 0..rows.count() {
        put_place(rows, place as usize, answer);
    }
}

fn put_place(rows: &Rows<'_>, place: usize, answer: &mut Words) {
    if let Some(row) = rows.row_at(place) {
        answer.put("\n ");
        put_row(&row, answer);
    }
}

/// Puts a message's UID, mod-sequence, version ids, origin, flags and text.
fn put_row(row: &Row<'_>, answer: &mut Words) {
    answer.put_number(" ", u64::from(row.uid));
    answer.put_number(" ", row.modseq);
    put_versions(row, answer);
    answer.put_id(" ", row.origin);
    put_row_flags(row, answer);
    answer.put_escaped(" =", row.shown_text());
}

fn put_versions(row: &Row<'_>, answer: &mut Words) {
    let mut separator = " ";
    for version in row.versions.as_slice() {
        answer.put_id(separator, version.id);
        separator = ",";
    }
}

fn put_row_flags(row: &Row<'_>, answer: &mut Words) {
    match row.versions.flags(answer.alloc()) {
        Ok(flags) => answer.put_flags(" ", &flags),
        Err(AllocError) => answer.give_up(),
    }
}
