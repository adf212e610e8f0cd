//! Comparisons of names, ids, messages and rows in tables with those in plain lists.

use crate::plain_charts::PlainRow;
use crdt_ops::{Ids, Message};
use imap_types::Name;
use mailbox_rows::{Row, Rows};
use std::alloc::{AllocError, Global};

/// Whether both are the same names in the same order.
pub fn are_names_alike(
    names: Result<Vec<Name>, AllocError>,
    others: Result<Vec<Name>, AllocError>,
) -> Result<bool, AllocError> {
    Ok(have_same_names(&names?, &others?))
}

fn have_same_names(names: &[Name], others: &[Name]) -> bool {
    for (at, name) in names.iter().enumerate() {
        match others.get(at) {
            None => return false,
            Some(other) => {
                if !name.same(other) {
                    return false;
                }
            }
        }
    }
    names.len() == others.len()
}

/// Whether both are the same ids.
pub fn are_ids_alike(
    ids: Result<Ids, AllocError>,
    others: Result<Ids, AllocError>,
) -> Result<bool, AllocError> {
    Ok(ids?.same(&others?))
}

/// Whether both are the same messages in the same order.
pub fn are_messages_alike(
    messages: Result<Vec<Message>, AllocError>,
    others: Result<Vec<Message>, AllocError>,
) -> Result<bool, AllocError> {
    Ok(have_same_messages(&messages?, &others?))
}

fn have_same_messages(messages: &[Message], others: &[Message]) -> bool {
    for (at, message) in messages.iter().enumerate() {
        match others.get(at) {
            None => return false,
            Some(other) => {
                if !message.same(other) {
                    return false;
                }
            }
        }
    }
    messages.len() == others.len()
}

/// Whether the rows are those of the plain ones whose mod-sequences are greater than `since`.
pub fn are_rows_alike(
    alloc: Global,
    rows: &Rows<'_>,
    plain: &[PlainRow],
    since: u64,
) -> Result<bool, AllocError> {
    let mut place = 0usize;
    for plain_row in plain {
        if plain_row.modseq > since {
            if !is_row_at_alike(alloc, rows, place, plain_row)? {
                return Ok(false);
            }
            place = place.saturating_add(1);
        }
    }
    Ok(rows.count() as usize == place)
}

/// Whether the row at this place is this plain one.
fn is_row_at_alike(
    alloc: Global,
    rows: &Rows<'_>,
    place: usize,
    plain: &PlainRow,
) -> Result<bool, AllocError> {
    match rows.row_at(place) {
        None => Ok(false),
        Some(row) => is_row_alike(alloc, &row, plain),
    }
}

/// Whether the row is this plain one.
pub fn is_row_alike(alloc: Global, row: &Row<'_>, plain: &PlainRow) -> Result<bool, AllocError> {
    let flags = row.versions.flags(alloc)?;
    Ok(flags.same(&plain.message.flags) && has_numbers(row, plain) && has_text(row, &plain.message))
}

fn has_numbers(row: &Row<'_>, plain: &PlainRow) -> bool {
    row.origin == plain.message.origin && row.uid == plain.uid && row.modseq == plain.modseq
}

/// Whether the row has the message's versions, date and text.
fn has_text(row: &Row<'_>, message: &Message) -> bool {
    let versions = row.versions.as_slice();
    for (at, version) in versions.iter().enumerate() {
        if message.versions.as_slice().get(at).copied() != Some(version.id) {
            return false;
        }
    }
    versions.len() == message.versions.as_slice().len()
        && row.shown_date().same(&message.date)
        && row.shown_text() == message.text.as_bytes()
}
