//! Puts the numbers of a recount as the answers of the tested code are put.

use crate::uids::lists::recount::{CountedFolder, CountedRow, Recount};
use case_lines::Words;
use crdt_ops::{Ids, Kind, Op};
use imap_types::{Flags, Name};
use std::alloc::{AllocError, Global};
use tags_clocks::OpId;

/// Puts the folder's UIDVALIDITY, UIDNEXT and HIGHESTMODSEQ, and its messages.
pub fn put_folder(recount: &Recount<'_>, folder: &CountedFolder, answer: &mut Words) {
    match folder.uidvalidity {
        Some(number) => answer.put_number(" ", number),
        None => answer.put(" -"),
    }
    answer.put_number(" ", u64::from(folder.uidnext));
    answer.put_number(" ", folder.highest);
    put_changed(recount, folder, 0, answer);
}

/// Puts the messages with mod-sequences above this one.
pub fn put_changed(recount: &Recount<'_>, folder: &CountedFolder, modseq: u64, answer: &mut Words) {
    for row in &folder.rows {
        if row.modseq > modseq {
            answer.put("\n ");
            put_row(recount, row, answer);
        }
    }
}

/// Puts the message with the UID and when it was received, or `none`.
pub fn put_row_with(recount: &Recount<'_>, folder: &CountedFolder, uid: u32, answer: &mut Words) {
    for row in &folder.rows {
        if row.uid == uid {
            put_date(recount, &row.origin, answer);
            put_row(recount, row, answer);
            return;
        }
    }
    answer.put(" none");
}

/// Puts a message's UID, mod-sequence, version ids, origin, flags and text.
fn put_row(recount: &Recount<'_>, row: &CountedRow, answer: &mut Words) {
    answer.put_number(" ", u64::from(row.uid));
    answer.put_number(" ", row.modseq);
    put_versions(recount, &row.versions, &row.origin, answer);
    answer.put(" =");
    if let Some(Kind::Append { text, .. }) = append_of(recount, &row.origin) {
        answer.put_escaped("", text.as_bytes());
    }
}

fn put_versions(recount: &Recount<'_>, places: &[usize], origin: &OpId, answer: &mut Words) {
    put_ids(ids_at(answer.alloc(), recount, places), answer);
    answer.put_id(" ", *origin);
    match flags_at(answer.alloc(), recount, places) {
        Ok(flags) => answer.put_flags(" ", &flags),
        Err(AllocError) => answer.give_up(),
    }
}

/// Puts the ids of the message's versions.
pub fn put_version_ids(recount: &Recount<'_>, folder: &Name, origin: &OpId, answer: &mut Words) {
    match recount.versions(answer.alloc(), folder, origin) {
        Ok(places) => put_ids(ids_at(answer.alloc(), recount, &places), answer),
        Err(AllocError) => answer.give_up(),
    }
}

/// Puts ids, unless memory ran out.
pub fn put_ids(ids: Result<Ids, AllocError>, answer: &mut Words) {
    match ids {
        Ok(ids) => answer.put_ids(" ", &ids),
        Err(AllocError) => answer.give_up(),
    }
}

/// The ids of the operations at these places.
fn ids_at(alloc: Global, recount: &Recount<'_>, places: &[usize]) -> Result<Ids, AllocError> {
    let mut ids = Ids::none(alloc);
    for place in places {
        if let Some(op) = recount.ops.get(*place) {
            ids.insert(op.id)?;
        }
    }
    Ok(ids)
}

/// The flags that the operations at these places give, together.
fn flags_at(alloc: Global, recount: &Recount<'_>, places: &[usize]) -> Result<Flags, AllocError> {
    let mut all = Flags::none(alloc);
    for place in places {
        if let Some(op) = recount.ops.get(*place) {
            add_flags_of(alloc, op, &mut all)?;
        }
    }
    Ok(all)
}

fn add_flags_of(alloc: Global, op: &Op, all: &mut Flags) -> Result<(), AllocError> {
    match &op.kind {
        Kind::Append { flags, .. } | Kind::Store { flags, .. } => add_flags(alloc, flags, all),
        _ => Ok(()),
    }
}

fn add_flags(alloc: Global, flags: &Flags, all: &mut Flags) -> Result<(), AllocError> {
    all.answered = all.answered || flags.answered;
    all.flagged = all.flagged || flags.flagged;
    all.deleted = all.deleted || flags.deleted;
    all.seen = all.seen || flags.seen;
    all.draft = all.draft || flags.draft;
    for keyword in flags.keywords.as_slice() {
        all.keywords.insert(alloc, keyword.as_bytes())?;
    }
    Ok(())
}

/// What the Append with this id does, if the list has it.
pub fn append_of<'a>(recount: &Recount<'a>, origin: &OpId) -> Option<&'a Kind> {
    for op in &recount.ops {
        if op.id == *origin && matches!(op.kind, Kind::Append { .. }) {
            return Some(&op.kind);
        }
    }
    None
}

/// Puts when the message of this origin was received.
fn put_date(recount: &Recount<'_>, origin: &OpId, answer: &mut Words) {
    match append_of(recount, origin) {
        Some(Kind::Append { date, .. }) => answer.put_after(" ", date.as_bytes()),
        _ => answer.put(" \"01-Jan-1970 00:00:00 +0000\""),
    }
}
