//! Look-ups by UID, origin or mod-sequence give the same from tables as from plain lists.

use crate::comparisons::{are_ids_alike, are_rows_alike, is_row_alike};
use crate::plain_charts::PlainRow;
use crate::plain_mailboxes::PlainMailboxes;
use crdt_ops::SoundOp;
use folder_state::Folders;
use imap_types::Name;
use merge_laws::Caused;
use std::alloc::{AllocError, Global};
use tags_clocks::OpId;
use uid_projection::{Charts, changed_since};

/// Whether looking up each UID below `end` gives the plain row, or none.
pub fn are_uids_alike(
    alloc: Global,
    charts: &Charts,
    folders: &Folders,
    name: &Name,
    rows: &[PlainRow],
    end: u32,
) -> Result<bool, AllocError> {
    for uid in 0..end {
        if !is_uid_alike(alloc, charts, folders, name, rows, uid)? {
            return Ok(false);
        }
    }
    Ok(true)
}

/// Whether looking up the UID gives the plain row, or none.
fn is_uid_alike(
    alloc: Global,
    charts: &Charts,
    folders: &Folders,
    name: &Name,
    rows: &[PlainRow],
    uid: u32,
) -> Result<bool, AllocError> {
    match charts.row_by_uid(folders, name, uid) {
        None => Ok(row_of_uid(rows, uid).is_none()),
        Some(row) => match row_of_uid(rows, uid) {
            None => Ok(false),
            Some(plain) => is_row_alike(alloc, &row, plain),
        },
    }
}

/// The row with this UID, if any.
fn row_of_uid(rows: &[PlainRow], uid: u32) -> Option<&PlainRow> {
    for row in rows {
        if row.uid == uid {
            return Some(row);
        }
    }
    None
}

/// Whether the folder's rows that changed since a mod-sequence are the plain rows with a greater
/// mod-sequence, for several mod-sequences from 0 to the greatest number.
pub fn are_changes_alike(
    alloc: Global,
    charts: &Charts,
    folders: &Folders,
    name: &Name,
    rows: &[PlainRow],
    highest: u64,
) -> Result<bool, AllocError> {
    let quarter = highest / 4;
    for since in [
        0u64,
        1,
        quarter,
        highest / 2,
        highest.saturating_sub(quarter),
        highest.saturating_sub(1),
        highest,
        highest.saturating_add(1),
        u64::MAX,
    ] {
        if !is_change_alike(alloc, charts, folders, name, rows, since)? {
            return Ok(false);
        }
    }
    Ok(true)
}

/// Whether the folder's rows that changed since this mod-sequence are the plain rows with a greater
/// mod-sequence.
fn is_change_alike(
    alloc: Global,
    charts: &Charts,
    folders: &Folders,
    name: &Name,
    rows: &[PlainRow],
    since: u64,
) -> Result<bool, AllocError> {
    let changed = changed_since(charts, alloc, folders, name, since)?;
    are_rows_alike(alloc, &changed, rows, since)
}

/// Whether the versions in the folder are equal for each id of `ops`, taken as an origin.
pub fn are_origins_alike(
    alloc: Global,
    folders: &Folders,
    plain: &PlainMailboxes,
    name: &Name,
    ops: &[SoundOp],
) -> Result<bool, AllocError> {
    for op in ops {
        if !is_origin_alike(alloc, folders, plain, name, &op.id())? {
            return Ok(false);
        }
    }
    Ok(true)
}

/// Whether the origin's versions in the folder are equal, and whether it has any.
fn is_origin_alike(
    alloc: Global,
    folders: &Folders,
    plain: &PlainMailboxes,
    name: &Name,
    origin: &OpId,
) -> Result<bool, AllocError> {
    Ok(
        folders.has_version(name, origin) == plain.has_version(name, origin)
            && are_ids_alike(
                folders.versions(alloc, name, origin),
                plain.versions(alloc, name, origin),
            )?,
    )
}

/// Whether each id of `ops`, taken as an origin, has a version in the folder after `next` exactly
/// if it has one in the later plain lists.
pub fn are_later_origins_alike(
    folders: &Folders,
    later: &PlainMailboxes,
    name: &Name,
    next: &[SoundOp],
    ops: &[SoundOp],
) -> bool {
    for op in ops {
        let origin = op.id();
        let has_version = folders.has_version_after(name, &origin, next);
        if has_version != later.has_version(name, &origin) {
            return false;
        }
    }
    true
}
