//! Syncs that compare the whole view with the listing: the answers, and the new view.

ghost use Rattle.std.specs.Prelude.{◌≡◌, ◌≤◌, ◌+◌, ◌<◌, ◌^◌, ◌++◌, ◌∷◌, [], ℕ, length, get_or};
ghost use Rattle.std.specs.Prelude.{take, drop, IfOk, OnOk, None, Some};
ghost use Rattle.mailbox_rows.specs.RowViews.{AreRisingRows, rows_after_uid, listed_message};
ghost use Rattle.session_view.specs.Views.{AreRising, entries_of, same_flags};
ghost use Rattle.session_view.specs.declared.view_entry.ViewEntry.{ViewEntry};
ghost use Rattle.session_view.specs.Sync.{exists_if_more, exists_of_sync, fetch_if_changed};
ghost use Rattle.session_view.specs.Sync.{fetch_of_row, fetches_of_sync, expunges};
ghost use Rattle.session_view.specs.Sync.{refreshed_entries};
ghost use Rattle.session_view.specs.Sync.{staying_entry, expunge_if_gone, expunges_of_sync};
ghost use Rattle.session_view.specs.Sync.{staying_entries, sync_answers, view_after_sync};

use crate::message_list::MessageList;
use crate::view_entry::{SyncKind, ViewEntries, ViewEntry, count_of, last_uid, uid_at};
use chunk_list::ChunkList;
use imap_answers::{Answer, FetchItems, Sections};
use imap_types::Flags;
use mailbox_rows::{Row, Rows};
use std::alloc::{AllocError, Global};

/// The result of a sync.
#[derive(Drop)]
pub struct SyncOutcome {
    /// The view's messages after the sync.
    pub entries: ViewEntries,
    /// The answers that the sync sends.
    pub answers: Vec<Answer>,
}

/// Syncs a view with this listing. The answers are EXPUNGE for each message that is gone, from the
/// greatest number down (only in a full sync), EXISTS if messages arrived, then FETCH for each
/// message whose flags differ, with its mod-sequence if `modseq` says so (RFC 7162, section 3.2).
/// `Err` if memory runs out. Cost: at most three look-ups in the listing for each message of the
/// view.
pub fn sync_by_comparison(
    alloc: Global,
    kind: SyncKind,
    modseq: bool,
    rows: &Rows<'_>,
    view: &ViewEntries,
) -> Result<SyncOutcome, AllocError>
    requires { AreRising 1 view.now.items }
    ensures entries { IfOk result
        (λ s. s.entries.items ≡ view_after_sync kind rows.now view.now.items) }
    ensures rising { IfOk result (λ s. AreRising 1 s.entries.items) }
    ensures answers { IfOk result
        (λ s. s.answers.items ≡ sync_answers kind modseq rows.now view.now.items) }
{
    let _count = count_of(view);
    let mut answers = Vec::new(alloc);
    push_losses(kind, rows, view, &mut answers)?;
    let entries = refresh_view(alloc, kind, rows, view, &mut answers)?;
    push_changes(alloc, kind, modseq, rows, view, &mut answers)?;
    Ok(SyncOutcome { entries, answers })
}

/// The view's messages after a sync. Appends EXISTS if messages arrived. `Err` if memory runs out.
fn refresh_view(
    alloc: Global,
    kind: SyncKind,
    rows: &Rows<'_>,
    view: &ViewEntries,
    answers: &mut Vec<Answer>,
) -> Result<ViewEntries, AllocError>
    requires { AreRising 1 view.now.items }
    ensures entries { IfOk result
        (λ entries. entries.items ≡ view_after_sync kind rows.now view.now.items) }
    ensures rising { IfOk result (λ entries. AreRising 1 entries.items) }
    ensures answers { OnOk result (answers.new.items
        ≡ answers.old.items
        ++ exists_of_sync rows.now (staying_entries kind rows.now view.now.items)) }
{
    let _count = rows.count();
    let mut entries = refreshed_entries(alloc, kind, rows, view)?;
    let before = count_of(&entries);
    let last = last_uid(&entries);
    push_new(alloc, last, rows, &mut entries)?;
    push_exists(before, count_of(&entries), answers)?;
    Ok(entries)
}

/// Appends the EXPUNGEs that a sync of this kind sends. `Err` if memory runs out.
fn push_losses(
    kind: SyncKind,
    rows: &Rows<'_>,
    view: &ViewEntries,
    answers: &mut Vec<Answer>,
) -> Result<(), AllocError>
    requires { length view.now.items < 2 ^ 32 }
    ensures { OnOk result
        (answers.new.items ≡ answers.old.items ++ expunges_of_sync kind rows.now view.now.items) }
{
    match kind {
        SyncKind::Full => push_expunges(rows, view, answers),
        SyncKind::Partial => Ok(()),
    }
}

/// Appends EXPUNGE for each message that is gone, from the greatest number down.
fn push_expunges(
    rows: &Rows<'_>,
    view: &ViewEntries,
    answers: &mut Vec<Answer>,
) -> Result<(), AllocError>
    requires { length view.now.items < 2 ^ 32 }
    ensures { OnOk result
        (answers.new.items ≡ answers.old.items ++ expunges rows.now 1 view.now.items) }
{
    for i in (0..view.len()).rev() {
        push_loss(rows, i, view, answers)?;
    }
    Ok(())
}

/// Appends EXPUNGE of the message at this place, from 0 on, if it is gone.
fn push_loss(
    rows: &Rows<'_>,
    place: usize,
    view: &ViewEntries,
    answers: &mut Vec<Answer>,
) -> Result<(), AllocError>
    requires within { place < length view.now.items }
    requires count { length view.now.items < 2 ^ 32 }
    ensures { OnOk result ((d : ViewEntry)
        → answers.new.items
        ≡ answers.old.items
        ++ expunge_if_gone rows.now (place + 1) (get_or view.now.items place d)) }
{
    let number = place as u32 + 1;
    if let None = rows.row_near(place, uid_at(view, place)) {
        answers.push(Answer::Expunge { number })?;
    }
    Ok(())
}

/// Appends EXISTS if there are more messages now than before. `Err` if memory runs out.
pub fn push_exists(before: u32, now: u32, answers: &mut Vec<Answer>) -> Result<(), AllocError>
    ensures { OnOk result (answers.new.items ≡ answers.old.items ++ exists_if_more before now) }
{
    if before < now {
        answers.push(Answer::Exists { count: now })?;
    }
    Ok(())
}

/// Appends FETCH for each message that stays and whose flags differ.
fn push_changes(
    alloc: Global,
    kind: SyncKind,
    modseq: bool,
    rows: &Rows<'_>,
    view: &ViewEntries,
    answers: &mut Vec<Answer>,
) -> Result<(), AllocError>
    requires { length view.now.items < 2 ^ 32 }
    ensures { OnOk result (answers.new.items
        ≡ answers.old.items
        ++ fetches_of_sync modseq rows.now 1 (staying_entries kind rows.now view.now.items)) }
{
    let mut number = 0;
    for entry in view.iter_from(0) {
        match rows.row_near(number as usize, entry.uid) {
            Some(row) => {
                number += 1;
                push_change(alloc, modseq, number, entry, &row, answers)?;
            }
            None => {
                if kind == SyncKind::Partial {
                    number += 1;
                }
            }
        }
    }
    Ok(())
}

/// Appends FETCH of the message's flags if they differ.
fn push_change(
    alloc: Global,
    modseq: bool,
    number: u32,
    entry: &ViewEntry,
    row: &Row<'_>,
    answers: &mut Vec<Answer>,
) -> Result<(), AllocError>
    ensures { OnOk result (answers.new.items
        ≡ answers.old.items
        ++ fetch_if_changed modseq number entry.now (Some (listed_message row.now))) }
{
    if !are_same(&entry.flags, row) {
        answers.push(change_of(alloc, modseq, number, row)?)?;
    }
    Ok(())
}

/// FETCH of a message's UID and flags, with its mod-sequence if `modseq` says so. `Err` if memory
/// runs out.
pub fn change_of(
    alloc: Global,
    modseq: bool,
    number: u32,
    row: &Row<'_>,
) -> Result<Answer, AllocError>
    ensures { IfOk result (λ answer. answer ≡ fetch_of_row modseq number (listed_message row.now)) }
{
    Ok(Answer::Fetch {
        number,
        items: FetchItems {
            uid: Some(row.uid),
            flags: Some(row.versions.flags(alloc)?),
            date: None,
            size: None,
            modseq: if modseq { Some(row.modseq) } else { None },
            sections: Sections::new(Vec::new(alloc)),
        },
    })
}

/// Whether the flags are those that the message has now.
pub fn are_same(flags: &Flags, row: &Row<'_>) -> bool
    ensures { result ≡ same_flags flags.now (listed_message row.now).flags }
{
    row.versions.has_flags(flags)
}

/// The messages that stay, with the listing's flags. `Err` if memory runs out.
fn refreshed_entries(
    alloc: Global,
    kind: SyncKind,
    rows: &Rows<'_>,
    view: &ViewEntries,
) -> Result<ViewEntries, AllocError>
    ensures { IfOk result
        (λ staying. staying.items ≡ refreshed_entries kind rows.now view.now.items) }
{
    let mut staying = ChunkList::new(alloc);
    for entry in view.iter_from(0) {
        push_staying(alloc, kind, rows, entry, &mut staying)?;
    }
    Ok(staying)
}

/// Appends the message to those that stay, if it does.
fn push_staying(
    alloc: Global,
    kind: SyncKind,
    rows: &Rows<'_>,
    entry: &ViewEntry,
    staying: &mut ViewEntries,
) -> Result<(), AllocError>
    ensures { OnOk result
        (staying.new.items ≡ staying.old.items ++ staying_entry kind rows.now entry.now) }
{
    match rows.row_near(staying.len(), entry.uid) {
        Some(row) => {
            let flags = row.versions.flags(alloc)?;
            let uid = entry.uid;
            staying.push(alloc, ViewEntry { uid, flags })?;
        }
        None => {
            if kind == SyncKind::Partial {
                staying.push(alloc, entry.copy(alloc)?)?;
            }
        }
    }
    Ok(())
}

/// Appends the listing's messages with UIDs above this one. `Err` if memory runs out.
pub fn push_new<L: MessageList>(
    alloc: Global,
    uid: u32,
    rows: &Rows<'_>,
    entries: &mut L,
) -> Result<(), AllocError>
    ensures { OnOk result (L.entries entries.new
        ≡ L.entries entries.old ++ entries_of (rows_after_uid uid rows.now)) }
{
    let count = rows.count();
    push_rows(alloc, rows, rows.place_after_uid(uid), count, entries)?;
    Ok(())
}

/// Appends `count` of the listing's messages from the place `start` on, or as many as there are.
/// `Err` if memory runs out.
pub fn push_rows<L: MessageList>(
    alloc: Global,
    rows: &Rows<'_>,
    start: usize,
    count: u32,
    entries: &mut L,
) -> Result<(), AllocError>
    requires { start < 2 ^ 32 }
    ensures { OnOk result (L.entries entries.new
        ≡ L.entries entries.old ++ entries_of (take count (drop start rows.now))) }
{
    for step in 0..count as usize {
        match rows.row_at(start + step) {
            Some(row) => push_row(alloc, &row, entries)?,
            None => return Ok(()),
        }
    }
    Ok(())
}

/// Appends a message of the listing.
fn push_row<L: MessageList>(alloc: Global, row: &Row<'_>, entries: &mut L) -> Result<(), AllocError>
    ensures { OnOk result (L.entries entries.new
        ≡ L.entries entries.old ++ entries_of (listed_message row.now ∷ [])) }
{
    let flags = row.versions.flags(alloc)?;
    let uid = row.uid;
    entries.put(alloc, ViewEntry { uid, flags })?;
    Ok(())
}
