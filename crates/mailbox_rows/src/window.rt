//! `Window`: a mailbox's messages, looked up only when they are needed.

ghost use Rattle.std.specs.Prelude.{◌≡◌, ◌++◌, ◌∷◌, [], Some, length, map, option_map, IfOk, OnOk};
ghost use Rattle.std.specs.List.{slice_get};
ghost use Rattle.mailbox_rows.specs.RowViews.{AreRisingRows, changed_since, head_of, listed_head};
ghost use Rattle.mailbox_rows.specs.RowViews.{owned_message, listed_message};
ghost use Rattle.std.specs.Option.{unwrap_or};
ghost use Rattle.mailbox_rows.specs.MessageData.{entry_under, no_message_data, with_numbers};
ghost use Rattle.mailbox_rows.specs.MessageData.{row_by, rows_by, owned_message_data};
ghost use Rattle.mailbox_rows.specs.MessageData.{stored_message_data};

use crate::entry::ListingEntry;
use crate::entry_list::EntryList;
use crate::folder_messages::{FolderMessages, OwnedMessage, bare_row, head_with};
use crate::overlay::EntryOverlay;
use crate::owned_row::{OwnedRow, VersionsCow};
use crate::row::{Row, RowHead};
use imap_types::{Versions, copy_versions};
use indexmap::IndexMap;
use std::alloc::{AllocError, Global};
use std::marker::Model;
use tags_clocks::OpId;

/// A mailbox's entries as pending operations leave them, with its stored messages and those that
/// these operations make or change. An entry without a message is shown as an empty one; callers
/// that make windows know that there is no such entry.
pub struct Window<'a> {
    entries: EntryOverlay<'a>,
    mailbox: FolderMessages<'a>,
    fresh: IndexMap<OpId, OwnedMessage<'a>>,
}

// By hand, so that crates above drop it whole.
impl<'a> Drop for Window<'a> {
    fn drop(self) {
        let Self {
            entries: _,
            mailbox: _,
            fresh: _,
        } = self;
    }
}

impl<'a> Model for Window<'a> {
    ghost use Rattle.std.specs.Prelude.{List};
    ghost use Rattle.mailbox_rows.specs.ListedMessage.{ListedMessage};
    ghost use Rattle.mailbox_rows.specs.MessageData.{rows_by};

    ghost Value = { List ListedMessage };

    ghost view = { λ w. rows_by w.fresh.entries w.mailbox w.entries.entries };
}

impl<'a> Window<'a> {
    /// A window on these entries. Their messages are those in `fresh`, otherwise those of the
    /// mailbox.
    pub fn new(
        entries: EntryOverlay<'a>,
        mailbox: FolderMessages<'a>,
        fresh: IndexMap<OpId, OwnedMessage<'a>>,
    ) -> Window<'a>
        ensures { result ≡ rows_by fresh.entry.entries mailbox.entry entries.entry.entries }
    {
        Window {
            entries,
            mailbox,
            fresh,
        }
    }

    /// The UIDs ascend strictly from 1.
    pub fn prove_ascending(&self)
        ensures { AreRisingRows 1 self.now }
    {
        self.entries.prove_ascending();
    }

    /// The number of messages.
    pub fn len(&self) -> usize
        ensures { result ≡ length self.now }
    {
        self.entries.len()
    }

    /// The UID of the message at `place`. Cost: a search among the pieces and one among the chunks.
    pub fn uid_at(&self, place: usize) -> Option<u32>
        ensures { result ≡ option_map (λ row. row.uid) (slice_get self.now place) }
    {
        match self.entries.get(place) {
            Some(entry) => Some(entry.uid),
            None => None,
        }
    }

    /// The message at `place`. Cost: as `uid_at`, and at most three look-ups among the messages.
    pub fn row_at(&self, place: usize) -> Option<Row<'_>>
        ensures { option_map listed_message result ≡ slice_get self.now place }
    {
        match self.entries.get(place) {
            Some(entry) => Some(row_of_entry(&self.fresh, &self.mailbox, &entry)),
            None => None,
        }
    }

    /// The head of the row at `place`. Cost: as `uid_at`, and at most two look-ups among the
    /// messages.
    #[inline(always)]
    pub fn head_at(&self, place: usize) -> Option<RowHead<'_>>
        ensures { option_map listed_head result ≡ option_map head_of (slice_get self.now place) }
    {
        match self.entries.get(place) {
            Some(entry) => Some(head_of_entry(&self.fresh, &self.mailbox, &entry)),
            None => None,
        }
    }

    /// The message at `place` as an owned row, with copies of the versions that the window owns;
    /// `Err` if memory runs out.
    pub fn owned_row_at(
        &self,
        alloc: Global,
        place: usize,
    ) -> Result<Option<OwnedRow<'a>>, AllocError>
        ensures { IfOk result (λ row. option_map owned_message row ≡ slice_get self.now place) }
    {
        match self.entries.get(place) {
            Some(entry) => owned_row_of(alloc, &self.fresh, &self.mailbox, &entry),
            None => Ok(None),
        }
    }

    /// The messages whose mod-sequences are above `modseq`, as owned rows; `Err` if memory runs
    /// out. Cost: that of `EntryOverlay::changed_since`, and the messages in the result.
    pub fn changed_since(&self, alloc: Global, modseq: u64) -> Result<Vec<OwnedRow<'a>>, AllocError>
        ensures { IfOk result
            (λ rows. map owned_message rows.items ≡ changed_since modseq self.now) }
    {
        let entries = self.entries.changed_since(alloc, modseq)?;
        owned_rows(alloc, &self.fresh, &self.mailbox, &entries)
    }
}

/// The owned rows of these entries; `Err` if memory runs out.
fn owned_rows<'a>(
    alloc: Global,
    fresh: &IndexMap<OpId, OwnedMessage<'a>>,
    mailbox: &FolderMessages<'a>,
    entries: &[ListingEntry],
) -> Result<Vec<OwnedRow<'a>>, AllocError>
    ensures { IfOk result
        (λ rows. map owned_message rows.items ≡ rows_by fresh.now.entries mailbox.now entries.now) }
{
    let mut rows = Vec::with_capacity(alloc, entries.len())?;
    for entry in entries {
        push_owned_row(alloc, &mut rows, fresh, mailbox, entry)?;
    }
    Ok(rows)
}

/// Appends the owned row of an entry; `Err` if memory runs out.
fn push_owned_row<'a>(
    alloc: Global,
    rows: &mut Vec<OwnedRow<'a>>,
    fresh: &IndexMap<OpId, OwnedMessage<'a>>,
    mailbox: &FolderMessages<'a>,
    entry: &ListingEntry,
) -> Result<(), AllocError>
    ensures { OnOk result (map owned_message rows.new.items
        ≡ map owned_message rows.old.items ++ row_by fresh.now.entries mailbox.now entry.now ∷ []) }
{
    match owned_row_of(alloc, fresh, mailbox, entry)? {
        Some(row) => {
            if rows.push(row).is_err() {
                return Err(AllocError);
            }
        }
        None => {}
    }
    Ok(())
}

/// The row of an entry.
fn row_of_entry<'r>(
    fresh: &'r IndexMap<OpId, OwnedMessage<'_>>,
    mailbox: &FolderMessages<'r>,
    entry: &ListingEntry,
) -> Row<'r>
    ensures { listed_message result ≡ row_by fresh.now.entries mailbox.now entry.now }
{
    match fresh_at(fresh, &entry.origin) {
        Some(message) => message.row(entry),
        None => stored_row(mailbox, entry),
    }
}

/// The head of an entry's row.
#[inline(always)]
fn head_of_entry<'r>(
    fresh: &'r IndexMap<OpId, OwnedMessage<'_>>,
    mailbox: &FolderMessages<'r>,
    entry: &ListingEntry,
) -> RowHead<'r>
    ensures { listed_head result ≡ head_of (row_by fresh.now.entries mailbox.now entry.now) }
{
    match fresh_at(fresh, &entry.origin) {
        Some(message) => message.head(entry),
        None => stored_head(mailbox, entry),
    }
}

/// The message of this origin as pending operations leave it, if they make or change it. Cost: a
/// look-up, or none if they change nothing.
#[inline(always)]
fn fresh_at<'r, 'a>(
    fresh: &'r IndexMap<OpId, OwnedMessage<'a>>,
    origin: &OpId,
) -> Option<&'r OwnedMessage<'a>>
    ensures { option_map (λ message. message.now) result
        ≡ entry_under origin.now fresh.now.entries }
{
    if fresh.is_empty() {
        return None;
    }
    fresh.get(origin)
}

/// The row of an entry from the mailbox's stored messages.
fn stored_row<'r>(mailbox: &FolderMessages<'r>, entry: &ListingEntry) -> Row<'r>
    ensures { listed_message result
        ≡ with_numbers entry.now
        (unwrap_or (stored_message_data mailbox.now entry.now.origin) no_message_data) }
{
    match mailbox.row(entry) {
        Some(row) => row,
        None => bare_row(entry),
    }
}

/// The head of an entry's row from the mailbox's stored messages.
#[inline(always)]
fn stored_head<'r>(mailbox: &FolderMessages<'r>, entry: &ListingEntry) -> RowHead<'r>
    ensures { listed_head result
        ≡ head_of (with_numbers entry.now
        (unwrap_or (stored_message_data mailbox.now entry.now.origin) no_message_data)) }
{
    match mailbox.head(entry) {
        Some(head) => head,
        None => head_with(entry, Versions::new(&[])),
    }
}

/// The owned row of an entry; `Err` if memory runs out for its versions.
fn owned_row_of<'a>(
    alloc: Global,
    fresh: &IndexMap<OpId, OwnedMessage<'a>>,
    mailbox: &FolderMessages<'a>,
    entry: &ListingEntry,
) -> Result<Option<OwnedRow<'a>>, AllocError>
    ensures { IfOk result (λ row. option_map owned_message row
        ≡ Some (row_by fresh.now.entries mailbox.now entry.now)) }
{
    match fresh_at(fresh, &entry.origin) {
        Some(message) => owned_changed_row(alloc, entry, message),
        None => Ok(Some(owned_stored_row(stored_row(mailbox, entry)))),
    }
}

/// The row as an owned one, with borrowed versions.
fn owned_stored_row<'a>(row: Row<'a>) -> OwnedRow<'a>
    ensures { owned_message result ≡ listed_message row.entry }
{
    OwnedRow {
        uid: row.uid,
        modseq: row.modseq,
        origin: row.origin,
        versions: VersionsCow::Borrowed(row.versions),
        date: row.date,
        text: row.text,
    }
}

/// The owned row of an entry, with its message as pending operations leave it; `Err` if memory runs
/// out.
fn owned_changed_row<'a>(
    alloc: Global,
    entry: &ListingEntry,
    message: &OwnedMessage<'a>,
) -> Result<Option<OwnedRow<'a>>, AllocError>
    ensures { IfOk result (λ row. option_map owned_message row
        ≡ Some (with_numbers entry.now (owned_message_data message.now))) }
{
    let versions = copy_versions(alloc, &message.versions)?;
    Ok(Some(OwnedRow {
        uid: entry.uid,
        modseq: entry.modseq,
        origin: entry.origin,
        versions: VersionsCow::Own(versions),
        date: message.date,
        text: message.text,
    }))
}
