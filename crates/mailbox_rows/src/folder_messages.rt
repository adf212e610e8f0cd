//! A folder's messages: borrowed from the tables that store them, or owned after pending
//! operations.

ghost use Rattle.std.specs.Prelude.{◌≡◌, Some, IfSome, option_map};
ghost use Rattle.mailbox_rows.specs.RowViews.{head_of, listed_head, listed_message};
ghost use Rattle.mailbox_rows.specs.MessageData.{entry_under, no_message_data, with_numbers};
ghost use Rattle.mailbox_rows.specs.MessageData.{message_data_of, owned_message_data};
ghost use Rattle.mailbox_rows.specs.MessageData.{stored_message_data, versions_in};

use crate::entry::ListingEntry;
use crate::row::{Row, RowHead};
use imap_types::{DateTime, Text, Version, Versions};
use indexmap::IndexMap;
use tags_clocks::OpId;

/// The date and text of an Append.
pub struct DatedText {
    /// When it was received (RFC 9051, section 2.3.3).
    pub date: DateTime,
    /// Its octets.
    pub text: Text,
}

// By hand, so that crates above drop it whole.
impl Drop for DatedText {
    fn drop(self) {
        let Self { date: _, text: _ } = self;
    }
}

/// A folder's stored messages, borrowed. Versions are apart from dates and texts, since an origin's
/// Append may be later than a Store that names it, and of another folder.
#[derive(Clone, Copy)]
pub struct FolderMessages<'a> {
    /// The versions of each message by its origin, ascending by id; None if the folder has no
    /// messages.
    pub messages: Option<&'a IndexMap<OpId, Vec<Version>>>,
    /// The dates and texts of all applied Appends, by their ids.
    pub dated_texts: &'a IndexMap<OpId, DatedText>,
}

/// A message as pending operations leave it, with versions of its own.
#[derive(Drop)]
pub struct OwnedMessage<'a> {
    /// Its versions, ascending by id.
    pub versions: Vec<Version>,
    /// When it was received; None if its Append wasn't applied.
    pub date: Option<&'a DateTime>,
    /// Its octets; None if its Append wasn't applied.
    pub text: Option<&'a Text>,
}

impl<'a> FolderMessages<'a> {
    /// The row of an entry; None if the tables don't have its message. Cost: two look-ups, each by
    /// place if the messages are in the tables in the order of their UIDs, else by hash.
    pub fn row(&self, entry: &ListingEntry) -> Option<Row<'a>>
        ensures { option_map listed_message result
            ≡ option_map (with_numbers entry.now) (stored_message_data self.now entry.now.origin) }
    {
        match look_up_versions(self.messages, entry) {
            Some(versions) => Some(with_dated_text(
                entry,
                versions,
                look_up(self.dated_texts, entry),
            )),
            None => None,
        }
    }

    /// The head of an entry's row; None if the tables don't have its message. Cost: one look-up, as
    /// in `row`.
    #[inline(always)]
    pub fn head(&self, entry: &ListingEntry) -> Option<RowHead<'a>>
        ensures { option_map listed_head result
            ≡ option_map (λ message_data_of. head_of (with_numbers entry.now message_data_of))
            (stored_message_data self.now entry.now.origin) }
    {
        match look_up_versions(self.messages, entry) {
            Some(versions) => Some(head_with(entry, versions)),
            None => None,
        }
    }
}

impl OwnedMessage<'_> {
    /// The head of an entry's row with this message.
    pub fn head(&self, entry: &ListingEntry) -> RowHead<'_>
        ensures { listed_head result
            ≡ head_of (with_numbers entry.now (owned_message_data self.now)) }
    {
        head_with(entry, Versions::new(&self.versions))
    }

    /// The row of an entry with this message.
    pub fn row(&self, entry: &ListingEntry) -> Row<'_>
        ensures { listed_message result ≡ with_numbers entry.now (owned_message_data self.now) }
    {
        Row {
            uid: entry.uid,
            modseq: entry.modseq,
            origin: entry.origin,
            versions: Versions::new(&self.versions),
            date: self.date,
            text: self.text,
        }
    }
}

/// The head of an entry's row with these versions.
#[inline(always)]
pub(crate) fn head_with<'a>(entry: &ListingEntry, versions: Versions<'a>) -> RowHead<'a>
    ensures { result
        ≡ record { uid = entry.now.uid; modseq = entry.now.modseq; versions = versions.entry } }
{
    RowHead {
        uid: entry.uid,
        modseq: entry.modseq,
        versions,
    }
}

/// The row of an entry whose message is unknown: no versions, no date, no text.
pub(crate) fn bare_row(entry: &ListingEntry) -> Row<'static>
    ensures { listed_message result ≡ with_numbers entry.now no_message_data }
{
    Row {
        uid: entry.uid,
        modseq: entry.modseq,
        origin: entry.origin,
        versions: Versions::new(&[]),
        date: None,
        text: None,
    }
}

/// The versions of an entry's message, if there is a table that has it.
#[inline(always)]
fn look_up_versions<'a>(
    messages: Option<&'a IndexMap<OpId, Vec<Version>>>,
    entry: &ListingEntry,
) -> Option<Versions<'a>>
    ensures { option_map (λ versions. versions.list.now) result
        ≡ versions_in (option_map (λ messages. messages.now.entries) messages.entry)
        entry.now.origin }
{
    match messages {
        Some(messages) => versions_at(messages, entry),
        None => None,
    }
}

#[inline(always)]
fn versions_at<'a>(
    messages: &'a IndexMap<OpId, Vec<Version>>,
    entry: &ListingEntry,
) -> Option<Versions<'a>>
    ensures { option_map (λ versions. versions.list.now) result
        ≡ option_map (λ versions. versions.items)
        (entry_under entry.now.origin messages.now.entries) }
{
    match look_up(messages, entry) {
        Some(versions) => Some(Versions::new(versions)),
        None => None,
    }
}

/// The value of a table under an entry's origin. Cost: one access by place if the entry is at the
/// place that its UID gives, as most are if each item of the table was added to this mailbox and
/// few were removed; else a look-up by hash.
#[inline(always)]
fn look_up<'a, V>(table: &'a IndexMap<OpId, V>, entry: &ListingEntry) -> Option<&'a V>
    ensures { option_map (λ value. value.now) result
        ≡ entry_under entry.now.origin table.now.entries }
{
    match look_up_near(table, entry) {
        Some(value) => Some(value),
        None => table.get(&entry.origin),
    }
}

/// The value of a table under an entry's origin, if its place there is its UID less 1.
#[inline(always)]
fn look_up_near<'a, V>(table: &'a IndexMap<OpId, V>, entry: &ListingEntry) -> Option<&'a V>
    ensures { IfSome result
        (λ value. entry_under entry.now.origin table.now.entries ≡ Some value.now) }
{
    let (origin, value) = table.get_index((entry.uid as usize).saturating_sub(1))?;
    if *origin == entry.origin {
        Some(value)
    } else {
        None
    }
}

/// The row of an entry with these versions, and the date and text of its Append, if applied.
fn with_dated_text<'a>(
    entry: &ListingEntry,
    versions: Versions<'a>,
    dated_text: Option<&'a DatedText>,
) -> Row<'a>
    ensures { listed_message result
        ≡ with_numbers entry.now
        (message_data_of versions.entry.list.now
        (option_map (λ dated_text. dated_text.now) dated_text.entry)) }
{
    match dated_text {
        Some(dated_text) => Row {
            uid: entry.uid,
            modseq: entry.modseq,
            origin: entry.origin,
            versions,
            date: Some(&dated_text.date),
            text: Some(&dated_text.text),
        },
        None => Row {
            uid: entry.uid,
            modseq: entry.modseq,
            origin: entry.origin,
            versions,
            date: None,
            text: None,
        },
    }
}
