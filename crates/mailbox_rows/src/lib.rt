//! The messages of a mailbox, as entries (origin, UID, mod-sequence) and as rows that show them.
//!
//! `EntryTable` stores a mailbox's entries by ascending UID and finds them by place, by origin and
//! by mod-sequence. `EntryOverlay` is such a list with edits over a table that stays unchanged: the
//! entries as pending operations (issued or received, not yet applied) will leave them. The
//! contract of each call is an equation or a relation about the list of entries; that the indexes
//! agree with that list is an invariant, and room for edits is a number that contracts see beside
//! it.
//!
//! `Rows` is a mailbox's listing, and contracts see it as a list of messages by strictly ascending
//! UID. Each look-up, by place, by UID or by mod-sequence, is an equation about that list, whether
//! the rows were made one by one or are read through a `Window`. A row borrows the message's
//! versions, date and text: no command copies a mailbox.
//!
//! # Decided
//!
//! - Rows of a listing are borrowed: a row has numbers, and references to versions, date and text.
//!   Views and queries ask for rows by UID and by place, so that rows can come from a table with
//!   no copy and under the same contracts.
//! - A listing is a window: the entries as they are stored, or with edits over them, and the
//!   folder's messages as they are stored or as pending operations leave them. It shows an entry
//!   without a message as an empty message, so that making a window requires nothing; that there is
//!   no such entry is an invariant of the charts.
//! - Entries are indexed by mod-sequence too (`modseq_index`). That each entry's mod-sequence and
//!   UID are in the index is an invariant. A new mod-sequence is no less than the latest, so it
//!   goes to the end, and the entries that changed since a mod-sequence are after a place that a
//!   binary search finds. Earlier mod-sequences of an entry stay until the index has more than two
//!   items per entry; then, when room is made for pending operations, the index is rebuilt.
//! - An edit never fails in the index: it requires room there, and a mod-sequence no less than the
//!   latest, and contracts see both as numbers. An overlay has an index of its own edits.
//! - The stored index by origin has all entries and nothing else. An overlay borrows it, and can't
//!   remove from it what its edits remove, so in an overlay an indexed origin may have no entry.
#![tactic(auto)]

mod changed_entries;
mod entry;
mod entry_list;
mod entry_search;
mod entry_table;
mod folder_messages;
mod listing_rows;
mod overlay;
mod owned_row;
mod patched_list;
mod pieces;
mod row;
mod uid_index;
mod window;

pub use entry::ListingEntry;
pub use entry_list::EntryList;
pub use entry_table::EntryTable;
pub use folder_messages::{DatedText, FolderMessages, OwnedMessage};
pub use listing_rows::Rows;
pub use overlay::EntryOverlay;
pub use owned_row::{OwnedRow, VersionsCow};
pub use row::{Row, RowHead};
pub use window::Window;
