//! The messages of a view, and the forms of a sync.

ghost use Rattle.std.specs.Prelude.{◌≡◌, ◌↔◌, ◌<◌, ◌^◌, length, get_or, IfOk, IsTrue};
ghost use Rattle.session_view.specs.Views.{AreRising, last_uid};
ghost use Rattle.session_view.specs.declared.view_entry.ViewEntry.{ViewEntry};

use chunk_list::ChunkList;
use imap_types::Flags;
use std::alloc::{AllocError, Global};

/// A message as it was shown to a session.
#[derive(Drop)]
pub struct ViewEntry {
    /// Its UID, from 1 on (RFC 9051, section 2.3.1.1).
    pub uid: u32,
    /// The flags that were last reported to the session.
    pub flags: Flags,
}

/// The messages of a view, in order. Each is read, changed and taken out by its place in the time
/// of a look-up.
pub type ViewEntries = ChunkList<ViewEntry>;

impl ViewEntry {
    /// A copy of the message. `Err` if memory runs out.
    pub fn copy(&self, alloc: Global) -> Result<ViewEntry, AllocError>
        ensures { IfOk result (λ copied. copied ≡ self.now) }
    {
        Ok(ViewEntry {
            uid: self.uid,
            flags: self.flags.copy(alloc)?,
        })
    }
}

/// How much a sync reports.
#[derive(Clone, Copy, Debug, PartialEq, Eq)]
pub enum SyncKind {
    /// Everything.
    Full,
    /// All but which messages are gone (RFC 9051, section 7.5.1: no EXPUNGE in answer to FETCH,
    /// STORE and SEARCH).
    Partial,
}

/// The form of a sync's answers (RFC 9051, section 7.5.1; RFC 7162, section 3.2).
#[derive(Clone, Copy, Debug, PartialEq, Eq)]
pub struct SyncForm {
    /// Whether the sync reports messages that are gone.
    pub kind: SyncKind,
    /// Whether FETCH reports mod-sequences with flags.
    pub modseq: bool,
}

/// Whether these messages can be a view's: their UIDs ascend strictly, from 1 on.
pub fn are_rising(entries: &ViewEntries) -> bool
    ensures { IsTrue result ↔ AreRising 1 entries.now.items }
{
    let mut low = 1;
    for entry in entries.iter_from(0) {
        if u64::from(entry.uid) < low {
            return false;
        }
        low = u64::from(entry.uid) + 1;
    }
    true
}

/// A copy of the messages. `Err` if memory runs out.
pub fn copy_entries(alloc: Global, view: &ViewEntries) -> Result<ViewEntries, AllocError>
    ensures { IfOk result (λ copied. copied.items ≡ view.now.items) }
{
    let mut copies = ChunkList::new(alloc);
    for entry in view.iter_from(0) {
        copies.push(alloc, entry.copy(alloc)?)?;
    }
    Ok(copies)
}

/// The number of messages. Their UIDs ascend strictly from 1 on, so it fits in 32 bits.
pub fn count_of(view: &ViewEntries) -> u32
    requires { AreRising 1 view.now.items }
    ensures count { result ≡ length view.now.items }
    ensures bound { length view.now.items < 2 ^ 32 }
{
    let _last = last_uid(view);
    match u32::try_from(view.len()) {
        Ok(count) => count,
        Err(_) => unreachable!(),
    }
}

/// The last message's UID, or 0 if there is no message.
pub fn last_uid(view: &ViewEntries) -> u32
    ensures { result ≡ last_uid view.now.items }
{
    match view.last() {
        Some(entry) => entry.uid,
        None => 0,
    }
}

/// The UID of the message at this place, from 0 on.
pub fn uid_at(view: &ViewEntries, place: usize) -> u32
    requires { place < length view.now.items }
    ensures { (d : ViewEntry) → result ≡ (get_or view.now.items place d).uid }
{
    match view.get(place) {
        Some(entry) => entry.uid,
        None => unreachable!(),
    }
}
