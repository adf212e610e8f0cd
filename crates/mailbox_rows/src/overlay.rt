//! `EntryOverlay`: a mailbox's entries as pending operations will leave them.

ghost use Rattle.std.specs.Prelude.{◌≡◌, ◌≤◌, IfOk, OnOk};
ghost use Rattle.mailbox_rows.specs.ChangedEntries.{AreNoted, changed_since};
ghost use Rattle.mailbox_rows.specs.ListingEntries.{AreIndexed, AreRising, indexed_value};
ghost use Rattle.mailbox_rows.specs.ListingEntries.{indexed_over};
ghost use Rattle.mailbox_rows.specs.EntryTables.{HasEdits};

use crate::changed_entries::changed_entries_among;
use crate::entry::ListingEntry;
use crate::entry_list::EntryList;
use crate::patched_list::PatchedList;
use crate::{entry_search, uid_index};
use chunk_list::ChunkList;
use indexmap::IndexMap;
use modseq_index::ModSeqIndex;
use std::alloc::{AllocError, Global};
use std::marker::Model;
use tags_clocks::OpId;

/// A mailbox's entries with edits over them; the table below stays unchanged. Its indexes are the
/// stored ones with those of the edits. Removed entries that the stored indexes still have are
/// passed over.
pub struct EntryOverlay<'a> {
    list: PatchedList<'a, ListingEntry>,
    stored: &'a IndexMap<OpId, u32>,
    own: IndexMap<OpId, u32>,
    stored_modseqs: &'a ModSeqIndex,
    own_modseqs: ModSeqIndex,
}

// By hand, so that crates above drop it whole.
impl<'a> Drop for EntryOverlay<'a> {
    fn drop(self) {
        let Self {
            list: _,
            stored: _,
            own: _,
            stored_modseqs: _,
            own_modseqs: _,
        } = self;
    }
}

impl<'a> Model for EntryOverlay<'a> {
    ghost use Rattle.std.specs.Prelude.{◌++◌};
    ghost use Rattle.indexmap.specs.IndexMap.{spare};
    ghost use Rattle.modseq_index.specs.ModSeqIndex.{latest as latest_of};
    ghost use Rattle.mailbox_rows.specs.ListingEntries.{AreIndexed, AreRising, indexed_over};
    ghost use Rattle.mailbox_rows.specs.ChangedEntries.{AreNoted};
    ghost use Rattle.mailbox_rows.specs.EntryTables.{OverlayState};

    ghost Value = { OverlayState };

    ghost view = { λ o. record {
      entries = o.list.items;
      places = o.list.places;
      ids = spare o.own;
      modseq_room = o.own_modseqs.room;
      latest = latest_of o.own_modseqs.entries;
    } };

    ghost invariant = { λ o. AreRising 1 o.list.items
        × AreIndexed (indexed_over o.own.entries o.stored.now.entries) o.list.items
        × AreNoted (o.stored_modseqs.now.entries ++ o.own_modseqs.entries) o.list.items };
}

impl<'a> EntryOverlay<'a> {
    /// An overlay of these entries, without edits yet. `Err` if memory runs out.
    pub(crate) fn new(
        alloc: Global,
        list: &'a ChunkList<ListingEntry>,
        stored: &'a IndexMap<OpId, u32>,
        stored_modseqs: &'a ModSeqIndex,
    ) -> Result<EntryOverlay<'a>, AllocError>
        requires rising { AreRising 1 list.now.items }
        requires indexed { AreIndexed (indexed_value stored.now.entries) list.now.items }
        requires noted { AreNoted stored_modseqs.now.entries list.now.items }
        ensures entries { IfOk result (λ over. over.entries ≡ list.now.items) }
        ensures latest { IfOk result (λ over. over.latest ≡ 0) }
    {
        let list = PatchedList::new(alloc, list)?;
        let own = IndexMap::new(alloc);
        let own_modseqs = ModSeqIndex::new(alloc);
        Ok(EntryOverlay {
            list,
            stored,
            own,
            stored_modseqs,
            own_modseqs,
        })
    }

    /// The entries' UIDs ascend strictly.
    pub fn prove_ascending(&self)
        ensures { AreRising 1 self.now.entries }
    {
        let _list = &self.list;
    }

    /// Makes room for `edits` further edits; `Err` if memory runs out. The entries stay, and no
    /// room is lost.
    pub fn reserve(&mut self, edits: usize) -> Result<(), AllocError>
        ensures entries { self.new.entries ≡ self.old.entries }
        ensures ok { OnOk result (HasEdits self.new edits) }
        ensures places { self.old.places ≤ self.new.places }
        ensures ids { self.old.ids ≤ self.new.ids }
        ensures modseq_room { self.old.modseq_room ≤ self.new.modseq_room }
        ensures latest { self.new.latest ≡ self.old.latest }
    {
        self.own.reserve(edits)?;
        self.own_modseqs.reserve(edits)?;
        self.list.reserve(edits)
    }

    /// The entries whose mod-sequences are above `modseq`; `Err` if memory runs out. Cost: two
    /// binary searches, and a search for each entry of the indexes above `modseq`.
    pub fn changed_since(&self, alloc: Global, modseq: u64) -> Result<Vec<ListingEntry>, AllocError>
        ensures { IfOk result (λ changed. changed.items ≡ changed_since modseq self.now.entries) }
    {
        let mut uids = Vec::new(alloc);
        self.stored_modseqs.push_uids(modseq, &mut uids)?;
        self.own_modseqs.push_uids(modseq, &mut uids)?;
        uids.sort_by_key(|uid| *uid)?;
        changed_entries_among(alloc, &self.list, &uids, modseq)
    }
}

impl<'a> EntryList for EntryOverlay<'a> {
    ghost use Rattle.std.specs.Prelude.{◌*◌, ◌≤◌};

    ghost entries = { λ o. o.entries };

    ghost has_edits = { λ o n. (2 * n ≤ o.places) × (n ≤ o.modseq_room) };

    ghost has_room = { λ o n. n ≤ o.ids };

    ghost latest = { λ o. o.latest };

    fn len(&self) -> usize {
        self.list.len()
    }

    #[inline(always)]
    fn get(&self, place: usize) -> Option<ListingEntry> {
        self.list.get(place)
    }

    fn place_of(&self, origin: &OpId) -> Option<usize> {
        match uid_of_origin(&self.own, self.stored, origin) {
            Some(uid) => entry_search::place_with(&self.list, uid, origin),
            None => None,
        }
    }

    fn set_modseq(&mut self, place: usize, modseq: u64) {
        match self.list.get(place) {
            Some(old) => {
                self.list.replace(
                    place,
                    ListingEntry {
                        origin: old.origin,
                        uid: old.uid,
                        modseq,
                    },
                );
                self.own_modseqs.note(modseq, old.uid);
            }
            None => unreachable!(),
        }
    }

    fn remove(&mut self, place: usize) {
        self.list.remove(place);
    }

    fn push(&mut self, entry: ListingEntry) {
        uid_index::note(&mut self.own, &entry.origin, entry.uid);
        self.own_modseqs.note(entry.modseq, entry.uid);
        self.list.push(entry);
    }
}

/// The UID of an origin by the first index that has it.
fn uid_of_origin(
    own: &IndexMap<OpId, u32>,
    stored: &IndexMap<OpId, u32>,
    origin: &OpId,
) -> Option<u32>
    ensures { result ≡ indexed_over own.now.entries stored.now.entries origin.now }
{
    match uid_index::uid_of(own, origin) {
        Some(uid) => Some(uid),
        None => uid_index::uid_of(stored, origin),
    }
}
