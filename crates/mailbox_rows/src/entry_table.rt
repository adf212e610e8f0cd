//! `EntryTable`: a mailbox's entries as they are stored.

ghost use Rattle.std.specs.Prelude.{◌≡◌, ◌≤◌, ◌<◌, [], IfOk, OnOk, length, remove, set};
ghost use Rattle.std.specs.List.Sorted.{IsPermutation};
ghost use Rattle.mailbox_rows.specs.ChangedEntries.{AreNoted, modseq_entries_of};
ghost use Rattle.modseq_index.specs.ModSeqIndex.{latest};

use crate::entry::ListingEntry;
use crate::entry_list::EntryList;
use crate::overlay::EntryOverlay;
use crate::{entry_search, uid_index};
use chunk_list::ChunkList;
use indexmap::IndexMap;
use modseq_index::{ModSeqEntry, ModSeqIndex};
use std::alloc::{AllocError, Global};
use std::marker::Model;
use tags_clocks::OpId;

/// The number of entries that an index may have beyond two for each listing entry before it is
/// rebuilt.
const SPARE: usize = 16;

/// A mailbox's entries by ascending UID, with indexes by origin and by mod-sequence.
pub struct EntryTable {
    list: ChunkList<ListingEntry>,
    uids: IndexMap<OpId, u32>,
    modseqs: ModSeqIndex,
}

// By hand, so that crates above drop it whole.
impl Drop for EntryTable {
    fn drop(self) {
        let Self {
            list: _,
            uids: _,
            modseqs: _,
        } = self;
    }
}

impl Model for EntryTable {
    ghost use Rattle.std.specs.Prelude.{min};
    ghost use Rattle.indexmap.specs.IndexMap.{spare};
    ghost use Rattle.modseq_index.specs.ModSeqIndex.{latest as latest_of};
    ghost use Rattle.mailbox_rows.specs.ListingEntries.{AreRising, IsUidIndex, indexed_value};
    ghost use Rattle.mailbox_rows.specs.ChangedEntries.{AreNoted};
    ghost use Rattle.mailbox_rows.specs.EntryTables.{TableState};

    ghost Value = { TableState };

    ghost view = { λ t. record {
      entries = t.list.items;
      room = min t.list.room (spare t.uids);
      modseq_room = t.modseqs.room;
      latest = latest_of t.modseqs.entries;
    } };

    ghost invariant = { λ t. AreRising 1 t.list.items
        × IsUidIndex (indexed_value t.uids.entries) t.list.items
        × AreNoted t.modseqs.entries t.list.items };
}

impl EntryTable {
    /// A table without entries.
    pub fn new(alloc: Global) -> EntryTable
        ensures entries { result.entries ≡ [] }
        ensures latest { result.latest ≡ 0 }
    {
        EntryTable {
            list: ChunkList::new(alloc),
            uids: IndexMap::new(alloc),
            modseqs: ModSeqIndex::new(alloc),
        }
    }

    /// Makes room for `additional` further entries; `Err` if memory runs out. The entries stay, and
    /// no room is lost.
    pub fn reserve(&mut self, alloc: Global, additional: usize) -> Result<(), AllocError>
        ensures entries { self.new.entries ≡ self.old.entries }
        ensures ok { OnOk result (additional ≤ self.new.room) }
        ensures room { self.old.room ≤ self.new.room }
        ensures modseq_room { self.new.modseq_room ≡ self.old.modseq_room }
        ensures latest { self.new.latest ≡ self.old.latest }
    {
        self.uids.reserve(additional)?;
        self.list.reserve(alloc, additional)
    }

    /// Makes room for `modseqs` new mod-sequences; `Err` if memory runs out. The entries stay, and
    /// no room is lost. Cost: now and then, after about as many new mod-sequences as there are
    /// entries, a sort of all entries by mod-sequence.
    pub fn reserve_modseqs(&mut self, alloc: Global, modseqs: usize) -> Result<(), AllocError>
        ensures entries { self.new.entries ≡ self.old.entries }
        ensures ok { OnOk result (modseqs ≤ self.new.modseq_room) }
        ensures room { self.new.room ≡ self.old.room }
        ensures modseq_room { self.old.modseq_room ≤ self.new.modseq_room }
        ensures latest { self.new.latest ≤ self.old.latest }
    {
        rebuild_if_long(alloc, &self.list, &mut self.modseqs)?;
        self.modseqs.reserve(modseqs)
    }

    /// Removes all entries. Their room stays.
    pub fn clear(&mut self)
        ensures entries { self.new.entries ≡ [] }
        ensures room { self.old.room ≤ self.new.room }
        ensures modseq_room { self.old.modseq_room ≤ self.new.modseq_room }
        ensures latest { self.new.latest ≡ 0 }
    {
        let count = self.list.len();
        for taken in 0..count {
            self.remove_at(count - 1 - taken);
        }
        self.modseqs.clear();
    }

    /// Removes the entry at `place`. Its mod-sequence stays in the index.
    fn remove_at(&mut self, place: usize)
        requires { place < length self.old.entries }
        ensures entries { self.new.entries ≡ remove self.old.entries place }
        ensures room { self.old.room ≤ self.new.room }
        ensures modseq_room { self.new.modseq_room ≡ self.old.modseq_room }
        ensures latest { self.new.latest ≡ self.old.latest }
    {
        let old = self.list.remove(place);
        uid_index::remove_origin(&mut self.uids, &old.origin);
    }

    /// An overlay of the entries, without edits yet: edits there leave this table unchanged. `Err`
    /// if memory runs out.
    pub fn overlay(&self, alloc: Global) -> Result<EntryOverlay<'_>, AllocError>
        ensures entries { IfOk result (λ over. over.entries ≡ self.now.entries) }
        ensures latest { IfOk result (λ over. over.latest ≡ 0) }
    {
        EntryOverlay::new(alloc, &self.list, &self.uids, &self.modseqs)
    }
}

impl EntryList for EntryTable {
    ghost use Rattle.std.specs.Prelude.{◌≤◌};

    ghost entries = { λ t. t.entries };

    ghost has_edits = { λ t n. n ≤ t.modseq_room };

    ghost has_room = { λ t n. n ≤ t.room };

    ghost latest = { λ t. t.latest };

    fn len(&self) -> usize {
        self.list.len()
    }

    fn get(&self, place: usize) -> Option<ListingEntry> {
        self.list.get(place).copied()
    }

    fn place_of(&self, origin: &OpId) -> Option<usize> {
        match uid_index::uid_of(&self.uids, origin) {
            Some(uid) => entry_search::place_with(&self.list, uid, origin),
            None => None,
        }
    }

    fn set_modseq(&mut self, place: usize, modseq: u64) {
        match self.list.get(place).copied() {
            Some(old) => {
                put_at(&mut self.list, place, &old.origin, old.uid, modseq);
                self.modseqs.note(modseq, old.uid);
            }
            None => unreachable!(),
        }
    }

    fn remove(&mut self, place: usize) {
        self.remove_at(place);
    }

    fn push(&mut self, entry: ListingEntry) {
        uid_index::note(&mut self.uids, &entry.origin, entry.uid);
        self.modseqs.note(entry.modseq, entry.uid);
        self.list.push_reserved(entry);
    }
}

/// Replaces the entry at `place` by one with these numbers.
fn put_at(list: &mut ChunkList<ListingEntry>, place: usize, origin: &OpId, uid: u32, modseq: u64)
    requires { place < length list.old.items }
    ensures items { list.new.items
        ≡ set list.old.items place (record { origin = origin.now; uid = uid; modseq = modseq }) }
    ensures room { list.new.room ≡ list.old.room }
{
    let _ = list.replace(
        place,
        ListingEntry {
            origin: *origin,
            uid,
            modseq,
        },
    );
}

/// Rebuilds the index of these entries, and perhaps earlier ones, if it has more than two for each.
/// No room is lost. `Err` if memory runs out; the index is then unchanged.
fn rebuild_if_long(
    alloc: Global,
    entries: &ChunkList<ListingEntry>,
    index: &mut ModSeqIndex,
) -> Result<(), AllocError>
    requires { AreNoted index.old.entries entries.now.items }
    ensures noted { AreNoted index.new.entries entries.now.items }
    ensures latest { latest index.new.entries ≤ latest index.old.entries }
    ensures room { index.old.room ≤ index.new.room }
{
    if index.len() / 2 <= entries.len().saturating_add(SPARE) {
        return Ok(());
    }
    *index = index_of(alloc, entries, index.room())?;
    Ok(())
}

/// An index of these entries only, with this room. `Err` if memory runs out. Cost: a sort.
fn index_of(
    alloc: Global,
    entries: &ChunkList<ListingEntry>,
    room: usize,
) -> Result<ModSeqIndex, AllocError>
    ensures entries { IfOk result
        (λ index. IsPermutation (modseq_entries_of entries.now.items) index.entries) }
    ensures room { IfOk result (λ index. room ≤ index.room) }
{
    let mut index = ModSeqIndex::from_entries(modseq_entries_of(alloc, entries)?);
    index.reserve(room)?;
    Ok(index)
}

/// The mod-sequences and UIDs of these entries; `Err` if memory runs out.
fn modseq_entries_of(
    alloc: Global,
    entries: &ChunkList<ListingEntry>,
) -> Result<Vec<ModSeqEntry>, AllocError>
    ensures { IfOk result (λ list. list.items ≡ modseq_entries_of entries.now.items) }
{
    let mut list = Vec::with_capacity(alloc, entries.len())?;
    for entry in entries.iter_from(0) {
        list.push(ModSeqEntry {
            modseq: entry.modseq,
            uid: entry.uid,
        })?;
    }
    Ok(list)
}
