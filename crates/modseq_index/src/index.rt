//! `ModSeqIndex` and its entries.

ghost use Rattle.std.specs.Prelude.{◌≡◌, ◌≤◌, ◌<◌, ◌+◌, ◌-◌, ◌++◌, ◌∷◌, [], leb, length};
ghost use Rattle.std.specs.Prelude.{get_or, OnOk};
ghost use Rattle.std.specs.List.Sorted.{IsPermutation};
ghost use Rattle.modseq_index.specs.declared.index.ModSeqEntry.{ModSeqEntry};
ghost use Rattle.modseq_index.specs.Edges.{IsEdge};
ghost use Rattle.modseq_index.specs.ModSeqIndex.{AreInOrder, latest, uids_above};

use std::alloc::{AllocError, Global};
use std::marker::Model;

/// The message with this UID got this mod-sequence.
#[derive(Clone, Copy)]
pub struct ModSeqEntry {
    pub modseq: u64,
    pub uid: u32,
}

/// Entries by ascending mod-sequence.
pub struct ModSeqIndex {
    list: Vec<ModSeqEntry>,
}

// By hand, so that crates above drop it whole.
impl Drop for ModSeqIndex {
    fn drop(self) {
        let Self { list: _ } = self;
    }
}

impl Model for ModSeqIndex {
    ghost use Rattle.std.specs.Prelude.{◌-◌, vec_len, vec_capacity};
    ghost use Rattle.modseq_index.specs.ModSeqIndex.{AreInOrder, IndexState};

    ghost Value = { IndexState };

    ghost view = { λ c. record {
      entries = c.list.items;
      room = vec_capacity c.list - vec_len c.list;
    } };

    ghost invariant = { λ c. AreInOrder 0 c.list.items };
}

impl ModSeqIndex {
    /// An index without entries.
    pub fn new(alloc: Global) -> ModSeqIndex
        ensures { result.entries ≡ [] }
    {
        ModSeqIndex {
            list: Vec::new(alloc),
        }
    }

    /// The index of these entries, given in any order. Takes no memory. Cost: a sort.
    pub fn from_entries(entries: Vec<ModSeqEntry>) -> ModSeqIndex
        ensures entries { IsPermutation entries.items result.entries }
        ensures order { AreInOrder 0 result.entries }
    {
        let mut list = entries;
        list.sort_unstable_by_key(|entry| entry.modseq);
        ModSeqIndex { list }
    }

    /// The number of entries.
    pub fn len(&self) -> usize
        ensures { result ≡ length self.now.entries }
    {
        self.list.len()
    }

    /// How many entries can be noted without asking for memory.
    pub fn room(&self) -> usize
        ensures { result ≡ self.now.room }
    {
        self.list.capacity() - self.list.len()
    }

    /// Makes room for `additional` further entries; `Err` if memory runs out. The entries stay, and
    /// no room is lost.
    pub fn reserve(&mut self, additional: usize) -> Result<(), AllocError>
        ensures entries { self.new.entries ≡ self.old.entries }
        ensures ok { OnOk result (additional ≤ self.new.room) }
        ensures room { self.old.room ≤ self.new.room }
    {
        self.list.reserve(additional)
    }

    /// Notes that the message with this UID got this mod-sequence. There is room for it, and no
    /// entry has a greater mod-sequence.
    pub fn note(&mut self, modseq: u64, uid: u32)
        requires room { 0 < self.old.room }
        requires order { latest self.old.entries ≤ modseq }
        ensures entries { self.new.entries
            ≡ self.old.entries ++ record { modseq = modseq; uid = uid } ∷ [] }
        ensures room { self.new.room + 1 ≡ self.old.room }
    {
        self.list.push_reserved(ModSeqEntry { modseq, uid });
    }

    /// Removes all entries. Their room stays.
    pub fn clear(&mut self)
        ensures entries { self.new.entries ≡ [] }
        ensures room { self.new.room ≡ self.old.room + length self.old.entries }
    {
        self.list.clear();
    }

    /// Appends the UIDs of the entries whose mod-sequences are above `modseq`; `Err` if memory runs
    /// out. Cost: a binary search, and the UIDs that it appends.
    pub fn push_uids(&self, modseq: u64, uids: &mut Vec<u32>) -> Result<(), AllocError>
        ensures { OnOk result
            (uids.new.items ≡ uids.old.items ++ uids_above modseq self.now.entries) }
    {
        let from = first_above(&self.list, modseq);
        for entry in &self.list[from..] {
            uids.push(entry.uid)?;
        }
        Ok(())
    }
}

/// The place of the first entry whose mod-sequence is above `modseq`; the length if there is none.
fn first_above(list: &[ModSeqEntry], modseq: u64) -> usize
    ensures within { result ≤ length list.now }
    ensures edge { (d : ModSeqEntry)
        → IsEdge (λ i. leb (get_or list.now i d).modseq modseq) (length list.now) result }
{
    let mut low = 0;
    let mut high = list.len();
    while low < high {
        let middle = low + (high - low) / 2;
        if list[middle].modseq <= modseq {
            low = middle + 1;
        } else {
            high = middle;
        }
    }
    low
}
