//! The entries that a book stores.

ghost use Rattle.std.specs.Prelude.{◌≡◌, ℕ, ◌+◌, ◌<◌, ◌≤◌, [], ◌∷◌, ◌++◌, IfOk, IsOk, OnOk, drop};
ghost use Rattle.std.specs.Prelude.{length, slice_get, false};
ghost use Rattle.std.specs.Option.{option_map};

use crate::compact_entry::CompactEntry;
use chunk_list::ChunkList;
use std::alloc::{AllocError, Global};
use std::collections::VecDeque;
use std::marker::Model;
use std::mem;

/// A block that has this many entries gets no further one if memory suffices for the next block.
const BLOCK: usize = 512;

/// The most entries that are dropped, or taken out of their block, in a few microseconds.
const FEW_ENTRIES: usize = 64;

/// Consecutive entries of a journal.
pub struct Block {
    entries: ChunkList<CompactEntry>,
    /// The octets that the entries take, by their own estimates.
    octets: u64,
}

// By hand, so that its owner drops it whole.
impl Drop for Block {
    fn drop(self) {
        let Self {
            entries: _,
            octets: _,
        } = self;
    }
}

/// Entries that a book forgot, until they are dropped. To drop them may take long; so this is done
/// when the lock is released.
pub struct ForgottenEntries {
    blocks: Vec<Block>,
    entries: Vec<CompactEntry>,
    /// The octets that all of them take, by their own estimates.
    octets: u64,
}

// By hand, so that its owner drops it whole.
impl Drop for ForgottenEntries {
    fn drop(self) {
        let Self {
            blocks: _,
            entries: _,
            octets: _,
        } = self;
    }
}

impl ForgottenEntries {
    /// No entries.
    pub fn new(alloc: Global) -> ForgottenEntries {
        ForgottenEntries {
            blocks: Vec::new(alloc),
            entries: Vec::new(alloc),
            octets: 0,
        }
    }

    /// The octets that the entries take, by their own estimates.
    pub(crate) fn octets(&self) -> u64 {
        self.octets
    }

    /// Drops at most `answers` answers of an entry, or a few entries of at most `octets` octets, by
    /// their own estimates, or takes a few out of their block. False if nothing is left.
    pub(crate) fn drop_some(&mut self, answers: usize, octets: u64) -> bool
        ensures left { result ≡ false
            → (self.new.blocks.items ≡ []) × (self.new.entries.items ≡ []) }
    {
        if !self.entries.is_empty() {
            self.drop_entries(answers, octets);
            return true;
        }
        let Some(block) = self.blocks.pop() else {
            return false;
        };
        self.take_out_of(block);
        true
    }

    /// Drops at most `answers` answers of the last entry, or a few of the last entries of at most
    /// `octets` octets.
    fn drop_entries(&mut self, answers: usize, octets: u64) {
        let mut rest = octets;
        for _ in 0..FEW_ENTRIES {
            let Some(entry) = self.entries.last_mut() else {
                return;
            };
            if entry.drop_some(answers) {
                return;
            }
            rest = rest.saturating_sub(entry.octets());
            drop(self.entries.pop());
            if rest == 0 {
                return;
            }
        }
    }

    /// Takes a few entries out of a block; if memory runs out, they are dropped at once.
    fn take_out_of(&mut self, block: Block) {
        let mut block = block;
        for _ in 0..FEW_ENTRIES {
            let count = block.entries.len();
            if count == 0 {
                return;
            }
            drop(self.entries.push(block.entries.remove(count - 1)));
        }
        drop(self.blocks.push(block));
    }

    /// Adds all entries of a block; if memory runs out, they are dropped at once.
    fn push_block(&mut self, block: Block) {
        self.octets = self.octets.saturating_add(block.octets);
        drop(self.blocks.push(block));
    }

    /// Adds an entry; if memory runs out, it is dropped at once.
    fn push_entry(&mut self, entry: CompactEntry) {
        self.octets = self.octets.saturating_add(entry.octets());
        drop(self.entries.push(entry));
    }
}

/// Entries in order. One is appended in a time that doesn't depend on their number, and none moves
/// then. The oldest are forgotten by blocks, and only those of one block one by one.
pub struct Journal {
    /// The oldest entries.
    older: VecDeque<Block>,
    /// The entries after those, and the room for further ones.
    newest: Block,
    /// The octets that all entries take, by their own estimates.
    octets: u64,
}

// By hand, so that its owner drops it whole.
impl Drop for Journal {
    fn drop(self) {
        let Self {
            older: _,
            newest: _,
            octets: _,
        } = self;
    }
}

impl Model for Journal {
    ghost use Rattle.std.specs.Prelude.{◌++◌};
    ghost use Rattle.replica_lock.specs.JournalState.{JournalState, entries_of};

    ghost Value = { JournalState };

    ghost view = { λ j. record {
      items = entries_of j.older.items ++ j.newest.entries.items;
      room = j.newest.entries.room;
    } };
}

impl Journal {
    /// No entries, which take no memory.
    pub fn new(alloc: Global) -> Journal
        ensures { result.items ≡ [] }
    {
        Journal {
            older: VecDeque::new(alloc),
            newest: Block::new(alloc),
            octets: 0,
        }
    }

    /// The octets that the entries take, by their own estimates.
    pub fn octets(&self) -> u64 {
        self.octets
    }

    /// The entry at `index`, counted from 0, if there are more entries than that. Cost: one look at
    /// each block before its own.
    pub fn get(&self, index: usize) -> Option<&CompactEntry>
        ensures { option_map (λ e. e.now) result ≡ slice_get self.now.items index }
    {
        let mut rest = index;
        for block in self.older.iter() {
            if rest < block.entries.len() {
                return block.entries.get(rest);
            }
            rest -= block.entries.len();
        }
        self.newest.entries.get(rest)
    }

    /// Makes room for at least `entries` further entries; `Err` if memory runs out. Existing room
    /// counts. No entry changes, and no room is lost.
    pub fn reserve(&mut self, alloc: Global, entries: usize) -> Result<(), AllocError>
        ensures items { self.new.items ≡ self.old.items }
        ensures room { OnOk result (entries ≤ self.new.room) }
        ensures no_less_room { self.old.room ≤ self.new.room }
        ensures enough { entries ≤ self.old.room → IsOk result }
    {
        if self.newest.entries.len() >= BLOCK {
            let _ = self.begin_block(alloc, entries);
        }
        if entries <= self.newest.entries.room() {
            return Ok(());
        }
        self.newest.entries.reserve(alloc, entries)
    }

    /// Begins a block with room for at least `entries` entries. If memory runs out, nothing
    /// changes. No room is lost.
    fn begin_block(&mut self, alloc: Global, entries: usize) -> Result<(), AllocError>
        ensures items { self.new.items ≡ self.old.items }
        ensures room { self.old.room ≤ self.new.room }
    {
        self.older.reserve(1)?;
        let next = Block::with_room(alloc, entries.max(self.newest.entries.room()))?;
        let mut block = mem::replace(&mut self.newest, next);
        block.entries.release();
        self.older.push_back_reserved(block);
        Ok(())
    }

    /// Appends an entry, for which there is room.
    pub fn push_reserved(&mut self, entry: CompactEntry)
        requires { 0 < self.old.room }
        ensures items { self.new.items ≡ self.old.items ++ entry ∷ [] }
        ensures room { self.new.room + 1 ≡ self.old.room }
    {
        let octets = entry.octets();
        self.octets = self.octets.saturating_add(octets);
        self.newest.octets = self.newest.octets.saturating_add(octets);
        self.newest.entries.push_reserved(entry);
    }

    /// Takes out the `count` oldest entries, or all if there are fewer. No room is lost.
    pub fn forget(&mut self, count: usize, forgotten: &mut ForgottenEntries)
        ensures items { self.new.items ≡ drop count self.old.items }
        ensures room { self.old.room ≤ self.new.room }
    {
        let mut rest = count;
        while let Some(mut block) = self.older.pop_front() {
            if rest < block.entries.len() {
                let octets = block.forget(rest, forgotten);
                self.octets = self.octets.saturating_sub(octets);
                self.older.push_front_reserved(block);
                return;
            }
            rest -= block.entries.len();
            self.octets = self.octets.saturating_sub(block.octets);
            forgotten.push_block(block);
        }
        let octets = self.newest.forget(rest, forgotten);
        self.octets = self.octets.saturating_sub(octets);
    }

    /// How many of the oldest entries have to be forgotten so that the others take at most `octets`
    /// octets, by their own estimates.
    pub fn count_to_forget(&self, octets: u64) -> usize {
        let mut excess = self.octets.saturating_sub(octets);
        let mut count = 0usize;
        for block in self.older.iter() {
            if block.octets > excess {
                return count.saturating_add(block.count_with(excess));
            }
            excess -= block.octets;
            count = count.saturating_add(block.entries.len());
        }
        count.saturating_add(self.newest.count_with(excess))
    }
}

impl Block {
    /// No entries, which take no memory.
    fn new(alloc: Global) -> Block
        ensures { result.entries.items ≡ [] }
    {
        Block {
            entries: ChunkList::new(alloc),
            octets: 0,
        }
    }

    /// No entries, with room for at least `entries`; `Err` if memory runs out.
    fn with_room(alloc: Global, entries: usize) -> Result<Block, AllocError>
        ensures items { IfOk result (λ block. block.entries.items ≡ []) }
        ensures room { IfOk result (λ block. entries ≤ block.entries.room) }
    {
        let mut list = ChunkList::new(alloc);
        list.reserve(alloc, entries)?;
        Ok(Block {
            entries: list,
            octets: 0,
        })
    }

    /// Takes out the `count` oldest entries, or all if there are fewer, and returns the octets that
    /// they took. No room is lost.
    fn forget(&mut self, count: usize, forgotten: &mut ForgottenEntries) -> u64
        ensures items { self.new.entries.items ≡ drop count self.old.entries.items }
        ensures room { self.old.entries.room ≤ self.new.entries.room }
    {
        let mut octets = 0u64;
        for _ in 0..count {
            if self.entries.is_empty() {
                break;
            }
            let entry = self.entries.remove(0);
            octets = octets.saturating_add(entry.octets());
            forgotten.push_entry(entry);
        }
        self.octets = self.octets.saturating_sub(octets);
        octets
    }

    /// How many of the oldest entries take at least `octets` octets together; all if they take
    /// less.
    fn count_with(&self, octets: u64) -> usize {
        let mut rest = octets;
        let mut count = 0usize;
        for entry in self.entries.iter_from(0) {
            if rest == 0 {
                break;
            }
            rest = rest.saturating_sub(entry.octets());
            count = count.saturating_add(1);
        }
        count
    }
}
