//! `EntryList`: lists of entries in which an entry is found by its origin.

ghost use Rattle.std.specs.Prelude.{◌≡◌, ◌+◌, ◌^◌, ◌<◌, ◌≤◌, ℕ, List, [], ◌∷◌, ◌++◌, MatchOption};
ghost use Rattle.std.specs.Prelude.{get_or, length, remove, set};
ghost use Rattle.std.specs.List.{slice_get};
ghost use Rattle.mailbox_rows.specs.declared.entry.ListingEntry.{ListingEntry};
ghost use Rattle.mailbox_rows.specs.ListingEntries.{AreBelow, IsAt, Lacks};

use crate::entry::ListingEntry;
use tags_clocks::OpId;

/// Entries by ascending UID, which can be edited while there is room.
pub trait EntryList {
    /// The entries.
    ghost entries: { Self → List ListingEntry };

    /// Room for this number of edits, not counting places for added entries; an edit changes,
    /// removes or adds one entry.
    ghost has_edits: { Self → ℕ → Type 0 };

    /// Room for this number of additional entries.
    ghost has_room: { Self → ℕ → Type 0 };

    /// The greatest mod-sequence that an edit gave, as far as the list knows; 0 if it knows none.
    /// An edit gives one that is no less.
    ghost latest: { Self → ℕ };

    /// The number of entries.
    fn len(&self) -> usize
        ensures { result ≡ length (entries self.now) };

    /// The entry at `place`, from 0; `None` if the list is shorter.
    fn get(&self, place: usize) -> Option<ListingEntry>
        ensures { result ≡ slice_get (entries self.now) place };

    /// The place of the entry with this origin, if any.
    fn place_of(&self, origin: &OpId) -> Option<usize>
        ensures { MatchOption result (Lacks origin.now (entries self.now))
            (IsAt origin.now (entries self.now)) };

    /// Gives the entry at `place` another mod-sequence; its origin and UID stay.
    fn set_modseq(&mut self, place: usize, modseq: u64)
        requires within { place < length (entries self.old) }
        requires edits { has_edits self.old 1 }
        requires order { latest self.old ≤ modseq }
        ensures entries { (e : ListingEntry)
            → entries self.new
            ≡ set (entries self.old) place (record {
              origin = (get_or (entries self.old) place e).origin;
              uid = (get_or (entries self.old) place e).uid;
              modseq = modseq;
            }) }
        ensures latest { latest self.new ≡ modseq }
        ensures edits { (n : ℕ) → has_edits self.old (n + 1) → has_edits self.new n }
        ensures room { (n : ℕ) → has_room self.old n → has_room self.new n };

    /// Removes the entry at `place`.
    fn remove(&mut self, place: usize)
        requires within { place < length (entries self.old) }
        requires edits { has_edits self.old 1 }
        ensures entries { entries self.new ≡ remove (entries self.old) place }
        ensures latest { latest self.new ≡ latest self.old }
        ensures edits { (n : ℕ) → has_edits self.old (n + 1) → has_edits self.new n }
        ensures room { (n : ℕ) → has_room self.old n → has_room self.new n };

    /// Appends an entry. Its UID is above all others, its origin is new, and no edit gave a greater
    /// mod-sequence.
    fn push(&mut self, entry: ListingEntry)
        requires first { 1 ≤ entry.uid }
        requires beyond { AreBelow entry.uid (entries self.old) }
        requires fresh { Lacks entry.origin (entries self.old) }
        requires fits { length (entries self.old) < 2 ^ 32 }
        requires edits { has_edits self.old 1 }
        requires room { has_room self.old 1 }
        requires order { latest self.old ≤ entry.modseq }
        ensures entries { entries self.new ≡ entries self.old ++ entry ∷ [] }
        ensures latest { latest self.new ≡ entry.modseq }
        ensures edits { (n : ℕ) → has_edits self.old (n + 1) → has_edits self.new n }
        ensures room { (n : ℕ) → has_room self.old (n + 1) → has_room self.new n };
}
