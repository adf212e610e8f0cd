//! Binary searches by UID in lists of entries.

ghost use Rattle.std.specs.Prelude.{◌≡◌, ◌<◌, ◌≤◌, List, ltb, length, get_or, MatchOption};
ghost use Rattle.std.specs.List.{slice_get};
ghost use Rattle.mailbox_rows.specs.declared.entry.ListingEntry.{ListingEntry};
ghost use Rattle.mailbox_rows.specs.ListingEntries.{AreRising, IsAt, IsEdge, LacksAt};

use crate::entry::ListingEntry;
use crate::patched_list::PatchedList;
use chunk_list::ChunkList;
use tags_clocks::OpId;

/// A list of entries that are read by place.
pub trait EntryPlaces {
    ghost entries: { Self → List ListingEntry };

    fn count(&self) -> usize
        ensures { result ≡ length (entries self.now) };

    fn at(&self, place: usize) -> Option<ListingEntry>
        ensures { result ≡ slice_get (entries self.now) place };
}

impl EntryPlaces for ChunkList<ListingEntry> {
    ghost entries = { λ list. list.items };

    fn count(&self) -> usize {
        self.len()
    }

    fn at(&self, place: usize) -> Option<ListingEntry> {
        self.get(place).copied()
    }
}

impl<'a> EntryPlaces for PatchedList<'a, ListingEntry> {
    ghost entries = { λ list. list.items };

    fn count(&self) -> usize {
        self.len()
    }

    fn at(&self, place: usize) -> Option<ListingEntry> {
        self.get(place)
    }
}

/// The place of the entry with this UID, if it has this origin.
pub fn place_with<L: EntryPlaces>(list: &L, uid: u32, origin: &OpId) -> Option<usize>
    requires { AreRising 1 (L.entries list.now) }
    ensures { MatchOption result (LacksAt uid origin.now (L.entries list.now))
        (IsAt origin.now (L.entries list.now)) }
{
    let place = first_place_from(list, uid);
    match list.at(place) {
        Some(entry) => {
            if entry.origin == *origin {
                Some(place)
            } else {
                None
            }
        }
        None => None,
    }
}

/// The place of the first entry whose UID is `uid` or above; the length if there is none.
pub fn first_place_from<L: EntryPlaces>(list: &L, uid: u32) -> usize
    ensures within { result ≤ length (L.entries list.now) }
    ensures edge { (d : ListingEntry)
        → IsEdge (λ i. ltb (get_or (L.entries list.now) i d).uid uid) (length (L.entries list.now))
        result }
{
    let mut low = 0;
    let mut high = list.count();
    while low < high {
        let middle = low + (high - low) / 2;
        if is_below(list, middle, uid) {
            low = middle + 1;
        } else {
            high = middle;
        }
    }
    low
}

/// Whether the UID at `place` is below `uid`.
fn is_below<L: EntryPlaces>(list: &L, place: usize, uid: u32) -> bool
    requires { place < length (L.entries list.now) }
    ensures { (d : ListingEntry) → result ≡ ltb (get_or (L.entries list.now) place d).uid uid }
{
    match list.at(place) {
        Some(entry) => entry.uid < uid,
        None => false,
    }
}
