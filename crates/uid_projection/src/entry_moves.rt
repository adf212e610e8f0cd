//! How an operation changes a folder's entries, whether in their table or in an overlay on it.

ghost use Rattle.std.specs.Prelude.{◌≡◌, ◌<◌, ◌≤◌, ◌+◌, ℕ, [], ◌∷◌, ◌++◌, true, false, Some};
ghost use Rattle.std.specs.Prelude.{MatchOption, length, get_or, set, remove};
ghost use Rattle.mailbox_rows.specs.declared.entry.ListingEntry.{ListingEntry};
ghost use Rattle.uid_projection.specs.EntryMoves.{AreApart, IsNext, added_origin, has_entry};
ghost use Rattle.uid_projection.specs.EntryMoves.{moved_entries, with_modseq};
ghost use Rattle.crdt_ops.specs.SortedSets.{same_id};
ghost use Rattle.mailbox_rows.specs.ListingEntries.{IsAt, Lacks};

use crdt_ops::{Kind, Op};
use mailbox_rows::{EntryList, ListingEntry};
use tags_clocks::OpId;

/// The origin of the message tag that the operation adds, or `None` if it adds none.
pub fn added_origin(op: &Op) -> Option<OpId>
    ensures { result ≡ added_origin op.now }
{
    match &op.kind {
        Kind::Append { .. } => Some(op.id),
        Kind::Store { origin, .. } => Some(*origin),
        Kind::Create { .. } => None,
        Kind::Delete { .. } => None,
        Kind::Expunge { .. } => None,
        Kind::Subscribe { .. } => None,
        Kind::Unsubscribe { .. } => None,
    }
}

/// The place of the entry with this origin. `near` is a guess: if it is right, no search is
/// made.
pub fn place_by<L: EntryList>(entries: &L, origin: &OpId, near: usize) -> Option<usize>
    ensures { MatchOption result (Lacks origin.now (L.entries entries.now))
        (IsAt origin.now (L.entries entries.now)) }
{
    if is_of(entries.get(near), origin) {
        return Some(near);
    }
    entries.place_of(origin)
}

/// Whether there is an entry and it has this origin.
fn is_of(entry: Option<ListingEntry>, origin: &OpId) -> bool
    ensures { result ≡ true → (e : ListingEntry) × (entry ≡ Some e) × (e.origin ≡ origin.now) }
{
    match entry {
        Some(entry) => entry.origin == *origin,
        None => false,
    }
}

/// Gives the entry of this origin, if any, the mod-sequence if its message stays, and removes it
/// otherwise. Returns the place where the entry is or was, or 0 if there is none.
pub fn settle<L: EntryList>(entries: &mut L, origin: &OpId, stays: bool, modseq: u64) -> usize
    requires edits { L.has_edits entries.old 1 }
    requires order { L.latest entries.old ≤ modseq }
    ensures entries { AreApart (L.entries entries.old)
        → L.entries entries.new
        ≡ moved_entries (λ g. same_id g origin.now) (λ g. stays) modseq (L.entries entries.old) }
    ensures latest { L.latest entries.new ≤ modseq }
    ensures edits { (n : ℕ) → L.has_edits entries.old n
        → L.has_edits entries.old (n + 1)
        → L.has_edits entries.new n }
    ensures room { (n : ℕ) → L.has_room entries.old n → L.has_room entries.new n }
{
    match entries.place_of(origin) {
        Some(place) => {
            settle_at(entries, place, stays, modseq);
            place
        }
        None => 0,
    }
}

/// Gives the entry of this origin, if any, the mod-sequence, and returns whether there is one.
/// `near` is a guess at its place.
pub fn set_modseq<L: EntryList>(entries: &mut L, origin: &OpId, near: usize, modseq: u64) -> bool
    requires edits { L.has_edits entries.old 1 }
    requires order { L.latest entries.old ≤ modseq }
    ensures listed { result ≡ has_entry (L.entries entries.old) origin.now }
    ensures entries { AreApart (L.entries entries.old)
        → L.entries entries.new
        ≡ moved_entries (λ g. same_id g origin.now) (λ g. true) modseq (L.entries entries.old) }
    ensures latest { L.latest entries.new ≤ modseq }
    ensures edits { (n : ℕ) → L.has_edits entries.old n
        → L.has_edits entries.old (n + 1)
        → L.has_edits entries.new n }
    ensures same { result ≡ false → entries.new ≡ entries.old }
    ensures room { (n : ℕ) → L.has_room entries.old n → L.has_room entries.new n }
{
    match place_by(entries, origin, near) {
        Some(place) => {
            settle_at(entries, place, true, modseq);
            true
        }
        None => false,
    }
}

/// Does what `settle` does for the entry at this place.
fn settle_at<L: EntryList>(entries: &mut L, place: usize, stays: bool, modseq: u64)
    requires within { place < length (L.entries entries.old) }
    requires edits { L.has_edits entries.old 1 }
    requires order { L.latest entries.old ≤ modseq }
    ensures stays { stays ≡ true → (e : ListingEntry)
        → L.entries entries.new
        ≡ set (L.entries entries.old) place
        (with_modseq modseq (get_or (L.entries entries.old) place e)) }
    ensures removed { stays ≡ false → L.entries entries.new ≡ remove (L.entries entries.old) place }
    ensures latest { L.latest entries.new ≤ modseq }
    ensures edits { (n : ℕ) → L.has_edits entries.old (n + 1) → L.has_edits entries.new n }
    ensures room { (n : ℕ) → L.has_room entries.old n → L.has_room entries.new n }
{
    if stays {
        entries.set_modseq(place, modseq);
    } else {
        entries.remove(place);
    }
}

/// Appends an entry for an origin that has none.
pub fn begin_line<L: EntryList>(entries: &mut L, origin: &OpId, uid: u32, modseq: u64)
    requires edits { L.has_edits entries.old 1 }
    requires room { L.has_room entries.old 1 }
    requires fresh { has_entry (L.entries entries.old) origin.now ≡ false }
    requires next { IsNext uid (L.entries entries.old) }
    requires order { L.latest entries.old ≤ modseq }
    ensures entries { L.entries entries.new
        ≡ L.entries entries.old ++ record { origin = origin.now; uid = uid; modseq = modseq } ∷ [] }
    ensures latest { L.latest entries.new ≡ modseq }
    ensures edits { (n : ℕ) → L.has_edits entries.old (n + 1) → L.has_edits entries.new n }
    ensures room { (n : ℕ) → L.has_room entries.old (n + 1) → L.has_room entries.new n }
{
    entries.push(ListingEntry {
        origin: *origin,
        uid,
        modseq,
    });
}
