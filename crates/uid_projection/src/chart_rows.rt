//! Single rows of a listing, from a chart's entries and the folders' messages. Nothing here takes
//! memory.

ghost use Rattle.std.specs.Prelude.{◌≡◌, ◌≤◌, ◌<◌, ◌-◌, ℕ, List, ltb, length, get_or};
ghost use Rattle.std.specs.List.{slice_get};
ghost use Rattle.std.specs.Option.{option_map};
ghost use Rattle.mailbox_rows.specs.declared.entry.ListingEntry.{ListingEntry};
ghost use Rattle.mailbox_rows.specs.ListingEntries.{AreRising, IsEdge};
ghost use Rattle.crdt_ops.specs.declared.op.Op.{Op};
ghost use Rattle.folder_state.specs.Contents.{IsMadeBy};
ghost use Rattle.folder_state.specs.Tables.{contents_of};
ghost use Rattle.mailbox_rows.specs.RowViews.{listed_message, row_of};
ghost use Rattle.uid_projection.specs.declared.first_numbers.Counters.{Counters};
ghost use Rattle.uid_projection.specs.Chart.{AreUidsAscending, IsChart};
ghost use Rattle.uid_projection.specs.Listing.{listing};
ghost use Rattle.uid_projection.specs.ChartRows.{entry_with};

use folder_state::Folders;
use imap_types::Name;
use mailbox_rows::{EntryList, EntryTable, ListingEntry, Row};

/// The row of the entry with this UID, or `None` if no entry has it.
pub fn row_with<'a>(
    entries: &EntryTable,
    value: &'a Folders,
    folder: &Name,
    uid: u32,
) -> Option<Row<'a>>
    ensures { (start : Counters) (list : List Op) (u h : ℕ)
        → IsMadeBy (contents_of value.now) list
        → IsChart start folder.now list u h entries.now.entries
        → option_map listed_message result ≡ row_of uid (listing start folder.now list) }
{
    match entry_with(entries, uid) {
        Some(entry) => value.mailbox(folder).row(&entry),
        None => None,
    }
}

/// The entry with this UID, or `None` if no entry has it: a binary search.
fn entry_with(entries: &EntryTable, uid: u32) -> Option<ListingEntry>
    ensures { AreUidsAscending entries.now.entries → result ≡ entry_with uid entries.now.entries }
{
    match entries.get(first_place_from(entries, uid)) {
        Some(entry) => { if entry.uid == uid { Some(entry) } else { None } }
        None => None,
    }
}

/// The place of the first entry whose UID isn't below this one, or the number of entries.
fn first_place_from(entries: &EntryTable, uid: u32) -> usize
    ensures within { result ≤ length entries.now.entries }
    ensures edge { (d : ListingEntry)
        → IsEdge (λ i. ltb (get_or entries.now.entries i d).uid uid) (length entries.now.entries)
        result }
{
    let mut low = 0;
    let mut high = entries.len();
    while low < high {
        let middle = low + (high - low) / 2;
        if is_below(entries, middle, uid) {
            low = middle + 1;
        } else {
            high = middle;
        }
    }
    low
}

/// Whether the UID at the place is below this one.
fn is_below(entries: &EntryTable, place: usize, uid: u32) -> bool
    requires { place < length entries.now.entries }
    ensures { (d : ListingEntry) → result ≡ ltb (get_or entries.now.entries place d).uid uid }
{
    match entries.get(place) {
        Some(entry) => entry.uid < uid,
        None => false,
    }
}
