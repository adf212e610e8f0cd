//! The entries of a list that changed since a mod-sequence, found by their UIDs.

ghost use Rattle.std.specs.Prelude.{◌≡◌, ◌++◌, ◌∷◌, [], IfOk, OnOk};
ghost use Rattle.mailbox_rows.specs.ChangedEntries.{AreAmong, AreAscending};
ghost use Rattle.mailbox_rows.specs.ChangedEntries.{changed_since, changed_with};
ghost use Rattle.mailbox_rows.specs.ListingEntries.{AreRising};

use crate::entry::ListingEntry;
use crate::entry_search::first_place_from;
use crate::patched_list::PatchedList;
use std::alloc::{AllocError, Global};

/// Appends `entry` to `changed` if its mod-sequence is above `modseq`. `Err` if memory runs out.
fn push_changed(
    changed: &mut Vec<ListingEntry>,
    entry: ListingEntry,
    modseq: u64,
) -> Result<(), AllocError>
    ensures { OnOk result
        (changed.new.items ≡ changed.old.items ++ changed_since modseq (entry ∷ [])) }
{
    if modseq < entry.modseq {
        changed.push(entry)?;
    }
    Ok(())
}

/// The entries whose mod-sequences are above `modseq`, all of which have UIDs in `uids` (ascending,
/// perhaps repeated), by a search for each UID. `Err` if memory runs out.
pub fn changed_entries_among(
    alloc: Global,
    list: &PatchedList<'_, ListingEntry>,
    uids: &[u32],
    modseq: u64,
) -> Result<Vec<ListingEntry>, AllocError>
    requires rising { AreRising 1 list.now.items }
    requires ascending { AreAscending 0 uids.now }
    requires among { AreAmong modseq uids.now list.now.items }
    ensures { IfOk result (λ changed. changed.items ≡ changed_since modseq list.now.items) }
{
    let mut changed = Vec::new(alloc);
    let mut low = 0;
    for uid in uids {
        if low <= u64::from(*uid) {
            push_with(&mut changed, list, *uid, modseq)?;
            low = u64::from(*uid) + 1;
        }
    }
    Ok(changed)
}

/// Appends the entry of this UID to `changed` if it exists and its mod-sequence is above `modseq`.
/// `Err` if memory runs out.
fn push_with(
    changed: &mut Vec<ListingEntry>,
    list: &PatchedList<'_, ListingEntry>,
    uid: u32,
    modseq: u64,
) -> Result<(), AllocError>
    requires { AreRising 1 list.now.items }
    ensures { OnOk result
        (changed.new.items ≡ changed.old.items ++ changed_with modseq uid list.now.items) }
{
    match list.get(first_place_from(list, uid)) {
        Some(entry) => {
            if entry.uid == uid {
                push_changed(changed, entry, modseq)
            } else {
                Ok(())
            }
        }
        None => Ok(()),
    }
}
