//! The names that LIST shows, in order: mailboxes, and superior levels that aren't mailboxes.

ghost use Rattle.std.specs.Prelude.{◌≡◌, ℕ, ◌≤◌, false, List, [], ◌∷◌, ◌++◌, IfOk, OnOk};
ghost use Rattle.std.specs.Prelude.{MatchOption, length};
ghost use Rattle.std.specs.List.{insert};
ghost use Rattle.imap_query.specs.ListEntries.{AreShown};
ghost use Rattle.imap_query.specs.Patterns.{is_among};
ghost use Rattle.imap_query.specs.Placing.{ends_in_percent, matched_entries, matched_levels};
ghost use Rattle.imap_query.specs.Placing.{levels_from, insert_entry, insert_all, shown_among};
ghost use Rattle.imap_query.specs.Placing.{shown_level, shown_mailboxes};
ghost use Rattle.imap_query.specs.declared.list_entries.ListEntry.{ListEntry};

use crate::pattern::{Pattern, is_shown};
use imap_types::Name;
use std::alloc::{AllocError, Global};
use std::cmp::Ordering;

/// A name that LIST shows: a mailbox, or a superior level that isn't one, which is shown with
/// `\Noselect`.
#[derive(Drop)]
pub struct ListEntry {
    /// The name, with INBOX in capitals if the folders spell it in capitals.
    pub name: Name,
    /// Whether it is a mailbox.
    pub is_mailbox: bool,
}

/// The names that LIST shows of the folders, distinct and ascending by octets (RFC 9051,
/// section 6.3.9). An empty pattern shows only the empty name; otherwise reference and pattern are
/// joined. `Err` if memory runs out.
///
/// The pattern is read once. Each folder, and each of its superior levels if the pattern ends in
/// `%`, is then matched in time at most quadratic in its length, and compared with the folders and
/// with the entries so far.
pub fn list(
    alloc: Global,
    reference: &[u8],
    pattern: &[u8],
    folders: &[Name],
) -> Result<Vec<ListEntry>, AllocError>
    ensures { IfOk result
        (λ entries. AreShown reference.now pattern.now folders.now entries.items) }
{
    if pattern.is_empty() {
        return root(alloc);
    }
    let mut joined = reference.to_vec(alloc)?;
    joined.extend_from_slice(pattern)?;
    listed_entries(alloc, &joined, folders)
}

/// LIST determines its entries: two lists that both meet its definition are equal.
pub fn one_list()
    ensures { (reference pattern : List ℕ) (folders : List (List ℕ))
        (entries others : List ListEntry)
        → AreShown reference pattern folders entries
        → AreShown reference pattern folders others
        → entries ≡ others }
{}

/// The entry for an empty pattern.
fn root(alloc: Global) -> Result<Vec<ListEntry>, AllocError>
    ensures { IfOk result
        (λ entries. entries.items ≡ (record { name = []; is_mailbox = false }) ∷ []) }
{
    let mut entries = Vec::new(alloc);
    entries.push(ListEntry {
        name: Name::new(Vec::new(alloc)),
        is_mailbox: false,
    })?;
    Ok(entries)
}

#[tactic(auto, using(crate::proofs::PlacingLemmas::placed_all_joined))]
fn listed_entries(
    alloc: Global,
    pattern: &[u8],
    folders: &[Name],
) -> Result<Vec<ListEntry>, AllocError>
    ensures { IfOk result
        (λ entries. entries.items ≡ insert_all (matched_entries pattern.now folders.now) []) }
{
    let pattern = &Pattern::new(alloc, pattern)?;
    let mut entries = Vec::new(alloc);
    insert_mailboxes(alloc, pattern, folders, &mut entries)?;
    insert_levels(alloc, pattern, folders, &mut entries)?;
    Ok(entries)
}

fn ends_in_percent(pattern: &[u8]) -> bool
    ensures { result ≡ ends_in_percent pattern.now }
{
    match pattern {
        [] => false,
        [.., last] => *last == b'%',
    }
}

/// Inserts the entries of the folders that match the pattern.
pub(crate) fn insert_mailboxes(
    alloc: Global,
    pattern: &Pattern,
    folders: &[Name],
    entries: &mut Vec<ListEntry>,
) -> Result<(), AllocError>
    ensures { OnOk result (entries.new.items
        ≡ insert_all (shown_mailboxes pattern.now folders.now) entries.old.items) }
{
    for folder in folders {
        if is_shown(alloc, pattern, folder)? {
            let name = folder.copy(alloc)?;
            insert_entry(
                entries,
                ListEntry {
                    name,
                    is_mailbox: true,
                },
            )?;
        }
    }
    Ok(())
}

/// Inserts the entries of the folders' superior levels, if the pattern ends in `%`.
fn insert_levels(
    alloc: Global,
    pattern: &Pattern,
    folders: &[Name],
    entries: &mut Vec<ListEntry>,
) -> Result<(), AllocError>
    ensures { OnOk result
        (entries.new.items
        ≡ insert_all (matched_levels pattern.now folders.now) entries.old.items) }
{
    if !ends_in_percent(pattern.written()) {
        return Ok(());
    }
    for folder in folders {
        insert_levels_of(alloc, pattern, folders, folder.as_bytes(), entries)?;
    }
    Ok(())
}

/// Inserts the entries of one folder's superior levels.
fn insert_levels_of(
    alloc: Global,
    pattern: &Pattern,
    folders: &[Name],
    folder: &[u8],
    entries: &mut Vec<ListEntry>,
) -> Result<(), AllocError>
    ensures { OnOk result (entries.new.items
        ≡ insert_all (shown_among pattern.now folders.now (levels_from [] folder.now))
        entries.old.items) }
{
    for at in 0..folder.len() {
        if folder[at] == b'/' {
            insert_level(alloc, pattern, folders, &folder[..at], entries)?;
        }
    }
    Ok(())
}

/// Inserts the entry of one superior level, if it matches the pattern and is no folder.
fn insert_level(
    alloc: Global,
    pattern: &Pattern,
    folders: &[Name],
    superior: &[u8],
    entries: &mut Vec<ListEntry>,
) -> Result<(), AllocError>
    ensures { OnOk result (entries.new.items
        ≡ insert_all (shown_level pattern.now folders.now superior.now) entries.old.items) }
{
    let name = Name::from_slice(alloc, superior)?.fold_inbox();
    if is_among(folders, name.as_bytes()) {
        return Ok(());
    }
    if is_shown(alloc, pattern, &name)? {
        insert_entry(
            entries,
            ListEntry {
                name,
                is_mailbox: false,
            },
        )?;
    }
    Ok(())
}

pub(crate) fn is_among(folders: &[Name], name: &[u8]) -> bool
    ensures { result ≡ is_among folders.now name.now }
{
    for folder in folders {
        if folder.as_bytes() == name {
            return true;
        }
    }
    false
}

/// Inserts the entry at its place, unless one with its name exists.
fn insert_entry(entries: &mut Vec<ListEntry>, entry: ListEntry) -> Result<(), AllocError>
    ensures { OnOk result (entries.new.items ≡ insert_entry entry entries.old.items) }
{
    match place_of(entries, &entry) {
        Some(at) => {
            entries.insert(at, entry)?;
            Ok(())
        }
        None => Ok(()),
    }
}

/// The place at which an entry belongs; `None` if one with its name exists.
fn place_of(entries: &[ListEntry], entry: &ListEntry) -> Option<usize>
    ensures { MatchOption result (insert_entry entry.now entries.now ≡ entries.now)
        (λ at. (at ≤ length entries.now)
        × (insert_entry entry.now entries.now ≡ insert entries.now at entry.now)) }
{
    for at in 0..entries.len() {
        match entry.name.compare(&entries[at].name) {
            Ordering::Less => return Some(at),
            Ordering::Equal => return None,
            Ordering::Greater => {}
        }
    }
    Some(entries.len())
}
