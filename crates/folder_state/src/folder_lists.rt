//! Lists of names and ids made from the tables.

ghost use Rattle.std.specs.Prelude.{◌≡◌, ◌∷◌, ℕ, true, Some, IfOk, IfSome, OnOk, MatchOption, []};
ghost use Rattle.std.specs.Prelude.{if◌then◌else◌};
ghost use Rattle.std.specs.Global.{Vec as Key};
ghost use Rattle.std.specs.List.{cons_option, filter_map, fold, slice_get};
ghost use Rattle.std.specs.Option.{option_copied, option_map};
ghost use Rattle.std.specs.Str.{bytes_eq};
ghost use Rattle.imap_types.specs.Ascending.{octet_order};
ghost use Rattle.imap_types.specs.Names.{inbox};
ghost use Rattle.merge_laws.specs.Orders.{IsIn};
ghost use Rattle.crdt_ops.specs.SortedSets.{IsAscending, IsListOf, id_order, sorted_set};
ghost use Rattle.crdt_ops.specs.SortedSets.{insert_ordered};
ghost use Rattle.imap_types.specs.Unions.{version_ids};
ghost use Rattle.folder_state.specs.FolderTables.{AreIndexed, HasTagIn, IsIndexedFolder};
ghost use Rattle.folder_state.specs.FolderTables.{FolderTables, tag_data_in, folder_contents};
ghost use Rattle.folder_state.specs.FolderTables.{name_if_tagged, has_ids, has_tag_in};
ghost use Rattle.folder_state.specs.FolderTables.{folder_tag_data};

use crate::folder::Folder;
use crdt_ops::{Ids, insert_name};
use imap_types::{Name, Version};
use indexmap::IndexMap;
use std::alloc::{AllocError, Global};
use tags_clocks::OpId;

/// Whether the name is INBOX in capitals.
pub fn is_inbox(name: &Name) -> bool
    ensures { result ≡ bytes_eq name.now inbox }
{
    name.as_bytes() == b"INBOX".as_slice()
}

/// INBOX and the names of the folders with tags, strictly ascending; `Err` if memory runs out.
pub fn folder_names(
    alloc: Global,
    by_name: &IndexMap<Vec<u8>, Folder>,
) -> Result<Vec<Name>, AllocError>
    ensures names { IfOk result (λ names. names.items
        ≡ sorted_set octet_order (inbox ∷ filter_map name_if_tagged by_name.now.entries)) }
    ensures known { OnOk result ((entry : Key ℕ × FolderTables) → IsIn entry by_name.now.entries
        → IsIndexedFolder by_name.now.entries entry) }
{
    let mut names = Vec::new(alloc);
    insert_name(alloc, &mut names, &Name::inbox(alloc)?)?;
    for place in 0..by_name.len() {
        insert_folder_name(alloc, &mut names, by_name, place)?;
    }
    Ok(names)
}

/// Inserts the name of the folder at `place` among ascending names, if it has tags; `Err` if memory
/// runs out.
fn insert_folder_name(
    alloc: Global,
    names: &mut Vec<Name>,
    by_name: &IndexMap<Vec<u8>, Folder>,
    place: usize,
) -> Result<(), AllocError>
    ensures known { IfSome (slice_get by_name.now.entries place)
        (IsIndexedFolder by_name.now.entries) }
    ensures names { MatchOption (slice_get by_name.now.entries place)
        (OnOk result (names.new.items ≡ names.old.items))
        (λ entry. OnOk result (names.new.items
        ≡ fold (λ done name. insert_ordered octet_order name done) names.old.items
        (cons_option (name_if_tagged entry) []))) }
{
    match by_name.get_index(place) {
        Some((name, folder)) => insert_if_tagged(alloc, names, name.as_slice(), folder),
        None => Ok(()),
    }
}

/// Inserts the folder's name among ascending names, if it has tags; `Err` if memory runs out.
fn insert_if_tagged(
    alloc: Global,
    names: &mut Vec<Name>,
    name: &[u8],
    folder: &Folder,
) -> Result<(), AllocError>
    ensures indexed { AreIndexed folder.now.messages folder.now.origins }
    ensures names { OnOk result (names.new.items
        ≡ (if has_ids folder.now then insert_ordered octet_order name.now names.old.items
        else names.old.items)) }
{
    let _messages = folder.messages();
    if folder.is_empty() {
        return Ok(());
    }
    insert_name(alloc, names, &Name::from_slice(alloc, name)?)
}

/// The ids of the folder's folder tags, ascending; `Err` if memory runs out.
pub fn tag_ids(alloc: Global, folder: Option<&Folder>) -> Result<Ids, AllocError>
    ensures { IfOk result
        (λ ids. IsListOf id_order (λ i. has_tag_in (option_copied folder.entry) i ≡ true) ids) }
{
    match folder {
        Some(folder) => tag_ids_of(alloc, folder),
        None => Ok(Ids::none(alloc)),
    }
}

fn tag_ids_of(alloc: Global, folder: &Folder) -> Result<Ids, AllocError>
    ensures { IfOk result
        (λ ids. IsListOf id_order (λ i. (folder_contents folder.now).tags i ≡ true) ids) }
{
    let ids = ids_in_order(alloc, folder.tags())?;
    Ok(ids)
}

/// The ids of the folder's tags of both kinds, ascending; `Err` if memory runs out.
pub fn all_ids(alloc: Global, folder: Option<&Folder>) -> Result<Ids, AllocError>
    ensures { IfOk result
        (λ ids. IsListOf id_order (HasTagIn (folder_tag_data (option_copied folder.entry))) ids) }
{
    match folder {
        Some(folder) => all_ids_of(alloc, folder),
        None => Ok(Ids::none(alloc)),
    }
}

fn all_ids_of(alloc: Global, folder: &Folder) -> Result<Ids, AllocError>
    ensures { IfOk result (λ ids. IsListOf id_order (HasTagIn (folder_contents folder.now)) ids) }
{
    let list = folder.ids(alloc)?;
    let ids = ids_in_order(alloc, &list)?;
    Ok(ids)
}

/// The ids of the origin's versions in the folder, ascending; `Err` if memory runs out.
pub fn version_ids(alloc: Global, folder: Option<&Folder>, origin: &OpId) -> Result<Ids, AllocError>
    ensures { IfOk result (λ ids. IsListOf id_order
        (λ i. option_map (λ content. content.origin) (tag_data_in (option_copied folder.entry) i)
        ≡ Some origin.now) ids) }
{
    match folder {
        Some(folder) => version_ids_of(alloc, folder, origin),
        None => Ok(Ids::none(alloc)),
    }
}

fn version_ids_of(alloc: Global, folder: &Folder, origin: &OpId) -> Result<Ids, AllocError>
    ensures { IfOk result (λ ids. IsListOf id_order
        (λ i. option_map (λ content. content.origin) ((folder_contents folder.now).tag_data i)
        ≡ Some origin.now) ids) }
{
    match folder.versions_of(origin) {
        Some(versions) => ids_of(alloc, versions),
        None => Ok(Ids::none(alloc)),
    }
}

/// The ids of these versions, which ascend; `Err` if memory runs out.
pub fn ids_of(alloc: Global, versions: &[Version]) -> Result<Ids, AllocError>
    requires { IsAscending id_order (version_ids versions.now) }
    ensures { IfOk result (λ ids. ids ≡ version_ids versions.now) }
{
    let mut ids = Vec::with_capacity(alloc, versions.len())?;
    for version in versions {
        ids.push(version.id)?;
    }
    match Ids::new(ids) {
        Ok(ids) => Ok(ids),
        Err(_) => unreachable!(),
    }
}

/// These ids, distinct and ascending; `Err` if memory runs out.
pub fn ids_in_order(alloc: Global, list: &[OpId]) -> Result<Ids, AllocError>
    ensures { IfOk result (λ ids. IsListOf id_order (λ i. IsIn i list.now) ids) }
{
    let mut ids = Ids::none(alloc);
    for id in list {
        ids.insert(*id)?;
    }
    Ok(ids)
}
