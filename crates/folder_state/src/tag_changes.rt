//! The changes that an operation makes to the tables.

ghost use Rattle.std.specs.Prelude.{◌≡◌, ◌≤◌, ◌<◌, ◌+◌, ℕ, List, [], ◌∷◌, None, Some, not, ◌&&◌};
ghost use Rattle.std.specs.Prelude.{◌||◌, if◌then◌else◌};
ghost use Rattle.std.specs.Map.{lookup};
ghost use Rattle.std.specs.Option.{option_map, option_or};
ghost use Rattle.std.specs.Vec.{vec_capacity};
ghost use Rattle.indexmap.specs.IndexMap.{spare};
ghost use Rattle.tags_clocks.specs.declared.id.OpId.{OpId};
ghost use Rattle.crdt_ops.specs.SortedSets.{same_id};
ghost use Rattle.crdt_ops.specs.Tags.{FolderTag, MessageTag, adds, removes};
ghost use Rattle.crdt_ops.specs.Sets.{tag_data_by, dated_text_from};
ghost use Rattle.folder_state.specs.Keys.{is_among, is_at};
ghost use Rattle.folder_state.specs.FolderTables.{FolderTables, tag_data_in, find_folder};
ghost use Rattle.folder_state.specs.FolderTables.{has_tag_in};
ghost use Rattle.folder_state.specs.OpRoom.{AreNoFuller, HasPlaces, HasRoomFor, HasVersionRoom};
ghost use Rattle.folder_state.specs.OpRoom.{LeavesRoom, LeavesRoomAfter, origin_of_op};
ghost use Rattle.folder_state.specs.OpRoom.{added_version_count, counts_of};
ghost use Rattle.folder_state.specs.MessageRefs.{stored_dated_text};

use crate::folder::Folder;
use crdt_ops::{Kind, Op};
use imap_types::{Flags, Name, Version};
use indexmap::IndexMap;
use mailbox_rows::DatedText;
use tags_clocks::OpId;

/// Removes the tags that the operation removes.
pub fn remove_tags_of(by_name: &mut IndexMap<Vec<u8>, Folder>, op: &Op)
    ensures tags { (f : List ℕ) (i : OpId)
        → has_tag_in (find_folder f by_name.new.entries) i
        ≡ (not (removes (FolderTag f i) op.now)
        && has_tag_in (find_folder f by_name.old.entries) i) }
    ensures tag_data { (f : List ℕ) (i : OpId)
        → tag_data_in (find_folder f by_name.new.entries) i
        ≡ (if removes (MessageTag f i) op.now then None
        else tag_data_in (find_folder f by_name.old.entries) i) }
    ensures room { AreNoFuller by_name.old.entries by_name.new.entries }
{
    match &op.kind {
        Kind::Delete { folder, seen } => remove_both_kinds(by_name, folder, seen.as_slice()),
        Kind::Expunge { folder, old_ids } => remove_message_tags(
            by_name,
            folder,
            old_ids.as_slice(),
        ),
        Kind::Store {
            folder,
            old_ids,
            ..
        } => remove_message_tags(by_name, folder, old_ids.as_slice()),
        Kind::Create { .. } => {}
        Kind::Append { .. } => {}
        Kind::Subscribe { .. } => {}
        Kind::Unsubscribe { .. } => {}
    }
}

/// Removes the folder's tags of both kinds with these ids.
fn remove_both_kinds(by_name: &mut IndexMap<Vec<u8>, Folder>, name: &Name, ids: &[OpId])
    ensures tags { (f : List ℕ) (i : OpId)
        → has_tag_in (find_folder f by_name.new.entries) i
        ≡ (not (is_among f i name.now ids.now)
        && has_tag_in (find_folder f by_name.old.entries) i) }
    ensures tag_data { (f : List ℕ) (i : OpId)
        → tag_data_in (find_folder f by_name.new.entries) i
        ≡ (if is_among f i name.now ids.now then None
        else tag_data_in (find_folder f by_name.old.entries) i) }
    ensures room { AreNoFuller by_name.old.entries by_name.new.entries }
{
    match by_name.get_mut(name.as_bytes()) {
        Some(folder) => folder.remove_ids(ids),
        None => {}
    }
}

/// Removes the folder's message tags with these ids.
fn remove_message_tags(by_name: &mut IndexMap<Vec<u8>, Folder>, name: &Name, ids: &[OpId])
    ensures tags { (f : List ℕ) (i : OpId)
        → has_tag_in (find_folder f by_name.new.entries) i
        ≡ has_tag_in (find_folder f by_name.old.entries) i }
    ensures tag_data { (f : List ℕ) (i : OpId)
        → tag_data_in (find_folder f by_name.new.entries) i
        ≡ (if is_among f i name.now ids.now then None
        else tag_data_in (find_folder f by_name.old.entries) i) }
    ensures room { AreNoFuller by_name.old.entries by_name.new.entries }
{
    match by_name.get_mut(name.as_bytes()) {
        Some(folder) => folder.remove_messages(ids),
        None => {}
    }
}

/// Inserts the tag that the operation adds, and an Append's date and text; there is room for them.
/// If the version's message doesn't exist yet, it begins in `list`, which is empty.
pub fn add_tag_of(
    by_name: &mut IndexMap<Vec<u8>, Folder>,
    dated_texts: &mut IndexMap<OpId, DatedText>,
    op: Op,
    list: Vec<Version>,
)
    requires room { HasRoomFor (op ∷ []) op (λ name. find_folder name by_name.old.entries) }
    requires dated_texts { 0 < spare dated_texts.old }
    requires list { (list.items ≡ [])
        × (counts_of (added_version_count (op ∷ [])) (origin_of_op op.id op.kind)
        ≤ vec_capacity list) }
    ensures tags { (f : List ℕ) (i : OpId)
        → has_tag_in (find_folder f by_name.new.entries) i
        ≡ (adds (FolderTag f i) op || has_tag_in (find_folder f by_name.old.entries) i) }
    ensures tag_data { (f : List ℕ) (i : OpId)
        → tag_data_in (find_folder f by_name.new.entries) i
        ≡ (if adds (MessageTag f i) op then tag_data_by op.id op.kind
        else tag_data_in (find_folder f by_name.old.entries) i) }
    ensures dated_texts { (i : OpId)
        → option_map stored_dated_text (lookup (same_id i) dated_texts.new.entries)
        ≡ option_or (dated_text_from i op)
        (option_map stored_dated_text (lookup (same_id i) dated_texts.old.entries)) }
    ensures dated_texts_room { spare dated_texts.old ≤ spare dated_texts.new + 1 }
    ensures room { LeavesRoomAfter op (vec_capacity list)
        (λ name. find_folder name by_name.old.entries)
        (λ name. find_folder name by_name.new.entries) }
{
    let Op { id, clock: _, kind } = op;
    match kind {
        Kind::Create { folder } => put_tag(by_name, &folder, &id),
        Kind::Expunge { folder, .. } => put_tag(by_name, &folder, &id),
        Kind::Append {
            folder,
            flags,
            date,
            text,
        } => {
            put_append_tag(by_name, &folder, &id, flags, list);
            put_dated_text(dated_texts, &id, DatedText { date, text });
        }
        Kind::Store {
            folder,
            flags,
            origin,
            ..
        } => put_message(by_name, &folder, &origin, Version { id, flags }, list),
        Kind::Delete { .. } => {}
        Kind::Subscribe { .. } => {}
        Kind::Unsubscribe { .. } => {}
    }
}

/// Inserts a folder tag, for which there is room.
fn put_tag(by_name: &mut IndexMap<Vec<u8>, Folder>, name: &Name, id: &OpId)
    requires { (folder : FolderTables)
        × (find_folder name.now by_name.old.entries ≡ Some folder)
        × HasPlaces folder None 1 }
    ensures tags { (f : List ℕ) (i : OpId)
        → has_tag_in (find_folder f by_name.new.entries) i
        ≡ (is_at f i name.now id.now || has_tag_in (find_folder f by_name.old.entries) i) }
    ensures tag_data { (f : List ℕ) (i : OpId)
        → tag_data_in (find_folder f by_name.new.entries) i
        ≡ tag_data_in (find_folder f by_name.old.entries) i }
    ensures room { LeavesRoom name.now None 0 (λ n. find_folder n by_name.old.entries)
        (λ n. find_folder n by_name.new.entries) }
{
    match by_name.get_mut(name.as_bytes()) {
        Some(folder) => folder.put_tag(id),
        None => unreachable!(),
    }
}

/// Inserts a message tag, for which there is room, in place of one with its folder and id.
fn put_message(
    by_name: &mut IndexMap<Vec<u8>, Folder>,
    name: &Name,
    origin: &OpId,
    version: Version,
    list: Vec<Version>,
)
    requires room { (folder : FolderTables)
        × (find_folder name.now by_name.old.entries ≡ Some folder)
        × HasPlaces folder (Some origin.now) 1
        × HasVersionRoom folder.messages origin.now 1 }
    requires list { (list.items ≡ []) × (1 ≤ vec_capacity list) }
    ensures tags { (f : List ℕ) (i : OpId)
        → has_tag_in (find_folder f by_name.new.entries) i
        ≡ has_tag_in (find_folder f by_name.old.entries) i }
    ensures tag_data { (f : List ℕ) (i : OpId)
        → tag_data_in (find_folder f by_name.new.entries) i
        ≡ (if is_at f i name.now version.id
        then Some (record { flags = version.flags; origin = origin.now })
        else tag_data_in (find_folder f by_name.old.entries) i) }
    ensures room { LeavesRoom name.now (Some origin.now) (vec_capacity list)
        (λ n. find_folder n by_name.old.entries) (λ n. find_folder n by_name.new.entries) }
{
    match by_name.get_mut(name.as_bytes()) {
        Some(folder) => folder.put_message(origin, version, list),
        None => unreachable!(),
    }
}

/// Inserts the message tag of an Append, which is its own origin.
fn put_append_tag(
    by_name: &mut IndexMap<Vec<u8>, Folder>,
    name: &Name,
    id: &OpId,
    flags: Flags,
    list: Vec<Version>,
)
    requires room { (folder : FolderTables)
        × (find_folder name.now by_name.old.entries ≡ Some folder)
        × HasPlaces folder (Some id.now) 1
        × HasVersionRoom folder.messages id.now 1 }
    requires list { (list.items ≡ []) × (1 ≤ vec_capacity list) }
    ensures tags { (f : List ℕ) (i : OpId)
        → has_tag_in (find_folder f by_name.new.entries) i
        ≡ has_tag_in (find_folder f by_name.old.entries) i }
    ensures tag_data { (f : List ℕ) (i : OpId)
        → tag_data_in (find_folder f by_name.new.entries) i
        ≡ (if is_at f i name.now id.now then Some (record { flags = flags; origin = id.now })
        else tag_data_in (find_folder f by_name.old.entries) i) }
    ensures room { LeavesRoom name.now (Some id.now) (vec_capacity list)
        (λ n. find_folder n by_name.old.entries) (λ n. find_folder n by_name.new.entries) }
{
    put_message(by_name, name, id, Version { id: *id, flags }, list);
}

/// Inserts a date and text, for which there is room, in place of those with its id.
fn put_dated_text(dated_texts: &mut IndexMap<OpId, DatedText>, id: &OpId, dated: DatedText)
    requires { 0 < spare dated_texts.old }
    ensures updated { (i : OpId)
        → option_map stored_dated_text (lookup (same_id i) dated_texts.new.entries)
        ≡ (if same_id i id.now then Some (record { date = dated.date; text = dated.text })
        else option_map stored_dated_text (lookup (same_id i) dated_texts.old.entries)) }
    ensures room { spare dated_texts.old ≤ spare dated_texts.new + 1 }
{
    if dated_texts.insert(*id, dated).is_err() {
        unreachable!();
    }
}
