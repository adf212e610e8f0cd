//! Which tags a folder has, and which it will have after pending operations.

ghost use Rattle.std.specs.Prelude.{◌≡◌, ◌↔◌, ◌&&◌, ◌||◌, false, None, Some, MatchOption, length};
ghost use Rattle.std.specs.Prelude.{not, if◌then◌else◌};
ghost use Rattle.std.specs.Bool.{MatchBool};
ghost use Rattle.std.specs.List.{list_any, slice_get};
ghost use Rattle.std.specs.Option.{option_copied, option_map};
ghost use Rattle.tags_clocks.specs.declared.id.OpId.{OpId};
ghost use Rattle.merge_laws.specs.Orders.{IsIn};
ghost use Rattle.imap_types.specs.Unions.{version_ids};
ghost use Rattle.crdt_ops.specs.SortedSets.{is_some_id, same_id};
ghost use Rattle.crdt_ops.specs.Tags.{FolderTag, MessageTag, adds, removes};
ghost use Rattle.folder_state.specs.Contents.{Contents, origin_in};
ghost use Rattle.folder_state.specs.Keys.{is_among, is_at};
ghost use Rattle.folder_state.specs.FolderTables.{HasTagIn, tag_data_in, has_tag_in};
ghost use Rattle.folder_state.specs.FolderTables.{folder_tag_data, ids_in, versions_in};
ghost use Rattle.folder_state.specs.AfterOps.{contents_after, contents_of_folder, has_tag_after};
ghost use Rattle.folder_state.specs.AfterOps.{is_version, op_adds_lasting_version};
ghost use Rattle.folder_state.specs.OpRoom.{origin_of_op};

use crate::folder::Folder;
use crdt_ops::{Kind, Op, SoundOp};
use imap_types::{Name, Version};
use tags_clocks::OpId;

/// Whether the folder has a tag of either kind.
pub fn has_tags(folder: Option<&Folder>) -> bool
    ensures { MatchBool result
        ((i : OpId) × HasTagIn (folder_tag_data (option_copied folder.entry)) i)
        ((i : OpId) → HasTagIn (folder_tag_data (option_copied folder.entry)) i → ⊥) }
{
    match folder {
        Some(folder) => !folder.is_empty(),
        None => false,
    }
}

/// Whether the origin has a version in the folder.
pub fn has_versions(folder: Option<&Folder>, origin: &OpId) -> bool
    ensures { MatchBool result
        ((i : OpId)
        × (option_map (λ content. content.origin) (tag_data_in (option_copied folder.entry) i)
        ≡ Some origin.now))
        ((i : OpId)
        → option_map (λ content. content.origin) (tag_data_in (option_copied folder.entry) i)
        ≡ Some origin.now → ⊥) }
{
    match folder {
        Some(folder) => folder.has_versions(origin),
        None => false,
    }
}

/// Whether the operation adds the folder tag of this folder and id.
fn adds_tag(op: &Op, folder: &Name, id: OpId) -> bool
    ensures { result ≡ adds (FolderTag folder.now id) op.now }
{
    match &op.kind {
        Kind::Create { folder: own } => is_at(folder, id, own, op.id),
        Kind::Expunge { folder: own, .. } => is_at(folder, id, own, op.id),
        _ => false,
    }
}

/// Whether the operation removes the folder tag of this folder and id.
fn removes_tag(op: &Op, folder: &Name, id: OpId) -> bool
    ensures { result ≡ removes (FolderTag folder.now id) op.now }
{
    match &op.kind {
        Kind::Delete { folder: own, seen } => is_among(folder, id, own, seen.as_slice()),
        Kind::Create { .. } => false,
        Kind::Append { .. } => false,
        Kind::Expunge { .. } => false,
        Kind::Store { .. } => false,
        Kind::Subscribe { .. } => false,
        Kind::Unsubscribe { .. } => false,
    }
}

/// Whether the operation adds the message tag of this folder and id.
fn adds_message(op: &Op, folder: &Name, id: OpId) -> bool
    ensures { result ≡ adds (MessageTag folder.now id) op.now }
{
    match &op.kind {
        Kind::Append { folder: own, .. } => is_at(folder, id, own, op.id),
        Kind::Store { folder: own, .. } => is_at(folder, id, own, op.id),
        _ => false,
    }
}

/// Whether the operation removes the message tag of this folder and id.
fn removes_message(op: &Op, folder: &Name, id: OpId) -> bool
    ensures { result ≡ removes (MessageTag folder.now id) op.now }
{
    match &op.kind {
        Kind::Delete { folder: own, seen } => is_among(folder, id, own, seen.as_slice()),
        Kind::Expunge {
            folder: own,
            old_ids,
        } => is_among(folder, id, own, old_ids.as_slice()),
        Kind::Store {
            folder: own,
            old_ids,
            ..
        } => is_among(folder, id, own, old_ids.as_slice()),
        Kind::Create { .. } => false,
        Kind::Append { .. } => false,
        Kind::Subscribe { .. } => false,
        Kind::Unsubscribe { .. } => false,
    }
}

/// Whether the folder tag is present after the operation, given whether it was before.
fn tag_after_op(op: &Op, folder: &Name, id: &OpId, before: bool) -> bool
    ensures { result
        ≡ (adds (FolderTag folder.now id.now) op.now
        || (not (removes (FolderTag folder.now id.now) op.now) && before)) }
{
    adds_tag(op, folder, *id) || (!removes_tag(op, folder, *id) && before)
}

/// Whether the folder tag is present after these operations, given whether it is now.
fn tag_after(ops: &[SoundOp], folder: &Name, id: &OpId, now: bool) -> bool
    ensures { (c : Contents)
        → c.tags folder.now id.now ≡ now
        → result ≡ (contents_after c ops.now).tags folder.now id.now }
{
    let mut present = now;
    for op in ops {
        present = tag_after_op(op.op(), folder, id, present);
    }
    present
}

/// The origin of the message tag after the operation, given its origin before; None if absent.
fn origin_after_op(op: &Op, folder: &Name, id: &OpId, before: Option<OpId>) -> Option<OpId>
    ensures { result
        ≡ (if adds (MessageTag folder.now id.now) op.now then origin_of_op op.now.id op.now.kind
        else (if removes (MessageTag folder.now id.now) op.now then None else before)) }
{
    if adds_message(op, folder, *id) {
        return origin_of_op(op);
    }
    if removes_message(op, folder, *id) {
        return None;
    }
    before
}

/// The origin of the version that the operation adds, if it adds one.
pub fn origin_of_op(op: &Op) -> Option<OpId>
    ensures { result ≡ origin_of_op op.now.id op.now.kind }
{
    match &op.kind {
        Kind::Append { .. } => Some(op.id),
        Kind::Store { origin, .. } => Some(*origin),
        _ => None,
    }
}

/// The origin of the message tag after these operations, given its origin now; None if absent.
fn origin_after(ops: &[SoundOp], folder: &Name, id: &OpId, now: Option<OpId>) -> Option<OpId>
    ensures { (c : Contents)
        → origin_in c folder.now id.now ≡ now
        → result ≡ origin_in (contents_after c ops.now) folder.now id.now }
{
    let mut origin = now;
    for op in ops {
        origin = origin_after_op(op.op(), folder, id, origin);
    }
    origin
}

/// Whether the folder tag with this id is present.
fn has_tag_at(table: Option<&Folder>, id: &OpId) -> bool
    ensures { result ≡ has_tag_in (option_copied table.entry) id.now }
{
    match table {
        Some(folder) => folder.has_tag(id),
        None => false,
    }
}

/// The origin of the message tag with this id, if it is present.
fn origin_at(table: Option<&Folder>, id: &OpId) -> Option<OpId>
    ensures { result
        ≡ option_map (λ content. content.origin) (tag_data_in (option_copied table.entry) id.now) }
{
    match table {
        Some(folder) => folder.origin_of(id),
        None => None,
    }
}

/// The number of the folder's tags, of both kinds.
fn count_of_tags(table: Option<&Folder>) -> usize
    ensures count { result ≡ length (ids_in (option_copied table.entry)) }
    ensures ids { (i : OpId)
        → IsIn i (ids_in (option_copied table.entry))
        ↔ HasTagIn (folder_tag_data (option_copied table.entry)) i }
{
    match table {
        Some(folder) => folder.count(),
        None => 0,
    }
}

/// The id of the folder's tag at `place`, if it has that many tags.
fn id_in(table: Option<&Folder>, place: usize) -> Option<OpId>
    ensures { result ≡ slice_get (ids_in (option_copied table.entry)) place }
{
    match table {
        Some(folder) => folder.id_at(place),
        None => None,
    }
}

/// Whether the folder has a tag with this id after these operations.
fn has_tag_after(table: Option<&Folder>, folder: &Name, id: &OpId, ops: &[SoundOp]) -> bool
    ensures { result
        ≡ has_tag_after (contents_of_folder (option_copied table.entry)) ops.now folder.now id.now }
{
    tag_after(ops, folder, id, has_tag_at(table, id))
        || origin_after(ops, folder, id, origin_at(table, id)).is_some()
}

/// Whether the folder has any tag after these operations. Looks only at its present tags and those
/// that the operations add.
pub fn has_tag_after_all(table: Option<&Folder>, folder: &Name, ops: &[SoundOp]) -> bool
    ensures ids { (i : OpId)
        → IsIn i (ids_in (option_copied table.entry))
        ↔ HasTagIn (folder_tag_data (option_copied table.entry)) i }
    ensures left { result
        ≡ (list_any
        (λ i. has_tag_after (contents_of_folder (option_copied table.entry)) ops.now folder.now i)
        (ids_in (option_copied table.entry))
        || list_any
        (λ o. has_tag_after (contents_of_folder (option_copied table.entry)) ops.now folder.now
        o.id) ops.now) }
{
    any_stored_left(table, folder, ops) || any_added_left(table, folder, ops)
}

/// Whether a tag with the id of a present tag remains.
fn any_stored_left(table: Option<&Folder>, folder: &Name, ops: &[SoundOp]) -> bool
    ensures ids { (i : OpId)
        → IsIn i (ids_in (option_copied table.entry))
        ↔ HasTagIn (folder_tag_data (option_copied table.entry)) i }
    ensures left { result
        ≡ list_any
        (λ i. has_tag_after (contents_of_folder (option_copied table.entry)) ops.now folder.now i)
        (ids_in (option_copied table.entry)) }
{
    let count = count_of_tags(table);
    for place in 0..count {
        if is_left_at(table, folder, ops, place) {
            return true;
        }
    }
    false
}

/// Whether a tag with the id of the present tag at `place` remains.
fn is_left_at(table: Option<&Folder>, folder: &Name, ops: &[SoundOp], place: usize) -> bool
    ensures { MatchOption (slice_get (ids_in (option_copied table.entry)) place) (result ≡ false)
        (λ i. result
        ≡ has_tag_after (contents_of_folder (option_copied table.entry)) ops.now folder.now i) }
{
    match id_in(table, place) {
        Some(id) => has_tag_after(table, folder, &id, ops),
        None => false,
    }
}

/// Whether a tag of the folder with the id of one of these operations remains.
fn any_added_left(table: Option<&Folder>, folder: &Name, ops: &[SoundOp]) -> bool
    ensures { result
        ≡ list_any
        (λ o. has_tag_after (contents_of_folder (option_copied table.entry)) ops.now folder.now
        o.id) ops.now }
{
    for op in ops {
        if has_tag_after(table, folder, &op.op().id, ops) {
            return true;
        }
    }
    false
}

/// Whether the id is that of a version of the origin after the operations.
fn is_version_after(
    table: Option<&Folder>,
    folder: &Name,
    origin: &OpId,
    id: &OpId,
    ops: &[SoundOp],
) -> bool
    ensures { result
        ≡ is_version (contents_after (contents_of_folder (option_copied table.entry)) ops.now)
        folder.now origin.now id.now }
{
    is_id(origin, origin_after(ops, folder, id, origin_at(table, id)))
}

/// Whether there is a second id, and it equals the first.
fn is_id(id: &OpId, given: Option<OpId>) -> bool
    ensures { result ≡ is_some_id id.now given }
{
    match given {
        Some(other) => *id == other,
        None => false,
    }
}

/// Whether the origin has a version in the folder after these operations. Looks only at its present
/// versions and those that the operations add.
pub fn has_version_after_all(
    table: Option<&Folder>,
    folder: &Name,
    origin: &OpId,
    ops: &[SoundOp],
) -> bool
    ensures versions { (i : OpId)
        → IsIn i (version_ids (versions_in (option_copied table.entry) origin.now))
        ↔ (option_map (λ content. content.origin) (tag_data_in (option_copied table.entry) i)
        ≡ Some origin.now) }
    ensures left { result
        ≡ (list_any
        (λ version. is_version
        (contents_after (contents_of_folder (option_copied table.entry)) ops.now) folder.now
        origin.now version.id) (versions_in (option_copied table.entry) origin.now)
        || list_any
        (op_adds_lasting_version (option_copied table.entry) ops.now folder.now origin.now)
        ops.now) }
{
    has_lasting_version(table, folder, origin, ops)
        || adds_lasting_version(table, folder, origin, ops)
}

/// Whether one of the origin's present versions remains.
fn has_lasting_version(
    table: Option<&Folder>,
    folder: &Name,
    origin: &OpId,
    ops: &[SoundOp],
) -> bool
    ensures versions { (i : OpId)
        → IsIn i (version_ids (versions_in (option_copied table.entry) origin.now))
        ↔ (option_map (λ content. content.origin) (tag_data_in (option_copied table.entry) i)
        ≡ Some origin.now) }
    ensures left { result
        ≡ list_any
        (λ version. is_version
        (contents_after (contents_of_folder (option_copied table.entry)) ops.now) folder.now
        origin.now version.id) (versions_in (option_copied table.entry) origin.now) }
{
    match table {
        Some(stored) => any_left(table, stored.versions_at(origin), folder, origin, ops),
        None => false,
    }
}

/// Whether one of these versions remains.
fn any_left(
    table: Option<&Folder>,
    versions: &[Version],
    folder: &Name,
    origin: &OpId,
    ops: &[SoundOp],
) -> bool
    ensures { result
        ≡ list_any
        (λ version. is_version
        (contents_after (contents_of_folder (option_copied table.entry)) ops.now) folder.now
        origin.now version.id) versions.now }
{
    for version in versions {
        if is_version_after(table, folder, origin, &version.id, ops) {
            return true;
        }
    }
    false
}

/// Whether one of the operations adds a version that remains after all of them.
fn adds_lasting_version(
    table: Option<&Folder>,
    folder: &Name,
    origin: &OpId,
    ops: &[SoundOp],
) -> bool
    ensures { result
        ≡ list_any
        (op_adds_lasting_version (option_copied table.entry) ops.now folder.now origin.now)
        ops.now }
{
    for op in ops {
        if op_adds_lasting_version(table, folder, origin, op.op(), ops) {
            return true;
        }
    }
    false
}

/// Whether this operation adds a version of the origin that remains after all operations.
fn op_adds_lasting_version(
    table: Option<&Folder>,
    folder: &Name,
    origin: &OpId,
    op: &Op,
    ops: &[SoundOp],
) -> bool
    ensures { result
        ≡ op_adds_lasting_version (option_copied table.entry) ops.now folder.now origin.now op.now }
{
    is_id(origin, origin_of_op(op)) && is_version_after(table, folder, origin, &op.id, ops)
}

/// Whether a tag's folder and id are these.
fn is_at(folder: &Name, id: OpId, other: &Name, other_id: OpId) -> bool
    ensures { result ≡ is_at folder.now id other.now other_id }
{
    folder.as_bytes() == other.as_bytes() && id == other_id
}

/// Whether a tag's folder is this one, and its id one of these.
fn is_among(folder: &Name, id: OpId, other: &Name, ids: &[OpId]) -> bool
    ensures { result ≡ is_among folder.now id other.now ids.now }
{
    folder.as_bytes() == other.as_bytes() && contains_id(ids, id)
}

/// Whether the id is one of these.
fn contains_id(ids: &[OpId], id: OpId) -> bool
    ensures { result ≡ list_any (same_id id) ids.now }
{
    ids.iter().any(|other| id == *other)
}
