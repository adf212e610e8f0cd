//! Making room for operations in folders.

ghost use Rattle.std.specs.Prelude.{◌≡◌, ◌≤◌, ◌∷◌, ℕ, List, [], None, Some, IfOk, OnOk};
ghost use Rattle.std.specs.Vec.{vec_capacity};
ghost use Rattle.indexmap.specs.IndexMap.{spare};
ghost use Rattle.tags_clocks.specs.declared.id.OpId.{OpId};
ghost use Rattle.merge_laws.specs.Orders.{IsIn};
ghost use Rattle.crdt_ops.specs.declared.op.Op.{Op};
ghost use Rattle.folder_state.specs.FolderTables.{FolderTables, find_folder};
ghost use Rattle.folder_state.specs.OpRoom.{AreRoomier, AreRoomierLists, HasPlaces, HasRoomAt};
ghost use Rattle.folder_state.specs.OpRoom.{HasRoomFor, HasVersionPlaces, HasVersionRoom};
ghost use Rattle.folder_state.specs.OpRoom.{HaveLists, IsRoomier, count_at, count_of_name};
ghost use Rattle.folder_state.specs.OpRoom.{origin_of_op, added_tag_count, target};
ghost use Rattle.folder_state.specs.OpRoom.{added_version_count, counts_of};

use crate::after_ops::origin_of_op;
use crate::folder::Folder;
use crate::tag_counts::{TagCounts, target};
use crdt_ops::{Op, SoundOp};
use imap_types::Version;
use indexmap::IndexMap;
use std::alloc::{AllocError, Global};
use std::collections::VecDeque;
use tags_clocks::OpId;

/// An empty list for each operation, with room for the versions of its origin that all of the
/// operations add; `Err` if memory runs out.
pub fn empty_lists(
    alloc: Global,
    ops: &[SoundOp],
    tag_counts: &TagCounts,
) -> Result<VecDeque<Vec<Version>>, AllocError>
    requires { (origin : OpId)
        → count_at origin tag_counts.now.versions ≡ added_version_count ops.now origin }
    ensures { IfOk result (λ lists. HaveLists ops.now lists.items) }
{
    let mut lists = VecDeque::new(alloc);
    for op in ops {
        lists.push_back(empty_list(alloc, op.op(), tag_counts)?)?;
    }
    Ok(lists)
}

/// An empty list with room for the counted versions of the operation's origin; `Err` if memory runs
/// out.
fn empty_list(alloc: Global, op: &Op, tag_counts: &TagCounts) -> Result<Vec<Version>, AllocError>
    ensures items { IfOk result (λ list. list.items ≡ []) }
    ensures capacity { IfOk result (λ list. counts_of (λ o. count_at o tag_counts.now.versions)
        (origin_of_op op.now.id op.now.kind) ≤ vec_capacity list) }
{
    let list = Vec::with_capacity(alloc, tag_counts.versions_of(&origin_of_op(op)))?;
    Ok(list)
}

/// Makes room in each folder for the tags that the operations add to it, and in each of its
/// messages for the versions. A new folder gets a table. `Err` if memory runs out; no tag changes.
/// Cost: a few look-ups per operation.
pub fn reserve_folders(
    alloc: Global,
    by_name: &mut IndexMap<Vec<u8>, Folder>,
    ops: &[SoundOp],
    tag_counts: &TagCounts,
) -> Result<(), AllocError>
    requires tags { (name : List ℕ)
        → count_of_name name tag_counts.now.tags ≡ added_tag_count ops.now name }
    requires versions { (origin : OpId)
        → count_at origin tag_counts.now.versions ≡ added_version_count ops.now origin }
    ensures roomier { AreRoomier by_name.old.entries by_name.new.entries }
    ensures rooms { OnOk result ((o : Op) → IsIn o ops.now
        → HasRoomFor ops.now o (λ name. find_folder name by_name.new.entries)) }
{
    for op in ops {
        reserve_for(alloc, by_name, op.op(), tag_counts)?;
    }
    Ok(())
}

/// Makes room for one operation, as `reserve_folders` does for several. Cost: at most two look-ups.
pub fn reserve_one(
    alloc: Global,
    by_name: &mut IndexMap<Vec<u8>, Folder>,
    op: &Op,
) -> Result<(), AllocError>
    ensures roomier { AreRoomier by_name.old.entries by_name.new.entries }
    ensures room { OnOk result
        (HasRoomFor (op.now ∷ []) op.now (λ name. find_folder name by_name.new.entries)) }
{
    match target(op) {
        Some(name) => reserve_in(alloc, by_name, name.as_bytes(), 1, &origin_of_op(op), 1),
        None => Ok(()),
    }
}

/// Makes the room that `tag_counts` counts, in the folder of the operation's tag and its message.
fn reserve_for(
    alloc: Global,
    by_name: &mut IndexMap<Vec<u8>, Folder>,
    op: &Op,
    tag_counts: &TagCounts,
) -> Result<(), AllocError>
    ensures roomier { AreRoomier by_name.old.entries by_name.new.entries }
    ensures ok { OnOk result (HasRoomAt (λ n. count_of_name n tag_counts.now.tags)
        (λ o. count_at o tag_counts.now.versions) (origin_of_op op.now.id op.now.kind)
        (target op.now.kind) (λ name. find_folder name by_name.new.entries)) }
{
    let origin = origin_of_op(op);
    match target(op) {
        Some(name) => reserve_in(
            alloc,
            by_name,
            name.as_bytes(),
            tag_counts.tags_of(name),
            &origin,
            tag_counts.versions_of(&origin),
        ),
        None => Ok(()),
    }
}

/// Makes room for `tags` further tags in the folder, which gets a table if it has none, and for
/// `versions` further versions in the message of the origin, if it exists.
fn reserve_in(
    alloc: Global,
    by_name: &mut IndexMap<Vec<u8>, Folder>,
    name: &[u8],
    tags: usize,
    origin: &Option<OpId>,
    versions: usize,
) -> Result<(), AllocError>
    ensures roomier { AreRoomier by_name.old.entries by_name.new.entries }
    ensures ok { OnOk result ((folder : FolderTables)
        × (find_folder name.now by_name.new.entries ≡ Some folder)
        × HasPlaces folder origin.now tags × HasVersionPlaces folder origin.now versions) }
{
    match by_name.get_mut(name) {
        Some(folder) => folder.reserve(tags, origin, versions),
        None => put_folder(alloc, by_name, name, tags, origin),
    }
}

/// Inserts the table of a new folder, with room for `tags` tags and, if there is an origin, for as
/// many messages.
fn put_folder(
    alloc: Global,
    by_name: &mut IndexMap<Vec<u8>, Folder>,
    name: &[u8],
    tags: usize,
    origin: &Option<OpId>,
) -> Result<(), AllocError>
    requires { find_folder name.now by_name.old.entries ≡ None }
    ensures roomier { AreRoomier by_name.old.entries by_name.new.entries }
    ensures ok { OnOk result ((folder : FolderTables)
        × (find_folder name.now by_name.new.entries ≡ Some folder)
        × HasPlaces folder origin.now tags × (folder.messages ≡ [])) }
{
    let folder = Folder::with_room(alloc, tags, origin)?;
    let key = name.to_vec(alloc)?;
    if by_name.insert(key, folder).is_err() {
        return Err(AllocError);
    }
    Ok(())
}

impl Folder {
    /// A folder without tags, with room for `tags` of them and, if there is an origin, for as many
    /// messages; `Err` if memory runs out.
    fn with_room(alloc: Global, tags: usize, origin: &Option<OpId>) -> Result<Folder, AllocError>
        ensures empty { IfOk result
            (λ folder. (folder.tags ≡ []) × (folder.messages ≡ []) × (folder.origins ≡ [])) }
        ensures room { IfOk result (λ folder. HasPlaces folder origin.now tags) }
    {
        let mut folder = Folder::new(alloc);
        folder.reserve_places(tags, origin)?;
        Ok(folder)
    }

    /// Makes room for `tags` further tags and, if there is an origin, for as many messages, and for
    /// `versions` further versions in the origin's message, if it exists. `Err` if memory runs out:
    /// no tag changes.
    fn reserve(
        &mut self,
        tags: usize,
        origin: &Option<OpId>,
        versions: usize,
    ) -> Result<(), AllocError>
        ensures roomier { IsRoomier self.old self.new }
        ensures ok { OnOk result
            (HasPlaces self.new origin.now tags × HasVersionPlaces self.new origin.now versions) }
    {
        self.reserve_places(tags, origin)?;
        match origin {
            Some(origin) => reserve_versions(&mut self.messages, origin, versions),
            None => Ok(()),
        }
    }

    /// Makes room for `tags` further tags and, if there is an origin, for as many messages.
    fn reserve_places(&mut self, tags: usize, origin: &Option<OpId>) -> Result<(), AllocError>
        ensures same { (self.new.tags ≡ self.old.tags)
            × (self.new.messages ≡ self.old.messages)
            × (self.new.origins ≡ self.old.origins) }
        ensures grown { (self.old.spare_tags ≤ self.new.spare_tags)
            × (self.old.spare_messages ≤ self.new.spare_messages)
            × (self.old.spare_origins ≤ self.new.spare_origins) }
        ensures ok { OnOk result (HasPlaces self.new origin.now tags) }
    {
        self.tags.reserve(tags)?;
        match origin {
            Some(_) => self.reserve_messages(tags),
            None => Ok(()),
        }
    }

    /// Makes room for `count` further messages.
    fn reserve_messages(&mut self, count: usize) -> Result<(), AllocError>
        ensures same { (self.new.tags ≡ self.old.tags)
            × (self.new.messages ≡ self.old.messages)
            × (self.new.origins ≡ self.old.origins) }
        ensures grown { (self.old.spare_messages ≤ self.new.spare_messages)
            × (self.old.spare_origins ≤ self.new.spare_origins) }
        ensures spare_tags { self.new.spare_tags ≡ self.old.spare_tags }
        ensures ok { OnOk result
            ((count ≤ self.new.spare_messages) × (count ≤ self.new.spare_origins)) }
    {
        self.messages.reserve(count)?;
        self.origins.reserve(count)
    }
}

/// Makes room for `versions` further versions in the message of the origin, if it exists.
fn reserve_versions(
    messages: &mut IndexMap<OpId, Vec<Version>>,
    origin: &OpId,
    versions: usize,
) -> Result<(), AllocError>
    ensures roomier { AreRoomierLists messages.old.entries messages.new.entries }
    ensures spare { spare messages.old ≤ spare messages.new }
    ensures ok { OnOk result (HasVersionRoom messages.new.entries origin.now versions) }
{
    match messages.get_mut(origin) {
        Some(list) => list.reserve(versions),
        None => Ok(()),
    }
}
