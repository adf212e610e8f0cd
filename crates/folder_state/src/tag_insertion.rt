//! Inserting tags into a folder.

ghost use Rattle.std.specs.Prelude.{◌≡◌, ◌≤◌, ◌<◌, ◌+◌, ◌||◌, ℕ, [], true, Option, None, Some};
ghost use Rattle.std.specs.Prelude.{MatchResult, insert, length, if◌then◌else◌};
ghost use Rattle.std.specs.List.{list_any};
ghost use Rattle.std.specs.Map.{lookup};
ghost use Rattle.std.specs.Vec.{vec_capacity};
ghost use Rattle.indexmap.specs.IndexMap.{spare};
ghost use Rattle.tags_clocks.specs.declared.id.OpId.{OpId};
ghost use Rattle.crdt_ops.specs.SortedSets.{IsAscending, id_order, insert_ordered, same_id};
ghost use Rattle.imap_types.specs.Unions.{version_ids};
ghost use Rattle.folder_state.specs.FolderTables.{IsPutIn, by_id, folder_contents};
ghost use Rattle.folder_state.specs.OpRoom.{HasPlaces, HasVersionPlaces, HasVersionRoom};

use crate::folder::Folder;
use imap_types::Version;
use indexmap::IndexMap;
use tags_clocks::OpId;

impl Folder {
    /// Inserts a folder tag, for which there is room. Cost: a look-up.
    pub(crate) fn put_tag(&mut self, id: &OpId)
        requires { HasPlaces self.old None 1 }
        ensures tags { (i : OpId)
            → (folder_contents self.new).tags i
            ≡ (same_id i id.now || (folder_contents self.old).tags i) }
        ensures messages { (self.new.messages ≡ self.old.messages)
            × (self.new.origins ≡ self.old.origins) }
        ensures room { (o : Option OpId) (n : ℕ)
            → HasPlaces self.old o (n + 1)
            → HasPlaces self.new o n }
    {
        if self.tags.insert(*id).is_err() {
            unreachable!();
        }
    }

    /// Inserts a message tag, for which there is room, in place of one with its id. If its message
    /// doesn't exist yet, it begins in `list`, which is empty. Cost: some look-ups, and a pass over
    /// the versions of the message.
    pub(crate) fn put_message(&mut self, origin: &OpId, version: Version, list: Vec<Version>)
        requires places { HasPlaces self.old (Some origin.now) 1 }
        requires versions { HasVersionRoom self.old.messages origin.now 1 }
        requires list { (list.items ≡ []) × (1 ≤ vec_capacity list) }
        ensures tag_data { (i : OpId)
            → (folder_contents self.new).tag_data i
            ≡ (if same_id i version.id
            then Some (record { flags = version.flags; origin = origin.now })
            else (folder_contents self.old).tag_data i) }
        ensures tags { self.new.tags ≡ self.old.tags }
        ensures room { (o : Option OpId) (n : ℕ)
            → HasPlaces self.old o (n + 1)
            → HasPlaces self.new o n }
        ensures versions { (o : OpId) (n : ℕ)
            → HasVersionRoom self.old.messages o ((if same_id o origin.now then 1 else 0) + n)
            → (same_id o origin.now ≡ true → 1 + n ≤ vec_capacity list)
            → HasVersionRoom self.new.messages o n }
    {
        self.remove_message(&version.id);
        self.insert_version(origin, version, list);
    }

    /// Inserts a message tag, for which there is room; no other has its id.
    fn insert_version(&mut self, origin: &OpId, version: Version, list: Vec<Version>)
        requires apart { lookup (same_id version.id) self.old.origins ≡ None }
        requires places { HasPlaces self.old (Some origin.now) 1 }
        requires versions { HasVersionRoom self.old.messages origin.now 1 }
        requires list { (list.items ≡ []) × (1 ≤ vec_capacity list) }
        ensures tag_data { (i : OpId)
            → (folder_contents self.new).tag_data i
            ≡ (if same_id i version.id
            then Some (record { flags = version.flags; origin = origin.now })
            else (folder_contents self.old).tag_data i) }
        ensures tags { self.new.tags ≡ self.old.tags }
        ensures room { (o : Option OpId) (n : ℕ)
            → HasPlaces self.old o (n + 1)
            → HasPlaces self.new o n }
        ensures versions { (o : OpId) (n : ℕ)
            → HasVersionRoom self.old.messages o ((if same_id o origin.now then 1 else 0) + n)
            → (same_id o origin.now ≡ true → 1 + n ≤ vec_capacity list)
            → HasVersionRoom self.new.messages o n }
    {
        index_origin(&mut self.origins, &version.id, origin);
        put_in(&mut self.messages, origin, version, list);
    }
}

/// Sets the origin of this id in the index, for which there is room.
fn index_origin(origins: &mut IndexMap<OpId, OpId>, id: &OpId, origin: &OpId)
    requires { 0 < spare origins.old }
    ensures updated { (i : OpId)
        → lookup (same_id i) origins.new.entries
        ≡ (if same_id i id.now then Some origin.now else lookup (same_id i) origins.old.entries) }
    ensures room { spare origins.old ≤ spare origins.new + 1 }
{
    if origins.insert(*id, *origin).is_err() {
        unreachable!();
    }
}

/// Adds a version to the message of its origin, which begins in `list` if it doesn't exist.
fn put_in(
    messages: &mut IndexMap<OpId, Vec<Version>>,
    origin: &OpId,
    version: Version,
    list: Vec<Version>,
)
    requires spare { 0 < spare messages.old }
    requires versions { HasVersionRoom messages.old.entries origin.now 1 }
    requires list { (list.items ≡ []) × (1 ≤ vec_capacity list) }
    ensures put { IsPutIn origin.now version messages.old.entries messages.new.entries }
    ensures room { spare messages.old ≤ spare messages.new + 1 }
    ensures versions { (o : OpId) (n : ℕ)
        → HasVersionRoom messages.old.entries o ((if same_id o origin.now then 1 else 0) + n)
        → (same_id o origin.now ≡ true → 1 + n ≤ vec_capacity list)
        → HasVersionRoom messages.new.entries o n }
{
    match messages.get_mut(origin) {
        Some(versions) => put_to(versions, version),
        None => put_first(messages, origin, version, list),
    }
}

/// Inserts a new message with this version.
fn put_first(
    messages: &mut IndexMap<OpId, Vec<Version>>,
    origin: &OpId,
    version: Version,
    list: Vec<Version>,
)
    requires spare { 0 < spare messages.old }
    requires none { lookup (same_id origin.now) messages.old.entries ≡ None }
    requires list { (list.items ≡ []) × (1 ≤ vec_capacity list) }
    ensures put { IsPutIn origin.now version messages.old.entries messages.new.entries }
    ensures room { spare messages.old ≤ spare messages.new + 1 }
    ensures versions { (o : OpId) (n : ℕ)
        → HasVersionRoom messages.old.entries o ((if same_id o origin.now then 1 else 0) + n)
        → (same_id o origin.now ≡ true → 1 + n ≤ vec_capacity list)
        → HasVersionRoom messages.new.entries o n }
{
    let mut versions = list;
    put_to(&mut versions, version);
    if messages.insert(*origin, versions).is_err() {
        unreachable!();
    }
}

/// Inserts a version in its place, for which there is room; a version with its id stays instead.
fn put_to(versions: &mut Vec<Version>, version: Version)
    requires { length versions.old.items + 1 ≤ vec_capacity versions.old }
    ensures items { versions.new.items ≡ insert_ordered by_id version versions.old.items }
    ensures capacity { vec_capacity versions.new ≡ vec_capacity versions.old }
{
    if let Err(at) = place_of(versions, &version) {
        if let Err(_) = versions.insert(at, version) {
            unreachable!()
        }
    }
}

/// The place of the version with this one's id, or else the place at which this one would be
/// inserted.
fn place_of(versions: &[Version], version: &Version) -> Result<usize, usize>
    ensures { MatchResult result
        (λ at. insert_ordered by_id version.now versions.now ≡ versions.now)
        (λ at. (at ≤ length versions.now)
        × (insert_ordered by_id version.now versions.now
        ≡ insert versions.now at version.now)) }
{
    for (at, other) in versions.iter().enumerate() {
        if version.id == other.id {
            return Ok(at);
        }
        if version.id < other.id {
            return Err(at);
        }
    }
    Err(versions.len())
}
