//! Removing tags from a folder.

ghost use Rattle.std.specs.Prelude.{◌≡◌, ◌≤◌, ◌<◌, ◌==◌, [], None, Some, false, true, length, not};
ghost use Rattle.std.specs.Prelude.{◌&&◌, if◌then◌else◌};
ghost use Rattle.std.specs.Global.{Vec as Places};
ghost use Rattle.std.specs.List.{list_any};
ghost use Rattle.std.specs.Map.{lookup};
ghost use Rattle.std.specs.Vec.{vec_capacity};
ghost use Rattle.indexmap.specs.IndexMap.{spare};
ghost use Rattle.indexmap.specs.IndexSet.{spare as spare_keys};
ghost use Rattle.tags_clocks.specs.declared.id.OpId.{OpId};
ghost use Rattle.crdt_ops.specs.SortedSets.{same_id};
ghost use Rattle.imap_types.specs.declared.version.Version.{Version};
ghost use Rattle.folder_state.specs.FolderTables.{IsTakenOut, folder_contents, versions_at};
ghost use Rattle.folder_state.specs.FolderTables.{without_version};
ghost use Rattle.folder_state.specs.OpRoom.{IsNoFuller};

use crate::folder::Folder;
use imap_types::Version;
use indexmap::{IndexMap, IndexSet};
use tags_clocks::OpId;

impl Folder {
    /// Removes the folder tags with these ids. Cost: a look-up for each id.
    pub(crate) fn remove_tags(&mut self, ids: &[OpId])
        ensures tags { (i : OpId)
            → (folder_contents self.new).tags i
            ≡ (not (list_any (same_id i) ids.now) && (folder_contents self.old).tags i) }
        ensures messages { (self.new.messages ≡ self.old.messages)
            × (self.new.origins ≡ self.old.origins) }
        ensures room { IsNoFuller self.old self.new }
    {
        forget_keys(&mut self.tags, ids);
    }

    /// Removes the tags of both kinds with these ids. Cost: some look-ups for each id.
    pub(crate) fn remove_ids(&mut self, ids: &[OpId])
        ensures tags { (i : OpId)
            → (folder_contents self.new).tags i
            ≡ (not (list_any (same_id i) ids.now) && (folder_contents self.old).tags i) }
        ensures tag_data { (i : OpId)
            → (folder_contents self.new).tag_data i
            ≡ (if list_any (same_id i) ids.now then None
            else (folder_contents self.old).tag_data i) }
        ensures room { IsNoFuller self.old self.new }
    {
        self.remove_tags(ids);
        self.remove_messages(ids);
    }

    /// Removes the message tags with these ids. Cost: some look-ups for each id.
    pub(crate) fn remove_messages(&mut self, ids: &[OpId])
        ensures tag_data { (i : OpId)
            → (folder_contents self.new).tag_data i
            ≡ (if list_any (same_id i) ids.now then None
            else (folder_contents self.old).tag_data i) }
        ensures tags { self.new.tags ≡ self.old.tags }
        ensures room { IsNoFuller self.old self.new }
    {
        for id in ids {
            self.remove_message(id);
        }
    }

    /// Removes the message tag with this id. Cost: some look-ups, and a pass over the versions of
    /// its message.
    pub(crate) fn remove_message(&mut self, id: &OpId)
        ensures tag_data { (i : OpId)
            → (folder_contents self.new).tag_data i
            ≡ (if same_id i id.now then None else (folder_contents self.old).tag_data i) }
        ensures removed { lookup (same_id id.now) self.new.origins ≡ None }
        ensures tags { self.new.tags ≡ self.old.tags }
        ensures room { IsNoFuller self.old self.new }
    {
        match self.origins.swap_remove(id) {
            Some(origin) => take_out(&mut self.messages, &origin, id),
            None => {}
        }
    }
}

/// Removes these keys.
fn forget_keys(keys: &mut IndexSet<OpId>, ids: &[OpId])
    ensures keys { (i : OpId)
        → list_any (same_id i) keys.new.keys
        ≡ (not (list_any (same_id i) ids.now) && list_any (same_id i) keys.old.keys) }
    ensures room { spare_keys keys.old ≤ spare_keys keys.new }
{
    for id in ids {
        keys.swap_remove(id);
    }
}

/// Takes the version with this id out of the message of this origin, and then the message if it has
/// none left.
fn take_out(messages: &mut IndexMap<OpId, Vec<Version>>, origin: &OpId, id: &OpId)
    ensures taken { IsTakenOut origin.now id.now messages.old.entries messages.new.entries }
    ensures room { spare messages.old ≤ spare messages.new }
{
    if remove_version(messages, origin, id) {
        messages.swap_remove(origin);
    }
}

/// Takes the version with this id out of the message of this origin, and returns whether it has
/// none left.
fn remove_version(messages: &mut IndexMap<OpId, Vec<Version>>, origin: &OpId, id: &OpId) -> bool
    ensures none { result ≡ true → versions_at messages.new.entries origin.now ≡ [] }
    ensures some { result ≡ false → (vs : Places Version)
        → lookup (same_id origin.now) messages.new.entries ≡ Some vs
        → 0 < length vs.items }
    ensures here { versions_at messages.new.entries origin.now
        ≡ without_version id.now (versions_at messages.old.entries origin.now) }
    ensures others { (o : OpId)
        → same_id o origin.now ≡ false
        → lookup (same_id o) messages.new.entries ≡ lookup (same_id o) messages.old.entries }
    ensures places { (vs : Places Version)
        → lookup (same_id origin.now) messages.new.entries ≡ Some vs
        → (ws : Places Version)
        × (lookup (same_id origin.now) messages.old.entries ≡ Some ws)
        × (length vs.items ≤ length ws.items)
        × (vec_capacity vs ≡ vec_capacity ws) }
    ensures room { spare messages.old ≤ spare messages.new }
{
    match messages.get_mut(origin) {
        Some(versions) => forget_version(versions, id),
        None => false,
    }
}

/// Removes the version with this id, and returns whether none is left.
fn forget_version(versions: &mut Vec<Version>, id: &OpId) -> bool
    ensures items { versions.new.items ≡ without_version id.now versions.old.items }
    ensures capacity { vec_capacity versions.new ≡ vec_capacity versions.old }
    ensures none { result ≡ (length versions.new.items == 0) }
{
    versions.retain(|version| *id != version.id);
    versions.is_empty()
}
