//! `MessagesAhead`: a folder's message tags after pending operations.

ghost use Rattle.std.specs.Prelude.{◌≡◌, ◌↔◌, true, false, None, Some, IsSome, if◌then◌else◌, IfOk};
ghost use Rattle.std.specs.Prelude.{IsTrue, OnOk};
ghost use Rattle.std.specs.List.{list_any};
ghost use Rattle.std.specs.Map.{lookup};
ghost use Rattle.std.specs.Option.{option_map};
ghost use Rattle.tags_clocks.specs.declared.id.OpId.{OpId};
ghost use Rattle.crdt_ops.specs.SortedSets.{same_id};
ghost use Rattle.folder_state.specs.FolderTables.{tag_data_in};
ghost use Rattle.uid_projection.specs.TagChanges.{AreAll, Grows, HasOrigin, IsWhole, tag_data_of};
ghost use Rattle.uid_projection.specs.TagChanges.{stored_of, origin_of};

use crate::overlay::{
    has_listed, has_stored, origin_of, place_listed, place_stored, stored_origin,
};
use crate::presence_ahead::has_added_message;
use crate::tag_changes::{TagChange, note_change};
use crate::touched_origins::{list_id, touch};
use folder_state::Folder;
use imap_types::{Flags, Version};
use indexmap::IndexMap;
use std::alloc::{AllocError, Global};
use tags_clocks::OpId;

/// A folder's message tags after pending operations. Each added tag is listed for its origin. The
/// origin of each tag that was removed or replaced has a list too.
pub struct MessagesAhead<'a> {
    /// The stored folder, or `None` if it has no tags.
    pub stored: Option<&'a Folder>,
    /// The changes to its message tags, by their ids.
    pub changes: IndexMap<OpId, TagChange<'a>>,
    /// The ids of added tags, by their origins. Some may be removed again.
    pub versions: IndexMap<OpId, Vec<OpId>>,
}

// By hand, so that crates above drop it whole.
impl<'a> Drop for MessagesAhead<'a> {
    fn drop(self) {
        let Self {
            stored: _,
            changes: _,
            versions: _,
        } = self;
    }
}

impl<'a> MessagesAhead<'a> {
    /// The stored messages, with no change yet; `None` if the folder has none.
    pub fn new(alloc: Global, stored: Option<&'a Folder>) -> MessagesAhead<'a>
        ensures stored { stored_of result ≡ option_map (λ folder. folder.now) stored.entry }
        ensures tag_data { (i : OpId) → tag_data_of result i ≡ tag_data_in (stored_of result) i }
        ensures whole { IsWhole result }
    {
        MessagesAhead {
            stored,
            changes: IndexMap::new(alloc),
            versions: IndexMap::new(alloc),
        }
    }

    /// The origin of the message tag with this id, or `None` if the tag isn't present.
    pub fn origin_of(&self, id: &OpId) -> Option<OpId>
        ensures { result ≡ origin_of (tag_data_of self.now id.now) }
    {
        origin_of(self, id)
    }

    /// Removes the message tags with these ids. `Err` if memory runs out.
    pub fn take(&mut self, alloc: Global, ids: &[OpId]) -> Result<(), AllocError>
        ensures stored { self.new.stored ≡ self.old.stored }
        ensures grows { OnOk result (Grows self.old.versions.entries self.new.versions.entries) }
        ensures whole { OnOk result (IsWhole self.old → IsWhole self.new) }
        ensures tag_data { OnOk result ((i : OpId)
            → tag_data_of self.new i
            ≡ (if list_any (same_id i) ids.now then None else tag_data_of self.old i)) }
    {
        for id in ids {
            self.take_one(alloc, id)?;
        }
        Ok(())
    }

    /// Removes the message tag with this id. `Err` if memory runs out.
    fn take_one(&mut self, alloc: Global, id: &OpId) -> Result<(), AllocError>
        ensures stored { self.new.stored ≡ self.old.stored }
        ensures grows { OnOk result (Grows self.old.versions.entries self.new.versions.entries) }
        ensures whole { OnOk result (IsWhole self.old → IsWhole self.new) }
        ensures tag_data { OnOk result ((i : OpId)
            → tag_data_of self.new i
            ≡ (if same_id id.now i then None else tag_data_of self.old i)) }
    {
        list_stored_origin(alloc, self.stored, &mut self.versions, id)?;
        note_change(&mut self.changes, id, None, id)
    }

    /// Adds the message tag with this id, or replaces the one that has it. `Err` if memory runs
    /// out.
    pub fn put(
        &mut self,
        alloc: Global,
        id: &OpId,
        flags: &'a Flags,
        origin: &OpId,
    ) -> Result<(), AllocError>
        ensures stored { self.new.stored ≡ self.old.stored }
        ensures grows { OnOk result (Grows self.old.versions.entries self.new.versions.entries) }
        ensures whole { OnOk result (IsWhole self.old → IsWhole self.new) }
        ensures tag_data { OnOk result ((i : OpId)
            → tag_data_of self.new i
            ≡ (if same_id id.now i then Some (record { flags = flags.now; origin = origin.now })
            else tag_data_of self.old i)) }
    {
        list_stored_origin(alloc, self.stored, &mut self.versions, id)?;
        list_id(alloc, &mut self.versions, origin, id)?;
        note_change(&mut self.changes, id, Some(flags), origin)
    }

    /// Whether the origin has a version. Cost: its added and its stored versions, up to the first
    /// present one.
    pub fn has_version(&self, origin: &OpId) -> bool
        ensures { IsWhole self.now → IsTrue result ↔ HasOrigin (tag_data_of self.now) origin.now }
    {
        has_listed(self, self.versions.get(origin), origin) || has_stored(self, origin)
    }

    /// Whether an added tag is present. Cost: the changed tags, from the last one on, up to the
    /// first present one.
    pub fn has_put(&self) -> bool
        ensures yes { result ≡ true → (i : OpId) × IsSome (tag_data_of self.now i) }
        ensures no { result ≡ false → (i : OpId)
            → IsSome (tag_data_of self.now i)
            → IsSome (tag_data_in (stored_of self.now) i) }
    {
        has_added_message(&self.changes)
    }

    /// Copies of the origin's versions, ascending by id. `Err` if memory runs out.
    pub fn versions_of(&self, alloc: Global, origin: &OpId) -> Result<Vec<Version>, AllocError>
        ensures { IsWhole self.now
            → IfOk result (λ versions. AreAll (tag_data_of self.now) origin.now versions.items) }
    {
        let mut versions = Vec::new(alloc);
        place_stored(alloc, self, origin, &mut versions)?;
        place_listed(
            alloc,
            self,
            self.versions.get(origin),
            origin,
            &mut versions,
        )?;
        Ok(versions)
    }
}

/// Makes a list for the origin of the stored message tag with this id, if there is such a tag.
fn list_stored_origin(
    alloc: Global,
    stored: Option<&Folder>,
    versions: &mut IndexMap<OpId, Vec<OpId>>,
    id: &OpId,
) -> Result<(), AllocError>
    ensures grows { Grows versions.old.entries versions.new.entries }
    ensures touched { OnOk result ((o : OpId)
        → origin_of (tag_data_in (option_map (λ folder. folder.now) stored.entry) id.now) ≡ Some o
        → IsSome (lookup (same_id o) versions.new.entries)) }
{
    match stored_origin(stored, id) {
        Some(origin) => touch(alloc, versions, &origin),
        None => Ok(()),
    }
}
