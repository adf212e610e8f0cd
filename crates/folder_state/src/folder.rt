//! `Folder`: the tables of one folder.

ghost use Rattle.std.specs.Prelude.{◌≡◌, ◌↔◌, ◌++◌, Some, [], IfOk, MatchOption, OnOk, length, not};
ghost use Rattle.std.specs.Bool.{MatchBool};
ghost use Rattle.std.specs.List.{cons_option, slice_get};
ghost use Rattle.std.specs.Map.{keys_of};
ghost use Rattle.std.specs.Option.{option_map};
ghost use Rattle.tags_clocks.specs.declared.id.OpId.{OpId};
ghost use Rattle.merge_laws.specs.Orders.{IsIn};
ghost use Rattle.folder_state.specs.FolderTables.{AreIndexed, AreVersionsOf, HasTagIn};
ghost use Rattle.folder_state.specs.FolderTables.{folder_contents, folder_ids, has_ids};
ghost use Rattle.folder_state.specs.FolderTables.{versions_at};

use imap_types::Version;
use indexmap::{IndexMap, IndexSet};
use std::alloc::{AllocError, Global};
use std::marker::Model;
use tags_clocks::OpId;

/// One folder's tags: its folder tags, the versions of its messages by origin, and the origin of
/// each version by its id.
pub struct Folder {
    pub(crate) tags: IndexSet<OpId>,
    pub(crate) messages: IndexMap<OpId, Vec<Version>>,
    pub(crate) origins: IndexMap<OpId, OpId>,
}

// By hand, so that crates above drop it whole.
impl Drop for Folder {
    fn drop(self) {
        let Self {
            tags: _,
            messages: _,
            origins: _,
        } = self;
    }
}

impl Model for Folder {
    ghost use Rattle.indexmap.specs.IndexMap.{spare};
    ghost use Rattle.indexmap.specs.IndexSet.{spare as spare_keys};
    ghost use Rattle.folder_state.specs.FolderTables.{AreIndexed, FolderTables};

    ghost Value = { FolderTables };

    ghost view = { λ f. record {
      tags = f.tags.keys;
      messages = f.messages.entries;
      origins = f.origins.entries;
      spare_tags = spare_keys f.tags;
      spare_messages = spare f.messages;
      spare_origins = spare f.origins;
    } };

    ghost invariant = { λ f. AreIndexed f.messages.entries f.origins.entries };
}

impl Folder {
    /// A folder without tags; doesn't allocate.
    pub(crate) fn new(alloc: Global) -> Folder
        ensures { (result.tags ≡ []) × (result.messages ≡ []) × (result.origins ≡ []) }
    {
        Folder {
            tags: IndexSet::new(alloc),
            messages: IndexMap::new(alloc),
            origins: IndexMap::new(alloc),
        }
    }

    /// Whether the folder tag with this id is present. Cost: a look-up.
    pub fn has_tag(&self, id: &OpId) -> bool
        ensures { result ≡ (folder_contents self.now).tags id.now }
    {
        self.tags.contains(id)
    }

    /// The origin of the message tag with this id, if it is present. Cost: a look-up.
    pub fn origin_of(&self, id: &OpId) -> Option<OpId>
        ensures { result
            ≡ option_map (λ content. content.origin) ((folder_contents self.now).tag_data id.now) }
    {
        self.origins.get(id).copied()
    }

    /// The versions of this origin, ascending by id, at least one; `None` if it has none. Cost: a
    /// look-up.
    pub fn versions_of(&self, origin: &OpId) -> Option<&[Version]>
        ensures { MatchOption result
            ((i : OpId)
            → option_map (λ content. content.origin) ((folder_contents self.now).tag_data i)
            ≡ Some origin.now → ⊥)
            (λ versions. AreVersionsOf (folder_contents self.now) origin.now versions.now) }
    {
        match self.messages.get(origin) {
            Some(versions) => Some(versions),
            None => None,
        }
    }

    /// Whether this origin has a version. Cost: a look-up.
    pub(crate) fn has_versions(&self, origin: &OpId) -> bool
        ensures { MatchBool result
            ((i : OpId)
            × (option_map (λ content. content.origin) ((folder_contents self.now).tag_data i)
            ≡ Some origin.now))
            ((i : OpId)
            → option_map (λ content. content.origin) ((folder_contents self.now).tag_data i)
            ≡ Some origin.now → ⊥) }
    {
        match self.versions_of(origin) {
            Some(_) => true,
            None => false,
        }
    }

    /// The versions of this origin, ascending by id; empty if it has none.
    pub(crate) fn versions_at(&self, origin: &OpId) -> &[Version]
        ensures list { result.now ≡ versions_at self.now.messages origin.now }
        ensures indexed { AreIndexed self.now.messages self.now.origins }
    {
        match self.messages.get(origin) {
            Some(versions) => versions,
            None => &[],
        }
    }

    /// The number of its tags, of both kinds.
    pub fn count(&self) -> usize
        ensures ids { result ≡ length (folder_ids self.now) }
        ensures tags { (i : OpId)
            → IsIn i (folder_ids self.now) ↔ HasTagIn (folder_contents self.now) i }
    {
        self.tags.len() + self.origins.len()
    }

    /// The id of the tag at `place`, counted from 0 over the tags of both kinds in no particular
    /// order; `None` from [`Folder::count`] on.
    pub fn id_at(&self, place: usize) -> Option<OpId>
        ensures { result ≡ slice_get (folder_ids self.now) place }
    {
        let tags = self.tags.len();
        if place < tags {
            return self.tags.get_index(place).copied();
        }
        match self.origins.get_index(place - tags) {
            Some((id, _)) => Some(*id),
            None => None,
        }
    }

    /// Whether it has no tag of either kind.
    pub fn is_empty(&self) -> bool
        ensures ids { result ≡ not (has_ids self.now) }
        ensures tags { MatchBool result ((i : OpId) → HasTagIn (folder_contents self.now) i → ⊥)
            ((i : OpId) × HasTagIn (folder_contents self.now) i) }
    {
        self.tags.is_empty() && self.origins.is_empty()
    }

    /// Its folder tags, in no particular order.
    pub(crate) fn tags(&self) -> &[OpId]
        ensures { result.now ≡ self.now.tags }
    {
        self.tags.as_slice()
    }

    /// The versions of its messages by origin.
    pub(crate) fn messages(&self) -> &IndexMap<OpId, Vec<Version>>
        ensures entries { result.now.entries ≡ self.now.messages }
        ensures indexed { AreIndexed self.now.messages self.now.origins }
    {
        &self.messages
    }

    /// The ids of all its tags; `Err` if memory runs out.
    pub(crate) fn ids(&self, alloc: Global) -> Result<Vec<OpId>, AllocError>
        ensures ids { IfOk result (λ ids. ids.items ≡ folder_ids self.now) }
        ensures tags { (i : OpId)
            → IsIn i (folder_ids self.now) ↔ HasTagIn (folder_contents self.now) i }
    {
        let count = self.count();
        let mut ids = Vec::new(alloc);
        for place in 0..count {
            push_if_some(&mut ids, self.id_at(place))?;
        }
        Ok(ids)
    }

    /// The origin of the message at `place`, counted from 0.
    fn origin_at(&self, place: usize) -> Option<OpId>
        ensures { result ≡ slice_get (keys_of self.now.messages) place }
    {
        match self.messages.get_index(place) {
            Some((origin, _)) => Some(*origin),
            None => None,
        }
    }

    /// The origins of its messages; `Err` if memory runs out.
    pub(crate) fn origins(&self, alloc: Global) -> Result<Vec<OpId>, AllocError>
        ensures origins { IfOk result (λ ids. ids.items ≡ keys_of self.now.messages) }
        ensures indexed { AreIndexed self.now.messages self.now.origins }
    {
        let mut ids = Vec::new(alloc);
        for place in 0..self.messages.len() {
            push_if_some(&mut ids, self.origin_at(place))?;
        }
        Ok(ids)
    }
}

/// Appends the id, if there is one; `Err` if memory runs out.
fn push_if_some(ids: &mut Vec<OpId>, given: Option<OpId>) -> Result<(), AllocError>
    ensures { OnOk result (ids.new.items ≡ ids.old.items ++ cons_option given []) }
{
    match given {
        Some(id) => Ok(ids.push(id)?),
        None => Ok(()),
    }
}
