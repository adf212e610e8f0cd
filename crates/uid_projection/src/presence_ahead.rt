//! Tests whether a folder has a present tag after pending operations.

ghost use Rattle.std.specs.Prelude.{◌≡◌, true, false, Some};
ghost use Rattle.std.specs.List.{slice_get};
ghost use Rattle.std.specs.Map.{lookup};
ghost use Rattle.tags_clocks.specs.declared.id.OpId.{OpId};
ghost use Rattle.crdt_ops.specs.SortedSets.{same_id};
ghost use Rattle.folder_state.specs.FolderTables.{folder_ids};
ghost use Rattle.uid_projection.specs.TagChanges.{IsStoredTag, value_at_key, is_added, is_tag};
ghost use Rattle.uid_projection.specs.TagChanges.{is_present, is_present_at, stored_of, tag_over};

use crate::messages_ahead::MessagesAhead;
use crate::tag_changes::TagChange;
use folder_state::Folder;
use indexmap::IndexMap;
use tags_clocks::OpId;

/// Whether one of these changed folder tags is present.
pub fn has_added_tag(tags: &IndexMap<OpId, bool>) -> bool
    ensures yes { result ≡ true
        → (i : OpId) × (is_tag (lookup (same_id i) tags.now.entries) ≡ true) }
    ensures no { result ≡ false → (i : OpId)
        → is_tag (lookup (same_id i) tags.now.entries) ≡ true
        → ⊥ }
{
    let mut at = tags.len();
    while at > 0 {
        at -= 1;
        if is_tag_at(tags, at) {
            return true;
        }
    }
    false
}

/// Whether the changed folder tag at this place is present.
fn is_tag_at(tags: &IndexMap<OpId, bool>, place: usize) -> bool
    ensures { result ≡ value_at_key is_tag tags.now.entries (slice_get tags.now.entries place) }
{
    match tags.get_index(place) {
        Some((id, _)) => is_tag(tags, id),
        None => false,
    }
}

/// Whether the folder tag with this id is present according to these changes.
fn is_tag(tags: &IndexMap<OpId, bool>, id: &OpId) -> bool
    ensures { result ≡ is_tag (lookup (same_id id.now) tags.now.entries) }
{
    match tags.get(id).copied() {
        Some(present) => present,
        None => false,
    }
}

/// Whether one of these changed message tags is present.
pub fn has_added_message(changes: &IndexMap<OpId, TagChange<'_>>) -> bool
    ensures yes { result ≡ true
        → (i : OpId) × (is_added (lookup (same_id i) changes.now.entries) ≡ true) }
    ensures no { result ≡ false → (i : OpId)
        → is_added (lookup (same_id i) changes.now.entries) ≡ true
        → ⊥ }
{
    let mut at = changes.len();
    while at > 0 {
        at -= 1;
        if is_added_at(changes, at) {
            return true;
        }
    }
    false
}

/// Whether the changed message tag at this place is present.
fn is_added_at(changes: &IndexMap<OpId, TagChange<'_>>, place: usize) -> bool
    ensures { result
        ≡ value_at_key is_added changes.now.entries (slice_get changes.now.entries place) }
{
    match changes.get_index(place) {
        Some((id, _)) => is_added(changes, id),
        None => false,
    }
}

/// Whether the message tag with this id is present according to these changes.
fn is_added(changes: &IndexMap<OpId, TagChange<'_>>, id: &OpId) -> bool
    ensures { result ≡ is_added (lookup (same_id id.now) changes.now.entries) }
{
    match changes.get(id).copied() {
        Some(change) => change.flags.is_some(),
        None => false,
    }
}

/// Whether a stored tag is still present.
pub fn has_tag_left(tags: &IndexMap<OpId, bool>, messages: &MessagesAhead<'_>) -> bool
    ensures yes { result ≡ true → (i : OpId) × (is_present tags.now.entries messages.now i ≡ true) }
    ensures no { result ≡ false → (i : OpId)
        → IsStoredTag (stored_of messages.now) i
        → is_present tags.now.entries messages.now i ≡ true
        → ⊥ }
{
    match messages.stored {
        Some(folder) => has_tag_left_in(tags, messages, folder),
        None => false,
    }
}

/// Whether a tag that `folder` stores is still present.
fn has_tag_left_in(
    tags: &IndexMap<OpId, bool>,
    messages: &MessagesAhead<'_>,
    folder: &Folder,
) -> bool
    requires { stored_of messages.now ≡ Some folder.now }
    ensures yes { result ≡ true → (i : OpId) × (is_present tags.now.entries messages.now i ≡ true) }
    ensures no { result ≡ false → (i : OpId)
        → IsStoredTag (stored_of messages.now) i
        → is_present tags.now.entries messages.now i ≡ true
        → ⊥ }
{
    for place in 0..folder.count() {
        if is_present_at(tags, messages, folder, place) {
            return true;
        }
    }
    false
}

/// Whether the tag with the id at this place is present.
fn is_present_at(
    tags: &IndexMap<OpId, bool>,
    messages: &MessagesAhead<'_>,
    folder: &Folder,
    place: usize,
) -> bool
    requires { stored_of messages.now ≡ Some folder.now }
    ensures { result
        ≡ is_present_at tags.now.entries messages.now (slice_get (folder_ids folder.now) place) }
{
    match folder.id_at(place) {
        Some(id) => is_present(tags, messages, folder, &id),
        None => false,
    }
}

/// Whether a folder tag or a message tag with this id is present.
fn is_present(
    tags: &IndexMap<OpId, bool>,
    messages: &MessagesAhead<'_>,
    folder: &Folder,
    id: &OpId,
) -> bool
    requires { stored_of messages.now ≡ Some folder.now }
    ensures { result ≡ is_present tags.now.entries messages.now id.now }
{
    has_tag(tags, folder, id) || messages.origin_of(id).is_some()
}

/// Whether the folder tag with this id is present.
fn has_tag(tags: &IndexMap<OpId, bool>, folder: &Folder, id: &OpId) -> bool
    ensures { result ≡ tag_over tags.now.entries (Some folder.now) id.now }
{
    match tags.get(id).copied() {
        Some(present) => present,
        None => folder.has_tag(id),
    }
}
