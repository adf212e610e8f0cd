//! Message tags of a stored folder with pending changes laid over them.

ghost use Rattle.std.specs.Prelude.{◌≡◌, true, false, None, Some, OnOk, MatchOption};
ghost use Rattle.std.specs.List.{list_any};
ghost use Rattle.std.specs.Option.{option_map};
ghost use Rattle.tags_clocks.specs.declared.id.OpId.{OpId};
ghost use Rattle.merge_laws.specs.Orders.{IsIn};
ghost use Rattle.folder_state.specs.FolderTables.{tag_data_in};
ghost use Rattle.imap_types.specs.declared.version.Version.{Version};
ghost use Rattle.imap_types.specs.Unions.{version_ids};
ghost use Rattle.uid_projection.specs.TagChanges.{HasOrigin, IsUnchanged, IsPlaced, IsAdded};
ghost use Rattle.uid_projection.specs.TagChanges.{tag_data_of};
ghost use Rattle.uid_projection.specs.TagChanges.{ids_listed, is_version, stored_of, origin_of};

use crate::messages_ahead::MessagesAhead;
use crate::versions_ahead::place;
use folder_state::Folder;
use imap_types::{Flags, Version};
use std::alloc::{AllocError, Global};
use tags_clocks::OpId;

/// The origin of the message tag with this id, or `None` if the tag isn't present.
pub fn origin_of(messages: &MessagesAhead<'_>, id: &OpId) -> Option<OpId>
    ensures { result ≡ origin_of (tag_data_of messages.now id.now) }
{
    match messages.changes.get(id).copied() {
        Some(change) => put_origin(change.flags, &change.origin),
        None => stored_origin(messages.stored, id),
    }
}

/// The origin of a changed message tag, or `None` if the change removed the tag.
fn put_origin(flags: Option<&Flags>, origin: &OpId) -> Option<OpId>
    ensures { result ≡ option_map (λ _. origin.now) flags.entry }
{
    match flags {
        Some(_) => Some(*origin),
        None => None,
    }
}

/// The origin of the stored message tag with this id, if there is one.
pub fn stored_origin(stored: Option<&Folder>, id: &OpId) -> Option<OpId>
    ensures { result
        ≡ origin_of (tag_data_in (option_map (λ folder. folder.now) stored.entry) id.now) }
{
    match stored {
        Some(folder) => folder.origin_of(id),
        None => None,
    }
}

/// Whether `id` is a present version of the origin.
fn is_version(messages: &MessagesAhead<'_>, id: &OpId, origin: &OpId) -> bool
    ensures { result ≡ is_version (tag_data_of messages.now) origin.now id.now }
{
    match origin_of(messages, id) {
        Some(other) => *origin == other,
        None => false,
    }
}

/// Whether one of these ids, if there are any, is a present version of the origin.
pub fn has_listed(messages: &MessagesAhead<'_>, ids: Option<&Vec<OpId>>, origin: &OpId) -> bool
    ensures { result
        ≡ list_any (is_version (tag_data_of messages.now) origin.now)
        (ids_listed (option_map (λ ids. ids.now) ids.entry)) }
{
    match ids {
        Some(ids) => has_one(messages, ids, origin),
        None => false,
    }
}

/// Whether one of these ids is a present version of the origin.
fn has_one(messages: &MessagesAhead<'_>, ids: &[OpId], origin: &OpId) -> bool
    ensures { result ≡ list_any (is_version (tag_data_of messages.now) origin.now) ids.now }
{
    for id in ids {
        if is_version(messages, id, origin) {
            return true;
        }
    }
    false
}

/// Whether a stored version of the origin is still present.
pub fn has_stored(messages: &MessagesAhead<'_>, origin: &OpId) -> bool
    ensures yes { result ≡ true → HasOrigin (tag_data_of messages.now) origin.now }
    ensures no { result ≡ false → (i : OpId)
        → origin_of (tag_data_in (stored_of messages.now) i) ≡ Some origin.now
        → origin_of (tag_data_of messages.now i) ≡ Some origin.now
        → ⊥ }
{
    match messages.stored {
        Some(folder) => has_stored_in(messages, folder, origin),
        None => false,
    }
}

/// Whether a version of the origin that `folder` stores is still present.
fn has_stored_in(messages: &MessagesAhead<'_>, folder: &Folder, origin: &OpId) -> bool
    ensures yes { result ≡ true → HasOrigin (tag_data_of messages.now) origin.now }
    ensures no { result ≡ false → (i : OpId)
        → origin_of (tag_data_in (Some folder.now) i) ≡ Some origin.now
        → origin_of (tag_data_of messages.now i) ≡ Some origin.now
        → ⊥ }
{
    match folder.versions_of(origin) {
        Some(versions) => has_one_of(messages, versions, origin),
        None => false,
    }
}

/// Whether one of these versions is a present version of the origin.
fn has_one_of(messages: &MessagesAhead<'_>, versions: &[Version], origin: &OpId) -> bool
    ensures { result
        ≡ list_any (λ version. is_version (tag_data_of messages.now) origin.now version.id)
        versions.now }
{
    for version in versions {
        if is_version(messages, &version.id, origin) {
            return true;
        }
    }
    false
}

/// Copies the origin's stored and unchanged versions to their places among `versions`. `Err` if
/// memory runs out.
pub fn place_stored(
    alloc: Global,
    messages: &MessagesAhead<'_>,
    origin: &OpId,
    versions: &mut Vec<Version>,
) -> Result<(), AllocError>
    ensures { OnOk result (IsPlaced (tag_data_of messages.now) origin.now
        (λ i. IsUnchanged messages.now origin.now i) versions.old.items versions.new.items) }
{
    match messages.stored {
        Some(folder) => place_stored_in(alloc, messages, folder, origin, versions),
        None => Ok(()),
    }
}

/// Does what `place_stored` does for the stored folder `folder`.
fn place_stored_in(
    alloc: Global,
    messages: &MessagesAhead<'_>,
    folder: &Folder,
    origin: &OpId,
    versions: &mut Vec<Version>,
) -> Result<(), AllocError>
    requires { stored_of messages.now ≡ Some folder.now }
    ensures { OnOk result (IsPlaced (tag_data_of messages.now) origin.now
        (λ i. IsUnchanged messages.now origin.now i) versions.old.items versions.new.items) }
{
    match folder.versions_of(origin) {
        Some(stored) => place_left(alloc, messages, stored, origin, versions),
        None => Ok(()),
    }
}

/// Copies those of the versions `stored` that are unchanged to their places among `versions`.
/// `Err` if memory runs out.
fn place_left(
    alloc: Global,
    messages: &MessagesAhead<'_>,
    stored: &[Version],
    origin: &OpId,
    versions: &mut Vec<Version>,
) -> Result<(), AllocError>
    requires { (v : Version) → IsIn v stored.now
        → tag_data_in (stored_of messages.now) v.id
        ≡ Some (record { flags = v.flags; origin = origin.now }) }
    ensures { OnOk result (IsPlaced (tag_data_of messages.now) origin.now
        (λ i. IsUnchanged messages.now origin.now i × IsIn i (version_ids stored.now))
        versions.old.items
        versions.new.items) }
{
    for version in stored {
        if !messages.changes.contains_key(&version.id) {
            place(versions, version.copy(alloc)?)?;
        }
    }
    Ok(())
}

/// Copies the origin's added versions with these ids, if there are any, to their places among
/// `versions`. `Err` if memory runs out.
pub fn place_listed(
    alloc: Global,
    messages: &MessagesAhead<'_>,
    ids: Option<&Vec<OpId>>,
    origin: &OpId,
    versions: &mut Vec<Version>,
) -> Result<(), AllocError>
    ensures { OnOk result (IsPlaced (tag_data_of messages.now) origin.now
        (λ i. IsAdded messages.now origin.now i
        × IsIn i (ids_listed (option_map (λ ids. ids.now) ids.entry))) versions.old.items
        versions.new.items) }
{
    match ids {
        Some(ids) => place_added(alloc, messages, ids, origin, versions),
        None => Ok(()),
    }
}

/// Does what `place_listed` does for a list of ids.
fn place_added(
    alloc: Global,
    messages: &MessagesAhead<'_>,
    ids: &[OpId],
    origin: &OpId,
    versions: &mut Vec<Version>,
) -> Result<(), AllocError>
    ensures { OnOk result (IsPlaced (tag_data_of messages.now) origin.now
        (λ i. IsAdded messages.now origin.now i × IsIn i ids.now) versions.old.items
        versions.new.items) }
{
    for id in ids {
        place_one(alloc, messages, id, origin, versions)?;
    }
    Ok(())
}

/// Copies the version with this id to its place among `versions`, if it was added for this origin.
/// `Err` if memory runs out.
fn place_one(
    alloc: Global,
    messages: &MessagesAhead<'_>,
    id: &OpId,
    origin: &OpId,
    versions: &mut Vec<Version>,
) -> Result<(), AllocError>
    ensures { OnOk result (IsPlaced (tag_data_of messages.now) origin.now
        (λ i. IsAdded messages.now origin.now i × (i ≡ id.now)) versions.old.items
        versions.new.items) }
{
    match put_flags(messages, id, origin) {
        Some(flags) => {
            let flags = flags.copy(alloc)?;
            place(versions, Version { id: *id, flags })
        }
        None => Ok(()),
    }
}

/// The flags that were added with this id, if they were added for this origin.
fn put_flags<'a>(messages: &MessagesAhead<'a>, id: &OpId, origin: &OpId) -> Option<&'a Flags>
    ensures { MatchOption result (IsAdded messages.now origin.now id.now → ⊥)
        (λ flags. tag_data_of messages.now id.now
        ≡ Some (record { flags = flags.now; origin = origin.now })) }
{
    match messages.changes.get(id).copied() {
        Some(change) => {
            if change.origin == *origin {
                change.flags
            } else {
                None
            }
        }
        None => None,
    }
}
