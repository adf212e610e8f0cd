//! `MessageRef`: messages borrowed from the folders.

ghost use Rattle.std.specs.Prelude.{◌≡◌, None, Some, ℕ, List};
ghost use Rattle.std.specs.Map.{lookup};
ghost use Rattle.std.specs.Option.{option_copied, option_map, unwrap_or};
ghost use Rattle.tags_clocks.specs.declared.id.OpId.{OpId};
ghost use Rattle.crdt_ops.specs.SortedSets.{same_id};
ghost use Rattle.crdt_ops.specs.Sets.{no_dated_text};
ghost use Rattle.imap_types.specs.Unions.{united_flags, version_ids};
ghost use Rattle.folder_state.specs.Contents.{Contents, IsMessageOf};
ghost use Rattle.folder_state.specs.FolderTables.{AreIndexedIn, folder_contents};
ghost use Rattle.folder_state.specs.MessageRefs.{message_ref, stored_dated_text};

use crate::folder::Folder;
use imap_types::{DateTime, Text, Version, Versions};
use indexmap::IndexMap;
use mailbox_rows::DatedText;
use tags_clocks::OpId;

/// A message of a folder, borrowed from the folders.
#[derive(Clone, Copy)]
pub struct MessageRef<'a> {
    /// The id of the Append that has its date and text.
    pub origin: OpId,
    /// Its versions, at least one, ascending by id.
    pub versions: Versions<'a>,
    /// When it was received, by its origin; None if the origin is no applied Append.
    pub date: Option<&'a DateTime>,
    /// Its octets, by its origin; None if the origin is no applied Append.
    pub text: Option<&'a Text>,
}

/// The folder's messages by origin; None if it has no table.
pub fn message_table<'a>(folder: Option<&'a Folder>) -> Option<&'a IndexMap<OpId, Vec<Version>>>
    ensures messages { option_map (λ messages. messages.now.entries) result
        ≡ option_map (λ stored. stored.messages) (option_copied folder.entry) }
    ensures indexed { AreIndexedIn (option_copied folder.entry) }
{
    match folder {
        Some(folder) => Some(folder.messages()),
        None => None,
    }
}

/// The message of this origin, if it has a version in the folder.
pub fn message_ref<'a>(
    folder: &'a Folder,
    dated_texts: &'a IndexMap<OpId, DatedText>,
    origin: &OpId,
) -> Option<MessageRef<'a>>
    ensures { (c : Contents) (name : List ℕ)
        → ((i : OpId) → c.tag_data name i ≡ (folder_contents folder.now).tag_data i)
        → c.dated_texts origin.now
        ≡ option_map stored_dated_text (lookup (same_id origin.now) dated_texts.now.entries)
        → IsMessageOf c name origin.now (option_map message_ref result) }
{
    match folder.versions_of(origin) {
        Some(versions) => Some(with_dated_text(
            dated_texts.get(origin),
            origin,
            Versions::new(versions),
        )),
        None => None,
    }
}

/// The message with these versions, and with this date and text, if any.
fn with_dated_text<'a>(
    dated: Option<&'a DatedText>,
    origin: &OpId,
    versions: Versions<'a>,
) -> MessageRef<'a>
    ensures origin { (message_ref result).origin ≡ origin.now }
    ensures versions { (message_ref result).versions ≡ version_ids versions.entry.list.now }
    ensures flags { (message_ref result).flags ≡ united_flags versions.entry.list.now }
    ensures date { (message_ref result).date
        ≡ (unwrap_or (option_map stored_dated_text (option_copied dated.entry))
        no_dated_text).date }
    ensures text { (message_ref result).text
        ≡ (unwrap_or (option_map stored_dated_text (option_copied dated.entry))
        no_dated_text).text }
{
    match dated {
        Some(dated) => MessageRef {
            origin: *origin,
            versions,
            date: Some(&dated.date),
            text: Some(&dated.text),
        },
        None => MessageRef {
            origin: *origin,
            versions,
            date: None,
            text: None,
        },
    }
}
