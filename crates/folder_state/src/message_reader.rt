//! Copies of a folder's messages.

ghost use Rattle.std.specs.Prelude.{◌≡◌, ℕ, IfOk, List, map};
ghost use Rattle.std.specs.Map.{lookup};
ghost use Rattle.std.specs.Option.{option_copied, option_map, unwrap_or};
ghost use Rattle.tags_clocks.specs.declared.id.OpId.{OpId};
ghost use Rattle.crdt_ops.specs.SortedSets.{same_id};
ghost use Rattle.crdt_ops.specs.Sets.{no_dated_text};
ghost use Rattle.folder_state.specs.Contents.{AreMessages, Contents};
ghost use Rattle.folder_state.specs.FolderTables.{tag_data_in, folder_contents};
ghost use Rattle.folder_state.specs.MessageRefs.{stored_dated_text, stored_message};

use crate::folder::Folder;
use crate::folder_lists::{ids_in_order, ids_of};
use crdt_ops::Message;
use imap_types::{DateTime, Text, Versions};
use indexmap::IndexMap;
use mailbox_rows::DatedText;
use std::alloc::{AllocError, Global};
use tags_clocks::OpId;

/// The folder's messages, ascending by origin; `Err` if memory runs out.
pub fn folder_messages(
    alloc: Global,
    folder: Option<&Folder>,
    dated_texts: &IndexMap<OpId, DatedText>,
) -> Result<Vec<Message>, AllocError>
    ensures { (c : Contents) (name : List ℕ)
        → ((i : OpId) → c.tag_data name i ≡ tag_data_in (option_copied folder.entry) i)
        → ((i : OpId)
        → c.dated_texts i
        ≡ option_map stored_dated_text (lookup (same_id i) dated_texts.now.entries))
        → IfOk result (λ messages. AreMessages c name messages.items) }
{
    match folder {
        Some(folder) => messages_in(alloc, folder, dated_texts),
        None => Ok(Vec::new(alloc)),
    }
}

fn messages_in(
    alloc: Global,
    folder: &Folder,
    dated_texts: &IndexMap<OpId, DatedText>,
) -> Result<Vec<Message>, AllocError>
    ensures { (c : Contents) (name : List ℕ)
        → ((i : OpId) → c.tag_data name i ≡ (folder_contents folder.now).tag_data i)
        → ((i : OpId)
        → c.dated_texts i
        ≡ option_map stored_dated_text (lookup (same_id i) dated_texts.now.entries))
        → IfOk result (λ messages. AreMessages c name messages.items) }
{
    let list = folder.origins(alloc)?;
    let origins = ids_in_order(alloc, &list)?;
    let messages = messages_of(alloc, folder, dated_texts, origins.as_slice())?;
    Ok(messages)
}

/// The folder's messages of these origins, in their order; `Err` if memory runs out.
fn messages_of(
    alloc: Global,
    folder: &Folder,
    dated_texts: &IndexMap<OpId, DatedText>,
    origins: &[OpId],
) -> Result<Vec<Message>, AllocError>
    ensures { IfOk result (λ messages. messages.items
        ≡ map (stored_message folder.now.messages dated_texts.now.entries) origins.now) }
{
    let mut messages = Vec::with_capacity(alloc, origins.len())?;
    for origin in origins {
        messages.push(message(alloc, folder, dated_texts, origin)?)?;
    }
    Ok(messages)
}

/// The message of an origin, with the date and text of the Append that is the origin; without an
/// Append, the text is empty and the date the first moment of 1970. `Err` if memory runs out.
fn message(
    alloc: Global,
    folder: &Folder,
    dated_texts: &IndexMap<OpId, DatedText>,
    origin: &OpId,
) -> Result<Message, AllocError>
    ensures { IfOk result
        (λ message. message
        ≡ stored_message folder.now.messages dated_texts.now.entries origin.now) }
{
    let list = folder.versions_at(origin);
    let versions = ids_of(alloc, list)?;
    let flags = Versions::new(list).flags(alloc)?;
    let (date, text) = copy_dated_text(alloc, dated_texts, origin)?;
    Ok(Message {
        origin: *origin,
        versions,
        flags,
        date,
        text,
    })
}

/// Copies of the date and text of the Append with this id, or those of a message without an Append;
/// `Err` if memory runs out.
fn copy_dated_text(
    alloc: Global,
    dated_texts: &IndexMap<OpId, DatedText>,
    id: &OpId,
) -> Result<(DateTime, Text), AllocError>
    ensures date { IfOk result (λ copied. copied.0
        ≡ (unwrap_or
        (option_map stored_dated_text (lookup (same_id id.now) dated_texts.now.entries))
        no_dated_text).date) }
    ensures text { IfOk result (λ copied. copied.1
        ≡ (unwrap_or
        (option_map stored_dated_text (lookup (same_id id.now) dated_texts.now.entries))
        no_dated_text).text) }
{
    match dated_texts.get(id) {
        Some(dated) => Ok((dated.date.copy(), dated.text.copy()?)),
        None => Ok((DateTime::epoch(), Text::new(Vec::new(alloc))?)),
    }
}
