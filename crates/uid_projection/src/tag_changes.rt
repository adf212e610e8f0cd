//! What pending operations change in a folder: its folder tags, its message tags, and dates and
//! texts. All is borrowed from the operations.

ghost use Rattle.std.specs.Prelude.{◌≡◌, true, false, None, Some, if◌then◌else◌, OnErr, OnOk};
ghost use Rattle.std.specs.List.{list_any};
ghost use Rattle.std.specs.Map.{lookup};
ghost use Rattle.tags_clocks.specs.declared.id.OpId.{OpId};
ghost use Rattle.crdt_ops.specs.SortedSets.{same_id};

use imap_types::{DateTime, Flags, Text};
use indexmap::IndexMap;
use std::alloc::AllocError;
use tags_clocks::OpId;

/// A message tag after pending operations.
#[derive(Clone, Copy)]
pub struct TagChange<'a> {
    /// The flags that the tag carries, or `None` if it was removed.
    pub flags: Option<&'a Flags>,
    /// The id of the Append that has the message's date and text.
    pub origin: OpId,
}

/// The date and text of an Append, borrowed.
#[derive(Clone, Copy)]
pub struct DatedTextRef<'a> {
    /// When the message was received.
    pub date: &'a DateTime,
    /// The message's octets.
    pub text: &'a Text,
}

/// Notes whether the folder tag with this id is present. `Err` if memory runs out; the notes are
/// then unchanged.
pub fn note_tag(tags: &mut IndexMap<OpId, bool>, id: &OpId, present: bool) -> Result<(), AllocError>
    ensures { OnOk result ((i : OpId)
        → lookup (same_id i) tags.new.entries
        ≡ (if same_id id.now i then Some present else lookup (same_id i) tags.old.entries)) }
{
    if tags.insert(*id, present).is_err() {
        return Err(AllocError);
    }
    Ok(())
}

/// Notes that the folder tags with these ids are removed. `Err` if memory runs out.
pub fn note_removed_tags(tags: &mut IndexMap<OpId, bool>, ids: &[OpId]) -> Result<(), AllocError>
    ensures { OnOk result ((i : OpId)
        → lookup (same_id i) tags.new.entries
        ≡ (if list_any (same_id i) ids.now then Some false
        else lookup (same_id i) tags.old.entries)) }
{
    for id in ids {
        note_tag(tags, id, false)?;
    }
    Ok(())
}

/// Notes the change to the message tag with this id. `Err` if memory runs out; the notes are then
/// unchanged.
pub fn note_change<'a>(
    changes: &mut IndexMap<OpId, TagChange<'a>>,
    id: &OpId,
    flags: Option<&'a Flags>,
    origin: &OpId,
) -> Result<(), AllocError>
    ensures ok { OnOk result ((i : OpId)
        → lookup (same_id i) changes.new.entries
        ≡ (if same_id id.now i then Some (record { flags = flags.entry; origin = origin.now })
        else lookup (same_id i) changes.old.entries)) }
    ensures err { OnErr result ((i : OpId)
        → lookup (same_id i) changes.new.entries ≡ lookup (same_id i) changes.old.entries) }
{
    let change = TagChange {
        flags,
        origin: *origin,
    };
    if changes.insert(*id, change).is_err() {
        return Err(AllocError);
    }
    Ok(())
}

/// Notes the date and text of the Append with this id. `Err` if memory runs out; the notes are then
/// unchanged.
pub fn note_dated_text<'a>(
    dated_texts: &mut IndexMap<OpId, DatedTextRef<'a>>,
    id: &OpId,
    date: &'a DateTime,
    text: &'a Text,
) -> Result<(), AllocError>
    ensures ok { OnOk result ((i : OpId)
        → lookup (same_id i) dated_texts.new.entries
        ≡ (if same_id id.now i then Some (record { date = date.entry; text = text.entry })
        else lookup (same_id i) dated_texts.old.entries)) }
    ensures err { OnErr result ((i : OpId)
        → lookup (same_id i) dated_texts.new.entries ≡ lookup (same_id i) dated_texts.old.entries) }
{
    if dated_texts
        .insert(*id, DatedTextRef { date, text })
        .is_err()
    {
        return Err(AllocError);
    }
    Ok(())
}
