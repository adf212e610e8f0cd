//! `FolderAhead`: one folder after pending operations.

ghost use Rattle.std.specs.Prelude.{◌≡◌, ◌↔◌, ◌&&◌, ◌||◌, not, None, Some, true, if◌then◌else◌};
ghost use Rattle.std.specs.Prelude.{IfOk, OnOk, IsTrue};
ghost use Rattle.std.specs.List.{list_any, slice_get};
ghost use Rattle.std.specs.Map.{lookup};
ghost use Rattle.std.specs.Option.{option_map, option_or};
ghost use Rattle.std.specs.Str.{bytes_eq};
ghost use Rattle.imap_types.specs.Names.{inbox};
ghost use Rattle.tags_clocks.specs.declared.id.OpId.{OpId};
ghost use Rattle.crdt_ops.specs.SortedSets.{same_id};
ghost use Rattle.crdt_ops.specs.Sets.{tag_data_by, dated_text_from};
ghost use Rattle.crdt_ops.specs.Tags.{FolderTag, MessageTag, adds, removes};
ghost use Rattle.folder_state.specs.Contents.{Contents, HasVersion, IsFolder, IsMessageOf};
ghost use Rattle.folder_state.specs.Contents.{effect_of, origin_in};
ghost use Rattle.folder_state.specs.Tables.{contents_of};
ghost use Rattle.uid_projection.specs.FolderAhead.{IsAhead, IsOwned, IsOwnedAt, IsOrderly};
ghost use Rattle.uid_projection.specs.FolderAhead.{tag_data_ahead, folder_of, dated_texts_ahead};
ghost use Rattle.uid_projection.specs.FolderAhead.{message_ahead, tags_ahead};
ghost use Rattle.uid_projection.specs.TagChanges.{change_value};

use crate::messages_ahead::MessagesAhead;
use crate::presence_ahead::{has_added_tag, has_tag_left};
use crate::tag_changes::{DatedTextRef, note_dated_text, note_removed_tags, note_tag};
use crate::touched_origins::touch;
use crdt_ops::{Kind, Op, SoundOp};
use folder_state::{Folder, Folders};
use imap_types::{DateTime, Flags, Name, Text, Version};
use indexmap::IndexMap;
use mailbox_rows::{FolderMessages, OwnedMessage};
use std::alloc::{AllocError, Global};
use tags_clocks::OpId;

/// One folder after pending operations, which are applied one by one in order. The stored folder
/// stays unchanged.
pub struct FolderAhead<'a> {
    name: Name,
    value: &'a Folders,
    tags: IndexMap<OpId, bool>,
    messages: MessagesAhead<'a>,
    dated_texts: IndexMap<OpId, DatedTextRef<'a>>,
}

// By hand, so that crates above drop it whole.
impl<'a> Drop for FolderAhead<'a> {
    fn drop(self) {
        let Self {
            name: _,
            value: _,
            tags: _,
            messages: _,
            dated_texts: _,
        } = self;
    }
}

/// A folder's messages after pending operations: the stored messages, and the messages that replace
/// some of them or are new. A removed message is replaced by one without a version.
#[derive(Drop)]
pub struct MailboxAhead<'a> {
    /// The stored messages.
    pub mailbox: FolderMessages<'a>,
    /// The messages that the operations add or change, by their origins.
    pub fresh: IndexMap<OpId, OwnedMessage<'a>>,
}

impl<'a> FolderAhead<'a> {
    /// The stored folder, with no pending operation yet. `Err` if memory runs out. Cost: one
    /// look-up.
    pub fn new(
        alloc: Global,
        value: &'a Folders,
        name: &Name,
    ) -> Result<FolderAhead<'a>, AllocError>
        ensures folder { IfOk result (λ ahead. folder_of ahead ≡ name.now) }
        ensures ahead { IfOk result (λ ahead. IsAhead (contents_of value.now) ahead) }
    {
        let copied = name.copy(alloc)?;
        Ok(FolderAhead {
            name: copied,
            value,
            tags: IndexMap::new(alloc),
            messages: MessagesAhead::new(alloc, value.folder(name)),
            dated_texts: IndexMap::new(alloc),
        })
    }

    /// Applies an operation. `Err` if memory runs out; the folder can't be used after that. Cost:
    /// the ids that the operation names; if it is about another folder, only an Append's date and
    /// text.
    pub fn step(&mut self, alloc: Global, op: &'a SoundOp) -> Result<(), AllocError>
        ensures folder { folder_of self.new ≡ folder_of self.old }
        ensures ahead { OnOk result
            ((c : Contents) → IsAhead c self.old → IsAhead (effect_of c op.now) self.new) }
    {
        let op = op.op();
        self.take_tags_of(alloc, op)?;
        self.put_tag_of(alloc, op)?;
        self.add_dated_text(alloc, op)
    }

    /// Removes the tags that the operation removes, if it is about this folder.
    fn take_tags_of(&mut self, alloc: Global, op: &Op) -> Result<(), AllocError>
        ensures folder { folder_of self.new ≡ folder_of self.old }
        ensures orderly { OnOk result (IsOrderly self.old → IsOrderly self.new) }
        ensures tags { OnOk result ((i : OpId)
            → tags_ahead self.new i
            ≡ (not (removes (FolderTag (folder_of self.old) i) op.now)
            && tags_ahead self.old i)) }
        ensures tag_data { OnOk result ((i : OpId)
            → tag_data_ahead self.new i
            ≡ (if removes (MessageTag (folder_of self.old) i) op.now then None
            else tag_data_ahead self.old i)) }
        ensures dated_texts { OnOk result
            ((i : OpId) → dated_texts_ahead self.new i ≡ dated_texts_ahead self.old i) }
    {
        match &op.kind {
            Kind::Delete { folder, seen } => self.take_all(alloc, folder, seen.as_slice()),
            Kind::Expunge { folder, old_ids } => self.take_messages(
                alloc,
                folder,
                old_ids.as_slice(),
            ),
            Kind::Store {
                folder,
                old_ids,
                ..
            } => self.take_messages(alloc, folder, old_ids.as_slice()),
            Kind::Create { .. } => Ok(()),
            Kind::Append { .. } => Ok(()),
            Kind::Subscribe { .. } => Ok(()),
            Kind::Unsubscribe { .. } => Ok(()),
        }
    }

    /// Removes the folder tags and message tags with these ids, if `folder` is this folder.
    fn take_all(&mut self, alloc: Global, folder: &Name, ids: &[OpId]) -> Result<(), AllocError>
        ensures folder { folder_of self.new ≡ folder_of self.old }
        ensures orderly { OnOk result (IsOrderly self.old → IsOrderly self.new) }
        ensures tags { OnOk result ((i : OpId)
            → tags_ahead self.new i
            ≡ (not (bytes_eq (folder_of self.old) folder.now && list_any (same_id i) ids.now)
            && tags_ahead self.old i)) }
        ensures tag_data { OnOk result ((i : OpId)
            → tag_data_ahead self.new i
            ≡ (if bytes_eq (folder_of self.old) folder.now && list_any (same_id i) ids.now
            then None
            else tag_data_ahead self.old i)) }
        ensures dated_texts { OnOk result
            ((i : OpId) → dated_texts_ahead self.new i ≡ dated_texts_ahead self.old i) }
    {
        if self.name.as_bytes() != folder.as_bytes() {
            return Ok(());
        }
        note_removed_tags(&mut self.tags, ids)?;
        self.messages.take(alloc, ids)
    }

    /// Removes the message tags with these ids, if `folder` is this folder.
    fn take_messages(
        &mut self,
        alloc: Global,
        folder: &Name,
        ids: &[OpId],
    ) -> Result<(), AllocError>
        ensures folder { folder_of self.new ≡ folder_of self.old }
        ensures orderly { OnOk result (IsOrderly self.old → IsOrderly self.new) }
        ensures tags { (i : OpId) → tags_ahead self.new i ≡ tags_ahead self.old i }
        ensures tag_data { OnOk result ((i : OpId)
            → tag_data_ahead self.new i
            ≡ (if bytes_eq (folder_of self.old) folder.now && list_any (same_id i) ids.now
            then None
            else tag_data_ahead self.old i)) }
        ensures dated_texts { (i : OpId)
            → dated_texts_ahead self.new i ≡ dated_texts_ahead self.old i }
    {
        if self.name.as_bytes() != folder.as_bytes() {
            return Ok(());
        }
        self.messages.take(alloc, ids)
    }

    /// Inserts the tag that the operation adds, if it is about this folder.
    fn put_tag_of(&mut self, alloc: Global, op: &'a Op) -> Result<(), AllocError>
        ensures folder { folder_of self.new ≡ folder_of self.old }
        ensures orderly { OnOk result (IsOrderly self.old → IsOrderly self.new) }
        ensures tags { OnOk result ((i : OpId)
            → tags_ahead self.new i
            ≡ (adds (FolderTag (folder_of self.old) i) op.now || tags_ahead self.old i)) }
        ensures tag_data { OnOk result ((i : OpId)
            → tag_data_ahead self.new i
            ≡ (if adds (MessageTag (folder_of self.old) i) op.now
            then tag_data_by op.now.id op.now.kind
            else tag_data_ahead self.old i)) }
        ensures dated_texts { OnOk result
            ((i : OpId) → dated_texts_ahead self.new i ≡ dated_texts_ahead self.old i) }
    {
        match &op.kind {
            Kind::Create { folder } => self.put_tag(folder, &op.id),
            Kind::Expunge { folder, .. } => self.put_tag(folder, &op.id),
            Kind::Append { folder, flags, .. } => {
                self.put_message(alloc, folder, &op.id, flags, &op.id)
            }
            Kind::Store {
                folder,
                flags,
                origin,
                ..
            } => self.put_message(alloc, folder, &op.id, flags, origin),
            Kind::Delete { .. } => Ok(()),
            Kind::Subscribe { .. } => Ok(()),
            Kind::Unsubscribe { .. } => Ok(()),
        }
    }

    /// Inserts the folder tag with this id, if `folder` is this folder.
    fn put_tag(&mut self, folder: &Name, id: &OpId) -> Result<(), AllocError>
        ensures folder { folder_of self.new ≡ folder_of self.old }
        ensures orderly { OnOk result (IsOrderly self.old → IsOrderly self.new) }
        ensures tags { OnOk result ((i : OpId)
            → tags_ahead self.new i
            ≡ (bytes_eq (folder_of self.old) folder.now && same_id i id.now
            || tags_ahead self.old i)) }
        ensures tag_data { (i : OpId) → tag_data_ahead self.new i ≡ tag_data_ahead self.old i }
        ensures dated_texts { (i : OpId)
            → dated_texts_ahead self.new i ≡ dated_texts_ahead self.old i }
    {
        if self.name.as_bytes() != folder.as_bytes() {
            return Ok(());
        }
        note_tag(&mut self.tags, id, true)
    }

    /// Inserts the message tag with this id, if `folder` is this folder.
    fn put_message(
        &mut self,
        alloc: Global,
        folder: &Name,
        id: &OpId,
        flags: &'a Flags,
        origin: &OpId,
    ) -> Result<(), AllocError>
        ensures folder { folder_of self.new ≡ folder_of self.old }
        ensures orderly { OnOk result (IsOrderly self.old → IsOrderly self.new) }
        ensures tags { (i : OpId) → tags_ahead self.new i ≡ tags_ahead self.old i }
        ensures tag_data { OnOk result ((i : OpId)
            → tag_data_ahead self.new i
            ≡ (if bytes_eq (folder_of self.old) folder.now && same_id i id.now
            then Some (record { flags = flags.now; origin = origin.now })
            else tag_data_ahead self.old i)) }
        ensures dated_texts { (i : OpId)
            → dated_texts_ahead self.new i ≡ dated_texts_ahead self.old i }
    {
        if self.name.as_bytes() != folder.as_bytes() {
            return Ok(());
        }
        self.messages.put(alloc, id, flags, origin)
    }

    /// Stores the date and text of an Append. The Append may be of any folder, since its id may be
    /// the origin of a message of this one.
    fn add_dated_text(&mut self, alloc: Global, op: &'a Op) -> Result<(), AllocError>
        ensures folder { folder_of self.new ≡ folder_of self.old }
        ensures orderly { OnOk result (IsOrderly self.old → IsOrderly self.new) }
        ensures tags { (i : OpId) → tags_ahead self.new i ≡ tags_ahead self.old i }
        ensures tag_data { (i : OpId) → tag_data_ahead self.new i ≡ tag_data_ahead self.old i }
        ensures dated_texts { OnOk result ((i : OpId)
            → dated_texts_ahead self.new i
            ≡ option_or (dated_text_from i op.now) (dated_texts_ahead self.old i)) }
    {
        match &op.kind {
            Kind::Append { date, text, .. } => self.put_dated_text(alloc, &op.id, date, text),
            _ => Ok(()),
        }
    }

    /// Stores a date and text under this id.
    fn put_dated_text(
        &mut self,
        alloc: Global,
        id: &OpId,
        date: &'a DateTime,
        text: &'a Text,
    ) -> Result<(), AllocError>
        ensures folder { folder_of self.new ≡ folder_of self.old }
        ensures orderly { OnOk result (IsOrderly self.old → IsOrderly self.new) }
        ensures tags { (i : OpId) → tags_ahead self.new i ≡ tags_ahead self.old i }
        ensures tag_data { (i : OpId) → tag_data_ahead self.new i ≡ tag_data_ahead self.old i }
        ensures dated_texts { OnOk result ((i : OpId)
            → dated_texts_ahead self.new i
            ≡ (if same_id i id.now then Some (record { date = date.now; text = text.now })
            else dated_texts_ahead self.old i)) }
    {
        touch(alloc, &mut self.messages.versions, id)?;
        note_dated_text(&mut self.dated_texts, id, date, text)
    }

    /// Whether the folder exists: it is INBOX or has a present tag. Takes no memory. Cost: the tags
    /// that the operations changed, from the last one on, and then the stored ones, up to the first
    /// present one.
    pub fn exists(&self) -> bool
        ensures { (c : Contents) → IsAhead c self.now
            → IsTrue result ↔ IsFolder c (folder_of self.now) }
    {
        self.is_inbox()
            || has_added_tag(&self.tags)
            || self.messages.has_put()
            || has_tag_left(&self.tags, &self.messages)
    }

    /// Whether the folder is INBOX.
    fn is_inbox(&self) -> bool
        ensures { result ≡ bytes_eq (folder_of self.now) inbox }
    {
        self.name.as_bytes() == b"INBOX".as_slice()
    }

    /// Whether the origin has a version in the folder. Takes no memory. Cost: the origin's added
    /// and stored versions, up to the first present one.
    pub fn has_version(&self, origin: &OpId) -> bool
        ensures { (c : Contents) → IsAhead c self.now
            → IsTrue result ↔ HasVersion c (folder_of self.now) origin.now }
    {
        self.messages.has_version(origin)
    }

    /// The origin of the message tag with this id, or `None` if the tag isn't present. Takes no
    /// memory. Cost: two look-ups.
    pub fn origin_of(&self, id: &OpId) -> Option<OpId>
        ensures { (c : Contents) → IsAhead c self.now
            → result ≡ origin_in c (folder_of self.now) id.now }
    {
        self.messages.origin_of(id)
    }

    /// Puts the message of the origin at this place into `fresh`. `Err` if memory runs out.
    fn put_owned_at(
        &self,
        alloc: Global,
        place: usize,
        fresh: &mut IndexMap<OpId, OwnedMessage<'a>>,
    ) -> Result<(), AllocError>
        ensures { OnOk result (IsOwnedAt self.now
            (option_map (λ e. e.0) (slice_get self.now.messages.versions.entries place))
            fresh.old.entries fresh.new.entries) }
    {
        match self.messages.versions.get_index(place) {
            Some((origin, _)) => put_owned(fresh, origin, self.owned_message(alloc, origin)?),
            None => Ok(()),
        }
    }

    /// The message of an origin. `Err` if memory runs out.
    fn owned_message(&self, alloc: Global, origin: &OpId) -> Result<OwnedMessage<'a>, AllocError>
        ensures { IsOrderly self.now
            → IfOk result (λ message. IsOwned self.now origin.now message) }
    {
        let versions = self.messages.versions_of(alloc, origin)?;
        Ok(with_dated_text(self.dated_text(origin), versions))
    }

    /// The date and text of the Append with this id, or `None` if no such Append was applied.
    fn dated_text(&self, id: &OpId) -> Option<DatedTextRef<'a>>
        ensures { option_map change_value result ≡ dated_texts_ahead self.now id.now }
    {
        match self.dated_texts.get(id).copied() {
            Some(dated) => Some(dated),
            None => stored_dated_text(self.value, id),
        }
    }

    /// The folder's messages. `Err` if memory runs out. Cost: the versions of the messages that the
    /// operations added or changed.
    pub fn mailbox(&self, alloc: Global) -> Result<MailboxAhead<'a>, AllocError>
        ensures { IfOk result (λ ahead. (c : Contents) → IsAhead c self.now → (origin : OpId)
            → HasVersion c (folder_of self.now) origin
            → IsMessageOf c (folder_of self.now) origin (message_ahead ahead origin)) }
    {
        let mut fresh = IndexMap::new(alloc);
        for at in 0..self.messages.versions.len() {
            self.put_owned_at(alloc, at, &mut fresh)?;
        }
        Ok(MailboxAhead {
            mailbox: self.value.mailbox(&self.name),
            fresh,
        })
    }
}

/// Inserts the message for its origin. `Err` if memory runs out; the others are then unchanged.
fn put_owned<'a>(
    fresh: &mut IndexMap<OpId, OwnedMessage<'a>>,
    origin: &OpId,
    message: OwnedMessage<'a>,
) -> Result<(), AllocError>
    ensures { OnOk result ((o : OpId)
        → lookup (same_id o) fresh.new.entries
        ≡ (if same_id origin.now o then Some message.entry
        else lookup (same_id o) fresh.old.entries)) }
{
    if fresh.insert(*origin, message).is_err() {
        return Err(AllocError);
    }
    Ok(())
}

/// The stored date and text of the Append with this id, if any.
fn stored_dated_text<'a>(value: &'a Folders, id: &OpId) -> Option<DatedTextRef<'a>>
    ensures { option_map change_value result ≡ (contents_of value.now).dated_texts id.now }
{
    match value.dated_text(id) {
        Some(dated) => Some(DatedTextRef {
            date: &dated.date,
            text: &dated.text,
        }),
        None => None,
    }
}

/// The message with these versions and with this date and text, if any.
fn with_dated_text<'a>(dated: Option<DatedTextRef<'a>>, versions: Vec<Version>) -> OwnedMessage<'a>
    ensures versions { result.versions ≡ versions }
    ensures date { option_map (λ date. date.now) result.date
        ≡ option_map (λ l. l.date) (option_map change_value dated.entry) }
    ensures text { option_map (λ text. text.now) result.text
        ≡ option_map (λ l. l.text) (option_map change_value dated.entry) }
{
    match dated {
        Some(dated) => OwnedMessage {
            versions,
            date: Some(dated.date),
            text: Some(dated.text),
        },
        None => OwnedMessage {
            versions,
            date: None,
            text: None,
        },
    }
}
