//! Folders and subscriptions in plain lists: each answer goes through all tags.

use crate::fixtures::Trouble;
use crdt_ops::{Ids, Kind, Message, Op, insert_name};
use imap_types::{DateTime, Flags, Name, Text, add_flags};
use std::alloc::{AllocError, Global};
use tags_clocks::OpId;

/// A present folder tag or subscription tag.
#[derive(Drop)]
pub struct PlainTag {
    name: Name,
    id: OpId,
}

/// A present message tag.
#[derive(Drop)]
struct PlainVersion {
    folder: Name,
    id: OpId,
    origin: OpId,
    flags: Flags,
}

/// The date and text of an Append.
#[derive(Drop)]
struct PlainDatedText {
    id: OpId,
    date: DateTime,
    text: Text,
}

/// Folders and subscriptions in plain lists.
#[derive(Drop)]
pub struct PlainMailboxes {
    /// The present folder tags.
    pub folder_tags: Vec<PlainTag>,
    versions: Vec<PlainVersion>,
    dated_texts: Vec<PlainDatedText>,
    /// The present subscription tags.
    pub subscriptions: Vec<PlainTag>,
}

impl PlainMailboxes {
    /// No folders but INBOX, no messages and no subscriptions.
    pub fn new(alloc: Global) -> PlainMailboxes {
        PlainMailboxes {
            folder_tags: Vec::new(alloc),
            versions: Vec::new(alloc),
            dated_texts: Vec::new(alloc),
            subscriptions: Vec::new(alloc),
        }
    }

    /// Applies an operation: first removes the tags that it removes, then adds the one that it
    /// adds.
    pub fn apply(&mut self, alloc: Global, op: &Op) -> Result<(), Trouble> {
        self.forget(op);
        self.add(alloc, op)
    }

    fn forget(&mut self, op: &Op) {
        let name = op.kind.name();
        let removed = op.kind.removed_ids();
        match &op.kind {
            Kind::Unsubscribe { .. } => forget_tags(&mut self.subscriptions, name, removed),
            Kind::Delete { .. } => {
                forget_tags(&mut self.folder_tags, name, removed);
                forget_versions(&mut self.versions, name, removed);
            }
            _ => forget_versions(&mut self.versions, name, removed),
        }
    }

    fn add(&mut self, alloc: Global, op: &Op) -> Result<(), Trouble> {
        let name = op.kind.name();
        match &op.kind {
            Kind::Create { .. } => add_tag(alloc, &mut self.folder_tags, name, op.id),
            Kind::Expunge { .. } => add_tag(alloc, &mut self.folder_tags, name, op.id),
            Kind::Subscribe { .. } => add_tag(alloc, &mut self.subscriptions, name, op.id),
            Kind::Append {
                flags,
                date,
                text,
                ..
            } => {
                add_version(alloc, &mut self.versions, name, op.id, op.id, flags)?;
                add_dated_text(&mut self.dated_texts, op.id, date, text)
            }
            Kind::Store { flags, origin, .. } => {
                add_version(alloc, &mut self.versions, name, op.id, *origin, flags)
            }
            _ => Ok(()),
        }
    }

    /// Whether the folder exists: it is INBOX, or has a tag.
    pub fn exists(&self, folder: &Name) -> bool {
        folder.as_bytes() == b"INBOX".as_slice()
            || has_tag(&self.folder_tags, folder)
            || has_message(&self.versions, folder)
    }

    /// Whether the origin has a version in the folder.
    pub fn has_version(&self, folder: &Name, origin: &OpId) -> bool {
        for version in &self.versions {
            if version.origin == *origin && version.folder.same(folder) {
                return true;
            }
        }
        false
    }

    /// The ids of the origin's versions in the folder, ascending.
    pub fn versions(&self, alloc: Global, folder: &Name, origin: &OpId) -> Result<Ids, AllocError> {
        let mut ids = Ids::none(alloc);
        for version in &self.versions {
            if version.origin == *origin && version.folder.same(folder) {
                ids.insert(version.id)?;
            }
        }
        Ok(ids)
    }

    /// The names of the folders, ascending.
    pub fn names(&self, alloc: Global) -> Result<Vec<Name>, AllocError> {
        let mut names = Vec::new(alloc);
        names.push(Name::inbox(alloc)?)?;
        place_names(alloc, &mut names, &self.folder_tags)?;
        for version in &self.versions {
            insert_name(alloc, &mut names, &version.folder)?;
        }
        Ok(names)
    }

    /// The subscribed names, ascending.
    pub fn subscribed_names(&self, alloc: Global) -> Result<Vec<Name>, AllocError> {
        let mut names = Vec::new(alloc);
        place_names(alloc, &mut names, &self.subscriptions)?;
        Ok(names)
    }

    /// The ids that a Delete of the folder lists.
    pub fn delete_set(&self, alloc: Global, folder: &Name) -> Result<Ids, AllocError> {
        let mut ids = ids_of(alloc, &self.folder_tags, folder)?;
        for version in &self.versions {
            if version.folder.same(folder) {
                ids.insert(version.id)?;
            }
        }
        Ok(ids)
    }

    /// The origins that lose a version by this operation, ascending.
    pub fn losing_origins(&self, alloc: Global, op: &Op) -> Result<Ids, AllocError> {
        let mut origins = Ids::none(alloc);
        for version in &self.versions {
            if version.folder.same(op.kind.name()) && op.kind.removed_ids().contains(&version.id) {
                origins.insert(version.origin)?;
            }
        }
        Ok(origins)
    }

    /// The folder's messages, by ascending origins.
    pub fn messages(&self, alloc: Global, folder: &Name) -> Result<Vec<Message>, AllocError> {
        let origins = self.origins(alloc, folder)?;
        let mut messages = Vec::new(alloc);
        for origin in origins.as_slice() {
            messages.push(self.message(alloc, folder, origin)?)?;
        }
        Ok(messages)
    }

    fn origins(&self, alloc: Global, folder: &Name) -> Result<Ids, AllocError> {
        let mut origins = Ids::none(alloc);
        for version in &self.versions {
            if version.folder.same(folder) {
                origins.insert(version.origin)?;
            }
        }
        Ok(origins)
    }

    /// The folder's message of this origin, with the union of its versions' flags.
    pub fn message(
        &self,
        alloc: Global,
        folder: &Name,
        origin: &OpId,
    ) -> Result<Message, AllocError> {
        let mut versions = Ids::none(alloc);
        let mut flags = Flags::none(alloc);
        for version in &self.versions {
            if version.origin == *origin && version.folder.same(folder) {
                versions.insert(version.id)?;
                add_flags(alloc, &mut flags, &version.flags)?;
            }
        }
        let (date, text) = self.dated_text(alloc, origin)?;
        Ok(Message {
            origin: *origin,
            versions,
            flags,
            date,
            text,
        })
    }

    fn dated_text(&self, alloc: Global, origin: &OpId) -> Result<(DateTime, Text), AllocError> {
        for dated_text in &self.dated_texts {
            if dated_text.id == *origin {
                return Ok((dated_text.date.copy(), dated_text.text.copy()?));
            }
        }
        Ok((DateTime::epoch(), Text::new(Vec::new(alloc))?))
    }
}

/// Whether one of the tags is the name's.
fn has_tag(tags: &[PlainTag], name: &Name) -> bool {
    for tag in tags {
        if tag.name.same(name) {
            return true;
        }
    }
    false
}

/// Whether one of the versions is in the folder.
fn has_message(versions: &[PlainVersion], folder: &Name) -> bool {
    for version in versions {
        if version.folder.same(folder) {
            return true;
        }
    }
    false
}

fn forget_tags(tags: &mut Vec<PlainTag>, name: &Name, ids: &[OpId]) {
    tags.retain(|tag| !(tag.name.same(name) && ids.contains(&tag.id)));
}

fn forget_versions(versions: &mut Vec<PlainVersion>, folder: &Name, ids: &[OpId]) {
    versions.retain(|version| !(version.folder.same(folder) && ids.contains(&version.id)));
}

fn add_tag(alloc: Global, tags: &mut Vec<PlainTag>, name: &Name, id: OpId) -> Result<(), Trouble> {
    let name = name.copy(alloc)?;
    tags.push(PlainTag { name, id })?;
    Ok(())
}

fn add_version(
    alloc: Global,
    versions: &mut Vec<PlainVersion>,
    folder: &Name,
    id: OpId,
    origin: OpId,
    flags: &Flags,
) -> Result<(), Trouble> {
    let folder = folder.copy(alloc)?;
    let flags = flags.copy(alloc)?;
    versions.push(PlainVersion {
        folder,
        id,
        origin,
        flags,
    })?;
    Ok(())
}

fn add_dated_text(
    dated_texts: &mut Vec<PlainDatedText>,
    id: OpId,
    date: &DateTime,
    text: &Text,
) -> Result<(), Trouble> {
    let date = date.copy();
    let text = text.copy()?;
    dated_texts.push(PlainDatedText { id, date, text })?;
    Ok(())
}

fn place_names(alloc: Global, names: &mut Vec<Name>, tags: &[PlainTag]) -> Result<(), AllocError> {
    for tag in tags {
        insert_name(alloc, names, &tag.name)?;
    }
    Ok(())
}

/// The ids of the name's tags, ascending.
pub fn ids_of(alloc: Global, tags: &[PlainTag], name: &Name) -> Result<Ids, AllocError> {
    let mut ids = Ids::none(alloc);
    for tag in tags {
        if tag.name.same(name) {
            ids.insert(tag.id)?;
        }
    }
    Ok(ids)
}
