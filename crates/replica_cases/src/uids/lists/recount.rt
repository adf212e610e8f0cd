//! The numbers of a folder and of its messages, counted plainly over a list of operations.
//!
//! Everything is written from the definitions in docs/replication.md, over the whole list and
//! without the tables of the tested code: a tag is present after some operations if one of them
//! adds it and none removes it; all else is counted from that.

use crdt_ops::{Kind, Op, SoundOp};
use imap_types::Name;
use std::alloc::{AllocError, Global};
use tags_clocks::OpId;
use uid_projection::Counters;

/// A list of operations in the order in which a replica applies them, and when their tags are
/// removed.
#[derive(Drop)]
pub struct Recount<'a> {
    /// The replica, its first UID in INBOX, and the first k of other folders.
    pub start: Counters,
    /// The operations.
    pub ops: Vec<&'a Op>,
    /// For each operation, after how many operations its tag is absent; the greatest number if
    /// none removes it.
    removed_after: Vec<usize>,
}

/// A tag that an operation adds to its folder.
#[derive(Clone, Copy)]
enum Tag {
    /// None.
    Absent,
    /// A folder tag.
    Folder,
    /// A message tag with this origin.
    Message(OpId),
}

/// A folder after the list.
#[derive(Drop)]
pub struct CountedFolder {
    /// Its UIDVALIDITY, if it exists.
    pub uidvalidity: Option<u64>,
    /// Its UIDNEXT.
    pub uidnext: u32,
    /// Its HIGHESTMODSEQ.
    pub highest: u64,
    /// How many UIDs messages have had.
    pub uids: u32,
    /// Its messages, by ascending UID.
    pub rows: Vec<CountedRow>,
}

/// A message in the listing of a folder.
#[derive(Drop)]
pub struct CountedRow {
    /// Its UID.
    pub uid: u32,
    /// Its mod-sequence.
    pub modseq: u64,
    /// Its origin.
    pub origin: OpId,
    /// The places of the operations whose tags are its versions.
    pub versions: Vec<usize>,
}

/// The lines of messages of a folder's incarnation.
#[derive(Drop)]
struct Lines {
    /// The place of the operation that began the incarnation, or of the first one of all if none
    /// did.
    first: usize,
    /// For each operation of the list, the origin of the line that it begins, if it begins one.
    origins: Vec<Option<OpId>>,
}

impl<'a> Recount<'a> {
    /// The lists, one after the other.
    pub fn new(
        alloc: Global,
        start: Counters,
        first: &'a [SoundOp],
        then: &'a [SoundOp],
    ) -> Result<Recount<'a>, AllocError> {
        let mut ops = Vec::new(alloc);
        push_all(&mut ops, first)?;
        push_all(&mut ops, then)?;
        let removed_after = removals(alloc, &ops)?;
        Ok(Recount {
            start,
            ops,
            removed_after,
        })
    }

    /// How many operations there are.
    fn count(&self) -> usize {
        self.ops.len()
    }

    /// Whether the tag of the operation at this place is present after `count` operations.
    fn is_present(&self, place: usize, count: usize) -> bool {
        match self.removed_after.get(place) {
            Some(removed) => place < count && count < *removed,
            None => false,
        }
    }

    /// The tag that the operation at this place adds to the folder.
    fn tag_in(&self, folder: &Name, place: usize) -> Tag {
        match self.ops.get(place) {
            Some(op) if names_folder(op, folder) => added_tag(op),
            _ => Tag::Absent,
        }
    }

    /// Whether the folder exists after `count` operations.
    fn exists_after(&self, folder: &Name, count: usize) -> bool {
        if is_inbox(folder) {
            return true;
        }
        for place in 0..count {
            if self.is_present(place, count) && !matches!(self.tag_in(folder, place), Tag::Absent) {
                return true;
            }
        }
        false
    }

    /// Whether the folder exists.
    pub fn exists(&self, folder: &Name) -> bool {
        self.exists_after(folder, self.count())
    }

    /// Whether an operation adds a tag to the folder.
    pub fn has_existed(&self, folder: &Name) -> bool {
        for place in 0..self.count() {
            if !matches!(self.tag_in(folder, place), Tag::Absent) {
                return true;
            }
        }
        false
    }

    /// Whether the operation at this place adds a version of the message.
    fn adds_version(&self, folder: &Name, origin: &OpId, place: usize) -> bool {
        match self.tag_in(folder, place) {
            Tag::Message(of) => of == *origin,
            _ => false,
        }
    }

    /// Whether the message has a version after `count` operations.
    fn has_version_after(&self, folder: &Name, origin: &OpId, count: usize) -> bool {
        for place in 0..count {
            if self.is_present(place, count) && self.adds_version(folder, origin, place) {
                return true;
            }
        }
        false
    }

    /// Whether the message has a version.
    pub fn has_version(&self, folder: &Name, origin: &OpId) -> bool {
        self.has_version_after(folder, origin, self.count())
    }

    /// The places of the operations whose tags are the versions of the message.
    pub fn versions(
        &self,
        alloc: Global,
        folder: &Name,
        origin: &OpId,
    ) -> Result<Vec<usize>, AllocError> {
        let mut places = Vec::new(alloc);
        for place in 0..self.count() {
            let is_present = self.is_present(place, self.count());
            if is_present && self.adds_version(folder, origin, place) {
                places.push(place)?;
            }
        }
        Ok(places)
    }

    /// After how many operations the folder's incarnation began: it exists after these, and after
    /// each longer part of the list.
    fn incarnation_start(&self, folder: &Name) -> usize {
        let mut start: usize = 0;
        for count in 0..=self.count() {
            if !self.exists_after(folder, count) {
                start = count.saturating_add(1);
            }
        }
        start
    }

    /// Whether the operation at this place begins an incarnation of a folder other than INBOX.
    fn begins_incarnation(&self, place: usize) -> bool {
        match self.ops.get(place) {
            Some(op) => {
                let folder = op.kind.name();
                let after = place.saturating_add(1);
                !self.exists_after(folder, place) && self.exists_after(folder, after)
            }
            None => false,
        }
    }

    /// The folder's UIDVALIDITY: the replica's number for INBOX, otherwise 65,536 times k more,
    /// where k is the first one plus one for each incarnation that began earlier.
    fn uidvalidity(&self, folder: &Name, first: usize) -> Option<u64> {
        let replica = u64::from(self.start.replica.get());
        if is_inbox(folder) {
            return Some(replica);
        }
        if !self.exists(folder) {
            return None;
        }
        let mut k = u64::from(self.start.k);
        for place in 0..first {
            if self.begins_incarnation(place) {
                k = k.saturating_add(1);
            }
        }
        Some(k.saturating_mul(65_536).saturating_add(replica))
    }

    /// The place of the operation that began the folder's incarnation, or of the first one of all
    /// if none did.
    fn first_place(&self, folder: &Name) -> usize {
        self.incarnation_start(folder).saturating_sub(1)
    }

    /// Whether the operation at this place is about the folder and belongs to its incarnation.
    fn is_counted(&self, folder: &Name, first: usize, place: usize) -> bool {
        match self.ops.get(place) {
            Some(op) => first <= place && names_folder(op, folder),
            None => false,
        }
    }

    /// The mod-sequence after the operations before the place `end`: 1, and one more for each that
    /// is about the folder and belongs to its incarnation.
    fn modseq_before(&self, folder: &Name, first: usize, end: usize) -> u64 {
        let mut modseq: u64 = 1;
        for place in first..end {
            if self.is_counted(folder, first, place) {
                modseq = modseq.saturating_add(1);
            }
        }
        modseq
    }

    /// The origin of the line that the operation at this place begins: that of the version that it
    /// adds, if the message had no version just before.
    fn line_begun(&self, folder: &Name, place: usize) -> Option<OpId> {
        match self.tag_in(folder, place) {
            Tag::Message(origin) => self.unless_version(folder, origin, place),
            Tag::Folder | Tag::Absent => None,
        }
    }

    /// The origin, unless its message has a version after `count` operations.
    fn unless_version(&self, folder: &Name, origin: OpId, count: usize) -> Option<OpId> {
        if self.has_version_after(folder, &origin, count) {
            return None;
        }
        Some(origin)
    }

    /// The first UID of the folder.
    fn first_uid(&self, folder: &Name) -> u32 {
        if is_inbox(folder) { self.start.uid } else { 1 }
    }

    /// The lines of the folder's incarnation.
    fn lines(&self, alloc: Global, folder: &Name) -> Result<Lines, AllocError> {
        let mut origins = Vec::new(alloc);
        for place in 0..self.count() {
            origins.push(self.line_begun(folder, place))?;
        }
        Ok(Lines {
            first: self.first_place(folder),
            origins,
        })
    }

    /// The folder's numbers and messages.
    pub fn folder(&self, alloc: Global, folder: &Name) -> Result<CountedFolder, AllocError> {
        let lines = self.lines(alloc, folder)?;
        let rows = self.rows(alloc, folder, &lines)?;
        let first = lines.first;
        let uids = lines.count();
        drop(lines);
        Ok(CountedFolder {
            uidvalidity: self.uidvalidity(folder, first),
            uidnext: self.first_uid(folder).saturating_add(uids),
            highest: self.modseq_before(folder, first, self.count()),
            uids,
            rows,
        })
    }

    /// The place of the operation that last changed whether the tag of the one at this place is
    /// present: of the one that removes it, or this place if none does.
    fn last_change(&self, place: usize) -> usize {
        match self.removed_after.get(place) {
            Some(removed) if *removed <= self.count() => removed.saturating_sub(1).max(place),
            _ => place,
        }
    }

    /// The message's mod-sequence: the one after the last operation that changed its versions.
    fn modseq_of(&self, folder: &Name, first: usize, origin: &OpId) -> u64 {
        let mut last = first;
        for version in 0..self.count() {
            if self.adds_version(folder, origin, version) {
                last = last.max(self.last_change(version));
            }
        }
        self.modseq_before(folder, first, last.saturating_add(1))
    }

    /// The folder's messages, by ascending UID: a message has the UID of its last line.
    fn rows(
        &self,
        alloc: Global,
        folder: &Name,
        lines: &Lines,
    ) -> Result<Vec<CountedRow>, AllocError> {
        let mut rows = Vec::new(alloc);
        let mut uid = self.first_uid(folder);
        for place in lines.first..self.count() {
            if let Some(origin) = lines.begun_at(place) {
                if self.is_listed(folder, lines, &origin, place) {
                    let row = self.row(alloc, folder, lines.first, uid, origin)?;
                    rows.push(row)?;
                }
                uid = uid.saturating_add(1);
            }
        }
        Ok(rows)
    }

    /// The row of a message that is listed with this UID.
    fn row(
        &self,
        alloc: Global,
        folder: &Name,
        first: usize,
        uid: u32,
        origin: OpId,
    ) -> Result<CountedRow, AllocError> {
        let versions = self.versions(alloc, folder, &origin)?;
        Ok(CountedRow {
            uid,
            modseq: self.modseq_of(folder, first, &origin),
            origin,
            versions,
        })
    }

    /// Whether the message is listed under the line that begins at this place.
    fn is_listed(&self, folder: &Name, lines: &Lines, origin: &OpId, place: usize) -> bool {
        lines.is_last(origin, place) && self.has_version(folder, origin)
    }
}

impl Lines {
    /// The origin of the line that the operation at this place begins, if it begins one.
    fn begun_at(&self, place: usize) -> Option<OpId> {
        match self.origins.get(place) {
            Some(Some(origin)) => Some(*origin),
            _ => None,
        }
    }

    /// How many lines there are.
    fn count(&self) -> u32 {
        let mut count: u32 = 0;
        for place in self.first..self.origins.len() {
            if self.begun_at(place).is_some() {
                count = count.saturating_add(1);
            }
        }
        count
    }

    /// Whether no operation after this place begins another line of the message.
    fn is_last(&self, origin: &OpId, place: usize) -> bool {
        for later in place.saturating_add(1)..self.origins.len() {
            if self.begun_at(later) == Some(*origin) {
                return false;
            }
        }
        true
    }
}

fn push_all<'a>(ops: &mut Vec<&'a Op>, list: &'a [SoundOp]) -> Result<(), AllocError> {
    for op in list {
        ops.push(op.op())?;
    }
    Ok(())
}

/// For each operation, after how many operations its tag is absent.
fn removals(alloc: Global, ops: &[&Op]) -> Result<Vec<usize>, AllocError> {
    let mut removed_after = Vec::new(alloc);
    for op in ops {
        removed_after.push(first_removal(ops, op))?;
    }
    Ok(removed_after)
}

fn first_removal(ops: &[&Op], of: &Op) -> usize {
    for (place, op) in ops.iter().enumerate() {
        if removes_tag(op, of) {
            return place.saturating_add(1);
        }
    }
    usize::MAX
}

/// The origin of the message tag that an operation adds.
pub fn added_origin(op: &Op) -> Option<OpId> {
    match added_tag(op) {
        Tag::Message(origin) => Some(origin),
        Tag::Folder | Tag::Absent => None,
    }
}

/// Whether an operation adds a tag to the folder with this name.
pub fn adds_tag_to(op: &Op, folder: &[u8]) -> bool {
    op.kind.name().as_bytes() == folder && !matches!(added_tag(op), Tag::Absent)
}

/// Whether the first operation removes the tag that the other one adds: a Delete takes tags of both
/// kinds, an Expunge and a Store only message tags.
pub fn removes_tag(op: &Op, of: &Op) -> bool {
    if !op.kind.name().same(of.kind.name()) {
        return false;
    }
    match (&op.kind, added_tag(of)) {
        (Kind::Delete { seen, .. }, Tag::Folder | Tag::Message(_)) => seen.contains(of.id),
        (Kind::Expunge { old_ids, .. }, Tag::Message(_)) => old_ids.contains(of.id),
        (Kind::Store { old_ids, .. }, Tag::Message(_)) => old_ids.contains(of.id),
        _ => false,
    }
}

/// The tag that an operation adds to its folder.
fn added_tag(op: &Op) -> Tag {
    match &op.kind {
        Kind::Create { .. } | Kind::Expunge { .. } => Tag::Folder,
        Kind::Append { .. } => Tag::Message(op.id),
        Kind::Store { origin, .. } => Tag::Message(*origin),
        _ => Tag::Absent,
    }
}

/// Whether the operation is about this folder; one about a subscription is about none.
fn names_folder(op: &Op, folder: &Name) -> bool {
    match op.kind {
        Kind::Subscribe { .. } | Kind::Unsubscribe { .. } => false,
        _ => op.kind.name().same(folder),
    }
}

/// Whether the folder is INBOX, which always exists.
fn is_inbox(folder: &Name) -> bool {
    folder.as_bytes() == b"INBOX".as_slice()
}
