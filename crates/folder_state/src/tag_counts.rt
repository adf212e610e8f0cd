//! `TagCounts`: how many tags and versions operations add.

ghost use Rattle.std.specs.Prelude.{◌≡◌, ◌+◌, ℕ, List, IfOk, OnOk, if◌then◌else◌};
ghost use Rattle.std.specs.Option.{option_copied};
ghost use Rattle.tags_clocks.specs.declared.id.OpId.{OpId};
ghost use Rattle.crdt_ops.specs.SortedSets.{is_some_id, same_id};
ghost use Rattle.std.specs.Str.{bytes_eq};
ghost use Rattle.folder_state.specs.OpRoom.{count_at, count_of_name, is_named, origin_of_op};
ghost use Rattle.folder_state.specs.OpRoom.{added_tag_count, target, added_version_count};
ghost use Rattle.folder_state.specs.OpRoom.{counts_of};

use crate::after_ops::origin_of_op;
use crdt_ops::{Kind, Op, SoundOp};
use imap_types::Name;
use indexmap::IndexMap;
use std::alloc::{AllocError, Global};
use std::marker::Model;
use tags_clocks::OpId;

/// How many tags operations add to each folder, and how many versions to each origin.
pub struct TagCounts {
    tags: IndexMap<Vec<u8>, usize>,
    versions: IndexMap<OpId, usize>,
}

// By hand, so that crates above drop it whole.
impl Drop for TagCounts {
    fn drop(self) {
        let Self {
            tags: _,
            versions: _,
        } = self;
    }
}

impl Model for TagCounts {
    ghost use Rattle.folder_state.specs.OpRoom.{TagCounts};

    ghost Value = { TagCounts };

    ghost view = { λ w. record { tags = w.tags.entries; versions = w.versions.entries } };
}

impl TagCounts {
    /// What these operations add; `Err` if memory runs out. Cost: at most two look-ups for each.
    pub fn of_ops(alloc: Global, ops: &[SoundOp]) -> Result<TagCounts, AllocError>
        ensures tags { IfOk result (λ tag_counts. (name : List ℕ)
            → count_of_name name tag_counts.tags ≡ added_tag_count ops.now name) }
        ensures versions { IfOk result (λ tag_counts.
            (origin : OpId) → count_at origin tag_counts.versions
            ≡ added_version_count ops.now origin) }
    {
        let tags = tags_by(alloc, ops)?;
        let versions = versions_by(alloc, ops)?;
        Ok(TagCounts { tags, versions })
    }

    /// How many tags the operations add to the folder.
    pub fn tags_of(&self, name: &Name) -> usize
        ensures { result ≡ count_of_name name.now self.now.tags }
    {
        count_of_name(&self.tags, name.as_bytes())
    }

    /// How many versions of the origin the operations add; 0 if there is no origin.
    pub fn versions_of(&self, origin: &Option<OpId>) -> usize
        ensures { result ≡ counts_of (λ o. count_at o self.now.versions) origin.now }
    {
        match origin {
            Some(origin) => count_at(&self.versions, origin),
            None => 0,
        }
    }
}

/// The folder of the tag that the operation adds, if it adds one.
pub fn target(op: &Op) -> Option<&Name>
    ensures { option_copied result ≡ target op.now.kind }
{
    match &op.kind {
        Kind::Create { folder } => Some(folder),
        Kind::Append { folder, .. } => Some(folder),
        Kind::Expunge { folder, .. } => Some(folder),
        Kind::Store { folder, .. } => Some(folder),
        _ => None,
    }
}

/// The count under a name; 0 if there is none.
fn count_of_name(counts: &IndexMap<Vec<u8>, usize>, name: &[u8]) -> usize
    ensures { result ≡ count_of_name name.now counts.now.entries }
{
    counts.get(name).copied().unwrap_or(0)
}

/// The count under an id; 0 if there is none.
fn count_at(counts: &IndexMap<OpId, usize>, id: &OpId) -> usize
    ensures { result ≡ count_at id.now counts.now.entries }
{
    counts.get(id).copied().unwrap_or(0)
}

fn tags_by(alloc: Global, ops: &[SoundOp]) -> Result<IndexMap<Vec<u8>, usize>, AllocError>
    ensures { IfOk result
        (λ counts. (name : List ℕ) → count_of_name name counts.entries
        ≡ added_tag_count ops.now name) }
{
    let mut counts = IndexMap::new(alloc);
    for op in ops {
        count_tag(alloc, &mut counts, op.op())?;
    }
    Ok(counts)
}

fn count_tag(
    alloc: Global,
    counts: &mut IndexMap<Vec<u8>, usize>,
    op: &Op,
) -> Result<(), AllocError>
    ensures { OnOk result ((name : List ℕ)
        → count_of_name name counts.new.entries
        ≡ (if is_named name (target op.now.kind) then 1 else 0)
        + count_of_name name counts.old.entries) }
{
    match target(op) {
        Some(name) => count_name(alloc, counts, name.as_bytes()),
        None => Ok(()),
    }
}

fn count_name(
    alloc: Global,
    counts: &mut IndexMap<Vec<u8>, usize>,
    name: &[u8],
) -> Result<(), AllocError>
    ensures { OnOk result ((n : List ℕ)
        → count_of_name n counts.new.entries
        ≡ (if bytes_eq n name.now then 1 else 0) + count_of_name n counts.old.entries) }
{
    match count_of_name(counts, name).checked_add(1) {
        Some(more) => put_name(alloc, counts, name, more),
        None => Err(AllocError),
    }
}

fn put_name(
    alloc: Global,
    counts: &mut IndexMap<Vec<u8>, usize>,
    name: &[u8],
    count: usize,
) -> Result<(), AllocError>
    ensures { OnOk result ((n : List ℕ)
        → count_of_name n counts.new.entries
        ≡ (if bytes_eq n name.now then count else count_of_name n counts.old.entries)) }
{
    let key = name.to_vec(alloc)?;
    if counts.insert(key, count).is_err() {
        return Err(AllocError);
    }
    Ok(())
}

fn versions_by(alloc: Global, ops: &[SoundOp]) -> Result<IndexMap<OpId, usize>, AllocError>
    ensures { IfOk result (λ counts. (origin : OpId)
        → count_at origin counts.entries ≡ added_version_count ops.now origin) }
{
    let mut counts = IndexMap::new(alloc);
    for op in ops {
        count_version(&mut counts, op.op())?;
    }
    Ok(counts)
}

fn count_version(counts: &mut IndexMap<OpId, usize>, op: &Op) -> Result<(), AllocError>
    ensures { OnOk result ((origin : OpId)
        → count_at origin counts.new.entries
        ≡ (if is_some_id origin (origin_of_op op.now.id op.now.kind) then 1 else 0)
        + count_at origin counts.old.entries) }
{
    match origin_of_op(op) {
        Some(origin) => count_id(counts, &origin),
        None => Ok(()),
    }
}

fn count_id(counts: &mut IndexMap<OpId, usize>, id: &OpId) -> Result<(), AllocError>
    ensures { OnOk result ((i : OpId)
        → count_at i counts.new.entries
        ≡ (if same_id i id.now then 1 else 0) + count_at i counts.old.entries) }
{
    match count_at(counts, id).checked_add(1) {
        Some(more) => put_id(counts, id, more),
        None => Err(AllocError),
    }
}

fn put_id(counts: &mut IndexMap<OpId, usize>, id: &OpId, count: usize) -> Result<(), AllocError>
    ensures { OnOk result ((i : OpId)
        → count_at i counts.new.entries
        ≡ (if same_id i id.now then count else count_at i counts.old.entries)) }
{
    if counts.insert(*id, count).is_err() {
        return Err(AllocError);
    }
    Ok(())
}
