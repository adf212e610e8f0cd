//! The table of subscription tags by name, and its changes.

ghost use Rattle.std.specs.Prelude.{◌≡◌, ◌≤◌, ◌<◌, ◌+◌, ◌==◌, ℕ, List, None, IfOk, OnOk, true, not};
ghost use Rattle.std.specs.Prelude.{◌&&◌, ◌||◌, length, if◌then◌else◌};
ghost use Rattle.std.specs.List.{filter, fold, list_any};
ghost use Rattle.std.specs.Str.{bytes_eq};
ghost use Rattle.indexmap.specs.IndexSet.{spare};
ghost use Rattle.imap_types.specs.Ascending.{octet_order};
ghost use Rattle.tags_clocks.specs.declared.id.OpId.{OpId};
ghost use Rattle.crdt_ops.specs.SortedSets.{IsListOf, id_order, sorted_set, insert_ordered};
ghost use Rattle.crdt_ops.specs.SortedSets.{same_id};
ghost use Rattle.crdt_ops.specs.Tags.{SubscriptionTag, adds, removes};
ghost use Rattle.subs_state.specs.Keys.{is_among, is_at};
ghost use Rattle.subs_state.specs.Entries.{ids_entry, ids_in, room_of, subscribes, tag_in};
ghost use Rattle.subs_state.specs.Subscriptions.{IsSubscribed};

use crdt_ops::{Ids, Kind, Op, SoundOp, insert_name};
use imap_types::Name;
use indexmap::{IndexMap, IndexSet};
use std::alloc::{AllocError, Global};
use tags_clocks::OpId;

/// The ids of a name's present subscription tags.
pub struct NameTags {
    pub ids: IndexSet<OpId>,
}

// By hand, so that crates above drop it whole.
impl Drop for NameTags {
    fn drop(self) {
        let Self { ids: _ } = self;
    }
}

/// Removes the subscription tags that the operation removes. Names stay in the table, with their
/// room.
pub fn remove_tags_of(tags: &mut IndexMap<Vec<u8>, NameTags>, op: &Op)
    ensures listed { (n : List ℕ) (i : OpId)
        → tag_in tags.new.entries n i
        ≡ (not (removes (SubscriptionTag n i) op.now) && tag_in tags.old.entries n i) }
    ensures room { (n : List ℕ) → room_of n tags.old.entries ≤ room_of n tags.new.entries }
{
    match &op.kind {
        Kind::Unsubscribe { name, seen } => remove_ids(tags, name.as_bytes(), seen.as_slice()),
        Kind::Create { .. } => {}
        Kind::Delete { .. } => {}
        Kind::Append { .. } => {}
        Kind::Expunge { .. } => {}
        Kind::Store { .. } => {}
        Kind::Subscribe { .. } => {}
    }
}

/// Inserts the subscription tag that the operation adds, for which there is room. Takes no memory.
pub fn add_tag_of(tags: &mut IndexMap<Vec<u8>, NameTags>, op: &Op)
    requires { (n : List ℕ) → (if subscribes n op.now then 1 else 0) ≤ room_of n tags.old.entries }
    ensures listed { (n : List ℕ) (i : OpId)
        → tag_in tags.new.entries n i
        ≡ (adds (SubscriptionTag n i) op.now || tag_in tags.old.entries n i) }
    ensures room { (n : List ℕ)
        → room_of n tags.old.entries
        ≤ room_of n tags.new.entries + (if subscribes n op.now then 1 else 0) }
{
    match &op.kind {
        Kind::Subscribe { name } => put_tag(tags, name.as_bytes(), &op.id),
        Kind::Create { .. } => {}
        Kind::Delete { .. } => {}
        Kind::Append { .. } => {}
        Kind::Expunge { .. } => {}
        Kind::Store { .. } => {}
        Kind::Unsubscribe { .. } => {}
    }
}

/// Removes the name's tags with these ids.
fn remove_ids(tags: &mut IndexMap<Vec<u8>, NameTags>, name: &[u8], ids: &[OpId])
    ensures listed { (n : List ℕ) (i : OpId)
        → tag_in tags.new.entries n i
        ≡ (not (is_among n i name.now ids.now) && tag_in tags.old.entries n i) }
    ensures room { (n : List ℕ) → room_of n tags.old.entries ≤ room_of n tags.new.entries }
{
    match tags.get_mut(name) {
        Some(name_tags) => remove_matching_ids(name_tags, ids),
        None => {}
    }
}

fn remove_matching_ids(name_tags: &mut NameTags, ids: &[OpId])
    ensures listed { (i : OpId)
        → list_any (same_id i) name_tags.new.ids.keys
        ≡ (not (list_any (same_id i) ids.now) && list_any (same_id i) name_tags.old.ids.keys) }
    ensures room { spare name_tags.old.ids ≤ spare name_tags.new.ids }
{
    for id in ids {
        name_tags.ids.swap_remove(id);
    }
}

/// Inserts a tag, for which there is room.
fn put_tag(tags: &mut IndexMap<Vec<u8>, NameTags>, name: &[u8], id: &OpId)
    requires { 0 < room_of name.now tags.old.entries }
    ensures listed { (n : List ℕ) (i : OpId)
        → tag_in tags.new.entries n i ≡ (is_at n i name.now id.now || tag_in tags.old.entries n i) }
    ensures room { (n : List ℕ)
        → room_of n tags.old.entries
        ≤ room_of n tags.new.entries + (if bytes_eq n name.now then 1 else 0) }
{
    match tags.get_mut(name) {
        Some(name_tags) => put_id(name_tags, id),
        None => unreachable!(),
    }
}

fn put_id(name_tags: &mut NameTags, id: &OpId)
    requires { 0 < spare name_tags.old.ids }
    ensures listed { (i : OpId)
        → list_any (same_id i) name_tags.new.ids.keys
        ≡ (same_id i id.now || list_any (same_id i) name_tags.old.ids.keys) }
    ensures room { spare name_tags.old.ids ≤ spare name_tags.new.ids + 1 }
{
    if name_tags.ids.insert(*id).is_err() {
        unreachable!();
    }
}

/// Makes room for the subscription tags that these operations add; each of their names gets an
/// entry in the table. `Err` if memory runs out; the tags are then unchanged.
pub fn make_room(
    alloc: Global,
    tags: &mut IndexMap<Vec<u8>, NameTags>,
    ops: &[SoundOp],
) -> Result<(), AllocError>
    ensures listed { (n : List ℕ) (i : OpId)
        → tag_in tags.new.entries n i ≡ tag_in tags.old.entries n i }
    ensures room { OnOk result
        ((n : List ℕ) → length (filter (subscribes n) ops.now) ≤ room_of n tags.new.entries) }
{
    for op in ops {
        make_room_of(alloc, tags, op.op(), ops)?;
    }
    Ok(())
}

/// Makes room for the tags that the operations `ops` add to the name to which `op` subscribes, if
/// any.
fn make_room_of(
    alloc: Global,
    tags: &mut IndexMap<Vec<u8>, NameTags>,
    op: &Op,
    ops: &[SoundOp],
) -> Result<(), AllocError>
    ensures listed { (n : List ℕ) (i : OpId)
        → tag_in tags.new.entries n i ≡ tag_in tags.old.entries n i }
    ensures ok { OnOk result ((n : List ℕ) → subscribes n op.now ≡ true
        → length (filter (subscribes n) ops.now) ≤ room_of n tags.new.entries) }
    ensures room { (n : List ℕ) → room_of n tags.old.entries ≤ room_of n tags.new.entries }
{
    match &op.kind {
        Kind::Subscribe { name } => {
            let count = count_subscribing(ops, name.as_bytes());
            make_room_for(alloc, tags, name.as_bytes(), count)
        }
        Kind::Create { .. } => Ok(()),
        Kind::Delete { .. } => Ok(()),
        Kind::Append { .. } => Ok(()),
        Kind::Expunge { .. } => Ok(()),
        Kind::Store { .. } => Ok(()),
        Kind::Unsubscribe { .. } => Ok(()),
    }
}

/// How many of the operations subscribe to the name.
fn count_subscribing(ops: &[SoundOp], name: &[u8]) -> usize
    ensures { result ≡ length (filter (subscribes name.now) ops.now) }
{
    ops.iter()
        .filter(|op| does_subscribe(op.op(), name))
        .count()
}

fn does_subscribe(op: &Op, name: &[u8]) -> bool
    ensures { result ≡ subscribes name.now op.now }
{
    match &op.kind {
        Kind::Subscribe { name: other } => name == other.as_bytes(),
        Kind::Create { .. } => false,
        Kind::Delete { .. } => false,
        Kind::Append { .. } => false,
        Kind::Expunge { .. } => false,
        Kind::Store { .. } => false,
        Kind::Unsubscribe { .. } => false,
    }
}

/// Makes room for `count` further tags of a name, which gets an entry if it has none.
fn make_room_for(
    alloc: Global,
    tags: &mut IndexMap<Vec<u8>, NameTags>,
    name: &[u8],
    count: usize,
) -> Result<(), AllocError>
    ensures listed { (n : List ℕ) (i : OpId)
        → tag_in tags.new.entries n i ≡ tag_in tags.old.entries n i }
    ensures ok { OnOk result (count ≤ room_of name.now tags.new.entries) }
    ensures room { (n : List ℕ) → room_of n tags.old.entries ≤ room_of n tags.new.entries }
{
    match tags.get_mut(name) {
        Some(name_tags) => name_tags.ids.reserve(count),
        None => put_name(alloc, tags, name, count),
    }
}

/// Inserts the entry of a new name, with room for `count` tags.
fn put_name(
    alloc: Global,
    tags: &mut IndexMap<Vec<u8>, NameTags>,
    name: &[u8],
    count: usize,
) -> Result<(), AllocError>
    requires { ids_entry name.now tags.old.entries ≡ None }
    ensures listed { (n : List ℕ) (i : OpId)
        → tag_in tags.new.entries n i ≡ tag_in tags.old.entries n i }
    ensures ok { OnOk result (count ≤ room_of name.now tags.new.entries) }
    ensures room { (n : List ℕ) → room_of n tags.old.entries ≤ room_of n tags.new.entries }
{
    let mut ids = IndexSet::new(alloc);
    ids.reserve(count)?;
    let key = name.to_vec(alloc)?;
    if tags.insert(key, NameTags { ids }).is_err() {
        return Err(AllocError);
    }
    Ok(())
}

/// The names with tags, ascending; `Err` if memory runs out.
pub fn subscribed_names(
    alloc: Global,
    tags: &IndexMap<Vec<u8>, NameTags>,
) -> Result<Vec<Name>, AllocError>
    ensures { IfOk result
        (λ names. IsListOf octet_order (IsSubscribed (tag_in tags.now.entries)) names.items) }
{
    let mut names = Vec::new(alloc);
    for (key, name_tags) in tags.iter() {
        insert_if_tagged(alloc, &mut names, key, name_tags)?;
    }
    Ok(names)
}

/// Inserts a copy of the name in its place, if it has tags; `Err` if memory runs out.
fn insert_if_tagged(
    alloc: Global,
    names: &mut Vec<Name>,
    key: &[u8],
    name_tags: &NameTags,
) -> Result<(), AllocError>
    ensures { OnOk result (names.new.items
        ≡ (if length name_tags.now.ids.keys == 0 then names.old.items
        else insert_ordered octet_order key.now names.old.items)) }
{
    if name_tags.ids.len() > 0 {
        let name = Name::from_slice(alloc, key)?;
        insert_name(alloc, names, &name)?;
    }
    Ok(())
}

/// The ids of the name's tags, ascending; `Err` if memory runs out.
pub fn tag_ids(
    alloc: Global,
    tags: &IndexMap<Vec<u8>, NameTags>,
    name: &Name,
) -> Result<Ids, AllocError>
    ensures { IfOk result
        (λ ids. ids ≡ sorted_set id_order (ids_in (ids_entry name.now tags.now.entries))) }
{
    let mut ids = Ids::none(alloc);
    if let Some(name_tags) = tags.get(name.as_bytes()) {
        place_ids(&mut ids, name_tags.ids.as_slice())?;
    }
    Ok(ids)
}

fn place_ids(ids: &mut Ids, listed: &[OpId]) -> Result<(), AllocError>
    ensures { OnOk result
        (ids.new ≡ fold (λ done id. insert_ordered id_order id done) ids.old listed.now) }
{
    for id in listed {
        ids.insert(*id)?;
    }
    Ok(())
}
