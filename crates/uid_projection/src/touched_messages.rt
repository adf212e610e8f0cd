//! Which messages of a folder pending operations change, by their UIDs.

ghost use Rattle.std.specs.Prelude.{◌≡◌, ◌||◌, ◌++◌, ℕ, List, [], Some, IfOk, OnOk, map};
ghost use Rattle.std.specs.List.{list_any, slice_get};
ghost use Rattle.std.specs.Option.{option_to_list};
ghost use Rattle.crdt_ops.specs.declared.op.Op.{Op};
ghost use Rattle.crdt_ops.specs.SortedSets.{is_some_id};
ghost use Rattle.uid_projection.specs.Applied.{IsApplied};
ghost use Rattle.uid_projection.specs.Following.{Follows};
ghost use Rattle.uid_projection.specs.Incarnations.{uidvalidity_of};
ghost use Rattle.uid_projection.specs.UidsAndModSeqs.{uidnext_of};
ghost use Rattle.uid_projection.specs.Listing.{listing};
ghost use Rattle.uid_projection.specs.EntryMoves.{loses};
ghost use Rattle.uid_projection.specs.ChartTable.{origin_at};
ghost use Rattle.uid_projection.specs.TouchedMessages.{AddsUids, RowsStayExcept, names_message};

use crate::chart::Chart;
use crate::chart_ahead::names_folder;
use crate::chart_table::chart_of;
use crate::charts::Charts;
use crate::entry_moves::added_origin;
use crate::origins::origin_at;
use crdt_ops::{Op, SoundOp};
use imap_types::Name;
use indexmap::IndexMap;
use mailbox_rows::{EntryList, EntryTable};
use std::alloc::{AllocError, Global};
use tags_clocks::OpId;

impl Charts {
    /// The UIDs of the folder's messages that these operations change or expunge if they are
    /// applied next, in this order. The UIDs are in no order; a UID may occur more than once, and
    /// even if its message doesn't change. Below the folder's UIDNEXT, every other row stays
    /// unchanged as long as the UIDVALIDITY does. `Err` if memory runs out. Cost: a look-up for
    /// each id that the operations name.
    pub fn touched_uids(
        &self,
        alloc: Global,
        name: &Name,
        ops: &[SoundOp],
    ) -> Result<Vec<u32>, AllocError>
        ensures { (list : List Op) → Follows self.now list
            → IsApplied (list ++ ops.now)
            → uidvalidity_of self.now.start name.now (list ++ ops.now)
            ≡ uidvalidity_of self.now.start name.now list
            → IfOk result (λ uids. RowsStayExcept uids.items
            (uidnext_of self.now.start name.now list) (listing self.now.start name.now list)
            (listing self.now.start name.now (list ++ ops.now))) }
    {
        match chart_of(&self.charts, name) {
            Some(chart) => uids_of_named_messages(alloc, chart, name, ops),
            None => Ok(Vec::new(alloc)),
        }
    }
}

/// The UIDs of the messages that operations about the folder name. `Err` if memory runs out.
fn uids_of_named_messages(
    alloc: Global,
    chart: &Chart,
    folder: &Name,
    ops: &[SoundOp],
) -> Result<Vec<u32>, AllocError>
    ensures { IfOk result (λ uids. AddsUids
        (λ g. list_any (names_message (origin_at chart.now.versions.entries) folder.now g) ops.now)
        chart.now.entries.entries [] uids.items) }
{
    let mut uids = Vec::new(alloc);
    for op in ops {
        push_named_uids(&mut uids, chart, folder, op.op())?;
    }
    Ok(uids)
}

/// Appends the UIDs of the messages that the operation names, if it is about the folder.
fn push_named_uids(
    uids: &mut Vec<u32>,
    chart: &Chart,
    folder: &Name,
    op: &Op,
) -> Result<(), AllocError>
    ensures { OnOk result (AddsUids
        (λ g. names_message (origin_at chart.now.versions.entries) folder.now g op.now)
        chart.now.entries.entries uids.old.items uids.new.items) }
{
    if !names_folder(&op.kind, folder) {
        return Ok(());
    }
    push_uids_of_lost(uids, chart, op.kind.removed_ids())?;
    match added_origin(op) {
        Some(origin) => push_added(uids, chart, op.kind.removed_ids(), &origin),
        None => Ok(()),
    }
}

/// Appends the UID of the entry of this origin, if any, unless one of the versions `removed` is of
/// this origin, in which case the UID is listed already.
fn push_added(
    uids: &mut Vec<u32>,
    chart: &Chart,
    removed: &[OpId],
    origin: &OpId,
) -> Result<(), AllocError>
    ensures { OnOk result ((before : List ℕ)
        → AddsUids (loses (origin_at chart.now.versions.entries) removed.now)
        chart.now.entries.entries before uids.old.items
        → AddsUids
        (λ g. loses (origin_at chart.now.versions.entries) removed.now g
        || is_some_id g (Some origin.now)) chart.now.entries.entries before uids.new.items) }
{
    if is_lost(chart, removed, origin) {
        return Ok(());
    }
    push_entry(uids, &chart.entries, origin)
}

/// Whether one of the versions `removed` is of this origin.
fn is_lost(chart: &Chart, removed: &[OpId], origin: &OpId) -> bool
    ensures { result ≡ loses (origin_at chart.now.versions.entries) removed.now origin.now }
{
    for id in removed {
        if is_version_of_origin(&chart.versions, id, origin) {
            return true;
        }
    }
    false
}

/// Whether the version with this id is of this origin.
fn is_version_of_origin(versions: &IndexMap<OpId, OpId>, id: &OpId, origin: &OpId) -> bool
    ensures { result ≡ is_some_id origin.now (origin_at versions.now.entries id.now) }
{
    match origin_at(versions, id) {
        Some(other) => *origin == other,
        None => false,
    }
}

/// Appends the UIDs of the messages that have one of the versions `removed`.
fn push_uids_of_lost(uids: &mut Vec<u32>, chart: &Chart, removed: &[OpId]) -> Result<(), AllocError>
    ensures { OnOk result (AddsUids (loses (origin_at chart.now.versions.entries) removed.now)
        chart.now.entries.entries uids.old.items uids.new.items) }
{
    for id in removed {
        push_origin(uids, &chart.entries, origin_at(&chart.versions, id))?;
    }
    Ok(())
}

/// Appends the UID of the entry of this origin, if there are an origin and an entry.
fn push_origin(
    uids: &mut Vec<u32>,
    entries: &EntryTable,
    origin: Option<OpId>,
) -> Result<(), AllocError>
    ensures { OnOk result
        (AddsUids (λ g. is_some_id g origin) entries.now.entries uids.old.items uids.new.items) }
{
    match origin {
        Some(origin) => push_entry(uids, entries, &origin),
        None => Ok(()),
    }
}

/// Appends the UID of the entry of this origin, if there is one.
fn push_entry(uids: &mut Vec<u32>, entries: &EntryTable, origin: &OpId) -> Result<(), AllocError>
    ensures { OnOk result (AddsUids (λ g. is_some_id g (Some origin.now)) entries.now.entries
        uids.old.items uids.new.items) }
{
    match entries.place_of(origin) {
        Some(place) => push_at(uids, entries, place),
        None => Ok(()),
    }
}

/// Appends the UID of the entry at this place.
fn push_at(uids: &mut Vec<u32>, entries: &EntryTable, place: usize) -> Result<(), AllocError>
    ensures { OnOk result (uids.new.items
        ≡ uids.old.items
        ++ map (λ e. e.uid) (option_to_list (slice_get entries.now.entries place))) }
{
    if let Some(entry) = entries.get(place) {
        uids.push(entry.uid)?;
    }
    Ok(())
}
