//! Makes room in the charts for operations that are applied next.

ghost use Rattle.std.specs.Prelude.{◌≡◌, ◌+◌, ◌≤◌, ℕ, List, [], Option, None, true, false, length};
ghost use Rattle.std.specs.Prelude.{IfOk, OnOk};
ghost use Rattle.indexmap.specs.IndexMap.{spare};
ghost use Rattle.tags_clocks.specs.declared.id.OpId.{OpId};
ghost use Rattle.merge_laws.specs.Orders.{IsIn};
ghost use Rattle.crdt_ops.specs.declared.op.Op.{Op};
ghost use Rattle.crdt_ops.specs.Tags.{name_of};
ghost use Rattle.uid_projection.specs.UidsAndModSeqs.{kind_names_folder};
ghost use Rattle.uid_projection.specs.EntryMoves.{added_origin};
ghost use Rattle.uid_projection.specs.ChartTable.{HasRooms, IsRoomy, IsSame, IsTable, chart_at};
ghost use Rattle.uid_projection.specs.ChartTable.{modseqs_of};

use crate::chart::Chart;
use crate::entry_moves::added_origin;
use crate::first_numbers::{Counters, first_of};
use crdt_ops::{Kind, Op, SoundOp};
use imap_types::Name;
use indexmap::IndexMap;
use mailbox_rows::EntryTable;
use std::alloc::{AllocError, Global};
use tags_clocks::OpId;

/// Makes room for these operations in the charts of their folders. A folder without a chart gets
/// one. An error leaves all numbers unchanged.
pub fn make_rooms(
    alloc: Global,
    start: &Counters,
    charts: &mut IndexMap<Vec<u8>, Chart>,
    ops: &[SoundOp],
) -> Result<(), AllocError>
    ensures table { (list : List Op) (k : ℕ)
        → IsTable start.now list k charts.old.entries
        → IsTable start.now list k charts.new.entries }
    ensures ok { OnOk result ((o : Op) → IsIn o ops.now
        → kind_names_folder (name_of o.kind) o.kind ≡ true
        → HasRooms (added_origin o) (length ops.now) (modseqs_of ops.now) (name_of o.kind)
        charts.new.entries) }
{
    let modseqs = modseqs_of(ops)?;
    for op in ops {
        room_for(alloc, start, charts, op.op(), ops.len(), modseqs)?;
    }
    Ok(())
}

/// The number of messages that may get a new mod-sequence by the operations, the sum over all
/// operations: one for each id that an operation removes, and one to which it may add a version.
/// (It fails if the sum doesn't fit in 64 bits, but no memory has room for that many ids.)
fn modseqs_of(ops: &[SoundOp]) -> Result<usize, AllocError>
    ensures { IfOk result (λ count. count ≡ modseqs_of ops.now) }
{
    let mut count = 0;
    for op in ops {
        count = added(count, op.op().kind.removed_ids().len() + 1)?;
    }
    Ok(count)
}

/// The sum of two numbers. `Err` if it doesn't fit in 64 bits.
fn added(count: usize, more: usize) -> Result<usize, AllocError>
    ensures { IfOk result (λ sum. sum ≡ count + more) }
{
    match count.checked_add(more) {
        Some(sum) => Ok(sum),
        None => Err(AllocError),
    }
}

/// Makes room for `more` operations, which give `modseqs` new mod-sequences, in the chart of the
/// operation's folder.
fn room_for(
    alloc: Global,
    start: &Counters,
    charts: &mut IndexMap<Vec<u8>, Chart>,
    op: &Op,
    more: usize,
    modseqs: usize,
) -> Result<(), AllocError>
    ensures table { (list : List Op) (k : ℕ)
        → IsTable start.now list k charts.old.entries
        → IsTable start.now list k charts.new.entries }
    ensures rooms { (g : Option OpId) (n k : ℕ) (f : List ℕ)
        → HasRooms g n k f charts.old.entries
        → HasRooms g n k f charts.new.entries }
    ensures ok { OnOk result (kind_names_folder (name_of op.now.kind) op.now.kind ≡ true
        → HasRooms (added_origin op.now) more modseqs (name_of op.now.kind)
        charts.new.entries) }
{
    if names_folder(&op.kind) {
        make_room(
            alloc,
            start,
            charts,
            op.kind.name(),
            &added_origin(op),
            more,
            modseqs,
        )
    } else {
        Ok(())
    }
}

/// Whether an operation of this kind is about a folder.
pub fn names_folder(kind: &Kind) -> bool
    ensures { result ≡ kind_names_folder (name_of kind.now) kind.now }
{
    match kind {
        Kind::Create { .. } => true,
        Kind::Delete { .. } => true,
        Kind::Append { .. } => true,
        Kind::Expunge { .. } => true,
        Kind::Store { .. } => true,
        Kind::Subscribe { .. } => false,
        Kind::Unsubscribe { .. } => false,
    }
}

/// Makes room for `more` operations, which give `modseqs` new mod-sequences, in the folder's chart,
/// and, if they add an origin, for as many entries and versions.
fn make_room(
    alloc: Global,
    start: &Counters,
    charts: &mut IndexMap<Vec<u8>, Chart>,
    folder: &Name,
    origin: &Option<OpId>,
    more: usize,
    modseqs: usize,
) -> Result<(), AllocError>
    ensures table { (list : List Op) (k : ℕ)
        → IsTable start.now list k charts.old.entries
        → IsTable start.now list k charts.new.entries }
    ensures rooms { (g : Option OpId) (n k : ℕ) (f : List ℕ)
        → HasRooms g n k f charts.old.entries
        → HasRooms g n k f charts.new.entries }
    ensures ok { OnOk result (HasRooms origin.now more modseqs folder.now charts.new.entries) }
{
    match charts.get_mut(folder.as_bytes()) {
        Some(chart) => make_room_in(alloc, chart, origin, more, modseqs),
        None => put_chart(alloc, start, charts, folder, origin, more, modseqs),
    }
}

/// Inserts the chart of a folder that has none, with room for `more` operations, which give
/// `modseqs` new mod-sequences.
fn put_chart(
    alloc: Global,
    start: &Counters,
    charts: &mut IndexMap<Vec<u8>, Chart>,
    folder: &Name,
    origin: &Option<OpId>,
    more: usize,
    modseqs: usize,
) -> Result<(), AllocError>
    requires { chart_at folder.now charts.old.entries ≡ None }
    ensures table { (list : List Op) (k : ℕ)
        → IsTable start.now list k charts.old.entries
        → IsTable start.now list k charts.new.entries }
    ensures rooms { (g : Option OpId) (n k : ℕ) (f : List ℕ)
        → HasRooms g n k f charts.old.entries
        → HasRooms g n k f charts.new.entries }
    ensures ok { OnOk result (HasRooms origin.now more modseqs folder.now charts.new.entries) }
{
    let mut chart = absent_chart(alloc, first_of(start, folder));
    make_room_in(alloc, &mut chart, origin, more, modseqs)?;
    let key = folder.as_bytes().to_vec(alloc)?;
    if charts.insert(key, chart).is_err() {
        return Err(AllocError);
    }
    Ok(())
}

/// The chart of a folder that doesn't exist, whose first UID is `first`.
fn absent_chart(alloc: Global, first: u32) -> Chart
    ensures present { result.present ≡ false }
    ensures uidnext { result.uidnext ≡ first }
    ensures highest { result.highest ≡ 1 }
    ensures entries { result.entries.entries ≡ [] }
    ensures versions { result.versions.entries ≡ [] }
    ensures latest { result.entries.latest ≡ 0 }
{
    Chart {
        present: false,
        k: 0,
        uidnext: first,
        highest: 1,
        entries: EntryTable::new(alloc),
        versions: IndexMap::new(alloc),
    }
}

/// Makes room for `more` operations, which give `modseqs` new mod-sequences, in the chart, and, if
/// they add an origin, for as many entries and versions. (It fails if too few mod-sequences are
/// left, but no memory has room for that many operations.)
fn make_room_in(
    alloc: Global,
    chart: &mut Chart,
    origin: &Option<OpId>,
    more: usize,
    modseqs: usize,
) -> Result<(), AllocError>
    ensures same { IsSame chart.old chart.new }
    ensures ok { OnOk result (IsRoomy origin.now more modseqs chart.new) }
{
    let _uidnext = chart.uidnext;
    if u64::MAX - chart.highest < more as u64 {
        return Err(AllocError);
    }
    chart.entries.reserve_modseqs(alloc, modseqs)?;
    match origin {
        Some(_) => reserve_places(alloc, chart, more),
        None => Ok(()),
    }
}

/// Reserves places for `more` entries and versions in the chart.
fn reserve_places(alloc: Global, chart: &mut Chart, more: usize) -> Result<(), AllocError>
    ensures same { IsSame chart.old chart.new }
    ensures modseq_room { chart.new.entries.modseq_room ≡ chart.old.entries.modseq_room }
    ensures ok { OnOk result ((more ≤ chart.new.entries.room) × (more ≤ spare chart.new.versions)) }
{
    chart.versions.reserve(more)?;
    chart.entries.reserve(alloc, more)
}
