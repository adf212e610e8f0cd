//! `ChartAhead`: a folder's entries after pending operations, laid over its stored entries.

ghost use Rattle.std.specs.Prelude.{◌≡◌, ◌↔◌, ◌⊎◌, ◌<◌, ◌≤◌, ◌+◌, ◌-◌, ℕ, List, [], ◌∷◌, ◌++◌};
ghost use Rattle.std.specs.Prelude.{true, false, ◌||◌, if◌then◌else◌, IfOk, IsTrue, OnOk};
ghost use Rattle.std.specs.Prelude.{length, get_or, option_copied};
ghost use Rattle.std.specs.List.{list_any};
ghost use Rattle.tags_clocks.specs.declared.id.OpId.{OpId};
ghost use Rattle.mailbox_rows.specs.declared.entry.ListingEntry.{ListingEntry};
ghost use Rattle.crdt_ops.specs.declared.op.Op.{Op};
ghost use Rattle.crdt_ops.specs.SortedSets.{is_some_id, same_id};
ghost use Rattle.folder_state.specs.Contents.{Contents, IsMadeBy, effect_of, origin_in};
ghost use Rattle.folder_state.specs.AfterOps.{contents_after};
ghost use Rattle.uid_projection.specs.FolderAhead.{IsAhead, folder_of};
ghost use Rattle.uid_projection.specs.NextOps.{AdvancesAhead, IsNextAhead};
ghost use Rattle.uid_projection.specs.Applied.{IsApplied};
ghost use Rattle.uid_projection.specs.Chart.{IsChart};
ghost use Rattle.uid_projection.specs.declared.first_numbers.Counters.{Counters};
ghost use Rattle.uid_projection.specs.Incarnations.{folder_exists};
ghost use Rattle.uid_projection.specs.UidsAndModSeqs.{kind_names_folder, has_version};
ghost use Rattle.uid_projection.specs.EntryMoves.{AreApart, IsNext, has_entry, loses};
ghost use Rattle.uid_projection.specs.EntryMoves.{moved_entries, with_line};
ghost use Rattle.uid_projection.specs.ChartTable.{IsTable, chart_at};

use crate::chart::Chart;
use crate::chart_table::chart_of;
use crate::charts::Charts;
use crate::entry_moves::{added_origin, begin_line, set_modseq, settle};
use crate::exhaustion::is_same_name;
use crate::first_numbers::first_of;
use crate::folder_ahead::FolderAhead;
use crdt_ops::{Kind, Op, SoundOp};
use imap_types::Name;
use mailbox_rows::{EntryList, EntryOverlay, EntryTable};
use std::alloc::{AllocError, Global};
use tags_clocks::OpId;

/// A folder's entries after pending operations, and the numbers that come next.
#[derive(Drop)]
pub struct ChartAhead<'a> {
    /// The UID of the next line.
    pub uidnext: u32,
    /// The highest mod-sequence.
    pub highest: u64,
    /// The messages by ascending UID.
    pub entries: EntryOverlay<'a>,
}

/// The folder's stored chart, with no pending operation yet. `Err` if memory runs out.
pub fn stored_ahead<'a>(
    alloc: Global,
    charts: &'a Charts,
    folder: &Name,
) -> Result<ChartAhead<'a>, AllocError>
    ensures shows { (list : List Op) (k : ℕ)
        → IsTable charts.now.start list k charts.now.charts.entries
        → charts.now.nothing.entries ≡ []
        → IfOk result
        (λ c. IsChart charts.now.start folder.now list c.uidnext c.highest c.entries.entries) }
    ensures latest { IfOk result (λ c. c.entries.latest ≤ c.highest) }
{
    ahead_by(alloc, charts, folder, chart_of(&charts.charts, folder))
}

/// Does what `stored_ahead` does for a folder whose chart was looked up already; `None` if it has
/// none.
pub fn ahead_by<'a>(
    alloc: Global,
    charts: &'a Charts,
    folder: &Name,
    chart: Option<&'a Chart>,
) -> Result<ChartAhead<'a>, AllocError>
    ensures shows { (list : List Op) (k : ℕ)
        → IsTable charts.now.start list k charts.now.charts.entries
        → option_copied chart.entry ≡ chart_at folder.now charts.now.charts.entries
        → charts.now.nothing.entries ≡ []
        → IfOk result
        (λ c. IsChart charts.now.start folder.now list c.uidnext c.highest c.entries.entries) }
    ensures latest { IfOk result (λ c. c.entries.latest ≤ c.highest) }
{
    match chart {
        Some(chart) => Ok(ChartAhead {
            uidnext: chart.uidnext,
            highest: chart.highest,
            entries: chart.entries.overlay(alloc)?,
        }),
        None => absent_chart_ahead(alloc, first_of(&charts.start, folder), &charts.nothing),
    }
}

/// The chart of a folder that doesn't exist, whose first UID is `first`. `Err` if memory runs out.
fn absent_chart_ahead<'a>(
    alloc: Global,
    first: u32,
    nothing: &'a EntryTable,
) -> Result<ChartAhead<'a>, AllocError>
    ensures shows { IfOk result
        (λ c. (c.uidnext ≡ first) × (c.highest ≡ 1) × (c.entries.entries ≡ nothing.now.entries)) }
    ensures latest { IfOk result (λ c. c.entries.latest ≤ c.highest) }
{
    Ok(ChartAhead {
        uidnext: first,
        highest: 1,
        entries: nothing.overlay(alloc)?,
    })
}

/// Brings the chart and the folder up to these operations, in this order. `charts` gives the
/// numbers with which a chart begins. `Err` if memory runs out; then neither `chart` nor `ahead`
/// can be used further.
/// Cost: the ids that the operations name.
pub fn advance_over<'a>(
    alloc: Global,
    chart: &mut ChartAhead<'a>,
    ahead: &mut FolderAhead<'a>,
    charts: &'a Charts,
    folder: &Name,
    ops: &'a [SoundOp],
) -> Result<(), AllocError>
    requires { chart.old.entries.latest ≤ chart.old.highest }
    ensures latest { OnOk result (chart.new.entries.latest ≤ chart.new.highest) }
    ensures folder { folder_of ahead.new ≡ folder_of ahead.old }
    ensures ahead { OnOk result
        ((c : Contents) → IsAhead c ahead.old → IsAhead (contents_after c ops.now) ahead.new) }
    ensures shows { OnOk result ((list : List Op) (c : Contents)
        → IsNextAhead charts.now.start folder.now charts.now.nothing.entries c list ops.now
        ahead.old
        → IsChart charts.now.start folder.now list chart.old.uidnext chart.old.highest
        chart.old.entries.entries
        → IsChart charts.now.start folder.now (list ++ ops.now) chart.new.uidnext chart.new.highest
        chart.new.entries.entries) }
{
    for op in ops {
        advance_over_one(alloc, chart, ahead, charts, folder, op)?;
    }
    Ok(())
}

/// Does what `advance_over` does for one operation.
fn advance_over_one<'a>(
    alloc: Global,
    chart: &mut ChartAhead<'a>,
    ahead: &mut FolderAhead<'a>,
    charts: &'a Charts,
    folder: &Name,
    op: &'a SoundOp,
) -> Result<(), AllocError>
    requires { chart.old.entries.latest ≤ chart.old.highest }
    ensures latest { OnOk result (chart.new.entries.latest ≤ chart.new.highest) }
    ensures folder { folder_of ahead.new ≡ folder_of ahead.old }
    ensures ahead { OnOk result
        ((c : Contents) → IsAhead c ahead.old → IsAhead (effect_of c op.now) ahead.new) }
    ensures shows { OnOk result ((list : List Op) (c : Contents)
        → IsNextAhead charts.now.start folder.now charts.now.nothing.entries c list (op.now ∷ [])
        ahead.old
        → IsChart charts.now.start folder.now list chart.old.uidnext chart.old.highest
        chart.old.entries.entries
        → IsChart charts.now.start folder.now (list ++ op.now ∷ []) chart.new.uidnext
        chart.new.highest chart.new.entries.entries) }
{
    if !names_folder(&op.op().kind, folder) {
        return ahead.step(alloc, op);
    }
    let lost = lost_origins(alloc, ahead, op.op().kind.removed_ids())?;
    ahead.step(alloc, op)?;
    if !ahead.exists() {
        *chart = absent_chart_ahead(alloc, first_of(&charts.start, folder), &charts.nothing)?;
        return Ok(());
    }
    advance(chart, ahead, lost.as_slice(), op.op())
}

/// The origins of the present message tags with these ids. `Err` if memory runs out.
fn lost_origins(
    alloc: Global,
    ahead: &FolderAhead<'_>,
    removed: &[OpId],
) -> Result<Vec<OpId>, AllocError>
    ensures { IfOk result (λ lost. (c : Contents) → IsAhead c ahead.now → (g : OpId)
        → list_any (same_id g) lost.items
        ≡ loses (origin_in c (folder_of ahead.now)) removed.now g) }
{
    let mut lost = Vec::new(alloc);
    for id in removed {
        push_origin(&mut lost, ahead.origin_of(id))?;
    }
    Ok(lost)
}

/// Appends the origin, if there is one, to `lost`.
fn push_origin(lost: &mut Vec<OpId>, origin: Option<OpId>) -> Result<(), AllocError>
    ensures { OnOk result ((g : OpId)
        → list_any (same_id g) lost.new.items
        ≡ (list_any (same_id g) lost.old.items || is_some_id g origin)) }
{
    match origin {
        Some(origin) => {
            if lost.push(origin).is_err() {
                return Err(AllocError);
            }
            Ok(())
        }
        None => Ok(()),
    }
}

/// Brings the chart up to an operation about its folder, which `ahead` has applied and after which
/// the folder exists. The origins `lost` lose versions by it. Messages whose versions change get
/// the new mod-sequence, those without a version are removed, and a new one gets the next UID.
/// `Err` if memory runs out. (It also fails if mod-sequences are used up, but no memory has room
/// for that many operations.)
fn advance(
    chart: &mut ChartAhead<'_>,
    ahead: &FolderAhead<'_>,
    lost: &[OpId],
    op: &Op,
) -> Result<(), AllocError>
    requires { chart.old.entries.latest ≤ chart.old.highest }
    ensures latest { OnOk result (chart.new.entries.latest ≤ chart.new.highest) }
    ensures shows { OnOk result ((start : Counters) (list : List Op) (c : Contents)
        → folder_exists (folder_of ahead.now) (list ++ op.now ∷ []) ≡ true
        → AdvancesAhead c list op.now (λ g. list_any (same_id g) lost.now) ahead.now
        → IsChart start (folder_of ahead.now) list chart.old.uidnext chart.old.highest
        chart.old.entries.entries
        → IsChart start (folder_of ahead.now) (list ++ op.now ∷ []) chart.new.uidnext
        chart.new.highest chart.new.entries.entries) }
{
    if chart.highest == u64::MAX {
        return Err(AllocError);
    }
    chart.highest += 1;
    let near = lose(&mut chart.entries, ahead, lost, chart.highest)?;
    match added_origin(op) {
        Some(origin) => add(chart, &origin, near),
        None => Ok(()),
    }
}

/// Gives the mod-sequence to each message of the origins `lost`, or removes the message if the
/// folder no longer has a version of it. Returns the place where the last one's entry is or was.
/// `Err` if memory runs out.
fn lose(
    entries: &mut EntryOverlay<'_>,
    ahead: &FolderAhead<'_>,
    lost: &[OpId],
    modseq: u64,
) -> Result<usize, AllocError>
    requires { entries.old.latest ≤ modseq }
    ensures latest { OnOk result (entries.new.latest ≤ modseq) }
    ensures entries { OnOk result ((list : List Op) (c : Contents) → IsAhead c ahead.now
        → IsMadeBy c list
        → AreApart entries.old.entries
        → entries.new.entries
        ≡ moved_entries (λ g. list_any (same_id g) lost.now)
        (λ g. has_version (folder_of ahead.now) g list) modseq entries.old.entries) }
{
    let mut near = 0;
    for origin in lost {
        entries.reserve(1)?;
        near = settle(entries, origin, has_version(ahead, origin), modseq);
    }
    Ok(near)
}

/// Whether the origin has a version in the folder.
fn has_version(ahead: &FolderAhead<'_>, origin: &OpId) -> bool
    ensures { (list : List Op) (c : Contents) → IsAhead c ahead.now → IsMadeBy c list
        → result ≡ has_version (folder_of ahead.now) origin.now list }
{
    ahead.has_version(origin)
}

/// Gives the message of the origin the highest mod-sequence. If the message has no entry, it gets
/// one with the next UID, after the others. `near` is a guess at the place of its entry. `Err` if
/// memory runs out.
fn add(chart: &mut ChartAhead<'_>, origin: &OpId, near: usize) -> Result<(), AllocError>
    requires { chart.old.entries.latest ≤ chart.old.highest }
    ensures latest { OnOk result (chart.new.entries.latest ≤ chart.new.highest) }
    ensures uidnext { OnOk result (chart.new.uidnext
        ≡ (if has_entry chart.old.entries.entries origin.now then chart.old.uidnext
        else chart.old.uidnext + 1)) }
    ensures highest { chart.new.highest ≡ chart.old.highest }
    ensures entries { OnOk result (AreApart chart.old.entries.entries
        → chart.new.entries.entries
        ≡ with_line origin.now chart.old.uidnext chart.old.highest chart.old.entries.entries) }
{
    chart.entries.reserve(1)?;
    if set_modseq(&mut chart.entries, origin, near, chart.highest) {
        return Ok(());
    }
    if !can_follow(&chart.entries, chart.uidnext) {
        return Err(AllocError);
    }
    begin_line(&mut chart.entries, origin, chart.uidnext, chart.highest);
    chart.uidnext += 1;
    Ok(())
}

/// Whether an entry with this UID can be put after the others, and it isn't the last UID.
fn can_follow(entries: &EntryOverlay<'_>, uid: u32) -> bool
    ensures { IsTrue result ↔ (IsNext uid entries.now.entries × (uid < 4294967295)) }
{
    entries.prove_ascending();
    if uid == 0 || uid == u32::MAX {
        return false;
    }
    is_last_below(entries, uid)
}

/// Whether the last entry's UID is below this one, or there is no entry.
fn is_last_below(entries: &EntryOverlay<'_>, uid: u32) -> bool
    ensures { IsTrue result ↔ ((length entries.now.entries ≡ 0)
        ⊎ ((e : ListingEntry)
        → (get_or entries.now.entries (length entries.now.entries - 1) e).uid < uid)) }
{
    let count = entries.len();
    if count == 0 {
        return true;
    }
    match entries.get(count - 1) {
        Some(last) => last.uid < uid,
        None => false,
    }
}

/// Whether an operation of this kind is about the folder.
pub fn names_folder(kind: &Kind, folder: &Name) -> bool
    ensures { result ≡ kind_names_folder folder.now kind.now }
{
    match kind {
        Kind::Create { folder: own } => is_same_name(folder, own),
        Kind::Delete { folder: own, .. } => is_same_name(folder, own),
        Kind::Append { folder: own, .. } => is_same_name(folder, own),
        Kind::Expunge { folder: own, .. } => is_same_name(folder, own),
        Kind::Store { folder: own, .. } => is_same_name(folder, own),
        Kind::Subscribe { .. } => false,
        Kind::Unsubscribe { .. } => false,
    }
}
