//! The table of all folders' charts, by name.

ghost use Rattle.std.specs.Prelude.{◌≡◌, ◌+◌, ℕ, List, [], ◌∷◌, ◌++◌, true, Option, option_copied};
ghost use Rattle.tags_clocks.specs.declared.id.OpId.{OpId};
ghost use Rattle.crdt_ops.specs.declared.op.Op.{Op};
ghost use Rattle.crdt_ops.specs.Tags.{name_of};
ghost use Rattle.folder_state.specs.Tables.{contents_of};
ghost use Rattle.std.specs.Global.{Vec as Bytes};
ghost use Rattle.uid_projection.specs.declared.chart.Chart.{Chart};
ghost use Rattle.uid_projection.specs.UidsAndModSeqs.{kind_names_folder, uidnext_of};
ghost use Rattle.uid_projection.specs.EntryMoves.{added_origin};
ghost use Rattle.uid_projection.specs.ChartTable.{HasRooms, IsNextOn, IsTable, chart_at};
ghost use Rattle.uid_projection.specs.ChartTable.{modseqs_by};

use crate::chart::{Chart, step};
use crate::first_numbers::{Counters, first_of};
use crdt_ops::Op;
use folder_state::Folders;
use imap_types::Name;
use indexmap::IndexMap;

/// The folder's chart, or `None` if it has none.
pub fn chart_of<'a>(charts: &'a IndexMap<Vec<u8>, Chart>, folder: &Name) -> Option<&'a Chart>
    ensures { option_copied result ≡ chart_at folder.now charts.now.entries }
{
    charts.get(folder.as_bytes())
}

/// The UID of the folder's next line. Takes no memory. Cost: a look-up.
pub fn uidnext_in(start: &Counters, charts: &IndexMap<Vec<u8>, Chart>, folder: &Name) -> u32
    ensures { (list : List Op) (k : ℕ)
        → IsTable start.now list k charts.now.entries
        → result ≡ uidnext_of start.now folder.now list }
{
    uidnext_by(start, folder, chart_of(charts, folder))
}

/// The UID of the next line of a folder with this chart, or without one.
pub fn uidnext_by(start: &Counters, folder: &Name, chart: Option<&Chart>) -> u32
    ensures { (list : List Op) (k : ℕ) (charts : List (Bytes ℕ × Chart))
        → IsTable start.now list k charts
        → option_copied chart.entry ≡ chart_at folder.now charts
        → result ≡ uidnext_of start.now folder.now list }
{
    match chart {
        Some(chart) => chart.uidnext,
        None => first_of(start, folder),
    }
}

/// Brings the charts up to an operation about a folder. They have room for it, and the folders have
/// applied it. Cost: the ids that the operation names.
pub fn advance_charts(
    start: &Counters,
    next_k: &mut u32,
    charts: &mut IndexMap<Vec<u8>, Chart>,
    value: &Folders,
    op: &Op,
)
    requires next { (list : List Op)
        × IsNextOn start.now next_k.old charts.old.entries (contents_of value.now) list op.now }
    requires rooms { HasRooms (added_origin op.now) 1 (modseqs_by op.now) (name_of op.now.kind)
        charts.old.entries }
    requires kind { kind_names_folder (name_of op.now.kind) op.now.kind ≡ true }
    ensures next { (list : List Op)
        → IsNextOn start.now next_k.old charts.old.entries (contents_of value.now) list op.now
        → IsTable start.now (list ++ op.now ∷ []) next_k.new charts.new.entries }
    ensures rooms { (origin : Option OpId) (n modseqs : ℕ) (folder : List ℕ)
        → HasRooms origin (n + 1) (modseqs + modseqs_by op.now) folder charts.old.entries
        → HasRooms origin n modseqs folder charts.new.entries }
{
    match charts.get_mut(op.kind.name().as_bytes()) {
        Some(chart) => step(chart, start, next_k, value, op),
        None => unreachable!(),
    }
}
