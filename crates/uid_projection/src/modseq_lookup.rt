//! Look-ups by mod-sequence.

ghost use Rattle.std.specs.Prelude.{◌≡◌, List, IfOk};
ghost use Rattle.mailbox_rows.specs.RowViews.{changed_since};
ghost use Rattle.crdt_ops.specs.declared.op.Op.{Op};
ghost use Rattle.folder_state.specs.Contents.{IsMadeBy};
ghost use Rattle.folder_state.specs.Tables.{contents_of};
ghost use Rattle.uid_projection.specs.Following.{Follows};
ghost use Rattle.uid_projection.specs.UidsAndModSeqs.{highest_modseq_of};
ghost use Rattle.uid_projection.specs.Listing.{listing};

use crate::charts::Charts;
use folder_state::Folders;
use imap_types::Name;
use mailbox_rows::Rows;
use std::alloc::{AllocError, Global};

/// The folder's listed messages that changed since this mod-sequence: those whose own mod-sequence
/// is greater, by ascending UID (RFC 7162, section 3.1.4). They are borrowed from `value`, the
/// folders that the charts follow. `Err` if memory runs out.
/// Cost: a look-up for each change of the folder's messages since then.
pub fn changed_since<'a>(
    charts: &'a Charts,
    alloc: Global,
    value: &'a Folders,
    name: &Name,
    modseq: u64,
) -> Result<Rows<'a>, AllocError>
    ensures { (list : List Op) → Follows charts.now list
        → IsMadeBy (contents_of value.now) list
        → IfOk result
        (λ rows. rows ≡ changed_since modseq (listing charts.now.start name.now list)) }
{
    let rows = charts.rows(alloc, value, name)?;
    rows.changed_since(alloc, modseq)
}

/// The folder's HIGHESTMODSEQ (RFC 7162, section 3.1.2.1). Takes no memory. Cost: a look-up.
pub fn highest(charts: &Charts, name: &Name) -> u64
    ensures { (list : List Op) → Follows charts.now list
        → result ≡ highest_modseq_of name.now list }
{
    charts.highest(name)
}
