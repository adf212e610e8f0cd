//! Tests whether operations that are applied next need a number that a counter lacks. Nothing here
//! takes memory.

ghost use Rattle.std.specs.Prelude.{◌≡◌, ◌↔◌, ◌≤◌, ◌<◌, ◌+◌, ◌-◌, ◌&&◌, not, ℕ, List, [], ◌∷◌};
ghost use Rattle.std.specs.Prelude.{◌++◌, nat_le, if◌then◌else◌, IsTrue};
ghost use Rattle.std.specs.Str.{bytes_eq};
ghost use Rattle.crdt_ops.specs.declared.op.Op.{Op};
ghost use Rattle.folder_state.specs.Contents.{IsMadeBy};
ghost use Rattle.folder_state.specs.Tables.{contents_of};
ghost use Rattle.uid_projection.specs.declared.first_numbers.Counters.{Counters};
ghost use Rattle.uid_projection.specs.Applied.{IsApplied};
ghost use Rattle.uid_projection.specs.Exhaustion.{Exhausts, LacksK, LacksUid};
ghost use Rattle.uid_projection.specs.Counting.{count_all};
ghost use Rattle.uid_projection.specs.Incarnations.{begins_incarnation};
ghost use Rattle.uid_projection.specs.UidsAndModSeqs.{begins_line, first_uid, has_version};
ghost use Rattle.uid_projection.specs.UidsAndModSeqs.{uidnext_of};
ghost use Rattle.uid_projection.specs.ChartTable.{IsTable};

use crate::chart::Chart;
use crate::chart_table::uidnext_in;
use crate::first_numbers::{Counters, first_of};
use crdt_ops::{Kind, Op, SoundOp};
use folder_state::Folders;
use imap_types::Name;
use indexmap::IndexMap;
use tags_clocks::OpId;

/// Whether one of these operations, applied after those before it, needs a number that a counter
/// lacks. `value` contains the folders that the charts follow.
/// Cost: the number of operations; near the end of a counter, the square of their number times the
/// size of the folders.
pub fn are_exhausting(
    start: &Counters,
    next_k: u32,
    charts: &IndexMap<Vec<u8>, Chart>,
    value: &Folders,
    ops: &[SoundOp],
) -> bool
    ensures { (list : List Op)
        → IsApplied (list ++ ops.now)
        → IsTable start.now list next_k charts.now.entries
        → IsMadeBy (contents_of value.now) list
        → IsTrue result ↔ Exhausts start.now list ops.now }
{
    for at in 0..ops.len() {
        let op = ops[at].op();
        if lacks_uid(start, charts, value, &ops[..at], op)
            || lacks_k(next_k, value, &ops[..at], &ops[..at + 1], op)
        {
            return true;
        }
    }
    false
}

/// Whether the operation, applied after those of `front`, needs a UID when none is left.
fn lacks_uid(
    start: &Counters,
    charts: &IndexMap<Vec<u8>, Chart>,
    value: &Folders,
    front: &[SoundOp],
    op: &Op,
) -> bool
    ensures { (list : List Op) (k : ℕ)
        → IsApplied ((list ++ front.now) ++ op.now ∷ [])
        → IsTable start.now list k charts.now.entries
        → IsMadeBy (contents_of value.now) list
        → IsTrue result ↔ LacksUid start.now (list ++ front.now) op.now }
{
    let folder = op.kind.name();
    let first = first_of(start, folder);
    let now = uidnext_in(start, charts, folder);
    if !is_near(first, front.len()) && !is_near(now, front.len()) {
        return false;
    }
    begins_line(value, folder, front, op)
        && uid_after(value, folder, first, now, front) == 4_294_967_295
}

/// Whether UIDs may be used up by `more` further ones.
fn is_near(uid: u32, more: usize) -> bool
    ensures { result ≡ nat_le (4294967295 - uid) more }
{
    (u32::MAX - uid) as usize <= more
}

/// Whether a line of the folder begins with the operation, applied after those of `front`.
fn begins_line(value: &Folders, folder: &Name, front: &[SoundOp], op: &Op) -> bool
    ensures { (list : List Op)
        → IsApplied ((list ++ front.now) ++ op.now ∷ [])
        → IsMadeBy (contents_of value.now) list
        → result ≡ begins_line folder.now (list ++ front.now) op.now }
{
    match &op.kind {
        Kind::Append { folder: own, .. } => is_same_name(folder, own),
        Kind::Store {
            folder: own,
            origin,
            ..
        } => is_new_line(value, folder, own, origin, front),
        Kind::Create { .. } => false,
        Kind::Delete { .. } => false,
        Kind::Expunge { .. } => false,
        Kind::Subscribe { .. } => false,
        Kind::Unsubscribe { .. } => false,
    }
}

/// Whether both names are the same and the origin has no version in that folder after `front`.
fn is_new_line(value: &Folders, folder: &Name, own: &Name, origin: &OpId, front: &[SoundOp]) -> bool
    ensures { (list : List Op)
        → IsApplied (list ++ front.now)
        → IsMadeBy (contents_of value.now) list
        → result
        ≡ (bytes_eq folder.now own.now
        && not (has_version folder.now origin.now (list ++ front.now))) }
{
    if !is_same_name(folder, own) {
        return false;
    }
    !has_version(value, folder, origin, front)
}

/// Whether the origin has a version in the folder after the operations of `front`.
fn has_version(value: &Folders, folder: &Name, origin: &OpId, front: &[SoundOp]) -> bool
    ensures { (list : List Op)
        → IsApplied (list ++ front.now)
        → IsMadeBy (contents_of value.now) list
        → result ≡ has_version folder.now origin.now (list ++ front.now) }
{
    value.has_version_after(folder, origin, front)
}

/// Whether both names are the same.
pub fn is_same_name(folder: &Name, other: &Name) -> bool
    ensures { result ≡ bytes_eq folder.now other.now }
{
    folder.as_bytes() == other.as_bytes()
}

/// The UID of the folder's next line after these operations, if it is `now` before them.
pub fn uid_after(value: &Folders, folder: &Name, first: u32, now: u32, ops: &[SoundOp]) -> u64
    ensures { (start : Counters) (list : List Op)
        → IsApplied (list ++ ops.now)
        → IsMadeBy (contents_of value.now) list
        → first ≡ first_uid start folder.now
        → now ≡ uidnext_of start folder.now list
        → result ≡ uidnext_of start folder.now (list ++ ops.now) }
{
    let mut uid = u64::from(now);
    for at in 0..ops.len() {
        let starts = begins_line(value, folder, &ops[..at], ops[at].op());
        let present = value.exists_after(folder, &ops[..at + 1]);
        uid = uid_after_op(present, starts, first, uid);
    }
    uid
}

fn uid_after_op(present: bool, starts: bool, first: u32, uid: u64) -> u64
    requires { uid < 18446744073709551615 }
    ensures uid { result ≡ (if present then (if starts then uid + 1 else uid) else first) }
    ensures bound { (n : ℕ) → uid ≤ n → 4294967295 ≤ n → result ≤ n + 1 }
{
    if !present {
        return u64::from(first);
    }
    if starts { uid + 1 } else { uid }
}

/// Whether an incarnation begins with the operation and its k is above 65,535.
fn lacks_k(next_k: u32, value: &Folders, front: &[SoundOp], through: &[SoundOp], op: &Op) -> bool
    ensures { (start : Counters) (list : List Op)
        → through.now ≡ front.now ++ op.now ∷ []
        → IsApplied (list ++ through.now)
        → IsMadeBy (contents_of value.now) list
        → next_k ≡ start.k + count_all begins_incarnation list
        → IsTrue result ↔ LacksK start (list ++ front.now) op.now }
{
    if next_k <= 65_535 && front.len() <= (65_535 - next_k) as usize {
        return false;
    }
    begins(value, front, through, op) && 65_535 < k_after(next_k, value, front)
}

/// Whether an incarnation begins with the operation. `through` contains the operations of `front`
/// and this one.
pub fn begins(value: &Folders, front: &[SoundOp], through: &[SoundOp], op: &Op) -> bool
    ensures { (list : List Op)
        → through.now ≡ front.now ++ op.now ∷ []
        → IsApplied (list ++ through.now)
        → IsMadeBy (contents_of value.now) list
        → result ≡ begins_incarnation (list ++ front.now) op.now }
{
    let folder = op.kind.name();
    value.exists_after(folder, through) && !value.exists_after(folder, front)
}

/// The k of the next incarnation that begins after these operations, if it is `now` before them.
fn k_after(now: u32, value: &Folders, ops: &[SoundOp]) -> u64
    ensures { (start : Counters) (list : List Op)
        → IsApplied (list ++ ops.now)
        → IsMadeBy (contents_of value.now) list
        → now ≡ start.k + count_all begins_incarnation list
        → result ≡ start.k + count_all begins_incarnation (list ++ ops.now) }
{
    let mut k = u64::from(now);
    for at in 0..ops.len() {
        if begins(value, &ops[..at], &ops[..at + 1], ops[at].op()) {
            k += 1;
        }
    }
    k
}
