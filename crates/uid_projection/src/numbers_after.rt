//! A folder's numbers after operations that are applied next. Nothing here allocates.

ghost use Rattle.std.specs.Prelude.{◌≡◌, ◌≤◌, ◌<◌, ◌+◌, ◌*◌, ℕ, true, List, ◌++◌, Some, min};
ghost use Rattle.std.specs.Prelude.{if◌then◌else◌};
ghost use Rattle.crdt_ops.specs.declared.op.Op.{Op};
ghost use Rattle.folder_state.specs.Contents.{IsMadeBy};
ghost use Rattle.folder_state.specs.Tables.{contents_of};
ghost use Rattle.uid_projection.specs.declared.first_numbers.Counters.{Counters};
ghost use Rattle.uid_projection.specs.Applied.{IsApplied};
ghost use Rattle.uid_projection.specs.Counting.{count_all};
ghost use Rattle.std.specs.List.{list_any};
ghost use Rattle.uid_projection.specs.Incarnations.{begins_incarnation, deletes_folder, k_of};
ghost use Rattle.uid_projection.specs.Incarnations.{uidvalidity_of};
ghost use Rattle.uid_projection.specs.UidsAndModSeqs.{highest_modseq_of};
ghost use Rattle.uid_projection.specs.ChartTable.{IsTable};

use crate::chart::Chart;
use crate::chart_ahead::names_folder;
use crate::chart_table::chart_of;
use crate::exhaustion::{begins, is_same_name};
use crdt_ops::{Kind, SoundOp};
use folder_state::Folders;
use imap_types::Name;
use indexmap::IndexMap;
use tags_clocks::ReplicaId;

/// The UID as a 32-bit number. Callers ensure that it fits.
pub fn uid_in_32_bits(uid: u64) -> u32
    ensures { uid ≤ 4294967295 → result ≡ uid }
{
    match u32::try_from(uid) {
        Ok(uid) => uid,
        Err(_) => u32::MAX,
    }
}

/// The mod-sequence as a 64-bit number, or the greatest such number if it is above.
pub fn modseq_in_64_bits(modseq: u128) -> u64
    ensures { result ≡ min modseq 18446744073709551615 }
{
    match u64::try_from(modseq) {
        Ok(modseq) => modseq,
        Err(_) => u64::MAX,
    }
}

/// The folder's HIGHESTMODSEQ after these operations, if it is `now` before them.
pub fn highest_after(value: &Folders, folder: &Name, now: u64, ops: &[SoundOp]) -> u128
    ensures { (list : List Op)
        → IsApplied (list ++ ops.now)
        → IsMadeBy (contents_of value.now) list
        → now ≡ highest_modseq_of folder.now list
        → result ≡ highest_modseq_of folder.now (list ++ ops.now) }
{
    let mut highest = u128::from(now);
    for at in 0..ops.len() {
        let is_named = names_folder(&ops[at].op().kind, folder);
        let present = value.exists_after(folder, &ops[..at + 1]);
        highest = highest_after_op(present, is_named, highest);
    }
    highest
}

fn highest_after_op(present: bool, is_named: bool, highest: u128) -> u128
    requires { highest < 340282366920938463463374607431768211455 }
    ensures highest { result
        ≡ (if present then (if is_named then highest + 1 else highest) else 1) }
    ensures bound { (n : ℕ) → highest ≤ n → 1 ≤ n → result ≤ n + 1 }
{
    if !present {
        return 1;
    }
    if is_named { highest + 1 } else { highest }
}

/// The k of the folder's incarnation, or of the next one that begins if the folder doesn't exist.
pub fn k_of(charts: &IndexMap<Vec<u8>, Chart>, next_k: u32, folder: &Name) -> u32
    ensures { (start : Counters) (list : List Op)
        → IsTable start list next_k charts.now.entries
        → result ≡ k_of start folder.now list }
{
    match chart_of(charts, folder) {
        Some(chart) => k_now(chart, next_k),
        None => next_k,
    }
}

fn k_now(chart: &Chart, next_k: u32) -> u32
    ensures { result ≡ (if chart.now.present then chart.now.k else next_k) }
{
    if chart.present { chart.k } else { next_k }
}

/// The k of the folder's incarnation after these operations, or of the next one that begins if the
/// folder doesn't exist then. Before the operations it is `now`, and that of the next incarnation
/// is `next_k`.
pub fn k_of_after(value: &Folders, folder: &Name, now: u32, next_k: u32, ops: &[SoundOp]) -> u64
    ensures { (start : Counters) (list : List Op)
        → IsApplied (list ++ ops.now)
        → IsMadeBy (contents_of value.now) list
        → next_k ≡ start.k + count_all begins_incarnation list
        → now ≡ k_of start folder.now list
        → result ≡ k_of start folder.now (list ++ ops.now) }
{
    let mut next = u64::from(next_k);
    let mut k = u64::from(now);
    for at in 0..ops.len() {
        let begins_incarnation = begins(value, &ops[..at], &ops[..at + 1], ops[at].op());
        let present = value.exists_after(folder, &ops[..at + 1]);
        next = next_k_after_op(begins_incarnation, next);
        k = k_after_op(present, k, next);
    }
    k
}

/// Whether the folder exists and none of these operations deletes it, so that it exists before and
/// after each of them. Cost: the number of operations, and a check that the folder exists.
pub fn outlasts_ops(value: &Folders, folder: &Name, ops: &[SoundOp]) -> bool
    ensures { result ≡ true
        → (start : Counters) (list : List Op)
        → IsApplied (list ++ ops.now)
        → IsMadeBy (contents_of value.now) list
        → uidvalidity_of start folder.now (list ++ ops.now) ≡ uidvalidity_of start folder.now list }
{
    value.exists(folder) && !is_deleted(folder, ops)
}

/// Whether one of these operations deletes the folder.
fn is_deleted(folder: &Name, ops: &[SoundOp]) -> bool
    ensures { result ≡ list_any (λ (o : Op). deletes_folder folder.now o.kind) ops.now }
{
    for op in ops {
        if deletes_folder(&op.op().kind, folder) {
            return true;
        }
    }
    false
}

fn deletes_folder(kind: &Kind, folder: &Name) -> bool
    ensures { result ≡ deletes_folder folder.now kind.now }
{
    match kind {
        Kind::Delete { folder: own, .. } => is_same_name(folder, own),
        _ => false,
    }
}

fn next_k_after_op(begins_incarnation: bool, next: u64) -> u64
    requires { next < 18446744073709551615 }
    ensures next { result ≡ (if begins_incarnation then next + 1 else next) }
    ensures bound { result ≤ next + 1 }
{
    if begins_incarnation { next + 1 } else { next }
}

fn k_after_op(present: bool, k: u64, next: u64) -> u64
    ensures { result ≡ (if present then k else next) }
{
    if present { k } else { next }
}

/// The UIDVALIDITY of a replica's incarnation with this k, from 1 to 65,535.
pub fn uidvalidity_of_k(k: u64, replica: ReplicaId) -> Option<u32>
    ensures { k ≤ 65535 → result ≡ Some (65536 * k + replica) }
{
    if k > 65_535 {
        return None;
    }
    match u32::try_from(65_536 * k + u64::from(replica.get())) {
        Ok(number) => Some(number),
        Err(_) => None,
    }
}
