//! The operations that a peer lacks, copied from the replica, until they are sent.

ghost use Rattle.std.specs.Prelude.{◌≡◌, ◌↔◌, ◌<◌, ◌≤◌, ◌⊎◌, ◌∷◌, [], ℕ, List, IfOk, IsTrue};
ghost use Rattle.std.specs.Prelude.{MatchOption, take};
ghost use Rattle.causal_inbox.specs.Inbox.{uncovered_ops};
ghost use Rattle.crdt_ops.specs.declared.op.Op.{Op};
ghost use Rattle.crdt_ops.specs.Ops.{id_of};
ghost use Rattle.link_runtime.specs.Batches.{IsFrameLimit};

use crdt_ops::SoundOp;
use link_connection::OpSource;
use merge_laws::Caused;
use op_log::line_bound;
use std::alloc::{AllocError, Global};
use std::marker::Model;
use tags_clocks::Clock;

/// The most operations of a frame.
pub const MOST_OPS: usize = 256;

/// The most octets of a frame, unless it has one operation, by the bound of each operation's line.
const MOST_OCTETS: u64 = 1 << 20;

/// Operations in their order.
#[derive(Drop)]
pub struct OpBatch {
    alloc: Global,
    ops: Vec<SoundOp>,
}

impl Model for OpBatch {
    ghost use Rattle.std.specs.Prelude.{List};
    ghost use Rattle.crdt_ops.specs.declared.op.Op.{Op};

    ghost Value = { List Op };

    ghost view = { λ b. b.ops.items };
}

impl OpBatch {
    /// These operations.
    pub fn new(alloc: Global, ops: Vec<SoundOp>) -> OpBatch
        ensures { result ≡ ops.items }
    {
        OpBatch { alloc, ops }
    }

    /// The operations.
    fn ops(&self) -> &[SoundOp]
        ensures { result.now ≡ self.now }
    {
        &self.ops
    }

    /// Whether the clock covers all of them.
    pub fn is_covered_by(&self, clock: &Clock) -> bool
        ensures { IsTrue result ↔ (uncovered_ops id_of clock.now self.now ≡ []) }
    {
        first_uncovered(self.ops(), clock).is_none()
    }

    /// The first operation that the clock doesn't cover.
    pub fn first_uncovered(&self, clock: &Clock) -> Option<&SoundOp>
        ensures { MatchOption result (uncovered_ops id_of clock.now self.now ≡ [])
            (λ op. (later : List Op) × (uncovered_ops id_of clock.now self.now ≡ op.now ∷ later)) }
    {
        first_uncovered(self.ops(), clock)
    }

    /// How many of those that the clock doesn't cover the next frame has at most.
    pub fn frame_limit(&self, clock: &Clock) -> usize
        ensures { IsFrameLimit (uncovered_ops id_of clock.now self.now) result }
    {
        frame_limit(self.ops(), clock)
    }
}

impl OpSource for OpBatch {
    ghost lists = { λ batch list. list ≡ batch };

    fn ops_after(&self, clock: &Clock, limit: usize) -> Option<Vec<SoundOp>> {
        uncovered_copies(self.alloc, self.ops(), clock, limit).ok()
    }
}

/// The first operation that the clock doesn't cover.
fn first_uncovered<'a>(ops: &'a [SoundOp], clock: &Clock) -> Option<&'a SoundOp>
    ensures { MatchOption result (uncovered_ops id_of clock.now ops.now ≡ [])
        (λ op. (later : List Op) × (uncovered_ops id_of clock.now ops.now ≡ op.now ∷ later)) }
{
    for op in ops {
        if !clock.covers(op.op().id) {
            return Some(op);
        }
    }
    None
}

/// How many of the operations that the clock doesn't cover a frame has at most.
fn frame_limit(ops: &[SoundOp], clock: &Clock) -> usize
    ensures { IsFrameLimit (uncovered_ops id_of clock.now ops.now) result }
{
    let mut count = 0;
    let mut octets = 0u64;
    for op in ops {
        if clock.covers(op.op().id) {
            continue;
        }
        octets = octets.saturating_add(line_bound(op));
        if is_full(count, octets) {
            return count;
        }
        count += 1;
    }
    count
}

/// Whether a frame with so many operations has no room for another, with which it would have so
/// many octets.
fn is_full(count: usize, octets: u64) -> bool
    ensures { IsTrue result ↔ ((256 ≤ count) ⊎ ((0 < count) × (1048576 < octets))) }
{
    if count >= MOST_OPS {
        return true;
    }
    count > 0 && octets > MOST_OCTETS
}

/// Copies of the first `limit` operations that the clock doesn't cover.
fn uncovered_copies(
    alloc: Global,
    ops: &[SoundOp],
    clock: &Clock,
    limit: usize,
) -> Result<Vec<SoundOp>, AllocError>
    ensures { IfOk result
        (λ copies. copies.items ≡ take limit (uncovered_ops id_of clock.now ops.now)) }
{
    let mut copies = Vec::new(alloc);
    for op in ops {
        if copies.len() >= limit {
            break;
        }
        if clock.covers(op.op().id) {
            continue;
        }
        copies.push(op.copy(alloc)?)?;
    }
    Ok(copies)
}
