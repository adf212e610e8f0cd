//! The op lines of a dump.

ghost use Rattle.std.specs.Prelude.{◌≡◌, ◌↔◌, ◌≤◌, ◌<◌, [], true, false, IfOk, IfSome, IsSome};
ghost use Rattle.std.specs.Prelude.{IsTrue, OnOk, length};
ghost use Rattle.std.specs.declared.cmp.Ordering.TheVariants.{Less};
ghost use Rattle.crdt_ops.specs.SortedSets.{id_order};
ghost use Rattle.mail_audit.specs.DumpLines.{HasTakenOp, IsAboveLast};

use crdt_ops::{Op, SoundOp, into_sound_op};
use merge_laws::Caused;
use std::alloc::{AllocError, Global};
use tags_clocks::{Clock, OpId, ReplicaId};

/// The op lines of a dump. A line is bad if its operation isn't sound, or if its id isn't above
/// that of the line before it. The operations of the lines before the first bad one are stored, but
/// only the ids of the later lines.
#[derive(Drop)]
pub struct OpLines {
    pub ops: Vec<SoundOp>,
    pub is_bad: bool,
    pub others: Vec<OpId>,
}

impl OpLines {
    /// No lines.
    pub fn new(alloc: Global) -> OpLines
        ensures { (result.ops.items ≡ []) × (result.is_bad ≡ false) }
    {
        OpLines {
            ops: Vec::new(alloc),
            is_bad: false,
            others: Vec::new(alloc),
        }
    }

    /// Takes the operation of the next line; `Err` if memory runs out.
    pub fn push(&mut self, op: Op) -> Result<(), AllocError>
        ensures { OnOk result (HasTakenOp self.old op self.new) }
    {
        let id = op.id;
        if self.is_bad || !is_above(&self.ops, &id) {
            drop(op);
            return self.push_bad(&id);
        }
        match into_sound_op(op) {
            Some(op) => {
                self.ops.push(op)?;
                Ok(())
            }
            None => self.push_bad(&id),
        }
    }

    /// Takes the id of a bad line or of a later one; `Err` if memory runs out.
    fn push_bad(&mut self, id: &OpId) -> Result<(), AllocError>
        ensures { OnOk result
            ((self.new.is_bad ≡ true) × (self.new.ops.items ≡ self.old.ops.items)) }
    {
        self.is_bad = true;
        self.others.push(*id)?;
        Ok(())
    }

    /// The place of the first op line that makes the dump wrong, if any: it is bad, or has a cause
    /// that no op line has. If op lines may still follow, a cause whose id is above that of the
    /// last line may be among them, and doesn't count as missing. `Err` if memory runs out.
    pub fn first_wrong(&self, alloc: Global, may_follow: bool) -> Result<Option<usize>, AllocError>
        ensures within { IfOk result
            (λ wrong. IfSome wrong (λ place. place ≤ length self.now.ops.items)) }
        ensures bad { IfOk result (λ wrong. self.now.is_bad ≡ true → IsSome wrong) }
        ensures at_end { IfOk result (λ wrong. self.now.is_bad ≡ false
            → IfSome wrong (λ place. place < length self.now.ops.items)) }
    {
        let live = self.clock(alloc)?;
        let last = if may_follow { self.last_id() } else { None };
        Ok(match first_lacking(&self.ops, &live, &last) {
            Some(place) => Some(place),
            None if self.is_bad => Some(self.ops.len()),
            None => None,
        })
    }

    /// The id of the last op line.
    fn last_id(&self) -> Option<OpId> {
        match self.others.last() {
            Some(id) => Some(*id),
            None => self.ops.last().map(|op| op.id()),
        }
    }

    /// The clock that counts, for each replica, the op lines with its numbers from 1 on without a
    /// gap; `Err` if memory runs out.
    fn clock(&self, alloc: Global) -> Result<Clock, AllocError> {
        let mut ids = Vec::with_capacity(alloc, self.others.len())?;
        for op in &self.ops {
            ids.push(op.id())?;
        }
        ids.extend_from_slice(&self.others)?;
        ids.sort()?;
        let mut clock = Clock::new(alloc);
        for id in &ids {
            if clock.get(id.replica) == id.number.get() - 1 {
                clock.raise(id.replica, id.number.get())?;
            }
        }
        Ok(clock)
    }
}

/// Whether the id is above that of the last operation.
fn is_above(ops: &[SoundOp], id: &OpId) -> bool
    ensures { IsTrue result ↔ IsAboveLast ops.now id.now }
{
    match ops.last() {
        None => true,
        Some(op) => is_below(op, id),
    }
}

/// Whether the operation's id is below this one.
fn is_below(op: &SoundOp, id: &OpId) -> bool
    ensures { IsTrue result ↔ (id_order op.now.id id.now ≡ Less) }
{
    op.id() < *id
}

/// The place of the first operation with a cause that isn't counted. If op lines may still follow
/// after the id `last`, only causes whose ids aren't above it count as missing.
fn first_lacking(ops: &[SoundOp], live: &Clock, last: &Option<OpId>) -> Option<usize>
    ensures { IfSome result (λ place. place < length ops.now) }
{
    for (place, op) in ops.iter().enumerate() {
        if lacks(op.clock(), live, last) {
            return Some(place);
        }
    }
    None
}

/// Whether a cause isn't counted. If op lines may still follow after the id `last`, only causes
/// whose ids aren't above it count as missing.
fn lacks(clock: &Clock, live: &Clock, last: &Option<OpId>) -> bool {
    for (replica, count) in clock.entries() {
        let counted = live.get(*replica);
        if counted < *count && is_missed(*replica, counted, last) {
            return true;
        }
    }
    false
}

/// Whether the replica's operation after the first `counted` is missing. If op lines may still
/// follow after the id `last`, it counts as missing only if its id isn't above that one.
fn is_missed(replica: ReplicaId, counted: u32, last: &Option<OpId>) -> bool {
    let Some(last) = last else {
        return true;
    };
    let Some(next) = counted.checked_add(1) else {
        return true;
    };
    match OpId::new(replica, next) {
        Some(cause) => cause <= *last,
        None => true,
    }
}
