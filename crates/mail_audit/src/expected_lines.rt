//! The lines that must follow the op lines of a dump, worked out by applying its operations.

ghost use Rattle.std.specs.Prelude.{◌≡◌, ◌⊎◌, ◌<◌, IfOk, MatchOption, length};
ghost use Rattle.merge_laws.specs.Orders.{IsIn};
ghost use Rattle.causal_inbox.specs.Inbox.{IsReceived};
ghost use Rattle.tags_clocks.specs.Clock.{IsCause};
ghost use Rattle.crdt_ops.specs.SortedSets.{IsAscending, id_order};
ghost use Rattle.crdt_ops.specs.declared.op.Op.{Op};
ghost use Rattle.mail_audit.specs.DumpLines.{HasReceivedOnly, IsExpected, IsExpectedOf};

use crate::dump_state::state_lines;
use causal_inbox::{DeliverFault, Inbox};
use crdt_ops::SoundOp;
use folder_state::Folders;
use merge_laws::{Caused, Pair, Unfollowed};
use std::alloc::{AllocError, Global};
use subs_state::Subs;
use tags_clocks::Clock;

/// The lines that must follow the op lines of a dump.
#[derive(Drop)]
pub enum Expected {
    /// These lines, each with its end.
    Lines(Vec<u8>),
    /// No lines can follow: the operation after this number of op lines can't be applied by any
    /// replica, whichever of the others it applied.
    WrongOp(usize),
}

/// The lines that must follow these op lines; `Err` if memory runs out.
pub fn expected_after(alloc: Global, ops: &[SoundOp]) -> Result<Expected, AllocError>
    requires { IsAscending (λ (a b : Op). id_order a.id b.id) ops.now }
    ensures { IfOk result (IsExpected ops.now) }
{
    crdt_ops::one_set_means_one();
    let value = Pair {
        first: Folders::new(alloc),
        second: Subs::new(alloc),
    };
    let mut inbox = Inbox::new(alloc, value, Unfollowed)?;
    apply_all(alloc, ops, &mut inbox)?;
    match first_unapplied(ops, inbox.clock()) {
        Some(place) => Ok(Expected::WrongOp(place)),
        None => lines_of(alloc, &inbox),
    }
}

/// The lines of the state that the inbox's operations define.
fn lines_of(
    alloc: Global,
    inbox: &Inbox<Pair<Folders, Subs>, Unfollowed>,
) -> Result<Expected, AllocError>
    ensures { IfOk result (IsExpectedOf inbox.now.received.applied) }
{
    let _list = inbox.op_list();
    let value = inbox.value();
    let lines = state_lines(alloc, &value.first, &value.second)?;
    Ok(Expected::Lines(lines))
}

/// Applies all operations that can be applied: passes over the list until none is ripe.
fn apply_all(
    alloc: Global,
    ops: &[SoundOp],
    inbox: &mut Inbox<Pair<Folders, Subs>, Unfollowed>,
) -> Result<(), AllocError>
    requires { HasReceivedOnly ops.now inbox.old.received }
    ensures { HasReceivedOnly ops.now inbox.new.received }
{
    for _round in 0..ops.len() {
        if !apply_ripe(alloc, ops, inbox)? {
            return Ok(());
        }
    }
    Ok(())
}

/// Passes over the operations once, and applies those that are ripe; returns whether any was.
fn apply_ripe(
    alloc: Global,
    ops: &[SoundOp],
    inbox: &mut Inbox<Pair<Folders, Subs>, Unfollowed>,
) -> Result<bool, AllocError>
    requires { HasReceivedOnly ops.now inbox.old.received }
    ensures { HasReceivedOnly ops.now inbox.new.received }
{
    let mut has_applied = false;
    for op in ops {
        if is_next(inbox.clock(), op) {
            apply(alloc, op, inbox)?;
            has_applied = true;
        }
    }
    Ok(has_applied)
}

/// Whether the clock counts all causes of the operation and not the operation itself.
fn is_next(clock: &Clock, op: &SoundOp) -> bool {
    !clock.covers(op.id()) && op.clock().is_covered_by(clock)
}

/// Applies a ripe operation.
fn apply(
    alloc: Global,
    op: &SoundOp,
    inbox: &mut Inbox<Pair<Folders, Subs>, Unfollowed>,
) -> Result<(), AllocError>
    ensures { (o : Op)
        → IsReceived inbox.new.received o
        → IsReceived inbox.old.received o ⊎ (o ≡ op.now) }
{
    causal_inbox::delivery_is_received::<Pair<Folders, Subs>, Unfollowed>();
    let copy = op.copy(alloc)?;
    match inbox.deliver(alloc, copy) {
        Ok(_) => Ok(()),
        Err(DeliverFault::NoMemory) => Err(AllocError),
        Err(_) => Ok(()),
    }
}

/// The place of the first operation that the clock doesn't count, if any.
fn first_unapplied(ops: &[SoundOp], clock: &Clock) -> Option<usize>
    ensures { MatchOption result ((o : Op) → IsIn o ops.now → IsCause clock.now o.id)
        (λ place. place < length ops.now) }
{
    for (place, op) in ops.iter().enumerate() {
        if !clock.covers(op.id()) {
            return Some(place);
        }
    }
    None
}
