//! The inbox gives the same answers as one in plain lists.

use crate::fixtures::Trouble;
use crate::generated::{LISTS, generated_ops};
use crate::plain_inbox::{PlainInbox, is_op_at};
use crate::refused_values::RefusingFollower;
use causal_inbox::Inbox;
use crdt_ops::SoundOp;
use merge_laws::{Caused, Replicated};
use std::alloc::{AllocError, Global};
use std::test::Fail;
use tags_clocks::Clock;

/// A value that no operation changes.
#[derive(Drop)]
struct Unchanged;

impl Replicated for Unchanged {
    type Op = SoundOp;

    ghost Meaning = { Unit {0} };

    ghost meaning = { λ _. tt };

    ghost effect = { λ _ _. tt };

    ghost initial = { tt };

    ghost is_prepared = { λ _ _. Unit {0} };

    ghost first = { λ _ _ _ _. tt };

    ghost commutes = { λ _ _ _ _ _ _. λ i. tt };

    fn prepare(&mut self, _alloc: Global, _ops: &[SoundOp]) -> Result<(), AllocError> {
        Ok(())
    }

    fn apply(&mut self, _op: &SoundOp) {}
}

type ComparedInbox = Inbox<Unchanged, RefusingFollower>;

/// Whether both have the same operations in the same order.
fn have_same_ops(inbox: &ComparedInbox, plain: &PlainInbox) -> bool {
    has_same_applied_ops(inbox.op_list(), &plain.applied) && has_same_held_ops(inbox, &plain.held)
}

fn has_same_applied_ops(ops: &[SoundOp], others: &[SoundOp]) -> bool {
    for (at, op) in ops.iter().enumerate() {
        if !is_op_at(others, at, op) {
            return false;
        }
    }
    ops.len() == others.len()
}

fn has_same_held_ops(inbox: &ComparedInbox, others: &[SoundOp]) -> bool {
    let held = inbox.held();
    for (at, op) in held.iter().enumerate() {
        if !is_op_at(others, at, op) {
            return false;
        }
    }
    held.len() == others.len()
}

/// Whether both give the same answer to the delivery, and to a drain if it stalled.
fn gives_same_answer(
    alloc: Global,
    inbox: &mut ComparedInbox,
    plain: &mut PlainInbox,
    op: &SoundOp,
) -> Result<bool, Trouble> {
    let answer = inbox.deliver(alloc, op.copy(alloc)?);
    let plain_answer = plain.deliver(op.copy(alloc)?)?;
    if answer != plain_answer {
        return Ok(false);
    }
    match answer {
        Ok(delivered) => gives_same_drain(alloc, inbox, plain, delivered.stalled),
        Err(_) => Ok(true),
    }
}

/// Whether both drain alike if the delivery stalled, and then have equally many operations.
fn gives_same_drain(
    alloc: Global,
    inbox: &mut ComparedInbox,
    plain: &mut PlainInbox,
    stalled: bool,
) -> Result<bool, Trouble> {
    if stalled && inbox.drain(alloc) != plain.drain()? {
        return Ok(false);
    }
    Ok(inbox.held().len() == plain.held.len() && inbox.op_list().len() == plain.applied.len())
}

/// Whether both give the same operations since the clock of every 16th applied operation.
fn gives_same_ops_since_clocks(
    alloc: Global,
    inbox: &ComparedInbox,
    plain: &PlainInbox,
) -> Result<bool, Trouble> {
    for (at, op) in plain.applied.iter().enumerate() {
        if at % 16 == 0 && !gives_same_ops_since(alloc, inbox, plain, op.clock())? {
            return Ok(false);
        }
    }
    Ok(true)
}

/// Whether both give the same operations since a clock.
fn gives_same_ops_since(
    alloc: Global,
    inbox: &ComparedInbox,
    plain: &PlainInbox,
    clock: &Clock,
) -> Result<bool, Trouble> {
    let since = inbox.ops_since(alloc, clock)?;
    Ok(plain.equals_ops_since(clock, &since))
}

/// Whether both give the same answer to each delivery, and end in the same state.
fn gives_same_answers(
    alloc: Global,
    inbox: &mut ComparedInbox,
    plain: &mut PlainInbox,
    ops: &[SoundOp],
) -> Result<bool, Trouble> {
    for op in ops {
        if !gives_same_answer(alloc, inbox, plain, op)? {
            return Ok(false);
        }
    }
    Ok(have_same_ops(inbox, plain) && gives_same_ops_since_clocks(alloc, inbox, plain)?)
}

/// Whether both give the same answers to this list. After `number` applications the next is
/// refused memory, if there is a next one.
fn gives_same_answers_to_list(alloc: Global, number: u32) -> Result<bool, Trouble> {
    let ops = generated_ops(alloc, number)?;
    let before = Some(number);
    let mut inbox = Inbox::new(alloc, Unchanged, RefusingFollower { before })?;
    let mut plain = PlainInbox::new(alloc, before);
    let alike = gives_same_answers(alloc, &mut inbox, &mut plain, &ops);
    drop(inbox);
    drop(plain);
    drop(ops);
    alike
}

/// The first list to which they give different answers.
fn first_differing_list(alloc: Global) -> Result<Option<u32>, Trouble> {
    for number in 0..LISTS {
        if !gives_same_answers_to_list(alloc, number)? {
            return Ok(Some(number));
        }
    }
    Ok(None)
}

#[test]
fn the_inbox_answers_as_plain_lists_do(rt: HostRuntime) -> Result<(), Fail> {
    assert!(rt; first_differing_list(rt.alloc())?.is_none());
    Ok(())
}
