//! The lines `agree` and `settle`, which compare replicas and have them exchange operations.

use crate::answers::print_outcome;
use crate::deliveries::{deliver_op, drain_book};
use crate::event_watch::EventWatch;
use crate::play_fault::PlayFault;
use crate::play_state::{BookReplica, PlayRecord, PlayState, replica_place};
use causal_inbox::find_in;
use crdt_ops::SoundOp;
use imap_connection::Node;
use mail_script::{DeliveryResult, OutcomeLine, SettleResult};
use merge_laws::Caused;
use replica_lock::Book;
use std::alloc::{AllocError, Global};
use tags_clocks::{OpId, ReplicaId};
use world_core::{Agreement, agree};

/// The largest number of rounds of an exchange.
const MAX_ROUNDS: usize = 65_536;

/// Prints whether two replicas applied the same operations.
pub fn compare(
    state: &PlayState,
    first: ReplicaId,
    second: ReplicaId,
    record: &mut PlayRecord,
) -> Result<(), PlayFault> {
    let Some(one) = replica_place(&state.replicas, first) else {
        return Err(PlayFault::BadScript);
    };
    let Some(other) = replica_place(&state.replicas, second) else {
        return Err(PlayFault::BadScript);
    };
    let same = agree(
        state.replicas[one].book.node(),
        state.replicas[other].book.node(),
    );
    let outcome = OutcomeLine::Agreed {
        first,
        second,
        same: same == Agreement::Same,
    };
    print_outcome(&outcome, &mut record.printed)?;
    Ok(())
}

/// Has all replicas exchange the operations that they received, and prints the result.
pub fn exchange(
    alloc: Global,
    state: &mut PlayState,
    record: &mut PlayRecord,
) -> Result<(), PlayFault> {
    let result = match conflict(&state.replicas) {
        Some(id) => SettleResult::Conflict { id },
        None => settle(alloc, &mut state.replicas, &mut record.watch)?,
    };
    print_outcome(&OutcomeLine::Settled { result }, &mut record.printed)?;
    Ok(())
}

/// The least id under which two of the replicas received different operations, if any.
fn conflict(replicas: &[BookReplica]) -> Option<OpId> {
    let mut least = None;
    for replica in replicas {
        take_lesser(&mut least, conflict_with(replica.book.node(), replicas));
    }
    least
}

fn conflict_with(node: &Node, replicas: &[BookReplica]) -> Option<OpId> {
    let mut least = None;
    for replica in replicas {
        take_lesser(&mut least, conflict_between(node, replica.book.node()));
    }
    least
}

/// The least id under which the other node received another operation than the node.
fn conflict_between(node: &Node, other: &Node) -> Option<OpId> {
    let mut least = held_conflict(node, other);
    for op in node.op_list() {
        if is_other(op, other) {
            take_lesser(&mut least, Some(op.id()));
        }
    }
    least
}

fn held_conflict(node: &Node, other: &Node) -> Option<OpId> {
    let mut least = None;
    for op in node.held().iter() {
        if is_other(op, other) {
            take_lesser(&mut least, Some(op.id()));
        }
    }
    least
}

/// Whether the node received another operation with this one's id.
fn is_other(op: &SoundOp, node: &Node) -> bool {
    if let Some(applied) = find_in(node.op_list(), op.id()) {
        return !applied.same(op);
    }
    match node.held().get(op.id()) {
        Some(held) => !held.same(op),
        None => false,
    }
}

/// Replaces `least` by `id` if `id` is less. `None` is greater than any id.
fn take_lesser(least: &mut Option<OpId>, id: Option<OpId>) {
    if is_lesser_id(&id, least) {
        *least = id;
    }
}

/// Whether `one` is less than `other`. `None` is greater than any id.
fn is_lesser_id(one: &Option<OpId>, other: &Option<OpId>) -> bool {
    match one {
        None => false,
        Some(id) => match other {
            None => true,
            Some(least) => *id < *least,
        },
    }
}

/// Has the replicas exchange what they received, through the first one, until it learns of no
/// further operation.
fn settle(
    alloc: Global,
    replicas: &mut [BookReplica],
    watch: &mut EventWatch,
) -> Result<SettleResult, AllocError> {
    if !release_all(alloc, replicas, watch)? {
        return Ok(SettleResult::Exhausted);
    }
    for _round in 0..MAX_ROUNDS {
        if !spread(alloc, replicas, watch)? {
            return Ok(SettleResult::Exhausted);
        }
        let known = applied_by_first(replicas);
        if !collect(alloc, replicas, watch)? {
            return Ok(SettleResult::Exhausted);
        }
        if applied_by_first(replicas) == known {
            return Ok(SettleResult::Done);
        }
    }
    Err(AllocError)
}

fn applied_by_first(replicas: &[BookReplica]) -> usize {
    match replicas.first() {
        Some(hub) => hub.book.node().op_list().len(),
        None => 0,
    }
}

/// Has each replica apply the held operations that it can apply; `false` if a counter of one has no
/// number left for one.
fn release_all(
    alloc: Global,
    replicas: &mut [BookReplica],
    watch: &mut EventWatch,
) -> Result<bool, AllocError> {
    for replica in replicas.iter_mut() {
        if drain_book(alloc, &mut replica.book, watch)?.stalled {
            return Ok(false);
        }
    }
    Ok(true)
}

/// Delivers what the first replica applied to all others; `false` if a counter of one has no number
/// left.
fn spread(
    alloc: Global,
    replicas: &mut [BookReplica],
    watch: &mut EventWatch,
) -> Result<bool, AllocError> {
    for place in 1..replicas.len() {
        if !pass_on(alloc, replicas, 0, place, watch)? {
            return Ok(false);
        }
    }
    Ok(true)
}

/// Delivers what each other replica applied to the first one; `false` if a counter of it has no
/// number left.
fn collect(
    alloc: Global,
    replicas: &mut [BookReplica],
    watch: &mut EventWatch,
) -> Result<bool, AllocError> {
    for place in 1..replicas.len() {
        if !pass_on(alloc, replicas, place, 0, watch)? {
            return Ok(false);
        }
    }
    Ok(true)
}

/// Delivers what the replica at one place applied to that at another one; `false` if a counter of
/// the latter has no number left.
fn pass_on(
    alloc: Global,
    replicas: &mut [BookReplica],
    from: usize,
    to: usize,
    watch: &mut EventWatch,
) -> Result<bool, AllocError> {
    let ops = missing_ops(alloc, replicas, from, to)?;
    match replicas.get_mut(to) {
        Some(replica) => deliver_all(alloc, &mut replica.book, &ops, watch),
        None => Ok(true),
    }
}

/// Copies of what the replica at one place applied, without what that at another one did. They are
/// made once more if memory runs out; `Err` if it runs out twice.
fn missing_ops(
    alloc: Global,
    replicas: &[BookReplica],
    from: usize,
    to: usize,
) -> Result<Vec<SoundOp>, AllocError> {
    let Some(one) = replicas.get(from) else {
        return Ok(Vec::new(alloc));
    };
    let Some(other) = replicas.get(to) else {
        return Ok(Vec::new(alloc));
    };
    let clock = other.book.node().clock();
    match one.book.node().ops_since(alloc, clock) {
        Ok(ops) => Ok(ops),
        Err(AllocError) => one.book.node().ops_since(alloc, clock),
    }
}

/// Delivers operations, each after its causes; `false` if a counter has no number left for one.
fn deliver_all(
    alloc: Global,
    book: &mut Book,
    ops: &[SoundOp],
    watch: &mut EventWatch,
) -> Result<bool, AllocError> {
    for op in ops {
        if !is_taken(deliver_op(alloc, book, op, watch)?) {
            return Ok(false);
        }
    }
    Ok(true)
}

/// Whether nothing is left for lack of numbers after a delivery with this result.
fn is_taken(delivery: DeliveryResult) -> bool {
    match delivery {
        DeliveryResult::Applied { stalled, .. } => !stalled,
        DeliveryResult::Held { stalled } => !stalled,
        DeliveryResult::Repeat { stalled } => !stalled,
        _ => false,
    }
}
