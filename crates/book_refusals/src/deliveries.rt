//! The lines `deliver`, `forge` and `drain`, which deliver operations to replicas.

use crate::answers::print_outcome;
use crate::event_source::EventSource;
use crate::event_watch::EventWatch;
use crate::given_events::{give, give_op};
use crate::play_fault::PlayFault;
use crate::play_state::{PlayRecord, PlayState, replica_place};
use causal_inbox::{Arrival, DeliverFault, Delivered, Drained};
use crdt_ops::{Op, OpFault, SoundOp, Unsound, check, read_op};
use mail_script::{BrokenRule, DeliveryResult, OutcomeLine};
use merge_laws::Caused;
use replica_lock::{Book, Outcome};
use std::alloc::{AllocError, Global};
use tags_clocks::{OpId, ReplicaId};

/// Delivers an operation that a replica's session issued, and prints the result.
pub fn deliver(
    alloc: Global,
    state: &mut PlayState,
    id: OpId,
    replica: ReplicaId,
    record: &mut PlayRecord,
) -> Result<(), PlayFault> {
    let op = issued_op(alloc, state, id)?;
    let result = deliver_to(alloc, state, replica, &op, record)?;
    let delivered = op.id();
    drop(op);
    let outcome = OutcomeLine::Delivered {
        id: delivered,
        replica,
        result,
    };
    print_outcome(&outcome, &mut record.printed)?;
    Ok(())
}

/// Delivers an operation that the line spells, and prints the result, or why the operation isn't
/// sound.
pub fn forge(
    alloc: Global,
    state: &mut PlayState,
    replica: ReplicaId,
    text: &[u8],
    record: &mut PlayRecord,
) -> Result<(), PlayFault> {
    if replica_place(&state.replicas, replica).is_none() {
        return Err(PlayFault::BadScript);
    }
    match check(spelled_op(alloc, text)?) {
        Ok(op) => forge_sound(alloc, state, replica, op, record),
        Err((op, why)) => {
            drop(op);
            let rule = broken_rule_of(why);
            print_outcome(&OutcomeLine::Unsound { rule }, &mut record.printed)?;
            Ok(())
        }
    }
}

fn forge_sound(
    alloc: Global,
    state: &mut PlayState,
    replica: ReplicaId,
    op: SoundOp,
    record: &mut PlayRecord,
) -> Result<(), PlayFault> {
    let result = deliver_to(alloc, state, replica, &op, record)?;
    let id = op.id();
    drop(op);
    let outcome = OutcomeLine::Forged {
        id,
        replica,
        result,
    };
    print_outcome(&outcome, &mut record.printed)?;
    Ok(())
}

/// The operation that a text spells, sound or not.
fn spelled_op(alloc: Global, text: &[u8]) -> Result<Op, PlayFault> {
    match spelled_once(alloc, text) {
        Ok(op) => Ok(op),
        Err(PlayFault::NoMemory) => spelled_once(alloc, text),
        Err(PlayFault::BadScript) => Err(PlayFault::BadScript),
    }
}

fn spelled_once(alloc: Global, text: &[u8]) -> Result<Op, PlayFault> {
    match read_op(alloc, text) {
        Ok(op) => Ok(op),
        Err(OpFault::NotInForm) => Err(PlayFault::BadScript),
        Err(OpFault::NoMemory) => Err(PlayFault::NoMemory),
    }
}

/// A copy of the operation with this id, if its replica's sessions issued it.
fn issued_op(alloc: Global, state: &PlayState, id: OpId) -> Result<SoundOp, PlayFault> {
    let Some(place) = replica_place(&state.replicas, id.replica) else {
        return Err(PlayFault::BadScript);
    };
    let replica = &state.replicas[place];
    let ops = replica.book.node().op_list();
    let Some(at) = issued_place(ops, &replica.issued, id) else {
        return Err(PlayFault::BadScript);
    };
    let Some(op) = ops.get(at) else {
        return Err(PlayFault::BadScript);
    };
    let copy = copy_of(alloc, op)?;
    Ok(copy)
}

/// A copy, made once more if memory runs out.
fn copy_of(alloc: Global, op: &SoundOp) -> Result<SoundOp, AllocError> {
    match op.copy(alloc) {
        Ok(copy) => Ok(copy),
        Err(AllocError) => op.copy(alloc),
    }
}

/// The place of the operation with this id among those applied, if sessions issued it.
fn issued_place(ops: &[SoundOp], issued: &[(usize, usize)], id: OpId) -> Option<usize> {
    for (place, op) in ops.iter().enumerate() {
        if op.id() == id && is_issued(issued, place) {
            return Some(place);
        }
    }
    None
}

fn is_issued(issued: &[(usize, usize)], place: usize) -> bool {
    for (first, end) in issued {
        if *first <= place && place < *end {
            return true;
        }
    }
    false
}

fn deliver_to(
    alloc: Global,
    state: &mut PlayState,
    replica: ReplicaId,
    op: &SoundOp,
    record: &mut PlayRecord,
) -> Result<DeliveryResult, PlayFault> {
    let Some(place) = replica_place(&state.replicas, replica) else {
        return Err(PlayFault::BadScript);
    };
    let book = &mut state.replicas[place].book;
    let result = deliver_op(alloc, book, op, &mut record.watch)?;
    Ok(result)
}

/// Delivers an operation to a book, and returns the result. If ripe operations are still held, they
/// are drained, and count as applied by the delivery.
pub fn deliver_op(
    alloc: Global,
    book: &mut Book,
    op: &SoundOp,
    watch: &mut EventWatch,
) -> Result<DeliveryResult, AllocError> {
    let outcome = give_op(alloc, book, op, watch)?;
    match delivery_of(&outcome) {
        Ok(delivered) => arrival_result(alloc, book, delivered, watch),
        Err(DeliverFault::Conflict { id }) => Ok(DeliveryResult::Conflict { id }),
        Err(DeliverFault::HeldFull) => Ok(DeliveryResult::HeldFull),
        Err(DeliverFault::Exhausted) => Ok(DeliveryResult::Exhausted),
        Err(DeliverFault::NoMemory) => Err(AllocError),
    }
}

fn delivery_of(outcome: &Outcome) -> Result<Delivered, DeliverFault> {
    match outcome {
        Outcome::Delivered { answer } => *answer,
        _ => Err(DeliverFault::NoMemory),
    }
}

fn arrival_result(
    alloc: Global,
    book: &mut Book,
    delivered: Delivered,
    watch: &mut EventWatch,
) -> Result<DeliveryResult, AllocError> {
    let Delivered { arrival, stalled } = delivered;
    if !stalled {
        return Ok(result_of(arrival, 0, false));
    }
    let Drained { applied, stalled } = drain_book(alloc, book, watch)?;
    Ok(result_of(arrival, applied as u64, stalled))
}

fn result_of(arrival: Arrival, later: u64, stalled: bool) -> DeliveryResult {
    match arrival {
        Arrival::Applied(count) => DeliveryResult::Applied {
            count: (count as u64).saturating_add(later),
            stalled,
        },
        Arrival::Held => DeliveryResult::Held { stalled },
        Arrival::Repeat => DeliveryResult::Repeat { stalled },
    }
}

/// Applies a replica's held operations that are ripe, and prints how many were applied.
pub fn drain(
    alloc: Global,
    state: &mut PlayState,
    replica: ReplicaId,
    record: &mut PlayRecord,
) -> Result<(), PlayFault> {
    let Some(place) = replica_place(&state.replicas, replica) else {
        return Err(PlayFault::BadScript);
    };
    let book = &mut state.replicas[place].book;
    let drained = drain_book(alloc, book, &mut record.watch)?;
    let outcome = OutcomeLine::Drained {
        replica,
        count: drained.applied as u64,
        stalled: drained.stalled,
    };
    print_outcome(&outcome, &mut record.printed)?;
    Ok(())
}

/// Drains a book, and once more if ripe operations are still held then; returns the sum.
pub fn drain_book(
    alloc: Global,
    book: &mut Book,
    watch: &mut EventWatch,
) -> Result<Drained, AllocError> {
    let first = drain_once(alloc, book, watch)?;
    if !first.stalled {
        return Ok(first);
    }
    let second = drain_once(alloc, book, watch)?;
    Ok(Drained {
        applied: first.applied.saturating_add(second.applied),
        stalled: second.stalled,
    })
}

fn drain_once(
    alloc: Global,
    book: &mut Book,
    watch: &mut EventWatch,
) -> Result<Drained, AllocError> {
    let outcome = give(alloc, book, &EventSource::Drain, watch)?;
    drained_of(&outcome)
}

fn drained_of(outcome: &Outcome) -> Result<Drained, AllocError> {
    match outcome {
        Outcome::Drained { drained } => Ok(*drained),
        _ => Err(AllocError),
    }
}

fn broken_rule_of(why: Unsound) -> BrokenRule {
    match why {
        Unsound::OwnClockEntry => BrokenRule::OwnEntry,
        Unsound::UncoveredId => BrokenRule::UncoveredId,
        Unsound::UnlawfulName => BrokenRule::UnlawfulName,
        Unsound::UnlawfulFlags => BrokenRule::UnlawfulFlags,
        Unsound::DeleteOfInbox => BrokenRule::InboxDeleted,
        Unsound::Count => BrokenRule::OldIdCount,
    }
}
