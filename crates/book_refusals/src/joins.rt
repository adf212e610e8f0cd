//! The line `join`, which declares a replica that begins with the operations of another one.

ghost use Rattle.std.specs.Prelude.{◌<◌, length};

use crate::answers::print_outcome;
use crate::play_fault::PlayFault;
use crate::play_state::{BookReplica, PlayRecord, PlayState, replica_place, reserve_one};
use crdt_ops::SoundOp;
use mail_script::{JoinResult, OutcomeLine};
use replica_lock::{Book, JoinFault};
use std::alloc::{AllocError, Global};
use tags_clocks::ReplicaId;

/// Declares a replica that begins with the operations that another one applied, and prints the
/// result; if the join is refused, the replica stays undeclared.
pub fn join(
    alloc: Global,
    state: &mut PlayState,
    name: ReplicaId,
    peer: ReplicaId,
    record: &mut PlayRecord,
) -> Result<(), PlayFault> {
    if replica_place(&state.replicas, name).is_some() {
        return Err(PlayFault::BadScript);
    }
    let Some(place) = replica_place(&state.replicas, peer) else {
        return Err(PlayFault::BadScript);
    };
    let result = join_after(alloc, &mut state.replicas, name, place)?;
    let outcome = OutcomeLine::Joined {
        replica: name,
        peer,
        result,
    };
    print_outcome(&outcome, &mut record.printed)?;
    Ok(())
}

/// Adds a replica that begins with the operations that the one at `place` applied, unless the join
/// is refused.
fn join_after(
    alloc: Global,
    replicas: &mut Vec<BookReplica>,
    name: ReplicaId,
    place: usize,
) -> Result<JoinResult, PlayFault>
    requires { place < length replicas.old.items }
{
    match joined(alloc, name, replicas[place].book.node().op_list()) {
        Ok(book) => {
            declare(alloc, replicas, name, book)?;
            Ok(JoinResult::Done)
        }
        Err(JoinFault::Own { id }) => Ok(JoinResult::Own { id }),
        Err(JoinFault::Exhausted) => Ok(JoinResult::Exhausted),
        Err(JoinFault::NotCausal { .. }) => Err(PlayFault::BadScript),
        Err(JoinFault::NoMemory) => Err(PlayFault::NoMemory),
    }
}

/// The book of a replica that begins with these operations, made once more if memory runs out.
fn joined(alloc: Global, name: ReplicaId, ops: &[SoundOp]) -> Result<Book, JoinFault> {
    match Book::join(alloc, name, ops) {
        Ok(book) => Ok(book),
        Err(JoinFault::NoMemory) => Book::join(alloc, name, ops),
        Err(fault) => Err(fault),
    }
}

/// Adds a replica; `Err` if memory runs out twice.
pub fn declare(
    alloc: Global,
    replicas: &mut Vec<BookReplica>,
    name: ReplicaId,
    book: Book,
) -> Result<(), AllocError> {
    reserve_one(replicas)?;
    replicas.push(BookReplica {
        name,
        book,
        issued: Vec::new(alloc),
    })?;
    Ok(())
}
