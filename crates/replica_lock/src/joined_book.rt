//! The book of a replica that begins with operations: one that joins, with another one's, or one
//! that is restored, with its own among them.

ghost use Rattle.std.specs.Prelude.{◌≡◌, ◌∷◌, ◌++◌, [], IfErr, IfOk, MatchResult, None, OnOk};
ghost use Rattle.std.specs.Option.{option_to_list};
ghost use Rattle.merge_laws.specs.Orders.{IsCausal, IsRipe};
ghost use Rattle.imap_node.specs.Nodes.{first_numbers};
ghost use Rattle.imap_node.specs.Operations.{clock_of, id_of};
ghost use Rattle.replica_lock.specs.JoinedBook.{IsApplyFault, IsJoinFault, IsRestoreFault};
ghost use Rattle.replica_lock.specs.JoinedBook.{book_with_op, book_with_restored_op, joined_book};
ghost use Rattle.replica_lock.specs.JoinedBook.{join_fault_of, join_fault_of_arrival};
ghost use Rattle.replica_lock.specs.JoinedBook.{restored_book};
ghost use Rattle.causal_inbox.specs.OwnIds.{IsLeastOwn};
ghost use Rattle.uid_projection.specs.Exhaustion.{Exhausts};

use crate::book::Book;
use crate::event::BookEvent;
use crate::faults::JoinFault;
use crate::journal::ForgottenEntries;
use crate::outcome::Outcome;
use causal_inbox::{Arrival, DeliverFault, least_own};
use crdt_ops::SoundOp;
use imap_node::Node;
use merge_laws::Caused;
use std::alloc::{AllocError, Global};
use tags_clocks::{OpId, ReplicaId};
use uid_projection::Counters;

/// The room of so many restored operations is freed at once.
const FREED_AT_ONCE: usize = 16_384;

impl Book {
    /// The book of a new replica of this name to which these operations were delivered, in their
    /// order, with an entry for each. None of them bears its name, and its UIDs count from 1.
    ///
    /// `Own` if one bears its name, with the least such id; this is tested first and takes no
    /// memory. `NotCausal` at the first that isn't ripe after those before it. `Exhausted` if one
    /// of its counters has no number left for one. `NoMemory` if memory runs out.
    ///
    /// It costs as much as the deliveries, and makes two copies of each operation: the replica's
    /// and the journal's.
    pub fn join(alloc: Global, id: ReplicaId, ops: &[SoundOp]) -> Result<Book, JoinFault>
        ensures { MatchResult result
            (λ book. (book ≡ joined_book id ops.now) × IsLeastOwn id_of id ops.now None
            × IsCausal id_of clock_of ops.now × (¬ Exhausts (first_numbers id) [] ops.now))
            (IsJoinFault id ops.now) }
    {
        if let Some(own) = least_own(id, ops) {
            return Err(JoinFault::Own { id: own });
        }
        let Ok(mut book) = first_book(alloc, id) else {
            return Err(JoinFault::NoMemory);
        };
        if let Err(fault) = take_all(alloc, &mut book, ops) {
            drop(book);
            return Err(fault);
        }
        Ok(book)
    }

    /// The book of a replica of this name that applied these operations, in their order, its own
    /// among them, and whose UIDs count from 1. They are delivered to a new replica, one after
    /// another, and the entries are forgotten: the journal's first entry will be the next one.
    ///
    /// `NotCausal` at the first that isn't ripe after those before it. `Exhausted` if one of its
    /// counters has no number left for one. `NoMemory` if memory runs out.
    ///
    /// It costs as much as the deliveries, copies no operation for good, and frees the list's room
    /// as it goes on.
    pub fn restore(alloc: Global, id: ReplicaId, ops: Vec<SoundOp>) -> Result<Book, JoinFault>
        ensures { MatchResult result
            (λ book. (book ≡ restored_book id ops.items)
            × IsCausal id_of clock_of ops.items × (¬ Exhausts (first_numbers id) [] ops.items))
            (IsRestoreFault id ops.items) }
    {
        let Ok(mut book) = first_book(alloc, id) else {
            drop(ops);
            return Err(JoinFault::NoMemory);
        };
        if let Err(fault) = restore_all(alloc, &mut book, ops) {
            drop(book);
            return Err(fault);
        }
        Ok(book)
    }
}

/// The book of a new replica of this name, whose UIDs count from 1; `Err` if memory runs out.
fn first_book(alloc: Global, id: ReplicaId) -> Result<Book, AllocError>
    ensures { IfOk result (λ book. book ≡ joined_book id []) }
{
    let start = Counters {
        replica: id,
        uid: 1,
        k: 1,
    };
    let node = Node::new(alloc, start)?;
    Ok(Book::new(alloc, node))
}

/// Delivers the operations, one after another, to a replica that has received nothing. Stops at the
/// first that isn't applied.
fn take_all(alloc: Global, book: &mut Book, ops: &[SoundOp]) -> Result<(), JoinFault>
    requires { book.old ≡ joined_book book.old.node.start.replica [] }
    ensures ok { OnOk result ((book.new ≡ joined_book book.old.node.start.replica ops.now)
        × IsCausal id_of clock_of ops.now × (¬ Exhausts book.old.node.start [] ops.now)) }
    ensures fault { IsLeastOwn id_of book.old.node.start.replica ops.now None
        → IfErr result (IsJoinFault book.old.node.start.replica ops.now) }
{
    for op in ops {
        take(alloc, book, op)?;
    }
    Ok(())
}

/// Delivers the operations, one after another, to a replica that has received nothing, and forgets
/// the entries. Stops at the first that isn't applied.
fn restore_all(alloc: Global, book: &mut Book, ops: Vec<SoundOp>) -> Result<(), JoinFault>
    requires { book.old ≡ restored_book book.old.node.start.replica [] }
    ensures ok { OnOk result ((book.new ≡ restored_book book.old.node.start.replica ops.items)
        × IsCausal id_of clock_of ops.items × (¬ Exhausts book.old.node.start [] ops.items)) }
    ensures fault { IfErr result (IsRestoreFault book.old.node.start.replica ops.items) }
{
    let mut later = ops;
    later.reverse();
    while let Some(op) = take_last(&mut later) {
        restore_op(alloc, book, op)?;
    }
    Ok(())
}

/// Takes the last operation, if any; now and then it frees the room of those that were taken.
fn take_last(later: &mut Vec<SoundOp>) -> Option<SoundOp>
    ensures taken { later.old.items ≡ later.new.items ++ option_to_list result }
    ensures none { result ≡ None → later.old.items ≡ [] }
{
    let last = later.pop();
    if later.len() % FREED_AT_ONCE == 0 {
        later.shrink_to_fit();
    }
    last
}

/// Delivers an operation to a replica that holds nothing and whose journal is empty, and forgets
/// the entry.
fn restore_op(alloc: Global, book: &mut Book, op: SoundOp) -> Result<(), JoinFault>
    requires held { book.old.node.held ≡ [] }
    requires journal { book.old.journal ≡ [] }
    ensures ok { OnOk result ((book.new ≡ book_with_restored_op book.old op)
        × IsRipe id_of clock_of book.old.node.applied op
        × (¬ Exhausts book.old.node.start book.old.node.applied (op ∷ []))) }
    ensures fault { IfErr result (IsApplyFault book.old.node op) }
{
    deliver(alloc, book, op)?;
    let mut forgotten = ForgottenEntries::new(alloc);
    book.forget(1, &mut forgotten);
    Ok(())
}

/// Delivers a copy of an operation to a replica that holds nothing.
fn take(alloc: Global, book: &mut Book, op: &SoundOp) -> Result<(), JoinFault>
    requires { book.old.node.held ≡ [] }
    ensures ok { OnOk result ((book.new ≡ book_with_op book.old op.now)
        × IsRipe id_of clock_of book.old.node.applied op.now
        × (¬ Exhausts book.old.node.start book.old.node.applied (op.now ∷ []))) }
    ensures fault { IfErr result (IsApplyFault book.old.node op.now) }
{
    let Ok(op) = op.copy(alloc) else {
        return Err(JoinFault::NoMemory);
    };
    deliver(alloc, book, op)
}

/// Delivers an operation to a replica that holds nothing.
fn deliver(alloc: Global, book: &mut Book, op: SoundOp) -> Result<(), JoinFault>
    requires { book.old.node.held ≡ [] }
    ensures ok { OnOk result ((book.new ≡ book_with_op book.old op)
        × IsRipe id_of clock_of book.old.node.applied op
        × (¬ Exhausts book.old.node.start book.old.node.applied (op ∷ []))) }
    ensures fault { IfErr result (IsApplyFault book.old.node op) }
{
    let id = op.id();
    let Ok(outcome) = book.step(alloc, BookEvent::Deliver { op }) else {
        return Err(JoinFault::NoMemory);
    };
    let checked = join_fault_of(id, &outcome);
    drop(outcome);
    checked
}

/// The fault, if any, shown by the outcome of delivering the operation with this id.
fn join_fault_of(id: OpId, outcome: &Outcome) -> Result<(), JoinFault>
    ensures { result ≡ join_fault_of id outcome.now }
{
    match outcome {
        Outcome::Delivered {
            answer: Ok(receipt),
        } => join_fault_of_arrival(id, &receipt.arrival),
        Outcome::Delivered {
            answer: Err(DeliverFault::Conflict { .. }),
        } => Err(JoinFault::NotCausal { id }),
        Outcome::Delivered {
            answer: Err(DeliverFault::HeldFull),
        } => Err(JoinFault::NotCausal { id }),
        Outcome::Delivered {
            answer: Err(DeliverFault::Exhausted),
        } => Err(JoinFault::Exhausted),
        _ => Err(JoinFault::NoMemory),
    }
}

/// The fault, if any, shown by the arrival of the operation with this id.
fn join_fault_of_arrival(id: OpId, arrival: &Arrival) -> Result<(), JoinFault>
    ensures { result ≡ join_fault_of_arrival id arrival.now }
{
    match arrival {
        Arrival::Applied(_) => Ok(()),
        _ => Err(JoinFault::NotCausal { id }),
    }
}
