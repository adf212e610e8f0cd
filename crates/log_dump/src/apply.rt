//! The entries of a log, applied to a node one after another.

ghost use Rattle.std.specs.Prelude.{◌≡◌, ◌≢◌, ◌∷◌, ◌++◌, [], List, MatchResult};
ghost use Rattle.causal_inbox.specs.Delivery.{IsApplicable};
ghost use Rattle.crdt_ops.specs.Ops.{clock_of, id_of};
ghost use Rattle.imap_node.specs.Nodes.{joined_node, received_ops};
ghost use Rattle.op_log.specs.Entries.{ops_of};
ghost use Rattle.op_log.specs.declared.entry.Entry.{Entry};
ghost use Rattle.uid_projection.specs.Exhaustion.{Exhausts};
ghost use Rattle.log_dump.specs.EntryOrder.{AreInTurn, FollowsEntries, first_name, name_of_entry};
ghost use Rattle.log_dump.specs.Restoration.{HasApplied, IsEntriesFault, IsRestoredNode};
ghost use Rattle.log_dump.specs.Restoration.{IsTurnFault, result_of_arrival, result_of_delivery};
ghost use Rattle.log_dump.specs.declared.apply.ApplyFault.TheVariants.{CannotFollow};

use causal_inbox::{Arrival, DeliverFault, Delivered};
use crdt_ops::SoundOp;
use imap_node::Node;
use merge_laws::Caused;
use op_log::Entry;
use std::alloc::Global;
use tags_clocks::ReplicaId;
use uid_projection::Counters;

/// Why an entry isn't applied.
#[derive(Clone, Copy, Debug, PartialEq, Eq)]
pub enum ApplyFault {
    /// It can't follow the entries before it.
    CannotFollow,
    /// Memory ran out.
    NoMemory,
}

/// Why entries aren't applied.
#[derive(Clone, Copy, Debug, PartialEq, Eq)]
pub enum EntriesFault {
    /// One of them can't follow the entries before it, or the first names no replica.
    CannotFollow {
        /// The number of entries before it.
        place: usize,
    },
    /// Memory ran out.
    NoMemory,
}

/// The node of the replica whose log has these entries: it applied their operations, in their
/// order. Its UIDs and its incarnations count from 1.
pub fn restored_node(alloc: Global, entries: &[Entry]) -> Result<Node, EntriesFault>
    ensures { MatchResult result
        (λ node. IsRestoredNode entries.now node.state) (IsEntriesFault entries.now) }
{
    let Some(replica) = first_name(entries) else {
        return Err(EntriesFault::CannotFollow { place: 0 });
    };
    let start = Counters {
        replica,
        uid: 1,
        k: 1,
    };
    let Ok(mut node) = Node::new(alloc, start) else {
        return Err(EntriesFault::NoMemory);
    };
    if let Err(fault) = apply_entries(alloc, replica, &mut node, entries) {
        drop(node);
        return Err(fault);
    }
    Ok(node)
}

/// The replica that the first entry names, if any.
fn first_name(entries: &[Entry]) -> Option<ReplicaId>
    ensures { result ≡ first_name entries.now }
{
    match entries {
        [] => None,
        [entry, ..] => name_of_entry(entry),
    }
}

/// The replica whose log an entry begins, if it begins one.
fn name_of_entry(entry: &Entry) -> Option<ReplicaId>
    ensures { result ≡ name_of_entry entry.now }
{
    match entry {
        Entry::Begin { replica } => Some(*replica),
        _ => None,
    }
}

/// Applies the entries of a replica's log to its node, which has received nothing. Stops at the
/// first that can't follow those before it.
fn apply_entries(
    alloc: Global,
    replica: ReplicaId,
    node: &mut Node,
    entries: &[Entry],
) -> Result<(), EntriesFault>
    requires { node.old.state ≡ joined_node replica [] }
    ensures { MatchResult result
        (λ done. AreInTurn replica entries.now
        × (node.new.state ≡ joined_node replica (ops_of entries.now)))
        (IsTurnFault replica entries.now) }
{
    for (place, entry) in entries.iter().enumerate() {
        match apply_entry(alloc, replica, node, entry) {
            Ok(()) => {}
            Err(ApplyFault::CannotFollow) => return Err(EntriesFault::CannotFollow { place }),
            Err(ApplyFault::NoMemory) => return Err(EntriesFault::NoMemory),
        }
    }
    Ok(())
}

/// Applies an entry to the node of a replica that applied those before it.
fn apply_entry(
    alloc: Global,
    replica: ReplicaId,
    node: &mut Node,
    entry: &Entry,
) -> Result<(), ApplyFault>
    ensures { (front : List Entry)
        → node.old.state ≡ joined_node replica (ops_of front)
        → MatchResult result
        (λ done. FollowsEntries replica front entry.now
        × (node.new.state ≡ joined_node replica (ops_of (front ++ entry.now ∷ []))))
        (λ fault. fault ≡ CannotFollow → ¬ FollowsEntries replica front entry.now) }
{
    match entry {
        Entry::Begin { replica: name } => accept_name(replica, *name),
        Entry::Apply { op } => apply_op(alloc, node, op),
        Entry::Commit { .. } => Ok(()),
    }
}

/// Accepts a line that names the replica, and no other one.
fn accept_name(replica: ReplicaId, name: ReplicaId) -> Result<(), ApplyFault>
    ensures { MatchResult result (λ done. name ≡ replica) (λ fault. name ≢ replica) }
{
    if name == replica {
        Ok(())
    } else {
        Err(ApplyFault::CannotFollow)
    }
}

/// Applies a copy of an operation at a node that holds nothing.
fn apply_op(alloc: Global, node: &mut Node, op: &SoundOp) -> Result<(), ApplyFault>
    ensures { node.old.state.held ≡ []
        → MatchResult result
        (λ done. HasApplied node.old.state op.now node.new.state)
        (λ fault. fault ≡ CannotFollow
        → ¬ IsApplicable id_of clock_of Exhausts (received_ops node.old.state) op.now) }
{
    let Ok(op) = op.copy(alloc) else {
        return Err(ApplyFault::NoMemory);
    };
    let answer = node.deliver(alloc, op);
    result_of_delivery(&answer)
}

/// Whether an operation was applied, by a node's answer to it.
fn result_of_delivery(answer: &Result<Delivered, DeliverFault>) -> Result<(), ApplyFault>
    ensures { result ≡ result_of_delivery answer.now }
{
    match answer {
        Ok(delivered) => result_of_arrival(&delivered.arrival),
        Err(DeliverFault::Conflict { .. }) => Err(ApplyFault::CannotFollow),
        Err(DeliverFault::HeldFull) => Err(ApplyFault::CannotFollow),
        Err(DeliverFault::Exhausted) => Err(ApplyFault::CannotFollow),
        Err(DeliverFault::NoMemory) => Err(ApplyFault::NoMemory),
    }
}

/// Whether an operation was applied, by how it arrived.
fn result_of_arrival(arrival: &Arrival) -> Result<(), ApplyFault>
    ensures { result ≡ result_of_arrival arrival.now }
{
    match arrival {
        Arrival::Applied(_) => Ok(()),
        Arrival::Held => Err(ApplyFault::CannotFollow),
        Arrival::Repeat => Err(ApplyFault::CannotFollow),
    }
}
