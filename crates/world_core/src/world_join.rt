//! Replicas that join a world.

ghost use Rattle.std.specs.Prelude.{◌≡◌, ◌≢◌, ◌≤◌, ◌∷◌, ◌++◌, [], Err, IfErr, IsTrue, MatchResult};
ghost use Rattle.std.specs.Prelude.{None, OnErr, OnOk, false};
ghost use Rattle.crdt_ops.specs.declared.op.Op.{Op};
ghost use Rattle.imap_node.specs.Nodes.{NodeState, joined_node, unused_node};
ghost use Rattle.merge_laws.specs.Orders.{IsCausal, IsRipe};
ghost use Rattle.uid_projection.specs.Exhaustion.{Exhausts};
ghost use Rattle.world_core.specs.Joins.{IsNotJoined, LacksNumbers, outcome_of_join};
ghost use Rattle.imap_node.specs.Operations.{clock_of, id_of};
ghost use Rattle.world_core.specs.Replicas.{IsAt, nodes_by_name, all_without_room};
ghost use Rattle.world_core.specs.Steps.{Steps};
ghost use Rattle.world_core.specs.declared.event.Event.TheVariants as events;
ghost use Rattle.world_core.specs.declared.world_join.JoinRefusal.TheVariants.{Exhausted as UsedUp};

use crate::event::Outcome;
use crate::node_places::place_of;
use crate::world::WorldFault;
use causal_inbox::DeliverFault;
use crdt_ops::SoundOp;
use imap_node::Node;
use merge_laws::Caused;
use std::alloc::Global;
use tags_clocks::ReplicaId;
use thiserror::Error;
use uid_projection::Counters;

/// Why a replica can't be made with operations that another one applied, or that it applied itself.
#[derive(Clone, Copy, Debug, PartialEq, Eq, Error)]
pub enum JoinRefusal {
    /// One of its counters has no number left for one of the operations.
    #[error("number used up")]
    Exhausted,
    /// Memory ran out.
    #[error("no memory")]
    NoMemory,
}

/// Adds a new replica at the end of the list, with the operations that the replica `from` applied,
/// in that order. `TwoAlike` if its name is used, `NoPeer` if there is no replica `from`,
/// `Exhausted` if one of the new replica's counters has no number left for one of the operations,
/// and `NoMemory`. An error leaves the nodes as they were.
pub fn join(
    alloc: Global,
    nodes: &mut Vec<Node>,
    name: ReplicaId,
    from: ReplicaId,
) -> Result<(), WorldFault>
    ensures ok { OnOk result ((peer : NodeState)
        × IsAt (nodes_by_name (all_without_room nodes.old.items)) from peer
        × (nodes_by_name (all_without_room nodes.old.items) name ≡ None)
        × (¬ LacksNumbers name peer.applied)
        × (all_without_room nodes.new.items
        ≡ all_without_room nodes.old.items ++ joined_node name peer.applied ∷ [])) }
    ensures why { IfErr result
        (IsNotJoined (nodes_by_name (all_without_room nodes.old.items)) name from) }
    ensures err { OnErr result (nodes.new.items ≡ nodes.old.items) }
{
    if is_taken(nodes, name) {
        return Err(WorldFault::TwoAlike { id: name });
    }
    let Some(place) = place_of(nodes, from) else {
        return Err(WorldFault::NoPeer);
    };
    let Ok(()) = nodes.reserve(1) else {
        return Err(WorldFault::NoMemory);
    };
    match joined_node(alloc, name, &nodes[place]) {
        Ok(node) => {
            nodes.push_reserved(node);
            Ok(())
        }
        Err(JoinRefusal::Exhausted) => Err(WorldFault::Exhausted),
        Err(JoinRefusal::NoMemory) => Err(WorldFault::NoMemory),
    }
}

/// Whether a replica has this name.
fn is_taken(nodes: &[Node], name: ReplicaId) -> bool
    ensures yes { IsTrue result → nodes_by_name (all_without_room nodes.now) name ≢ None }
    ensures no { result ≡ false → nodes_by_name (all_without_room nodes.now) name ≡ None }
{
    match place_of(nodes, name) {
        Some(_) => true,
        None => false,
    }
}

/// Performs the event `Join`.
pub fn join_step(alloc: Global, nodes: &mut Vec<Node>, name: ReplicaId, from: ReplicaId) -> Outcome
    ensures { Steps (nodes_by_name (all_without_room nodes.old.items)) (events.Join name from)
        result (nodes_by_name (all_without_room nodes.new.items)) }
{
    let answer = join(alloc, nodes, name, from);
    outcome_of_join(&answer)
}

/// The outcome of the event, from the result of `join`.
fn outcome_of_join(answer: &Result<(), WorldFault>) -> Outcome
    ensures { result ≡ outcome_of_join answer.now }
{
    match answer {
        Ok(()) => Outcome::Joined,
        Err(WorldFault::TwoAlike { .. }) => Outcome::PassedOver,
        Err(WorldFault::NoPeer) => Outcome::PassedOver,
        Err(WorldFault::Exhausted) => Outcome::NotJoined {
            fault: JoinRefusal::Exhausted,
        },
        Err(WorldFault::NoMemory) => Outcome::NotJoined {
            fault: JoinRefusal::NoMemory,
        },
    }
}

/// A replica of this name that applied the operations of `from`, in that order, and has received
/// nothing else. Its UIDs and its incarnations count from 1. `Exhausted` if one of its counters has
/// no number left for one of the operations; `NoMemory` if memory runs out.
///
/// It costs as much as delivering these operations.
pub fn joined_node(alloc: Global, name: ReplicaId, from: &Node) -> Result<Node, JoinRefusal>
    ensures { MatchResult result
        (λ node. (node.state ≡ joined_node name from.now.state.applied)
        × (¬ LacksNumbers name from.now.state.applied))
        (λ why. why ≡ UsedUp → LacksNumbers name from.now.state.applied) }
{
    let start = Counters {
        replica: name,
        uid: 1,
        k: 1,
    };
    node_with_ops(alloc, start, from.op_list())
}

/// A replica with these first numbers that applied copies of the operations, in their order, and
/// has received nothing else. `Exhausted` if one of its counters has no number left for one of
/// them; `NoMemory` if memory runs out.
///
/// It costs as much as delivering the operations.
pub fn node_with_ops(alloc: Global, start: Counters, ops: &[SoundOp]) -> Result<Node, JoinRefusal>
    requires from_one { 1 ≤ start.uid }
    requires causal { IsCausal id_of clock_of ops.now }
    ensures { MatchResult result
        (λ node. (node.state ≡ record (unused_node start) { applied = ops.now })
        × (¬ Exhausts start [] ops.now))
        (λ why. why ≡ UsedUp → Exhausts start [] ops.now) }
{
    let Ok(mut node) = Node::new(alloc, start) else {
        return Err(JoinRefusal::NoMemory);
    };
    if let Err(why) = apply_copies(alloc, &mut node, ops) {
        drop(node);
        return Err(why);
    }
    Ok(node)
}

/// Applies copies of these operations, in their order, at a node that has received nothing.
fn apply_copies(alloc: Global, node: &mut Node, ops: &[SoundOp]) -> Result<(), JoinRefusal>
    requires causal { IsCausal id_of clock_of ops.now }
    requires fresh { node.old.state ≡ unused_node node.old.state.start }
    ensures ok { OnOk result (node.new.state ≡ record node.old.state { applied = ops.now }) }
    ensures not_exhausted { OnOk result (¬ Exhausts node.old.state.start [] ops.now) }
    ensures used_up { IfErr result
        (λ why. why ≡ UsedUp → Exhausts node.old.state.start [] ops.now) }
{
    for op in ops {
        apply_copy(alloc, node, op)?;
    }
    Ok(())
}

/// Applies a copy of the operation at a node that holds nothing and has applied all of its causes.
fn apply_copy(alloc: Global, node: &mut Node, op: &SoundOp) -> Result<(), JoinRefusal>
    requires ripe { IsRipe id_of clock_of node.old.state.applied op.now }
    requires nothing { node.old.state.held ≡ [] }
    ensures ok { OnOk result (node.new.state
        ≡ record node.old.state { applied = node.old.state.applied ++ op.now ∷ [] }) }
    ensures not_exhausted { OnOk result
        (¬ Exhausts node.old.state.start node.old.state.applied (op.now ∷ [])) }
    ensures used_up { IfErr result
        (λ why. why ≡ UsedUp → Exhausts node.old.state.start node.old.state.applied (op.now ∷ [])) }
{
    let Ok(op) = op.copy(alloc) else {
        return Err(JoinRefusal::NoMemory);
    };
    match node.deliver(alloc, op) {
        Ok(_) => Ok(()),
        Err(DeliverFault::Exhausted) => Err(JoinRefusal::Exhausted),
        Err(DeliverFault::NoMemory) => Err(JoinRefusal::NoMemory),
        Err(DeliverFault::Conflict { .. }) => unreachable!(),
        Err(DeliverFault::HeldFull) => unreachable!(),
    }
}
