//! Nodes that exchange what they received, until they have applied one set.

ghost use Rattle.std.specs.Prelude.{◌≡◌, ◌∷◌, IfErr, MatchResult, OnOk};
ghost use Rattle.imap_node.specs.Deliveries.{HoldsRipeOp, IsOrderly};
ghost use Rattle.imap_node.specs.Nodes.{NodeState};
ghost use Rattle.merge_laws.specs.Orders.{HasId, IsIn};
ghost use Rattle.tags_clocks.specs.Clock.{IsCause};
ghost use Rattle.tags_clocks.specs.declared.id.OpId.{OpId};
ghost use Rattle.crdt_ops.specs.declared.op.Op.{Op};
ghost use Rattle.world_core.specs.Exchanges.{HoldNoRipeOp, AreAmong, HaveCauses, HasNotTaken};
ghost use Rattle.world_core.specs.Exchanges.{IsReceivedOrOneOf, OneHasNotTaken};
ghost use Rattle.imap_node.specs.Operations.{id_of};
ghost use Rattle.world_core.specs.Replicas.{all_without_room};
ghost use Rattle.world_core.specs.Settlement.{AgreeOnIds, AllTakeSomeOf, AreAgreed, AreSettled};
ghost use Rattle.world_core.specs.Settlement.{AreUnsettled, IsReceivedAt, IsReceivedBy};
ghost use Rattle.world_core.specs.Settlement.{TakesSomeOf};

use crate::conflicts::conflict;
use causal_inbox::{DeliverFault, Stall};
use crdt_ops::SoundOp;
use imap_node::Node;
use std::alloc::Global;
use tags_clocks::OpId;
use thiserror::Error;

/// Why nodes were not settled.
#[derive(Clone, Copy, Debug, PartialEq, Eq, Error)]
pub enum SettleFault {
    /// Two nodes received different operations with this id, and with no lesser one. Nothing
    /// changed.
    #[error("two operations have one id")]
    Conflict {
        /// The id of both.
        id: OpId,
    },
    /// A node could apply an operation, but a counter has no number left for it. What was delivered
    /// stays.
    #[error("number used up")]
    Exhausted,
    /// Memory ran out for an operation. What was delivered stays.
    #[error("no memory")]
    NoMemory,
}

/// Has the nodes exchange what they received until all have applied one set of operations: the
/// least set that contains whatever any of them had applied, and each operation that any of them
/// had received and whose causes are in the set. Whatever the result, sessions stay as they were,
/// and lists only grow at their end.
///
/// `Conflict` exactly when two nodes received different operations with one id, with the least such
/// id; this is tested first, takes no memory and changes nothing. `Exhausted` only if some node
/// could apply an operation, but a counter has no number left for it; otherwise `NoMemory`.
///
/// In each round a node pays for the deliveries of the operations that it lacks. If no node holds
/// operations, there are at most two rounds.
pub fn settle(alloc: Global, nodes: &mut [Node]) -> Result<(), SettleFault>
    ensures settles { MatchResult result
        (λ _. AreAgreed (all_without_room nodes.old)
        × AreSettled (all_without_room nodes.old) (all_without_room nodes.new))
        (λ fault. AreUnsettled (all_without_room nodes.old) fault (all_without_room nodes.new)) }
    ensures takes { AllTakeSomeOf (IsReceivedBy (all_without_room nodes.old))
        (all_without_room nodes.old) (all_without_room nodes.new) }
{
    match conflict(nodes) {
        Some(id) => Err(SettleFault::Conflict { id }),
        None => exchange(alloc, nodes),
    }
}

/// Has the nodes exchange what they received; an id determines the operation.
fn exchange(alloc: Global, nodes: &mut [Node]) -> Result<(), SettleFault>
    requires { AreAgreed (all_without_room nodes.old) }
    ensures ok { OnOk result
        (AreSettled (all_without_room nodes.old) (all_without_room nodes.new)) }
    ensures short { IfErr result
        (λ fault. OneHasNotTaken (all_without_room nodes.old) fault (all_without_room nodes.new)) }
    ensures takes { AllTakeSomeOf (IsReceivedBy (all_without_room nodes.old))
        (all_without_room nodes.old) (all_without_room nodes.new) }
{
    match nodes.split_first_mut() {
        None => Ok(()),
        Some((hub, others)) => exchange_by(alloc, hub, others),
    }
}

/// Has the nodes exchange what they received, through the hub.
fn exchange_by(alloc: Global, hub: &mut Node, others: &mut [Node]) -> Result<(), SettleFault>
    requires { AreAgreed (hub.old.state ∷ all_without_room others.old) }
    ensures ok { OnOk result (AreSettled (hub.old.state ∷ all_without_room others.old)
        (hub.new.state ∷ all_without_room others.new)) }
    ensures short { IfErr result (λ fault. OneHasNotTaken
        (hub.old.state ∷ all_without_room others.old) fault
        (hub.new.state ∷ all_without_room others.new)) }
    ensures takes { AllTakeSomeOf (IsReceivedBy (hub.old.state ∷ all_without_room others.old))
        (hub.old.state ∷ all_without_room others.old)
        (hub.new.state ∷ all_without_room others.new) }
{
    release(alloc, hub)?;
    release_all(alloc, others)?;
    loop {
        spread(alloc, hub, others)?;
        let known = hub.op_list().len();
        collect(alloc, hub, others)?;
        if hub.op_list().len() == known {
            are_orderly(others);
            return Ok(());
        }
    }
}

/// Does nothing: its contract gives the caller what holds of each node.
fn are_orderly(nodes: &[Node])
    ensures { (node : NodeState) → IsIn node (all_without_room nodes.now) → IsOrderly node }
{
    for node in nodes {
        let _applied = node.op_list();
    }
}

/// Delivers what the hub applied to all other nodes.
fn spread(alloc: Global, hub: &Node, others: &mut [Node]) -> Result<(), SettleFault>
    requires agreed { AreAgreed (hub.now.state ∷ all_without_room others.old) }
    requires quiet { HoldNoRipeOp (all_without_room others.old) }
    ensures ok { OnOk result (HoldNoRipeOp (all_without_room others.new)
        × ((node : NodeState) → IsIn node (all_without_room others.new)
        → AreAmong hub.now.state.applied node.applied)) }
    ensures short { IfErr result (λ fault. OneHasNotTaken
        (hub.now.state ∷ all_without_room others.old) fault (all_without_room others.new)) }
    ensures takes { AllTakeSomeOf (IsReceivedBy (hub.now.state ∷ all_without_room others.old))
        (all_without_room others.old) (all_without_room others.new) }
{
    for other in others.iter_mut() {
        deliver_applied(alloc, hub, other)?;
    }
    Ok(())
}

/// Delivers what each node applied to the hub.
fn collect(alloc: Global, hub: &mut Node, others: &[Node]) -> Result<(), SettleFault>
    requires agreed { AreAgreed (hub.old.state ∷ all_without_room others.now) }
    requires quiet { ¬ HoldsRipeOp hub.old.state }
    ensures ok { OnOk result ((¬ HoldsRipeOp hub.new.state)
        × ((node : NodeState) → IsIn node (all_without_room others.now)
        → AreAmong node.applied hub.new.state.applied)) }
    ensures short { IfErr result (λ fault. HasNotTaken
        (IsReceivedBy (hub.old.state ∷ all_without_room others.now)) fault hub.new.state) }
    ensures takes { TakesSomeOf (IsReceivedBy (hub.old.state ∷ all_without_room others.now))
        hub.old.state hub.new.state }
{
    for other in others {
        deliver_applied(alloc, other, hub)?;
    }
    Ok(())
}

/// Delivers what a node applied to another node.
fn deliver_applied(alloc: Global, from: &Node, to: &mut Node) -> Result<(), SettleFault>
    requires agreed { AgreeOnIds
        (IsReceivedOrOneOf to.old.state (λ op. IsIn op from.now.state.applied))
        (IsReceivedOrOneOf to.old.state (λ op. IsIn op from.now.state.applied)) }
    requires quiet { ¬ HoldsRipeOp to.old.state }
    ensures ok { OnOk result
        ((¬ HoldsRipeOp to.new.state) × AreAmong from.now.state.applied to.new.state.applied) }
    ensures short { IfErr result (λ fault. HasNotTaken
        (IsReceivedOrOneOf to.old.state (λ op. IsIn op from.now.state.applied)) fault
        to.new.state) }
    ensures takes { TakesSomeOf
        (IsReceivedOrOneOf to.old.state (λ op. IsIn op from.now.state.applied)) to.old.state
        to.new.state }
{
    let _applied = from.op_list();
    match from.ops_since(alloc, to.clock()) {
        Ok(ops) => deliver_all(alloc, to, ops),
        Err(_) => Err(SettleFault::NoMemory),
    }
}

/// Delivers operations, each after its causes.
fn deliver_all(alloc: Global, node: &mut Node, ops: Vec<SoundOp>) -> Result<(), SettleFault>
    requires agreed { AgreeOnIds (IsReceivedOrOneOf node.old.state (λ op. IsIn op ops.items))
        (IsReceivedOrOneOf node.old.state (λ op. IsIn op ops.items)) }
    requires causes { HaveCauses node.old.state.applied ops.items }
    requires quiet { ¬ HoldsRipeOp node.old.state }
    ensures ok { OnOk result
        ((¬ HoldsRipeOp node.new.state) × AreAmong ops.items node.new.state.applied) }
    ensures short { IfErr result (λ fault. HasNotTaken
        (IsReceivedOrOneOf node.old.state (λ op. IsIn op ops.items)) fault node.new.state) }
    ensures takes { TakesSomeOf (IsReceivedOrOneOf node.old.state (λ op. IsIn op ops.items))
        node.old.state node.new.state }
{
    for op in ops {
        deliver(alloc, node, op)?;
    }
    Ok(())
}

/// Delivers an operation whose causes have all been applied.
fn deliver(alloc: Global, node: &mut Node, op: SoundOp) -> Result<(), SettleFault>
    requires agreed { AgreeOnIds (IsReceivedOrOneOf node.old.state (λ one. op ≡ one))
        (IsReceivedOrOneOf node.old.state (λ one. op ≡ one)) }
    requires causes { (id : OpId) → IsCause op.clock id → HasId id_of node.old.state.applied id }
    requires quiet { ¬ HoldsRipeOp node.old.state }
    ensures ok { OnOk result ((¬ HoldsRipeOp node.new.state) × IsIn op node.new.state.applied) }
    ensures short { IfErr result (λ fault. HasNotTaken
        (IsReceivedOrOneOf node.old.state (λ one. op ≡ one)) fault node.new.state) }
    ensures takes { TakesSomeOf (IsReceivedOrOneOf node.old.state (λ one. op ≡ one)) node.old.state
        node.new.state }
{
    let _applied = node.op_list();
    match node.deliver(alloc, op) {
        Ok(delivered) => {
            if delivered.stalled {
                Err(stall_fault(alloc, node))
            } else {
                Ok(())
            }
        }
        Err(DeliverFault::Exhausted) => Err(SettleFault::Exhausted),
        Err(DeliverFault::NoMemory) => Err(SettleFault::NoMemory),
        Err(DeliverFault::Conflict { .. }) => unreachable!(),
        Err(DeliverFault::HeldFull) => unreachable!(),
    }
}

/// Has each node apply the held operations that it can apply.
fn release_all(alloc: Global, nodes: &mut [Node]) -> Result<(), SettleFault>
    ensures ok { OnOk result (HoldNoRipeOp (all_without_room nodes.new)) }
    ensures short { IfErr result
        (λ fault. OneHasNotTaken (all_without_room nodes.old) fault (all_without_room nodes.new)) }
    ensures takes { AllTakeSomeOf (IsReceivedBy (all_without_room nodes.old))
        (all_without_room nodes.old) (all_without_room nodes.new) }
{
    for node in nodes.iter_mut() {
        release(alloc, node)?;
    }
    Ok(())
}

/// Has a node apply the held operations that it can apply.
fn release(alloc: Global, node: &mut Node) -> Result<(), SettleFault>
    ensures ok { OnOk result (¬ HoldsRipeOp node.new.state) }
    ensures short { IfErr result
        (λ fault. HasNotTaken (IsReceivedAt node.old.state) fault node.new.state) }
    ensures takes { TakesSomeOf (IsReceivedAt node.old.state) node.old.state node.new.state }
{
    if node.drain(alloc).stalled {
        Err(stall_fault(alloc, node))
    } else {
        Ok(())
    }
}

/// Why a node still holds an operation that it could apply.
fn stall_fault(alloc: Global, node: &mut Node) -> SettleFault
    requires { HoldsRipeOp node.old.state }
    ensures same { node.new.state ≡ node.old.state }
    ensures short { HasNotTaken (IsReceivedAt node.old.state) result node.old.state }
{
    match node.stall(alloc) {
        Some(Stall::Exhausted) => SettleFault::Exhausted,
        Some(Stall::Drainable) => SettleFault::NoMemory,
        None => unreachable!(),
    }
}
