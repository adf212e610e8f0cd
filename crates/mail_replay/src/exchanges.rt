//! The service of the lines `agree` and `settle`, which compare replicas and have them exchange
//! operations.

ghost use Rattle.std.specs.Prelude.{◌≡◌, ◌⊎◌, ◌++◌, ◌↔◌, ℕ, List, Err, IfErr, IfOk, IsNone, IsTrue};
ghost use Rattle.std.specs.Prelude.{OnErr, OnOk, length};
ghost use Rattle.mail_replay.specs.Exchanges.{ComparesReplicas, ExchangesOps, SettlesReplicas};
ghost use Rattle.mail_replay.specs.Exchanges.{nodes_in, settle_line, with_nodes};
ghost use Rattle.mail_replay.specs.ScriptState.{replica_place, script_contents_of};
ghost use Rattle.mail_replay.specs.declared.script_service.ServeFault.TheVariants.{BadScript};
ghost use Rattle.mail_replay.specs.declared.script_service.ServeFault.TheVariants.{NoMemory};
ghost use Rattle.merge_laws.specs.Orders.{HaveSameElements};

use crate::script_service::ServeFault;
use crate::script_state::{ScriptReplica, ScriptState, replica_place};
use imap_connection::Node;
use mail_script::{OutcomeLine, SettleResult, write_outcome};
use std::alloc::{AllocError, Global};
use std::mem;
use tags_clocks::ReplicaId;
use uid_projection::Counters;
use world_core::{Agreement, SettleFault, agree, settle};

/// Prints whether two replicas applied the same operations; `BadScript` if one of them isn't
/// declared.
pub fn compare(
    setup: &ScriptState,
    first: ReplicaId,
    second: ReplicaId,
    printed: &mut Vec<u8>,
) -> Result<(), ServeFault>
    ensures ok { OnOk result ((more : List ℕ)
        × ComparesReplicas (script_contents_of setup.now) first second more
        × (printed.new.items ≡ printed.old.items ++ more)) }
    ensures bad { result ≡ Err BadScript
        → IsNone (replica_place setup.now.replicas.items first)
        ⊎ IsNone (replica_place setup.now.replicas.items second) }
    ensures err { OnErr result (printed.new.items ≡ printed.old.items) }
{
    let Some(one) = replica_place(&setup.replicas, first) else {
        return Err(ServeFault::BadScript);
    };
    let Some(other) = replica_place(&setup.replicas, second) else {
        return Err(ServeFault::BadScript);
    };
    let same = are_same(&setup.replicas[one].node, &setup.replicas[other].node);
    let outcome = OutcomeLine::Agreed {
        first,
        second,
        same,
    };
    write_outcome(outcome, printed)?;
    Ok(())
}

/// Whether two replicas applied the same operations.
fn are_same(one: &Node, other: &Node) -> bool
    ensures { IsTrue result ↔ HaveSameElements one.now.state.applied other.now.state.applied }
{
    match agree(one, other) {
        Agreement::Same => true,
        Agreement::Different => false,
    }
}

/// Has all replicas exchange the operations that they received, and prints the result.
pub fn exchange(
    alloc: Global,
    setup: &mut ScriptState,
    printed: &mut Vec<u8>,
) -> Result<(), ServeFault>
    ensures ok { OnOk result ((more : List ℕ)
        × SettlesReplicas (script_contents_of setup.old) more (script_contents_of setup.new)
        × (printed.new.items ≡ printed.old.items ++ more)) }
    ensures err { IfErr result (λ fault. fault ≡ NoMemory) }
    ensures unchanged { OnErr result (printed.new.items ≡ printed.old.items) }
{
    let result = exchange_all(alloc, &mut setup.replicas)?;
    write_outcome(OutcomeLine::Settled { result }, printed)?;
    Ok(())
}

/// Has replicas exchange the operations that they received. `Err` if memory runs out before the
/// exchange, and then nothing changes.
fn exchange_all(alloc: Global, replicas: &mut [ScriptReplica]) -> Result<SettleResult, AllocError>
    ensures { IfOk result (λ status. ExchangesOps replicas.old status replicas.new) }
{
    let mut nodes = blank_nodes(alloc, replicas)?;
    Ok(exchange_with(alloc, replicas, &mut nodes))
}

/// Has replicas exchange the operations that they received, while the given nodes take the
/// place of theirs.
fn exchange_with(alloc: Global, replicas: &mut [ScriptReplica], nodes: &mut [Node]) -> SettleResult
    requires { length nodes.old ≡ length replicas.old }
    ensures { ExchangesOps replicas.old result replicas.new }
{
    swap_nodes(replicas, nodes);
    let answer = settle(alloc, nodes);
    swap_nodes(replicas, nodes);
    settle_line(answer)
}

/// A blank node for each replica, which takes the place of its own during an exchange; `Err` if
/// memory runs out.
fn blank_nodes(alloc: Global, replicas: &[ScriptReplica]) -> Result<Vec<Node>, AllocError>
    ensures { IfOk result (λ nodes. length nodes.items ≡ length replicas.now) }
{
    let mut nodes = Vec::with_capacity(alloc, replicas.len())?;
    for replica in replicas {
        nodes.push(blank_node(alloc, replica.name)?)?;
    }
    Ok(nodes)
}

/// A node that has received nothing; `Err` if memory runs out.
fn blank_node(alloc: Global, replica: ReplicaId) -> Result<Node, AllocError> {
    Node::new(
        alloc,
        Counters {
            replica,
            uid: 1,
            k: 1,
        },
    )
}

/// Swaps each replica's node with the node at the same place.
fn swap_nodes(replicas: &mut [ScriptReplica], nodes: &mut [Node])
    requires { length nodes.old ≡ length replicas.old }
    ensures replicas { replicas.new ≡ with_nodes replicas.old nodes.old }
    ensures nodes { nodes.new ≡ nodes_in replicas.old }
{
    for place in 0..replicas.len() {
        swap_node(&mut replicas[place], &mut nodes[place]);
    }
}

fn swap_node(replica: &mut ScriptReplica, node: &mut Node)
    ensures replica { replica.new ≡ record replica.old { node = node.old } }
    ensures node { node.new ≡ replica.old.node }
{
    mem::swap(&mut replica.node, node);
}

fn settle_line(answer: Result<(), SettleFault>) -> SettleResult
    ensures { result ≡ settle_line answer }
{
    match answer {
        Ok(()) => SettleResult::Done,
        Err(SettleFault::Conflict { id }) => SettleResult::Conflict { id },
        Err(SettleFault::Exhausted) => SettleResult::Exhausted,
        Err(SettleFault::NoMemory) => SettleResult::NoMemory,
    }
}
