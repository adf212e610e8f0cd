//! The places of nodes in a world.

ghost use Rattle.std.specs.Prelude.{◌≡◌, ◌≢◌, IsTrue, MatchOption, None, false};
ghost use Rattle.crdt_ops.specs.declared.op.Op.{Op};
ghost use Rattle.world_core.specs.Places.{IsPlace};
ghost use Rattle.world_core.specs.Replicas.{IsIssuedIn, nodes_by_name, all_without_room};

use causal_inbox::find_in;
use crdt_ops::SoundOp;
use imap_node::Node;
use tags_clocks::{OpId, ReplicaId};

/// The place of the node with this name, if any.
pub fn place_of(nodes: &[Node], name: ReplicaId) -> Option<usize>
    ensures { MatchOption result (nodes_by_name (all_without_room nodes.now) name ≡ None)
        (λ place. IsPlace nodes.now name place) }
{
    for (place, node) in nodes.iter().enumerate() {
        if is_named(node, name) {
            return Some(place);
        }
    }
    None
}

/// Whether the node has this name.
fn is_named(node: &Node, name: ReplicaId) -> bool
    ensures yes { IsTrue result → node.now.state.start.replica ≡ name }
    ensures no { result ≡ false → node.now.state.start.replica ≢ name }
{
    node.replica().id() == name
}

/// The operation with this id, if issued by the replica that the id names.
pub fn find_issued(nodes: &[Node], id: OpId) -> Option<&SoundOp>
    ensures { MatchOption result
        ((op : Op) → IsIssuedIn (nodes_by_name (all_without_room nodes.now)) op → op.id ≢ id)
        (λ op. IsIssuedIn (nodes_by_name (all_without_room nodes.now)) op.now × (op.now.id ≡ id)) }
{
    match place_of(nodes, id.replica) {
        None => None,
        Some(place) => find_in(nodes[place].op_list(), id),
    }
}
