//! Replicas that start again from the operations that they had applied.

ghost use Rattle.std.specs.Prelude.{◌≡◌, MatchResult};
ghost use Rattle.world_core.specs.Restarts.{LacksOwnNumbers, restarted_node};
ghost use Rattle.world_core.specs.declared.world_join.JoinRefusal.TheVariants.{Exhausted as UsedUp};

use crate::world_join::{JoinRefusal, node_with_ops};
use imap_node::Node;
use std::alloc::Global;

/// A replica with the first numbers of `from` that applied the operations of `from`, in their
/// order: it holds nothing and has no sessions. `NoMemory` if memory runs out; `Exhausted` if one
/// of its counters has no number left for one of them, which happens in no world that began with
/// new replicas.
///
/// It costs as much as delivering these operations.
pub fn restarted_node(alloc: Global, from: &Node) -> Result<Node, JoinRefusal>
    ensures { MatchResult result
        (λ node. (node.state ≡ restarted_node from.now.state)
        × (¬ LacksOwnNumbers from.now.state))
        (λ why. why ≡ UsedUp → LacksOwnNumbers from.now.state) }
{
    node_with_ops(alloc, from.replica().start(), from.op_list())
}
