//! Settles and compares the replicas of a world.

ghost use Rattle.std.specs.Prelude.{IsTrue};
ghost use Rattle.world_core.specs.Worlds.{AreFromOne};

use imap_node::Node;
use std::alloc::Global;
use uid_projection::Counters;
use world_core::{Agreement, SettleFault, agree, settle};

/// Whether the first UID of each replica is at least 1.
pub fn are_from_one(starts: &[Counters]) -> bool
    ensures { IsTrue result → AreFromOne starts.now }
{
    for start in starts {
        if start.uid == 0 {
            return false;
        }
    }
    true
}

/// The result of settling the nodes, as text.
pub fn settle_text(alloc: Global, nodes: &mut [Node]) -> &'static str {
    match settle(alloc, nodes) {
        Ok(()) => "Ok",
        Err(SettleFault::Conflict { .. }) => "Conflict",
        Err(SettleFault::Exhausted) => "Exhausted",
        Err(SettleFault::NoMemory) => "NoMemory",
    }
}

/// Whether two nodes agree, as text.
pub fn agreement(one: &Node, other: &Node) -> &'static str {
    match agree(one, other) {
        Agreement::Same => "Same",
        Agreement::Different => "Different",
    }
}
