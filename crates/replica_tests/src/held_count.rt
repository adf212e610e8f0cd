//! The held operations of an inbox, counted and found by id.

use crate::fixtures::{Node, Trouble, node, play_all};
use causal_inbox::HeldOps;
use crdt_ops::SoundOp;
use std::alloc::Global;
use std::test::Fail;
use tags_clocks::{OpId, ReplicaId};

/// Two early operations, and one that is applied.
const LINES: &[&str] = &["1:3 1=2 create c", "1:2 1=1 create b", "2:1 - create d"];

/// Whether the two early operations are counted and found, and no other is.
fn holds_two(alloc: Global) -> Result<bool, Trouble> {
    let mut inbox = node(alloc)?;
    let are_held = are_held_in(alloc, &mut inbox);
    drop(inbox);
    are_held
}

fn are_held_in(alloc: Global, inbox: &mut Node) -> Result<bool, Trouble> {
    let mut text = String::new(alloc);
    play_all(alloc, inbox, LINES, &mut text)?;
    Ok(are_held(&inbox.held()))
}

fn are_held(held: &HeldOps<'_, SoundOp>) -> bool {
    held.len() == 2
        && !held.is_empty()
        && is_held(held, 1, 2)
        && is_held(held, 1, 3)
        && !is_held(held, 1, 1)
        && !is_held(held, 2, 1)
}

/// Whether the operation with this id is found.
fn is_held(held: &HeldOps<'_, SoundOp>, replica: u32, number: u32) -> bool {
    let Some(replica) = ReplicaId::new(replica) else {
        return false;
    };
    let Some(id) = OpId::new(replica, number) else {
        return false;
    };
    match held.get(id) {
        Some(op) => op.op().id == id,
        None => false,
    }
}

#[test]
fn held_operations_are_found(rt: HostRuntime) -> Result<(), Fail> {
    assert!(rt; holds_two(rt.alloc())?);
    Ok(())
}
