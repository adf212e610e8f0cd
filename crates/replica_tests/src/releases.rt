//! Held operations of an inbox, released one at a time.

use crate::fixtures::{Node, Trouble, node, operation};
use causal_inbox::Arrival;
use std::alloc::Global;
use std::test::Fail;

/// The kind of arrival of the line's operation; `None` if the inbox refused it.
fn receive_line(alloc: Global, inbox: &mut Node, line: &str) -> Result<Option<Arrival>, Trouble> {
    let op = operation(alloc, line)?;
    Ok(inbox.receive(alloc, op).ok())
}

/// Whether two early operations are held, and only the one that they wait for is applied.
fn is_applied_alone(alloc: Global, inbox: &mut Node) -> Result<bool, Trouble> {
    let third = receive_line(alloc, inbox, "1:3 1=2 create c")?;
    let second = receive_line(alloc, inbox, "1:2 1=1 create b")?;
    let first = receive_line(alloc, inbox, "1:1 - create a")?;
    Ok(
        third == Some(Arrival::Held)
            && second == Some(Arrival::Held)
            && first == Some(Arrival::Applied(1))
            && inbox.op_list().len() == 1,
    )
}

/// Whether the operation that is released next has this number.
fn is_next(inbox: &Node, number: u32) -> bool {
    match inbox.next_release() {
        Some(ops) => ops.len() == 1 && ops[0].op().id.number.get() == number,
        None => false,
    }
}

/// Whether the operation with this number is released, and then is the last one applied.
fn is_released(alloc: Global, inbox: &mut Node, number: u32) -> bool {
    inbox.is_stalled()
        && is_next(inbox, number)
        && inbox.release_next(alloc) == Ok(true)
        && inbox.op_list().len() == number as usize
}

fn is_nothing_released(alloc: Global, inbox: &mut Node) -> bool {
    !inbox.is_stalled()
        && inbox.next_release().is_none()
        && inbox.release_next(alloc) == Ok(false)
        && inbox.op_list().len() == 3
}

fn are_released(alloc: Global, inbox: &mut Node) -> Result<bool, Trouble> {
    Ok(
        is_applied_alone(alloc, inbox)?
            && is_released(alloc, inbox, 2)
            && is_released(alloc, inbox, 3)
            && is_nothing_released(alloc, inbox),
    )
}

fn are_released_in_turn(alloc: Global) -> Result<bool, Trouble> {
    let mut inbox = node(alloc)?;
    let are = are_released(alloc, &mut inbox);
    drop(inbox);
    are
}

#[test]
fn held_operations_are_released_in_turn(rt: HostRuntime) -> Result<(), Fail> {
    assert!(rt; are_released_in_turn(rt.alloc())?);
    Ok(())
}
