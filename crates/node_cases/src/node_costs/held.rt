//! Times deliveries while many operations are held.

use crate::node_costs::node_session::{NodeSession, since};
use crdt_ops::SoundOp;
use merge_laws::Caused;
use std::alloc::Global;
use std::io;
use std::time::Instant;

/// How many deliveries are timed.
const TIMED: u32 = 200;

/// Has `count` operations held, all waiting for one. Prints how long the delivery of another
/// waiting operation takes, and that of an operation that waits for none.
pub fn times(rt: &HostRuntime, count: u32) -> io::Result<()> {
    let mut near = NodeSession::new(rt.alloc(), 1)?;
    let printed = times_at(rt, &mut near, count);
    drop(near);
    printed
}

fn times_at(rt: &HostRuntime, near: &mut NodeSession, count: u32) -> io::Result<()> {
    let mut far = NodeSession::new(rt.alloc(), 2)?;
    let printed = times_from(rt, near, &mut far, count);
    drop(far);
    printed
}

fn times_from(
    rt: &HostRuntime,
    near: &mut NodeSession,
    far: &mut NodeSession,
    count: u32,
) -> io::Result<()> {
    let mut other = NodeSession::new(rt.alloc(), 3)?;
    let printed = print_times(rt, near, far, &mut other, count);
    drop(other);
    printed
}

fn print_times(
    rt: &HostRuntime,
    near: &mut NodeSession,
    far: &mut NodeSession,
    other: &mut NodeSession,
    count: u32,
) -> io::Result<()> {
    far.issue_command(rt.alloc(), "a CREATE first\r\n")?;
    subscribe(rt.alloc(), far, count)?;
    subscribe(rt.alloc(), other, TIMED)?;
    let early = early_time(rt, near, far.node.op_list())?;
    let held = near.node.held().len();
    let ripe = time_of(rt, near, other.node.op_list())?;
    println!(*rt; "{held} held")?;
    eprintln!(*rt; "{held} held: early delivery {early} ns, ripe delivery {ripe}")?;
    release(rt, near, far.node.op_list())
}

/// Delivers all but the first of the operations; returns the mean nanoseconds for one of the last
/// ones.
fn early_time(rt: &HostRuntime, near: &mut NodeSession, ops: &[SoundOp]) -> io::Result<u64> {
    let waiting = ops.get(1..).unwrap_or(&[]);
    let split = waiting.len().saturating_sub(TIMED as usize);
    let (before, timed) = waiting.split_at(split);
    deliver_all(rt.alloc(), near, before)?;
    time_of(rt, near, timed)
}

/// Subscribes and unsubscribes in turn, `count` operations in total.
fn subscribe(alloc: Global, node_session: &mut NodeSession, count: u32) -> io::Result<()> {
    for _ in 0..count / 2 {
        node_session.issue_command(alloc, "a SUBSCRIBE first\r\n")?;
        node_session.issue_command(alloc, "a UNSUBSCRIBE first\r\n")?;
    }
    Ok(())
}

/// Delivers copies of the operations.
pub fn deliver_all(
    alloc: Global,
    node_session: &mut NodeSession,
    ops: &[SoundOp],
) -> io::Result<()> {
    for op in ops {
        let copy = op.copy(alloc)?;
        node_session.deliver(alloc, copy)?;
    }
    Ok(())
}

/// The mean nanoseconds for the delivery of one of the operations.
pub fn time_of(
    rt: &HostRuntime,
    node_session: &mut NodeSession,
    ops: &[SoundOp],
) -> io::Result<u64> {
    let start = Instant::now(rt)?;
    deliver_all(rt.alloc(), node_session, ops)?;
    let spent = since(rt, start)?;
    Ok(spent.checked_div(ops.len() as u64).unwrap_or(0))
}

/// Delivers the operation that all others wait for, and prints how long that takes.
fn release(rt: &HostRuntime, node_session: &mut NodeSession, ops: &[SoundOp]) -> io::Result<()> {
    let start = Instant::now(rt)?;
    deliver_all(rt.alloc(), node_session, ops.get(..1).unwrap_or(&[]))?;
    let spent = since(rt, start)?;
    let left = node_session.node.held().len();
    println!(*rt; "{left} left")?;
    eprintln!(*rt; "  release of all: {spent} ns")?;
    Ok(())
}
