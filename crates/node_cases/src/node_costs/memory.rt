//! Fills two replicas with messages, so that their memory can be measured. (The system reports the
//! memory of the process.)

use crate::node_costs::held::deliver_all;
use crate::node_costs::node_session::NodeSession;
use std::alloc::{AllocError, Global};
use std::io;

/// Has a replica take `count` messages of `size` octets, and delivers them to another one.
pub fn fill(rt: &HostRuntime, count: u32, size: u32) -> io::Result<()> {
    let append = append_of(rt.alloc(), size)?;
    let applied = count_at_second_replica(rt.alloc(), append.as_str(), count)?;
    println!(*rt; "{applied} messages of {size} octets at two replicas")?;
    Ok(())
}

/// How many operations the second of two replicas applied.
fn count_at_second_replica(alloc: Global, append: &str, count: u32) -> io::Result<usize> {
    let mut near = NodeSession::new(alloc, 1)?;
    let applied = count_after_deliveries(alloc, &mut near, append, count);
    drop(near);
    applied
}

fn count_after_deliveries(
    alloc: Global,
    near: &mut NodeSession,
    append: &str,
    count: u32,
) -> io::Result<usize> {
    let mut far = NodeSession::new(alloc, 2)?;
    let delivered = deliver_appends(alloc, near, &mut far, append, count);
    let applied = far.node.op_list().len();
    drop(far);
    delivered?;
    Ok(applied)
}

/// Issues the command `count` times at the first replica, and delivers each operation to the
/// second.
fn deliver_appends(
    alloc: Global,
    near: &mut NodeSession,
    far: &mut NodeSession,
    append: &str,
    count: u32,
) -> io::Result<()> {
    for _ in 0..count {
        near.issue_command(alloc, append)?;
        deliver_last(alloc, near, far)?;
    }
    Ok(())
}

fn deliver_last(alloc: Global, near: &NodeSession, far: &mut NodeSession) -> io::Result<()> {
    let made = near.node.op_list();
    let last = made.get(made.len().saturating_sub(1)..).unwrap_or(&[]);
    deliver_all(alloc, far, last)
}

/// An APPEND of `size` octets.
fn append_of(alloc: Global, size: u32) -> Result<String, AllocError> {
    let mut text = format!(in alloc; "a APPEND INBOX {{{size}+}}\r\n")?;
    for _ in 0..size {
        text.push('x')?;
    }
    text.push_str("\r\n")?;
    Ok(text)
}
