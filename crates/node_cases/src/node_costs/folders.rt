//! Times CREATEs, as folders become many.

use crate::node_costs::node_session::{NodeSession, since};
use std::alloc::Global;
use std::io;
use std::time::Instant;

/// Issues `count` CREATEs of different names. Prints how many folders they created, and the mean
/// time of one. (A replica numbers at most 65,535 incarnations, and refuses a CREATE after them.)
pub fn times(rt: &HostRuntime, count: u32) -> io::Result<()> {
    let mut node_session = NodeSession::new(rt.alloc(), 1)?;
    let printed = print_times(rt, &mut node_session, count);
    drop(node_session);
    printed
}

fn print_times(rt: &HostRuntime, node_session: &mut NodeSession, count: u32) -> io::Result<()> {
    let start = Instant::now(rt)?;
    let mut made = 0u32;
    for number in 0..count {
        if create(rt.alloc(), node_session, number)? {
            made = made.saturating_add(1);
        }
    }
    let spent = since(rt, start)?.checked_div(u64::from(count)).unwrap_or(0);
    println!(*rt; "{made} folders")?;
    eprintln!(*rt; "{made} folders by {count} CREATEs, each {spent} ns")?;
    Ok(())
}

/// Creates the folder with this number; returns whether the node did so.
fn create(alloc: Global, node_session: &mut NodeSession, number: u32) -> io::Result<bool> {
    let create = format!(in alloc; "a CREATE f{number}\r\n")?;
    node_session.is_done(alloc, create.as_str())
}
