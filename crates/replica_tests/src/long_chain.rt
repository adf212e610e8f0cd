//! A chain of many operations that arrive in the wrong order: all are held, then all are released,
//! and all are given for an empty clock.

use crate::fixtures::{Node, Trouble, node, operation};
use causal_inbox::{Arrival, DeliverFault, Delivered};
use std::alloc::Global;
use std::fmt::Write;
use std::test::Fail;
use tags_clocks::Clock;

/// The number of operations in the chain.
const LENGTH: usize = 6_000;

/// The operation with this number, whose cause is the one before it.
fn line(alloc: Global, number: usize) -> Result<String, Trouble> {
    let mut line = String::new(alloc);
    if number <= 1 {
        write!(line, "1:1 - create a")?;
    } else {
        write!(line, "1:{number} 1={} create a", number - 1)?;
    }
    Ok(line)
}

fn deliver(
    alloc: Global,
    inbox: &mut Node,
    number: usize,
) -> Result<Result<Delivered, DeliverFault>, Trouble> {
    let line = line(alloc, number)?;
    let op = operation(alloc, line.as_str())?;
    Ok(inbox.deliver(alloc, op))
}

/// The number of operations that were held, delivered from the last one down to the second.
fn hold_all(alloc: Global, inbox: &mut Node) -> Result<usize, Trouble> {
    let mut held = 0usize;
    for number in (2..LENGTH + 1).rev() {
        match deliver(alloc, inbox, number)? {
            Ok(
                Delivered {
                    arrival: Arrival::Held,
                    stalled: false,
                },
            ) => held = held.saturating_add(1),
            _ => {}
        }
    }
    Ok(held)
}

/// Whether all are held, the first one releases all, and all are given for an empty clock.
fn holds_releases_and_lends_all(alloc: Global) -> Result<bool, Trouble> {
    let mut inbox = node(alloc)?;
    let held = hold_all(alloc, &mut inbox);
    let first = deliver(alloc, &mut inbox, 1);
    let lent = inbox.ops_since(alloc, &Clock::new(alloc));
    drop(inbox);
    let released = Ok(Delivered {
        arrival: Arrival::Applied(LENGTH),
        stalled: false,
    });
    Ok(held? == LENGTH - 1 && first? == released && lent?.len() == LENGTH)
}

#[test]
fn a_long_chain_is_held_released_and_lent(rt: HostRuntime) -> Result<(), Fail> {
    assert!(rt; holds_releases_and_lends_all(rt.alloc())?);
    Ok(())
}
