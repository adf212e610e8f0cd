//! Messages between replicas, and the answers to them in a journal, as text.

use causal_inbox::{Arrival, DeliverFault, Delivered};
use crdt_ops::SoundOp;
use crossbeam_channel::Receiver;
use merge_laws::Caused;
use replica_links::LinkMsg;
use replica_lock::{Book, BookEvent, EntryRef, JournalEntry, Outcome};
use std::alloc::{AllocError, Global};
use std::sync::Wait;
use tags_clocks::{Clock, OpId};

/// A line with the sender and the receiver of a message, by the names of the replicas at these
/// places, and its content.
pub fn message_line(
    alloc: Global,
    from: usize,
    to: usize,
    message: &LinkMsg,
) -> Result<String, AllocError> {
    let from = from.saturating_add(1);
    let to = to.saturating_add(1);
    let mut text = format!(in alloc; "{from} to {to}:")?;
    write_content(&mut text, message)?;
    text.push_str("\n")?;
    Ok(text)
}

fn write_content(text: &mut String, message: &LinkMsg) -> Result<(), AllocError> {
    match message {
        LinkMsg::Ops(ops) => write_ops(text, ops),
        LinkMsg::Have(clock) => {
            text.push_str(" have ")?;
            write_clock(text, clock)
        }
        LinkMsg::Stop => text.push_str(" stop"),
    }
}

/// Appends the ids of operations, each after a space.
fn write_ops(text: &mut String, ops: &[SoundOp]) -> Result<(), AllocError> {
    for op in ops {
        text.push_str(" ")?;
        write_id(text, op.id())?;
    }
    Ok(())
}

/// Appends an id.
pub fn write_id(text: &mut String, id: OpId) -> Result<(), AllocError> {
    let replica = id.replica.get();
    let number = id.number.get();
    write!(text, "{replica}:{number}")
}

/// Appends a clock; an empty one is `-`.
pub fn write_clock(text: &mut String, clock: &Clock) -> Result<(), AllocError> {
    if clock.entries().is_empty() {
        return text.push_str("-");
    }
    for (place, (replica, number)) in clock.entries().iter().enumerate() {
        if place > 0 {
            text.push_str(",")?;
        }
        let replica = replica.get();
        write!(text, "{replica}={number}")?;
    }
    Ok(())
}

/// Whether this is the text of a clock.
pub fn is_clock(alloc: Global, clock: &Clock, expected: &str) -> bool {
    let mut text = String::new(alloc);
    write_clock(&mut text, clock).is_ok() && text.as_str() == expected
}

/// A line of this text and a clock.
pub fn with_clock(text: Result<String, AllocError>, clock: &Clock) -> Result<String, AllocError> {
    let mut text = text?;
    write_clock(&mut text, clock)?;
    text.push_str("\n")?;
    Ok(text)
}

/// All lines that wait in a channel.
pub fn all_lines<R: Wait>(
    rt: &R,
    alloc: Global,
    lines: &Receiver<String>,
) -> Result<String, AllocError> {
    let mut text = String::new(alloc);
    for _ in 0..lines.len() {
        if let Ok(line) = lines.try_recv(rt) {
            text.push_str(line.as_str())?;
        }
    }
    Ok(text)
}

/// Appends the outcomes of all deliveries and drains in a journal, a line each.
pub fn write_answers(text: &mut String, book: &Book) -> Result<(), AllocError> {
    for place in 0..book.len() {
        if let Some(stored) = book.entry(place.saturating_add(1)) {
            if let EntryRef::Whole { entry } = stored.as_entry() {
                write_entry(text, entry)?;
            }
        }
    }
    Ok(())
}

fn write_entry(text: &mut String, entry: &JournalEntry) -> Result<(), AllocError> {
    match &entry.event {
        BookEvent::Deliver { op } => write_id(text, op.id())?,
        BookEvent::Drain => text.push_str("drain")?,
        _ => return Ok(()),
    }
    write_outcome(text, &entry.outcome)?;
    text.push_str("\n")
}

fn write_outcome(text: &mut String, outcome: &Outcome) -> Result<(), AllocError> {
    match outcome {
        Outcome::Delivered {
            answer: Ok(delivered),
        } => write_delivered(text, *delivered),
        Outcome::Delivered { answer: Err(fault) } => write_fault(text, *fault),
        Outcome::Drained { drained } => {
            write_applied(text, drained.applied)?;
            write_stalled(text, drained.stalled)
        }
        _ => text.push_str(" otherwise"),
    }
}

fn write_delivered(text: &mut String, delivered: Delivered) -> Result<(), AllocError> {
    match delivered.arrival {
        Arrival::Applied(count) => write_applied(text, count)?,
        Arrival::Held => text.push_str(" Held")?,
        Arrival::Repeat => text.push_str(" Repeat")?,
    }
    write_stalled(text, delivered.stalled)
}

fn write_applied(text: &mut String, count: usize) -> Result<(), AllocError> {
    write!(text, " Applied {count}")
}

fn write_stalled(text: &mut String, stalled: bool) -> Result<(), AllocError> {
    if stalled {
        text.push_str(" stalled")?;
    }
    Ok(())
}

fn write_fault(text: &mut String, fault: DeliverFault) -> Result<(), AllocError> {
    match fault {
        DeliverFault::Conflict { id } => {
            text.push_str(" Conflict ")?;
            write_id(text, id)
        }
        DeliverFault::HeldFull => text.push_str(" HeldFull"),
        DeliverFault::Exhausted => text.push_str(" Exhausted"),
        DeliverFault::NoMemory => text.push_str(" NoMemory"),
    }
}
