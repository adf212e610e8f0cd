//! Answers and states of an inbox as lines of text.

use causal_inbox::{Arrival, DeliverFault, Delivered, Drained, HeldOps, Stall};
use crdt_ops::{Ids, Message, SoundOp, write_flags, write_id, write_ids, write_op};
use folder_state::Folders;
use imap_types::{Escape, Name, write_escaped};
use std::alloc::{AllocError, Global};
use std::fmt::Write;
use subs_state::Subs;

/// Whether the text equals these lines; `Err` if memory ran out for the text.
pub fn is_text(text: Result<Vec<u8>, AllocError>, lines: &[u8]) -> Result<bool, AllocError> {
    Ok(text?.as_slice() == lines)
}

/// Appends the operations, one per line.
pub fn write_ops(alloc: Global, ops: &[SoundOp], text: &mut Vec<u8>) -> Result<(), AllocError> {
    for op in ops {
        write_line(alloc, op, text)?;
    }
    Ok(())
}

/// Appends the held operations, one per line.
pub fn write_held_ops(
    alloc: Global,
    held: &HeldOps<'_, SoundOp>,
    text: &mut Vec<u8>,
) -> Result<(), AllocError> {
    for op in held.iter() {
        write_line(alloc, op, text)?;
    }
    Ok(())
}

fn write_line(alloc: Global, op: &SoundOp, text: &mut Vec<u8>) -> Result<(), AllocError> {
    write_op(alloc, op, text)?;
    text.extend_from_slice(b"\n")
}

/// Appends the folders and the subscriptions, as lines of a dump.
pub fn write_mailboxes(
    alloc: Global,
    folders: &Folders,
    subs: &Subs,
    text: &mut Vec<u8>,
) -> Result<(), AllocError> {
    write_folders(alloc, folders, text)?;
    write_subscriptions(alloc, subs, text)
}

/// Appends the folders, as lines of a dump.
pub fn write_folders(
    alloc: Global,
    folders: &Folders,
    text: &mut Vec<u8>,
) -> Result<(), AllocError> {
    let names = folders.names(alloc)?;
    for name in &names {
        write_folder(alloc, folders, name, text)?;
    }
    Ok(())
}

fn write_folder(
    alloc: Global,
    folders: &Folders,
    name: &Name,
    text: &mut Vec<u8>,
) -> Result<(), AllocError> {
    let ids = folders.tags(alloc, name)?;
    write_tags(alloc, b"folder ", name, &ids, text)?;
    write_messages(alloc, folders, name, text)
}

/// Appends a word, a name and the ids of its tags, as a line.
fn write_tags(
    alloc: Global,
    word: &[u8],
    name: &Name,
    ids: &Ids,
    text: &mut Vec<u8>,
) -> Result<(), AllocError> {
    text.extend_from_slice(word)?;
    write_escaped(Escape::Field, name.as_bytes(), text)?;
    text.extend_from_slice(b" ")?;
    write_ids(alloc, ids, text)?;
    text.extend_from_slice(b"\n")
}

fn write_messages(
    alloc: Global,
    folders: &Folders,
    name: &Name,
    text: &mut Vec<u8>,
) -> Result<(), AllocError> {
    let messages = folders.messages(alloc, name)?;
    for message in &messages {
        write_message(alloc, message, text)?;
    }
    Ok(())
}

fn write_message(alloc: Global, message: &Message, text: &mut Vec<u8>) -> Result<(), AllocError> {
    text.extend_from_slice(b"message ")?;
    write_id(alloc, message.origin, text)?;
    text.extend_from_slice(b" ")?;
    write_ids(alloc, &message.versions, text)?;
    text.extend_from_slice(b" ")?;
    write_content(message, text)
}

fn write_content(message: &Message, text: &mut Vec<u8>) -> Result<(), AllocError> {
    write_flags(&message.flags, text)?;
    text.extend_from_slice(b" ")?;
    text.extend_from_slice(message.date.as_bytes())?;
    text.extend_from_slice(b" =")?;
    write_escaped(Escape::Text, message.text.as_bytes(), text)?;
    text.extend_from_slice(b"\n")
}

fn write_subscriptions(alloc: Global, subs: &Subs, text: &mut Vec<u8>) -> Result<(), AllocError> {
    let names = subs.names(alloc)?;
    for name in &names {
        write_subscription(alloc, subs, name, text)?;
    }
    Ok(())
}

fn write_subscription(
    alloc: Global,
    subs: &Subs,
    name: &Name,
    text: &mut Vec<u8>,
) -> Result<(), AllocError> {
    let ids = subs.tags(alloc, name)?;
    write_tags(alloc, b"subscribed ", name, &ids, text)
}

/// Appends the answer to a drain, as a line.
pub fn write_drained(text: &mut String, drained: Drained) -> Result<(), AllocError> {
    write!(text, "drained {}", drained.applied)?;
    write_stalled(text, drained.stalled)
}

/// Appends the reason why a ripe operation is held, as a line.
pub fn write_stall(text: &mut String, stall: Option<Stall>) -> Result<(), AllocError> {
    text.push_str(match stall {
        None => "none\n",
        Some(Stall::Exhausted) => "Exhausted\n",
        Some(Stall::Drainable) => "Drainable\n",
    })
}

/// Appends the answer to a delivery, as a line.
pub fn write_delivered(
    text: &mut String,
    answer: Result<Delivered, DeliverFault>,
) -> Result<(), AllocError> {
    match answer {
        Ok(delivered) => {
            write_arrival(text, delivered.arrival)?;
            write_stalled(text, delivered.stalled)
        }
        Err(fault) => write_fault(text, fault),
    }
}

fn write_arrival(text: &mut String, arrival: Arrival) -> Result<(), AllocError> {
    match arrival {
        Arrival::Applied(count) => write!(text, "Applied {count}"),
        Arrival::Held => text.push_str("Held"),
        Arrival::Repeat => text.push_str("Repeat"),
    }
}

fn write_stalled(text: &mut String, stalled: bool) -> Result<(), AllocError> {
    text.push_str(if stalled { " stalled\n" } else { "\n" })
}

fn write_fault(text: &mut String, fault: DeliverFault) -> Result<(), AllocError> {
    text.push_str(match fault {
        DeliverFault::Conflict { id } => {
            return writeln!(text, "Conflict {}:{}", id.replica.get(), id.number.get());
        }
        DeliverFault::HeldFull => "HeldFull\n",
        DeliverFault::Exhausted => "Exhausted\n",
        DeliverFault::NoMemory => "NoMemory\n",
    })
}

/// Appends a line of the ids of the applied operations and a line of those of the held ones.
pub fn write_received(
    applied: &[SoundOp],
    held: &HeldOps<'_, SoundOp>,
    text: &mut String,
) -> Result<(), AllocError> {
    write_applied_ids(applied, text)?;
    write_held_ids(held, text)
}

/// Appends the ids of applied operations, as a line.
fn write_applied_ids(ops: &[SoundOp], text: &mut String) -> Result<(), AllocError> {
    text.push_str("applied")?;
    for op in ops {
        write_spaced_id(op, text)?;
    }
    text.push_str("\n")
}

/// Appends the ids of held operations, as a line.
fn write_held_ids(held: &HeldOps<'_, SoundOp>, text: &mut String) -> Result<(), AllocError> {
    text.push_str("held")?;
    for op in held.iter() {
        write_spaced_id(op, text)?;
    }
    text.push_str("\n")
}

fn write_spaced_id(op: &SoundOp, text: &mut String) -> Result<(), AllocError> {
    let id = op.op().id;
    write!(text, " {}:{}", id.replica.get(), id.number.get())
}
