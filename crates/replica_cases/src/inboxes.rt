//! Questions about the inbox of a case.

use crate::clocks::clock_of_raises;
use crate::dump::{put_id_list, put_state};
use crate::issue_line::put_issue;
use crate::mutations::put_damage;
use crate::setup::{Mailboxes, Node, deliver};
use case_lines::{Words, name, operation};
use causal_inbox::{Arrival, DeliverFault, Delivered, HeldOps};
use crdt_ops::{SoundOp, copy_ops};
use imap_types::Name;
use std::alloc::AllocError;
use tags_clocks::Clock;

/// A question about the inbox.
#[derive(Clone, Copy)]
pub enum InboxWord {
    /// `deliver LINE`: delivers an operation.
    Deliver,
    /// `drain`: continues with the held operations.
    Drain,
    /// `issue R NAME`: issues an operation of the inbox's replica.
    Issue,
    /// `show`: the ids of the applied operations, in their order, and of the held ones.
    Show,
    /// `list`: the applied operations, in their order.
    List,
    /// `since RAISES`: the applied operations that the clock doesn't cover.
    Since,
    /// `contents`: the folders, messages and subscriptions.
    Contents,
    /// `folder NAME`: whether it exists, and the ids of its tags, of its delete set and of the
    /// subscriptions to it.
    Folder,
}

/// Puts the answer to a question about the inbox.
pub fn answer_inbox(inbox: &mut Node, word: InboxWord, fields: &str, answer: &mut Words) {
    match word {
        InboxWord::Deliver => put_delivery(inbox, fields, answer),
        InboxWord::Drain => put_drain(inbox, answer),
        InboxWord::Issue => put_issue(inbox, fields, answer),
        InboxWord::Since => put_since(inbox, fields, answer),
        InboxWord::Folder => put_named_folder(inbox.value(), fields, answer),
        InboxWord::Show => put_received(inbox.op_list(), &inbox.held(), answer),
        InboxWord::List => put_applied(inbox.op_list(), answer),
        InboxWord::Contents => put_state(inbox.value(), answer),
    }
}

fn put_delivery(inbox: &mut Node, line: &str, answer: &mut Words) {
    match operation(answer.alloc(), line) {
        Ok(op) => {
            put_arrival(inbox, op, answer);
            put_damage(line.as_bytes(), answer);
        }
        Err(trouble) => answer.put_trouble(" ", trouble),
    }
}

fn put_arrival(inbox: &mut Node, op: SoundOp, answer: &mut Words) {
    match deliver(answer.alloc(), inbox, op) {
        Ok(delivered) => put_delivered(delivered, answer),
        Err(fault) => put_fault(fault, answer),
    }
}

fn put_drain(inbox: &mut Node, answer: &mut Words) {
    let drained = inbox.drain(answer.alloc());
    put_delivered(
        Delivered {
            arrival: Arrival::Applied(drained.applied),
            stalled: drained.stalled,
        },
        answer,
    );
}

fn put_delivered(delivered: Delivered, answer: &mut Words) {
    match delivered.arrival {
        Arrival::Applied(count) => answer.put_number(" Applied ", count as u64),
        Arrival::Held => answer.put(" Held"),
        Arrival::Repeat => answer.put(" Repeat"),
    }
    answer.put_if(delivered.stalled, " stalled");
}

fn put_fault(fault: DeliverFault, answer: &mut Words) {
    match fault {
        DeliverFault::Conflict { id } => answer.put_id(" Conflict ", id),
        DeliverFault::HeldFull => answer.put(" HeldFull"),
        DeliverFault::Exhausted => answer.put(" Exhausted"),
        DeliverFault::NoMemory => answer.put(" NoMemory"),
    }
}

fn put_received(applied: &[SoundOp], held: &HeldOps<'_, SoundOp>, answer: &mut Words) {
    answer.put(" applied");
    put_ids_of(applied, answer);
    answer.put(" held");
    put_held_ids(held, answer);
}

fn put_ids_of(ops: &[SoundOp], answer: &mut Words) {
    answer.put_if(ops.is_empty(), " -");
    for op in ops {
        answer.put_id(" ", op.op().id);
    }
}

fn put_held_ids(held: &HeldOps<'_, SoundOp>, answer: &mut Words) {
    answer.put_if(held.is_empty(), " -");
    for op in held.iter() {
        answer.put_id(" ", op.op().id);
    }
}

/// Puts a line for each operation.
fn put_ops(ops: &[SoundOp], answer: &mut Words) {
    for op in ops {
        answer.put_op("\n  ", op);
    }
}

/// Puts copies of the operations, a line each.
fn put_applied(ops: &[SoundOp], answer: &mut Words) {
    match copy_ops(answer.alloc(), ops) {
        Ok(mut copies) => {
            put_ops(copies.make_contiguous(), answer);
            drop(copies);
        }
        Err(AllocError) => answer.give_up(),
    }
}

fn put_since(inbox: &Node, fields: &str, answer: &mut Words) {
    match clock_of_raises(answer.alloc(), fields) {
        Ok(clock) => put_uncovered(inbox, &clock, answer),
        Err(trouble) => answer.put_trouble(" ", trouble),
    }
}

fn put_uncovered(inbox: &Node, clock: &Clock, answer: &mut Words) {
    match inbox.ops_since(answer.alloc(), clock) {
        Ok(ops) => {
            put_ops(&ops, answer);
            drop(ops);
        }
        Err(AllocError) => answer.give_up(),
    }
}

fn put_named_folder(state: &Mailboxes, fields: &str, answer: &mut Words) {
    match name(answer.alloc(), fields) {
        Ok(name) => put_lists(state, &name, answer),
        Err(trouble) => answer.put_trouble(" ", trouble),
    }
}

fn put_lists(state: &Mailboxes, name: &Name, answer: &mut Words) {
    answer.put(if state.first.exists(name) {
        " exists, tags"
    } else {
        " doesn't exist, tags"
    });
    put_id_list(state.first.tags(answer.alloc(), name), answer);
    answer.put(" delete");
    put_id_list(state.first.delete_set(answer.alloc(), name), answer);
    answer.put(" subscribed");
    put_id_list(state.second.tags(answer.alloc(), name), answer);
}
