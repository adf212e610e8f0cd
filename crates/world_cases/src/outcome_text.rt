//! Writes the outcomes of events as text.

use crate::event_lines::cut;
use case_lines::Words;
use causal_inbox::{Arrival, DeliverFault, Delivered, Drained};
use imap_answers::{Answer, Refusal};
use imap_node::{OpenFault, Reply, ReplyOps, ReplySilentFlags};
use imap_print::print;
use imap_types::Octets;
use merge_laws::Caused;
use std::alloc::{AllocError, Global};
use world_core::{JoinRefusal, Outcome};

/// Puts the line of an event, and its outcome below it.
pub fn put_outcome(alloc: Global, line: &str, outcome: &Outcome, page: &mut Words) {
    page.put(line);
    let mut text = Words::new(alloc);
    put_outcome_text(alloc, line, outcome, &mut text);
    match text.finish() {
        Ok(text) => page.put_answer(&text),
        Err(AllocError) => page.give_up(),
    }
    page.put("\n");
}

fn put_outcome_text(alloc: Global, line: &str, outcome: &Outcome, page: &mut Words) {
    match outcome {
        Outcome::Opened { session } => page.put_number(" Opened ", session.get() as u64),
        Outcome::NotOpened { fault } => page.put(open_fault_text(*fault)),
        Outcome::Replied { reply } => put_reply(alloc, line, reply, page),
        Outcome::Taken { delivered } => put_delivered(*delivered, page),
        Outcome::NotTaken { fault } => put_fault(*fault, page),
        Outcome::Drained { drained } => put_drained(*drained, page),
        Outcome::Closed => page.put(" Closed"),
        Outcome::PassedOver => page.put(" PassedOver"),
        Outcome::Joined => page.put(" Joined"),
        Outcome::NotJoined { fault } => put_refusal(" NotJoined", *fault, page),
        Outcome::Restarted => page.put(" Restarted"),
        Outcome::NotRestarted { fault } => put_refusal(" NotRestarted", *fault, page),
    }
}

fn put_refusal(outcome: &str, fault: JoinRefusal, page: &mut Words) {
    page.put(outcome);
    page.put(match fault {
        JoinRefusal::Exhausted => " Exhausted",
        JoinRefusal::NoMemory => " NoMemory",
    });
}

fn open_fault_text(fault: OpenFault) -> &'static str {
    match fault {
        OpenFault::TooManySessions => " TurnedAway TooManySessions",
        OpenFault::NoMemory => " TurnedAway NoMemory",
    }
}

fn put_delivered(delivered: Delivered, page: &mut Words) {
    put_arrival(delivered.arrival, page);
    page.put_if(delivered.stalled, " stalled");
}

fn put_arrival(arrival: Arrival, page: &mut Words) {
    match arrival {
        Arrival::Applied(count) => page.put_number(" Applied ", count as u64),
        Arrival::Held => page.put(" Held"),
        Arrival::Repeat => page.put(" Repeat"),
    }
}

fn put_fault(fault: DeliverFault, page: &mut Words) {
    match fault {
        DeliverFault::Conflict { id } => page.put_id(" Conflict ", id),
        DeliverFault::HeldFull => page.put(" HeldFull"),
        DeliverFault::Exhausted => page.put(" Exhausted"),
        DeliverFault::NoMemory => page.put(" NoMemory"),
    }
}

fn put_drained(drained: Drained, page: &mut Words) {
    page.put_number(" Drained ", drained.applied as u64);
    page.put_if(drained.stalled, " stalled");
}

/// Puts the ids of the issued operations, the numbers of the messages whose flags were set
/// silently, and the answers, a line each.
fn put_reply(alloc: Global, line: &str, reply: &Reply, page: &mut Words) {
    match reply {
        Reply::Done {
            answers,
            silent,
            issued,
        } => {
            put_issued(issued, page);
            put_silent(silent, page);
            for answer in answers.as_slice() {
                put_answer(alloc, answer, page);
            }
        }
        Reply::Refused { why, closed } => put_refused(alloc, line, *why, *closed, page),
    }
}

fn put_issued(issued: &ReplyOps, page: &mut Words) {
    if issued.as_slice().is_empty() {
        return;
    }
    page.put("\n  issued");
    for op in issued.as_slice() {
        page.put_id(" ", op.id());
    }
}

fn put_silent(silents: &ReplySilentFlags, page: &mut Words) {
    if silents.as_slice().is_empty() {
        return;
    }
    page.put("\n  silent");
    for silent in silents.as_slice() {
        page.put_number(" ", u64::from(silent.number));
    }
}

fn put_answer(alloc: Global, answer: &Answer, page: &mut Words) {
    let mut text = Vec::new(alloc);
    match print(answer, &mut text) {
        Ok(()) => {
            page.put_escaped("\n  ", text.strip_suffix(b"\r\n").unwrap_or(&text));
        }
        Err(_) => page.put("\n  no memory"),
    }
}

fn put_refused(alloc: Global, line: &str, reason: Refusal, closed: bool, page: &mut Words) {
    if closed {
        page.put("\n  closed");
    }
    match tag_in(alloc, line) {
        Ok(tag) => put_answer(alloc, &Answer::Refused { tag, reason }, page),
        Err(AllocError) => page.put("\n  no memory"),
    }
}

/// The tag of the command in a line `command R S TEXT`.
fn tag_in(alloc: Global, line: &str) -> Result<Octets, AllocError> {
    let (_, rest) = cut(line);
    let (_, rest) = cut(rest);
    let (_, text) = cut(rest);
    let (tag, _) = cut(text);
    Octets::from_slice(alloc, tag.as_bytes())
}
