//! Concurrent connections, while a replica's lock is held.

use crate::callers::{Caller, Manner, input};
use crate::gates::{TURNS, Way};
use crate::scene::{Outcome, Plan, play};
use log::Log;
use std::alloc::{AllocError, Global};
use std::net::{Net, TcpListener, TcpStream};
use std::rt::Clock;
use std::sync::Wait;
use std::test::*;
use std::thread::Threads;

/// The answers to one NOOP and a LOGOUT.
const ONE: &[u8] =
    b"* PREAUTH [CAPABILITY IMAP4rev2 IDLE CONDSTORE] ready\r\na OK NOOP completed\r\n* BYE logging out\r\nb OK LOGOUT completed\r\n";

/// The answers to two NOOPs and a LOGOUT.
const TWO: &[u8] =
    b"* PREAUTH [CAPABILITY IMAP4rev2 IDLE CONDSTORE] ready\r\na OK NOOP completed\r\nb OK NOOP completed\r\n* BYE logging out\r\nc OK LOGOUT completed\r\n";

/// A client that appends, fetches and stores.
const CROWD_INPUT: &[u8] =
    b"a SELECT INBOX\r\nb APPEND INBOX {3+}\r\nabc\r\nc FETCH 1:* FLAGS\r\nd STORE 1 +FLAGS (\\Seen)\r\ne LOGOUT\r\n";

/// How many turns the lock is held at most for a crowd: more than fifty clients need.
const CROWD_TURNS: u64 = 100_000_000;

/// The answers to each such client, whatever the others do; between these are numbers and the
/// others' messages.
const CROWD_ANSWERS: [&[u8]; 6] = [
    b"a OK [READ-WRITE] SELECT completed\r\n",
    b"b OK [APPENDUID ",
    b"c OK FETCH completed\r\n",
    b"d OK STORE completed\r\n",
    b"* BYE logging out\r\n",
    b"e OK LOGOUT completed\r\n",
];

/// A client that sends this text after a gate of this kind, and reads everything.
fn caller(alloc: Global, way: Way, text: &[u8]) -> Result<Caller, AllocError> {
    Ok(Caller {
        input: input(alloc, text)?,
        manner: Manner::Reads,
        way,
    })
}

/// `count` clients that send this text after a gate of this kind, and read everything.
fn callers(alloc: Global, count: u64, way: Way, text: &[u8]) -> Result<Vec<Caller>, AllocError> {
    let mut callers = Vec::new(alloc);
    for _ in 0..count {
        callers.push(caller(alloc, way, text)?)?;
    }
    Ok(callers)
}

/// Two clients of one replica; the first waits before its first command until the second has
/// passed the gate of its second.
fn one_after_another(alloc: Global) -> Result<Plan, AllocError> {
    let mut first = callers(alloc, 1, Way::After(2), b"a NOOP\r\nb LOGOUT\r\n")?;
    first.push(caller(alloc, Way::Counting, b"a NOOP\r\nb NOOP\r\nc LOGOUT\r\n")?)?;
    Ok(Plan {
        first,
        second: Vec::new(alloc),
        is_full: false,
        called: 0,
        until: 0,
        turns: 0,
    })
}

/// Clients of both replicas that wait before their first command until the first replica's lock is
/// held. It is taken once all of them wait, and held until `until` clients have read everything.
fn while_held(
    alloc: Global,
    first: u64,
    second: u64,
    text: &[u8],
    until: u64,
    turns: u64,
) -> Result<Plan, AllocError> {
    Ok(Plan {
        first: callers(alloc, first, Way::Held, text)?,
        second: callers(alloc, second, Way::Held, text)?,
        is_full: false,
        called: first.saturating_add(second),
        until,
        turns,
    })
}

/// The result of a plan; `None` if the plan can't be made or fails.
pub fn outcome<
    R: Threads + Wait + Clock + Log + Sync + Net<Listener = TcpListener, Stream = TcpStream>,
>(rt: &R, alloc: Global, plan: Result<Plan, AllocError>) -> Option<Outcome> {
    match plan {
        Ok(plan) => play(rt, alloc, plan),
        Err(_) => None,
    }
}

/// Whether the clients, in their order, read these texts.
fn are(received: &[Vec<u8>], expected: &[&[u8]]) -> bool {
    if received.len() != expected.len() {
        return false;
    }
    for at in 0..expected.len() {
        if received[at].as_slice() != expected[at] {
            return false;
        }
    }
    true
}

/// Whether the second client was answered while the first waited, and the first afterwards.
fn is_second_served(outcome: &Option<Outcome>) -> bool {
    match outcome {
        Some(outcome) => {
            outcome.satisfied == 1 && are(&outcome.first, &[ONE, TWO]) && outcome.entries == (9, 0)
        }
        None => false,
    }
}

#[test]
fn a_connection_waits_for_another(rt: HostRuntime) {
    let outcome = outcome(&rt, rt.alloc(), one_after_another(rt.alloc()));
    assert!(rt; is_second_served(&outcome));
}

/// A client that sends two NOOPs and a LOGOUT in one piece, after a gate that records.
fn two_in_one_piece(alloc: Global) -> Result<Plan, AllocError> {
    Ok(Plan {
        first: callers(
            alloc,
            1,
            Way::Recording,
            b"a NOOP\r\nb NOOP\r\nc LOGOUT\r\n",
        )?,
        second: Vec::new(alloc),
        is_full: false,
        called: 0,
        until: 0,
        turns: 0,
    })
}

/// Whether the gate was passed with the number of each command, and each was answered.
fn each_command_passes(outcome: &Option<Outcome>) -> bool {
    match outcome {
        Some(outcome) => {
            outcome.numbers == 123 && are(&outcome.first, &[TWO]) && outcome.entries == (5, 0)
        }
        None => false,
    }
}

#[test]
fn a_gate_is_passed_for_each_command(rt: HostRuntime) {
    let outcome = outcome(&rt, rt.alloc(), two_in_one_piece(rt.alloc()));
    assert!(rt; each_command_passes(&outcome));
}

/// Whether the other replica's client was answered while the lock was held.
fn is_other_served(outcome: &Option<Outcome>) -> bool {
    match outcome {
        Some(outcome) => {
            (outcome.satisfied, outcome.received) == (1, 1)
                && are(&outcome.second, &[ONE])
                && outcome.entries == (0, 4)
        }
        None => false,
    }
}

#[test]
fn a_connection_is_served_while_a_replica_is_held(rt: HostRuntime) {
    let plan = while_held(rt.alloc(), 0, 1, b"a NOOP\r\nb LOGOUT\r\n", 1, TURNS);
    let outcome = outcome(&rt, rt.alloc(), plan);
    assert!(rt; is_other_served(&outcome));
}

/// Whether the client was answered, and not while the lock was held.
fn has_waited(outcome: &Option<Outcome>) -> bool {
    match outcome {
        Some(outcome) => {
            (outcome.satisfied, outcome.received) == (1, 0)
                && are(&outcome.first, &[ONE])
                && outcome.entries == (4, 0)
        }
        None => false,
    }
}

#[test]
fn a_connection_waits_for_its_replica(rt: HostRuntime) {
    let plan = while_held(rt.alloc(), 1, 0, b"a NOOP\r\nb LOGOUT\r\n", 1, TURNS);
    let outcome = outcome(&rt, rt.alloc(), plan);
    assert!(rt; has_waited(&outcome));
}

/// Whether a text is part of another.
fn has(output: &[u8], text: &[u8]) -> bool {
    output.windows(text.len().max(1)).any(|part| part == text)
}

/// Whether all of these clients were served.
fn are_all_served(received: &[Vec<u8>]) -> bool {
    received.iter().all(|output| CROWD_ANSWERS.iter().all(|text| has(output, text)))
}

/// The UID of the message that a client appended, after this prefix of its answer; 0 if there is
/// none.
fn uid_of(output: &[u8], front: &[u8]) -> u32 {
    let mut uid = 0u32;
    if let Some(at) = output
        .windows(front.len().max(1))
        .position(|part| part == front)
    {
        for octet in output.iter().skip(at).skip(front.len()) {
            if !octet.is_ascii_digit() {
                break;
            }
            let digit = u32::from(octet.saturating_sub(b'0'));
            uid = uid.saturating_mul(10).saturating_add(digit);
        }
    }
    uid
}

/// Whether each UID from 1 to 50 was reported once, after this prefix.
fn each_uid_once(alloc: Global, front: &[u8], received: &[Vec<u8>]) -> bool {
    let mut uids = Vec::new(alloc);
    for output in received {
        if uids.push(uid_of(output, front)).is_err() {
            return false;
        }
    }
    for uid in 1..51u32 {
        if times_of(&uids, uid) != 1 {
            return false;
        }
    }
    true
}

/// How often a UID is among these.
fn times_of(uids: &[u32], uid: u32) -> u32 {
    let mut times = 0u32;
    for other in uids {
        if *other == uid {
            times = times.saturating_add(1);
        }
    }
    times
}

/// The result of fifty clients of each replica: how many gates saw the lock held, how many clients
/// read everything while it was, how many calls each replica counted, and whether at both all
/// were served and each UID was assigned once; the UIDVALIDITY of INBOX is the replica's number.
fn result_of_crowd(alloc: Global, outcome: &Option<Outcome>) -> Option<(u64, u64, u64, u64, bool)> {
    let outcome = outcome.as_ref()?;
    let first = are_all_served(&outcome.first)
        && each_uid_once(alloc, b"b OK [APPENDUID 1 ", &outcome.first);
    let second = are_all_served(&outcome.second)
        && each_uid_once(alloc, b"b OK [APPENDUID 2 ", &outcome.second);
    Some((
        outcome.satisfied,
        outcome.received,
        outcome.entries.0,
        outcome.entries.1,
        first && second,
    ))
}

#[test]
fn a_crowd_is_served_while_a_replica_is_held(rt: HostRuntime) {
    let alloc = rt.alloc();
    let plan = while_held(alloc, 50, 50, CROWD_INPUT, 50, CROWD_TURNS);
    let outcome = outcome(&rt, alloc, plan);
    assert_eq!(rt;
        result_of_crowd(alloc, &outcome),
        Some((100, 50, 350, 350, true))
    );
}
