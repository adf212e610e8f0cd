//! Clients that send what no client should, or don't read.

use crate::callers::{Caller, Manner, input};
use crate::gates::Way;
use crate::scene::{Outcome, Plan, play};
use log::Log;
use std::alloc::{AllocError, Global};
use std::net::{Net, TcpListener, TcpStream};
use std::rt::Clock;
use std::sync::Wait;
use std::test::*;
use std::thread::Threads;

/// The answer to a line that is too long.
const LONG: &[u8] =
    b"* PREAUTH [CAPABILITY IMAP4rev2 IDLE CONDSTORE] ready\r\n* BYE line too long\r\n";

/// The answer to a literal that is never sent.
const READY: &[u8] = b"* PREAUTH [CAPABILITY IMAP4rev2 IDLE CONDSTORE] ready\r\n+ ready\r\n";

/// The answers to a NOOP and a NUL after it.
const NUL: &[u8] =
    b"* PREAUTH [CAPABILITY IMAP4rev2 IDLE CONDSTORE] ready\r\na OK NOOP completed\r\n* BYE NUL in text\r\n";

/// The answer to a non-synchronizing literal that is too long.
const UNASKED: &[u8] =
    b"* PREAUTH [CAPABILITY IMAP4rev2 IDLE CONDSTORE] ready\r\n* BYE literal too long\r\n";

/// The answers to a NOOP and a LOGOUT.
const GOOD: &[u8] =
    b"* PREAUTH [CAPABILITY IMAP4rev2 IDLE CONDSTORE] ready\r\na OK NOOP completed\r\n* BYE logging out\r\nb OK LOGOUT completed\r\n";

/// How many clients read everything, whatever the others do.
const READERS: u64 = 4;

fn caller(alloc: Global, manner: Manner, way: Way, text: &[u8]) -> Result<Caller, AllocError> {
    Ok(Caller {
        input: input(alloc, text)?,
        manner,
        way,
    })
}

/// A client that sends a text, and then octets without an end of line, up to `count` octets in all.
fn endless_client(alloc: Global, text: &[u8], count: usize) -> Result<Caller, AllocError> {
    let mut caller = caller(alloc, Manner::Reads, Way::Open, text)?;
    caller.input.resize(count, 120)?;
    Ok(caller)
}

/// A client that appends a message of a million octets, asks for it forty times, and reads nothing.
fn deaf_client(alloc: Global) -> Result<Caller, AllocError> {
    let begin = b"a SELECT INBOX\r\nb APPEND INBOX {1000000+}\r\n";
    let mut caller = caller(alloc, Manner::Deaf(READERS), Way::Counting, begin)?;
    let length = caller.input.len().saturating_add(1_000_000);
    caller.input.resize(length, 120)?;
    caller.input.extend_from_slice(b"\r\n")?;
    for _ in 0..40u32 {
        caller
            .input
            .extend_from_slice(b"c FETCH 1 BODY.PEEK[]\r\n")?;
    }
    Ok(caller)
}

/// Adds a client that doesn't read, one that sends no literal, and one whose line doesn't end.
fn add_endless(alloc: Global, clients: &mut Vec<Caller>) -> Result<(), AllocError> {
    clients.push(deaf_client(alloc)?)?;
    let partial = b"a APPEND INBOX {10}\r\nabc";
    clients.push(caller(alloc, Manner::Waits(READERS), Way::Open, partial)?)?;
    clients.push(endless_client(alloc, b"a NOOP ", 10_000_000)?)?;
    Ok(())
}

/// Adds a client that sends a NUL, one whose literal is too long, and one that behaves well.
fn add_others(alloc: Global, clients: &mut Vec<Caller>) -> Result<(), AllocError> {
    let nul = b"a NOOP\r\n\0b NOOP\r\n";
    clients.push(caller(alloc, Manner::Reads, Way::After(4), nul)?)?;
    clients.push(endless_client(alloc, b"a APPEND INBOX {1048577+}\r\n", 1_050_000)?)?;
    let good = b"a NOOP\r\nb LOGOUT\r\n";
    clients.push(caller(alloc, Manner::Reads, Way::After(4), good)?)?;
    Ok(())
}

/// All six clients.
fn clients(alloc: Global) -> Result<Vec<Caller>, AllocError> {
    let mut clients = Vec::new(alloc);
    add_endless(alloc, &mut clients)?;
    add_others(alloc, &mut clients)?;
    Ok(clients)
}

/// All six clients at one replica. Those with commands wait until the one that doesn't read has
/// asked for the message twice.
fn plan(alloc: Global) -> Result<Plan, AllocError> {
    Ok(Plan {
        first: clients(alloc)?,
        second: Vec::new(alloc),
        is_full: false,
        called: 0,
        until: 0,
        turns: 0,
    })
}

fn outcome<
    R: Threads + Wait + Clock + Log + Sync + Net<Listener = TcpListener, Stream = TcpStream>,
>(rt: &R, alloc: Global) -> Option<Outcome> {
    match plan(alloc) {
        Ok(plan) => play(rt, alloc, plan),
        Err(_) => None,
    }
}

/// Whether each client received the expected answers. The client that doesn't read gave at least
/// four commands, and stopped before its fortieth FETCH, when its connection was full; the others
/// made 15 calls.
fn are_served(outcome: &Option<Outcome>) -> bool {
    let expected: [&[u8]; 6] = [b"", READY, LONG, NUL, UNASKED, GOOD];
    match outcome {
        Some(outcome) => {
            outcome.first.len() == expected.len()
                && outcome
                    .first
                    .iter()
                    .zip(expected)
                    .all(|(output, text)| output.as_slice() == text)
                && outcome.entries.0 >= 19
                && outcome.entries.0 < 57
        }
        None => false,
    }
}

#[test]
fn bad_clients_affect_no_others(rt: HostRuntime) {
    let outcome = outcome(&rt, rt.alloc());
    assert!(rt; are_served(&outcome));
}
