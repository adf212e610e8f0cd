//! What the program prints and logs, and the status with which it ends.

use crate::callers::{Caller, Manner};
use crate::crowd::outcome;
use crate::gates::Way;
use crate::loopback::serves_well;
use crate::scenarios::Scenario;
use crate::scene::{Outcome, Plan};
use crate::terminal::Terminal;
use server_runtime::run;
use std::alloc::{AllocError, Global};
use std::sync::Wait;
use std::test::*;

/// The second replica takes the operations of the first, and the third those of the second.
#[test]
fn replicas_join_in_their_order(rt: HostRuntime) {
    let terminal = Terminal::new(rt, rt.alloc(), &[], true);
    let line =
        "imap_server --preauth --stop-after 2 --join 2=127.0.0.1:0/1 --join 3=127.0.0.1:0/2 1=127.0.0.1:0";
    assert_eq!(rt;
        serves_well(&terminal, rt.alloc(), line, Scenario::Chain),
        Some(true)
    );
    let printed =
        "listening 1 127.0.0.1:0\njoined 2 1\nlistening 2 127.0.0.1:0\njoined 3 2\nlistening 3 127.0.0.1:0\n";
    assert!(rt; terminal.has_printed(printed));
}

#[test]
fn a_replica_joins_when_the_last_connection_has_ended(rt: HostRuntime) {
    let terminal = Terminal::new(rt, rt.alloc(), &[], true);
    let line = "imap_server --preauth --stop-after 1 --join 2=127.0.0.1:0/1 1=127.0.0.1:0";
    assert_eq!(rt;
        serves_well(&terminal, rt.alloc(), line, Scenario::Last),
        Some(true)
    );
    let printed = "listening 1 127.0.0.1:0\njoined 2 1\nlistening 2 127.0.0.1:0\n";
    assert!(rt; terminal.has_printed(printed));
    let second = "replica 2 served 0 sessions and 0 commands; it applied 1 operations,";
    assert_eq!(rt; terminal.times_logged(second), 1);
}

/// What is logged about five connections, each of which ends in its own way.
const ENDS: [&str; 5] = [
    "connection ended: logout\n",
    "connection ended: closed by the client\n",
    "connection ended: bad framing\n",
    "connection ended: read failed\n",
    "connection ended: write failed\n",
];

/// Whether each end is logged once, and no other.
fn are_logged<R: Wait>(terminal: &Terminal<'_, R>) -> bool {
    terminal.times_logged("connection ended: ") == 5
        && ENDS.iter().all(|line| terminal.times_logged(line) == 1)
}

#[test]
fn the_end_of_each_connection_is_logged(rt: HostRuntime) {
    let terminal = Terminal::new(rt, rt.alloc(), &[], true);
    let line = "imap_server --preauth --stop-after 5 1=127.0.0.1:0";
    assert_eq!(rt;
        serves_well(&terminal, rt.alloc(), line, Scenario::Ends),
        Some(true)
    );
    assert!(rt; are_logged(&terminal));
}

/// The answer to a client for which a replica has no session.
const TURNED_AWAY: &[u8] = b"* BYE too many sessions\r\n";

/// A client of a replica that has as many sessions as it can.
fn one_too_many(alloc: Global) -> Result<Plan, AllocError> {
    let mut first = Vec::new(alloc);
    first.push(Caller {
        input: Vec::new(alloc),
        manner: Manner::Reads,
        way: Way::Open,
    })?;
    Ok(Plan {
        first,
        second: Vec::new(alloc),
        is_full: true,
        called: 0,
        until: 0,
        turns: 0,
    })
}

/// Whether the only client was turned away. Its call is counted after those of 1,024 others.
fn is_turned_away(outcome: &Option<Outcome>) -> bool {
    match outcome {
        Some(outcome) => {
            outcome.first.len() == 1
                && outcome
                    .first
                    .iter()
                    .all(|output| output.as_slice() == TURNED_AWAY)
                && outcome.entries == (1_025, 0)
        }
        None => false,
    }
}

#[test]
fn the_end_without_a_session_is_logged(rt: HostRuntime) {
    let terminal = Terminal::new(rt, rt.alloc(), &[], true);
    let outcome = outcome(&terminal, rt.alloc(), one_too_many(rt.alloc()));
    assert!(rt; is_turned_away(&outcome));
    assert_eq!(rt;
        terminal.times_logged("connection ended: too many sessions\n"),
        1
    );
}

/// The words of a run in which the second replica's address is invalid.
const NOWHERE: [&[u8]; 4] = [b"imap_server", b"--preauth", b"1=127.0.0.1:0", b"2=nowhere"];

#[test]
fn an_address_that_is_none_ends_the_run(rt: HostRuntime) {
    let terminal = Terminal::new(rt, rt.alloc(), &NOWHERE, true);
    assert_eq!(rt; run(&terminal), 1);
    assert!(rt; terminal.has_printed("listening 1 127.0.0.1:0\ncannot listen 2 nowhere\n"));
    assert_eq!(rt; terminal.times_logged("cannot listen at nowhere: "), 1);
}

/// The words of a run, one of which is no text.
const NO_TEXT: [&[u8]; 2] = [b"imap_server", b"\xff"];

/// The words of a run that would stop at once.
const STOPPED: [&[u8]; 5] = [
    b"imap_server",
    b"--preauth",
    b"--stop-after",
    b"0",
    b"1=127.0.0.1:0",
];

#[test]
fn faults_of_the_run_end_with_status_1(rt: HostRuntime) {
    let terminal = Terminal::new(rt, rt.alloc(), &NO_TEXT, true);
    assert_eq!(rt; run(&terminal), 1);
    assert!(rt; terminal.has_printed("run fault\n"));
    let silent = Terminal::new(rt, rt.alloc(), &STOPPED, false);
    assert_eq!(rt; run(&silent), 1);
    assert_eq!(rt; silent.times_logged("the server can't run: "), 1);
}

/// The words of a run that name no access.
const NO_ACCESS: [&[u8]; 2] = [b"imap_server", b"1=127.0.0.1:1"];

#[test]
fn words_without_access_end_with_status_2(rt: HostRuntime) {
    let terminal = Terminal::new(rt, rt.alloc(), &NO_ACCESS, true);
    assert_eq!(rt; run(&terminal), 2);
    let printed = "usage: give --preauth, or --user and --pass\n";
    assert!(rt; terminal.has_printed(printed));
}
