//! Clients that keep a server waiting, guess passwords, or come in crowds; and passwords in files.

use crate::clients::Client;
use crate::loopback::serves_well;
use crate::scenarios::{Scenario, client_at, leave};
use crate::terminal::Terminal;
use server_runtime::{ServerState, pass_of, run};
use std::alloc::Global;
use std::net::{Net, TcpListener, TcpStream};
use std::rt::Clock;
use std::sync::Wait;
use std::test::*;
use std::time::{Duration, Instant};

/// What is logged about five clients that keep the server waiting.
const SLOW_ENDS: [(&str, u32); 4] = [
    ("connection ended: timed out before login\n", 2),
    ("connection ended: timed out\n", 2),
    ("connection ended: timed out in a write\n", 1),
    ("connection ended: ", 5),
];

/// Whether each of these texts was logged as often as it says.
fn are_logged<R: Wait>(terminal: &Terminal<'_, R>, texts: &[(&str, u32)]) -> bool {
    texts
        .iter()
        .all(|text| terminal.times_logged(text.0) == text.1)
}

/// Runs a client that says nothing, one that says little, one that says nothing after its login, one
/// that idles and one that reads no answers; true if the server ended all of them in time.
pub fn play_slow<R: Wait + Clock + Net<Listener = TcpListener, Stream = TcpStream>>(
    rt: &R,
    alloc: Global,
    server: &ServerState<'_>,
) -> Option<bool> {
    let mut known = client_at(rt, alloc, server, 0)?;
    known.exchange(b"a LOGIN me secret\r\n", b"a OK ");
    let mut idle = client_at(rt, alloc, server, 0)?;
    idle.exchange(b"a LOGIN me secret\r\n", b"a OK ");
    idle.exchange(b"b SELECT INBOX\r\n", b"b OK ");
    idle.exchange(b"c IDLE\r\n", b"+ idling\r\n");
    let mut deaf = client_at(rt, alloc, server, 0)?;
    ask_much(&mut deaf);
    let mut silent = client_at(rt, alloc, server, 0)?;
    let mut short = client_at(rt, alloc, server, 0)?;
    short.send_only(b"a LOG");
    silent.await_end();
    short.await_end();
    known.await_end();
    idle.await_end();
    Some(have_succeeded(&[silent, short, known, idle, deaf]))
}

/// Logs in, appends a message of 400,000 octets, asks for it 60 times and reads none of the answers;
/// then it sends commands until the server ends the connection.
fn ask_much(client: &mut Client) {
    client.exchange(b"a LOGIN me secret\r\n", b"a OK ");
    client.exchange(b"b APPEND INBOX {400000}\r\n", b"+ ");
    for _ in 0..4_000u32 {
        client.send_only(&[b'x'; 100]);
    }
    client.exchange(b"\r\n", b"b OK [APPENDUID 1 1] ");
    client.exchange(b"c SELECT INBOX\r\n", b"c OK ");
    for _ in 0..60u32 {
        client.send_only(b"d FETCH 1 BODY.PEEK[]\r\n");
    }
    client.send_all(b"e NOOP\r\n");
}

/// Whether each client has received all that it has waited for.
fn have_succeeded(clients: &[Client]) -> bool {
    clients.iter().all(Client::has_succeeded)
}

#[test]
fn clients_that_keep_the_server_waiting_are_ended(rt: HostRuntime) {
    let terminal = Terminal::new(rt, rt.alloc(), &[], true);
    let line =
        "imap_server --user me --pass secret --login-time 2 --idle-time 3 --write-time 1 --stop-after 5 1=127.0.0.1:0";
    assert_eq!(rt;
        serves_well(&terminal, rt.alloc(), line, Scenario::Slow),
        Some(true)
    );
    assert!(rt; are_logged(&terminal, &SLOW_ENDS));
}

/// What is logged of the client when the replica stops.
const GUESSES_COUNTED: &str =
    "replica 1 so far: 1 connections, 1 sessions, 5 commands, 0 operations, 5 refused logins, 0 octets of messages\n";

/// Eight LOGINs with wrong passwords, and a NOOP.
const GUESSES: &[u8] =
    b"1 LOGIN me a\r\n2 LOGIN me b\r\n3 LOGIN me c\r\n4 LOGIN me d\r\n5 LOGIN me e\r\n6 LOGIN me f\r\n7 LOGIN me g\r\n8 LOGIN me h\r\nn NOOP\r\n";

/// Runs a client that guesses passwords, all in one piece; true if just five of its LOGINs were
/// judged, the fifth no sooner than 15 seconds after the first.
pub fn play_guessing<R: Wait + Clock + Net<Listener = TcpListener, Stream = TcpStream>>(
    rt: &R,
    alloc: Global,
    server: &ServerState<'_>,
) -> Option<bool> {
    let mut client = client_at(rt, alloc, server, 0)?;
    let began = Instant::now(rt).ok()?;
    client.send_only(GUESSES);
    client.await_end();
    let has_waited = began.elapsed(rt).ok()? >= Duration::from_secs(15);
    let fifth = client.has_received(b"5 NO [AUTHENTICATIONFAILED] login failed\r\n");
    let others = client.has_received(b"6 ") || client.has_received(b"n OK");
    Some(client.has_succeeded() && has_waited && fifth && !others)
}

#[test]
fn who_guesses_passwords_is_slowed_and_ended(rt: HostRuntime) {
    let terminal = Terminal::new(rt, rt.alloc(), &[], true);
    let line = "imap_server --user me --pass secret --stop-after 1 1=127.0.0.1:0";
    assert_eq!(rt;
        serves_well(&terminal, rt.alloc(), line, Scenario::Guessing),
        Some(true)
    );
    let ends = [
        ("connection ended: too many refused logins\n", 1),
        (GUESSES_COUNTED, 1),
    ];
    assert!(rt; are_logged(&terminal, &ends));
}

/// How many clients connect at once: one more than may wait for their login.
const CROWD: usize = 129;

/// Runs a client after 128 others that say nothing; true if the first of these was ended, and the
/// client could log in.
pub fn play_crowd<R: Wait + Clock + Net<Listener = TcpListener, Stream = TcpStream>>(
    rt: &R,
    alloc: Global,
    server: &ServerState<'_>,
) -> Option<bool> {
    let mut first = client_at(rt, alloc, server, 0)?;
    let mut others = Vec::new(alloc);
    for _ in 2..CROWD {
        others.push(client_at(rt, alloc, server, 0)?).ok()?;
    }
    let mut last = client_at(rt, alloc, server, 0)?;
    first.await_end();
    last.exchange(b"a LOGIN me secret\r\n", b"a OK ");
    leave(&mut last);
    Some(first.has_succeeded() && last.has_succeeded() && have_succeeded(&others))
}

#[test]
fn silent_clients_make_room(rt: HostRuntime) {
    let terminal = Terminal::new(rt, rt.alloc(), &[], true);
    let line = "imap_server --user me --pass secret --stop-after 129 1=127.0.0.1:0";
    assert_eq!(rt;
        serves_well(&terminal, rt.alloc(), line, Scenario::Crowd),
        Some(true)
    );
    let ends = [
        ("connection ended: made room for another\n", 1),
        ("connection ended: logout\n", 1),
        ("connection ended: closed by the client\n", 127),
    ];
    assert!(rt; are_logged(&terminal, &ends));
}

/// How many clients are refused before another one has to wait.
const REFUSED: u32 = 11;

/// Runs clients whose first LOGIN is refused at once, and after them one that logs in; true if that
/// took a second.
pub fn play_wary<R: Wait + Clock + Net<Listener = TcpListener, Stream = TcpStream>>(
    rt: &R,
    alloc: Global,
    server: &ServerState<'_>,
) -> Option<bool> {
    let began = Instant::now(rt).ok()?;
    for _ in 0..REFUSED {
        let mut client = client_at(rt, alloc, server, 0)?;
        client.exchange(b"a LOGIN me wrong\r\n", b"a NO [AUTHENTICATIONFAILED] ");
        leave(&mut client);
        if !client.has_succeeded() {
            return Some(false);
        }
    }
    let refused = began.elapsed(rt).ok()?;
    let mut last = client_at(rt, alloc, server, 0)?;
    let asked = Instant::now(rt).ok()?;
    last.exchange(b"a LOGIN me secret\r\n", b"a OK ");
    let waited = asked.elapsed(rt).ok()?;
    leave(&mut last);
    let second = Duration::from_secs(1);
    Some(last.has_succeeded() && waited >= second && refused < Duration::from_secs(11))
}

#[test]
fn logins_wait_while_others_are_refused(rt: HostRuntime) {
    let terminal = Terminal::new(rt, rt.alloc(), &[], true);
    let line = "imap_server --user me --pass secret --stop-after 12 1=127.0.0.1:0";
    assert_eq!(rt;
        serves_well(&terminal, rt.alloc(), line, Scenario::Wary),
        Some(true)
    );
}

/// How often a client sends a command before its login; each time 16 octets.
const TALKS: u32 = 4_100;

/// Runs a client that sends 65,600 octets before its login; true if the server ended it.
pub fn play_talker<R: Wait + Clock + Net<Listener = TcpListener, Stream = TcpStream>>(
    rt: &R,
    alloc: Global,
    server: &ServerState<'_>,
) -> Option<bool> {
    let mut client = client_at(rt, alloc, server, 0)?;
    for _ in 0..TALKS {
        client.send_only(b"012345678 NOOP\r\n");
    }
    client.await_end();
    Some(!client.has_received(b"a OK "))
}

#[test]
fn much_before_a_login_ends_a_connection(rt: HostRuntime) {
    let terminal = Terminal::new(rt, rt.alloc(), &[], true);
    let line = "imap_server --user me --pass secret --stop-after 1 1=127.0.0.1:0";
    assert_eq!(rt;
        serves_well(&terminal, rt.alloc(), line, Scenario::Talker),
        Some(true)
    );
    let ends = [("connection ended: too much before login\n", 1)];
    assert!(rt; are_logged(&terminal, &ends));
}

/// Runs a client that appends a message of 1,500,000 octets and one of 2,000,001; true if just the
/// first was taken.
pub fn play_large<R: Wait + Clock + Net<Listener = TcpListener, Stream = TcpStream>>(
    rt: &R,
    alloc: Global,
    server: &ServerState<'_>,
) -> Option<bool> {
    let mut client = client_at(rt, alloc, server, 0)?;
    client.exchange(b"a LOGIN me secret\r\n", b"a OK ");
    client.exchange(b"b APPEND INBOX {1500000}\r\n", b"+ ");
    for _ in 0..15_000u32 {
        client.send_only(&[b'x'; 100]);
    }
    client.exchange(b"\r\n", b"b OK [APPENDUID 1 1] ");
    client.exchange(b"c APPEND INBOX {2000001}\r\n", b"c NO [LIMIT] ");
    leave(&mut client);
    Some(client.has_succeeded())
}

#[test]
fn a_literal_limit_that_is_named_holds(rt: HostRuntime) {
    let terminal = Terminal::new(rt, rt.alloc(), &[], true);
    let line =
        "imap_server --user me --pass secret --literal-limit 2000000 --stop-after 1 1=127.0.0.1:0";
    assert_eq!(rt;
        serves_well(&terminal, rt.alloc(), line, Scenario::Large),
        Some(true)
    );
}

/// The first octets of files, and the passwords that they have.
const FILES: &[(&[u8], Option<&str>)] = &[
    (b"secret", Some("secret")),
    (b"secret\n", Some("secret")),
    (b"secret\r\nother\r\n", Some("secret")),
    (b"two words\tand more\n", Some("two words\tand more")),
    (b" \n", Some(" ")),
    (b"", None),
    (b"\n", None),
    (b"\nsecret\n", None),
    (b"\r\n", None),
    (b"\xff\n", None),
    (&[b'x'; 1_025], None),
];

#[test]
fn files_have_passwords(rt: HostRuntime) {
    let first = FILES.iter().position(|row| pass_of(row.0) != row.1);
    assert_eq!(rt; first, None);
    assert!(rt; pass_of(&[b'x'; 1_024]).is_some());
}

/// The words of a run whose password is in a file that doesn't exist.
const NO_FILE: [&[u8]; 6] = [
    b"imap_server",
    b"--user",
    b"me",
    b"--pass-file",
    b"nowhere/at/all",
    b"1=127.0.0.1:0",
];

#[test]
fn a_file_without_a_password_ends_the_run(rt: HostRuntime) {
    let terminal = Terminal::new(rt, rt.alloc(), &NO_FILE, true);
    assert_eq!(rt; run(&terminal), 1);
    assert!(rt; terminal.has_printed("cannot read pass nowhere/at/all\n"));
}
