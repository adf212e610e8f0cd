//! Servers over sockets: clients at one replica that learn of what others do at another; replicas
//! that join; logins; the server's clock; and a client that reads late.

use crate::scenarios::Scenario;
use log::Log;
use server_runtime::{CommandLine, ReplicaEnd, open_all, read_settings, serve};
use std::alloc::{AllocError, Global};
use std::fs::File;
use std::net::{Net, TcpListener, TcpStream};
use std::rt::{Clock, Files};
use std::sync::Wait;
use std::test::*;
use std::thread;
use std::thread::Threads;

/// Serves as these settings ask while clients connect; true if the server ended well and the
/// clients received the expected answers.
fn scenario_passes<
    R: Threads
        + Wait
        + Clock
        + Log
        + Print
        + Sync
        + Files<File = File>
        + Net<Listener = TcpListener, Stream = TcpStream>,
>(rt: &R, alloc: Global, settings: &CommandLine<'_>, scenario: Scenario) -> Option<bool> {
    let (server, parts) = open_all(rt, alloc, settings, settings.access.with_pass("")).ok()?;
    let (scenario_passes, whole) = thread::join(
        rt,
        || scenario.play(rt, alloc, &server),
        || are_whole(serve(rt, alloc, &server, parts)),
    );
    Some(whole && scenario_passes == Some(true))
}

/// Whether each replica that ran returned its whole journal.
fn are_whole(ends: Option<Vec<ReplicaEnd>>) -> bool {
    match ends {
        Some(ends) => ends.iter().all(ReplicaEnd::is_whole),
        None => false,
    }
}

/// The words of a command line, cut at spaces.
fn words_of(alloc: Global, line: &str) -> Result<Vec<String>, AllocError> {
    let mut words = Vec::new(alloc);
    for word in line.split(' ') {
        words.push(String::from_str(alloc, word)?)?;
    }
    Ok(words)
}

/// Serves as this command line asks while clients connect; true if the server ended well and the
/// clients received the expected answers.
pub fn serves_well<
    R: Threads
        + Wait
        + Clock
        + Log
        + Print
        + Sync
        + Files<File = File>
        + Net<Listener = TcpListener, Stream = TcpStream>,
>(rt: &R, alloc: Global, line: &str, scenario: Scenario) -> Option<bool> {
    let words = words_of(alloc, line).ok()?;
    match read_settings(alloc, &words) {
        Ok(settings) => scenario_passes(rt, alloc, &settings, scenario),
        Err(_) => None,
    }
}

#[test]
fn replicas_serve_over_sockets(rt: HostRuntime) {
    let line = "imap_server --preauth --stop-after 3 1=127.0.0.1:0 2=127.0.0.1:0";
    assert_eq!(rt;
        serves_well(&rt, rt.alloc(), line, Scenario::Two),
        Some(true)
    );
}

#[test]
fn a_replica_joins_when_the_first_connection_has_ended(rt: HostRuntime) {
    let line =
        "imap_server --preauth --stop-after 3 --join 3=127.0.0.1:0/1 1=127.0.0.1:0 2=127.0.0.1:0";
    assert_eq!(rt;
        serves_well(&rt, rt.alloc(), line, Scenario::Three),
        Some(true)
    );
}

/// Serves one replica while another can't join, since its address is taken; true if the server
/// ended well and the clients received the expected answers.
fn serves_alone<
    R: Threads
        + Wait
        + Clock
        + Log
        + Print
        + Sync
        + Files<File = File>
        + Net<Listener = TcpListener, Stream = TcpStream>,
>(rt: &R, alloc: Global) -> Option<bool> {
    let taken = TcpListener::bind(rt, "127.0.0.1:0").ok()?;
    let address = taken.local_addr().ok()?;
    let line = format!(in alloc;
        "imap_server --preauth --stop-after 2 --join 2={address}/1 1=127.0.0.1:0"
    ).ok()?;
    let fine = serves_well(rt, alloc, &line, Scenario::FailedJoin);
    drop(taken);
    fine
}

#[test]
fn the_run_continues_if_a_replica_cannot_join(rt: HostRuntime) {
    assert_eq!(rt; serves_alone(&rt, rt.alloc()), Some(true));
}

#[test]
fn nobody_logs_in_without_user_and_password(rt: HostRuntime) {
    let line = "imap_server --user me --pass secret --stop-after 1 1=127.0.0.1:0";
    assert_eq!(rt;
        serves_well(&rt, rt.alloc(), line, Scenario::Password),
        Some(true)
    );
}

#[test]
fn messages_are_dated_by_the_clock(rt: HostRuntime) {
    let line = "imap_server --preauth --stop-after 1 1=127.0.0.1:0";
    assert_eq!(rt;
        serves_well(&rt, rt.alloc(), line, Scenario::Clock),
        Some(true)
    );
}

#[test]
fn a_quick_client_that_reads_late_receives_everything(rt: HostRuntime) {
    let line = "imap_server --preauth --stop-after 1 1=127.0.0.1:0";
    assert_eq!(rt;
        serves_well(&rt, rt.alloc(), line, Scenario::Late),
        Some(true)
    );
}

/// The words of a server with a store.
const STORED: &str =
    "imap_server --preauth --stop-after 1 --store mail 1=127.0.0.1:0 2=127.0.0.1:0";

#[test]
fn mail_outlives_the_server(rt: HostRuntime) {
    assert_eq!(rt;
        serves_well(&rt, rt.alloc(), STORED, Scenario::Keep),
        Some(true)
    );
    assert_eq!(rt;
        serves_well(&rt, rt.alloc(), STORED, Scenario::Kept),
        Some(true)
    );
}
