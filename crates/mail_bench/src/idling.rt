//! Idling connections (RFC 2177): how long a message takes to reach all of them, and what they cost
//! others.

use crate::client::{Client, Dial};
use crate::fault::BenchFault;
use crate::idle_state::SharedIdleState;
use crate::measurement::measure;
use crate::preparation::{connect_and_login, connect_and_select, connect_and_select_when};
use crate::report::{Report, Tally};
use crate::settings::Settings;
use crate::work::{WorkPlan, now, since};
use crate::workload::Workload;
use std::alloc::Global;
use std::rt::Clock;
use std::sync::Wait;
use std::thread;
use std::thread::Threads;
use std::time::Duration;

/// The number of connections that receive each message.
pub const LISTENERS: u32 = 32;

/// The number of connections that idle while another is measured.
pub const IDLING_CLIENTS: u32 = 400;

/// The largest number of messages that are sent.
const MAX_ROUNDS: u32 = 10_000_000;

/// Measures how long a message takes from its last octet until each of 32 connections was sent its
/// EXISTS: APPENDs one after another, each once all connections received the last.
pub fn fan_out<R: Threads + Wait + Clock + Sync + Dial>(
    rt: &R,
    alloc: Global,
    settings: &Settings<'_>,
    plan: &WorkPlan<'_>,
) -> Result<Report, BenchFault> {
    let listeners = listeners(rt, alloc, settings, plan.messages)?;
    let mut sender = connect_and_login(rt, alloc, settings, settings.address)?;
    let (tally, took) = send_and_listen(rt, alloc, settings.seconds, plan, listeners, &mut sender)?;
    Report::of(1, plan.messages, took, tally)
}

/// The 32 connections that have the mailbox selected, once it has `messages` messages.
fn listeners<R: Clock + Dial>(
    rt: &R,
    alloc: Global,
    settings: &Settings<'_>,
    messages: u32,
) -> Result<Vec<Client>, BenchFault> {
    let address = settings.second.unwrap_or(settings.address);
    let mut listeners = Vec::new(alloc);
    for _ in 0..LISTENERS {
        let client = connect_and_select_when(rt, alloc, settings, address, messages)?;
        listeners.push(client)?;
    }
    Ok(listeners)
}

/// Has one connection send messages for `seconds` seconds while the others listen; returns the
/// tally of the messages, and how long it took.
fn send_and_listen<R: Threads + Wait + Clock + Sync>(
    rt: &R,
    alloc: Global,
    seconds: u32,
    plan: &WorkPlan<'_>,
    listeners: Vec<Client>,
    sender: &mut Client,
) -> Result<(Tally, Duration), BenchFault> {
    let shared = SharedIdleState::new(alloc, listeners.len());
    let (sent, received) = thread::join(
        rt,
        || send_all(rt, alloc, seconds, plan, &shared, sender),
        || thread::map_vec(
            rt,
            listeners,
            &|client: Client| listen(rt, &shared, plan.messages, client),
        ),
    );
    first_fault(received?)?;
    sent
}

/// `Err` with the first fault of the idling connections, if any.
fn first_fault(ends: Vec<Result<(), BenchFault>>) -> Result<(), BenchFault> {
    for end in ends {
        end?;
    }
    Ok(())
}

/// Sends messages for `seconds` seconds, but at least one, once all connections idle; returns the
/// tally, and how long it took.
fn send_all<R: Wait + Clock>(
    rt: &R,
    alloc: Global,
    seconds: u32,
    plan: &WorkPlan<'_>,
    shared: &SharedIdleState,
    sender: &mut Client,
) -> Result<(Tally, Duration), BenchFault> {
    let mut tally = Tally::new(alloc);
    let took = send_for(rt, seconds, plan, shared, sender, &mut tally)?;
    Ok((tally, took))
}

/// Sends messages as `send_all` does, adds them to a tally, and returns how long it took.
fn send_for<R: Wait + Clock>(
    rt: &R,
    seconds: u32,
    plan: &WorkPlan<'_>,
    shared: &SharedIdleState,
    sender: &mut Client,
    tally: &mut Tally,
) -> Result<Duration, BenchFault> {
    shared.await_all(rt)?;
    let start = now(rt)?;
    for _ in 0..MAX_ROUNDS {
        let is_last = since(rt, start)?.as_secs() >= u64::from(seconds);
        shared.begin(rt, is_last);
        send_one(rt, plan, shared, sender, tally)?;
        if is_last {
            break;
        }
    }
    since(rt, start)
}

/// Sends a message, and notes how long each connection took to receive it.
fn send_one<R: Wait + Clock>(
    rt: &R,
    plan: &WorkPlan<'_>,
    shared: &SharedIdleState,
    sender: &mut Client,
    tally: &mut Tally,
) -> Result<(), BenchFault> {
    let number = sender.begin_append(plan.mailbox, plan.message.len())?;
    let sent = now(rt)?;
    sender.finish(&plan.message, number)?;
    shared.await_all(rt)?;
    tally.commands = tally.commands.saturating_add(1);
    shared.add_times(rt, sent, tally)
}

/// Idles, and notes when it receives each message after the first `messages`, until the last.
fn listen<R: Wait + Clock>(
    rt: &R,
    shared: &SharedIdleState,
    messages: u32,
    mut client: Client,
) -> Result<(), BenchFault> {
    let ended = listen_to_all(rt, shared, messages, &mut client);
    if let Err(fault) = ended {
        shared.fail(rt, fault);
    }
    ended
}

fn listen_to_all<R: Wait + Clock>(
    rt: &R,
    shared: &SharedIdleState,
    messages: u32,
    client: &mut Client,
) -> Result<(), BenchFault> {
    let number = client.idle()?;
    receive_all(rt, shared, messages, number, client)?;
    client.logout()
}

/// Receives each message until the last, and ends the IDLE command with this number.
fn receive_all<R: Wait + Clock>(
    rt: &R,
    shared: &SharedIdleState,
    messages: u32,
    number: u64,
    client: &mut Client,
) -> Result<(), BenchFault> {
    for round in 0..MAX_ROUNDS {
        if shared.note_now(rt)? {
            break;
        }
        client.await_messages(messages.saturating_add(round + 1))?;
    }
    client.done(number)
}

/// Measures the NOOPs of one connection by itself, and then while 400 connections idle in the
/// same mailbox.
pub fn measure_beside_idling<R: Threads + Clock + Sync + Dial>(
    rt: &R,
    alloc: Global,
    settings: &Settings<'_>,
    plan: &WorkPlan<'_>,
) -> Result<(Report, Report), BenchFault> {
    let alone = measure(rt, alloc, settings, plan, 1)?;
    let _idling_clients = idling_clients(rt, alloc, settings)?;
    let beside = measure(rt, alloc, settings, plan, 1)?;
    Ok((alone, beside))
}

/// 400 connections that idle in the mailbox.
fn idling_clients<R: Dial>(
    rt: &R,
    alloc: Global,
    settings: &Settings<'_>,
) -> Result<Vec<Client>, BenchFault> {
    let mut idling_clients = Vec::new(alloc);
    for _ in 0..IDLING_CLIENTS {
        let client = idling_client(rt, alloc, settings)?;
        idling_clients.push(client)?;
    }
    Ok(idling_clients)
}

fn idling_client<R: Dial>(
    rt: &R,
    alloc: Global,
    settings: &Settings<'_>,
) -> Result<Client, BenchFault> {
    let mut client = connect_and_select(rt, alloc, settings)?;
    client.idle()?;
    Ok(client)
}
