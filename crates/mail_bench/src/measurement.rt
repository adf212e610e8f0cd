//! Connections that work side by side, each in a thread of its own.

use crate::client::Dial;
use crate::fault::BenchFault;
use crate::preparation::connect_and_select;
use crate::report::{Report, Tally};
use crate::settings::Settings;
use crate::work::{LoginWork, MailboxWork, Work, WorkPlan, commands_of, now, since, work_for};
use rand_pcg::Pcg32;
use std::alloc::Global;
use std::rt::Clock;
use std::thread;
use std::thread::Threads;

/// The work of `count` connections that have the mailbox selected.
fn mailbox_works<'a, R: Dial>(
    rt: &R,
    alloc: Global,
    settings: &Settings<'_>,
    plan: &'a WorkPlan<'a>,
    count: u32,
) -> Result<Vec<MailboxWork<'a>>, BenchFault> {
    let mut mailbox_works = Vec::new(alloc);
    for place in 0..count {
        let client = connect_and_select(rt, alloc, settings)?;
        let first = place.saturating_mul(plan.messages / count);
        mailbox_works.push(MailboxWork {
            client,
            plan,
            first,
            chance: Pcg32::new(u64::from(place), 0),
        })?;
    }
    Ok(mailbox_works)
}

/// Has `connections` connections work by a plan for as long as the settings say, and returns their
/// report.
pub fn measure<R: Threads + Clock + Sync + Dial>(
    rt: &R,
    alloc: Global,
    settings: &Settings<'_>,
    plan: &WorkPlan<'_>,
    connections: u32,
) -> Result<Report, BenchFault> {
    let mailbox_works = mailbox_works(rt, alloc, settings, plan, connections)?;
    let commands = commands_of(plan.workload);
    run_in_parallel(
        rt,
        alloc,
        settings.seconds,
        commands,
        plan.messages,
        mailbox_works,
    )
}

/// Has clients connect and log out over and over for as long as the settings say, and returns their
/// report.
pub fn measure_logins<'a, R: Threads + Clock + Sync + Dial>(
    rt: &'a R,
    alloc: Global,
    settings: &'a Settings<'a>,
    messages: u32,
) -> Result<Report, BenchFault> {
    let mut logins = Vec::new(alloc);
    for _ in 0..settings.connections {
        logins.push(LoginWork {
            rt,
            alloc,
            settings,
        })?;
    }
    run_in_parallel(rt, alloc, settings.seconds, 1, messages, logins)
}

/// Has each connection's work repeated in a thread of its own, for `seconds` seconds and with
/// `commands` commands a turn, over `messages` messages, and returns the connections' report.
fn run_in_parallel<R: Threads + Clock + Sync, W: Work + Send + Drop>(
    rt: &R,
    alloc: Global,
    seconds: u32,
    commands: u64,
    messages: u32,
    works: Vec<W>,
) -> Result<Report, BenchFault> {
    let connections = u32::try_from(works.len()).unwrap_or(u32::MAX);
    let start = now(rt)?;
    let tallies = thread::map_vec(
        rt,
        works,
        &|work: W| work_for(rt, alloc, seconds, commands, work),
    )?;
    let took = since(rt, start)?;
    let tally = sum(alloc, tallies)?;
    Report::of(connections, messages, took, tally)
}

/// The sum of all tallies; `Err` with the first fault, if any.
fn sum(alloc: Global, tallies: Vec<Result<Tally, BenchFault>>) -> Result<Tally, BenchFault> {
    let mut sum = Tally::new(alloc);
    for tally in tallies {
        sum.add(tally?)?;
    }
    Ok(sum)
}
