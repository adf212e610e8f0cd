//! The program: what its command line asks for, and the status with which it ends.

use crate::bench_output::{print_fault, settings_or_status};
use crate::client::Dial;
use crate::fault::BenchFault;
use crate::idling::{IDLING_CLIENTS, LISTENERS, fan_out, measure_beside_idling};
use crate::measurement::{measure, measure_logins};
use crate::preparation::prepare;
use crate::report::Report;
use crate::settings::Settings;
use crate::times::Summary;
use crate::work::WorkPlan;
use crate::workload::Workload;
use std::alloc::Global;
use std::io::Eprint;
use std::rt::{Clock, Env};
use std::sync::Wait;
use std::thread::Threads;
use std::{env, io};

/// Reads the command line, measures what it asks for, prints a line for each measurement, and
/// returns the program's status: 0 if everything was measured or help was asked for; 1 if the run
/// ended early, which is reported on standard error; 2 if the command line is wrong.
pub fn run<R: Env + Print + Eprint + AllocGlobal + Threads + Wait + Clock + Sync + Dial>(
    rt: &R,
) -> u8 {
    match words(rt) {
        Ok(words) => run_words(rt, &words),
        Err(_) => print_fault(rt, BenchFault::NoMemory),
    }
}

fn words<R: Env + AllocGlobal>(rt: &R) -> io::Result<Vec<String>> {
    let words = env::args(rt)?.collect(rt.alloc())?;
    Ok(words)
}

fn run_words<R: Print + Eprint + AllocGlobal + Threads + Wait + Clock + Sync + Dial>(
    rt: &R,
    words: &[String],
) -> u8 {
    let settings = match settings_or_status(rt, words) {
        Ok(settings) => settings,
        Err(status) => return status,
    };
    match bench(rt, rt.alloc(), &settings) {
        Ok(()) => 0,
        Err(fault) => print_fault(rt, fault),
    }
}

/// Prepares the mailbox, and measures.
fn bench<R: Print + Threads + Wait + Clock + Sync + Dial>(
    rt: &R,
    alloc: Global,
    settings: &Settings<'_>,
) -> Result<(), BenchFault> {
    let messages = prepare(rt, alloc, settings)?;
    if messages == 0 {
        return Err(BenchFault::Missing);
    }
    let plan = WorkPlan::new(alloc, settings.workload, settings.mailbox, messages)?;
    match settings.workload {
        Workload::NoopBesideIdle => measure_beside(rt, alloc, settings, &plan),
        workload => measure_one(rt, alloc, settings, &plan, workload),
    }
}

/// Measures a workload that has one line of output.
fn measure_one<R: Print + Threads + Wait + Clock + Sync + Dial>(
    rt: &R,
    alloc: Global,
    settings: &Settings<'_>,
    plan: &WorkPlan<'_>,
    workload: Workload,
) -> Result<(), BenchFault> {
    let (idling, measured) = match workload {
        Workload::Login => (0, measure_logins(rt, alloc, settings, plan.messages)),
        Workload::IdleFanOut => (LISTENERS, fan_out(rt, alloc, settings, plan)),
        _ => (0, measure(rt, alloc, settings, plan, settings.connections)),
    };
    print_report(rt, workload, idling, &measured?)
}

/// Measures NOOPs by themselves, and then while other connections idle.
fn measure_beside<R: Print + Threads + Wait + Clock + Sync + Dial>(
    rt: &R,
    alloc: Global,
    settings: &Settings<'_>,
    plan: &WorkPlan<'_>,
) -> Result<(), BenchFault> {
    let (alone, beside) = measure_beside_idling(rt, alloc, settings, plan)?;
    print_report(rt, settings.workload, 0, &alone)?;
    print_report(rt, settings.workload, IDLING_CLIENTS, &beside)
}

/// Prints the line of a measurement during which `idling` connections idled.
fn print_report<R: Print>(
    rt: &R,
    workload: Workload,
    idling: u32,
    report: &Report,
) -> Result<(), BenchFault> {
    let Some(times) = report.summary else {
        return Err(BenchFault::Missing);
    };
    match print_times(rt, workload, idling, report, times) {
        Ok(()) => Ok(()),
        Err(_) => Err(BenchFault::Print),
    }
}

fn print_times<R: Print>(
    rt: &R,
    workload: Workload,
    idling: u32,
    report: &Report,
    times: Summary,
) -> io::Result<()> {
    print_setting(rt, workload, idling, report)?;
    print_work(rt, report)?;
    print_summary(rt, times)
}

fn print_setting<R: Print>(
    rt: &R,
    workload: Workload,
    idling: u32,
    report: &Report,
) -> io::Result<()> {
    let Report {
        connections,
        messages,
        ..
    } = *report;
    print!(rt; "{workload} connections={connections} idling={idling} messages={messages}")
}

fn print_work<R: Print>(rt: &R, report: &Report) -> io::Result<()> {
    let Report {
        commands,
        micros,
        ..
    } = *report;
    let seconds = micros / 1_000_000;
    let thousandths = micros % 1_000_000 / 1_000;
    let rate = report.rate();
    print!(rt; " commands={commands} seconds={seconds}.{thousandths:03} per_second={rate}")
}

fn print_summary<R: Print>(rt: &R, times: Summary) -> io::Result<()> {
    let Summary {
        least,
        median,
        ninetieth,
        ninety_ninth,
        greatest,
    } = times;
    println!(rt;
        " least={least} median={median} p90={ninetieth} p99={ninety_ninth} greatest={greatest}"
    )
}
