//! The results of a run.

ghost use Rattle.std.specs.Prelude.{◌≡◌};
ghost use Rattle.mail_bench.specs.Times.{rate};

use crate::fault::BenchFault;
use crate::times::{MAX_TIMES, Summary, summarize};
use std::alloc::Global;
use std::time::Duration;

/// The tally of one connection.
#[derive(Drop)]
pub struct Tally {
    /// The number of commands that were answered.
    pub commands: u64,
    /// The times that the commands took, in microseconds; commands that were sent together have one
    /// time.
    pub times: Vec<u64>,
}

impl Tally {
    /// An empty tally.
    pub fn new(alloc: Global) -> Tally {
        Tally {
            commands: 0,
            times: Vec::new(alloc),
        }
    }

    /// Adds a number of commands that took this time together.
    pub fn note(&mut self, commands: u64, took: Duration) -> Result<(), BenchFault> {
        self.commands = self.commands.saturating_add(commands);
        self.times.push(micros(took))?;
        Ok(())
    }

    /// Adds the tally of another connection.
    pub fn add(&mut self, mut other: Tally) -> Result<(), BenchFault> {
        self.commands = self.commands.saturating_add(other.commands);
        self.times.append(&mut other.times)?;
        Ok(())
    }
}

/// A time in microseconds, at most the greatest number of 64 bits.
pub fn micros(time: Duration) -> u64 {
    u64::try_from(time.as_micros()).unwrap_or(u64::MAX)
}

/// The result of a run, which is one line of the output.
#[derive(Clone, Copy)]
pub struct Report {
    /// The number of connections that worked.
    pub connections: u32,
    /// The number of messages that the mailbox had at the beginning.
    pub messages: u32,
    /// The number of commands that were answered.
    pub commands: u64,
    /// The duration of the run, in microseconds.
    pub micros: u64,
    /// The summary of the times, in microseconds; `None` if there are none.
    pub summary: Option<Summary>,
}

impl Report {
    /// The report of `connections` connections over `messages` messages.
    pub fn of(
        connections: u32,
        messages: u32,
        took: Duration,
        mut tally: Tally,
    ) -> Result<Report, BenchFault> {
        if tally.times.len() > MAX_TIMES {
            tally.times.truncate(MAX_TIMES);
        }
        let summary = summarize(&mut tally.times)?;
        Ok(Report {
            connections,
            messages,
            commands: tally.commands,
            micros: micros(took),
            summary,
        })
    }

    /// The number of commands per second; 0 if no microsecond passed.
    pub fn rate(&self) -> u64
        ensures { result ≡ rate self.now.commands self.now.micros }
    {
        if self.micros == 0 {
            return 0;
        }
        self.commands.saturating_mul(1_000_000) / self.micros
    }
}
