//! The work that a connection repeats, and its timing.

ghost use Rattle.std.specs.Prelude.{◌+◌, ◌%◌, ◌≡◌, ◌≤◌, ◌<◌};

use crate::client::{Client, Dial};
use crate::commands::{Command, MessageCommand, PlainCommand, message};
use crate::fault::BenchFault;
use crate::preparation::{LARGE, SMALL, connect_and_login};
use crate::report::Tally;
use crate::settings::Settings;
use crate::workload::Workload;
use rand::RngExt;
use rand_pcg::Pcg32;
use std::alloc::Global;
use std::rt::Clock;
use std::time::{Duration, Instant};

/// The number of NOOPs that are sent in one write.
const PIPELINED: u64 = 32;

/// The plan that the connections of a run share.
#[derive(Drop)]
pub struct WorkPlan<'a> {
    /// The workload.
    pub workload: Workload,
    /// The mailbox.
    pub mailbox: &'a str,
    /// The number of messages that the mailbox has, at least 1.
    pub messages: u32,
    /// The message that is appended.
    pub message: Vec<u8>,
    ghost some: { 0 < messages },
}

impl<'a> WorkPlan<'a> {
    /// The plan of a workload in a mailbox with `messages` messages.
    pub fn new(
        alloc: Global,
        workload: Workload,
        mailbox: &'a str,
        messages: u32,
    ) -> Result<WorkPlan<'a>, BenchFault>
        requires { 0 < messages }
    {
        let octets = match workload {
            Workload::AppendLarge => LARGE,
            _ => SMALL,
        };
        let message = message(alloc, octets)?;
        Ok(WorkPlan {
            workload,
            mailbox,
            messages,
            message,
        })
    }
}

/// Work that is repeated.
pub trait Work {
    /// Does the work once more; turns are numbered from 0.
    fn turn(&mut self, number: u64) -> Result<(), BenchFault>;

    /// Ends the work.
    fn end(&mut self) -> Result<(), BenchFault>;
}

/// The moment now.
pub fn now<R: Clock>(rt: &R) -> Result<Instant, BenchFault> {
    match Instant::now(rt) {
        Ok(now) => Ok(now),
        Err(_) => Err(BenchFault::Clock),
    }
}

/// The time that has passed since a moment.
pub fn since<R: Clock>(rt: &R, start: Instant) -> Result<Duration, BenchFault> {
    match Instant::now(rt) {
        Ok(now) => Ok(now.duration_since(start)),
        Err(_) => Err(BenchFault::Clock),
    }
}

/// Repeats work for a number of seconds, but at least once, ends it, and returns the tally. Each
/// turn counts as `commands` commands.
pub fn work_for<R: Clock, W: Work + Drop>(
    rt: &R,
    alloc: Global,
    seconds: u32,
    commands: u64,
    mut work: W,
) -> Result<Tally, BenchFault> {
    let mut tally = Tally::new(alloc);
    drive(rt, seconds, commands, &mut work, &mut tally)?;
    Ok(tally)
}

/// Repeats work as `work_for` does, and adds each turn to a tally.
fn drive<R: Clock, W: Work>(
    rt: &R,
    seconds: u32,
    commands: u64,
    work: &mut W,
    tally: &mut Tally,
) -> Result<(), BenchFault> {
    let start = now(rt)?;
    let mut before = start;
    for number in 0..u64::MAX {
        work.turn(number)?;
        let after = now(rt)?;
        tally.note(commands, after.duration_since(before))?;
        if after.duration_since(start).as_secs() >= u64::from(seconds) {
            break;
        }
        before = after;
    }
    work.end()
}

/// The work of a connection that stays open, with the mailbox selected.
#[derive(Drop)]
pub struct MailboxWork<'a> {
    /// The connection.
    pub client: Client,
    /// The plan of the run.
    pub plan: &'a WorkPlan<'a>,
    /// The place among all messages at which the connection begins.
    pub first: u32,
    /// Draws the commands of a mix, and their messages.
    pub chance: Pcg32,
}

impl Work for MailboxWork<'_> {
    fn turn(&mut self, number: u64) -> Result<(), BenchFault> {
        match self.plan.workload {
            Workload::NoopPipelined => self.client.run_noops(PIPELINED),
            Workload::Mixed => self.mixed(number),
            workload => self.one(workload, number),
        }
    }

    fn end(&mut self) -> Result<(), BenchFault> {
        self.client.logout()
    }
}

/// The number of commands in one turn of a workload.
pub fn commands_of(workload: Workload) -> u64 {
    match workload {
        Workload::NoopPipelined => PIPELINED,
        _ => 1,
    }
}

impl MailboxWork<'_> {
    /// One command of a workload.
    fn one(&mut self, workload: Workload, number: u64) -> Result<(), BenchFault> {
        let ask = match workload {
            Workload::AppendSmall | Workload::AppendLarge | Workload::IdleFanOut => {
                return self.client.append(self.plan.mailbox, &self.plan.message);
            }
            Workload::FetchBody => return self.ask(MessageCommand::FetchBody, number),
            Workload::Store => return self.ask(store_command(number), number / 2),
            Workload::FetchFlags => PlainCommand::FetchAllFlags,
            Workload::SearchUnseen => PlainCommand::SearchUnseen,
            Workload::SearchSubject => PlainCommand::SearchSubject,
            _ => PlainCommand::Noop,
        };
        self.client.run(Command::Plain(ask))
    }

    /// A command drawn at random: of 100, in the mean, 10 are NOOP, 5 FETCH all flags, 40 fetch a
    /// body, 25 are STORE, 5 SEARCH UNSEEN and 15 APPEND.
    fn mixed(&mut self, number: u64) -> Result<(), BenchFault> {
        let message = u64::from(self.chance.random_range(0..self.plan.messages));
        match self.chance.random_range(0..100u32) {
            0..=9 => self.one(Workload::Noop, number),
            10..=14 => self.one(Workload::FetchFlags, number),
            15..=54 => self.ask(MessageCommand::FetchBody, message),
            55..=79 => self.ask(store_command(number), message),
            80..=84 => self.one(Workload::SearchUnseen, number),
            _ => self.one(Workload::AppendSmall, number),
        }
    }

    /// Runs a command on the message of the turn with this number.
    fn ask(&mut self, ask: MessageCommand, number: u64) -> Result<(), BenchFault> {
        let number = message_at(self.first, number, self.plan.messages);
        self.client.run(Command::Message { ask, number })
    }
}

/// The flag is set and cleared in turn.
fn store_command(number: u64) -> MessageCommand {
    if number % 2 == 0 {
        MessageCommand::Flag
    } else {
        MessageCommand::Unflag
    }
}

/// The number of the message for a turn, from 1 to `messages`: turns go round all messages,
/// beginning at a place.
fn message_at(first: u32, number: u64, messages: u32) -> u32
    requires { 0 < messages }
    ensures { (0 < result) × (result ≤ messages) }
{
    let messages = u64::from(messages);
    let place = (number % messages + u64::from(first)) % messages;
    (place + 1) as u32
}

/// The work of a client that connects, logs in and logs out in each turn.
#[derive(Drop)]
pub struct LoginWork<'a, R: Dial> {
    /// The network.
    pub rt: &'a R,
    /// The memory.
    pub alloc: Global,
    /// The login and the server's address.
    pub settings: &'a Settings<'a>,
}

impl<R: Dial> Work for LoginWork<'_, R> {
    fn turn(&mut self, _number: u64) -> Result<(), BenchFault> {
        let mut client = connect_and_login(
            self.rt,
            self.alloc,
            self.settings,
            self.settings.address,
        )?;
        client.logout()
    }

    fn end(&mut self) -> Result<(), BenchFault> {
        Ok(())
    }
}
