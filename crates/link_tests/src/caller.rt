//! A caller of a replica, and its actions.

use crate::actions::{Action, HOUR, Sign, Step};
use crate::channels::{Channels, Open};
use crate::fixtures::{copies, give, open_one};
use crate::output::is_clock;
use crdt_ops::SoundOp;
use crossbeam_channel::{Receiver, unbounded};
use imap_node::Reply;
use replica_links::{LinkInput, LinkMsg, PeerMsg, ReplicaTaker, link_worker};
use replica_lock::{Gate, Outcome, Pass, Shared};
use std::alloc::{AllocError, Global};
use std::rt::Clock;
use std::sync::Wait;
use std::sync::atomic::Ordering;
use std::sync::ledger::Ledger;
use std::thread;
use std::time::Duration;

/// How many times a caller checks whether a replica applied what it should.
const TURNS: u32 = 1_000_000;

/// A replica as its callers use it.
#[derive(Drop)]
pub struct Replica<'a, L: Ledger, R: Wait> {
    /// The replica.
    pub shared: &'a Shared<L>,
    /// The links from it and to it.
    pub channels: Channels<'a, R>,
}

/// The outcomes that a caller noted.
pub struct SeenOutcomes {
    /// Its number.
    pub number: usize,
    /// Each place that it noted, with the outcome of its call.
    pub places: Vec<(u64, Outcome)>,
}

// By hand, so that its owners drop it whole.
impl Drop for SeenOutcomes {
    fn drop(self) {
        let Self {
            number: _,
            places: _,
        } = self;
    }
}

/// A caller of a replica.
pub struct Caller<L: Ledger> {
    /// The pass of its calls.
    pub pass: Pass<L>,
    /// A pass that made no call, for its link.
    spare: Option<Pass<L>>,
    /// The passes of its link, one for each time that it received messages.
    links: Vec<Pass<L>>,
    seen: SeenOutcomes,
}

// By hand, so that functions with several exits drop it whole.
impl<L: Ledger> Drop for Caller<L> {
    fn drop(self) {
        let Self {
            pass: _,
            spare: _,
            links: _,
            seen: _,
        } = self;
    }
}

/// A gate that sets `Started` when it is reached, and waits for `Over`, for `turns` turns at most.
#[derive(Drop)]
struct Until<'a, R: Wait> {
    channels: &'a Channels<'a, R>,
    turns: u64,
    saw: bool,
}

impl<'a, R: Wait> Gate for Until<'a, R> {
    fn pass(&mut self, n: u64) {
        self.channels.sign(Sign::Started).store(n, Ordering::SeqCst);
        for _ in 0..self.turns {
            if self.channels.sign(Sign::Over).load(Ordering::SeqCst) != 0 {
                self.saw = true;
                return;
            }
            thread::yield_now();
        }
    }
}

/// The operations that the last call issued.
fn issued_ops<L: Ledger>(pass: &Pass<L>) -> &[SoundOp] {
    match pass.last() {
        Some(
            Outcome::Replied {
                reply: Reply::Done { issued, .. },
            },
        ) => issued.as_slice(),
        _ => &[],
    }
}

impl<L: Ledger> Caller<L> {
    /// A caller with these passes and this number.
    pub fn new(alloc: Global, pass: Pass<L>, spare: Option<Pass<L>>, number: usize) -> Caller<L> {
        let places = Vec::new(alloc);
        Caller {
            pass,
            spare,
            links: Vec::new(alloc),
            seen: SeenOutcomes { number, places },
        }
    }

    /// Appends its passes to others, and returns what it noted.
    pub fn into_outcomes(self, passes: &mut Vec<Pass<L>>) -> SeenOutcomes {
        let Self {
            pass,
            spare,
            links,
            seen,
        } = self;
        let _ = passes.push(pass);
        if let Some(spare) = spare {
            let _ = passes.push(spare);
        }
        for link in links {
            let _ = passes.push(link);
        }
        seen
    }

    /// Does the actions of its thread.
    pub fn run<R: Wait + Clock>(self, replica: &Replica<'_, L, R>) -> Caller<L> {
        let mut caller = self;
        if let Some(actions) = replica.channels.threads.get(caller.seen.number) {
            caller.act_all(replica, actions);
        }
        caller
    }

    /// Does one action after another.
    pub fn act_all<R: Wait + Clock>(&mut self, replica: &Replica<'_, L, R>, actions: &[Action]) {
        for action in actions {
            self.act(replica, *action);
        }
    }

    /// Does one action, and reports if it couldn't be done.
    pub fn act<R: Wait + Clock>(&mut self, replica: &Replica<'_, L, R>, action: Action) {
        let done = self.do_one(replica, action).unwrap_or(false);
        if !done {
            let _ = replica
                .channels
                .report_number("not done by", self.seen.number as u64);
        }
    }

    /// Does one action, at its session or otherwise; false if it couldn't be done.
    fn do_one<R: Wait + Clock>(
        &mut self,
        replica: &Replica<'_, L, R>,
        action: Action,
    ) -> Result<bool, AllocError> {
        let (shared, rt, alloc) = (replica.shared, replica.channels.rt, replica.channels.alloc);
        match action {
            Action::Opens => {
                let opened = open_one(rt, alloc, shared, &mut self.pass);
                Ok(self.note(opened))
            }
            Action::Closes => {
                let closed = self.pass.session().is_some()
                    && shared.close(rt, alloc, &mut self.pass).is_ok();
                Ok(self.note(closed))
            }
            Action::Gives(line) => self.give(replica, line),
            Action::GivesAndSends(line) => Ok(self.give_and_send(replica, line)? > 0),
            Action::Noops => self.give_noops(replica),
            Action::Makes => self.make(replica),
            Action::Feeds => Ok(self.feed(replica)),
            _ => self.do_other(replica, action),
        }
    }

    /// Does one action that isn't done at its own session; false if it couldn't be done.
    fn do_other<R: Wait + Clock>(
        &mut self,
        replica: &Replica<'_, L, R>,
        action: Action,
    ) -> Result<bool, AllocError> {
        let (shared, channels) = (replica.shared, &replica.channels);
        match action {
            Action::Drains => Ok(
                shared
                    .drain(channels.rt, channels.alloc, &mut self.pass)
                    .is_ok(),
            ),
            Action::Holds(turns) => hold(replica, turns),
            Action::AwaitsChange(seen) => {
                channels.report_number("length", shared.wait_change(channels.rt, seen))
            }
            Action::AwaitsClock(expected) => Ok(reaches_clock(replica, expected)),
            Action::LosesPass(opens) => Ok(self.lose_pass(replica, opens)),
            Action::Asks => self.take(replica, &[], true),
            Action::Takes(steps) => self.take(replica, steps, false),
            Action::Serves(rest) => Ok(self.receive(replica, channels.messages(), false, rest)),
            _ => channels.signal(action),
        }
    }

    /// Notes the outcome of the last call, if it was made, with the place of its entry.
    fn note(&mut self, called: bool) -> bool {
        let Some(last) = self.pass.last() else {
            return false;
        };
        match last.copy() {
            Ok(copy) => called && self.seen.places.push((self.pass.seen(), copy)).is_ok(),
            Err(_) => false,
        }
    }

    /// Gives a command, and opens a session before it if there is none.
    fn give<R: Wait>(
        &mut self,
        replica: &Replica<'_, L, R>,
        line: &str,
    ) -> Result<bool, AllocError> {
        let (shared, channels) = (replica.shared, &replica.channels);
        let frame = format!(in channels.alloc; "t {line}\r\n")?;
        let is_open = self.pass.session().is_some()
            || open_one(channels.rt, channels.alloc, shared, &mut self.pass);
        Ok(
            is_open
                && give(
                    channels.rt,
                    channels.alloc,
                    shared,
                    &mut self.pass,
                    frame.as_bytes(),
                ),
        )
    }

    /// Gives a command and sends the operations that it issued, and returns their number.
    fn give_and_send<R: Wait>(
        &mut self,
        replica: &Replica<'_, L, R>,
        line: &str,
    ) -> Result<usize, AllocError> {
        if !self.give(replica, line)? {
            return Ok(0);
        }
        let channels = &replica.channels;
        let ops = copies(channels.alloc, issued_ops(&self.pass))?;
        let count = ops.len();
        let sent = channels.send(channels.peer(), LinkMsg::Ops(ops))?;
        Ok(if sent { count } else { 0 })
    }

    /// Gives a hundred NOOPs with tags of its own.
    fn give_noops<R: Wait>(&mut self, replica: &Replica<'_, L, R>) -> Result<bool, AllocError> {
        let (shared, channels) = (replica.shared, &replica.channels);
        let client = self.seen.number;
        let mut whole = true;
        for number in 0..100u8 {
            let line = format!(in channels.alloc; "c{client}n{number} NOOP\r\n")?;
            let is_given = give(
                channels.rt,
                channels.alloc,
                shared,
                &mut self.pass,
                line.as_bytes(),
            );
            whole = self.note(is_given) && whole;
        }
        Ok(whole)
    }

    /// Creates a mailbox or a message a thousand times, sends the operations, and reports their
    /// number.
    fn make<R: Wait>(&mut self, replica: &Replica<'_, L, R>) -> Result<bool, AllocError> {
        let channels = &replica.channels;
        let own = channels.own;
        let mut sent = 0u64;
        for number in 0..1_000u32 {
            let line = if number % 2 == 0 {
                format!(in channels.alloc; "CREATE m{own}n{number}")?
            } else {
                format!(in channels.alloc; "APPEND INBOX {{3}}\r\nabc")?
            };
            sent = sent.saturating_add(self.give_and_send(replica, &line)? as u64);
        }
        channels.report_number("sent", sent)
    }

    /// Polls its session after each change that may have to be sent, until the scene is over.
    fn feed<R: Wait>(&mut self, replica: &Replica<'_, L, R>) -> bool {
        let (shared, channels) = (replica.shared, &replica.channels);
        let mut seen = self.pass.seen();
        for _ in channels.rt.forever() {
            let Some(session) = self.pass.session() else {
                return false;
            };
            let Some(now) = shared.wait_session_change(channels.rt, session, seen) else {
                return false;
            };
            if channels.sign(Sign::Over).load(Ordering::SeqCst) != 0 {
                return true;
            }
            if self.pass.session().is_some() {
                let _ = shared.poll(channels.rt, channels.alloc, &mut self.pass);
            }
            seen = now;
        }
        false
    }

    /// Cuts off a pass and drops it; first opens a session with it if `opens` is true.
    fn lose_pass<R: Wait>(&mut self, replica: &Replica<'_, L, R>, opens: bool) -> bool {
        let channels = &replica.channels;
        match self.pass.cut() {
            Some(pass) => {
                let mut pass = pass;
                let done = !opens
                    || open_one(channels.rt, channels.alloc, replica.shared, &mut pass);
                drop(pass);
                done
            }
            None => false,
        }
    }

    /// Takes steps of the link to its replica, and then receives only the messages that these
    /// deliver.
    fn take<R: Wait + Clock>(
        &mut self,
        replica: &Replica<'_, L, R>,
        steps: &[Step],
        asks_first: bool,
    ) -> Result<bool, AllocError> {
        let (to, incoming) = unbounded(replica.channels.alloc)?;
        let taken = replica.channels.sift(steps, &to);
        drop(to);
        Ok(taken? && self.receive(replica, &incoming, asks_first, HOUR))
    }

    /// Has the link's worker receive messages.
    fn receive<R: Wait + Clock>(
        &mut self,
        replica: &Replica<'_, L, R>,
        messages: &Receiver<PeerMsg>,
        asks_first: bool,
        rest: u64,
    ) -> bool {
        let candidate = match self.spare.take() {
            Some(pass) => Some(pass),
            None => self.pass.cut(),
        };
        let Some(pass) = candidate else {
            return false;
        };
        if pass.session().is_some() {
            drop(pass);
            return false;
        }
        let channels = &replica.channels;
        let peers = [channels.peer()];
        let link_input = LinkInput {
            messages,
            peers: &peers,
            asks_first,
            rest: Duration::from_millis(rest),
        };
        let mut answers = Channels {
            rt: channels.rt,
            alloc: channels.alloc,
            own: channels.own,
            lines: channels.lines,
            threads: channels.threads,
        };
        let mut taker = ReplicaTaker::new(channels.rt, channels.alloc, replica.shared, pass);
        link_worker(
            channels.rt,
            &mut Open,
            &link_input,
            &mut taker,
            &mut answers,
        );
        self.links.push(taker.into_pass()).is_ok()
    }
}

/// `count` callers, one for each thread at a replica, whose passes are cut from this one.
pub fn cut_callers<L: Ledger>(alloc: Global, count: usize, first: &mut Pass<L>) -> Vec<Caller<L>> {
    let mut callers = Vec::new(alloc);
    for number in 0..count {
        if let Some((pass, spare)) = first.cut().zip(first.cut()) {
            let _ = callers.push(Caller::new(alloc, pass, Some(spare), number));
        }
    }
    callers
}

/// Holds the lock for this number of turns, or until the scene is over, and reports whether it was.
fn hold<L: Ledger, R: Wait>(replica: &Replica<'_, L, R>, turns: u64) -> Result<bool, AllocError> {
    let channels = &replica.channels;
    let mut gate = Until {
        channels,
        turns,
        saw: false,
    };
    replica.shared.hold(channels.rt, &mut gate, 1);
    channels.report_number("over meanwhile", u64::from(gate.saw))
}

/// Checks many times whether the clock of the replica is this one.
fn reaches_clock<L: Ledger, R: Wait>(replica: &Replica<'_, L, R>, expected: &str) -> bool {
    let channels = &replica.channels;
    for _ in 0..TURNS {
        if let Ok(clock) = replica.shared.clock(channels.rt, channels.alloc) {
            if is_clock(channels.alloc, &clock, expected) {
                return true;
            }
        }
        thread::yield_now();
    }
    false
}
