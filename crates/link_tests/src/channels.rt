//! Channels between two replicas and between their callers.

use crate::actions::{Action, Sign, Step};
use crate::fixtures::{copies, operations};
use crate::output::{all_lines, message_line};
use crdt_ops::SoundOp;
use crossbeam_channel::{Receiver, Sender, unbounded};
use replica_links::{Gate, LinkMsg, PeerLinks, PeerMsg};
use std::alloc::{AllocError, Global};
use std::sync::Wait;
use std::sync::atomic::{AtomicU64, Ordering};
use std::thread;
use tags_clocks::Clock;

/// The number of turns for which other threads may run.
const YIELDS: u32 = 100_000;

/// A gate that is always open.
#[derive(Drop)]
pub struct Open;

impl Gate for Open {
    fn pass(&mut self, _n: u64) {}
}

/// The channels to two replicas, and the reports of their callers.
pub struct Lines {
    /// The sender to each replica, by place.
    links: Vec<Sender<PeerMsg>>,
    /// The messages to the first replica.
    first: Receiver<PeerMsg>,
    /// The messages to the second replica.
    second: Receiver<PeerMsg>,
    /// The sender of the callers' reports.
    reports: Sender<String>,
    /// The reports, a line each.
    lines: Receiver<String>,
    started: AtomicU64,
    over: AtomicU64,
    /// Whether each message is reported.
    reports_messages: bool,
}

// By hand, so that functions with several exits drop it whole.
impl Drop for Lines {
    fn drop(self) {
        let Self {
            links: _,
            first: _,
            second: _,
            reports: _,
            lines: _,
            started: _,
            over: _,
            reports_messages: _,
        } = self;
    }
}

impl Lines {
    /// New channels; `reports_messages` says whether each message is reported. `Err` if memory runs
    /// out.
    pub fn new(alloc: Global, reports_messages: bool) -> Result<Lines, AllocError> {
        let mut links = Vec::new(alloc);
        let (to, first) = unbounded(alloc)?;
        links.push(to)?;
        let (to, second) = unbounded(alloc)?;
        links.push(to)?;
        let (reports, lines) = unbounded(alloc)?;
        Ok(Lines {
            links,
            first,
            second,
            reports,
            lines,
            started: AtomicU64::new(0),
            over: AtomicU64::new(0),
            reports_messages,
        })
    }

    /// The reports so far, a line each.
    pub fn output<R: Wait>(&self, rt: &R, alloc: Global) -> Result<String, AllocError> {
        all_lines(rt, alloc, &self.lines)
    }
}

/// The links from the replica at one of two places to both, and to the other callers.
#[derive(Drop)]
pub struct Channels<'a, R: Wait> {
    /// The handle that waits.
    pub rt: &'a R,
    /// The allocator.
    pub alloc: Global,
    /// The place of the sender.
    pub own: usize,
    /// The channels.
    pub lines: &'a Lines,
    /// The actions of each caller of this replica, in a thread of its own.
    pub threads: &'static [&'static [Action]],
}

impl<'a, R: Wait> Channels<'a, R> {
    /// The place of the other replica.
    pub fn peer(&self) -> usize {
        if self.own == 0 { 1 } else { 0 }
    }

    /// The messages to the sender's own replica.
    pub fn messages(&self) -> &'a Receiver<PeerMsg> {
        if self.own == 0 {
            &self.lines.first
        } else {
            &self.lines.second
        }
    }

    /// Reports a number, on a line that names it; false if the line can't be sent.
    pub fn report_number(&self, what: &str, number: u64) -> Result<bool, AllocError> {
        let line = format!(in self.alloc; "{what} {number}\n")?;
        Ok(self.lines.reports.send(self.rt, line).is_ok())
    }

    /// Sends a message to the replica at a place, and reports it if messages are reported; false if
    /// no replica takes it.
    pub fn send(&self, to: usize, message: LinkMsg) -> Result<bool, AllocError> {
        let output = if self.lines.reports_messages {
            message_line(self.alloc, self.own, to, &message)
        } else {
            Ok(String::new(self.alloc))
        };
        let peer_msg = PeerMsg {
            from: self.own,
            message,
        };
        let sent = self.put(to, peer_msg);
        Ok(self.lines.reports.send(self.rt, output?).is_ok() && sent)
    }

    /// Puts a message into the channel to the replica at a place; false if there is none.
    fn put(&self, to: usize, peer_msg: PeerMsg) -> bool {
        match self.lines.links.get(to) {
            Some(link) => link.send(self.rt, peer_msg).is_ok(),
            None => {
                drop(peer_msg);
                false
            }
        }
    }

    /// Does an action that calls no replica; false if it can't be done.
    pub fn signal(&self, action: Action) -> Result<bool, AllocError> {
        match action {
            Action::Forges(line) => match operations(self.alloc, &[line]) {
                Some(ops) => self.send(self.peer(), LinkMsg::Ops(ops)),
                None => Ok(false),
            },
            Action::Stops(place) => self.send(place, LinkMsg::Stop),
            Action::Raises(sign) => {
                self.sign(sign).fetch_add(1, Ordering::SeqCst);
                Ok(true)
            }
            Action::Awaits(sign, count) => {
                self.await_sign(sign, count);
                Ok(true)
            }
            Action::Looks(sign) => {
                self.report_number("sign", self.sign(sign).load(Ordering::SeqCst))
            }
            Action::Yields => {
                for _ in 0..YIELDS {
                    thread::yield_now();
                }
                Ok(true)
            }
            _ => Ok(false),
        }
    }

    /// The counter of a sign.
    pub fn sign(&self, sign: Sign) -> &'a AtomicU64 {
        match sign {
            Sign::Started => &self.lines.started,
            Sign::Over => &self.lines.over,
        }
    }

    /// Waits until a counter has this value.
    fn await_sign(&self, sign: Sign, count: u64) {
        for _ in self.rt.forever() {
            if self.sign(sign).load(Ordering::SeqCst) == count {
                return;
            }
            thread::yield_now();
        }
    }

    /// Takes steps of the link to this replica, one after another, and sends the delivered messages
    /// into a channel; other messages stay on the link. False if a step names no message.
    pub fn sift(&self, steps: &[Step], to: &Sender<PeerMsg>) -> Result<bool, AllocError> {
        let mut messages = Vec::new(self.alloc);
        for _ in 0..self.messages().len() {
            if let Ok(peer_msg) = self.messages().try_recv(self.rt) {
                let _ = messages.push(peer_msg);
            }
        }
        let taken = self.take_steps(steps, &mut messages, to);
        for peer_msg in messages {
            let _ = self.put(self.own, peer_msg);
        }
        taken
    }

    fn take_steps(
        &self,
        steps: &[Step],
        messages: &mut Vec<PeerMsg>,
        to: &Sender<PeerMsg>,
    ) -> Result<bool, AllocError> {
        for step in steps {
            let place = step.place();
            if place >= messages.len() {
                return Ok(false);
            }
            let peer_msg = messages.remove(place);
            match step {
                Step::Pass(_) => {
                    let _ = to.send(self.rt, peer_msg);
                }
                Step::Lose(_) => drop(peer_msg),
                Step::Twice(_) => self.send_twice(peer_msg, to)?,
            }
        }
        Ok(true)
    }

    /// Sends a message and a copy of it into a channel.
    fn send_twice(&self, peer_msg: PeerMsg, to: &Sender<PeerMsg>) -> Result<(), AllocError> {
        let copied = copy_of(self.alloc, &peer_msg);
        let _ = to.send(self.rt, peer_msg);
        let _ = to.send(self.rt, copied?);
        Ok(())
    }
}

fn copy_of(alloc: Global, peer_msg: &PeerMsg) -> Result<PeerMsg, AllocError> {
    let message = match &peer_msg.message {
        LinkMsg::Ops(ops) => LinkMsg::Ops(copies(alloc, ops)?),
        LinkMsg::Have(clock) => LinkMsg::Have(clock.copy(alloc)?),
        LinkMsg::Stop => LinkMsg::Stop,
    };
    Ok(PeerMsg {
        from: peer_msg.from,
        message,
    })
}

impl<'a, R: Wait> PeerLinks for Channels<'a, R> {
    ghost asks = { λ p to clock q. Unit {0} };

    ghost sends = { λ p to ops q. Unit {0} };

    fn ask(&mut self, to: usize, clock: Clock) {
        let _ = self.send(to, LinkMsg::Have(clock));
    }

    fn send_ops(&mut self, to: usize, ops: Vec<SoundOp>) {
        let _ = self.send(to, LinkMsg::Ops(ops));
    }
}
