//! The thread of a link.

ghost use Rattle.replica_links.specs.Links.{AreAskedFirst, IsMsgAnswered, IsWorkerRun, TakesTurns};

use crate::have_answer::{PeerLinks, answer_request, ask_all, take_ops};
use crate::op_taker::Taker;
use crate::peer_msg::{LinkMsg, PeerMsg};
use crossbeam_channel::Receiver;
use replica_lock::Gate;
use std::rt::Clock;
use std::sync::Wait;
use std::thread;
use std::time::{Duration, Instant};

/// How long a worker rests after a message if no other is waiting, in microseconds. A sender
/// needn't wake it then; waking takes longer than sending.
const PAUSE: u64 = 250;

/// A replica's incoming messages, and the replicas that it asks unprompted for what it lacks.
#[derive(Drop)]
pub struct LinkInput<'a> {
    /// Messages from the other replicas.
    pub messages: &'a Receiver<PeerMsg>,
    /// The places of the other replicas.
    pub peers: &'a [usize],
    /// Whether they are asked before the first message is taken, as by a replica that has joined.
    pub asks_first: bool,
    /// The time between two requests to them, whatever arrives in between.
    pub rest: Duration,
}

/// The next event at a link.
enum NextEvent {
    /// A message arrived.
    Message(PeerMsg),
    /// It is time to ask the others.
    Due,
    /// No message and no sender is left.
    Over,
}

impl LinkInput<'_> {
    /// The next message or the time to ask, whichever comes first. If that time has passed already,
    /// `Due`; if there is no such time, a message.
    fn next<R: Wait + Clock>(&self, rt: &R, due: Option<Instant>) -> NextEvent {
        let Some(due) = due else {
            return match self.messages.recv(rt) {
                Ok(msg) => NextEvent::Message(msg),
                Err(_) => NextEvent::Over,
            };
        };
        if has_passed(rt, due) {
            return NextEvent::Due;
        }
        match self.messages.recv_deadline(rt, due) {
            Ok(msg) => NextEvent::Message(msg),
            Err(why) if why.is_timeout() => NextEvent::Due,
            Err(_) => NextEvent::Over,
        }
    }

    /// Rests if the link continues and no message is waiting, so that messages that arrive close
    /// together wake the worker once.
    fn rest_if_idle<R: Clock>(&self, rt: &R, continues: bool) {
        if continues && self.messages.is_empty() {
            thread::sleep(rt, Duration::from_micros(PAUSE));
        }
    }

    /// When the others are asked next; `None` if the clock can't be read.
    fn due<R: Clock>(&self, rt: &R) -> Option<Instant> {
        Instant::now(rt).ok()?.checked_add(self.rest)
    }
}

/// Whether a time has passed; false if the clock can't be read.
fn has_passed<R: Clock>(rt: &R, due: Instant) -> bool {
    Instant::now(rt).is_ok_and(|now| now >= due)
}

/// The state of a link's worker.
#[derive(Drop)]
struct WorkerState {
    /// The number of messages that arrived.
    messages: u64,
    /// When the others are asked next; `None` if the clock can't be read.
    due: Option<Instant>,
}

/// Asks the other replicas for what this one lacks, if `asks_first`. Then takes and answers each
/// message, and passes the gate before each, the first time with 1. Asks the others again each time
/// that `rest` has passed. Ends at `Stop`, or once no message and no sender is left.
pub fn link_worker<R: Wait + Clock, T: Taker, G: Gate, P: PeerLinks>(
    rt: &R,
    gate: &mut G,
    input: &LinkInput<'_>,
    taker: &mut T,
    links: &mut P,
)
    ensures { IsWorkerRun T.takes T.drains T.lacks T.has T.gives P.asks P.sends input.now.peers.now
        input.now.asks_first taker.old links.old taker.new links.new }
{
    ask_first(taker, links, input.peers, input.asks_first);
    let mut state = WorkerState {
        messages: 0,
        due: input.due(rt),
    };
    for _ in rt.forever() {
        if !turn(rt, gate, input, &mut state, taker, links) {
            return;
        }
    }
}

/// Asks these replicas for all that this one lacks, if `asks`.
fn ask_first<T: Taker, P: PeerLinks>(taker: &T, links: &mut P, peers: &[usize], asks: bool)
    ensures { AreAskedFirst T.lacks T.has P.asks peers.now asks taker.now links.old links.new }
{
    if asks {
        ask_all(taker, links, peers);
    }
}

/// Takes and answers the next message, or asks the others if it is time. False if the link ends.
fn turn<R: Wait + Clock, T: Taker, G: Gate, P: PeerLinks>(
    rt: &R,
    gate: &mut G,
    input: &LinkInput<'_>,
    state: &mut WorkerState,
    taker: &mut T,
    links: &mut P,
) -> bool
    ensures { TakesTurns T.takes T.drains T.lacks T.has T.gives P.asks P.sends input.now.peers.now
        taker.old links.old taker.new links.new }
{
    match input.next(rt, state.due) {
        NextEvent::Message(msg) => {
            state.messages = state.messages.saturating_add(1);
            gate.pass(state.messages);
            let continues = answer(taker, links, msg);
            input.rest_if_idle(rt, continues);
            continues
        }
        NextEvent::Due => {
            ask_all(taker, links, input.peers);
            state.due = input.due(rt);
            true
        }
        NextEvent::Over => false,
    }
}

/// Takes and answers a message. False if the link ends.
fn answer<T: Taker, P: PeerLinks>(taker: &mut T, links: &mut P, msg: PeerMsg) -> bool
    ensures { IsMsgAnswered T.takes T.drains T.lacks T.has T.gives P.asks P.sends msg.from
        msg.message result taker.old links.old taker.new links.new }
{
    let PeerMsg { from, message } = msg;
    match message {
        LinkMsg::Ops(ops) => {
            take_ops(taker, links, from, ops);
            true
        }
        LinkMsg::Have(clock) => {
            answer_request(taker, links, from, clock);
            true
        }
        LinkMsg::Stop => false,
    }
}
