//! The order in which the worker of a link makes its calls.

use crate::actions::HOUR;
use crate::fixtures::{operation, operations};
use crate::output::{all_lines, with_clock};
use crdt_ops::SoundOp;
use crossbeam_channel::{Receiver, Sender, unbounded};
use merge_laws::Caused;
use replica_links::{
    Gate, LinkInput, LinkMsg, PeerLinks, PeerMsg, Taker, Took, ask_all, link_worker,
};
use std::alloc::{AllocError, Global};
use std::sync::Wait;
use std::test::*;
use std::thread::Threads;
use std::time::Duration;
use std::{rt, thread};
use tags_clocks::{Clock, ReplicaId};

/// How many times the test checks whether enough calls were made.
const TURNS: u32 = 1_000_000;

/// The content of a message.
#[derive(Clone, Copy)]
enum Content {
    /// These operations.
    Ops(&'static [&'static str]),
    /// A request for the operations that the clock of this operation's causes doesn't cover.
    Have(&'static str),
    /// There are no further messages.
    Stop,
}

/// A replica with scripted answers, the messages that its link's worker receives, and the calls
/// that the worker makes.
struct Case {
    /// What the case shows.
    name: &'static str,
    /// The replica's answers, one delivery after another; after them every delivery is complete.
    answers: &'static [Took],
    /// The number of the one replica that its clock counts; 0 if memory runs out for its clock and
    /// operations.
    clock: u32,
    /// The operations that it gives to each replica that asks, if its memory suffices.
    gives: &'static [&'static str],
    /// The places of the replicas that it asks.
    peers: &'static [usize],
    /// Whether the worker asks the others before it receives messages.
    asks_first: bool,
    /// Whether the others are asked once, and no message is received.
    only_asks: bool,
    /// The time between two rounds of requests, in milliseconds.
    rest: u64,
    /// The time that each message takes, in milliseconds.
    takes: u64,
    /// The messages received, with the places of their senders.
    messages: &'static [(usize, Content)],
    /// The number of calls after which a further message stops the worker; 0 if there is none.
    stops: usize,
    /// The text of the calls begins with the first of these parts, has the others after it in their
    /// order, and ends with the last.
    expected: &'static [&'static str],
}

/// A scripted replica that notes each call. It is also a gate and the links to the other replicas,
/// and notes their calls too.
#[derive(Drop)]
struct ScriptedReplica<'a, R: Wait + rt::Clock> {
    rt: &'a R,
    alloc: Global,
    calls: &'a Sender<String>,
    case: &'a Case,
    given: usize,
}

impl<'a, R: Wait + rt::Clock> ScriptedReplica<'a, R> {
    fn note(&self, call: Result<String, AllocError>) {
        if let Ok(call) = call {
            let _ = self.calls.send(self.rt, call);
        }
    }
}

impl<'a, R: Wait + rt::Clock> Taker for ScriptedReplica<'a, R> {
    ghost takes = { λ s op took t. Unit {0} };

    ghost drains = { λ s t. Unit {0} };

    ghost has = { λ s clock. Unit {0} };

    ghost gives = { λ s clock ops. Unit {0} };

    ghost lacks = { λ s. Unit {0} };

    fn deliver(&mut self, op: SoundOp) -> Took {
        let id = op.id();
        drop(op);
        let (replica, number) = (id.replica.get(), id.number.get());
        self.note(format!(in self.alloc; "deliver {replica}:{number}\n"));
        let place = self.given;
        self.given = place.saturating_add(1);
        match self.case.answers.get(place) {
            Some(took) => *took,
            None => Took::complete(),
        }
    }

    fn drain(&mut self) {
        self.note(format!(in self.alloc; "drain\n"));
    }

    fn clock(&self) -> Option<Clock> {
        self.note(format!(in self.alloc; "clock\n"));
        let replica = ReplicaId::new(self.case.clock)?;
        let mut clock = Clock::new(self.alloc);
        if clock.raise(replica, 7).is_err() {
            drop(clock);
            return None;
        }
        Some(clock)
    }

    fn ops_since(&self, clock: &Clock) -> Option<Vec<SoundOp>> {
        self.note(with_clock(format!(in self.alloc; "since "), clock));
        ReplicaId::new(self.case.clock)?;
        operations(self.alloc, self.case.gives)
    }
}

impl<'a, R: Wait + rt::Clock> PeerLinks for ScriptedReplica<'a, R> {
    ghost asks = { λ p to clock q. Unit {0} };

    ghost sends = { λ p to ops q. Unit {0} };

    fn ask(&mut self, to: usize, clock: Clock) {
        self.note(with_clock(format!(in self.alloc; "ask {to} "), &clock));
        drop(clock);
    }

    fn send_ops(&mut self, to: usize, ops: Vec<SoundOp>) {
        let count = ops.len();
        drop(ops);
        self.note(format!(in self.alloc; "hand {to} {count}\n"));
    }
}

impl<'a, R: Wait + rt::Clock> Gate for ScriptedReplica<'a, R> {
    fn pass(&mut self, n: u64) {
        self.note(format!(in self.alloc; "pass {n}\n"));
        if self.case.takes > 0 {
            thread::sleep(self.rt, Duration::from_millis(self.case.takes));
        }
    }
}

fn peer_msg(alloc: Global, from: usize, content: Content) -> Result<PeerMsg, AllocError> {
    let message = match content {
        Content::Ops(lines) => match operations(alloc, lines) {
            Some(ops) => LinkMsg::Ops(ops),
            None => LinkMsg::Stop,
        },
        Content::Have(line) => match operation(alloc, line) {
            Some(op) => {
                let clock = op.clock().copy(alloc);
                drop(op);
                LinkMsg::Have(clock?)
            }
            None => LinkMsg::Stop,
        },
        Content::Stop => LinkMsg::Stop,
    };
    Ok(PeerMsg { from, message })
}

/// The messages that a worker receives in a case.
struct CaseInput<'a> {
    messages: Receiver<PeerMsg>,
    case: &'a Case,
}

// By hand, so that functions with several exits drop it whole.
impl Drop for CaseInput<'_> {
    fn drop(self) {
        let Self {
            messages: _,
            case: _,
        } = self;
    }
}

/// Runs a worker until it ends; its calls are noted.
fn work<R: Wait + rt::Clock>(rt: &R, alloc: Global, sender: Sender<String>, input: &CaseInput) {
    let calls = &sender;
    let case = input.case;
    let link_input = LinkInput {
        messages: &input.messages,
        peers: case.peers,
        asks_first: case.asks_first,
        rest: Duration::from_millis(case.rest),
    };
    let given = 0;
    let mut gate = ScriptedReplica {
        rt,
        alloc,
        calls,
        case,
        given,
    };
    let mut taker = ScriptedReplica {
        rt,
        alloc,
        calls,
        case,
        given,
    };
    let mut links = ScriptedReplica {
        rt,
        alloc,
        calls,
        case,
        given,
    };
    if case.only_asks {
        ask_all(&taker, &mut links, case.peers);
    } else {
        link_worker(rt, &mut gate, &link_input, &mut taker, &mut links);
    }
}

/// Waits until `count` calls were made, for `TURNS` checks at most, and then stops the worker;
/// sends nothing if `count` is 0.
fn stop_after<R: Wait>(rt: &R, calls: &Receiver<String>, count: usize, to: Sender<PeerMsg>) {
    if count > 0 {
        for _ in 0..TURNS {
            if calls.len() >= count {
                break;
            }
            thread::yield_now();
        }
        let stop = PeerMsg {
            from: 0,
            message: LinkMsg::Stop,
        };
        let _ = to.send(rt, stop);
    }
    drop(to);
}

/// The calls that are made in a case, a line each.
fn calls_of<R: Threads + Wait + rt::Clock + Sync>(
    rt: &R,
    alloc: Global,
    case: &Case,
) -> Result<String, AllocError> {
    let (to, messages) = unbounded(alloc)?;
    let (sender, calls) = unbounded(alloc)?;
    for (from, content) in case.messages {
        let _ = to.send(rt, peer_msg(alloc, *from, *content)?);
    }
    let input = CaseInput { messages, case };
    thread::join(
        rt,
        || work(rt, alloc, sender, &input),
        || stop_after(rt, &calls, case.stops, to),
    );
    all_lines(rt, alloc, &calls)
}

/// Whether a text begins with the first part, has the others after it in their order, and ends with
/// the last.
fn fits(text: &str, parts: &[&str]) -> bool {
    let mut rest = text;
    for (place, part) in parts.iter().enumerate() {
        let Some((before, after)) = rest.split_once(*part) else {
            return false;
        };
        if place == 0 && !before.is_empty() {
            return false;
        }
        rest = after;
    }
    rest.is_empty()
}

/// The first case whose calls aren't the expected ones, with its calls; empty if there is
/// none.
fn wrong_case<R: Threads + Wait + rt::Clock + Sync>(
    rt: &R,
    alloc: Global,
) -> Result<String, AllocError> {
    for case in CASES {
        let calls = calls_of(rt, alloc, case)?;
        if !fits(&calls, case.expected) {
            let name = case.name;
            return format!(in alloc; "{name}:\n{calls}");
        }
    }
    Ok(String::new(alloc))
}

const NEITHER: Took = Took {
    lacking: false,
    stalled: false,
};

const LACKING: Took = Took {
    lacking: true,
    stalled: false,
};

const STALLED: Took = Took {
    lacking: false,
    stalled: true,
};

const BOTH: Took = Took {
    lacking: true,
    stalled: true,
};

const ONE: &[&str] = &["1:1 - create a"];

const THREE: &[&str] = &["1:1 - create a", "1:2 1=1 create b", "2:1 - create c"];

/// The calls by which each of the other replicas is asked once.
const ROUND: &str = "clock\nask 3 9=7\nclock\nask 1 9=7\nclock\nask 2 9=7\n";

/// The calls by which each of the other replicas is asked twice.
const ROUNDS: &str =
    "clock\nask 3 9=7\nclock\nask 1 9=7\nclock\nask 2 9=7\nclock\nask 3 9=7\nclock\nask 1 9=7\nclock\nask 2 9=7\n";

const CASES: &[Case] = &[
    Case {
        name: "what becomes of each message",
        answers: &[
            STALLED, LACKING, NEITHER, NEITHER, BOTH, BOTH, NEITHER, STALLED, NEITHER, NEITHER,
            LACKING,
        ],
        clock: 9,
        gives: THREE,
        peers: &[1, 2],
        asks_first: false,
        only_asks: false,
        rest: HOUR,
        takes: 0,
        messages: &[
            (4, Content::Ops(THREE)),
            (2, Content::Ops(ONE)),
            (3, Content::Ops(THREE)),
            (5, Content::Ops(ONE)),
            (6, Content::Ops(THREE)),
            (7, Content::Ops(&[])),
            (8, Content::Have("1:3 1=2,4=1 create d")),
            (9, Content::Stop),
            (2, Content::Ops(ONE)),
        ],
        stops: 0,
        expected: &[
            "pass 1\ndeliver 1:1\ndeliver 1:2\ndeliver 2:1\ndrain\nclock\nask 4 9=7\npass 2\ndeliver 1:1\npass 3\ndeliver 1:1\ndeliver 1:2\ndeliver 2:1\ndrain\nclock\nask 3 9=7\npass 4\ndeliver 1:1\ndrain\npass 5\ndeliver 1:1\ndeliver 1:2\ndeliver 2:1\nclock\nask 6 9=7\npass 6\npass 7\nsince 1=2,4=1\nhand 8 3\npass 8\n",
        ],
    },
    Case {
        name: "nothing is sent without memory",
        answers: &[BOTH],
        clock: 0,
        gives: THREE,
        peers: &[1, 2],
        asks_first: false,
        only_asks: false,
        rest: HOUR,
        takes: 0,
        messages: &[
            (4, Content::Ops(ONE)),
            (8, Content::Have("1:3 1=2,4=1 create d")),
        ],
        stops: 0,
        expected: &["pass 1\ndeliver 1:1\ndrain\nclock\npass 2\nsince 1=2,4=1\n"],
    },
    Case {
        name: "nothing is sent if nothing is lacking",
        answers: &[],
        clock: 9,
        gives: &[],
        peers: &[1, 2],
        asks_first: false,
        only_asks: false,
        rest: HOUR,
        takes: 0,
        messages: &[(8, Content::Have("1:1 - create d")), (8, Content::Stop)],
        stops: 0,
        expected: &["pass 1\nsince -\npass 2\n"],
    },
    Case {
        name: "one that joined asks first",
        answers: &[],
        clock: 9,
        gives: &[],
        peers: &[1, 2],
        asks_first: true,
        only_asks: false,
        rest: HOUR,
        takes: 0,
        messages: &[(1, Content::Ops(ONE)), (2, Content::Stop)],
        stops: 0,
        expected: &["clock\nask 1 9=7\nclock\nask 2 9=7\npass 1\ndeliver 1:1\npass 2\n"],
    },
    Case {
        name: "one that joined asks nobody without memory",
        answers: &[],
        clock: 0,
        gives: &[],
        peers: &[1, 2],
        asks_first: true,
        only_asks: false,
        rest: HOUR,
        takes: 0,
        messages: &[(1, Content::Ops(ONE)), (2, Content::Stop)],
        stops: 0,
        expected: &["clock\nclock\npass 1\ndeliver 1:1\npass 2\n"],
    },
    Case {
        name: "all are asked",
        answers: &[],
        clock: 9,
        gives: &[],
        peers: &[3, 1, 2],
        asks_first: false,
        only_asks: true,
        rest: HOUR,
        takes: 0,
        messages: &[],
        stops: 0,
        expected: &[ROUND],
    },
    Case {
        name: "nobody is asked without memory",
        answers: &[],
        clock: 0,
        gives: &[],
        peers: &[3, 1],
        asks_first: false,
        only_asks: true,
        rest: HOUR,
        takes: 0,
        messages: &[],
        stops: 0,
        expected: &["clock\nclock\n"],
    },
    Case {
        name: "all are asked after each rest",
        answers: &[],
        clock: 9,
        gives: &[],
        peers: &[3, 1, 2],
        asks_first: false,
        only_asks: false,
        rest: 5,
        takes: 0,
        messages: &[],
        stops: 12,
        expected: &[ROUNDS, "pass 1\n"],
    },
    Case {
        name: "letters do not put off the asking",
        answers: &[],
        clock: 9,
        gives: &[],
        peers: &[1],
        asks_first: false,
        only_asks: false,
        rest: 20,
        takes: 40,
        messages: &[
            (4, Content::Ops(&[])),
            (4, Content::Ops(&[])),
            (4, Content::Ops(&[])),
            (4, Content::Stop),
        ],
        stops: 0,
        expected: &[
            "",
            "pass 1\nclock\nask 1 9=7\n",
            "pass 2\nclock\nask 1 9=7\n",
            "pass 3\n",
            "pass 4\n",
        ],
    },
];

#[test]
fn calls_are_made_in_this_order(rt: HostRuntime) -> Result<(), Fail> {
    let wrong = wrong_case(&rt, rt.alloc())?;
    assert_eq!(rt; wrong.as_str(), "");
    Ok(())
}
