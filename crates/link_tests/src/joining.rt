//! Replicas that join with another one's operations, and journals that are returned.

ghost use Rattle.std.specs.Prelude.{◌≡◌};

use crate::actions::{Action, FinalReport, Scene, Step};
use crate::caller::{Caller, Replica};
use crate::channels::{Channels, Lines};
use crate::fixtures::{book_from, join, operations};
use crate::output::{write_answers, write_id};
use crate::scene::{output_of, wrong_scene};
use crdt_ops::SoundOp;
use replica_lock::{Book, JoinFault, Shared};
use std::alloc::{AllocError, Global};
use std::marker::Brand;
use std::rt::Clock;
use std::sync::Wait;
use std::sync::ledger::{Blank, Ledger};
use std::test::*;
use std::thread::Threads;
use tags_clocks::ReplicaId;

/// Appends the journal of a replica that joins with these operations, or why it doesn't join.
fn write_joined(
    alloc: Global,
    text: &mut String,
    name: u32,
    ops: &[SoundOp],
) -> Result<(), AllocError> {
    let Some(id) = ReplicaId::new(name) else {
        return text.push_str("no name\n");
    };
    match Book::join(alloc, id, ops) {
        Ok(book) => write_book(text, &book),
        Err(fault) => write_fault(text, fault),
    }
}

/// Appends the outcome of each delivery, the number of entries, and the number of applied
/// operations.
fn write_book(text: &mut String, book: &Book) -> Result<(), AllocError> {
    write_answers(text, book)?;
    let entries = book.len();
    let applied = book.node().op_list().len();
    write!(text, "{entries} entries, {applied} applied\n")
}

fn write_fault(text: &mut String, fault: JoinFault) -> Result<(), AllocError> {
    match fault {
        JoinFault::Own { id } => {
            text.push_str("Own ")?;
            write_id(text, id)?;
        }
        JoinFault::NotCausal { id } => {
            text.push_str("NotCausal ")?;
            write_id(text, id)?;
        }
        JoinFault::Exhausted => text.push_str("Exhausted")?,
        JoinFault::NoMemory => text.push_str("NoMemory")?,
    }
    text.push_str("\n")
}

/// A replica that is to join.
struct Case {
    /// Its number.
    name: u32,
    /// The operations with which it joins.
    lines: &'static [&'static str],
    /// The expected text.
    expected: &'static str,
}

const CASES: &[Case] = &[
    Case {
        name: 3,
        lines: &[],
        expected: "0 entries, 0 applied\n",
    },
    Case {
        name: 3,
        lines: &["1:1 - create a", "2:1 1=1 create b", "1:2 1=1 delete a 1:1"],
        expected: "1:1 Applied 1\n2:1 Applied 1\n1:2 Applied 1\n3 entries, 3 applied\n",
    },
    Case {
        name: 2,
        lines: &["1:1 - create a", "2:2 1=1,2=1 create c", "2:1 1=1 create b"],
        expected: "Own 2:1\n",
    },
    Case {
        name: 1,
        lines: &["2:2 2=1 create x", "1:1 - create a"],
        expected: "Own 1:1\n",
    },
    Case {
        name: 2,
        lines: &["1:1 - create a", "2:1 1=1 create b"],
        expected: "Own 2:1\n",
    },
    Case {
        name: 3,
        lines: &["1:2 1=1 create b", "1:1 - create a"],
        expected: "NotCausal 1:2\n",
    },
    Case {
        name: 3,
        lines: &["1:1 - create a", "2:2 2=1 create c", "1:3 1=2 create b"],
        expected: "NotCausal 2:2\n",
    },
    Case {
        name: 3,
        lines: &["1:1 - create a", "1:1 - create a"],
        expected: "NotCausal 1:1\n",
    },
    Case {
        name: 3,
        lines: &["1:1 - create a", "1:1 - create b"],
        expected: "NotCausal 1:1\n",
    },
    Case {
        name: 3,
        lines: &["1:1 - create a", "2:1 3=1 create b"],
        expected: "NotCausal 2:1\n",
    },
];

/// The text of a case.
fn case_text(alloc: Global, name: u32, lines: &[&str]) -> Result<String, AllocError> {
    let mut text = String::new(alloc);
    let output = match operations(alloc, lines) {
        Some(ops) => write_joined(alloc, &mut text, name, &ops),
        None => text.push_str("no operations\n"),
    };
    output?;
    Ok(text)
}

/// The place of the first case whose text isn't the expected one, with both texts; empty if
/// there is none.
fn wrong_case(alloc: Global) -> Result<String, AllocError> {
    for (place, case) in CASES.iter().enumerate() {
        let text = case_text(alloc, case.name, case.lines)?;
        if text.as_str() != case.expected {
            let expected = case.expected;
            return format!(in alloc; "case {place}: not\n{expected}but\n{text}");
        }
    }
    Ok(String::new(alloc))
}

#[test]
fn joins_end_as_expected(rt: HostRuntime) -> Result<(), Fail> {
    let wrong = wrong_case(rt.alloc())?;
    assert_eq!(rt; wrong.as_str(), "");
    Ok(())
}

/// The actions at the first replica before the second joins.
const WORK: &[Action] = &[
    Action::Gives("CREATE a"),
    Action::Gives("DELETE a"),
    Action::Gives("CREATE a"),
    Action::Gives("APPEND a {1}\r\nx"),
];

/// A replica at which these actions were done, and one that joined with copies of its operations.
fn work_and_join<L: Ledger, R: Wait + Clock>(
    rt: &R,
    alloc: Global,
    blank: Blank,
    book: Book,
    lines: &Lines,
) -> Option<(Book, Book)>
    requires { (blank.name ≡ L.name) × (blank.parts ≡ L.parts) × (L.parts ≡ 4294967295) }
{
    let (shared, pass) = Shared::<L>::new(blank, book);
    let mut caller = Caller::new(alloc, pass, None, 0);
    let replica = Replica {
        shared: &shared,
        channels: Channels {
            rt,
            alloc,
            own: 0,
            lines,
            threads: &[],
        },
    };
    caller.act_all(&replica, WORK);
    drop(replica);
    let other = match shared.ops_copy(rt, alloc, &caller.pass) {
        Ok(ops) => {
            let other = join(alloc, 2, &ops);
            drop(ops);
            other
        }
        Err(_) => None,
    };
    let mut passes = Vec::new(alloc);
    drop(caller.into_outcomes(&mut passes));
    shared.finish(passes).ok().zip(other)
}

/// A new replica at which the work was done, and one that joined with copies of its operations;
/// `None` if one of them can't be made.
fn make_joined_books<R: Wait + Clock>(
    rt: &R,
    alloc: Global,
) -> Result<Option<(Book, Book)>, AllocError> {
    let lines = Lines::new(alloc, false)?;
    match book_from(alloc, 1, 1) {
        Some(book) => Ok(work_and_join::<Brand, R>(
            rt,
            alloc,
            Blank::new(4_294_967_295),
            book,
            &lines,
        )),
        None => Ok(None),
    }
}

/// A message sent before the joined replica receives messages is lost; it asks, and then
/// issues an operation of its own.
const JOINED: Scene = Scene {
    name: "one joins and asks",
    uid: 1,
    actions: &[
        (0, Action::GivesAndSends("CREATE b")),
        (1, Action::Takes(&[Step::Lose(0)])),
        (1, Action::Asks),
        (0, Action::Takes(&[Step::Pass(0)])),
        (1, Action::Takes(&[Step::Pass(0)])),
        (1, Action::GivesAndSends("DELETE a")),
        (0, Action::Takes(&[Step::Pass(0)])),
    ],
    first: &[],
    second: &[],
    final_report: FinalReport::Answers,
    expected: "1 to 2: 1:5\n2 to 1: have 1=4\n1 to 2: 1:5\n2 to 1: 2:1\nat 1\n2:1 Applied 1\nat 2\n1:1 Applied 1\n1:2 Applied 1\n1:3 Applied 1\n1:4 Applied 1\n1:5 Applied 1\nagreed\n",
};

/// The text of a replica that joined with copies of another one's operations, and of the scene in
/// which it asks for what the other issued meanwhile.
fn join_text<R: Threads + Wait + Clock + Sync>(
    rt: &R,
    alloc: Global,
) -> Result<String, AllocError> {
    let mut text = String::new(alloc);
    match make_joined_books(rt, alloc)? {
        Some((one, two)) => {
            let output = write_book(&mut text, &two);
            let played = output_of(rt, alloc, (one, two), &JOINED);
            output?;
            text.push_str(played?.as_str())?;
        }
        None => {}
    }
    Ok(text)
}

#[test]
fn one_joins_and_asks(rt: HostRuntime) -> Result<(), Fail> {
    let output = join_text(&rt, rt.alloc())?;
    let taken =
        "1:1 Applied 1\n1:2 Applied 1\n1:3 Applied 1\n1:4 Applied 1\n4 entries, 4 applied\n";
    assert_eq!(rt; output.strip_prefix(taken).unwrap_or(""), JOINED.expected);
    Ok(())
}

/// A journal isn't returned without the pass that opened a session, but is returned without one
/// that made no call; the second replica joined with two operations.
const LACKING: &[Scene] = &[Scene {
    name: "passes that are lost",
    uid: 0,
    actions: &[(0, Action::LosesPass(true)), (1, Action::LosesPass(false))],
    first: &[],
    second: &[&[Action::Opens]],
    final_report: FinalReport::Entries,
    expected: "0 calls of 1\n3 entries\n",
}];

#[test]
fn a_journal_is_returned_for_all_its_calls(rt: HostRuntime) -> Result<(), Fail> {
    let wrong = wrong_scene(&rt, rt.alloc(), LACKING)?;
    assert_eq!(rt; wrong.as_str(), "");
    Ok(())
}
