//! Times commands in a mailbox of many messages.

use crate::node_costs::held::{deliver_all, time_of};
use crate::node_costs::node_session::{NodeSession, since};
use crate::node_costs::spans::Spans;
use imap_types::Name;
use std::alloc::{AllocError, Global};
use std::io::{self, ErrorKind};
use std::time::Instant;

/// How often each call is timed.
const TURNS: u32 = 100;

/// A command that is timed.
struct Row {
    /// Its name in the output.
    name: &'static str,
    /// The untimed command before it.
    before: &'static str,
    /// The timed command. Each `#` is replaced by the number of a message in the middle of the
    /// mailbox, which is also its UID: each time that of the next message.
    timed: &'static str,
}

/// An APPEND to the mailbox.
const APPEND: &str = "APPEND INBOX {2+}\r\nhi";

/// The command that is timed while no mailbox is selected.
const UNSELECTED: Row = Row {
    name: "APPEND, none selected",
    before: "NOOP",
    timed: APPEND,
};

/// The commands that are timed in the selected mailbox, in this order.
const ROWS: [Row; 7] = [
    Row {
        name: "FETCH by number, first after SELECT",
        before: "SELECT INBOX",
        timed: "FETCH # FLAGS",
    },
    Row {
        name: "NOOP",
        before: "NOOP",
        timed: "NOOP",
    },
    Row {
        name: "FETCH of a body",
        before: "NOOP",
        timed: "FETCH # BODY.PEEK[]",
    },
    Row {
        name: "FETCH of flags",
        before: "NOOP",
        timed: "FETCH # FLAGS",
    },
    Row {
        name: "STORE of a flag",
        before: "STORE # -FLAGS (\\Flagged)",
        timed: "STORE # +FLAGS (\\Flagged)",
    },
    Row {
        name: "COPY",
        before: "NOOP",
        timed: "COPY # other",
    },
    Row {
        name: "UID EXPUNGE",
        before: "UID STORE # +FLAGS (\\Deleted)",
        timed: "UID EXPUNGE #",
    },
];

/// Fills INBOX with `count` messages. Prints how long commands about one of them take, and
/// deliveries of another replica's operations.
pub fn times(rt: &HostRuntime, count: u32) -> io::Result<()> {
    let mut near = NodeSession::new(rt.alloc(), 1)?;
    let printed = times_at(rt, &mut near, count);
    drop(near);
    printed
}

fn times_at(rt: &HostRuntime, near: &mut NodeSession, count: u32) -> io::Result<()> {
    let mut far = NodeSession::new(rt.alloc(), 2)?;
    let printed = print_times(rt, near, &mut far, count);
    drop(far);
    printed
}

fn print_times(
    rt: &HostRuntime,
    near: &mut NodeSession,
    far: &mut NodeSession,
    count: u32,
) -> io::Result<()> {
    issue_command(rt.alloc(), near, "CREATE other", 0)?;
    for _ in 0..count {
        issue_command(rt.alloc(), near, APPEND, 0)?;
    }
    println!(*rt; "mailbox of {count} messages")?;
    eprintln!(*rt; "mailbox of {count} messages, in nanoseconds, least and mean")?;
    let middle = (count / 2).max(1);
    print_unselected(rt, near, far, middle)?;
    issue_command(rt.alloc(), near, "SELECT INBOX", 0)?;
    for row in &ROWS {
        print_row(rt, near, row, middle)?;
    }
    print_idling(rt, near, far)
}

/// Times commands and another replica's operations while no session has selected the mailbox.
/// Afterwards the other replica has all operations, and its session has selected the mailbox.
fn print_unselected(
    rt: &HostRuntime,
    near: &mut NodeSession,
    far: &mut NodeSession,
    middle: u32,
) -> io::Result<()> {
    print_row(rt, near, &UNSELECTED, middle)?;
    print_look_up(rt, near, middle)?;
    deliver_all(rt.alloc(), far, near.node.op_list())?;
    issue_command(rt.alloc(), far, "SELECT INBOX", 0)?;
    print_stores(rt, near, far, middle)
}

/// Prints how long it takes to compute the mailbox's listing and look a message up in it.
fn print_look_up(rt: &HostRuntime, node_session: &NodeSession, uid: u32) -> io::Result<()> {
    let name = Name::inbox(rt.alloc())?;
    let mut spans = Spans::none();
    for _ in 0..TURNS {
        spans.note(look_up_time(rt, node_session, &name, uid)?);
    }
    spans.print_spans(rt, "listing made, and a message looked up")
}

fn look_up_time(
    rt: &HostRuntime,
    node_session: &NodeSession,
    name: &Name,
    uid: u32,
) -> io::Result<u64> {
    let start = Instant::now(rt)?;
    if !is_listed(rt.alloc(), node_session, name, uid)? {
        return Err(io::Error::other("not listed"));
    }
    since(rt, start)
}

fn is_listed(alloc: Global, node_session: &NodeSession, name: &Name, uid: u32) -> io::Result<bool> {
    match node_session.node.listing(alloc, name) {
        Ok(rows) => Ok(rows.row_of(uid).is_some()),
        Err(_) => Err(ErrorKind::OutOfMemory.into()),
    }
}

/// Prints how long deliveries of the other replica's STOREs take.
fn print_stores(
    rt: &HostRuntime,
    near: &mut NodeSession,
    far: &mut NodeSession,
    middle: u32,
) -> io::Result<()> {
    let mut spans = Spans::none();
    for turn in 0..TURNS {
        let number = middle.saturating_add(turn);
        issue_command(rt.alloc(), far, "STORE # +FLAGS (\\Flagged)", number)?;
        spans.note(delivery_time(rt, near, far)?);
    }
    spans.print_spans(rt, "another replica's STORE delivered, none selected")
}

/// Delivers the last operation of the other replica; returns the nanoseconds that this takes.
fn delivery_time(rt: &HostRuntime, near: &mut NodeSession, far: &NodeSession) -> io::Result<u64> {
    let made = far.node.op_list();
    let last = made.get(made.len().saturating_sub(1)..).unwrap_or(&[]);
    time_of(rt, near, last)
}

/// Prints how long a command takes.
fn print_row(
    rt: &HostRuntime,
    node_session: &mut NodeSession,
    row: &Row,
    middle: u32,
) -> io::Result<()> {
    let mut spans = Spans::none();
    for turn in 0..TURNS {
        let number = middle.saturating_add(turn);
        issue_command(rt.alloc(), node_session, row.before, number)?;
        let timed = command(rt.alloc(), row.timed, number)?;
        spans.note(node_session.time_of(rt, timed.as_str())?);
    }
    spans.print_spans(rt, row.name)
}

/// Prints how long deliveries of the other replica's APPENDs take while the session idles, and how
/// long a poll after each takes.
fn print_idling(rt: &HostRuntime, near: &mut NodeSession, far: &mut NodeSession) -> io::Result<()> {
    issue_command(rt.alloc(), near, "IDLE", 0)?;
    let mut deliveries = Spans::none();
    let mut polls = Spans::none();
    for _ in 0..TURNS {
        issue_command(rt.alloc(), far, APPEND, 0)?;
        deliveries.note(delivery_time(rt, near, far)?);
        polls.note(near.poll_time(rt)?);
    }
    deliveries.print_spans(
        rt,
        "another replica's APPEND delivered, while the session idles",
    )?;
    polls.print_spans(rt, "poll after that")
}

/// Issues the command.
fn issue_command(
    alloc: Global,
    node_session: &mut NodeSession,
    text: &str,
    number: u32,
) -> io::Result<()> {
    let line = command(alloc, text, number)?;
    node_session.issue_command(alloc, line.as_str())
}

/// The command with a tag, and with the number in place of `#`.
fn command(alloc: Global, text: &str, number: u32) -> Result<String, AllocError> {
    match text.split_once('#') {
        Some((head, tail)) => format!(in alloc; "a {head}{number}{tail}\r\n"),
        None => format!(in alloc; "a {text}\r\n"),
    }
}
