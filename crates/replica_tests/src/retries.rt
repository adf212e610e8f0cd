//! Operations that are refused memory once are taken the second time, and the end is the same as
//! with ample memory.

use crate::fixtures::{Node, Trouble, node, operation, play};
use crate::refused_values::{RefusingFollower, RefusingValue};
use crate::state_text::{is_text, write_held_ops, write_mailboxes, write_ops};
use causal_inbox::{DeliverFault, Delivered, HeldOps, Inbox};
use crdt_ops::SoundOp;
use folder_state::Folders;
use merge_laws::Pair;
use std::alloc::{AllocError, Global};
use std::test::Fail;
use subs_state::Subs;

/// The operations of an inbox, applied and held, and the dump of its folders and subscriptions, as
/// text.
fn shown_of(
    alloc: Global,
    applied: &[SoundOp],
    held: &HeldOps<'_, SoundOp>,
    folders: &Folders,
    subs: &Subs,
) -> Result<Vec<u8>, AllocError> {
    let mut text = Vec::new(alloc);
    write_ops(alloc, applied, &mut text)?;
    text.extend_from_slice(b"held\n")?;
    write_held_ops(alloc, held, &mut text)?;
    write_mailboxes(alloc, folders, subs, &mut text)?;
    Ok(text)
}

/// Three early operations, then their causes, and others.
const MIXED: &[&str] = &[
    "1:3 1=2,2=1 store a (\\Seen zed) 1:2 1:2",
    "2:1 1=2 expunge a 1:2",
    "1:2 1=1 append a () \"17-Jul-1996 02:44:25 -0700\" =hello",
    "5:1 - subscribe b",
    "1:1 - create a",
    "5:2 5=1 unsubscribe b 5:1",
    "6:1 1=1 delete a 1:1",
    "6:1 1=1 delete a 1:1",
    "7:1 5=1 subscribe b",
];

/// The text of an inbox after these operations, whichever of them was refused.
const MIXED_END: &str =
    "5:1 - subscribe b\n1:1 - create a\n1:2 1=1 append a () \"17-Jul-1996 02:44:25 -0700\" =hello\n2:1 1=2 expunge a 1:2\n1:3 1=2,2=1 store a (\\Seen zed) 1:2 1:2\n5:2 5=1 unsubscribe b 5:1\n6:1 1=1 delete a 1:1\n7:1 5=1 subscribe b\nheld\nfolder INBOX -\nfolder a 2:1\nmessage 1:2 1:3 (\\Seen zed) \"17-Jul-1996 02:44:25 -0700\" =hello\nsubscribed b 7:1\n";

/// The number of applications before the one that is refused memory, and the answers: a refused
/// delivery is repeated, and a stalled one is followed by a drain.
const REFUSED_MIXED: &[(u32, &str)] = &[
    (
        0,
        "Held\nHeld\nHeld\nNoMemory\nApplied 1\nApplied 4\nApplied 1\nApplied 1\nRepeat\nApplied 1\n",
    ),
    (
        1,
        "Held\nHeld\nHeld\nApplied 1\nNoMemory\nApplied 4\nApplied 1\nApplied 1\nRepeat\nApplied 1\n",
    ),
    (
        2,
        "Held\nHeld\nHeld\nApplied 1\nApplied 1 stalled\ndrained 3\nApplied 1\nApplied 1\nRepeat\nApplied 1\n",
    ),
    (
        3,
        "Held\nHeld\nHeld\nApplied 1\nApplied 2 stalled\ndrained 2\nApplied 1\nApplied 1\nRepeat\nApplied 1\n",
    ),
    (
        4,
        "Held\nHeld\nHeld\nApplied 1\nApplied 3 stalled\ndrained 1\nApplied 1\nApplied 1\nRepeat\nApplied 1\n",
    ),
    (
        5,
        "Held\nHeld\nHeld\nApplied 1\nApplied 4\nNoMemory\nApplied 1\nApplied 1\nRepeat\nApplied 1\n",
    ),
    (
        6,
        "Held\nHeld\nHeld\nApplied 1\nApplied 4\nApplied 1\nNoMemory\nApplied 1\nRepeat\nApplied 1\n",
    ),
    (
        7,
        "Held\nHeld\nHeld\nApplied 1\nApplied 4\nApplied 1\nApplied 1\nRepeat\nNoMemory\nApplied 1\n",
    ),
    (
        8,
        "Held\nHeld\nHeld\nApplied 1\nApplied 4\nApplied 1\nApplied 1\nRepeat\nApplied 1\n",
    ),
];

/// The part of an inbox that needs memory before an operation is applied.
#[derive(Clone, Copy, PartialEq, Eq)]
enum Part {
    Follower,
    Folders,
    Subs,
}

/// The number of this part's calls before the refused one, if this is the part that is refused one.
fn calls_before(part: Part, refused: Part, before: u32) -> Option<u32> {
    if part == refused { Some(before) } else { None }
}

type RefusingInbox = Inbox<Pair<RefusingValue<Folders>, RefusingValue<Subs>>, RefusingFollower>;

/// An inbox in which this part is refused memory once, after `before` calls.
fn refused_at(alloc: Global, refused: Part, before: u32) -> Result<RefusingInbox, AllocError> {
    let folders = RefusingValue {
        value: Folders::new(alloc),
        before: calls_before(Part::Folders, refused, before),
    };
    let subs = RefusingValue {
        value: Subs::new(alloc),
        before: calls_before(Part::Subs, refused, before),
    };
    let value = Pair {
        first: folders,
        second: subs,
    };
    let follower = RefusingFollower {
        before: calls_before(Part::Follower, refused, before),
    };
    Inbox::new(alloc, value, follower)
}

fn shown_refusing(alloc: Global, inbox: &RefusingInbox) -> Result<Vec<u8>, AllocError> {
    let value = inbox.value();
    shown_of(
        alloc,
        inbox.op_list(),
        &inbox.held(),
        &value.first.value,
        &value.second.value,
    )
}

/// Delivers the line's operation, and repeats the delivery if it is refused memory or drains the
/// inbox if it stalls. Appends the answers, and returns whether a refusal changed nothing.
fn deliver_or_retry(
    alloc: Global,
    inbox: &mut RefusingInbox,
    line: &str,
    text: &mut String,
) -> Result<bool, Trouble> {
    let before = shown_refusing(alloc, inbox)?;
    play(alloc, inbox, line, text)?;
    if text.ends_with("NoMemory\n") {
        retry_after_refusal(alloc, inbox, line, &before, text)
    } else {
        drained_after(alloc, inbox, text)
    }
}

/// Delivers again after a refusal, and returns whether the refusal had changed nothing.
fn retry_after_refusal(
    alloc: Global,
    inbox: &mut RefusingInbox,
    line: &str,
    before: &[u8],
    text: &mut String,
) -> Result<bool, Trouble> {
    let unchanged = is_text(shown_refusing(alloc, inbox), before)?;
    play(alloc, inbox, line, text)?;
    Ok(unchanged)
}

/// Drains if the delivery stalled. Always true, since nothing was refused.
fn drained_after(
    alloc: Global,
    inbox: &mut RefusingInbox,
    text: &mut String,
) -> Result<bool, Trouble> {
    if text.ends_with("stalled\n") {
        play(alloc, inbox, "drain", text)?;
    }
    Ok(true)
}

/// Whether the inbox gives these answers if this part is refused memory after `before` calls, and
/// ends as with ample memory.
fn is_refused_as_expected(
    alloc: Global,
    refused: Part,
    before: u32,
    answers: &str,
) -> Result<bool, Trouble> {
    let mut inbox = refused_at(alloc, refused, before)?;
    let is_expected = ends_as_expected(alloc, &mut inbox, answers);
    drop(inbox);
    is_expected
}

/// Whether the inbox gives these answers to the mixed lines, no refusal changes anything, and it
/// ends as with ample memory.
fn ends_as_expected(
    alloc: Global,
    inbox: &mut RefusingInbox,
    answers: &str,
) -> Result<bool, Trouble> {
    let mut text = String::new(alloc);
    let unchanged = retry_all(alloc, inbox, &mut text)?;
    let is_end = is_text(shown_refusing(alloc, inbox), MIXED_END.as_bytes())?;
    Ok(unchanged && text.as_str() == answers && is_end)
}

fn retry_all(alloc: Global, inbox: &mut RefusingInbox, text: &mut String) -> Result<bool, Trouble> {
    for line in MIXED {
        if !deliver_or_retry(alloc, inbox, line, text)? {
            return Ok(false);
        }
    }
    Ok(true)
}

fn first_wrong(alloc: Global, refused: Part) -> Result<Option<usize>, Trouble> {
    for (at, (before, answers)) in REFUSED_MIXED.iter().enumerate() {
        if !is_refused_as_expected(alloc, refused, *before, answers)? {
            return Ok(Some(at));
        }
    }
    Ok(None)
}

/// Whether the answers are right for each part that is refused memory.
fn are_refused_as_expected(alloc: Global) -> Result<bool, Trouble> {
    for refused in [Part::Follower, Part::Folders, Part::Subs] {
        if first_wrong(alloc, refused)?.is_some() {
            return Ok(false);
        }
    }
    Ok(true)
}

/// The memory that the follower, the folders and the subscriptions need before each of the eight
/// operations is applied is refused in turn. The memory of the inbox's own lists and of its next
/// clock comes from the allocator itself, which no test can make refuse.
#[test]
fn each_part_is_refused_once(rt: HostRuntime) -> Result<(), Fail> {
    assert!(rt; are_refused_as_expected(rt.alloc())?);
    Ok(())
}

fn shown(alloc: Global, inbox: &Node) -> Result<Vec<u8>, AllocError> {
    let value = inbox.value();
    shown_of(
        alloc,
        inbox.op_list(),
        &inbox.held(),
        &value.first,
        &value.second,
    )
}

fn deliver(
    alloc: Global,
    inbox: &mut Node,
    line: &str,
) -> Result<Result<Delivered, DeliverFault>, Trouble> {
    let op = operation(alloc, line)?;
    Ok(inbox.deliver(alloc, op))
}

/// Delivers the line's operation, and repeats the delivery if memory ran out or drains the inbox if
/// it stalled. Returns whether the refusal changed nothing, and the second call was refused
/// nothing. `Err` if memory for the test's own values runs out.
fn is_delivered_in_the_end(alloc: Global, inbox: &mut Node, line: &str) -> Result<bool, Trouble> {
    let before = shown(alloc, inbox)?;
    match deliver(alloc, inbox, line)? {
        Ok(delivered) => Ok(continues(alloc, inbox, delivered.stalled)),
        Err(DeliverFault::NoMemory) => is_delivered_again(alloc, inbox, line, &before),
        Err(_) => Ok(false),
    }
}

fn continues(alloc: Global, inbox: &mut Node, stalled: bool) -> bool {
    !stalled || !inbox.drain(alloc).stalled
}

fn is_delivered_again(
    alloc: Global,
    inbox: &mut Node,
    line: &str,
    before: &[u8],
) -> Result<bool, Trouble> {
    let unchanged = is_text(shown(alloc, inbox), before)?;
    let answer = deliver(alloc, inbox, line)?;
    Ok(unchanged && answer.is_ok())
}

/// Whether each of the mixed lines is delivered in the end, and the inbox then has the right text.
fn are_all_delivered(alloc: Global) -> Result<bool, Trouble> {
    let mut inbox = node(alloc)?;
    let is_expected = is_each_delivered(alloc, &mut inbox);
    drop(inbox);
    is_expected
}

fn is_each_delivered(alloc: Global, inbox: &mut Node) -> Result<bool, Trouble> {
    for line in MIXED {
        if !is_delivered_in_the_end(alloc, inbox, line)? {
            return Ok(false);
        }
    }
    Ok(is_text(shown(alloc, inbox), MIXED_END.as_bytes())?)
}

/// The test runs with ample memory: each delivery is made once, and none is refused. It was also
/// run by hand with each of its allocations refused in turn, by a `malloc` that fails once. 73 of
/// them are made by deliveries, and each of these runs ended as with ample memory. The others are
/// made by the test itself and end it with an error; a wrong answer would have failed its
/// assertion.
#[test]
fn deliveries_are_tried_again(rt: HostRuntime) -> Result<(), Fail> {
    assert!(rt; are_all_delivered(rt.alloc())?);
    Ok(())
}
