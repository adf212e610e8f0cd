//! Calls that may run out of memory, each made once with enough.

use crate::fixtures::{Mailboxes, Trouble, empty, operations};
use crate::state_text::write_mailboxes;
use causal_inbox::Inbox;
use merge_laws::{FirstFollower, Follower, NotReady, Replicated, Unfollowed};
use std::alloc::{AllocError, Global};
use std::test::Fail;

/// The operations of a small mailbox.
const LINES: &[&str] = &[
    "1:1 - create work",
    "1:2 1=1 append work (\\Seen zed) \"17-Jul-1996 02:44:25 -0700\" =x",
    "1:3 1=2 subscribe work",
    "2:1 1=1 create a~20b",
];

/// The dump after folders and subscriptions are prepared for the operations: reserving memory
/// changes nothing.
fn dump_after_prepare(alloc: Global) -> Result<Vec<u8>, Trouble> {
    let mut pair = empty(alloc);
    prepare_each(alloc, &mut pair)?;
    let mut text = Vec::new(alloc);
    write_mailboxes(alloc, &pair.first, &pair.second, &mut text)?;
    Ok(text)
}

fn prepare_each(alloc: Global, pair: &mut Mailboxes) -> Result<(), Trouble> {
    let ops = operations(alloc, LINES)?;
    pair.first.prepare(alloc, &ops)?;
    pair.second.prepare(alloc, &ops)?;
    pair.prepare(alloc, &ops)?;
    Ok(())
}

#[test]
fn values_are_prepared(rt: HostRuntime) -> Result<(), Fail> {
    let text = dump_after_prepare(rt.alloc())?;
    assert_eq!(rt; text.as_slice(), b"folder INBOX -\n".as_slice());
    Ok(())
}

fn follower() -> FirstFollower<Unfollowed> {
    FirstFollower {
        follower: Unfollowed,
    }
}

/// The answer of `ready` for a follower that records nothing.
fn answer_of_ready(alloc: Global) -> Result<Result<(), NotReady>, Trouble> {
    let ops = operations(alloc, LINES)?;
    let mut follower = follower();
    let answer = follower.ready(alloc, &empty(alloc), &ops);
    Ok(answer)
}

#[test]
fn followers_are_ready(rt: HostRuntime) -> Result<(), Fail> {
    assert_eq!(rt; answer_of_ready(rt.alloc())?, Ok(()));
    Ok(())
}

type Node = Inbox<Mailboxes, FirstFollower<Unfollowed>>;

fn node(alloc: Global) -> Result<Node, AllocError> {
    Inbox::new(alloc, empty(alloc), follower())
}

/// Whether an inbox is ready to issue two operations, and has applied neither.
fn is_ready_to_issue(alloc: Global) -> Result<bool, Trouble> {
    let mut inbox = node(alloc)?;
    let is_ready = is_ready_for_ops(alloc, &mut inbox);
    drop(inbox);
    is_ready
}

fn is_ready_for_ops(alloc: Global, inbox: &mut Node) -> Result<bool, Trouble> {
    let ops = operations(alloc, &["4:1 - create d", "4:2 4=1 create e"])?;
    let answer = inbox.ready(alloc, &ops);
    drop(ops);
    Ok(answer.is_ok() && inbox.op_list().is_empty())
}

#[test]
fn an_inbox_is_ready_to_issue(rt: HostRuntime) -> Result<(), Fail> {
    assert!(rt; is_ready_to_issue(rt.alloc())?);
    Ok(())
}
