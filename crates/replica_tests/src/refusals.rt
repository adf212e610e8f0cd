//! An inbox that is refused memory or a counter once: a refused operation leaves it as it was, and
//! a stalled one continues later.

ghost use Rattle.std.specs.Prelude.{◌≡◌, ◌+◌, ◌<◌, ◌≤◌, length};
ghost use Rattle.replica_tests.specs.Counting.{first_fits};

use crate::fixtures::{Trouble, operations, play_all};
use crate::refused_values::RefusingValue;
use crate::state_text::write_folders;
use causal_inbox::{Inbox, IssueFault};
use crdt_ops::SoundOp;
use folder_state::Folders;
use merge_laws::{Follower, NotReady, Replicated, Unfollowed};
use std::alloc::{AllocError, Global};
use std::test::Fail;

/// A follower that notes `limit` operations at most.
#[derive(Drop)]
struct Counted {
    limit: usize,
    noted: usize,
}

impl<R: Replicated> Follower<R> for Counted {
    type Start = usize;

    ghost start = { λ x. x.limit };

    ghost follows = { λ x list. x.noted ≡ length list };

    ghost is_ready = { λ x list ops. x.noted + length ops ≤ x.limit };

    ghost exhausts = { λ limit list ops. limit < length list + length ops };

    ghost first = { λ x list o os h. first_fits x.noted (length os) x.limit h };

    fn ready(&mut self, _alloc: Global, _value: &R, ops: &[R::Op]) -> Result<(), NotReady> {
        match self.limit.checked_sub(self.noted) {
            None => Err(NotReady::Exhausted),
            Some(left) => {
                if ops.len() <= left {
                    Ok(())
                } else {
                    Err(NotReady::Exhausted)
                }
            }
        }
    }

    fn note(&mut self, _value: &R, _op: &R::Op) {
        self.noted = self.noted + 1;
    }
}

/// Whether the inbox gives these answers to the lines.
fn has_answers<R: Replicated<Op = SoundOp>, F: Follower<R>>(
    alloc: Global,
    inbox: &mut Inbox<R, F>,
    lines: &[&str],
    answers: &str,
) -> Result<bool, Trouble> {
    let mut text = String::new(alloc);
    play_all(alloc, inbox, lines, &mut text)?;
    Ok(text.as_str() == answers)
}

/// Whether the dump of the folders is these lines.
fn has_lines(alloc: Global, folders: &Folders, lines: &[u8]) -> Result<bool, AllocError> {
    let mut text = Vec::new(alloc);
    write_folders(alloc, folders, &mut text)?;
    Ok(text.as_slice() == lines)
}

/// Three operations in a chain, the last first; then the first is repeated, and the rest is
/// drained.
const CHAIN: &[&str] = &[
    "1:3 1=2 create c",
    "1:2 1=1 create b",
    "show",
    "1:1 - create a",
    "show",
    "1:1 - create a",
    "stall",
    "drain",
    "show",
];

/// The number of calls before the one that is refused memory, and the answers.
const REFUSED: &[(u32, &str)] = &[
    (
        0,
        "Held\nHeld\napplied\nheld 1:2 1:3\nNoMemory\napplied\nheld 1:2 1:3\nApplied 3\nnone\ndrained 0\napplied 1:1 1:2 1:3\nheld\n",
    ),
    (
        1,
        "Held\nHeld\napplied\nheld 1:2 1:3\nApplied 1 stalled\napplied 1:1\nheld 1:2 1:3\nRepeat stalled\nDrainable\ndrained 2\napplied 1:1 1:2 1:3\nheld\n",
    ),
    (
        2,
        "Held\nHeld\napplied\nheld 1:2 1:3\nApplied 2 stalled\napplied 1:1 1:2\nheld 1:3\nRepeat stalled\nDrainable\ndrained 1\napplied 1:1 1:2 1:3\nheld\n",
    ),
    (
        3,
        "Held\nHeld\napplied\nheld 1:2 1:3\nApplied 3\napplied 1:1 1:2 1:3\nheld\nRepeat\nnone\ndrained 0\napplied 1:1 1:2 1:3\nheld\n",
    ),
];

/// The dump of the folders after the chain.
const CHAIN_TEXT: &[u8] = b"folder INBOX -\nfolder a 1:1\nfolder b 1:2\nfolder c 1:3\n";

type Refused = Inbox<RefusingValue<Folders>, Unfollowed>;

/// Whether an inbox that is refused memory after `before` calls gives these answers, and ends as
/// with ample memory.
fn is_refused_as_expected(alloc: Global, before: u32, answers: &str) -> Result<bool, Trouble> {
    let value = RefusingValue {
        value: Folders::new(alloc),
        before: Some(before),
    };
    let mut inbox = Inbox::new(alloc, value, Unfollowed)?;
    let is_expected = ends_as_expected(alloc, &mut inbox, answers);
    drop(inbox);
    is_expected
}

fn ends_as_expected(alloc: Global, inbox: &mut Refused, answers: &str) -> Result<bool, Trouble> {
    Ok(
        has_answers(alloc, inbox, CHAIN, answers)?
            && has_lines(alloc, &inbox.value().value, CHAIN_TEXT)?,
    )
}

fn first_wrong_refusal(alloc: Global) -> Result<Option<usize>, Trouble> {
    for (at, (before, answers)) in REFUSED.iter().enumerate() {
        if !is_refused_as_expected(alloc, *before, answers)? {
            return Ok(Some(at));
        }
    }
    Ok(None)
}

/// The folders are refused memory once: for the delivered operation, for the first that it
/// releases, or for the second. A fourth call isn't made.
#[test]
fn memory_is_refused_once(rt: HostRuntime) -> Result<(), Fail> {
    assert_eq!(rt; first_wrong_refusal(rt.alloc())?, None);
    Ok(())
}

/// The chain, then an early operation, and another one whose id was received before.
const USED_UP: &[&str] = &[
    "1:3 1=2 create c",
    "1:2 1=1 create b",
    "1:1 - create a",
    "drain",
    "stall",
    "show",
    "3:2 3=1 create e",
    "1:3 1=2 create x",
];

/// The limit of a counter, and the inbox's answers.
const COUNTED: &[(usize, &str)] = &[
    (
        0,
        "Held\nHeld\nExhausted\ndrained 0\nnone\napplied\nheld 1:2 1:3\nHeld\nConflict 1:3\n",
    ),
    (
        1,
        "Held\nHeld\nApplied 1 stalled\ndrained 0 stalled\nExhausted\napplied 1:1\nheld 1:2 1:3\nHeld stalled\nConflict 1:3\n",
    ),
    (
        2,
        "Held\nHeld\nApplied 2 stalled\ndrained 0 stalled\nExhausted\napplied 1:1 1:2\nheld 1:3\nHeld stalled\nConflict 1:3\n",
    ),
    (
        3,
        "Held\nHeld\nApplied 3\ndrained 0\nnone\napplied 1:1 1:2 1:3\nheld\nHeld\nConflict 1:3\n",
    ),
];

fn with_counter(alloc: Global, limit: usize) -> Result<Inbox<Folders, Counted>, AllocError> {
    let follower = Counted { limit, noted: 0 };
    Inbox::new(alloc, Folders::new(alloc), follower)
}

/// Whether an inbox with this limit gives these answers, and its follower noted `limit` operations.
fn is_counted_as_expected(alloc: Global, limit: usize, answers: &str) -> Result<bool, Trouble> {
    let mut inbox = with_counter(alloc, limit)?;
    let is_answered = has_answers(alloc, &mut inbox, USED_UP, answers);
    let noted = inbox.follower().noted;
    drop(inbox);
    match is_answered {
        Ok(is_answered) => Ok(is_answered && noted == limit),
        Err(trouble) => Err(trouble),
    }
}

fn first_wrong_count(alloc: Global) -> Result<Option<usize>, Trouble> {
    for (at, (limit, answers)) in COUNTED.iter().enumerate() {
        if !is_counted_as_expected(alloc, *limit, answers)? {
            return Ok(Some(at));
        }
    }
    Ok(None)
}

#[test]
fn a_counter_is_used_up(rt: HostRuntime) -> Result<(), Fail> {
    assert_eq!(rt; first_wrong_count(rt.alloc())?, None);
    Ok(())
}

/// The answer of an inbox with this limit that is to issue two operations.
fn ready_for_two(alloc: Global, limit: usize) -> Result<Result<(), IssueFault>, Trouble> {
    let mut inbox = with_counter(alloc, limit)?;
    let answer = ready_in(alloc, &mut inbox);
    drop(inbox);
    answer
}

fn ready_in(
    alloc: Global,
    inbox: &mut Inbox<Folders, Counted>,
) -> Result<Result<(), IssueFault>, Trouble> {
    let ops = operations(alloc, &["1:1 - create a", "1:2 1=1 create b"])?;
    let answer = inbox.ready(alloc, &ops);
    drop(ops);
    Ok(answer)
}

/// Whether the inbox is ready for two operations with a limit of 2, and with no lower one.
fn finds_used_up(alloc: Global) -> Result<bool, Trouble> {
    if ready_for_two(alloc, 0)? != Err(IssueFault::Exhausted) {
        return Ok(false);
    }
    if ready_for_two(alloc, 1)? != Err(IssueFault::Exhausted) {
        return Ok(false);
    }
    Ok(ready_for_two(alloc, 2)? == Ok(()))
}

#[test]
fn issuing_finds_a_used_up_counter(rt: HostRuntime) -> Result<(), Fail> {
    assert!(rt; finds_used_up(rt.alloc())?);
    Ok(())
}
