//! Operations that lines spell, and an inbox's answers to them.

ghost use Rattle.std.specs.Prelude.{◌≡◌};
ghost use Rattle.folder_state.specs.Contents.{no_contents};
ghost use Rattle.folder_state.specs.Tables.{contents_of};
ghost use Rattle.subs_state.specs.Subscriptions.{no_subscriptions};
ghost use Rattle.subs_state.specs.Table.{subscriptions_of};

use crate::state_text::{write_delivered, write_drained, write_received, write_stall};
use causal_inbox::Inbox;
use crdt_ops::{Op, OpFault, SoundOp, into_sound_op, read_op};
use folder_state::Folders;
use merge_laws::{Follower, Pair, Replicated, Unfollowed};
use std::alloc::{AllocError, AllocFailed, Global};
use subs_state::Subs;

/// Folders and subscriptions.
pub type Mailboxes = Pair<Folders, Subs>;

/// Why a fixture can't be made.
#[derive(Debug, Drop)]
pub enum Trouble {
    /// Memory ran out.
    NoMemory,
    /// A line or a generated value is no sound operation.
    NotInForm,
}

impl From<AllocError> for Trouble {
    fn from(_fault: AllocError) -> Trouble {
        Trouble::NoMemory
    }
}

impl<T: Drop> From<AllocFailed<T>> for Trouble {
    fn from(_fault: AllocFailed<T>) -> Trouble {
        Trouble::NoMemory
    }
}

/// The operation that a line spells.
pub fn operation(alloc: Global, line: &str) -> Result<SoundOp, Trouble> {
    match read_op(alloc, line.as_bytes()) {
        Ok(op) => sound(op),
        Err(OpFault::NoMemory) => Err(Trouble::NoMemory),
        Err(OpFault::NotInForm) => Err(Trouble::NotInForm),
    }
}

/// The same operation, if it is sound.
pub fn sound(op: Op) -> Result<SoundOp, Trouble> {
    into_sound_op(op).ok_or(Trouble::NotInForm)
}

/// The operations that these lines spell.
pub fn operations(alloc: Global, lines: &[&str]) -> Result<Vec<SoundOp>, Trouble> {
    let mut ops = Vec::new(alloc);
    for line in lines {
        ops.push(operation(alloc, line)?)?;
    }
    Ok(ops)
}

/// Empty folders and subscriptions.
pub fn empty(alloc: Global) -> Mailboxes
    ensures folders { contents_of result.first ≡ no_contents }
    ensures subs { subscriptions_of result.second ≡ no_subscriptions }
{
    Pair {
        first: Folders::new(alloc),
        second: Subs::new(alloc),
    }
}

/// An inbox over folders and subscriptions, without a follower.
pub type Node = Inbox<Mailboxes, Unfollowed>;

/// An inbox that has received nothing.
pub fn node(alloc: Global) -> Result<Node, AllocError> {
    Inbox::new(alloc, empty(alloc), Unfollowed)
}

/// For each line, delivers its operation, or drains the inbox, asks why it stalls or shows its ids,
/// and appends the answer, a line each.
pub fn play_all<R: Replicated<Op = SoundOp>, F: Follower<R>>(
    alloc: Global,
    inbox: &mut Inbox<R, F>,
    lines: &[&str],
    text: &mut String,
) -> Result<(), Trouble> {
    for line in lines {
        play(alloc, inbox, line, text)?;
    }
    Ok(())
}

/// Delivers the operation of a line, or drains the inbox, asks why it stalls or shows its ids, and
/// appends the answer as a line.
pub fn play<R: Replicated<Op = SoundOp>, F: Follower<R>>(
    alloc: Global,
    inbox: &mut Inbox<R, F>,
    line: &str,
    text: &mut String,
) -> Result<(), Trouble> {
    let done = match line {
        "drain" => write_drained(text, inbox.drain(alloc)),
        "stall" => write_stall(text, inbox.stall(alloc)),
        "show" => write_received(inbox.op_list(), &inbox.held(), text),
        _ => write_delivered(text, inbox.deliver(alloc, operation(alloc, line)?)),
    };
    Ok(done?)
}
