//! The state that a case of UIDs works on.

ghost use Rattle.std.specs.Prelude.{◌≡◌, ◌≤◌, IfOk};
ghost use Rattle.folder_state.specs.Contents.{IsMadeBy};
ghost use Rattle.folder_state.specs.Tables.{contents_of};
ghost use Rattle.uid_projection.specs.Following.{Follows};
ghost use Rattle.uid_projection.specs.Listing.{listing};

use crate::setup::{Mailboxes, empty};
use causal_inbox::{DeliverFault, Delivered, Inbox, IssueFault};
use crdt_ops::SoundOp;
use folder_state::Folders;
use imap_types::Name;
use mailbox_rows::Rows;
use merge_laws::FirstFollower;
use std::alloc::{AllocError, Global};
use uid_projection::{Charts, Counters};

/// A replica's inbox, whose charts follow its folders.
pub type Node = Inbox<Mailboxes, FirstFollower<Charts>>;

/// The state that a case works on: an inbox, and operations that come next.
#[derive(Drop)]
pub struct Setup {
    /// The inbox.
    pub inbox: Node,
    /// Operations that come next, in this order.
    pub next: Vec<SoundOp>,
}

impl Setup {
    /// An inbox that received nothing, with these counters, and no operations. `Err` if memory runs
    /// out.
    pub fn new(alloc: Global, start: Counters) -> Result<Setup, AllocError>
        requires { 1 ≤ start.uid }
    {
        match node(alloc, start) {
            Ok(inbox) => Ok(Setup {
                inbox,
                next: Vec::new(alloc),
            }),
            Err(AllocError) => Err(AllocError),
        }
    }
}

/// An inbox that received nothing, with these counters. `Err` if memory runs out.
fn node(alloc: Global, start: Counters) -> Result<Node, AllocError>
    requires { 1 ≤ start.uid }
{
    let charts = Charts::new(alloc, start)?;
    Inbox::new(alloc, empty(alloc), FirstFollower { follower: charts })
}

/// Delivers an operation.
pub fn deliver(alloc: Global, inbox: &mut Node, op: SoundOp) -> Result<Delivered, DeliverFault> {
    inbox.deliver(alloc, op)
}

/// Makes the inbox ready for operations of its own.
pub fn make_ready(alloc: Global, inbox: &mut Node, ops: &[SoundOp]) -> Result<(), IssueFault> {
    inbox.ready(alloc, ops)
}

/// The charts that follow the inbox's folders.
pub fn charts(inbox: &Node) -> &Charts
    ensures follows { Follows result.now inbox.now.received.applied }
    ensures start { result.now.start ≡ inbox.now.received.start }
{
    &inbox.follower().follower
}

/// The inbox's folders.
pub fn folders(inbox: &Node) -> &Folders
    ensures { IsMadeBy (contents_of result.now) inbox.now.received.applied }
{
    let _applied = inbox.op_list();
    &inbox.value().first
}

/// The folder's listing after the operations that the inbox applied. `Err` if memory runs out.
pub fn listing<'a>(alloc: Global, inbox: &'a Node, name: &Name) -> Result<Rows<'a>, AllocError>
    ensures { IfOk result
        (λ rows. rows ≡ listing inbox.now.received.start name.now inbox.now.received.applied) }
{
    charts(inbox).rows(alloc, folders(inbox), name)
}
