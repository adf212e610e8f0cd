//! The state that a case of operations works on.

ghost use Rattle.std.specs.Prelude.{◌≡◌};
ghost use Rattle.folder_state.specs.Contents.{no_contents};
ghost use Rattle.folder_state.specs.Tables.{contents_of};
ghost use Rattle.subs_state.specs.Subscriptions.{no_subscriptions};
ghost use Rattle.subs_state.specs.Table.{subscriptions_of};

use crate::given::Given;
use causal_inbox::{DeliverFault, Delivered, Inbox};
use crdt_ops::SoundOp;
use folder_state::Folders;
use merge_laws::{FirstFollower, Pair, Unfollowed};
use std::alloc::{AllocError, Global};
use subs_state::Subs;

/// Folders and subscriptions.
pub type Mailboxes = Pair<Folders, Subs>;

/// A replica's inbox.
pub type Node = Inbox<Mailboxes, FirstFollower<Unfollowed>>;

/// The state that a case works on: an inbox, and operations for it.
#[derive(Drop)]
pub struct Setup {
    /// The inbox.
    pub inbox: Node,
    /// Operations that are delivered in each order.
    pub given: Given,
}

impl Setup {
    /// An inbox that received nothing, and no operations. `Err` if memory runs out.
    pub fn new(alloc: Global) -> Result<Setup, AllocError> {
        match node(alloc) {
            Ok(inbox) => Ok(Setup {
                inbox,
                given: Given::none(alloc),
            }),
            Err(AllocError) => Err(AllocError),
        }
    }
}

/// No folders and no subscriptions.
pub fn empty(alloc: Global) -> Mailboxes
    ensures folders { contents_of result.first ≡ no_contents }
    ensures subs { subscriptions_of result.second ≡ no_subscriptions }
{
    Pair {
        first: Folders::new(alloc),
        second: Subs::new(alloc),
    }
}

/// An inbox that received nothing. `Err` if memory runs out.
pub fn node(alloc: Global) -> Result<Node, AllocError> {
    let follower = FirstFollower {
        follower: Unfollowed,
    };
    Inbox::new(alloc, empty(alloc), follower)
}

/// Delivers an operation.
pub fn deliver(alloc: Global, inbox: &mut Node, op: SoundOp) -> Result<Delivered, DeliverFault> {
    inbox.deliver(alloc, op)
}
