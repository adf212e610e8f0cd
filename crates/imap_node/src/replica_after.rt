//! A replica after an input's operations, as commands read it.

ghost use Rattle.std.specs.Prelude.{◌≡◌, ◌++◌, IfOk};
ghost use Rattle.imap_node.specs.Mailboxes.{rows_for};
ghost use Rattle.imap_node.specs.Nodes.{IsReady};

use crate::replica::ReplicaState;
use crdt_ops::{Ids, SoundOp};
use imap_commands::ReplicaMail;
use imap_types::Name;
use mailbox_rows::Rows;
use session_view::View;
use std::alloc::{AllocError, Global};

/// A replica, and an input's operations, which come after those that it applied.
#[derive(Drop)]
pub struct ReplicaAfter<'a> {
    /// The replica.
    pub replica: &'a ReplicaState,
    /// The operations.
    pub ops: &'a [SoundOp],
}

impl<'a> ReplicaMail for ReplicaAfter<'a> {
    ghost use Rattle.std.specs.Prelude.{◌++◌};
    ghost use Rattle.imap_node.specs.Mailboxes.{mail_state};
    ghost use Rattle.imap_node.specs.Nodes.{IsReady};

    ghost before = { λ r. mail_state r.replica.now.start r.replica.now.applied };

    ghost after = { λ r. mail_state r.replica.now.start (r.replica.now.applied ++ r.ops.now) };

    ghost is_ready = { λ r. IsReady r.replica.now r.ops.now };

    fn is_unchanged(&self) -> bool {
        self.ops.is_empty()
    }

    fn exists(&self, name: &Name) -> bool {
        self.replica.exists(name)
    }

    fn folders(&self, alloc: Global) -> Result<Vec<Name>, AllocError> {
        self.replica.folders(alloc)
    }

    fn delete_set(&self, alloc: Global, name: &Name) -> Result<Ids, AllocError> {
        self.replica.delete_set(alloc, name)
    }

    fn subscribed_names(&self, alloc: Global) -> Result<Vec<Name>, AllocError> {
        self.replica.subscribed_names(alloc)
    }

    fn subscription_tags(&self, alloc: Global, name: &Name) -> Result<Ids, AllocError> {
        self.replica.subscription_tags(alloc, name)
    }

    fn uidnext(&self, name: &Name) -> u32 {
        self.replica.uidnext(name)
    }

    fn numbered_rows(
        &self,
        alloc: Global,
        name: &Name,
    ) -> Result<(Option<u32>, Rows<'_>), AllocError> {
        self.replica.numbered_rows(alloc, name)
    }

    fn uidvalidity_after(&self, name: &Name) -> Option<u32> {
        self.replica.uidvalidity_after(name, self.ops)
    }

    fn uidnext_after(&self, name: &Name) -> u32 {
        self.replica.uidnext_after(name, self.ops)
    }

    fn highest_modseq_after(&self, name: &Name) -> u64 {
        self.replica.highest_after(name, self.ops)
    }

    fn rows_after(&self, alloc: Global, name: &Name) -> Result<Rows<'_>, AllocError> {
        self.replica.rows_after(alloc, name, self.ops)
    }
}

/// The rows of a view's mailbox after these operations, in the view's own incarnation.
pub fn rows_after<'a>(
    alloc: Global,
    replica: &'a ReplicaState,
    ops: &'a [SoundOp],
    view: &View,
) -> Result<Rows<'a>, AllocError>
    requires { IsReady replica.now ops.now }
    ensures { IfOk result
        (λ rows. rows ≡ rows_for replica.now.start (replica.now.applied ++ ops.now) view.now) }
{
    let rows = replica.rows_after(alloc, view.name(), ops)?;
    Ok(view.rows_under(alloc, replica.uidvalidity_after(view.name(), ops), rows))
}
