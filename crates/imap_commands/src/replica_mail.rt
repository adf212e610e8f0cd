//! What commands read of a replica.

ghost use Rattle.std.specs.Prelude.{◌≡◌, IfOk};
ghost use Rattle.imap_commands.specs.MailStates.{copy_target, counters_in, open_mailbox, rows_in};
ghost use Rattle.imap_commands.specs.MailStates.{validity_in};

use crate::command_args::{CopyTarget, OpenMailbox};
use crdt_ops::Ids;
use imap_query::MailboxCounters;
use imap_types::Name;
use mailbox_rows::Rows;
use session_view::View;
use std::alloc::{AllocError, Global};

/// What a command reads of a replica, before the operations that it issues and after them. Each
/// `Err` says that memory ran out.
pub trait ReplicaMail {
    ghost use Rattle.std.specs.Prelude.{◌≡◌, true, IfOk};
    ghost use Rattle.imap_commands.specs.MailStates.{MailState};

    /// The replica before the operations.
    ghost before: { Self → MailState };

    /// The replica after them.
    ghost after: { Self → MailState };

    /// The operations can be applied, so that the replica after them can be read.
    ghost is_ready: { Self → Type 0 };

    /// Whether there are no operations.
    fn is_unchanged(&self) -> bool
        ensures { result ≡ true → after self.now ≡ before self.now };

    /// Whether the mailbox exists.
    fn exists(&self, name: &Name) -> bool
        ensures { result ≡ (before self.now).exists name.now };

    /// The mailboxes' names.
    fn folders(&self, alloc: Global) -> Result<Vec<Name>, AllocError>
        ensures { IfOk result (λ names. names.items ≡ (before self.now).folders) };

    /// The ids of the mailbox's present tags, of the folder and of its messages.
    fn delete_set(&self, alloc: Global, name: &Name) -> Result<Ids, AllocError>
        ensures { IfOk result (λ ids. ids ≡ (before self.now).delete_set name.now) };

    /// The subscribed names.
    fn subscribed_names(&self, alloc: Global) -> Result<Vec<Name>, AllocError>
        ensures { IfOk result (λ names. names.items ≡ (before self.now).subscribed_names) };

    /// The ids of the name's present subscription tags.
    fn subscription_tags(&self, alloc: Global, name: &Name) -> Result<Ids, AllocError>
        ensures { IfOk result (λ ids. ids ≡ (before self.now).subscription_tags name.now) };

    /// The mailbox's UIDNEXT.
    fn uidnext(&self, name: &Name) -> u32
        ensures { result ≡ (before self.now).uidnext name.now };

    /// The mailbox's UIDVALIDITY, if it exists, and its listing.
    fn numbered_rows(
        &self,
        alloc: Global,
        name: &Name,
    ) -> Result<(Option<u32>, Rows<'_>), AllocError>
        ensures uidvalidity { IfOk result
            (λ numbered. numbered.0 ≡ (before self.now).uidvalidity name.now) }
        ensures rows { IfOk result
            (λ numbered. numbered.1 ≡ (before self.now).listing name.now) };

    /// The mailbox's UIDVALIDITY after the operations, if it exists then.
    fn uidvalidity_after(&self, name: &Name) -> Option<u32>
        requires { is_ready self.now }
        ensures { result ≡ (after self.now).uidvalidity name.now };

    /// The mailbox's UIDNEXT after the operations.
    fn uidnext_after(&self, name: &Name) -> u32
        requires { is_ready self.now }
        ensures { result ≡ (after self.now).uidnext name.now };

    /// The mailbox's HIGHESTMODSEQ after the operations.
    fn highest_modseq_after(&self, name: &Name) -> u64
        requires { is_ready self.now }
        ensures { result ≡ (after self.now).highest_modseq name.now };

    /// The mailbox's listing after the operations.
    fn rows_after(&self, alloc: Global, name: &Name) -> Result<Rows<'_>, AllocError>
        requires { is_ready self.now }
        ensures { IfOk result (λ rows. rows ≡ (after self.now).listing name.now) };
}

/// The mailbox of a session with this view, before the operations.
pub(crate) fn open_mailbox<'a, R: ReplicaMail>(
    alloc: Global,
    replica: &'a R,
    view: &'a View,
    read_only: bool,
) -> Result<OpenMailbox<'a>, AllocError>
    ensures { IfOk result
        (λ mailbox. mailbox ≡ open_mailbox (R.before replica.now) view.now read_only) }
{
    let (uidvalidity, rows) = replica.numbered_rows(alloc, view.name())?;
    Ok(OpenMailbox {
        name: view.name(),
        rows: view.rows_under(alloc, uidvalidity, rows),
        view,
        read_only,
    })
}

/// The mailbox of a session with this view, after the operations.
pub(crate) fn open_mailbox_after<'a, R: ReplicaMail>(
    alloc: Global,
    replica: &'a R,
    view: &'a View,
    read_only: bool,
) -> Result<OpenMailbox<'a>, AllocError>
    requires { R.is_ready replica.now }
    ensures { IfOk result
        (λ mailbox. mailbox ≡ open_mailbox (R.after replica.now) view.now read_only) }
{
    let rows = rows_after(alloc, replica, view)?;
    Ok(OpenMailbox {
        name: view.name(),
        rows,
        view,
        read_only,
    })
}

/// The rows of a view's mailbox after the operations, in the view's own incarnation.
pub(crate) fn rows_after<'a, R: ReplicaMail>(
    alloc: Global,
    replica: &'a R,
    view: &View,
) -> Result<Rows<'a>, AllocError>
    requires { R.is_ready replica.now }
    ensures { IfOk result (λ rows. rows ≡ rows_in (R.after replica.now) view.now) }
{
    let rows = replica.rows_after(alloc, view.name())?;
    Ok(view.rows_under(alloc, replica.uidvalidity_after(view.name()), rows))
}

/// The UIDVALIDITY of a mailbox that exists after the operations.
pub(crate) fn validity_after<R: ReplicaMail>(replica: &R, name: &Name) -> u32
    requires { R.is_ready replica.now }
    ensures { result ≡ validity_in (R.after replica.now) name.now }
{
    replica.uidvalidity_after(name).unwrap_or(0)
}

/// The counters of a mailbox that exists after the operations.
pub(crate) fn counters_after<R: ReplicaMail>(replica: &R, name: &Name) -> MailboxCounters
    requires { R.is_ready replica.now }
    ensures { result ≡ counters_in (R.after replica.now) name.now }
{
    MailboxCounters {
        uidvalidity: validity_after(replica, name),
        uidnext: replica.uidnext_after(name),
        highest_modseq: replica.highest_modseq_after(name),
    }
}

/// The destination of copies.
pub(crate) fn copy_target<'a, R: ReplicaMail>(
    alloc: Global,
    replica: &'a R,
    name: &Name,
) -> Result<CopyTarget<'a>, AllocError>
    requires { R.is_ready replica.now }
    ensures { IfOk result (λ target. target
        ≡ copy_target (R.before replica.now) (R.after replica.now) name.now) }
{
    let rows = replica.rows_after(alloc, name)?;
    Ok(CopyTarget {
        uidvalidity: validity_after(replica, name),
        uidnext: replica.uidnext(name),
        rows,
    })
}
