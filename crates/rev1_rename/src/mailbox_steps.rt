//! What RENAME gives to its session for mailboxes, in one turn at the lock.

ghost use Rattle.std.specs.Prelude.{◌≡◌, ◌≤◌, ◌++◌, ◌∷◌, [], List, OnOk, ℕ, length, take, true};
ghost use Rattle.imap_node.specs.Replies.{is_done};
ghost use Rattle.imap_node.specs.declared.reply.Reply.{Reply};
ghost use Rattle.rev1_rename.specs.Exchanges.{AreExchanges, Exchange};
ghost use Rattle.rev1_rename.specs.Steps.{AreCreations, AreDeletionsOf, AreRenamings};
ghost use Rattle.rev1_rename.specs.Steps.{DeleteNoMessages, DeleteNothing, IsAtMostDelete};
ghost use Rattle.rev1_rename.specs.Steps.{IsDeletion, IsEmptying, IsRenaming, MoveNothing, done};
ghost use Rattle.rev1_rename.specs.Steps.{move_all_to};

use crate::exchange::{GivenSteps, RenameFault};
use crate::reply_facts::{all_messages, has_messages};
use imap_syntax::{Command, Transfer};
use imap_types::Name;
use replica_lock::{LockTurn, Pass};
use rev1_front::RenamedMailbox;
use std::alloc::Global;
use std::sync::ledger::Ledger;

/// Creates the new mailboxes, in their order, and counts them.
pub(crate) fn create_all<L: Ledger>(
    alloc: Global,
    turn: &mut LockTurn<'_, L>,
    pass: &mut Pass<L>,
    steps: &mut GivenSteps,
    mailboxes: &[RenamedMailbox],
    created: &mut usize,
) -> Result<(), RenameFault>
    requires { created.old ≡ 0 }
    ensures count { created.new ≤ length mailboxes.now }
    ensures whole { OnOk result (created.new ≡ length mailboxes.now) }
    ensures calls { (creations rest : List Exchange)
        × AreExchanges pass.old (creations ++ rest) pass.new
        × AreCreations (take created.new mailboxes.now) creations
        × DeleteNothing rest
        × MoveNothing rest }
{
    for mailbox in mailboxes {
        let name = mailbox.to.copy(alloc)?;
        let reply = steps.give(alloc, turn, pass, Command::Create { name })?;
        drop(reply);
        *created += 1;
    }
    Ok(())
}

/// Deletes new mailboxes, as far as memory and room suffice.
pub(crate) fn delete_created<L: Ledger>(
    alloc: Global,
    turn: &mut LockTurn<'_, L>,
    pass: &mut Pass<L>,
    steps: &mut GivenSteps,
    mailboxes: &[RenamedMailbox],
)
    ensures { (calls : List Exchange) × AreExchanges pass.old calls pass.new
        × AreDeletionsOf mailboxes.now calls }
{
    for mailbox in mailboxes {
        if let Ok(name) = mailbox.to.copy(alloc) {
            drop(steps.give(alloc, turn, pass, Command::Delete { name }));
        }
    }
}

/// Empties the old mailboxes and deletes them, each in its turn, and counts them.
pub(crate) fn rename_all<L: Ledger>(
    alloc: Global,
    turn: &mut LockTurn<'_, L>,
    pass: &mut Pass<L>,
    steps: &mut GivenSteps,
    mailboxes: &[RenamedMailbox],
    renamed: &mut usize,
) -> Result<(), RenameFault>
    requires { renamed.old ≡ 0 }
    ensures count { renamed.new ≤ length mailboxes.now }
    ensures whole { OnOk result (renamed.new ≡ length mailboxes.now) }
    ensures calls { (renamings rest : List Exchange)
        × AreExchanges pass.old (renamings ++ rest) pass.new
        × AreRenamings (take renamed.new mailboxes.now) renamings
        × DeleteNoMessages mailboxes.now [] (renamings ++ rest) }
{
    for mailbox in mailboxes {
        rename_one(alloc, turn, pass, steps, mailbox)?;
        *renamed += 1;
    }
    Ok(())
}

/// Moves all messages of the old mailbox to the new one, and then deletes the old one.
fn rename_one<L: Ledger>(
    alloc: Global,
    turn: &mut LockTurn<'_, L>,
    pass: &mut Pass<L>,
    steps: &mut GivenSteps,
    mailbox: &RenamedMailbox,
) -> Result<(), RenameFault>
    ensures { (calls : List Exchange) × AreExchanges pass.old calls pass.new
        × DeleteNoMessages (mailbox.now ∷ []) [] calls
        × OnOk result (IsRenaming mailbox.now calls) }
{
    empty(alloc, turn, pass, steps, mailbox)?;
    delete_old(alloc, turn, pass, steps, mailbox)
}

/// Moves all messages of the old mailbox to the new one.
fn empty<L: Ledger>(
    alloc: Global,
    turn: &mut LockTurn<'_, L>,
    pass: &mut Pass<L>,
    steps: &mut GivenSteps,
    mailbox: &RenamedMailbox,
) -> Result<(), RenameFault>
    ensures { (calls : List Exchange) × AreExchanges pass.old calls pass.new
        × DeleteNothing calls
        × OnOk result (IsEmptying mailbox.now calls) }
{
    let select = Command::Select {
        name: mailbox.from.copy(alloc)?,
        condstore: false,
    };
    let selected = steps.give(alloc, turn, pass, select)?;
    if has_messages(&selected) {
        move_all(alloc, turn, pass, steps, &mailbox.to)?;
    }
    let left = steps.give(alloc, turn, pass, Command::Unselect)?;
    drop(left);
    Ok(())
}

/// Moves all messages of the selected mailbox to the mailbox with this name.
fn move_all<L: Ledger>(
    alloc: Global,
    turn: &mut LockTurn<'_, L>,
    pass: &mut Pass<L>,
    steps: &mut GivenSteps,
    name: &Name,
) -> Result<(), RenameFault>
    ensures { (calls : List Exchange) × AreExchanges pass.old calls pass.new
        × DeleteNothing calls
        × OnOk result ((moved : Reply) × (is_done moved ≡ true)
        × (calls ≡ done (move_all_to name.now) moved ∷ [])) }
{
    let transfer = Transfer {
        by_uid: true,
        messages: all_messages(alloc)?,
        name: name.copy(alloc)?,
    };
    let moved = steps.give(alloc, turn, pass, Command::Move(transfer))?;
    drop(moved);
    Ok(())
}

/// Deletes the old mailbox, unless it is INBOX.
fn delete_old<L: Ledger>(
    alloc: Global,
    turn: &mut LockTurn<'_, L>,
    pass: &mut Pass<L>,
    steps: &mut GivenSteps,
    mailbox: &RenamedMailbox,
) -> Result<(), RenameFault>
    ensures { (calls : List Exchange) × AreExchanges pass.old calls pass.new
        × IsAtMostDelete mailbox.now.from calls
        × OnOk result (IsDeletion mailbox.now calls) }
{
    if mailbox.from.is_inbox() {
        return Ok(());
    }
    let name = mailbox.from.copy(alloc)?;
    let deleted = steps.give(alloc, turn, pass, Command::Delete { name })?;
    drop(deleted);
    Ok(())
}
