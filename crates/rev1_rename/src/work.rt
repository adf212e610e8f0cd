//! A RENAME that is being carried out, in turns at the lock.

ghost use Rattle.std.specs.Prelude.{◌≡◌, ◌⊎◌, ◌≤◌, ◌∷◌, [], IfOk, List, OnErr, OnOk, drop, false};
ghost use Rattle.std.specs.Prelude.{length, true};
ghost use Rattle.imap_node.specs.Replies.{is_done, reply_answers};
ghost use Rattle.imap_node.specs.declared.reply.Reply.{Reply};
ghost use Rattle.rev1_rename.specs.Exchanges.{AreExchanges, Exchange, names_of_answers};
ghost use Rattle.rev1_rename.specs.Steps.{AreCreations, AreRenamings, DeleteNoMessages};
ghost use Rattle.rev1_rename.specs.Steps.{DeleteNothing, done};
ghost use Rattle.rev1_rename.specs.Turns.{FindsMailboxes, Have, IsBegun, IsTurn, IsWhole};
ghost use Rattle.rev1_rename.specs.Turns.{between, list_all};

use crate::exchange::{GivenSteps, RenameFault};
use crate::mailbox_steps::{create_all, delete_created, rename_all};
use crate::reply_facts::names_in;
use crdt_ops::SoundOp;
use imap_syntax::{Command, ListNames};
use imap_types::{Moment, Name, Octets};
use replica_lock::{LockTurn, Pass};
use rev1_front::{RenamePlan, RenamedMailbox, plan_rename};
use std::alloc::{AllocError, Global};
use std::sync::ledger::Ledger;

/// A RENAME that is being carried out.
pub struct RenameWork {
    from: Name,
    to: Name,
    /// The mailboxes that are renamed; none until that is known.
    mailboxes: Vec<RenamedMailbox>,
    /// How many of the new mailboxes were created.
    created: usize,
    /// How many of the old mailboxes were emptied and, unless it is INBOX, deleted.
    renamed: usize,
    steps: GivenSteps,
}

// By hand, so that its owner drops it whole.
impl Drop for RenameWork {
    fn drop(self) {
        let Self {
            from: _,
            to: _,
            mailboxes: _,
            created: _,
            renamed: _,
            steps: _,
        } = self;
    }
}

impl RenameWork {
    /// A RENAME that arrived at this moment, of which nothing is carried out. `Err` if memory runs
    /// out.
    pub fn new(
        alloc: Global,
        moment: Moment,
        from: &Name,
        to: &Name,
    ) -> Result<RenameWork, AllocError>
        ensures { IfOk result (IsBegun from.now to.now) }
    {
        Ok(RenameWork {
            from: from.copy(alloc)?,
            to: to.copy(alloc)?,
            mailboxes: Vec::new(alloc),
            created: 0,
            renamed: 0,
            steps: GivenSteps::new(alloc, moment),
        })
    }

    /// The operations that its commands issued, in their order; without those for whose copies
    /// memory ran out.
    pub fn issued(&self) -> &[SoundOp] {
        self.steps.issued()
    }

    /// Carries out what is left: finds the mailboxes that are renamed, creates the new ones, and
    /// then empties and deletes the old ones, one after another. If a new one can't be created,
    /// those that this turn created are deleted again. No message is deleted in any case: with a
    /// fault, each is in its old mailbox or in the new one. After a fault of the log's room it can
    /// be called again in another turn, and goes on.
    pub fn finish<L: Ledger>(
        &mut self,
        alloc: Global,
        turn: &mut LockTurn<'_, L>,
        pass: &mut Pass<L>,
    ) -> Result<(), RenameFault>
        ensures turn { (calls : List Exchange)
            × AreExchanges pass.old calls pass.new
            × IsTurn self.old self.new calls }
        ensures whole { OnOk result (IsWhole self.new) }
    {
        self.find_mailboxes(alloc, turn, pass)?;
        self.create_new(alloc, turn, pass)?;
        self.rename_old(alloc, turn, pass)
    }

    /// Finds the mailboxes that are renamed, unless they are known.
    fn find_mailboxes<L: Ledger>(
        &mut self,
        alloc: Global,
        turn: &mut LockTurn<'_, L>,
        pass: &mut Pass<L>,
    ) -> Result<(), RenameFault>
        ensures names { (self.new.from ≡ self.old.from) × (self.new.to ≡ self.old.to) }
        ensures counts { (self.new.created ≡ self.old.created)
            × (self.new.renamed ≡ self.old.renamed) }
        ensures calls { (calls : List Exchange)
            × AreExchanges pass.old calls pass.new
            × DeleteNothing calls
            × ((self.new.mailboxes ≡ self.old.mailboxes)
            ⊎ ((self.old.mailboxes.items ≡ []) × FindsMailboxes self.old self.new calls)) }
    {
        if are_known(&self.mailboxes) {
            return Ok(());
        }
        let all = list_mailboxes(alloc, turn, pass, &mut self.steps)?;
        match plan_rename(alloc, &self.from, &self.to, &all)? {
            RenamePlan::Refused(why) => Err(RenameFault::Refused(why)),
            RenamePlan::Mailboxes(mailboxes) => {
                self.mailboxes = mailboxes;
                Ok(())
            }
        }
    }

    /// Creates the new mailboxes that weren't created yet. If one can't be created, those that this
    /// turn created are deleted, in which nobody else can have put a message.
    fn create_new<L: Ledger>(
        &mut self,
        alloc: Global,
        turn: &mut LockTurn<'_, L>,
        pass: &mut Pass<L>,
    ) -> Result<(), RenameFault>
        ensures names { (self.new.from ≡ self.old.from) × (self.new.to ≡ self.old.to) }
        ensures same { (self.new.mailboxes ≡ self.old.mailboxes)
            × (self.new.renamed ≡ self.old.renamed) }
        ensures calls { (creations calls : List Exchange)
            × AreExchanges pass.old calls pass.new
            × AreCreations (between self.old.created self.new.created self.new.mailboxes.items)
            creations
            × Have creations calls
            × DeleteNoMessages self.new.mailboxes.items [] calls }
        ensures whole { OnOk result (length self.new.mailboxes.items ≤ self.new.created) }
    {
        let left = after_first(&self.mailboxes, self.created);
        let mut created = 0;
        let result = create_all(alloc, turn, pass, &mut self.steps, left, &mut created);
        if result.is_err() {
            let new = left.get(..created).unwrap_or(&[]);
            delete_created(alloc, turn, pass, &mut self.steps, new);
            return result;
        }
        self.created += created;
        result
    }

    /// Empties and deletes the old mailboxes that weren't yet.
    fn rename_old<L: Ledger>(
        &mut self,
        alloc: Global,
        turn: &mut LockTurn<'_, L>,
        pass: &mut Pass<L>,
    ) -> Result<(), RenameFault>
        ensures names { (self.new.from ≡ self.old.from) × (self.new.to ≡ self.old.to) }
        ensures same { (self.new.mailboxes ≡ self.old.mailboxes)
            × (self.new.created ≡ self.old.created) }
        ensures calls { (renamings calls : List Exchange)
            × AreExchanges pass.old calls pass.new
            × AreRenamings (between self.old.renamed self.new.renamed self.new.mailboxes.items)
            renamings
            × Have renamings calls
            × DeleteNoMessages self.new.mailboxes.items [] calls }
        ensures whole { OnOk result (length self.new.mailboxes.items ≤ self.new.renamed) }
    {
        let left = after_first(&self.mailboxes, self.renamed);
        let mut renamed = 0;
        let result = rename_all(alloc, turn, pass, &mut self.steps, left, &mut renamed);
        self.renamed += renamed;
        result
    }
}

/// Whether there are mailboxes, and so it is known which are renamed.
fn are_known(mailboxes: &[RenamedMailbox]) -> bool
    ensures { result ≡ false → mailboxes.now ≡ [] }
{
    !mailboxes.is_empty()
}

/// The mailboxes after the first `count`.
fn after_first(mailboxes: &[RenamedMailbox], count: usize) -> &[RenamedMailbox]
    ensures { result.now ≡ drop count mailboxes.now }
{
    mailboxes.get(count..).unwrap_or(&[])
}

/// The names of all mailboxes.
fn list_mailboxes<L: Ledger>(
    alloc: Global,
    turn: &mut LockTurn<'_, L>,
    pass: &mut Pass<L>,
    steps: &mut GivenSteps,
) -> Result<Vec<Name>, RenameFault>
    ensures ok { IfOk result (λ names. (reply : Reply)
        × (is_done reply ≡ true)
        × AreExchanges pass.old (done list_all reply ∷ []) pass.new
        × (names.items ≡ names_of_answers (reply_answers reply))) }
    ensures err { OnErr result ((calls : List Exchange)
        × AreExchanges pass.old calls pass.new
        × DeleteNothing calls) }
{
    let list = Command::ListNames(ListNames {
        subscribed_only: false,
        reference: Octets::from_slice(alloc, b"")?,
        pattern: Octets::from_slice(alloc, b"*")?,
        return_subscribed: false,
    });
    let reply = steps.give(alloc, turn, pass, list)?;
    Ok(names_in(alloc, &reply)?)
}
