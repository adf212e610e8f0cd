//! The commands of RENAME, as calls of a session in a turn at the lock.

ghost use Rattle.std.specs.Prelude.{◌≡◌, IfOk, Some, option_map, true};
ghost use Rattle.imap_node.specs.Replies.{is_done};
ghost use Rattle.replica_lock.specs.declared.outcome.Outcome.TheVariants.{Replied};
ghost use Rattle.rev1_rename.specs.Exchanges.{Gives};

use crdt_ops::SoundOp;
use imap_answers::Refusal;
use imap_node::Reply;
use imap_syntax::{Command, Tagged};
use imap_types::{Moment, Octets};
use merge_laws::Caused;
use replica_lock::{CallFault, LockTurn, Outcome, Pass};
use std::alloc::{AllocError, AllocFailed, Global};
use std::sync::ledger::Ledger;

/// Why a step of RENAME wasn't carried out.
#[derive(Drop)]
pub enum RenameFault {
    /// The replica refused a command, or the mailboxes can't be renamed.
    Refused(Refusal),
    /// A call wasn't made.
    Call(CallFault),
    /// The session is closed, or its reply can't be copied.
    NoReply,
}

impl<T: Drop> From<AllocFailed<T>> for RenameFault {
    fn from(_none: AllocFailed<T>) -> RenameFault {
        RenameFault::Refused(Refusal::NoMemory)
    }
}

impl From<AllocError> for RenameFault {
    fn from(_none: AllocError) -> RenameFault {
        RenameFault::Refused(Refusal::NoMemory)
    }
}

/// When a RENAME arrived, and the operations that its commands issued.
pub struct GivenSteps {
    moment: Moment,
    issued: Vec<SoundOp>,
}

// By hand, so that its owner drops it whole.
impl Drop for GivenSteps {
    fn drop(self) {
        let Self {
            moment: _,
            issued: _,
        } = self;
    }
}

impl GivenSteps {
    /// Those of a RENAME that arrived at this moment, none of whose commands was given yet.
    pub(crate) fn new(alloc: Global, moment: Moment) -> GivenSteps {
        GivenSteps {
            moment,
            issued: Vec::new(alloc),
        }
    }

    /// The operations that were issued, in their order.
    pub(crate) fn issued(&self) -> &[SoundOp] {
        &self.issued
    }

    /// Notes what a command issued. If memory runs out for an operation, it is left out: the other
    /// replicas ask for what they lack.
    fn note(&mut self, alloc: Global, reply: &Reply) {
        if let Reply::Done { issued, .. } = reply {
            for op in issued.as_slice() {
                if let Ok(op) = op.copy(alloc) {
                    drop(self.issued.push(op));
                }
            }
        }
    }

    /// Gives the session of a pass a command, and notes what it issued.
    pub(crate) fn give<L: Ledger>(
        &mut self,
        alloc: Global,
        turn: &mut LockTurn<'_, L>,
        pass: &mut Pass<L>,
        command: Command,
    ) -> Result<Reply, RenameFault>
        ensures { Gives pass.old command result pass.new }
    {
        let reply = give_command(alloc, turn, pass, self.moment, command)?;
        self.note(alloc, &reply);
        Ok(reply)
    }
}

/// Gives the session of a pass a command, which arrived at this moment.
fn give_command<L: Ledger>(
    alloc: Global,
    turn: &mut LockTurn<'_, L>,
    pass: &mut Pass<L>,
    moment: Moment,
    command: Command,
) -> Result<Reply, RenameFault>
    ensures { Gives pass.old command result pass.new }
{
    if pass.session().is_none() {
        drop(command);
        return Err(RenameFault::NoReply);
    }
    let tag = match Octets::from_slice(alloc, b"r") {
        Ok(tag) => tag,
        Err(_) => {
            drop(command);
            return Err(RenameFault::Refused(Refusal::NoMemory));
        }
    };
    match turn.command(alloc, pass, moment, Tagged { tag, command }) {
        Ok(()) => done_reply(pass.last()),
        Err(fault) => Err(RenameFault::Call(fault)),
    }
}

/// The reply of a call, if it carried out its command.
fn done_reply(last: Option<&Outcome>) -> Result<Reply, RenameFault>
    ensures { IfOk result (λ reply. (is_done reply ≡ true)
        × (option_map (λ o. o.now) last.entry ≡ Some (Replied reply))) }
{
    let Some(Outcome::Replied { reply }) = last else {
        return Err(RenameFault::NoReply);
    };
    if let Reply::Refused { why, .. } = reply {
        return Err(RenameFault::Refused(*why));
    }
    match reply.copy() {
        Ok(reply) => Ok(reply),
        Err(_) => Err(RenameFault::NoReply),
    }
}
