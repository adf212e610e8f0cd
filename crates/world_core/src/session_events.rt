//! Events at the node that they name.

ghost use Rattle.std.specs.Prelude.{◌≡◌, ◌↔◌, IsTrue, false, true};
ghost use Rattle.imap_node.specs.declared.input.Input.TheVariants as inputs;
ghost use Rattle.world_core.specs.Steps.{AnswersBy, AwaitsInput, ClosesBy, DrainsBy, OpensBy};
ghost use Rattle.world_core.specs.Steps.{DeliversOne};
ghost use Rattle.world_core.specs.Restarts.{RestartsBy};

use crate::event::Outcome;
use crate::world_join::JoinRefusal;
use crate::world_restart::restarted_node;
use crdt_ops::SoundOp;
use imap_node::{Auth, Node, OpenFault, SessionNo};
use imap_syntax::{IdleLine, Tagged};
use imap_types::Moment;
use std::alloc::Global;
use std::mem;

/// Opens a session.
pub fn open(node: &mut Node, auth: Auth) -> Outcome
    ensures { OpensBy node.old.state auth result node.new.state }
{
    match node.open(auth) {
        Ok(session) => Outcome::Opened { session },
        Err(OpenFault::TooManySessions) => Outcome::NotOpened {
            fault: OpenFault::TooManySessions,
        },
        Err(OpenFault::NoMemory) => Outcome::NotOpened {
            fault: OpenFault::NoMemory,
        },
    }
}

/// Whether the session is open, and idles exactly when `idles`.
fn awaits(node: &Node, session: SessionNo, idles: bool) -> bool
    ensures { IsTrue result ↔ AwaitsInput node.now.state session idles }
{
    match node.session(session) {
        None => false,
        Some(entry) => entry.idling.is_some() == idles,
    }
}

/// Gives a command to a session that doesn't idle.
pub fn command(
    alloc: Global,
    node: &mut Node,
    session: SessionNo,
    moment: Moment,
    tagged: Tagged,
) -> Outcome
    ensures { AnswersBy node.old.state session false (inputs.Command moment tagged) result
        node.new.state }
{
    if awaits(node, session, false) {
        Outcome::Replied {
            reply: node.command(alloc, session, moment, tagged),
        }
    } else {
        drop(tagged);
        Outcome::PassedOver
    }
}

/// Gives a line to a session that idles.
pub fn idle_line(alloc: Global, node: &mut Node, session: SessionNo, line: IdleLine) -> Outcome
    ensures { AnswersBy node.old.state session true (inputs.Line line) result node.new.state }
{
    if awaits(node, session, true) {
        Outcome::Replied {
            reply: node.done(alloc, session, line),
        }
    } else {
        Outcome::PassedOver
    }
}

/// Sends a session that idles what changed.
pub fn poll(alloc: Global, node: &mut Node, session: SessionNo) -> Outcome
    ensures { AnswersBy node.old.state session true inputs.Poll result node.new.state }
{
    if awaits(node, session, true) {
        Outcome::Replied {
            reply: node.poll(alloc, session),
        }
    } else {
        Outcome::PassedOver
    }
}

/// Delivers an operation.
pub fn deliver(alloc: Global, node: &mut Node, op: SoundOp) -> Outcome
    ensures { DeliversOne node.old.state op result node.new.state }
{
    match node.deliver(alloc, op) {
        Ok(delivered) => Outcome::Taken { delivered },
        Err(fault) => Outcome::NotTaken { fault },
    }
}

/// Applies the held operations that can be applied.
pub fn drain(alloc: Global, node: &mut Node) -> Outcome
    ensures { DrainsBy node.old.state result node.new.state }
{
    Outcome::Drained {
        drained: node.drain(alloc),
    }
}

/// Closes a session.
pub fn close(node: &mut Node, session: SessionNo) -> Outcome
    ensures { ClosesBy node.old.state session result node.new.state }
{
    if node.is_open(session) {
        node.close(session);
        Outcome::Closed
    } else {
        Outcome::PassedOver
    }
}

/// Makes the node again from the operations that it applied.
pub fn restart(alloc: Global, node: &mut Node) -> Outcome
    ensures { RestartsBy node.old.state result node.new.state }
{
    match restarted_node(alloc, node) {
        Ok(restarted) => {
            drop(mem::replace(node, restarted));
            Outcome::Restarted
        }
        Err(JoinRefusal::Exhausted) => Outcome::NotRestarted {
            fault: JoinRefusal::Exhausted,
        },
        Err(JoinRefusal::NoMemory) => Outcome::NotRestarted {
            fault: JoinRefusal::NoMemory,
        },
    }
}
