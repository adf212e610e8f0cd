//! RENAME of IMAP4rev1 by a second session of the connection, in one turn at the lock. If the
//! replica's log lacks room, the turn ends, room is made, and another turn goes on.

ghost use Rattle.std.specs.Prelude.{◌≡◌, IfOk, List, OnOk};
ghost use Rattle.rev1_connection.specs.declared.rename_port.RenameEnd.TheVariants.{Renamed};
ghost use Rattle.rev1_rename.specs.Exchanges.{AreExchanges, Exchange};
ghost use Rattle.rev1_rename.specs.Turns.{AreTurns, IsTurn, IsWhole};
ghost use Rattle.server_runtime.specs.Renames.{RenamesInTurns, TakesTurns};

use crate::connection_threads::ReplicaContext;
use crate::peer_sender::PeerSender;
use crate::replica_store::Growth;
use crate::session_port::{SessionPort, fault_of, moment_now, pass_gate};
use imap_answers::Refusal;
use imap_connection::PortFault;
use imap_node::Auth;
use imap_types::Name;
use replica_links::Gate;
use replica_lock::{CallFault, Pass, Shared};
use rev1_connection::{RenameEnd, RenamePort};
use rev1_rename::{RenameFault, RenameWork};
use std::alloc::Global;
use std::rt::Clock;
use std::sync::ledger::Ledger;
use std::sync::{MutexGuard, Wait};

/// The most turns at the lock that a RENAME takes.
const MOST_TURNS: u32 = 1_024;

impl<'a, L: Ledger, R: Wait + Clock, G: Gate> RenamePort for SessionPort<'a, L, R, G> {
    /// The connection's own session and position stay: RENAME is given to a second session. If the
    /// mailboxes have their new names, turns of some pass gave them these.
    ghost renames = { λ s from to r t. (t.at ≡ s.at) × RenamesInTurns from to r };

    fn rename(&mut self, alloc: Global, from: &Name, to: &Name) -> Result<RenameEnd, PortFault> {
        pass_gate(self.gate, &mut self.commands, 1);
        if !self.client.state.is_known(self.rt) {
            return Ok(RenameEnd::Refused(Refusal::NotNow));
        }
        self.count(1, 0);
        let Ok(work) = RenameWork::new(alloc, moment_now(self.rt), from, to) else {
            return Ok(RenameEnd::Refused(Refusal::NoMemory));
        };
        let mut second = self.second.lock(self.rt);
        match &mut *second {
            Some(pass) => rename_in_session(self.rt, alloc, self.context, pass, work),
            None => Ok(RenameEnd::NoSecondSession),
        }
    }
}

/// Carries out a RENAME in a session of its own.
fn rename_in_session<L: Ledger, R: Wait + Clock>(
    rt: &R,
    alloc: Global,
    context: &ReplicaContext<'_, L>,
    pass: &mut Pass<L>,
    work: RenameWork,
) -> Result<RenameEnd, PortFault>
    ensures { TakesTurns work result }
{
    if !open_second(rt, alloc, context.shared, pass) {
        return Ok(RenameEnd::NoSecondSession);
    }
    let mut work = work;
    let end = rename_all(rt, alloc, context, pass, &mut work);
    close_second(rt, alloc, context.shared, pass);
    end
}

/// Opens a session for a pass. False if it has one, or if none can be opened.
fn open_second<L: Ledger, R: Wait>(
    rt: &R,
    alloc: Global,
    shared: &Shared<L>,
    pass: &mut Pass<L>,
) -> bool {
    if pass.session().is_some() {
        return false;
    }
    if shared.open(rt, alloc, pass, Auth::Preauth).is_err() {
        return false;
    }
    pass.session().is_some()
}

/// Closes the session of a pass, if it has one.
fn close_second<L: Ledger, R: Wait>(rt: &R, alloc: Global, shared: &Shared<L>, pass: &mut Pass<L>) {
    if pass.session().is_some() {
        let _ = shared.close(rt, alloc, pass);
    }
}

/// Renames mailboxes, and sends the others what that issued.
fn rename_all<L: Ledger, R: Wait + Clock>(
    rt: &R,
    alloc: Global,
    context: &ReplicaContext<'_, L>,
    pass: &mut Pass<L>,
    work: &mut RenameWork,
) -> Result<RenameEnd, PortFault>
    ensures turns { (turns : List (List Exchange))
        × AreTurns work.old pass.old turns work.new pass.new }
    ensures whole { IfOk result (λ end. end ≡ Renamed → IsWhole work.new) }
{
    let _send_lock = send_lock(rt, context);
    let end = take_turns(rt, alloc, context, pass, work);
    if context.store.is_none() {
        PeerSender::new(rt, context.server, context.own).send_to_all(alloc, work.issued());
    }
    end
}

/// The lock that orders the sending of the replica's operations, unless it has a store.
fn send_lock<'a, L: Ledger, R: Wait>(
    rt: &R,
    context: &ReplicaContext<'a, L>,
) -> Option<MutexGuard<'a, ()>> {
    if context.store.is_some() {
        return None;
    }
    let handle = context.server.replicas.get(context.own)?;
    Some(handle.send_lock.lock(rt))
}

/// Carries out a RENAME in turns at the lock: in one, unless room has to be made in the log.
fn take_turns<L: Ledger, R: Wait + Clock>(
    rt: &R,
    alloc: Global,
    context: &ReplicaContext<'_, L>,
    pass: &mut Pass<L>,
    work: &mut RenameWork,
) -> Result<RenameEnd, PortFault>
    ensures turns { (turns : List (List Exchange))
        × AreTurns work.old pass.old turns work.new pass.new }
    ensures whole { IfOk result (λ end. end ≡ Renamed → IsWhole work.new) }
{
    for _ in 0..MOST_TURNS {
        let fault = match take_turn(rt, alloc, context.shared, pass, work) {
            Ok(()) => return Ok(RenameEnd::Renamed),
            Err(fault) => fault,
        };
        if !has_made_room(rt, alloc, context, &fault) {
            return end_of(fault);
        }
    }
    Ok(RenameEnd::Refused(Refusal::NoStoreRoom))
}

/// Carries out what is left of a RENAME in one turn at the lock.
fn take_turn<L: Ledger, R: Wait>(
    rt: &R,
    alloc: Global,
    shared: &Shared<L>,
    pass: &mut Pass<L>,
    work: &mut RenameWork,
) -> Result<(), RenameFault>
    ensures turn { (calls : List Exchange)
        × AreExchanges pass.old calls pass.new
        × IsTurn work.old work.new calls }
    ensures whole { OnOk result (IsWhole work.new) }
{
    let mut turn = shared.turn(rt);
    let end = work.finish(alloc, &mut turn, pass);
    shared.end(turn);
    end
}

/// Makes the room in the replica's log for want of which a RENAME wasn't carried out. False if it
/// can't, or if the fault is another one.
fn has_made_room<L: Ledger, R: Wait + Clock>(
    rt: &R,
    alloc: Global,
    context: &ReplicaContext<'_, L>,
    fault: &RenameFault,
) -> bool {
    match (context.store, fault) {
        (Some(store), RenameFault::Call(CallFault::NoStoreRoom { octets })) => {
            matches!(store.grow(rt, alloc, context, *octets), Growth::HasRoom)
        }
        _ => false,
    }
}

/// How a RENAME with this fault ends.
fn end_of(fault: RenameFault) -> Result<RenameEnd, PortFault>
    ensures { IfOk result (λ end. end ≡ Renamed → ⊥) }
{
    match fault {
        RenameFault::Refused(why) => Ok(RenameEnd::Refused(why)),
        RenameFault::Call(CallFault::NoStoreRoom { .. }) => {
            Ok(RenameEnd::Refused(Refusal::NoStoreRoom))
        }
        RenameFault::Call(fault) => Err(fault_of(fault)),
        RenameFault::NoReply => Err(PortFault::PassedOver),
    }
}
