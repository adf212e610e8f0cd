//! The service of the line `restart`, at which a replica starts again from the operations that it
//! applied.

ghost use Rattle.std.specs.Prelude.{◌≡◌, Err, IsNone, OnErr, OnOk, map};
ghost use Rattle.mail_replay.specs.Restarts.{RestartsReplica, session_after_restart};
ghost use Rattle.mail_replay.specs.ScriptState.{replica_place, script_contents_of};
ghost use Rattle.mail_replay.specs.declared.script_service.ServeFault.TheVariants.{BadScript};

use crate::script_service::ServeFault;
use crate::script_state::{ScriptSession, ScriptState, replica_place};
use std::alloc::Global;
use std::mem;
use tags_clocks::ReplicaId;
use world_core::restarted_node;

/// Has a replica start again from the operations that it applied; its sessions end. `BadScript` if
/// the replica isn't declared, `NoMemory` if memory runs out. An error leaves all as it was.
pub fn restart(alloc: Global, setup: &mut ScriptState, name: ReplicaId) -> Result<(), ServeFault>
    ensures ok { OnOk result
        (RestartsReplica (script_contents_of setup.old) name (script_contents_of setup.new)) }
    ensures bad { result ≡ Err BadScript → IsNone (replica_place setup.old.replicas.items name) }
    ensures err { OnErr result (script_contents_of setup.new ≡ script_contents_of setup.old) }
{
    let Some(place) = replica_place(&setup.replicas, name) else {
        return Err(ServeFault::BadScript);
    };
    // No counter lacks a number for what the node applied already: only memory can run out.
    let Ok(restarted) = restarted_node(alloc, &setup.replicas[place].node) else {
        return Err(ServeFault::NoMemory);
    };
    let replica = &mut setup.replicas[place];
    drop(mem::replace(&mut replica.node, restarted));
    end_sessions(&mut setup.sessions, name);
    Ok(())
}

/// Ends the sessions of the replica of this name.
fn end_sessions(sessions: &mut [ScriptSession], name: ReplicaId)
    ensures { sessions.new ≡ map (session_after_restart name) sessions.old }
{
    for session in sessions.iter_mut() {
        end_session_of(session, name);
    }
}

/// Ends the session if it is one of the replica of this name.
fn end_session_of(session: &mut ScriptSession, name: ReplicaId)
    ensures { session.new ≡ session_after_restart name session.old }
{
    if session.replica == name {
        drop(session.connection.take());
    }
}
