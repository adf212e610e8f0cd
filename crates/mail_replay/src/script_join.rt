//! The service of the line `join`, which declares a replica that begins with the operations of
//! another one.

ghost use Rattle.std.specs.Prelude.{◌≡◌, ◌<◌, ◌⊎◌, ◌++◌, [], ℕ, List, Err, IsNone, IsSome, OnErr};
ghost use Rattle.std.specs.Prelude.{OnOk, Some, length, slice_get};
ghost use Rattle.mail_replay.specs.Joins.{IsJoined, JoinsReplica, JoinsAfter};
ghost use Rattle.mail_replay.specs.ScriptState.{replica_place, script_contents_of};
ghost use Rattle.mail_replay.specs.declared.script_service.ServeFault.TheVariants.{BadScript};
ghost use Rattle.mail_replay.specs.declared.script_state.ScriptReplica.{ScriptReplica};

use crate::script_service::ServeFault;
use crate::script_state::{IssuedOps, ScriptReplica, ScriptState, replica_place};
use causal_inbox::least_own;
use mail_script::{JoinResult, OutcomeLine, write_outcome};
use std::alloc::Global;
use tags_clocks::ReplicaId;
use world_core::{JoinRefusal, joined_node};

/// Declares a replica that begins with the operations that another one applied, and prints the
/// result; if the join is refused, the replica stays undeclared. `BadScript` if the replica is
/// declared already, or the other one isn't.
pub fn join(
    alloc: Global,
    setup: &mut ScriptState,
    name: ReplicaId,
    peer: ReplicaId,
    printed: &mut Vec<u8>,
) -> Result<(), ServeFault>
    ensures ok { OnOk result ((more : List ℕ)
        × JoinsReplica (script_contents_of setup.old) name peer more (script_contents_of setup.new)
        × (printed.new.items ≡ printed.old.items ++ more)) }
    ensures bad { result ≡ Err BadScript
        → IsSome (replica_place setup.old.replicas.items name)
        ⊎ IsNone (replica_place setup.old.replicas.items peer) }
    ensures err { OnErr result (printed.new.items ≡ printed.old.items) }
{
    if replica_place(&setup.replicas, name).is_some() {
        return Err(ServeFault::BadScript);
    }
    let Some(place) = replica_place(&setup.replicas, peer) else {
        return Err(ServeFault::BadScript);
    };
    let result = join_after(alloc, &mut setup.replicas, name, place);
    let outcome = OutcomeLine::Joined {
        replica: name,
        peer,
        result,
    };
    write_outcome(outcome, printed)?;
    Ok(())
}

/// Adds a replica that begins with the operations that the one at `place` applied; if the result
/// isn't `Done`, nothing changes.
fn join_after(
    alloc: Global,
    replicas: &mut Vec<ScriptReplica>,
    name: ReplicaId,
    place: usize,
) -> JoinResult
    requires { place < length replicas.old.items }
    ensures { (from : ScriptReplica)
        × (slice_get replicas.old.items place ≡ Some from)
        × JoinsAfter replicas.old.items name from.node.state.applied result replicas.new.items }
{
    if let Some(id) = least_own(name, replicas[place].node.op_list()) {
        return JoinResult::Own { id };
    }
    let Ok(()) = replicas.reserve(1) else {
        return JoinResult::NoMemory;
    };
    match joined_node(alloc, name, &replicas[place].node) {
        Ok(node) => {
            replicas.push_reserved(ScriptReplica {
                name,
                node,
                issued: IssuedOps::new(alloc),
            });
            JoinResult::Done
        }
        Err(JoinRefusal::Exhausted) => JoinResult::Exhausted,
        Err(JoinRefusal::NoMemory) => JoinResult::NoMemory,
    }
}
