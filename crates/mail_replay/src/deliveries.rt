//! The service of the lines `deliver`, `forge` and `drain`, which deliver operations to
//! replicas.

ghost use Rattle.std.specs.Prelude.{◌≡◌, ◌⊎◌, ◌++◌, ℕ, List, Err, IfOk, IsNone, OnErr, OnOk};
ghost use Rattle.crdt_ops.specs.Form.{IsSpelled};
ghost use Rattle.crdt_ops.specs.declared.op.Op.{Op};
ghost use Rattle.mail_replay.specs.Deliveries.{DeliversOp, DeliversTo, DrainsAt, ForgesAt};
ghost use Rattle.mail_replay.specs.Deliveries.{ForgesOp};
ghost use Rattle.mail_replay.specs.Deliveries.{DeliversAndPrints, Issued, delivery_result_of};
ghost use Rattle.mail_replay.specs.Deliveries.{arrival_result_of, broken_rule_of, outcome_line_of};
ghost use Rattle.mail_replay.specs.ScriptState.{replica_place, script_contents_of};
ghost use Rattle.mail_replay.specs.declared.script_service.ServeFault.TheVariants.{BadScript};

use crate::script_service::ServeFault;
use crate::script_state::{ScriptState, replica_place};
use causal_inbox::{Arrival, DeliverFault, Delivered};
use crdt_ops::{Op, OpFault, SoundOp, Unsound, check, read_op};
use mail_script::{BrokenRule, DeliveryResult, OutcomeLine, write_outcome};
use merge_laws::Caused;
use std::alloc::Global;
use tags_clocks::{OpId, ReplicaId};

/// The source of an operation that is delivered to a replica.
#[derive(Clone, Copy, Debug, PartialEq, Eq)]
enum Source {
    /// The replica that the operation's id names issued it.
    Issued,
    /// A line of the script spells it.
    Forged,
}

/// Delivers an operation that a replica issued, and prints the result. `BadScript` if no such
/// operation was issued, or the receiving replica isn't declared.
pub fn deliver(
    alloc: Global,
    setup: &mut ScriptState,
    id: OpId,
    replica: ReplicaId,
    printed: &mut Vec<u8>,
) -> Result<(), ServeFault>
    ensures ok { OnOk result ((more : List ℕ)
        × DeliversTo (script_contents_of setup.old) id replica more (script_contents_of setup.new)
        × (printed.new.items ≡ printed.old.items ++ more)) }
    ensures bad { result ≡ Err BadScript
        → IsNone (replica_place setup.old.replicas.items replica)
        ⊎ ((op : Op) → Issued (script_contents_of setup.old) id op → ⊥) }
    ensures err { OnErr result (printed.new.items ≡ printed.old.items) }
{
    match issued_op(alloc, setup, id) {
        Ok(op) => deliver_and_print(alloc, setup, Source::Issued, replica, op, printed),
        Err(fault) => Err(fault),
    }
}

/// Delivers an operation that the line spells, and prints the result, or why the operation isn't
/// sound. `BadScript` if the text spells none, or the replica isn't declared.
pub fn forge(
    alloc: Global,
    setup: &mut ScriptState,
    replica: ReplicaId,
    text: &[u8],
    printed: &mut Vec<u8>,
) -> Result<(), ServeFault>
    ensures ok { OnOk result ((more : List ℕ)
        × ForgesAt (script_contents_of setup.old) replica text.now more
        (script_contents_of setup.new) × (printed.new.items ≡ printed.old.items ++ more)) }
    ensures bad { result ≡ Err BadScript
        → IsNone (replica_place setup.old.replicas.items replica)
        ⊎ ((op : Op) → IsSpelled op text.now → ⊥) }
    ensures err { OnErr result (printed.new.items ≡ printed.old.items) }
{
    if replica_place(&setup.replicas, replica).is_none() {
        return Err(ServeFault::BadScript);
    }
    let op = spelled_op(alloc, text)?;
    forge_if_sound(alloc, setup, replica, op, printed)
}

/// Applies a replica's held operations that are ripe, and prints how many were applied.
pub fn drain(
    alloc: Global,
    setup: &mut ScriptState,
    replica: ReplicaId,
    printed: &mut Vec<u8>,
) -> Result<(), ServeFault>
    ensures ok { OnOk result ((more : List ℕ)
        × DrainsAt (script_contents_of setup.old) replica more (script_contents_of setup.new)
        × (printed.new.items ≡ printed.old.items ++ more)) }
    ensures bad { result ≡ Err BadScript → IsNone (replica_place setup.old.replicas.items replica) }
    ensures err { OnErr result (printed.new.items ≡ printed.old.items) }
{
    let Some(place) = replica_place(&setup.replicas, replica) else {
        return Err(ServeFault::BadScript);
    };
    let drained = setup.replicas[place].node.drain(alloc);
    let outcome = OutcomeLine::Drained {
        replica,
        count: drained.applied as u64,
        stalled: drained.stalled,
    };
    write_outcome(outcome, printed)?;
    Ok(())
}

/// A copy of the operation with this id, if its replica issued one.
fn issued_op(alloc: Global, setup: &ScriptState, id: OpId) -> Result<SoundOp, ServeFault>
    ensures ok { IfOk result (λ op. Issued (script_contents_of setup.now) id op) }
    ensures bad { result ≡ Err BadScript → (op : Op)
        → Issued (script_contents_of setup.now) id op
        → ⊥ }
{
    let Some(place) = replica_place(&setup.replicas, id.replica) else {
        return Err(ServeFault::BadScript);
    };
    let Some(op) = setup.replicas[place].issued.find(id) else {
        return Err(ServeFault::BadScript);
    };
    let copy = op.copy(alloc)?;
    Ok(copy)
}

/// The operation that a text spells, sound or not; `BadScript` if it spells none.
fn spelled_op(alloc: Global, text: &[u8]) -> Result<Op, ServeFault>
    ensures ok { IfOk result (λ op. IsSpelled op text.now) }
    ensures bad { result ≡ Err BadScript → (op : Op) → IsSpelled op text.now → ⊥ }
{
    match read_op(alloc, text) {
        Ok(op) => Ok(op),
        Err(OpFault::NotInForm) => Err(ServeFault::BadScript),
        Err(OpFault::NoMemory) => Err(ServeFault::NoMemory),
    }
}

/// Delivers a forged operation to a replica if it is sound, and prints the result, or why it isn't
/// sound.
fn forge_if_sound(
    alloc: Global,
    setup: &mut ScriptState,
    replica: ReplicaId,
    op: Op,
    printed: &mut Vec<u8>,
) -> Result<(), ServeFault>
    ensures ok { OnOk result ((more : List ℕ)
        × ForgesOp (script_contents_of setup.old) replica op more (script_contents_of setup.new)
        × (printed.new.items ≡ printed.old.items ++ more)) }
    ensures bad { result ≡ Err BadScript → IsNone (replica_place setup.old.replicas.items replica) }
    ensures err { OnErr result (printed.new.items ≡ printed.old.items) }
{
    match check(op) {
        Ok(op) => deliver_and_print(alloc, setup, Source::Forged, replica, op, printed),
        Err((op, why)) => {
            drop(op);
            let rule = broken_rule_of(why);
            write_outcome(OutcomeLine::Unsound { rule }, printed)?;
            Ok(())
        }
    }
}

/// Delivers an operation to a replica, and prints the result.
fn deliver_and_print(
    alloc: Global,
    setup: &mut ScriptState,
    source: Source,
    replica: ReplicaId,
    op: SoundOp,
    printed: &mut Vec<u8>,
) -> Result<(), ServeFault>
    ensures ok { OnOk result ((more : List ℕ)
        × DeliversAndPrints (script_contents_of setup.old) source replica op more
        (script_contents_of setup.new) × (printed.new.items ≡ printed.old.items ++ more)) }
    ensures bad { result ≡ Err BadScript → IsNone (replica_place setup.old.replicas.items replica) }
    ensures err { OnErr result (printed.new.items ≡ printed.old.items) }
{
    let id = op.id();
    let status = deliver_to(alloc, setup, replica, op)?;
    let outcome = outcome_line_of(source, id, replica, status);
    write_outcome(outcome, printed)?;
    Ok(())
}

/// The line that reports the result of a delivery.
fn outcome_line_of(
    source: Source,
    id: OpId,
    replica: ReplicaId,
    status: DeliveryResult,
) -> OutcomeLine
    ensures { result ≡ outcome_line_of source id replica status }
{
    match source {
        Source::Issued => OutcomeLine::Delivered {
            id,
            replica,
            result: status,
        },
        Source::Forged => OutcomeLine::Forged {
            id,
            replica,
            result: status,
        },
    }
}

/// Delivers an operation to a replica, and returns the result.
fn deliver_to(
    alloc: Global,
    setup: &mut ScriptState,
    replica: ReplicaId,
    op: SoundOp,
) -> Result<DeliveryResult, ServeFault>
    ensures ok { IfOk result (λ status. DeliversOp (script_contents_of setup.old) replica op status
        (script_contents_of setup.new)) }
    ensures bad { result ≡ Err BadScript → IsNone (replica_place setup.old.replicas.items replica) }
{
    let Some(place) = replica_place(&setup.replicas, replica) else {
        return Err(ServeFault::BadScript);
    };
    let answer = setup.replicas[place].node.deliver(alloc, op);
    Ok(delivery_result_of(answer))
}

fn delivery_result_of(answer: Result<Delivered, DeliverFault>) -> DeliveryResult
    ensures { result ≡ delivery_result_of answer }
{
    match answer {
        Ok(Delivered { arrival, stalled }) => arrival_result_of(arrival, stalled),
        Err(DeliverFault::Conflict { id }) => DeliveryResult::Conflict { id },
        Err(DeliverFault::HeldFull) => DeliveryResult::HeldFull,
        Err(DeliverFault::Exhausted) => DeliveryResult::Exhausted,
        Err(DeliverFault::NoMemory) => DeliveryResult::NoMemory,
    }
}

fn arrival_result_of(arrival: Arrival, stalled: bool) -> DeliveryResult
    ensures { result ≡ arrival_result_of arrival stalled }
{
    match arrival {
        Arrival::Applied(count) => DeliveryResult::Applied {
            count: count as u64,
            stalled,
        },
        Arrival::Held => DeliveryResult::Held { stalled },
        Arrival::Repeat => DeliveryResult::Repeat { stalled },
    }
}

fn broken_rule_of(why: Unsound) -> BrokenRule
    ensures { result ≡ broken_rule_of why }
{
    match why {
        Unsound::OwnClockEntry => BrokenRule::OwnEntry,
        Unsound::UncoveredId => BrokenRule::UncoveredId,
        Unsound::UnlawfulName => BrokenRule::UnlawfulName,
        Unsound::UnlawfulFlags => BrokenRule::UnlawfulFlags,
        Unsound::DeleteOfInbox => BrokenRule::InboxDeleted,
        Unsound::Count => BrokenRule::OldIdCount,
    }
}
