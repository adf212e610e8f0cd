//! A replica's own next operations, made ready to be issued.

ghost use Rattle.std.specs.Prelude.{◌≡◌, ◌↔◌, ◌++◌, ◌+◌, ◌<◌, ◌≤◌, ◌⊎◌, ℕ, List, false, IfOk};
ghost use Rattle.std.specs.Prelude.{IfErr, OnOk, IsTrue, length};
ghost use Rattle.causal_inbox.specs.Inbox.{IsClockOf};
ghost use Rattle.crdt_ops.specs.Sound.{IsSound};
ghost use Rattle.crdt_ops.specs.declared.kind.Kind.{Kind};
ghost use Rattle.imap_answers.specs.declared.fixed_words.Refusal.TheVariants.{NoMemory};
ghost use Rattle.imap_answers.specs.declared.fixed_words.Refusal.TheVariants.{NumberUsedUp};
ghost use Rattle.imap_node.specs.Operations.{AreNext, CanIssueAll, CanIssueBy, IsReadyRefusal};
ghost use Rattle.imap_node.specs.Operations.{ExceedsOwnNumbers, id_of};
ghost use Rattle.imap_node.specs.Nodes.{IsReady};
ghost use Rattle.merge_laws.specs.Orders.{AreSound};
ghost use Rattle.tags_clocks.specs.Clock.{count_of};
ghost use Rattle.uid_projection.specs.Exhaustion.{Exhausts};

use crate::replica::ReplicaState;
use causal_inbox::IssueFault;
use crdt_ops::{Kind, Op, SoundOp, into_sound_op};
use imap_answers::Refusal;
use std::alloc::{AllocError, Global};
use std::marker::Model;
use tags_clocks::{Clock, OpId, ReplicaId};

/// Operations that are ready to be issued, in the order of their numbers.
pub struct ReadyOps {
    ops: Vec<SoundOp>,
}

// By hand, so that crates above drop it whole.
impl Drop for ReadyOps {
    fn drop(self) {
        let Self { ops: _ } = self;
    }
}

impl Model for ReadyOps {
    ghost use Rattle.std.specs.Prelude.{List};
    ghost use Rattle.crdt_ops.specs.declared.op.Op.{Op};

    ghost Value = { List Op };

    ghost view = { λ r. r.ops.items };
}

impl ReadyOps {
    /// These operations, whose memory it takes over.
    pub fn new(ops: Vec<SoundOp>) -> ReadyOps
        ensures { result ≡ ops.items }
    {
        ReadyOps { ops }
    }

    /// The operations in order.
    pub fn as_slice(&self) -> &[SoundOp]
        ensures { result.now ≡ self.now }
    {
        &self.ops
    }

    /// The operations, with their memory.
    pub fn into_vec(self) -> Vec<SoundOp>
        ensures { result.items ≡ self }
    {
        let ReadyOps { ops } = self;
        ops
    }
}

/// The replica's next operations, of these kinds, with the room to issue them if there are any. An
/// error leaves the received operations as they were: `NumberUsedUp` if one of the next ones
/// exhausts a counter, `NoMemory`.
pub fn ready_next_ops(
    alloc: Global,
    replica: &mut ReplicaState,
    kinds: Vec<Kind>,
) -> Result<Vec<SoundOp>, Refusal>
    requires { CanIssueAll replica.old.applied kinds.items }
    ensures start { replica.new.start ≡ replica.old.start }
    ensures applied { replica.new.applied ≡ replica.old.applied }
    ensures held { replica.new.held ≡ replica.old.held }
    ensures ready { IfOk result (λ ops. IsReady replica.new ops.items) }
    ensures next { IfOk result
        (λ ops. AreNext replica.old.start.replica replica.old.applied kinds.items ops.items) }
    ensures err { IfErr result
        (λ why. IsReadyRefusal replica.old.start replica.old.applied kinds.items why) }
{
    if !has_numbers(replica, kinds.len()) {
        drop(kinds);
        return Err(Refusal::NumberUsedUp);
    }
    let ops = next_ops(alloc, replica, kinds)?;
    match make_room(alloc, replica, &ops) {
        Ok(()) => Ok(ops),
        Err(why) => {
            drop(ops);
            Err(why)
        }
    }
}

/// Makes room to issue operations that come next, if there are any.
fn make_room(alloc: Global, replica: &mut ReplicaState, ops: &[SoundOp]) -> Result<(), Refusal>
    requires sound { AreSound IsSound ops.now }
    requires next { (kinds : List Kind)
        × AreNext replica.old.start.replica replica.old.applied kinds ops.now }
    ensures start { replica.new.start ≡ replica.old.start }
    ensures applied { replica.new.applied ≡ replica.old.applied }
    ensures held { replica.new.held ≡ replica.old.held }
    ensures ready { OnOk result (IsReady replica.new ops.now) }
    ensures err { IfErr result (λ why. (why ≡ NoMemory)
        ⊎ ((why ≡ NumberUsedUp) × Exhausts replica.old.start replica.old.applied ops.now)) }
{
    let _list = replica.op_list();
    if ops.is_empty() {
        return Ok(());
    }
    match replica.ready(alloc, ops) {
        Ok(()) => Ok(()),
        Err(IssueFault::Exhausted) => Err(Refusal::NumberUsedUp),
        Err(IssueFault::NoMemory) => Err(Refusal::NoMemory),
    }
}

/// Whether the replica's own numbers suffice for `count` further operations.
fn has_numbers(replica: &ReplicaState, count: usize) -> bool
    ensures yes { IsTrue result → (clock : List (ℕ × ℕ))
        → IsClockOf id_of replica.now.applied clock
        → count_of clock replica.now.start.replica + count ≤ 4294967295 }
    ensures no { result ≡ false → (kinds : List Kind) → count ≡ length kinds
        → ExceedsOwnNumbers replica.now.start.replica replica.now.applied kinds }
{
    let given = replica.clock().get(replica.id());
    count <= (u32::MAX - given) as usize
}

/// The replica's next operations, of these kinds.
fn next_ops(
    alloc: Global,
    replica: &ReplicaState,
    kinds: Vec<Kind>,
) -> Result<Vec<SoundOp>, AllocError>
    requires can { CanIssueAll replica.now.applied kinds.items }
    requires numbers { (clock : List (ℕ × ℕ))
        → IsClockOf id_of replica.now.applied clock
        → count_of clock replica.now.start.replica + length kinds.items ≤ 4294967295 }
    ensures next { IfOk result
        (λ ops. AreNext replica.now.start.replica replica.now.applied kinds.items ops.items) }
    ensures sound { IfOk result (λ ops. AreSound IsSound ops.items) }
{
    if kinds.is_empty() {
        return Ok(Vec::new(alloc));
    }
    let mut clock = replica.clock().copy(alloc)?;
    let mut ops = Vec::with_capacity(alloc, kinds.len())?;
    for kind in kinds {
        let op = next_op(alloc, replica.id(), &clock, kind)?;
        clock.raise(replica.id(), op.op().id.number.get())?;
        ops.push(op)?;
    }
    Ok(ops)
}

/// The operation of this kind that comes next after those that the clock counts.
fn next_op(
    alloc: Global,
    replica: ReplicaId,
    clock: &Clock,
    kind: Kind,
) -> Result<SoundOp, AllocError>
    requires can { CanIssueBy clock.now kind }
    requires number { count_of clock.now replica < 4294967295 }
    ensures kind { IfOk result (λ op. op.kind ≡ kind) }
    ensures clock { IfOk result (λ op. op.clock ≡ clock.now) }
    ensures replica { IfOk result (λ op. op.id.replica ≡ replica) }
    ensures number { IfOk result (λ op. op.id.number ≡ count_of clock.now replica + 1) }
{
    let Some(id) = OpId::new(replica, clock.get(replica) + 1) else {
        unreachable!()
    };
    let clock = match clock.copy(alloc) {
        Ok(clock) => clock,
        Err(error) => {
            drop(kind);
            return Err(error);
        }
    };
    match into_sound_op(Op { id, clock, kind }) {
        Some(op) => Ok(op),
        None => unreachable!(),
    }
}
