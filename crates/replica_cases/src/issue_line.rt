//! Issues a replica's own operations.

ghost use Rattle.std.specs.Prelude.{◌≡◌, ◌∷◌, [], IfOk};
ghost use Rattle.causal_inbox.specs.Inbox.{IsIssued};
ghost use Rattle.crdt_ops.specs.declared.op.Op.{Op};
ghost use Rattle.crdt_ops.specs.Ops.{clock_of, id_of};

use crate::setup::Node;
use case_lines::{Trouble, Words, name, parts_around, replica};
use crdt_ops::{Kind, Op, SoundOp, into_sound_op};
use imap_types::Name;
use std::alloc::{AllocError, Global};
use tags_clocks::{OpId, ReplicaId};

/// `issue R NAME`: issues and puts the operation by which replica R creates the folder, after all
/// applied operations. The inbox is taken to be that of replica R.
pub fn put_issue(inbox: &mut Node, fields: &str, answer: &mut Words) {
    match next_op(answer.alloc(), inbox, fields) {
        Ok(op) => issue(inbox, op, answer),
        Err(trouble) => answer.put_trouble(" ", trouble),
    }
}

/// The operation that `R NAME` asks for.
fn next_op(alloc: Global, inbox: &Node, fields: &str) -> Result<SoundOp, Trouble>
    ensures { IfOk result (λ op. IsIssued id_of clock_of inbox.now.received.applied op) }
{
    let (issuer, folder) = parts_around(fields, " ");
    let id = next_id(inbox, replica(issuer)?)?;
    next_create(alloc, inbox, id, name(alloc, folder)?)
}

/// The id of this replica's next operation after the applied ones.
fn next_id(inbox: &Node, replica: ReplicaId) -> Result<OpId, Trouble> {
    match inbox.clock().get(replica).checked_add(1) {
        Some(count) => OpId::new(replica, count).ok_or(Trouble::NotACase),
        None => Err(Trouble::NotACase),
    }
}

/// The replica's next operation, which creates this folder.
fn next_create(alloc: Global, inbox: &Node, id: OpId, folder: Name) -> Result<SoundOp, Trouble>
    ensures { IfOk result (λ op. IsIssued id_of clock_of inbox.now.received.applied op) }
{
    let clock = inbox.clock().copy(alloc)?;
    let kind = Kind::Create { folder };
    into_sound_op(Op { id, clock, kind }).ok_or(Trouble::NotACase)
}

/// Issues the operation, and puts it.
fn issue(inbox: &mut Node, op: SoundOp, answer: &mut Words)
    requires { IsIssued id_of clock_of inbox.old.received.applied op }
{
    answer.put_op("\n  ", &op);
    match list_of_op(answer.alloc(), op) {
        Ok(ops) => issue_list(inbox, ops, answer),
        Err(AllocError) => answer.give_up(),
    }
}

fn list_of_op(alloc: Global, op: SoundOp) -> Result<Vec<SoundOp>, AllocError>
    ensures { IfOk result (λ ops. ops.items ≡ op ∷ []) }
{
    let Ok(mut ops) = Vec::with_capacity(alloc, 1) else {
        drop(op);
        return Err(AllocError);
    };
    ops.push_reserved(op);
    Ok(ops)
}

fn issue_list(inbox: &mut Node, ops: Vec<SoundOp>, answer: &mut Words)
    requires { (op : Op)
        × (ops.items ≡ op ∷ [])
        × IsIssued id_of clock_of inbox.old.received.applied op }
{
    if inbox.ready(answer.alloc(), &ops).is_ok() {
        inbox.issue(ops);
    } else {
        drop(ops);
        answer.give_up();
    }
}
