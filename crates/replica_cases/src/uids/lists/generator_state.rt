//! What each replica knows while a list of operations is generated.

use crate::uids::lists::recount::{added_origin, adds_tag_to, removes_tag};
use case_lines::{Chance, Trouble, operation};
use crdt_ops::{Ids, Op, SoundOp};
use std::alloc::{AllocError, Global};
use tags_clocks::{Clock, OpId, ReplicaId};

/// The operations so far, in an order in which they can be applied, and what each replica applied.
#[derive(Drop)]
pub struct Writers {
    /// The operations.
    pub ops: Vec<SoundOp>,
    /// The replicas, with the clocks of what they applied.
    replicas: Vec<(ReplicaId, Clock)>,
}

/// The replica that issues the next operation, and the clock of what it applied.
#[derive(Clone, Copy)]
pub struct Writer<'a> {
    /// All operations so far.
    pub ops: &'a [SoundOp],
    /// The replica.
    pub replica: ReplicaId,
    /// What it applied.
    pub known: &'a Clock,
}

impl Writers {
    /// The replicas 1 to `count`, which applied nothing.
    pub fn new(alloc: Global, count: u32) -> Result<Writers, AllocError> {
        let mut replicas = Vec::new(alloc);
        for number in 1..=count {
            if let Some(replica) = ReplicaId::new(number) {
                replicas.push((replica, Clock::new(alloc)))?;
            }
        }
        Ok(Writers {
            ops: Vec::new(alloc),
            replicas,
        })
    }

    /// The operations.
    pub fn into_ops(self) -> Vec<SoundOp> {
        let Self { ops, replicas: _ } = self;
        ops
    }

    /// The replica at this place.
    pub fn writer(&self, at: usize) -> Option<Writer<'_>> {
        match self.replicas.get(at) {
            Some((replica, known)) => Some(Writer {
                ops: &self.ops,
                replica: *replica,
                known,
            }),
            None => None,
        }
    }

    /// The replica at this place applies the operation at that place, and all its causes.
    pub fn learn(&mut self, alloc: Global, at: usize, op: usize) -> Result<(), AllocError> {
        let Some(op) = self.ops.get(op) else {
            return Ok(());
        };
        match self.replicas.get_mut(at) {
            Some((_, known)) => learn_op(alloc, known, op.op()),
            None => Ok(()),
        }
    }

    /// The replica at this place issues the operation that the line spells.
    pub fn issue(&mut self, alloc: Global, at: usize, line: &str) -> Result<(), Trouble> {
        let op = operation(alloc, line)?;
        if let Some((_, known)) = self.replicas.get_mut(at) {
            learn_op(alloc, known, op.op())?;
        }
        self.ops.push(op)?;
        Ok(())
    }
}

/// A number below `count`, or 0 if that is 0.
pub fn place_below(chance: &mut Chance, count: usize) -> usize {
    match u32::try_from(count) {
        Ok(limit) if limit > 0 => chance.below(limit) as usize,
        _ => 0,
    }
}

fn learn_op(alloc: Global, known: &mut Clock, op: &Op) -> Result<(), AllocError> {
    known.join(alloc, &op.clock)?;
    known.raise(op.id.replica, op.id.number.get())
}

/// Whether both operations add versions of one message.
fn is_of_message(op: &Op, of: &Op) -> bool {
    let origin = added_origin(of);
    origin.is_some() && added_origin(op) == origin && op.kind.name().same(of.kind.name())
}

impl<'a> Writer<'a> {
    /// The operation at this place, if the replica applied it.
    pub fn known_op(&self, place: usize) -> Option<&'a Op> {
        match self.ops.get(place) {
            Some(op) if self.known.covers(op.op().id) => Some(op.op()),
            _ => None,
        }
    }

    /// Whether the replica applied no operation that removes the tag of this one.
    fn is_present(&self, of: &Op) -> bool {
        for place in 0..self.ops.len() {
            if let Some(op) = self.known_op(place) {
                if removes_tag(op, of) {
                    return false;
                }
            }
        }
        true
    }

    /// The operation at this place, if its tag is a message tag that is present at the replica.
    fn present_message(&self, place: usize) -> Option<&'a Op> {
        match self.known_op(place) {
            Some(op) if added_origin(op).is_some() && self.is_present(op) => Some(op),
            _ => None,
        }
    }

    /// An operation whose tag is a message tag that is present at the replica, if a few tries find
    /// one.
    pub fn any_message(&self, chance: &mut Chance) -> Option<&'a Op> {
        for _ in 0..8 {
            let place = place_below(chance, self.ops.len());
            if let Some(op) = self.present_message(place) {
                return Some(op);
            }
        }
        None
    }

    /// The ids of all present tags of the message of which this operation's tag is a version.
    pub fn versions(&self, alloc: Global, of: &Op) -> Result<Ids, AllocError> {
        let mut ids = Ids::none(alloc);
        for place in 0..self.ops.len() {
            if let Some(op) = self.known_op(place) {
                if is_of_message(op, of) && self.is_present(op) {
                    ids.insert(op.id)?;
                }
            }
        }
        Ok(ids)
    }

    /// The ids of all present tags of the folder with this name.
    pub fn tags(&self, alloc: Global, folder: &str) -> Result<Ids, AllocError> {
        let mut ids = Ids::none(alloc);
        for place in 0..self.ops.len() {
            if let Some(op) = self.known_op(place) {
                if adds_tag_to(op, folder.as_bytes()) && self.is_present(op) {
                    ids.insert(op.id)?;
                }
            }
        }
        Ok(ids)
    }

    /// The id of an operation that the replica applied, if it applied one.
    pub fn any_id(&self, chance: &mut Chance) -> Option<OpId> {
        let place = place_below(chance, self.ops.len());
        match self.known_op(place) {
            Some(op) => Some(op.id),
            None => None,
        }
    }
}
