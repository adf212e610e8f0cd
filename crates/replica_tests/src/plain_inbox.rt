//! An inbox in plain lists: it goes through all held operations to find a ripe one, and through all
//! received ones to find an id.

ghost use Rattle.std.specs.Prelude.{◌<◌, ◌≤◌, length, IfSome};

use crate::fixtures::Trouble;
use crate::refused_call::is_refused;
use causal_inbox::{Arrival, DeliverFault, Delivered, Drained, find_in};
use crdt_ops::SoundOp;
use merge_laws::Caused;
use std::alloc::Global;
use tags_clocks::{Clock, OpId};

/// An inbox's answer to a delivery.
pub type Answer = Result<Delivered, DeliverFault>;

/// Operations in plain lists.
#[derive(Drop)]
pub struct PlainInbox {
    /// The applied operations, in their order.
    pub applied: Vec<SoundOp>,
    /// The held operations, by ascending ids.
    pub held: Vec<SoundOp>,
    /// The clock of the applied operations.
    clock: Clock,
    /// How many more operations are applied before memory is refused; `None` if it never is.
    applications_left: Option<u32>,
}

impl PlainInbox {
    /// An empty inbox, which is refused memory after `applications_left` applied operations.
    pub fn new(alloc: Global, applications_left: Option<u32>) -> PlainInbox {
        PlainInbox {
            applied: Vec::new(alloc),
            held: Vec::new(alloc),
            clock: Clock::new(alloc),
            applications_left,
        }
    }

    /// Receives an operation.
    pub fn deliver(&mut self, op: SoundOp) -> Result<Answer, Trouble> {
        let known = self.matches_received(&op);
        let id = op.id();
        match known {
            None => self.receive(op),
            Some(true) => {
                drop(op);
                Ok(Ok(Delivered {
                    arrival: Arrival::Repeat,
                    stalled: self.is_stalled(),
                }))
            }
            Some(false) => {
                drop(op);
                Ok(Err(DeliverFault::Conflict { id }))
            }
        }
    }

    /// Whether the received operation with this id equals `op`; `None` if there is none.
    fn matches_received(&self, op: &SoundOp) -> Option<bool> {
        match find_in(&self.applied, op.id()) {
            Some(known) => Some(known.same(op)),
            None => {
                let known = find_in(&self.held, op.id())?;
                Some(known.same(op))
            }
        }
    }

    fn receive(&mut self, op: SoundOp) -> Result<Answer, Trouble> {
        if is_ripe(&self.clock, &op) {
            self.receive_ripe(op)
        } else {
            self.hold(op)
        }
    }

    fn receive_ripe(&mut self, op: SoundOp) -> Result<Answer, Trouble> {
        if is_refused(&mut self.applications_left) {
            drop(op);
            return Ok(Err(DeliverFault::NoMemory));
        }
        self.apply(op)?;
        let drained = self.drain()?;
        Ok(Ok(Delivered {
            arrival: Arrival::Applied(drained.applied.saturating_add(1)),
            stalled: drained.stalled,
        }))
    }

    fn hold(&mut self, op: SoundOp) -> Result<Answer, Trouble> {
        let at = place_for(&self.held, op.id());
        self.held.insert(at, op)?;
        Ok(Ok(Delivered {
            arrival: Arrival::Held,
            stalled: self.is_stalled(),
        }))
    }

    fn is_stalled(&self) -> bool {
        first_ripe(&self.clock, &self.held).is_some()
    }

    /// Whether these equal the applied operations that the clock doesn't cover, in their order.
    pub fn equals_ops_since(&self, clock: &Clock, ops: &[SoundOp]) -> bool {
        let mut at = 0usize;
        for op in &self.applied {
            if !clock.covers(op.id()) {
                if !is_op_at(ops, at, op) {
                    return false;
                }
                at = at.saturating_add(1);
            }
        }
        at == ops.len()
    }

    fn apply(&mut self, op: SoundOp) -> Result<(), Trouble> {
        let id = op.id();
        self.applied.push(op)?;
        self.clock.raise(id.replica, id.number.get())?;
        Ok(())
    }

    /// Applies ripe operations, the one with the least id first, until none is ripe or one is
    /// refused.
    pub fn drain(&mut self) -> Result<Drained, Trouble> {
        let count = self.held.len();
        for applied in 0..count {
            let Some(at) = first_ripe(&self.clock, &self.held) else {
                return Ok(Drained {
                    applied,
                    stalled: false,
                });
            };
            if is_refused(&mut self.applications_left) {
                return Ok(Drained {
                    applied,
                    stalled: true,
                });
            }
            let op = self.held.remove(at);
            self.apply(op)?;
        }
        Ok(Drained {
            applied: count,
            stalled: false,
        })
    }
}

/// Whether the operation at this place equals `op`.
pub fn is_op_at(ops: &[SoundOp], at: usize, op: &SoundOp) -> bool {
    match ops.get(at) {
        Some(other) => other.same(op),
        None => false,
    }
}

/// Whether the operation may be applied next, after those that the clock covers.
fn is_ripe(clock: &Clock, op: &SoundOp) -> bool {
    op.clock().is_covered_by(clock) && !clock.covers(op.id())
}

/// The place of the first operation that may be applied next.
fn first_ripe(clock: &Clock, ops: &[SoundOp]) -> Option<usize>
    ensures { IfSome result (λ at. at < length ops.now) }
{
    for (at, op) in ops.iter().enumerate() {
        if is_ripe(clock, op) {
            return Some(at);
        }
    }
    None
}

/// The number of leading operations whose ids are less.
fn place_for(ops: &[SoundOp], id: OpId) -> usize
    ensures { result ≤ length ops.now }
{
    for (at, op) in ops.iter().enumerate() {
        if op.id() >= id {
            return at;
        }
    }
    ops.len()
}
