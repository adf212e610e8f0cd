//! The operations that a case gives.

use crate::dump::put_state;
use crate::fields::add_op;
use crate::setup::empty;
use case_lines::{Trouble, Words, cut, number};
use crdt_ops::SoundOp;
use merge_laws::{Caused, replay};
use std::alloc::{AllocError, Global};

/// Operations that come first, in this order, and operations that come in each order.
#[derive(Drop)]
pub struct Given {
    /// The operations that come first.
    pub first: Vec<SoundOp>,
    /// The operations that come in each order.
    pub any: Vec<SoundOp>,
    /// Their causes: the place of a cause, and the place of the operation that it precedes.
    pub causes: Vec<(usize, usize)>,
}

impl Given {
    /// No operations.
    pub fn none(alloc: Global) -> Given {
        Given {
            first: Vec::new(alloc),
            any: Vec::new(alloc),
            causes: Vec::new(alloc),
        }
    }
}

/// `any CAUSES LINE`: adds an operation that comes in each order. CAUSES says which of the earlier
/// ones, counted from 1, are its causes.
pub fn add_any(alloc: Global, given: &mut Given, fields: &str) -> Result<(), Trouble> {
    let (places, line) = cut(fields)?;
    match add_causes(&mut given.causes, places, given.any.len()) {
        Ok(()) => add_op(alloc, &mut given.any, line),
        Err(trouble) => Err(trouble),
    }
}

fn add_causes(causes: &mut Vec<(usize, usize)>, places: &str, at: usize) -> Result<(), Trouble> {
    if places != "-" {
        for place in places.split(',') {
            add_cause(causes, place, at)?;
        }
    }
    Ok(())
}

fn add_cause(causes: &mut Vec<(usize, usize)>, place: &str, at: usize) -> Result<(), Trouble> {
    match number(place)?.checked_sub(1) {
        Some(place) => {
            causes.push((place as usize, at))?;
            Ok(())
        }
        None => Err(Trouble::NotACase),
    }
}

/// `replay`: puts the result of the first operations, without an inbox.
pub fn put_replay(given: &Given, answer: &mut Words) {
    match replay(answer.alloc(), empty(answer.alloc()), &given.first) {
        Ok(state) => put_state(&state, answer),
        Err(AllocError) => answer.give_up(),
    }
}

/// `pairs`: puts how many operations come first, and whether each is the same as itself and as no
/// other; else the places, counted from 1, of the first two that break this.
pub fn put_pairs(given: &Given, answer: &mut Words) {
    answer.put_number(" ", given.first.len() as u64);
    match odd_pair(&given.first) {
        None => answer.put(" operations, each the same as itself alone"),
        Some((first, second)) => {
            answer.put_number(" operations, but not ", (first as u64).saturating_add(1));
            answer.put_number(" ", (second as u64).saturating_add(1));
        }
    }
}

/// The first two different places that have the same operation, or a place whose operation differs
/// from itself.
fn odd_pair(ops: &[SoundOp]) -> Option<(usize, usize)> {
    for (at, op) in ops.iter().enumerate() {
        if let Some(other) = odd_place(ops, at, op) {
            return Some((at, other));
        }
    }
    None
}

fn odd_place(ops: &[SoundOp], at: usize, op: &SoundOp) -> Option<usize> {
    for (place, other) in ops.iter().enumerate() {
        if op.same(other) != (at == place) {
            return Some(place);
        }
    }
    None
}
