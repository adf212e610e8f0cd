//! Reads ids, entries of clocks, and values built from several fields.

use case_lines::{Trouble, operation, pair};
use crdt_ops::SoundOp;
use std::alloc::Global;
use tags_clocks::{OpId, ReplicaId};

/// The id with these numbers; `None` if no operation can have it.
pub fn id_of(replica: u32, number: u32) -> Option<OpId> {
    OpId::new(ReplicaId::new(replica)?, number)
}

/// The id that is written `r:n`.
pub fn id(text: &str) -> Result<OpId, Trouble> {
    let (replica, number) = pair(":", text)?;
    id_of(replica, number).ok_or(Trouble::NotACase)
}

/// The entry of a clock that is written `r=n`.
pub fn entry(text: &str) -> Result<(ReplicaId, u32), Trouble> {
    let (replica, number) = pair("=", text)?;
    match ReplicaId::new(replica) {
        Some(replica) => Ok((replica, number)),
        None => Err(Trouble::NotACase),
    }
}

/// A value that is built from fields, one after another.
pub trait Gathers {
    /// Takes the next field.
    fn take(&mut self, alloc: Global, field: &str) -> Result<(), Trouble>;
}

/// Takes each field between the separators.
pub fn take_each<G: Gathers>(
    alloc: Global,
    gathered: &mut G,
    separator: char,
    text: &str,
) -> Result<(), Trouble> {
    for field in text.split(separator) {
        gathered.take(alloc, field)?;
    }
    Ok(())
}

/// Adds the sound operation that a line spells. `Err` leaves the list unchanged.
pub fn add_op(alloc: Global, ops: &mut Vec<SoundOp>, line: &str) -> Result<(), Trouble> {
    ops.reserve(1)?;
    ops.push_reserved(operation(alloc, line)?);
    Ok(())
}
