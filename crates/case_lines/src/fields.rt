//! Readers of a case line's fields.

use crate::Trouble;
use crdt_ops::{OpFault, SoundOp, into_sound_op, read_op};
use imap_types::{Escape, Name, Octets, read_escaped};
use std::alloc::{AllocError, Global};
use tags_clocks::ReplicaId;

/// The first field, and the text after the space that follows it.
pub fn cut(text: &str) -> Result<(&str, &str), Trouble> {
    text.split_once(' ').ok_or(Trouble::NotACase)
}

/// The texts before and after the first occurrence of a mark; the whole text and nothing if it
/// doesn't occur.
pub fn parts_around<'a>(text: &'a str, separator: &str) -> (&'a str, &'a str) {
    text.split_once(separator).unwrap_or((text, ""))
}

/// A number of up to 32 bits.
pub fn number(text: &str) -> Result<u32, Trouble> {
    text.parse::<u32>().ok().ok_or(Trouble::NotACase)
}

/// Two numbers of up to 32 bits with this mark between them.
pub fn pair(separator: &str, text: &str) -> Result<(u32, u32), Trouble> {
    let (first, second) = parts_around(text, separator);
    Ok((number(first)?, number(second)?))
}

/// A number of up to 64 bits.
pub fn long_number(text: &str) -> Result<u64, Trouble> {
    text.parse::<u64>().ok().ok_or(Trouble::NotACase)
}

/// The meaning of a word in a table; `None` if the table doesn't have it.
pub fn meaning<T: Copy>(table: &[(&str, T)], word: &str) -> Option<T> {
    for (name, meaning) in table {
        if *name == word {
            return Some(*meaning);
        }
    }
    None
}

/// The text with the octet at this place replaced; unchanged if it has no such place.
pub fn with_octet(
    alloc: Global,
    text: &[u8],
    place: usize,
    octet: u8,
) -> Result<Vec<u8>, AllocError> {
    let mut copy = text.to_vec(alloc)?;
    if let Some(old) = copy.get_mut(place) {
        *old = octet;
    }
    Ok(copy)
}

/// The replica that a number names.
pub fn replica(text: &str) -> Result<ReplicaId, Trouble> {
    ReplicaId::new(number(text)?).ok_or(Trouble::NotACase)
}

/// The octets of an escaped text.
pub fn octets(alloc: Global, escape: Escape, text: &str) -> Result<Octets, Trouble> {
    Ok(read_escaped(alloc, escape, text.as_bytes())?)
}

/// The name that an escaped field spells.
pub fn name(alloc: Global, text: &str) -> Result<Name, Trouble> {
    let octets = octets(alloc, Escape::Field, text)?;
    Ok(Name::new(octets.into_vec()))
}

/// The sound operation that a text spells.
pub fn operation(alloc: Global, text: &str) -> Result<SoundOp, Trouble> {
    match read_op(alloc, text.as_bytes()) {
        Ok(op) => into_sound_op(op).ok_or(Trouble::NotACase),
        Err(OpFault::NotInForm) => Err(Trouble::NotACase),
        Err(OpFault::NoMemory) => Err(Trouble::NoMemory),
    }
}
