//! Kinds that a replica might issue, given the operations that it knows.

use crate::dice::Dice;
use crate::fixtures::Trouble;
use crdt_ops::{Ids, Kind, Op, SoundOp};
use imap_types::{DateTime, Flags, Name, Text};
use std::alloc::{AllocError, Global};
use tags_clocks::{Clock, OpId};

/// The names that operations are about.
pub const NAMES: [&[u8]; 3] = [b"INBOX", b"a", b"b"];

/// The kind of an operation: about one of the names, or about a message that the clock covers, if
/// there is one.
pub fn draft(
    alloc: Global,
    dice: &mut Dice,
    clock: &Clock,
    ops: &[SoundOp],
) -> Result<Kind, Trouble> {
    match dice.below(16) {
        0 => Ok(Kind::Create {
            folder: some_name(alloc, dice)?,
        }),
        1 => delete(alloc, dice, clock, ops),
        2 => Ok(Kind::Subscribe {
            name: some_name(alloc, dice)?,
        }),
        3 => unsubscribe(alloc, dice, clock, ops),
        4..=7 => append(alloc, dice),
        _ => change(alloc, dice, clock, ops),
    }
}

fn some_name(alloc: Global, dice: &mut Dice) -> Result<Name, AllocError> {
    match NAMES.get(dice.below(3)) {
        Some(name) => Name::from_slice(alloc, name),
        None => Name::inbox(alloc),
    }
}

/// A Delete of a folder other than INBOX, which lists most of its tags.
fn delete(alloc: Global, dice: &mut Dice, clock: &Clock, ops: &[SoundOp]) -> Result<Kind, Trouble> {
    let octets: &[u8] = if dice.below(2) == 0 { b"a" } else { b"b" };
    let folder = Name::from_slice(alloc, octets)?;
    let seen = most_covered_tags(alloc, dice, clock, ops, &folder)?;
    Ok(Kind::Delete { folder, seen })
}

fn unsubscribe(
    alloc: Global,
    dice: &mut Dice,
    clock: &Clock,
    ops: &[SoundOp],
) -> Result<Kind, Trouble> {
    let name = some_name(alloc, dice)?;
    let seen = most_covered_tags(alloc, dice, clock, ops, &name)?;
    Ok(Kind::Unsubscribe { name, seen })
}

fn append(alloc: Global, dice: &mut Dice) -> Result<Kind, Trouble> {
    let folder = some_name(alloc, dice)?;
    let flags = some_flags(alloc, dice)?;
    let date = some_date(dice)?;
    let text = Text::from_slice(alloc, &[some_letter(dice), some_letter(dice)])?;
    Ok(Kind::Append {
        folder,
        flags,
        date,
        text,
    })
}

fn some_letter(dice: &mut Dice) -> u8 {
    match b"abcdefgh".get(dice.below(8)) {
        Some(letter) => *letter,
        None => b'z',
    }
}

fn some_date(dice: &mut Dice) -> Result<DateTime, Trouble> {
    let octets = match dice.below(3) {
        0 => *b"\"01-Jan-2020 00:00:00 +0000\"",
        1 => *b"\"17-Jul-1996 02:44:25 -0700\"",
        _ => *b"\"29-Feb-2024 23:59:59 +0130\"",
    };
    match DateTime::new(octets) {
        Some(date) => Ok(date),
        None => Err(Trouble::NotInForm),
    }
}

fn some_flags(alloc: Global, dice: &mut Dice) -> Result<Flags, AllocError> {
    let mut flags = Flags::none(alloc);
    flags.seen = dice.below(2) == 0;
    flags.deleted = dice.below(4) == 0;
    flags.flagged = dice.below(8) == 0;
    if dice.below(4) == 0 {
        flags.keywords.insert(alloc, b"$Junk")?;
    }
    if dice.below(4) == 0 {
        flags.keywords.insert(alloc, b"$Forwarded")?;
    }
    Ok(flags)
}

/// A Store or an Expunge of a message that the clock covers; an Append if there is none.
fn change(alloc: Global, dice: &mut Dice, clock: &Clock, ops: &[SoundOp]) -> Result<Kind, Trouble> {
    match some_message(dice, clock, ops) {
        None => append(alloc, dice),
        Some((at, origin)) => match ops.get(at) {
            None => append(alloc, dice),
            Some(op) => change_of(alloc, dice, clock, ops, op.op().kind.name(), &origin),
        },
    }
}

fn change_of(
    alloc: Global,
    dice: &mut Dice,
    clock: &Clock,
    ops: &[SoundOp],
    folder: &Name,
    origin: &OpId,
) -> Result<Kind, Trouble> {
    let old_ids = covered_versions(alloc, clock, ops, folder, origin)?;
    let folder = folder.copy(alloc)?;
    if dice.below(4) == 0 {
        return Ok(Kind::Expunge { folder, old_ids });
    }
    let flags = some_flags(alloc, dice)?;
    Ok(Kind::Store {
        folder,
        flags,
        old_ids,
        origin: *origin,
    })
}

/// The place of an operation that the clock covers and that adds a version of a message, with the
/// message's origin.
fn some_message(dice: &mut Dice, clock: &Clock, ops: &[SoundOp]) -> Option<(usize, OpId)> {
    let from = dice.below(ops.len());
    for (at, op) in ops.iter().enumerate() {
        if at >= from && clock.covers(op.op().id) {
            if let Some(origin) = added_origin(op.op()) {
                return Some((at, origin));
            }
        }
    }
    None
}

/// The origin of the message to which the operation adds a version.
pub fn added_origin(op: &Op) -> Option<OpId> {
    match &op.kind {
        Kind::Append { .. } => Some(op.id),
        Kind::Store { origin, .. } => Some(*origin),
        _ => None,
    }
}

/// The ids of a message's versions that the clock covers, 60 at most.
fn covered_versions(
    alloc: Global,
    clock: &Clock,
    ops: &[SoundOp],
    folder: &Name,
    origin: &OpId,
) -> Result<Ids, AllocError> {
    let mut ids = Ids::none(alloc);
    for op in ops {
        if ids.as_slice().len() < 60 && is_version_covered(clock, op.op(), folder, origin) {
            ids.insert(op.op().id)?;
        }
    }
    Ok(ids)
}

fn is_version_covered(clock: &Clock, op: &Op, folder: &Name, origin: &OpId) -> bool {
    clock.covers(op.id) && op.kind.name().same(folder) && added_origin(op) == Some(*origin)
}

/// The ids of three in four of the operations about this name that the clock covers.
fn most_covered_tags(
    alloc: Global,
    dice: &mut Dice,
    clock: &Clock,
    ops: &[SoundOp],
    name: &Name,
) -> Result<Ids, AllocError> {
    let mut ids = Ids::none(alloc);
    for op in ops {
        let op = op.op();
        if clock.covers(op.id) && op.kind.name().same(name) && dice.below(4) > 0 {
            ids.insert(op.id)?;
        }
    }
    Ok(ids)
}
