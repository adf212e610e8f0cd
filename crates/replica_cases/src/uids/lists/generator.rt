//! Generates lists of operations by a fixed rule.

ghost use Rattle.std.specs.Prelude.{◌≤◌, IfOk};

use crate::uids::lists::generator_state::{Writer, Writers, place_below};
use case_lines::{Chance, Trouble, Words};
use crdt_ops::{Ids, Kind, Op, SoundOp};
use merge_laws::Caused;
use std::alloc::{AllocError, Global};
use tags_clocks::{Clock, OpId, ReplicaId};
use uid_projection::Counters;

/// The fewest operations of a long list.
pub const LONG: usize = 150;

/// A list of operations, and the replica that applies it.
#[derive(Drop)]
pub struct OpList {
    /// The replica, and its first numbers.
    pub start: Counters,
    /// The operations that the replica applied, in their order.
    pub applied: Vec<SoundOp>,
    /// Operations that come next.
    pub next: Vec<SoundOp>,
}

impl OpList {
    /// How many operations the list has.
    pub fn len(&self) -> usize {
        self.applied.len().saturating_add(self.next.len())
    }
}

/// The list with this number: of 13 consecutive ones 3 have 150 to 300 operations, 3 have 12 to 60,
/// and the others 3 to 12.
pub fn list(alloc: Global, number: u64) -> Result<OpList, Trouble>
    ensures { IfOk result (λ list. 1 ≤ list.start.uid) }
{
    let mut chance = Chance::new(number);
    let start = first_numbers(&mut chance)?;
    let count = length_of(&mut chance, number);
    let ops = ops_of_writers(alloc, &mut chance, count)?;
    let mut applied = in_other_order(alloc, &mut chance, ops)?;
    let next = last_ops(alloc, &mut applied, chance.below(8))?;
    Ok(OpList {
        start,
        applied,
        next,
    })
}

/// How many operations the list with this number has.
fn length_of(chance: &mut Chance, number: u64) -> u32 {
    match number % 13 {
        0 | 1 | 2 => chance.below(151).saturating_add(150),
        3 | 4 | 5 => chance.below(49).saturating_add(12),
        _ => chance.below(10).saturating_add(3),
    }
}

/// Takes the last operations out of a list, and returns them in their order.
fn last_ops(alloc: Global, ops: &mut Vec<SoundOp>, count: u32) -> Result<Vec<SoundOp>, AllocError> {
    let mut last = Vec::new(alloc);
    for _ in 0..count {
        if let Some(op) = ops.pop() {
            last.reserve(1)?;
            last.push_reserved(op);
        }
    }
    last.reverse();
    Ok(last)
}

/// One of three replicas, and first numbers that are mostly 1.
fn first_numbers(chance: &mut Chance) -> Result<Counters, Trouble>
    ensures { IfOk result (λ start. 1 ≤ start.uid) }
{
    let uid = first_number(chance);
    let k = first_number(chance);
    match ReplicaId::new(chance.below(3).saturating_add(1)) {
        Some(replica) => Ok(Counters { replica, uid, k }),
        None => Err(Trouble::NotACase),
    }
}

fn first_number(chance: &mut Chance) -> u32
    ensures { 1 ≤ result }
{
    if chance.is_one_in(4) {
        chance.below(1_000) + 1
    } else {
        1
    }
}

/// Operations that three or four replicas issue, in the order in which they do.
fn ops_of_writers(alloc: Global, chance: &mut Chance, count: u32) -> Result<Vec<SoundOp>, Trouble> {
    let replicas = chance.below(2).saturating_add(3);
    let favours_stores = chance.is_one_in(2);
    let mut writers = Writers::new(alloc, replicas)?;
    for _ in 0..count {
        let at = place_below(chance, replicas as usize);
        if chance.is_one_in(2) {
            let op = place_below(chance, writers.ops.len());
            writers.learn(alloc, at, op)?;
        }
        let line = line(alloc, chance, &writers, at, favours_stores)?;
        writers.issue(alloc, at, &line)?;
    }
    Ok(writers.into_ops())
}

/// The line of the next operation of the replica at this place.
fn line(
    alloc: Global,
    chance: &mut Chance,
    writers: &Writers,
    at: usize,
    favours_stores: bool,
) -> Result<String, Trouble> {
    let mut line = Words::new(alloc);
    if let Some(writer) = writers.writer(at) {
        let number = writer.known.get(writer.replica).saturating_add(1);
        line.put_number("", u64::from(writer.replica.get()));
        line.put_number(":", u64::from(number));
        line.put_clock(" ", writer.known);
        put_kind(alloc, chance, &writer, favours_stores, &mut line)?;
    }
    match String::from_utf8(line.finish()?) {
        Ok(line) => Ok(line),
        Err(_) => Err(Trouble::NotACase),
    }
}

/// Puts what the operation does.
fn put_kind(
    alloc: Global,
    chance: &mut Chance,
    writer: &Writer<'_>,
    favours_stores: bool,
    line: &mut Words,
) -> Result<(), Trouble> {
    let draw = chance.below(20);
    let is_change = draw < 8 || favours_stores && draw < 14;
    let message = if is_change {
        writer.any_message(chance)
    } else {
        None
    };
    match message {
        Some(op) => put_change(alloc, chance, writer, op, line),
        None => put_other(alloc, chance, writer, draw, line),
    }
}

/// Puts what is no change of a message: mostly an Append.
fn put_other(
    alloc: Global,
    chance: &mut Chance,
    writer: &Writer<'_>,
    draw: u32,
    line: &mut Words,
) -> Result<(), Trouble> {
    match draw {
        15 | 16 => put_create(chance, line),
        17 | 18 => return put_delete(alloc, chance, writer, line),
        19 => line.put(" subscribe a"),
        _ => put_append(chance, line),
    }
    Ok(())
}

/// Puts a Store or an Expunge of the message of which this operation's tag is a version: it names
/// that version, all present ones, or also one of another message. One Store in twelve names
/// another operation as the origin.
fn put_change(
    alloc: Global,
    chance: &mut Chance,
    writer: &Writer<'_>,
    op: &Op,
    line: &mut Words,
) -> Result<(), Trouble> {
    let is_store = !chance.is_one_in(4);
    line.put(if is_store { " store " } else { " expunge " });
    line.put_octets(op.kind.name().as_bytes());
    if is_store {
        line.put(flags(chance));
    }
    let ids = old_ids(alloc, chance, writer, op)?;
    line.put_ids(" ", &ids);
    if is_store {
        line.put_id(" ", named_origin(chance, writer, op));
    }
    Ok(())
}

/// The ids that a Store or an Expunge names.
fn old_ids(
    alloc: Global,
    chance: &mut Chance,
    writer: &Writer<'_>,
    op: &Op,
) -> Result<Ids, AllocError> {
    let mut ids = versions_or_none(alloc, chance, writer, op)?;
    ids.insert(op.id)?;
    if chance.is_one_in(6) {
        if let Some(other) = writer.any_message(chance) {
            ids.insert(other.id)?;
        }
    }
    Ok(ids)
}

/// The ids of all present versions of the message, or none.
fn versions_or_none(
    alloc: Global,
    chance: &mut Chance,
    writer: &Writer<'_>,
    op: &Op,
) -> Result<Ids, AllocError> {
    if chance.is_one_in(3) {
        return Ok(Ids::none(alloc));
    }
    writer.versions(alloc, op)
}

/// The origin that a Store names: that of the message, or in one of twelve another id.
fn named_origin(chance: &mut Chance, writer: &Writer<'_>, op: &Op) -> OpId {
    let other = if chance.is_one_in(12) {
        writer.any_id(chance)
    } else {
        None
    };
    match other {
        Some(id) => id,
        None => origin_of(op),
    }
}

fn origin_of(op: &Op) -> OpId {
    match &op.kind {
        Kind::Store { origin, .. } => *origin,
        _ => op.id,
    }
}

/// The flags of a Store or an Append.
fn flags(chance: &mut Chance) -> &'static str {
    match chance.below(8) {
        0 | 1 => " (\\Seen)",
        2 => " (\\Flagged)",
        3 => " (\\Draft j)",
        4 => " (\\Deleted \\Seen)",
        5 => " (k)",
        6 => " (\\Answered a j)",
        _ => " ()",
    }
}

/// A folder: INBOX, or one that can be deleted.
fn put_folder(chance: &mut Chance, line: &mut Words) {
    line.put(match chance.below(5) {
        0 => " a",
        1 => " b",
        _ => " INBOX",
    });
}

fn deletable(chance: &mut Chance) -> &'static str {
    if chance.is_one_in(2) { "a" } else { "b" }
}

fn put_append(chance: &mut Chance, line: &mut Words) {
    line.put(" append");
    put_folder(chance, line);
    line.put(flags(chance));
    line.put_number(" \"", u64::from(chance.below(19).saturating_add(10)));
    line.put_number(
        "-Jan-2026 00:00:00 +0000\" =t",
        u64::from(chance.below(1_000)),
    );
}

fn put_create(chance: &mut Chance, line: &mut Words) {
    line.put(" create ");
    line.put(deletable(chance));
}

fn put_delete(
    alloc: Global,
    chance: &mut Chance,
    writer: &Writer<'_>,
    line: &mut Words,
) -> Result<(), Trouble> {
    let folder = deletable(chance);
    line.put(" delete ");
    line.put(folder);
    let tags = writer.tags(alloc, folder)?;
    line.put_ids(" ", &tags);
    Ok(())
}

/// The operations in another order in which each comes after its causes.
fn in_other_order(
    alloc: Global,
    chance: &mut Chance,
    ops: Vec<SoundOp>,
) -> Result<Vec<SoundOp>, Trouble> {
    let mut ops = ops;
    let mut clock = Clock::new(alloc);
    let mut ordered = Vec::new(alloc);
    for _ in 0..ops.len() {
        let from = place_below(chance, ops.len());
        let place = ripe_place(&ops, &clock, from);
        if place < ops.len() {
            let op = ops.remove(place);
            let id = op.id();
            clock.raise(id.replica, id.number.get())?;
            ordered.push(op)?;
        }
    }
    Ok(ordered)
}

/// The first place from this one on of an operation whose causes the clock covers; otherwise the
/// first such place of all.
fn ripe_place(ops: &[SoundOp], clock: &Clock, from: usize) -> usize {
    for place in from..ops.len() {
        if is_ripe(ops, clock, place) {
            return place;
        }
    }
    for place in 0..ops.len() {
        if is_ripe(ops, clock, place) {
            return place;
        }
    }
    0
}

fn is_ripe(ops: &[SoundOp], clock: &Clock, place: usize) -> bool {
    match ops.get(place) {
        Some(op) => op.op().clock.is_covered_by(clock),
        None => false,
    }
}
