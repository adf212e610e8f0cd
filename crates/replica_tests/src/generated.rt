//! Lists of operations as replicas might issue them, shuffled, repeated and forged.

use crate::dice::Dice;
use crate::drafts::draft;
use crate::fixtures::{Trouble, sound};
use crdt_ops::{Kind, Op, SoundOp};
use imap_types::Name;
use merge_laws::Caused;
use std::alloc::Global;
use tags_clocks::{Clock, OpId, ReplicaId};

/// The number of lists.
pub const LISTS: u32 = 200;

/// A replica that issues operations, with the clock of those that it knows.
#[derive(Drop)]
struct Peer {
    replica: ReplicaId,
    clock: Clock,
}

/// One to six replicas that know no operations.
fn peers(alloc: Global, dice: &mut Dice) -> Result<Vec<Peer>, Trouble> {
    let mut peers = Vec::new(alloc);
    for number in 1..7u32 {
        if let Some(replica) = ReplicaId::new(number) {
            let clock = Clock::new(alloc);
            peers.push(Peer { replica, clock })?;
        }
    }
    peers.truncate(dice.below(6).saturating_add(1));
    Ok(peers)
}

/// The replica at `at` learns all that the one at `of` knows.
fn receive(alloc: Global, peers: &mut [Peer], at: usize, of: usize) -> Result<(), Trouble> {
    let Some(other) = peers.get(of) else {
        return Ok(());
    };
    let clock = other.clock.copy(alloc)?;
    if let Some(peer) = peers.get_mut(at) {
        peer.clock.join(alloc, &clock)?;
    }
    Ok(())
}

/// Adds an operation with this id and this clock of its causes.
fn add(ops: &mut Vec<SoundOp>, id: &OpId, clock: Clock, kind: Kind) -> Result<(), Trouble> {
    let op = Op {
        id: *id,
        clock,
        kind,
    };
    ops.push(sound(op)?)?;
    Ok(())
}

/// Issues a replica's next operation, and in one of sixteen cases forges another with its id.
fn issue(
    alloc: Global,
    dice: &mut Dice,
    peer: &mut Peer,
    ops: &mut Vec<SoundOp>,
) -> Result<(), Trouble> {
    let number = peer.clock.get(peer.replica).saturating_add(1);
    let Some(id) = OpId::new(peer.replica, number) else {
        return Err(Trouble::NotInForm);
    };
    let clock = peer.clock.copy(alloc)?;
    let kind = draft(alloc, dice, &peer.clock, ops)?;
    add(ops, &id, clock, kind)?;
    if dice.below(16) == 0 {
        forge(alloc, &id, &peer.clock, ops)?;
    }
    peer.clock.raise(id.replica, number)?;
    Ok(())
}

/// Adds another operation with this id.
fn forge(alloc: Global, id: &OpId, clock: &Clock, ops: &mut Vec<SoundOp>) -> Result<(), Trouble> {
    let clock = clock.copy(alloc)?;
    let folder = Name::from_slice(alloc, b"forged")?;
    add(ops, id, clock, Kind::Create { folder })
}

/// Lets one of the replicas issue an operation; in half of the cases it first learns what another
/// knows.
fn step(
    alloc: Global,
    dice: &mut Dice,
    peers: &mut [Peer],
    ops: &mut Vec<SoundOp>,
) -> Result<(), Trouble> {
    let at = dice.below(peers.len());
    if dice.below(2) == 0 {
        let of = dice.below(peers.len());
        receive(alloc, peers, at, of)?;
    }
    match peers.get_mut(at) {
        None => Ok(()),
        Some(peer) => issue(alloc, dice, peer, ops),
    }
}

/// Repeats one operation in sixteen.
fn repeat(alloc: Global, dice: &mut Dice, ops: &mut Vec<SoundOp>) -> Result<(), Trouble> {
    for _ in 0..ops.len() / 16 {
        let at = dice.below(ops.len());
        if let Some(op) = ops.get(at) {
            let again = op.copy(alloc)?;
            ops.push(again)?;
        }
    }
    Ok(())
}

/// Exchanges each operation with a later one, within a reach that differs from list to list.
fn shuffle(dice: &mut Dice, ops: &mut [SoundOp]) {
    let reach = dice.below(ops.len()).saturating_add(1);
    for at in 0..ops.len() {
        let other = at.saturating_add(dice.below(reach));
        if at < ops.len() && other < ops.len() {
            ops.swap(at, other);
        }
    }
}

/// The number of operations that replicas issue in the list with this number: 160 to 260 in every
/// third list, and 1 to 60 in the others.
fn issue_count(dice: &mut Dice, number: u32) -> usize {
    if number % 3 == 0 {
        dice.below(101).saturating_add(160)
    } else {
        dice.below(60).saturating_add(1)
    }
}

/// The list with this number, of at most 300 operations in the order of their delivery.
pub fn generated_ops(alloc: Global, number: u32) -> Result<Vec<SoundOp>, Trouble> {
    let mut dice = Dice::new(number);
    let mut peers = peers(alloc, &mut dice)?;
    let mut ops = Vec::new(alloc);
    for _ in 0..issue_count(&mut dice, number) {
        step(alloc, &mut dice, &mut peers, &mut ops)?;
    }
    repeat(alloc, &mut dice, &mut ops)?;
    shuffle(&mut dice, &mut ops);
    ops.truncate(300);
    Ok(ops)
}
