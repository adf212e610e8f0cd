//! Which operations are sound.

ghost use Rattle.std.specs.Prelude.{◌≡◌, ◌↔◌, ◌+◌, IfErr, IfOk, IfSome, IsOk, IsSome, IsTrue};
ghost use Rattle.std.specs.Prelude.{MatchOption};
ghost use Rattle.imap_types.specs.Names.{IsLawfulName, inbox};
ghost use Rattle.tags_clocks.specs.Clock.{count_of};
ghost use Rattle.crdt_ops.specs.Tags.{name_of};
ghost use Rattle.crdt_ops.specs.Sound.{AreCovered, CoversReferenced, HasLawfulFlags};
ghost use Rattle.crdt_ops.specs.Sound.{HasLawfulCount, HasOwnEntry, IsCount, IsDeleteOfInbox};
ghost use Rattle.crdt_ops.specs.Sound.{IsFirstFault, IsSound};

use crate::ids::Ids;
use crate::kind::{Kind, MAX_OLD_IDS};
use crate::op::{Op, SoundOp};
use tags_clocks::{Clock, OpId};
use thiserror::Error;

/// Why an operation isn't sound.
#[derive(Clone, Copy, Debug, PartialEq, Eq, Error)]
pub enum Unsound {
    /// Its clock's entry for its own replica isn't its number less 1.
    #[error("own clock entry")]
    OwnClockEntry,
    /// It removes an id, or names one as origin, that its clock doesn't cover.
    #[error("uncovered id")]
    UncoveredId,
    /// No mailbox may have its name.
    #[error("unlawful name")]
    UnlawfulName,
    /// No message may have its flags.
    #[error("unlawful flags")]
    UnlawfulFlags,
    /// It deletes INBOX.
    #[error("delete of INBOX")]
    DeleteOfInbox,
    /// It is an Expunge or a Store that names no old id, or more than [`MAX_OLD_IDS`].
    #[error("count of old ids")]
    Count,
}

/// The operation as a sound one. If it isn't sound, `Err` returns it with its first fault, in the
/// order of [`Unsound`].
pub fn check(op: Op) -> Result<SoundOp, (Op, Unsound)>
    ensures sound { IfOk result (λ sound. sound ≡ op) }
    ensures exact { IsOk result ↔ IsSound op }
    ensures back { IfErr result (λ e. e.0 ≡ op) }
    ensures first { IfErr result (λ e. IsFirstFault op e.1) }
{
    match fault_of(&op) {
        Some(fault) => Err((op, fault)),
        None => Ok(SoundOp::from_sound(op)),
    }
}

/// The operation's first fault, in the order of [`Unsound`].
fn fault_of(op: &Op) -> Option<Unsound>
    ensures { MatchOption result (IsSound op.now)
        (λ fault. IsFirstFault op.now fault × ¬ IsSound op.now) }
{
    if !has_own_entry(op) {
        return Some(Unsound::OwnClockEntry);
    }
    if !covers_referenced(&op.clock, &op.kind) {
        return Some(Unsound::UncoveredId);
    }
    if !op.kind.name().is_lawful() {
        return Some(Unsound::UnlawfulName);
    }
    if !has_lawful_flags(&op.kind) {
        return Some(Unsound::UnlawfulFlags);
    }
    if is_delete_of_inbox(&op.kind) {
        return Some(Unsound::DeleteOfInbox);
    }
    if !has_lawful_count(&op.kind) {
        return Some(Unsound::Count);
    }
    None
}

/// The operation as a sound one; None if it isn't sound ([`check`] gives the reason).
pub fn into_sound_op(op: Op) -> Option<SoundOp>
    ensures sound { IfSome result (λ sound. sound ≡ op) }
    ensures exact { IsSome result ↔ IsSound op }
{
    match check(op) {
        Ok(sound) => Some(sound),
        Err((op, _)) => {
            drop(op);
            None
        }
    }
}

fn has_own_entry(op: &Op) -> bool
    ensures { IsTrue result ↔ HasOwnEntry op.now }
{
    op.clock.get(op.id.replica) == op.id.number.get() - 1
}

fn covers_referenced(clock: &Clock, kind: &Kind) -> bool
    ensures { IsTrue result ↔ CoversReferenced clock.now kind.now }
{
    match kind {
        Kind::Create { .. } => true,
        Kind::Delete { seen, .. } => covers_all(clock, seen.as_slice()),
        Kind::Append { .. } => true,
        Kind::Expunge { old_ids, .. } => covers_all(clock, old_ids.as_slice()),
        Kind::Store {
            old_ids,
            origin,
            ..
        } => { covers_all(clock, old_ids.as_slice()) && clock.covers(*origin) }
        Kind::Subscribe { .. } => true,
        Kind::Unsubscribe { seen, .. } => covers_all(clock, seen.as_slice()),
    }
}

fn covers_all(clock: &Clock, ids: &[OpId]) -> bool
    ensures { IsTrue result ↔ AreCovered clock.now ids.now }
{
    for id in ids {
        if !clock.covers(*id) {
            return false;
        }
    }
    true
}

fn has_lawful_flags(kind: &Kind) -> bool
    ensures { IsTrue result ↔ HasLawfulFlags kind.now }
{
    match kind {
        Kind::Append { flags, .. } => flags.is_lawful(),
        Kind::Store { flags, .. } => flags.is_lawful(),
        _ => true,
    }
}

fn has_lawful_count(kind: &Kind) -> bool
    ensures { IsTrue result ↔ HasLawfulCount kind.now }
{
    match kind {
        Kind::Expunge { old_ids, .. } => is_count(old_ids),
        Kind::Store { old_ids, .. } => is_count(old_ids),
        _ => true,
    }
}

fn is_count(old_ids: &Ids) -> bool
    ensures { IsTrue result ↔ IsCount old_ids.now }
{
    let count = old_ids.as_slice().len();
    1 <= count && count <= MAX_OLD_IDS
}

fn is_delete_of_inbox(kind: &Kind) -> bool
    ensures { IsTrue result ↔ IsDeleteOfInbox kind.now }
{
    match kind {
        Kind::Delete { folder, .. } => folder.as_bytes() == b"INBOX".as_slice(),
        _ => false,
    }
}
