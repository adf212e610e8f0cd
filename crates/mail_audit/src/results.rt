//! Readers of the lines that report the results of deliveries, drains, exchanges, comparisons and
//! joins.

ghost use Rattle.std.specs.Prelude.{◌≡◌, ◌↔◌, IfOk, IfSome, IsTrue};
ghost use Rattle.mail_script.specs.Fields.{IsId, IsReplica};
ghost use Rattle.mail_script.specs.Outcomes.{outcome_text};
ghost use Rattle.mail_script.specs.declared.outcome_line.OutcomeLine.TheVariants.{Unsound};
ghost use Rattle.text_fields.specs.FieldReading.{id_at, replica_at};
ghost use Rattle.mail_audit.specs.ResultReading.{agreed_at, applied_at, conflict_at, counted_at};
ghost use Rattle.mail_audit.specs.ResultReading.{delivered_at, drained_at, fields_at, forged_at};
ghost use Rattle.mail_audit.specs.ResultReading.{join_result_at, joined_at, joined_plainly_at};
ghost use Rattle.mail_audit.specs.ResultReading.{outcome_at, plain_at, replicas_at, result_at};
ghost use Rattle.mail_audit.specs.ResultReading.{settle_result_at, settled_at, settled_plainly_at};
ghost use Rattle.mail_audit.specs.ResultReading.{unsound_at, valued_at};
ghost use Rattle.mail_audit.specs.Results.{IsCount, IsDeliveryResult, IsJoinResult, IsReportable};
ghost use Rattle.mail_audit.specs.Results.{IsResult, IsSettleResult};

use mail_script::{
    BrokenRule, DeliveryResult, JoinResult, OutcomeLine, SettleResult, write_outcome,
};
use std::alloc::{AllocError, Global};
use tags_clocks::{OpId, ReplicaId};
use text_fields::{number, split};

/// The number of operations that were applied, and whether an operation whose causes are applied is
/// still held.
#[derive(Clone, Copy)]
struct AppliedCount {
    count: u64,
    stalled: bool,
}

/// Whether the line reports the result of a delivery, a drain, an exchange, a comparison or a join;
/// `Err` if memory runs out.
pub fn is_result(alloc: Global, line: &[u8]) -> Result<bool, AllocError>
    ensures { IfOk result (λ matches. IsTrue matches ↔ IsResult line.now) }
{
    match outcome(line) {
        Some(outcome) => is_outcome_text(alloc, outcome, line),
        None => Ok(false),
    }
}

/// Whether the line is exactly the text of this outcome; `Err` if memory runs out.
fn is_outcome_text(alloc: Global, outcome: OutcomeLine, line: &[u8]) -> Result<bool, AllocError>
    ensures { IfOk result (λ matches. IsTrue matches ↔ (line.now ≡ outcome_text outcome)) }
{
    let mut text = Vec::new(alloc);
    write_outcome(outcome, &mut text)?;
    let mut whole = line.to_vec(alloc)?;
    whole.push(b'\n')?;
    Ok(is_same(&text, &whole))
}

fn is_same(one: &[u8], other: &[u8]) -> bool
    ensures { IsTrue result ↔ (one.now ≡ other.now) }
{
    one == other
}

/// The id that the text spells.
fn id(text: &[u8]) -> Option<OpId>
    ensures read { result ≡ id_at text.now }
    ensures range { IfSome result IsId }
{
    text_fields::id(text)
}

/// The replica that the text spells.
fn replica(text: &[u8]) -> Option<ReplicaId>
    ensures read { result ≡ replica_at text.now }
    ensures range { IfSome result IsReplica }
{
    text_fields::replica(text)
}

/// The outcome that the line seems to report. Readers from here on are lenient: the line is
/// compared with the outcome's own text afterwards.
#[tactic(auto, unfolding(crate::specs::ResultReading::outcome_at))]
fn outcome(line: &[u8]) -> Option<OutcomeLine>
    ensures read { result ≡ outcome_at line.now }
    ensures range { IfSome result IsReportable }
{
    let (word, fields) = split(b' ', line)?;
    outcome_of(word, fields)
}

/// The outcome that a line with this word and these fields seems to report.
#[tactic(auto, unfolding(crate::specs::ResultReading::fields_at))]
fn outcome_of(word: &[u8], fields: &[u8]) -> Option<OutcomeLine>
    ensures read { result ≡ fields_at word.now fields.now }
    ensures range { IfSome result IsReportable }
{
    if word == b"deliver".as_slice() {
        delivered_outcome(fields)
    } else if word == b"forge".as_slice() {
        forged_outcome(fields)
    } else if word == b"forge:".as_slice() {
        unsound_outcome(fields)
    } else if word == b"drain".as_slice() {
        drained_outcome(fields)
    } else {
        of_replicas(word, fields)
    }
}

/// The outcome of an exchange, a comparison or a join that a line with this word and these fields
/// seems to report.
#[tactic(auto, unfolding(crate::specs::ResultReading::replicas_at))]
fn of_replicas(word: &[u8], fields: &[u8]) -> Option<OutcomeLine>
    ensures read { result ≡ replicas_at word.now fields.now }
    ensures range { IfSome result IsReportable }
{
    if word == b"settle:".as_slice() {
        settled_outcome(fields)
    } else if word == b"agree".as_slice() {
        agreed_outcome(fields)
    } else if word == b"join".as_slice() {
        joined_outcome(fields)
    } else {
        None
    }
}

/// The outcome that the fields after `deliver` seem to report.
#[tactic(auto, unfolding(crate::specs::ResultReading::delivered_at))]
fn delivered_outcome(fields: &[u8]) -> Option<OutcomeLine>
    ensures read { result ≡ delivered_at fields.now }
    ensures range { IfSome result IsReportable }
{
    let (name, rest) = split(b' ', fields)?;
    let (number, text) = split(b':', rest)?;
    let (_space, reported) = split(b' ', text)?;
    let id = id(name)?;
    let replica = replica(number)?;
    let result = delivery_result(reported)?;
    Some(OutcomeLine::Delivered {
        id,
        replica,
        result,
    })
}

/// The outcome that the fields after `forge` seem to report.
#[tactic(auto, unfolding(crate::specs::ResultReading::forged_at))]
fn forged_outcome(fields: &[u8]) -> Option<OutcomeLine>
    ensures read { result ≡ forged_at fields.now }
    ensures range { IfSome result IsReportable }
{
    let (name, rest) = split(b' ', fields)?;
    let (number, text) = split(b':', rest)?;
    let (_space, reported) = split(b' ', text)?;
    let id = id(name)?;
    let replica = replica(number)?;
    let result = delivery_result(reported)?;
    Some(OutcomeLine::Forged {
        id,
        replica,
        result,
    })
}

/// The outcome that the fields after `forge:` seem to report.
#[tactic(auto, unfolding(crate::specs::ResultReading::unsound_at))]
fn unsound_outcome(fields: &[u8]) -> Option<OutcomeLine>
    ensures read { result ≡ unsound_at fields.now }
    ensures range { IfSome result IsReportable }
{
    if fields == b"Unsound U1".as_slice() {
        Some(broken_rule(BrokenRule::OwnEntry))
    } else if fields == b"Unsound U2".as_slice() {
        Some(broken_rule(BrokenRule::UncoveredId))
    } else if fields == b"Unsound U3".as_slice() {
        Some(broken_rule(BrokenRule::UnlawfulName))
    } else if fields == b"Unsound U4".as_slice() {
        Some(broken_rule(BrokenRule::UnlawfulFlags))
    } else if fields == b"Unsound U5".as_slice() {
        Some(broken_rule(BrokenRule::InboxDeleted))
    } else if fields == b"Unsound U6".as_slice() {
        Some(broken_rule(BrokenRule::OldIdCount))
    } else {
        None
    }
}

fn broken_rule(rule: BrokenRule) -> OutcomeLine
    ensures { result ≡ Unsound rule }
{
    OutcomeLine::Unsound { rule }
}

/// The outcome that the fields after `drain` seem to report.
#[tactic(auto, unfolding(crate::specs::ResultReading::drained_at))]
fn drained_outcome(fields: &[u8]) -> Option<OutcomeLine>
    ensures read { result ≡ drained_at fields.now }
    ensures range { IfSome result IsReportable }
{
    let (number, text) = split(b':', fields)?;
    let (_space, reported) = split(b' ', text)?;
    let (_applied, value) = split(b' ', reported)?;
    let replica = replica(number)?;
    let counted = count_and_stall(value)?;
    Some(OutcomeLine::Drained {
        replica,
        count: counted.count,
        stalled: counted.stalled,
    })
}

/// The delivery result that a text seems to report.
#[tactic(auto, unfolding(crate::specs::ResultReading::result_at, crate::specs::ResultReading::result_by))]
fn delivery_result(text: &[u8]) -> Option<DeliveryResult>
    ensures read { result ≡ result_at text.now }
    ensures range { IfSome result IsDeliveryResult }
{
    match split(b' ', text) {
        None => plain_result(text),
        Some((kind, value)) => valued_result(kind, value),
    }
}

/// The delivery result that is a single word.
#[tactic(auto, unfolding(crate::specs::ResultReading::plain_at))]
fn plain_result(word: &[u8]) -> Option<DeliveryResult>
    ensures read { result ≡ plain_at word.now }
    ensures range { IfSome result IsDeliveryResult }
{
    if word == b"Held".as_slice() {
        Some(DeliveryResult::Held { stalled: false })
    } else if word == b"Repeat".as_slice() {
        Some(DeliveryResult::Repeat { stalled: false })
    } else if word == b"HeldFull".as_slice() {
        Some(DeliveryResult::HeldFull)
    } else if word == b"Exhausted".as_slice() {
        Some(DeliveryResult::Exhausted)
    } else if word == b"NoMemory".as_slice() {
        Some(DeliveryResult::NoMemory)
    } else {
        None
    }
}

/// The delivery result that is a word with a text after it.
#[tactic(auto, unfolding(crate::specs::ResultReading::valued_at))]
fn valued_result(kind: &[u8], value: &[u8]) -> Option<DeliveryResult>
    ensures read { result ≡ valued_at kind.now value.now }
    ensures range { IfSome result IsDeliveryResult }
{
    if kind == b"Held".as_slice() {
        Some(DeliveryResult::Held { stalled: true })
    } else if kind == b"Repeat".as_slice() {
        Some(DeliveryResult::Repeat { stalled: true })
    } else if kind == b"Conflict".as_slice() {
        conflict(value)
    } else if kind == b"Applied".as_slice() {
        applied_result(value)
    } else {
        None
    }
}

/// The result that another operation has the id that the text spells.
fn conflict(value: &[u8]) -> Option<DeliveryResult>
    ensures read { result ≡ conflict_at value.now }
    ensures range { IfSome result IsDeliveryResult }
{
    let id = id(value)?;
    Some(DeliveryResult::Conflict { id })
}

/// The result that the number of operations that the text spells was applied.
fn applied_result(value: &[u8]) -> Option<DeliveryResult>
    ensures read { result ≡ applied_at value.now }
    ensures range { IfSome result IsDeliveryResult }
{
    let counted = count_and_stall(value)?;
    Some(DeliveryResult::Applied {
        count: counted.count,
        stalled: counted.stalled,
    })
}

/// The number that the text spells, and whether a word follows it.
#[tactic(auto, unfolding(crate::specs::ResultReading::counted_at, crate::specs::ResultReading::counted_by))]
fn count_and_stall(text: &[u8]) -> Option<AppliedCount>
    ensures read { result ≡ counted_at text.now }
    ensures range { IfSome result (λ counted. IsCount counted.count) }
{
    match split(b' ', text) {
        None => Some(AppliedCount {
            count: number(text, u64::MAX)?,
            stalled: false,
        }),
        Some((digits, _)) => Some(AppliedCount {
            count: number(digits, u64::MAX)?,
            stalled: true,
        }),
    }
}

/// The outcome that the fields after `settle:` seem to report.
#[tactic(auto, unfolding(crate::specs::ResultReading::settled_at))]
fn settled_outcome(fields: &[u8]) -> Option<OutcomeLine>
    ensures read { result ≡ settled_at fields.now }
    ensures range { IfSome result IsReportable }
{
    let result = settle_result(fields)?;
    Some(OutcomeLine::Settled { result })
}

/// The result of an exchange that the text seems to report.
#[tactic(auto, unfolding(crate::specs::ResultReading::settle_result_at, crate::specs::ResultReading::settle_result_by))]
fn settle_result(text: &[u8]) -> Option<SettleResult>
    ensures read { result ≡ settle_result_at text.now }
    ensures range { IfSome result IsSettleResult }
{
    match split(b' ', text) {
        None => plain_settle_result(text),
        Some((_, name)) => {
            let id = id(name)?;
            Some(SettleResult::Conflict { id })
        }
    }
}

/// The result of an exchange that is a single word.
#[tactic(auto, unfolding(crate::specs::ResultReading::settled_plainly_at))]
fn plain_settle_result(word: &[u8]) -> Option<SettleResult>
    ensures read { result ≡ settled_plainly_at word.now }
    ensures range { IfSome result IsSettleResult }
{
    if word == b"Ok".as_slice() {
        Some(SettleResult::Done)
    } else if word == b"Exhausted".as_slice() {
        Some(SettleResult::Exhausted)
    } else if word == b"NoMemory".as_slice() {
        Some(SettleResult::NoMemory)
    } else {
        None
    }
}

/// The outcome that the fields after `agree` seem to report.
#[tactic(auto, unfolding(crate::specs::ResultReading::agreed_at))]
fn agreed_outcome(fields: &[u8]) -> Option<OutcomeLine>
    ensures read { result ≡ agreed_at fields.now }
    ensures range { IfSome result IsReportable }
{
    let (one, rest) = split(b' ', fields)?;
    let (other, reported) = split(b':', rest)?;
    let first = replica(one)?;
    let second = replica(other)?;
    let same = reported == b" yes".as_slice();
    Some(OutcomeLine::Agreed {
        first,
        second,
        same,
    })
}

/// The outcome that the fields after `join` seem to report.
#[tactic(auto, unfolding(crate::specs::ResultReading::joined_at))]
fn joined_outcome(fields: &[u8]) -> Option<OutcomeLine>
    ensures read { result ≡ joined_at fields.now }
    ensures range { IfSome result IsReportable }
{
    let (one, rest) = split(b' ', fields)?;
    let (other, text) = split(b':', rest)?;
    let (_space, reported) = split(b' ', text)?;
    let joining = replica(one)?;
    let peer = replica(other)?;
    let result = join_result(reported)?;
    Some(OutcomeLine::Joined {
        replica: joining,
        peer,
        result,
    })
}

/// The result of a join that the text seems to report.
#[tactic(auto, unfolding(crate::specs::ResultReading::join_result_at, crate::specs::ResultReading::join_result_by))]
fn join_result(text: &[u8]) -> Option<JoinResult>
    ensures read { result ≡ join_result_at text.now }
    ensures range { IfSome result IsJoinResult }
{
    match split(b' ', text) {
        None => plain_join_result(text),
        Some((_, name)) => {
            let id = id(name)?;
            Some(JoinResult::Own { id })
        }
    }
}

/// The result of a join that is a single word.
#[tactic(auto, unfolding(crate::specs::ResultReading::joined_plainly_at))]
fn plain_join_result(word: &[u8]) -> Option<JoinResult>
    ensures read { result ≡ joined_plainly_at word.now }
    ensures range { IfSome result IsJoinResult }
{
    if word == b"Ok".as_slice() {
        Some(JoinResult::Done)
    } else if word == b"Exhausted".as_slice() {
        Some(JoinResult::Exhausted)
    } else if word == b"NoMemory".as_slice() {
        Some(JoinResult::NoMemory)
    } else {
        None
    }
}
