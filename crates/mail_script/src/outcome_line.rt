//! The lines that report the outcomes of a script's deliveries, and why a script ended early.

ghost use Rattle.std.specs.Prelude.{◌≡◌, ◌++◌, ℕ, List, [], ◌∷◌, OnErr, OnOk};
ghost use Rattle.std.specs.Fmt.{decimal};
ghost use Rattle.mail_script.specs.Fields.{id_text};
ghost use Rattle.mail_script.specs.Outcomes.{outcome_line, outcome_text, applied_text};
ghost use Rattle.mail_script.specs.Outcomes.{delivery_text, join_text, pair_text, result_text};
ghost use Rattle.mail_script.specs.Outcomes.{rule_text, settled_text, stalled_text, yes_or_no};

use std::alloc::AllocError;
use tags_clocks::{OpId, ReplicaId};
use text_fields::{push_id, push_number};

/// The result of a delivery. `count` is the number of operations that it applied; `stalled` says
/// that an operation whose causes are all applied is still held.
#[derive(Clone, Copy, Debug, PartialEq, Eq)]
pub enum DeliveryResult {
    /// The operation was applied, and so were those that waited for it.
    Applied { count: u64, stalled: bool },
    /// The operation waits for its causes.
    Held { stalled: bool },
    /// The operation was received before.
    Repeat { stalled: bool },
    /// Another operation has this id.
    Conflict { id: OpId },
    /// The operation's causes are missing, and no further operation can be held.
    HeldFull,
    /// A counter is at its end.
    Exhausted,
    /// Memory ran out.
    NoMemory,
}

/// The result of an exchange of all operations between all replicas.
#[derive(Clone, Copy, Debug, PartialEq, Eq)]
pub enum SettleResult {
    /// All replicas applied the same operations.
    Done,
    /// Two replicas received different operations with this id, the least such id; nothing was
    /// delivered.
    Conflict { id: OpId },
    /// A counter is at its end.
    Exhausted,
    /// Memory ran out.
    NoMemory,
}

/// The result of declaring a replica that begins with the operations that another one applied.
#[derive(Clone, Copy, Debug, PartialEq, Eq)]
pub enum JoinResult {
    /// The replica exists now.
    Done,
    /// The other replica applied operations issued by the joining replica; this id is the least of
    /// them.
    Own { id: OpId },
    /// A counter is at its end.
    Exhausted,
    /// Memory ran out.
    NoMemory,
}

/// The rule of sound operations that an operation breaks.
#[derive(Clone, Copy, Debug, PartialEq, Eq)]
pub enum BrokenRule {
    /// The clock's entry for the issuing replica isn't the operation's number less one.
    OwnEntry,
    /// The clock doesn't cover a removed id or the origin.
    UncoveredId,
    /// The name isn't lawful.
    UnlawfulName,
    /// The flags aren't lawful.
    UnlawfulFlags,
    /// The operation deletes INBOX.
    InboxDeleted,
    /// The operation names no old id, or more than 64.
    OldIdCount,
}

/// A line of a script's output that belongs to no transcript and no dump.
#[derive(Clone, Copy, Debug, PartialEq, Eq)]
pub enum OutcomeLine {
    /// `deliver ID R: RESULT`
    Delivered {
        id: OpId,
        replica: ReplicaId,
        result: DeliveryResult,
    },
    /// `forge ID R: RESULT`
    Forged {
        id: OpId,
        replica: ReplicaId,
        result: DeliveryResult,
    },
    /// `forge: Unsound RULE`, with a rule from `U1` to `U6`
    Unsound {
        rule: BrokenRule,
    },
    /// `drain R: Applied N`, where N is the number of operations that were applied
    Drained {
        replica: ReplicaId,
        count: u64,
        stalled: bool,
    },
    /// `settle: RESULT`
    Settled {
        result: SettleResult,
    },
    /// `agree R S: yes` or `agree R S: no`; `same` says that both replicas applied the same
    /// operations.
    Agreed {
        first: ReplicaId,
        second: ReplicaId,
        same: bool,
    },
    /// `join R S: RESULT`; R is the joining replica, S the one whose operations it takes.
    Joined {
        replica: ReplicaId,
        peer: ReplicaId,
        result: JoinResult,
    },
    /// `bad script: line N`; lines count from 1.
    BadScript {
        line: u64,
    },
    /// `cannot read`
    CannotRead,
    /// `no memory`
    NoMemory,
}

/// Appends the line with its LF; `Err` if memory runs out, and then `out` is unchanged.
pub fn write_outcome(outcome: OutcomeLine, out: &mut Vec<u8>) -> Result<(), AllocError>
    ensures ok { OnOk result (out.new.items ≡ out.old.items ++ outcome_line outcome) }
    ensures err { OnErr result (out.new.items ≡ out.old.items) }
{
    let start = out.len();
    if let Err(e) = push_outcome(outcome, out) {
        out.truncate(start);
        return Err(e);
    }
    Ok(())
}

fn push_outcome(outcome: OutcomeLine, out: &mut Vec<u8>) -> Result<(), AllocError>
    ensures ok { OnOk result (out.new.items ≡ out.old.items ++ outcome_line outcome) }
    ensures prefix { (more : List ℕ) × (out.new.items ≡ out.old.items ++ more) }
{
    push_text(outcome, out)?;
    push(b"\n", out)?;
    Ok(())
}

fn push_text(outcome: OutcomeLine, out: &mut Vec<u8>) -> Result<(), AllocError>
    ensures ok { OnOk result (out.new.items ≡ out.old.items ++ outcome_text outcome) }
    ensures prefix { (more : List ℕ) × (out.new.items ≡ out.old.items ++ more) }
{
    match outcome {
        OutcomeLine::Delivered {
            id,
            replica,
            result,
        } => {
            push(b"deliver ", out)?;
            push_delivery(id, replica, out)?;
            push_result(result, out)
        }
        OutcomeLine::Forged {
            id,
            replica,
            result,
        } => {
            push(b"forge ", out)?;
            push_delivery(id, replica, out)?;
            push_result(result, out)
        }
        OutcomeLine::Unsound { rule } => {
            push(b"forge: Unsound ", out)?;
            push(rule.text(), out)
        }
        OutcomeLine::Drained {
            replica,
            count,
            stalled,
        } => {
            push(b"drain ", out)?;
            push_number(u64::from(replica.get()), out)?;
            push(b": ", out)?;
            push_applied(count, stalled, out)
        }
        OutcomeLine::Settled { result } => {
            push(b"settle: ", out)?;
            push_settle(result, out)
        }
        OutcomeLine::Agreed {
            first,
            second,
            same,
        } => {
            push(b"agree ", out)?;
            push_pair(first, second, out)?;
            push(yes_or_no(same), out)
        }
        OutcomeLine::Joined {
            replica,
            peer,
            result,
        } => {
            push(b"join ", out)?;
            push_pair(replica, peer, out)?;
            push_join(result, out)
        }
        OutcomeLine::BadScript { line } => {
            push(b"bad script: line ", out)?;
            push_number(line, out)
        }
        OutcomeLine::CannotRead => push(b"cannot read", out),
        OutcomeLine::NoMemory => push(b"no memory", out),
    }
}

/// Appends an operation's id and the replica to which it was delivered.
fn push_delivery(id: OpId, replica: ReplicaId, out: &mut Vec<u8>) -> Result<(), AllocError>
    ensures ok { OnOk result (out.new.items ≡ out.old.items ++ delivery_text id replica) }
    ensures prefix { (more : List ℕ) × (out.new.items ≡ out.old.items ++ more) }
{
    push_id(id, out)?;
    push(b" ", out)?;
    push_number(u64::from(replica.get()), out)?;
    push(b": ", out)
}

/// Appends the number of operations that were applied.
fn push_applied(count: u64, stalled: bool, out: &mut Vec<u8>) -> Result<(), AllocError>
    ensures ok { OnOk result (out.new.items ≡ out.old.items ++ applied_text count stalled) }
    ensures prefix { (more : List ℕ) × (out.new.items ≡ out.old.items ++ more) }
{
    push(b"Applied ", out)?;
    push_number(count, out)?;
    push(stalled_text(stalled), out)
}

fn push_result(delivery: DeliveryResult, out: &mut Vec<u8>) -> Result<(), AllocError>
    ensures ok { OnOk result (out.new.items ≡ out.old.items ++ result_text delivery) }
    ensures prefix { (more : List ℕ) × (out.new.items ≡ out.old.items ++ more) }
{
    match delivery {
        DeliveryResult::Applied { count, stalled } => push_applied(count, stalled, out),
        DeliveryResult::Held { stalled } => {
            push(b"Held", out)?;
            push(stalled_text(stalled), out)
        }
        DeliveryResult::Repeat { stalled } => {
            push(b"Repeat", out)?;
            push(stalled_text(stalled), out)
        }
        DeliveryResult::Conflict { id } => {
            push(b"Conflict ", out)?;
            push_id(id, out)
        }
        DeliveryResult::HeldFull => push(b"HeldFull", out),
        DeliveryResult::Exhausted => push(b"Exhausted", out),
        DeliveryResult::NoMemory => push(b"NoMemory", out),
    }
}

fn push_settle(settled: SettleResult, out: &mut Vec<u8>) -> Result<(), AllocError>
    ensures ok { OnOk result (out.new.items ≡ out.old.items ++ settled_text settled) }
    ensures prefix { (more : List ℕ) × (out.new.items ≡ out.old.items ++ more) }
{
    match settled {
        SettleResult::Done => push(b"Ok", out),
        SettleResult::Conflict { id } => {
            push(b"Conflict ", out)?;
            push_id(id, out)
        }
        SettleResult::Exhausted => push(b"Exhausted", out),
        SettleResult::NoMemory => push(b"NoMemory", out),
    }
}

fn push_join(joined: JoinResult, out: &mut Vec<u8>) -> Result<(), AllocError>
    ensures ok { OnOk result (out.new.items ≡ out.old.items ++ join_text joined) }
    ensures prefix { (more : List ℕ) × (out.new.items ≡ out.old.items ++ more) }
{
    match joined {
        JoinResult::Done => push(b"Ok", out),
        JoinResult::Own { id } => {
            push(b"Own ", out)?;
            push_id(id, out)
        }
        JoinResult::Exhausted => push(b"Exhausted", out),
        JoinResult::NoMemory => push(b"NoMemory", out),
    }
}

/// Appends the two replicas that a line is about.
fn push_pair(first: ReplicaId, second: ReplicaId, out: &mut Vec<u8>) -> Result<(), AllocError>
    ensures ok { OnOk result (out.new.items ≡ out.old.items ++ pair_text first second) }
    ensures prefix { (more : List ℕ) × (out.new.items ≡ out.old.items ++ more) }
{
    push_number(u64::from(first.get()), out)?;
    push(b" ", out)?;
    push_number(u64::from(second.get()), out)?;
    push(b": ", out)
}

fn yes_or_no(same: bool) -> &'static [u8]
    ensures { result.now ≡ yes_or_no same }
{
    if same { b"yes" } else { b"no" }
}

fn push(octets: &[u8], out: &mut Vec<u8>) -> Result<(), AllocError>
    ensures ok { OnOk result (out.new.items ≡ out.old.items ++ octets.now) }
    ensures prefix { (more : List ℕ) × (out.new.items ≡ out.old.items ++ more) }
{
    out.extend_from_slice(octets)
}

fn stalled_text(stalled: bool) -> &'static [u8]
    ensures { result.now ≡ stalled_text stalled }
{
    if stalled { b" stalled" } else { b"" }
}

impl BrokenRule {
    fn text(self) -> &'static [u8]
        ensures { result.now ≡ rule_text self }
    {
        match self {
            BrokenRule::OwnEntry => b"U1",
            BrokenRule::UncoveredId => b"U2",
            BrokenRule::UnlawfulName => b"U3",
            BrokenRule::UnlawfulFlags => b"U4",
            BrokenRule::InboxDeleted => b"U5",
            BrokenRule::OldIdCount => b"U6",
        }
    }
}
