//! The lines of messages: one spelling each.

ghost use Rattle.std.specs.Prelude.{◌≡◌, ◌∷◌, ◌++◌, OnErr, OnOk, codes};
ghost use Rattle.std.specs.Fmt.{decimal};
ghost use Rattle.hex.specs.Hex.{encode_lower};
ghost use Rattle.crdt_ops.specs.Text.{AppendsTo, Extends, clock_text, op_text};
ghost use Rattle.link_wire.specs.declared.wire_message.WireMessage.TheVariants.{Op as OpMessage};
ghost use Rattle.link_wire.specs.MessageTexts.{line_text, message_text, reason_text, rule_text};

use crate::wire_message::{ByeReason, WireMessage};
use crdt_ops::{SoundOp, Unsound, write_clock, write_op};
use hex::encode;
use std::alloc::{AllocError, Global};
use tags_clocks::{Clock, ReplicaId};
use text_fields::push_number;

/// Appends the line of a message, with its end. `Err` if memory runs out; `out` is then as it was.
pub fn write_message(
    alloc: Global,
    message: &WireMessage,
    out: &mut Vec<u8>,
) -> Result<(), AllocError>
    ensures ok { OnOk result (out.new.items ≡ out.old.items ++ line_text message.now) }
    ensures err { OnErr result (out.new.items ≡ out.old.items) }
{
    let start = out.len();
    if let Err(e) = push_line(alloc, message, out) {
        out.truncate(start);
        return Err(e);
    }
    Ok(())
}

/// Appends the line of an operation that is lent, with its end. `Err` if memory runs out; `out` is
/// then as it was.
pub fn write_op_line(alloc: Global, op: &SoundOp, out: &mut Vec<u8>) -> Result<(), AllocError>
    ensures ok { OnOk result (out.new.items ≡ out.old.items ++ line_text (OpMessage op.now)) }
    ensures err { OnErr result (out.new.items ≡ out.old.items) }
{
    let start = out.len();
    if let Err(e) = push_op_line(alloc, op, out) {
        out.truncate(start);
        return Err(e);
    }
    Ok(())
}

fn push_line(alloc: Global, message: &WireMessage, out: &mut Vec<u8>) -> Result<(), AllocError>
    ensures ok { OnOk result (AppendsTo out.old.items out.new.items (line_text message.now)) }
    ensures extended { Extends out.old.items out.new.items }
{
    push_message(alloc, message, out)?;
    push_octets(b"\n", out)
}

fn push_op_line(alloc: Global, op: &SoundOp, out: &mut Vec<u8>) -> Result<(), AllocError>
    ensures ok { OnOk result (AppendsTo out.old.items out.new.items
        (line_text (OpMessage op.now))) }
    ensures extended { Extends out.old.items out.new.items }
{
    push_op(alloc, op, out)?;
    push_octets(b"\n", out)
}

fn push_message(alloc: Global, message: &WireMessage, out: &mut Vec<u8>) -> Result<(), AllocError>
    ensures ok { OnOk result (AppendsTo out.old.items out.new.items (message_text message.now)) }
    ensures extended { Extends out.old.items out.new.items }
{
    match message {
        WireMessage::Op(op) => push_op(alloc, op, out),
        WireMessage::Have { clock, chains } => push_have(alloc, clock, chains.as_bytes(), out),
        WireMessage::Want(clock) => push_want(alloc, clock, out),
        WireMessage::Ping => push_octets(b"ping", out),
        WireMessage::Bye(reason) => push_bye(*reason, out),
    }
}

fn push_op(alloc: Global, op: &SoundOp, out: &mut Vec<u8>) -> Result<(), AllocError>
    ensures ok { OnOk result (AppendsTo out.old.items out.new.items
        (codes "op " ++ op_text op.now)) }
    ensures extended { Extends out.old.items out.new.items }
{
    push_octets(b"op ", out)?;
    write_op(alloc, op, out)
}

fn push_have(
    alloc: Global,
    clock: &Clock,
    chains: &[u8],
    out: &mut Vec<u8>,
) -> Result<(), AllocError>
    ensures ok { OnOk result (AppendsTo out.old.items out.new.items
        (codes "have " ++ clock_text clock.now ++ 32 ∷ encode_lower chains.now)) }
    ensures extended { Extends out.old.items out.new.items }
{
    push_octets(b"have ", out)?;
    write_clock(alloc, clock, out)?;
    push_octets(b" ", out)?;
    push_hex(alloc, chains, out)
}

fn push_want(alloc: Global, clock: &Clock, out: &mut Vec<u8>) -> Result<(), AllocError>
    ensures ok { OnOk result (AppendsTo out.old.items out.new.items
        (codes "want " ++ clock_text clock.now)) }
    ensures extended { Extends out.old.items out.new.items }
{
    push_octets(b"want ", out)?;
    write_clock(alloc, clock, out)
}

fn push_bye(reason: ByeReason, out: &mut Vec<u8>) -> Result<(), AllocError>
    ensures ok { OnOk result (AppendsTo out.old.items out.new.items
        (codes "bye " ++ reason_text reason)) }
    ensures extended { Extends out.old.items out.new.items }
{
    push_octets(b"bye ", out)?;
    push_reason(reason, out)
}

fn push_reason(reason: ByeReason, out: &mut Vec<u8>) -> Result<(), AllocError>
    ensures ok { OnOk result (AppendsTo out.old.items out.new.items (reason_text reason)) }
    ensures extended { Extends out.old.items out.new.items }
{
    match reason {
        ByeReason::Hello => push_octets(b"hello", out),
        ByeReason::Version => push_octets(b"version", out),
        ByeReason::Name => push_octets(b"name", out),
        ByeReason::Secret => push_octets(b"secret", out),
        ByeReason::Frame => push_octets(b"frame", out),
        ByeReason::Torn => push_octets(b"torn", out),
        ByeReason::Line => push_octets(b"line", out),
        ByeReason::Unsound(rule) => push_unsound(rule, out),
        ByeReason::Fork(replica) => push_replica(b"fork ", replica, out),
        ByeReason::Behind(replica) => push_replica(b"behind ", replica, out),
        ByeReason::Memory => push_octets(b"memory", out),
        ByeReason::Busy => push_octets(b"busy", out),
    }
}

/// The rule that is broken, by the number that the audit's lines use.
fn push_unsound(rule: Unsound, out: &mut Vec<u8>) -> Result<(), AllocError>
    ensures ok { OnOk result (AppendsTo out.old.items out.new.items
        (codes "unsound " ++ rule_text rule)) }
    ensures extended { Extends out.old.items out.new.items }
{
    match rule {
        Unsound::OwnClockEntry => push_octets(b"unsound U1", out),
        Unsound::UncoveredId => push_octets(b"unsound U2", out),
        Unsound::UnlawfulName => push_octets(b"unsound U3", out),
        Unsound::UnlawfulFlags => push_octets(b"unsound U4", out),
        Unsound::DeleteOfInbox => push_octets(b"unsound U5", out),
        Unsound::Count => push_octets(b"unsound U6", out),
    }
}

/// A word with the space after it, and a replica.
pub(crate) fn push_replica(
    word: &[u8],
    replica: ReplicaId,
    out: &mut Vec<u8>,
) -> Result<(), AllocError>
    ensures ok { OnOk result (AppendsTo out.old.items out.new.items (word.now ++ decimal replica)) }
    ensures extended { Extends out.old.items out.new.items }
{
    push_octets(word, out)?;
    push_number(u64::from(replica.get()), out)
}

fn push_hex(alloc: Global, octets: &[u8], out: &mut Vec<u8>) -> Result<(), AllocError>
    ensures ok { OnOk result (AppendsTo out.old.items out.new.items (encode_lower octets.now)) }
    ensures extended { Extends out.old.items out.new.items }
{
    let text = encode(alloc, octets)?;
    push_octets(text.as_bytes(), out)
}

/// Appends octets.
pub(crate) fn push_octets(octets: &[u8], out: &mut Vec<u8>) -> Result<(), AllocError>
    ensures ok { OnOk result (AppendsTo out.old.items out.new.items octets.now) }
    ensures extended { Extends out.old.items out.new.items }
{
    out.extend_from_slice(octets)
}
