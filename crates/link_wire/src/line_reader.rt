//! Messages read from their lines.

ghost use Rattle.std.specs.Prelude.{◌≡◌, ◌∷◌, ◌++◌, MatchResult, length, codes};
ghost use Rattle.text_fields.specs.FieldReading.{cut_at};
ghost use Rattle.crdt_ops.specs.Reading.{clock_at};
ghost use Rattle.link_wire.specs.MessageForm.{IsLawful, IsLineFault, IsSpelled};
ghost use Rattle.link_wire.specs.LineReading.{IsReading, bye_at, chains_at, have_at, want_at};
ghost use Rattle.link_wire.specs.LineReading.{word_text};

use crate::line_fault::LineFault;
use crate::line_word::{LineWord, read_word, spells};
use crate::reason_reader::read_reason;
use crate::wire_message::WireMessage;
use crdt_ops::{check, read_clock, read_op};
use hex::{decode, encode};
use imap_types::Octets;
use std::alloc::Global;
use tags_clocks::Clock;
use text_fields::split;

/// The message that a line spells; the line is given without its end. `NotInForm` exactly if it
/// spells none, `Unsound` if it spells an operation that replicas may not apply, and `NoMemory` if
/// memory runs out for the message's parts.
pub fn read_message(alloc: Global, line: &[u8]) -> Result<WireMessage, LineFault>
    ensures { MatchResult result
        (λ message. IsSpelled message line.now × IsLawful message)
        (λ fault. IsLineFault fault line.now) }
{
    if spells(line, b"ping") {
        return Ok(WireMessage::Ping);
    }
    let Some((word, fields)) = split(b' ', line) else {
        return Err(LineFault::NotInForm);
    };
    match read_word(word) {
        None => Err(LineFault::NotInForm),
        Some(word) => read_fields(alloc, word, fields),
    }
}

/// The message of a line with this first word and these fields.
fn read_fields(alloc: Global, word: LineWord, fields: &[u8]) -> Result<WireMessage, LineFault>
    ensures { MatchResult result
        (λ message. IsSpelled message (word_text word ++ 32 ∷ fields.now) × IsLawful message)
        (λ fault. IsLineFault fault (word_text word ++ 32 ∷ fields.now)) }
{
    match word {
        LineWord::Op => read_op_fields(alloc, fields),
        LineWord::Have => read_have(alloc, fields),
        LineWord::Want => read_want(alloc, fields),
        LineWord::Bye => read_bye(fields),
    }
}

/// The operation of an `op`.
fn read_op_fields(alloc: Global, fields: &[u8]) -> Result<WireMessage, LineFault>
    ensures { MatchResult result
        (λ message. IsSpelled message (codes "op " ++ fields.now) × IsLawful message)
        (λ fault. IsLineFault fault (codes "op " ++ fields.now)) }
{
    let op = read_op(alloc, fields)?;
    match check(op) {
        Ok(op) => Ok(WireMessage::Op(op)),
        Err((op, rule)) => {
            drop(op);
            Err(LineFault::Unsound(rule))
        }
    }
}

/// The clock and the chains of a `have`.
#[tactic(auto, unfolding(crate::specs::LineReading::have_at))]
fn read_have(alloc: Global, fields: &[u8]) -> Result<WireMessage, LineFault>
    ensures { IsReading (λ message. message) result (have_at fields.now) }
{
    let (clock, chains) = split_field(fields)?;
    let clock = read_clock_field(alloc, clock)?;
    let chains = read_chains(alloc, clock.entries().len(), chains)?;
    Ok(WireMessage::Have { clock, chains })
}

/// The clock of a `want`.
#[tactic(auto, unfolding(crate::specs::LineReading::want_at))]
fn read_want(alloc: Global, fields: &[u8]) -> Result<WireMessage, LineFault>
    ensures { IsReading (λ message. message) result (want_at fields.now) }
{
    Ok(WireMessage::Want(read_clock_field(alloc, fields)?))
}

/// The reason of a `bye`.
#[tactic(auto, unfolding(crate::specs::LineReading::bye_at))]
fn read_bye(fields: &[u8]) -> Result<WireMessage, LineFault>
    ensures { IsReading (λ message. message) result (bye_at fields.now) }
{
    match read_reason(fields) {
        Some(reason) => Ok(WireMessage::Bye(reason)),
        None => Err(LineFault::NotInForm),
    }
}

/// The texts before the first space and after it.
fn split_field(text: &[u8]) -> Result<(&[u8], &[u8]), LineFault>
    ensures { IsReading (λ parts. (parts.0.now, parts.1.now)) result (cut_at 32 text.now) }
{
    match split(b' ', text) {
        Some(parts) => Ok(parts),
        None => Err(LineFault::NotInForm),
    }
}

/// The clock that a field spells.
fn read_clock_field(alloc: Global, text: &[u8]) -> Result<Clock, LineFault>
    ensures { IsReading (λ clock. clock) result (clock_at text.now) }
{
    Ok(read_clock(alloc, text)?)
}

/// The chains of `count` entries that a field spells.
#[tactic(auto, unfolding(crate::specs::LineReading::chains_at))]
fn read_chains(alloc: Global, count: usize, text: &[u8]) -> Result<Octets, LineFault>
    ensures { IsReading (λ chains. chains) result (chains_at count text.now) }
{
    let chains = decode(alloc, text)?;
    if chains.len() / 16 != count || chains.len() % 16 != 0 {
        return Err(LineFault::NotInForm);
    }
    let spelled = encode(alloc, chains.as_slice())?;
    if spelled.as_bytes() != text {
        return Err(LineFault::NotInForm);
    }
    Ok(Octets::new(chains))
}
