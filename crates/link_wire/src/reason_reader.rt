//! Reasons of a `bye`, read from their text.

ghost use Rattle.std.specs.Prelude.{◌≡◌};
ghost use Rattle.link_wire.specs.LineReading.{plain_reason_at, reason_at, reason_with_field_at};
ghost use Rattle.link_wire.specs.LineReading.{rule_at};

use crate::line_word::spells;
use crate::wire_message::ByeReason;
use crdt_ops::Unsound;
use text_fields::{replica, split};

/// The reason that a text spells.
#[tactic(auto, unfolding(crate::specs::LineReading::reason_at))]
pub(crate) fn read_reason(text: &[u8]) -> Option<ByeReason>
    ensures { result ≡ reason_at text.now }
{
    match split(b' ', text) {
        None => read_plain_reason(text),
        Some((word, field)) => read_reason_with_field(word, field),
    }
}

/// The reason of one word.
#[tactic(auto, unfolding(crate::specs::LineReading::plain_reason_at))]
fn read_plain_reason(word: &[u8]) -> Option<ByeReason>
    ensures { result ≡ plain_reason_at word.now }
{
    if spells(word, b"hello") {
        Some(ByeReason::Hello)
    } else if spells(word, b"version") {
        Some(ByeReason::Version)
    } else if spells(word, b"name") {
        Some(ByeReason::Name)
    } else if spells(word, b"secret") {
        Some(ByeReason::Secret)
    } else if spells(word, b"frame") {
        Some(ByeReason::Frame)
    } else if spells(word, b"torn") {
        Some(ByeReason::Torn)
    } else if spells(word, b"line") {
        Some(ByeReason::Line)
    } else if spells(word, b"memory") {
        Some(ByeReason::Memory)
    } else if spells(word, b"busy") {
        Some(ByeReason::Busy)
    } else {
        None
    }
}

/// The reason of a word and a field.
#[tactic(auto, unfolding(crate::specs::LineReading::reason_with_field_at))]
fn read_reason_with_field(word: &[u8], field: &[u8]) -> Option<ByeReason>
    ensures { result ≡ reason_with_field_at word.now field.now }
{
    if spells(word, b"unsound") {
        Some(ByeReason::Unsound(read_rule(field)?))
    } else if spells(word, b"fork") {
        Some(ByeReason::Fork(replica(field)?))
    } else if spells(word, b"behind") {
        Some(ByeReason::Behind(replica(field)?))
    } else {
        None
    }
}

/// The rule with this number.
#[tactic(auto, unfolding(crate::specs::LineReading::rule_at))]
fn read_rule(field: &[u8]) -> Option<Unsound>
    ensures { result ≡ rule_at field.now }
{
    if spells(field, b"U1") {
        Some(Unsound::OwnClockEntry)
    } else if spells(field, b"U2") {
        Some(Unsound::UncoveredId)
    } else if spells(field, b"U3") {
        Some(Unsound::UnlawfulName)
    } else if spells(field, b"U4") {
        Some(Unsound::UnlawfulFlags)
    } else if spells(field, b"U5") {
        Some(Unsound::DeleteOfInbox)
    } else if spells(field, b"U6") {
        Some(Unsound::Count)
    } else {
        None
    }
}
