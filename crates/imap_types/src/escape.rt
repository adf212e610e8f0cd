//! The escape by which lines of text carry any octets.

ghost use Rattle.std.specs.Prelude.{◌≡◌, ◌++◌, ℕ, true, List, [], ◌∷◌, Option, Some, None, IfOk};
ghost use Rattle.std.specs.Prelude.{IfErr, OnErr, OnOk, ◌<◌, ◌≤◌, ◌&&◌, length, nat_lt, not, take};
ghost use Rattle.std.specs.List.{list_all};
ghost use Rattle.imap_types.specs.Escape.{AreOctets, FailsToRead, IsReading, escape_text};
ghost use Rattle.imap_types.specs.Escape.{escape_octet};
ghost use Rattle.imap_types.specs.Escape.{hex_digit, hex_octet, is_escape, is_hex, is_plain};
ghost use Rattle.imap_types.specs.Escape.{unescape, with_octets_before, hex_value};

use crate::Octets;
use std::alloc::{AllocError, AllocFailed, Global};

/// Which octets stand for themselves: those from 33 to 126 other than `~`. Any other octet is
/// written as `~` and two upper-case hexadecimal digits.
#[derive(Clone, Copy, Debug, PartialEq, Eq)]
pub enum Escape {
    /// In a field of a line, the space is escaped too.
    Field,
    /// In a text that ends its line, the space stands for itself.
    Text,
}

/// Why a text can't be read.
#[derive(thiserror::Error, Clone, Copy, Debug, PartialEq, Eq)]
pub enum EscapeFault {
    /// The text isn't the escape's spelling of any octets.
    #[error("not escaped text")]
    NotEscaped,
    /// Memory ran out for the octets.
    #[error("no memory")]
    NoMemory,
}

impl From<AllocError> for EscapeFault {
    ghost use Rattle.std.specs.Prelude.{◌≡◌};
    ghost use Rattle.imap_types.specs.declared.escape.EscapeFault.TheVariants.{NoMemory};

    ghost from_gives = { λ _ e. e ≡ NoMemory };

    fn from(_fault: AllocError) -> EscapeFault {
        EscapeFault::NoMemory
    }
}

impl<T: Drop> From<AllocFailed<T>> for EscapeFault {
    ghost use Rattle.std.specs.Prelude.{◌≡◌};
    ghost use Rattle.imap_types.specs.declared.escape.EscapeFault.TheVariants.{NoMemory};

    ghost from_gives = { λ _ e. e ≡ NoMemory };

    fn from(_fault: AllocFailed<T>) -> EscapeFault {
        EscapeFault::NoMemory
    }
}

/// How many octets `plain_count` compares at once.
const BLOCK_OCTETS: usize = 32;

/// Appends the octets in the escape. `Err` if memory runs out; `out` stays as it was.
pub fn write_escaped(escape: Escape, octets: &[u8], out: &mut Vec<u8>) -> Result<(), AllocError>
    ensures ok { OnOk result (out.new.items ≡ out.old.items ++ escape_text escape octets.now) }
    ensures err { OnErr result (out.new.items ≡ out.old.items) }
{
    let start = out.len();
    if let Err(e) = push_escaped(escape, octets, out) {
        out.truncate(start);
        return Err(e);
    }
    Ok(())
}

fn push_escaped(escape: Escape, octets: &[u8], out: &mut Vec<u8>) -> Result<(), AllocError>
    ensures ok { OnOk result (out.new.items ≡ out.old.items ++ escape_text escape octets.now) }
    ensures extends { (more : List ℕ) × (out.new.items ≡ out.old.items ++ more) }
{
    let mut rest = octets;
    while !rest.is_empty() {
        rest = push_run(escape, rest, out)?;
    }
    Ok(())
}

/// Appends the octets that stand for themselves, up to the first that doesn't, and the spelling of
/// that one; returns the octets after it. It takes a run of octets at once.
fn push_run<'a>(escape: Escape, octets: &'a [u8], out: &mut Vec<u8>) -> Result<&'a [u8], AllocError>
    requires { 0 < length octets.now }
    ensures ok { IfOk result (λ rest. out.new.items ++ escape_text escape rest.now
        ≡ out.old.items ++ escape_text escape octets.now) }
    ensures shorter { IfOk result (λ rest. length rest.now < length octets.now) }
    ensures extends { (more : List ℕ) × (out.new.items ≡ out.old.items ++ more) }
{
    let (plain, others) = octets.split_at(plain_count(escape, octets));
    out.extend_from_slice(plain)?;
    match others {
        [first, rest @ ..] => {
            push_octet(escape, *first, out)?;
            Ok(rest)
        }
        [] => Ok(others),
    }
}

/// How many octets stand for themselves before the first that doesn't.
fn plain_count(escape: Escape, octets: &[u8]) -> usize
    ensures within { result ≤ length octets.now }
    ensures plain { escape_text escape (take result octets.now) ≡ take result octets.now }
    ensures each { list_all (is_plain escape) (take result octets.now) ≡ true }
{
    let count = plain_in_blocks(escape, octets);
    count + plain_one_by_one(escape, &octets[count..])
}

/// The octets of the blocks before the first with an octet that doesn't stand for itself.
fn plain_in_blocks(escape: Escape, octets: &[u8]) -> usize
    ensures within { result ≤ length octets.now }
    ensures each { list_all (is_plain escape) (take result octets.now) ≡ true }
{
    let mut count = 0usize;
    while octets.len() - count >= BLOCK_OCTETS
        && are_plain(escape, &octets[count..count + BLOCK_OCTETS])
    {
        count += BLOCK_OCTETS;
    }
    count
}

fn plain_one_by_one(escape: Escape, octets: &[u8]) -> usize
    ensures within { result ≤ length octets.now }
    ensures each { list_all (is_plain escape) (take result octets.now) ≡ true }
{
    let mut count = 0usize;
    for octet in octets {
        if !is_plain(escape, *octet) {
            return count;
        }
        count += 1;
    }
    count
}

/// Whether each octet stands for itself. It looks at all of them, so that several are compared at
/// once.
fn are_plain(escape: Escape, octets: &[u8]) -> bool
    ensures { result ≡ list_all (is_plain escape) octets.now }
{
    let lowest = lowest_plain(escape);
    let mut all = true;
    for octet in octets {
        all = all & ((*octet >= lowest) & (*octet < b'~'));
    }
    all
}

fn push_octet(escape: Escape, octet: u8, out: &mut Vec<u8>) -> Result<(), AllocError>
    ensures ok { OnOk result (out.new.items ≡ out.old.items ++ escape_octet escape octet) }
    ensures err { OnErr result (out.new.items ≡ out.old.items) }
{
    if is_plain(escape, octet) {
        out.extend_from_slice(&[octet])
    } else {
        out.extend_from_slice(&[b'~', hex_digit(octet / 16), hex_digit(octet % 16)])
    }
}

fn is_plain(escape: Escape, octet: u8) -> bool
    ensures { result ≡ is_plain escape octet }
{
    octet >= lowest_plain(escape) && octet < b'~'
}

/// The least octet that stands for itself.
fn lowest_plain(escape: Escape) -> u8
    ensures { (octet : ℕ) → is_plain escape octet ≡ (not (nat_lt octet result) && nat_lt octet 126) }
{
    match escape {
        Escape::Field => 33,
        Escape::Text => 32,
    }
}

fn hex_digit(number: u8) -> u8
    requires { number < 16 }
    ensures { result ≡ hex_digit number }
{
    if number < 10 {
        b'0' + number
    } else {
        b'A' - 10 + number
    }
}

/// The octets that a text in the escape stands for. `NotEscaped` exactly when the text is the
/// spelling of no octets, and `NoMemory` if memory runs out.
pub fn read_escaped(alloc: Global, escape: Escape, text: &[u8]) -> Result<Octets, EscapeFault>
    ensures value { IsReading (λ octets. octets) result (unescape escape text.now) }
    ensures spelling { IfOk result
        (λ octets. AreOctets octets × (text.now ≡ escape_text escape octets)) }
    ensures only { (octets : List ℕ) → AreOctets octets
        → text.now ≡ escape_text escape octets
        → IsReading (λ o. o) result (Some octets) }
{
    unescape(alloc, escape, text)
}

fn unescape(alloc: Global, escape: Escape, text: &[u8]) -> Result<Octets, EscapeFault>
    ensures { IsReading (λ octets. octets) result (unescape escape text.now) }
{
    let mut octets = Vec::with_capacity(alloc, text.len())?;
    let mut rest = text;
    while !rest.is_empty() {
        rest = read_run(escape, rest, &mut octets)?;
    }
    Ok(Octets::new(octets))
}

/// Appends the octets that stand for themselves, up to the first that doesn't, and the one that the
/// spelling there stands for; returns the text after that. It takes a run of octets at once.
fn read_run<'a>(
    escape: Escape,
    text: &'a [u8],
    octets: &mut Vec<u8>,
) -> Result<&'a [u8], EscapeFault>
    requires { 0 < length text.now }
    ensures read { IfOk result
        (λ rest. with_octets_before octets.new.items (unescape escape rest.now)
        ≡ with_octets_before octets.old.items (unescape escape text.now)) }
    ensures shorter { IfOk result (λ rest. length rest.now < length text.now) }
    ensures none { IfErr result (λ why. FailsToRead why (unescape escape text.now)) }
{
    let (plain, others) = text.split_at(plain_count(escape, text));
    octets.extend_from_slice(plain)?;
    match others {
        [first, tail @ ..] => {
            let (octet, after) = first_octet(escape, *first, tail)?;
            octets.push(octet)?;
            Ok(after)
        }
        [] => Ok(others),
    }
}

/// The first octet that the text stands for, and the text after its spelling.
fn first_octet(escape: Escape, first: u8, tail: &[u8]) -> Result<(u8, &[u8]), EscapeFault>
    ensures spelling { IfOk result (λ read. (unescape escape (first ∷ tail.now)
        ≡ with_octets_before (read.0 ∷ []) (unescape escape read.1.now))
        × (length read.1.now < length (first ∷ tail.now))) }
    ensures none { OnErr result (unescape escape (first ∷ tail.now) ≡ None) }
{
    if is_plain(escape, first) {
        return Ok((first, tail));
    }
    match tail {
        [high, low, after @ ..] => {
            if !is_escape(escape, first, *high, *low) {
                return Err(EscapeFault::NotEscaped);
            }
            Ok((hex_value(*high) * 16 + hex_value(*low), after))
        }
        _ => Err(EscapeFault::NotEscaped),
    }
}

fn is_escape(escape: Escape, tilde: u8, high: u8, low: u8) -> bool
    ensures { result ≡ is_escape escape tilde high low }
{
    tilde == b'~'
        && is_hex(high)
        && is_hex(low)
        && !is_plain(escape, hex_value(high) * 16 + hex_value(low))
}

fn is_hex(octet: u8) -> bool
    ensures { result ≡ is_hex octet }
{
    matches!(octet, b'0'..=b'9' | b'A'..=b'F')
}

fn hex_value(digit: u8) -> u8
    requires { is_hex digit ≡ true }
    ensures value { result ≡ hex_value digit }
    ensures small { result < 16 }
{
    if digit <= b'9' {
        digit - b'0'
    } else {
        digit - b'A' + 10
    }
}
