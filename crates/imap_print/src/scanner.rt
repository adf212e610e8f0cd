//! Readers of strings, numbers and sets. Each returns its value and the octets after it.

ghost use Rattle.std.specs.Prelude.{◌≡◌, false, [], option_map};
ghost use Rattle.imap_types.specs.DateTimes.{is_digit};
ghost use Rattle.imap_print.specs.Reading.{IsReading, after, capped_at_32_bits, field_at, is_in};
ghost use Rattle.imap_print.specs.Reading.{lead, literal_at, number_from, octets_at, quoted_from};
ghost use Rattle.imap_print.specs.Reading.{run_at, runs_at, set_at, span, string_at};
ghost use Rattle.imap_print.specs.Reading.{value_with_rest, words_at};

use crate::fault::ReadFault;
use imap_types::{NumberSet, Octets, Run, is_astring_octet, is_atom_octet};
use std::alloc::Global;

/// The octets after a prefix, if they begin with it.
pub fn skip<'a>(bytes: &'a [u8], prefix: &[u8]) -> Option<&'a [u8]>
    ensures { option_map (λ rest. rest.now) result ≡ after prefix.now bytes.now }
{
    let mut rest = bytes;
    for octet in prefix {
        match rest {
            [] => return None,
            [first, tail @ ..] => {
                if first != octet {
                    return None;
                }
                rest = tail;
            }
        }
    }
    Some(rest)
}

/// The octets after a prefix; `NotPrinted` if they don't begin with it.
pub fn expect<'a>(bytes: &'a [u8], prefix: &[u8]) -> Result<&'a [u8], ReadFault>
    ensures { IsReading (λ x. x.now) result (after prefix.now bytes.now) }
{
    match skip(bytes, prefix) {
        None => Err(ReadFault::NotPrinted),
        Some(rest) => Ok(rest),
    }
}

/// The value `parsed`, if the octets begin with `text`, and the octets after that text.
pub fn value_before_text<'a, T: Drop>(
    parsed: T,
    bytes: &'a [u8],
    text: &[u8],
) -> Result<(T, &'a [u8]), ReadFault>
    ensures { IsReading (λ x. (x.0, x.1.now)) result
        (value_with_rest parsed (after text.now bytes.now)) }
{
    match skip(bytes, text) {
        None => Err(ReadFault::NotPrinted),
        Some(rest) => Ok((parsed, rest)),
    }
}

/// Reads the number spelled by the leading digits; 0 if there are none, the greatest `u64` if it is
/// greater.
pub fn number(bytes: &[u8]) -> (u64, &[u8])
    ensures value { result.0 ≡ (number_from 0 bytes.now).0 }
    ensures rest { result.1.now ≡ (number_from 0 bytes.now).1 }
{
    let mut value = 0u64;
    let mut rest = bytes;
    while let [octet, tail @ ..] = rest {
        if !is_digit(*octet) {
            return (value, rest);
        }
        value = value
            .saturating_mul(10)
            .saturating_add(u64::from(*octet - b'0'));
        rest = tail;
    }
    (value, rest)
}

/// Whether an octet is a decimal digit.
fn is_digit(octet: u8) -> bool
    ensures { result ≡ is_digit octet }
{
    octet >= b'0' && octet <= b'9'
}

/// The number as 32 bits; greater numbers become 4,294,967,295.
pub fn capped_at_32_bits(number: u64) -> u32
    ensures { result ≡ capped_at_32_bits number }
{
    number.min(4_294_967_295) as u32
}

/// A class of octets (RFC 9051, section 9).
#[derive(Clone, Copy)]
pub enum ScanClass {
    /// Octets of a tag.
    Tag,
    /// Octets of a string without quotes.
    Astring,
    /// Octets of an atom.
    Atom,
}

impl ScanClass {
    ghost use Rattle.std.specs.Prelude.{◌≡◌};
    ghost use Rattle.imap_print.specs.Reading.{is_in};

    /// Whether an octet belongs to this class.
    pub fn has(self, octet: u8) -> bool
        ensures { result ≡ is_in self octet }
    {
        match self {
            ScanClass::Tag => is_astring_octet(octet) && octet != b'+',
            ScanClass::Astring => is_astring_octet(octet),
            ScanClass::Atom => is_atom_octet(octet),
        }
    }
}

/// Splits the octets after the longest prefix whose octets all belong to a class.
pub fn span(class: ScanClass, bytes: &[u8]) -> (&[u8], &[u8])
    ensures front { result.0.now ≡ (span (is_in class) bytes.now).0 }
    ensures rest { result.1.now ≡ (span (is_in class) bytes.now).1 }
{
    for (count, octet) in bytes.iter().enumerate() {
        if !class.has(*octet) {
            return bytes.split_at(count);
        }
    }
    (bytes, &[])
}

/// Reads a string after its opening `"`, up to the closing one.
fn quoted_string(alloc: Global, bytes: &[u8]) -> Result<(Octets, &[u8]), ReadFault>
    ensures { IsReading (λ x. (x.0, x.1.now)) result (quoted_from false bytes.now) }
{
    let mut string = Vec::new(alloc);
    let mut escaped = false;
    let mut rest = bytes;
    while let [octet, tail @ ..] = rest {
        rest = tail;
        if !escaped && *octet == b'"' {
            return Ok((Octets::new(string), rest));
        }
        if !escaped && *octet == b'\\' {
            escaped = true;
        } else {
            escaped = false;
            string.push(*octet)?;
        }
    }
    Err(ReadFault::NotPrinted)
}

/// Reads a string, with or without quotes.
pub fn string(alloc: Global, bytes: &[u8]) -> Result<(Octets, &[u8]), ReadFault>
    ensures { IsReading (λ x. (x.0, x.1.now)) result (string_at bytes.now) }
{
    match skip(bytes, b"\"") {
        Some(rest) => quoted_string(alloc, rest),
        None => {
            let (front, rest) = span(ScanClass::Astring, bytes);
            Ok((Octets::from_slice(alloc, front)?, rest))
        }
    }
}

/// Reads a literal.
#[tactic(auto, unfolding(crate::specs::Reading::literal_at))]
pub fn literal(alloc: Global, bytes: &[u8]) -> Result<(Octets, &[u8]), ReadFault>
    ensures { IsReading (λ x. (x.0, x.1.now)) result (literal_at bytes.now) }
{
    let digits = expect(bytes, b"{")?;
    let (count, rest) = number(digits);
    let rest = expect(rest, b"}\r\n")?;
    let (front, rest) = counted_octets(count, rest)?;
    Ok((Octets::from_slice(alloc, front)?, rest))
}

/// Splits the octets after the first `count`.
pub fn counted_octets(count: u64, bytes: &[u8]) -> Result<(&[u8], &[u8]), ReadFault>
    ensures { IsReading (λ x. (x.0.now, x.1.now)) result (octets_at count bytes.now) }
{
    if count > bytes.len() as u64 {
        return Err(ReadFault::NotPrinted);
    }
    Ok(bytes.split_at(count as usize))
}

/// Reads the name of a header field.
#[tactic(auto, unfolding(crate::specs::Reading::field_at))]
pub fn field(alloc: Global, bytes: &[u8]) -> Result<(Octets, &[u8]), ReadFault>
    ensures { IsReading (λ x. (x.0, x.1.now)) result (field_at bytes.now) }
{
    match literal(alloc, bytes) {
        Ok(parsed) => Ok(parsed),
        Err(ReadFault::NoMemory) => Err(ReadFault::NoMemory),
        Err(ReadFault::NotPrinted) => string(alloc, bytes),
    }
}

/// Reads a run: one number, or two with a `:` between.
fn run(bytes: &[u8]) -> (Run, &[u8])
    ensures run { result.0 ≡ (run_at bytes.now).0 }
    ensures rest { result.1.now ≡ (run_at bytes.now).1 }
{
    let (first, rest) = number(bytes);
    match skip(rest, b":") {
        None => {
            let run = Run {
                first: capped_at_32_bits(first),
                last: capped_at_32_bits(first),
            };
            (run, rest)
        }
        Some(more) => {
            let (last, rest) = number(more);
            let run = Run {
                first: capped_at_32_bits(first),
                last: capped_at_32_bits(last),
            };
            (run, rest)
        }
    }
}

/// Reads at most `count` runs separated by commas.
fn runs(alloc: Global, count: usize, bytes: &[u8]) -> Result<(Vec<Run>, &[u8]), ReadFault>
    ensures { IsReading (λ x. (x.0.items, x.1.now)) result (runs_at count bytes.now) }
{
    let mut parsed = Vec::new(alloc);
    let mut rest = bytes;
    for _index in 0..count {
        let (next, tail) = run(rest);
        parsed.push(next)?;
        match skip(tail, b",") {
            None => return Ok((parsed, tail)),
            Some(more) => rest = more,
        }
    }
    Err(ReadFault::NotPrinted)
}

/// Reads a set of numbers.
#[tactic(auto, unfolding(crate::specs::Reading::set_at))]
pub fn set(alloc: Global, bytes: &[u8]) -> Result<(NumberSet, &[u8]), ReadFault>
    ensures { IsReading (λ x. (x.0, x.1.now)) result (set_at bytes.now) }
{
    let (parsed, rest) = runs(alloc, bytes.len(), bytes)?;
    match NumberSet::from_runs(parsed) {
        None => Err(ReadFault::NotPrinted),
        Some(set) => Ok((set, rest)),
    }
}

/// Reads fewer than `count` words of a list, each after a space unless it is the first of the list.
pub fn words(
    alloc: Global,
    count: usize,
    is_first: bool,
    bytes: &[u8],
) -> Result<(Vec<Octets>, &[u8]), ReadFault>
    ensures { IsReading (λ x. (x.0.items, x.1.now)) result (words_at count is_first bytes.now) }
{
    let mut parsed = Vec::new(alloc);
    let mut none_yet = is_first;
    let mut rest = bytes;
    for _index in 0..count {
        let unread = match skip(rest, lead(none_yet)) {
            None => return Ok((parsed, rest)),
            Some(unread) => unread,
        };
        let (word, tail) = span(ScanClass::Atom, unread);
        if word.is_empty() {
            return Ok((parsed, rest));
        }
        parsed.push(Octets::from_slice(alloc, word)?)?;
        none_yet = false;
        rest = tail;
    }
    Err(ReadFault::NotPrinted)
}

/// The text before a text of a list: a space, or none if the text is the first.
pub fn lead(is_first: bool) -> &'static [u8]
    ensures { result.now ≡ lead is_first [] }
{
    if is_first { b"" } else { b" " }
}
