//! Numbers of parts at the beginning of sections (RFC 3501, section 6.4.5).

ghost use Rattle.std.specs.Prelude.{◌≡◌, ◌-◌, ◌^◌, ◌≤◌, ◌&&◌, IsTrue, codes, drop, false, length};
ghost use Rattle.std.specs.Prelude.{min};
ghost use Rattle.std.specs.Option.{option_map};
ghost use Rattle.imap_types.specs.DateTimes.{is_digit};
ghost use Rattle.imap_syntax.specs.Strings.{begins_with, number_of};
ghost use Rattle.imap_grammar.specs.Reading.{span};
ghost use Rattle.mail_text.specs.TextSearch.{is_prefix};
ghost use Rattle.rev1_fetch.specs.PartNumbers.{IsReadAs, after_numbers, after_point, found_number};
ghost use Rattle.rev1_fetch.specs.PartNumbers.{leading_number, number_before, number_of_digits};
ghost use Rattle.rev1_fetch.specs.PartNumbers.{number_parts, part_number};

use crate::item_fault::ItemFault;
use crate::text_item::PartPath;
use std::alloc::Global;

/// The number of a part, and what follows it in a section.
#[derive(Drop)]
pub struct PartNumber<'a> {
    /// The number; empty if there is none.
    pub path: PartPath,
    /// Whether MIME followed.
    pub is_mime: bool,
    /// What follows.
    pub rest: &'a [u8],
}

/// A number in the number of a part.
#[derive(Clone, Copy)]
struct FoundNumber<'a> {
    number: u32,
    /// What follows it: another number or a word, or the closing bracket.
    rest: &'a [u8],
    /// Whether the closing bracket follows.
    is_last: bool,
}

/// Reads the number of a part at the beginning of a section, and MIME after it.
pub fn part_number(alloc: Global, section: &[u8]) -> Result<PartNumber<'_>, ItemFault>
    ensures { IsReadAs (λ n. number_parts n.path n.is_mime n.rest.now) result
        (part_number section.now) }
{
    let mut path = Vec::new(alloc);
    let mut rest = section;
    for turn in 0..section.len() {
        let Some(found) = leading_number(rest)? else {
            return after_numbers(PartPath::new(path), rest);
        };
        path.push(found.number)?;
        rest = found.rest;
        if found.is_last {
            return Ok(numbered(path, rest));
        }
    }
    after_numbers(PartPath::new(path), rest)
}

/// A part whose number the closing bracket follows.
fn numbered(path: Vec<u32>, rest: &[u8]) -> PartNumber<'_>
    ensures { number_parts result.path result.is_mime result.rest.now
        ≡ number_parts path.items false rest.now }
{
    PartNumber {
        path: PartPath::new(path),
        is_mime: false,
        rest,
    }
}

/// A part's number, and what follows it and the point after it.
fn after_numbers(path: PartPath, rest: &[u8]) -> Result<PartNumber<'_>, ItemFault>
    ensures { IsReadAs (λ n. number_parts n.path n.is_mime n.rest.now) result
        (after_numbers path rest.now) }
{
    if path.numbers().is_empty() {
        return Ok(PartNumber {
            path,
            is_mime: false,
            rest,
        });
    }
    after_point(path, rest)
}

/// A part's number that isn't empty, and what follows the point after it.
fn after_point(path: PartPath, rest: &[u8]) -> Result<PartNumber<'_>, ItemFault>
    ensures { IsReadAs (λ n. number_parts n.path n.is_mime n.rest.now) result
        (after_point path rest.now) }
{
    if begins_with_bracket(rest) {
        return Err(ItemFault::Unknown);
    }
    if is_mime(rest) {
        return Ok(PartNumber {
            path,
            is_mime: true,
            rest: &rest[4..],
        });
    }
    Ok(PartNumber {
        path,
        is_mime: false,
        rest,
    })
}

/// Whether octets begin with a closing bracket.
fn begins_with_bracket(octets: &[u8]) -> bool
    ensures { result ≡ begins_with 93 octets.now }
{
    match octets {
        [] => false,
        [first, ..] => *first == b']',
    }
}

/// Whether octets begin with MIME and a closing bracket.
fn is_mime(octets: &[u8]) -> bool
    ensures value { result
        ≡ (is_prefix (codes "MIME") octets.now && begins_with 93 (drop 4 octets.now)) }
    ensures within { IsTrue result → 4 ≤ length octets.now }
{
    if octets.len() < 4 {
        return false;
    }
    let (word, rest) = octets.split_at(4);
    word.eq_ignore_ascii_case(b"MIME") && begins_with_bracket(rest)
}

/// A number from 1 to 4,294,967,295 without a leading zero, and what follows; `None` if no digit is
/// first.
fn leading_number(octets: &[u8]) -> Result<Option<FoundNumber<'_>>, ItemFault>
    ensures { IsReadAs (λ found. option_map (λ f. found_number f.number f.rest.now f.is_last) found)
        result (leading_number octets.now) }
{
    let (digits, rest) = digit_span(octets);
    match digits {
        [] => Ok(None),
        [first, ..] => {
            if *first == b'0' {
                return Err(ItemFault::PartZero);
            }
            let number = number(digits);
            if number > u64::from(u32::MAX) {
                return Err(ItemFault::Unknown);
            }
            number_before(number as u32, rest)
        }
    }
}

/// A number before these octets.
fn number_before(number: u32, octets: &[u8]) -> Result<Option<FoundNumber<'_>>, ItemFault>
    ensures { IsReadAs (λ found. option_map (λ f. found_number f.number f.rest.now f.is_last) found)
        result (number_before number octets.now) }
{
    match octets {
        [] => Err(ItemFault::Unknown),
        [first, rest @ ..] => {
            if *first == b'.' {
                return Ok(Some(FoundNumber {
                    number,
                    rest,
                    is_last: false,
                }));
            }
            if *first == b']' {
                return Ok(Some(FoundNumber {
                    number,
                    rest: octets,
                    is_last: true,
                }));
            }
            Err(ItemFault::Unknown)
        }
    }
}

/// Splits the octets after the digits that they begin with.
fn digit_span(octets: &[u8]) -> (&[u8], &[u8])
    ensures { (result.0.now, result.1.now) ≡ span is_digit octets.now }
{
    let mut len = 0;
    for octet in octets {
        if !octet.is_ascii_digit() {
            break;
        }
        len += 1;
    }
    octets.split_at(len)
}

/// The number of these digits, or the greatest one.
fn number(digits: &[u8]) -> u64
    ensures { result ≡ min (number_of 0 digits.now) (2 ^ 64 - 1) }
{
    let mut number: u64 = 0;
    for digit in digits {
        number = number
            .saturating_mul(10)
            .saturating_add(u64::from(digit.saturating_sub(b'0')));
    }
    number
}
