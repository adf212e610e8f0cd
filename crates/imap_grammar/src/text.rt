//! Strings and mailbox names (RFC 9051, section 9).

ghost use Rattle.std.specs.Prelude.{◌≡◌, ◌<◌, ◌≤◌, ◌-◌, ◌^◌, length, min, true, false};
ghost use Rattle.imap_syntax.specs.Strings.{is_quotable, number_of};
ghost use Rattle.imap_grammar.specs.Reading.{IsReading, both, literal_at, mailbox_at, octets_at};
ghost use Rattle.imap_grammar.specs.Reading.{quoted_at, run_at, spaced, text_at, after_plus};
ghost use Rattle.imap_syntax.specs.declared.octet_class.OctetClass.TheVariants.{Astring};

use crate::fault::ParseFault;
use crate::numbers::saturating_number;
use crate::scan::{run, skip, space};
use imap_syntax::OctetClass;
use imap_types::{Name, Octets};
use std::alloc::Global;

/// Reads an astring or a pattern: octets of the class without quotes, a quoted string, or a literal
/// (RFC 9051, section 9, astring and list-mailbox).
pub fn text(alloc: Global, class: OctetClass, octets: &[u8]) -> Result<(Octets, &[u8]), ParseFault>
    ensures { IsReading (λ x. (x.0, x.1.now)) result (text_at class octets.now) }
{
    match octets {
        [] => Err(ParseFault::BadSyntax),
        [first, rest @ ..] => match *first {
            b'"' => quoted_string(alloc, rest),
            b'{' => literal(alloc, rest),
            _ => plain(alloc, class, octets),
        },
    }
}

/// Reads a space and an astring.
pub fn spaced_text(alloc: Global, octets: &[u8]) -> Result<(Octets, &[u8]), ParseFault>
    ensures { IsReading (λ x. (x.0, x.1.now)) result (spaced (text_at Astring) octets.now) }
{
    text(alloc, OctetClass::Astring, space(octets)?)
}

/// Reads two astrings, each after a space.
pub fn spaced_texts(alloc: Global, octets: &[u8]) -> Result<((Octets, Octets), &[u8]), ParseFault>
    ensures { IsReading (λ x. (x.0, x.1.now)) result
        (spaced (both (text_at Astring) (spaced (text_at Astring))) octets.now) }
{
    let (first, rest) = spaced_text(alloc, octets)?;
    let (second, rest) = spaced_text(alloc, rest)?;
    Ok(((first, second), rest))
}

/// Reads one or more octets of a class without quotes.
pub fn plain(alloc: Global, class: OctetClass, octets: &[u8]) -> Result<(Octets, &[u8]), ParseFault>
    ensures { IsReading (λ x. (x.0, x.1.now)) result (run_at class octets.now) }
{
    let (front, rest) = run(class, octets)?;
    Ok((Octets::from_slice(alloc, front)?, rest))
}

/// Reads a mailbox name; INBOX in any letter case becomes capitals (RFC 9051, section 9, mailbox).
pub fn mailbox(alloc: Global, octets: &[u8]) -> Result<(Name, &[u8]), ParseFault>
    ensures { IsReading (λ x. (x.0, x.1.now)) result (mailbox_at octets.now) }
{
    let (written, rest) = text(alloc, OctetClass::Astring, octets)?;
    Ok((Name::new(written.into_vec()).fold_inbox(), rest))
}

/// Reads a space and a mailbox name.
pub fn spaced_mailbox(alloc: Global, octets: &[u8]) -> Result<(Name, &[u8]), ParseFault>
    ensures { IsReading (λ x. (x.0, x.1.now)) result (spaced mailbox_at octets.now) }
{
    mailbox(alloc, space(octets)?)
}

/// Reads a string up to its closing quote, and takes out the escapes (RFC 9051, section 9, quoted).
fn quoted_string(alloc: Global, octets: &[u8]) -> Result<(Octets, &[u8]), ParseFault>
    ensures { IsReading (λ x. (x.0, x.1.now)) result (quoted_at false octets.now) }
{
    let mut value = Vec::new(alloc);
    let mut escaped = false;
    let mut rest = octets;
    while let [octet, tail @ ..] = rest {
        rest = tail;
        let octet = *octet;
        if escaped {
            if octet != b'"' && octet != b'\\' {
                return Err(ParseFault::BadSyntax);
            }
            value.push(octet)?;
            escaped = false;
        } else if octet == b'"' {
            return Ok((Octets::new(value), rest));
        } else if octet == b'\\' {
            escaped = true;
        } else if is_quotable(octet) {
            value.push(octet)?;
        } else {
            return Err(ParseFault::BadSyntax);
        }
    }
    Err(ParseFault::BadSyntax)
}

/// Whether an octet may be in a quoted string without a `\`.
fn is_quotable(octet: u8) -> bool
    ensures { result ≡ is_quotable octet }
{
    octet != 0 && octet != b'\r' && octet != b'\n'
}

/// Reads a literal after its `{` (RFC 9051, section 9, literal).
#[tactic(auto, unfolding(crate::specs::Reading::literal_at))]
pub fn literal(alloc: Global, octets: &[u8]) -> Result<(Octets, &[u8]), ParseFault>
    ensures { IsReading (λ x. (x.0, x.1.now)) result (literal_at octets.now) }
{
    let (digits, rest) = run(OctetClass::Digit, octets)?;
    let rest = skip(after_plus(rest), b"}\r\n")?;
    counted_octets(alloc, digits, rest)
}

/// The octets after a `+`, if they begin with one.
fn after_plus(octets: &[u8]) -> &[u8]
    ensures { result.now ≡ after_plus octets.now }
{
    match octets {
        [] => octets,
        [first, rest @ ..] => { if *first == b'+' { rest } else { octets } }
    }
}

/// Takes as many octets as the digits say.
fn counted_octets<'a>(
    alloc: Global,
    digits: &[u8],
    octets: &'a [u8],
) -> Result<(Octets, &'a [u8]), ParseFault>
    ensures { IsReading (λ x. (x.0, x.1.now)) result
        (octets_at (number_of 0 digits.now) octets.now) }
{
    let count = saturating_number(digits);
    if (octets.len() as u64) < count {
        return Err(ParseFault::BadSyntax);
    }
    let (value, rest) = octets.split_at(count as usize);
    Ok((Octets::from_slice(alloc, value)?, rest))
}
