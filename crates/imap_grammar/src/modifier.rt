//! Modifiers of FETCH and STORE with a mod-sequence, and words of forms that this server doesn't
//! support (RFC 7162, section 3.1).

ghost use Rattle.std.specs.Prelude.{◌≡◌, ◌<◌, ◌-◌, ◌^◌, ◌⊎◌, codes};
ghost use Rattle.imap_grammar.specs.Reading.{IsReading, after_word, modifier_at, modifier_group_at};
ghost use Rattle.imap_grammar.specs.Reading.{follows_space};
ghost use Rattle.imap_grammar.specs.declared.fault.ParseFault.TheVariants.{BadSyntax, NotInProfile};

use crate::fault::ParseFault;
use crate::numbers::number;
use crate::scan::{skip, space, span};
use imap_syntax::OctetClass;

/// The greatest mod-sequence (RFC 7162, section 7, mod-sequence-value).
const MAX_MODSEQ: u64 = 9_223_372_036_854_775_807;

/// Whether the octets begin with a space and then `mark`.
pub fn follows_space(mark: u8, octets: &[u8]) -> bool
    ensures { result ≡ follows_space mark octets.now }
{
    match octets {
        [] => false,
        [_] => false,
        [first, second, ..] => *first == b' ' && *second == mark,
    }
}

/// Reads ` (CHANGEDSINCE n)` or nothing (RFC 7162, section 3.1.4.1).
pub fn changed_since(octets: &[u8]) -> Result<(Option<u64>, &[u8]), ParseFault>
    ensures { IsReading (λ x. (x.0, x.1.now)) result
        (modifier_at (codes "CHANGEDSINCE") octets.now) }
{
    modifier(b"CHANGEDSINCE", octets)
}

/// Reads ` (UNCHANGEDSINCE n)` or nothing (RFC 7162, section 3.1.3).
pub fn unchanged_since(octets: &[u8]) -> Result<(Option<u64>, &[u8]), ParseFault>
    ensures { IsReading (λ x. (x.0, x.1.now)) result
        (modifier_at (codes "UNCHANGEDSINCE") octets.now) }
{
    modifier(b"UNCHANGEDSINCE", octets)
}

/// Reads a space and the modifier with this word, or nothing.
fn modifier<'a>(token: &[u8], octets: &'a [u8]) -> Result<(Option<u64>, &'a [u8]), ParseFault>
    ensures { IsReading (λ x. (x.0, x.1.now)) result (modifier_at token.now octets.now) }
{
    if !follows_space(b'(', octets) {
        return Ok((None, octets));
    }
    let rest = space(octets)?;
    let (value, rest) = modifier_group(token, rest)?;
    Ok((Some(value), rest))
}

/// Reads the modifier with this word, its parentheses included.
fn modifier_group<'a>(token: &[u8], octets: &'a [u8]) -> Result<(u64, &'a [u8]), ParseFault>
    ensures { IsReading (λ x. (x.0, x.1.now)) result (modifier_group_at token.now octets.now) }
{
    let rest = skip(octets, b"(")?;
    let rest = modifier_word(token, rest)?;
    let rest = space(rest)?;
    let (value, rest) = number(rest, MAX_MODSEQ)?;
    let rest = skip(rest, b")")?;
    Ok((value, rest))
}

/// Reads the modifier's word. VANISHED and QRESYNC (RFC 7162, section 3.2) are forms that this
/// server doesn't support.
pub fn modifier_word<'a>(token: &[u8], octets: &'a [u8]) -> Result<&'a [u8], ParseFault>
    ensures { IsReading (λ rest. rest.now) result (after_word token.now octets.now) }
{
    let (front, rest) = span(OctetClass::Item, octets);
    if front.eq_ignore_ascii_case(token) {
        return Ok(rest);
    }
    Err(fault_of_word(octets, &[b"VANISHED", b"QRESYNC"]))
}

/// The fault of octets that can't be read: `NotInProfile` if they begin with one of `words`, else
/// `BadSyntax`.
pub fn fault_of_word(octets: &[u8], words: &[&[u8]]) -> ParseFault
    ensures { (result ≡ BadSyntax) ⊎ (result ≡ NotInProfile) }
{
    let (token, _) = span(OctetClass::Item, octets);
    for word in words {
        if token.eq_ignore_ascii_case(word) {
            return ParseFault::NotInProfile;
        }
    }
    ParseFault::BadSyntax
}
