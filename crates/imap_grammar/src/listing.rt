//! The arguments of LIST (RFC 9051, section 6.3.9).

ghost use Rattle.std.specs.Prelude.{◌≡◌, codes};
ghost use Rattle.imap_grammar.specs.Reading.{IsReading, after_word, text_at};
ghost use Rattle.imap_grammar.specs.CommandReading.{list_at, options_at, options_inner_at};
ghost use Rattle.imap_grammar.specs.CommandReading.{returns_at, selection_at};
ghost use Rattle.imap_syntax.specs.declared.octet_class.OctetClass.TheVariants.{Pattern};

use crate::fault::ParseFault;
use crate::scan::{skip, skip_word, space, span};
use crate::text::text;
use imap_syntax::{Command, ListNames, OctetClass};
use imap_types::Octets;
use std::alloc::Global;

/// Reads the arguments of LIST: selection options, a reference, a pattern and return options (RFC
/// 9051, section 6.3.9).
pub fn list(alloc: Global, octets: &[u8]) -> Result<(Command, &[u8]), ParseFault>
    ensures { IsReading (λ x. (x.0, x.1.now)) result (list_at octets.now) }
{
    let (subscribed_only, rest) = selection(space(octets)?)?;
    let (reference, rest) = text(alloc, OctetClass::Astring, rest)?;
    let (pattern, rest) = pattern(alloc, space(rest)?)?;
    let (return_subscribed, rest) = returns(rest)?;
    let list = ListNames {
        subscribed_only,
        reference,
        pattern,
        return_subscribed,
    };
    Ok((Command::ListNames(list), rest))
}

/// Reads a pattern. A list of patterns is a form that this server doesn't support.
fn pattern(alloc: Global, octets: &[u8]) -> Result<(Octets, &[u8]), ParseFault>
    ensures { IsReading (λ x. (x.0, x.1.now)) result (text_at Pattern octets.now) }
{
    match octets {
        [] => Err(ParseFault::BadSyntax),
        [first, ..] => match *first {
            b'(' => Err(ParseFault::NotInProfile),
            _ => text(alloc, OctetClass::Pattern, octets),
        },
    }
}

/// Reads the selection options and a space, or nothing; returns whether SUBSCRIBED is among them.
fn selection(octets: &[u8]) -> Result<(bool, &[u8]), ParseFault>
    ensures { IsReading (λ x. (x.0, x.1.now)) result (selection_at octets.now) }
{
    match octets {
        [] => Ok((false, octets)),
        [first, ..] => {
            if *first != b'(' {
                return Ok((false, octets));
            }
            let (subscribed, rest) = options(octets)?;
            let rest = space(rest)?;
            Ok((subscribed, rest))
        }
    }
}

/// Reads a space, RETURN and the return options, or nothing; returns whether SUBSCRIBED is among
/// them.
fn returns(octets: &[u8]) -> Result<(bool, &[u8]), ParseFault>
    ensures { IsReading (λ x. (x.0, x.1.now)) result (returns_at octets.now) }
{
    match octets {
        [] => Ok((false, octets)),
        [first, rest @ ..] => {
            if *first != b' ' {
                return Ok((false, octets));
            }
            let rest = skip_word(rest, b"RETURN")?;
            let rest = space(rest)?;
            options(rest)
        }
    }
}

/// Reads `(SUBSCRIBED)` or `()`.
fn options(octets: &[u8]) -> Result<(bool, &[u8]), ParseFault>
    ensures { IsReading (λ x. (x.0, x.1.now)) result (options_at octets.now) }
{
    let rest = skip(octets, b"(")?;
    options_inner(rest)
}

/// Reads options up to and including the closing parenthesis.
fn options_inner(octets: &[u8]) -> Result<(bool, &[u8]), ParseFault>
    ensures { IsReading (λ x. (x.0, x.1.now)) result (options_inner_at octets.now) }
{
    match octets {
        [] => Err(ParseFault::BadSyntax),
        [first, rest @ ..] => {
            if *first == b')' {
                return Ok((false, rest));
            }
            let rest = subscribed_option(octets)?;
            let rest = skip(rest, b")")?;
            Ok((true, rest))
        }
    }
}

/// Reads SUBSCRIBED. Any other word is an option that this server doesn't support.
fn subscribed_option(octets: &[u8]) -> Result<&[u8], ParseFault>
    ensures { IsReading (λ rest. rest.now) result (after_word (codes "SUBSCRIBED") octets.now) }
{
    let (token, rest) = span(OctetClass::Item, octets);
    if token.eq_ignore_ascii_case(b"SUBSCRIBED") {
        return Ok(rest);
    }
    if token.is_empty() {
        return Err(ParseFault::BadSyntax);
    }
    Err(ParseFault::NotInProfile)
}
