//! Steps over octets: classes, fixed octets, spaces and words.

ghost use Rattle.std.specs.Prelude.{◌≡◌, ◌<◌, ◌≤◌, length, [], ◌∷◌, IfSome};
ghost use Rattle.imap_syntax.specs.Strings.{is_in, number_of};
ghost use Rattle.imap_grammar.specs.Reading.{IsReading, after, after_word, run_at, span};
ghost use Rattle.imap_grammar.specs.Reading.{after_plus};

use crate::class::is_in;
use crate::fault::ParseFault;
use imap_syntax::OctetClass;

/// Splits the octets after the longest prefix whose octets all belong to a class.
pub fn span(class: OctetClass, octets: &[u8]) -> (&[u8], &[u8])
    ensures { (result.0.now, result.1.now) ≡ span (is_in class) octets.now }
{
    let mut len = 0;
    for octet in octets {
        if !is_in(class, *octet) {
            break;
        }
        len += 1;
    }
    octets.split_at(len)
}

/// Does what `span` does, but the prefix must not be empty.
pub fn run(class: OctetClass, octets: &[u8]) -> Result<(&[u8], &[u8]), ParseFault>
    ensures { IsReading (λ x. (x.0.now, x.1.now)) result (run_at class octets.now) }
{
    let (front, rest) = span(class, octets);
    if front.is_empty() {
        return Err(ParseFault::BadSyntax);
    }
    Ok((front, rest))
}

/// The octets after a prefix that they must begin with.
pub fn skip<'a>(octets: &'a [u8], expected: &[u8]) -> Result<&'a [u8], ParseFault>
    ensures { IsReading (λ rest. rest.now) result (after expected.now octets.now) }
{
    let mut rest = octets;
    for octet in expected {
        match rest {
            [] => return Err(ParseFault::BadSyntax),
            [first, tail @ ..] => {
                if *first != *octet {
                    return Err(ParseFault::BadSyntax);
                }
                rest = tail;
            }
        }
    }
    Ok(rest)
}

/// The octets after one space, which they must begin with.
pub fn space(octets: &[u8]) -> Result<&[u8], ParseFault>
    ensures { IsReading (λ rest. rest.now) result (after (32 ∷ []) octets.now) }
{
    skip(octets, b" ")
}

/// The octets after a word that they must begin with, in any letter case.
pub fn skip_word<'a>(octets: &'a [u8], token: &[u8]) -> Result<&'a [u8], ParseFault>
    ensures { IsReading (λ rest. rest.now) result (after_word token.now octets.now) }
{
    let (front, rest) = span(OctetClass::Item, octets);
    if !front.eq_ignore_ascii_case(token) {
        return Err(ParseFault::BadSyntax);
    }
    Ok(rest)
}
