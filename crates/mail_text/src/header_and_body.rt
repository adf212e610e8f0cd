//! The header of a message and what follows it (RFC 9051, section 6.4.5.1).

ghost use Rattle.std.specs.Prelude.{◌≡◌, ◌≤◌, ◌++◌, length};
ghost use Rattle.mail_text.specs.Cuts.{IsAfterHeader};
ghost use Rattle.mail_text.specs.HeaderAndBody.{body_of, header_of, partial_of};

use crate::text_lines::{first_line, is_empty_line};

/// The header of a message's text: its lines up to and including the first empty one, or all if no
/// line is empty (RFC 9051, section 6.4.5.1, HEADER). Time is linear in the header's length.
pub fn header(text: &[u8]) -> &[u8]
    ensures { result.now ≡ header_of text.now }
{
    parts(text).0
}

/// What follows the header of a message's text (RFC 9051, section 6.4.5.1, TEXT). Time is linear in
/// the header's length.
pub fn body(text: &[u8]) -> &[u8]
    ensures { result.now ≡ body_of text.now }
{
    parts(text).1
}

/// The header and what follows it.
fn parts(text: &[u8]) -> (&[u8], &[u8])
    ensures header { result.0.now ≡ header_of text.now }
    ensures body { result.1.now ≡ body_of text.now }
{
    let rest = after_header(text);
    text.split_at(text.len() - rest.len())
}

/// What follows the header.
fn after_header(text: &[u8]) -> &[u8]
    ensures cut { IsAfterHeader text.now result.now }
    ensures within { length result.now ≤ length text.now }
{
    let mut rest = text;
    for _ in 0..text.len() {
        if rest.is_empty() {
            return rest;
        }
        let (line, tail) = first_line(rest);
        if is_empty_line(line) {
            return tail;
        }
        rest = tail;
    }
    rest
}

/// At most `count` octets from place `start`; the first octet has place 0 (RFC 9051, section 6.4.5,
/// partial).
pub fn partial(octets: &[u8], start: u32, count: u32) -> &[u8]
    ensures { result.now ≡ partial_of start count octets.now }
{
    let start = (start as usize).min(octets.len());
    let rest = &octets[start..];
    &rest[..(count as usize).min(rest.len())]
}
