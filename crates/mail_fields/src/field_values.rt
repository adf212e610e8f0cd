//! The values of all header fields of a name, and their addresses.

ghost use Rattle.std.specs.Prelude.{◌≡◌, ◌≢◌, ◌<◌, ◌≤◌, [], ◌∷◌, ◌++◌, length, IfOk, IfSome};
ghost use Rattle.std.specs.Prelude.{MatchOption};
ghost use Rattle.std.specs.Option.{option_map};
ghost use Rattle.mail_fields.specs.FieldValues.{addresses_named, field_values};
ghost use Rattle.mail_text.specs.Cuts.{IsAfterContinuation, IsFirstField};
ghost use Rattle.mail_text.specs.HeaderFields.{before_colon, field_lines, fields_in};
ghost use Rattle.mail_text.specs.HeaderFields.{has_requested_name, is_blank, is_continuation};
ghost use Rattle.mail_text.specs.TextLines.{is_empty_line, lines_of};
ghost use Rattle.mail_text.specs.TextSearch.{after_colon};

use crate::address_list::{Address, push_addresses};
use bstr::ByteSlice;
use mail_text::trim_end_blanks;
use std::alloc::{AllocError, Global};

/// A header field of a text.
#[derive(Clone, Copy)]
struct Field<'a> {
    /// The field's first line.
    line: &'a [u8],
    /// All octets of the field, including line ends.
    octets: &'a [u8],
    /// What follows the field in the text.
    rest: &'a [u8],
}

/// A header field's value, and what follows the field in its text.
#[derive(Clone, Copy)]
struct FieldValue<'a> {
    /// What follows the field's first colon, with its line ends.
    value: &'a [u8],
    /// The text after the field.
    rest: &'a [u8],
}

/// The addresses of all fields of this name in a header, as one list (RFC 5322, section 3.6). Time
/// is linear in the header's length. `Err` if memory runs out.
pub fn addresses_named(
    alloc: Global,
    header: &[u8],
    name: &[u8],
) -> Result<Vec<Address>, AllocError>
    ensures { IfOk result (λ addresses. addresses.items
        ≡ addresses_named name.now header.now) }
{
    let mut addresses = Vec::new(alloc);
    let mut rest = header;
    for _ in 0..header.len() {
        match next_field_value(rest, name) {
            None => return Ok(addresses),
            Some(field) => {
                push_addresses(alloc, field.value, &mut addresses)?;
                rest = field.rest;
            }
        }
    }
    Ok(addresses)
}

/// The value of the first field of this name, and the text after it, in which further fields are.
fn next_field_value<'a>(text: &'a [u8], name: &[u8]) -> Option<FieldValue<'a>>
    ensures value { MatchOption result (field_values name.now text.now ≡ [])
        (λ field. field_values name.now text.now
        ≡ field.value.now ∷ field_values name.now field.rest.now) }
    ensures shorter { IfSome result (λ field. length field.rest.now < length text.now) }
{
    let mut rest = text;
    for _ in 0..text.len() {
        match first_field(rest) {
            None => return None,
            Some(field) => {
                if has_field_name(field.line, name) {
                    return Some(FieldValue {
                        value: after_colon(field.octets),
                        rest: field.rest,
                    });
                }
                rest = field.rest;
            }
        }
    }
    None
}

/// The first field of a text that begins inside a header; `None` if the header has no further
/// field.
fn first_field(text: &[u8]) -> Option<Field<'_>>
    ensures { MatchOption result (fields_in (field_lines (lines_of text.now)) ≡ [])
        (λ field. IsFirstField text.now field.line.now field.octets.now field.rest.now) }
{
    if text.is_empty() {
        return None;
    }
    let (line, tail) = first_line(text);
    if is_empty_line(line) {
        return None;
    }
    let rest = after_continuations(tail);
    let (octets, _) = text.split_at(text.len() - rest.len());
    Some(Field { line, octets, rest })
}

/// The first line of a text that isn't empty, and what follows it.
fn first_line(text: &[u8]) -> (&[u8], &[u8])
    requires { text.now ≢ [] }
    ensures lines { lines_of text.now ≡ result.0.now ∷ lines_of result.1.now }
    ensures parts { result.0.now ++ result.1.now ≡ text.now }
    ensures shorter { length result.1.now < length text.now }
{
    match text.find(b"\r\n") {
        Some(place) => text.split_at(place + 2),
        None => text.split_at(text.len()),
    }
}

/// Whether a line is only CRLF.
fn is_empty_line(line: &[u8]) -> bool
    ensures { result ≡ is_empty_line line.now }
{
    line == b"\r\n".as_slice()
}

/// What follows the lines that continue the field before them.
fn after_continuations(text: &[u8]) -> &[u8]
    ensures cut { IsAfterContinuation text.now result.now }
    ensures within { length result.now ≤ length text.now }
{
    let mut rest = text;
    for _ in 0..text.len() {
        if !is_continuation(rest) {
            return rest;
        }
        let (_, tail) = first_line(rest);
        rest = tail;
    }
    rest
}

/// Whether a line continues the field before it.
fn is_continuation(line: &[u8]) -> bool
    ensures { result ≡ is_continuation line.now }
{
    match line {
        [] => false,
        [first, ..] => is_blank(*first),
    }
}

fn is_blank(octet: u8) -> bool
    ensures { result ≡ is_blank octet }
{
    octet == b' ' || octet == b'\t'
}

/// Whether a line begins a field of this name.
fn has_field_name(line: &[u8], name: &[u8]) -> bool
    ensures { result ≡ has_requested_name (name.now ∷ []) line.now }
{
    match before_colon(line) {
        None => false,
        Some(front) => name.eq_ignore_ascii_case(trim_end_blanks(front)),
    }
}

fn before_colon(line: &[u8]) -> Option<&[u8]>
    ensures { option_map (λ name. name.now) result ≡ before_colon line.now }
{
    match line.find_byte(b':') {
        Some(place) => Some(&line[..place]),
        None => None,
    }
}

/// What follows the first colon.
fn after_colon(octets: &[u8]) -> &[u8]
    ensures { result.now ≡ after_colon octets.now }
{
    match octets.find_byte(b':') {
        Some(place) => octets.split_at(place + 1).1,
        None => octets.split_at(octets.len()).1,
    }
}
