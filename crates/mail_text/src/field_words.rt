//! Words in the header fields of a message.

ghost use Rattle.std.specs.Prelude.{◌≡◌, ◌≤◌, ◌&&◌, [], ◌∷◌, false, length, IfOk, MatchOption};
ghost use Rattle.mail_text.specs.Cuts.{IsAfterContinuation, IsFirstField};
ghost use Rattle.mail_text.specs.HeaderFields.{field_lines, fields_in, has_requested_name};
ghost use Rattle.mail_text.specs.TextLines.{lines_of};
ghost use Rattle.mail_text.specs.TextSearch.{any_field_holds, after_colon, field_value, occurs_in};
ghost use Rattle.std.specs.Option.{option_map};

use crate::header_fields::{before_colon, is_continuation, trim_end_blanks};
use crate::text_lines::{first_line, is_empty_line};
use crate::text_search::contains_nocase;
use bstr::ByteSlice;
use std::alloc::{AllocError, Global};

/// A header field of a text.
#[derive(Clone, Copy)]
struct Field<'a> {
    /// The field's first line.
    line: &'a [u8],
    /// All octets of the field, including line ends.
    octets: &'a [u8],
    /// What follows the field in the text.
    rest: &'a [u8],
}

/// Whether a word occurs in a header field of this name, after the field's first colon, without
/// regard to the case of ASCII letters (RFC 9051, section 6.4.4, HEADER). An empty word occurs in
/// each field. Time is linear in the text's length. `Err` if memory runs out for a lower-case copy
/// of a field.
pub fn field_contains_nocase(
    alloc: Global,
    text: &[u8],
    name: &[u8],
    word: &[u8],
) -> Result<bool, AllocError>
    ensures { IfOk result (λ is. is ≡ any_field_holds name.now word.now text.now) }
{
    let mut rest = text;
    for _ in 0..text.len() {
        match first_field(rest) {
            None => return Ok(false),
            Some(field) => {
                if occurs_in(alloc, field.line, field.octets, name, word)? {
                    return Ok(true);
                }
                rest = field.rest;
            }
        }
    }
    Ok(false)
}

/// What follows the first colon of the first header field of this name (RFC 5322, section 2.2),
/// with its line ends; `None` if there is no such field. Time is linear in the header's length.
pub fn field_value<'a>(text: &'a [u8], name: &[u8]) -> Option<&'a [u8]>
    ensures { option_map (λ value. value.now) result ≡ field_value name.now text.now }
{
    let mut rest = text;
    for _ in 0..text.len() {
        match first_field(rest) {
            None => return None,
            Some(field) => {
                if has_field_name(field.line, name) {
                    return Some(after_colon(field.octets));
                }
                rest = field.rest;
            }
        }
    }
    None
}

/// Whether the field with this first line and these octets has this name and contains a word.
fn occurs_in(
    alloc: Global,
    line: &[u8],
    octets: &[u8],
    name: &[u8],
    word: &[u8],
) -> Result<bool, AllocError>
    ensures { IfOk result (λ is. is
        ≡ (has_requested_name (name.now ∷ []) line.now
        && occurs_in word.now (after_colon octets.now))) }
{
    if !has_field_name(line, name) {
        return Ok(false);
    }
    contains_nocase(alloc, after_colon(octets), word)
}

/// The first field of a text that begins inside a header; `None` if the header has no further
/// field.
fn first_field(text: &[u8]) -> Option<Field<'_>>
    ensures { MatchOption result (fields_in (field_lines (lines_of text.now)) ≡ [])
        (λ field. IsFirstField text.now field.line.now field.octets.now field.rest.now) }
{
    if text.is_empty() {
        return None;
    }
    let (line, tail) = first_line(text);
    if is_empty_line(line) {
        return None;
    }
    let rest = after_continuations(tail);
    let (octets, _) = text.split_at(text.len() - rest.len());
    Some(Field { line, octets, rest })
}

/// What follows the lines that continue the field before them.
fn after_continuations(text: &[u8]) -> &[u8]
    ensures cut { IsAfterContinuation text.now result.now }
    ensures within { length result.now ≤ length text.now }
{
    let mut rest = text;
    for _ in 0..text.len() {
        if !is_continuation(rest) {
            return rest;
        }
        let (_, tail) = first_line(rest);
        rest = tail;
    }
    rest
}

/// Whether a line begins a field of this name.
fn has_field_name(line: &[u8], name: &[u8]) -> bool
    ensures { result ≡ has_requested_name (name.now ∷ []) line.now }
{
    if !begins_alike(line, name) {
        return false;
    }
    match before_colon(line) {
        None => false,
        Some(front) => name.eq_ignore_ascii_case(trim_end_blanks(front)),
    }
}

/// Whether a line's first octet is that of the name, without regard to case, as that of each field
/// of this name is; also if either is empty. It tells most fields apart without a search for the
/// colon.
fn begins_alike(line: &[u8], name: &[u8]) -> bool
    ensures { result ≡ false → has_requested_name (name.now ∷ []) line.now ≡ false }
{
    match (line.first(), name.first()) {
        (Some(octet), Some(letter)) => letter.eq_ignore_ascii_case(octet),
        _ => true,
    }
}

/// What follows the first colon.
fn after_colon(octets: &[u8]) -> &[u8]
    ensures { result.now ≡ after_colon octets.now }
{
    match octets.find_byte(b':') {
        Some(place) => octets.split_at(place + 1).1,
        None => octets.split_at(octets.len()).1,
    }
}
