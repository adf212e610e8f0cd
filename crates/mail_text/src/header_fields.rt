//! The header fields of a message by their names (RFC 9051, section 6.4.5.1).

ghost use Rattle.std.specs.Prelude.{◌≡◌, ◌≢◌, true, false, ◌++◌, [], OnOk, IfOk};
ghost use Rattle.std.specs.Option.{option_map};
ghost use Rattle.imap_types.specs.Keywords.{has_keyword};
ghost use Rattle.mail_text.specs.HeaderFields.{is_requested_field, before_colon, fields_of};
ghost use Rattle.mail_text.specs.HeaderFields.{is_continuation, is_among, is_blank};
ghost use Rattle.mail_text.specs.HeaderFields.{has_requested_name, trim_end_blanks};
ghost use Rattle.mail_text.specs.SelectedLines.{line_if_selected, selects_line};

use crate::text_lines::{first_line, is_empty_line};
use bstr::ByteSlice;
use imap_types::Octets;
use std::alloc::{AllocError, Global};

/// The header fields with one of these names, including the lines that continue them, in the order
/// of the text, and then the empty line if there is one (RFC 9051, section 6.4.5.1, HEADER.FIELDS).
/// Time is linear in the text's length for each name. `Err` if memory runs out.
pub fn fields(alloc: Global, text: &[u8], names: &[Octets]) -> Result<Vec<u8>, AllocError>
    ensures { IfOk result (λ selection. selection.items ≡ fields_of true names.now text.now) }
{
    select_fields(alloc, text, names, true)
}

/// The header fields with other names, and lines without a name, in the order of the text, and then
/// the empty line if there is one (RFC 9051, section 6.4.5.1, HEADER.FIELDS.NOT). Time is linear in
/// the text's length for each name. `Err` if memory runs out.
pub fn other_fields(alloc: Global, text: &[u8], names: &[Octets]) -> Result<Vec<u8>, AllocError>
    ensures { IfOk result (λ selection. selection.items ≡ fields_of false names.now text.now) }
{
    select_fields(alloc, text, names, false)
}

/// The header fields with one of these names if `named`, else all others.
fn select_fields(
    alloc: Global,
    text: &[u8],
    names: &[Octets],
    named: bool,
) -> Result<Vec<u8>, AllocError>
    ensures { IfOk result (λ selection. selection.items ≡ fields_of named names.now text.now) }
{
    let mut output = Vec::new(alloc);
    if text.is_empty() {
        return Ok(output);
    }
    let (line, _) = first_line(text);
    let mut selected = is_requested_field(line, names, named);
    let mut rest = text;
    for _ in 0..text.len() {
        if rest.is_empty() {
            return Ok(output);
        }
        let (line, tail) = first_line(rest);
        if is_empty_line(line) {
            output.extend_from_slice(line)?;
            return Ok(output);
        }
        selected = selects_line(line, selected, names, named);
        push_selected(&mut output, selected, line)?;
        rest = tail;
    }
    Ok(output)
}

fn push_selected(output: &mut Vec<u8>, selected: bool, line: &[u8]) -> Result<(), AllocError>
    ensures { OnOk result
        (output.new.items ≡ output.old.items ++ line_if_selected selected line.now) }
{
    if selected {
        output.extend_from_slice(line)?;
    }
    Ok(())
}

/// Whether a line is selected; `selected` says whether the line before it was.
fn selects_line(line: &[u8], selected: bool, names: &[Octets], named: bool) -> bool
    ensures { result ≡ selects_line (is_requested_field named names.now) selected line.now }
{
    if is_continuation(line) {
        selected
    } else {
        is_requested_field(line, names, named)
    }
}

/// Whether a line continues the field before it.
pub fn is_continuation(line: &[u8]) -> bool
    ensures { result ≡ is_continuation line.now }
{
    match line {
        [] => false,
        [first, ..] => is_blank(*first),
    }
}

fn is_blank(octet: u8) -> bool
    ensures { result ≡ is_blank octet }
{
    octet == b' ' || octet == b'\t'
}

/// Whether a line begins a selected field.
fn is_requested_field(line: &[u8], names: &[Octets], named: bool) -> bool
    ensures { result ≡ is_requested_field named names.now line.now }
{
    let has_name = has_requested_name(line, names);
    if named { has_name } else { !has_name }
}

fn has_requested_name(line: &[u8], names: &[Octets]) -> bool
    ensures { result ≡ has_requested_name names.now line.now }
{
    match before_colon(line) {
        None => false,
        Some(name) => is_among(trim_end_blanks(name), names),
    }
}

pub fn before_colon(line: &[u8]) -> Option<&[u8]>
    ensures { option_map (λ name. name.now) result ≡ before_colon line.now }
{
    match line.find_byte(b':') {
        Some(place) => Some(&line[..place]),
        None => None,
    }
}

/// A text without the blanks at its end.
pub fn trim_end_blanks(text: &[u8]) -> &[u8]
    ensures { result.now ≡ trim_end_blanks text.now }
{
    let mut rest = text;
    for _ in 0..text.len() {
        match rest {
            [] => return rest,
            [front @ .., last] => {
                if !is_blank(*last) {
                    return rest;
                }
                rest = front;
            }
        }
    }
    rest
}

fn is_among(name: &[u8], names: &[Octets]) -> bool
    ensures { result ≡ has_keyword name.now names.now }
{
    for other in names {
        if other.as_bytes().eq_ignore_ascii_case(name) {
            return true;
        }
    }
    false
}
