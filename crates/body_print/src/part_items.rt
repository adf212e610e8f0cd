//! Printing of a part's own items in a body (RFC 3501, section 7.4.2). Each function appends a text
//! to `out`. An `Err`, if memory runs out, may leave part of it.

ghost use Rattle.std.specs.Prelude.{◌≡◌, ◌++◌, [], codes, OnOk};
ghost use Rattle.body_print.specs.Bodies.{descriptions, empty_text, extension, is_text};
ghost use Rattle.body_print.specs.Bodies.{line_count, media_of, multipart_extension, part_items};
ghost use Rattle.body_print.specs.Bodies.{single_value, with_lines, with_placement};
ghost use Rattle.body_print.specs.Envelopes.{envelope_of};
ghost use Rattle.body_print.specs.FieldTexts.{languages_value, parameters_value};
ghost use Rattle.body_print.specs.FieldTexts.{shown_parameters, some_field_or_nil};
ghost use Rattle.body_print.specs.Values.{next, spaced_text};
ghost use Rattle.body_print.specs.Values.{string_text, text_of};
ghost use Rattle.body_print.specs.Values.Spaced.{NoSpaced, NumberNext};
ghost use Rattle.body_print.specs.Values.Value.{TextValue};
ghost use Rattle.mail_text.specs.TextSearch.{field_value};

use crate::envelopes::push_envelope;
use crate::field_texts::{push_disposition, push_encoding, push_languages, push_some_field};
use crate::media::{is_text, line_count, media_of, plain_text};
use crate::parameters::{push_parameters, shown_parameters};
use crate::strings::{push_number, push_string};
use mail_fields::MediaType;
use mail_parts::Part;
use std::alloc::{AllocError, Global};

/// Appends the body of a part without parts.
pub fn push_single(
    alloc: Global,
    extended: bool,
    part: Part,
    header: &[u8],
    body: &[u8],
    out: &mut Vec<u8>,
) -> Result<(), AllocError>
    ensures { OnOk result (out.new.items ≡ out.old.items ++ text_of
        (single_value extended header.now body.now (media_of part header.now))) }
{
    let media = media_of(alloc, part, header)?;
    push_single_media(alloc, extended, header, body, media, out)
}

/// Appends the empty text that a multipart without parts shows.
pub fn push_empty_text(alloc: Global, extended: bool, out: &mut Vec<u8>) -> Result<(), AllocError>
    ensures { OnOk result
        (out.new.items ≡ out.old.items ++ text_of (empty_text extended)) }
{
    let media = plain_text(alloc)?;
    push_single_media(alloc, extended, b"", b"", media, out)
}

/// Appends the body of a part without parts that has this type.
fn push_single_media(
    alloc: Global,
    extended: bool,
    header: &[u8],
    body: &[u8],
    media: MediaType,
    out: &mut Vec<u8>,
) -> Result<(), AllocError>
    ensures { OnOk result (out.new.items ≡ out.old.items ++ text_of
        (single_value extended header.now body.now
        ((media.major, media.minor), media.parameters.items))) }
{
    let has_lines = is_text(&media);
    push_part_items(alloc, header, body, media, out)?;
    push_single_end(alloc, extended, has_lines, header, body, out)
}

/// Appends the end of the body of a part without parts, after its size. It begins with the number
/// of lines if `has_lines`.
fn push_single_end(
    alloc: Global,
    extended: bool,
    has_lines: bool,
    header: &[u8],
    body: &[u8],
    out: &mut Vec<u8>,
) -> Result<(), AllocError>
    ensures { OnOk result (out.new.items ≡ out.old.items ++ (spaced_text
        (with_lines has_lines body.now (extension extended header.now)) ++ codes ")")) }
{
    if has_lines {
        return push_lines_end(alloc, extended, header, body, out);
    }
    push_extension(alloc, extended, header, out)?;
    out.extend_from_slice(b")")
}

/// Appends the beginning of a part's list, up to its size.
fn push_part_items(
    alloc: Global,
    header: &[u8],
    body: &[u8],
    media: MediaType,
    out: &mut Vec<u8>,
) -> Result<(), AllocError>
    ensures { OnOk result (out.new.items ≡ out.old.items ++ (codes "(" ++ (string_text media.major
        ++ spaced_text (part_items header.now body.now
        ((media.major, media.minor), media.parameters.items) NoSpaced)))) }
{
    push_type(alloc, media, out)?;
    push_descriptions(alloc, header, out)?;
    out.extend_from_slice(b" ")?;
    push_number(body.len(), out)
}

/// Appends a parenthesis, the type, the subtype and the parameters.
fn push_type(alloc: Global, media: MediaType, out: &mut Vec<u8>) -> Result<(), AllocError>
    ensures { OnOk result (out.new.items ≡ out.old.items ++ (codes "(" ++ (string_text media.major
        ++ spaced_text (next (TextValue media.minor) (next (parameters_value (shown_parameters
        (is_text ((media.major, media.minor), media.parameters.items)) media.parameters.items))
        NoSpaced))))) }
{
    out.extend_from_slice(b"(")?;
    push_string(media.major.as_bytes(), out)?;
    push_subtype(alloc, media, out)
}

/// Appends the subtype and the parameters, each after a blank.
fn push_subtype(alloc: Global, media: MediaType, out: &mut Vec<u8>) -> Result<(), AllocError>
    ensures { OnOk result (out.new.items ≡ out.old.items
        ++ spaced_text (next (TextValue media.minor) (next (parameters_value (shown_parameters
        (is_text ((media.major, media.minor), media.parameters.items)) media.parameters.items))
        NoSpaced))) }
{
    let is_text = is_text(&media);
    out.extend_from_slice(b" ")?;
    push_string(media.minor.as_bytes(), out)?;
    let parameters = shown_parameters(alloc, is_text, media.parameters)?;
    out.extend_from_slice(b" ")?;
    push_parameters(&parameters, out)
}

/// Appends the id, the description and the encoding.
fn push_descriptions(alloc: Global, header: &[u8], out: &mut Vec<u8>) -> Result<(), AllocError>
    ensures { OnOk result
        (out.new.items ≡ out.old.items ++ spaced_text (descriptions header.now NoSpaced)) }
{
    push_next_field(alloc, header, b"Content-ID", out)?;
    push_next_field(alloc, header, b"Content-Description", out)?;
    out.extend_from_slice(b" ")?;
    push_encoding(alloc, header, out)
}

/// Appends a blank and the first field of this name, or NIL if there is none or it is empty.
fn push_next_field(
    alloc: Global,
    header: &[u8],
    name: &[u8],
    out: &mut Vec<u8>,
) -> Result<(), AllocError>
    ensures { OnOk result (out.new.items ≡ out.old.items ++ spaced_text
        (next (some_field_or_nil (field_value name.now header.now)) NoSpaced)) }
{
    out.extend_from_slice(b" ")?;
    push_some_field(alloc, header, name, out)
}

/// Appends the extension data of a part that is no multipart, if `extended`.
fn push_extension(
    alloc: Global,
    extended: bool,
    header: &[u8],
    out: &mut Vec<u8>,
) -> Result<(), AllocError>
    ensures { OnOk result
        (out.new.items ≡ out.old.items ++ spaced_text (extension extended header.now)) }
{
    if !extended {
        return Ok(());
    }
    push_next_field(alloc, header, b"Content-MD5", out)?;
    push_placement(alloc, header, out)
}

/// Appends the disposition, the languages and the location.
fn push_placement(alloc: Global, header: &[u8], out: &mut Vec<u8>) -> Result<(), AllocError>
    ensures { OnOk result
        (out.new.items ≡ out.old.items ++ spaced_text (with_placement header.now NoSpaced)) }
{
    out.extend_from_slice(b" ")?;
    push_disposition(alloc, header, out)?;
    push_language_and_location(alloc, header, out)
}

/// Appends the languages and the location, each after a blank.
fn push_language_and_location(
    alloc: Global,
    header: &[u8],
    out: &mut Vec<u8>,
) -> Result<(), AllocError>
    ensures { OnOk result (out.new.items ≡ out.old.items ++ spaced_text
        (next (languages_value (field_value (codes "Content-Language") header.now))
        (next (some_field_or_nil (field_value (codes "Content-Location") header.now))
        NoSpaced))) }
{
    out.extend_from_slice(b" ")?;
    push_languages(alloc, header, out)?;
    push_next_field(alloc, header, b"Content-Location", out)
}

/// Appends the beginning of a message's body, up to the envelope of the message in it, whose header
/// is `inner`, and a blank.
pub fn push_message_start(
    alloc: Global,
    part: Part,
    header: &[u8],
    body: &[u8],
    inner: &[u8],
    out: &mut Vec<u8>,
) -> Result<(), AllocError>
    ensures { OnOk result (out.new.items ≡ out.old.items ++ (codes "("
        ++ (string_text (media_of part header.now).0.0 ++ (spaced_text (part_items header.now
        body.now (media_of part header.now) (next (envelope_of inner.now) NoSpaced))
        ++ codes " ")))) }
{
    let media = media_of(alloc, part, header)?;
    push_message_items(alloc, header, body, media, inner, out)
}

/// Appends the beginning of the body of a message that has this type, up to the envelope of the
/// message in it, whose header is `inner`, and a blank.
fn push_message_items(
    alloc: Global,
    header: &[u8],
    body: &[u8],
    media: MediaType,
    inner: &[u8],
    out: &mut Vec<u8>,
) -> Result<(), AllocError>
    ensures { OnOk result (out.new.items ≡ out.old.items ++ (codes "(" ++ (string_text media.major
        ++ (spaced_text (part_items header.now body.now
        ((media.major, media.minor), media.parameters.items)
        (next (envelope_of inner.now) NoSpaced)) ++ codes " ")))) }
{
    push_part_items(alloc, header, body, media, out)?;
    out.extend_from_slice(b" ")?;
    push_envelope(alloc, inner, out)?;
    out.extend_from_slice(b" ")
}

/// Appends the end of the body of a text, after its size, or of a message, after the body of the
/// message in it.
pub fn push_lines_end(
    alloc: Global,
    extended: bool,
    header: &[u8],
    body: &[u8],
    out: &mut Vec<u8>,
) -> Result<(), AllocError>
    ensures { OnOk result (out.new.items ≡ out.old.items ++ (spaced_text
        (NumberNext (line_count body.now) (extension extended header.now)) ++ codes ")")) }
{
    out.extend_from_slice(b" ")?;
    push_number(line_count(body), out)?;
    push_extension(alloc, extended, header, out)?;
    out.extend_from_slice(b")")
}

/// Appends the end of a multipart's body, after the bodies of its parts.
pub fn push_multipart_end(
    alloc: Global,
    extended: bool,
    part: Part,
    header: &[u8],
    out: &mut Vec<u8>,
) -> Result<(), AllocError>
    ensures { OnOk result (out.new.items ≡ out.old.items ++ (spaced_text
        (next (TextValue (media_of part header.now).0.1)
        (multipart_extension extended header.now (media_of part header.now))) ++ codes ")")) }
{
    let media = media_of(alloc, part, header)?;
    push_multipart_items(alloc, extended, header, &media, out)
}

/// Appends the end of the body of a multipart that has this type, after the bodies of its parts.
fn push_multipart_items(
    alloc: Global,
    extended: bool,
    header: &[u8],
    media: &MediaType,
    out: &mut Vec<u8>,
) -> Result<(), AllocError>
    ensures { OnOk result (out.new.items ≡ out.old.items ++ (spaced_text
        (next (TextValue media.now.minor) (multipart_extension extended header.now
        ((media.now.major, media.now.minor), media.now.parameters.items))) ++ codes ")")) }
{
    out.extend_from_slice(b" ")?;
    push_string(media.minor.as_bytes(), out)?;
    push_multipart_extension(alloc, extended, header, media, out)?;
    out.extend_from_slice(b")")
}

/// Appends the extension data of a multipart, if `extended`.
fn push_multipart_extension(
    alloc: Global,
    extended: bool,
    header: &[u8],
    media: &MediaType,
    out: &mut Vec<u8>,
) -> Result<(), AllocError>
    ensures { OnOk result (out.new.items ≡ out.old.items ++ spaced_text
        (multipart_extension extended header.now
        ((media.now.major, media.now.minor), media.now.parameters.items))) }
{
    if !extended {
        return Ok(());
    }
    out.extend_from_slice(b" ")?;
    push_parameters(&media.parameters, out)?;
    push_placement(alloc, header, out)
}
