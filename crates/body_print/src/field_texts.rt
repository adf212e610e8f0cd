//! Printing of header fields (RFC 3501, section 7.4.2). Each function appends a text to `out`. An
//! `Err`, if memory runs out, may leave part of it.

ghost use Rattle.std.specs.Prelude.{◌≡◌, ◌∷◌, ◌++◌, codes, false, ℕ, List, IfOk, OnOk};
ghost use Rattle.mail_text.specs.TextSearch.{field_value};
ghost use Rattle.body_print.specs.Envelopes.{field_named};
ghost use Rattle.body_print.specs.FieldTexts.{disposition_value, encoding_of, field_text};
ghost use Rattle.body_print.specs.FieldTexts.{further_words, languages_value, some_field_or_nil};
ghost use Rattle.body_print.specs.FieldTexts.{unfolded_after, words_value};
ghost use Rattle.body_print.specs.Values.{spaced_text, string_text, text_of};

use crate::parameters::push_parameters;
use crate::strings::{push_nil, push_string, push_text_or_nil};
use imap_types::Octets;
use mail_fields::{token_with_parameters, trimmed, words_of};
use mail_text::field_value;
use std::alloc::{AllocError, Global};

/// Appends the first field of this name, or NIL if there is none.
pub fn push_field(
    alloc: Global,
    header: &[u8],
    name: &[u8],
    out: &mut Vec<u8>,
) -> Result<(), AllocError>
    ensures { OnOk result
        (out.new.items ≡ out.old.items ++ text_of (field_named name.now header.now)) }
{
    let Some(value) = field_value(header, name) else {
        return push_nil(out);
    };
    let text = unfolded(alloc, value)?;
    push_string(trimmed(&text), out)
}

/// Appends the first field of this name, or NIL if there is none or it is empty.
pub fn push_some_field(
    alloc: Global,
    header: &[u8],
    name: &[u8],
    out: &mut Vec<u8>,
) -> Result<(), AllocError>
    ensures { OnOk result (out.new.items
        ≡ out.old.items ++ text_of (some_field_or_nil (field_value name.now header.now))) }
{
    let Some(value) = field_value(header, name) else {
        return push_nil(out);
    };
    let text = unfolded(alloc, value)?;
    push_text_or_nil(trimmed(&text), out)
}

/// A value without the CRLFs that fold it.
fn unfolded(alloc: Global, value: &[u8]) -> Result<Vec<u8>, AllocError>
    ensures { IfOk result (λ text. text.items ≡ unfolded_after false value.now) }
{
    let mut text = Vec::new(alloc);
    let mut after_cr = false;
    for octet in value {
        after_cr = push_unfolded(after_cr, *octet, &mut text)?;
    }
    if after_cr {
        text.push(b'\r')?;
    }
    Ok(text)
}

/// Appends an octet, and the CR before it, if they aren't a CRLF. Gives whether the octet is a CR,
/// which isn't appended yet.
fn push_unfolded(after_cr: bool, octet: u8, text: &mut Vec<u8>) -> Result<bool, AllocError>
    ensures { IfOk result (λ next. (rest : List ℕ) →
        text.new.items ++ unfolded_after next rest
        ≡ text.old.items ++ unfolded_after after_cr (octet ∷ rest)) }
{
    if after_cr {
        if octet == b'\n' {
            return Ok(false);
        }
        text.push(b'\r')?;
    }
    if octet == b'\r' {
        return Ok(true);
    }
    text.push(octet)?;
    Ok(false)
}

/// Appends the Content-Transfer-Encoding.
pub fn push_encoding(alloc: Global, header: &[u8], out: &mut Vec<u8>) -> Result<(), AllocError>
    ensures { OnOk result (out.new.items ≡ out.old.items ++ string_text
        (encoding_of (field_value (codes "Content-Transfer-Encoding") header.now))) }
{
    let Some(value) = field_value(header, b"Content-Transfer-Encoding") else {
        return push_string(b"7bit", out);
    };
    match token_with_parameters(alloc, value)? {
        None => push_string(b"7bit", out),
        Some(found) => push_string(found.token.as_bytes(), out),
    }
}

/// Appends the Content-Disposition.
pub fn push_disposition(alloc: Global, header: &[u8], out: &mut Vec<u8>) -> Result<(), AllocError>
    ensures { OnOk result (out.new.items ≡ out.old.items ++ text_of
        (disposition_value (field_value (codes "Content-Disposition") header.now))) }
{
    let Some(value) = field_value(header, b"Content-Disposition") else {
        return push_nil(out);
    };
    match token_with_parameters(alloc, value)? {
        None => push_nil(out),
        Some(found) => {
            out.extend_from_slice(b"(")?;
            push_string(found.token.as_bytes(), out)?;
            out.extend_from_slice(b" ")?;
            push_parameters(&found.parameters, out)?;
            out.extend_from_slice(b")")
        }
    }
}

/// Appends the Content-Language.
pub fn push_languages(alloc: Global, header: &[u8], out: &mut Vec<u8>) -> Result<(), AllocError>
    ensures { OnOk result (out.new.items ≡ out.old.items ++ text_of
        (languages_value (field_value (codes "Content-Language") header.now))) }
{
    match field_value(header, b"Content-Language") {
        None => push_nil(out),
        Some(value) => push_words(&words_of(alloc, value)?, out),
    }
}

/// Appends a list of words, or NIL if there are none.
fn push_words(words: &[Octets], out: &mut Vec<u8>) -> Result<(), AllocError>
    ensures { OnOk result (out.new.items ≡ out.old.items ++ text_of (words_value words.now)) }
{
    match words {
        [] => push_nil(out),
        [first, rest @ ..] => {
            out.extend_from_slice(b"(")?;
            push_string(first.as_bytes(), out)?;
            push_further_words(rest, out)?;
            out.extend_from_slice(b")")
        }
    }
}

/// Appends words, each after a blank.
fn push_further_words(words: &[Octets], out: &mut Vec<u8>) -> Result<(), AllocError>
    ensures { OnOk result
        (out.new.items ≡ out.old.items ++ spaced_text (further_words words.now)) }
{
    for word in words {
        out.extend_from_slice(b" ")?;
        push_string(word.as_bytes(), out)?;
    }
    Ok(())
}
