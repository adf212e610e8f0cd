//! Words among the elements of a header field's value.

ghost use Rattle.std.specs.Prelude.{◌≡◌, length, IfOk, option_map};
ghost use Rattle.mail_fields.specs.Parameters.{token_of};
ghost use Rattle.mail_fields.specs.HeaderValues.{after_octet, after_word, skip_blanks, token_stops};
ghost use Rattle.mail_fields.specs.HeaderValues.{value_stops, word_of};
ghost use Rattle.mail_fields.specs.ElementReading.{is_blank_first, is_octet_first, word_octet};

use crate::elements::Element;
use std::alloc::{AllocError, Global};

/// What ends a token besides blanks, comments and quoted strings (RFC 2045, section 5.1,
/// tspecials).
const TOKEN_STOPS: &[u8] = b")<>@,;:\\/[]?=";

/// What ends a parameter's value besides blanks, comments and quoted strings.
const VALUE_STOPS: &[u8] = b")";

/// The first token, after blanks. `Err` if memory runs out.
pub fn token(alloc: Global, elements: &[Element]) -> Result<Vec<u8>, AllocError>
    ensures { IfOk result (λ token. token.items ≡ token_of elements.now) }
{
    word_of(alloc, TOKEN_STOPS, skip_blanks(elements))
}

/// The octets of a value that isn't quoted. `Err` if memory runs out.
pub fn unquoted_value(alloc: Global, elements: &[Element]) -> Result<Vec<u8>, AllocError>
    ensures { IfOk result (λ value. value.items ≡ word_of value_stops elements.now) }
{
    word_of(alloc, VALUE_STOPS, elements)
}

/// The octets at the beginning that none of these stops.
fn word_of(alloc: Global, stops: &[u8], elements: &[Element]) -> Result<Vec<u8>, AllocError>
    ensures { IfOk result (λ word. word.items ≡ word_of stops.now elements.now) }
{
    let mut word = Vec::new(alloc);
    for element in elements {
        let Some(octet) = word_octet(stops, element) else {
            return Ok(word);
        };
        word.push(octet)?;
    }
    Ok(word)
}

/// The octet that an element adds to a word, if none of these stops it.
fn word_octet(stops: &[u8], element: &Element) -> Option<u8>
    ensures { result ≡ word_octet stops.now element.now }
{
    match element {
        Element::Octet(octet) => {
            if stops.contains(octet) {
                None
            } else {
                Some(*octet)
            }
        }
        Element::Blank => None,
        Element::Comment(_) => None,
        Element::Quoted(_) => None,
    }
}

/// The elements after the first token, which has this number of octets.
pub fn word_end(elements: &[Element], size: usize) -> &[Element]
    requires { size ≡ length (word_of token_stops elements.now) }
    ensures { result.now ≡ after_word token_stops elements.now }
{
    elements.split_at(size).1
}

/// The elements after the blanks and comments at the beginning.
pub fn skip_blanks(elements: &[Element]) -> &[Element]
    ensures { result.now ≡ skip_blanks elements.now }
{
    let mut rest = elements;
    for _ in 0..elements.len() {
        if !is_blank_first(rest) {
            return rest;
        }
        rest = rest.split_at(1).1;
    }
    rest
}

/// Whether the first element is a blank or a comment.
fn is_blank_first(elements: &[Element]) -> bool
    ensures { result ≡ is_blank_first elements.now }
{
    if elements.is_empty() {
        return false;
    }
    match &elements[0] {
        Element::Blank => true,
        Element::Comment(_) => true,
        Element::Octet(_) => false,
        Element::Quoted(_) => false,
    }
}

/// What follows this octet, if the elements begin with it.
pub fn after_octet(octet: u8, elements: &[Element]) -> Option<&[Element]>
    ensures { option_map (λ rest. rest.now) result ≡ after_octet octet elements.now }
{
    if is_octet_first(octet, elements) {
        Some(elements.split_at(1).1)
    } else {
        None
    }
}

/// Whether the first element is this octet.
pub fn is_octet_first(sought: u8, elements: &[Element]) -> bool
    ensures { result ≡ is_octet_first sought elements.now }
{
    if elements.is_empty() {
        return false;
    }
    match &elements[0] {
        Element::Octet(octet) => *octet == sought,
        Element::Blank => false,
        Element::Comment(_) => false,
        Element::Quoted(_) => false,
    }
}
