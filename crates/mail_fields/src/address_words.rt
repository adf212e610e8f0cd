//! The words of an address: phrases, local parts and domains (RFC 5322, sections 3.2.5, 3.4 and
//! 4.4).

ghost use Rattle.std.specs.Prelude.{◌≡◌, ◌≤◌, ◌∷◌, ◌++◌, List, length, IfOk, OnOk};
ghost use Rattle.mail_fields.specs.AddressWords.{after_blank, after_element, begins_run};
ghost use Rattle.mail_fields.specs.AddressWords.{blank_after, comment_of, count_before};
ghost use Rattle.mail_fields.specs.AddressWords.{domain_of, ends_domain, is_among, joined_text};
ghost use Rattle.mail_fields.specs.AddressWords.{octets_of, phrase_after, phrase_of, run_start};
ghost use Rattle.mail_fields.specs.AddressWords.{trimmed};

use crate::elements::Element;
use std::alloc::{AllocError, Global};

/// What ends a domain besides quoted strings and blanks.
const DOMAIN_ENDS: &[u8] = b"<>,;@)";

/// What comes before a place among words.
#[derive(Clone, Copy)]
pub enum Before {
    /// Nothing, or nothing that parts what follows from it.
    Nothing,
    /// A word.
    Word,
    /// A word, then blanks or a comment.
    Blanks,
}

/// The number of elements before the first of these octets, or of all.
pub fn count_before(sought: &[u8], elements: &[Element]) -> usize
    ensures count { result ≡ count_before sought.now elements.now }
    ensures within { result ≤ length elements.now }
{
    for place in 0..elements.len() {
        if is_among(sought, &elements[place]) {
            return place;
        }
    }
    elements.len()
}

/// Whether an element is one of these octets.
pub fn is_among(sought: &[u8], element: &Element) -> bool
    ensures { result ≡ is_among sought.now element.now }
{
    match element {
        Element::Blank => false,
        Element::Comment(_) => false,
        Element::Octet(octet) => sought.contains(octet),
        Element::Quoted(_) => false,
    }
}

/// The text of elements without blanks and comments. `Err` if memory runs out.
pub fn joined_text(alloc: Global, elements: &[Element]) -> Result<Vec<u8>, AllocError>
    ensures { IfOk result (λ text. text.items ≡ joined_text elements.now) }
{
    let mut text = Vec::new(alloc);
    for element in elements {
        push_octets(element, &mut text)?;
    }
    Ok(text)
}

/// Appends what an element is in a text.
pub fn push_octets(element: &Element, text: &mut Vec<u8>) -> Result<(), AllocError>
    ensures { OnOk result (text.new.items ≡ text.old.items ++ octets_of element.now) }
{
    match element {
        Element::Blank => Ok(()),
        Element::Comment(_) => Ok(()),
        Element::Octet(octet) => Ok(text.push(*octet)?),
        Element::Quoted(octets) => text.extend_from_slice(octets.as_bytes()),
    }
}

/// The text of a phrase. `Err` if memory runs out.
pub fn phrase_of(alloc: Global, elements: &[Element]) -> Result<Vec<u8>, AllocError>
    ensures { IfOk result (λ text. text.items ≡ phrase_of elements.now) }
{
    let mut text = Vec::new(alloc);
    let mut before = Before::Nothing;
    for element in elements {
        before = push_word(before, element, &mut text)?;
    }
    Ok(text)
}

/// Appends what an element adds to a phrase, and gives what comes before the next element.
fn push_word(before: Before, element: &Element, text: &mut Vec<u8>) -> Result<Before, AllocError>
    ensures { IfOk result (λ next. (rest : List Element) →
        text.new.items ++ phrase_after next rest
        ≡ text.old.items ++ phrase_after before (element.now ∷ rest)) }
{
    match element {
        Element::Blank => Ok(after_blank(before)),
        Element::Comment(_) => Ok(after_blank(before)),
        Element::Octet(octet) => {
            push_blank(before, text)?;
            text.push(*octet)?;
            Ok(Before::Word)
        }
        Element::Quoted(octets) => {
            if octets.as_bytes().is_empty() {
                return Ok(before);
            }
            push_blank(before, text)?;
            text.extend_from_slice(octets.as_bytes())?;
            Ok(Before::Word)
        }
    }
}

/// Appends the blank between two words, if a word comes after them.
fn push_blank(before: Before, text: &mut Vec<u8>) -> Result<(), AllocError>
    ensures { OnOk result (text.new.items ≡ text.old.items ++ blank_after before) }
{
    match before {
        Before::Nothing => Ok(()),
        Before::Word => Ok(()),
        Before::Blanks => Ok(text.push(b' ')?),
    }
}

/// What comes before a place that is after blanks.
fn after_blank(before: Before) -> Before
    ensures { result ≡ after_blank before }
{
    match before {
        Before::Nothing => Before::Nothing,
        Before::Word => Before::Blanks,
        Before::Blanks => Before::Blanks,
    }
}

/// What comes before the place after an element.
fn after_element(before: Before, element: &Element) -> Before
    ensures { result ≡ after_element before element.now }
{
    match element {
        Element::Blank => after_blank(before),
        Element::Comment(_) => after_blank(before),
        Element::Octet(octet) => {
            if *octet == b'.' {
                Before::Nothing
            } else {
                Before::Word
            }
        }
        Element::Quoted(_) => Before::Word,
    }
}

/// Whether a run of words begins with an element.
fn begins_run(before: Before, element: &Element) -> bool
    ensures { result ≡ begins_run before element.now }
{
    match before {
        Before::Nothing => false,
        Before::Word => false,
        Before::Blanks => match element {
            Element::Blank => false,
            Element::Comment(_) => false,
            Element::Octet(octet) => *octet != b'.',
            Element::Quoted(_) => true,
        },
    }
}

/// The number of elements before the last run of words.
pub fn run_start(elements: &[Element]) -> usize
    ensures start { result ≡ run_start elements.now }
    ensures within { result ≤ length elements.now }
{
    let mut start = 0;
    let mut before = Before::Nothing;
    for place in 0..elements.len() {
        let element = &elements[place];
        if begins_run(before, element) {
            start = place;
        }
        before = after_element(before, element);
    }
    start
}

/// The domain at the beginning of elements. `Err` if memory runs out.
pub fn domain_of(alloc: Global, elements: &[Element]) -> Result<Vec<u8>, AllocError>
    ensures { IfOk result (λ domain. domain.items ≡ domain_of elements.now) }
{
    let mut domain = Vec::new(alloc);
    let mut before = Before::Nothing;
    for element in elements {
        if begins_run(before, element) || ends_domain(element) {
            return Ok(domain);
        }
        push_octets(element, &mut domain)?;
        before = after_element(before, element);
    }
    Ok(domain)
}

/// Whether a domain ends before an element.
fn ends_domain(element: &Element) -> bool
    ensures { result ≡ ends_domain element.now }
{
    match element {
        Element::Blank => false,
        Element::Comment(_) => false,
        Element::Octet(octet) => DOMAIN_ENDS.contains(octet),
        Element::Quoted(_) => true,
    }
}

/// The last comment after all words, without white space at its ends; an empty text if there is
/// none.
pub fn comment_of(elements: &[Element]) -> &[u8]
    ensures { result.now ≡ comment_of elements.now }
{
    let nothing: &[u8] = b"";
    let mut latest = nothing;
    for element in elements {
        latest = match element {
            Element::Blank => latest,
            Element::Comment(text) => trimmed(text.as_bytes()),
            Element::Octet(_) => nothing,
            Element::Quoted(_) => nothing,
        };
    }
    latest
}

/// A text without white space at its ends.
pub fn trimmed(text: &[u8]) -> &[u8]
    ensures { result.now ≡ trimmed text.now }
{
    text.trim_ascii_start().trim_ascii_end()
}
