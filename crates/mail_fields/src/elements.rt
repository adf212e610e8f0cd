//! The elements of a structured header field's value (RFC 5322, section 3.2).

ghost use Rattle.std.specs.Prelude.{◌≡◌, ◌+◌, ◌^◌, ◌<◌, ◌≤◌, ◌∷◌, ◌++◌, [], ℕ, List};
ghost use Rattle.std.specs.Prelude.{IfOk, OnOk};
ghost use Rattle.mail_fields.specs.HeaderValues.{depth_after, elements_of, elements_within};
ghost use Rattle.mail_fields.specs.HeaderValues.{is_line_end, is_space};
ghost use Rattle.mail_fields.specs.ElementReading.{depth_of};
ghost use Rattle.mail_fields.specs.declared.elements.Within.TheVariants.{Value, QuotedString};
ghost use Rattle.mail_fields.specs.declared.elements.Within.TheVariants.{Comments};

use imap_types::Octets;
use std::alloc::{AllocError, Global};

/// An element of a header field's value.
#[derive(Drop)]
pub enum Element {
    /// A blank, or an octet of a line's end.
    Blank,
    /// A comment: what is between its parentheses.
    Comment(Octets),
    /// An octet outside quoted strings and comments.
    Octet(u8),
    /// A quoted string: what it stands for.
    Quoted(Octets),
}

/// What a place of a value is within.
#[derive(Clone, Copy)]
pub enum Within {
    /// Neither a quoted string nor a comment.
    Value,
    /// A quoted string.
    QuotedString,
    /// A quoted string, after a backslash.
    QuotedPair,
    /// This number of comments, one within another.
    Comments(usize),
    /// This number of comments, after a backslash.
    CommentPair(usize),
}

/// The elements of a value. `Err` if memory runs out.
pub fn elements_of(alloc: Global, value: &[u8]) -> Result<Vec<Element>, AllocError>
    ensures { IfOk result (λ elements. elements.items ≡ elements_of value.now) }
{
    let mut elements = Vec::new(alloc);
    let mut text = Vec::new(alloc);
    let mut within = Within::Value;
    for octet in value {
        within = read_octet(alloc, within, *octet, &mut text, &mut elements)?;
    }
    end_value(within, text, &mut elements)?;
    Ok(elements)
}

/// Reads one more octet of a value, and gives what the next place is within.
fn read_octet(
    alloc: Global,
    within: Within,
    octet: u8,
    text: &mut Vec<u8>,
    elements: &mut Vec<Element>,
) -> Result<Within, AllocError>
    requires { depth_of within + 1 < 2 ^ 64 }
    ensures elements { IfOk result (λ next. (rest : List ℕ) →
        elements.new.items ++ elements_within next text.new.items rest
        ≡ elements.old.items ++ elements_within within text.old.items (octet ∷ rest)) }
    ensures depth { IfOk result (λ next. depth_of next ≤ depth_of within + 1) }
{
    match within {
        Within::Value => read_outside(octet, text, elements),
        Within::QuotedString => read_quoted(alloc, octet, text, elements),
        Within::QuotedPair => {
            text.push(octet)?;
            Ok(Within::QuotedString)
        }
        Within::Comments(depth) => read_comment(alloc, depth, octet, text, elements),
        Within::CommentPair(depth) => {
            text.push(octet)?;
            Ok(Within::Comments(depth))
        }
    }
}

/// Reads an octet outside quoted strings and comments.
fn read_outside(
    octet: u8,
    text: &mut Vec<u8>,
    elements: &mut Vec<Element>,
) -> Result<Within, AllocError>
    ensures elements { IfOk result (λ next. (rest : List ℕ) →
        elements.new.items ++ elements_within next text.new.items rest
        ≡ elements.old.items ++ elements_within Value text.old.items (octet ∷ rest)) }
    ensures depth { IfOk result (λ next. depth_of next ≤ 1) }
{
    if octet == b'"' {
        text.clear();
        return Ok(Within::QuotedString);
    }
    if octet == b'(' {
        text.clear();
        return Ok(Within::Comments(1));
    }
    if is_space(octet) {
        elements.push(Element::Blank)?;
        return Ok(Within::Value);
    }
    elements.push(Element::Octet(octet))?;
    Ok(Within::Value)
}

/// Whether an octet is a blank or of a line's end.
fn is_space(octet: u8) -> bool
    ensures { result ≡ is_space octet }
{
    octet == b' ' || (octet == b'\t' || (octet == b'\r' || octet == b'\n'))
}

/// Reads an octet of a quoted string.
fn read_quoted(
    alloc: Global,
    octet: u8,
    text: &mut Vec<u8>,
    elements: &mut Vec<Element>,
) -> Result<Within, AllocError>
    ensures elements { IfOk result (λ next. (rest : List ℕ) →
        elements.new.items ++ elements_within next text.new.items rest
        ≡ elements.old.items ++ elements_within QuotedString text.old.items (octet ∷ rest)) }
    ensures depth { IfOk result (λ next. depth_of next ≤ 1) }
{
    if octet == b'\\' {
        return Ok(Within::QuotedPair);
    }
    if octet == b'"' {
        elements.push(Element::Quoted(Octets::from_slice(alloc, text)?))?;
        return Ok(Within::Value);
    }
    if is_line_end(octet) {
        return Ok(Within::QuotedString);
    }
    text.push(octet)?;
    Ok(Within::QuotedString)
}

/// Whether an octet is of a line's end.
fn is_line_end(octet: u8) -> bool
    ensures { result ≡ is_line_end octet }
{
    octet == b'\r' || octet == b'\n'
}

/// Reads an octet of this number of comments.
fn read_comment(
    alloc: Global,
    depth: usize,
    octet: u8,
    text: &mut Vec<u8>,
    elements: &mut Vec<Element>,
) -> Result<Within, AllocError>
    requires { depth + 1 < 2 ^ 64 }
    ensures elements { IfOk result (λ next. (rest : List ℕ) →
        elements.new.items ++ elements_within next text.new.items rest
        ≡ elements.old.items ++ elements_within (Comments depth) text.old.items (octet ∷ rest)) }
    ensures depth { IfOk result (λ next. depth_of next ≤ depth + 1) }
{
    if octet == b'\\' {
        return Ok(Within::CommentPair(depth));
    }
    if octet == b')' && depth == 1 {
        elements.push(Element::Comment(Octets::from_slice(alloc, text)?))?;
        return Ok(Within::Value);
    }
    if is_line_end(octet) {
        return Ok(Within::Comments(depth));
    }
    text.push(octet)?;
    Ok(Within::Comments(depth_after(depth, octet)))
}

/// The number of comments that the next place is within, if it is within comments.
fn depth_after(depth: usize, octet: u8) -> usize
    requires { depth + 1 < 2 ^ 64 }
    ensures after { result ≡ depth_after depth octet }
    ensures bound { result ≤ depth + 1 }
{
    if octet == b'(' {
        return depth + 1;
    }
    if octet == b')' {
        return depth.saturating_sub(1);
    }
    depth
}

/// The value's end.
fn end_value(
    within: Within,
    mut text: Vec<u8>,
    elements: &mut Vec<Element>,
) -> Result<(), AllocError>
    ensures { OnOk result
        (elements.new.items ≡ elements.old.items ++ elements_within within text.items []) }
{
    match within {
        Within::Value => Ok(()),
        Within::QuotedString => Ok(elements.push(Element::Quoted(Octets::new(text)))?),
        Within::QuotedPair => {
            text.push(b'\\')?;
            Ok(elements.push(Element::Quoted(Octets::new(text)))?)
        }
        Within::Comments(_) => Ok(elements.push(Element::Comment(Octets::new(text)))?),
        Within::CommentPair(_) => {
            text.push(b'\\')?;
            Ok(elements.push(Element::Comment(Octets::new(text)))?)
        }
    }
}
