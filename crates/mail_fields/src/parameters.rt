//! Types with parameters (RFC 2045, section 5.1; RFC 2183, section 2).

ghost use Rattle.std.specs.Prelude.{◌≡◌, ◌++◌, length, IfOk, OnOk, option_map};
ghost use Rattle.mail_fields.specs.ElementReading.{more_sections};
ghost use Rattle.mail_fields.specs.Parameters.{after_token_and, media_type_of, parameter_of};
ghost use Rattle.mail_fields.specs.Parameters.{parameters_of, token_of, token_with_parameters};
ghost use Rattle.mail_fields.specs.Parameters.{type_names_of, value_of};

use crate::element_words::{after_octet, skip_blanks, token, unquoted_value, word_end};
use crate::elements::{Element, elements_of};
use crate::sections::section_size;
use imap_types::Octets;
use std::alloc::{AllocError, Global};

/// A parameter, as it is written.
#[derive(Drop)]
pub struct Parameter {
    /// Its name, at least one octet.
    pub name: Octets,
    /// Its value, without quotes.
    pub value: Octets,
}

/// A type with its parameters.
#[derive(Drop)]
pub struct MediaType {
    /// The type, at least one octet.
    pub major: Octets,
    /// The subtype, at least one octet.
    pub minor: Octets,
    /// The parameters, in their order.
    pub parameters: Vec<Parameter>,
}

/// A token with its parameters.
#[derive(Drop)]
pub struct TokenWithParameters {
    /// The token, at least one octet.
    pub token: Octets,
    /// The parameters, in their order.
    pub parameters: Vec<Parameter>,
}

/// A type and a subtype.
#[derive(Drop)]
struct TypeNames {
    major: Octets,
    minor: Octets,
}

/// The type, subtype and parameters of a Content-Type's value; `None` if it has no `type/subtype`.
/// Time is linear in the value's length. `Err` if memory runs out.
pub fn media_type(alloc: Global, value: &[u8]) -> Result<Option<MediaType>, AllocError>
    ensures { IfOk result
        (λ media. option_map (λ m. ((m.major, m.minor), m.parameters.items)) media
        ≡ media_type_of value.now) }
{
    let elements = elements_of(alloc, value)?;
    let (section, rest) = elements.split_at(section_size(&elements));
    let Some(names) = type_names_of(alloc, section)? else {
        return Ok(None);
    };
    let parameters = parameters_of(alloc, rest)?;
    Ok(Some(MediaType {
        major: names.major,
        minor: names.minor,
        parameters,
    }))
}

/// The token and parameters of a value such as a Content-Disposition's; `None` if it has no token.
/// Time is linear in the value's length. `Err` if memory runs out.
pub fn token_with_parameters(
    alloc: Global,
    value: &[u8],
) -> Result<Option<TokenWithParameters>, AllocError>
    ensures { IfOk result (λ found. option_map (λ t. (t.token, t.parameters.items)) found
        ≡ token_with_parameters value.now) }
{
    let elements = elements_of(alloc, value)?;
    let (section, rest) = elements.split_at(section_size(&elements));
    let token = token(alloc, section)?;
    if token.is_empty() {
        return Ok(None);
    }
    let parameters = parameters_of(alloc, rest)?;
    Ok(Some(TokenWithParameters {
        token: Octets::new(token),
        parameters,
    }))
}

/// The type and subtype in a section, if it has both with a slash between them.
fn type_names_of(alloc: Global, section: &[Element]) -> Result<Option<TypeNames>, AllocError>
    ensures { IfOk result (λ names. option_map (λ n. (n.major, n.minor)) names
        ≡ type_names_of section.now) }
{
    let major = token(alloc, section)?;
    let Some(rest) = after_token_and(section, major.len(), b'/') else {
        return Ok(None);
    };
    let minor = token(alloc, rest)?;
    if major.is_empty() || minor.is_empty() {
        return Ok(None);
    }
    Ok(Some(TypeNames {
        major: Octets::new(major),
        minor: Octets::new(minor),
    }))
}

/// The elements after the first token, which has this number of octets, and an octet, with blanks
/// around them.
fn after_token_and(elements: &[Element], size: usize, octet: u8) -> Option<&[Element]>
    requires { size ≡ length (token_of elements.now) }
    ensures { option_map (λ rest. rest.now) result ≡ after_token_and octet elements.now }
{
    after_octet(octet, skip_blanks(word_end(skip_blanks(elements), size)))
}

/// The parameters in sections, each after a semicolon.
fn parameters_of(alloc: Global, elements: &[Element]) -> Result<Vec<Parameter>, AllocError>
    ensures { IfOk result (λ parameters. parameters.items
        ≡ parameters_of (more_sections elements.now)) }
{
    let mut parameters = Vec::new(alloc);
    let mut rest = elements;
    for _ in 0..elements.len() {
        if rest.is_empty() {
            return Ok(parameters);
        }
        let (_, tail) = rest.split_at(1);
        let (section, next) = tail.split_at(section_size(tail));
        push_parameter(alloc, section, &mut parameters)?;
        rest = next;
    }
    Ok(parameters)
}

/// The parameter that a section is, if it is one.
fn push_parameter(
    alloc: Global,
    section: &[Element],
    parameters: &mut Vec<Parameter>,
) -> Result<(), AllocError>
    ensures { OnOk result
        (parameters.new.items ≡ parameters.old.items ++ parameter_of section.now) }
{
    let name = token(alloc, section)?;
    let Some(rest) = after_token_and(section, name.len(), b'=') else {
        return Ok(());
    };
    if name.is_empty() {
        return Ok(());
    }
    let value = value_of(alloc, skip_blanks(rest))?;
    Ok(parameters.push(Parameter {
        name: Octets::new(name),
        value: Octets::new(value),
    })?)
}

/// A parameter's value: a quoted string, or octets up to a blank.
fn value_of(alloc: Global, elements: &[Element]) -> Result<Vec<u8>, AllocError>
    ensures { IfOk result (λ value. value.items ≡ value_of elements.now) }
{
    if elements.is_empty() {
        return Ok(Vec::new(alloc));
    }
    match &elements[0] {
        Element::Quoted(text) => text.as_bytes().to_vec(alloc),
        Element::Blank => Ok(Vec::new(alloc)),
        Element::Comment(_) => Ok(Vec::new(alloc)),
        Element::Octet(_) => unquoted_value(alloc, elements),
    }
}
