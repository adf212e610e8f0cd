//! Printing of parameters (RFC 3501, section 7.4.2, body parameter parenthesized list). Each
//! function appends a text to `out`. An `Err`, if memory runs out, may leave part of it.

ghost use Rattle.std.specs.Prelude.{◌≡◌, ◌++◌, codes, IfOk, OnOk};
ghost use Rattle.std.specs.List.{list_any};
ghost use Rattle.body_print.specs.FieldTexts.{further_parameters, is_charset, parameters_value};
ghost use Rattle.body_print.specs.FieldTexts.{shown_parameters};
ghost use Rattle.body_print.specs.Values.{spaced_text, string_text, text_of};
ghost use Rattle.mail_parts.specs.ContentTypes.{is_same_word};

use crate::strings::{push_nil, push_string};
use imap_types::Octets;
use mail_fields::Parameter;
use std::alloc::{AllocError, Global};

/// Appends parameters, or NIL if there are none.
pub fn push_parameters(parameters: &[Parameter], out: &mut Vec<u8>) -> Result<(), AllocError>
    ensures { OnOk result
        (out.new.items ≡ out.old.items ++ text_of (parameters_value parameters.now)) }
{
    match parameters {
        [] => push_nil(out),
        [first, rest @ ..] => {
            out.extend_from_slice(b"(")?;
            push_parameter(first, out)?;
            push_further(rest, out)?;
            out.extend_from_slice(b")")
        }
    }
}

/// Appends a parameter's name and its value.
fn push_parameter(parameter: &Parameter, out: &mut Vec<u8>) -> Result<(), AllocError>
    ensures { OnOk result (out.new.items ≡ out.old.items ++ (string_text parameter.now.name
        ++ (codes " " ++ string_text parameter.now.value))) }
{
    push_string(parameter.name.as_bytes(), out)?;
    out.extend_from_slice(b" ")?;
    push_string(parameter.value.as_bytes(), out)
}

/// Appends parameters, each after a blank.
fn push_further(parameters: &[Parameter], out: &mut Vec<u8>) -> Result<(), AllocError>
    ensures { OnOk result
        (out.new.items ≡ out.old.items ++ spaced_text (further_parameters parameters.now)) }
{
    for parameter in parameters {
        out.extend_from_slice(b" ")?;
        push_parameter(parameter, out)?;
    }
    Ok(())
}

/// The parameters of a part: of a text without a charset also US-ASCII. `Err` if memory runs out.
pub fn shown_parameters(
    alloc: Global,
    is_text: bool,
    mut parameters: Vec<Parameter>,
) -> Result<Vec<Parameter>, AllocError>
    ensures { IfOk result (λ shown. shown.items ≡ shown_parameters is_text parameters.items) }
{
    if is_text && !has_charset(&parameters) {
        parameters.push(Parameter {
            name: Octets::from_slice(alloc, b"charset")?,
            value: Octets::from_slice(alloc, b"us-ascii")?,
        })?;
    }
    Ok(parameters)
}

/// Whether one of the parameters is a charset.
fn has_charset(parameters: &[Parameter]) -> bool
    ensures { result ≡ list_any is_charset parameters.now }
{
    for parameter in parameters {
        if is_same_word(b"charset", parameter.name.as_bytes()) {
            return true;
        }
    }
    false
}

/// Whether two texts are the same but for the case of ASCII letters.
pub fn is_same_word(one: &[u8], other: &[u8]) -> bool
    ensures { result ≡ is_same_word one.now other.now }
{
    one.eq_ignore_ascii_case(other)
}
