//! Printing of strings, NIL and numbers (RFC 3501, sections 4.2 and 4.3). Each function appends a
//! text to `out`. An `Err`, if memory runs out, may leave part of it.

ghost use Rattle.std.specs.Prelude.{◌≡◌, ◌∷◌, ◌++◌, ℕ, List, length, OnOk};
ghost use Rattle.std.specs.Fmt.{decimal};
ghost use Rattle.std.specs.List.{list_all};
ghost use Rattle.body_print.specs.FieldTexts.{text_or_nil};
ghost use Rattle.body_print.specs.Values.{escaped, is_quotable, literal, quoted, string_text};
ghost use Rattle.body_print.specs.Values.{text_of};
ghost use Rattle.body_print.specs.Values.Value.{NilValue};

use itoa::Buffer;
use std::alloc::AllocError;

/// Appends NIL.
pub fn push_nil(out: &mut Vec<u8>) -> Result<(), AllocError>
    ensures { OnOk result (out.new.items ≡ out.old.items ++ text_of NilValue) }
{
    out.extend_from_slice(b"NIL")
}

/// Appends a number in decimal digits without leading zeros.
pub fn push_number(number: usize, out: &mut Vec<u8>) -> Result<(), AllocError>
    ensures { OnOk result (out.new.items ≡ out.old.items ++ decimal number) }
{
    let mut buffer = Buffer::new();
    out.extend_from_slice(buffer.format(number as u64).as_bytes())
}

/// Appends a string, or NIL if it is empty.
pub fn push_text_or_nil(text: &[u8], out: &mut Vec<u8>) -> Result<(), AllocError>
    ensures { OnOk result (out.new.items ≡ out.old.items ++ text_of (text_or_nil text.now)) }
{
    if text.is_empty() {
        return push_nil(out);
    }
    push_string(text, out)
}

/// Appends a string: between quotes if possible, else as a literal.
pub fn push_string(octets: &[u8], out: &mut Vec<u8>) -> Result<(), AllocError>
    ensures { OnOk result (out.new.items ≡ out.old.items ++ string_text octets.now) }
{
    if are_quotable(octets) {
        push_quoted(octets, out)
    } else {
        push_literal(octets, out)
    }
}

/// Whether octets may be between quotes.
fn are_quotable(octets: &[u8]) -> bool
    ensures { result ≡ list_all is_quotable octets.now }
{
    for octet in octets {
        if !is_quotable(*octet) {
            return false;
        }
    }
    true
}

/// Whether an octet may be between quotes.
fn is_quotable(octet: u8) -> bool
    ensures { result ≡ is_quotable octet }
{
    octet < 128 && !(octet == 0 || (octet == b'\r' || octet == b'\n'))
}

/// Appends octets between quotes.
fn push_quoted(octets: &[u8], out: &mut Vec<u8>) -> Result<(), AllocError>
    ensures { OnOk result (out.new.items ≡ out.old.items ++ quoted octets.now) }
{
    out.extend_from_slice(b"\"")?;
    push_escaped(octets, out)?;
    out.extend_from_slice(b"\"")
}

/// Appends octets with their escapes.
fn push_escaped(octets: &[u8], out: &mut Vec<u8>) -> Result<(), AllocError>
    ensures { OnOk result (out.new.items ≡ out.old.items ++ escaped octets.now) }
{
    for octet in octets {
        push_escaped_octet(*octet, out)?;
    }
    Ok(())
}

/// Appends an octet, after a `\` if it needs one.
fn push_escaped_octet(octet: u8, out: &mut Vec<u8>) -> Result<(), AllocError>
    ensures { (rest : List ℕ) → OnOk result
        (out.new.items ++ escaped rest ≡ out.old.items ++ escaped (octet ∷ rest)) }
{
    if octet == b'"' || octet == b'\\' {
        out.extend_from_slice(&[b'\\', octet])
    } else {
        out.extend_from_slice(&[octet])
    }
}

/// Appends octets as a literal.
fn push_literal(octets: &[u8], out: &mut Vec<u8>) -> Result<(), AllocError>
    ensures { OnOk result (out.new.items ≡ out.old.items ++ literal octets.now) }
{
    out.extend_from_slice(b"{")?;
    push_number(octets.len(), out)?;
    out.extend_from_slice(b"}\r\n")?;
    out.extend_from_slice(octets)
}
