//! A name in modified UTF-7.

ghost use Rattle.std.specs.Prelude.{◌≡◌, ℕ, List, ◌∷◌, ◌++◌, IfOk, OnOk};
ghost use Rattle.mailbox_utf7.specs.ModifiedUtf7.{direct_octets, encoding_of, is_direct};
ghost use Rattle.mailbox_utf7.specs.Reading.{shift_if_any, spelling_after};

use crate::shifts::{modified_base64, utf16_octets};
use std::alloc::{AllocError, Global};

/// A name in modified UTF-7 (RFC 3501, section 5.1.3). Time is linear in its length. `Err` if
/// memory runs out.
pub fn encode(alloc: Global, name: &str) -> Result<Vec<u8>, AllocError>
    ensures { IfOk result (λ octets. octets.items ≡ encoding_of name.now) }
{
    let mut output = Vec::new(alloc);
    let mut pending = Vec::new(alloc);
    for character in name.chars() {
        push_character(alloc, &mut output, &mut pending, character)?;
    }
    push_shift(alloc, &mut output, &pending)?;
    Ok(output)
}

/// One more character, after the characters of a shift that has begun.
fn push_character(
    alloc: Global,
    output: &mut Vec<u8>,
    pending: &mut Vec<char>,
    character: char,
) -> Result<(), AllocError>
    ensures { OnOk result ((rest : List ℕ) →
        output.new.items ++ spelling_after pending.new.items rest
        ≡ output.old.items ++ spelling_after pending.old.items (character ∷ rest)) }
{
    if !is_direct(character) {
        return Ok(pending.push(character)?);
    }
    push_shift(alloc, output, pending)?;
    pending.clear();
    push_direct(output, character as u32 as u8)
}

/// Whether a character represents itself.
fn is_direct(character: char) -> bool
    ensures { result ≡ is_direct character }
{
    let code = character as u32;
    32 <= code && code <= 126
}

/// A printable character.
fn push_direct(output: &mut Vec<u8>, octet: u8) -> Result<(), AllocError>
    ensures { OnOk result (output.new.items ≡ output.old.items ++ direct_octets octet) }
{
    if octet == b'&' {
        output.extend_from_slice(b"&-")
    } else {
        Ok(output.push(octet)?)
    }
}

/// A shift, if it has characters.
fn push_shift(alloc: Global, output: &mut Vec<u8>, pending: &[char]) -> Result<(), AllocError>
    ensures { OnOk result (output.new.items ≡ output.old.items ++ shift_if_any pending.now) }
{
    if pending.is_empty() {
        return Ok(());
    }
    let octets = utf16_octets(alloc, pending)?;
    let symbols = modified_base64(alloc, &octets)?;
    output.push(b'&')?;
    output.extend_from_slice(symbols.as_bytes())?;
    Ok(output.push(b'-')?)
}
