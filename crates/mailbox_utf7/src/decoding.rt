//! The name of which octets are the modified UTF-7.

ghost use Rattle.std.specs.Prelude.{◌≡◌, ℕ, false, List, [], ◌∷◌, Option, IfOk, option_map};
ghost use Rattle.std.specs.String.{string_bytes};
ghost use Rattle.base64.specs.GeneralPurpose.{decoded_of};
ghost use Rattle.mailbox_utf7.specs.ModifiedUtf7.{IsDecoding};
ghost use Rattle.mailbox_utf7.specs.Reading.{text_read, text_read_after, text_read_next};

use crate::encoding::encode;
use crate::shifts::{mailbox_engine, text_of_shift};
use base64::engine::GeneralPurpose;
use std::alloc::{AllocError, Global};

/// The name of which octets are the modified UTF-7 (RFC 3501, section 5.1.3); `None` if they are
/// that of no name. Time is linear in their number. `Err` if memory runs out.
pub fn decode(alloc: Global, octets: &[u8]) -> Result<Option<String>, AllocError>
    ensures { IfOk result (λ name. IsDecoding octets.now (option_map (λ n. string_bytes n) name)) }
{
    let engine = mailbox_engine();
    let Some(name) = read(alloc, &engine, octets)? else {
        return Ok(None);
    };
    let encoding = encode(alloc, &name)?;
    if encoding.as_slice() != octets {
        return Ok(None);
    }
    Ok(Some(name))
}

/// The text that octets have if they are an encoding. It is read loosely: what isn't the one
/// encoding may have a text too.
fn read(alloc: Global, engine: &GeneralPurpose, octets: &[u8]) -> Result<Option<String>, AllocError>
    ensures { IfOk result (λ name. option_map (λ n. string_bytes n) name
        ≡ text_read (decoded_of engine.now) false [] octets.now) }
{
    let mut name = String::new(alloc);
    let mut symbols = Vec::new(alloc);
    let mut is_shifted = false;
    for octet in octets {
        let next = read_octet(alloc, engine, &mut name, &mut symbols, is_shifted, *octet)?;
        let Some(next) = next else {
            return Ok(None);
        };
        is_shifted = next;
    }
    if is_shifted {
        return Ok(None);
    }
    Ok(Some(name))
}

/// Reads one more octet, and gives whether it is in a shift or begins one; `None` if a shift has
/// no text.
fn read_octet(
    alloc: Global,
    engine: &GeneralPurpose,
    name: &mut String,
    symbols: &mut Vec<u8>,
    is_shifted: bool,
    octet: u8,
) -> Result<Option<bool>, AllocError>
    ensures { IfOk result (λ next. (rest : List ℕ) →
        text_read_after (decoded_of engine.now) (string_bytes name.old) is_shifted
        symbols.old.items (octet ∷ rest)
        ≡ text_read_next (decoded_of engine.now) (string_bytes name.new) next
        symbols.new.items rest) }
{
    if !is_shifted {
        return read_direct(name, symbols, octet);
    }
    if octet != b'-' {
        symbols.push(octet)?;
        return Ok(Some(true));
    }
    let Some(text) = text_of_shift(alloc, engine, symbols)? else {
        return Ok(None);
    };
    name.push_str(&text)?;
    symbols.clear();
    Ok(Some(false))
}

/// Reads an octet outside a shift, and gives whether it begins one.
fn read_direct(
    name: &mut String,
    symbols: &mut Vec<u8>,
    octet: u8,
) -> Result<Option<bool>, AllocError>
    ensures { IfOk result (λ next. (base64 : List ℕ → Option (List ℕ)) (rest : List ℕ) →
        text_read_after base64 (string_bytes name.old) false symbols.old.items (octet ∷ rest)
        ≡ text_read_next base64 (string_bytes name.new) next symbols.new.items rest) }
{
    symbols.clear();
    if octet == b'&' {
        return Ok(Some(true));
    }
    name.push(char::from(octet))?;
    Ok(Some(false))
}
