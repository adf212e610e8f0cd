//! What is in a shift: characters in UTF-16, in modified base64.

ghost use Rattle.std.specs.Prelude.{◌≡◌, ◌++◌, IfOk, OnOk, option_map};
ghost use Rattle.std.specs.String.{string_bytes};
ghost use Rattle.base64.specs.GeneralPurpose.{decoded_of};
ghost use Rattle.base64.specs.declared.engine.general_purpose.GeneralPurpose.{GeneralPurpose};
ghost use Rattle.base64.specs.Rfc4648.{encode_symbols};
ghost use Rattle.std.specs.Char.Escape.{encode_utf16};
ghost use Rattle.mailbox_utf7.specs.ModifiedUtf7.{octets_of_units, symbols, utf16_octets};
ghost use Rattle.mailbox_utf7.specs.Engine.{IsMailboxEngine};
ghost use Rattle.mailbox_utf7.specs.Reading.{text_of_shift, text_of_units, units_of};

use base64::DecodeAllocError;
use base64::alphabet::IMAP_MUTF7;
use base64::engine::GeneralPurpose;
use base64::engine::general_purpose::NO_PAD;
use std::alloc::{AllocError, Global};

/// The base64 of mailbox names.
pub fn mailbox_engine() -> GeneralPurpose
    ensures { IsMailboxEngine result }
{
    GeneralPurpose::new(&IMAP_MUTF7, NO_PAD)
}

/// Octets in modified base64.
pub fn modified_base64(alloc: Global, octets: &[u8]) -> Result<String, AllocError>
    ensures { IfOk result (λ text. string_bytes text ≡ encode_symbols symbols octets.now) }
{
    mailbox_engine().encode(alloc, octets)
}

/// Characters in UTF-16, the high octet of each unit first.
pub fn utf16_octets(alloc: Global, characters: &[char]) -> Result<Vec<u8>, AllocError>
    ensures { IfOk result (λ octets. octets.items ≡ utf16_octets characters.now) }
{
    let mut octets = Vec::new(alloc);
    for character in characters {
        let mut units = [0; 2];
        push_units(&mut octets, character.encode_utf16(&mut units))?;
    }
    Ok(octets)
}

/// 16-bit units, the high octet of each first.
fn push_units(octets: &mut Vec<u8>, units: &[u16]) -> Result<(), AllocError>
    ensures { OnOk result (octets.new.items ≡ octets.old.items ++ octets_of_units units.now) }
{
    for unit in units {
        octets.push((*unit / 256) as u8)?;
        octets.push((*unit % 256) as u8)?;
    }
    Ok(())
}

/// The text of a shift's symbols, `&` if there are none; `None` if they are no base64 of UTF-16.
pub fn text_of_shift(
    alloc: Global,
    engine: &GeneralPurpose,
    symbols: &[u8],
) -> Result<Option<String>, AllocError>
    ensures { IfOk result (λ text. option_map (λ t. string_bytes t) text
        ≡ text_of_shift (decoded_of engine.now) symbols.now) }
{
    if symbols.is_empty() {
        return Ok(Some(String::from_str(alloc, "&")?));
    }
    match engine.decode(alloc, symbols) {
        Err(DecodeAllocError::OutOfMemory) => Err(AllocError),
        Err(DecodeAllocError::DecodeError(_)) => Ok(None),
        Ok(octets) => text_of_octets(alloc, &octets),
    }
}

/// The text of UTF-16, the high octet of each unit first.
fn text_of_octets(alloc: Global, octets: &[u8]) -> Result<Option<String>, AllocError>
    ensures { IfOk result (λ text. option_map (λ t. string_bytes t) text
        ≡ text_of_units (units_of octets.now)) }
{
    let Some(units) = units_of(alloc, octets)? else {
        return Ok(None);
    };
    match String::from_utf16(alloc, &units)? {
        Ok(text) => Ok(Some(text)),
        Err(_) => Ok(None),
    }
}

/// The 16-bit units of octets; `None` if an octet is left over.
fn units_of(alloc: Global, octets: &[u8]) -> Result<Option<Vec<u16>>, AllocError>
    ensures { IfOk result (λ units. option_map (λ u. u.items) units ≡ units_of octets.now) }
{
    let mut units = Vec::new(alloc);
    let mut rest = octets;
    for _ in 0..octets.len() {
        match rest {
            [] => return Ok(Some(units)),
            [_] => return Ok(None),
            [high, low, tail @ ..] => {
                units.push(u16::from(*high) * 256 + u16::from(*low))?;
                rest = tail;
            }
        }
    }
    Ok(Some(units))
}
