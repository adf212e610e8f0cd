//! Lines: a checksum in eight hexadecimal digits, a space, a text, and a line end.

ghost use Rattle.std.specs.Prelude.{◌≡◌, ◌++◌, ◌<◌, ℕ, List, [], MatchOption, None, OnErr, OnOk};
ghost use Rattle.std.specs.Prelude.{Some, false, true};
ghost use Rattle.crdt_ops.specs.Reading.{cut_at};
ghost use Rattle.std.specs.Option.{option_map};
ghost use Rattle.std.specs.Str.{bytes_eq};
ghost use Rattle.op_log.specs.Lines.{IsText, checksum_field, hex_digit, line_of, line_text};
ghost use Rattle.op_log.specs.Lines.{recovered_texts};

use crc32c::Crc32c;
use std::alloc::AllocError;
use text_fields::split;

/// The number of octets before a text: eight digits and a space.
const CHECKSUM_OCTETS: usize = 9;

/// Appends the line of a text, which has no line end. `Err` if memory runs out; `log` is unchanged
/// then.
pub fn push_line(checksums: &Crc32c, text: &[u8], log: &mut Vec<u8>) -> Result<(), AllocError>
    requires { IsText text.now }
    ensures ok { OnOk result (log.new.items ≡ log.old.items ++ line_of text.now) }
    ensures err { OnErr result (log.new.items ≡ log.old.items) }
{
    let start = log.len();
    if let Err(e) = push_line_parts(checksums, text, log) {
        log.truncate(start);
        return Err(e);
    }
    Ok(())
}

/// Appends the line of a text; after an `Err`, maybe a part of it.
fn push_line_parts(checksums: &Crc32c, text: &[u8], log: &mut Vec<u8>) -> Result<(), AllocError>
    ensures ok { OnOk result (log.new.items ≡ log.old.items ++ line_of text.now) }
    ensures extends { (more : List ℕ) × (log.new.items ≡ log.old.items ++ more) }
{
    log.extend_from_slice(&checksum_field(checksums, text))?;
    log.extend_from_slice(text)?;
    log.push(b'\n')?;
    Ok(())
}

/// The text of the first line, and the octets after that line; `None` if the line is unfinished, or
/// its checksum isn't that of its text.
pub fn first_text<'a>(checksums: &Crc32c, log: &'a [u8]) -> Option<(&'a [u8], &'a [u8])>
    ensures { MatchOption result (recovered_texts log.now ≡ [])
        (λ parts. (log.now ≡ line_of parts.0.now ++ parts.1.now) × IsText parts.0.now) }
{
    let (line, after) = split(b'\n', log)?;
    let text = line_text(checksums, line)?;
    Some((text, after))
}

/// Whether there is a line end among these octets.
pub fn has_line_end(octets: &[u8]) -> bool
    ensures some { result ≡ true → (parts : List ℕ × List ℕ)
        × (cut_at 10 octets.now ≡ Some parts) }
    ensures none { result ≡ false → cut_at 10 octets.now ≡ None }
{
    split(b'\n', octets).is_some()
}

/// The text of a line without its end; `None` if the checksum before it isn't that of the text.
pub fn line_text<'a>(checksums: &Crc32c, line: &'a [u8]) -> Option<&'a [u8]>
    ensures { option_map (λ text. text.now) result ≡ line_text line.now }
{
    if line.len() < CHECKSUM_OCTETS {
        return None;
    }
    let (field, text) = line.split_at(CHECKSUM_OCTETS);
    if are_same_octets(field, &checksum_field(checksums, text)) {
        Some(text)
    } else {
        None
    }
}

fn are_same_octets(field: &[u8], other: &[u8]) -> bool
    ensures { result ≡ bytes_eq field.now other.now }
{
    field == other
}

/// The octets before a text in its line.
fn checksum_field(checksums: &Crc32c, text: &[u8]) -> [u8; 9]
    ensures { result ≡ checksum_field text.now }
{
    let sum = checksums.checksum(text);
    [
        hex_digit(sum / 0x1000_0000 % 16),
        hex_digit(sum / 0x0100_0000 % 16),
        hex_digit(sum / 0x0010_0000 % 16),
        hex_digit(sum / 0x0001_0000 % 16),
        hex_digit(sum / 0x1000 % 16),
        hex_digit(sum / 0x0100 % 16),
        hex_digit(sum / 0x10 % 16),
        hex_digit(sum % 16),
        b' ',
    ]
}

fn hex_digit(number: u32) -> u8
    requires { number < 16 }
    ensures { result ≡ hex_digit number }
{
    if number < 10 {
        b'0' + number as u8
    } else {
        b'A' - 10 + number as u8
    }
}
