//! The arguments of APPEND (RFC 9051, section 6.3.12).

ghost use Rattle.std.specs.Prelude.{◌≡◌, length};
ghost use Rattle.imap_grammar.specs.Reading.{IsReading, both, literal_at, spaced, zeroed};
ghost use Rattle.imap_grammar.specs.CommandReading.{append_at, append_date_at, append_flags_at};
ghost use Rattle.imap_grammar.specs.CommandReading.{date_time_at, literal_text_at};

use crate::fault::ParseFault;
use crate::flags::{collect_flags, flag_group};
use crate::modifier::{fault_of_word, follows_space};
use crate::scan::space;
use crate::text::{literal, spaced_mailbox};
use imap_syntax::{Append, Command};
use imap_types::{DateTime, Flags, Text};
use std::alloc::Global;

/// Reads the arguments of APPEND: a mailbox, flags, a date-time and a literal (RFC 9051, section
/// 6.3.12).
pub fn append(alloc: Global, octets: &[u8]) -> Result<(Command, &[u8]), ParseFault>
    ensures { IsReading (λ x. (x.0, x.1.now)) result (append_at octets.now) }
{
    let (name, rest) = spaced_mailbox(alloc, octets)?;
    match message(alloc, rest) {
        Err(fault) => {
            drop(name);
            Err(fault)
        }
        Ok(((flags, (date, text)), rest)) => {
            let append = Append {
                name,
                flags,
                date,
                text,
            };
            Ok((Command::Append(append), rest))
        }
    }
}

/// Reads the message: its flags, its date-time and its text.
fn message(
    alloc: Global,
    octets: &[u8],
) -> Result<((Flags, (Option<DateTime>, Text)), &[u8]), ParseFault>
    ensures { IsReading (λ x. (x.0, x.1.now)) result
        (both append_flags_at (both append_date_at (spaced literal_text_at)) octets.now) }
{
    let (flags, rest) = append_flags(alloc, octets)?;
    match dated_text(alloc, rest) {
        Err(fault) => {
            drop(flags);
            Err(fault)
        }
        Ok((dated, rest)) => Ok(((flags, dated), rest)),
    }
}

/// Reads the message's date-time, if any, and its text.
fn dated_text(alloc: Global, octets: &[u8]) -> Result<((Option<DateTime>, Text), &[u8]), ParseFault>
    ensures { IsReading (λ x. (x.0, x.1.now)) result
        (both append_date_at (spaced literal_text_at) octets.now) }
{
    let (date, rest) = append_date(octets)?;
    let (text, rest) = literal_text(alloc, space(rest)?)?;
    Ok(((date, text), rest))
}

/// Reads ` (flag flag ..)`, or nothing, which means no flags.
fn append_flags(alloc: Global, octets: &[u8]) -> Result<(Flags, &[u8]), ParseFault>
    ensures { IsReading (λ x. (x.0, x.1.now)) result (append_flags_at octets.now) }
{
    if !follows_space(b'(', octets) {
        return Ok((Flags::none(alloc), octets));
    }
    let rest = space(octets)?;
    let (written, rest) = flag_group(alloc, rest)?;
    Ok((collect_flags(alloc, &written)?, rest))
}

/// Reads a space and a date-time, or nothing.
fn append_date(octets: &[u8]) -> Result<(Option<DateTime>, &[u8]), ParseFault>
    ensures { IsReading (λ x. (x.0, x.1.now)) result (append_date_at octets.now) }
{
    if !follows_space(b'"', octets) {
        return Ok((None, octets));
    }
    let rest = space(octets)?;
    let (date, rest) = date_time(rest)?;
    Ok((Some(date), rest))
}

/// Reads a quoted date-time of 28 octets, whose day may begin with a space (RFC 9051, section 9,
/// date-time).
fn date_time(octets: &[u8]) -> Result<(DateTime, &[u8]), ParseFault>
    ensures { IsReading (λ x. (x.0, x.1.now)) result (date_time_at octets.now) }
{
    if octets.len() < 28 {
        return Err(ParseFault::BadSyntax);
    }
    let (front, rest) = octets.split_at(28);
    match DateTime::new(zero_for_space(front)) {
        Some(date) => Ok((date, rest)),
        None => Err(ParseFault::BadSyntax),
    }
}

/// The octets, with a zero in place of a space after the first quote.
fn zero_for_space(octets: &[u8]) -> [u8; 28]
    requires { length octets.now ≡ 28 }
    ensures { result ≡ zeroed octets.now }
{
    let mut text = [0; 28];
    text.copy_from_slice(octets);
    if text[1] == b' ' {
        text[1] = b'0';
    }
    text
}

/// Reads the message's text. A literal8 and UTF8 (RFC 9051, section 9; RFC 6855) are forms that
/// this server doesn't support.
fn literal_text(alloc: Global, octets: &[u8]) -> Result<(Text, &[u8]), ParseFault>
    ensures { IsReading (λ x. (x.0, x.1.now)) result (literal_text_at octets.now) }
{
    match octets {
        [] => Err(ParseFault::BadSyntax),
        [first, rest @ ..] => match *first {
            b'{' => shared_text(alloc, rest),
            b'~' => Err(ParseFault::NotInProfile),
            _ => Err(fault_of_word(octets, &[b"UTF8"])),
        },
    }
}

/// Reads a literal after its `{`, as a text whose copies share its octets.
fn shared_text(alloc: Global, octets: &[u8]) -> Result<(Text, &[u8]), ParseFault>
    ensures { IsReading (λ x. (x.0, x.1.now)) result (literal_at octets.now) }
{
    let (octets, rest) = literal(alloc, octets)?;
    Ok((Text::new(octets.into_vec())?, rest))
}
