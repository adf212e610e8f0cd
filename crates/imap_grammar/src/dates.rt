//! Days, as the keys of SEARCH write them (RFC 9051, section 9, date).

ghost use Rattle.std.specs.Prelude.{◌≡◌, ◌<◌, ◌≤◌, ◌-◌, ◌^◌, IfOk};
ghost use Rattle.imap_types.specs.DateTimes.{month_of};
ghost use Rattle.imap_grammar.specs.Reading.{IsReading, date_at, date_text_at, digits_at};
ghost use Rattle.imap_grammar.specs.Reading.{month_name_at};

use crate::fault::ParseFault;
use crate::numbers::saturating_number;
use crate::scan::{run, skip};
use imap_syntax::OctetClass;
use imap_types::Day;

/// Reads the day of a SEARCH key, with or without quotes (RFC 9051, section 9, date).
pub fn date(octets: &[u8]) -> Result<(Day, &[u8]), ParseFault>
    ensures { IsReading (λ x. (x.0, x.1.now)) result (date_at octets.now) }
{
    match octets {
        [] => Err(ParseFault::BadSyntax),
        [first, rest @ ..] => {
            if *first == b'"' {
                let (day, rest) = date_text(rest)?;
                let rest = skip(rest, b"\"")?;
                return Ok((day, rest));
            }
            date_text(octets)
        }
    }
}

/// Reads `d-Mon-yyyy`, a day that exists in the calendar (RFC 9051, section 9, date-text).
fn date_text(octets: &[u8]) -> Result<(Day, &[u8]), ParseFault>
    ensures { IsReading (λ x. (x.0, x.1.now)) result (date_text_at octets.now) }
{
    let (day, rest) = digits(octets, 1, 2, 31)?;
    let (month, rest) = month_name(skip(rest, b"-")?)?;
    let (year, rest) = digits(skip(rest, b"-")?, 4, 4, 9999)?;
    match Day::from_month_name(year, month, day as u8) {
        Some(day) => Ok((day, rest)),
        None => Err(ParseFault::BadSyntax),
    }
}

/// Reads a number up to `limit`, written in `least` to `most` digits.
fn digits(octets: &[u8], least: usize, most: usize, limit: u16) -> Result<(u16, &[u8]), ParseFault>
    ensures value { IsReading (λ x. (x.0, x.1.now)) result (digits_at least most limit octets.now) }
    ensures bound { IfOk result (λ x. x.0 ≤ limit) }
{
    let (digits, rest) = run(OctetClass::Digit, octets)?;
    let value = saturating_number(digits);
    if digits.len() < least || digits.len() > most || value > u64::from(limit) {
        return Err(ParseFault::BadSyntax);
    }
    Ok((value as u16, rest))
}

/// Takes the three octets of a month's name, whatever they are.
fn month_name(octets: &[u8]) -> Result<(&[u8], &[u8]), ParseFault>
    ensures { IsReading (λ x. (month_of x.0.now, x.1.now)) result (month_name_at octets.now) }
{
    if octets.len() < 3 {
        return Err(ParseFault::BadSyntax);
    }
    Ok(octets.split_at(3))
}
