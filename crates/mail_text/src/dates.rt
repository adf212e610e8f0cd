//! Date-times of moments, and days of date-times (RFC 9051, section 9, date-time).

ghost use Rattle.std.specs.Prelude.{◌≡◌, ◌↔◌, ◌+◌, ◌/◌, ◌%◌, ◌<◌, ◌≤◌, IsTrue, length, pos};
ghost use Rattle.std.specs.Prelude.{slice_index, unsigned_abs};
ghost use Rattle.jiff.specs.Words.{epoch_day};
ghost use Rattle.imap_types.specs.DateTimes.{IsDateTime, is_digit, two_digits};
ghost use Rattle.mail_text.specs.Civil.{IsCivil, month_name, utc_text, written_day};

use imap_types::{DATE_TIME_OCTETS, DateTime, Day, Moment};
use jiff::ToSpan;
use jiff::civil::{Date, date};

/// The number of seconds in a day.
const SECONDS_PER_DAY: u64 = 86_400;

/// A moment's date-time in UTC (RFC 9051, section 9, date-time).
pub fn civil(moment: Moment) -> DateTime
    ensures { IsCivil moment result }
{
    let seconds = moment.seconds();
    let day = day_after_epoch((seconds / SECONDS_PER_DAY) as u32);
    match DateTime::new(utc_octets(day, (seconds % SECONDS_PER_DAY) as u32)) {
        Some(date) => date,
        None => unreachable!(),
    }
}

/// Whether octets are a quoted date-time with a two-digit day (RFC 9051, section 9,
/// date-time).
pub fn date_ok(octets: &[u8]) -> bool
    ensures { IsTrue result ↔ IsDateTime octets.now }
{
    if octets.len() != DATE_TIME_OCTETS {
        return false;
    }
    let mut text = [0; 28];
    text.copy_from_slice(octets);
    DateTime::new(text).is_some()
}

/// The day of a date-time as it is written, in its own zone.
pub fn written_day(date: &DateTime) -> Day
    ensures { result ≡ written_day date.now }
{
    let octets = date.as_bytes();
    let year = u16::from(two_digits(octets, 8)) * 100 + u16::from(two_digits(octets, 10));
    match Day::from_month_name(year, &octets[4..7], two_digits(octets, 1)) {
        Some(day) => day,
        None => unreachable!(),
    }
}

/// The number spelled by the two digits at `place` in a date-time.
fn two_digits(octets: &[u8], place: usize) -> u8
    requires within { place + 1 < length octets.now }
    requires tens { IsTrue (is_digit (slice_index octets.now place)) }
    requires ones { IsTrue (is_digit (slice_index octets.now (place + 1))) }
    ensures value { result ≡ two_digits octets.now place }
    ensures bound { result < 100 }
{
    (octets[place] - b'0') * 10 + (octets[place + 1] - b'0')
}

/// The day `days` days after 1 January 1970.
fn day_after_epoch(days: u32) -> Date
    requires { days ≤ 2_932_896 }
    ensures { epoch_day result ≡ pos days }
{
    match date(1970, 1, 1).checked_add(i64::from(days).days()) {
        Ok(day) => day,
        Err(_) => unreachable!(),
    }
}

/// The octets of the date-time in UTC, `seconds` seconds after a day's midnight.
fn utc_octets(day: Date, seconds: u32) -> [u8; 28]
    requires { seconds < 86_400 }
    ensures { result ≡ utc_text (unsigned_abs day.year) day.month day.day seconds }
{
    let year = u32::from(day.year().unsigned_abs());
    let month = month_name(day.month() as u8);
    let date = day.day() as u32;
    let hour = seconds / 3_600;
    let minute = seconds % 3_600 / 60;
    let second = seconds % 60;
    [
        b'"',
        tens(date),
        ones(date),
        b'-',
        month[0],
        month[1],
        month[2],
        b'-',
        tens(year / 100),
        ones(year / 100),
        tens(year % 100),
        ones(year % 100),
        b' ',
        tens(hour),
        ones(hour),
        b':',
        tens(minute),
        ones(minute),
        b':',
        tens(second),
        ones(second),
        b' ',
        b'+',
        b'0',
        b'0',
        b'0',
        b'0',
        b'"',
    ]
}

/// The three letters that name a month from 1 to 12.
fn month_name(month: u8) -> [u8; 3]
    ensures { result ≡ month_name month }
{
    match month {
        1 => *b"Jan",
        2 => *b"Feb",
        3 => *b"Mar",
        4 => *b"Apr",
        5 => *b"May",
        6 => *b"Jun",
        7 => *b"Jul",
        8 => *b"Aug",
        9 => *b"Sep",
        10 => *b"Oct",
        11 => *b"Nov",
        _ => *b"Dec",
    }
}

/// The first digit of a number below 100.
fn tens(number: u32) -> u8
    requires { number < 100 }
    ensures { result ≡ 48 + number / 10 }
{
    b'0' + (number / 10) as u8
}

/// The last digit of a number.
fn ones(number: u32) -> u8
    ensures { result ≡ 48 + number % 10 }
{
    b'0' + (number % 10) as u8
}
