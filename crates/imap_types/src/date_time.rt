//! Date-times of messages, as they are written (RFC 9051, section 9, date-time).

ghost use Rattle.std.specs.Prelude.{◌≡◌, ◌↔◌, ◌+◌, ◌<◌, ◌≤◌, length, IfSome, IsSome, IsTrue, pos};
ghost use Rattle.std.specs.Prelude.{codes, slice_index};
ghost use Rattle.jiff.specs.Words.{IsDate};
ghost use Rattle.imap_types.specs.DateTimes.{HasPicture, HasTime, IsDateTime, date_time_picture};
ghost use Rattle.imap_types.specs.DateTimes.{day_at, is_digit, fits_symbol, month_at, month_of};
ghost use Rattle.imap_types.specs.DateTimes.{two_digits, year_at};

use jiff::civil::Date;
use std::marker::Model;

/// The number of octets of a date-time, including its quotes.
pub const DATE_TIME_OCTETS: usize = 28;

/// A date-time as it is written, with its quotes: `"dd-Mon-yyyy hh:mm:ss +zzzz"` (RFC 9051, section
/// 9, date-time). The day has two digits and exists in the calendar; the month keeps its case.
pub struct DateTime {
    octets: [u8; 28],
}

// By hand, so that crates above drop it whole.
impl Drop for DateTime {
    fn drop(self) {
        let Self { octets: _ } = self;
    }
}

impl Model for DateTime {
    ghost use Rattle.std.specs.Prelude.{ℕ, List};
    ghost use Rattle.imap_types.specs.DateTimes.{IsDateTime};

    ghost Value = { List ℕ };

    ghost view = { λ d. d.octets };

    ghost invariant = { λ d. IsDateTime d.octets };
}

impl DateTime {
    ghost use Rattle.imap_types.specs.DateTimes.{IsDateTime};

    /// The date-time of these octets; `None` if they aren't one.
    pub fn new(octets: [u8; 28]) -> Option<DateTime>
        ensures exact { IsSome result ↔ IsDateTime octets }
        ensures value { IfSome result (λ made. made ≡ octets) }
    {
        if has_form(b"\"99-mmm-9999 99:99:99 +9999\"", &octets)
            && has_date(&octets)
            && has_time(&octets)
        {
            Some(DateTime { octets })
        } else {
            None
        }
    }

    /// The first second of 1970 in UTC.
    pub fn epoch() -> DateTime
        ensures { result ≡ codes "\"01-Jan-1970 00:00:00 +0000\"" }
    {
        DateTime {
            octets: *b"\"01-Jan-1970 00:00:00 +0000\"",
        }
    }

    /// The octets, including the quotes.
    pub fn as_bytes(&self) -> &[u8]
        ensures value { result.now ≡ self.now }
        ensures form { IsDateTime self.now }
    {
        &self.octets
    }

    /// Whether both have the same octets.
    pub fn same(&self, other: &DateTime) -> bool
        ensures { IsTrue result ↔ (self.now ≡ other.now) }
    {
        self.octets() == other.octets()
    }

    fn octets(&self) -> &[u8]
        ensures { result.now ≡ self.now }
    {
        &self.octets
    }

    /// A copy of the date-time.
    pub fn copy(&self) -> DateTime
        ensures { result ≡ self.now }
    {
        DateTime {
            octets: self.octets,
        }
    }
}

fn has_form(picture: &[u8], octets: &[u8]) -> bool
    ensures { IsTrue result ↔ HasPicture picture.now octets.now }
{
    if octets.len() != picture.len() {
        return false;
    }
    for i in 0..picture.len() {
        if !matches_symbol(picture[i], octets[i]) {
            return false;
        }
    }
    true
}

fn matches_symbol(symbol: u8, octet: u8) -> bool
    ensures { result ≡ fits_symbol symbol octet }
{
    match symbol {
        b'9' => is_digit(octet),
        b'm' => true,
        b'+' => octet == b'+' || octet == b'-',
        _ => octet == symbol,
    }
}

fn is_digit(octet: u8) -> bool
    ensures { result ≡ is_digit octet }
{
    octet >= b'0' && octet <= b'9'
}

fn has_date(octets: &[u8]) -> bool
    requires { HasPicture date_time_picture octets.now }
    ensures { IsTrue result
        ↔ IsDate (pos (year_at octets.now)) (pos (month_at octets.now)) (pos (day_at octets.now)) }
{
    let year = two_digits(octets, 8) as i16 * 100 + two_digits(octets, 10) as i16;
    let month = month_of(&octets[4..7]);
    let day = two_digits(octets, 1) as i8;
    Date::new(year, month, day).is_ok()
}

fn has_time(octets: &[u8]) -> bool
    requires { HasPicture date_time_picture octets.now }
    ensures { IsTrue result ↔ HasTime octets.now }
{
    two_digits(octets, 13) <= 23
        && two_digits(octets, 16) <= 59
        && two_digits(octets, 19) <= 60
        && two_digits(octets, 23) <= 23
        && two_digits(octets, 25) <= 59
}

fn two_digits(octets: &[u8], place: usize) -> u8
    requires within { place + 1 < length octets.now }
    requires tens { IsTrue (is_digit (slice_index octets.now place)) }
    requires ones { IsTrue (is_digit (slice_index octets.now (place + 1))) }
    ensures value { result ≡ two_digits octets.now place }
    ensures bound { result < 100 }
{
    (octets[place] - b'0') * 10 + (octets[place + 1] - b'0')
}

/// The number of the month that the three letters name in any letter case; 0 if they name none.
pub fn month_of(letters: &[u8]) -> i8
    ensures value { result ≡ pos (month_of letters.now) }
{
    if letters.eq_ignore_ascii_case(b"jan") {
        1
    } else if letters.eq_ignore_ascii_case(b"feb") {
        2
    } else if letters.eq_ignore_ascii_case(b"mar") {
        3
    } else if letters.eq_ignore_ascii_case(b"apr") {
        4
    } else if letters.eq_ignore_ascii_case(b"may") {
        5
    } else if letters.eq_ignore_ascii_case(b"jun") {
        6
    } else if letters.eq_ignore_ascii_case(b"jul") {
        7
    } else if letters.eq_ignore_ascii_case(b"aug") {
        8
    } else if letters.eq_ignore_ascii_case(b"sep") {
        9
    } else if letters.eq_ignore_ascii_case(b"oct") {
        10
    } else if letters.eq_ignore_ascii_case(b"nov") {
        11
    } else if letters.eq_ignore_ascii_case(b"dec") {
        12
    } else {
        0
    }
}
