//! Days of the calendar.

ghost use Rattle.std.specs.Prelude.{◌≡◌, ◌↔◌, IfSome, IsSome, pos};
ghost use Rattle.jiff.specs.Words.{IsDate};
ghost use Rattle.imap_types.specs.DateTimes.{month_of};

use crate::date_time::month_of;
use jiff::civil::Date;

/// A day of the proleptic Gregorian calendar, in the years 0 to 9999. Days compare in calendar
/// order.
#[derive(Clone, Copy, Debug, PartialEq, Eq, PartialOrd, Ord)]
pub struct Day {
    pub year: u16,
    /// From 1 to 12.
    pub month: u8,
    /// From 1 to the last day of the month.
    pub day: u8,
}

impl Day {
    /// The day of the month that three letters name in any letter case (RFC 9051, section 9,
    /// date-month); `None` if the letters name no month or the calendar has no such day.
    pub fn from_month_name(year: u16, month: &[u8], day: u8) -> Option<Day>
        ensures exact { IsSome result ↔ IsDate (pos year) (pos (month_of month.now)) (pos day) }
        ensures value { IfSome result
            (λ made. made ≡ record { year = year; month = month_of month.now; day = day }) }
    {
        if year > 9999 {
            return None;
        }
        if day > 31 {
            return None;
        }
        let month = month_of(month);
        match Date::new(year as i16, month, day as i8) {
            Ok(_) => Some(Day {
                year,
                month: month as u8,
                day,
            }),
            Err(_) => None,
        }
    }
}
