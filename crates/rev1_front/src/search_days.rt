//! The days on which messages were sent (RFC 3501, section 6.4.4, SENTON), and the UIDs of those
//! sent on some days.

ghost use Rattle.std.specs.Prelude.{◌≡◌, ◌++◌, ◌∷◌, ◌≤◌, [], Some, IfOk, IfSome, OnOk, IsTrue};
ghost use Rattle.std.specs.Prelude.{codes, decimal, length, if◌then◌else◌};
ghost use Rattle.std.specs.Option.{option_map};
ghost use Rattle.imap_types.specs.DateTimes.{month_of};
ghost use Rattle.imap_grammar.specs.Reading.{after, before, date_at, date_text_at, digits_at};
ghost use Rattle.imap_grammar.specs.Reading.{month_name_at, span};
ghost use Rattle.mail_text.specs.TextSearch.{field_value};
ghost use Rattle.rev1_front.specs.SearchForms.{is_before, is_related, sent_uids};
ghost use Rattle.rev1_front.specs.SearchReading.{uids_text, whole_day};
ghost use Rattle.rev1_front.specs.SentDays.{are_date_parts, day_of, day_of_parts};
ghost use Rattle.rev1_front.specs.SentDays.{day_of_value};
ghost use Rattle.rev1_front.specs.SentDays.{fetched_day, full_year, is_gap, sent_day, sent_days};
ghost use Rattle.rev1_front.specs.SentDays.{written_day};
ghost use Rattle.rev1_front.specs.SentSteps.{days_in, is_of_kind};

use crate::tokens::number;
use imap_answers::{Answer, FetchItems, SectionData};
use imap_syntax::DateRelation;
use imap_types::Day;
use itoa::Buffer;
use mail_text::field_value;
use std::alloc::{AllocError, Global};

/// The day of a message's Date field, as it is written there.
#[derive(Clone, Copy, Debug, PartialEq, Eq)]
pub struct SentDay {
    pub uid: u32,
    pub day: Day,
}

/// The days of the messages that answers to FETCH of UIDs and whole texts have; messages whose Date
/// has no day are left out. `Err` if memory runs out.
pub fn sent_days(alloc: Global, answers: &[Answer]) -> Result<Vec<SentDay>, AllocError>
    ensures { IfOk result (λ days. days.items ≡ sent_days answers.now) }
{
    let mut days = Vec::new(alloc);
    for answer in answers {
        push_day(sent_day(answer), &mut days)?;
    }
    Ok(days)
}

/// Adds a day, if any. `Err` if memory runs out.
fn push_day(day: Option<SentDay>, days: &mut Vec<SentDay>) -> Result<(), AllocError>
    ensures { OnOk result (days.new.items ≡ days.old.items ++ days_in day) }
{
    if let Some(day) = day {
        days.push(day)?;
    }
    Ok(())
}

/// The day of the message that an answer has.
fn sent_day(answer: &Answer) -> Option<SentDay>
    ensures { days_in result ≡ sent_day answer.now }
{
    match answer {
        Answer::Fetch { items, .. } => fetched_day(items),
        _ => None,
    }
}

/// The day of the message that has these items.
fn fetched_day(items: &FetchItems) -> Option<SentDay>
    ensures { days_in result ≡ fetched_day items.now.uid items.now.sections }
{
    match items.uid {
        None => None,
        Some(uid) => day_of_sections(uid, items.sections.parts()),
    }
}

/// The day of the message with this UID whose only section is its text.
fn day_of_sections(uid: u32, parts: &[SectionData]) -> Option<SentDay>
    ensures { days_in result ≡ fetched_day (Some uid) parts.now }
{
    match parts {
        [part] => match day_of_text(part.octets.as_bytes()) {
            None => None,
            Some(day) => Some(SentDay { uid, day }),
        },
        _ => None,
    }
}

/// The day in the first Date field of a message's text.
fn day_of_text(text: &[u8]) -> Option<Day>
    ensures { result ≡ day_of_value (field_value (codes "Date") text.now) }
{
    match field_value(text, b"Date") {
        None => None,
        Some(value) => written_day(value),
    }
}

/// The day in a Date field (RFC 5322, section 3.3): that which its first digits begin. A year of
/// two or three digits is one of the last or of this century (section 4.3).
fn written_day(value: &[u8]) -> Option<Day>
    ensures { result ≡ written_day value.now }
{
    let (_, rest) = run_of(Kind::Other, value);
    let (day, rest) = run_of(Kind::Digit, rest);
    let (_, rest) = run_of(Kind::Gap, rest);
    let (month, rest) = run_of(Kind::Letter, rest);
    let (_, rest) = run_of(Kind::Gap, rest);
    let (year, _) = run_of(Kind::Digit, rest);
    day_of_parts(day, month, year)
}

/// The day of the parts of a date.
fn day_of_parts(day: &[u8], month: &[u8], year: &[u8]) -> Option<Day>
    ensures { result
        ≡ day_of_parts (record { day = day.now; month = month.now; year = year.now }) }
{
    if !are_date_parts(day, month, year) {
        return None;
    }
    let year = full_year(year);
    let day = number(day);
    if year > 9999 || day > 31 {
        return None;
    }
    day_of(year as u16, &month[..3], day as u8)
}

/// The day of these numbers and of the month that three letters name.
fn day_of(year: u16, month: &[u8], day: u8) -> Option<Day>
    ensures { result ≡ day_of year (month_of month.now) day }
{
    match Day::from_month_name(year, month, day) {
        Some(day) => Some(day),
        None => None,
    }
}

/// Whether the parts have lengths that those of dates have.
fn are_date_parts(day: &[u8], month: &[u8], year: &[u8]) -> bool
    ensures value { result
        ≡ are_date_parts (record { day = day.now; month = month.now; year = year.now }) }
    ensures month { IsTrue result → 3 ≤ length month.now }
{
    day.len() >= 1 && day.len() <= 2 && month.len() >= 3 && year.len() >= 2 && year.len() <= 4
}

/// The year that two to four digits mean.
fn full_year(digits: &[u8]) -> u64
    requires { length digits.now ≤ 4 }
    ensures { result ≡ full_year digits.now }
{
    let year = number(digits);
    if digits.len() == 2 {
        return if year < 50 {
            year.saturating_add(2000)
        } else {
            year.saturating_add(1900)
        };
    }
    if digits.len() == 3 {
        return year.saturating_add(1900);
    }
    year
}

/// The octets of a date.
#[derive(Clone, Copy, Debug, PartialEq, Eq)]
enum Kind {
    Digit,
    Letter,
    /// What may be between the parts of a date.
    Gap,
    /// All but digits.
    Other,
}

/// Splits octets after those of a kind.
fn run_of(kind: Kind, octets: &[u8]) -> (&[u8], &[u8])
    ensures { (result.0.now, result.1.now) ≡ span (is_of_kind kind) octets.now }
{
    let mut len = 0;
    for octet in octets {
        if !is_of_kind(kind, *octet) {
            break;
        }
        len += 1;
    }
    octets.split_at(len)
}

/// Whether an octet is of a kind.
fn is_of_kind(kind: Kind, octet: u8) -> bool
    ensures { result ≡ is_of_kind kind octet }
{
    match kind {
        Kind::Digit => octet.is_ascii_digit(),
        Kind::Letter => octet.is_ascii_alphabetic(),
        Kind::Gap => is_gap(octet),
        Kind::Other => !octet.is_ascii_digit(),
    }
}

/// Whether an octet may be between the parts of a date.
fn is_gap(octet: u8) -> bool
    ensures { result ≡ is_gap octet }
{
    octet == b' ' || octet == b'\t' || octet == b'\r' || octet == b'\n' || octet == b'-'
}

/// The UIDs of the messages sent on a day with this relation to another, as a key: UID with these,
/// or NOT ALL if there are none. `Err` if memory runs out; then a part of the key was added.
pub fn push_sent(
    order: DateRelation,
    day: Day,
    days: &[SentDay],
    keys: &mut Vec<u8>,
) -> Result<(), AllocError>
    ensures { OnOk result
        (keys.new.items ≡ keys.old.items ++ uids_text (sent_uids order day days.now)) }
{
    let mut has_hit = false;
    for sent in days {
        if !is_related(order, sent.day, day) {
            continue;
        }
        push_uid(has_hit, sent.uid, keys)?;
        has_hit = true;
    }
    push_no_hit(has_hit, keys)
}

/// Adds a UID after a comma, or after the word of the key. `Err` if memory runs out.
fn push_uid(has_hit: bool, uid: u32, keys: &mut Vec<u8>) -> Result<(), AllocError>
    ensures { OnOk result (keys.new.items
        ≡ keys.old.items ++ ((if has_hit then codes "," else codes "UID ") ++ decimal uid)) }
{
    let mut buffer = Buffer::new();
    keys.extend_from_slice(uid_label(has_hit))?;
    keys.extend_from_slice(buffer.format(u64::from(uid)).as_bytes())
}

/// What is before a UID.
fn uid_label(has_hit: bool) -> &'static [u8]
    ensures { result.now ≡ (if has_hit then codes "," else codes "UID ") }
{
    if has_hit { b"," } else { b"UID " }
}

/// Adds a key without hits, unless there are hits. `Err` if memory runs out.
fn push_no_hit(has_hit: bool, keys: &mut Vec<u8>) -> Result<(), AllocError>
    ensures { OnOk result
        (keys.new.items ≡ keys.old.items ++ (if has_hit then [] else codes "NOT ALL")) }
{
    if has_hit {
        Ok(())
    } else {
        keys.extend_from_slice(b"NOT ALL")
    }
}

/// Whether a day has this relation to another.
fn is_related(order: DateRelation, sent: Day, day: Day) -> bool
    ensures { result ≡ is_related order sent day }
{
    match order {
        DateRelation::Before => is_before(sent, day),
        DateRelation::On => sent.year == day.year && sent.month == day.month && sent.day == day.day,
        DateRelation::Since => !is_before(sent, day),
    }
}

/// Whether a day is before another.
fn is_before(sent: Day, day: Day) -> bool
    ensures { result ≡ is_before sent day }
{
    if sent.year != day.year {
        return sent.year < day.year;
    }
    if sent.month != day.month {
        return sent.month < day.month;
    }
    sent.day < day.day
}

/// The day that a date of SEARCH names (RFC 3501, section 9, date), with or without quotes; `None`
/// if it is none.
pub fn search_day(date: &[u8]) -> Option<Day>
    ensures { result ≡ whole_day (date_at date.now) }
{
    match date {
        [] => None,
        [first, rest @ ..] => {
            if *first == b'"' {
                quoted_day(rest)
            } else {
                whole_day(date)
            }
        }
    }
}

/// The day that a date without quotes names.
fn whole_day(date: &[u8]) -> Option<Day>
    ensures { result ≡ whole_day (date_text_at date.now) }
{
    match date_text(date) {
        Some((day, [])) => Some(day),
        _ => None,
    }
}

/// The day that a date names before its closing quote.
fn quoted_day(date: &[u8]) -> Option<Day>
    ensures { result ≡ whole_day (before date_text_at (after (34 ∷ [])) date.now) }
{
    match date_text(date) {
        None => None,
        Some((day, rest)) => {
            if rest == b"\"".as_slice() {
                Some(day)
            } else {
                None
            }
        }
    }
}

/// Reads `d-Mon-yyyy`, a day that exists in the calendar.
fn date_text(octets: &[u8]) -> Option<(Day, &[u8])>
    ensures { option_map (λ x. (x.0, x.1.now)) result ≡ date_text_at octets.now }
{
    let (day, rest) = digits(octets, 1, 2, 31)?;
    let (month, rest) = month_name(after_hyphen(rest)?)?;
    let (year, rest) = digits(after_hyphen(rest)?, 4, 4, 9999)?;
    match Day::from_month_name(year, month, day as u8) {
        Some(day) => Some((day, rest)),
        None => None,
    }
}

/// Reads a number up to `limit`, written in `least` to `most` digits.
fn digits(octets: &[u8], least: usize, most: usize, limit: u16) -> Option<(u16, &[u8])>
    ensures value { option_map (λ x. (x.0, x.1.now)) result
        ≡ digits_at least most limit octets.now }
    ensures bound { IfSome result (λ x. x.0 ≤ limit) }
{
    let (digits, rest) = run_of(Kind::Digit, octets);
    if digits.is_empty() {
        return None;
    }
    let value = number(digits);
    if digits.len() < least || digits.len() > most || value > u64::from(limit) {
        return None;
    }
    Some((value as u16, rest))
}

/// Takes the three octets of a month's name, whatever they are.
fn month_name(octets: &[u8]) -> Option<(&[u8], &[u8])>
    ensures { option_map (λ x. (month_of x.0.now, x.1.now)) result ≡ month_name_at octets.now }
{
    if octets.len() < 3 {
        return None;
    }
    Some(octets.split_at(3))
}

/// The octets after a hyphen, with which they begin, if they do.
fn after_hyphen(octets: &[u8]) -> Option<&[u8]>
    ensures { option_map (λ rest. rest.now) result ≡ after (45 ∷ []) octets.now }
{
    match octets {
        [] => None,
        [first, rest @ ..] => { if *first == b'-' { Some(rest) } else { None } }
    }
}
