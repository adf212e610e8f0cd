//! Whether a message matches the key of a SEARCH (RFC 9051, section 6.4.4).

ghost use Rattle.std.specs.Prelude.{◌≡◌, ◌∷◌, [], reverse, IfOk, IfSome, OnOk};
ghost use Rattle.imap_syntax.specs.declared.search.SearchStep.TheVariants.{Test};
ghost use Rattle.imap_syntax.specs.declared.search.SearchTest.TheVariants.{System};
ghost use Rattle.imap_query.specs.KeyHits.{Key, hits, steps_of};
ghost use Rattle.imap_query.specs.Runs.{after_step};
ghost use Rattle.imap_query.specs.Tests.{bound_of, holds_in, is_date_related, test_holds};
ghost use Rattle.imap_query.specs.Tests.{range_names, rank, set_names};
ghost use Rattle.mailbox_rows.specs.RowViews.{listed_message};

use crate::messages::{agrees_with, is_flagged};
use crate::viewed_message::ViewedMessage;
use imap_syntax::{DateRelation, SearchStep, SearchTest, SystemFlag, TextPlace};
use imap_types::{DateTime, Day, SequenceBound, SequenceRange};
use mail_text::{body, contains_nocase, field_contains_nocase, written_day};
use mailbox_rows::Row;
use std::alloc::{AllocError, Global};

/// A test of a system flag.
#[derive(Clone, Copy)]
pub(crate) struct FlagTest {
    pub(crate) flag: SystemFlag,
    /// Whether the flag has to be set; otherwise it has to be unset.
    pub(crate) is_set: bool,
}

/// The test of a system flag, if it is the only step.
pub(crate) fn flag_test(steps: &[SearchStep]) -> Option<FlagTest>
    ensures { IfSome result (λ test. steps.now ≡ Test (System test.flag test.is_set) ∷ []) }
{
    match one_test(steps)? {
        SearchTest::System { flag, is_set } => Some(FlagTest {
            flag: *flag,
            is_set: *is_set,
        }),
        _ => None,
    }
}

/// Whether a message matches the key with these steps. `shown` is the message as the view shows it,
/// `last` the last message of the view.
pub(crate) fn hits(
    alloc: Global,
    last: ViewedMessage,
    shown: ViewedMessage,
    row: &Row<'_>,
    steps: &[SearchStep],
) -> Result<bool, AllocError>
    ensures { IfOk result (λ is. (key : Key) → steps.now ≡ steps_of key
        → is ≡ hits (test_holds last shown (listed_message row.now)) key) }
{
    // Most keys are one test, which needs no list of results.
    if let Some(test) = one_test(steps) {
        return test_holds(alloc, last, shown, row, test);
    }
    let mut results: Vec<bool> = Vec::new(alloc);
    for step in steps {
        take_step(alloc, last, shown, row, step, &mut results)?;
    }
    match results.pop() {
        Some(result) => Ok(result),
        None => Ok(false),
    }
}

/// The test, if it is the only step.
fn one_test(steps: &[SearchStep]) -> Option<&SearchTest>
    ensures { IfSome result (λ test. steps.now ≡ Test test.now ∷ []) }
{
    if steps.len() != 1 {
        return None;
    }
    match &steps[0] {
        SearchStep::Test(test) => Some(test),
        _ => None,
    }
}

/// Applies a step to the stack of results so far.
fn take_step(
    alloc: Global,
    last: ViewedMessage,
    shown: ViewedMessage,
    row: &Row<'_>,
    step: &SearchStep,
    results: &mut Vec<bool>,
) -> Result<(), AllocError>
    ensures { OnOk result (reverse results.new.items
        ≡ after_step (test_holds last shown (listed_message row.now)) step.now
        (reverse results.old.items)) }
{
    match step {
        SearchStep::Test(test) => {
            let is = test_holds(alloc, last, shown, row, test)?;
            results.push(is)?;
        }
        SearchStep::Not => {
            if let Some(result) = results.pop() {
                results.push(!result)?;
            }
        }
        SearchStep::Or => {
            if let Some(that) = results.pop() {
                if let Some(this) = results.pop() {
                    results.push(this | that)?;
                }
            }
        }
        SearchStep::And => {
            if let Some(that) = results.pop() {
                if let Some(this) = results.pop() {
                    results.push(this & that)?;
                }
            }
        }
    }
    Ok(())
}

/// Whether a test holds for a message. A test that reads the text takes time linear in it.
fn test_holds(
    alloc: Global,
    last: ViewedMessage,
    shown: ViewedMessage,
    row: &Row<'_>,
    test: &SearchTest,
) -> Result<bool, AllocError>
    ensures { IfOk result (λ is. is ≡ test_holds last shown (listed_message row.now) test.now) }
{
    match test {
        SearchTest::All => Ok(true),
        SearchTest::System { flag, is_set } => Ok(is_flagged(row, *flag, *is_set)),
        SearchTest::Keyword { keyword, is_set } => Ok(agrees_with(
            *is_set,
            row.versions.has_keyword(keyword.as_bytes()),
        )),
        SearchTest::Holds { place, text } => holds_in(
            alloc,
            *place,
            text.as_bytes(),
            row.shown_text(),
        ),
        SearchTest::Header { name, text } => {
            field_contains_nocase(alloc, row.shown_text(), name.as_bytes(), text.as_bytes())
        }
        SearchTest::Dated { order, day } => Ok(is_date_related(*order, *day, &row.shown_date())),
        SearchTest::Larger { octets } => Ok((row.shown_text().len() as u64) > *octets),
        SearchTest::Smaller { octets } => Ok((row.shown_text().len() as u64) < *octets),
        SearchTest::ModSeq { value } => Ok(row.modseq >= *value),
        SearchTest::Uids { uids } => Ok(set_names(last.uid, uids.ranges(), row.uid)),
        SearchTest::Numbers { numbers } => Ok(set_names(
            last.number,
            numbers.ranges(),
            shown.number,
        )),
    }
}

/// Whether a set names a number; `*` is the number `top`.
fn set_names(top: u32, set: &[SequenceRange], number: u32) -> bool
    ensures { result ≡ set_names top set.now number }
{
    for range in set {
        if range_names(top, number, range) {
            return true;
        }
    }
    false
}

fn range_names(top: u32, number: u32, range: &SequenceRange) -> bool
    ensures { result ≡ range_names top number range.now }
{
    let first = bound_of(top, range.first);
    let last = bound_of(top, range.last);
    first.min(last) <= number && number <= first.max(last)
}

fn bound_of(top: u32, bound: SequenceBound) -> u32
    ensures { result ≡ bound_of top bound }
{
    match bound {
        SequenceBound::Number(number) => number,
        SequenceBound::Greatest => top,
    }
}

/// Whether a message's text contains a word in a place: a header field, the body or the whole text.
fn holds_in(alloc: Global, place: TextPlace, word: &[u8], text: &[u8]) -> Result<bool, AllocError>
    ensures { IfOk result (λ is. is ≡ holds_in place word.now text.now) }
{
    match place {
        TextPlace::Bcc => field_contains_nocase(alloc, text, b"Bcc", word),
        TextPlace::Cc => field_contains_nocase(alloc, text, b"Cc", word),
        TextPlace::From => field_contains_nocase(alloc, text, b"From", word),
        TextPlace::Subject => field_contains_nocase(alloc, text, b"Subject", word),
        TextPlace::To => field_contains_nocase(alloc, text, b"To", word),
        TextPlace::Body => contains_nocase(alloc, body(text), word),
        TextPlace::Text => contains_nocase(alloc, text, word),
    }
}

/// Whether a date-time's day, as written, is before, on or since a day.
fn is_date_related(order: DateRelation, day: Day, date: &DateTime) -> bool
    ensures { result ≡ is_date_related order day date.now }
{
    let written = rank(written_day(date));
    match order {
        DateRelation::Before => written < rank(day),
        DateRelation::On => written == rank(day),
        DateRelation::Since => written >= rank(day),
    }
}

/// A day's number, which rises with the calendar.
fn rank(day: Day) -> u32
    ensures { result ≡ rank day }
{
    (u32::from(day.year) * 100 + u32::from(day.month)) * 100 + u32::from(day.day)
}
