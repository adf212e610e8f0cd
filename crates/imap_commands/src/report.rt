//! A command's report, and the view's messages in a listing.

ghost use Rattle.std.specs.Prelude.{◌≡◌, ◌-◌, [], None, Some, if◌then◌else◌};
ghost use Rattle.std.specs.List.{list_any};
ghost use Rattle.std.specs.Option.{option_copied, option_map};
ghost use Rattle.imap_commands.specs.Report.{are_some_gone, entry_at, gone_code, is_gone};
ghost use Rattle.imap_commands.specs.Report.{message_at, empty_report, report_of_answers};
ghost use Rattle.mailbox_rows.specs.RowViews.{listed_message};

use imap_answers::{Answer, Code};
use mailbox_rows::{Row, Rows};
use session_view::{SilentFlags, ViewEntries, ViewEntry};
use std::alloc::Global;
use std::marker::Model;

/// A command's report: its own answers, the flags that the session set silently (RFC 9051, section
/// 6.4.6), and the code of its tagged line (RFC 9051, section 7.1).
#[derive(Drop)]
pub struct CommandReport {
    own: Vec<Answer>,
    silent: Vec<SilentFlags>,
    code: Option<Code>,
}

impl Model for CommandReport {
    ghost use Rattle.imap_commands.specs.Report.{CommandReport};

    ghost Value = { CommandReport };

    ghost view = { λ t. record { own = t.own.items; silent = t.silent.items; code = t.code } };
}

impl CommandReport {
    /// A report of these parts, which it takes over.
    pub fn new(own: Vec<Answer>, silent: Vec<SilentFlags>, code: Option<Code>) -> CommandReport
        ensures { result ≡ record { own = own.items; silent = silent.items; code = code } }
    {
        CommandReport { own, silent, code }
    }

    /// A report without answers, silent flags and code; doesn't allocate.
    pub fn empty(alloc: Global) -> CommandReport
        ensures { result ≡ empty_report }
    {
        CommandReport::new(Vec::new(alloc), Vec::new(alloc), None)
    }

    /// A report of only these answers, which it takes over.
    pub fn of_answers(alloc: Global, own: Vec<Answer>) -> CommandReport
        ensures { result ≡ report_of_answers own.items }
    {
        CommandReport::new(own, Vec::new(alloc), None)
    }

    /// The command's own answers.
    pub fn own(&self) -> &[Answer]
        ensures { result.now ≡ self.now.own }
    {
        &self.own
    }

    /// The flags that the session set silently.
    pub fn silent(&self) -> &[SilentFlags]
        ensures { result.now ≡ self.now.silent }
    {
        &self.silent
    }

    /// The answers, the silent flags and the code, by value.
    pub fn into_parts(self) -> (Vec<Answer>, Vec<SilentFlags>, Option<Code>)
        ensures own { result.0.items ≡ self.own }
        ensures silent { result.1.items ≡ self.silent }
        ensures code { result.2 ≡ self.code }
    {
        let CommandReport { own, silent, code } = self;
        (own, silent, code)
    }
}

/// The view's message with this number, from 1; `None` if there is none.
pub fn entry_at(view: &ViewEntries, number: u32) -> Option<&ViewEntry>
    ensures { option_copied result ≡ entry_at view.now.items number }
{
    if number == 0 {
        return None;
    }
    view.get(place_of(number))
}

/// The place in the view, from 0, of the message with this number, from 1.
fn place_of(number: u32) -> usize
    ensures { result ≡ number - 1 }
{
    (number as usize).saturating_sub(1)
}

/// The listing's row for the view's message with this number, from 1; `None` if it is gone or the
/// view has no such number. Cost: one look-up.
pub fn message_at<'a>(rows: &'a Rows<'_>, view: &ViewEntries, number: u32) -> Option<Row<'a>>
    ensures { option_map listed_message result ≡ message_at rows.now view.now.items number }
{
    match entry_at(view, number) {
        Some(entry) => rows.row_near(place_of(number), entry.uid),
        None => None,
    }
}

/// The code EXPUNGEISSUED, if some of the view's messages with these numbers are gone (RFC 9051,
/// section 7.1).
pub fn gone_code(rows: &Rows<'_>, view: &ViewEntries, numbers: &[u32]) -> Option<Code>
    ensures { result ≡ gone_code rows.now view.now.items numbers.now }
{
    if are_some_gone(rows, view, numbers) {
        Some(Code::ExpungeIssued)
    } else {
        None
    }
}

fn are_some_gone(rows: &Rows<'_>, view: &ViewEntries, numbers: &[u32]) -> bool
    ensures { result ≡ are_some_gone rows.now view.now.items numbers.now }
{
    for number in numbers {
        if is_gone(rows, view, *number) {
            return true;
        }
    }
    false
}

/// Whether the listing lacks the view's message with this number.
fn is_gone(rows: &Rows<'_>, view: &ViewEntries, number: u32) -> bool
    ensures { result ≡ is_gone (message_at rows.now view.now.items number) }
{
    match entry_at(view, number) {
        Some(entry) => !rows.has_near(place_of(number), entry.uid),
        None => true,
    }
}
