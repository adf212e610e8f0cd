//! ENABLE (RFC 9051, section 6.3.1), and the other commands that turn CONDSTORE on (RFC 7162,
//! section 3.1).

ghost use Rattle.std.specs.Prelude.{◌≡◌, IfOk, false};
ghost use Rattle.std.specs.List.{filter, list_any};
ghost use Rattle.imap_commands.specs.EnableCommand.{asks_condstore, asks_condstore_first};
ghost use Rattle.imap_commands.specs.EnableCommand.{asks_imap4rev2, begins_with_condstore};
ghost use Rattle.imap_commands.specs.EnableCommand.{enable_report, enable_rule};
ghost use Rattle.imap_commands.specs.EnableCommand.{extensions_of_requests};
ghost use Rattle.imap_commands.specs.EnableCommand.{enabled_extensions};
ghost use Rattle.imap_commands.specs.EnableCommand.{fetch_asks_modseq, is_condstore, is_imap4rev2};
ghost use Rattle.imap_commands.specs.EnableCommand.{is_modseq_item, search_asks_modseq};
ghost use Rattle.imap_commands.specs.EnableCommand.{status_asks_modseq};
ghost use Rattle.imap_query.specs.Hits.{step_names_modseq};

use crate::command_rule::CommandRule;
use crate::report::CommandReport;
use crate::simple_commands::one_answer;
use imap_answers::{Answer, CompletedWord, EnabledExtensions};
use imap_syntax::{FetchItem, SearchStep, SearchTest, StatusItem};
use imap_types::Octets;
use std::alloc::{AllocError, Global};

/// The report of ENABLE: which of CONDSTORE and IMAP4rev2 were requested, in any letter case, in
/// the order of their first requests (RFC 9051, section 6.3.1). `Err` if memory runs out.
pub fn enable_report(alloc: Global, names: &[Octets]) -> Result<CommandReport, AllocError>
    ensures { IfOk result (λ report. report ≡ enable_report names.now) }
{
    let extensions = enabled_extensions(names);
    one_answer(alloc, Answer::Enabled { extensions })
}

fn enabled_extensions(names: &[Octets]) -> EnabledExtensions
    ensures { result ≡ enabled_extensions names.now }
{
    extensions_of_requests(
        asks_condstore(names),
        asks_imap4rev2(names),
        asks_condstore_first(names),
    )
}

fn extensions_of_requests(
    condstore: bool,
    imap4rev2: bool,
    condstore_first: bool,
) -> EnabledExtensions
    ensures { result ≡ extensions_of_requests condstore imap4rev2 condstore_first }
{
    match (condstore, imap4rev2, condstore_first) {
        (false, false, _) => EnabledExtensions::Nothing,
        (true, false, _) => EnabledExtensions::Condstore,
        (false, true, _) => EnabledExtensions::Imap4Rev2,
        (true, true, true) => EnabledExtensions::CondstoreImap4Rev2,
        (true, true, false) => EnabledExtensions::Imap4Rev2Condstore,
    }
}

/// Whether one of the names is CONDSTORE in any letter case (RFC 7162, section 3.1).
pub fn asks_condstore(names: &[Octets]) -> bool
    ensures { result ≡ asks_condstore names.now }
{
    for name in names {
        if is_condstore(name) {
            return true;
        }
    }
    false
}

fn asks_imap4rev2(names: &[Octets]) -> bool
    ensures { result ≡ asks_imap4rev2 names.now }
{
    for name in names {
        if is_imap4rev2(name) {
            return true;
        }
    }
    false
}

/// Whether CONDSTORE precedes IMAP4rev2 among the names.
fn asks_condstore_first(names: &[Octets]) -> bool
    ensures { result ≡ asks_condstore_first names.now }
{
    for name in names {
        if is_condstore(name) {
            return true;
        }
        if is_imap4rev2(name) {
            return false;
        }
    }
    false
}

fn is_condstore(name: &Octets) -> bool
    ensures { result ≡ is_condstore name.now }
{
    name.as_bytes().eq_ignore_ascii_case(b"CONDSTORE")
}

fn is_imap4rev2(name: &Octets) -> bool
    ensures { result ≡ is_imap4rev2 name.now }
{
    name.as_bytes().eq_ignore_ascii_case(b"IMAP4rev2")
}

/// Whether STATUS asks for HIGHESTMODSEQ (RFC 7162, section 3.1).
pub fn status_asks_modseq(items: &[StatusItem]) -> bool
    ensures { result ≡ status_asks_modseq items.now }
{
    for item in items {
        if *item == StatusItem::HighestModSeq {
            return true;
        }
    }
    false
}

/// Whether FETCH asks for MODSEQ or has CHANGEDSINCE (RFC 7162, section 3.1).
pub fn fetch_asks_modseq(items: &[FetchItem], changed_since: Option<u64>) -> bool
    ensures { result ≡ fetch_asks_modseq items.now changed_since }
{
    has_modseq_item(items) || changed_since.is_some()
}

fn has_modseq_item(items: &[FetchItem]) -> bool
    ensures { result ≡ list_any is_modseq_item items.now }
{
    for item in items {
        if is_modseq_item(item) {
            return true;
        }
    }
    false
}

fn is_modseq_item(item: &FetchItem) -> bool
    ensures { result ≡ is_modseq_item item.now }
{
    match item {
        FetchItem::ModSeq => true,
        _ => false,
    }
}

/// Whether the key of a SEARCH has a MODSEQ test anywhere (RFC 7162, section 3.1).
pub fn search_asks_modseq(steps: &[SearchStep]) -> bool
    ensures { result ≡ search_asks_modseq steps.now }
{
    for step in steps {
        if step_names_modseq(step) {
            return true;
        }
    }
    false
}

fn step_names_modseq(step: &SearchStep) -> bool
    ensures { result ≡ step_names_modseq step.now }
{
    match step {
        SearchStep::Test(SearchTest::ModSeq { .. }) => true,
        _ => false,
    }
}

/// The rule of ENABLE, which turns mod-sequences on if one of its names is CONDSTORE.
pub(crate) fn enable_rule(names: &[Octets]) -> CommandRule
    ensures { result ≡ enable_rule names.now }
{
    CommandRule {
        enables_condstore: asks_condstore(names),
        ..CommandRule::brief(CompletedWord::Enable)
    }
}
