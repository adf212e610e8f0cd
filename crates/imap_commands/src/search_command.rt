//! SEARCH and UID SEARCH (RFC 9051, section 6.4.4; RFC 7162, section 3.1.5).

ghost use Rattle.std.specs.Prelude.{◌≡◌, IfOk};
ghost use Rattle.std.specs.List.{list_all};
ghost use Rattle.session_view.specs.Views.{AreRising};
ghost use Rattle.imap_commands.specs.MemoryFaults.{EqualsOrLacksMemory};
ghost use Rattle.imap_commands.specs.SearchCommand.{IsSearchResult, IsSearchReport, search_intent};
ghost use Rattle.imap_commands.specs.SearchCommand.{step_is_in_range, test_is_in_range};
ghost use Rattle.imap_commands.specs.SearchCommand.{viewed_messages_from};
ghost use Rattle.imap_commands.specs.SearchCommand.{search_rule};
ghost use Rattle.imap_commands.specs.SearchCommand.{IsReportOfSearch, intent_to_search};
ghost use Rattle.imap_commands.specs.NamedMessages.{no_messages_named};

use crate::command_args::OpenMailbox;
use crate::command_rule::{CommandRule, sync_kind_by, word_by};
use crate::enable_command::search_asks_modseq;
use crate::intent::Intent;
use crate::replica_mail::{ReplicaMail, open_mailbox_after};
use crate::report::CommandReport;
use crate::session::State;
use crate::simple_commands::one_answer;
use crdt_ops::Kind;
use imap_answers::{Answer, CompletedWord, Refusal, SearchResults};
use imap_query::{ViewedMessage, search};
use imap_syntax::{Search, SearchStep, SearchTest};
use imap_types::Octets;
use session_view::{View, ViewEntries, count_of};
use std::alloc::{AllocError, Global};

/// The intent of SEARCH, which issues nothing. `NoSuchMessage` if a set of message numbers anywhere
/// in its key names one that no message has (RFC 9051, section 6.4.4).
pub fn search_intent(alloc: Global, view: &View, steps: &[SearchStep]) -> Result<Vec<Kind>, Refusal>
    ensures { EqualsOrLacksMemory (λ kinds. kinds.items) result
        (search_intent view.now.entries steps.now) }
{
    if !are_in_range(view, steps) {
        return Err(Refusal::NoSuchMessage);
    }
    Ok(Vec::new(alloc))
}

fn are_in_range(view: &View, steps: &[SearchStep]) -> bool
    ensures { result ≡ list_all (step_is_in_range view.now.entries) steps.now }
{
    for step in steps {
        if !step_is_in_range(view, step) {
            return false;
        }
    }
    true
}

fn step_is_in_range(view: &View, step: &SearchStep) -> bool
    ensures { result ≡ step_is_in_range view.now.entries step.now }
{
    match step {
        SearchStep::Test(test) => test_is_in_range(view, test),
        _ => true,
    }
}

fn test_is_in_range(view: &View, test: &SearchTest) -> bool
    ensures { result ≡ test_is_in_range view.now.entries test.now }
{
    match test {
        SearchTest::Numbers { numbers } => view.is_in_range(numbers),
        _ => true,
    }
}

/// The report of SEARCH: the results of `imap_query::search` among the view's messages that the
/// listing has. `Err` if memory runs out.
pub fn search_report(
    alloc: Global,
    mailbox: &OpenMailbox<'_>,
    tag: &Octets,
    request: &Search,
) -> Result<CommandReport, AllocError>
    ensures { IfOk result (λ sent. IsSearchReport mailbox.now tag.now request.now sent) }
{
    let tag = tag.copy(alloc)?;
    let results = search_results_of(alloc, mailbox, request)?;
    one_answer(
        alloc,
        Answer::Search {
            tag,
            by_uid: request.by_uid,
            results,
        },
    )
}

/// The results of SEARCH in the mailbox.
fn search_results_of(
    alloc: Global,
    mailbox: &OpenMailbox<'_>,
    request: &Search,
) -> Result<SearchResults, AllocError>
    ensures { IfOk result (λ results. IsSearchResult mailbox.now request.now results) }
{
    let shown = all_viewed_messages(alloc, mailbox.view.entries())?;
    let steps = request.steps.as_slice();
    search(
        alloc,
        &shown,
        &mailbox.rows,
        request.by_uid,
        steps,
        request.options.as_slice(),
    )
}

/// All messages of a view, in the form that `imap_query` takes.
fn all_viewed_messages(alloc: Global, view: &ViewEntries) -> Result<Vec<ViewedMessage>, AllocError>
    requires { AreRising 1 view.now.items }
    ensures { IfOk result (λ shown. shown.items ≡ viewed_messages_from 1 view.now.items) }
{
    let _count = count_of(view);
    let mut shown = Vec::with_capacity(alloc, view.len())?;
    let mut number = 0;
    for entry in view.iter_from(0) {
        number += 1;
        shown.push_reserved(ViewedMessage {
            number,
            uid: entry.uid,
        });
    }
    Ok(shown)
}

/// The rule of SEARCH, which turns mod-sequences on by a MODSEQ test (RFC 7162, section 3.1).
pub(crate) fn search_rule(request: &Search) -> CommandRule
    ensures { result ≡ search_rule request.now }
{
    let by_uid = request.by_uid;
    CommandRule {
        sync: Some(sync_kind_by(by_uid)),
        enables_condstore: search_asks_modseq(request.steps.as_slice()),
        ..CommandRule::plain(word_by(by_uid, CompletedWord::UidSearch, CompletedWord::Search))
    }
}

/// The intent of SEARCH in a session.
pub(crate) fn intent_to_search(
    alloc: Global,
    state: &State,
    steps: &[SearchStep],
) -> Result<Intent, Refusal>
    ensures gives { EqualsOrLacksMemory (λ intent. intent.kinds.items) result
        (intent_to_search state.now steps.now) }
    ensures named { IfOk result (λ intent. intent.named ≡ no_messages_named) }
{
    let State::Selected { view, .. } = state else {
        return Err(Refusal::NotNow);
    };
    let kinds = search_intent(alloc, view, steps)?;
    Ok(Intent::of_kinds(alloc, kinds))
}

/// The report of SEARCH in a session.
pub(crate) fn report_of_search<R: ReplicaMail>(
    alloc: Global,
    replica: &R,
    state: &State,
    tag: &Octets,
    request: &Search,
) -> Result<CommandReport, AllocError>
    requires { R.is_ready replica.now }
    ensures { IfOk result (λ report. IsReportOfSearch (R.after replica.now) state.now tag.now
        request.now report) }
{
    let State::Selected { view, read_only } = state else {
        return Ok(CommandReport::empty(alloc));
    };
    let mailbox = open_mailbox_after(alloc, replica, view, *read_only)?;
    search_report(alloc, &mailbox, tag, request)
}
