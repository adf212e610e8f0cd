//! The results of SEARCH (RFC 9051, section 6.4.4; RFC 7162, section 3.1.5).

ghost use Rattle.std.specs.Prelude.{◌≡◌, ◌==◌, ◌&&◌, ◌++◌, [], length, map, not, None, Some};
ghost use Rattle.std.specs.Prelude.{IfOk, OnOk};
ghost use Rattle.std.specs.Prelude.{if◌then◌else◌};
ghost use Rattle.std.specs.List.{list_any};
ghost use Rattle.imap_types.specs.Numbers.{AreRisingFrom, greatest};
ghost use Rattle.imap_query.specs.Hits.{IsSameOrAppended, last_number, step_names_modseq};
ghost use Rattle.imap_query.specs.KeyHits.{Key, steps_of};
ghost use Rattle.imap_query.specs.Search.{asks_modseq, first_hit, hit_of, hits_in, last_hit};
ghost use Rattle.imap_query.specs.Search.{last_shown, modseq_in, number_or_uid, number_in};
ghost use Rattle.imap_query.specs.Search.{results_of, modseq_of_result, asks_option, asks_all};
ghost use Rattle.imap_query.specs.Search.{asks_only_min_or_max, if_requested};
ghost use Rattle.mailbox_rows.specs.RowViews.{row_of};

use crate::heads::{flagged_hits, push_hit as push_one};
use crate::keys::{flag_test, hits};
use crate::viewed_message::ViewedMessage;
use imap_answers::SearchResults;
use imap_syntax::{SearchOption, SearchStep, SearchTest};
use imap_types::NumberSet;
use mailbox_rows::Rows;
use std::alloc::{AllocError, Global};

/// A message that matches the key of a SEARCH.
#[derive(Clone, Copy, Debug, PartialEq, Eq)]
pub struct Hit {
    /// Its message number, or its UID if messages are named by UIDs; from 1.
    pub number: u32,
    /// Its mod-sequence.
    pub modseq: u64,
}

/// A SEARCH of a view.
#[derive(Clone, Copy)]
struct SearchSpec<'a> {
    /// Whether messages are named by UIDs.
    by_uid: bool,
    /// The steps of the key.
    steps: &'a [SearchStep],
    /// The last message that the view shows.
    last: ViewedMessage,
}

/// The results of SEARCH among the messages that a view shows and the listing has, by UIDs or by
/// message numbers (RFC 9051, section 6.4.4; RFC 7162, section 3.1.5). The steps are those of a
/// key; sets in it name messages of the view. Each key costs one test of each message; the test of
/// a key on texts takes time linear in the text. `Err` if memory runs out.
pub fn search(
    alloc: Global,
    view: &[ViewedMessage],
    rows: &Rows<'_>,
    by_uid: bool,
    steps: &[SearchStep],
    options: &[SearchOption],
) -> Result<SearchResults, AllocError>
    requires { AreRisingFrom 1 (map (number_or_uid by_uid) view.now) }
    ensures { IfOk result (λ results. (key : Key) → steps.now ≡ steps_of key
        → results
        ≡ results_of options.now (asks_modseq key) (hits_in by_uid key rows.now view.now)) }
{
    let hits = hits_in(alloc, view, rows, by_uid, steps)?;
    results(alloc, &hits, options, asks_modseq(steps))
}

/// The messages that match, in the view's order.
fn hits_in(
    alloc: Global,
    view: &[ViewedMessage],
    rows: &Rows<'_>,
    by_uid: bool,
    steps: &[SearchStep],
) -> Result<Vec<Hit>, AllocError>
    requires { AreRisingFrom 1 (map (number_or_uid by_uid) view.now) }
    ensures hits { IfOk result (λ hits. (key : Key) → steps.now ≡ steps_of key
        → hits.items ≡ hits_in by_uid key rows.now view.now) }
    ensures rising { IfOk result (λ hits. AreRisingFrom 1 (map (λ hit. hit.number) hits.items)) }
{
    if let Some(test) = flag_test(steps) {
        return flagged_hits(alloc, view, rows, by_uid, test);
    }
    let last = last_shown(view);
    let spec = SearchSpec {
        by_uid,
        steps,
        last,
    };
    let mut hits = Vec::new(alloc);
    for shown in view {
        push_hit(alloc, rows, spec, *shown, &mut hits)?;
    }
    Ok(hits)
}

/// The last message that a view shows, numbered 0 if the view is empty.
fn last_shown(view: &[ViewedMessage]) -> ViewedMessage
    ensures { result ≡ last_shown view.now }
{
    match view {
        [] => ViewedMessage { number: 0, uid: 0 },
        [.., last] => *last,
    }
}

/// Adds a message, if the listing has it and it matches.
fn push_hit(
    alloc: Global,
    rows: &Rows<'_>,
    spec: SearchSpec<'_>,
    shown: ViewedMessage,
    all_hits: &mut Vec<Hit>,
) -> Result<(), AllocError>
    ensures hits { OnOk result ((key : Key) → spec.entry.steps.now ≡ steps_of key
        → all_hits.new.items
        ≡ all_hits.old.items
        ++ hit_of spec.entry.by_uid key spec.entry.last shown (row_of shown.uid rows.now)) }
    ensures numbers { OnOk result (IsSameOrAppended (number_or_uid spec.entry.by_uid shown)
        (map (λ hit. hit.number) all_hits.old.items) (map (λ hit. hit.number) all_hits.new.items)) }
{
    match rows.row_near(shown.place(), shown.uid) {
        None => Ok(()),
        Some(row) => {
            if !hits(alloc, spec.last, shown, &row, spec.steps)? {
                return Ok(());
            }
            push_one(
                all_hits,
                Hit {
                    number: shown_number(spec.by_uid, shown),
                    modseq: row.modseq,
                },
            )
        }
    }
}

/// The number by which a SEARCH names a message: its UID or its message number.
#[inline(always)]
pub(crate) fn shown_number(by_uid: bool, shown: ViewedMessage) -> u32
    ensures { result ≡ number_or_uid by_uid shown }
{
    if by_uid { shown.uid } else { shown.number }
}

/// Whether a key has a MODSEQ test.
fn asks_modseq(steps: &[SearchStep]) -> bool
    ensures { result ≡ list_any step_names_modseq steps.now }
{
    for step in steps {
        if step_names_modseq(step) {
            return true;
        }
    }
    false
}

fn step_names_modseq(step: &SearchStep) -> bool
    ensures { result ≡ step_names_modseq step.now }
{
    match step {
        SearchStep::Test(SearchTest::ModSeq { .. }) => true,
        _ => false,
    }
}

/// The results for these hits.
fn results(
    alloc: Global,
    hits: &[Hit],
    options: &[SearchOption],
    with_modseq: bool,
) -> Result<SearchResults, AllocError>
    requires { AreRisingFrom 1 (map (λ hit. hit.number) hits.now) }
    ensures { IfOk result (λ results. results ≡ results_of options.now with_modseq hits.now) }
{
    let all = all_numbers(alloc, hits, asks_all(options))?;
    Ok(SearchResults {
        min: number_if_asked(asks_option(options, SearchOption::Min), first_hit(hits)),
        max: number_if_asked(asks_option(options, SearchOption::Max), last_hit(hits)),
        all,
        count: asks_option(options, SearchOption::Count).then_some(count_of(hits)),
        modseq: modseq_if_reported(is_modseq_asked(with_modseq, hits), options, hits),
    })
}

/// The numbers of all hits, if they are asked for.
fn all_numbers(alloc: Global, hits: &[Hit], is_asked: bool) -> Result<NumberSet, AllocError>
    requires { AreRisingFrom 1 (map (λ hit. hit.number) hits.now) }
    ensures { IfOk result
        (λ numbers. numbers ≡ (if is_asked then map (λ hit. hit.number) hits.now else [])) }
{
    if !is_asked {
        return Ok(NumberSet::new(alloc));
    }
    numbers(alloc, hits)
}

fn numbers(alloc: Global, hits: &[Hit]) -> Result<NumberSet, AllocError>
    requires { AreRisingFrom 1 (map (λ hit. hit.number) hits.now) }
    ensures { IfOk result (λ numbers. numbers ≡ map (λ hit. hit.number) hits.now) }
{
    let mut numbers = NumberSet::new(alloc);
    for hit in hits {
        numbers.push(hit.number)?;
    }
    Ok(numbers)
}

/// Whether the results include a mod-sequence.
fn is_modseq_asked(with_modseq: bool, hits: &[Hit]) -> bool
    ensures { result ≡ (with_modseq && not (length hits.now == 0)) }
{
    with_modseq && !hits.is_empty()
}

/// The mod-sequence of the results, if they include it.
fn modseq_if_reported(is_reported: bool, options: &[SearchOption], hits: &[Hit]) -> Option<u64>
    ensures { result
        ≡ (if is_reported then Some (modseq_of_result options.now hits.now) else None) }
{
    if !is_reported {
        return None;
    }
    Some(modseq_of_result(options, hits))
}

fn first_hit(hits: &[Hit]) -> Option<Hit>
    ensures { result ≡ first_hit hits.now }
{
    match hits {
        [] => None,
        [first, ..] => Some(*first),
    }
}

fn last_hit(hits: &[Hit]) -> Option<Hit>
    ensures { result ≡ last_hit hits.now }
{
    match hits {
        [] => None,
        [.., last] => Some(*last),
    }
}

/// The number of a hit, if it is asked for.
fn number_if_asked(is_requested: bool, hit: Option<Hit>) -> Option<u32>
    ensures { result ≡ if_requested is_requested (number_in hit) }
{
    if !is_requested {
        return None;
    }
    match hit {
        None => None,
        Some(hit) => Some(hit.number),
    }
}

/// The mod-sequence of a hit, if it is asked for; 0 otherwise.
fn modseq_if_asked(is_requested: bool, hit: Option<Hit>) -> u64
    ensures { result ≡ modseq_in (if_requested is_requested hit) }
{
    if !is_requested {
        return 0;
    }
    match hit {
        None => 0,
        Some(hit) => hit.modseq,
    }
}

/// The number of hits.
fn count_of(hits: &[Hit]) -> u32
    requires { AreRisingFrom 1 (map (λ hit. hit.number) hits.now) }
    ensures { result ≡ length hits.now }
{
    let _last = last_number(hits);
    match u32::try_from(hits.len()) {
        Ok(count) => count,
        Err(_) => unreachable!(),
    }
}

/// The last hit's number, 0 if there is no hit.
fn last_number(hits: &[Hit]) -> u32
    ensures { result ≡ last_number 0 hits.now }
{
    match hits {
        [] => 0,
        [.., last] => last.number,
    }
}

/// The mod-sequence of the results (RFC 7162, section 3.1.5): the greatest of the first and last
/// hit if only MIN or MAX or both are asked for, else of all hits.
fn modseq_of_result(options: &[SearchOption], hits: &[Hit]) -> u64
    ensures { result ≡ modseq_of_result options.now hits.now }
{
    if !asks_only_min_or_max(options) {
        return greatest_modseq(hits);
    }
    let first = modseq_if_asked(asks_option(options, SearchOption::Min), first_hit(hits));
    let last = modseq_if_asked(asks_option(options, SearchOption::Max), last_hit(hits));
    first.max(last)
}

fn greatest_modseq(hits: &[Hit]) -> u64
    ensures { result ≡ greatest (map (λ hit. hit.modseq) hits.now) }
{
    let mut greatest = 0u64;
    for hit in hits {
        greatest = greatest.max(hit.modseq);
    }
    greatest
}

/// Whether all hits are asked for: by ALL, or by no option at all.
fn asks_all(options: &[SearchOption]) -> bool
    ensures { result ≡ asks_all options.now }
{
    options.is_empty() || asks_option(options, SearchOption::All)
}

/// Whether there are options, and each is MIN or MAX.
fn asks_only_min_or_max(options: &[SearchOption]) -> bool
    ensures { result ≡ asks_only_min_or_max options.now }
{
    !asks_all(options) && !asks_option(options, SearchOption::Count)
}

fn asks_option(options: &[SearchOption], option: SearchOption) -> bool
    ensures { result ≡ asks_option option options.now }
{
    for other in options {
        if *other == option {
            return true;
        }
    }
    false
}
