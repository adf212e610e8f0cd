//! The places of the messages that a set names.

ghost use Rattle.std.specs.Prelude.{◌≡◌, ◌≤◌, ◌+◌, ◌-◌, ◌<◌, ◌^◌, ◌++◌, ◌∷◌, List, min, max, map};
ghost use Rattle.std.specs.Prelude.{length, IfOk, OnOk};
ghost use Rattle.session_view.specs.Views.{AreRising};
ghost use Rattle.session_view.specs.Sets.{bound_of, numbers_in_set, top_of};
ghost use Rattle.session_view.specs.declared.set_places.Span.{Span};
ghost use Rattle.session_view.specs.Spans.{AreSorted, count_below, covered, numbered, span_between};
ghost use Rattle.session_view.specs.Spans.{span_of};

use crate::view_entry::{ViewEntries, count_of, last_uid};
use imap_types::{SequenceBound, SequenceRange};
use std::alloc::{AllocError, Global};

/// Consecutive places of a view, counted from 0, from `start` up to but not including `end`.
#[derive(Clone, Copy, Drop)]
pub struct Span {
    pub start: usize,
    pub end: usize,
}

/// The numbers of the messages that a set of numbers or UIDs names, ascending. `Err` if memory runs
/// out. The set's ranges are sorted, and each is looked up in the view by binary search.
pub fn numbers_in_set(
    alloc: Global,
    by_uid: bool,
    set: &[SequenceRange],
    view: &ViewEntries,
) -> Result<Vec<u32>, AllocError>
    requires { AreRising 1 view.now.items }
    ensures { IfOk result
        (λ numbers. numbers.items ≡ numbers_in_set by_uid set.now view.now.items) }
{
    let count = count_of(view);
    let spans = sorted_spans(alloc, by_uid, set, view)?;
    let mut numbers = Vec::new(alloc);
    push_spans(spans.as_slice(), count as usize, &mut numbers)?;
    Ok(numbers)
}

/// The places that each range of a set names, sorted by their starts. `Err` if memory runs out.
fn sorted_spans(
    alloc: Global,
    by_uid: bool,
    set: &[SequenceRange],
    view: &ViewEntries,
) -> Result<Vec<Span>, AllocError>
    requires { AreRising 1 view.now.items }
    ensures sorted { IfOk result (λ spans. AreSorted 0 spans.items) }
    ensures named { IfOk result (λ spans. covered spans.items 0 (length view.now.items)
        ≡ numbers_in_set by_uid set.now view.now.items) }
{
    let mut spans = spans_of(alloc, by_uid, set, view)?;
    spans.sort_by_key(|span| span.start)?;
    Ok(spans)
}

/// The places that each range of a set names. `Err` if memory runs out.
fn spans_of(
    alloc: Global,
    by_uid: bool,
    set: &[SequenceRange],
    view: &ViewEntries,
) -> Result<Vec<Span>, AllocError>
    requires { AreRising 1 view.now.items }
    ensures { IfOk result (λ spans. spans.items ≡ map (span_of by_uid view.now.items) set.now) }
{
    let top = if by_uid {
        last_uid(view)
    } else {
        count_of(view)
    };
    let mut spans = Vec::with_capacity(alloc, set.len())?;
    for range in set {
        spans.push(span_of(by_uid, top, range, view))?;
    }
    Ok(spans)
}

/// The places that a range names. `top` is the greatest number or UID.
fn span_of(by_uid: bool, top: u32, range: &SequenceRange, view: &ViewEntries) -> Span
    requires rising { AreRising 1 view.now.items }
    requires top { top ≡ top_of by_uid view.now.items }
    ensures { result ≡ span_of by_uid view.now.items range.now }
{
    let first = bound_of(top, range.first);
    let last = bound_of(top, range.last);
    span_between(by_uid, first.min(last), first.max(last), view)
}

/// The places of the messages whose numbers or UIDs are between `first` and `last`, both included.
fn span_between(by_uid: bool, first: u32, last: u32, view: &ViewEntries) -> Span
    requires { AreRising 1 view.now.items }
    ensures { result ≡ span_between by_uid view.now.items first last }
{
    if by_uid {
        Span {
            start: count_below(view, u64::from(first)),
            end: count_below(view, u64::from(last) + 1),
        }
    } else {
        Span {
            start: (first as usize).saturating_sub(1),
            end: last as usize,
        }
    }
}

/// The number or UID of a bound. `top` is the greatest one.
fn bound_of(top: u32, bound: SequenceBound) -> u32
    ensures { result ≡ bound_of top bound }
{
    match bound {
        SequenceBound::Number(number) => number,
        SequenceBound::Greatest => top,
    }
}

/// The number of messages with UIDs below this one.
pub fn count_below(view: &ViewEntries, uid: u64) -> usize
    requires { AreRising 1 view.now.items }
    ensures { result ≡ count_below uid view.now.items }
{
    view.partition_point(|_, entry| u64::from(entry.uid) < uid)
}

/// Appends the numbers of the messages at these places of a view of `count` messages. `Err` if
/// memory runs out.
fn push_spans(spans: &[Span], count: usize, numbers: &mut Vec<u32>) -> Result<(), AllocError>
    requires count { count < 2 ^ 32 }
    requires sorted { AreSorted 0 spans.now }
    ensures { OnOk result (numbers.new.items ≡ numbers.old.items ++ covered spans.now 0 count) }
{
    let mut done = 0;
    for span in spans {
        done = push_span(*span, done, count, numbers)?;
    }
    Ok(())
}

/// Appends the numbers of the messages at the span's places from `done` on, and returns the new
/// number of places that are done. `Err` if memory runs out.
fn push_span(
    span: Span,
    done: usize,
    count: usize,
    numbers: &mut Vec<u32>,
) -> Result<usize, AllocError>
    requires count { count < 2 ^ 32 }
    requires done { done ≤ count }
    ensures done { IfOk result (λ next. next ≤ count) }
    ensures numbers { IfOk result (λ next. (rest : List Span) → AreSorted span.start rest
        → numbers.new.items ++ covered rest next (count - next)
        ≡ numbers.old.items ++ covered (span ∷ rest) done (count - done)) }
{
    let end = span.end.min(count);
    push_places(span.start.max(done), end, numbers)?;
    Ok(done.max(end))
}

/// Appends the numbers of the messages at the places from `start` up to but not including `end`.
/// `Err` if memory runs out.
fn push_places(start: usize, end: usize, numbers: &mut Vec<u32>) -> Result<(), AllocError>
    requires { end < 2 ^ 32 }
    ensures { OnOk result (numbers.new.items ≡ numbers.old.items ++ numbered start (end - start)) }
{
    numbers.reserve(end.saturating_sub(start))?;
    for place in start..end {
        numbers.push_reserved(place as u32 + 1);
    }
    Ok(())
}
