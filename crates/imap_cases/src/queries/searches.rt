//! The messages of a view that a set names.

ghost use Rattle.std.specs.Prelude.{◌≡◌, ◌↔◌, map, IsTrue};
ghost use Rattle.imap_types.specs.Numbers.{AreRisingFrom};
ghost use Rattle.imap_query.specs.Search.{number_or_uid};

use imap_query::ViewedMessage;
use imap_types::{SequenceBound, SequenceRange};
use std::alloc::{AllocError, Global};

/// The greatest number, or UID, of a view; 0 if the view is empty.
fn top_of(view: &[ViewedMessage], by_uid: bool) -> u32 {
    match view.last() {
        Some(last) => name_of(by_uid, *last),
        None => 0,
    }
}

/// Whether each number of a set of message numbers names a message of the view. A UID may name
/// none.
pub fn is_in_range(view: &[ViewedMessage], set: &[SequenceRange], by_uid: bool) -> bool {
    let top = top_of(view, by_uid);
    for range in set {
        if !by_uid && !is_within(top, range) {
            return false;
        }
    }
    true
}

/// The messages of a view that a set of numbers, or of UIDs, names.
pub fn named_messages(
    alloc: Global,
    view: &[ViewedMessage],
    set: &[SequenceRange],
    by_uid: bool,
) -> Result<Vec<ViewedMessage>, AllocError> {
    let top = top_of(view, by_uid);
    let mut named_messages = Vec::new(alloc);
    for message in view {
        if is_named(top, set, name_of(by_uid, *message)) {
            named_messages.push(*message)?;
        }
    }
    Ok(named_messages)
}

/// Whether there is a message for both ends of a range, if `top` is the greatest number.
fn is_within(top: u32, range: &SequenceRange) -> bool {
    let last = bound_of(top, range.first).max(bound_of(top, range.last));
    0 < top && last <= top
}

fn is_named(top: u32, set: &[SequenceRange], name: u32) -> bool {
    for range in set {
        if is_between(top, range, name) {
            return true;
        }
    }
    false
}

fn is_between(top: u32, range: &SequenceRange, name: u32) -> bool {
    let first = bound_of(top, range.first);
    let last = bound_of(top, range.last);
    first.min(last) <= name && name <= first.max(last)
}

fn bound_of(top: u32, bound: SequenceBound) -> u32 {
    match bound {
        SequenceBound::Number(number) => number,
        SequenceBound::Greatest => top,
    }
}

/// Whether the numbers, or the UIDs, of these messages ascend and begin at 1 or above.
pub fn are_rising(by_uid: bool, shown: &[ViewedMessage]) -> bool
    ensures { IsTrue result ↔ AreRisingFrom 1 (map (number_or_uid by_uid) shown.now) }
{
    let mut low = 1;
    for message in shown {
        let name = name_of(by_uid, *message);
        if u64::from(name) < low {
            return false;
        }
        low = u64::from(name) + 1;
    }
    true
}

/// The number, or the UID, by which a search names a message.
fn name_of(by_uid: bool, shown: ViewedMessage) -> u32
    ensures { result ≡ number_or_uid by_uid shown }
{
    if by_uid { shown.uid } else { shown.number }
}
