//! The items that STATUS reports of a mailbox.

ghost use Rattle.std.specs.Prelude.{◌≡◌, ◌≤◌, true, false, length, map, min};
ghost use Rattle.std.specs.List.{filter, slice_get, sum_by};
ghost use Rattle.std.specs.Option.{option_to_list};
ghost use Rattle.imap_query.specs.Messages.{is_flagged};
ghost use Rattle.imap_query.specs.Status.{if_asked, is_asked, size_of, status_of};
ghost use Rattle.imap_syntax.specs.declared.flags.SystemFlag.TheVariants.{Deleted, Seen};
ghost use Rattle.imap_syntax.specs.declared.status.StatusItem.TheVariants.{Deleted as DeletedItem};
ghost use Rattle.imap_syntax.specs.declared.status.StatusItem.TheVariants.{Size, Unseen};

use crate::messages::is_flagged;
use imap_answers::StatusItems;
use imap_syntax::{StatusItem, SystemFlag};
use mailbox_rows::Rows;

/// A mailbox's counters, which its listing doesn't show (RFC 9051, section 2.3.1.1).
#[derive(Clone, Copy, Debug, PartialEq, Eq)]
pub struct MailboxCounters {
    /// UIDVALIDITY: the folder's incarnation.
    pub uidvalidity: u32,
    /// UIDNEXT: the UID of the next message.
    pub uidnext: u32,
    /// HIGHESTMODSEQ: the highest mod-sequence (RFC 7162, section 3.1.2.1).
    pub highest_modseq: u64,
}

/// The items that STATUS reports of a mailbox, each requested item once (RFC 9051, section 6.3.11;
/// RFC 7162, section 3.1.7). The sum of all messages' octets stops at the greatest `u64`. UNSEEN,
/// DELETED and SIZE cost a pass over the listing each, the others nothing.
pub fn status(rows: &Rows<'_>, items: &[StatusItem], counters: MailboxCounters) -> StatusItems
    ensures { result ≡ status_of items.now counters rows.now }
{
    StatusItems {
        messages: is_asked(items, StatusItem::Messages).then_some(rows.count()),
        uidnext: is_asked(items, StatusItem::UidNext).then_some(counters.uidnext),
        uidvalidity: is_asked(items, StatusItem::UidValidity).then_some(counters.uidvalidity),
        unseen: unseen_if_asked(rows, items),
        deleted: deleted_if_asked(rows, items),
        size: size_if_asked(rows, items),
        highest_modseq: is_asked(items, StatusItem::HighestModSeq).then_some(
            counters.highest_modseq,
        ),
    }
}

/// The number of messages without `\Seen`, if it is requested; else no message is looked at.
fn unseen_if_asked(rows: &Rows<'_>, items: &[StatusItem]) -> Option<u32>
    ensures { result
        ≡ if_asked Unseen items.now (length (filter (is_flagged Seen false) rows.now)) }
{
    if !is_asked(items, StatusItem::Unseen) {
        return None;
    }
    Some(count(rows, SystemFlag::Seen, false))
}

/// The number of messages with `\Deleted`, if it is requested; else no message is looked at.
fn deleted_if_asked(rows: &Rows<'_>, items: &[StatusItem]) -> Option<u32>
    ensures { result
        ≡ if_asked DeletedItem items.now (length (filter (is_flagged Deleted true) rows.now)) }
{
    if !is_asked(items, StatusItem::Deleted) {
        return None;
    }
    Some(count(rows, SystemFlag::Deleted, true))
}

/// The sum of all messages' octets, if it is requested; else no message is looked at.
fn size_if_asked(rows: &Rows<'_>, items: &[StatusItem]) -> Option<u64>
    ensures { result
        ≡ if_asked Size items.now (min (sum_by size_of rows.now) 18446744073709551615) }
{
    if !is_asked(items, StatusItem::Size) {
        return None;
    }
    Some(size(rows))
}

/// Whether an item is among those requested.
fn is_asked(items: &[StatusItem], item: StatusItem) -> bool
    ensures { result ≡ is_asked item items.now }
{
    for other in items {
        if *other == item {
            return true;
        }
    }
    false
}

/// The number of messages that have a flag, or lack it, as `is_set` asks.
fn count(rows: &Rows<'_>, flag: SystemFlag, is_set: bool) -> u32
    ensures { result ≡ length (filter (is_flagged flag is_set) rows.now) }
{
    let mut count = 0;
    for place in 0..rows.count() {
        count += count_at(rows, place, flag, is_set);
    }
    count
}

/// 1 if the message at this place has the flag, or lacks it, as `is_set` asks; 0 otherwise.
fn count_at(rows: &Rows<'_>, place: u32, flag: SystemFlag, is_set: bool) -> u32
    ensures counted { result
        ≡ length (filter (is_flagged flag is_set) (option_to_list (slice_get rows.now place))) }
    ensures bound { result ≤ 1 }
{
    match rows.row_at(place as usize) {
        None => 0,
        Some(row) => { if is_flagged(&row, flag, is_set) { 1 } else { 0 } }
    }
}

/// The sum of all messages' octets, at most the greatest `u64`.
fn size(rows: &Rows<'_>) -> u64
    ensures { result ≡ min (sum_by size_of rows.now) 18446744073709551615 }
{
    let mut size = 0u64;
    for place in 0..rows.count() {
        size = size.saturating_add(octets(rows, place));
    }
    size
}

/// The octets of the message at this place, 0 if there is none.
fn octets(rows: &Rows<'_>, place: u32) -> u64
    ensures { result ≡ sum_by size_of (option_to_list (slice_get rows.now place)) }
{
    match rows.row_at(place as usize) {
        None => 0,
        Some(row) => row.shown_text().len() as u64,
    }
}
