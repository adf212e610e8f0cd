//! Folders, subscriptions, UIDs and mod-sequences in tables equal those in plain lists.

ghost use Rattle.std.specs.Prelude.{IfOk, []};
ghost use Rattle.uid_projection.specs.Following.{Follows};

use crate::comparisons::{are_ids_alike, are_messages_alike, are_names_alike, are_rows_alike};
use crate::drafts::NAMES;
use crate::fixtures::{Mailboxes, Trouble, empty};
use crate::generated::{LISTS, generated_ops};
use crate::plain_charts::PlainReplica;
use crate::plain_inbox::PlainInbox;
use crate::plain_mailboxes::{PlainMailboxes, ids_of};
use crate::row_look_ups::{
    are_changes_alike, are_later_origins_alike, are_origins_alike, are_uids_alike,
};
use causal_inbox::Inbox;
use crdt_ops::SoundOp;
use folder_state::Folders;
use imap_types::Name;
use merge_laws::{Caused, FirstFollower};
use std::alloc::{AllocError, Global};
use std::test::Fail;
use subs_state::Subs;
use tags_clocks::ReplicaId;
use uid_projection::{Charts, Counters};

type Replica = Inbox<Mailboxes, FirstFollower<Charts>>;

/// A replica whose counters begin at 1, which has received nothing.
fn replica(alloc: Global, number: u32) -> Result<Replica, Trouble> {
    let Some(replica) = ReplicaId::new(number) else {
        return Err(Trouble::NotInForm);
    };
    let follower = charts(alloc, replica)?;
    Ok(Inbox::new(alloc, empty(alloc), FirstFollower { follower })?)
}

fn charts(alloc: Global, replica: ReplicaId) -> Result<Charts, AllocError>
    ensures { IfOk result (λ charts. Follows charts []) }
{
    let start = Counters {
        replica,
        uid: 1,
        k: 1,
    };
    Charts::new(alloc, start)
}

/// The tables of a replica.
#[derive(Clone, Copy)]
struct ReplicaTables<'a> {
    folders: &'a Folders,
    subs: &'a Subs,
    charts: &'a Charts,
}

fn tables_of(replica: &Replica) -> ReplicaTables<'_> {
    let value = replica.value();
    ReplicaTables {
        folders: &value.first,
        subs: &value.second,
        charts: &replica.follower().follower,
    }
}

/// The operations of a generated list, in the order in which they are applied.
fn applied_ops(alloc: Global, number: u32) -> Result<Vec<SoundOp>, Trouble> {
    let mut inbox = PlainInbox::new(alloc, None);
    for op in generated_ops(alloc, number)? {
        let answer = inbox.deliver(op)?;
        drop(answer);
    }
    Ok(inbox.applied)
}

/// The state in plain lists after these operations, applied in this order.
fn plain_replica_after(
    alloc: Global,
    number: u32,
    ops: &[SoundOp],
) -> Result<PlainReplica, Trouble> {
    let mut plain = PlainReplica::new(alloc, number)?;
    for op in ops {
        plain.apply(alloc, op.op())?;
    }
    Ok(plain)
}

/// Whether the names of folders and of subscriptions are equal in tables and in plain lists.
fn are_all_names_alike(
    alloc: Global,
    tables: &ReplicaTables<'_>,
    plain: &PlainMailboxes,
) -> Result<bool, Trouble> {
    Ok(
        are_names_alike(tables.folders.names(alloc), plain.names(alloc))?
            && are_names_alike(tables.subs.names(alloc), plain.subscribed_names(alloc))?,
    )
}

/// Whether the ids of a name's tags are equal in tables and in plain lists.
fn are_tags_alike(
    alloc: Global,
    tables: &ReplicaTables<'_>,
    plain: &PlainMailboxes,
    name: &Name,
) -> Result<bool, AllocError> {
    let folders = tables.folders;
    Ok(
        are_ids_alike(
            folders.tags(alloc, name),
            ids_of(alloc, &plain.folder_tags, name),
        )? && are_ids_alike(
            folders.delete_set(alloc, name),
            plain.delete_set(alloc, name),
        )? && are_ids_alike(
            tables.subs.tags(alloc, name),
            ids_of(alloc, &plain.subscriptions, name),
        )?,
    )
}

/// Whether a folder's messages are equal in tables and in plain lists.
fn are_folders_alike(
    alloc: Global,
    folders: &Folders,
    plain: &PlainMailboxes,
    name: &Name,
) -> Result<bool, AllocError> {
    Ok(
        folders.exists(name) == plain.exists(name)
            && are_messages_alike(folders.messages(alloc, name), plain.messages(alloc, name))?,
    )
}

/// Whether a folder's UIDVALIDITY, UIDNEXT and HIGHESTMODSEQ are equal in tables and in plain
/// lists.
fn are_numbers_alike(charts: &Charts, plain: &PlainReplica, name: &Name) -> bool {
    let (uidnext, highest) = plain.counters(name);
    charts.uidvalidity(name) == plain.uidvalidity(name)
        && charts.uidnext(name) == uidnext
        && charts.highest(name) == highest
}

/// Whether the folder's listing, and the rows found in it, are equal in tables and in plain lists.
fn is_listing_alike(
    alloc: Global,
    tables: &ReplicaTables<'_>,
    plain: &PlainReplica,
    name: &Name,
) -> Result<bool, AllocError> {
    let charts = tables.charts;
    let folders = tables.folders;
    let (uidnext, highest) = plain.counters(name);
    let end = uidnext.saturating_add(2);
    let plain_rows = plain.rows(alloc, name)?;
    let rows = charts.rows(alloc, folders, name)?;
    Ok(
        are_rows_alike(alloc, &rows, &plain_rows, 0)?
            && are_uids_alike(alloc, charts, folders, name, &plain_rows, end)?
            && are_changes_alike(alloc, charts, folders, name, &plain_rows, highest)?,
    )
}

/// A point of a replay, in plain lists.
#[derive(Clone, Copy)]
struct ReplayPoint<'a> {
    /// The state now.
    now: &'a PlainReplica,
    /// The next operations, six at most.
    next: &'a [SoundOp],
    /// The state after these operations.
    later: &'a PlainReplica,
    /// All operations after this point.
    rest: &'a [SoundOp],
    /// The state at the end.
    last: &'a PlainReplica,
    /// All operations.
    ops: &'a [SoundOp],
}

/// Whether everything about a name is equal in tables and in plain lists now.
fn is_name_alike(
    alloc: Global,
    tables: &ReplicaTables<'_>,
    point: &ReplayPoint<'_>,
    name: &Name,
) -> Result<bool, AllocError> {
    let now = point.now;
    Ok(
        are_tags_alike(alloc, tables, &now.mailboxes, name)?
            && are_folders_alike(alloc, tables.folders, &now.mailboxes, name)?
            && are_origins_alike(alloc, tables.folders, &now.mailboxes, name, point.ops)?
            && are_numbers_alike(tables.charts, now, name)
            && is_listing_alike(alloc, tables, now, name)?,
    )
}

/// Whether the folder's existence and origins after the next operations, and its existence at the
/// end, are those of the later plain lists.
fn is_later_folder_alike(folders: &Folders, point: &ReplayPoint<'_>, name: &Name) -> bool {
    let later = &point.later.mailboxes;
    folders.exists_after(name, point.next) == later.exists(name)
        && folders.exists_after(name, point.rest) == point.last.mailboxes.exists(name)
        && are_later_origins_alike(folders, later, name, point.next, point.ops)
}

/// Whether a folder's numbers after these operations are those of the later plain lists.
fn are_later_numbers_alike(
    tables: &ReplicaTables<'_>,
    later: &PlainReplica,
    name: &Name,
    ops: &[SoundOp],
) -> bool {
    let charts = tables.charts;
    let folders = tables.folders;
    let (uidnext, highest) = later.counters(name);
    charts.uidvalidity_after(folders, name, ops) == later.uidvalidity(name)
        && charts.uidnext_after(folders, name, ops) == uidnext
        && charts.highest_after(folders, name, ops) == highest
}

/// Whether a folder's listing after these operations is that of the later plain lists.
fn is_later_listing_alike(
    alloc: Global,
    tables: &ReplicaTables<'_>,
    later: &PlainReplica,
    name: &Name,
    ops: &[SoundOp],
) -> Result<bool, AllocError> {
    let rows = tables.charts.rows_after(alloc, tables.folders, name, ops)?;
    let plain_rows = later.rows(alloc, name)?;
    are_rows_alike(alloc, &rows, &plain_rows, 0)
}

/// Whether everything about a name is equal in tables and in plain lists after the next operations.
fn is_later_name_alike(
    alloc: Global,
    tables: &ReplicaTables<'_>,
    point: &ReplayPoint<'_>,
    name: &Name,
) -> Result<bool, AllocError> {
    let later = point.later;
    Ok(
        is_later_folder_alike(tables.folders, point, name)
            && are_later_numbers_alike(tables, later, name, point.next)
            && is_later_listing_alike(alloc, tables, later, name, point.next)?,
    )
}

/// Whether the tables equal the plain lists now, and later ones after further operations.
fn is_point_alike(
    alloc: Global,
    tables: &ReplicaTables<'_>,
    point: &ReplayPoint<'_>,
) -> Result<bool, Trouble> {
    for octets in NAMES {
        if !is_name_alike_now_and_later(alloc, tables, point, octets)? {
            return Ok(false);
        }
    }
    are_all_names_alike(alloc, tables, &point.now.mailboxes)
}

/// Whether everything about the name with these octets is equal now, and after further operations.
fn is_name_alike_now_and_later(
    alloc: Global,
    tables: &ReplicaTables<'_>,
    point: &ReplayPoint<'_>,
    octets: &[u8],
) -> Result<bool, AllocError> {
    let name = Name::from_slice(alloc, octets)?;
    Ok(
        is_name_alike(alloc, tables, point, &name)?
            && is_later_name_alike(alloc, tables, point, &name)?,
    )
}

/// A list of operations in the order in which a replica applies them.
#[derive(Drop)]
struct AppliedList {
    /// The replica's number.
    number: u32,
    ops: Vec<SoundOp>,
    /// The state in plain lists after all operations.
    last: PlainReplica,
}

/// The list with this number, as applied by one of nine replicas.
fn applied_list(alloc: Global, list: u32) -> Result<AppliedList, Trouble> {
    let number = 1 + list % 9;
    let ops = applied_ops(alloc, list)?;
    let last = plain_replica_after(alloc, number, &ops)?;
    Ok(AppliedList { number, ops, last })
}

/// Whether the tables equal the plain lists after the first `at` operations, and after some further
/// ones.
fn is_prefix_alike(
    alloc: Global,
    tables: &ReplicaTables<'_>,
    list: &AppliedList,
    at: usize,
) -> Result<bool, Trouble> {
    let ops = list.ops.as_slice();
    let (front, rest) = ops.split_at(at.min(ops.len()));
    let (next, _) = rest.split_at((at % 7).min(rest.len()));
    let now = plain_replica_after(alloc, list.number, front)?;
    let (both, _) = ops.split_at(front.len().saturating_add(next.len()).min(ops.len()));
    let later = plain_replica_after(alloc, list.number, both)?;
    let point = ReplayPoint {
        now: &now,
        next,
        later: &later,
        rest,
        last: &list.last,
        ops,
    };
    is_point_alike(alloc, tables, &point)
}

/// The first place of a list at which tables and plain lists differ.
fn first_unlike_place(alloc: Global, list: u32) -> Result<Option<usize>, Trouble> {
    let list = applied_list(alloc, list)?;
    let mut replica = replica(alloc, list.number)?;
    for at in 0..list.ops.len() {
        if !deliver_and_compare(alloc, &mut replica, &list, at)? {
            return Ok(Some(at));
        }
    }
    Ok(None)
}

/// Applies the operation at this place, and returns whether tables and plain lists are equal after
/// it. They are compared at one place in 25, and at the end.
fn deliver_and_compare(
    alloc: Global,
    replica: &mut Replica,
    list: &AppliedList,
    at: usize,
) -> Result<bool, Trouble> {
    let Some(op) = list.ops.get(at) else {
        return Ok(false);
    };
    let copy = op.copy(alloc)?;
    if replica.deliver(alloc, copy).is_err() {
        return Ok(false);
    }
    let count = at.saturating_add(1);
    if count % 25 != 0 && count != list.ops.len() {
        return Ok(true);
    }
    is_prefix_alike(alloc, &tables_of(replica), list, count)
}

/// The number of parts into which the lists are divided, each with a test of its own.
const PARTS: u32 = 4;

/// The first list of this part for which tables and plain lists differ, and the place.
fn first_differing_list(alloc: Global, part: u32) -> Result<Option<(u32, usize)>, Trouble> {
    for number in 0..LISTS {
        if number % PARTS == part {
            if let Some(at) = first_unlike_place(alloc, number)? {
                return Ok(Some((number, at)));
            }
        }
    }
    Ok(None)
}

fn is_long(length: usize) -> bool {
    length >= 150 && length <= 300
}

/// The number of lists with 150 to 300 applied operations.
fn long_list_count(alloc: Global) -> Result<u32, Trouble> {
    let mut count = 0u32;
    for number in 0..LISTS {
        let ops = applied_ops(alloc, number)?;
        if is_long(ops.len()) {
            count = count.saturating_add(1);
        }
    }
    Ok(count)
}

#[test]
fn fifty_lists_are_long(rt: HostRuntime) -> Result<(), Fail> {
    assert!(rt; long_list_count(rt.alloc())? >= 50);
    Ok(())
}

#[test]
fn tables_equal_plain_lists(rt: HostRuntime) -> Result<(), Fail> {
    assert!(rt; first_differing_list(rt.alloc(), 0)?.is_none());
    Ok(())
}

#[test]
fn tables_equal_plain_lists_in_the_second_part(rt: HostRuntime) -> Result<(), Fail> {
    assert!(rt; first_differing_list(rt.alloc(), 1)?.is_none());
    Ok(())
}

#[test]
fn tables_equal_plain_lists_in_the_third_part(rt: HostRuntime) -> Result<(), Fail> {
    assert!(rt; first_differing_list(rt.alloc(), 2)?.is_none());
    Ok(())
}

#[test]
fn tables_equal_plain_lists_in_the_fourth_part(rt: HostRuntime) -> Result<(), Fail> {
    assert!(rt; first_differing_list(rt.alloc(), 3)?.is_none());
    Ok(())
}
