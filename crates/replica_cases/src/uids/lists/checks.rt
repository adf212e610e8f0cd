//! Compares what the tested code says after generated lists of operations with a recount.

ghost use Rattle.std.specs.Prelude.{◌≤◌};

use crate::uids::lists::counted_text::{
    put_changed, put_folder, put_ids, put_row_with, put_version_ids,
};
use crate::uids::lists::generator::{OpList, list};
use crate::uids::lists::recount::{CountedFolder, Recount};
use crate::uids::lists::tally::Tally;
use crate::uids::requests::{put_delivery, put_ready};
use crate::uids::setup::{Node, Setup, folders};
use crate::uids::tables::{
    put_after_ready, put_changes, put_folder as put_folder_now, put_row_with as put_row_now,
};
use case_lines::{Trouble, Words, long_number, parts_around};
use crdt_ops::SoundOp;
use imap_types::Name;
use merge_laws::Caused;
use std::alloc::{AllocError, Global};
use tags_clocks::OpId;

/// The folders that are asked about: those that the lists name, and one more.
const FOLDERS: &[&str] = &["INBOX", "a", "b", "c"];

/// A list that was applied, and its recounts.
#[derive(Drop)]
struct Applied<'a> {
    number: u64,
    setup: Setup,
    now: Recount<'a>,
    after: Recount<'a>,
}

/// A folder of a list that was applied, and what it is by the recounts.
#[derive(Drop)]
struct Folder {
    name: Name,
    now: CountedFolder,
    after: CountedFolder,
}

/// A question to the tested code.
#[derive(Clone, Copy)]
struct Asked<'a> {
    list: u64,
    word: &'static str,
    folder: &'a [u8],
    /// The mod-sequence, the UID, or the number of the origin.
    at: u64,
}

/// The answer by the recount, and the tested code's.
#[derive(Drop)]
struct Both {
    expected: Words,
    given: Words,
}

impl Both {
    fn new(alloc: Global) -> Both {
        Both {
            expected: Words::new(alloc),
            given: Words::new(alloc),
        }
    }
}

/// `lists FIRST LAST`: puts how many lists there are with these numbers and what occurred in them,
/// and each answer of the tested code that differs from the recount.
pub fn put_lists(fields: &str, answer: &mut Words) {
    let (first, last) = parts_around(fields, " ");
    match (long_number(first), long_number(last)) {
        (Ok(first), Ok(last)) => put_lists_from(first, last, answer),
        _ => answer.put_trouble(" ", Trouble::NotACase),
    }
}

fn put_lists_from(first: u64, last: u64, answer: &mut Words) {
    let mut tally = Tally::none();
    let mut report = Words::new(answer.alloc());
    for number in first..=last {
        if let Err(trouble) = check_list(answer.alloc(), number, &mut tally, &mut report) {
            report.put_number("\n  list ", number);
            report.put_trouble(": ", trouble);
        }
    }
    tally.put_tally(answer);
    answer.put_result(report.finish());
}

fn check_list(
    alloc: Global,
    number: u64,
    tally: &mut Tally,
    report: &mut Words,
) -> Result<(), Trouble> {
    let ops = list(alloc, number)?;
    tally.note_list(&ops);
    let setup = setup_of(alloc, number, &ops, report)?;
    let now = Recount::new(alloc, ops.start, &ops.applied, &[])?;
    let after = Recount::new(alloc, ops.start, &ops.applied, &ops.next)?;
    let applied = Applied {
        number,
        setup,
        now,
        after,
    };
    for name in FOLDERS {
        check_folder(alloc, &applied, name, tally, report)?;
    }
    Ok(())
}

/// The inbox after the list's operations, each of which it must apply alone, and the operations
/// that come next, for which it must be ready.
fn setup_of(alloc: Global, number: u64, list: &OpList, report: &mut Words) -> Result<Setup, Trouble>
    requires { 1 ≤ list.now.start.uid }
{
    let mut setup = Setup::new(alloc, list.start)?;
    let mut both = Both::new(alloc);
    apply_each(alloc, &mut setup.inbox, &list.applied, &mut both.given)?;
    add_copies(alloc, &mut setup.next, &list.next)?;
    put_ready(&mut setup, &mut both.given);
    both.expected.put(" yes");
    let asked = Asked {
        list: number,
        word: "ready",
        folder: b"",
        at: 0,
    };
    put_if_other(&asked, both, report);
    Ok(setup)
}

/// Delivers copies of the operations; puts an answer for each that isn't applied alone.
fn apply_each(
    alloc: Global,
    inbox: &mut Node,
    ops: &[SoundOp],
    answer: &mut Words,
) -> Result<(), AllocError> {
    for op in ops {
        let copied = op.copy(alloc)?;
        put_delivery(inbox, copied, answer);
    }
    Ok(())
}

/// Adds copies of the operations after the other ones.
fn add_copies(alloc: Global, ops: &mut Vec<SoundOp>, others: &[SoundOp]) -> Result<(), AllocError> {
    for op in others {
        let copied = op.copy(alloc)?;
        ops.push(copied)?;
    }
    Ok(())
}

fn check_folder(
    alloc: Global,
    applied: &Applied<'_>,
    name: &str,
    tally: &mut Tally,
    report: &mut Words,
) -> Result<(), AllocError> {
    let name = Name::from_slice(alloc, name.as_bytes())?;
    let now = applied.now.folder(alloc, &name)?;
    let after = applied.after.folder(alloc, &name)?;
    let folder = Folder { name, now, after };
    tally.note_folder(&applied.now, &folder.name, &folder.now);
    check_numbers(alloc, applied, &folder, report);
    check_changes(alloc, applied, &folder, report);
    check_rows(alloc, applied, &folder, report);
    check_presence(alloc, applied, &folder, report);
    Ok(())
}

/// Compares `folder NAME` and `after NAME`.
fn check_numbers(alloc: Global, applied: &Applied<'_>, folder: &Folder, report: &mut Words) {
    let mut both = Both::new(alloc);
    put_folder(&applied.now, &folder.now, &mut both.expected);
    put_folder_now(&applied.setup.inbox, &folder.name, &mut both.given);
    compare(applied, folder, "folder", 0, both, report);
    let mut both = Both::new(alloc);
    put_folder(&applied.after, &folder.after, &mut both.expected);
    put_after_ready(&applied.setup, &folder.name, &mut both.given);
    compare(applied, folder, "after", 0, both, report);
}

/// Compares `changed NAME M` at the first mod-sequences, the last ones, and some between.
fn check_changes(alloc: Global, applied: &Applied<'_>, folder: &Folder, report: &mut Words) {
    let highest = folder.now.highest;
    let step = (highest / 8).max(1);
    for at in 0..12u64 {
        let modseq = at.saturating_mul(step);
        check_change(alloc, applied, folder, modseq, report);
    }
    check_change(alloc, applied, folder, highest.saturating_sub(1), report);
    check_change(alloc, applied, folder, highest, report);
}

fn check_change(
    alloc: Global,
    applied: &Applied<'_>,
    folder: &Folder,
    modseq: u64,
    report: &mut Words,
) {
    let mut both = Both::new(alloc);
    put_changed(&applied.now, &folder.now, modseq, &mut both.expected);
    put_changes(&applied.setup.inbox, &folder.name, modseq, &mut both.given);
    compare(applied, folder, "changed", modseq, both, report);
}

/// Compares `row NAME UID` for each UID up to the one after UIDNEXT.
fn check_rows(alloc: Global, applied: &Applied<'_>, folder: &Folder, report: &mut Words) {
    let end = folder.now.uidnext.saturating_add(1);
    let first = end.saturating_sub(400);
    for uid in first..=end {
        let mut both = Both::new(alloc);
        put_row_with(&applied.now, &folder.now, uid, &mut both.expected);
        put_row_now(&applied.setup.inbox, &folder.name, uid, &mut both.given);
        compare(applied, folder, "row", u64::from(uid), both, report);
    }
}

/// Compares whether the folder exists, and which versions the message of each operation's id has,
/// now and after the operations that come next.
fn check_presence(alloc: Global, applied: &Applied<'_>, folder: &Folder, report: &mut Words) {
    let mut both = Both::new(alloc);
    let value = folders(&applied.setup.inbox);
    both.expected
        .put_whether(" ", applied.now.exists(&folder.name));
    both.expected
        .put_whether(" ", applied.after.exists(&folder.name));
    both.given.put_whether(" ", value.exists(&folder.name));
    both.given
        .put_whether(" ", value.exists_after(&folder.name, &applied.setup.next));
    compare(applied, folder, "exists", 0, both, report);
    for op in &applied.after.ops {
        check_versions(alloc, applied, folder, &op.id, report);
    }
}

fn check_versions(
    alloc: Global,
    applied: &Applied<'_>,
    folder: &Folder,
    origin: &OpId,
    report: &mut Words,
) {
    let mut both = Both::new(alloc);
    let value = folders(&applied.setup.inbox);
    both.expected
        .put_whether(" ", applied.now.has_version(&folder.name, origin));
    both.expected
        .put_whether(" ", applied.after.has_version(&folder.name, origin));
    put_version_ids(&applied.now, &folder.name, origin, &mut both.expected);
    both.given
        .put_whether(" ", value.has_version(&folder.name, origin));
    let has_version = value.has_version_after(&folder.name, origin, &applied.setup.next);
    both.given.put_whether(" ", has_version);
    put_ids(value.versions(alloc, &folder.name, origin), &mut both.given);
    let number = u64::from(origin.number.get());
    compare(applied, folder, "versions", number, both, report);
}

fn compare(
    applied: &Applied<'_>,
    folder: &Folder,
    word: &'static str,
    at: u64,
    both: Both,
    report: &mut Words,
) {
    let asked = Asked {
        list: applied.number,
        word,
        folder: folder.name.as_bytes(),
        at,
    };
    put_if_other(&asked, both, report);
}

/// Puts the question if the tested code's answer isn't the expected one, with both.
fn put_if_other(asked: &Asked<'_>, both: Both, report: &mut Words) {
    let Both { expected, given } = both;
    match (expected.finish(), given.finish()) {
        (Ok(expected), Ok(given)) => {
            if expected.as_slice() != given.as_slice() {
                put_difference(asked, &expected, &given, report);
            }
        }
        _ => report.give_up(),
    }
}

fn put_difference(asked: &Asked<'_>, expected: &[u8], given: &[u8], report: &mut Words) {
    report.put_number("\n  list ", asked.list);
    report.put(": ");
    report.put(asked.word);
    report.put_after(" ", asked.folder);
    report.put_number(" ", asked.at);
    report.put_after(" is by the recount\n ", expected);
    report.put_after("\n  but the answer is\n ", given);
}
