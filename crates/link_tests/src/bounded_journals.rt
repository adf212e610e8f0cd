//! Journals whose oldest entries are forgotten.

ghost use Rattle.std.specs.Prelude.{◌≡◌};

use crate::fixtures::{book_from, give, open_one};
use crate::output::write_id;
use crdt_ops::SoundOp;
use merge_laws::Caused;
use replica_lock::{Book, ForgottenEntries, Pass, Shared};
use std::alloc::{AllocError, Global};
use std::marker::Brand;
use std::sync::Wait;
use std::sync::ledger::{Blank, Ledger};
use std::test::*;
use tags_clocks::ReplicaId;

/// What the sessions of a replica do: one is opened and does nothing, another gives `noops` NOOPs
/// and is closed if it is to be.
#[derive(Clone, Copy, Debug, PartialEq, Eq)]
struct Work {
    bound: Option<u64>,
    noops: u32,
    closes: bool,
}

/// Gives a session's NOOPs, and closes it if it is to be. False if a call is refused.
fn carry_out<L: Ledger, R: Wait>(
    rt: &R,
    alloc: Global,
    shared: &Shared<L>,
    pass: &mut Pass<L>,
    work: Work,
) -> bool {
    if !open_one(rt, alloc, shared, pass) {
        return false;
    }
    for _ in 0..work.noops {
        if !give(rt, alloc, shared, pass, b"a NOOP\r\n") {
            return false;
        }
        pass.drop_spent();
    }
    if !work.closes || pass.session().is_none() {
        return true;
    }
    shared.close(rt, alloc, pass).is_ok()
}

/// The book after this work, if no call was refused and its passes account for it.
fn book_after<L: Ledger, R: Wait>(
    rt: &R,
    alloc: Global,
    blank: Blank,
    book: Book,
    work: Work,
) -> Option<Book>
    requires { (blank.name ≡ L.name) × (blank.parts ≡ L.parts) × (L.parts ≡ 4294967295) }
{
    let (shared, mut pass) = Shared::<L>::with_bound(blank, book, work.bound);
    let mut passes = Vec::new(alloc);
    if let Some(mut first) = pass.cut() {
        let _ = open_one(rt, alloc, &shared, &mut first);
        let _ = passes.push(first);
    }
    let done = carry_out(rt, alloc, &shared, &mut pass, work);
    let _ = passes.push(pass);
    let book = shared.finish(passes).ok();
    if !done {
        drop(book);
        return None;
    }
    book
}

/// The book of a new replica after this work; `None` if it can't be made or a call was refused.
fn new_book_after<R: Wait>(rt: &R, alloc: Global, work: Work) -> Option<Book> {
    let book = book_from(alloc, 1, 1)?;
    book_after::<Brand, R>(rt, alloc, Blank::new(4_294_967_295), book, work)
}

/// How many entries a book lends, and whether they are its last ones.
fn lent_entries(book: &Book) -> (u64, bool) {
    let forgotten = book.forgotten_count();
    let mut count = 0u64;
    let mut are_last = true;
    for place in 0..book.len().saturating_add(2) {
        let is_lent = book.entry(place).is_some();
        are_last = are_last && is_lent == (place > forgotten && place <= book.len());
        if is_lent {
            count = count.saturating_add(1);
        }
    }
    (count, are_last)
}

/// The counts of a book, and whether it lends just its last entries; if not, `moved`.
fn write_counts(text: &mut String, book: &Book) -> Result<(), AllocError> {
    let entries = book.len();
    let forgotten = book.forgotten_count();
    let (lent, are_last) = lent_entries(book);
    let summary = book.summary();
    let sessions = summary.sessions;
    let commands = summary.commands;
    write!(
        text,
        "{entries} entries, {forgotten} forgotten, {lent} lent"
    )?;
    if !are_last {
        text.push_str(", moved")?;
    }
    write!(text, "; {sessions} sessions, {commands} commands\n")
}

fn counts_after<R: Wait>(rt: &R, alloc: Global, work: Work) -> Result<String, AllocError> {
    let mut text = String::new(alloc);
    match new_book_after(rt, alloc, work) {
        Some(book) => {
            let written = write_counts(&mut text, &book);
            drop(book);
            written?;
        }
        None => text.push_str("refused\n")?,
    }
    Ok(text)
}

/// Journals with these bounds after this work, each with its counts.
const WORKS: &[(Work, &str)] = &[
    (
        Work {
            bound: None,
            noops: 40,
            closes: true,
        },
        "43 entries, 0 forgotten, 43 lent; 2 sessions, 40 commands\n",
    ),
    (
        Work {
            bound: Some(0),
            noops: 40,
            closes: true,
        },
        "43 entries, 43 forgotten, 0 lent; 2 sessions, 40 commands\n",
    ),
    (
        Work {
            bound: Some(0),
            noops: 1_200,
            closes: true,
        },
        "1203 entries, 1203 forgotten, 0 lent; 2 sessions, 1200 commands\n",
    ),
    (
        Work {
            bound: None,
            noops: 1_200,
            closes: false,
        },
        "1202 entries, 0 forgotten, 1202 lent; 2 sessions, 1200 commands\n",
    ),
];

/// The first work whose counts are others, with them.
fn first_other_counts<R: Wait>(rt: &R, alloc: Global) -> Result<String, AllocError> {
    for (work, expected) in WORKS {
        let text = counts_after(rt, alloc, *work)?;
        if text.as_str() != *expected {
            return Ok(text);
        }
    }
    Ok(String::new(alloc))
}

#[test]
fn a_journal_forgets_by_its_bound(rt: HostRuntime) -> Result<(), Fail> {
    let text = first_other_counts(&rt, rt.alloc())?;
    assert_eq!(rt; text.as_str(), "");
    Ok(())
}

/// The octets of the last entry of a book.
fn octets_of_last(book: &Book) -> u64 {
    match book.entry(book.len()) {
        Some(entry) => entry.octets(),
        None => 0,
    }
}

/// The octets of a NOOP's entry.
fn noop_octets<R: Wait>(rt: &R, alloc: Global) -> Option<u64> {
    let work = Work {
        bound: None,
        noops: 1,
        closes: false,
    };
    let book = new_book_after(rt, alloc, work)?;
    let octets = octets_of_last(&book);
    drop(book);
    Some(octets)
}

/// How many NOOPs a journal with room for `count` and a half stores after `noops` of them.
fn stored_noops<R: Wait>(rt: &R, alloc: Global, count: u64, noops: u32) -> Option<u64> {
    let octets = noop_octets(rt, alloc)?;
    let bound = octets.saturating_mul(count).saturating_add(octets / 2);
    let work = Work {
        bound: Some(bound),
        noops,
        closes: false,
    };
    let book = new_book_after(rt, alloc, work)?;
    let (lent, are_last) = lent_entries(&book);
    let fits = book.octets() <= bound;
    drop(book);
    if are_last && fits { Some(lent) } else { None }
}

#[test]
fn a_journal_stores_as_many_equal_entries_as_fit(rt: HostRuntime) {
    let alloc = rt.alloc();
    assert_eq!(rt; stored_noops(&rt, alloc, 0, 9), Some(0));
    assert_eq!(rt; stored_noops(&rt, alloc, 1, 9), Some(1));
    assert_eq!(rt; stored_noops(&rt, alloc, 10, 3_000), Some(10));
    assert_eq!(rt; stored_noops(&rt, alloc, 512, 3_000), Some(512));
    assert_eq!(rt; stored_noops(&rt, alloc, 1_100, 3_000), Some(1_100));
}

/// The counts of a book after it forgot each of these numbers of entries, one after another.
fn counts_after_forget<R: Wait>(
    rt: &R,
    alloc: Global,
    noops: u32,
    counts: &[u64],
) -> Result<String, AllocError> {
    let mut text = String::new(alloc);
    let work = Work {
        bound: None,
        noops,
        closes: false,
    };
    let Some(mut book) = new_book_after(rt, alloc, work) else {
        return Ok(text);
    };
    let written = write_after_forget(alloc, &mut text, &mut book, counts);
    drop(book);
    written?;
    Ok(text)
}

fn write_after_forget(
    alloc: Global,
    text: &mut String,
    book: &mut Book,
    counts: &[u64],
) -> Result<(), AllocError> {
    for count in counts {
        let mut forgotten = ForgottenEntries::new(alloc);
        book.forget(*count, &mut forgotten);
        drop(forgotten);
        write_counts(text, book)?;
    }
    Ok(())
}

#[test]
fn a_book_forgets_on_demand(rt: HostRuntime) -> Result<(), Fail> {
    let few = counts_after_forget(&rt, rt.alloc(), 3, &[0, 2, 1, 9])?;
    assert_eq!(rt;
        few.as_str(),
        "5 entries, 0 forgotten, 5 lent; 2 sessions, 3 commands\n5 entries, 2 forgotten, 3 lent; 2 sessions, 3 commands\n5 entries, 3 forgotten, 2 lent; 2 sessions, 3 commands\n5 entries, 5 forgotten, 0 lent; 2 sessions, 3 commands\n"
    );
    let many = counts_after_forget(&rt, rt.alloc(), 1_998, &[511, 1, 700, 1_000])?;
    assert_eq!(rt;
        many.as_str(),
        "2000 entries, 511 forgotten, 1489 lent; 2 sessions, 1998 commands\n2000 entries, 512 forgotten, 1488 lent; 2 sessions, 1998 commands\n2000 entries, 1212 forgotten, 788 lent; 2 sessions, 1998 commands\n2000 entries, 2000 forgotten, 0 lent; 2 sessions, 1998 commands\n"
    );
    Ok(())
}

/// The book after a session gave these commands, with copies of the operations that the replica
/// applied.
fn book_with_ops<L: Ledger, R: Wait>(
    rt: &R,
    alloc: Global,
    blank: Blank,
    book: Book,
    lines: &[&[u8]],
) -> Option<(Book, Vec<SoundOp>)>
    requires { (blank.name ≡ L.name) × (blank.parts ≡ L.parts) × (L.parts ≡ 4294967295) }
{
    let (shared, mut pass) = Shared::<L>::new(blank, book);
    if open_one(rt, alloc, &shared, &mut pass) {
        for line in lines {
            let _ = give(rt, alloc, &shared, &mut pass, line);
        }
    }
    let ops = shared.ops_copy(rt, alloc, &pass).ok();
    let mut passes = Vec::new(alloc);
    let _ = passes.push(pass);
    shared.finish(passes).ok().zip(ops)
}

fn restored(alloc: Global, ops: Vec<SoundOp>) -> Option<Book> {
    let id = ReplicaId::new(1)?;
    Book::restore(alloc, id, ops).ok()
}

fn write_ids(text: &mut String, ops: &[SoundOp]) -> Result<(), AllocError> {
    for op in ops {
        write_id(text, op.id())?;
        text.push_str(" ")?;
    }
    text.push_str("\n")
}

/// The counts of a replica that is restored with these operations, and after it deleted a folder
/// the counts and the operations.
fn write_restored<R: Wait>(
    rt: &R,
    alloc: Global,
    text: &mut String,
    ops: Vec<SoundOp>,
) -> Result<(), AllocError> {
    let Some(book) = restored(alloc, ops) else {
        return text.push_str("refused\n");
    };
    let written = write_counts(text, &book);
    let later = book_with_ops::<Brand, R>(
        rt,
        alloc,
        Blank::new(4_294_967_295),
        book,
        &[b"c DELETE a\r\n"],
    );
    written?;
    let Some((book, ops)) = later else {
        return text.push_str("refused\n");
    };
    let counts = write_counts(text, &book);
    let ids = write_ids(text, &ops);
    drop(book);
    drop(ops);
    counts?;
    ids
}

/// The text of a replica that created two folders, and was then restored with its operations.
fn text_of_restored<R: Wait>(rt: &R, alloc: Global) -> Result<String, AllocError> {
    let mut text = String::new(alloc);
    let Some(book) = book_from(alloc, 1, 1) else {
        return Ok(text);
    };
    let first = book_with_ops::<Brand, R>(
        rt,
        alloc,
        Blank::new(4_294_967_295),
        book,
        &[b"a CREATE a\r\n", b"b CREATE b\r\n"],
    );
    let Some((book, ops)) = first else {
        return Ok(text);
    };
    drop(book);
    write_restored(rt, alloc, &mut text, ops)?;
    Ok(text)
}

#[test]
fn a_replica_is_restored(rt: HostRuntime) -> Result<(), Fail> {
    let text = text_of_restored(&rt, rt.alloc())?;
    assert_eq!(rt;
        text.as_str(),
        "2 entries, 2 forgotten, 0 lent; 0 sessions, 0 commands\n4 entries, 2 forgotten, 2 lent; 1 sessions, 1 commands\n1:1 1:2 1:3 \n"
    );
    Ok(())
}
