//! The final state of two replicas after a scene, as text.

use crate::actions::FinalReport;
use crate::caller::SeenOutcomes;
use crate::output::write_answers;
use crdt_ops::SoundOp;
use merge_laws::Caused;
use replica_lock::{Book, BookEvent, EntryRef, FinishFault, Outcome};
use std::alloc::{AllocError, Global};

/// A replica after a scene: its book, or why it isn't returned, and the outcomes that its callers
/// noted.
pub struct FinalReplica {
    /// The book that was returned, or why there is none.
    pub book: Result<Book, FinishFault>,
    /// The outcomes that its callers noted.
    pub outcomes: Vec<SeenOutcomes>,
}

// By hand, so that its owners drop it whole.
impl Drop for FinalReplica {
    fn drop(self) {
        let Self {
            book: _,
            outcomes: _,
        } = self;
    }
}

impl FinalReplica {
    /// Appends the number of entries of the journal, or why it isn't returned.
    fn write_entries(&self, text: &mut String) -> Result<(), AllocError> {
        match &self.book {
            Ok(book) => {
                let entries = book.len();
                write!(text, "{entries} entries\n")
            }
            Err(FinishFault::Missing { calls, entries }) => {
                write!(text, "{calls} calls of {entries}\n")
            }
            Err(FinishFault::Strange { place }) => write!(text, "strange at {place}\n"),
        }
    }
}

/// The text so far, followed by the final report on two replicas.
pub fn with_final_report(
    alloc: Global,
    output: Result<String, AllocError>,
    final_report: FinalReport,
    one: FinalReplica,
    other: FinalReplica,
) -> Result<String, AllocError> {
    let ended = text_of_both(alloc, final_report, &one, &other);
    drop(one);
    drop(other);
    let mut text = output?;
    text.push_str(ended?.as_str())?;
    Ok(text)
}

fn text_of_both(
    alloc: Global,
    final_report: FinalReport,
    one: &FinalReplica,
    other: &FinalReplica,
) -> Result<String, AllocError> {
    let mut text = String::new(alloc);
    let books = match final_report {
        FinalReport::Entries => None,
        _ => one.book.as_ref().ok().zip(other.book.as_ref().ok()),
    };
    match books {
        Some((book, far_book)) => {
            write_books(
                alloc,
                &mut text,
                final_report,
                (book, far_book),
                &one.outcomes,
            )?;
        }
        None => {
            one.write_entries(&mut text)?;
            other.write_entries(&mut text)?;
        }
    }
    Ok(text)
}

fn write_books(
    alloc: Global,
    text: &mut String,
    final_report: FinalReport,
    books: (&Book, &Book),
    outcomes: &[SeenOutcomes],
) -> Result<(), AllocError> {
    let (one, other) = books;
    let agreed = if one.node().clock().same(other.node().clock()) {
        "agreed\n"
    } else {
        "apart\n"
    };
    match final_report {
        FinalReport::Answers => {
            text.push_str("at 1\n")?;
            write_answers(text, one)?;
            text.push_str("at 2\n")?;
            write_answers(text, other)?;
            text.push_str(agreed)
        }
        FinalReport::FirstAnswers => {
            text.push_str(agreed)?;
            write_answers(text, other)
        }
        FinalReport::Common => {
            let ops = one.node().op_list();
            let applied = ops.len();
            let common = common(ops, other.node().op_list());
            write!(text, "{applied} applied, {common} by both\n")
        }
        _ => write_history(alloc, text, one, outcomes),
    }
}

/// Whether an operation is in a list.
fn has(ops: &[SoundOp], op: &SoundOp) -> bool {
    for other in ops {
        if other.same(op) {
            return true;
        }
    }
    false
}

/// The number of operations of a list that are in another.
fn common(ops: &[SoundOp], others: &[SoundOp]) -> usize {
    let mut common = 0usize;
    for op in ops {
        if has(others, op) {
            common = common.saturating_add(1);
        }
    }
    common
}

/// Appends the number of entries of a journal, how many of the outcomes that callers noted are at
/// their places, and how many entries are commands of the callers that noted them there.
fn write_history(
    alloc: Global,
    text: &mut String,
    book: &Book,
    outcomes: &[SeenOutcomes],
) -> Result<(), AllocError> {
    let mut in_place = 0usize;
    let mut own = 0usize;
    for outcomes in outcomes {
        in_place = in_place.saturating_add(count_in_place(book, &outcomes.places));
        own = own.saturating_add(own_commands(alloc, book, outcomes)?);
    }
    let entries = book.len();
    write!(
        text,
        "{entries} entries, {in_place} as seen, {own} own commands\n"
    )
}

/// The number of outcomes that are at their noted places.
fn count_in_place(book: &Book, places: &[(u64, Outcome)]) -> usize {
    let mut in_place = 0usize;
    for (place, outcome) in places {
        if let Some(stored) = book.entry(*place) {
            if stored.has_outcome(outcome) {
                in_place = in_place.saturating_add(1);
            }
        }
    }
    in_place
}

/// The number of a caller's own commands among the entries that it noted after its first, each in
/// its order and above the entry before it.
fn own_commands(alloc: Global, book: &Book, outcomes: &SeenOutcomes) -> Result<usize, AllocError> {
    let client = outcomes.number;
    let mut own = 0usize;
    let mut last = 0u64;
    for number in 0..100u8 {
        if let Some((place, _)) = outcomes.places.get(usize::from(number).saturating_add(1)) {
            let tag = format!(in alloc; "c{client}n{number}")?;
            if *place > last && has_tag(book, *place, &tag) {
                own = own.saturating_add(1);
            }
            last = *place;
        }
    }
    Ok(own)
}

/// Whether the entry at this place is the command with this tag.
fn has_tag(book: &Book, place: u64, tag: &str) -> bool {
    let Some(stored) = book.entry(place) else {
        return false;
    };
    match stored.as_entry() {
        EntryRef::Noop { tag: entry_tag, .. } => entry_tag.as_bytes() == tag.as_bytes(),
        EntryRef::Closed { .. } => false,
        EntryRef::Exchange { exchange } => exchange.tagged.tag.as_bytes() == tag.as_bytes(),
        EntryRef::Whole { entry } => match &entry.event {
            BookEvent::Command { tagged, .. } => tagged.tag.as_bytes() == tag.as_bytes(),
            _ => false,
        },
    }
}
