//! The compact form in which a journal stores its entries.

ghost use Rattle.std.specs.Prelude.{◌≡◌, ◌↔◌, ◌∷◌, [], None, IfOk, IsTrue};
ghost use Rattle.imap_answers.specs.declared.answer.Answer.TheVariants.{Completed};
ghost use Rattle.imap_answers.specs.declared.fixed_words.CompletedWord.TheVariants as words;
ghost use Rattle.replica_lock.specs.CompactEntries.{closed_entry, entry_of_ref, noop_done};
ghost use Rattle.replica_lock.specs.CompactEntries.{noop_entry};
ghost use Rattle.replica_lock.specs.FetchAnswers.{fetch_exchange_entry};
ghost use Rattle.replica_lock.specs.declared.outcome.Outcome.TheVariants as outcomes;

use crate::book::JournalEntry;
use crate::entry_octets::{ENTRY, octets_of_entry, octets_of_exchange, octets_of_noop};
use crate::event::BookEvent;
use crate::fetch_exchange::{FetchExchange, completes};
use crate::outcome::Outcome;
use imap_answers::{Answer, CompletedWord};
use imap_node::{Reply, SessionNo};
use imap_types::{Moment, Octets};
use std::alloc::{AllocError, Global};
use std::marker::Model;

/// A journal entry in compact form. A NOOP whose reply is only its tagged OK takes no memory but
/// its tag, a command whose reply is only FETCH answers and its tagged OK takes a few words for
/// each answer, and the close of a session takes no memory besides its place, so that it can't fail
/// for lack of memory.
pub struct CompactEntry {
    form: CompactForm,
    /// The octets that it takes.
    octets: u64,
}

enum CompactForm {
    Noop {
        session: SessionNo,
        moment: Moment,
        tag: Octets,
    },
    Closed {
        session: SessionNo,
    },
    Exchange {
        exchange: Box<FetchExchange>,
    },
    Whole {
        entry: Box<JournalEntry>,
    },
}

// By hand, so that its owner drops it whole.
impl Drop for CompactForm {
    fn drop(self) {
        match self {
            Self::Noop {
                session: _,
                moment: _,
                tag: _,
            } => {}
            Self::Closed { session: _ } => {}
            Self::Exchange { exchange: _ } => {}
            Self::Whole { entry: _ } => {}
        }
    }
}

// By hand, so that crates above drop it whole.
impl Drop for CompactEntry {
    fn drop(self) {
        let Self { form: _, octets: _ } = self;
    }
}

impl Model for CompactEntry {
    ghost use Rattle.replica_lock.specs.CompactEntries.{entry_of};
    ghost use Rattle.replica_lock.specs.declared.book.JournalEntry.{JournalEntry};

    ghost Value = { JournalEntry };

    ghost view = { λ k. entry_of k.form };
}

/// A reference to a journal entry.
#[derive(Clone, Copy)]
pub enum EntryRef<'a> {
    /// A NOOP whose reply is only its tagged OK.
    Noop {
        /// The session.
        session: SessionNo,
        /// The time of its arrival.
        moment: Moment,
        /// Its tag.
        tag: &'a Octets,
    },
    /// A session that was closed.
    Closed {
        /// The session.
        session: SessionNo,
    },
    /// A command whose reply is only FETCH answers, each in compact form, and its tagged OK.
    Exchange {
        /// The command and its reply.
        exchange: &'a FetchExchange,
    },
    /// Any entry.
    Whole {
        /// The entry.
        entry: &'a JournalEntry,
    },
}

impl CompactEntry {
    /// Drops at most so many of the answers of its reply. False if none is left that takes memory.
    pub(crate) fn drop_some(&mut self, most: usize) -> bool {
        match &mut self.form {
            CompactForm::Whole { entry } => entry.outcome.drop_some(most),
            CompactForm::Exchange { exchange } => exchange.shown.drop_some(most),
            _ => false,
        }
    }

    /// The entry of a NOOP with this tag whose reply is only its tagged OK.
    pub(crate) fn of_noop(session: SessionNo, moment: Moment, tag: Octets) -> CompactEntry
        ensures { result ≡ noop_entry session moment tag }
    {
        let octets = octets_of_noop(&tag);
        CompactEntry {
            form: CompactForm::Noop {
                session,
                moment,
                tag,
            },
            octets,
        }
    }

    /// The entry of a session that was closed.
    pub(crate) fn of_close(session: SessionNo) -> CompactEntry
        ensures { result ≡ closed_entry session }
    {
        CompactEntry {
            form: CompactForm::Closed { session },
            octets: ENTRY,
        }
    }

    /// The entry of a command whose reply is only FETCH answers and its tagged OK.
    pub(crate) fn of_exchange(exchange: Box<FetchExchange>) -> CompactEntry
        ensures { result ≡ fetch_exchange_entry exchange.value }
    {
        let octets = octets_of_exchange(&exchange);
        CompactEntry {
            form: CompactForm::Exchange { exchange },
            octets,
        }
    }

    /// The octets of memory that it takes of its own, an estimate made with it. What it shares with
    /// the replica, as the text of a message, isn't counted.
    pub fn octets(&self) -> u64 {
        self.octets
    }

    /// A reference to the entry.
    pub fn as_entry(&self) -> EntryRef<'_>
        ensures { entry_of_ref result ≡ self.now }
    {
        match &self.form {
            CompactForm::Noop {
                session,
                moment,
                tag,
            } => EntryRef::Noop {
                session: *session,
                moment: *moment,
                tag,
            },
            CompactForm::Closed { session } => EntryRef::Closed { session: *session },
            CompactForm::Exchange { exchange } => EntryRef::Exchange { exchange },
            CompactForm::Whole { entry } => EntryRef::Whole { entry },
        }
    }

    /// Whether this is the outcome of its event.
    pub fn has_outcome(&self, outcome: &Outcome) -> bool
        ensures { IsTrue result ↔ (self.now.outcome ≡ outcome.now) }
    {
        match &self.form {
            CompactForm::Noop { tag, .. } => is_replied_done(outcome, tag),
            CompactForm::Closed { .. } => Outcome::Closed.same(outcome),
            CompactForm::Exchange { exchange } => exchange.has_outcome(outcome),
            CompactForm::Whole { entry } => entry.outcome.same(outcome),
        }
    }
}

/// Whether this is the outcome of a NOOP with this tag whose reply is only its tagged OK.
fn is_replied_done(outcome: &Outcome, tag: &Octets) -> bool
    ensures { IsTrue result ↔ (outcomes.Replied (noop_done tag.now) ≡ outcome.now) }
{
    match outcome {
        Outcome::Replied { reply } => is_done(reply, tag),
        _ => false,
    }
}

/// Whether a reply is only the tagged OK of a NOOP with this tag.
pub fn is_done(reply: &Reply, tag: &Octets) -> bool
    ensures { IsTrue result ↔ (noop_done tag.now ≡ reply.now) }
{
    match reply {
        Reply::Done {
            answers,
            silent,
            issued,
        } => {
            is_end(answers.as_slice(), tag)
                && silent.as_slice().is_empty()
                && issued.as_slice().is_empty()
        }
        Reply::Refused { .. } => false,
    }
}

/// Whether these answers are only the tagged OK of a NOOP with this tag.
fn is_end(answers: &[Answer], tag: &Octets) -> bool
    ensures { IsTrue result ↔ (Completed tag.now None words.Noop ∷ [] ≡ answers.now) }
{
    answers.len() == 1 && completes(&answers[0], tag, CompletedWord::Noop)
}

/// An event whose outcome isn't known yet, with all memory that its entry takes.
pub struct PendingEntry {
    entry: Box<JournalEntry>,
}

// By hand, so that functions with several exits drop it whole.
impl Drop for PendingEntry {
    fn drop(self) {
        let Self { entry: _ } = self;
    }
}

impl Model for PendingEntry {
    ghost use Rattle.replica_lock.specs.declared.event.BookEvent.{BookEvent};

    ghost Value = { BookEvent };

    ghost view = { λ b. b.entry.value.event };
}

impl PendingEntry {
    /// An entry for this event; `Err` if memory runs out.
    pub fn new(alloc: Global, event: BookEvent) -> Result<PendingEntry, AllocError>
        ensures { IfOk result (λ pending. pending ≡ event) }
    {
        let outcome = Outcome::PassedOver;
        let entry = Box::new(alloc, JournalEntry { event, outcome })?;
        Ok(PendingEntry { entry })
    }

    /// The entry, with the event's outcome. Takes no memory.
    pub fn finish(self, outcome: Outcome) -> CompactEntry
        ensures { result ≡ record { event = self; outcome = outcome } }
    {
        let PendingEntry { mut entry } = self;
        entry.outcome = outcome;
        let octets = octets_of_entry(&entry);
        CompactEntry {
            form: CompactForm::Whole { entry },
            octets,
        }
    }
}
