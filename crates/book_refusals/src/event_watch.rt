//! What a play notes of its events, to compare a book after a refused event with what it was.

use crate::state_text::state_text;
use imap_connection::SessionNo;
use replica_lock::Book;
use std::alloc::{AllocError, Global};

/// What a play notes of its events. Of the book of one event, the watched one, it has the text:
/// that before the event if the event is known when the play begins, or that after it if the event
/// is the first one to be refused.
#[derive(Drop)]
pub struct EventWatch {
    /// The number of events given so far.
    given: u64,
    /// The number of events before the watched one, if there is one.
    watched: Option<u64>,
    /// The session whose mailbox the refused event left. The text is without it.
    unselected: Option<SessionNo>,
    /// The text of the book.
    text: Vec<u8>,
    /// Whether a mailbox was left by a refused event, and `CLOSED` not yet printed.
    is_closed_unprinted: bool,
}

impl EventWatch {
    /// A watch without a watched event.
    pub fn new(alloc: Global) -> EventWatch {
        EventWatch {
            given: 0,
            watched: None,
            unselected: None,
            text: Vec::new(alloc),
            is_closed_unprinted: false,
        }
    }

    /// A watch for the same event in another play.
    pub fn again(&self, alloc: Global) -> EventWatch {
        EventWatch {
            given: 0,
            watched: self.watched,
            unselected: self.unselected,
            text: Vec::new(alloc),
            is_closed_unprinted: false,
        }
    }

    /// Whether an event is watched.
    pub fn has_event(&self) -> bool {
        self.watched.is_some()
    }

    /// Whether both have the same text.
    pub fn has_text_of(&self, other: &EventWatch) -> bool {
        self.text.as_slice() == other.text.as_slice()
    }

    /// Takes the book's text if the next event is the watched one; `Err` if memory runs out.
    pub fn look(&mut self, alloc: Global, book: &Book) -> Result<(), AllocError> {
        if !self.is_next() {
            return Ok(());
        }
        self.text = state_text(alloc, book, 0, self.unselected)?;
        Ok(())
    }

    /// Whether the next event is the watched one.
    fn is_next(&self) -> bool {
        match self.watched {
            Some(before) => before == self.given,
            None => false,
        }
    }

    /// Counts an event.
    pub fn count(&mut self) {
        self.given = self.given.saturating_add(1);
    }

    /// Notes that the next event was refused, with `later` entries in the book's journal, and left
    /// that session's mailbox. `Err` if memory runs out.
    pub fn note_refusal(
        &mut self,
        alloc: Global,
        book: &Book,
        later: u64,
        unselected: Option<SessionNo>,
    ) -> Result<(), AllocError> {
        self.watched = Some(self.given);
        self.unselected = unselected;
        self.is_closed_unprinted = unselected.is_some();
        self.text = state_text(alloc, book, later, unselected)?;
        Ok(())
    }

    /// Whether `CLOSED` is still to be printed. It no longer is afterwards.
    pub fn take_closed(&mut self) -> bool {
        let is_unprinted = self.is_closed_unprinted;
        self.is_closed_unprinted = false;
        is_unprinted
    }
}
