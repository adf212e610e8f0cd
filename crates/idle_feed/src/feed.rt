//! `Feed`: a session's notes of what changed in its mailbox.

ghost use Rattle.std.specs.Prelude.{◌≡◌, ◌⊎◌, ◌≤◌, ◌+◌, ◌-◌, ◌&&◌, [], true, false, nat_lt, length};
ghost use Rattle.std.specs.Prelude.{min, OnOk};
ghost use Rattle.std.specs.Option.{option_copied};
ghost use Rattle.idle_feed.specs.Feeds.{pending_after, input_of_restore, pending_notes, no_pending};
ghost use Rattle.idle_feed.specs.Feeds.{input_of_note, missed_pending, taken_from};

use session_view::{Changes, Note};
use std::alloc::{AllocError, Global};
use std::marker::Model;
use std::mem;

/// The largest number of notes that a feed can have.
pub const MAX_NOTES: usize = 4_096;

/// The notes that were taken out of a feed.
#[derive(Drop)]
pub enum TakenNotes {
    /// All notes since they were last taken.
    Changes { changes: Changes },
    /// Some notes were missed, so the whole view has to be compared.
    Resync,
}

/// Notes of what is still to be sent to a session.
pub struct Feed {
    notes: Vec<Note>,
    /// Whether some notes were missed. The feed then has none.
    missed: bool,
}

// By hand, so that crates above drop it whole.
impl Drop for Feed {
    fn drop(self) {
        let Self {
            notes: _,
            missed: _,
        } = self;
    }
}

impl Model for Feed {
    ghost use Rattle.std.specs.Prelude.{◌≡◌, ◌-◌, ◌≤◌, [], true, length, vec_len, vec_capacity};
    ghost use Rattle.idle_feed.specs.Feeds.{FeedState};

    ghost Value = { FeedState };

    ghost view = { λ f. record {
      pending = record { notes = f.notes.items; missed = f.missed };
      room = vec_capacity f.notes - vec_len f.notes;
    } };

    ghost invariant = { λ f. record {
      few : length f.notes.items ≤ 4096;
      none : f.missed ≡ true → f.notes.items ≡ [];
    } };
}

impl Feed {
    /// A feed without notes and without room.
    pub fn new(alloc: Global) -> Feed
        ensures { result.pending ≡ no_pending }
    {
        Feed {
            notes: Vec::new(alloc),
            missed: false,
        }
    }

    /// Makes room for `additional` further notes, or for as many as a feed can still hold. `Err` if
    /// memory runs out; the notes stay unchanged either way.
    pub fn ready(&mut self, additional: usize) -> Result<(), AllocError>
        ensures same { self.new.pending ≡ self.old.pending }
        ensures ok { OnOk result
            (min additional (4096 - length self.old.pending.notes) ≤ self.new.room) }
        ensures room { self.old.room ≤ self.new.room }
    {
        let left = MAX_NOTES - self.notes.len();
        self.notes.reserve(additional.min(left))
    }

    /// Adds a note. Takes no memory. A note for which there is no room is missed, and so is the
    /// 4,097th.
    pub fn note(&mut self, note: Note)
        ensures pending { self.new.pending
            ≡ pending_after self.old.pending (input_of_note note (nat_lt 0 self.old.room)) }
        ensures room { self.old.room ≤ self.new.room + 1 }
    {
        if self.missed {
            return;
        }
        if self.has_place() {
            self.notes.push_reserved(note);
        } else {
            self.miss();
        }
    }

    /// Takes all notes that were added or put back since the last time, or says that some were
    /// missed. Takes no memory. The feed is empty then.
    pub fn take(&mut self) -> TakenNotes
        ensures taken { result ≡ taken_from self.old.pending }
        ensures rest { self.new.pending ≡ no_pending }
    {
        if self.missed {
            self.missed = false;
            return TakenNotes::Resync;
        }
        let empty = Vec::new(*self.notes.allocator());
        let notes = mem::replace(&mut self.notes, empty);
        TakenNotes::Changes {
            changes: Changes::new(notes),
        }
    }

    /// Puts back what was taken. Takes no memory if no note was added since.
    pub fn restore(&mut self, taken: TakenNotes)
        ensures back { self.old.pending.notes ≡ []
            → self.new.pending ≡ pending_after self.old.pending (input_of_restore taken true) }
        ensures anyhow { (self.new.pending
            ≡ pending_after self.old.pending (input_of_restore taken true))
            ⊎ (self.new.pending ≡ pending_after self.old.pending (input_of_restore taken false)) }
    {
        if self.missed {
            return;
        }
        match taken {
            TakenNotes::Resync => self.miss(),
            TakenNotes::Changes { changes } => self.push_front(changes.into_notes()),
        }
    }

    fn push_front(&mut self, notes: Vec<Note>)
        ensures back { self.old.pending.notes ≡ []
            → self.new.pending
            ≡ pending_after self.old.pending (record { notes = notes.items; has_memory = true }) }
        ensures anyhow { (self.new.pending
            ≡ pending_after self.old.pending (record { notes = notes.items; has_memory = true }))
            ⊎ (self.new.pending
            ≡ pending_after self.old.pending (record { notes = notes.items; has_memory = false })) }
    {
        if self.missed {
            return;
        }
        if self.notes.len().saturating_add(notes.len()) > MAX_NOTES {
            self.miss();
            return;
        }
        if notes.is_empty() && self.notes.is_empty() {
            return;
        }
        if self.notes.is_empty() {
            self.notes = notes;
            return;
        }
        let mut notes = notes;
        match self.notes.append(&mut notes) {
            Ok(()) => {}
            Err(_) => self.miss(),
        }
    }

    /// The notes in their order, or `None` if some were missed.
    pub fn notes(&self) -> Option<&[Note]>
        ensures { option_copied result ≡ pending_notes self.now.pending }
    {
        if self.missed { None } else { Some(&self.notes) }
    }

    /// Drops all notes, but their room stays. Takes no memory.
    pub fn clear(&mut self)
        ensures pending { self.new.pending ≡ no_pending }
        ensures room { self.new.room ≡ self.old.room + length self.old.pending.notes }
    {
        self.notes.clear();
        self.missed = false;
    }

    /// Whether there is a place for one further note.
    fn has_place(&self) -> bool
        ensures { result ≡ (nat_lt 0 self.now.room && nat_lt (length self.now.pending.notes) 4096) }
    {
        self.notes.len() < self.notes.capacity() && self.notes.len() < MAX_NOTES
    }

    /// Drops all notes and says that some were missed.
    fn miss(&mut self)
        ensures pending { self.new.pending ≡ missed_pending }
        ensures room { self.new.room ≡ self.old.room + length self.old.pending.notes }
    {
        self.notes.clear();
        self.missed = true;
    }
}
