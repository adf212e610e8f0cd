//! The value under a replica's lock: the book, and the count of all calls.

ghost use Rattle.std.specs.Prelude.{◌≡◌, ◌⊎◌, ◌↔◌, ℕ, ◌<◌, ◌≤◌, ◌^◌, IsTrue, IsOk, slice_get};
ghost use Rattle.std.specs.Prelude.{OnOk, OnErr, IfOk, IfErr, IfSome, IfNone, Some, false, true};
ghost use Rattle.imap_node.specs.SessionFeeds.{IsCurrent};
ghost use Rattle.imap_node.specs.Replays.{view_at};
ghost use Rattle.session_view.specs.ViewState.{ViewState};
ghost use Rattle.replica_lock.specs.Passes.{HaveOutcomes, PassState, HasOutcomeAt, calls_of};
ghost use Rattle.replica_lock.specs.Passes.{LacksRoomAt, parts_of, returned_event, unmade_call};
ghost use Rattle.replica_lock.specs.Histories.{IsQuietAfter, book_after_forget, entry_count};
ghost use Rattle.replica_lock.specs.Steps.{ends_session};
ghost use Rattle.replica_lock.specs.declared.event.BookEvent.TheVariants.{Deliver};
ghost use Rattle.replica_lock.specs.declared.faults.CallFault.TheVariants.{NoStoreRoom};

use crate::book::Book;
use crate::event::BookEvent;
use crate::faults::{CallFault, FinishFault, StepFault, UnmadeCall};
use crate::outcome::Outcome;
use crate::pass::Pass;
use crate::store_room::{has_room, octets_of_delivery, octets_received};
use crdt_ops::SoundOp;
use imap_node::SessionNo;
use op_log::line_bound;
use std::alloc::Global;
use std::marker::Model;
use std::sync::ledger::{Book as Calls, Ledger};

/// A replica with its journal. The entries ever made are the calls that all passes count.
pub struct CountedBook<L: Ledger> {
    book: Book,
    calls: Calls<L>,
    /// The most octets that the journal's entries may take after a call, by their own estimates;
    /// `None` if there is no bound.
    bound: Option<u64>,
    /// The octets for which the replica's log has room; `None` if there is no log.
    room: Option<u64>,
    /// The octets of that room which are set aside for operations that were received or issued and
    /// aren't written yet, by the bounds of `op_log`.
    set_aside: u64,
    /// Whether no thread may wait for a session's changes any more.
    waits_ended: bool,
}

// By hand, so that crates above drop it whole.
impl<L: Ledger> Drop for CountedBook<L> {
    fn drop(self) {
        let Self {
            book: _,
            calls: _,
            bound: _,
            room: _,
            set_aside: _,
            waits_ended: _,
        } = self;
    }
}

impl<L: Ledger> Model for CountedBook<L> {
    ghost use Rattle.std.specs.Prelude.{◌≡◌};
    ghost use Rattle.replica_lock.specs.Histories.{BookState, entry_count};

    ghost Value = { BookState };

    ghost view = { λ s. s.book };

    ghost invariant = { λ s. entry_count s.book ≡ s.calls.total };
}

impl<L: Ledger> CountedBook<L> {
    ghost use Rattle.replica_lock.specs.Passes.{ArePassesOfBook, IsCall, IsCallFault};
    ghost use Rattle.replica_lock.specs.Passes.{IsFinishFault, is_missing};

    /// A book, each of whose entries is counted in `calls`. After a call the journal's entries take
    /// at most `bound` octets, if there is a bound. The replica's log, if there is one, has room
    /// for `room` octets.
    pub fn new(book: Book, calls: Calls<L>, bound: Option<u64>, room: Option<u64>) -> CountedBook<L>
        requires { entry_count book ≡ calls.total }
        ensures { result ≡ book }
    {
        CountedBook {
            book,
            calls,
            bound,
            room,
            set_aside: 0,
            waits_ended: false,
        }
    }

    /// The number of entries ever made, forgotten ones included.
    pub fn len(&self) -> u64
        ensures { result ≡ entry_count self.now }
    {
        self.book.len()
    }

    /// The place of the last entry after which another session may have to be sent something, or a
    /// later place. After none of the later entries does another session have to be sent anything.
    pub fn last_visible(&self) -> u64
        ensures within { result ≤ entry_count self.now }
        ensures quiet { IsQuietAfter self.now result }
    {
        self.book.summary().last_visible
    }

    /// Whether this session may have to be sent something for an entry after the first `seen`.
    /// `false` only if no such entry concerns sessions other than its own, or if the session's view
    /// is current.
    pub fn has_session_change(&self, session: SessionNo, seen: u64) -> bool
        ensures some { result ≡ true → seen < entry_count self.now }
        ensures none { result ≡ false
            → IsQuietAfter self.now seen
            ⊎ ((view : ViewState) → view_at self.now.node.sessions session ≡ Some view
            → IsCurrent self.now.node.start self.now.node.applied view) }
    {
        self.last_visible() > seen && self.book.node().may_have_unsent_changes(session)
    }

    /// A reference to the book.
    pub fn book(&self) -> &Book
        ensures { result.now ≡ self.now }
    {
        &self.book
    }

    /// Takes an event for a caller, and returns the outcome of the caller's previous call, which
    /// may be dropped once the lock is released. An error changes nothing, and returns the event if
    /// only the replica's log lacked room. An open session can always be closed, unless the journal
    /// was cut.
    pub fn call(
        &mut self,
        alloc: Global,
        pass: &mut Pass<L>,
        event: BookEvent,
    ) -> Result<Option<Outcome>, UnmadeCall>
        ensures called { OnOk result (IsCall self.old event self.new pass.old pass.new) }
        ensures unchanged { OnErr result ((self.new ≡ self.old) × (pass.new ≡ pass.old)) }
        ensures refused { IfErr result
            (λ unmade. IsCallFault pass.old.seen (entry_count self.old) unmade.fault) }
        ensures returned { IfErr result
            (λ unmade. unmade.event ≡ returned_event event unmade.fault) }
        ensures lacking { IfErr result (λ unmade. LacksRoomAt self.old.node event unmade.fault) }
        ensures close { pass.old.seen ≤ entry_count self.old
            → ends_session self.old.node event ≡ true → IsOk result }
    {
        let actual = self.book.len();
        let seen = pass.seen();
        if actual < seen {
            drop(event);
            return Err(UnmadeCall {
                fault: CallFault::Torn { seen, actual },
                event: None,
            });
        }
        let delivered = octets_of_delivery(&event);
        let room = self.free_room();
        let outcome = match self.book.step_within(alloc, event, room) {
            Ok(outcome) => outcome,
            Err(fault) => return Err(unmade_call(fault)),
        };
        if self.room.is_some() {
            let octets = octets_received(&outcome, delivered);
            self.set_aside = self.set_aside.saturating_add(octets);
        }
        let place = self.book.len();
        let listed = self.book.op_count() as u64;
        Ok(pass.note(&mut self.calls, outcome, place, listed))
    }

    /// The room of the replica's log that isn't set aside; `None` if there is no log.
    fn free_room(&self) -> Option<u64> {
        let room = self.room?;
        Some(room.saturating_sub(self.set_aside))
    }

    /// Whether the log has room for so many octets that aren't set aside, or there is no log.
    pub fn has_room_for(&self, octets: u64) -> bool {
        has_room(self.free_room(), octets)
    }

    /// The octets that the log needs, at most, for the delivery of an operation; `None` if it has
    /// room for them.
    pub fn lacked_room(&self, op: &SoundOp) -> Option<u64>
        ensures { IfSome result (λ octets. LacksRoomAt self.now.node (Deliver op.now)
            (NoStoreRoom octets)) }
    {
        let octets = line_bound(op);
        if has_room(self.free_room(), octets) {
            None
        } else {
            Some(octets)
        }
    }

    /// Notes that the replica's log, if there is one, has room for `room` octets, after operations
    /// were written for which `written` octets had been set aside.
    pub fn set_room(&mut self, room: u64, written: u64)
        ensures { self.new ≡ self.old }
    {
        if self.room.is_some() {
            self.room = Some(room);
        }
        self.set_aside = self.set_aside.saturating_sub(written);
    }

    /// Notes that no thread may wait for a session's changes any more.
    pub fn end_waits(&mut self)
        ensures { self.new ≡ self.old }
    {
        self.waits_ended = true;
    }

    /// Whether no thread may wait for a session's changes any more.
    pub fn have_waits_ended(&self) -> bool {
        self.waits_ended
    }

    /// Forgets the oldest entries until the others take no more octets than the bound. The pass
    /// stores them, to be dropped once the lock is released.
    pub fn trim(&mut self, pass: &mut Pass<L>)
        ensures book { (count : ℕ) × (self.new ≡ book_after_forget count self.old) }
        ensures pass { pass.new ≡ pass.old }
    {
        let Some(bound) = self.bound else {
            return;
        };
        if self.book.octets() <= bound {
            return;
        }
        let mut forgotten = pass.take_forgotten(self.book.alloc());
        self.book.forget_to(bound, &mut forgotten);
        pass.store_forgotten(forgotten);
    }

    /// Takes all passes, and returns the book. `Missing` if the passes don't count all calls;
    /// `Strange` if a pass's outcome isn't the journal's at its place, unless the entry there was
    /// forgotten.
    pub fn settle(self, passes: Vec<Pass<L>>) -> Result<Book, FinishFault>
        requires { L.parts ≡ 4294967295 }
        ensures same { IfOk result (λ book. book ≡ self) }
        ensures fits { IfOk result (λ book. ArePassesOfBook book passes.items) }
        ensures denied { IfErr result (IsFinishFault self passes.items) }
        ensures whole { parts_of passes.items ≡ 4294967295
            → IfErr result (λ fault. is_missing fault ≡ false) }
    {
        let CountedBook {
            book,
            mut calls,
            bound: _,
            room: _,
            set_aside: _,
            waits_ended: _,
        } = self;
        let mismatch = first_mismatch(&book, &passes);
        let entries = book.len();
        let made = gather(&mut calls, passes);
        if made != entries {
            drop(book);
            return Err(FinishFault::Missing {
                calls: made,
                entries,
            });
        }
        match mismatch {
            Some(place) => {
                drop(book);
                Err(FinishFault::Strange { place })
            }
            None => Ok(book),
        }
    }
}

/// The call that a step's fault leaves unmade.
fn unmade_call(fault: StepFault) -> UnmadeCall
    ensures { result ≡ unmade_call fault }
{
    match fault {
        StepFault::NoRoom => UnmadeCall {
            fault: CallFault::NoRoom,
            event: None,
        },
        StepFault::NoStoreRoom { octets, event } => UnmadeCall {
            fault: CallFault::NoStoreRoom { octets },
            event: Some(event),
        },
    }
}

/// The number of calls that the passes count, which is that of all calls if no part is missing.
fn gather<L: Ledger>(calls: &mut Calls<L>, mut passes: Vec<Pass<L>>) -> u64
    requires parts { L.parts ≡ 4294967295 }
    requires fits { calls.old.total < 2 ^ 64 }
    ensures sum { result ≡ calls_of passes.items }
    ensures whole { parts_of passes.items ≡ 4294967295 → result ≡ calls.old.total }
{
    let Some(mut all) = passes.pop() else {
        return 0;
    };
    while let Some(pass) = passes.pop() {
        all.absorb(calls, pass);
    }
    all.total(calls)
}

/// Whether the journal has the pass's last outcome at the place that the pass saw, or the entry
/// there was forgotten.
fn has_outcome_at<L: Ledger>(book: &Book, pass: &Pass<L>) -> bool
    ensures { IsTrue result ↔ HasOutcomeAt book.now pass.now.last pass.now.seen }
{
    let Some(last) = pass.last() else {
        return true;
    };
    let seen = pass.seen();
    if book.has_forgotten(seen) {
        return true;
    }
    match book.entry(seen) {
        Some(stored) => stored.has_outcome(last),
        None => false,
    }
}

/// The place seen by the first pass whose last outcome isn't the journal's at that place, if any,
/// though the entry there wasn't forgotten.
fn first_mismatch<L: Ledger>(book: &Book, passes: &[Pass<L>]) -> Option<u64>
    ensures all { IfNone result (HaveOutcomes book.now passes.now) }
    ensures one { IfSome result (λ place. (k : ℕ) × (p : PassState)
        × (slice_get passes.now k ≡ Some p) × (p.seen ≡ place)
        × (HasOutcomeAt book.now p.last p.seen → ⊥)) }
{
    for pass in passes {
        if !has_outcome_at(book, pass) {
            return Some(pass.seen());
        }
    }
    None
}
