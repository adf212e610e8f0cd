//! A replica that threads share.

ghost use Rattle.std.specs.Prelude.{◌≡◌, ◌≢◌, OnOk, OnErr, ◌<◌, IfOk, IfErr, IfSome, IsSome, List};
ghost use Rattle.std.specs.Prelude.{None, drop, false, take};
ghost use Rattle.causal_inbox.specs.Inbox.{IsClockOf, uncovered_ops};
ghost use Rattle.crdt_ops.specs.declared.op.Op.{Op};
ghost use Rattle.merge_laws.specs.Orders.{IsCausal};
ghost use Rattle.imap_node.specs.Operations.{clock_of, id_of};

use crate::book::Book;
use crate::counted_book::CountedBook;
use crate::event::BookEvent;
use crate::faults::{CallFault, FinishFault, UnmadeCall, UnmadeCommand};
use crate::outcome::Outcome;
use crate::pass::Pass;
use crate::session_signals::SessionSignals;
use crdt_ops::SoundOp;
use imap_commands::is_idle;
use imap_node::{Auth, SessionNo};
use imap_syntax::{IdleLine, Tagged};
use imap_types::Moment;
use merge_laws::Caused;
use std::alloc::{AllocError, Global};
use std::sync::ledger::{Blank, Ledger};
use std::sync::{Condvar, Mutex, MutexGuard, Wait};
use tags_clocks::Clock;

/// A gate by which a test sets the order of threads: each thread passes it at given points.
pub trait Gate {
    /// Passes for the n-th time, from 1 on.
    fn pass(&mut self, n: u64);
}

/// A replica under a lock. Each call takes the lock, for which it may wait, for one step of the
/// replica, and notes the step in the caller's pass.
#[derive(Drop)]
pub struct Shared<L: Ledger> {
    locked: Mutex<CountedBook<L>>,
    changed: Condvar,
    /// For each session, the signal that it idles and may have to be sent something, that it begins
    /// to idle, or that it was closed.
    signals: SessionSignals,
}

/// A replica whose lock one caller has. No thread is woken before `Shared::end` releases it.
pub struct LockTurn<'a, L: Ledger> {
    locked: MutexGuard<'a, CountedBook<L>>,
    /// The value of `last_visible` when the turn began.
    before: u64,
}

impl<'a, L: Ledger> LockTurn<'a, L> {
    ghost use Rattle.replica_lock.specs.Passes.{IsCalled, IsCalledIn, IsCallRefused};
    ghost use Rattle.replica_lock.specs.Passes.{LacksRoomInCall, LacksRoomInSession};
    ghost use Rattle.replica_lock.specs.Passes.{returned_event};
    ghost use Rattle.replica_lock.specs.declared.event.BookEvent.TheVariants as events;

    /// Takes an event, and then forgets the journal's oldest entries as far as its bound demands.
    fn call(
        &mut self,
        alloc: Global,
        pass: &mut Pass<L>,
        event: BookEvent,
    ) -> Result<Option<Outcome>, UnmadeCall>
        ensures called { OnOk result (IsCalled pass.old event pass.new) }
        ensures unchanged { OnErr result (pass.new ≡ pass.old) }
        ensures refused { IfErr result (λ unmade. IsCallRefused pass.old.seen unmade.fault) }
        ensures returned { IfErr result
            (λ unmade. unmade.event ≡ returned_event event unmade.fault) }
        ensures lacking { IfErr result (λ unmade. LacksRoomInCall event unmade.fault) }
    {
        let result = self.locked.call(alloc, pass, event);
        self.locked.trim(pass);
        result
    }

    /// Gives the pass's session a command that arrived at this moment and doesn't begin IDLE: a
    /// turn doesn't wake the threads that wait for a session to idle.
    pub fn command(
        &mut self,
        alloc: Global,
        pass: &mut Pass<L>,
        moment: Moment,
        tagged: Tagged,
    ) -> Result<(), CallFault>
        requires session { IsSome pass.old.session }
        ensures called { OnOk result
            (IsCalledIn pass.old (λ n. events.Command n moment tagged) pass.new) }
        ensures unchanged { OnErr result (pass.new ≡ pass.old) }
        ensures refused { IfErr result (IsCallRefused pass.old.seen) }
        ensures lacking { IfErr result
            (LacksRoomInSession pass.old (λ n. events.Command n moment tagged)) }
    {
        let Some(session) = pass.session() else {
            unreachable!()
        };
        let command = BookEvent::Command {
            session,
            moment,
            tagged,
        };
        match self.call(alloc, pass, command) {
            Ok(last) => {
                pass.store_spent(last);
                Ok(())
            }
            Err(unmade) => Err(unmade.into_fault()),
        }
    }
}

impl<L: Ledger> Shared<L> {
    ghost use Rattle.replica_lock.specs.Passes.{ArePassesOfBook, IsCalled, IsCalledIn};
    ghost use Rattle.replica_lock.specs.Passes.{IsFinishFault, returned_command, returned_event};
    ghost use Rattle.replica_lock.specs.Passes.{IsCallRefused, is_missing, parts_of, unused_pass};
    ghost use Rattle.replica_lock.specs.Passes.{LacksRoomInCall, LacksRoomInSession};
    ghost use Rattle.replica_lock.specs.Histories.{BookState, entry_count};
    ghost use Rattle.replica_lock.specs.declared.event.BookEvent.TheVariants as events;

    /// Puts a replica under a lock. Its journal forgets no entry. The pass counts all entries ever
    /// made in the book, and all other passes are cut from it.
    pub fn new(blank: Blank, book: Book) -> (Shared<L>, Pass<L>)
        requires name { blank.name ≡ L.name }
        requires parts { (blank.parts ≡ L.parts) × (L.parts ≡ 4294967295) }
        ensures { result.1 ≡ unused_pass 4294967295 (entry_count book) }
    {
        Shared::with_store(blank, book, None, None)
    }

    /// Puts a replica under a lock, as `new` does. After each call the journal forgets its oldest
    /// entries until the others take at most `bound` octets, by their own estimates; `None` is no
    /// bound. Of equal entries it stores as many as fit.
    pub fn with_bound(blank: Blank, book: Book, bound: Option<u64>) -> (Shared<L>, Pass<L>)
        requires name { blank.name ≡ L.name }
        requires parts { (blank.parts ≡ L.parts) × (L.parts ≡ 4294967295) }
        ensures { result.1 ≡ unused_pass 4294967295 (entry_count book) }
    {
        Shared::with_store(blank, book, bound, None)
    }

    /// Puts a replica under a lock, as `with_bound` does. Its log has room for `room` octets;
    /// `None` if there is no log. A command or delivery is refused if that is too little for the
    /// operations that it issues or delivers; these take their part of the room, held ones too.
    pub fn with_store(
        blank: Blank,
        book: Book,
        bound: Option<u64>,
        room: Option<u64>,
    ) -> (Shared<L>, Pass<L>)
        requires name { blank.name ≡ L.name }
        requires parts { (blank.parts ≡ L.parts) × (L.parts ≡ 4294967295) }
        ensures { result.1 ≡ unused_pass 4294967295 (entry_count book) }
    {
        let (calls, share) = blank.open::<L>();
        let mut calls = calls;
        let entries = book.len();
        let signals = SessionSignals::new(book.alloc());
        let pass = Pass::whole(&mut calls, share, entries);
        let shared = Shared {
            locked: Mutex::new(CountedBook::new(book, calls, bound, room)),
            changed: Condvar::new(),
            signals,
        };
        (shared, pass)
    }

    fn call<R: Wait>(
        &self,
        rt: &R,
        alloc: Global,
        pass: &mut Pass<L>,
        event: BookEvent,
    ) -> Result<(), CallFault>
        ensures called { OnOk result (IsCalled pass.old event pass.new) }
        ensures unchanged { OnErr result (pass.new ≡ pass.old) }
        ensures refused { IfErr result (IsCallRefused pass.old.seen) }
    {
        match self.try_call(rt, alloc, pass, event) {
            Ok(()) => Ok(()),
            Err(unmade) => Err(unmade.into_fault()),
        }
    }

    /// Makes a call; if only the log lacks room, its event is returned.
    fn try_call<R: Wait>(
        &self,
        rt: &R,
        alloc: Global,
        pass: &mut Pass<L>,
        event: BookEvent,
    ) -> Result<(), UnmadeCall>
        ensures called { OnOk result (IsCalled pass.old event pass.new) }
        ensures unchanged { OnErr result (pass.new ≡ pass.old) }
        ensures refused { IfErr result (λ unmade. IsCallRefused pass.old.seen unmade.fault) }
        ensures returned { IfErr result
            (λ unmade. unmade.event ≡ returned_event event unmade.fault) }
        ensures lacking { IfErr result (λ unmade. LacksRoomInCall event unmade.fault) }
    {
        let woken = woken_session(&event);
        pass.drop_forgotten();
        let mut turn = self.turn(rt);
        let result = turn.call(alloc, pass, event);
        self.end(turn);
        if let Some(session) = woken {
            self.signals.signal_of(session).notify_all();
        }
        // The outcome of the previous call is dropped only here, after the lock was released: it
        // may be long. The entries that the book forgot at this call are taken out by
        // `Pass::take_spent`, or else dropped before the pass's next call.
        match result {
            Ok(last) => {
                pass.store_spent(last);
                Ok(())
            }
            Err(unmade) => Err(unmade),
        }
    }

    /// Takes the lock, for which it may wait, for several calls of one caller. All others wait
    /// until `end` releases it.
    pub fn turn<R: Wait>(&self, rt: &R) -> LockTurn<'_, L> {
        let locked = self.locked.lock(rt);
        let before = locked.last_visible();
        LockTurn { locked, before }
    }

    /// Releases the lock, and wakes the threads that wait for what these calls changed.
    pub fn end(&self, turn: LockTurn<'_, L>) {
        let LockTurn { locked, before } = turn;
        if locked.last_visible() != before {
            self.signals.notify(locked.book().node());
        }
        drop(locked);
        self.changed.notify_all();
    }

    /// Opens a session, for a pass that has none.
    pub fn open<R: Wait>(
        &self,
        rt: &R,
        alloc: Global,
        pass: &mut Pass<L>,
        auth: Auth,
    ) -> Result<(), CallFault>
        requires { pass.old.session ≡ None }
        ensures called { OnOk result (IsCalled pass.old (events.Open auth) pass.new) }
        ensures unchanged { OnErr result (pass.new ≡ pass.old) }
        ensures refused { IfErr result (IsCallRefused pass.old.seen) }
    {
        self.call(rt, alloc, pass, BookEvent::Open { auth })
    }

    /// Gives the pass's session a command that arrived at this moment. If only the replica's log
    /// lacks room for its operations, the command is returned.
    pub fn command<R: Wait>(
        &self,
        rt: &R,
        alloc: Global,
        pass: &mut Pass<L>,
        moment: Moment,
        tagged: Tagged,
    ) -> Result<(), UnmadeCommand>
        requires { IsSome pass.old.session }
        ensures called { OnOk result
            (IsCalledIn pass.old (λ n. events.Command n moment tagged) pass.new) }
        ensures unchanged { OnErr result (pass.new ≡ pass.old) }
        ensures refused { IfErr result (λ unmade. IsCallRefused pass.old.seen unmade.fault) }
        ensures returned { IfErr result
            (λ unmade. unmade.tagged ≡ returned_command tagged unmade.fault) }
        ensures lacking { IfErr result (λ unmade. LacksRoomInSession pass.old
            (λ n. events.Command n moment tagged) unmade.fault) }
    {
        let Some(session) = pass.session() else {
            unreachable!()
        };
        let event = BookEvent::Command {
            session,
            moment,
            tagged,
        };
        match self.try_call(rt, alloc, pass, event) {
            Ok(()) => Ok(()),
            Err(unmade) => Err(unmade.into_command()),
        }
    }

    /// Gives the pass's session a line, in IDLE (RFC 2177, section 3).
    pub fn done<R: Wait>(
        &self,
        rt: &R,
        alloc: Global,
        pass: &mut Pass<L>,
        line: IdleLine,
    ) -> Result<(), CallFault>
        requires { IsSome pass.old.session }
        ensures called { OnOk result (IsCalledIn pass.old (λ n. events.Line n line) pass.new) }
        ensures unchanged { OnErr result (pass.new ≡ pass.old) }
        ensures refused { IfErr result (IsCallRefused pass.old.seen) }
    {
        let Some(session) = pass.session() else {
            unreachable!()
        };
        self.call(rt, alloc, pass, BookEvent::Line { session, line })
    }

    /// Sends the pass's session, in IDLE, the changes.
    pub fn poll<R: Wait>(&self, rt: &R, alloc: Global, pass: &mut Pass<L>) -> Result<(), CallFault>
        requires { IsSome pass.old.session }
        ensures called { OnOk result (IsCalledIn pass.old (λ n. events.Poll n) pass.new) }
        ensures unchanged { OnErr result (pass.new ≡ pass.old) }
        ensures refused { IfErr result (IsCallRefused pass.old.seen) }
    {
        let Some(session) = pass.session() else {
            unreachable!()
        };
        self.call(rt, alloc, pass, BookEvent::Poll { session })
    }

    /// Delivers an operation of another replica.
    pub fn deliver<R: Wait>(
        &self,
        rt: &R,
        alloc: Global,
        pass: &mut Pass<L>,
        op: SoundOp,
    ) -> Result<(), CallFault>
        ensures called { OnOk result (IsCalled pass.old (events.Deliver op) pass.new) }
        ensures unchanged { OnErr result (pass.new ≡ pass.old) }
        ensures refused { IfErr result (IsCallRefused pass.old.seen) }
    {
        self.call(rt, alloc, pass, BookEvent::Deliver { op })
    }

    /// Applies held operations whose causes were applied.
    pub fn drain<R: Wait>(&self, rt: &R, alloc: Global, pass: &mut Pass<L>) -> Result<(), CallFault>
        ensures called { OnOk result (IsCalled pass.old events.Drain pass.new) }
        ensures unchanged { OnErr result (pass.new ≡ pass.old) }
        ensures refused { IfErr result (IsCallRefused pass.old.seen) }
    {
        self.call(rt, alloc, pass, BookEvent::Drain)
    }

    /// Closes the pass's session.
    pub fn close<R: Wait>(&self, rt: &R, alloc: Global, pass: &mut Pass<L>) -> Result<(), CallFault>
        requires { IsSome pass.old.session }
        ensures called { OnOk result (IsCalledIn pass.old (λ n. events.Close n) pass.new) }
        ensures unchanged { OnErr result (pass.new ≡ pass.old) }
        ensures refused { IfErr result (IsCallRefused pass.old.seen) }
    {
        let Some(session) = pass.session() else {
            unreachable!()
        };
        self.call(rt, alloc, pass, BookEvent::Close { session })
    }

    /// Waits until the number of entries ever made isn't `seen`, and returns it.
    pub fn wait_change<R: Wait>(&self, rt: &R, seen: u64) -> u64
        ensures { result ≢ seen }
    {
        let locked = self
            .changed
            .wait_while(rt, self.locked.lock(rt), |locked| locked.len() == seen);
        locked.len()
    }

    /// Waits until this session may have to be sent something for an entry after the first `seen`,
    /// and returns the number of entries ever made then; `None` if the session is closed, or if the
    /// waits have ended. It looks again when the session begins to idle. While the session idles,
    /// the wait is woken only when the session's own feed has notes or missed some, at the
    /// session's close, and when the waits end.
    pub fn wait_session_change<R: Wait>(&self, rt: &R, session: SessionNo, seen: u64) -> Option<u64>
        ensures { IfSome result (λ length. seen < length) }
    {
        let locked = self.signals.signal_of(session).wait_while(
            rt,
            self.locked.lock(rt),
            |locked| !locked.has_session_change(session, seen)
                && locked.book().node().is_open(session)
                && !locked.have_waits_ended(),
        );
        if !locked.has_session_change(session, seen) {
            return None;
        }
        Some(locked.len())
    }

    /// Ends all waits for changes of sessions, those of now and later ones.
    pub fn end_waits<R: Wait>(&self, rt: &R) {
        self.locked.lock(rt).end_waits();
        self.signals.notify_all();
    }

    /// Copies of the operations that the replica applied, in their order; `Err` if memory runs out.
    /// It makes no entry, and leaves the pass as it is.
    ///
    /// It holds the lock for one run through the list, and copies each operation; a text's memory
    /// is shared. Other calls wait for as long as that takes. The copies take as much memory as the
    /// list does, at once, besides the replica's and the journal's own.
    pub fn ops_copy<R: Wait>(
        &self,
        rt: &R,
        alloc: Global,
        _pass: &Pass<L>,
    ) -> Result<Vec<SoundOp>, AllocError>
        ensures { IfOk result (λ ops. IsCausal id_of clock_of ops.items) }
    {
        copy_book_ops(alloc, self.locked.lock(rt).book())
    }

    /// A copy of the clock that counts the operations that the replica applied; `Err` if memory
    /// runs out. It takes the lock, and makes no entry.
    pub fn clock<R: Wait>(&self, rt: &R, alloc: Global) -> Result<Clock, AllocError>
        ensures { IfOk result (λ clock. (applied : List Op) × IsCausal id_of clock_of applied
            × IsClockOf id_of applied clock) }
    {
        copy_clock_of_book(alloc, self.locked.lock(rt).book())
    }

    /// Copies of the operations applied that the clock doesn't cover, in their order; `Err` if
    /// memory runs out. It takes the lock, and makes no entry.
    pub fn ops_since<R: Wait>(
        &self,
        rt: &R,
        alloc: Global,
        clock: &Clock,
    ) -> Result<Vec<SoundOp>, AllocError>
        ensures { IfOk result (λ ops. (applied : List Op) × IsCausal id_of clock_of applied
            × (ops.items ≡ uncovered_ops id_of clock.now applied)) }
    {
        ops_of_book_since(alloc, self.locked.lock(rt).book(), clock)
    }

    /// Copies of the operations that the replica applied after the first `count`, in their order;
    /// `Err` if memory runs out. It takes the lock, and makes no entry.
    pub fn ops_after<R: Wait>(
        &self,
        rt: &R,
        alloc: Global,
        count: u64,
    ) -> Result<Vec<SoundOp>, AllocError>
        ensures { IfOk result (λ ops. (applied : List Op) × IsCausal id_of clock_of applied
            × (ops.items ≡ drop count applied)) }
    {
        ops_of_book_after(alloc, self.locked.lock(rt).book(), count)
    }

    /// Copies of the first `limit` operations applied that the clock doesn't cover, in their order;
    /// `Err` if memory runs out. It takes the lock, and makes no entry.
    pub fn first_ops_since<R: Wait>(
        &self,
        rt: &R,
        alloc: Global,
        clock: &Clock,
        limit: usize,
    ) -> Result<Vec<SoundOp>, AllocError>
        ensures { IfOk result (λ ops. (applied : List Op) × IsCausal id_of clock_of applied
            × (ops.items ≡ take limit (uncovered_ops id_of clock.now applied))) }
    {
        first_ops_of_book_since(alloc, self.locked.lock(rt).book(), clock, limit)
    }

    /// Copies of at most `limit` operations that the replica applied after the first `count`, in
    /// their order; `Err` if memory runs out. It takes the lock, and makes no entry.
    pub fn first_ops_after<R: Wait>(
        &self,
        rt: &R,
        alloc: Global,
        count: u64,
        limit: usize,
    ) -> Result<Vec<SoundOp>, AllocError>
        ensures { IfOk result (λ ops. (applied : List Op) × IsCausal id_of clock_of applied
            × (ops.items ≡ take limit (drop count applied))) }
    {
        first_ops_of_book_after(alloc, self.locked.lock(rt).book(), count, limit)
    }

    /// The number of operations that the replica applied. It takes the lock, and makes no entry.
    pub fn op_count<R: Wait>(&self, rt: &R) -> u64 {
        self.locked.lock(rt).book().op_count() as u64
    }

    /// The octets that the replica's log needs, at most, for the delivery of an operation; `None`
    /// if it has room for them. It takes the lock, and makes no entry.
    pub fn lacked_room<R: Wait>(&self, rt: &R, op: &SoundOp) -> Option<u64> {
        self.locked.lock(rt).lacked_room(op)
    }

    /// Whether the replica's log, if there is one, has room for so many octets that aren't set aside
    /// for operations that it received. It takes the lock, and makes no entry.
    pub fn has_room_for<R: Wait>(&self, rt: &R, octets: u64) -> bool {
        self.locked.lock(rt).has_room_for(octets)
    }

    /// Notes that the replica's log, if there is one, has room for `room` octets, after operations
    /// were written whose lines have `written` octets at most, by `op_log::lines_bound`.
    pub fn set_room<R: Wait>(&self, rt: &R, room: u64, written: u64) {
        self.locked.lock(rt).set_room(room, written);
    }

    /// Removes the lock and returns the book if no pass is missing. `Missing` if one is, `Strange`
    /// if a pass's outcome isn't the journal's at its place, unless the entry there was forgotten.
    pub fn finish(self, passes: Vec<Pass<L>>) -> Result<Book, FinishFault>
        requires { L.parts ≡ 4294967295 }
        ensures fits { IfOk result (λ book. ArePassesOfBook book passes.items) }
        ensures denied { IfErr result
            (λ fault. (book : BookState) × IsFinishFault book passes.items fault) }
        ensures whole { parts_of passes.items ≡ 4294967295
            → IfErr result (λ fault. is_missing fault ≡ false) }
    {
        let Shared {
            locked,
            changed: _,
            signals: _,
        } = self;
        locked.into_inner().settle(passes)
    }

    /// Passes a gate while it holds the lock.
    pub fn hold<R: Wait, G: Gate>(&self, rt: &R, gate: &mut G, n: u64) {
        let locked = self.locked.lock(rt);
        gate.pass(n);
        drop(locked);
    }
}

/// The session that an event closes, or lets idle. Threads that wait for its changes look again,
/// since no change signalled them while it didn't idle.
fn woken_session(event: &BookEvent) -> Option<SessionNo> {
    match event {
        BookEvent::Close { session } => Some(*session),
        BookEvent::Command {
            session,
            tagged,
            ..
        } => {
            if is_idle(&tagged.command) {
                Some(*session)
            } else {
                None
            }
        }
        _ => None,
    }
}

/// Copies of the operations applied, in their order.
fn copy_book_ops(alloc: Global, book: &Book) -> Result<Vec<SoundOp>, AllocError>
    ensures ops { IfOk result (λ ops. ops.items ≡ book.now.node.applied) }
    ensures causal { IsCausal id_of clock_of book.now.node.applied }
{
    copy_ops(alloc, book.node().op_list())
}

/// A copy of the clock that counts the operations applied.
fn copy_clock_of_book(alloc: Global, book: &Book) -> Result<Clock, AllocError>
    ensures clock { IfOk result (λ clock. IsClockOf id_of book.now.node.applied clock) }
    ensures causal { IsCausal id_of clock_of book.now.node.applied }
{
    let _ops = book.node().op_list();
    book.node().clock().copy(alloc)
}

/// Copies of the operations applied that the clock doesn't cover, in their order.
fn ops_of_book_since(alloc: Global, book: &Book, clock: &Clock) -> Result<Vec<SoundOp>, AllocError>
    ensures ops { IfOk result
        (λ ops. ops.items ≡ uncovered_ops id_of clock.now book.now.node.applied) }
    ensures causal { IsCausal id_of clock_of book.now.node.applied }
{
    let _ops = book.node().op_list();
    book.node().ops_since(alloc, clock)
}

/// Copies of the first `limit` operations applied that the clock doesn't cover, in their order.
fn first_ops_of_book_since(
    alloc: Global,
    book: &Book,
    clock: &Clock,
    limit: usize,
) -> Result<Vec<SoundOp>, AllocError>
    ensures ops { IfOk result
        (λ ops. ops.items ≡ take limit (uncovered_ops id_of clock.now book.now.node.applied)) }
    ensures causal { IsCausal id_of clock_of book.now.node.applied }
{
    let _ops = book.node().op_list();
    book.node().first_ops_since(alloc, clock, limit)
}

/// Copies of at most `limit` operations applied after the first `count`, in their order.
fn first_ops_of_book_after(
    alloc: Global,
    book: &Book,
    count: u64,
    limit: usize,
) -> Result<Vec<SoundOp>, AllocError>
    ensures ops { IfOk result
        (λ ops. ops.items ≡ take limit (drop count book.now.node.applied)) }
    ensures causal { IsCausal id_of clock_of book.now.node.applied }
{
    let ops = book.node().op_list();
    if count > ops.len() as u64 {
        return Ok(Vec::new(alloc));
    }
    let later = &ops[count as usize..];
    copy_ops(alloc, &later[..limit.min(later.len())])
}

/// Copies of the operations applied after the first `count`, in their order.
fn ops_of_book_after(alloc: Global, book: &Book, count: u64) -> Result<Vec<SoundOp>, AllocError>
    ensures ops { IfOk result (λ ops. ops.items ≡ drop count book.now.node.applied) }
    ensures causal { IsCausal id_of clock_of book.now.node.applied }
{
    let ops = book.node().op_list();
    if count > ops.len() as u64 {
        return Ok(Vec::new(alloc));
    }
    copy_ops(alloc, &ops[count as usize..])
}

/// Copies of the operations, in their order.
fn copy_ops(alloc: Global, ops: &[SoundOp]) -> Result<Vec<SoundOp>, AllocError>
    ensures { IfOk result (λ copied. copied.items ≡ ops.now) }
{
    let mut copied = Vec::with_capacity(alloc, ops.len())?;
    for op in ops {
        copied.push(op.copy(alloc)?)?;
    }
    Ok(copied)
}
