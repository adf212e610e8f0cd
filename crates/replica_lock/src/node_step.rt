//! One event at a node, and the journal entry that stores it.

ghost use Rattle.std.specs.Prelude.{◌≡◌, ◌↔◌, ◌+◌, true, IfErr, IfOk, IsOk, IsTrue, OnErr};
ghost use Rattle.imap_node.specs.Sessions.{IsOpen};
ghost use Rattle.imap_syntax.specs.declared.command.Command.TheVariants as commands;
ghost use Rattle.replica_lock.specs.Steps.{IsAwaitedInput, IsStep, TakesInput, ends_session};
ghost use Rattle.replica_lock.specs.Steps.{event_of};
ghost use Rattle.replica_lock.specs.StoreRoom.{HasRoomFor, IsStepFault, octets_needed};
ghost use Rattle.op_log.specs.LineBounds.{line_bound};
ghost use Rattle.replica_lock.specs.declared.faults.StepFault.TheVariants.{NoRoom};
ghost use Rattle.replica_lock.specs.declared.event.BookEvent.TheVariants as events;
ghost use Rattle.replica_lock.specs.declared.outcome.Outcome.TheVariants as outcomes;

use crate::compact_entry::{CompactEntry, PendingEntry, is_done};
use crate::event::{BookEvent, event_of};
use crate::faults::StepFault;
use crate::fetch_exchange::FetchExchange;
use crate::outcome::Outcome;
use crate::store_room::{has_room, octets_of_reply};
use causal_inbox::{DeliverFault, Delivered};
use crdt_ops::SoundOp;
use imap_node::{Auth, Input, Node, OpenFault, Reply, SessionNo};
use imap_syntax::{Command, Tagged};
use imap_types::Moment;
use merge_laws::Caused;
use op_log::line_bound;
use std::alloc::{AllocError, Global};

/// The result of a step.
#[derive(Drop)]
pub struct StepResult {
    /// The journal entry of the event.
    pub stored: CompactEntry,
    /// The event's outcome.
    pub outcome: Outcome,
}

/// Takes an event at a node, if its log has room for the octets of the operations that the node may
/// receive or issue by it; `None` if there is no log. An `Err` leaves the node as it was:
/// `NoStoreRoom`, with the event, exactly if the log has too little room, unless memory runs out
/// first; `NoRoom` if memory runs out for the journal entry. The close of a session takes no
/// memory.
pub fn step_node(
    alloc: Global,
    node: &mut Node,
    event: BookEvent,
    room: Option<u64>,
) -> Result<StepResult, StepFault>
    ensures stored { IfOk result
        (λ stepped. stepped.stored ≡ record { event = event; outcome = stepped.outcome }) }
    ensures step { IfOk result
        (λ stepped. IsStep node.old.state event stepped.outcome node.new.state) }
    ensures room { IfOk result
        (λ stepped. HasRoomFor room (octets_needed event stepped.outcome)) }
    ensures err { OnErr result (node.new.state ≡ node.old.state) }
    ensures fault { IfErr result (IsStepFault node.old.state event room) }
    ensures close { ends_session node.old.state event ≡ true → IsOk result }
{
    match event {
        BookEvent::Open { auth } => open_step(alloc, node, auth),
        BookEvent::Command {
            session,
            moment,
            tagged,
        } => input_step(
            alloc,
            node,
            session,
            Input::Command { moment, tagged },
            room,
        ),
        BookEvent::Line { session, line } => {
            input_step(alloc, node, session, Input::Line { line }, room)
        }
        BookEvent::Poll { session } => input_step(alloc, node, session, Input::Poll, room),
        BookEvent::Deliver { op } => deliver_step(alloc, node, op, room),
        BookEvent::Drain => drain_step(alloc, node),
        BookEvent::Close { session } => close_step(alloc, node, session),
    }
}

/// Opens a session.
fn open_step(alloc: Global, node: &mut Node, auth: Auth) -> Result<StepResult, StepFault>
    ensures stored { IfOk result
        (λ stepped. stepped.stored
        ≡ record { event = events.Open auth; outcome = stepped.outcome }) }
    ensures step { IfOk result
        (λ stepped. IsStep node.old.state (events.Open auth) stepped.outcome node.new.state) }
    ensures octets { IfOk result
        (λ stepped. octets_needed (events.Open auth) stepped.outcome ≡ 0) }
    ensures err { OnErr result (node.new.state ≡ node.old.state) }
    ensures fault { IfErr result (λ fault. fault ≡ NoRoom) }
{
    let Ok(stored) = copy_auth(alloc, &auth) else {
        drop(auth);
        return Err(StepFault::NoRoom);
    };
    let Ok(pending) = PendingEntry::new(alloc, BookEvent::Open { auth: stored }) else {
        drop(auth);
        return Err(StepFault::NoRoom);
    };
    let answer = node.open(auth);
    Ok(StepResult {
        stored: pending.finish(outcome_of_open(&answer)),
        outcome: outcome_of_open(&answer),
    })
}

fn outcome_of_open(answer: &Result<SessionNo, OpenFault>) -> Outcome
    ensures { result ≡ outcomes.Opened answer.now }
{
    Outcome::Opened { answer: *answer }
}

/// A copy; `Err` if memory runs out.
fn copy_auth(alloc: Global, auth: &Auth) -> Result<Auth, AllocError>
    ensures { IfOk result (λ copied. copied ≡ auth.now) }
{
    Ok(match auth {
        Auth::Preauth => Auth::Preauth,
        Auth::Password { credentials } => Auth::Password {
            credentials: credentials.copy(alloc)?,
        },
    })
}

/// Whether the session takes this input now: it is open, and idles exactly when the input is a line
/// or a poll.
fn awaits(node: &Node, session: SessionNo, input: &Input) -> bool
    ensures taken { IsTrue result ↔ IsAwaitedInput node.now.state session input.now }
    ensures opened { IsTrue result → IsOpen node.now.state.sessions session }
{
    if !node.is_open(session) {
        return false;
    }
    match input {
        Input::Command { .. } => !node.is_idling(session),
        _ => node.is_idling(session),
    }
}

/// Gives a session an input, or passes it over if the session doesn't take it. It is refused if the
/// log has too little room for what it would issue.
fn input_step(
    alloc: Global,
    node: &mut Node,
    session: SessionNo,
    input: Input,
    room: Option<u64>,
) -> Result<StepResult, StepFault>
    ensures stored { IfOk result (λ stepped. stepped.stored
        ≡ record { event = event_of session input; outcome = stepped.outcome }) }
    ensures step { IfOk result
        (λ stepped. TakesInput node.old.state session input stepped.outcome node.new.state) }
    ensures room { IfOk result (λ stepped. HasRoomFor room
        (octets_needed (event_of session input) stepped.outcome)) }
    ensures err { OnErr result (node.new.state ≡ node.old.state) }
    ensures fault { IfErr result (IsStepFault node.old.state (event_of session input) room) }
{
    if !awaits(node, session, &input) {
        return pass_over(alloc, event_of(session, input));
    }
    let plan = node.plan_for(alloc, session, &input);
    let octets = octets_of_reply(plan.reply());
    if !has_room(room, octets) {
        drop(plan);
        return Err(StepFault::NoStoreRoom {
            octets,
            event: event_of(session, input),
        });
    }
    let Ok(stored) = input_entry(alloc, session, input, plan.reply()) else {
        drop(plan);
        return Err(StepFault::NoRoom);
    };
    let reply = node.commit(plan);
    Ok(StepResult {
        stored,
        outcome: Outcome::Replied { reply },
    })
}

/// The journal entry of an input of a session with this reply; `Err` if memory runs out.
fn input_entry(
    alloc: Global,
    session: SessionNo,
    input: Input,
    reply: &Reply,
) -> Result<CompactEntry, AllocError>
    ensures { IfOk result (λ stored. stored
        ≡ record { event = event_of session input; outcome = outcomes.Replied reply.now }) }
{
    match input {
        Input::Command { moment, tagged } => {
            command_entry(alloc, session, moment, tagged, reply)
        }
        Input::Line { line } => whole_entry(alloc, BookEvent::Line { session, line }, reply),
        Input::Poll => whole_entry(alloc, BookEvent::Poll { session }, reply),
    }
}

/// The journal entry of a command of a session with this reply; `Err` if memory runs out.
fn command_entry(
    alloc: Global,
    session: SessionNo,
    moment: Moment,
    tagged: Tagged,
    reply: &Reply,
) -> Result<CompactEntry, AllocError>
    ensures { IfOk result (λ stored. stored
        ≡ record {
          event = events.Command session moment tagged;
          outcome = outcomes.Replied reply.now;
        }) }
{
    if is_noop(&tagged.command) && is_done(reply, &tagged.tag) {
        let Tagged { tag, command } = tagged;
        drop(command);
        return Ok(CompactEntry::of_noop(session, moment, tag));
    }
    let tagged = match FetchExchange::from_reply(alloc, session, moment, tagged, reply) {
        Ok(exchange) => return Ok(CompactEntry::of_exchange(exchange)),
        Err(tagged) => tagged,
    };
    let event = BookEvent::Command {
        session,
        moment,
        tagged,
    };
    whole_entry(alloc, event, reply)
}

/// Whether the command is NOOP.
fn is_noop(command: &Command) -> bool
    ensures { IsTrue result ↔ (command.now ≡ commands.Noop) }
{
    match command {
        Command::Noop => true,
        _ => false,
    }
}

/// The journal entry of any event with this reply, not in compact form; `Err` if memory runs out.
fn whole_entry(alloc: Global, event: BookEvent, reply: &Reply) -> Result<CompactEntry, AllocError>
    ensures { IfOk result
        (λ stored. stored ≡ record { event = event; outcome = outcomes.Replied reply.now }) }
{
    let pending = PendingEntry::new(alloc, event)?;
    let reply = reply.copy()?;
    Ok(pending.finish(Outcome::Replied { reply }))
}

/// Passes over an event that isn't possible. `Err` if memory runs out for its journal entry.
fn pass_over(alloc: Global, event: BookEvent) -> Result<StepResult, StepFault>
    ensures stored { IfOk result
        (λ stepped. stepped.stored ≡ record { event = event; outcome = stepped.outcome }) }
    ensures outcome { IfOk result (λ stepped. stepped.outcome ≡ outcomes.PassedOver) }
    ensures fault { IfErr result (λ fault. fault ≡ NoRoom) }
{
    let Ok(pending) = PendingEntry::new(alloc, event) else {
        return Err(StepFault::NoRoom);
    };
    Ok(StepResult {
        stored: pending.finish(Outcome::PassedOver),
        outcome: Outcome::PassedOver,
    })
}

/// Delivers an operation, if the log has room for it.
fn deliver_step(
    alloc: Global,
    node: &mut Node,
    op: SoundOp,
    room: Option<u64>,
) -> Result<StepResult, StepFault>
    ensures stored { IfOk result (λ stepped. stepped.stored
        ≡ record { event = events.Deliver op; outcome = stepped.outcome }) }
    ensures step { IfOk result
        (λ stepped. IsStep node.old.state (events.Deliver op) stepped.outcome node.new.state) }
    ensures room { IfOk result (λ stepped. HasRoomFor room (line_bound op)) }
    ensures err { OnErr result (node.new.state ≡ node.old.state) }
    ensures fault { IfErr result (IsStepFault node.old.state (events.Deliver op) room) }
{
    let octets = line_bound(&op);
    if !has_room(room, octets) {
        return Err(StepFault::NoStoreRoom {
            octets,
            event: BookEvent::Deliver { op },
        });
    }
    let Ok(stored) = op.copy(alloc) else {
        drop(op);
        return Err(StepFault::NoRoom);
    };
    let Ok(pending) = PendingEntry::new(alloc, BookEvent::Deliver { op: stored }) else {
        drop(op);
        return Err(StepFault::NoRoom);
    };
    let answer = node.deliver(alloc, op);
    Ok(StepResult {
        stored: pending.finish(outcome_of_delivery(&answer)),
        outcome: outcome_of_delivery(&answer),
    })
}

fn outcome_of_delivery(answer: &Result<Delivered, DeliverFault>) -> Outcome
    ensures { result ≡ outcomes.Delivered answer.now }
{
    Outcome::Delivered { answer: *answer }
}

/// Applies held operations whose causes were applied. The log has room for them since they were
/// delivered.
fn drain_step(alloc: Global, node: &mut Node) -> Result<StepResult, StepFault>
    ensures stored { IfOk result
        (λ stepped. stepped.stored ≡ record { event = events.Drain; outcome = stepped.outcome }) }
    ensures step { IfOk result
        (λ stepped. IsStep node.old.state events.Drain stepped.outcome node.new.state) }
    ensures octets { IfOk result
        (λ stepped. octets_needed events.Drain stepped.outcome ≡ 0) }
    ensures err { OnErr result (node.new.state ≡ node.old.state) }
    ensures fault { IfErr result (λ fault. fault ≡ NoRoom) }
{
    let Ok(pending) = PendingEntry::new(alloc, BookEvent::Drain) else {
        return Err(StepFault::NoRoom);
    };
    let drained = node.drain(alloc);
    Ok(StepResult {
        stored: pending.finish(Outcome::Drained { drained }),
        outcome: Outcome::Drained { drained },
    })
}

/// Closes a session, if it is open.
fn close_step(alloc: Global, node: &mut Node, session: SessionNo) -> Result<StepResult, StepFault>
    ensures stored { IfOk result (λ stepped. stepped.stored
        ≡ record { event = events.Close session; outcome = stepped.outcome }) }
    ensures step { IfOk result
        (λ stepped. IsStep node.old.state (events.Close session) stepped.outcome node.new.state) }
    ensures octets { IfOk result
        (λ stepped. octets_needed (events.Close session) stepped.outcome ≡ 0) }
    ensures err { OnErr result (node.new.state ≡ node.old.state) }
    ensures fault { IfErr result (λ fault. fault ≡ NoRoom) }
    ensures close { ends_session node.old.state (events.Close session) ≡ true → IsOk result }
{
    if !node.is_open(session) {
        return pass_over(alloc, BookEvent::Close { session });
    }
    node.close(session);
    Ok(StepResult {
        stored: CompactEntry::of_close(session),
        outcome: Outcome::Closed,
    })
}
