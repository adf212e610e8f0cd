//! Random events.

ghost use Rattle.std.specs.Prelude.{◌<◌};

use crate::commands::{MailboxEffect, command};
use crate::event_lines::tagged_command;
use case_lines::{Chance, Trouble};
use imap_commands::Credentials;
use imap_grammar::IdleLine;
use imap_node::{Auth, Node, Session, SessionNo, State};
use imap_types::{Moment, Octets};
use std::alloc::Global;
use tags_clocks::{OpId, OpNumber, ReplicaId};
use world_core::Event;

/// How many replicas a random world has.
pub const REPLICAS: u32 = 5;

/// How many sessions of each replica, counted from 1, issue commands.
pub const SESSIONS: u32 = 3;

/// An event, and what its client must know of it.
#[derive(Drop)]
pub struct NotedEvent {
    /// The event.
    pub event: Event,
    /// Its session, and its effect on the selected mailbox.
    pub note: Note,
}

/// The session of an event, and the event's effect on the session's mailbox.
#[derive(Clone, Copy)]
pub struct Note {
    /// The replica's number, from 1 on.
    pub at: u32,
    /// The session's number at its replica, from 1 on.
    pub session: u32,
    /// The effect on the session's mailbox.
    pub effect: MailboxEffect,
}

/// A random event at one of these nodes. `Err` if memory runs out.
pub fn random_event(
    alloc: Global,
    chance: &mut Chance,
    nodes: &[Node],
) -> Result<NotedEvent, Trouble> {
    let note = Note {
        at: one_of(chance, REPLICAS),
        session: one_of(chance, SESSIONS),
        effect: MailboxEffect::Other,
    };
    let at = replica(note.at)?;
    let session = session(note.session)?;
    match chance.below(24) {
        0 | 1 => Ok(noted_event(note, open_event(alloc, chance, at)?)),
        2 => Ok(noted_event(note, close_event(chance, at, session))),
        3 => Ok(noted_event(note, drain_event(chance, at))),
        4 | 5 | 6 | 7 | 8 => Ok(noted_event(note, delivery_event(chance, at, nodes)?)),
        _ => session_event(alloc, chance, nodes, note),
    }
}

/// A number from 1 to `count`.
fn one_of(chance: &mut Chance, count: u32) -> u32
    requires { 0 < count }
{
    chance.below(count).saturating_add(1)
}

fn noted_event(note: Note, event: Event) -> NotedEvent {
    NotedEvent { event, note }
}

fn replica(number: u32) -> Result<ReplicaId, Trouble> {
    ReplicaId::new(number).ok_or(Trouble::NotACase)
}

fn session(number: u32) -> Result<SessionNo, Trouble> {
    SessionNo::new(number as usize).ok_or(Trouble::NotACase)
}

fn open_event(alloc: Global, chance: &mut Chance, at: ReplicaId) -> Result<Event, Trouble> {
    if !chance.is_one_in(6) {
        return Ok(Event::Open {
            at,
            auth: Auth::Preauth,
        });
    }
    let credentials = Credentials {
        user: Octets::from_slice(alloc, b"u")?,
        password: Octets::from_slice(alloc, b"p")?,
    };
    Ok(Event::Open {
        at,
        auth: Auth::Password { credentials },
    })
}

/// A session closes, or is polled whether it idles or not.
fn close_event(chance: &mut Chance, at: ReplicaId, session: SessionNo) -> Event {
    if chance.is_one_in(2) {
        Event::Close { at, session }
    } else {
        Event::Poll { at, session }
    }
}

/// A replica applies held operations, or starts again.
fn drain_event(chance: &mut Chance, at: ReplicaId) -> Event {
    if chance.is_one_in(4) {
        Event::Restart { at }
    } else {
        Event::Drain { at }
    }
}

/// Delivers to this replica an operation that another one issued, or may issue next: mostly one
/// that it lacks.
fn delivery_event(chance: &mut Chance, at: ReplicaId, nodes: &[Node]) -> Result<Event, Trouble> {
    let source = replica(one_of(chance, REPLICAS))?;
    let issued = count(nodes, source, source);
    let known = count(nodes, at, source);
    let number = if chance.is_one_in(4) {
        chance.below(issued.saturating_add(1)).saturating_add(1)
    } else {
        known.saturating_add(one_of(chance, 3))
    };
    let number = OpNumber::new(number.min(issued.saturating_add(1))).ok_or(Trouble::NotACase)?;
    Ok(Event::Deliver {
        at,
        id: OpId {
            replica: source,
            number,
        },
    })
}

/// How many operations of the replica `source` the node with this name applied; at most 1,000,000.
fn count(nodes: &[Node], name: ReplicaId, source: ReplicaId) -> u32 {
    for node in nodes {
        if node.replica().id() == name {
            return node.clock().get(source).min(1_000_000);
        }
    }
    0
}

/// A session issues a command or a line, or is polled.
fn session_event(
    alloc: Global,
    chance: &mut Chance,
    nodes: &[Node],
    note: Note,
) -> Result<NotedEvent, Trouble> {
    let at = replica(note.at)?;
    let session = session(note.session)?;
    let idles = is_idling(nodes, at, session);
    if idles == chance.is_one_in(20) {
        return command_event(alloc, chance, nodes, note);
    }
    Ok(noted_event(note, idle_event(chance, at, session)))
}

fn is_idling(nodes: &[Node], name: ReplicaId, session: SessionNo) -> bool {
    for node in nodes {
        if node.replica().id() == name {
            return node.is_idling(session);
        }
    }
    false
}

fn is_selected(nodes: &[Node], name: ReplicaId, session: SessionNo) -> bool {
    for node in nodes {
        if node.replica().id() == name {
            return has_selected(node.session(session));
        }
    }
    false
}

fn has_selected(session: Option<&Session>) -> bool {
    match session {
        Some(session) => matches!(session.state, State::Selected { .. }),
        None => false,
    }
}

fn idle_event(chance: &mut Chance, at: ReplicaId, session: SessionNo) -> Event {
    match chance.below(8) {
        0 => Event::IdleLine {
            at,
            session,
            line: IdleLine::Other,
        },
        1 | 2 => Event::IdleLine {
            at,
            session,
            line: IdleLine::Done,
        },
        _ => Event::Poll { at, session },
    }
}

fn command_event(
    alloc: Global,
    chance: &mut Chance,
    nodes: &[Node],
    note: Note,
) -> Result<NotedEvent, Trouble> {
    let at = replica(note.at)?;
    let session = session(note.session)?;
    let sent = command(alloc, chance, is_selected(nodes, at, session))?;
    let tagged = tagged_command(alloc, sent.text.as_bytes())?;
    Ok(NotedEvent {
        event: Event::Command {
            at,
            session,
            moment: Moment::epoch(),
            tagged,
        },
        note: Note {
            effect: sent.effect,
            ..note
        },
    })
}
