//! Events that can be made more than once.

use crdt_ops::SoundOp;
use imap_connection::{Auth, SessionNo};
use imap_grammar::{IdleLine, parse};
use imap_types::Moment;
use merge_laws::Caused;
use replica_lock::BookEvent;
use std::alloc::{AllocError, Global};

/// What an event is made of, if it isn't a delivery.
#[derive(Drop)]
pub enum EventSource<'a> {
    /// A session is opened.
    Open,
    /// A session's client sends a command.
    Command {
        /// The session.
        session: SessionNo,
        /// The time of its arrival.
        moment: Moment,
        /// The command's octets.
        octets: &'a [u8],
    },
    /// A session's client sends a line in IDLE.
    Line {
        /// The session.
        session: SessionNo,
        /// The line.
        line: IdleLine,
    },
    /// A session that idles is sent the changes.
    Poll {
        /// The session.
        session: SessionNo,
    },
    /// Held operations whose causes were applied are applied.
    Drain,
}

/// The event, made once more if memory runs out; `Err` if it runs out twice.
pub fn new_event(alloc: Global, source: &EventSource<'_>) -> Result<BookEvent, AllocError> {
    match event_of(alloc, source) {
        Ok(event) => Ok(event),
        Err(AllocError) => event_of(alloc, source),
    }
}

fn event_of(alloc: Global, source: &EventSource<'_>) -> Result<BookEvent, AllocError> {
    match source {
        EventSource::Open => Ok(BookEvent::Open {
            auth: Auth::Preauth,
        }),
        EventSource::Command {
            session,
            moment,
            octets,
        } => command_event(alloc, *session, *moment, octets),
        EventSource::Line { session, line } => Ok(BookEvent::Line {
            session: *session,
            line: *line,
        }),
        EventSource::Poll { session } => Ok(BookEvent::Poll { session: *session }),
        EventSource::Drain => Ok(BookEvent::Drain),
    }
}

/// The event by which a copy of the operation arrives, made once more if memory runs out; `Err` if
/// it runs out twice.
pub fn new_delivery(alloc: Global, op: &SoundOp) -> Result<BookEvent, AllocError> {
    match delivery_of(alloc, op) {
        Ok(event) => Ok(event),
        Err(AllocError) => delivery_of(alloc, op),
    }
}

fn delivery_of(alloc: Global, op: &SoundOp) -> Result<BookEvent, AllocError> {
    Ok(BookEvent::Deliver {
        op: op.copy(alloc)?,
    })
}

/// The event of a command, which has been read before; `Err` if memory runs out.
fn command_event(
    alloc: Global,
    session: SessionNo,
    moment: Moment,
    octets: &[u8],
) -> Result<BookEvent, AllocError> {
    match parse(alloc, octets) {
        Ok(tagged) => Ok(BookEvent::Command {
            session,
            moment,
            tagged,
        }),
        Err(_) => Err(AllocError),
    }
}
