//! The state that a script has built up: its clock, its replicas and its sessions.

ghost use Rattle.std.specs.Prelude.{◌<◌, IfSome, length};

use crate::event_watch::EventWatch;
use imap_connection::SessionNo;
use imap_lex::Framer;
use imap_types::Moment;
use mail_script::SessionName;
use replica_lock::Book;
use std::alloc::{AllocError, Global};
use tags_clocks::ReplicaId;

/// A replica that the script declared.
#[derive(Drop)]
pub struct BookReplica {
    /// The replica's name.
    pub name: ReplicaId,
    /// The replica and its journal.
    pub book: Book,
    /// Which of its applied operations its sessions issued: from the first place to the second.
    pub issued: Vec<(usize, usize)>,
}

/// The connection of an open session with its replica.
#[derive(Drop)]
pub struct Connection {
    /// The session's number at its replica.
    pub number: SessionNo,
    /// The client's octets that don't make a whole command yet.
    pub framer: Framer,
    /// All octets that the client sent.
    pub sent: Vec<u8>,
}

/// A session that the script opened.
#[derive(Drop)]
pub struct BookSession {
    /// The session's name in the script.
    pub name: SessionName,
    /// The session's replica.
    pub replica: ReplicaId,
    /// `None` if the session has ended.
    pub connection: Option<Connection>,
}

/// The state that a script has built up.
#[derive(Drop)]
pub struct PlayState {
    /// The time on the script's clock.
    pub moment: Moment,
    /// The replicas in the order in which they were declared.
    pub replicas: Vec<BookReplica>,
    /// The sessions in the order in which they were opened, ended ones included.
    pub sessions: Vec<BookSession>,
}

impl PlayState {
    /// A state with nothing declared and the clock at 0.
    pub fn new(alloc: Global) -> PlayState {
        PlayState {
            moment: Moment::epoch(),
            replicas: Vec::new(alloc),
            sessions: Vec::new(alloc),
        }
    }
}

/// Makes room for one more item, and tries once more if memory runs out.
pub fn reserve_one<T>(list: &mut Vec<T>) -> Result<(), AllocError> {
    match list.reserve(1) {
        Ok(()) => Ok(()),
        Err(AllocError) => list.reserve(1),
    }
}

/// What a play has printed, and noted of its events.
#[derive(Drop)]
pub struct PlayRecord {
    /// The output.
    pub printed: Vec<u8>,
    /// What was noted of the events.
    pub watch: EventWatch,
}

impl PlayRecord {
    /// Nothing printed, with this watch.
    pub fn new(alloc: Global, watch: EventWatch) -> PlayRecord {
        PlayRecord {
            printed: Vec::new(alloc),
            watch,
        }
    }
}

/// The place of the replica with this name, if it is declared.
pub fn replica_place(replicas: &[BookReplica], name: ReplicaId) -> Option<usize>
    ensures { IfSome result (λ place. place < length replicas.now) }
{
    for (place, replica) in replicas.iter().enumerate() {
        if replica.name == name {
            return Some(place);
        }
    }
    None
}

/// The place of the session with this name, if it was opened.
pub fn session_place(sessions: &[BookSession], name: &SessionName) -> Option<usize>
    ensures { IfSome result (λ place. place < length sessions.now) }
{
    for (place, session) in sessions.iter().enumerate() {
        if session.name.same(name) {
            return Some(place);
        }
    }
    None
}
