//! A node, one of its sessions, and how long its calls take.

use crdt_ops::SoundOp;
use imap_grammar::{Tagged, parse};
use imap_node::{Auth, Node, Reply, SessionNo};
use imap_types::Moment;
use std::alloc::Global;
use std::io::{self, ErrorKind};
use std::time::Instant;
use tags_clocks::ReplicaId;
use uid_projection::Counters;

/// A node and one of its sessions.
#[derive(Drop)]
pub struct NodeSession {
    pub node: Node,
    pub session: SessionNo,
}

impl NodeSession {
    /// A replica with this number that received nothing, and a session that is already
    /// authenticated.
    pub fn new(alloc: Global, replica: u32) -> io::Result<NodeSession> {
        let Some(replica) = ReplicaId::new(replica) else {
            return Err(io::Error::other("not a line"));
        };
        let start = Counters {
            replica,
            uid: 1,
            k: 1,
        };
        match Node::new(alloc, start) {
            Ok(node) => with_session(node),
            Err(_) => Err(ErrorKind::OutOfMemory.into()),
        }
    }

    /// Issues the command; an error if the node refuses it.
    pub fn issue_command(&mut self, alloc: Global, text: &str) -> io::Result<()> {
        match self.is_done(alloc, text) {
            Ok(true) => Ok(()),
            Ok(false) => Err(io::Error::other("not taken")),
            Err(fault) => Err(fault),
        }
    }

    /// Issues the command; returns whether the node executed it.
    pub fn is_done(&mut self, alloc: Global, text: &str) -> io::Result<bool> {
        if !self.node.is_open(self.session) || self.node.is_idling(self.session) {
            return Err(io::Error::other("not taken"));
        }
        let tagged = tagged_command(alloc, text)?;
        let reply = self
            .node
            .command(alloc, self.session, Moment::epoch(), tagged);
        Ok(has_executed(reply))
    }

    /// Issues the command; returns the nanoseconds that it takes.
    pub fn time_of(&mut self, rt: &HostRuntime, text: &str) -> io::Result<u64> {
        if !self.node.is_open(self.session) || self.node.is_idling(self.session) {
            return Err(io::Error::other("not taken"));
        }
        let tagged = tagged_command(rt.alloc(), text)?;
        match Instant::now(rt) {
            Ok(start) => {
                check_executed(
                    self.node
                        .command(rt.alloc(), self.session, Moment::epoch(), tagged),
                )?;
                since(rt, start)
            }
            Err(fault) => {
                drop(tagged);
                Err(fault)
            }
        }
    }

    /// Polls the session, which idles; returns the nanoseconds that this takes.
    pub fn poll_time(&mut self, rt: &HostRuntime) -> io::Result<u64> {
        let start = Instant::now(rt)?;
        self.poll(rt.alloc())?;
        since(rt, start)
    }

    fn poll(&mut self, alloc: Global) -> io::Result<()> {
        if !self.node.is_idling(self.session) {
            return Err(io::Error::other("not taken"));
        }
        check_executed(self.node.poll(alloc, self.session))
    }

    /// Delivers the operation.
    pub fn deliver(&mut self, alloc: Global, op: SoundOp) -> io::Result<()> {
        match self.node.deliver(alloc, op) {
            Ok(_) => Ok(()),
            Err(_) => Err(io::Error::other("not taken")),
        }
    }
}

/// The node with a session that is already authenticated.
fn with_session(node: Node) -> io::Result<NodeSession> {
    let mut node = node;
    match node.open(Auth::Preauth) {
        Ok(session) => Ok(NodeSession { node, session }),
        Err(_) => {
            drop(node);
            Err(ErrorKind::OutOfMemory.into())
        }
    }
}

/// An error if a node refused a command or poll.
fn check_executed(reply: Reply) -> io::Result<()> {
    if has_executed(reply) {
        Ok(())
    } else {
        Err(io::Error::other("not taken"))
    }
}

/// Whether a node did what it was asked to do.
fn has_executed(reply: Reply) -> bool {
    match reply {
        Reply::Done { .. } => true,
        Reply::Refused { .. } => false,
    }
}

fn tagged_command(alloc: Global, text: &str) -> io::Result<Tagged> {
    match parse(alloc, text.as_bytes()) {
        Ok(tagged) => Ok(tagged),
        Err(_) => Err(io::Error::other("not a line")),
    }
}

/// The nanoseconds since this moment.
pub fn since(rt: &HostRuntime, start: Instant) -> io::Result<u64> {
    let spent = start.elapsed(rt)?;
    Ok(u64::try_from(spent.as_nanos()).unwrap_or(u64::MAX))
}
