//! Two replicas and their sessions, and the calls that a run makes to them.

use crate::client::Client;
use case_lines::Trouble;
use imap_grammar::{IdleLine, Tagged, parse};
use imap_node::{Answers, Auth, Node, Reply, SessionNo};
use imap_types::Moment;
use std::alloc::{AllocError, Global};
use tags_clocks::ReplicaId;
use uid_projection::Counters;

/// Two replicas, and their sessions.
#[derive(Drop)]
pub struct Scene {
    /// The replica of the watching session.
    pub near: Node,
    /// The other replica.
    pub far: Node,
    /// The sessions.
    pub sessions: Sessions,
}

/// The watching session, and a working one at each replica.
#[derive(Clone, Copy)]
pub struct Sessions {
    /// The watching session, at `near`.
    pub watcher: SessionNo,
    /// The working session at `near`.
    pub near: SessionNo,
    /// The working session at `far`.
    pub far: SessionNo,
}

impl Scene {
    /// Two replicas that received nothing, with their sessions.
    pub fn new(alloc: Global) -> Result<Scene, Trouble> {
        let near = node(alloc, 1)?;
        match node(alloc, 2) {
            Ok(far) => scene_of_nodes(near, far),
            Err(trouble) => {
                drop(near);
                Err(trouble)
            }
        }
    }
}

/// Two replicas, with their sessions.
fn scene_of_nodes(near: Node, far: Node) -> Result<Scene, Trouble> {
    let mut near = near;
    let mut far = far;
    match open_sessions(&mut near, &mut far) {
        Ok(sessions) => Ok(Scene {
            near,
            far,
            sessions,
        }),
        Err(trouble) => {
            drop(far);
            drop(near);
            Err(trouble)
        }
    }
}

fn open_sessions(near: &mut Node, far: &mut Node) -> Result<Sessions, Trouble> {
    Ok(Sessions {
        watcher: session(near)?,
        near: session(near)?,
        far: session(far)?,
    })
}

fn node(alloc: Global, replica: u32) -> Result<Node, Trouble> {
    match ReplicaId::new(replica) {
        Some(replica) => node_or_trouble(Node::new(
            alloc,
            Counters {
                replica,
                uid: 1,
                k: 1,
            },
        )),
        None => Err(Trouble::NotACase),
    }
}

fn node_or_trouble(node: Result<Node, AllocError>) -> Result<Node, Trouble> {
    match node {
        Ok(node) => Ok(node),
        Err(AllocError) => Err(Trouble::NoMemory),
    }
}

/// Opens a session whose user is already authenticated.
pub fn session(node: &mut Node) -> Result<SessionNo, Trouble> {
    match node.open(Auth::Preauth) {
        Ok(session) => Ok(session),
        Err(_) => Err(Trouble::NoMemory),
    }
}

/// The answers to a command of a session that doesn't idle; `None` if it is refused.
pub fn command(
    alloc: Global,
    node: &mut Node,
    session: SessionNo,
    text: &str,
) -> Result<Option<Answers>, Trouble> {
    if !node.is_open(session) || node.is_idling(session) {
        return Err(Trouble::NotACase);
    }
    let tagged = tagged_command(alloc, text)?;
    Ok(answers_in(node.command(alloc, session, Moment::epoch(), tagged)))
}

/// Issues a command, whatever the answers are.
pub fn give(alloc: Global, node: &mut Node, session: SessionNo, text: &str) -> Result<(), Trouble> {
    drop(command(alloc, node, session, text)?);
    Ok(())
}

/// Issues a command whose text it drops afterwards.
pub fn give_text(
    alloc: Global,
    node: &mut Node,
    session: SessionNo,
    text: String,
) -> Result<(), Trouble> {
    let done = give(alloc, node, session, text.as_str());
    drop(text);
    done
}

fn tagged_command(alloc: Global, text: &str) -> Result<Tagged, Trouble> {
    match parse(alloc, text.as_bytes()) {
        Ok(tagged) => Ok(tagged),
        Err(_) => Err(Trouble::NotACase),
    }
}

fn answers_in(reply: Reply) -> Option<Answers> {
    match reply {
        Reply::Done { answers, .. } => Some(answers),
        Reply::Refused { .. } => None,
    }
}

/// The answers that a poll sends to an idling session.
pub fn poll(
    alloc: Global,
    node: &mut Node,
    session: SessionNo,
) -> Result<Option<Answers>, Trouble> {
    if !node.is_idling(session) {
        return Err(Trouble::NotACase);
    }
    Ok(answers_in(node.poll(alloc, session)))
}

/// The answers that are sent to an idling session at the end of its IDLE.
pub fn done(
    alloc: Global,
    node: &mut Node,
    session: SessionNo,
) -> Result<Option<Answers>, Trouble> {
    if !node.is_idling(session) {
        return Err(Trouble::NotACase);
    }
    Ok(answers_in(node.done(alloc, session, IdleLine::Done)))
}

/// The view of a session that selects this mailbox; `None` if the mailbox doesn't exist.
pub fn client_after_select(
    alloc: Global,
    node: &mut Node,
    session: SessionNo,
    name: &str,
) -> Result<Option<Client>, Trouble> {
    let select = format!(in alloc; "a SELECT {name}\r\n")?;
    let sent = command(alloc, node, session, select.as_str());
    drop(select);
    match sent? {
        Some(answers) => {
            let client = client_after(alloc, &answers);
            drop(answers);
            client
        }
        None => Ok(None),
    }
}

fn client_after(alloc: Global, answers: &Answers) -> Result<Option<Client>, Trouble> {
    let mut client = Client::new(alloc);
    match client.apply_answers(alloc, answers.as_slice()) {
        Ok(()) => Ok(Some(client)),
        Err(AllocError) => {
            drop(client);
            Err(Trouble::NoMemory)
        }
    }
}
