//! A session of a new node, whose user must log in, and its answers.

ghost use Rattle.std.specs.Prelude.{IsTrue, ◌↔◌};
ghost use Rattle.imap_node.specs.Nodes.{IsActive};

use imap_connection::{Auth, Credentials, Node, SessionNo, State, Turn, talk};
use imap_lex::{Framer, Limits};
use imap_types::{Moment, Name, Octets};
use merge_laws::Caused;
use std::alloc::Global;
use tags_clocks::ReplicaId;
use uid_projection::Counters;

/// A node with one session.
#[derive(Drop)]
pub struct NodeSession {
    node: Node,
    framer: Framer,
    session: SessionNo,
}

/// A new node with the number 1, and a session whose user must log in with this name and password.
pub fn begin(alloc: Global, user: &str, password: &str) -> Option<NodeSession> {
    begin_at(alloc, 1, user, password)
}

/// A new node with this number, and a session whose user must log in with this name and password.
pub fn begin_at(alloc: Global, replica: u32, user: &str, password: &str) -> Option<NodeSession> {
    let start = Counters {
        replica: ReplicaId::new(replica)?,
        uid: 1,
        k: 1,
    };
    let credentials = Credentials {
        user: Octets::from_slice(alloc, user.as_bytes()).ok()?,
        password: Octets::from_slice(alloc, password.as_bytes()).ok()?,
    };
    let mut node = Node::new(alloc, start).ok()?;
    let session = node.open(Auth::Password { credentials }).ok()?;
    Some(NodeSession {
        node,
        framer: Framer::new(alloc, Limits::STANDARD),
        session,
    })
}

/// The session's answers to these octets, each followed by a `|` in place of its CRLF; `None` if
/// the session has ended.
pub fn answers(alloc: Global, talk: &mut NodeSession, octets: &str) -> Option<Vec<u8>> {
    let NodeSession {
        node,
        framer,
        session,
    } = talk;
    let turns = turns_of(alloc, node, framer, *session, octets.as_bytes())?;
    let mut output = Vec::new(alloc);
    for turn in &turns {
        if let Turn::Sent(answer) = turn {
            let line = answer.as_bytes().strip_suffix(b"\r\n".as_slice())?;
            output.extend_from_slice(line).ok()?;
            output.push(b'|').ok()?;
        }
    }
    Some(output)
}

fn turns_of(
    alloc: Global,
    node: &mut Node,
    framer: &mut Framer,
    session: SessionNo,
    octets: &[u8],
) -> Option<Vec<Turn>> {
    if !is_active(node, session) {
        return None;
    }
    talk(alloc, node, framer, session, Moment::epoch(), octets).ok()
}

/// Delivers to `to` the operation that `from` applied last.
pub fn deliver_last(alloc: Global, from: &NodeSession, to: &mut NodeSession) -> Option<()> {
    let op = from.node.op_list().last()?.copy(alloc).ok()?;
    to.node.deliver(alloc, op).ok()?;
    Some(())
}

/// Whether something may still have to be sent to the session.
pub fn may_have_unsent_changes(talk: &NodeSession) -> bool {
    talk.node.may_have_unsent_changes(talk.session)
}

/// Whether the session is open, and hasn't logged out.
pub fn is_session_active(talk: &NodeSession) -> bool {
    is_active(&talk.node, talk.session)
}

fn is_active(node: &Node, session: SessionNo) -> bool
    ensures { IsTrue result ↔ IsActive node.now.state session }
{
    match node.session(session) {
        Some(session) => !matches!(session.state, State::LoggedOut),
        None => false,
    }
}

/// The names of the node's folders and then those of its subscriptions, each followed by a `|`,
/// with one between the two.
pub fn stored_names(alloc: Global, talk: &NodeSession) -> Option<Vec<u8>> {
    let mut output = Vec::new(alloc);
    push_names(&mut output, &talk.node.folders().names(alloc).ok()?)?;
    output.push(b'|').ok()?;
    push_names(&mut output, &talk.node.subs().names(alloc).ok()?)?;
    Some(output)
}

fn push_names(output: &mut Vec<u8>, names: &[Name]) -> Option<()> {
    for name in names {
        output.extend_from_slice(name.as_bytes()).ok()?;
        output.push(b'|').ok()?;
    }
    Some(())
}
