//! A node as a port.

ghost use Rattle.std.specs.Prelude.{◌≡◌, IfNone, IfSome, None, Some};
ghost use Rattle.imap_node.specs.Sessions.{IsOpen};
ghost use Rattle.imap_connection.specs.PortCalls.{Command};
ghost use Rattle.imap_connection.specs.NodePorts.{HasNoSession, NodeSteps, login_of};

use crate::fault::PortFault;
use crate::interleaving::Others;
use crate::io_traits::Port;
use imap_answers::Login;
use imap_node::{Auth, Node, OpenFault, Reply, SessionNo};
use imap_syntax::{IdleLine, Tagged};
use std::alloc::Global;
use std::marker::Model;

/// One session of a node; others use the node before each of the session's calls. A call that the
/// session doesn't await is passed over: a command while it idles, or a line while it doesn't.
#[derive(Drop)]
pub struct NodePort<O: Others> {
    node: Node,
    auth: Option<Auth>,
    session: Option<SessionNo>,
    others: O,
}

impl<O: Others> Model for NodePort<O> {
    ghost use Rattle.imap_connection.specs.NodePorts.{NodeSession};

    ghost Value = { NodeSession O };

    ghost view = { λ p. record {
      node = p.node.state;
      auth = p.auth;
      session = p.session;
      others = p.others;
    } };
}

impl<O: Others> NodePort<O> {
    /// A session that can be opened at this node once, for a user who becomes known by `auth`, and
    /// the others who use the node.
    pub fn new(node: Node, auth: Auth, others: O) -> NodePort<O>
        ensures { result
            ≡ record { node = node.state; auth = Some auth; session = None; others = others } }
    {
        NodePort {
            node,
            auth: Some(auth),
            session: None,
            others,
        }
    }

    /// The node.
    pub fn node(&self) -> &Node
        ensures { result.now.state ≡ self.now.node }
    {
        &self.node
    }

    /// The session, if it is open.
    fn open_session(&self) -> Option<SessionNo>
        ensures some { IfSome result
            (λ n. (self.now.session ≡ Some n) × IsOpen self.now.node.sessions n) }
        ensures none { IfNone result (HasNoSession self.now) }
    {
        let session = self.session?;
        if !self.node.is_open(session) {
            return None;
        }
        Some(session)
    }

    /// Gives the session a command if it is open and doesn't idle; others take a turn at the node
    /// first.
    fn give_command(&mut self, alloc: Global, tagged: Tagged) -> Result<Reply, PortFault>
        ensures { NodeSteps O.takes_turn self.old (Command tagged) result self.new }
    {
        let Some(session) = self.open_session() else {
            return Err(PortFault::PassedOver);
        };
        if self.node.is_idling(session) {
            return Err(PortFault::PassedOver);
        }
        let moment = self.others.take_turn(alloc, session, &mut self.node);
        Ok(self.node.command(alloc, session, moment, tagged))
    }
}

fn login_of(auth: &Auth) -> Login
    ensures { result ≡ login_of auth.now }
{
    match auth {
        Auth::Preauth => Login::PreAuthenticated,
        Auth::Password { .. } => Login::Required,
    }
}

impl<O: Others> Port for NodePort<O> {
    ghost use Rattle.imap_connection.specs.NodePorts.{NodeCloses, NodeOpens, NodeSteps};

    ghost opens = { λ s r t. NodeOpens s r t };

    ghost steps = { λ s call r t. NodeSteps O.takes_turn s call r t };

    ghost closes = { λ s t. NodeCloses O.takes_turn s t };

    fn open(&mut self, _alloc: Global) -> Result<Login, PortFault> {
        let Some(auth) = self.auth.take() else {
            return Err(PortFault::PassedOver);
        };
        let login = login_of(&auth);
        match self.node.open(auth) {
            Ok(session) => {
                self.session = Some(session);
                Ok(login)
            }
            Err(OpenFault::TooManySessions) => Err(PortFault::TooManySessions),
            Err(OpenFault::NoMemory) => Err(PortFault::NoMemory),
        }
    }

    fn command(&mut self, alloc: Global, tagged: Tagged) -> Result<Reply, PortFault> {
        self.give_command(alloc, tagged)
    }

    fn done(&mut self, alloc: Global, line: IdleLine) -> Result<Reply, PortFault> {
        let Some(session) = self.open_session() else {
            return Err(PortFault::PassedOver);
        };
        if !self.node.is_idling(session) {
            return Err(PortFault::PassedOver);
        }
        let _moment = self.others.take_turn(alloc, session, &mut self.node);
        Ok(self.node.done(alloc, session, line))
    }

    fn close(&mut self, alloc: Global) {
        let Some(session) = self.open_session() else {
            return;
        };
        let _ = self.others.take_turn(alloc, session, &mut self.node);
        self.node.close(session);
        self.session = None;
    }
}
