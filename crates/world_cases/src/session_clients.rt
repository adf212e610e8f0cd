//! The clients of a random world, and whether they know their sessions' views.

use crate::client::Client;
use crate::commands::MailboxEffect;
use crate::random_events::{Note, REPLICAS, SESSIONS};
use crate::tally::Tally;
use imap_answers::Answer;
use imap_node::{Node, Reply, Session, SessionNo, State};
use session_view::{SilentFlags, View};
use std::alloc::{AllocError, Global};
use world_core::Outcome;

/// The clients of all sessions that issue commands: one for each session that has selected a
/// mailbox.
#[derive(Drop)]
pub struct SessionClients {
    clients: Vec<Option<Client>>,
}

impl SessionClients {
    /// No session has selected a mailbox. `Err` if memory runs out.
    pub fn new(alloc: Global) -> Result<SessionClients, AllocError> {
        let mut clients = Vec::new(alloc);
        for _ in 0..REPLICAS * SESSIONS {
            clients.push(None)?;
        }
        Ok(SessionClients { clients })
    }

    /// Passes the outcome of an event to its session's client.
    pub fn receive(
        &mut self,
        alloc: Global,
        note: Note,
        outcome: &Outcome,
        tally: &mut Tally,
    ) -> Result<(), AllocError> {
        match outcome {
            Outcome::Replied { reply } => self.receive_reply(alloc, note, reply, tally),
            Outcome::Closed => {
                self.set_client(note, None);
                Ok(())
            }
            Outcome::Restarted => {
                self.end_sessions(note);
                Ok(())
            }
            _ => Ok(()),
        }
    }

    /// Sets a session's client: `fresh` if the session selected a mailbox, `None` if it left one.
    fn set_client(&mut self, note: Note, fresh: Option<Client>) {
        if let Some(client) = self.clients.get_mut(place_of(note)) {
            *client = fresh;
        } else {
            drop(fresh);
        }
    }

    /// No session of the replica has a mailbox selected any more.
    fn end_sessions(&mut self, note: Note) {
        for session in 1..=SESSIONS {
            self.set_client(Note { session, ..note }, None);
        }
    }

    fn receive_reply(
        &mut self,
        alloc: Global,
        note: Note,
        reply: &Reply,
        tally: &mut Tally,
    ) -> Result<(), AllocError> {
        match reply {
            Reply::Done {
                answers,
                silent,
                ..
            } => {
                if let MailboxEffect::Selecting = note.effect {
                    self.set_client(note, Some(Client::new(alloc)));
                }
                tally.has_silent = tally.has_silent || !silent.as_slice().is_empty();
                tally.receive_all(answers.as_slice());
                self.update_client(alloc, note, silent.as_slice(), answers.as_slice())?;
            }
            Reply::Refused { .. } => {
                if let MailboxEffect::Selecting = note.effect {
                    self.set_client(note, None);
                }
            }
        }
        if let MailboxEffect::Leaving = note.effect {
            self.set_client(note, None);
        }
        Ok(())
    }

    fn update_client(
        &mut self,
        alloc: Global,
        note: Note,
        silents: &[SilentFlags],
        answers: &[Answer],
    ) -> Result<(), AllocError> {
        let Some(Some(client)) = self.clients.get_mut(place_of(note)) else {
            return Ok(());
        };
        client.record_silent_flags(alloc, silents)?;
        client.apply_answers(alloc, answers)
    }

    /// Whether each client agrees with its session's view at these nodes.
    pub fn agrees_with_nodes(&self, nodes: &[Node]) -> bool {
        for (place, node) in nodes.iter().enumerate() {
            if !self.agrees_with_node(place, node) {
                return false;
            }
        }
        true
    }

    fn agrees_with_node(&self, place: usize, node: &Node) -> bool {
        for number in 0..SESSIONS as usize {
            let client = self.clients.get(client_place(place, number));
            if !agrees_with(client, session_of(node, number)) {
                return false;
            }
        }
        true
    }
}

/// The place of a session's client. Replica and session are counted from 0.
fn client_place(replica: usize, session: usize) -> usize {
    replica
        .saturating_mul(SESSIONS as usize)
        .saturating_add(session)
}

fn place_of(note: Note) -> usize {
    let replica = note.at.saturating_sub(1) as usize;
    let session = note.session.saturating_sub(1) as usize;
    client_place(replica, session)
}

fn session_of(node: &Node, number: usize) -> Option<&Session> {
    let session = SessionNo::new(number.saturating_add(1))?;
    node.session(session)
}

/// Whether a client exists exactly when the session has selected a mailbox, and the client knows
/// the session's view.
fn agrees_with(client: Option<&Option<Client>>, session: Option<&Session>) -> bool {
    match client {
        None => false,
        Some(None) => selected_view(session).is_none(),
        Some(Some(client)) => match selected_view(session) {
            Some(view) => client.agrees_with_view(view.entries()),
            None => false,
        },
    }
}

/// The view of the mailbox that a session has selected; `None` if it has selected none.
fn selected_view(session: Option<&Session>) -> Option<&View> {
    match &session?.state {
        State::Selected { view, .. } => Some(view),
        _ => None,
    }
}
