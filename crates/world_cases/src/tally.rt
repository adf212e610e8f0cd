//! The outcomes and answers that occurred in random worlds.

use case_lines::Words;
use causal_inbox::{Arrival, Delivered};
use imap_answers::Answer;
use imap_node::Reply;
use world_core::Outcome;

/// The kinds of outcomes and answers that occurred in random worlds, and the first world that went
/// wrong.
#[derive(Drop)]
pub struct Tally {
    /// The first world that went wrong, and how.
    pub first_wrong: Option<(u64, &'static str)>,
    /// Whether at most a quarter of the events were taken in some world.
    pub has_idle_world: bool,
    has_opened: bool,
    has_done: bool,
    has_refused: bool,
    has_applied: bool,
    has_held: bool,
    has_repeat: bool,
    has_drained: bool,
    has_restarted: bool,
    has_closed: bool,
    has_passed: bool,
    has_exists: bool,
    has_expunge: bool,
    has_fetch: bool,
    /// Whether flags were set silently.
    pub has_silent: bool,
    /// Whether something occurred that never should: an event refused, or a delivery that stalls.
    pub has_impossible: bool,
}

impl Tally {
    /// A tally before any world is played.
    pub fn new() -> Tally {
        Tally {
            first_wrong: None,
            has_idle_world: false,
            has_opened: false,
            has_done: false,
            has_refused: false,
            has_applied: false,
            has_held: false,
            has_repeat: false,
            has_drained: false,
            has_restarted: false,
            has_closed: false,
            has_passed: false,
            has_exists: false,
            has_expunge: false,
            has_fetch: false,
            has_silent: false,
            has_impossible: false,
        }
    }

    /// Notes that a world went wrong.
    pub fn note_failure(&mut self, world: u64, how: &'static str) {
        if self.first_wrong.is_none() {
            self.first_wrong = Some((world, how));
        }
    }

    /// Notes an outcome; returns whether its event was taken.
    pub fn note(&mut self, outcome: &Outcome) -> bool {
        match outcome {
            Outcome::Opened { .. } => self.has_opened = true,
            Outcome::Replied { reply } => self.note_reply(reply),
            Outcome::Taken { delivered } => self.note_delivered(*delivered),
            Outcome::Drained { .. } => self.has_drained = true,
            Outcome::Closed => self.has_closed = true,
            Outcome::PassedOver => self.has_passed = true,
            Outcome::Joined => {}
            Outcome::Restarted => self.has_restarted = true,
            Outcome::NotOpened { .. }
            | Outcome::NotTaken { .. }
            | Outcome::NotJoined { .. }
            | Outcome::NotRestarted { .. } => self.has_impossible = true,
        }
        !matches!(outcome, Outcome::PassedOver)
    }

    fn note_reply(&mut self, reply: &Reply) {
        match reply {
            Reply::Done { .. } => self.has_done = true,
            Reply::Refused { .. } => self.has_refused = true,
        }
    }

    fn note_delivered(&mut self, delivered: Delivered) {
        self.has_impossible = self.has_impossible || delivered.stalled;
        match delivered.arrival {
            Arrival::Applied(_) => self.has_applied = true,
            Arrival::Held => self.has_held = true,
            Arrival::Repeat => self.has_repeat = true,
        }
    }

    /// Notes answers that a client received.
    pub fn receive_all(&mut self, answers: &[Answer]) {
        for answer in answers {
            self.receive(answer);
        }
    }

    fn receive(&mut self, answer: &Answer) {
        match answer {
            Answer::Exists { .. } => self.has_exists = true,
            Answer::Expunge { .. } => self.has_expunge = true,
            Answer::Fetch { .. } => self.has_fetch = true,
            _ => {}
        }
    }

    /// Puts what occurred.
    pub fn put_tally(&self, page: &mut Words) {
        self.put_wrong(page);
        self.put_taken(page);
        page.put("  met:");
        self.put_sessions(page);
        self.put_deliveries(page);
        page.put("\n  heard:");
        self.put_received(page);
        page.put("\n");
    }

    fn put_wrong(&self, page: &mut Words) {
        match &self.first_wrong {
            None => page.put(
                "  each settles, all its replicas agree and hold the same, and sessions see what they were sent\n",
            ),
            Some((world, how)) => {
                page.put_number("  world ", *world);
                page.put(": ");
                page.put(how);
                page.put("\n");
            }
        }
    }

    fn put_taken(&self, page: &mut Words) {
        if self.has_idle_world {
            page.put("  in some no more than a quarter of the events were taken\n");
        } else {
            page.put("  in each more than a quarter of the events were taken\n");
        }
    }

    fn put_sessions(&self, page: &mut Words) {
        page.put_if(self.has_opened, " Opened");
        page.put_if(self.has_done, " Done");
        page.put_if(self.has_refused, " Refused");
        page.put_if(self.has_closed, " Closed");
        page.put_if(self.has_passed, " PassedOver");
    }

    fn put_deliveries(&self, page: &mut Words) {
        page.put_if(self.has_applied, " Applied");
        page.put_if(self.has_held, " Held");
        page.put_if(self.has_repeat, " Repeat");
        page.put_if(self.has_drained, " Drained");
        page.put_if(self.has_restarted, " Restarted");
        page.put_if(self.has_impossible, " strange");
    }

    fn put_received(&self, page: &mut Words) {
        page.put_if(self.has_exists, " EXISTS");
        page.put_if(self.has_expunge, " EXPUNGE");
        page.put_if(self.has_fetch, " FETCH");
        page.put_if(self.has_silent, " silence");
    }
}
