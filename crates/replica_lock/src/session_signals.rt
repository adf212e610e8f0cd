//! Condition variables for threads that wait for changes to a session.

use imap_node::{MAX_SESSIONS, Node, SessionNo};
use std::alloc::Global;
use std::sync::Condvar;

/// A condition variable for each session, as far as memory sufficed, and one for all other
/// sessions.
pub struct SessionSignals {
    own: Vec<Condvar>,
    common: Condvar,
}

// By hand, so that crates above drop it whole.
impl Drop for SessionSignals {
    fn drop(self) {
        let Self { own: _, common: _ } = self;
    }
}

impl SessionSignals {
    /// Condition variables for all sessions that a replica can have, as far as memory suffices.
    pub fn new(alloc: Global) -> SessionSignals {
        let mut own = Vec::new(alloc);
        for _ in 0..MAX_SESSIONS {
            if own.push(Condvar::new()).is_err() {
                break;
            }
        }
        SessionSignals {
            own,
            common: Condvar::new(),
        }
    }

    /// The session's condition variable.
    pub fn signal_of(&self, session: SessionNo) -> &Condvar {
        match self.own.get(session.get() - 1) {
            Some(signal) => signal,
            None => &self.common,
        }
    }

    /// Signals each session that idles and may have to be sent something, and no other. It looks at
    /// each session's feed.
    pub fn notify(&self, node: &Node) {
        for number in 1..node.last_session() + 1 {
            if let Some(session) = SessionNo::new(number) {
                if node.is_idling(session) && node.may_have_unsent_changes(session) {
                    self.signal_of(session).notify_all();
                }
            }
        }
    }

    /// Signals each session.
    pub fn notify_all(&self) {
        for signal in self.own.iter() {
            signal.notify_all();
        }
        self.common.notify_all();
    }
}
