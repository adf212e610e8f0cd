//! The phase of a connection, shared by its own thread and the thread that sends changes to an
//! idling session.

use std::sync::{Condvar, Mutex, Wait};

/// The phase of a connection.
#[derive(Clone, Copy, Debug, PartialEq, Eq)]
pub struct ConnectionPhase {
    /// Its thread waits for the client, and has written all answers.
    pub reads: bool,
    /// Its session idles.
    pub idles: bool,
    /// The connection has ended.
    pub ended: bool,
}

/// The phase under a lock, which decides who may write to the client: the connection's own thread
/// while it doesn't wait for the client, and otherwise the thread that holds the lock.
#[derive(Drop)]
pub struct SharedPhase {
    /// The phase.
    pub phase: Mutex<ConnectionPhase>,
    /// Signals that the phase changed.
    pub changed: Condvar,
}

impl SharedPhase {
    /// The phase of a new connection.
    pub fn new() -> SharedPhase {
        SharedPhase {
            phase: Mutex::new(ConnectionPhase {
                reads: false,
                idles: false,
                ended: false,
            }),
            changed: Condvar::new(),
        }
    }

    /// Notes whether the connection's thread waits for the client. If the session doesn't idle, no
    /// thread is woken: it would only wait again, twice for each command.
    pub fn set_reads<R: Wait>(&self, rt: &R, reads: bool) {
        let mut phase = self.phase.lock(rt);
        phase.reads = reads;
        if reads && phase.idles {
            self.changed.notify_all();
        }
    }

    /// Notes whether the session idles.
    pub fn set_idles<R: Wait>(&self, rt: &R, idles: bool) {
        let mut phase = self.phase.lock(rt);
        phase.idles = idles;
    }

    /// Notes that the connection has ended.
    pub fn end<R: Wait>(&self, rt: &R) {
        let mut phase = self.phase.lock(rt);
        phase.ended = true;
        self.changed.notify_all();
    }

    /// Waits until the session idles and all earlier answers were written. False if the connection
    /// ended first.
    pub fn await_idling<R: Wait>(&self, rt: &R) -> bool {
        let phase = self.changed.wait_while(
            rt,
            self.phase.lock(rt),
            |phase| !phase.ended && !(phase.reads && phase.idles),
        );
        !phase.ended
    }
}
