//! What the clients of a replica have done so far.

use std::rt::Clock;
use std::sync::{Condvar, Mutex, Wait};
use std::time::{Duration, Instant};

/// How often a replica logs what its clients have done, in seconds.
const REPORT_TIME: u64 = 3_600;

/// What the clients of a replica have done so far.
#[derive(Clone, Copy, Debug, PartialEq, Eq)]
pub struct ClientCounts {
    /// The connections that were accepted.
    pub connections: u64,
    /// The sessions that were opened.
    pub sessions: u64,
    /// The commands that arrived, refused ones included.
    pub commands: u64,
    /// The LOGINs that were refused.
    pub refused_logins: u64,
    /// The octets of messages that arrived in APPENDs.
    pub octets: u64,
}

impl ClientCounts {
    /// Nothing was done yet.
    pub const NONE: ClientCounts = ClientCounts {
        connections: 0,
        sessions: 0,
        commands: 0,
        refused_logins: 0,
        octets: 0,
    };

    /// Adds further counts.
    pub fn add(&mut self, more: ClientCounts) {
        self.connections = self.connections.saturating_add(more.connections);
        self.sessions = self.sessions.saturating_add(more.sessions);
        self.commands = self.commands.saturating_add(more.commands);
        self.refused_logins = self.refused_logins.saturating_add(more.refused_logins);
        self.octets = self.octets.saturating_add(more.octets);
    }
}

/// The counts, for the threads that add to them and for the one that logs them.
#[derive(Drop)]
pub struct SharedCounts {
    counts: Mutex<ClientCounts>,
    is_stopped: Mutex<bool>,
    /// Signals that the replica stops.
    stops: Condvar,
}

impl SharedCounts {
    /// Nothing was done yet.
    pub fn new() -> SharedCounts {
        SharedCounts {
            counts: Mutex::new(ClientCounts::NONE),
            is_stopped: Mutex::new(false),
            stops: Condvar::new(),
        }
    }

    /// Adds further counts.
    pub fn add<R: Wait>(&self, rt: &R, more: ClientCounts) {
        self.counts.lock(rt).add(more);
    }

    /// What was done so far.
    pub fn counts<R: Wait>(&self, rt: &R) -> ClientCounts {
        *self.counts.lock(rt)
    }

    /// Waits until it is time to log the counts. False if the replica stops, or if the clock can't
    /// be read.
    pub fn await_report<R: Wait + Clock>(&self, rt: &R) -> bool {
        if Instant::now(rt).is_err() {
            return false;
        }
        let (is_stopped, _) = self.stops.wait_timeout_while(
            rt,
            self.is_stopped.lock(rt),
            Duration::from_secs(REPORT_TIME),
            |is_stopped| !*is_stopped,
        );
        !*is_stopped
    }

    /// Notes that the replica stops.
    pub fn stop<R: Wait>(&self, rt: &R) {
        *self.is_stopped.lock(rt) = true;
        self.stops.notify_all();
    }
}
