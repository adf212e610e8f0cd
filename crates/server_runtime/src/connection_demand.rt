//! How many connections of a replica wait for a thread, and how many threads for a connection.

ghost use Rattle.std.specs.Prelude.{◌≡◌, ◌↔◌, ◌+◌, ◌-◌, ◌<◌, IsTrue, false, min, true};

use std::rt::Clock;
use std::sync::{Condvar, Mutex, Wait};
use std::time::Duration;

/// How long a thread waits for a further connection, in seconds.
const READY_TIME: u64 = 1;

/// How many wait for each other.
#[derive(Clone, Copy, Debug, PartialEq, Eq)]
struct Waiting {
    /// The connections that no thread has taken yet.
    connections: usize,
    /// The threads that have no connection, those that are being made included.
    threads: usize,
    /// Whether the replica stops.
    is_stopped: bool,
}

/// The connections that wait for a thread, and the threads that wait for a connection. A thread
/// whose connection has ended waits a second for a further one, so that clients who come again and
/// again cost no new threads.
#[derive(Drop)]
pub struct ConnectionDemand {
    waiting: Mutex<Waiting>,
    changed: Condvar,
}

impl ConnectionDemand {
    /// Nothing waits.
    pub fn new() -> ConnectionDemand {
        ConnectionDemand {
            waiting: Mutex::new(Waiting {
                connections: 0,
                threads: 0,
                is_stopped: false,
            }),
            changed: Condvar::new(),
        }
    }

    /// Adds a connection. True if a thread has to be made for it, which is counted already.
    pub fn add_connection<R: Wait>(&self, rt: &R) -> bool {
        let lacks_thread = self.waiting.lock(rt).add();
        if !lacks_thread {
            self.changed.notify_one();
        }
        lacks_thread
    }

    /// Adds a thread whose connection has ended.
    pub fn add_thread<R: Wait>(&self, rt: &R) {
        let mut waiting = self.waiting.lock(rt);
        waiting.threads = waiting.threads.saturating_add(1);
    }

    /// Waits, in a thread that was counted, until there is a connection for it. False if none comes
    /// within a second, or if the replica stops; the thread isn't counted any more then.
    pub fn take_connection<R: Wait + Clock>(&self, rt: &R) -> bool {
        let (mut waiting, _) = self.changed.wait_timeout_while(
            rt,
            self.waiting.lock(rt),
            Duration::from_secs(READY_TIME),
            |waiting| waiting.connections == 0 && !waiting.is_stopped,
        );
        waiting.take()
    }

    /// Takes out a thread that can't be made, and the connection that it was to serve. False if
    /// another thread has taken that.
    pub fn take_unserved<R: Wait>(&self, rt: &R) -> bool {
        self.waiting.lock(rt).take()
    }

    /// Notes that the replica stops, and wakes the threads that wait.
    pub fn stop<R: Wait>(&self, rt: &R) {
        self.waiting.lock(rt).is_stopped = true;
        self.changed.notify_all();
    }
}

impl Waiting {
    /// Adds a connection, and a thread if there are fewer than connections; true if so.
    fn add(&mut self) -> bool
        ensures connections { self.new.connections
            ≡ min (self.old.connections + 1) 18446744073709551615 }
        ensures lacking { IsTrue result ↔ (self.old.threads < self.new.connections) }
        ensures added { result ≡ true → self.new.threads ≡ self.old.threads + 1 }
        ensures same { result ≡ false → self.new.threads ≡ self.old.threads }
        ensures stopped { self.new.is_stopped ≡ self.old.is_stopped }
    {
        self.connections = self.connections.saturating_add(1);
        if self.connections <= self.threads {
            return false;
        }
        self.threads += 1;
        true
    }

    /// Takes out a thread and a connection. False if there is no connection.
    fn take(&mut self) -> bool
        ensures some { IsTrue result ↔ (0 < self.old.connections) }
        ensures connections { self.new.connections ≡ self.old.connections - 1 }
        ensures threads { self.new.threads ≡ self.old.threads - 1 }
        ensures stopped { self.new.is_stopped ≡ self.old.is_stopped }
    {
        self.threads = self.threads.saturating_sub(1);
        if self.connections == 0 {
            return false;
        }
        self.connections -= 1;
        true
    }
}
