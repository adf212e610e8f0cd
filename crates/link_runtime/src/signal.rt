//! The signal by which the threads of links learn that something happened.

use std::rt::Clock;
use std::sync::{Condvar, Mutex, Wait};
use std::time::Duration;

/// A signal that is given any number of times.
#[derive(Drop)]
pub struct LinkSignal {
    count: Mutex<u64>,
    given: Condvar,
}

impl LinkSignal {
    /// One that wasn't given.
    pub fn new() -> LinkSignal {
        LinkSignal {
            count: Mutex::new(0),
            given: Condvar::new(),
        }
    }

    /// Gives the signal.
    pub fn give<R: Wait>(&self, rt: &R) {
        let mut count = self.count.lock(rt);
        *count = count.wrapping_add(1);
        self.given.notify_all();
    }

    /// How many times it was given.
    pub fn count<R: Wait>(&self, rt: &R) -> u64 {
        *self.count.lock(rt)
    }

    /// Waits until it is given again after the first `seen` times, at most so many milliseconds.
    pub fn wait<R: Wait + Clock>(&self, rt: &R, seen: u64, time: u64) {
        let _ = self.given.wait_timeout_while(
            rt,
            self.count.lock(rt),
            Duration::from_millis(time),
            |count| *count == seen,
        );
    }
}
