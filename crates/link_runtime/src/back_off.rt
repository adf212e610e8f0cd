//! How long a dialer waits before it tries again.

ghost use Rattle.std.specs.Prelude.{◌≡◌, ◌≤◌, ◌+◌, ◌*◌, ◌/◌};
ghost use Rattle.link_runtime.specs.Times.{doubled};

use std::marker::Model;

/// The first wait, in milliseconds.
const FIRST: u64 = 1_000;

/// The longest wait, in milliseconds.
const LAST: u64 = 60_000;

/// The next wait of a dialer: from one second on, twice as long each time, up to a minute.
#[derive(Drop)]
pub struct BackOff {
    time: u64,
}

impl Model for BackOff {
    ghost use Rattle.std.specs.Prelude.{ℕ};
    ghost use Rattle.link_runtime.specs.Times.{IsBetweenWaits};

    ghost Value = { ℕ };

    ghost view = { λ b. b.time };

    ghost invariant = { λ b. IsBetweenWaits b.time };
}

impl BackOff {
    /// Before the first wait.
    pub fn new() -> BackOff
        ensures { result ≡ 1000 }
    {
        BackOff { time: FIRST }
    }

    /// The next wait, in milliseconds: from half of its time to all of it, by an octet drawn at
    /// random, so that those that were cut off at once don't return at once. The time doubles.
    pub fn next(&mut self, drawn: u8) -> u64
        ensures wait { result ≡ self.old / 2 + self.old / 2 * drawn / 255 }
        ensures time { self.new ≡ doubled self.old }
    {
        let half = self.time / 2;
        let wait = half + half * u64::from(drawn) / 255;
        self.time = LAST.min(2 * self.time);
        wait
    }
}
