//! Gates that wait for one another.

use replica_links::Gate;
use std::sync::Wait;
use std::sync::atomic::{AtomicU64, Ordering};
use std::thread;

/// How many times a thread checks for an event, expected or unwanted, and lets other threads run.
pub const TURNS: u64 = 1_000_000;

/// The counters by which the threads of a scene signal one another.
#[derive(Drop)]
pub struct Signs {
    /// How many gates were reached before their first command.
    pub called: AtomicU64,
    /// Whether the first replica's lock is held: 1 if it is.
    pub held: AtomicU64,
    /// How often a counting gate was passed.
    pub passed: AtomicU64,
    /// The numbers with which a recording gate was passed, a digit each.
    pub numbers: AtomicU64,
    /// How many gates saw what they waited for.
    pub satisfied: AtomicU64,
    /// How many clients read everything.
    pub received: AtomicU64,
}

impl Signs {
    /// All counters at 0.
    pub fn new() -> Signs {
        Signs {
            called: AtomicU64::new(0),
            held: AtomicU64::new(0),
            passed: AtomicU64::new(0),
            numbers: AtomicU64::new(0),
            satisfied: AtomicU64::new(0),
            received: AtomicU64::new(0),
        }
    }
}

/// Checks up to `turns` times, and lets other threads run, until a count is at least `least`; false
/// if it never was.
pub fn await_count(count: &AtomicU64, least: u64, turns: u64) -> bool {
    for _ in 0..turns {
        if count.load(Ordering::SeqCst) >= least {
            return true;
        }
        thread::yield_now();
    }
    false
}

/// Waits until a count is at least `least`.
pub fn wait_for<R: Wait>(rt: &R, count: &AtomicU64, least: u64) {
    for _ in rt.forever() {
        if count.load(Ordering::SeqCst) >= least {
            return;
        }
        thread::yield_now();
    }
}

/// What a gate does.
#[derive(Clone, Copy)]
pub enum Way {
    /// It is open.
    Open,
    /// It counts how often it was passed.
    Counting,
    /// It records the numbers with which it is passed.
    Recording,
    /// Before the first command it waits until a counting gate was passed this many times.
    After(u64),
    /// Before the first command it counts up `called`, and waits until the first replica's lock is
    /// held.
    Held,
}

/// A connection's gate.
#[derive(Drop)]
pub struct ClientGate<'a> {
    /// What it does.
    pub way: Way,
    /// The counters that it reads and writes.
    pub signs: &'a Signs,
}

impl<'a> ClientGate<'a> {
    /// Waits for a count, and counts up `satisfied` if it saw it.
    fn await_signal(&self, count: &AtomicU64, least: u64) {
        if await_count(count, least, TURNS) {
            let _ = self.signs.satisfied.fetch_add(1, Ordering::SeqCst);
        }
    }
}

impl<'a> Gate for ClientGate<'a> {
    fn pass(&mut self, n: u64) {
        match self.way {
            Way::Open => {}
            Way::Counting => self.signs.passed.store(n, Ordering::SeqCst),
            Way::Recording => {
                let before = self.signs.numbers.load(Ordering::SeqCst);
                let numbers = before.saturating_mul(10).saturating_add(n);
                self.signs.numbers.store(numbers, Ordering::SeqCst)
            }
            Way::After(least) => {
                if n == 1 {
                    self.await_signal(&self.signs.passed, least)
                }
            }
            Way::Held => {
                if n == 1 {
                    let _ = self.signs.called.fetch_add(1, Ordering::SeqCst);
                    self.await_signal(&self.signs.held, 1)
                }
            }
        }
    }
}

/// Holds a replica's lock until `least` clients read everything, or for `turns` turns.
#[derive(Drop)]
pub struct LockHolder<'a> {
    /// The counters that it reads and writes.
    pub signs: &'a Signs,
    /// How many clients it waits for.
    pub least: u64,
    /// How many times it checks.
    pub turns: u64,
    /// How many clients had read everything when the lock was released.
    pub received: u64,
}

impl<'a> Gate for LockHolder<'a> {
    fn pass(&mut self, _n: u64) {
        self.signs.held.store(1, Ordering::SeqCst);
        let _ = await_count(&self.signs.received, self.least, self.turns);
        self.received = self.signs.received.load(Ordering::SeqCst);
    }
}
