//! The lock, and those who wait.

use crate::log_state::{LogLoan, LogState};
use durable_log::{DurableLog, LogDevice};
use std::sync::{Condvar, Mutex, Wait};

/// A log under a lock, which one thread at a time is lent, with the number of operations that are
/// synced.
#[derive(Drop)]
pub struct LogProgress<D: LogDevice> {
    state: Mutex<LogState<D>>,
    changed: Condvar,
}

impl<D: LogDevice + Drop> LogProgress<D> {
    /// The progress of a log that nobody was lent yet.
    pub fn new(log: DurableLog<D>) -> LogProgress<D> {
        LogProgress {
            state: Mutex::new(LogState::new(log)),
            changed: Condvar::new(),
        }
    }

    /// Waits until the replica's first `count` operations are synced, the log has failed, or nobody
    /// else has it. In the last case the caller is lent the log: it must write what the replica
    /// applied, sync it, and give it back. If the operations are synced already, it waits for
    /// nobody. Once the log failed everybody learns that.
    pub fn wait_for<R: Wait>(&self, rt: &R, count: u64) -> LogLoan<D> {
        let mut state = self
            .changed
            .wait_while(rt, self.state.lock(rt), |state| state.must_wait(count));
        state.lend(count)
    }

    /// The log, unless somebody else has it or it failed. The caller must give it back.
    pub fn take<R: Wait>(&self, rt: &R) -> Option<DurableLog<D>> {
        self.state.lock(rt).take()
    }

    /// Gives the log back, and wakes all that wait.
    pub fn give_back<R: Wait>(&self, rt: &R, log: DurableLog<D>) {
        self.state.lock(rt).put(log);
        self.changed.notify_all();
    }

    /// The number of operations that are synced.
    pub fn synced<R: Wait>(&self, rt: &R) -> u64 {
        self.state.lock(rt).synced()
    }

    /// Whether the log failed.
    pub fn has_failed<R: Wait>(&self, rt: &R) -> bool {
        self.state.lock(rt).has_failed()
    }
}
