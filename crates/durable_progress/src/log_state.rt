//! The value under the lock: a log, and what is known to be synced.

ghost use Rattle.std.specs.Prelude.{◌≡◌, ◌↔◌, ◌≤◌, IfSome, IsSome, IsTrue, None, Some, true, false};

use durable_log::{DurableLog, LogDevice};

/// The result of waiting for operations to be synced.
#[derive(Drop)]
pub enum LogLoan<D: LogDevice> {
    /// They are.
    Synced,
    /// The log failed. Nothing more will be synced.
    Failed,
    /// They aren't yet. This is the log; the caller must write it, and give it back.
    Log(DurableLog<D>),
}

/// A log, unless it is lent or failed, and the number of operations that are synced.
#[derive(Drop)]
pub struct LogState<D: LogDevice> {
    log: Option<DurableLog<D>>,
    synced: u64,
    failed: bool,
}

impl<D: LogDevice + Drop> LogState<D> {
    ghost use Rattle.durable_progress.specs.Progress.{IsAwaited, lent_log};

    /// The state of a log that nobody was lent yet.
    pub fn new(log: DurableLog<D>) -> LogState<D>
        ensures { result ≡ record { log = Some log; synced = log.synced_count; failed = false } }
    {
        let synced = log.synced_count();
        LogState {
            log: Some(log),
            synced,
            failed: false,
        }
    }

    /// Whether who waits for the first `count` operations to be synced must still wait: they
    /// aren't, the log didn't fail, and somebody else has it.
    pub fn must_wait(&self, count: u64) -> bool
        ensures { IsTrue result ↔ IsAwaited self.now count }
    {
        self.synced < count && !self.failed && self.log.is_none()
    }

    /// What who waited for the first `count` operations gets: `Synced` only if they are; else the
    /// log, if nobody else has it; else `Failed`.
    pub fn lend(&mut self, count: u64) -> LogLoan<D>
        ensures loan { result ≡ (lent_log self.old count).0 }
        ensures state { self.new ≡ (lent_log self.old count).1 }
    {
        if self.failed {
            return LogLoan::Failed;
        }
        if self.synced >= count {
            return LogLoan::Synced;
        }
        match self.log.take() {
            Some(log) => LogLoan::Log(log),
            None => LogLoan::Failed,
        }
    }

    /// The log, unless somebody else has it or it failed.
    pub fn take(&mut self) -> Option<DurableLog<D>>
        ensures log { result ≡ self.old.log }
        ensures state { self.new ≡ record self.old { log = None } }
    {
        self.log.take()
    }

    /// Takes back the log that was lent. What it says is synced counts from now on; if it failed,
    /// nobody is lent it again.
    pub fn put(&mut self, log: DurableLog<D>)
        ensures works { log.failed ≡ false → self.new ≡ record {
          log = Some log;
          synced = log.synced_count;
          failed = self.old.failed;
        } }
        ensures failed { log.failed ≡ true → self.new ≡ record {
          log = None;
          synced = self.old.synced;
          failed = true;
        } }
    {
        if log.has_failed() {
            drop(log);
            self.log = None;
            self.failed = true;
            return;
        }
        self.synced = log.synced_count();
        self.log = Some(log);
    }

    /// The number of operations that are synced.
    pub fn synced(&self) -> u64
        ensures { result ≡ self.now.synced }
    {
        self.synced
    }

    /// Whether the log failed.
    pub fn has_failed(&self) -> bool
        ensures { result ≡ self.now.failed }
    {
        self.failed
    }
}
