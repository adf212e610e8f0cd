//! How far a replica's log is synced, for the threads that wait for it.
//!
//! [`LogProgress`] has the log under a lock and counts the operations that each crash leaves. A
//! thread that must not go on before the first operations are synced calls
//! [`LogProgress::wait_for`]. If no other thread has the log, it is lent the log, and must write
//! what the replica applied, sync it and give it back; all that waited meanwhile go on then, and
//! what was applied during the sync is written with the next one. So a thread that is alone wakes
//! no other, and many threads share a sync.
//!
//! The contract of [`LogState`], the value under the lock, says that the count of operations that
//! are synced is the log's own; no contract can name a value under a lock from outside.
//!
//! # Decided
//!
//! - The log is lent by value: nobody can write it besides, and nobody waits for the lock while it
//!   is written and synced.
//! - A log that failed is dropped when it is given back, and is never lent again: a system may
//!   report a later sync as done although it forgot what an earlier one failed to write. All
//!   threads that wait learn that it failed.
#![tactic(auto)]

mod log_state;
mod progress;

pub use log_state::{LogLoan, LogState};
pub use progress::LogProgress;
