//! A replica's log on a device: its operations are written in batches, synced, and found again
//! after a crash.
//!
//! A [`LogDevice`] contains octets, of which the first were synced. [`RecoveredLog::read`] reads a
//! log's operations, a mebibyte of octets at a time, and says by name why it can't be used, before
//! anything is written; [`DurableLog::open`] then makes the device agree with what was read.
//! [`DurableLog::append`] writes a batch, and after [`DurableLog::sync`] each crash leaves it.
//! [`DurableLog::grow`] writes zeros ahead, so that a full disk is met before a batch is. The
//! contracts say so for every device that satisfies the contracts of `LogDevice` and whose contents
//! are known: a log that works has these lines, of which the first are synced (`HasEntries`); a
//! crash of it leaves a log (the law [`crashes_leave_what_was_synced`]) of which `read` returns all
//! that was synced, then whole batches of what was written, and no fault but `NoMemory` and
//! `Failed`. Of a file, whose contents no contract knows, they say how many operations the log
//! counts, and which faults it gives.
//!
//! # Decided
//!
//! - Reading and opening are two calls: the logs of several replicas can be compared, and their
//!   operations tested for their order (`replica_lock::Book::restore`), while all are unchanged.
//! - Zeros may follow the lines, written ahead so that a sync changes no length. They are written
//!   over, and no damage; anything else after the last commit is cut off, and that is synced,
//!   before a line is written: an old line could follow a new one of the same length.
//! - Before its first sync `open` writes again what follows the place up to which the last commit
//!   says that the log was synced: after a sync that failed, the system may have forgotten what it
//!   didn't write. So a device has a number of octets that are `certain`, a sync syncs no others,
//!   and the law [`last_commits_after_crashes_are_certain`] says that `open` begins low enough. It
//!   writes the octets that are there already, so a crash meanwhile leaves them. These are the ones
//!   that `read` read, not others that a second read may return; it reads only those again of which
//!   an earlier commit says that they had been synced, if the last one says so of fewer.
//! - After a write or a sync that failed nothing is asked of the device again: a second sync could
//!   succeed though the first one lost octets. Only zeros that didn't fit are cut off again: no
//!   line is among them.
//! - A commit without operations says that earlier ones had been synced, so that damage to theirs
//!   isn't taken for an unfinished end ([`DurableLog::commit_if_behind`]). After such a commit was
//!   synced no further one is due.
//! - No call asks for the form of operations: each sound operation has a text.
//! - A log without its first line is damaged at octet 0: a log is made with that line
//!   ([`DurableLog::create`]) before it gets its name.
#![tactic(auto)]

mod device;
mod durable_log;
mod fault;
mod laws;
mod layout;
mod lines;
mod memory;
mod recovered_log;
mod recovery;

pub use device::{DeviceFault, LogDevice};
pub use durable_log::DurableLog;
pub use fault::StoreFault;
pub use laws::{
    crashes_leave_what_was_synced, crashes_of_writes_leave_what_was_synced,
    last_commits_after_crashes_are_certain,
};
pub use memory::MemoryDevice;
pub use recovered_log::RecoveredLog;
