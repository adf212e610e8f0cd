//! The logs of a store's replicas as files of a folder.
//!
//! [`StoreFolder::open`] makes a store's folder if there is none, and locks it: a second process is
//! refused. In it [`StoreFolder::read_log`] reads the log of a replica, and writes nothing;
//! `durable_log::DurableLog::open` then makes the file agree with what was read.
//! [`StoreFolder::create_log`] makes a log that has its name only once it is whole and synced.
//! [`FileDevice`] is a log's file, over which `durable_log` runs.
//!
//! # Decided
//!
//! - No contract says what a file contains: [`FileDevice`] is a `LogDevice` of unknown contents, so
//!   its contracts say nothing, and that they hold of files is trusted. Each call is a few calls of
//!   the system.
//! - The lock is the system's on an open file, which ends with the process however it ends.
//! - A log that exists is never replaced: `create_log` refuses to.
//! - `cannot write` is also said of a file that can't be read: whoever starts a store needs both.
#![tactic(auto)]

mod fault;
mod file_device;
mod folder;
mod folder_calls;

pub use fault::FolderFault;
pub use file_device::FileDevice;
pub use folder::StoreFolder;
