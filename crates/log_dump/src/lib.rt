//! The dump of a replica's log, for who wants to read or audit a store without starting a server
//! over it.
//!
//! [`dump_of_log`] reads a log as a start does (`op_log::recover`), delivers the operations of its
//! committed batches to an unused node, and returns that node's dump, which `mail_tool audit`
//! takes; [`dump_log`] does so from a reader to a writer. Their contracts say that the text is the
//! dump of a replica which applied just these operations (`IsLogDump`), or after how many octets
//! the log can't be read (`IsUnreadableAt`); and that a log which a crash left is read, with all
//! that had been synced. The law [`log_dumps_are_causal`] says that these operations are causal.
//!
//! # Decided
//!
//! - A log that no replica can have written is unreadable at the first line that can't be there: a
//!   line that names another replica, or an operation that isn't the replica's next.
//! - If what was synced was damaged, the octets before the fault are those of the committed lines,
//!   as a start reports it, though uncommitted lines may follow before the damage.
//! - Unfinished lines and those with a wrong checksum are passed over if no commit follows that
//!   says that they had been synced: a crash leaves them.
#![tactic(auto)]

mod apply;
mod dump;
mod dump_end;
mod fault;
mod laws;
mod lines;
mod output;

pub use dump::dump_of_log;
pub use dump_end::LogDumpEnd;
pub use fault::LogDumpFault;
pub use laws::log_dumps_are_causal;
pub use output::dump_log;
