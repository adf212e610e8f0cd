//! The log of a replica: the operations that it applied, as lines of text, from which a start after
//! a crash reads them back.
//!
//! A line is the CRC-32C of a text in eight hexadecimal digits, a space, the text, and a line end.
//! A text is an [`Entry`]: `log 1 R` begins the log of replica R, `op OPERATION` is an operation
//! that it applied, and `commit N` ends a batch, where N octets of the log had been synced when it
//! was written. [`push_entry`] and [`push_line`] append exactly these octets.
//!
//! [`recover`] returns the entries up to the last commit of the whole lines before the first line
//! that is unfinished or whose checksum isn't that of its text. A crash leaves what was synced, and
//! any octets after it: if whole lines with right checksums among these are lines that were written
//! there, in order, `recover` returns all that was synced, then whole batches of what was written,
//! and no fault but want of memory. [`is_damaged`] says whether a commit after these lines shows
//! that more had been synced; the law [`crash_states_are_undamaged`] says that no crash leaves such
//! a log. [`LogReader`] finds the same in a log that it is fed in pieces, and has only the operations
//! and the last octets in memory. [`line_bound`] says how many octets an operation's line has at
//! most, without a pass over its text, so that room can be set aside before the operation exists
//! ([`lines_are_within_bounds`]).
//!
//! # Decided
//!
//! - There is no length field: a line end begins the next line whatever came before, so damage
//!   hides no later commit.
//! - A text has no line end, since operations escape theirs (`op_text`). So zeros at the end of a
//!   log, which were written ahead, are an unfinished line, and neither an entry nor damage.
//! - That a written text cut short is recognized needs no trust in checksums (the law
//!   [`cuts_leave_written_lines`]). For octets of any other kind the premise is that a checksum of
//!   32 bits shows damage.
//! - Damage to the last batch looks like a write cut short, and that batch is left out.
//! - A reader has the octets of committed lines too, from the place up to which the last commit says
//!   that the log had been synced: who opens the log writes these again, and the system may return
//!   other octets to a second read of them. It moves them only if it can drop as many, so that it
//!   takes time in proportion to a log's octets, whatever its commits say.
//! - A line that has the checksum of its text but is no entry isn't taken as the end of the log: no
//!   crash leaves it.
#![tactic(auto)]

mod damage;
mod entry;
mod format;
mod laws;
mod line;
mod line_bounds;
mod lines_read;
mod op_forms;
mod reader;
mod recovery;

pub use damage::is_damaged;
pub use entry::{Entry, EntryFault, push_entry, read_entry};
pub use laws::{
    crash_states_are_undamaged, cuts_leave_written_lines, damage_before_commit_is_found,
    lines_are_within_bounds, lines_before_are_recovered,
};
pub use line::{first_text, push_line};
pub use line_bounds::{line_bound, lines_bound};
pub use lines_read::octets_from;
pub use op_forms::op_has_text;
pub use reader::{LogContents, LogReader};
pub use recovery::{LogFault, Recovered, recover};
