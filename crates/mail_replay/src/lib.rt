//! The parts of the program `mail_tool`: its command line, the replay of a script (replicas,
//! sessions and what clients send in them, line by line), the audit of its output, the dump of a
//! replica's log, and the status with which it ends.
//!
//! The contract of `replay` holds for any reader and writer whose octets are known: the text
//! written is the output of the script's lines, one after another, and the end names the first line
//! that can't be served; if the reader fails, the lines that were read whole were served; if memory
//! runs out, the lines before the one that couldn't be completed were served, and the output of
//! that line is missing or is only its first part. `status` and `last_line` give the program's
//! status and the last line for each end; that this line is written is only tested.
//!
//! `dumps_are_right` joins the definitions of nodes and of the audit: the dump that a node writes
//! is a right dump. `log_dumps_are_right` says this of the dump of a log. The laws of `dump_forms`
//! say that every sound operation has a text. Nothing calls these laws.
//!
//! # Decided
//!
//! - A script's `open` prints `* BYE too many sessions` if 1,024 sessions are open, and the
//!   session's name is used up.
//!
//! - A script's session ends at a line of IDLE that is refused for lack of memory, since a BYE
//!   reports it, and the script continues; an `open` that runs out of memory ends the script. A
//!   poll that the node refuses prints nothing.
//!
//! - `restart R` prints nothing, and ends R's sessions without a word; their names are used up.
//!   What R's sessions issued can still be delivered. If memory runs out, the replay ends with `no
//!   memory` and nothing changes.
//!
//! - `deliver ID R` names operations that a replica's sessions issued. A forged operation with the
//!   replica's own name is applied there and counts for its clock, but isn't one that it issued.
//!   Copies of the issued operations are stored (`IssuedOps`).
//!
//! - `replay` returns its end, and the program prints the last line. If memory runs out for that
//!   line, `no memory` is printed; if writing it fails, the status is still 3. An interrupted read
//!   is tried again and counts as a read.
//!
//! - Output is written after each line and flushed after each piece of input.
//!
//! - A script stores each node with its replica's name, and `settle` takes a slice of nodes:
//!   blank nodes take their place while the real ones are passed to it. If memory runs out for the
//!   blank ones, the replay ends with `no memory` and nothing changes; if it runs out within the
//!   exchange, `settle: NoMemory` is printed.
#![tactic(auto)]

mod audit_run;
mod deliveries;
mod dump_forms;
mod dump_laws;
mod exchanges;
mod log_laws;
mod log_run;
mod program;
mod program_request;
mod replay_end;
mod replay_run;
mod replay_status;
mod script_join;
mod script_restart;
mod script_service;
mod script_state;
mod transcript_lines;

pub use audit_run::{audit_file, audit_from};
pub use log_run::{dump_log_file, dump_log_from};
pub use program::run;
pub use program_request::{ProgramRequest, read_words};
pub use replay_end::ReplayEnd;
pub use replay_run::{MAX_READS, replay};
pub use replay_status::write_last_line;
