//! Replay scripts and their output: readers of script lines, and writers of the lines of
//! transcripts and outcomes.
//!
//! A script is a text whose lines declare replicas, open sessions, feed them octets and deliver
//! operations between replicas. Running a script is the work of the crate `mail_replay`; this crate
//! only reads and writes lines.
//!
//! The contract of `read_line` promises that a line is read exactly as the relation `Means` defines
//! it, and `one_meaning` that a line says at most one thing. `ScriptLines` cuts a script into
//! lines; the lines don't depend on the pieces in which the script arrives (`cut_in_turn`).
//! `write_outcome` and `write_transcript_line` append exactly the line that `outcome_line` and
//! `transcript_line` define, or append nothing if memory runs out.
//!
//! # Decided
//!
//! - `forge R ` with nothing after the space is a line; the reader of operations then refuses the
//!   empty operation.
#![tactic(auto)]

mod fields;
mod outcome_line;
mod script;
mod script_lines;
mod session_name;
mod transcript;

pub use outcome_line::{
    BrokenRule, DeliveryResult, JoinResult, OutcomeLine, SettleResult, write_outcome,
};
pub use script::{LineFault, ScriptLine, one_meaning, read_line};
pub use script_lines::{ScriptLines, cut_in_turn};
pub use session_name::{MAX_SESSION_NAME_OCTETS, SessionName};
pub use transcript::{Speaker, write_transcript_line};
