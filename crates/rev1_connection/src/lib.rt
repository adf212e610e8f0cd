//! The conversation with a mail client that speaks IMAP4rev1 (RFC 3501).
//!
//! [`converse_rev1`] stands beside `converse_within` of `imap_connection`, over the same source,
//! sink and port. The octets are cut into the same frames, under the same limits. Each frame is to
//! the session what the front says (`rev1_front`, and `rev1_fetch` for FETCH): a command of the
//! profile that the port carries out, or something that is answered at once; and what is written
//! are the answers in the form that the front gives them. RENAME is the port's own
//! ([`RenamePort`]).
//!
//! What the contracts promise: what is written are the greeting, what is shown of the replies to
//! just the inner commands of the frames in the octets read, in their order, however they were cut,
//! and the BYE of the end; and these are the calls of the port (`specs/Conversations`,
//! `specs/Handling`). Each command gets one tagged line, with its tag and after all others
//! ([`commands_are_completed`]).
//!
//! # Decided
//!
//! - Commands are given to the port one by one, also brief ones.
//! - A FETCH with items that the profile hasn't is looked for only in a frame to which the front
//!   would answer that it is no command. If memory ran out for the front, that is answered.
//! - The answers to a command are printed one by one, and written each time that 64 KiB are
//!   buffered. Only LSUB, whose lines depend on one another, is printed whole, and so is what a
//!   search by sent days reports before its hits.
//! - A search by sent days is a FETCH of all texts, of whose answers only the news are shown, and
//!   then the search. If the FETCH is refused, so is the search, unless there is no message.
//! - After a RENAME the session is given NOOP, and its answers are shown. If that is refused,
//!   RENAME is completed all the same.
#![tactic(auto)]

mod call_steps;
mod conversation;
mod day_steps;
mod fetch_frame;
mod item_steps;
mod laws;
mod manner;
mod rename_port;
mod reply_writer;
mod request;
mod session;
mod shown_answers;

pub use conversation::converse_rev1;
pub use laws::{commands_are_completed, days_are_asked_once, profile_is_carried_out};
pub use rename_port::{RenameEnd, RenamePort};
