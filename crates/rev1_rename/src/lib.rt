//! RENAME of IMAP4rev1 (RFC 3501, section 6.3.5) by a second session of the connection, in turns at
//! a replica's lock.
//!
//! The server's profile of IMAP4rev2 has no RENAME: a mailbox with the new name is created, the old
//! one's messages are moved there, and the old one is deleted. [`RenameWork::finish`] does
//! that in one turn. If the replica's log lacks room, the turn ends, and the next one goes on.
#![tactic(auto)]

mod exchange;
mod mailbox_steps;
mod reply_facts;
mod work;

pub use exchange::{GivenSteps, RenameFault};
pub use work::RenameWork;
