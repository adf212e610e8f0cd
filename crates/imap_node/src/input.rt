//! Inputs of a session: what its client sends, and polls.

use imap_syntax::{IdleLine, Tagged};
use imap_types::Moment;

/// An input that a node replies to.
#[derive(Drop)]
pub enum Input {
    /// A command of a session that doesn't idle.
    Command {
        /// The moment of its arrival.
        moment: Moment,
        /// The command, with its tag.
        tagged: Tagged,
    },
    /// A line in IDLE (RFC 2177, section 3).
    Line {
        /// Whether it is DONE, which ends the IDLE well.
        line: IdleLine,
    },
    /// A request to send an idling session what has changed.
    Poll,
}
