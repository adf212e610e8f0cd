//! The lines of a session in IDLE.

/// The kinds of lines in IDLE (RFC 2177, section 3).
#[derive(Clone, Copy, Debug, PartialEq, Eq)]
pub enum IdleLine {
    /// `DONE` in any letter case.
    Done,
    /// Any other frame.
    Other,
}
