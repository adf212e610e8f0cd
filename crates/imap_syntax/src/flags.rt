//! Flags as a client writes them.

use imap_types::Octets;

/// The system flags that a client may set (RFC 9051, section 2.3.2).
#[derive(Clone, Copy, Debug, PartialEq, Eq)]
pub enum SystemFlag {
    Answered,
    Flagged,
    Deleted,
    Seen,
    Draft,
}

/// A flag as it is written (RFC 9051, section 9, flag).
#[derive(Drop)]
pub enum Flag {
    System(SystemFlag),
    /// One or more atom octets, in any letter case.
    Keyword(Octets),
}
