//! `ListingEntry`: a mailbox's message as its numbers.

use tags_clocks::OpId;

/// A message of a mailbox: its origin and its numbers.
#[derive(Clone, Copy, Debug, PartialEq, Eq)]
pub struct ListingEntry {
    /// The id of the Append that began the message; all its versions share it.
    pub origin: OpId,
    /// Its UID, from 1 (RFC 9051, section 2.3.1.1).
    pub uid: u32,
    /// Its mod-sequence (RFC 7162, section 3.1).
    pub modseq: u64,
}
