//! Items of STATUS.

/// An item of STATUS (RFC 9051, section 6.3.11; RFC 7162, section 3.1.7).
#[derive(Clone, Copy, Debug, PartialEq, Eq)]
pub enum StatusItem {
    /// The number of messages.
    Messages,
    /// The UID that the next message will get.
    UidNext,
    UidValidity,
    /// The number of messages without `\Seen`.
    Unseen,
    /// The number of messages with `\Deleted`.
    Deleted,
    /// The number of octets of all messages together.
    Size,
    HighestModSeq,
}
