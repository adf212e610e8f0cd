//! The verdict of an audit.

/// The verdict of an audit. Lines count from 1.
#[derive(Clone, Copy, Debug, PartialEq, Eq)]
pub enum AuditEnd {
    /// Every transcript is explained, and every dump is right.
    Yes,
    /// The line of this number is the first that can't follow the lines before it.
    No(u64),
    /// No script prints the line of this number, or the input ends at it within a dump.
    Unreadable(u64),
    /// The reader failed, or 16,777,216 reads didn't reach the end of the input.
    ReadFailed,
    /// The writer failed.
    WriteFailed,
    /// Memory ran out.
    NoMemory,
}
