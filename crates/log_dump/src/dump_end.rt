//! How the dump of a log ends.

/// How the dump of a log ends.
#[derive(Clone, Copy, Debug, PartialEq, Eq)]
pub enum LogDumpEnd {
    /// The dump was written.
    Done,
    /// The log can't be read, and a line says so.
    Unreadable {
        /// The number of octets before what can't be read.
        octets: usize,
    },
    /// The reader failed.
    ReadFailed,
    /// The writer failed.
    WriteFailed,
    /// Memory ran out.
    NoMemory,
}
