//! How a replay ends.

/// How the replay of a script ends. The output of the lines before the end has been written, unless
/// the writer failed.
#[derive(Clone, Copy, Debug, PartialEq, Eq)]
pub enum ReplayEnd {
    /// Every line was served.
    Done,
    /// The line of this number, counted from 1, can't be served in the state that the lines before
    /// it left.
    BadScript { line: u64 },
    /// The script couldn't be read to its end.
    ReadFailed,
    /// The output couldn't be written.
    WriteFailed,
    /// Memory ran out.
    NoMemory,
}
