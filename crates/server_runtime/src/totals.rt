//! Totals of what a replica served until it stopped.

ghost use Rattle.server_runtime.specs.Totals.{AreTotals};

use replica_lock::Book;

/// What a replica served until it stopped.
#[derive(Clone, Copy, Debug, PartialEq, Eq)]
pub struct Totals {
    /// The number of sessions that were opened.
    pub sessions: u64,
    /// The number of commands that arrived, refused ones included.
    pub commands: u64,
    /// The number of operations that were applied.
    pub operations: u64,
    /// The number of entries that the journal ever had.
    pub entries: u64,
    /// The number of them that were forgotten.
    pub forgotten_count: u64,
}

/// The totals of a book, forgotten entries included.
pub fn totals_of(book: &Book) -> Totals
    ensures { AreTotals book.now result }
{
    let summary = book.summary();
    Totals {
        sessions: summary.sessions,
        commands: summary.commands,
        operations: book.node().replica().op_list().len() as u64,
        entries: book.len(),
        forgotten_count: book.forgotten_count(),
    }
}
