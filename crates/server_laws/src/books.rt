//! The headline of replicas as their locks return them.

ghost use Rattle.server_laws.specs.BookWorlds.{KeepTheHeadline};

use crate::laws::interleavings_are_runs;
use replica_lock::Book;

/// The headline holds of these replicas, whatever happened under their locks. It isn't required
/// that a history leads to each replica, nor that UIDs began with 1 or more: every `Book`
/// guarantees both, whether or not it forgot entries.
pub fn books_keep_the_headline(books: &[Book])
    ensures { KeepTheHeadline books.now }
{
    for book in books {
        let _node = book.node();
    }
    interleavings_are_runs();
}
