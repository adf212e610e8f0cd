//! The end of a replica that the server ran.

ghost use Rattle.std.specs.Prelude.{◌≡◌};
ghost use Rattle.server_laws.specs.BookWorlds.{KeepTheHeadline};
ghost use Rattle.server_runtime.specs.ReplicaEnds.{EndHasHistory, IsEndOf, books_of, is_whole};

use replica_lock::Book;
use server_laws::interleavings_are_runs;
use tags_clocks::ReplicaId;

/// How one replica ended when the server stopped.
#[derive(Drop)]
pub enum ReplicaEnd {
    /// It ran, and returned its whole journal.
    Finished(Book),
    /// It was to join and couldn't.
    NotJoined,
    /// It couldn't start, or its journal isn't whole.
    Lost,
}

impl ReplicaEnd {
    /// Whether the replica returned its whole journal, or never ran because it couldn't join.
    pub fn is_whole(&self) -> bool
        ensures { result ≡ is_whole self.now }
    {
        match self {
            ReplicaEnd::Finished(_) | ReplicaEnd::NotJoined => true,
            ReplicaEnd::Lost => false,
        }
    }
}

/// This end unchanged, if it is an end of the replica with this name; `Lost` if its book has
/// another name.
pub(crate) fn end_of(replica: ReplicaId, end: ReplicaEnd) -> ReplicaEnd
    ensures named { IsEndOf replica result }
    ensures own { IsEndOf replica end → result ≡ end }
{
    match end {
        ReplicaEnd::Finished(book) => {
            if book.node().replica().id() == replica {
                ReplicaEnd::Finished(book)
            } else {
                drop(book);
                ReplicaEnd::Lost
            }
        }
        ReplicaEnd::NotJoined => ReplicaEnd::NotJoined,
        ReplicaEnd::Lost => ReplicaEnd::Lost,
    }
}

/// The headline holds of the books that the replicas returned, whatever happened under their locks.
pub(crate) fn ends_keep_the_headline(ends: &[ReplicaEnd])
    ensures { KeepTheHeadline (books_of ends.now) }
{
    for end in ends {
        take_history(end);
    }
    interleavings_are_runs();
}

/// If the replica returned its book, the book's journal leads to it.
fn take_history(end: &ReplicaEnd)
    ensures { EndHasHistory end.now }
{
    match end {
        ReplicaEnd::Finished(book) => {
            let _node = book.node();
        }
        ReplicaEnd::NotJoined | ReplicaEnd::Lost => {}
    }
}
