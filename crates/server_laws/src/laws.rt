//! Laws on interleavings of histories: statements over definitions, each a clause of a function
//! that does nothing.

ghost use Rattle.std.specs.Prelude.{◌≡◌, ℕ, ◌++◌, List, [], ◌∷◌, map};
ghost use Rattle.causal_inbox.specs.Inbox.{IsClockOf};
ghost use Rattle.crdt_ops.specs.Meanings.{MeansTheSame};
ghost use Rattle.crdt_ops.specs.declared.op.Op.{Op};
ghost use Rattle.imap_node.specs.Nodes.{NodeState, first_numbers, joined_node, unused_node};
ghost use Rattle.imap_node.specs.Operations.{clock_of, id_of};
ghost use Rattle.merge_laws.specs.Orders.{IsCausal, IsIn};
ghost use Rattle.replica_lock.specs.Histories.{BookState};
ghost use Rattle.replica_lock.specs.JoinedBook.{restored_book};
ghost use Rattle.replica_lock.specs.declared.book.JournalEntry.{JournalEntry};
ghost use Rattle.replica_lock.specs.declared.event.BookEvent.TheVariants.{Deliver};
ghost use Rattle.server_laws.specs.WorldEvents.{event_of, outcome_of};
ghost use Rattle.server_laws.specs.Interleavings.{AreKnownBeforeDelivery, AreIssuedBeforeDelivery};
ghost use Rattle.server_laws.specs.Interleavings.{ReplicaEntry, HasIssuedOrDelivered};
ghost use Rattle.server_laws.specs.Interleavings.{ForgetsEntries, IsIssuedAmong, IsWholeHistory};
ghost use Rattle.server_laws.specs.Interleavings.{TakesStep, unused_book};
ghost use Rattle.server_laws.specs.BookWorlds.{AllLead, AreIssuedBeforeDeliveryFrom};
ghost use Rattle.server_laws.specs.BookWorlds.{IsLinkedInterleaving, starting_world, current_world};
ghost use Rattle.server_laws.specs.BookWorlds.{starts_of};
ghost use Rattle.server_laws.specs.RestoredBooks.{AreLeftByRun, IsHistorySince};
ghost use Rattle.server_laws.specs.RestoredBooks.{IsKnownOrIssued, IsRestoredInterleaving};
ghost use Rattle.server_laws.specs.RestoredBooks.{KeepTheHeadlineThroughRestarts, restart_of};
ghost use Rattle.server_laws.specs.RestoredBooks.{restart_outcome};
ghost use Rattle.world_core.specs.Headline.{Headline};
ghost use Rattle.world_core.specs.WorldPromises.{IsIssuedWorld};
ghost use Rattle.world_core.specs.Replicas.{IsAt, IsIssuedIn, Replicas, nodes_by_name};
ghost use Rattle.world_core.specs.Steps.{Runs};
ghost use Rattle.world_core.specs.declared.event.Event.{Event};
ghost use Rattle.world_core.specs.declared.event.Outcome.{Outcome};
ghost use Rattle.uid_projection.specs.Exhaustion.{Exhausts};
ghost use Rattle.uid_projection.specs.declared.first_numbers.Counters.{Counters};
ghost use Rattle.world_core.specs.Worlds.{AreFromOne, HaveDistinctNames};

/// An interleaving of whole histories in which each operation is issued before it is delivered is a
/// run of a world: it leads from the replicas as they began to the replicas as they are, with the
/// entries' events and outcomes. So the headline holds of it, and so does everything that holds of
/// worlds in which all operations were issued.
///
/// `from_any_world` says the same of entries that begin in any such world. `issued`: each operation
/// that an entry issued was issued in the world. `own_place`: replicas of distinct names are each
/// at their name in the world, and by `clocks` two of them with equal clocks hold the same folders,
/// messages and subscriptions.
pub fn interleavings_are_runs()
    ensures from_any_world { (old new : Replicas) (interleaving : List ReplicaEntry)
        → IsIssuedWorld old
        → AllLead old interleaving new
        → AreIssuedBeforeDeliveryFrom old interleaving
        → Runs old (map event_of interleaving) (map outcome_of interleaving) new }
    ensures runs { (books : List BookState) (interleaving : List ReplicaEntry)
        → IsLinkedInterleaving books interleaving
        → Runs (starting_world books) (map event_of interleaving) (map outcome_of interleaving)
        (current_world books) }
    ensures headline { (books : List BookState) (interleaving : List ReplicaEntry)
        → IsLinkedInterleaving books interleaving
        → Headline (starting_world books) (map event_of interleaving) (map outcome_of interleaving)
        (current_world books) }
    ensures fair { (books : List BookState) (interleaving : List ReplicaEntry)
        → IsLinkedInterleaving books interleaving
        → IsIssuedWorld (current_world books) }
    ensures issued { (books : List BookState) (interleaving : List ReplicaEntry)
        → IsLinkedInterleaving books interleaving → (op : Op)
        → IsIssuedAmong interleaving op
        → IsIssuedIn (current_world books) op }
    ensures own_place { (books : List BookState)
        → HaveDistinctNames (starts_of books) → (book : BookState) → IsIn book books
        → IsAt (current_world books) book.node.start.replica book.node }
    ensures clocks { (books : List BookState) (interleaving : List ReplicaEntry)
        → IsLinkedInterleaving books interleaving
        → HaveDistinctNames (starts_of books) → (one other : BookState) → IsIn one books
        → IsIn other books
        → (clock : List (ℕ × ℕ))
        → IsClockOf id_of one.node.applied clock
        → IsClockOf id_of other.node.applied clock
        → MeansTheSame one.node.applied other.node.applied }
{}

/// Links pass on operations in some replica's list, and that is enough for the premise of
/// [`interleavings_are_runs`]. By `lists` the entries of a whole history issued or delivered
/// everything in a replica's list; by `linked`, if each delivered operation was issued or delivered
/// before, at whichever replica, then each was issued before.
pub fn lists_may_be_passed_on()
    ensures lists { (book : BookState) (entries : List JournalEntry)
        → IsWholeHistory book entries → (op : Op) → IsIn op book.node.applied
        → HasIssuedOrDelivered entries op }
    ensures linked { (interleaving : List ReplicaEntry)
        → AreKnownBeforeDelivery interleaving
        → AreIssuedBeforeDelivery interleaving }
{}

/// Such interleavings exist: unused replicas have the empty one (`begins`), each step of a book, as
/// its lock permits it, extends the interleaving by its entry, if an operation that the step
/// delivers was issued (`grows`), and a book that forgets its oldest entries leaves it (`forgets`).
pub fn interleavings_grow()
    ensures begins { (starts : List Counters) → AreFromOne starts
        → IsLinkedInterleaving (map unused_book starts) [] }
    ensures grows { (books later : List BookState) (interleaving : List ReplicaEntry)
        (item : ReplicaEntry)
        → IsLinkedInterleaving books interleaving
        → HaveDistinctNames (starts_of books)
        → TakesStep books item later
        → ((op : Op) → item.entry.event ≡ Deliver op → IsIssuedAmong interleaving op)
        → IsLinkedInterleaving later (interleaving ++ item ∷ []) }
    ensures forgets { (books later : List BookState) (interleaving : List ReplicaEntry)
        → IsLinkedInterleaving books interleaving
        → ForgetsEntries books later
        → IsLinkedInterleaving later interleaving }
    ensures apart { (books later : List BookState) (item : ReplicaEntry)
        → TakesStep books item later
        → starts_of later ≡ starts_of books }
{}

/// Replicas that are restored with the lists that crashes left of one run continue that run: the
/// run, a restart of each replica, and any interleaving of what happened since are one run, with
/// the entries' events and outcomes. So the headline holds for all of it, and UIDs and
/// mod-sequences are for good from each moment before the crash to each one after it.
///
/// An operation may be delivered if it is in the list of one of the restored replicas, or was
/// issued since. Such interleavings exist: nothing has happened yet at a book that `Book::restore`
/// makes (`begins`), and each step of a book extends an interleaving by its entry, if an operation
/// that the step delivers was known or issued (`grows`).
pub fn restored_books_continue_runs()
    ensures begins { (name : ℕ) (ops : List Op) → IsCausal id_of clock_of ops
        → ¬ Exhausts (first_numbers name) [] ops
        → IsHistorySince (joined_node name ops) (restored_book name ops) [] }
    ensures grows { (crashed : List NodeState) (books later : List BookState)
        (interleaving : List ReplicaEntry) (item : ReplicaEntry)
        → IsRestoredInterleaving crashed books interleaving
        → HaveDistinctNames (starts_of books)
        → TakesStep books item later
        → ((op : Op) → item.entry.event ≡ Deliver op → IsKnownOrIssued crashed interleaving op)
        → IsRestoredInterleaving crashed later (interleaving ++ item ∷ []) }
    ensures runs { (starts : List Counters) (before : List Event) (answers : List Outcome)
        (crashed : List NodeState) (books : List BookState) (interleaving : List ReplicaEntry)
        → AreLeftByRun starts before answers crashed
        → IsRestoredInterleaving crashed books interleaving
        → Runs (nodes_by_name (map unused_node starts))
        (before ++ (map restart_of crashed ++ map event_of interleaving))
        (answers ++ (map restart_outcome crashed ++ map outcome_of interleaving))
        (current_world books) }
    ensures headline { (books : List BookState) → KeepTheHeadlineThroughRestarts books }
{}
