//! A replica under a lock, with the journal of its events.
//!
//! A [`Book`] is a replica and its journal, which grows by one entry with each step: its contract
//! says that the events of the entries, with their outcomes, lead from a new replica to this one.
//! The oldest entries can be forgotten; then some entries, as many, lead with the others after them
//! to this replica. [`Book::join`] makes the book of a replica that joins while others run,
//! [`Book::restore`] that of one that applied given operations before.
//!
//! [`Shared`] holds a book under a lock, for the threads of a server. Each caller has a [`Pass`]:
//! the session that it opened, the outcome of its last call and the place of that call's entry, and
//! its share of the count of all calls. Each call is one step, and appends one entry, which its
//! pass notes; the passes of a replica together count its entries. So the history that the threads
//! make is one that one thread could have made, and the journal is that history, or the end of it:
//! [`Shared::finish`] returns the book exactly when the passes account for all of it.
//!
//! # Decided
//!
//! - `Book::step` returns a `Result`. `NoRoom` is its error and not an outcome, so that no journal
//!   entry can have it. An outcome is the node's answer to the call, as one enum.
//! - A journal stores each event, with its operation or command, and its outcome. The plan borrows
//!   a command (`Node::plan_for`), which then moves into the journal without a copy; an operation
//!   and a login's credentials are copied first, and plan and commit share the reply. So if memory
//!   runs out, nothing changes, and the result is `NoRoom`.
//! - A journal stores entries in compact form (`CompactEntry`), which contracts see as the entry.
//!   For a NOOP whose reply is only its tagged OK, sent by clients all day, it stores session,
//!   moment and tag. A command whose reply is only FETCH answers, each of which fits a line of 24
//!   octets, or one answer with parts of a message's text, is stored as these lines
//!   (`FetchExchange`), since the FETCH that clients send whenever they open a mailbox took 160
//!   octets per message before. The close of a session has its place reserved. Any other entry is a
//!   `JournalEntry` in memory of its own, taken before the step (`PendingEntry`). So `Book::entry`
//!   returns a reference to a `CompactEntry`, and its readers match on the form (`EntryRef`), since
//!   not every entry has a `JournalEntry` to refer to.
//! - Entries are stored in chunks of 64 (`chunk_list`), so that none moves when the journal grows.
//!   A chunk of 512 took 12 KB in each folder that a CREATE made, though the folder had no message:
//!   four fifths of the folder's memory. A chunk of 64 takes 1.5 KB, and removing an item moves
//!   fewer items and updates the counts of more chunks after it (300 to 600 for 20,000 items).
//! - A journal is a queue of blocks of some 512 entries, each a list in chunks (`Journal`). The
//!   oldest entries are forgotten by whole blocks, and one by one only within the first block that
//!   remains: to forget a hundred thousand takes 200 moves of a block and at most 511 removals. So
//!   `Book::entry` looks at each block before the entry's own.
//! - Forgotten entries are dropped by the caller (`ForgottenEntries`): a pass stores those of its
//!   calls, and the outcome of an earlier one, until `Pass::take_spent`. A connection's thread
//!   calls that after the answer was written and without the lock. It frees what is small at once
//!   (`SpentMemory::is_small`) and the rest in pieces (`SpentMemory::free_some`), until the client
//!   sends more: the answers of a FETCH of 20,000 messages take some milliseconds to free, for
//!   which the client's next command would wait. If another thread freed them, the next command's
//!   thread would join their blocks of memory in the C library's arena, which takes as long.
//! - The forgotten entries are in no value that contracts see. The invariant says that some
//!   entries, as many, precede the journal (`IsPast`), so no ghost data is needed. All facts about
//!   the whole history, also the number of sessions that were opened, are stated of one such list
//!   (`HasSummary`); two facts from two calls may be about two lists, which have the same length
//!   and end with the journal.
//! - A pass whose last entry was forgotten can't be denied: `finish` compares the last outcomes of
//!   the others (`HasOutcomeAt`), and all counts.
//! - An entry estimates the octets that it takes when it is made (`CompactEntry::octets`), and
//!   `Book::forget_to` goes by the sum. What the replica itself also has isn't counted. No contract
//!   says how many octets they are, nor that no more entries are forgotten than needed; tests do.
//! - A step needs room in the journal for its own entry and for one entry for each session open
//!   after it, so that each open session can be closed; the book counts its open sessions. The
//!   places of all entries ever made, and of these closes, fit into 64 bits; otherwise the answer
//!   is `NoRoom`.
//! - A replica with a log is given the octets for which that has room (`Shared::with_store`,
//!   `set_room`). A command is refused between its plan and its commit if the lines of what it
//!   issues may take more, by bounds without a pass over texts (`op_log::lines_bound`), which is
//!   the last reason to refuse it; a delivery is refused before it is made. What is received or
//!   issued has its octets set aside until it is written, an operation that is held too: when it is
//!   applied it needs no more, and no delivery looks at the held ones.
//! - `Shared::end_waits` ends the waits for changes, so that sessions that idle at a replica whose
//!   log failed learn it.
//! - `Shared::wait_session_change` is a call besides `wait_change`. It waits until an entry after
//!   those seen may concern other sessions (it issued operations or may have applied some) and the
//!   session's own feed has notes or missed some, or until the session is closed. Each session has
//!   a condition variable (`SessionSignals`), which such an entry signals under the lock if the
//!   session idles and its feed has something; for this, the call that makes the entry looks at
//!   each session's feed, as it does to write the notes. So an idling session costs nothing until
//!   there is something to send it, and an entry for which nobody waits wakes nobody.
//! - A session's condition variable is signalled at its IDLE too, since no earlier entry signalled
//!   it: the waiting thread is woken only if the session idles, not by each read, and changes
//!   between the last command and the IDLE, whose own reply reports nothing, are sent at once. The
//!   view of a session with no notes is current (`Node::may_have_unsent_changes`); only tests show
//!   that a session with notes is signalled. A poll that is refused since memory ran out leaves its
//!   notes, and is made again after the next entry that concerns the session.
//! - A call of `Shared` returns `Ok(())`, and `Pass::last` borrows the outcome: a result that
//!   borrows from the pass that the call changes can't have a contract about the pass afterwards.
//! - Contracts of `Shared` speak only of the pass. The value under a lock has no name outside it,
//!   so the contract about the journal is that of `CountedBook::call`, to which the guard lends its
//!   value and which `Shared` calls once.
//! - Passes have run-time numbers, parts and calls, besides the ledger's share: the share takes no
//!   octets, and no contract outside can name it.
//! - `Shared::finish` states its fault of some journal, since the lock hides which one it is;
//!   `CountedBook::settle`, which finds the fault, states it of the journal itself
//!   (`IsFinishFault`).
//! - `Shared::ops_copy` copies all operations under the lock, except their texts, which the copies
//!   share: a list returned in parts would need a second call that continues after the first. Other
//!   calls of that replica wait for it. While a replica joins, the operations are in the peer's
//!   list and journal, in the copies, and in the joining replica's list and journal; each text is
//!   in memory once.
//! - `Book::join` makes two copies of each operation, the replica's and the journal's, as each
//!   delivery does; the copies that its peer made are dropped afterwards.
#![tactic(auto)]

mod book;
mod compact_entry;
mod counted_book;
mod entry_octets;
mod event;
mod faults;
mod fetch_answers;
mod fetch_exchange;
mod fetch_line;
mod history_summary;
mod joined_book;
mod journal;
mod laws;
mod node_step;
mod outcome;
mod pass;
mod reply_equality;
mod session_signals;
mod shared;
mod spent_memory;
mod store_room;

pub use book::{Book, JournalEntry};
pub use compact_entry::{CompactEntry, EntryRef};
pub use event::BookEvent;
pub use faults::{CallFault, FinishFault, JoinFault, NoRoom, StepFault, UnmadeCommand};
pub use fetch_answers::FetchAnswers;
pub use fetch_exchange::FetchExchange;
pub use fetch_line::{FetchLine, SystemFlags};
pub use history_summary::HistorySummary;
pub use journal::ForgottenEntries;
pub use laws::{books_with_same_ops_agree, refused_commands_issue};
pub use outcome::Outcome;
pub use pass::Pass;
pub use shared::{Gate, LockTurn, Shared};
pub use spent_memory::SpentMemory;
