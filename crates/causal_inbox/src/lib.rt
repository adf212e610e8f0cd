//! The inbox of a replica: it applies each operation once, after all its causes, and holds the
//! operations that arrive early.
//!
//! This is causal delivery as operation-based replicated types need it (Jungnickel, Oldenburg,
//! Loibl, OPODIS 2017). The inbox serves any [`merge_laws::Replicated`] value, and has a
//! [`merge_laws::Follower`] note each operation that it applies.
//!
//! The contract says when each result and each fault of a delivery is returned, and that a fault
//! leaves the received operations unchanged. Held operations are released as soon as they are ripe,
//! the least id first, until one is refused for memory or a used-up counter. Afterwards the
//! received operations are those received before and the delivered one; if no ripe operation is
//! held, the applied ones are the least set that contains each received operation whose causes are
//! all in the set. So two inboxes that received the same operations, and hold no ripe one, applied
//! the same operations.
//!
//! # Decided
//!
//! - A held operation is indexed under its last cause from the replica of its least missing cause.
//!   That cause determines the least missing one, since a replica's operations are applied in their
//!   order. So an operation is indexed again once for each replica that it waits for. If it were
//!   indexed under the least missing cause itself, each operation of a chain of 10,000 held ones
//!   would be indexed again for each one before it, 50 million times in all.
//! - The cause index and the held list are each a `tree_list`. An issue takes no memory, and the
//!   room prepared for it can't include room for indexing again, because a map of std may fail at
//!   any insertion. So an entry's slot is taken out and put in again.
//! - Applied operations are found by their ids in an `IndexSet` of pairs of numbers.
//! - `Inbox::new` can run out of memory: the inbox owns a buffer with one free place. A delivered
//!   operation is shown to the follower there, before anything else takes memory.
//! - The prepared room and the next clock, on which `Inbox::issue` relies, are part of the inbox's
//!   model, next to the received operations. "Unchanged" speaks only of the received operations.
//! - `Inbox::ops_since` and `Inbox::ops_after` return copies. They go from one uncovered operation
//!   to the next by the index of ids, so that their cost depends on what the clock lacks, and not
//!   on what was applied meanwhile.
//! - A stall that no counter causes is `Stall::Drainable`, not `NoMemory`: after an issue, the
//!   inbox may hold a ripe operation that was never refused.
//! - `Inbox::held` returns a type of its own with an iterator, which hides the tree of the held
//!   operations.
#![tactic(auto)]

mod cause_index;
mod delivery;
mod held_ops;
mod held_store;
mod history;
mod inbox;
mod laws;
mod op_cell;
mod own_ids;
mod search;

pub use delivery::{Arrival, DeliverFault, Delivered, Drained, IssueFault, OpKnowledge, Stall};
pub use held_ops::{HeldIter, HeldOps};
pub use inbox::{HELD_LIMIT, Inbox};
pub use laws::{
    applied_ops_are_the_least_set, delivery_is_received, indexed_by_least_missing_cause,
    issue_is_received, received_ops_are_consistent, release_loses_nothing,
};
pub use own_ids::least_own;
pub use search::find_in;
