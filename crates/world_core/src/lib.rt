//! Worlds of replicas: events at any of them, one after another, and what holds after any events.
//!
//! A world is a list of nodes with distinct names. Sessions open and close, send commands, lines
//! and polls, and any operation that some replica issued may be delivered at any node, at any later
//! time, any number of times. A replica with a new name may join at any time, with the operations
//! that another one applied. A replica may start again at any time, as after a crash: the
//! operations that it applied stay, those that it holds are lost, and its sessions end.
//!
//! [`run`] takes a list of such events, and its contract is the promise for which the project
//! exists: whatever the events are, replicas that applied the same operations have the same
//! folders, messages, flags and subscriptions, each session's untagged answers, replayed, give its
//! view, and no UID or mod-sequence is ever reused. [`settle`] has nodes exchange what they
//! received until all applied one set of operations, and [`agree`] tests whether two did.
//!
//! # Decided
//!
//! - `run` takes its events by value, since a node consumes a command.
//! - The list of outcomes is allocated before the first event. If memory runs out for it, no event
//!   is taken.
//! - A delivery copies the operation from the list of the replica that issued it. If memory runs
//!   out for the copy, the outcome is `NotTaken` with `NoMemory`, even if the node had received the
//!   operation before.
//! - If two replicas have one name, the fault has a name that occurs twice. If there are several
//!   such names, the contract doesn't say which.
//! - `settle` sends all nodes what the first one applied, and the first one what the others
//!   applied, until that adds nothing. A held operation is never sent: the causes of whatever is
//!   delivered have been applied, so that no further operation is held and the limit of held
//!   operations is never reached. It ends, since the first node's list grows in each round but the
//!   last.
//! - `settle` stops at the first operation that a counter refuses, although others could still be
//!   exchanged. What was delivered stays.
//! - A restart makes a new node and delivers the operations of the old one to it, which it replaces
//!   only then. So a restart for which memory runs out changes nothing.
//! - Conflicts are searched for only between nodes. No single node can have one, since it refuses a
//!   different operation with an id that it received.
#![tactic(auto)]

mod agreement;
mod conflicts;
mod event;
mod laws;
mod node_places;
mod run_events;
mod session_events;
mod settlement;
mod world;
mod world_join;
mod world_restart;
mod world_step;

pub use agreement::{Agreement, agree};
pub use event::{Event, Outcome};
pub use laws::{restarts_keep_promises, settling_keeps_promises, worlds_keep_their_promises};
pub use run_events::{Outcomes, run};
pub use settlement::{SettleFault, settle};
pub use world::{World, WorldFault};
pub use world_join::{JoinRefusal, joined_node};
pub use world_restart::restarted_node;
