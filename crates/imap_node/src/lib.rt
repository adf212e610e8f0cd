//! One replica with its sessions, for every command of the profile, lines of IDLE and polls.
//!
//! A node answers only from its own state. `command`, `done` and `poll` are each a plan and its
//! commit. The plan makes all the room that the input needs and leaves the node as it was; the
//! commit takes no memory. What each command issues and reports is defined in `imap_commands`. This
//! crate defines what commands have in common: the listings they read, the operations they issue,
//! the sync and the tagged line after their own answers, and their effect on the session.
//!
//! What the contracts promise:
//!
//! - The reply and the node after it are the defined ones (`Responds`, `specs/Responses`). An input
//!   is carried out whole, or refused for a defined reason. A refusal leaves everything as it was,
//!   except that a refused SELECT or EXAMINE leaves no mailbox selected and a line that isn't DONE
//!   ends an IDLE.
//! - The operations that a node issues are sound, new and its own. A reply, replayed, gives the
//!   session's view, whose UIDs ascend; after a full sync the view equals the mailbox's listing
//!   (`laws`).
//! - `deliver` and `drain` receive operations of other replicas as the inbox defines, and change no
//!   session.
//! - Whatever a node answers can be printed (`printable`).
//!
//! # Decided
//!
//! - `Node::command`, `done`, `poll` and `plan` require that the session awaits the input
//!   (`IsAwaitedInput`, `specs/Nodes`): a command if it is open and doesn't idle, a line or a poll
//!   if it idles. `is_open` and `is_idling` test that. The definition of a node's reply doesn't
//!   depend on whether the session idles.
//! - `Node::session` returns a reference to a session's state, for contracts of conversations.
//! - A node's replies are defined over the list of applied operations followed by what the command
//!   issues. A command's own answers and the sync show values after the command's operations;
//!   CHANGEDSINCE, UNCHANGEDSINCE and expunged messages are judged before them.
//! - The node's room is a part of what contracts see, apart from its state; "as before" speaks only
//!   of the state. A commit that issues nothing leaves the held operations as they are.
//! - `Node::new` takes one `Counters`, a replica's name with both of its first numbers. The numbers
//!   mean nothing without the replica they belong to, and three numbers side by side are passed in
//!   the wrong order sooner or later.
//! - `Node::folders` and `Node::subs` return references to the folders and subscriptions that
//!   result from the operations; `Node::replica` returns a reference to all of a node but its
//!   sessions, for dumps.
//! - What a reply lists (answers, silent flags, issued operations) is stored once, in memory that
//!   its copies share (`SharedList`), so that the journal, the caller's pass and the connection
//!   that prints it share one reply. A copy takes no memory (`Reply::copy`, and above it
//!   `Outcome::copy`). It fails only if more copies share a list than can be counted.
//! - SELECT and EXAMINE leave nothing unsent. What they show is a prefix of the listing, since
//!   answers that expunge nothing and report no items add the listing's next messages; if the view
//!   has as many messages as the listing, it is the whole listing (`ShowsAll`,
//!   `specs/SessionChanges`). So the code compares two lengths, and no messages.
//! - In contracts, sessions are a list of places and not a function from numbers, since a value of
//!   a model can't contain a function. Number 0 is never open, and a statement about one session
//!   and the others requires that it is open, so that no two numbers mean one session.
#![tactic(auto)]

mod change_notes;
mod feeds;
mod input;
mod input_effect;
mod input_rules;
mod intents;
mod laws;
mod node;
mod plan;
mod printable;
mod ready_ops;
mod replica;
mod replica_after;
mod reply;
mod session_change;
mod sessions;
mod shared_list;
mod sync_and_state;

pub use imap_commands::{Credentials, Session, State};
pub use input::Input;
pub use laws::{
    counters_last, full_syncs_show_listing, issued_are_sound_and_new, other_sessions_stay,
    replies_replay, views_are_older, views_ascend,
};
pub use node::Node;
pub use plan::Plan;
pub use printable::{answers_are_printable, listings_are_showable};
pub use replica::ReplicaState;
pub use reply::{Answers, Reply, ReplyOps, ReplySilentFlags};
pub use sessions::{Auth, MAX_SESSIONS, OpenFault, SessionNo};
