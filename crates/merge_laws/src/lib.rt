//! Values that operations change in any causal order, and the law that the order doesn't matter
//! then.
//!
//! An operation-based replicated type (Jungnickel, Oldenburg, Loibl, OPODIS 2017) keeps the laws of
//! [`Replicated`]: above all, sound operations that are concurrent commute. Its operations keep
//! those of [`Caused`]: each has an id and a clock that counts its causes, and removes only what
//! came before it.
//!
//! [`same_for_all_orders`] follows from pairwise commutation: any two causal lists of the same
//! sound operations lead from one value to the same value. [`replay`] computes that value. A
//! [`Pair`] of replicated types is replicated.
//!
//! A [`Follower`] notes the operations applied to a value. It is made ready for operations before
//! they are applied, and refuses exactly those that would exhaust its counters.
//!
//! # Decided
//!
//! - A follower may rely on the list that it notes being causal, and is made ready for operations
//!   after a list, not for operations by themselves: running counters can be right only for causal
//!   lists.
//! - A follower's contract says exactly when it is exhausted, as a relation between what it began
//!   with and the list that it noted.
#![tactic(auto)]

mod caused;
mod follower;
mod laws;
mod pair;
mod replicated;

pub use caused::Caused;
pub use follower::{Follower, NotReady, Unfollowed};
pub use laws::{replay, same_for_all_orders};
pub use pair::{FirstFollower, Pair};
pub use replicated::Replicated;
