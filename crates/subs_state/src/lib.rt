//! Subscriptions to mailbox names, as a replicated value (Jungnickel, Oldenburg, Loibl, OPODIS
//! 2017; RFC 9051, section 6.3.7).
//!
//! [`Subs`] contains the present subscription tags of the applied operations, in a table by name.
//! Its contents are a function of name and id, whatever the table. Applying an operation has its
//! effect on the contents, looks only at the tags of the operation's own name, and takes no memory
//! once prepared. Preparing makes room for as many tags of each name as the operations add.
//! Concurrent operations commute, so subscriptions satisfy the laws of `Replicated`.
//!
//! After a causal list of sound operations, `names` and `tags` return the subscriptions that the
//! set of these operations defines (`subscriptions_follow_the_set`). `whole_state_for_all_orders`
//! is the law of merging for folders together with subscriptions, a replica's whole state.
#![tactic(auto)]

mod laws;
mod subs;
mod subs_table;

pub use laws::{subs_for_all_orders, subscriptions_follow_the_set, whole_state_for_all_orders};
pub use subs::Subs;
