//! Laws on the replies of a node: what a client may rely on.
//!
//! There is no code here. Each public function has an empty body, and its contract is the law.
//!
//! - `by_number_keeps_places`: FETCH, STORE and SEARCH by message numbers are answered without
//!   EXPUNGE, and each message that the session was shown before keeps its number.
//! - `reported_uids_are_those_of_the_messages`: the UIDs of APPENDUID and COPYUID are those of the
//!   messages that the command appended.
//! - `flags_are_unions`: the flags of a message with several versions are the union of its
//!   versions' flags.
//!
//! The laws are stated over `Responds` of `imap_node`, so that they apply to each reply of a node.
#![tactic(auto)]

mod laws;
mod unions;

pub use laws::{by_number_keeps_places, reported_uids_are_those_of_the_messages};
pub use unions::flags_are_unions;
