//! Plays two kinds of cases: operations, clocks and inboxes; and UIDs, UIDVALIDITY and
//! mod-sequences. The program `node_cases` plays them, and compares them with the expected ones.
//!
//! A case is a line, a question. It is printed again with the answer that the code gives now below
//! it, so a text is printed unchanged exactly when every answer is right. docs/cases.md lists the
//! questions. `uids::lists` generates lists of operations, and compares what the code says after
//! them with a recount that is written from the definitions.
//!
//! What no contract says is tested here: that a text, even a damaged one, is written as it was
//! read, and that sets of operations have the same effect in every order of delivery. The contracts
//! of this crate say only what an inbox needs, such as that an issued operation is the next one of
//! its replica.
#![tactic(auto)]

mod clocks;
mod dump;
mod fields;
mod given;
mod inboxes;
mod issue_line;
mod lines;
mod mutations;
mod operations;
mod orders;
mod permutations;
mod requests;
mod sets;
mod setup;
mod uids;

pub use requests::play;
pub use uids::play as play_uids;
