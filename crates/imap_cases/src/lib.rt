//! Plays cases of three kinds: IMAP texts (commands, answers, framing), queries of a mailbox, and
//! views. The program `node_cases` plays them, and compares them with the expected ones.
//!
//! A case is a line, `KIND INPUT`, and below it the answer after two spaces. It is printed again
//! with the answer that the code gives now, so a text is printed unchanged exactly when every
//! answer is right. Comments and empty lines are printed as they are. docs/cases.md lists the kinds
//! and says how inputs and answers are written.
//!
//! Nothing is proved of the answers beyond the contracts of the called crates: this crate compares
//! what no contract says, such as worked rows, and it damages short texts at each octet and cuts
//! short streams at each place. Each sync of a view is also made by notes, which are proved to name
//! all that differs, as `View::sync_by` requires.
#![tactic(auto)]

mod answers;
mod cases;
mod commands;
mod damage;
mod flag_orders;
mod frames;
mod keys;
mod numbers;
mod parts;
mod queries;
mod repeats;
mod round_trips;
mod streams;
mod texts;

pub use cases::{play, play_queries, play_views};
