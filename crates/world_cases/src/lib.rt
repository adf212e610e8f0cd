//! Plays worlds of replicas: worked ones, whose events a text lists line by line, and random ones,
//! by their numbers. It also plays generated runs in which a session idles. The program
//! `node_cases` plays them, and compares them with the expected ones; docs/cases.md says what a
//! case is.
//!
//! The text of a worked world is printed again with the outcomes that its events have now, so it is
//! printed unchanged exactly when every outcome is right. After each run of a random world each
//! session's view must be the one that a plain client makes of its replies. At the end the replicas
//! settle, must have applied every operation that was issued, agree, and have equal dumps.
//!
//! Only what `world_core` needs of its callers is proved, such as that the UIDs of a world begin
//! with 1 or more; the rest is compared.
#![tactic(auto)]

mod client;
mod commands;
mod event_lines;
mod games;
mod idle;
mod outcome_text;
mod random_events;
mod session_clients;
mod settlement;
mod tally;
mod worked_world;

pub use idle::play as play_idle;
pub use worked_world::play;
