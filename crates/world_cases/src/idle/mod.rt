//! Plays generated runs of two replicas. In each run a session idles at the first replica while
//! another session there and one at the other replica work. At the end, the view that a plain
//! client makes only of the idling session's untagged answers must be the view of a session that
//! then selects the mailbox. For each hundred runs it reports whether all such views agree, and
//! whether the received answers mattered.

mod clients;
mod random_commands;
mod runs;
mod scene;
mod tally;

pub use tally::play;
