//! Tests of replicas under locks, and of the links between them.
//!
//! Scenes are data: what callers of two replicas do, one after another and then in threads, which
//! messages of the link are lost, doubled or reordered, and what is reported at the end. They show
//! that locks are independent, that a change ends a wait and wakes only the idling sessions that
//! have something to be sent, that four threads make one history, that lost messages are requested
//! again, and that linked replicas end with the same operations. Replicas join with another one's
//! operations, and a journal is returned only with the passes of all its calls. A table gives the
//! order of the calls that a link's worker makes. Journals with a bound forget their oldest
//! entries, and no others.
#![tactic(auto)]

#[cfg(test)]
mod actions;
#[cfg(test)]
mod bounded_journals;
#[cfg(test)]
mod caller;
#[cfg(test)]
mod channels;
#[cfg(test)]
mod final_report;
#[cfg(test)]
mod fixtures;
#[cfg(test)]
mod joining;
#[cfg(test)]
mod lost_messages;
#[cfg(test)]
mod output;
#[cfg(test)]
mod scene;
#[cfg(test)]
mod scripted;
#[cfg(test)]
mod threads;
