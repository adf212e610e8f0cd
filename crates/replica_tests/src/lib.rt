//! Tests of properties of operations, folders, subscriptions and the causal inbox that no clause
//! states.
//!
//! Values and followers that are refused memory, or whose counter is used up, show that a refusal
//! leaves an inbox as it was, that a stalled one continues when it is drained, and that the end is
//! the same as with ample memory. Each call that may answer that memory ran out is made once with
//! ample memory, and each law is called once.
//!
//! Tables are compared with plain lists: 200 generated lists of operations, shuffled, repeated and
//! forged, are delivered to `Inbox` and to an inbox in plain lists, which must answer alike. The
//! operations that were applied are then replayed, and folders, subscriptions, UIDs and
//! mod-sequences are compared with those that plain lists compute. In at least fifty of the lists,
//! 150 to 300 operations are applied.
#![tactic(auto)]

#[cfg(test)]
mod calls;
#[cfg(test)]
mod comparisons;
#[cfg(test)]
mod dice;
#[cfg(test)]
mod drafts;
#[cfg(test)]
mod fixtures;
#[cfg(test)]
mod generated;
#[cfg(test)]
mod held_count;
#[cfg(test)]
mod inbox_comparison;
#[cfg(test)]
mod laws;
#[cfg(test)]
mod long_chain;
#[cfg(test)]
mod plain_charts;
#[cfg(test)]
mod plain_inbox;
#[cfg(test)]
mod plain_mailboxes;
#[cfg(test)]
mod refusals;
#[cfg(test)]
mod refused_call;
#[cfg(test)]
mod refused_values;
#[cfg(test)]
mod releases;
#[cfg(test)]
mod retries;
#[cfg(test)]
mod row_look_ups;
#[cfg(test)]
mod state_text;
#[cfg(test)]
mod tables;
