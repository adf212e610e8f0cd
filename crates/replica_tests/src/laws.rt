//! The laws can be called: each is the contract of a function that does nothing.

use crate::fixtures::Mailboxes;
use causal_inbox::{
    applied_ops_are_the_least_set, delivery_is_received, indexed_by_least_missing_cause,
    issue_is_received, received_ops_are_consistent, release_loses_nothing,
};
use crdt_ops::{SoundOp, one_operation};
use folder_state::{contents_follow_the_set, folders_for_all_orders};
use merge_laws::{Unfollowed, same_for_all_orders};
use subs_state::{subs_for_all_orders, subscriptions_follow_the_set, whole_state_for_all_orders};

#[test]
fn one_operation_is_callable() {
    one_operation();
}

#[test]
fn orders() {
    same_for_all_orders::<Mailboxes>();
}

#[test]
fn folders() {
    folders_for_all_orders();
    contents_follow_the_set();
}

#[test]
fn subscriptions() {
    subs_for_all_orders();
    subscriptions_follow_the_set();
}

#[test]
fn whole_state_law_is_callable() {
    whole_state_for_all_orders();
}

#[test]
fn inboxes() {
    delivery_is_received::<Mailboxes, Unfollowed>();
    release_loses_nothing::<Mailboxes, Unfollowed>();
    issue_is_received::<Mailboxes, Unfollowed>();
    received_ops_are_consistent::<Mailboxes, Unfollowed>();
    applied_ops_are_the_least_set::<Mailboxes, Unfollowed>();
    indexed_by_least_missing_cause::<SoundOp>();
}
