//! Laws of several replicas that ran side by side, each under its lock, as the server runs them.
//!
//! All that is known of a replica under its lock is a history that leads to it: entries that the
//! book may have forgotten, and then its journal. An interleaving of such histories puts the
//! entries of all replicas into one sequence. [`interleavings_are_runs`] says that an interleaving
//! in which each operation was issued before it was delivered is a run of a world (`world_core`),
//! with the entries' events and outcomes; so the headline holds of it. [`books_keep_the_headline`]
//! says this of replicas as their locks return them, and `serve` of `server_runtime` of those that
//! the server ran. The premise is one on links: [`lists_may_be_passed_on`] says that links which
//! pass on operations in replicas' lists meet it, [`interleavings_grow`] that each step of a book
//! extends such an interleaving and that a book may forget its oldest entries, and
//! [`interleavings_by_example`] which interleavings exist in some cases, and in which cases none
//! exists. [`restored_books_continue_runs`] says the same of replicas that were restored with the
//! lists that crashes left of one run: the headline holds through the crashes.
#![tactic(auto)]

mod books;
mod examples;
mod laws;

pub use books::books_keep_the_headline;
pub use examples::interleavings_by_example;
pub use laws::{
    interleavings_are_runs, interleavings_grow, lists_may_be_passed_on,
    restored_books_continue_runs,
};
