//! The names of a node's folders and subscriptions.

use crate::node_sessions::{answers, begin, stored_names};
use std::alloc::Global;

#[test]
fn a_node_lists_folders_and_subscriptions(rt: HostRuntime) {
    assert!(rt; lists_both(rt.alloc()) == Some(true));
}

/// Whether the names of folders are INBOX and those that a session created, and the names of
/// subscriptions are those to which it subscribed.
fn lists_both(alloc: Global) -> Option<bool> {
    let mut session = begin(alloc, "joe", "secret")?;
    let output = answers(
        alloc,
        &mut session,
        "a LOGIN joe secret\r\nb CREATE work\r\nc SUBSCRIBE lists\r\nd CREATE home\r\n",
    )?;
    let made = output.as_slice()
        == b"a OK LOGIN completed|b OK CREATE completed|c OK SUBSCRIBE completed|d OK CREATE completed|".as_slice();
    let names = stored_names(alloc, &session)?;
    Some(made && names.as_slice() == b"INBOX|home|work||lists|".as_slice())
}
