//! The lines printed about joining replicas.

use server_runtime::{Join, JoinOutcome, Place};
use std::alloc::Global;
use std::test::*;

/// Whether this is printed about a replica that was to join.
fn is_printed(alloc: Global, end: JoinOutcome<'_>, expected: &str) -> bool {
    match format!(in alloc; "{end}") {
        Ok(text) => text.as_str() == expected,
        Err(_) => false,
    }
}

#[test]
fn joins_are_printed(rt: HostRuntime) {
    let join = Join {
        place: Place {
            replica: 3,
            address: "127.0.0.1:1433",
        },
        peer: 1,
    };
    assert!(rt;
        is_printed(
            rt.alloc(),
            JoinOutcome::Joined(join),
            "joined 3 1\nlistening 3 127.0.0.1:1433"
        )
    );
    assert!(rt; is_printed(rt.alloc(), JoinOutcome::Failed(join), "cannot join 3 1"));
}
