//! A replica whose operations are sent.

ghost use Rattle.std.specs.Prelude.{◌≡◌, take};

use causal_inbox::Inbox;
use crdt_ops::{SoundOp, into_sound_op, read_op};
use folder_state::Folders;
use link_connection::OpSource;
use merge_laws::Unfollowed;
use std::alloc::Global;
use tags_clocks::Clock;

/// Operations of two replicas, in an order in which each can be applied.
pub const LINES: &[&[u8]] = &[
    b"1:1 - create a",
    b"1:2 1=1 subscribe a",
    b"2:1 - create b",
    b"1:3 1=2,2=1 append a ($forwarded) \"25-Dec-2023 10:00:00 +0000\" =a~0D~0Ab",
    b"2:2 2=1 unsubscribe b -",
];

/// A replica of which the first `synced` operations may be sent.
#[derive(Drop)]
pub struct SyncedReplica {
    alloc: Global,
    inbox: Inbox<Folders, Unfollowed>,
    synced: usize,
}

impl OpSource for SyncedReplica {
    ghost lists = { λ s ops. ops ≡ take s.synced s.inbox.received.applied };

    fn ops_after(&self, clock: &Clock, limit: usize) -> Option<Vec<SoundOp>> {
        self.inbox
            .ops_after(self.alloc, clock, limit, self.synced)
            .ok()
    }
}

/// A replica that applied the operations of the lines.
pub fn replica_with_lines(alloc: Global, synced: usize) -> Option<SyncedReplica> {
    let mut inbox = Inbox::new(alloc, Folders::new(alloc), Unfollowed).ok()?;
    for line in LINES {
        let op = into_sound_op(read_op(alloc, line).ok()?)?;
        inbox.deliver(alloc, op).ok()?;
    }
    Some(SyncedReplica {
        alloc,
        inbox,
        synced,
    })
}

/// The lines of messages of the operations from one place to before another.
pub fn op_lines(alloc: Global, from: usize, to: usize) -> Option<Vec<u8>> {
    let mut text = Vec::new(alloc);
    for place in 0..LINES.len() {
        if from <= place && place < to {
            text.extend_from_slice(b"op ").ok()?;
            text.extend_from_slice(LINES[place]).ok()?;
            text.extend_from_slice(b"\n").ok()?;
        }
    }
    Some(text)
}
