//! The messages that two processes exchange.

use crdt_ops::{SoundOp, Unsound};
use imap_types::Octets;
use tags_clocks::{Clock, ReplicaId};

/// The message of one line of a payload.
#[derive(Drop)]
pub enum WireMessage {
    /// An operation that the sender's replica has.
    Op(SoundOp),
    /// What the sender's replica has: its clock, and for each entry, in order, 16 octets of the
    /// chain of that replica's operations.
    Have { clock: Clock, chains: Octets },
    /// The sender lacks what this clock doesn't cover.
    Want(Clock),
    /// The sender is alive.
    Ping,
    /// The sender ends the link.
    Bye(ByeReason),
}

/// Why a link is ended.
#[derive(Clone, Copy, Debug, PartialEq, Eq)]
pub enum ByeReason {
    /// A hello line isn't in form.
    Hello,
    /// A hello line is of another version.
    Version,
    /// A hello line names other replicas.
    Name,
    /// A proof isn't by the secret.
    Secret,
    /// A line is no header of a frame.
    Frame,
    /// A frame's digest differs.
    Torn,
    /// A line of a payload is no message.
    Line,
    /// An operation breaks this rule.
    Unsound(Unsound),
    /// This replica's operations differ here and there.
    Fork(ReplicaId),
    /// This replica lost operations of its own.
    Behind(ReplicaId),
    /// Memory ran out.
    Memory,
    /// The name is linked already.
    Busy,
}
