//! Messages that are sent over a link.

use crdt_ops::SoundOp;
use tags_clocks::Clock;

/// A message from one replica to another. The operations of a message are sound, by their type.
#[derive(Drop)]
pub enum LinkMsg {
    /// Operations, in an order in which they can be applied.
    Ops(Vec<SoundOp>),
    /// A request for all operations that this clock, the sender's own, doesn't cover.
    Have(Clock),
    /// Nothing further will arrive, though a sender may be left.
    Stop,
}

/// A message, and its sender.
#[derive(Drop)]
pub struct PeerMsg {
    /// The place of the sender among all replicas.
    pub from: usize,
    /// The message.
    pub message: LinkMsg,
}
