//! What a link does with the messages of its peer.

ghost use Rattle.std.specs.Prelude.{◌≡◌, ◌<◌, ◌⊎◌, IfErr, MatchOption, OnOk};
ghost use Rattle.std.specs.Result.{is_ok};
ghost use Rattle.tags_clocks.specs.Clock.{count_of};
ghost use Rattle.link_wire.specs.declared.wire_message.ByeReason.TheVariants.{Behind, Memory};
ghost use Rattle.link_runtime.specs.Receiving.{IsContinued, IsHaveRefused, IsOpRefused};
ghost use Rattle.link_runtime.specs.Receiving.{IsWithinApplied};

use crate::connection::LinkConnection;
use crate::link_replica::{Delivery, LinkReplica};
use crate::live_link::LinkContext;
use crate::peer_news::LinkEnding;
use crdt_ops::SoundOp;
use link_connection::Receiver;
use link_wire::{ByeReason, WireMessage};
use std::alloc::Global;
use std::sync::Wait;
use tags_clocks::Clock;

/// Takes the messages of a link's peer.
#[derive(Drop)]
pub struct LinkReceiver<'a, R: Wait, P: LinkReplica> {
    rt: &'a R,
    alloc: Global,
    context: &'a LinkContext<'a, P>,
    connection: &'a LinkConnection,
}

impl<'a, R: Wait, P: LinkReplica> LinkReceiver<'a, R, P> {
    /// The receiver of the link over a connection.
    pub fn new(
        rt: &'a R,
        alloc: Global,
        context: &'a LinkContext<'a, P>,
        connection: &'a LinkConnection,
    ) -> LinkReceiver<'a, R, P> {
        LinkReceiver {
            rt,
            alloc,
            context,
            connection,
        }
    }

    /// Delivers an operation.
    fn take_op(&self, op: SoundOp) -> Result<(), ByeReason>
        ensures { IfErr result (λ reason. IsOpRefused op reason) }
    {
        let id = op.op().id;
        let connection = self.connection;
        if connection.note_op(self.rt, self.alloc, &id).is_err() {
            drop(op);
            return Err(ByeReason::Memory);
        }
        match self.context.replica.deliver(op) {
            Delivery::Taken => Ok(()),
            Delivery::Lacking => match connection.note_missing(self.rt, self.alloc, &id) {
                Ok(()) => Ok(()),
                Err(_) => Err(ByeReason::Memory),
            },
            Delivery::Other => Err(ByeReason::Fork(id.replica)),
        }
    }

    /// Compares what the peer has with what this end has.
    fn take_have(&self, clock: &Clock, chains: &[u8]) -> Result<(), ByeReason>
        ensures known { OnOk result
            (IsWithinApplied (P.named self.now.context.now.replica.now) clock.now) }
        ensures err { IfErr result (λ reason.
            IsHaveRefused (P.named self.now.context.now.replica.now) clock.now reason) }
    {
        let replica = self.context.replica;
        if let Some(reason) = count_fault(replica, clock) {
            return Err(reason);
        }
        let links = self.context.links;
        if let Some(forked) = links.first_fork(self.rt, self.alloc, replica, clock, chains) {
            return Err(ByeReason::Fork(forked));
        }
        match self.connection.note_have(self.rt, self.alloc, clock) {
            Ok(()) => Ok(()),
            Err(_) => Err(ByeReason::Memory),
        }
    }

    fn take(&self, message: WireMessage) -> Result<(), LinkEnding>
        ensures { IsContinued message (is_ok result) }
    {
        let taken = match message {
            WireMessage::Op(op) => self.take_op(op),
            WireMessage::Have { clock, chains } => self.take_have(&clock, chains.as_bytes()),
            WireMessage::Want(clock) => {
                self.connection.note_want(self.rt, clock);
                Ok(())
            }
            WireMessage::Ping => Ok(()),
            WireMessage::Bye(reason) => return Err(LinkEnding::ByeOfPeer(reason)),
        };
        match taken {
            Ok(()) => Ok(()),
            Err(reason) => Err(LinkEnding::Bye(reason)),
        }
    }
}

impl<'a, R: Wait, P: LinkReplica> Receiver for LinkReceiver<'a, R, P> {
    ghost acts = { λ old message continues new. IsContinued message continues };

    fn act(&mut self, message: WireMessage) -> bool {
        match self.take(message) {
            Ok(()) => {
                self.context.links.signal.give(self.rt);
                true
            }
            Err(ending) => {
                self.connection.end(self.rt, ending);
                self.context.links.signal.give(self.rt);
                false
            }
        }
    }
}

/// Why the link ends, if the peer has more of the replica's own operations than it applied, or
/// memory runs out.
fn count_fault<P: LinkReplica>(replica: &P, clock: &Clock) -> Option<ByeReason>
    ensures { MatchOption result (IsWithinApplied (P.named replica.now) clock.now)
        (λ reason. (reason ≡ Memory) ⊎ ((reason ≡ Behind (P.named replica.now))
        × (0 < count_of clock.now (P.named replica.now)))) }
{
    let own = replica.name();
    let Some(applied) = replica.clock() else {
        return Some(ByeReason::Memory);
    };
    if clock.get(own) > applied.get(own) {
        return Some(ByeReason::Behind(own));
    }
    None
}
