//! A replica's work on a message from another replica.

ghost use Rattle.std.specs.Prelude.{◌≡◌, ℕ, List};
ghost use Rattle.crdt_ops.specs.declared.op.Op.{Op};
ghost use Rattle.replica_links.specs.Links.{AreAsked, IsAnswered, IsAsked, IsDrained, IsTaken};
ghost use Rattle.replica_links.specs.Links.{MayAsk, MaySendOps};

use crate::op_taker::{Taker, hand_on};
use crdt_ops::SoundOp;
use tags_clocks::Clock;

/// The way to the other replicas, by their places.
pub trait PeerLinks {
    /// The state after the replica at a place was asked for all operations that a clock doesn't
    /// cover.
    ghost asks: { Self → ℕ → List (ℕ × ℕ) → Self → Type 0 };

    /// The state after operations were sent to the replica at a place.
    ghost sends: { Self → ℕ → List Op → Self → Type 0 };

    /// Asks the replica at place `to` for all operations that the clock doesn't cover.
    fn ask(&mut self, to: usize, clock: Clock)
        ensures { asks self.old to clock self.new };

    /// Sends operations to the replica at place `to`.
    fn send_ops(&mut self, to: usize, ops: Vec<SoundOp>)
        ensures { sends self.old to ops.items self.new };
}

/// Delivers the operations of a message. If a delivery stalled, held operations are applied; if an
/// operation is lacking, the sender is asked, once, for all that this replica's clock doesn't cover
/// then. If memory runs out for the clock, nothing is asked for.
pub fn take_ops<T: Taker, P: PeerLinks>(
    taker: &mut T,
    links: &mut P,
    from: usize,
    ops: Vec<SoundOp>,
)
    ensures { IsTaken T.takes T.drains T.lacks T.has P.asks taker.old links.old from ops.items
        taker.new links.new }
{
    let took = hand_on(taker, ops);
    drain_after(taker, took.stalled);
    ask_after(taker, links, from, took.lacking);
}

/// Applies held operations if a delivery stalled.
fn drain_after<T: Taker>(taker: &mut T, stalled: bool)
    ensures { IsDrained T.drains taker.old stalled taker.new }
{
    if stalled {
        taker.drain();
    }
}

/// Asks for what this replica hasn't applied if an operation is lacking.
fn ask_after<T: Taker, P: PeerLinks>(taker: &T, links: &mut P, from: usize, lacking: bool)
    ensures { IsAsked T.lacks T.has P.asks taker.now links.old from lacking links.new }
{
    if lacking {
        ask(taker, links, from);
    }
}

/// Asks the replica at place `from` for what this one hasn't applied.
fn ask<T: Taker, P: PeerLinks>(taker: &T, links: &mut P, from: usize)
    ensures { MayAsk T.lacks T.has P.asks taker.now links.old from links.new }
{
    match taker.clock() {
        Some(clock) => links.ask(from, clock),
        None => {}
    }
}

/// Asks these replicas, one after another, for all that this one hasn't applied. So an operation
/// that was lost on the way arrives even if no later one waits for it. If memory runs out for the
/// clock, nothing is asked for.
pub fn ask_all<T: Taker, P: PeerLinks>(taker: &T, links: &mut P, peers: &[usize])
    ensures { AreAsked T.lacks T.has P.asks taker.now links.old peers.now links.new }
{
    for peer in peers {
        ask(taker, links, *peer);
    }
}

/// Answers a request: sends the operations applied that its clock doesn't cover. Nothing is sent if
/// there are none, or if memory runs out for them.
pub fn answer_request<T: Taker, P: PeerLinks>(taker: &T, links: &mut P, from: usize, clock: Clock)
    ensures { IsAnswered T.lacks T.gives P.sends taker.now links.old from clock links.new }
{
    let uncovered = taker.ops_since(&clock);
    drop(clock);
    match uncovered {
        Some(ops) => send_if_any(links, from, ops),
        None => {}
    }
}

/// Sends operations, if there are any.
fn send_if_any<P: PeerLinks>(links: &mut P, to: usize, ops: Vec<SoundOp>)
    ensures { MaySendOps P.sends links.old to ops.items links.new }
{
    if ops.is_empty() {
        drop(ops);
        return;
    }
    links.send_ops(to, ops);
}
