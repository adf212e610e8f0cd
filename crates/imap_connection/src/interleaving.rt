//! What happens at a node between the calls of one of its sessions.

ghost use Rattle.std.specs.Prelude.{◌≡◌, ℕ};
ghost use Rattle.imap_node.specs.Sessions.{IsOpen};
ghost use Rattle.imap_connection.specs.NodePorts.{IsDeliveredOrRefused};
ghost use Rattle.imap_connection.specs.Streams.{SomeOtherSteps};

use crdt_ops::SoundOp;
use imap_node::{Node, SessionNo};
use imap_types::Moment;
use std::alloc::Global;
use std::marker::Model;

/// Others who use a node between the calls of one of its sessions: replicas whose operations are
/// delivered, and other sessions.
pub trait Others {
    ghost use Rattle.imap_node.specs.Nodes.{NodeState};

    /// What happens in a turn of the others: their state before it, the session's number, the node
    /// before it, the moment at which the session's next command arrives, the node after it, and
    /// their state after it.
    ghost takes_turn: { Self → ℕ → NodeState → ℕ → NodeState → Self → Type 0 };

    /// Gives the others a turn at the node, during a session that is open. Returns the moment at
    /// which the session's next command arrives.
    fn take_turn(&mut self, alloc: Global, session: SessionNo, node: &mut Node) -> Moment
        requires { IsOpen node.old.state.sessions session }
        ensures other_steps { SomeOtherSteps session node.old.state node.new.state }
        ensures exact { takes_turn self.old session node.old.state result node.new.state self.new };
}

/// Nobody else uses the node; all commands arrive at one moment.
#[derive(Drop)]
pub struct NoOthers {
    moment: Moment,
}

impl Model for NoOthers {
    ghost use Rattle.std.specs.Prelude.{ℕ};

    ghost Value = { ℕ };

    ghost view = { λ n. n.moment };
}

impl NoOthers {
    /// Nobody else uses the node; all commands arrive at this moment.
    pub fn new(moment: Moment) -> NoOthers
        ensures { result ≡ moment }
    {
        NoOthers { moment }
    }
}

impl Others for NoOthers {
    ghost use Rattle.imap_connection.specs.NodePorts.{IsEmptyTurn};

    ghost takes_turn = { IsEmptyTurn };

    fn take_turn(&mut self, _alloc: Global, _session: SessionNo, _node: &mut Node) -> Moment {
        self.moment
    }
}

/// Operations of other replicas. Each turn delivers the last of those left. All commands arrive at
/// one moment.
#[derive(Drop)]
pub struct Deliveries {
    moment: Moment,
    ops: Vec<SoundOp>,
}

impl Deliveries {
    /// These operations are delivered; all commands arrive at this moment.
    pub fn new(moment: Moment, ops: Vec<SoundOp>) -> Deliveries
        ensures moment { result.moment ≡ moment }
        ensures ops { result.ops.items ≡ ops.items }
    {
        Deliveries { moment, ops }
    }
}

impl Others for Deliveries {
    ghost use Rattle.std.specs.Prelude.{◌≡◌};
    ghost use Rattle.imap_connection.specs.NodePorts.{LastIsDelivered};

    ghost takes_turn = { λ d n node moment mid e. (moment ≡ d.moment)
        × (e.moment ≡ d.moment)
        × LastIsDelivered d.ops.items node mid e.ops.items };

    fn take_turn(&mut self, alloc: Global, _session: SessionNo, node: &mut Node) -> Moment {
        if let Some(op) = self.ops.pop() {
            deliver_op(alloc, node, op);
        }
        self.moment
    }
}

/// Delivers an operation to a node. A node that refuses it stays as it was.
fn deliver_op(alloc: Global, node: &mut Node, op: SoundOp)
    ensures { IsDeliveredOrRefused node.old.state op node.new.state }
{
    let _ = node.deliver(alloc, op);
}
