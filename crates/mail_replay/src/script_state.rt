//! The state that a script has built up: its clock, its replicas and its sessions.

ghost use Rattle.std.specs.Prelude.{◌≡◌, ◌<◌, ◌≤◌, ◌++◌, [], IfOk, IfSome, MatchOption, OnOk, drop};
ghost use Rattle.std.specs.Prelude.{length};
ghost use Rattle.std.specs.Str.{bytes_eq};
ghost use Rattle.crdt_ops.specs.declared.op.Op.{Op as Operation};
ghost use Rattle.merge_laws.specs.Orders.{HasId, IsIn};
ghost use Rattle.mail_replay.specs.ScriptState.{IsNew, replica_place, script_contents_of};
ghost use Rattle.mail_replay.specs.ScriptState.{session_place};
ghost use Rattle.crdt_ops.specs.Ops.{id_of};

use causal_inbox::find_in;
use crdt_ops::SoundOp;
use imap_connection::{Node, SessionNo};
use imap_lex::Framer;
use imap_types::Moment;
use mail_script::SessionName;
use merge_laws::Caused;
use std::alloc::{AllocError, Global};
use std::marker::Model;
use tags_clocks::{OpId, ReplicaId};
use uid_projection::Counters;

/// Copies of the operations that a replica's sessions issued, in order. Forged operations with the
/// replica's name aren't among them.
#[derive(Drop)]
pub struct IssuedOps {
    ops: Vec<SoundOp>,
}

impl Model for IssuedOps {
    ghost use Rattle.std.specs.Prelude.{List};
    ghost use Rattle.crdt_ops.specs.declared.op.Op.{Op};

    ghost Value = { List Op };

    ghost view = { λ i. i.ops.items };
}

impl IssuedOps {
    /// No operations.
    pub fn new(alloc: Global) -> IssuedOps
        ensures { result ≡ [] }
    {
        IssuedOps {
            ops: Vec::new(alloc),
        }
    }

    /// The issued operation with this id, if any.
    pub fn find(&self, id: OpId) -> Option<&SoundOp>
        ensures { MatchOption result (¬ HasId id_of self.now id)
            (λ entry. IsIn entry.now self.now × (entry.now.id ≡ id)) }
    {
        find_in(&self.ops, id)
    }

    /// Adds copies of the operations after the first `first`; `Err` if memory runs out, and
    /// then some may have been added.
    pub fn add_ops_after(
        &mut self,
        alloc: Global,
        ops: &[SoundOp],
        first: usize,
    ) -> Result<(), AllocError>
        ensures { OnOk result (self.new ≡ self.old ++ drop first ops.now) }
    {
        match ops.get(first..) {
            Some(after) => self.add(alloc, after),
            None => Ok(()),
        }
    }

    fn add(&mut self, alloc: Global, ops: &[SoundOp]) -> Result<(), AllocError>
        ensures { OnOk result (self.new ≡ self.old ++ ops.now) }
    {
        for op in ops {
            self.ops.push(op.copy(alloc)?)?;
        }
        Ok(())
    }
}

/// A replica that the script declared.
#[derive(Drop)]
pub struct ScriptReplica {
    /// The replica's name in the script and in the operations that it issues.
    pub name: ReplicaId,
    /// The replica itself.
    pub node: Node,
    /// The operations that its sessions issued.
    pub issued: IssuedOps,
}

impl ScriptReplica {
    /// A replica that has received nothing and has these counters, whose first UID is at least 1;
    /// `Err` if memory runs out.
    pub fn new(alloc: Global, start: Counters) -> Result<ScriptReplica, AllocError>
        requires { 1 ≤ start.uid }
        ensures { IfOk result (IsNew start) }
    {
        Ok(ScriptReplica {
            name: start.replica,
            node: Node::new(alloc, start)?,
            issued: IssuedOps::new(alloc),
        })
    }
}

/// The connection of an open session with its replica.
#[derive(Drop)]
pub struct Connection {
    /// The session's number at its replica.
    pub number: SessionNo,
    /// The client's octets that don't make a whole command yet.
    pub framer: Framer,
}

/// A session that the script opened.
#[derive(Drop)]
pub struct ScriptSession {
    /// The session's name in the script.
    pub name: SessionName,
    /// The session's replica.
    pub replica: ReplicaId,
    /// `None` if the session has ended.
    pub connection: Option<Connection>,
}

/// The state that a script has built up.
#[derive(Drop)]
pub struct ScriptState {
    /// The time on the script's clock.
    pub moment: Moment,
    /// The replicas in the order in which they were declared.
    pub replicas: Vec<ScriptReplica>,
    /// The sessions in the order in which they were opened, ended ones included.
    pub sessions: Vec<ScriptSession>,
}

impl ScriptState {
    /// A state with nothing declared and the clock at 0.
    pub fn new(alloc: Global) -> ScriptState
        ensures { script_contents_of result ≡ record { moment = 0; replicas = []; sessions = [] } }
    {
        ScriptState {
            moment: Moment::epoch(),
            replicas: Vec::new(alloc),
            sessions: Vec::new(alloc),
        }
    }
}

/// The place of the replica with this name, if it is declared.
pub fn replica_place(replicas: &[ScriptReplica], name: ReplicaId) -> Option<usize>
    ensures value { result ≡ replica_place replicas.now name }
    ensures within { IfSome result (λ place. place < length replicas.now) }
{
    for (place, replica) in replicas.iter().enumerate() {
        if replica.name == name {
            return Some(place);
        }
    }
    None
}

/// The place of the session with this name, if it was opened.
pub fn session_place(sessions: &[ScriptSession], name: &SessionName) -> Option<usize>
    ensures value { result ≡ session_place sessions.now name.now }
    ensures within { IfSome result (λ place. place < length sessions.now) }
{
    for (place, session) in sessions.iter().enumerate() {
        if is_named(session, name) {
            return Some(place);
        }
    }
    None
}

fn is_named(session: &ScriptSession, name: &SessionName) -> bool
    ensures { result ≡ bytes_eq session.now.name name.now }
{
    session.name.as_bytes() == name.as_bytes()
}
