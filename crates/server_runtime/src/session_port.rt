//! One session of a replica under its lock, as the port of a conversation.

ghost use Rattle.std.specs.Prelude.{◌≡◌, ◌⊎◌, ◌≤◌, ◌<◌, ℕ, [], Err, IfErr, IfOk, IsOk, IsSome};
ghost use Rattle.std.specs.Prelude.{IsTrue, Ok, OnErr, OnOk, Some, false, length, true};
ghost use Rattle.std.specs.Prelude.{vec_capacity};
ghost use Rattle.std.specs.Option.{option_map};
ghost use Rattle.imap_answers.specs.declared.fixed_words.Refusal.TheVariants.{NoStoreRoom};
ghost use Rattle.imap_node.specs.declared.reply.Reply.TheVariants.{Refused};
ghost use Rattle.imap_node.specs.declared.sessions.OpenFault.TheVariants as refusals;
ghost use Rattle.replica_lock.specs.Passes.{IsCalledIn, LacksRoomInSession};
ghost use Rattle.imap_connection.specs.PortCalls as calls;
ghost use Rattle.imap_connection.specs.Batches.{CarriesCommands};
ghost use Rattle.imap_connection.specs.declared.fault.PortFault.TheVariants.{NoRoom};
ghost use Rattle.imap_connection.specs.declared.fault.PortFault.TheVariants.{TooManySessions, Torn};
ghost use Rattle.server_runtime.specs.Calls.{CallsOnce, CallsOnceIn, CommandsOnce, IsClosedIn};
ghost use Rattle.server_runtime.specs.Calls.{OpensByCall, OpensIn, StepsByCall, StepsIn, StepsOnce};
ghost use Rattle.server_runtime.specs.Calls.{stores};
ghost use Rattle.server_runtime.specs.Logins.{auth_of};
ghost use Rattle.replica_lock.specs.declared.event.BookEvent.TheVariants as events;
ghost use Rattle.replica_lock.specs.declared.faults.CallFault.TheVariants as faults;
ghost use Rattle.replica_lock.specs.declared.outcome.Outcome.TheVariants.{Opened, Replied};

use crate::client_counts::ClientCounts;
use crate::client_state::ClientConnection;
use crate::connection_threads::ReplicaContext;
use crate::peer_sender::PeerSender;
use crate::replica_store::Growth;
use crate::server_state::{auth_of, login_of};
use crate::shared_phase::SharedPhase;
use crdt_ops::SoundOp;
use imap_answers::{Login, Refusal};
use imap_commands::{is_idle, may_issue};
use imap_connection::{Port, PortFault};
use imap_node::{OpenFault, Reply, SessionNo};
use imap_syntax::{Command, IdleLine, Tagged};
use imap_types::Moment;
use replica_links::Gate;
use replica_lock::{CallFault, LockTurn, Outcome, Pass, UnmadeCommand};
use std::alloc::Global;
use std::rt::Clock;
use std::sync::ledger::Ledger;
use std::sync::{Mutex, MutexGuard, Wait};
use std::time::{SystemTime, UNIX_EPOCH};

/// How often a command is given, if each time the replica's store has no room for it.
const MAX_TRIES: u32 = 16;

/// A session whose pass is under a lock of its own, which is taken for one call at a time.
#[derive(Drop)]
pub struct SessionPort<'a, L: Ledger, R: Wait + Clock, G: Gate> {
    pub(crate) rt: &'a R,
    pub(crate) context: &'a ReplicaContext<'a, L>,
    pub(crate) client: &'a ClientConnection,
    pass: &'a Mutex<Pass<L>>,
    /// The pass of the session for RENAME, if there is one.
    pub(crate) second: &'a Mutex<Option<Pass<L>>>,
    shared_phase: &'a SharedPhase,
    pub(crate) gate: &'a mut G,
    pub(crate) commands: u64,
    /// The position after this port's last call.
    at: SessionPosition,
}

/// The passes of a connection, each under a lock of its own.
#[derive(Drop)]
pub struct PassLocks<'a, L: Ledger> {
    /// The pass of its session.
    pub first: &'a Mutex<Pass<L>>,
    /// The pass of a second session, for RENAME, if there is one.
    pub second: &'a Mutex<Option<Pass<L>>>,
}

/// A connection's position at its replica: the session that it opened, and the length of the
/// journal that its pass had seen.
#[derive(Clone, Copy, Debug, PartialEq, Eq)]
pub struct SessionPosition {
    session: Option<SessionNo>,
    seen: u64,
}

impl<'a, L: Ledger, R: Wait + Clock, G: Gate> SessionPort<'a, L, R, G> {
    /// A port for a session at the replica of this context, which no call has opened yet.
    pub fn new(
        rt: &'a R,
        context: &'a ReplicaContext<'a, L>,
        client: &'a ClientConnection,
        passes: PassLocks<'a, L>,
        shared_phase: &'a SharedPhase,
        gate: &'a mut G,
    ) -> SessionPort<'a, L, R, G> {
        SessionPort {
            rt,
            context,
            client,
            pass: passes.first,
            second: passes.second,
            shared_phase,
            gate,
            commands: 0,
            at: SessionPosition {
                session: None,
                seen: 0,
            },
        }
    }
}

impl<'a, L: Ledger, R: Wait + Clock, G: Gate> SessionPort<'a, L, R, G> {
    /// Opens the session in its pass, by at most one call.
    fn open_in(&self, alloc: Global, pass: &mut Pass<L>) -> Result<Login, PortFault>
        ensures response { OpensIn self.now.context.now.server.now.access pass.old result pass.new }
        ensures once { CallsOnce pass.old
            (events.Open (auth_of self.now.context.now.server.now.access)) pass.new }
    {
        if pass.session().is_some() {
            return Err(PortFault::PassedOver);
        }
        let Ok(auth) = auth_of(alloc, self.context.server.access) else {
            return Err(PortFault::NoMemory);
        };
        match self.context.shared.open(self.rt, alloc, pass, auth) {
            Ok(()) => login_of_outcome(pass.last(), login_of(self.context.server.access)),
            Err(fault) => Err(fault_of(fault)),
        }
    }

    /// Gives the session a command in its pass, by at most one call.
    fn command_in(
        &self,
        alloc: Global,
        pass: &mut Pass<L>,
        tagged: Tagged,
    ) -> Result<Reply, PortFault>
        ensures response { StepsIn (stores self.now.context.now.store) pass.old
            (calls.Command tagged) result pass.new }
        ensures once { CommandsOnce pass.old tagged pass.new }
    {
        if pass.session().is_none() {
            drop(tagged);
            return Err(PortFault::PassedOver);
        }
        let idles = is_idle(&tagged.command);
        let moment = moment_now(self.rt);
        let _send_lock = self.send_lock_for(&tagged.command);
        match self.give_with_room(alloc, pass, moment, tagged) {
            Ok(()) => {
                self.follow(alloc, idles, pass.last());
                reply_of_outcome(pass.last())
            }
            Err(CallFault::NoStoreRoom { .. }) => self.refuse_for_room(),
            Err(fault) => Err(fault_of(fault)),
        }
    }

    /// Gives the session a command in its pass. If the replica's store has no room for its
    /// operations, room is made, and the command is given again, a few times, since other commands
    /// may take the room. `NoStoreRoom` if no room can be made.
    fn give_with_room(
        &self,
        alloc: Global,
        pass: &mut Pass<L>,
        moment: Moment,
        tagged: Tagged,
    ) -> Result<(), CallFault>
        requires { IsSome pass.old.session }
        ensures called { OnOk result
            (IsCalledIn pass.old (λ n. events.Command n moment tagged) pass.new) }
        ensures unchanged { OnErr result (pass.new ≡ pass.old) }
        ensures lacking { IfErr result
            (LacksRoomInSession pass.old (λ n. events.Command n moment tagged)) }
    {
        let mut pending = tagged;
        let mut last = CallFault::NoRoom;
        for _ in 0..MAX_TRIES {
            let unmade = match self
                .context
                .shared
                .command(self.rt, alloc, pass, moment, pending)
            {
                Ok(()) => return Ok(()),
                Err(unmade) => unmade,
            };
            let UnmadeCommand { fault, tagged } = unmade;
            let Some(tagged) = tagged else {
                return Err(fault);
            };
            if let Err(fault) = self.make_room(alloc, fault) {
                drop(tagged);
                return Err(fault);
            }
            pending = tagged;
            last = fault;
        }
        drop(pending);
        Err(last)
    }

    /// Makes the room in the replica's store for want of which a call wasn't made. An error says why
    /// it still isn't.
    fn make_room(&self, alloc: Global, fault: CallFault) -> Result<(), CallFault>
        ensures { IfErr result (λ why. (why ≡ fault) ⊎ (why ≡ faults.NoRoom)) }
    {
        let (Some(store), CallFault::NoStoreRoom { octets }) = (self.context.store, fault) else {
            return Err(fault);
        };
        match store.grow(self.rt, alloc, self.context, octets) {
            Growth::HasRoom => Ok(()),
            Growth::NoMemory => Err(CallFault::NoRoom),
            Growth::Full | Growth::Failed => Err(fault),
        }
    }

    /// The refusal of a command for which the replica's store has no room. A replica without a
    /// store refuses none so.
    fn refuse_for_room(&self) -> Result<Reply, PortFault>
        ensures { IfOk result (λ reply. (reply ≡ Refused NoStoreRoom false)
            × (stores self.now.context.now.store ≡ true)) }
    {
        match self.context.store {
            Some(_) => Ok(Reply::Refused {
                why: Refusal::NoStoreRoom,
                closed: false,
            }),
            None => Err(PortFault::NoRoom),
        }
    }

    /// Gives the session brief commands in its pass, while the replica's lock is held once for all.
    fn commands_in(
        &self,
        alloc: Global,
        pass: &mut Pass<L>,
        commands: Vec<Tagged>,
        replies: &mut Vec<Reply>,
    ) -> Result<(), PortFault>
        requires some { 0 < length commands.items }
        requires none { replies.old.items ≡ [] }
        requires room { length commands.items ≤ vec_capacity replies.old }
        ensures { CarriesCommands (StepsOnce (stores self.now.context.now.store)) pass.old
            commands.items replies.new.items result pass.new }
    {
        if pass.session().is_none() {
            drop(commands);
            return Err(PortFault::PassedOver);
        }
        let moment = moment_now(self.rt);
        let mut turn = self.context.shared.turn(self.rt);
        let response = give_all(alloc, &mut turn, pass, moment, commands, replies);
        self.context.shared.end(turn);
        response
    }

    /// Gives the session a line of IDLE in its pass, by at most one call.
    fn line_in(&self, alloc: Global, pass: &mut Pass<L>, line: IdleLine) -> Result<Reply, PortFault>
        ensures response { StepsIn (stores self.now.context.now.store) pass.old (calls.Line line)
            result pass.new }
        ensures once { CallsOnceIn pass.old (λ n. events.Line n line) pass.new }
    {
        if pass.session().is_none() {
            return Err(PortFault::PassedOver);
        }
        self.shared_phase.set_idles(self.rt, false);
        match self.context.shared.done(self.rt, alloc, pass, line) {
            Ok(()) => reply_of_outcome(pass.last()),
            Err(fault) => Err(fault_of(fault)),
        }
    }

    /// Closes the session of its pass, by one call, if it has one. An error leaves the pass as it
    /// was.
    fn close_in(&self, alloc: Global, pass: &mut Pass<L>) -> Result<(), CallFault>
        ensures ok { OnOk result (IsClosedIn pass.old pass.new) }
        ensures err { OnErr result (pass.new ≡ pass.old) }
    {
        self.shared_phase.set_idles(self.rt, false);
        if pass.session().is_none() {
            return Ok(());
        }
        self.context.shared.close(self.rt, alloc, pass)
    }

    /// Counts a session, if it was opened.
    fn count_opened(&self, is_opened: bool) {
        if is_opened {
            self.context.clients.counts.add(
                self.rt,
                ClientCounts {
                    sessions: 1,
                    ..ClientCounts::NONE
                },
            );
        }
    }

    /// Counts commands that arrived, and the octets of the messages in them.
    pub(crate) fn count(&self, commands: usize, octets: u64) {
        let counts = self.client.state.count(self.rt, commands as u64, octets);
        if let Some(counts) = counts {
            self.context.clients.counts.add(self.rt, counts);
        }
    }

    /// Adds to the replica's counts what wasn't added yet.
    fn give_counts(&self) {
        let counts = self.client.state.take_counts(self.rt);
        self.context.clients.counts.add(self.rt, counts);
    }

    /// Waits until a command may be judged: a LOGIN after refused ones waits a while. False if the
    /// connection was ended.
    fn await_judgement(&self, command: &Command) -> bool {
        let state = &self.client.state;
        if state.cause(self.rt).is_some() {
            return false;
        }
        if !is_login(command) {
            return true;
        }
        let own = state.login_delay(self.rt);
        let delay = own.max(self.context.clients.login_delay(self.rt));
        delay.is_zero() || state.wait(self.rt, delay)
    }

    /// Notes whether the client logged in, if its command with this response was a LOGIN.
    fn note_login(&self, logs_in: bool, response: &Result<Reply, PortFault>) {
        if !logs_in {
            return;
        }
        match response {
            Ok(Reply::Done { .. }) => {
                self.client.state.log_in(self.rt);
                self.context
                    .clients
                    .remove_stranger(self.rt, self.client.number);
            }
            Ok(
                Reply::Refused {
                    why: Refusal::LoginFailed,
                    ..
                },
            ) => {
                self.client.state.refuse(self.rt);
                self.context.clients.note_refusal(self.rt);
            }
            _ => {}
        }
    }

    /// Whether a pass has the session of this port, and has seen at least as much of the journal.
    fn knows(&self, pass: &Pass<L>) -> bool
        ensures session { IsTrue result → self.now.at.session ≡ pass.now.session }
        ensures seen { IsTrue result → self.now.at.seen ≤ pass.now.seen }
    {
        self.at.session == pass.session() && self.at.seen <= pass.seen()
    }

    /// The lock that orders the sending of the replica's operations, for a command that may issue
    /// some, if these are sent at once. If operations overtook each other, the receiving replica
    /// would have to ask for them, and this one would have to search all that it applied.
    fn send_lock_for(&self, command: &Command) -> Option<MutexGuard<'_, ()>> {
        if self.context.store.is_some() || !may_issue(command) {
            return None;
        }
        let handle = self.context.server.replicas.get(self.context.own)?;
        Some(handle.send_lock.lock(self.rt))
    }

    /// Sends the others what a command issued, unless the replica has a store: who syncs it sends
    /// it then. Notes whether the session idles after the command.
    fn follow(&self, alloc: Global, idles: bool, last: Option<&Outcome>) {
        if self.context.store.is_none() {
            let sender = PeerSender::new(self.rt, self.context.server, self.context.own);
            sender.send_to_all(alloc, issued_ops(last));
        }
        self.shared_phase.set_idles(self.rt, idles && is_done(last));
    }
}

impl<'a, L: Ledger, R: Wait + Clock, G: Gate> Port for SessionPort<'a, L, R, G> {
    ghost opens = { λ s r t. OpensByCall s.context.now.server.now.access s.at r t.at };

    ghost steps = { λ s call r t. StepsByCall (stores s.context.now.store) s.at call r t.at };

    ghost closes = { λ s t. Unit {0} };

    fn open(&mut self, alloc: Global) -> Result<Login, PortFault> {
        if self.client.state.cause(self.rt).is_some() {
            return Err(PortFault::ServerEnded);
        }
        let mut pass = self.pass.lock(self.rt);
        if pass.seen() < self.at.seen {
            return Err(PortFault::Torn);
        }
        let response = self.open_in(alloc, &mut pass);
        self.at = SessionPosition {
            session: pass.session(),
            seen: pass.seen(),
        };
        self.count_opened(response.is_ok());
        response
    }

    fn command(&mut self, alloc: Global, tagged: Tagged) -> Result<Reply, PortFault> {
        pass_gate(self.gate, &mut self.commands, 1);
        if !self.await_judgement(&tagged.command) {
            drop(tagged);
            return Err(PortFault::ServerEnded);
        }
        self.count(1, octets_of(&tagged.command));
        let logs_in = is_login(&tagged.command);
        let mut pass = self.pass.lock(self.rt);
        if !self.knows(&pass) {
            drop(tagged);
            return Err(PortFault::Torn);
        }
        let response = self.command_in(alloc, &mut pass, tagged);
        self.at.seen = pass.seen();
        self.note_login(logs_in, &response);
        response
    }

    fn commands(
        &mut self,
        alloc: Global,
        commands: Vec<Tagged>,
        replies: &mut Vec<Reply>,
    ) -> Result<(), PortFault> {
        pass_gate(self.gate, &mut self.commands, commands.len());
        if self.client.state.cause(self.rt).is_some() {
            drop(commands);
            return Err(PortFault::ServerEnded);
        }
        self.count(commands.len(), 0);
        let mut pass = self.pass.lock(self.rt);
        if !self.knows(&pass) {
            drop(commands);
            return Err(PortFault::Torn);
        }
        let response = self.commands_in(alloc, &mut pass, commands, replies);
        self.at.seen = pass.seen();
        response
    }

    fn done(&mut self, alloc: Global, line: IdleLine) -> Result<Reply, PortFault> {
        let mut pass = self.pass.lock(self.rt);
        if !self.knows(&pass) {
            return Err(PortFault::Torn);
        }
        let response = self.line_in(alloc, &mut pass, line);
        self.at.seen = pass.seen();
        response
    }

    fn close(&mut self, alloc: Global) {
        self.give_counts();
        let mut pass = self.pass.lock(self.rt);
        let _ = self.close_in(alloc, &mut pass);
    }
}

fn is_login(command: &Command) -> bool {
    matches!(command, Command::Login { .. })
}

/// The octets of the message that a command appends; 0 if it appends none.
fn octets_of(command: &Command) -> u64 {
    match command {
        Command::Append(append) => append.text.as_bytes().len() as u64,
        _ => 0,
    }
}

/// Passes the gate once for each of `count` commands, each time with the number of the command.
/// `passed` is the number of commands so far.
pub fn pass_gate<G: Gate>(gate: &mut G, passed: &mut u64, count: usize) {
    for _ in 0..count {
        *passed = passed.saturating_add(1);
        gate.pass(*passed);
    }
}

/// Gives the session of a pass these commands, one after another, which arrived at this moment, and
/// appends the replies.
fn give_all<L: Ledger>(
    alloc: Global,
    turn: &mut LockTurn<'_, L>,
    pass: &mut Pass<L>,
    moment: Moment,
    commands: Vec<Tagged>,
    replies: &mut Vec<Reply>,
) -> Result<(), PortFault>
    requires session { IsSome pass.old.session }
    requires none { replies.old.items ≡ [] }
    requires room { length commands.items ≤ vec_capacity replies.old }
    ensures { CarriesCommands (StepsOnce false) pass.old commands.items replies.new.items result
        pass.new }
{
    for tagged in commands {
        match give_command(alloc, turn, pass, moment, tagged) {
            Ok(reply) => replies.push_reserved(reply),
            Err(fault) => return Err(fault),
        }
    }
    Ok(())
}

/// Gives the session of a pass a command, which arrived at this moment, by at most one call.
fn give_command<L: Ledger>(
    alloc: Global,
    turn: &mut LockTurn<'_, L>,
    pass: &mut Pass<L>,
    moment: Moment,
    tagged: Tagged,
) -> Result<Reply, PortFault>
    requires session { IsSome pass.old.session }
    ensures response { StepsOnce false pass.old (calls.Command tagged) result pass.new }
    ensures session { IsOk result → IsSome pass.new.session }
{
    match turn.command(alloc, pass, moment, tagged) {
        Ok(()) => reply_of_outcome(pass.last()),
        Err(fault) => Err(fault_of(fault)),
    }
}

pub fn fault_of(fault: CallFault) -> PortFault
    ensures { (result ≡ NoRoom) ⊎ (result ≡ Torn) }
{
    match fault {
        CallFault::NoRoom | CallFault::NoStoreRoom { .. } => PortFault::NoRoom,
        CallFault::Torn { .. } => PortFault::Torn,
    }
}

/// The result of opening a session, for its connection: `login` if the session was opened.
fn login_of_outcome(last: Option<&Outcome>, login: Login) -> Result<Login, PortFault>
    ensures ok { IfOk result (λ response. (response ≡ login)
        × ((n : ℕ) × (option_map (λ o. o.now) last.entry ≡ Some (Opened (Ok n))))) }
    ensures full { result ≡ Err TooManySessions
        → option_map (λ o. o.now) last.entry ≡ Some (Opened (Err refusals.TooManySessions)) }
{
    match last {
        Some(Outcome::Opened { answer: Ok(_) }) => Ok(login),
        Some(
            Outcome::Opened {
                answer: Err(OpenFault::TooManySessions),
            },
        ) => Err(PortFault::TooManySessions),
        Some(
            Outcome::Opened {
                answer: Err(OpenFault::NoMemory),
            },
        ) => Err(PortFault::NoMemory),
        _ => Err(PortFault::PassedOver),
    }
}

/// The reply, in shared memory; `NoMemory` if it has too many copies to be counted.
fn reply_of_outcome(last: Option<&Outcome>) -> Result<Reply, PortFault>
    ensures { IfOk result (λ reply. option_map (λ o. o.now) last.entry ≡ Some (Replied reply)) }
{
    match last {
        Some(Outcome::Replied { reply }) => match reply.copy() {
            Ok(reply) => Ok(reply),
            Err(_) => Err(PortFault::NoMemory),
        },
        _ => Err(PortFault::PassedOver),
    }
}

fn is_done(last: Option<&Outcome>) -> bool {
    matches!(
        last,
        Some(Outcome::Replied {
            reply: Reply::Done { .. },
        })
    )
}

/// The operations that a call issued.
fn issued_ops(last: Option<&Outcome>) -> &[SoundOp] {
    match last {
        Some(
            Outcome::Replied {
                reply: Reply::Done { issued, .. },
            },
        ) => issued.as_slice(),
        _ => &[],
    }
}

/// The moment now; the epoch if the clock can't be read.
pub fn moment_now<R: Clock>(rt: &R) -> Moment {
    seconds_now(rt)
        .and_then(Moment::new)
        .unwrap_or(Moment::epoch())
}

fn seconds_now<R: Clock>(rt: &R) -> Option<u64> {
    let now = SystemTime::now(rt).ok()?;
    let since = now.duration_since(UNIX_EPOCH).ok()?;
    Some(since.as_secs())
}
