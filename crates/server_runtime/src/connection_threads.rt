//! The threads of one connection.

ghost use Rattle.std.specs.Prelude.{◌≡◌, ◌<◌};
ghost use Rattle.imap_connection.specs.Conversations.{IsConversation};
ghost use Rattle.server_runtime.specs.Calls.{OpensByCall, StepsByCall, stores};

use crate::client_state::{ClientConnection, EndCause};
use crate::feeder::feed;
use crate::replica_clients::ReplicaClients;
use crate::replica_store::{ReplicaStore, SyncFault};
use crate::server_state::ServerState;
use crate::session_port::{PassLocks, SessionPort};
use crate::session_reader::SessionReader;
use crate::shared_phase::SharedPhase;
use crate::socket::{SocketReader, SocketWriter};
use crate::synced_sink::SyncedSink;
use imap_connection::{Ended, Sink, Source, Wire, converse_within, log_text_of};
use imap_lex::Limits;
use log::{Log, info};
use replica_links::Gate;
use replica_lock::{Pass, Shared};
use rev1_connection::converse_rev1;
use server_settings::ClientLimits;
use std::alloc::Global;
use std::io::{Read, Write};
use std::net::{Shutdown, SocketAddr, TcpStream};
use std::rt::Clock;
use std::sync::ledger::Ledger;
use std::sync::{Arc, Mutex, Wait};
use std::thread;
use std::thread::Threads;
use std::time::{Duration, Instant};

/// The state that all connections of a replica share.
#[derive(Drop)]
pub struct ReplicaContext<'a, L: Ledger> {
    /// The state that all threads of the server share.
    pub server: &'a ServerState<'a>,
    /// The replica's own place among all.
    pub own: usize,
    /// The replica.
    pub shared: &'a Shared<L>,
    /// Its store, if it has one.
    pub store: Option<&'a ReplicaStore>,
    /// Its clients.
    pub clients: &'a ReplicaClients,
}

/// The state that the two threads of a connection share.
#[derive(Drop)]
pub struct ConnectionContext<'a, L: Ledger> {
    /// The state that all connections of the replica share.
    pub context: &'a ReplicaContext<'a, L>,
    /// The connection.
    pub client: &'a ClientConnection,
    /// The pass of its session.
    pub pass: &'a Mutex<Pass<L>>,
    /// What the client speaks.
    pub protocol: Protocol,
    /// The pass of a second session, for RENAME, if there is one.
    pub second: &'a Mutex<Option<Pass<L>>>,
    /// The phase of the connection.
    pub shared_phase: &'a SharedPhase,
}

/// What a client speaks.
#[derive(Clone, Copy, Debug, PartialEq, Eq)]
pub enum Protocol {
    /// The profile of IMAP4rev2.
    Profile,
    /// IMAP4rev1.
    Rev1,
}

/// The passes of a connection.
#[derive(Drop)]
pub struct SessionPasses<L: Ledger> {
    /// The pass of its session.
    pub pass: Pass<L>,
    /// What its client speaks.
    pub protocol: Protocol,
    /// The pass of a second session, for RENAME, if there is one.
    pub second: Option<Pass<L>>,
}

/// Holds the conversation with the client of a connection, closes the connection in an orderly way,
/// and returns its passes. The gate is passed before each command, the first time with 1.
pub fn converse_and_close<
    L: Ledger + Send + Sync,
    R: Threads + Wait + Clock + Log + Sync,
    G: Gate + Send,
>(
    rt: &R,
    alloc: Global,
    gate: &mut G,
    context: &ReplicaContext<'_, L>,
    client: &Arc<ClientConnection>,
    passes: SessionPasses<L>,
) -> SessionPasses<L> {
    let (ended, passes) = converse_with_passes(rt, alloc, gate, context, client, passes);
    let ConversationEnd { ended, unsynced } = ended;
    let cause = client.state.cause(rt);
    let text = text_of_end(ended, cause);
    log_end(rt, context.clients, client.address, text);
    match unsynced {
        Some(fault) => write_bye(rt, client, bye_of(fault)),
        None => {}
    }
    let is_reachable = match cause {
        Some(cause) => cause == EndCause::Refusals,
        None => unsynced.is_some() || !is_unreachable(ended),
    };
    if is_reachable {
        take_leave(rt, context.clients, client);
    }
    context.clients.remove_stranger(rt, client.number);
    passes
}

/// Holds the conversation with the client of a connection. Returns how it ended, and the passes.
fn converse_with_passes<
    L: Ledger + Send + Sync,
    R: Threads + Wait + Clock + Log + Sync,
    G: Gate + Send,
>(
    rt: &R,
    alloc: Global,
    gate: &mut G,
    context: &ReplicaContext<'_, L>,
    client: &ClientConnection,
    passes: SessionPasses<L>,
) -> (ConversationEnd, SessionPasses<L>) {
    let SessionPasses {
        pass,
        protocol,
        second,
    } = passes;
    let _ = client.stream.set_nodelay(true);
    let _ = client
        .stream
        .set_write_timeout(Some(client.state.write_time()));
    let pass = Mutex::new(pass);
    let second = Mutex::new(second);
    let shared_phase = SharedPhase::new();
    let ended = converse_and_feed(
        rt,
        alloc,
        gate,
        &ConnectionContext {
            context: context,
            client,
            pass: &pass,
            protocol,
            second: &second,
            shared_phase: &shared_phase,
        },
    );
    let passes = SessionPasses {
        pass: pass.into_inner(),
        protocol,
        second: second.into_inner(),
    };
    (ended, passes)
}

/// How a conversation ended.
#[derive(Clone, Copy, Debug, PartialEq, Eq)]
struct ConversationEnd {
    /// Why it ended.
    ended: Ended,
    /// Why the last answers weren't written, if they show what isn't synced.
    unsynced: Option<SyncFault>,
}

/// The line that ends a connection whose answers show what isn't synced.
pub fn bye_of(fault: SyncFault) -> &'static [u8] {
    match fault {
        SyncFault::StoreFailed => b"* BYE store failed\r\n",
        SyncFault::NoMemory => b"* BYE no memory\r\n",
    }
}

/// Writes that line, if the client takes it.
pub fn write_bye<R: Wait + Clock>(rt: &R, client: &ClientConnection, line: &[u8]) {
    let _ = SocketWriter::new(rt, client).write_all(line);
}

/// The line for a client that is turned away.
const TURNED_AWAY: &[u8] = b"* BYE too many sessions\r\n";

/// Holds the conversation, while a second thread sends the session what changed when it idles;
/// returns once both have ended. If no second thread can be made, the client is turned away.
fn converse_and_feed<
    L: Ledger + Send + Sync,
    R: Threads + Wait + Clock + Log + Sync,
    G: Gate + Send,
>(rt: &R, alloc: Global, gate: &mut G, connection: &ConnectionContext<'_, L>) -> ConversationEnd {
    let ended = thread::scope(thread::scope_env(), rt, |scope| {
        if scope.spawn(move || feed(rt, alloc, connection)).is_err() {
            return None;
        }
        Some(converse_on_stream(rt, alloc, gate, connection))
    });
    match ended {
        Some(ended) => ended,
        None => without_feeder(rt, connection.client),
    }
}

/// Turns away a client for which no second thread can be made.
fn without_feeder<R: Wait + Clock>(rt: &R, client: &ClientConnection) -> ConversationEnd {
    write_bye(rt, client, TURNED_AWAY);
    ConversationEnd {
        ended: Ended::TooManySessions,
        unsynced: None,
    }
}

fn converse_on_stream<L: Ledger, R: Wait + Clock, G: Gate>(
    rt: &R,
    alloc: Global,
    gate: &mut G,
    connection: &ConnectionContext<'_, L>,
) -> ConversationEnd {
    let first = connection.pass;
    let second = connection.second;
    let mut port = SessionPort::new(
        rt,
        connection.context,
        connection.client,
        PassLocks { first, second },
        connection.shared_phase,
        gate,
    );
    let device = SocketReader::new(rt, connection.client);
    let mut source = SessionReader::new(rt, alloc, connection, device);
    let writer = Wire::new(SocketWriter::new(rt, connection.client));
    let mut sink = SyncedSink::new(rt, alloc, connection.context, connection.pass, writer);
    let limits = limits_of(connection.context.server.limits);
    let ended = match connection.protocol {
        Protocol::Profile => {
            converse_over_within(rt, alloc, limits, &mut source, &mut sink, &mut port)
        }
        Protocol::Rev1 => converse_rev1(rt, alloc, limits, &mut source, &mut sink, &mut port),
    };
    let unsynced = sink.fault();
    drop(port);
    connection.shared_phase.end(rt);
    ConversationEnd { ended, unsynced }
}

/// The limits on the commands of a client.
fn limits_of(limits: ClientLimits) -> Limits
    ensures { result ≡ record Limits.STANDARD { literals = limits.literals } }
{
    Limits {
        line: Limits::STANDARD.line,
        literals: limits.literals as usize,
    }
}

/// Holds a conversation as `converse_over_within` does, with the standard limits on commands.
pub fn converse_over<L: Ledger, R: Wait + Clock, G: Gate, S: Source, K: Sink>(
    rt: &R,
    alloc: Global,
    source: &mut S,
    sink: &mut K,
    port: &mut SessionPort<'_, L, R, G>,
) -> Ended
    requires source { S.failures source.old < 18446744073709551615 }
    requires sink { K.failures sink.old < 18446744073709551615 }
    ensures { IsConversation (λ s r t. OpensByCall s.context.now.server.now.access s.at r t.at)
        (λ s call r t. StepsByCall (stores s.context.now.store) s.at call r t.at)
        (λ s t. Unit {0}) port.old port.new
        Limits.STANDARD (S.left source.old) (S.left source.new) (S.is_ended source.new)
        (K.taken sink.old) (K.taken sink.new) result }
{
    converse_over_within(rt, alloc, Limits::STANDARD, source, sink, port)
}

/// Holds a conversation as a session of a replica under its lock, over any source of octets and any
/// sink for them. One call of the replica opens the session, for the users that the server admits.
/// Each command and each line of IDLE that the octets read spell is one call in that session, in
/// their order, which is also the order of their entries in the journal. The output is the
/// greeting, the printed outcomes of these calls in that order, and the BYE that the end names; or,
/// if a write failed, a prefix of that.
pub fn converse_over_within<L: Ledger, R: Wait + Clock, G: Gate, S: Source, K: Sink>(
    rt: &R,
    alloc: Global,
    limits: Limits,
    source: &mut S,
    sink: &mut K,
    port: &mut SessionPort<'_, L, R, G>,
) -> Ended
    requires source { S.failures source.old < 18446744073709551615 }
    requires sink { K.failures sink.old < 18446744073709551615 }
    ensures { IsConversation (λ s r t. OpensByCall s.context.now.server.now.access s.at r t.at)
        (λ s call r t. StepsByCall (stores s.context.now.store) s.at call r t.at)
        (λ s t. Unit {0}) port.old port.new
        limits (S.left source.old) (S.left source.new) (S.is_ended source.new)
        (K.taken sink.old) (K.taken sink.new) result }
{
    converse_within(rt, alloc, limits, source, sink, port)
}

/// The text for the end of a conversation in the log: why the server ended the connection, if it
/// did, or else how the conversation ended.
fn text_of_end(ended: Ended, cause: Option<EndCause>) -> &'static str {
    match cause {
        Some(cause) => cause.text(),
        None => log_text_of(ended),
    }
}

/// Logs how a connection ended, with its replica and its client's address.
fn log_end<R: Log>(rt: &R, clients: &ReplicaClients, address: Option<SocketAddr>, text: &str) {
    let replica = clients.replica.get();
    match address {
        Some(address) => {
            info!(rt; "replica {replica}, client {address}: connection ended: {text}")
        }
        None => info!(rt; "replica {replica}, client unknown: connection ended: {text}"),
    }
}

/// Whether the client can't be reached any more, so that nothing can be sent to it.
fn is_unreachable(ended: Ended) -> bool {
    matches!(
        ended,
        Ended::PeerClosed | Ended::ReadFailed | Ended::WriteFailed
    )
}

/// How long taking leave of a client lasts at most, in seconds.
const LEAVE_TIME: u64 = 2;

/// Takes leave of a client, which isn't logged in any more and makes room like one that never was.
fn take_leave<R: Wait + Clock>(rt: &R, clients: &ReplicaClients, client: &Arc<ClientConnection>) {
    if client.state.log_out(rt) && !clients.add_stranger(rt, client) {
        return;
    }
    drain_and_close(rt, &client.stream);
}

/// Shuts down the server's side of the connection, and drops what the client still sends, up to 16
/// MiB, until it pauses for a second and for at most two. A connection that is closed while octets
/// are unread is reset, which may take the last answers from the client (RFC 9293, section 3.6.1).
fn drain_and_close<R: Clock>(rt: &R, stream: &TcpStream) {
    let _ = stream.set_nonblocking(false);
    let _ = stream.shutdown(Shutdown::Write);
    let Ok(began) = Instant::now(rt) else {
        return;
    };
    let mut piece = [0u8; 4_096];
    let mut reader = stream;
    for _ in 0..4_096u32 {
        if !sleep_in_leave(rt, stream, began) {
            return;
        }
        match reader.read(&mut piece) {
            Ok(0) | Err(_) => return,
            Ok(_) => {}
        }
    }
}

/// Lets the next read of a leave that began then sleep for a second, or for what is left of it.
/// False if nothing is left.
fn sleep_in_leave<R: Clock>(rt: &R, stream: &TcpStream, began: Instant) -> bool {
    let Ok(elapsed) = began.elapsed(rt) else {
        return false;
    };
    let left = Duration::from_secs(LEAVE_TIME).saturating_sub(elapsed);
    !left.is_zero()
        && stream
            .set_read_timeout(Some(left.min(Duration::from_secs(1))))
            .is_ok()
}

/// Turns away a client for which no pass, memory or thread is left, and says so in the log.
pub fn refuse_connection<R: Log>(rt: &R, clients: &ReplicaClients, stream: &TcpStream) {
    let mut writer = stream;
    let _ = writer.write_all(TURNED_AWAY);
    let address = stream.peer_addr().ok();
    log_end(rt, clients, address, log_text_of(Ended::TooManySessions));
}
