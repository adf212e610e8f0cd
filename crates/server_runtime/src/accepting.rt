//! How a replica accepts connections: each gets a pass and waits for its thread, or is turned away.

use crate::client_state::ClientConnection;
use crate::connection_threads::{
    Protocol, ReplicaContext, SessionPasses, converse_and_close, refuse_connection,
};
use crate::replica_clients::ReplicaClients;
use crate::replica_threads::{AcceptedConnection, OpenGate, ServedReplica};
use log::{Log, warn};
use replica_links::Gate;
use replica_lock::Pass;
use server_settings::Access;
use std::alloc::Global;
use std::net::TcpStream;
use std::rt::Clock;
use std::sync::ledger::Ledger;
use std::sync::{Arc, Mutex, Wait};
use std::thread;
use std::thread::Threads;
use std::time::{Duration, Instant};

/// How long a replica waits before it accepts again after the system refused it a connection, in
/// milliseconds.
const ACCEPT_PAUSE: u64 = 100;

/// Adds a pass to those that can be used again, without what it still stores of its last calls. If
/// memory runs out, the pass is lost.
pub fn return_pass<L: Ledger, R: Wait>(rt: &R, returned: &Mutex<Vec<Pass<L>>>, mut pass: Pass<L>) {
    pass.drop_spent();
    let _ = returned.lock(rt).push(pass);
}

/// A pass without a session: one of a connection that ended, or a new one, cut from the first.
/// `None` if no pass is left.
fn next_pass<L: Ledger, R: Wait>(
    rt: &R,
    returned: &Mutex<Vec<Pass<L>>>,
    first: &Mutex<Pass<L>>,
) -> Option<Pass<L>> {
    match returned.lock(rt).pop() {
        Some(pass) => Some(pass),
        None => first.lock(rt).cut(),
    }
}

/// The pass of the second session of a client that speaks IMAP4rev1, for RENAME. `None` for other
/// clients, or if no pass is left.
fn second_pass<L: Ledger, R: Wait>(
    rt: &R,
    served: &ServedReplica<'_, L>,
    protocol: Protocol,
    first: &Mutex<Pass<L>>,
) -> Option<Pass<L>> {
    match protocol {
        Protocol::Profile => None,
        Protocol::Rev1 => next_pass(rt, served.returned, first),
    }
}

/// The connection of a client that has just arrived. `None` if memory runs out; then the client is
/// turned away.
pub fn connect<L: Ledger, R: Wait + Clock + Log>(
    rt: &R,
    alloc: Global,
    context: &ReplicaContext<'_, L>,
    stream: TcpStream,
) -> Option<Arc<ClientConnection>> {
    let clients = context.clients;
    let is_known = matches!(context.server.access, Access::Preauth);
    let connected = clients.connect(rt, alloc, context.server.limits, is_known, stream);
    let client = match connected {
        Ok(client) => client,
        Err(stream) => {
            refuse_connection(rt, clients, &stream);
            return None;
        }
    };
    if is_known {
        return Some(client);
    }
    clients.await_place(rt);
    if clients.add_stranger(rt, &client) {
        return Some(client);
    }
    refuse_connection(rt, clients, &client.stream);
    drop(client);
    None
}

/// Accepts a connection of a client that speaks this: takes a pass for it, and adds it to those
/// that wait for a thread. False if as many are served as may be, or if no pass or memory is left;
/// then its client was turned away.
pub fn accept<L: Ledger, R: Wait + Clock + Log>(
    rt: &R,
    alloc: Global,
    served: &ServedReplica<'_, L>,
    first: &Mutex<Pass<L>>,
    stream: TcpStream,
    protocol: Protocol,
) -> bool {
    let clients = served.context.clients;
    if !clients.begin(rt) {
        refuse_connection(rt, clients, &stream);
        return false;
    }
    let Some(pass) = next_pass(rt, served.returned, first) else {
        refuse_connection(rt, clients, &stream);
        clients.finish(rt);
        return false;
    };
    let Some(client) = connect(rt, alloc, served.context, stream) else {
        return_pass(rt, served.returned, pass);
        clients.finish(rt);
        return false;
    };
    let accepted = AcceptedConnection {
        client,
        gate: OpenGate,
        passes: SessionPasses {
            pass,
            protocol,
            second: second_pass(rt, served, protocol, first),
        },
    };
    let waits = served.accepted.lock(rt).push(accepted);
    match waits {
        Ok(()) => true,
        Err(unadded) => {
            refuse(rt, served, unadded.value);
            false
        }
    }
}

/// Serves a connection to its end, closes it, and returns its passes.
pub fn serve_connection<
    L: Ledger + Send + Sync,
    R: Threads + Wait + Clock + Log + Sync,
    G: Gate + Send + Drop,
>(
    rt: &R,
    alloc: Global,
    context: &ReplicaContext<'_, L>,
    accepted: AcceptedConnection<L, G>,
) -> SessionPasses<L> {
    let AcceptedConnection {
        client,
        mut gate,
        passes,
    } = accepted;
    converse_and_close(rt, alloc, &mut gate, context, &client, passes)
}

/// The connection that has waited longest for a thread. `None` if none waits.
fn next_accepted<L: Ledger, R: Wait>(
    rt: &R,
    served: &ServedReplica<'_, L>,
) -> Option<AcceptedConnection<L, OpenGate>> {
    let mut accepted = served.accepted.lock(rt);
    if accepted.is_empty() {
        return None;
    }
    Some(accepted.remove(0))
}

/// Serves the connection that has waited longest for a thread, and returns its pass.
pub fn serve_accepted<L: Ledger + Send + Sync, R: Threads + Wait + Clock + Log + Sync>(
    rt: &R,
    alloc: Global,
    served: &ServedReplica<'_, L>,
) {
    let accepted = next_accepted(rt, served);
    if let Some(accepted) = accepted {
        let passes = serve_connection(rt, alloc, served.context, accepted);
        return_passes(rt, served, passes);
        served.context.clients.finish(rt);
    }
}

/// Turns away one of the connections that wait for a thread, since none can be made, and returns
/// its pass. False if threads that were there have taken all of them.
pub fn refuse_accepted<L: Ledger, R: Wait + Log>(rt: &R, served: &ServedReplica<'_, L>) -> bool {
    if !served.demand.take_unserved(rt) {
        return false;
    }
    let accepted = served.accepted.lock(rt).pop();
    if let Some(accepted) = accepted {
        refuse(rt, served, accepted);
    }
    true
}

/// Returns the passes of a connection.
fn return_passes<L: Ledger, R: Wait>(
    rt: &R,
    served: &ServedReplica<'_, L>,
    passes: SessionPasses<L>,
) {
    let SessionPasses {
        pass,
        protocol: _,
        second,
    } = passes;
    return_pass(rt, served.returned, pass);
    if let Some(second) = second {
        return_pass(rt, served.returned, second);
    }
}

/// Turns away the client of a connection, and returns its passes.
fn refuse<L: Ledger, R: Wait + Log>(
    rt: &R,
    served: &ServedReplica<'_, L>,
    accepted: AcceptedConnection<L, OpenGate>,
) {
    let AcceptedConnection {
        client,
        gate,
        passes,
    } = accepted;
    drop(gate);
    let clients = served.context.clients;
    refuse_connection(rt, clients, &client.stream);
    clients.remove_stranger(rt, client.number);
    return_passes(rt, served, passes);
    clients.finish(rt);
}

/// Waits before a replica accepts again, after the system refused it a connection. Says so in the
/// log, but only once a minute.
pub fn pause_accepting<R: Clock + Log>(
    rt: &R,
    clients: &ReplicaClients,
    logged: &mut Option<Instant>,
) {
    let now = Instant::now(rt).ok();
    if is_minute_over(*logged, now) {
        let replica = clients.replica.get();
        warn!(rt; "replica {replica} can't accept a connection; clients wait");
        *logged = now;
    }
    thread::sleep(rt, Duration::from_millis(ACCEPT_PAUSE));
}

/// Whether a minute has passed since that time, if there is one.
fn is_minute_over(time: Option<Instant>, now: Option<Instant>) -> bool {
    match (time, now) {
        (Some(time), Some(now)) => now.duration_since(time) >= Duration::from_secs(60),
        _ => true,
    }
}
