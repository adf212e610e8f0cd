//! The threads of the replicas that a server runs.

ghost use Rattle.std.specs.Prelude.{◌≡◌, ℕ, IfOk, IfSome, Some, map, slice_get};
ghost use Rattle.server_laws.specs.BookWorlds.{KeepTheHeadline};
ghost use Rattle.server_runtime.specs.ReplicaEnds.{AreEndsOf, IsEndOf, books_of};

use crate::accepting::{
    accept, connect, pause_accepting, refuse_accepted, return_pass, serve_accepted,
    serve_connection,
};
use crate::client_counts::ClientCounts;
use crate::client_state::ClientConnection;
use crate::connection_demand::ConnectionDemand;
use crate::connection_threads::{Protocol, ReplicaContext, SessionPasses, refuse_connection};
use crate::joining_replica::{JoinedReplica, JoiningReplica, send_copies};
use crate::link_peers::LinkPeers;
use crate::linked_replica::run_process_links;
use crate::replica_clients::ReplicaClients;
use crate::replica_end::{ReplicaEnd, end_of, ends_keep_the_headline};
use crate::replica_handle::{CopyRequest, others};
use crate::replica_store::ReplicaStore;
use crate::server_state::ServerState;
use crate::store_taker::StoreTaker;
use crate::totals::{Totals, totals_of};
use crossbeam_channel::Receiver;
use durable_log::DurableLog;
use imap_node::Node;
use log::{Log, info};
use log_files::FileDevice;
use replica_links::{Gate, LinkInput, PeerMsg, link_worker};
use replica_lock::{Book, Pass, Shared};
use std::alloc::{AllocError, Global};
use std::marker::Brand;
use std::net::{Net, TcpListener, TcpStream};
use std::rt::Clock;
use std::sync::ledger::{Blank, Ledger};
use std::sync::{Arc, Mutex, Wait};
use std::thread;
use std::thread::Threads;
use std::time::Duration;
use tags_clocks::ReplicaId;
use uid_projection::Counters;

/// How a replica starts.
#[derive(Drop)]
pub enum StartMode<'a> {
    /// It listens, and has received nothing.
    Listening(TcpListener),
    /// It listens, with the book that was restored from its log.
    Restored(TcpListener, DurableLog<FileDevice>),
    /// It joins at a signal.
    Joining(JoiningReplica<'a>),
}

/// The setup that the thread of a replica needs to start.
#[derive(Drop)]
pub struct ReplicaSetup<'a> {
    /// Its name.
    pub replica: ReplicaId,
    /// Its place among all.
    pub own: usize,
    /// Messages from the other replicas.
    pub messages: Receiver<PeerMsg>,
    /// Requests for copies of its operations.
    pub copy_requests: Receiver<CopyRequest>,
    /// How it starts.
    pub start_mode: StartMode<'a>,
    /// Its book, if it was restored.
    pub book: Option<Book>,
}

/// What the thread of a replica needs to start besides its name and its book.
#[derive(Drop)]
struct ThreadSetup<'a> {
    own: usize,
    messages: Receiver<PeerMsg>,
    copy_requests: Receiver<CopyRequest>,
    start_mode: StartMode<'a>,
}

/// A replica's setup, until its thread takes it, with its name. The book is apart, since that it
/// may be sent to a thread is a lemma of its own.
#[derive(Drop)]
struct SetupSlot<'a> {
    replica: ReplicaId,
    setup: Mutex<Option<ThreadSetup<'a>>>,
    book: Mutex<Option<Book>>,
}

impl<'a> SetupSlot<'a> {
    /// The setup; `None` if it was taken already.
    fn take<R: Wait>(&self, rt: &R) -> Option<ThreadSetup<'a>> {
        self.setup.lock(rt).take()
    }

    /// The book, if the replica was restored; `None` if it was taken already.
    fn take_book<R: Wait>(&self, rt: &R) -> Option<Book> {
        self.book.lock(rt).take()
    }
}

/// The inputs of a replica that runs, and the replicas that it asks.
#[derive(Drop)]
pub struct ReplicaInputs {
    /// Its place among all.
    pub own: usize,
    /// Its listener.
    pub listener: TcpListener,
    /// Messages from the other replicas.
    pub messages: Receiver<PeerMsg>,
    /// Requests for copies of its operations.
    pub copy_requests: Receiver<CopyRequest>,
    /// The places of the others.
    pub peers: Vec<usize>,
    /// Whether it first asks the others for what it lacks.
    pub asks: bool,
}

/// A replica that is to run: its book, its store, if it has one, and its inputs.
#[derive(Drop)]
struct StartedReplica {
    book: Book,
    store: Option<ReplicaStore>,
    inputs: ReplicaInputs,
}

/// The state that the threads that serve a replica share.
#[derive(Drop)]
pub struct ServedReplica<'a, L: Ledger> {
    /// The state that all its connections share.
    pub context: &'a ReplicaContext<'a, L>,
    /// Its inputs, and the replicas that it asks.
    pub inputs: &'a ReplicaInputs,
    /// The passes of connections that ended.
    pub returned: &'a Mutex<Vec<Pass<L>>>,
    /// The connections that wait for a thread; the oldest first.
    pub accepted: &'a Mutex<Vec<AcceptedConnection<L, OpenGate>>>,
    /// How many of these no thread has taken yet, and how many threads wait.
    pub demand: &'a ConnectionDemand,
}

/// A connection that is to be served.
#[derive(Drop)]
pub struct AcceptedConnection<L: Ledger, G> {
    /// The connection.
    pub client: Arc<ClientConnection>,
    /// The gate that is passed before each command.
    pub gate: G,
    /// Its passes.
    pub passes: SessionPasses<L>,
}

/// A gate that never waits.
#[derive(Drop)]
pub struct OpenGate;

impl Gate for OpenGate {
    fn pass(&mut self, _n: u64) {}
}

/// Runs all replicas, each in a thread of its own, until the server stops, and returns how each
/// ended, in the order of the setups. The headline holds of the returned books, for every
/// interleaving of their journals in which each operation is issued before it is delivered. `None`
/// if memory runs out; then no end of a replica is known.
pub fn serve<
    R: Threads
        + Wait
        + Clock
        + Log
        + Print
        + Sync
        + Net<Listener = TcpListener, Stream = TcpStream>,
>(
    rt: &R,
    alloc: Global,
    server: &ServerState<'_>,
    setups: Vec<ReplicaSetup<'_>>,
) -> Option<Vec<ReplicaEnd>>
    ensures ends { IfSome result
        (λ ends. AreEndsOf (map (λ setup. setup.replica) setups.entry.items) ends.items) }
    ensures headline { IfSome result (λ ends. KeepTheHeadline (books_of ends.items)) }
{
    let Ok(slots) = slots_of(alloc, setups) else {
        return None;
    };
    let Ok(ends) = run_all(rt, alloc, server, slots.as_slice()) else {
        return None;
    };
    ends_keep_the_headline(&ends);
    Some(ends)
}

/// The setups, each in a slot from which its thread takes it. `Err` if memory runs out.
fn slots_of<'a>(
    alloc: Global,
    setups: Vec<ReplicaSetup<'a>>,
) -> Result<Vec<SetupSlot<'a>>, AllocError>
    ensures { IfOk result (λ slots. map (λ slot. slot.replica) slots.items
        ≡ map (λ setup. setup.replica) setups.entry.items) }
{
    let mut slots = Vec::new(alloc);
    for setup in setups {
        slots.push(slot_of(setup))?;
    }
    Ok(slots)
}

/// The slot of a setup.
fn slot_of<'a>(setup: ReplicaSetup<'a>) -> SetupSlot<'a>
    ensures { result.replica ≡ setup.entry.replica }
{
    let ReplicaSetup {
        replica,
        own,
        messages,
        copy_requests,
        start_mode,
        book,
    } = setup;
    let setup = ThreadSetup {
        own,
        messages,
        copy_requests,
        start_mode,
    };
    SetupSlot {
        replica,
        setup: Mutex::new(Some(setup)),
        book: Mutex::new(book),
    }
}

/// Runs the replicas in these slots, each in a thread of its own. `Err` if memory runs out.
fn run_all<
    R: Threads
        + Wait
        + Clock
        + Log
        + Print
        + Sync
        + Net<Listener = TcpListener, Stream = TcpStream>,
>(
    rt: &R,
    alloc: Global,
    server: &ServerState<'_>,
    slots: &[SetupSlot<'_>],
) -> Result<Vec<ReplicaEnd>, AllocError>
    ensures { IfOk result
        (λ ends. AreEndsOf (map (λ slot. slot.replica) slots.now) ends.items) }
{
    let run = move |place: usize| -> ReplicaEnd
        ensures { (name : ℕ)
            → slice_get (map (λ slot. slot.replica) slots.entry.now) place ≡ Some name
            → IsEndOf name result }
    { run_at(rt, alloc, server, slots, place) };
    thread::map_indices(rt, alloc, slots.len(), &run)
}

/// Runs the replica whose setup is in the slot at this place.
fn run_at<
    R: Threads
        + Wait
        + Clock
        + Log
        + Print
        + Sync
        + Net<Listener = TcpListener, Stream = TcpStream>,
>(
    rt: &R,
    alloc: Global,
    server: &ServerState<'_>,
    slots: &[SetupSlot<'_>],
    place: usize,
) -> ReplicaEnd
    ensures { (name : ℕ) → slice_get (map (λ slot. slot.replica) slots.now) place ≡ Some name
        → IsEndOf name result }
{
    let Some(slot) = slots.get(place) else {
        return ReplicaEnd::Lost;
    };
    match slot.take(rt) {
        Some(setup) => end_of(slot.replica, run_setup(rt, alloc, server, slot, setup)),
        None => ReplicaEnd::Lost,
    }
}

/// Runs a replica in a call of its own, so that its ledger has a name of its own.
fn run_setup<
    R: Threads
        + Wait
        + Clock
        + Log
        + Print
        + Sync
        + Net<Listener = TcpListener, Stream = TcpStream>,
>(
    rt: &R,
    alloc: Global,
    server: &ServerState<'_>,
    slot: &SetupSlot<'_>,
    setup: ThreadSetup<'_>,
) -> ReplicaEnd {
    let ThreadSetup {
        own,
        messages,
        copy_requests,
        start_mode,
    } = setup;
    let asks = !matches!(&start_mode, StartMode::Listening(_));
    let JoinedReplica {
        book,
        listener,
        peers,
        store,
    } = match start_replica(rt, alloc, server, slot, own, start_mode) {
        Ok(started) => started,
        Err(end) => return end,
    };
    let inputs = ReplicaInputs {
        own,
        listener,
        messages,
        copy_requests,
        peers,
        asks,
    };
    let started = StartedReplica {
        book,
        store,
        inputs,
    };
    run_replica::<Brand, R>(rt, alloc, Blank::new(4_294_967_295), server, started)
}

/// The replica of a slot, once it has its book and its listener; how it ends if it can't have them.
fn start_replica<R: Print + Wait + Clock + Net<Listener = TcpListener, Stream = TcpStream>>(
    rt: &R,
    alloc: Global,
    server: &ServerState<'_>,
    slot: &SetupSlot<'_>,
    own: usize,
    start_mode: StartMode<'_>,
) -> Result<JoinedReplica, ReplicaEnd> {
    let replica = slot.replica;
    let started = match start_mode {
        StartMode::Listening(listener) => start_listening(alloc, server, replica, own, listener),
        StartMode::Restored(listener, log) => {
            let peers = others(alloc, server.replicas.len(), own);
            start_restored(alloc, replica, slot.take_book(rt), peers, listener, log)
        }
        StartMode::Joining(joiner) => match joiner.join(rt, alloc, server, replica, own) {
            Some(joined) => Some(joined),
            None => return Err(ReplicaEnd::NotJoined),
        },
    };
    match started {
        Some(started) => Ok(started),
        None => Err(ReplicaEnd::Lost),
    }
}

/// A new replica with its listener; `None` if memory runs out.
fn start_listening(
    alloc: Global,
    server: &ServerState<'_>,
    replica: ReplicaId,
    own: usize,
    listener: TcpListener,
) -> Option<JoinedReplica> {
    let Ok(peers) = others(alloc, server.replicas.len(), own) else {
        drop(listener);
        return None;
    };
    let Some(book) = new_book(alloc, replica) else {
        drop(peers);
        drop(listener);
        return None;
    };
    Some(JoinedReplica {
        book,
        listener,
        peers,
        store: None,
    })
}

/// A restored replica with its listener; `None` if memory ran out or it has no book.
fn start_restored(
    alloc: Global,
    replica: ReplicaId,
    book: Option<Book>,
    peers: Result<Vec<usize>, AllocError>,
    listener: TcpListener,
    log: DurableLog<FileDevice>,
) -> Option<JoinedReplica> {
    let store = ReplicaStore::new(alloc, replica, log);
    match (book, peers, store) {
        (Some(book), Ok(peers), Ok(store)) => Some(JoinedReplica {
            book,
            listener,
            peers,
            store: Some(store),
        }),
        _ => None,
    }
}

/// The book of a replica that has received nothing and whose UIDs count from 1; `None` if memory
/// runs out.
fn new_book(alloc: Global, replica: ReplicaId) -> Option<Book> {
    let start = Counters {
        replica,
        uid: 1,
        k: 1,
    };
    match Node::new(alloc, start) {
        Ok(node) => Some(Book::new(alloc, node)),
        Err(_) => None,
    }
}

fn run_replica<
    L: Ledger + Send + Sync,
    R: Threads
        + Wait
        + Clock
        + Log
        + Print
        + Sync
        + Net<Listener = TcpListener, Stream = TcpStream>,
>(
    rt: &R,
    alloc: Global,
    blank: Blank,
    server: &ServerState<'_>,
    started: StartedReplica,
) -> ReplicaEnd
    requires { (blank.name ≡ L.name) × (blank.parts ≡ L.parts) × (L.parts ≡ 4294967295) }
{
    let StartedReplica {
        book,
        store,
        inputs,
    } = started;
    let room = store.as_ref().map(|store| store.room(rt));
    let clients = ReplicaClients::new(alloc, book.node().replica().id());
    let (shared, first) = Shared::<L>::with_store(blank, book, server.journal, room);
    let context = ReplicaContext {
        server,
        own: inputs.own,
        shared: &shared,
        store: store.as_ref(),
        clients: &clients,
    };
    let accepted = Mutex::new(Vec::new(alloc));
    let returned = Mutex::new(Vec::new(alloc));
    let demand = ConnectionDemand::new();
    let first = serve_listener(
        rt,
        alloc,
        first,
        &ServedReplica {
            context: &context,
            inputs: &inputs,
            returned: &returned,
            accepted: &accepted,
            demand: &demand,
        },
    );
    end_service(rt, alloc, &context);
    let mut passes = returned.into_inner();
    if passes.push(first).is_err() {
        return ReplicaEnd::Lost;
    }
    match shared.finish(passes) {
        Ok(book) => finish_with(rt, book),
        Err(_) => ReplicaEnd::Lost,
    }
}

/// Logs what a replica's clients did, and has its store tidied, once no connection is left.
fn end_service<L: Ledger, R: Wait + Clock + Log>(
    rt: &R,
    alloc: Global,
    context: &ReplicaContext<'_, L>,
) {
    log_counts(rt, context);
    if let Some(store) = context.store {
        store.tidy(rt, alloc, context);
    }
}

/// Logs what a replica served, and returns its end, with its book.
fn finish_with<R: Log>(rt: &R, book: Book) -> ReplicaEnd {
    log_totals(rt, &book);
    ReplicaEnd::Finished(book)
}

/// Logs what a replica served.
fn log_totals<R: Log>(rt: &R, book: &Book) {
    let Totals {
        sessions,
        commands,
        operations,
        entries,
        forgotten_count,
    } = totals_of(book);
    let replica = book.node().replica().id().get();
    info!(rt; "replica {replica} served {sessions} sessions and {commands} commands; it applied {operations} operations, and its journal had {entries} entries, of which it forgot {forgotten_count}");
}

/// Takes and answers messages from the other replicas until the server stops, and returns the pass.
/// A replica that has joined first asks all others for what it lacks.
fn run_link<L: Ledger, R: Wait + Clock>(
    rt: &R,
    alloc: Global,
    context: &ReplicaContext<'_, L>,
    pass: Pass<L>,
    inputs: &ReplicaInputs,
) -> Pass<L> {
    if pass.session().is_some() {
        return pass;
    }
    let mut taker = StoreTaker::new(rt, alloc, context, pass);
    let mut peers = LinkPeers::new(rt, alloc, context);
    let input = LinkInput {
        messages: &inputs.messages,
        peers: &inputs.peers,
        asks_first: inputs.asks,
        rest: Duration::from_secs(60),
    };
    link_worker(rt, &mut OpenGate, &input, &mut taker, &mut peers);
    taker.into_pass()
}

/// Serves these connections at once, each in a thread of its own and with the gate at the same
/// place in the list, and returns their passes once all have ended. A connection without a gate is
/// closed, and one for which no pass can be cut is turned away. `Err` if memory runs out; passes
/// may be lost then.
pub fn serve_over<
    L: Ledger + Send + Sync,
    R: Threads + Wait + Clock + Log + Sync,
    G: Gate + Send + Drop,
>(
    rt: &R,
    alloc: Global,
    context: &ReplicaContext<'_, L>,
    first: &mut Pass<L>,
    connections: Vec<TcpStream>,
    gates: Vec<G>,
) -> Result<Vec<Pass<L>>, AllocError> {
    let pending = accepted_connections(rt, alloc, context, first, connections, gates)?;
    thread::map_vec(
        rt,
        pending,
        &|accepted: AcceptedConnection<L, G>| {
            serve_connection(rt, alloc, context, accepted).pass
        },
    )
}

/// The connections, each with its gate and a pass. `Err` if memory runs out.
fn accepted_connections<L: Ledger, R: Wait + Clock + Log, G: Gate + Drop>(
    rt: &R,
    alloc: Global,
    context: &ReplicaContext<'_, L>,
    first: &mut Pass<L>,
    connections: Vec<TcpStream>,
    gates: Vec<G>,
) -> Result<Vec<AcceptedConnection<L, G>>, AllocError> {
    let mut pending = Vec::new(alloc);
    for (stream, gate) in connections.into_iter().zip(gates) {
        let Some(pass) = first.cut() else {
            refuse_connection(rt, context.clients, &stream);
            continue;
        };
        let client = connect(rt, alloc, context, stream).ok_or(AllocError)?;
        pending.push(AcceptedConnection {
            client,
            gate,
            passes: SessionPasses {
                pass,
                protocol: Protocol::Profile,
                second: None,
            },
        })?;
    }
    Ok(pending)
}

/// Serves the connections of a replica's listeners until the server stops. Further threads serve
/// the link and the requests for copies, and look after the log, if there is one.
fn serve_listener<
    L: Ledger + Send + Sync,
    R: Threads
        + Wait
        + Clock
        + Log
        + Print
        + Sync
        + Net<Listener = TcpListener, Stream = TcpStream>,
>(rt: &R, alloc: Global, first: Pass<L>, served: &ServedReplica<'_, L>) -> Pass<L> {
    let mut first = first;
    let link_pass = first.cut();
    let copy_pass = first.cut();
    let process_pass = process_link_pass(served, &mut first);
    let first = Mutex::new(first);
    let passes = &first;
    thread::scope(thread::scope_env(), rt, |scope| {
        if let Some(pass) = link_pass {
            let _ = scope.spawn(move || {
                let pass = run_link(rt, alloc, served.context, pass, served.inputs);
                return_pass(rt, served.returned, pass)
            });
        }
        if let Some(pass) = copy_pass {
            let _ = scope.spawn(move || {
                let pass = send_copies(
                    rt,
                    alloc,
                    served.context,
                    pass,
                    &served.inputs.copy_requests,
                );
                return_pass(rt, served.returned, pass)
            });
        }
        if let Some(pass) = process_pass {
            let _ = scope.spawn(move || {
                let pass = run_process_links(rt, alloc, served.context, pass);
                return_pass(rt, served.returned, pass)
            });
        }
        if served.context.store.is_some() {
            let _ = scope.spawn(move || keep_store(rt, alloc, served));
        }
        if has_rev1(served) {
            let _ = scope.spawn(move || accept_rev1(rt, alloc, served, passes));
        }
        let _ = scope.spawn(move || report(rt, served));
        accept_all(
            rt,
            alloc,
            served,
            &served.inputs.listener,
            Protocol::Profile,
            passes,
        );
        stop_threads(rt, served.context);
    });
    first.into_inner()
}

/// Lets the threads end that report, keep links to other processes and look after the store.
fn stop_threads<L: Ledger, R: Wait + Net<Listener = TcpListener, Stream = TcpStream>>(
    rt: &R,
    context: &ReplicaContext<'_, L>,
) {
    context.clients.counts.stop(rt);
    if let Some(links) = &context.server.links {
        links.stop(rt);
    }
    if let Some(store) = context.store {
        store.stop(rt);
    }
}

/// Accepts connections at a listener, each of whose clients speaks this, until the server stops,
/// and serves each in a thread that has no other.
fn accept_all<
    L: Ledger + Send + Sync,
    R: Threads + Wait + Clock + Log + Sync + Net<Listener = TcpListener, Stream = TcpStream>,
>(
    rt: &R,
    alloc: Global,
    served: &ServedReplica<'_, L>,
    listener: &TcpListener,
    protocol: Protocol,
    first: &Mutex<Pass<L>>,
) {
    thread::scope(thread::scope_env(), rt, |scope| {
        let mut logged = None;
        for stream in listener.incoming() {
            if served.context.server.stop.is_over(rt) {
                break;
            }
            let Ok(stream) = stream else {
                pause_accepting(rt, served.context.clients, &mut logged);
                continue;
            };
            if !accept(rt, alloc, served, first, stream, protocol) {
                end_one(rt, served.context.server);
                continue;
            }
            if !served.demand.add_connection(rt) {
                continue;
            }
            if scope.spawn(move || serve_all(rt, alloc, served)).is_err()
                && refuse_accepted(rt, served)
            {
                end_one(rt, served.context.server);
            }
        }
        served.demand.stop(rt);
    })
}

/// Whether the replica also listens for clients that speak IMAP4rev1.
fn has_rev1<L: Ledger>(served: &ServedReplica<'_, L>) -> bool {
    let server = served.context.server;
    server.rev1_listener(served.inputs.own).is_some()
}

/// Accepts connections of clients that speak IMAP4rev1, if the replica listens for them.
fn accept_rev1<
    L: Ledger + Send + Sync,
    R: Threads + Wait + Clock + Log + Sync + Net<Listener = TcpListener, Stream = TcpStream>,
>(rt: &R, alloc: Global, served: &ServedReplica<'_, L>, first: &Mutex<Pass<L>>) {
    let server = served.context.server;
    if let Some(rev1) = server.rev1_listener(served.inputs.own) {
        accept_all(rt, alloc, served, &rev1.listener, Protocol::Rev1, first);
    }
}

/// A pass for the links to other processes, if there are any.
fn process_link_pass<L: Ledger>(
    served: &ServedReplica<'_, L>,
    first: &mut Pass<L>,
) -> Option<Pass<L>> {
    if served.context.server.links.is_none() {
        return None;
    }
    first.cut()
}

/// Serves connections that wait for a thread, one after another, and counts their ends, until none
/// has come for a second.
fn serve_all<
    L: Ledger + Send + Sync,
    R: Threads + Wait + Clock + Log + Sync + Net<Listener = TcpListener, Stream = TcpStream>,
>(rt: &R, alloc: Global, served: &ServedReplica<'_, L>) {
    for _ in rt.forever() {
        if !served.demand.take_connection(rt) {
            return;
        }
        serve_accepted(rt, alloc, served);
        end_one(rt, served.context.server);
        served.demand.add_thread(rt);
    }
}

/// Looks after the replica's log, if there is one, until the server stops.
fn keep_store<L: Ledger, R: Wait + Clock + Log>(
    rt: &R,
    alloc: Global,
    served: &ServedReplica<'_, L>,
) {
    if let Some(store) = served.context.store {
        store.keep(rt, alloc, served.context, &served.inputs.peers);
    }
}

/// Logs what the clients of a replica have done, each hour until the replica stops.
fn report<L: Ledger, R: Wait + Clock + Log>(rt: &R, served: &ServedReplica<'_, L>) {
    for _ in rt.forever() {
        if !served.context.clients.counts.await_report(rt) {
            return;
        }
        log_counts(rt, served.context);
    }
}

/// Logs what the clients of a replica have done so far.
fn log_counts<L: Ledger, R: Wait + Log>(rt: &R, context: &ReplicaContext<'_, L>) {
    let ClientCounts {
        connections,
        sessions,
        commands,
        refused_logins,
        octets,
    } = context.clients.counts.counts(rt);
    let operations = context.shared.op_count(rt);
    let replica = context.clients.replica.get();
    info!(rt; "replica {replica} so far: {connections} connections, {sessions} sessions, {commands} commands, {operations} operations, {refused_logins} refused logins, {octets} octets of messages");
}

/// Counts a connection that ended. After the first one, the replicas that are to join do so; after
/// the last one, the threads of all replicas are woken, so that they end too.
fn end_one<R: Wait + Net<Listener = TcpListener, Stream = TcpStream>>(
    rt: &R,
    server: &ServerState<'_>,
) {
    server.joining.begin_all(rt);
    if !server.stop.end_one(rt) {
        return;
    }
    for (place, handle) in server.replicas.iter().enumerate() {
        handle.wake(rt, place);
    }
    for rev1 in &server.rev1 {
        let _ = TcpStream::connect(rt, rev1.address);
    }
}
