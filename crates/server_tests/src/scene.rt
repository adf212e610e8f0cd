//! Two replicas, whose connections are served while clients call and a lock is held.

ghost use Rattle.std.specs.Prelude.{◌≡◌};

use crate::callers::{Caller, Line, receive};
use crate::gates::{ClientGate, LockHolder, Signs, Way, wait_for};
use imap_node::{Auth, MAX_SESSIONS, Node};
use log::Log;
use replica_lock::{Book, BookEvent, Pass, Shared};
use server_runtime::{
    Access, ClientLimits, JoiningReplicas, ReplicaClients, ReplicaContext, ServerState,
    StopCounter, serve_over,
};
use std::alloc::{AllocError, Global};
use std::marker::Brand;
use std::net::{Net, TcpListener, TcpStream};
use std::rt::Clock;
use std::sync::Wait;
use std::sync::atomic::Ordering;
use std::sync::ledger::{Blank, Ledger};
use std::thread::Threads;
use std::{io, thread};
use tags_clocks::ReplicaId;
use uid_projection::Counters;

/// The clients that call, and how long the first replica's lock is held.
#[derive(Drop)]
pub struct Plan {
    /// The clients of the first replica.
    pub first: Vec<Caller>,
    /// The clients of the second replica.
    pub second: Vec<Caller>,
    /// Whether the first replica has as many sessions as it can before they call.
    pub is_full: bool,
    /// How many gates are reached before the lock is taken.
    pub called: u64,
    /// The number of clients that read everything before the lock is released; 0 if it isn't taken.
    pub until: u64,
    /// The number of turns after which the lock is released anyway.
    pub turns: u64,
}

/// The result of a plan.
#[derive(Drop)]
pub struct Outcome {
    /// What the clients of the first replica read, in their order.
    pub first: Vec<Vec<u8>>,
    /// What the clients of the second replica read, in their order.
    pub second: Vec<Vec<u8>>,
    /// How many clients had read everything when the lock was released.
    pub received: u64,
    /// How many gates saw what they waited for.
    pub satisfied: u64,
    /// The numbers with which a recording gate was passed, a digit each.
    pub numbers: u64,
    /// How many calls each replica's journal counts.
    pub entries: (u64, u64),
}

/// A new replica with this number.
fn fresh_book(alloc: Global, number: u32) -> Option<Book> {
    let start = Counters {
        replica: ReplicaId::new(number)?,
        uid: 1,
        k: 1,
    };
    match Node::new(alloc, start) {
        Ok(node) => Some(Book::new(alloc, node)),
        Err(_) => None,
    }
}

/// Opens as many sessions as a replica can have; false if one can't be opened.
fn fill(alloc: Global, book: &mut Book) -> bool {
    for _ in 0..MAX_SESSIONS {
        match book.step(
            alloc,
            BookEvent::Open {
                auth: Auth::Preauth,
            },
        ) {
            Ok(outcome) => drop(outcome),
            Err(_) => return false,
        }
    }
    true
}

/// A new replica, numbered 1, with as many sessions as it can have if `is_full`.
fn first_book(alloc: Global, is_full: bool) -> Option<Book> {
    let mut book = fresh_book(alloc, 1)?;
    if is_full && !fill(alloc, &mut book) {
        drop(book);
        return None;
    }
    Some(book)
}

/// Two new replicas, numbered 1 and 2; the first has as many sessions as it can if `is_full`.
fn fresh_books(alloc: Global, is_full: bool) -> Option<(Book, Book)> {
    let first = first_book(alloc, is_full)?;
    match fresh_book(alloc, 2) {
        Some(second) => Some((first, second)),
        None => {
            drop(first);
            None
        }
    }
}

/// The server's sides of connections, with their gates, and the clients' sides.
#[derive(Drop)]
struct Side {
    streams: Vec<TcpStream>,
    ways: Vec<Way>,
    lines: Vec<Line>,
}

impl Side {
    /// Adds a connection: the server's side of it, and the client's.
    fn add(&mut self, stream: TcpStream, line: Line) -> Result<(), AllocError> {
        let way = line.caller.way;
        self.lines.push(line)?;
        self.streams.push(stream)?;
        self.ways.push(way)?;
        Ok(())
    }
}

/// A connection: the client's side of it, and the server's.
fn connection<R: Net<Listener = TcpListener, Stream = TcpStream>>(
    rt: &R,
    listener: &TcpListener,
) -> io::Result<(TcpStream, TcpStream)> {
    let ours = TcpStream::connect(rt, listener.local_addr()?)?;
    let (theirs, _) = listener.accept()?;
    Ok((ours, theirs))
}

/// Connects a client.
fn connect<R: Net<Listener = TcpListener, Stream = TcpStream>>(
    rt: &R,
    listener: &TcpListener,
    caller: Caller,
    side: &mut Side,
) -> io::Result<()> {
    match connection(rt, listener) {
        Ok((stream, theirs)) => {
            side.add(theirs, Line { stream, caller })?;
            Ok(())
        }
        Err(why) => {
            drop(caller);
            Err(why)
        }
    }
}

/// Connects all of these clients.
fn connect_all<R: Net<Listener = TcpListener, Stream = TcpStream>>(
    rt: &R,
    listener: &TcpListener,
    callers: Vec<Caller>,
    side: &mut Side,
) -> io::Result<()> {
    for caller in callers {
        connect(rt, listener, caller, side)?;
    }
    Ok(())
}

/// Both sides of these clients' connections.
fn connect_side<R: Net<Listener = TcpListener, Stream = TcpStream>>(
    rt: &R,
    alloc: Global,
    listener: &TcpListener,
    callers: Vec<Caller>,
) -> io::Result<Side> {
    let mut side = Side {
        streams: Vec::new(alloc),
        ways: Vec::new(alloc),
        lines: Vec::new(alloc),
    };
    match connect_all(rt, listener, callers, &mut side) {
        Ok(()) => Ok(side),
        Err(why) => {
            drop(side);
            Err(why)
        }
    }
}

/// Both sides of the connections of the first replica's clients, and of the second one's.
fn connect_both<R: Net<Listener = TcpListener, Stream = TcpStream>>(
    rt: &R,
    alloc: Global,
    first: Vec<Caller>,
    second: Vec<Caller>,
) -> Option<(Side, Side)> {
    let Ok(listener) = TcpListener::bind(rt, "127.0.0.1:0") else {
        return None;
    };
    let Ok(side) = connect_side(rt, alloc, &listener, first) else {
        drop(second);
        return None;
    };
    let Ok(other_side) = connect_side(rt, alloc, &listener, second) else {
        drop(side);
        return None;
    };
    Some((side, other_side))
}

/// Gates of these kinds.
fn gates_of<'a>(
    alloc: Global,
    ways: &[Way],
    signs: &'a Signs,
) -> Result<Vec<ClientGate<'a>>, AllocError> {
    let mut gates = Vec::new(alloc);
    for way in ways {
        gates.push(ClientGate { way: *way, signs })?;
    }
    Ok(gates)
}

/// How long a lock is held.
#[derive(Drop)]
struct Hold {
    /// How many gates are reached before it is taken.
    called: u64,
    /// The number of clients that read everything before it is released; 0 if it isn't taken.
    until: u64,
    /// The number of turns after which the lock is released anyway.
    turns: u64,
}

/// Holds a lock once `called` gates were reached, until `until` clients read everything, and
/// returns how many had.
fn hold_lock<L: Ledger, R: Wait>(rt: &R, shared: &Shared<L>, signs: &Signs, hold: &Hold) -> u64 {
    if hold.until == 0 {
        return 0;
    }
    wait_for(rt, &signs.called, hold.called);
    let mut holder = LockHolder {
        signs,
        least: hold.until,
        turns: hold.turns,
        received: 0,
    };
    shared.hold(rt, &mut holder, 1);
    holder.received
}

/// The passes of one replica's connections, and what its clients read.
type Served<L> = Result<(Vec<Pass<L>>, Vec<Vec<u8>>), AllocError>;

/// Serves one replica's connections, while its clients call.
fn serve_side<L: Ledger + Send + Sync, R: Threads + Wait + Clock + Log + Sync>(
    rt: &R,
    alloc: Global,
    context: &ReplicaContext<'_, L>,
    first: &mut Pass<L>,
    signs: &Signs,
    side: Side,
) -> Served<L> {
    match gates_of(alloc, &side.ways, signs) {
        Ok(gates) => serve_through_gates(
            rt,
            alloc,
            context,
            first,
            signs,
            GatedSide { side, gates },
        ),
        Err(_) => {
            drop(side);
            Err(AllocError)
        }
    }
}

/// Connections, and the gates that they pass.
#[derive(Drop)]
struct GatedSide<'a> {
    side: Side,
    gates: Vec<ClientGate<'a>>,
}

/// Serves one replica's connections through their gates, while its clients call.
fn serve_through_gates<L: Ledger + Send + Sync, R: Threads + Wait + Clock + Log + Sync>(
    rt: &R,
    alloc: Global,
    context: &ReplicaContext<'_, L>,
    first: &mut Pass<L>,
    signs: &Signs,
    gated: GatedSide<'_>,
) -> Served<L> {
    let GatedSide { side, gates } = gated;
    let Side {
        streams,
        ways: _,
        lines,
    } = side;
    let (received, passes) = thread::join(
        rt,
        || thread::map_vec(rt, lines, &|line: Line| receive(rt, alloc, signs, line)),
        || serve_over(rt, alloc, context, first, streams, gates),
    );
    both_results(passes, received)
}

/// Both results; `Err` if memory ran out for one.
fn both_results<L: Ledger>(
    passes: Result<Vec<Pass<L>>, AllocError>,
    received: Result<Vec<Vec<u8>>, AllocError>,
) -> Served<L> {
    Ok((passes?, received?))
}

/// Two replicas, shared by the threads of their connections and clients.
#[derive(Drop)]
struct Setup<'a, L: Ledger, M: Ledger> {
    server: &'a ServerState<'a>,
    one: &'a Shared<L>,
    two: &'a Shared<M>,
    signs: &'a Signs,
    hold: &'a Hold,
}

/// Holds the first replica's lock.
fn hold_first_lock<L: Ledger, M: Ledger, R: Wait>(rt: &R, setup: &Setup<'_, L, M>) -> u64 {
    hold_lock(rt, setup.one, setup.signs, setup.hold)
}

/// Serves the first replica's connections.
fn serve_first<L: Ledger + Send + Sync, M: Ledger, R: Threads + Wait + Clock + Log + Sync>(
    rt: &R,
    alloc: Global,
    setup: &Setup<'_, L, M>,
    pass: &mut Pass<L>,
    side: Side,
) -> Served<L> {
    let Some(clients) = clients_of(alloc, 1) else {
        drop(side);
        return Err(AllocError);
    };
    let context = ReplicaContext {
        server: setup.server,
        own: 0,
        shared: setup.one,
        store: None,
        clients: &clients,
    };
    serve_side(rt, alloc, &context, pass, setup.signs, side)
}

/// Serves the second replica's connections.
fn serve_second<L: Ledger, M: Ledger + Send + Sync, R: Threads + Wait + Clock + Log + Sync>(
    rt: &R,
    alloc: Global,
    setup: &Setup<'_, L, M>,
    pass: &mut Pass<M>,
    side: Side,
) -> Served<M> {
    let Some(clients) = clients_of(alloc, 2) else {
        drop(side);
        return Err(AllocError);
    };
    let context = ReplicaContext {
        server: setup.server,
        own: 0,
        shared: setup.two,
        store: None,
        clients: &clients,
    };
    serve_side(rt, alloc, &context, pass, setup.signs, side)
}

/// The clients of the replica with this number.
fn clients_of(alloc: Global, number: u32) -> Option<ReplicaClients> {
    Some(ReplicaClients::new(alloc, ReplicaId::new(number)?))
}

/// Serves both replicas' connections, each in a thread.
fn serve_both<
    L: Ledger + Send + Sync,
    M: Ledger + Send + Sync,
    R: Threads + Wait + Clock + Log + Sync,
>(
    rt: &R,
    alloc: Global,
    setup: &Setup<'_, L, M>,
    near: &mut Pass<L>,
    far: &mut Pass<M>,
    sides: (Side, Side),
) -> (Served<L>, Served<M>) {
    let (side, other_side) = sides;
    thread::join(
        rt,
        || serve_first(rt, alloc, setup, near, side),
        || serve_second(rt, alloc, setup, far, other_side),
    )
}

/// Serves both replicas' connections, while the first one's lock is held.
fn serve_while_held<
    L: Ledger + Send + Sync,
    M: Ledger + Send + Sync,
    R: Threads + Wait + Clock + Log + Sync,
>(
    rt: &R,
    alloc: Global,
    setup: &Setup<'_, L, M>,
    near: &mut Pass<L>,
    far: &mut Pass<M>,
    sides: (Side, Side),
) -> (u64, (Served<L>, Served<M>)) {
    thread::join(
        rt,
        || hold_first_lock(rt, setup),
        || serve_both(rt, alloc, setup, near, far, sides),
    )
}

/// Serves both replicas' connections as `serve_while_held` does, and owns the context meanwhile.
fn serve_owned<
    L: Ledger + Send + Sync,
    M: Ledger + Send + Sync,
    R: Threads + Wait + Clock + Log + Sync,
>(
    rt: &R,
    alloc: Global,
    setup: Setup<'_, L, M>,
    near: &mut Pass<L>,
    far: &mut Pass<M>,
    sides: (Side, Side),
) -> (u64, (Served<L>, Served<M>)) {
    serve_while_held(rt, alloc, &setup, near, far, sides)
}

/// How many calls the journal counts; 0 if a pass is missing.
fn entries_of<L: Ledger>(
    shared: Shared<L>,
    first: Pass<L>,
    passes: Vec<Pass<L>>,
) -> Result<u64, AllocError>
    requires { L.parts ≡ 4294967295 }
{
    let mut passes = passes;
    if passes.push(first).is_err() {
        drop(passes);
        drop(shared);
        return Err(AllocError);
    }
    match shared.finish(passes) {
        Ok(book) => Ok(book.len()),
        Err(_) => Ok(0),
    }
}

/// The result of one replica.
#[derive(Drop)]
struct ReplicaResult {
    /// What its clients read, in their order.
    received: Vec<Vec<u8>>,
    /// How many calls its journal counts.
    entries: u64,
}

/// The result of a replica that was served.
fn replica_result<L: Ledger>(
    shared: Shared<L>,
    first: Pass<L>,
    served: Served<L>,
) -> Option<ReplicaResult>
    requires { L.parts ≡ 4294967295 }
{
    let Ok((passes, received)) = served else {
        drop(first);
        drop(shared);
        return None;
    };
    match entries_of(shared, first, passes) {
        Ok(entries) => Some(ReplicaResult { received, entries }),
        Err(_) => {
            drop(received);
            None
        }
    }
}

/// The result of both replicas; `None` if one has none.
fn outcome_of(
    received: u64,
    signs: &Signs,
    first: Option<ReplicaResult>,
    second: Option<ReplicaResult>,
) -> Option<Outcome> {
    let first = first?;
    let second = second?;
    Some(Outcome {
        first: first.received,
        second: second.received,
        received,
        satisfied: signs.satisfied.load(Ordering::SeqCst),
        numbers: signs.numbers.load(Ordering::SeqCst),
        entries: (first.entries, second.entries),
    })
}

/// The state of a server without clients, stores and links of its own.
fn state_of(alloc: Global) -> ServerState<'static> {
    ServerState {
        access: Access::Preauth,
        limits: ClientLimits::STANDARD,
        replicas: Vec::new(alloc),
        joining: JoiningReplicas::new(Vec::new(alloc)),
        journal: None,
        store: None,
        links: None,
        rev1: Vec::new(alloc),
        stop: StopCounter::after(None),
    }
}

fn played<L: Ledger + Send + Sync, M: Ledger + Send + Sync, R: Threads + Wait + Clock + Log + Sync>(
    rt: &R,
    alloc: Global,
    server: &ServerState<'_>,
    blanks: (Blank, Blank),
    books: (Book, Book),
    sides: (Side, Side),
    hold: &Hold,
) -> Option<Outcome>
    requires one { (blanks.0.name ≡ L.name) × (blanks.0.parts ≡ L.parts) × (L.parts ≡ 4294967295) }
    requires two { (blanks.1.name ≡ M.name) × (blanks.1.parts ≡ M.parts) × (M.parts ≡ 4294967295) }
{
    let (one, mut near) = Shared::<L>::new(blanks.0, books.0);
    let (two, mut far) = Shared::<M>::new(blanks.1, books.1);
    let signs = Signs::new();
    let (received, (served, other_served)) = serve_owned(
        rt,
        alloc,
        Setup {
            server,
            one: &one,
            two: &two,
            signs: &signs,
            hold,
        },
        &mut near,
        &mut far,
        sides,
    );
    let first = replica_result(one, near, served);
    let second = replica_result(two, far, other_served);
    outcome_of(received, &signs, first, second)
}

/// Serves the clients of a plan at two new replicas; `None` if that fails.
pub fn play<
    R: Threads + Wait + Clock + Log + Sync + Net<Listener = TcpListener, Stream = TcpStream>,
>(rt: &R, alloc: Global, plan: Plan) -> Option<Outcome> {
    let Plan {
        first,
        second,
        is_full,
        called,
        until,
        turns,
    } = plan;
    let hold = Hold {
        called,
        until,
        turns,
    };
    let sides = connect_both(rt, alloc, first, second)?;
    let Some(books) = fresh_books(alloc, is_full) else {
        drop(sides);
        return None;
    };
    let whole = 4_294_967_295;
    let state = state_of(alloc);
    played::<Brand, Brand, R>(
        rt,
        alloc,
        &state,
        (Blank::new(whole), Blank::new(whole)),
        books,
        sides,
        &hold,
    )
}
