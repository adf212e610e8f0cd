//! The program: from its command line to its status.

use crate::joining_replica::JoiningReplica;
use crate::link_opening::{open_links, read_link_secret};
use crate::pass_file::{pass_of, read_octets};
use crate::replica_end::ReplicaEnd;
use crate::replica_handle::{CopyRequest, JoinSignal, JoiningReplicas, ReplicaHandle};
use crate::replica_threads::{ReplicaSetup, StartMode, serve};
use crate::restoring::{RestoredReplica, UnrestoredReplica, restore_all};
use crate::server_state::{Rev1Listener, ServerState, StopCounter};
use crossbeam_channel::{Receiver, Sender, unbounded};
use durable_log::DurableLog;
use log::{Log, error};
use log_files::{FileDevice, FolderFault, StoreFolder};
use replica_links::PeerMsg;
use replica_lock::Book;
use server_settings::{
    Access, CommandLine, GivenAccess, Join, Place, listen_at, listen_for_rev1_at, print_fault,
    settings_or_status,
};
use std::alloc::{AllocError, AllocFailed, Global};
use std::fs::File;
use std::net::{Net, SocketAddr, TcpListener, TcpStream};
use std::random::RandomSource;
use std::rt::{Clock, Env, Files};
use std::sync::{Mutex, Wait};
use std::thread::Threads;
use std::{env, io};
use tags_clocks::ReplicaId;

/// The size, in octets, of the block that raises the C library's thresholds: 1 MiB, more than the
/// answers of a FETCH of 1,000 messages take.
const LARGEST_BLOCK: usize = 1 << 20;

/// Why the server can't run. The log prints its text.
#[derive(Debug, Drop, thiserror::Error)]
pub enum RunFault {
    /// An address can't be listened at. This was printed already.
    #[error("an address can't be listened at")]
    CannotListen,
    /// The replicas can't be restored. Why was printed already.
    #[error("the replicas can't be restored")]
    CannotRestore,
    /// Memory ran out.
    #[error("there is no memory for it")]
    NoMemory,
    /// A listener's address or the standard output failed.
    #[error("{0}")]
    Device(io::Error),
    /// A replica has no number, or its peer isn't among the replicas.
    #[error("a replica has no number or no peer")]
    UnknownReplica,
    /// A replica that ran didn't return its journal.
    #[error("a replica's journal was not handed out")]
    Unfinished,
}

impl From<AllocError> for RunFault {
    fn from(_none: AllocError) -> RunFault {
        RunFault::NoMemory
    }
}

impl<T: Drop> From<AllocFailed<T>> for RunFault {
    fn from(_none: AllocFailed<T>) -> RunFault {
        RunFault::NoMemory
    }
}

impl From<io::Error> for RunFault {
    fn from(why: io::Error) -> RunFault {
        RunFault::Device(why)
    }
}

/// Reads the command line, runs the server, and returns the program's status: 0 if the server
/// stopped or help was asked for, 1 if it can't run, 2 if the words are wrong.
pub fn run<
    R: Env
        + Print
        + AllocGlobal
        + Threads
        + Wait
        + Clock
        + Log
        + Sync
        + RandomSource
        + Files<File = File>
        + Net<Listener = TcpListener, Stream = TcpStream>,
>(rt: &R) -> u8 {
    match words(rt) {
        Ok(words) => run_words(rt, &words),
        Err(_) => print_fault(rt),
    }
}

fn words<R: Env + AllocGlobal>(rt: &R) -> io::Result<Vec<String>> {
    let words = env::args(rt)?.collect(rt.alloc())?;
    Ok(words)
}

fn run_words<
    R: Print
        + AllocGlobal
        + Threads
        + Wait
        + Clock
        + Log
        + Sync
        + RandomSource
        + Files<File = File>
        + Net<Listener = TcpListener, Stream = TcpStream>,
>(rt: &R, words: &[String]) -> u8 {
    let settings = match settings_or_status(rt, words) {
        Ok(settings) => settings,
        Err(status) => return status,
    };
    let file = match read_pass_file(rt, rt.alloc(), settings.access) {
        Ok(file) => file,
        Err(status) => return status,
    };
    let pass = pass_of(&file).unwrap_or("");
    let secret = match read_link_secret(rt, rt.alloc(), settings.links.as_ref()) {
        Ok(secret) => secret,
        Err(status) => return status,
    };
    let access = settings.access.with_pass(pass);
    match run_as(rt, rt.alloc(), &settings, access, secret) {
        Ok(()) => 0,
        Err(RunFault::CannotListen | RunFault::CannotRestore) => 1,
        Err(why) => {
            error!(rt; "the server can't run: {why}");
            print_fault(rt)
        }
    }
}

/// The first octets of the file that has the password; none if the command line names no file. If
/// the file gives no password, prints so and returns the program's status.
fn read_pass_file<R: Print + Files<File = File>>(
    rt: &R,
    alloc: Global,
    access: GivenAccess<'_>,
) -> Result<Vec<u8>, u8> {
    let GivenAccess::PassFile { user: _, path } = access else {
        return Ok(Vec::new(alloc));
    };
    match read_octets(rt, alloc, path) {
        Ok(octets) if pass_of(&octets).is_some() => Ok(octets),
        _ => {
            let _ = println!(rt; "cannot read pass {path}");
            Err(1)
        }
    }
}

/// Listens at the addresses, in their order, and serves until the server stops.
fn run_as<
    R: Print
        + AllocGlobal
        + Threads
        + Wait
        + Clock
        + Log
        + Sync
        + RandomSource
        + Files<File = File>
        + Net<Listener = TcpListener, Stream = TcpStream>,
>(
    rt: &R,
    alloc: Global,
    settings: &CommandLine<'_>,
    access: Access<'_>,
    secret: Vec<u8>,
) -> Result<(), RunFault> {
    let (mut server, setups) = open_all(rt, alloc, settings, access)?;
    server.rev1 = listen_for_rev1(rt, alloc, settings)?;
    server.links = open_links(rt, alloc, settings, secret)?;
    raise_memory_thresholds(alloc);
    if settings.stop_after != Some(0) && !are_whole(serve(rt, alloc, &server, setups)) {
        return Err(RunFault::Unfinished);
    }
    println!(rt; "stopped")?;
    Ok(())
}

/// Whether each replica that ran returned its whole journal.
fn are_whole(ends: Option<Vec<ReplicaEnd>>) -> bool {
    match ends {
        Some(ends) => ends.iter().all(ReplicaEnd::is_whole),
        None => false,
    }
}

/// Allocates a large block of memory and frees it. The C library then takes blocks of up to its
/// size from memory that it owns, and returns memory to the system only if twice as much of it is
/// unused (mallopt(3): both thresholds follow the largest block that was freed, up to 32 MiB).
/// Otherwise each FETCH of many messages would pay again for the pages of its answers. If memory
/// runs out for the block, the server runs without it.
fn raise_memory_thresholds(alloc: Global) {
    if let Ok(block) = Vec::<u8>::with_capacity(alloc, LARGEST_BLOCK) {
        drop(block);
    }
}

/// The replicas for which the server listens, or which are to join, so far.
#[derive(Drop)]
struct Opened<'a> {
    /// How the others reach each replica.
    replicas: Vec<ReplicaHandle>,
    /// Each replica's setup.
    parts: Vec<ReplicaSetup<'a>>,
    /// The signals for the replicas that are to join.
    signals: Vec<JoinSignal>,
    /// The folder of the replicas' logs.
    store: Option<StoreFolder>,
}

/// Listens at the addresses, in their order. Returns the state that the server's threads will
/// share, and the replicas' setups. An error drops the listeners that were made.
pub fn open_all<
    'a,
    R: Print + Log + Files<File = File> + Net<Listener = TcpListener, Stream = TcpStream>,
>(
    rt: &R,
    alloc: Global,
    settings: &CommandLine<'a>,
    access: Access<'a>,
) -> Result<(ServerState<'a>, Vec<ReplicaSetup<'a>>), RunFault> {
    let mut opened = Opened {
        replicas: Vec::new(alloc),
        parts: Vec::new(alloc),
        signals: Vec::new(alloc),
        store: None,
    };
    if let Err(fault) = open_each(rt, alloc, settings, &mut opened) {
        drop(opened);
        return Err(fault);
    }
    let Opened {
        replicas: handles,
        parts,
        signals,
        store,
    } = opened;
    let server = ServerState {
        access,
        limits: settings.limits,
        replicas: handles,
        joining: JoiningReplicas::new(signals),
        journal: settings.journal,
        store,
        links: None,
        rev1: Vec::new(alloc),
        stop: StopCounter::after(settings.stop_after),
    };
    Ok((server, parts))
}

fn open_each<
    'a,
    R: Print + Log + Files<File = File> + Net<Listener = TcpListener, Stream = TcpStream>,
>(
    rt: &R,
    alloc: Global,
    settings: &CommandLine<'a>,
    opened: &mut Opened<'a>,
) -> Result<(), RunFault> {
    let mut restored = Vec::new(alloc);
    if let Some(path) = settings.store {
        restored = restore(rt, alloc, settings, path, opened)?;
    }
    for place in settings.places.iter() {
        let restored = take_restored(place.replica, &mut restored);
        open_place(rt, alloc, place, restored, opened)?;
    }
    for join in settings.joins.iter() {
        let restored = take_restored(join.place.replica, &mut restored);
        open_join(rt, alloc, settings, join, restored, opened)?;
    }
    Ok(())
}

/// Adds a replica that is to join. If its log has operations, it joined before, and listens.
fn open_join<'a, R: Print + Log + Net<Listener = TcpListener, Stream = TcpStream>>(
    rt: &R,
    alloc: Global,
    settings: &CommandLine<'a>,
    join: &Join<'a>,
    restored: Option<RestoredReplica>,
    opened: &mut Opened<'a>,
) -> Result<(), RunFault> {
    let Some(restored) = restored else {
        return await_join(alloc, settings, join, None, opened);
    };
    if restored.book.op_count() > 0 {
        return open_place(rt, alloc, &join.place, Some(restored), opened);
    }
    let RestoredReplica {
        replica: _,
        book,
        log,
    } = restored;
    drop(book);
    await_join(alloc, settings, join, Some(log), opened)
}

/// Opens the folder of the logs, and restores the replicas from them. If that isn't possible,
/// prints why.
fn restore<R: Print + Files<File = File>>(
    rt: &R,
    alloc: Global,
    settings: &CommandLine<'_>,
    path: &str,
    opened: &mut Opened<'_>,
) -> Result<Vec<RestoredReplica>, RunFault> {
    let restored = match StoreFolder::open(rt, alloc, path) {
        Ok(folder) => {
            let restored = restore_all(rt, alloc, &folder, settings);
            opened.store = Some(folder);
            restored
        }
        Err(FolderFault::InUse) => {
            println!(rt; "{}", FolderFault::InUse)?;
            return Err(RunFault::CannotRestore);
        }
        Err(fault) => Err(without_folder(settings, fault)?),
    };
    match restored {
        Ok(restored) => Ok(restored),
        Err(unrestored) => {
            println!(rt; "{unrestored}")?;
            Err(RunFault::CannotRestore)
        }
    }
}

/// The first replica, which isn't restored since the folder of the logs can't be used.
fn without_folder(
    settings: &CommandLine<'_>,
    fault: FolderFault,
) -> Result<UnrestoredReplica, RunFault> {
    let first = settings.places.first().ok_or(RunFault::UnknownReplica)?;
    let replica = ReplicaId::new(u32::from(first.replica)).ok_or(RunFault::UnknownReplica)?;
    Ok(UnrestoredReplica::of_folder(replica, fault))
}

/// Takes out the restored replica with this name, if there is one.
fn take_restored(name: u16, restored: &mut Vec<RestoredReplica>) -> Option<RestoredReplica> {
    let place = restored
        .iter()
        .position(|restored| restored.replica.get() == u32::from(name))?;
    Some(restored.swap_remove(place))
}

/// Prints how many operations a replica was restored with, if it was; listens at its address,
/// prints that it does, and adds the replica.
fn open_place<R: Print + Log + Net<Listener = TcpListener, Stream = TcpStream>>(
    rt: &R,
    alloc: Global,
    place: &Place<'_>,
    restored: Option<RestoredReplica>,
    opened: &mut Opened<'_>,
) -> Result<(), RunFault> {
    if let Some(restored) = &restored {
        println!(rt; "restored {} {}", place.replica, restored.book.op_count())?;
    }
    let Some((listener, address)) = listen_at(rt, place)? else {
        drop(restored);
        return Err(RunFault::CannotListen);
    };
    let (start_mode, book) = match restored {
        Some(restored) => {
            let RestoredReplica {
                replica: _,
                book,
                log,
            } = restored;
            (StartMode::Restored(listener, log), Some(book))
        }
        None => (StartMode::Listening(listener), None),
    };
    add_setup(
        alloc,
        place.replica,
        start_mode,
        book,
        Some(address),
        opened,
    )
}

/// Listens for clients that speak IMAP4rev1 where the command line names, and prints that it does.
fn listen_for_rev1<R: Print + Log + Net<Listener = TcpListener, Stream = TcpStream>>(
    rt: &R,
    alloc: Global,
    settings: &CommandLine<'_>,
) -> Result<Vec<Rev1Listener>, RunFault> {
    let mut listeners = Vec::new(alloc);
    for place in settings.rev1.iter() {
        let own = settings
            .place_of_name(place.replica)
            .ok_or(RunFault::UnknownReplica)?;
        let Some((listener, address)) = listen_for_rev1_at(rt, place)? else {
            return Err(RunFault::CannotListen);
        };
        listeners.push(Rev1Listener {
            own,
            listener,
            address,
        })?;
    }
    Ok(listeners)
}

/// Adds a replica that is to join, with its signals, and its log if the server has a store.
fn await_join<'a>(
    alloc: Global,
    settings: &CommandLine<'a>,
    join: &Join<'a>,
    log: Option<DurableLog<FileDevice>>,
    opened: &mut Opened<'a>,
) -> Result<(), RunFault> {
    let Some(peer) = settings.place_of_name(join.peer) else {
        drop(log);
        return Err(RunFault::UnknownReplica);
    };
    let (begin, done) = match add_join_signal(alloc, &mut opened.signals) {
        Ok(ends) => ends,
        Err(fault) => {
            drop(log);
            return Err(fault);
        }
    };
    let joiner = JoiningReplica {
        join: *join,
        peer,
        begin,
        done,
        log: Mutex::new(log),
    };
    let start_mode = StartMode::Joining(joiner);
    add_setup(alloc, join.place.replica, start_mode, None, None, opened)
}

/// Adds the signals for a replica that is to join, and returns the replica's sides of them.
fn add_join_signal(
    alloc: Global,
    signals: &mut Vec<JoinSignal>,
) -> Result<(Receiver<()>, Sender<()>), RunFault> {
    let (begin, begins) = unbounded(alloc)?;
    let (ends, done) = unbounded(alloc)?;
    signals.push(JoinSignal { begin, done })?;
    Ok((begins, ends))
}

/// Adds one replica's setup, with its place among all.
fn add_setup<'a>(
    alloc: Global,
    name: u16,
    start_mode: StartMode<'a>,
    book: Option<Book>,
    address: Option<SocketAddr>,
    opened: &mut Opened<'a>,
) -> Result<(), RunFault> {
    let Some(replica) = ReplicaId::new(u32::from(name)) else {
        drop(start_mode);
        drop(book);
        return Err(RunFault::UnknownReplica);
    };
    let own = opened.replicas.len();
    let (messages, copy_requests) = match add_replica(alloc, address, &mut opened.replicas) {
        Ok(ends) => ends,
        Err(fault) => {
            drop(start_mode);
            drop(book);
            return Err(fault);
        }
    };
    let part = ReplicaSetup {
        replica,
        own,
        messages,
        copy_requests,
        start_mode,
        book,
    };
    opened.parts.push(part)?;
    Ok(())
}

/// Adds a replica's handle, and returns the receivers of what others send by it.
fn add_replica(
    alloc: Global,
    address: Option<SocketAddr>,
    handles: &mut Vec<ReplicaHandle>,
) -> Result<(Receiver<PeerMsg>, Receiver<CopyRequest>), RunFault> {
    let (link, messages) = unbounded(alloc)?;
    let (copy_requests, copies) = unbounded(alloc)?;
    handles.push(ReplicaHandle {
        link,
        copy_requests,
        address: Mutex::new(address),
        send_lock: Mutex::new(()),
    })?;
    Ok((messages, copies))
}
