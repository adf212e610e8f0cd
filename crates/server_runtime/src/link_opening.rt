//! The links of a process, from its command line.

use crate::program::RunFault;
use link_runtime::{LinkPeer, LinkSetup, Links, read_secret};
use log::{Log, error};
use server_settings::{CommandLine, LinkWords, Place, bind_listener};
use std::alloc::Global;
use std::fs::File;
use std::io;
use std::net::{Net, TcpListener, TcpStream};
use std::random::RandomSource;
use std::rt::{Clock, Files};
use tags_clocks::ReplicaId;

/// The secret of the file that the command line names; no octets if it names no links. If the file
/// has no secret, prints so and returns the program's status.
pub fn read_link_secret<R: Print + Files<File = File>>(
    rt: &R,
    alloc: Global,
    words: Option<&LinkWords<'_>>,
) -> Result<Vec<u8>, u8> {
    let Some(words) = words else {
        return Ok(Vec::new(alloc));
    };
    match read_secret(rt, alloc, words.secret_file) {
        Some(secret) => Ok(secret),
        None => {
            let _ = println!(rt; "cannot read secret {}", words.secret_file);
            Err(1)
        }
    }
}

/// The links that the command line names, if any: listens for them, and prints that it does.
pub fn open_links<
    'a,
    R: Print + Log + Clock + RandomSource + Net<Listener = TcpListener, Stream = TcpStream>,
>(
    rt: &R,
    alloc: Global,
    settings: &CommandLine<'a>,
    secret: Vec<u8>,
) -> Result<Option<Links<'a>>, RunFault> {
    let Some(words) = &settings.links else {
        drop(secret);
        return Ok(None);
    };
    let first = settings.places.first().ok_or(RunFault::UnknownReplica)?;
    let own = replica_of(first.replica)?;
    let peers = link_peers(alloc, &words.peers)?;
    let listener = listen_for_links(rt, words.listen)?;
    let (run, seed) = draw(rt)?;
    let setup = LinkSetup {
        own,
        run,
        seed,
        secret,
        listener,
        peers,
    };
    Ok(Some(Links::new(rt, alloc, setup)))
}

fn replica_of(name: u16) -> Result<ReplicaId, RunFault> {
    ReplicaId::new(u32::from(name)).ok_or(RunFault::UnknownReplica)
}

/// The processes to which links are opened.
fn link_peers<'a>(alloc: Global, places: &[Place<'a>]) -> Result<Vec<LinkPeer<'a>>, RunFault> {
    let mut peers = Vec::new(alloc);
    for place in places {
        let peer = LinkPeer {
            name: replica_of(place.replica)?,
            address: place.address,
        };
        if peers.push(peer).is_err() {
            return Err(RunFault::NoMemory);
        }
    }
    Ok(peers)
}

/// Listens for links at this address, if there is one, and prints that it does.
fn listen_for_links<R: Print + Log + Net<Listener = TcpListener, Stream = TcpStream>>(
    rt: &R,
    address: Option<&str>,
) -> Result<Option<TcpListener>, RunFault> {
    let Some(address) = address else {
        return Ok(None);
    };
    match bind_listener(rt, address) {
        Ok(listener) => {
            println!(rt; "link listening {address}")?;
            Ok(Some(listener))
        }
        Err(why) => {
            error!(rt; "cannot listen for links at {address}: {why}");
            println!(rt; "cannot listen link {address}")?;
            Err(RunFault::CannotListen)
        }
    }
}

/// What a process draws when it starts: the octets that it says, and those that it doesn't.
fn draw<R: RandomSource>(rt: &R) -> io::Result<([u8; 16], [u8; 32])> {
    let mut run = [0; 16];
    let mut seed = [0; 32];
    rt.fill_bytes(&mut run)?;
    rt.fill_bytes(&mut seed)?;
    Ok((run, seed))
}
