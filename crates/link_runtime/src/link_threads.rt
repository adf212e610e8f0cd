//! The threads of a process's links.

ghost use Rattle.std.specs.Prelude.{◌≡◌};
ghost use Rattle.link_runtime.specs.LinkTables.{entry_of};

use crate::back_off::BackOff;
use crate::connection::LinkConnection;
use crate::handshake::{LinkKeys, OwnEnd, ProvedPeer, accept_peer, dial_peer, send_refusal};
use crate::handshake_fault::HandshakeFault;
use crate::link_receiver::LinkReceiver;
use crate::link_replica::LinkReplica;
use crate::link_socket::{BeginReader, limit_silence, prepare, take_leave};
use crate::link_table::LinkEntry;
use crate::link_writer::write_link;
use crate::links::{LinkPeer, Links};
use crate::live_link::{LinkContext, LiveLink};
use crate::peer_news::LinkEnding;
use crate::reasons::{ending_of, log_text};
use imap_connection::{Sink, Wire};
use imap_types::Octets;
use link_connection::receive;
use link_wire::{
    ByeReason, FrameWriter, Hello, Limits, Side, WireMessage, WriteFault, write_message,
};
use log::{Log, info};
use std::alloc::Global;
use std::net::{Net, SocketAddr, TcpListener, TcpStream, ToSocketAddrs};
use std::rt::Clock;
use std::sync::{Arc, Wait};
use std::thread;
use std::thread::Threads;
use std::time::Duration;
use tags_clocks::ReplicaId;

/// How long opening a connection may take, in seconds.
const CONNECT_TIME: u64 = 10;

/// How long a dialer waits while its peer is linked by another connection, in milliseconds.
const LINKED_TIME: u64 = 1_000;

/// How long the acceptor waits after the system refused it a connection, in milliseconds.
const ACCEPT_PAUSE: u64 = 100;

/// Begins and serves the links of a process until they are stopped.
pub fn serve_links<
    R: Threads
        + Wait
        + Clock
        + Log
        + Print
        + Sync
        + Net<Listener = TcpListener, Stream = TcpStream>,
    P: LinkReplica + Sync,
>(rt: &R, alloc: Global, context: &LinkContext<'_, P>) {
    let _ = context.links.have(rt, alloc, context.replica);
    thread::scope(thread::scope_env(), rt, |scope| {
        for place in 0..context.links.setup.peers.len() {
            let _ = scope.spawn(move || dial_at(rt, alloc, context, place));
        }
        accept_all(rt, alloc, context);
    })
}

/// Accepts connections until the links are stopped, and serves each in a thread of its own.
fn accept_all<
    R: Threads
        + Wait
        + Clock
        + Log
        + Print
        + Sync
        + Net<Listener = TcpListener, Stream = TcpStream>,
    P: LinkReplica + Sync,
>(rt: &R, alloc: Global, context: &LinkContext<'_, P>) {
    let links = context.links;
    let Some(listener) = &links.setup.listener else {
        return;
    };
    thread::scope(thread::scope_env(), rt, |scope| {
        for stream in listener.incoming() {
            if links.is_stopped(rt) {
                break;
            }
            let Ok(stream) = stream else {
                thread::sleep(rt, Duration::from_millis(ACCEPT_PAUSE));
                continue;
            };
            if !add_stream(rt, alloc, links, stream) {
                continue;
            }
            if scope
                .spawn(move || serve_accepted(rt, alloc, context))
                .is_err()
            {
                drop_accepted(rt, links);
            }
        }
    })
}

/// Adds an accepted connection to those that wait for a thread. False if memory runs out.
fn add_stream<R: Wait>(rt: &R, alloc: Global, links: &Links<'_>, stream: TcpStream) -> bool {
    match links.connection(rt, alloc, stream) {
        Some(connection) => links.add_accepted(rt, connection),
        None => false,
    }
}

/// Closes one of the connections that wait for a thread, since none can be made.
fn drop_accepted<R: Wait>(rt: &R, links: &Links<'_>) {
    if let Some(connection) = links.take_accepted(rt) {
        links.remove_unproved(rt, connection.number);
        drop(connection);
    }
}

/// Begins a link over one of the connections that wait for a thread, and serves it.
fn serve_accepted<R: Threads + Wait + Clock + Log + Print + Sync, P: LinkReplica + Sync>(
    rt: &R,
    alloc: Global,
    context: &LinkContext<'_, P>,
) {
    let links = context.links;
    let Some(connection) = links.take_accepted(rt) else {
        return;
    };
    let begun = begin_accepted(rt, alloc, links, &connection.stream);
    links.remove_unproved(rt, connection.number);
    match begun {
        Ok(proved) => {
            let _ = serve_link(rt, alloc, context, &connection, proved, Side::Acceptor);
        }
        Err(fault) => log_accept_fault(rt, links, &connection.stream, fault),
    }
}

/// Begins a link as the end to which the connection was opened.
fn begin_accepted<R: Wait + Clock>(
    rt: &R,
    alloc: Global,
    links: &Links<'_>,
    stream: &TcpStream,
) -> Result<ProvedPeer, HandshakeFault> {
    prepare(stream);
    let own = own_end(rt, links);
    let mut source = Wire::new(BeginReader::new(rt, links, stream));
    let mut sink = Wire::new(stream);
    let begun = accept_peer(alloc, &links.setup.secret, &own, &mut source, &mut sink);
    if let Err(HandshakeFault::Refused(reason)) = &begun {
        refuse(alloc, *reason, &mut sink);
    }
    begun
}

/// Tells a peer why no link is begun, if it still takes octets.
fn refuse(alloc: Global, reason: ByeReason, sink: &mut Wire<&TcpStream>) {
    if sink.failures() == 0 {
        send_refusal(alloc, reason, sink);
    }
}

/// What this end says of itself on the next connection.
fn own_end<R: Wait>(rt: &R, links: &Links<'_>) -> OwnEnd {
    OwnEnd {
        name: links.setup.own,
        run: links.setup.run,
        nonce: links.draw(rt),
    }
}

/// Opens connections to the peer at this place, one after another, and serves the links, until the
/// links are stopped or the peer isn't to be linked any more.
fn dial_at<
    R: Threads
        + Wait
        + Clock
        + Log
        + Print
        + Sync
        + Net<Listener = TcpListener, Stream = TcpStream>,
    P: LinkReplica + Sync,
>(rt: &R, alloc: Global, context: &LinkContext<'_, P>, place: usize) {
    let links = context.links;
    let Some(peer) = links.setup.peers.get(place) else {
        return;
    };
    let mut back_off = BackOff::new();
    for _ in rt.forever() {
        let seen = links.signal.count(rt);
        if links.is_stopped(rt) || links.is_refused(rt, peer.name) {
            return;
        }
        if links.is_linked(rt, peer.name) {
            links.signal.wait(rt, seen, LINKED_TIME);
            continue;
        }
        if dial(rt, alloc, context, peer) {
            back_off = BackOff::new();
        }
        let wait = back_off.next(links.draw(rt)[0]);
        wait_stopped(rt, links, wait);
    }
}

/// Waits so many milliseconds, or until the links are stopped.
fn wait_stopped<R: Wait + Clock>(rt: &R, links: &Links<'_>, time: u64) {
    let until = links.now(rt).saturating_add(time);
    for _ in rt.forever() {
        let seen = links.signal.count(rt);
        let left = until.saturating_sub(links.now(rt));
        if left == 0 || links.is_stopped(rt) {
            return;
        }
        links.signal.wait(rt, seen, left);
    }
}

/// Opens a connection to a peer, and serves the link to its end. False if none was begun, or if one
/// end ended it for a reason.
fn dial<
    R: Threads
        + Wait
        + Clock
        + Log
        + Print
        + Sync
        + Net<Listener = TcpListener, Stream = TcpStream>,
    P: LinkReplica + Sync,
>(rt: &R, alloc: Global, context: &LinkContext<'_, P>, peer: &LinkPeer<'_>) -> bool {
    let links = context.links;
    let Some(stream) = connect(rt, peer.address) else {
        return false;
    };
    let Some(connection) = links.connection(rt, alloc, stream) else {
        return false;
    };
    match begin_dialed(rt, alloc, links, &connection.stream, peer.name) {
        Ok(proved) => serve_link(rt, alloc, context, &connection, proved, Side::Dialer),
        Err(fault) => {
            log_dial_fault(rt, links, peer.name, fault);
            false
        }
    }
}

/// A connection to an address, if one of those that its host has answers in time.
fn connect<R: Net<Listener = TcpListener, Stream = TcpStream>>(
    rt: &R,
    address: &str,
) -> Option<TcpStream> {
    let addresses = address.to_socket_addrs(rt).ok()?;
    for address in addresses {
        let time = Duration::from_secs(CONNECT_TIME);
        if let Ok(stream) = TcpStream::connect_timeout(rt, &address, time) {
            return Some(stream);
        }
    }
    None
}

/// Begins a link as the end that opened the connection.
fn begin_dialed<R: Wait + Clock>(
    rt: &R,
    alloc: Global,
    links: &Links<'_>,
    stream: &TcpStream,
    peer: ReplicaId,
) -> Result<ProvedPeer, HandshakeFault> {
    prepare(stream);
    let own = own_end(rt, links);
    let mut source = Wire::new(BeginReader::new(rt, links, stream));
    let mut sink = Wire::new(stream);
    let begun = dial_peer(
        alloc,
        &links.setup.secret,
        &own,
        peer,
        &mut source,
        &mut sink,
    );
    if let Err(HandshakeFault::Refused(reason)) = &begun {
        refuse(alloc, *reason, &mut sink);
    }
    begun
}

/// Serves a link to its end, if its connection may be one; `side` is this end's. False if it may
/// not, or if one end ended it for a reason.
fn serve_link<R: Threads + Wait + Clock + Log + Print + Sync, P: LinkReplica + Sync>(
    rt: &R,
    alloc: Global,
    context: &LinkContext<'_, P>,
    connection: &Arc<LinkConnection>,
    proved: ProvedPeer,
    side: Side,
) -> bool {
    let ProvedPeer { begun, hello, keys } = proved;
    let links = context.links;
    let peer = hello.own;
    let entry = entry_of(connection.number, &hello, links.setup.own, side);
    if let Err(reason) = links.admit(rt, &entry, connection) {
        refuse_link(rt, alloc, links, connection, keys.written, &reason);
        log_link(rt, links, peer, "refused: ", log_text(&reason));
        return false;
    }
    log_link(rt, links, peer, "begun", "");
    let ending = converse_over(rt, alloc, context, connection, peer, keys, begun);
    links.remove(rt, connection.number);
    note_ending(rt, links, peer, ending);
    ending == LinkEnding::Broken
}

/// The entry of a connection among the links.
fn entry_of(number: u64, hello: &Hello, own: ReplicaId, side: Side) -> LinkEntry
    ensures { result ≡ entry_of number hello.now own side }
{
    LinkEntry {
        number,
        peer: hello.own,
        run: hello.run,
        dialer: match side {
            Side::Dialer => own,
            Side::Acceptor => hello.own,
        },
    }
}

/// Serves a link over a connection to its end; returns how it ended.
fn converse_over<R: Threads + Wait + Clock + Log + Sync, P: LinkReplica + Sync>(
    rt: &R,
    alloc: Global,
    context: &LinkContext<'_, P>,
    connection: &LinkConnection,
    peer: ReplicaId,
    keys: LinkKeys,
    begun: Octets,
) -> LinkEnding {
    converse(
        rt,
        alloc,
        &LiveLink {
            context: context,
            connection,
            peer,
            keys,
        },
        begun.as_bytes(),
    )
}

/// Tells a peer that its connection isn't a link, and closes it.
fn refuse_link<R: Clock>(
    rt: &R,
    alloc: Global,
    links: &Links<'_>,
    connection: &LinkConnection,
    key: [u8; 32],
    reason: &ByeReason,
) {
    let mut sink = Wire::new(&connection.stream);
    if let Ok(frame) = frame_of_bye(alloc, key, *reason) {
        let _ = sink.write(&frame);
    }
    take_leave(rt, links, connection);
}

/// The first frame of a link that ends at once for this reason.
fn frame_of_bye(alloc: Global, key: [u8; 32], reason: ByeReason) -> Result<Vec<u8>, WriteFault> {
    let mut line = Vec::new(alloc);
    let mut frame = Vec::new(alloc);
    write_message(alloc, &WireMessage::Bye(reason), &mut line)?;
    FrameWriter::new(Limits::STANDARD, key).write(&line, &mut frame)?;
    Ok(frame)
}

/// Reads a link to its end, while a second thread writes; returns how it ended.
fn converse<R: Threads + Wait + Clock + Log + Sync, P: LinkReplica + Sync>(
    rt: &R,
    alloc: Global,
    link: &LiveLink<'_, P>,
    begun: &[u8],
) -> LinkEnding {
    thread::scope(thread::scope_env(), rt, |scope| {
        if scope.spawn(move || write_link(rt, alloc, link)).is_err() {
            link.connection.end(rt, LinkEnding::Broken);
            link.connection.close();
        }
        read_link(rt, alloc, link, begun)
    });
    link.connection.close();
    match link.connection.ending(rt) {
        Some(ending) => ending,
        None => LinkEnding::Broken,
    }
}

/// Reads a link to its end, and has its writer end it.
fn read_link<R: Wait + Clock, P: LinkReplica>(
    rt: &R,
    alloc: Global,
    link: &LiveLink<'_, P>,
    begun: &[u8],
) {
    if limit_silence(&link.connection.stream) {
        let mut source = Wire::new(&link.connection.stream);
        let mut receiver = LinkReceiver::new(rt, alloc, link.context, link.connection);
        let key = link.keys.read;
        let end = receive(
            rt,
            alloc,
            Limits::STANDARD,
            key,
            begun,
            &mut source,
            &mut receiver,
        );
        link.connection.end(rt, ending_of(end));
    } else {
        link.connection.end(rt, LinkEnding::Broken);
    }
    link.context.links.signal.give(rt);
}

/// Logs how a link ended. If the peer is never to be linked again, prints so.
fn note_ending<R: Wait + Log + Print>(
    rt: &R,
    links: &Links<'_>,
    peer: ReplicaId,
    ending: LinkEnding,
) {
    match ending {
        LinkEnding::Broken => log_link(rt, links, peer, "ended", ""),
        LinkEnding::Bye(reason) => {
            log_link(rt, links, peer, "ended: ", log_text(&reason));
            refuse_peer(rt, links, peer, &reason);
        }
        LinkEnding::ByeOfPeer(reason) => {
            log_link(rt, links, peer, "ended by the peer: ", log_text(&reason));
            refuse_peer(rt, links, peer, &reason);
        }
    }
}

/// Links a peer no more, if its link ended for a reason that stays until a process starts again.
fn refuse_peer<R: Wait + Print>(rt: &R, links: &Links<'_>, peer: ReplicaId, reason: &ByeReason) {
    match reason {
        ByeReason::Fork(replica) => refuse_for(rt, links, peer, reason, "fork", *replica),
        ByeReason::Behind(replica) => refuse_for(rt, links, peer, reason, "behind", *replica),
        _ => {}
    }
}

/// Links a peer no more, and prints why, unless it wasn't to be linked before.
fn refuse_for<R: Wait + Print>(
    rt: &R,
    links: &Links<'_>,
    peer: ReplicaId,
    reason: &ByeReason,
    word: &str,
    replica: ReplicaId,
) {
    if links.refuse(rt, peer, *reason) {
        let name = peer.get();
        let replica = replica.get();
        let _ = println!(rt; "link refused {name}: {word} {replica}");
    }
}

/// Logs what became of a link, with a reason.
fn log_link<R: Log>(rt: &R, links: &Links<'_>, peer: ReplicaId, what: &str, reason: &str) {
    let own = links.setup.own.get();
    let name = peer.get();
    info!(rt; "replica {own}, link {name}: {what}{reason}");
}

fn log_dial_fault<R: Log>(rt: &R, links: &Links<'_>, peer: ReplicaId, fault: HandshakeFault) {
    match fault {
        HandshakeFault::Refused(reason) => {
            log_link(rt, links, peer, "not begun: ", log_text(&reason))
        }
        HandshakeFault::RefusedBy(reason) => {
            log_link(
                rt,
                links,
                peer,
                "not begun by the peer: ",
                log_text(&reason),
            )
        }
        HandshakeFault::Broken => log_link(rt, links, peer, "not begun", ""),
    }
}

fn log_accept_fault<R: Log>(rt: &R, links: &Links<'_>, stream: &TcpStream, fault: HandshakeFault) {
    let own = links.setup.own.get();
    let text = match fault {
        HandshakeFault::Refused(reason) => log_text(&reason),
        HandshakeFault::RefusedBy(_) => "ended by the peer",
        HandshakeFault::Broken => "ended or too slow",
    };
    match stream.peer_addr() {
        Ok(address) => info!(rt; "replica {own}, link from {address}: not begun: {text}"),
        Err(_) => info!(rt; "replica {own}, link from unknown: not begun: {text}"),
    }
}
