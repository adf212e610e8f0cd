//! Messages between the replicas of a server.

use crdt_ops::{SoundOp, into_sound_op, read_op};
use crossbeam_channel::{Receiver, unbounded};
use merge_laws::Caused;
use replica_links::{LinkMsg, PeerLinks, PeerMsg};
use server_runtime::{
    Access, ClientLimits, JoiningReplicas, PeerSender, ReplicaHandle, ServerState, StopCounter,
};
use std::alloc::Global;
use std::net::{IpAddr, Ipv4Addr, SocketAddr};
use std::sync::{Mutex, Wait};
use std::test::*;
use tags_clocks::{Clock, OpId, ReplicaId};

/// The operation that a line spells, if it is sound.
fn operation(alloc: Global, line: &str) -> Option<SoundOp> {
    let op = read_op(alloc, line.as_bytes()).ok()?;
    into_sound_op(op)
}

/// The clock that covers the first replica's first operation.
fn clock_of_one(alloc: Global) -> Option<Clock> {
    let mut clock = Clock::new(alloc);
    clock.raise(ReplicaId::new(1)?, 1).ok()?;
    Some(clock)
}

/// The content of a message, and the place of its sender.
#[derive(Clone, Copy, Debug, PartialEq, Eq)]
enum Parcel {
    /// One operation, with this id.
    One(usize, OpId),
    /// Other operations.
    Others,
    /// A clock, and whether it is the one that covers the first replica's first operation.
    Asked(usize, bool),
    /// No message, or one of another kind.
    Nothing,
}

/// The content of a message.
fn parcel_of(alloc: Global, peer_msg: &PeerMsg) -> Parcel {
    match &peer_msg.message {
        LinkMsg::Ops(ops) => match ops.as_slice() {
            [op] => Parcel::One(peer_msg.from, op.id()),
            _ => Parcel::Others,
        },
        LinkMsg::Have(clock) => Parcel::Asked(peer_msg.from, is_clock_of_one(alloc, clock)),
        LinkMsg::Stop => Parcel::Nothing,
    }
}

/// Whether this is the clock that covers the first replica's first operation.
fn is_clock_of_one(alloc: Global, clock: &Clock) -> bool {
    match clock_of_one(alloc) {
        Some(one) => one.same(clock),
        None => false,
    }
}

/// The content of the next message.
fn next_message<R: Wait>(rt: &R, alloc: Global, messages: &Receiver<PeerMsg>) -> Parcel {
    match messages.try_recv(rt) {
        Ok(peer_msg) => parcel_of(alloc, &peer_msg),
        Err(_) => Parcel::Nothing,
    }
}

/// The content of the next message to the replica at a place.
fn message_at<R: Wait>(
    rt: &R,
    alloc: Global,
    messages: &[Receiver<PeerMsg>],
    place: usize,
) -> Parcel {
    match messages.get(place) {
        Some(messages) => next_message(rt, alloc, messages),
        None => Parcel::Others,
    }
}

/// The handles of a server's three replicas, the last not yet joined, and the messages
/// to each.
#[derive(Drop)]
struct Handles {
    replicas: Vec<ReplicaHandle>,
    messages: Vec<Receiver<PeerMsg>>,
}

/// Adds a replica that listens at this address, or that hasn't joined yet if there is none.
fn add_handle(alloc: Global, address: Option<SocketAddr>, three: &mut Handles) -> Option<()> {
    let (link, messages) = unbounded(alloc).ok()?;
    let (copy_requests, _) = unbounded(alloc).ok()?;
    three.messages.push(messages).ok()?;
    let handle = ReplicaHandle {
        link,
        copy_requests,
        address: Mutex::new(address),
        send_lock: Mutex::new(()),
    };
    three.replicas.push(handle).ok()
}

fn three_handles(alloc: Global) -> Option<Handles> {
    let mut three = Handles {
        replicas: Vec::new(alloc),
        messages: Vec::new(alloc),
    };
    let address = SocketAddr::new(IpAddr::V4(Ipv4Addr::LOCALHOST), 1);
    for address in [Some(address), Some(address), None] {
        add_handle(alloc, address, &mut three)?;
    }
    Some(three)
}

/// A list of the operation that a line spells, if it is sound.
fn one_operation(alloc: Global, line: &str) -> Option<Vec<SoundOp>> {
    let mut ops = Vec::new(alloc);
    ops.push(operation(alloc, line)?).ok()?;
    Some(ops)
}

/// The first replica of three sends an operation to the second, asks it, sends one to the third,
/// which hasn't joined, and sends one to all.
fn send_all<R: Wait>(rt: &R, alloc: Global, server: &ServerState<'_>) -> Option<()> {
    let mut sender = PeerSender::new(rt, server, 0);
    sender.send_ops(1, one_operation(alloc, "1:1 - create a")?);
    sender.ask(1, clock_of_one(alloc)?);
    sender.send_ops(2, one_operation(alloc, "1:2 1=1 create b")?);
    let to_all = one_operation(alloc, "1:3 1=2 create c")?;
    sender.send_to_all(alloc, &to_all);
    Some(())
}

/// What the first replica of three sends: the messages to the first, the second and the third, in
/// that order, up to the first missing one of each.
fn sent<R: Wait>(rt: &R, alloc: Global) -> Option<[Parcel; 6]> {
    let Handles {
        replicas: handles,
        messages,
    } = three_handles(alloc)?;
    let server = ServerState {
        access: Access::Preauth,
        limits: ClientLimits::STANDARD,
        replicas: handles,
        joining: JoiningReplicas::new(Vec::new(alloc)),
        journal: None,
        store: None,
        links: None,
        rev1: Vec::new(alloc),
        stop: StopCounter::after(None),
    };
    match send_all(rt, alloc, &server) {
        Some(()) => Some(arrived(rt, alloc, &messages)),
        None => None,
    }
}

fn arrived<R: Wait>(rt: &R, alloc: Global, messages: &[Receiver<PeerMsg>]) -> [Parcel; 6] {
    [
        message_at(rt, alloc, messages, 0),
        message_at(rt, alloc, messages, 1),
        message_at(rt, alloc, messages, 1),
        message_at(rt, alloc, messages, 1),
        message_at(rt, alloc, messages, 1),
        message_at(rt, alloc, messages, 2),
    ]
}

/// The expected messages: one operation, one question and one operation sent to all, to the second
/// replica, and nothing to the others.
fn expected() -> Option<[Parcel; 6]> {
    let replica = ReplicaId::new(1)?;
    let first = OpId::new(replica, 1)?;
    let third = OpId::new(replica, 3)?;
    Some([
        Parcel::Nothing,
        Parcel::One(0, first),
        Parcel::Asked(0, true),
        Parcel::One(0, third),
        Parcel::Nothing,
        Parcel::Nothing,
    ])
}

#[test]
fn messages_reach_the_replicas_that_have_joined(rt: HostRuntime) {
    let expected = expected();
    assert!(rt; expected.is_some());
    assert_eq!(rt; sent(&rt, rt.alloc()), expected);
}
