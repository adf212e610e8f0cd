//! Conversations over the port of a node.

use crdt_ops::SoundOp;
use imap_connection::{
    Deliveries, Ended, MemorySink, MemorySource, NoOthers, NodePort, Others, converse, log_text_of,
    nodes_converse,
};
use imap_lex::FrameFaultKind;
use imap_node::{Auth, Credentials, Node};
use imap_types::{Moment, Octets};
use std::alloc::Global;
use std::sync::Wait;
use std::test::*;
use tags_clocks::{Clock, ReplicaId};
use uid_projection::Counters;

/// The commands of a known user of a new replica.
const KNOWN_INPUT: &[u8] =
    b"a APPEND INBOX {3+}\r\nabc\r\nb STATUS INBOX (MESSAGES UIDNEXT)\r\nc IDLE\r\nDONE\r\nz LOGOUT\r\n";

/// The answers to that user.
const KNOWN_OUTPUT: &[u8] =
    b"* PREAUTH [CAPABILITY IMAP4rev2 IDLE CONDSTORE] ready\r\na OK [APPENDUID 1 1] APPEND completed\r\n* STATUS INBOX (MESSAGES 1 UIDNEXT 2)\r\nb OK STATUS completed\r\n+ idling\r\nc OK IDLE completed\r\n* BYE logging out\r\nz OK LOGOUT completed\r\n";

/// The commands of a user who must log in.
const LOGIN_INPUT: &[u8] =
    b"a LIST \"\" *\r\nb LOGIN secret me\r\nc LOGIN me secret\r\nd CREATE work\r\n";

/// The answers to that user.
const LOGIN_OUTPUT: &[u8] =
    b"* OK [CAPABILITY IMAP4rev2 IDLE CONDSTORE] ready\r\na BAD not now\r\nb NO [AUTHENTICATIONFAILED] login failed\r\nc OK LOGIN completed\r\nd OK CREATE completed\r\n";

/// The commands of a user of another replica.
const OTHER_INPUT: &[u8] = b"a APPEND INBOX {3+}\r\nabc\r\nb APPEND INBOX {3+}\r\ndef\r\n";

/// The answers to that user.
const OTHER_OUTPUT: &[u8] =
    b"* PREAUTH [CAPABILITY IMAP4rev2 IDLE CONDSTORE] ready\r\na OK [APPENDUID 2 1] APPEND completed\r\nb OK [APPENDUID 2 2] APPEND completed\r\n";

/// The commands of a user whose replica receives the other one's operations, one before each
/// command.
const RECEIVER_INPUT: &[u8] =
    b"a STATUS INBOX (MESSAGES UIDNEXT)\r\nb STATUS INBOX (MESSAGES UIDNEXT)\r\nc STATUS INBOX (MESSAGES UIDNEXT)\r\n";

/// The answers to that user.
const RECEIVER_OUTPUT: &[u8] =
    b"* PREAUTH [CAPABILITY IMAP4rev2 IDLE CONDSTORE] ready\r\n* STATUS INBOX (MESSAGES 1 UIDNEXT 2)\r\na OK STATUS completed\r\n* STATUS INBOX (MESSAGES 2 UIDNEXT 3)\r\nb OK STATUS completed\r\n* STATUS INBOX (MESSAGES 2 UIDNEXT 3)\r\nc OK STATUS completed\r\n";

/// Each end of a conversation, with its text in the log.
const LOG_TEXTS: [(Ended, &str); 10] = [
    (Ended::Logout, "logout"),
    (Ended::PeerClosed, "closed by the client"),
    (Ended::TooManySessions, "too many sessions"),
    (Ended::Framing(FrameFaultKind::NulByte), "bad framing"),
    (Ended::Framing(FrameFaultKind::NoMemory), "bad framing"),
    (Ended::ReadFailed, "read failed"),
    (Ended::WriteFailed, "write failed"),
    (Ended::NoMemory, "no memory"),
    (Ended::Torn, "replica changed"),
    (Ended::ServerEnded, "ended by the server"),
];

/// A new replica with this number.
fn node(alloc: Global, number: u32) -> Option<Node> {
    let start = Counters {
        replica: ReplicaId::new(number)?,
        uid: 1,
        k: 1,
    };
    Node::new(alloc, start).ok()
}

/// A port of a new replica that receives nothing from others, for a user with this access.
fn port(alloc: Global, number: u32, auth: Auth) -> Option<NodePort<NoOthers>> {
    Some(NodePort::new(node(alloc, number)?, auth, NoOthers::new(Moment::epoch())))
}

/// The operations that another replica issues in a conversation, the last first.
fn issued<R: Wait>(rt: &R, alloc: Global, most: usize) -> Option<Vec<SoundOp>> {
    let mut port = port(alloc, 2, Auth::Preauth)?;
    if !ends_with_output(
        rt,
        alloc,
        &mut port,
        (OTHER_INPUT, most),
        Ended::PeerClosed,
        OTHER_OUTPUT,
    ) {
        return None;
    }
    let mut ops = port.node().ops_since(alloc, &Clock::new(alloc)).ok()?;
    ops.reverse();
    Some(ops)
}

/// The access of a user who must log in with this name and this password.
fn user(alloc: Global, name: &[u8], password: &[u8]) -> Option<Auth> {
    Some(Auth::Password {
        credentials: Credentials {
            user: Octets::from_slice(alloc, name).ok()?,
            password: Octets::from_slice(alloc, password).ok()?,
        },
    })
}

/// Whether a conversation over this input, which arrives in pieces of at most this many octets, has
/// this end and this output.
fn ends_with_output<R: Wait, O: Others>(
    rt: &R,
    alloc: Global,
    port: &mut NodePort<O>,
    input: (&[u8], usize),
    ended: Ended,
    output: &[u8],
) -> bool {
    let mut source = MemorySource::new(input.0, input.1, u64::MAX);
    let mut sink = MemorySink::new(Vec::new(alloc), u64::MAX);
    let end = converse(rt, alloc, &mut source, &mut sink, port);
    end == ended && sink.octets() == output
}

/// Whether a known user is served up to the LOGOUT, and no other user after it.
fn is_known_served<R: Wait>(rt: &R, alloc: Global, most: usize) -> Option<bool> {
    let mut port = port(alloc, 1, Auth::Preauth)?;
    let served = ends_with_output(
        rt,
        alloc,
        &mut port,
        (KNOWN_INPUT, most),
        Ended::Logout,
        KNOWN_OUTPUT,
    );
    let again = ends_with_output(
        rt,
        alloc,
        &mut port,
        (KNOWN_INPUT, most),
        Ended::Torn,
        b"* BYE replica changed\r\n",
    );
    Some(served && again && port.node().replica().id() == ReplicaId::new(1)?)
}

/// Whether a user who must log in can do so with both name and password, and not otherwise.
fn is_unknown_served<R: Wait>(rt: &R, alloc: Global, most: usize) -> Option<bool> {
    let mut port = port(alloc, 1, user(alloc, b"me", b"secret")?)?;
    let ended = Ended::PeerClosed;
    Some(ends_with_output(
        rt,
        alloc,
        &mut port,
        (LOGIN_INPUT, most),
        ended,
        LOGIN_OUTPUT,
    ))
}

/// Whether each answer to a user includes what was received from another replica before it.
fn are_others_shown<R: Wait>(rt: &R, alloc: Global, most: usize) -> Option<bool> {
    let others = Deliveries::new(Moment::epoch(), issued(rt, alloc, most)?);
    let mut port = NodePort::new(node(alloc, 1)?, Auth::Preauth, others);
    let ended = Ended::PeerClosed;
    Some(ends_with_output(
        rt,
        alloc,
        &mut port,
        (RECEIVER_INPUT, most),
        ended,
        RECEIVER_OUTPUT,
    ))
}

#[test]
fn a_node_converses(rt: HostRuntime) {
    nodes_converse::<Deliveries>();
    for most in [1usize, 4_096] {
        assert_eq!(rt; is_known_served(&rt, rt.alloc(), most), Some(true));
        assert_eq!(rt; is_unknown_served(&rt, rt.alloc(), most), Some(true));
    }
}

#[test]
fn operations_arrive_between_commands(rt: HostRuntime) {
    for most in [1usize, 4_096] {
        assert_eq!(rt; are_others_shown(&rt, rt.alloc(), most), Some(true));
    }
}

#[test]
fn each_end_has_its_text_in_the_log(rt: HostRuntime) {
    assert!(rt;
        LOG_TEXTS
            .iter()
            .all(|(ended, text)| log_text_of(*ended) == *text)
    );
}
