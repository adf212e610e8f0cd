//! Conversations over the port of a node.

use crate::rename_stub::RenameStub;
use imap_answers::Refusal;
use imap_connection::{
    Auth, Credentials, Ended, MemorySink, MemorySource, NoOthers, Node, NodePort,
};
use imap_lex::Limits;
use imap_types::{Moment, Octets};
use rev1_connection::{RenameEnd, converse_rev1};
use std::alloc::Global;
use std::sync::Wait;
use std::test::*;
use tags_clocks::ReplicaId;
use uid_projection::Counters;

/// The greeting of a known user.
const GREETING: &[u8] =
    b"* PREAUTH [CAPABILITY IMAP4rev1 IMAP4rev2 LITERAL- SASL-IR AUTH=PLAIN ID ENABLE IDLE \
      NAMESPACE UNSELECT UIDPLUS MOVE ESEARCH CONDSTORE STATUS=SIZE] ready\r\n";

/// Commands that need no mailbox, and what is answered after the greeting.
const AT_ONCE: [(&[u8], &[u8]); 12] = [
    (
        b"a CAPABILITY\r\n",
        b"* CAPABILITY IMAP4rev1 IMAP4rev2 LITERAL- SASL-IR AUTH=PLAIN ID ENABLE IDLE \
          NAMESPACE UNSELECT UIDPLUS MOVE ESEARCH CONDSTORE STATUS=SIZE\r\n\
          a OK CAPABILITY completed\r\n",
    ),
    (
        b"a ID NIL\r\n",
        b"* ID (\"name\" \"Burknafel\")\r\na OK ID completed\r\n",
    ),
    (
        b"a STATUS INBOX (MESSAGES RECENT)\r\n",
        b"* STATUS INBOX (MESSAGES 0 RECENT 0)\r\na OK STATUS completed\r\n",
    ),
    (b"a RENAME INBOX old\r\n", b"a OK RENAME completed\r\n"),
    (
        b"a AUTHENTICATE PLAIN\r\n*\r\n",
        b"+ \r\na BAD authentication was given up\r\n",
    ),
    (b"a AUTHENTICATE PLAIN\r\n!\r\n", b"+ \r\na BAD syntax\r\n"),
    (
        b"a IDLE\r\nDONE\r\n",
        b"+ idling\r\na OK IDLE completed\r\n",
    ),
    (
        b"a IDLE\r\nb NOOP\r\n",
        b"+ idling\r\na BAD DONE expected\r\n",
    ),
    (b"a LSUB \"\" %\r\n", b"a OK LSUB completed\r\n"),
    (b"a XYZZY\r\n", b"a BAD unknown command\r\n"),
    (
        b"a CHECK\r\nb ENABLE IMAP4rev2\r\nc CHECK\r\n",
        b"a OK CHECK completed\r\n* ENABLED IMAP4rev2\r\nb OK ENABLE completed\r\n\
          c OK CHECK completed\r\n",
    ),
    (
        b"a SELECT INBOX\r\nb SEARCH ALL\r\nc SEARCH SENTON 2-Jan-2020\r\n",
        b"* FLAGS (\\Answered \\Flagged \\Deleted \\Seen \\Draft)\r\n\
          * 0 EXISTS\r\n\
          * 0 RECENT\r\n\
          * OK [UIDVALIDITY 1] ok\r\n\
          * OK [UIDNEXT 1] ok\r\n\
          * OK [PERMANENTFLAGS (\\Answered \\Flagged \\Deleted \\Seen \\Draft \\*)] ok\r\n\
          * OK [HIGHESTMODSEQ 1] ok\r\n\
          a OK [READ-WRITE] SELECT completed\r\n\
          * SEARCH\r\n\
          b OK SEARCH completed\r\n\
          * SEARCH\r\n\
          c OK SEARCH completed\r\n",
    ),
];

/// How RENAME may end, and its answer.
const RENAMES: [(RenameEnd, &[u8]); 3] = [
    (RenameEnd::Renamed, b"a OK RENAME completed\r\n"),
    (
        RenameEnd::Refused(Refusal::NoSuchMailbox),
        b"a NO [NONEXISTENT] no such mailbox\r\n",
    ),
    (
        RenameEnd::NoSecondSession,
        b"a NO [UNAVAILABLE] no second session\r\n",
    ),
];

/// Commands on a message that is appended to INBOX, and the last lines that they get.
const SELECTED: [(&[u8], &[u8]); 11] = [
    (
        b"c SEARCH ALL\r\n",
        b"* SEARCH 1\r\nc OK SEARCH completed\r\n",
    ),
    (
        b"c SEARCH SENTON 2-Jan-2020\r\n",
        b"* SEARCH 1\r\nc OK SEARCH completed\r\n",
    ),
    (
        b"c SEARCH SENTON 3-Jan-2020\r\n",
        b"* SEARCH\r\nc OK SEARCH completed\r\n",
    ),
    (
        b"c FETCH 1 RFC822.TEXT.PEEK\r\n",
        b"* 1 FETCH (RFC822.TEXT {2}\r\nhi)\r\nc OK FETCH completed\r\n",
    ),
    (b"c FETCH 1 (UID BODY.PEEK[0])\r\n", b"c BAD syntax\r\n"),
    (b"c CHECK\r\n", b"c OK CHECK completed\r\n"),
    (
        b"c UID SEARCH SENTSINCE 2-Jan-2020\r\n",
        b"* SEARCH 1\r\nc OK UID SEARCH completed\r\n",
    ),
    (
        b"c ENABLE IMAP4rev2\r\nd SEARCH ALL\r\n",
        b"* ESEARCH (TAG \"d\") ALL 1\r\nd OK SEARCH completed\r\n",
    ),
    (
        b"c FETCH 1 ENVELOPE\r\n",
        b"* 1 FETCH (ENVELOPE (\"Thu, 2 Jan 2020 10:00:00\" \
          NIL NIL NIL NIL NIL NIL NIL NIL NIL))\r\n\
          c OK FETCH completed\r\n",
    ),
    (
        b"c UID FETCH 1 RFC822.HEADER\r\n",
        b"* 1 FETCH (UID 1 RFC822.HEADER {34}\r\nDate: Thu, 2 Jan 2020 10:00:00\r\n\r\n)\r\n\
          c OK UID FETCH completed\r\n",
    ),
    (b"c RENAME INBOX old\r\n", b"c OK RENAME completed\r\n"),
];

/// What a user who must log in sends, and the last lines after it.
const LOGINS: [(&[u8], &[u8]); 5] = [
    (
        b"a AUTHENTICATE PLAIN AHUAcA==\r\n",
        b"] ready\r\na OK AUTHENTICATE completed\r\n",
    ),
    (
        b"a AUTHENTICATE PLAIN\r\nAHUAcA==\r\n",
        b"+ \r\na OK AUTHENTICATE completed\r\n",
    ),
    (
        b"a AUTHENTICATE PLAIN\r\nAHUAcQ==\r\n",
        b"+ \r\na NO [AUTHENTICATIONFAILED] login failed\r\n",
    ),
    (
        b"a LOGIN u p\r\nb NAMESPACE\r\n",
        b"b OK NAMESPACE completed\r\n",
    ),
    (
        b"a AUTHENTICATE CRAM-MD5\r\nb LOGIN u p\r\n",
        b"a NO [CANNOT] not in this profile\r\nb OK LOGIN completed\r\n",
    ),
];

/// The message, and its mailbox.
const APPENDED: &[u8] =
    b"a APPEND INBOX {36+}\r\nDate: Thu, 2 Jan 2020 10:00:00\r\n\r\nhi\r\nb SELECT INBOX\r\n";

/// The port of a new replica whose user is known in this way.
fn port(alloc: Global, auth: Auth, end: RenameEnd) -> Option<RenameStub> {
    let start = Counters {
        replica: ReplicaId::new(1)?,
        uid: 1,
        k: 1,
    };
    let node = Node::new(alloc, start).ok()?;
    Some(RenameStub {
        port: NodePort::new(node, auth, NoOthers::new(Moment::epoch())),
        end,
    })
}

/// What is written in a conversation over this input, in pieces of at most this many octets.
fn talk<R: Wait>(
    rt: &R,
    alloc: Global,
    mut port: RenameStub,
    input: &[u8],
    most: usize,
) -> (Ended, Vec<u8>) {
    let mut source = MemorySource::new(input, most, u64::MAX);
    let mut sink = MemorySink::new(Vec::new(alloc), u64::MAX);
    let limits = Limits::STANDARD;
    let ended = converse_rev1(rt, alloc, limits, &mut source, &mut sink, &mut port);
    drop(port);
    (ended, sink.into_octets())
}

/// Whether a known user gets these octets after the greeting.
fn is_answered<R: Wait>(
    rt: &R,
    alloc: Global,
    end: RenameEnd,
    row: (&[u8], &[u8]),
    most: usize,
) -> Option<bool> {
    let (ended, octets) = talk(rt, alloc, port(alloc, Auth::Preauth, end)?, row.0, most);
    let rest = octets.strip_prefix(GREETING)?;
    Some(ended == Ended::PeerClosed && rest == row.1)
}

/// Whether a known user who selected a message gets these octets last.
fn is_answered_last<R: Wait>(rt: &R, alloc: Global, row: (&[u8], &[u8])) -> Option<bool> {
    let mut input = APPENDED.to_vec(alloc).ok()?;
    input.extend_from_slice(row.0).ok()?;
    let port = port(alloc, Auth::Preauth, RenameEnd::Renamed)?;
    let (ended, octets) = talk(rt, alloc, port, &input, 7);
    Some(ended == Ended::PeerClosed && octets.ends_with(row.1))
}

/// The login of the user `u` with the password `p`.
fn password(alloc: Global) -> Option<Auth> {
    Some(Auth::Password {
        credentials: Credentials {
            user: Octets::from_slice(alloc, b"u").ok()?,
            password: Octets::from_slice(alloc, b"p").ok()?,
        },
    })
}

/// Whether a user who must log in gets these octets last.
fn is_answered_before_login<R: Wait>(rt: &R, alloc: Global, row: (&[u8], &[u8])) -> Option<bool> {
    let port = port(alloc, password(alloc)?, RenameEnd::Renamed)?;
    let (ended, octets) = talk(rt, alloc, port, row.0, 3);
    Some(ended == Ended::PeerClosed && octets.ends_with(row.1))
}

/// Whether LOGOUT ends the conversation, whatever follows.
fn is_left<R: Wait>(rt: &R, alloc: Global, most: usize) -> Option<bool> {
    let port = port(alloc, Auth::Preauth, RenameEnd::Renamed)?;
    let (ended, octets) = talk(rt, alloc, port, b"a LOGOUT\r\nb NOOP\r\n", most);
    let rest = octets.strip_prefix(GREETING)?;
    let goodbye = b"* BYE logging out\r\na OK LOGOUT completed\r\n";
    Some(ended == Ended::Logout && rest == goodbye.as_slice())
}

/// Whether the commands that need no mailbox are answered so, in pieces of this many octets.
fn are_answered_at_once<R: Wait>(rt: &R, alloc: Global, most: usize) -> bool {
    for row in &AT_ONCE {
        if is_answered(rt, alloc, RenameEnd::Renamed, *row, most) != Some(true) {
            return false;
        }
    }
    true
}

/// Whether RENAME gets the answer of each way in which it may end.
fn are_renames_answered<R: Wait>(rt: &R, alloc: Global) -> bool {
    for row in &RENAMES {
        let exchange = (b"a RENAME one two\r\n" as &[u8], row.1);
        if is_answered(rt, alloc, row.0, exchange, 5) != Some(true) {
            return false;
        }
    }
    true
}

/// Whether the commands on a message get these lines last.
fn are_messages_shown<R: Wait>(rt: &R, alloc: Global) -> bool {
    for row in &SELECTED {
        if is_answered_last(rt, alloc, *row) != Some(true) {
            return false;
        }
    }
    true
}

/// Whether users who must log in get these lines last.
fn are_logins_answered<R: Wait>(rt: &R, alloc: Global) -> bool {
    for row in &LOGINS {
        if is_answered_before_login(rt, alloc, *row) != Some(true) {
            return false;
        }
    }
    true
}

#[test]
fn commands_are_answered_at_once(rt: HostRuntime) {
    assert!(rt; are_answered_at_once(&rt, rt.alloc(), 1));
    assert!(rt; are_answered_at_once(&rt, rt.alloc(), 65_536));
}

#[test]
fn renames_end_in_three_ways(rt: HostRuntime) {
    assert!(rt; are_renames_answered(&rt, rt.alloc()));
}

#[test]
fn selected_messages_are_shown(rt: HostRuntime) {
    assert!(rt; are_messages_shown(&rt, rt.alloc()));
}

#[test]
fn users_log_in(rt: HostRuntime) {
    assert!(rt; are_logins_answered(&rt, rt.alloc()));
}

#[test]
fn logout_ends_the_conversation(rt: HostRuntime) {
    assert!(rt; is_left(&rt, rt.alloc(), 1) == Some(true));
    assert!(rt; is_left(&rt, rt.alloc(), 65_536) == Some(true));
}
