//! LOGIN, refused and then taken, and what a session may do before it (RFC 9051, sections 3 and
//! 6.2.3).

use crate::node_sessions::{answers, begin, is_session_active};
use std::alloc::Global;

/// Commands before LOGIN and their answers: any session may send the first ones; all others need a
/// user or a mailbox.
const BEFORE: [(&str, &str); 29] = [
    ("a NOOP\r\n", "a OK NOOP completed|"),
    (
        "a CAPABILITY\r\n",
        "* CAPABILITY IMAP4rev2 IDLE CONDSTORE|a OK CAPABILITY completed|",
    ),
    ("a ENABLE CONDSTORE\r\n", "a BAD not now|"),
    ("a SELECT INBOX\r\n", "a BAD not now|"),
    ("a EXAMINE INBOX\r\n", "a BAD not now|"),
    ("a CREATE work\r\n", "a BAD not now|"),
    ("a DELETE work\r\n", "a BAD not now|"),
    ("a SUBSCRIBE work\r\n", "a BAD not now|"),
    ("a UNSUBSCRIBE work\r\n", "a BAD not now|"),
    ("a LIST \"\" *\r\n", "a BAD not now|"),
    ("a NAMESPACE\r\n", "a BAD not now|"),
    ("a STATUS INBOX (MESSAGES)\r\n", "a BAD not now|"),
    ("a APPEND INBOX {1+}\r\nx\r\n", "a BAD not now|"),
    ("a IDLE\r\n", "a BAD not now|"),
    ("a CLOSE\r\n", "a BAD not now|"),
    ("a UNSELECT\r\n", "a BAD not now|"),
    ("a EXPUNGE\r\n", "a BAD not now|"),
    ("a SEARCH ALL\r\n", "a BAD not now|"),
    ("a FETCH 1 FLAGS\r\n", "a BAD not now|"),
    ("a STORE 1 FLAGS ()\r\n", "a BAD not now|"),
    ("a COPY 1 INBOX\r\n", "a BAD not now|"),
    ("a MOVE 1 INBOX\r\n", "a BAD not now|"),
    ("a UID SEARCH ALL\r\n", "a BAD not now|"),
    ("a UID FETCH 1 FLAGS\r\n", "a BAD not now|"),
    ("a UID STORE 1 FLAGS ()\r\n", "a BAD not now|"),
    ("a UID COPY 1 INBOX\r\n", "a BAD not now|"),
    ("a UID MOVE 1 INBOX\r\n", "a BAD not now|"),
    ("a UID EXPUNGE 1\r\n", "a BAD not now|"),
    ("a STARTTLS\r\n", "a NO [CANNOT] not in this profile|"),
];

/// LOGIN is refused, then taken; after that the user is known, and LOGIN isn't allowed any more.
const LOGIN: [(&str, &str); 12] = [
    (
        "a LOGIN joe wrong\r\n",
        "a NO [AUTHENTICATIONFAILED] login failed|",
    ),
    (
        "b LOGIN ann secret\r\n",
        "b NO [AUTHENTICATIONFAILED] login failed|",
    ),
    (
        "c LOGIN JOE secret\r\n",
        "c NO [AUTHENTICATIONFAILED] login failed|",
    ),
    (
        "d LOGIN joe Secret\r\n",
        "d NO [AUTHENTICATIONFAILED] login failed|",
    ),
    (
        "e LOGIN joe \"\"\r\n",
        "e NO [AUTHENTICATIONFAILED] login failed|",
    ),
    ("f LOGIN joe\r\n", "f BAD syntax|"),
    ("g CREATE work\r\n", "g BAD not now|"),
    (
        "h LOGIN {3}\r\njoe \"secret\"\r\n",
        "+ ready|h OK LOGIN completed|",
    ),
    ("i LOGIN joe secret\r\n", "i BAD not now|"),
    ("j CREATE work\r\n", "j OK CREATE completed|"),
    ("k FETCH 1 FLAGS\r\n", "k BAD not now|"),
    ("l LOGOUT\r\n", "* BYE logging out|l OK LOGOUT completed|"),
];

/// LOGOUT may come before LOGIN.
const AT_ONCE: [(&str, &str); 1] = [("a LOGOUT\r\n", "* BYE logging out|a OK LOGOUT completed|")];

/// The place of the first line, in a new session of joe's, whose answer isn't the expected
/// one.
fn first_wrong(alloc: Global, lines: &[(&str, &str)]) -> Option<usize> {
    let Some(mut session) = begin(alloc, "joe", "secret") else {
        return Some(lines.len());
    };
    lines.iter().position(|line| match answers(alloc, &mut session, line.0) {
        Some(output) => output.as_slice() != line.1.as_bytes(),
        None => true,
    })
}

/// Whether a session is open after these lines.
fn is_active_after(alloc: Global, lines: &[(&str, &str)]) -> bool {
    let Some(mut session) = begin(alloc, "joe", "secret") else {
        return false;
    };
    for line in lines {
        let _ = answers(alloc, &mut session, line.0);
    }
    is_session_active(&session)
}

#[test]
fn a_session_waits_for_login(rt: HostRuntime) {
    assert_eq!(rt; first_wrong(rt.alloc(), &BEFORE), None);
    assert!(rt; is_active_after(rt.alloc(), &BEFORE));
}

#[test]
fn login_is_refused_then_taken(rt: HostRuntime) {
    assert_eq!(rt; first_wrong(rt.alloc(), &LOGIN), None);
    assert!(rt; !is_active_after(rt.alloc(), &LOGIN));
}

#[test]
fn logout_may_precede_login(rt: HostRuntime) {
    assert_eq!(rt; first_wrong(rt.alloc(), &AT_ONCE), None);
    assert!(rt; !is_active_after(rt.alloc(), &AT_ONCE));
}
