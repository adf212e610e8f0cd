//! Whole exchanges: a frame, the command that it is in the profile, the reply to that, and what
//! the client is shown.

use crate::descriptions::{latin, tagged_text};
use imap_answers::Answer;
use imap_grammar::parse;
use imap_print::read;
use imap_syntax::IdleLine;
use imap_types::Octets;
use rev1_front::{Awaited, Form, Mode, Taken, show, take};
use std::alloc::{AllocError, Global};
use std::test::Fail;

/// A mode, a frame, the frame of the profile that spells the command that it is, the answers to
/// that, and what is shown of them.
type Exchange = (Mode, &'static str, &'static str, &'static str, &'static str);

const ROWS: &[Exchange] = &[
    // RFC 3501, sections 6.1.1, 6.1.2 and 6.2.3.
    (
        Mode::Rev1,
        "abcd CAPABILITY\r\n",
        "abcd CAPABILITY\r\n",
        "* CAPABILITY IMAP4rev2 IDLE CONDSTORE\r\nabcd OK CAPABILITY completed\r\n",
        "* CAPABILITY IMAP4rev1 IMAP4rev2 LITERAL- SASL-IR AUTH=PLAIN ID ENABLE IDLE NAMESPACE UNSELECT UIDPLUS MOVE ESEARCH CONDSTORE STATUS=SIZE\r\nabcd OK CAPABILITY completed\r\n",
    ),
    (
        Mode::Rev2,
        "abcd CAPABILITY\r\n",
        "abcd CAPABILITY\r\n",
        "* CAPABILITY IMAP4rev2 IDLE CONDSTORE\r\nabcd OK CAPABILITY completed\r\n",
        "* CAPABILITY IMAP4rev2 IDLE CONDSTORE\r\nabcd OK CAPABILITY completed\r\n",
    ),
    (
        Mode::Rev1,
        "a047 NOOP\r\n",
        "a047 NOOP\r\n",
        "* 22 EXPUNGE\r\n* 23 EXISTS\r\n* 14 FETCH (FLAGS (\\Deleted \\Seen))\r\na047 OK NOOP completed\r\n",
        "* 22 EXPUNGE\r\n* 23 EXISTS\r\n* 14 FETCH (FLAGS (\\Deleted \\Seen))\r\na047 OK NOOP completed\r\n",
    ),
    (
        Mode::Rev1,
        "a001 LOGIN SMITH SESAME\r\n",
        "a001 LOGIN SMITH SESAME\r\n",
        "a001 OK LOGIN completed\r\n",
        "a001 OK LOGIN completed\r\n",
    ),
    // RFC 4959, section 4, and RFC 4616, section 4.
    (
        Mode::Rev1,
        "a001 AUTHENTICATE PLAIN dGVzdAB0ZXN0AHRlc3Q=\r\n",
        "a001 LOGIN test test\r\n",
        "a001 OK LOGIN completed\r\n",
        "a001 OK AUTHENTICATE completed\r\n",
    ),
    (
        Mode::Rev1,
        "a Authenticate Plain AHRpbQB0YW5zdGFhZnRhbnN0YWFm\r\n",
        "a LOGIN tim tanstaaftanstaaf\r\n",
        "a NO [AUTHENTICATIONFAILED] login failed\r\n",
        "a NO [AUTHENTICATIONFAILED] login failed\r\n",
    ),
    // RFC 3501, section 6.4.1.
    (
        Mode::Rev1,
        "FXXZ CHECK\r\n",
        "FXXZ NOOP\r\n",
        "* 4 EXISTS\r\nFXXZ OK NOOP completed\r\n",
        "* 4 EXISTS\r\nFXXZ OK CHECK completed\r\n",
    ),
    (
        Mode::Rev2,
        "a check\r\n",
        "a NOOP\r\n",
        "a OK NOOP completed\r\n",
        "a OK CHECK completed\r\n",
    ),
    // RFC 3501, sections 6.3.1 and 6.3.2.
    (
        Mode::Rev1,
        "A142 SELECT INBOX\r\n",
        "A142 SELECT INBOX\r\n",
        "* 172 EXISTS\r\n* OK [UIDVALIDITY 3857529045] ok\r\n* OK [UIDNEXT 4392] ok\r\n* FLAGS (\\Answered \\Flagged \\Deleted \\Seen \\Draft)\r\n* LIST () \"/\" INBOX\r\nA142 OK [READ-WRITE] SELECT completed\r\n",
        "* 172 EXISTS\r\n* 0 RECENT\r\n* OK [UIDVALIDITY 3857529045] ok\r\n* OK [UIDNEXT 4392] ok\r\n* FLAGS (\\Answered \\Flagged \\Deleted \\Seen \\Draft)\r\nA142 OK [READ-WRITE] SELECT completed\r\n",
    ),
    (
        Mode::Rev1,
        "A932 EXAMINE blurdybloop\r\n",
        "A932 EXAMINE blurdybloop\r\n",
        "* 17 EXISTS\r\n* LIST () \"/\" blurdybloop\r\nA932 OK [READ-ONLY] EXAMINE completed\r\n",
        "* 17 EXISTS\r\n* 0 RECENT\r\nA932 OK [READ-ONLY] EXAMINE completed\r\n",
    ),
    (
        Mode::Rev2,
        "A932 EXAMINE blurdybloop\r\n",
        "A932 EXAMINE blurdybloop\r\n",
        "* 17 EXISTS\r\n* LIST () \"/\" blurdybloop\r\nA932 OK [READ-ONLY] EXAMINE completed\r\n",
        "* 17 EXISTS\r\n* LIST () \"/\" blurdybloop\r\nA932 OK [READ-ONLY] EXAMINE completed\r\n",
    ),
    // RFC 3501, section 5.1.3.
    (
        Mode::Rev1,
        "a SELECT ~peter/mail/&U,BTFw-/&ZeVnLIqe- (CONDSTORE)\r\n",
        "a SELECT \"~peter/mail/台北/日本語\" (CONDSTORE)\r\n",
        "a NO [NONEXISTENT] no such mailbox\r\n",
        "a NO [NONEXISTENT] no such mailbox\r\n",
    ),
    (
        Mode::Rev1,
        "a CREATE \"A&-B\"\r\n",
        "a CREATE \"A&B\"\r\n",
        "a OK CREATE completed\r\n",
        "a OK CREATE completed\r\n",
    ),
    (
        Mode::Rev2,
        "a CREATE \"A&-B\"\r\n",
        "a CREATE \"A&-B\"\r\n",
        "a OK CREATE completed\r\n",
        "a OK CREATE completed\r\n",
    ),
    // Octets above 127 are UTF-8.
    (
        Mode::Rev1,
        "a DELETE \"é&-\"\r\n",
        "a DELETE \"é&-\"\r\n",
        "a OK DELETE completed\r\n",
        "a OK DELETE completed\r\n",
    ),
    (
        Mode::Rev1,
        "a SUBSCRIBE &AOk-\r\n",
        "a SUBSCRIBE \"é\"\r\n",
        "a OK SUBSCRIBE completed\r\n",
        "a OK SUBSCRIBE completed\r\n",
    ),
    (
        Mode::Rev1,
        "a UNSUBSCRIBE {5}\r\n&AOk-\r\n",
        "a UNSUBSCRIBE \"é\"\r\n",
        "a OK UNSUBSCRIBE completed\r\n",
        "a OK UNSUBSCRIBE completed\r\n",
    ),
    (
        Mode::Rev1,
        "a APPEND &AOk- (\\Seen) {2}\r\n\r\n\r\n",
        "a APPEND \"é\" (\\Seen) {2}\r\n\r\n\r\n",
        "a OK APPEND completed\r\n",
        "a OK APPEND completed\r\n",
    ),
    (
        Mode::Rev1,
        "a UID COPY 1:3 &AOk-\r\n",
        "a UID COPY 1:3 \"é\"\r\n",
        "a OK UID COPY completed\r\n",
        "a OK UID COPY completed\r\n",
    ),
    (
        Mode::Rev1,
        "a MOVE 1:3 &AOk-\r\n",
        "a MOVE 1:3 \"é\"\r\n",
        "a OK MOVE completed\r\n",
        "a OK MOVE completed\r\n",
    ),
    // RFC 3501, section 6.3.8.
    (
        Mode::Rev1,
        "A202 LIST ~/Mail/ %\r\n",
        "A202 LIST ~/Mail/ %\r\n",
        "* LIST (\\Noselect) \"/\" \"~/Mail/é\"\r\n* LIST () \"/\" ~/Mail/a&b\r\nA202 OK LIST completed\r\n",
        "* LIST (\\Noselect) \"/\" ~/Mail/&AOk-\r\n* LIST () \"/\" ~/Mail/a&-b\r\nA202 OK LIST completed\r\n",
    ),
    (
        Mode::Rev1,
        "a LIST &AOk- &AOk-*\r\n",
        "a LIST \"é\" \"é*\"\r\n",
        "a OK LIST completed\r\n",
        "a OK LIST completed\r\n",
    ),
    (
        Mode::Rev2,
        "A202 LIST \"\" *\r\n",
        "A202 LIST \"\" *\r\n",
        "* LIST () \"/\" \"é\"\r\nA202 OK LIST completed\r\n",
        "* LIST () \"/\" \"é\"\r\nA202 OK LIST completed\r\n",
    ),
    // RFC 3501, section 6.3.9.
    (
        Mode::Rev1,
        "A002 LSUB \"news.\" \"comp.mail.*\"\r\n",
        "A002 LIST (SUBSCRIBED) \"\" \"*\"\r\n",
        "* LIST (\\Subscribed) \"/\" news.comp.mail.mime\r\n* LIST (\\Subscribed) \"/\" news.comp.mail.misc\r\n* LIST (\\Subscribed) \"/\" news.comp.tools\r\nA002 OK LIST completed\r\n",
        "* LSUB () \"/\" news.comp.mail.mime\r\n* LSUB () \"/\" news.comp.mail.misc\r\nA002 OK LSUB completed\r\n",
    ),
    // foo/bar is subscribed, foo isn't: `%` shows foo, once, and can't be selected.
    (
        Mode::Rev1,
        "a LSUB \"\" %\r\n",
        "a LIST (SUBSCRIBED) \"\" *\r\n",
        "* LIST (\\Subscribed) \"/\" INBOX\r\n* LIST (\\Subscribed) \"/\" foo/bar\r\n* LIST (\\NonExistent \\Subscribed) \"/\" foo/baz/x\r\n* LIST (\\NonExistent \\Subscribed) \"/\" gone\r\na OK LIST completed\r\n",
        "* LSUB () \"/\" INBOX\r\n* LSUB (\\Noselect) \"/\" foo\r\n* LSUB (\\Noselect) \"/\" gone\r\na OK LSUB completed\r\n",
    ),
    // A level that is subscribed itself is shown as what it is; the longest level counts.
    (
        Mode::Rev1,
        "a lsub \"\" *%\r\n",
        "a LIST (SUBSCRIBED) \"\" *\r\n",
        "* LIST (\\Subscribed) \"/\" \"a/é/c\"\r\na OK LIST completed\r\n",
        "* LSUB () \"/\" a/&AOk-/c\r\na OK LSUB completed\r\n",
    ),
    (
        Mode::Rev1,
        "a LSUB a/ %\r\n",
        "a LIST (SUBSCRIBED) \"\" *\r\n",
        "* LIST (\\Subscribed) \"/\" a/b\r\n* LIST (\\Subscribed) \"/\" a/b/c/d\r\n* LIST (\\Subscribed) \"/\" a/e/f\r\n* LIST (\\Subscribed) \"/\" a/e/g\r\n* LIST (\\Subscribed) \"/\" b/e\r\na OK LIST completed\r\n",
        "* LSUB () \"/\" a/b\r\n* LSUB (\\Noselect) \"/\" a/e\r\na OK LSUB completed\r\n",
    ),
    (
        Mode::Rev1,
        "a LSUB \"\" inb%\r\n",
        "a LIST (SUBSCRIBED) \"\" *\r\n",
        "* LIST (\\Subscribed) \"/\" INBOX\r\na OK LIST completed\r\n",
        "* LSUB () \"/\" INBOX\r\na OK LSUB completed\r\n",
    ),
    (
        Mode::Rev2,
        "a LSUB \"\" \"é%\"\r\n",
        "a LIST (SUBSCRIBED) \"\" *\r\n",
        "* LIST (\\Subscribed) \"/\" \"éa\"\r\n* LIST (\\Subscribed) \"/\" b\r\na OK LIST completed\r\n",
        "* LSUB () \"/\" \"éa\"\r\na OK LSUB completed\r\n",
    ),
    // RFC 3501, section 6.3.10.
    (
        Mode::Rev1,
        "A042 STATUS blurdybloop (UIDNEXT MESSAGES)\r\n",
        "A042 STATUS blurdybloop (UIDNEXT MESSAGES)\r\n",
        "* STATUS blurdybloop (MESSAGES 231 UIDNEXT 44292)\r\nA042 OK STATUS completed\r\n",
        "* STATUS blurdybloop (MESSAGES 231 UIDNEXT 44292)\r\nA042 OK STATUS completed\r\n",
    ),
    (
        Mode::Rev1,
        "a STATUS &AOk- (MESSAGES recent UNSEEN)\r\n",
        "a STATUS \"é\" (MESSAGES UNSEEN)\r\n",
        "* STATUS \"é\" (MESSAGES 17 UNSEEN 3)\r\na OK STATUS completed\r\n",
        "* STATUS &AOk- (MESSAGES 17 UNSEEN 3 RECENT 0)\r\na OK STATUS completed\r\n",
    ),
    (
        Mode::Rev1,
        "a STATUS \"(x)\" (RECENT)\r\n",
        "a STATUS \"(x)\" (MESSAGES)\r\n",
        "* STATUS \"(x)\" (MESSAGES 17)\r\na OK STATUS completed\r\n",
        "* STATUS \"(x)\" (RECENT 0)\r\na OK STATUS completed\r\n",
    ),
    (
        Mode::Rev2,
        "a STATUS x (RECENT UIDVALIDITY)\r\n",
        "a STATUS x (UIDVALIDITY)\r\n",
        "a NO [NONEXISTENT] no such mailbox\r\n",
        "a NO [NONEXISTENT] no such mailbox\r\n",
    ),
    // RFC 3501, section 6.4.4.
    (
        Mode::Rev1,
        "A282 SEARCH FLAGGED SINCE 1-Feb-1994 NOT FROM \"Smith\"\r\n",
        "A282 SEARCH FLAGGED SINCE 1-Feb-1994 NOT FROM \"Smith\"\r\n",
        "* ESEARCH (TAG \"A282\") ALL 2,84,882\r\nA282 OK SEARCH completed\r\n",
        "* SEARCH 2 84 882\r\nA282 OK SEARCH completed\r\n",
    ),
    (
        Mode::Rev1,
        "A283 SEARCH TEXT \"string not in mailbox\"\r\n",
        "A283 SEARCH TEXT \"string not in mailbox\"\r\n",
        "* ESEARCH (TAG \"A283\")\r\nA283 OK SEARCH completed\r\n",
        "* SEARCH\r\nA283 OK SEARCH completed\r\n",
    ),
    (
        Mode::Rev1,
        "A284 SEARCH CHARSET UTF-8 TEXT {6}\r\nXXXXXX\r\n",
        "A284 SEARCH CHARSET UTF-8 TEXT XXXXXX\r\n",
        "* ESEARCH (TAG \"A284\") ALL 43:45,47\r\nA284 OK SEARCH completed\r\n",
        "* SEARCH 43 44 45 47\r\nA284 OK SEARCH completed\r\n",
    ),
    // RFC 7162, section 3.1.5.
    (
        Mode::Rev1,
        "a SEARCH MODSEQ \"/flags/\\\\draft\" all 620162338\r\n",
        "a SEARCH MODSEQ 620162338\r\n",
        "* ESEARCH (TAG \"a\") ALL 2,5:7 MODSEQ 917162500\r\na OK SEARCH completed\r\n",
        "* SEARCH 2 5 6 7 (MODSEQ 917162500)\r\na OK SEARCH completed\r\n",
    ),
    (
        Mode::Rev1,
        "t SEARCH OR NOT MODSEQ 720162338 LARGER 50000\r\n",
        "t SEARCH OR NOT MODSEQ 720162338 LARGER 50000\r\n",
        "* ESEARCH (TAG \"t\")\r\nt OK SEARCH completed\r\n",
        "* SEARCH\r\nt OK SEARCH completed\r\n",
    ),
    (
        Mode::Rev1,
        "a UID SEARCH OLD\r\n",
        "a UID SEARCH ALL\r\n",
        "* ESEARCH (TAG \"a\") UID ALL 4294967294:4294967295\r\na OK UID SEARCH completed\r\n",
        "* SEARCH 4294967294 4294967295\r\na OK UID SEARCH completed\r\n",
    ),
    (
        Mode::Rev1,
        "a SEARCH NEW\r\n",
        "a SEARCH NOT ALL\r\n",
        "* ESEARCH (TAG \"a\")\r\na OK SEARCH completed\r\n",
        "* SEARCH\r\na OK SEARCH completed\r\n",
    ),
    // A text that is searched for is no key.
    (
        Mode::Rev1,
        "a SEARCH (OR recent NOT old) SUBJECT OLD HEADER NEW \"RECENT\" TO {3}\r\nNEW KEYWORD OLD 1:* UID 2,4\r\n",
        "a SEARCH (OR NOT ALL NOT ALL) SUBJECT OLD HEADER NEW \"RECENT\" TO NEW KEYWORD OLD 1:* UID 2,4\r\n",
        "a BAD not now\r\n",
        "a BAD not now\r\n",
    ),
    (
        Mode::Rev1,
        "a SEARCH CHARSET us-ascii OLD SUBJECT \"a \\\" OLD\"\r\n",
        "a SEARCH ALL SUBJECT \"a \\\" OLD\"\r\n",
        "a BAD not now\r\n",
        "a BAD not now\r\n",
    ),
    // With RETURN the answer stays ESEARCH.
    (
        Mode::Rev1,
        "a SEARCH RETURN (MIN) OLD\r\n",
        "a SEARCH RETURN (MIN) ALL\r\n",
        "* ESEARCH (TAG \"a\") MIN 4\r\na OK SEARCH completed\r\n",
        "* ESEARCH (TAG \"a\") MIN 4\r\na OK SEARCH completed\r\n",
    ),
    (
        Mode::Rev1,
        "a SEARCH RETURN () ALL\r\n",
        "a SEARCH ALL\r\n",
        "* ESEARCH (TAG \"a\") ALL 4\r\na OK SEARCH completed\r\n",
        "* ESEARCH (TAG \"a\") ALL 4\r\na OK SEARCH completed\r\n",
    ),
    (
        Mode::Rev1,
        "a UID search return () ALL\r\n",
        "a UID SEARCH ALL\r\n",
        "* ESEARCH (TAG \"a\") UID ALL 4\r\na OK UID SEARCH completed\r\n",
        "* ESEARCH (TAG \"a\") UID ALL 4\r\na OK UID SEARCH completed\r\n",
    ),
    (
        Mode::Rev2,
        "a SEARCH NEW\r\n",
        "a SEARCH NOT ALL\r\n",
        "* ESEARCH (TAG \"a\")\r\na OK SEARCH completed\r\n",
        "* ESEARCH (TAG \"a\")\r\na OK SEARCH completed\r\n",
    ),
];

/// The answers that a text consists of, up to the first line that is no answer.
fn answers_in(alloc: Global, text: &[u8]) -> Result<Vec<Answer>, AllocError> {
    let mut answers = Vec::new(alloc);
    let mut place = 0;
    for _ in 0..text.len() {
        if place >= text.len() {
            return Ok(answers);
        }
        let Some((answer, len)) = read(alloc, &text[place..])? else {
            return Ok(answers);
        };
        answers.push(answer)?;
        place += len;
    }
    Ok(answers)
}

/// A frame's command as text, and what is shown of a reply to it.
fn exchange_text(
    alloc: Global,
    mode: Mode,
    frame: &str,
    reply: &str,
) -> Result<String, AllocError> {
    let taken = take(alloc, mode, &Awaited::Command, frame.as_bytes())?;
    match taken {
        Taken::Command { tagged, form } => {
            let mut text = Vec::new(alloc);
            show(
                alloc,
                mode,
                &form,
                &answers_in(alloc, reply.as_bytes())?,
                &mut text,
            )?;
            let command = tagged_text(alloc, &tagged)?;
            let shown = latin(alloc, &text)?;
            format!(in alloc; "{command}\n{shown}")
        }
        _ => format!(in alloc; "no command"),
    }
}

/// The text that an exchange has to have.
fn expected_text(alloc: Global, inner: &str, shown: &str) -> Result<String, AllocError> {
    match parse(alloc, inner.as_bytes()) {
        Ok(tagged) => {
            let command = tagged_text(alloc, &tagged)?;
            let shown = latin(alloc, shown.as_bytes())?;
            format!(in alloc; "{command}\n{shown}")
        }
        Err(_) => format!(in alloc; "not of the profile"),
    }
}

/// The first exchange that isn't as its row says, if any: its frame, what it is, what it should be.
fn first_wrong_exchange(alloc: Global) -> Result<Option<String>, AllocError> {
    for row in ROWS {
        let (mode, frame, inner, reply, shown) = *row;
        let text = exchange_text(alloc, mode, frame, reply)?;
        let expected = expected_text(alloc, inner, shown)?;
        if text != expected {
            return Ok(Some(format!(in alloc; "{frame}\n{text}\n{expected}")?));
        }
    }
    Ok(None)
}

#[test]
fn exchanges_are_as_defined(rt: HostRuntime) -> Result<(), Fail> {
    let wrong = first_wrong_exchange(rt.alloc())?;
    assert_eq!(rt; wrong.as_deref(), None);
    Ok(())
}

/// What a line of the IDLE with the tag `t` is.
fn idle_line_of(alloc: Global, line: &str) -> Result<Option<(bool, IdleLine)>, AllocError> {
    let awaited = Awaited::Line {
        tag: Octets::from_slice(alloc, b"t")?,
    };
    match take(alloc, Mode::Rev1, &awaited, line.as_bytes())? {
        Taken::Line { tag, line } => Ok(Some((tag.as_bytes() == b"t".as_slice(), line))),
        _ => Ok(None),
    }
}

#[test]
fn lines_of_idle_go_inside(rt: HostRuntime) -> Result<(), Fail> {
    let done = idle_line_of(rt.alloc(), "done\r\n")?;
    assert_eq!(rt; done, Some((true, IdleLine::Done)));
    let other = idle_line_of(rt.alloc(), "a CHECK\r\n")?;
    assert_eq!(rt; other, Some((true, IdleLine::Other)));
    Ok(())
}

/// The response to AUTHENTICATE that a line is: the LOGIN as text.
fn response_text(alloc: Global, line: &str) -> Result<String, AllocError> {
    let awaited = Awaited::Response {
        tag: Octets::from_slice(alloc, b"t")?,
    };
    match take(alloc, Mode::Rev1, &awaited, line.as_bytes())? {
        Taken::Command { tagged, form: _ } => tagged_text(alloc, &tagged),
        _ => format!(in alloc; "no command"),
    }
}

#[test]
fn responses_log_in(rt: HostRuntime) -> Result<(), Fail> {
    let alloc = rt.alloc();
    let tim = response_text(alloc, "AHRpbQB0YW5zdGFhZnRhbnN0YWFm\r\n")?;
    assert_eq!(rt; tim.as_str(), "t LOGIN [tim] [tanstaaftanstaaf]");
    Ok(())
}

/// RENAME as text: its tag and its names.
fn rename_text(alloc: Global, mode: Mode, frame: &str) -> Result<String, AllocError> {
    match take(alloc, mode, &Awaited::Command, frame.as_bytes())? {
        Taken::Rename { tag, from, to } => {
            let tag = latin(alloc, tag.as_bytes())?;
            let from = latin(alloc, from.as_bytes())?;
            let to = latin(alloc, to.as_bytes())?;
            format!(in alloc; "{tag} [{from}] [{to}]")
        }
        _ => format!(in alloc; "no RENAME"),
    }
}

/// RFC 3501, section 6.3.5.
#[test]
fn rename_is_taken(rt: HostRuntime) -> Result<(), Fail> {
    let alloc = rt.alloc();
    let text = rename_text(alloc, Mode::Rev1, "A683 RENAME blurdybloop sarasoop\r\n")?;
    assert_eq!(rt; text.as_str(), "A683 [blurdybloop] [sarasoop]");
    let text = rename_text(alloc, Mode::Rev1, "Z433 rename inbox \"a&-b\"\r\n")?;
    assert_eq!(rt; text.as_str(), "Z433 [INBOX] [a&b]");
    let text = rename_text(alloc, Mode::Rev2, "a RENAME {1}\r\na a&-b\r\n")?;
    assert_eq!(rt; text.as_str(), "a [a] [a&-b]");
    Ok(())
}
