//! What is answered at once, without a port.

use imap_answers::{Answer, EnabledExtensions, Login};
use imap_types::Octets;
use rev1_front::{Awaited, Form, Mode, Taken, greeting, mode_after, print_at_once, take};
use std::alloc::{AllocError, Global};
use std::test::Fail;

/// Frames with the lines that answer them at once.
const ROWS: &[(Mode, &str, &str)] = &[
    // RFC 2971, section 3.
    (
        Mode::Rev1,
        "a023 ID (\"name\" \"sodr\" \"version\" \"19.34\" \"vendor\" \"Pink Floyd Music Limited\")\r\n",
        "* ID (\"name\" \"Burknafel\")\r\na023 OK ID completed\r\n",
    ),
    (
        Mode::Rev1,
        "a042 ID NIL\r\n",
        "* ID (\"name\" \"Burknafel\")\r\na042 OK ID completed\r\n",
    ),
    (
        Mode::Rev2,
        "a042 id nil\r\n",
        "* ID (\"name\" \"Burknafel\")\r\na042 OK ID completed\r\n",
    ),
    // RFC 3501, section 6.2.2: the profile has no other mechanism than PLAIN.
    (
        Mode::Rev1,
        "A001 AUTHENTICATE GSSAPI\r\n",
        "A001 NO [CANNOT] not in this profile\r\n",
    ),
    (
        Mode::Rev1,
        "A001 AUTHENTICATE PLAINER\r\n",
        "A001 NO [CANNOT] not in this profile\r\n",
    ),
    (Mode::Rev1, "A001 AUTHENTICATE PLAIN\r\n", "+ \r\n"),
    (Mode::Rev1, "A001 authenticate plain\r\n", "+ \r\n"),
    // RFC 4616, section 4: Ursel is the identity, Kurt the user.
    (
        Mode::Rev1,
        "A AUTHENTICATE PLAIN VXJzZWwAS3VydAB4aXBqM3BsbXE=\r\n",
        "A NO [AUTHORIZATIONFAILED] no other user\r\n",
    ),
    // No base64, one field, an empty user, an empty password, four fields, bits left over.
    (
        Mode::Rev1,
        "A AUTHENTICATE PLAIN ????\r\n",
        "A BAD syntax\r\n",
    ),
    (Mode::Rev1, "A AUTHENTICATE PLAIN =\r\n", "A BAD syntax\r\n"),
    (
        Mode::Rev1,
        "A AUTHENTICATE PLAIN dGlt\r\n",
        "A BAD syntax\r\n",
    ),
    (
        Mode::Rev1,
        "A AUTHENTICATE PLAIN AABh\r\n",
        "A BAD syntax\r\n",
    ),
    (
        Mode::Rev1,
        "A AUTHENTICATE PLAIN AGEA\r\n",
        "A BAD syntax\r\n",
    ),
    (
        Mode::Rev1,
        "A AUTHENTICATE PLAIN AGEAYgBj\r\n",
        "A BAD syntax\r\n",
    ),
    (
        Mode::Rev1,
        "A AUTHENTICATE PLAIN AGEAYmI=x\r\n",
        "A BAD syntax\r\n",
    ),
    // RFC 3501, section 5.1.3: no modified UTF-7, and not its one spelling.
    (
        Mode::Rev1,
        "a SELECT &Jjo!\r\n",
        "a NO [CANNOT] name not allowed\r\n",
    ),
    (
        Mode::Rev1,
        "a SELECT &U,BTFw-&ZeVnLIqe-\r\n",
        "a NO [CANNOT] name not allowed\r\n",
    ),
    (
        Mode::Rev1,
        "a CREATE &AGE-\r\n",
        "a NO [CANNOT] name not allowed\r\n",
    ),
    (
        Mode::Rev1,
        "a COPY 1 a&b\r\n",
        "a NO [CANNOT] name not allowed\r\n",
    ),
    (
        Mode::Rev1,
        "a LIST \"\" a&b\r\n",
        "a NO [CANNOT] name not allowed\r\n",
    ),
    (
        Mode::Rev1,
        "a LIST & *\r\n",
        "a NO [CANNOT] name not allowed\r\n",
    ),
    (
        Mode::Rev1,
        "a LSUB \"\" a&b\r\n",
        "a NO [CANNOT] name not allowed\r\n",
    ),
    (
        Mode::Rev1,
        "a STATUS a&b (RECENT)\r\n",
        "a NO [CANNOT] name not allowed\r\n",
    ),
    (
        Mode::Rev1,
        "a RENAME a a&b\r\n",
        "a NO [CANNOT] name not allowed\r\n",
    ),
    (
        Mode::Rev1,
        "a RENAME a&b a\r\n",
        "a NO [CANNOT] name not allowed\r\n",
    ),
    // RFC 3501, section 6.4.4.
    (
        Mode::Rev1,
        "a SEARCH CHARSET ISO-8859-1 ALL\r\n",
        "a NO [BADCHARSET (US-ASCII UTF-8)] charset is not known\r\n",
    ),
    (
        Mode::Rev1,
        "a UID SEARCH RETURN (ALL) CHARSET \"koi8-r\" OLD\r\n",
        "a NO [BADCHARSET (US-ASCII UTF-8)] charset is not known\r\n",
    ),
    (
        Mode::Rev2,
        "a SEARCH CHARSET {6}\r\nKOI8-R ALL\r\n",
        "a NO [BADCHARSET (US-ASCII UTF-8)] charset is not known\r\n",
    ),
    // What no grammar has.
    (Mode::Rev1, "\r\n", "* BAD no tag\r\n"),
    (Mode::Rev1, "a\r\n", "* BAD no tag\r\n"),
    (Mode::Rev1, "a XYZZY\r\n", "a BAD unknown command\r\n"),
    (Mode::Rev1, "a CHECK now\r\n", "a BAD unknown command\r\n"),
    (Mode::Rev1, "a LSUB \"\"\r\n", "a BAD unknown command\r\n"),
    (Mode::Rev1, "a SEARCH OLDER\r\n", "a BAD syntax\r\n"),
    (Mode::Rev1, "a SEARCH SUBJECT\r\n", "a BAD syntax\r\n"),
    (
        Mode::Rev1,
        "a STATUS x (RECENT SEEN)\r\n",
        "a BAD syntax\r\n",
    ),
    (Mode::Rev1, "a STATUS x RECENT\r\n", "a BAD syntax\r\n"),
    (
        Mode::Rev1,
        "a STARTTLS\r\n",
        "a NO [CANNOT] not in this profile\r\n",
    ),
];

/// What a frame is answered at once; nothing if a port has to carry it out.
fn text_at_once(alloc: Global, mode: Mode, frame: &str) -> Result<Vec<u8>, AllocError> {
    let taken = take(alloc, mode, &Awaited::Command, frame.as_bytes())?;
    let mut text = Vec::new(alloc);
    print_at_once(&taken, &mut text)?;
    Ok(text)
}

/// The first frame that isn't answered as its row says, if any.
fn first_wrong_answer(alloc: Global) -> Result<Option<&'static str>, AllocError> {
    for row in ROWS {
        let (mode, frame, answer) = *row;
        if text_at_once(alloc, mode, frame)?.as_slice() != answer.as_bytes() {
            return Ok(Some(frame));
        }
    }
    Ok(None)
}

#[test]
fn frames_are_answered_at_once(rt: HostRuntime) -> Result<(), Fail> {
    assert_eq!(rt; first_wrong_answer(rt.alloc())?, None);
    Ok(())
}

/// Whether a response to AUTHENTICATE is answered so.
fn is_response_answered(alloc: Global, line: &str, answer: &str) -> Result<bool, AllocError> {
    let awaited = Awaited::Response {
        tag: Octets::from_slice(alloc, b"A1")?,
    };
    let taken = take(alloc, Mode::Rev1, &awaited, line.as_bytes())?;
    let mut text = Vec::new(alloc);
    print_at_once(&taken, &mut text)?;
    Ok(text.as_slice() == answer.as_bytes())
}

#[test]
fn responses_are_answered_at_once(rt: HostRuntime) -> Result<(), Fail> {
    let alloc = rt.alloc();
    let given_up = is_response_answered(alloc, "*\r\n", "A1 BAD authentication was given up\r\n")?;
    assert!(rt; given_up);
    let malformed = is_response_answered(alloc, "a CAPABILITY\r\n", "A1 BAD syntax\r\n")?;
    assert!(rt; malformed);
    let empty = is_response_answered(alloc, "\r\n", "A1 BAD syntax\r\n")?;
    assert!(rt; empty);
    Ok(())
}

#[test]
fn greetings_name_the_capabilities(rt: HostRuntime) {
    assert_eq!(rt;
        greeting(Login::Required),
        b"* OK [CAPABILITY IMAP4rev1 IMAP4rev2 LITERAL- SASL-IR AUTH=PLAIN ID ENABLE IDLE NAMESPACE UNSELECT UIDPLUS MOVE ESEARCH CONDSTORE STATUS=SIZE] ready\r\n".as_slice()
    );
}

#[test]
fn enable_changes_the_mode(rt: HostRuntime) {
    let on = [Answer::Enabled {
        extensions: EnabledExtensions::CondstoreImap4Rev2,
    }];
    assert_eq!(rt; mode_after(Mode::Rev1, &on), Mode::Rev2);
    let condstore = [Answer::Enabled {
        extensions: EnabledExtensions::Condstore,
    }];
    assert_eq!(rt; mode_after(Mode::Rev1, &condstore), Mode::Rev1);
    assert_eq!(rt; mode_after(Mode::Rev2, &condstore), Mode::Rev2);
}
