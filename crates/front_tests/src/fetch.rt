//! FETCH with items that the profile hasn't: what the profile is asked for, and what is made of a
//! message.

use crate::descriptions::latin;
use imap_answers::Answer;
use imap_print::read;
use rev1_fetch::{FetchPlan, FetchRequest, plan_fetch, show_fetch};
use std::alloc::{AllocError, Global};
use std::test::Fail;

/// The header of RFC 3501, section 8, and a short body.
const MINUTES: &str =
    "Date: Wed, 17 Jul 1996 02:23:25 -0700 (PDT)\r\nFrom: Terry Gray <gray@cac.washington.edu>\r\nSubject: IMAP4rev1 WG mtg summary and minutes\r\nTo: imap@cac.washington.edu\r\ncc: minutes@CNRI.Reston.VA.US, John Klensin <KLENSIN@MIT.EDU>\r\nMessage-Id: <B27397-0100000@cac.washington.edu>\r\nMIME-Version: 1.0\r\nContent-Type: TEXT/PLAIN; CHARSET=US-ASCII\r\n\r\nhello\r\n";

/// A text, and a message with a subject.
const TWO_PARTS: &str =
    "Content-Type: multipart/mixed; boundary=b\r\n\r\n--b\r\n\r\none\r\n--b\r\nContent-Type: message/rfc822\r\n\r\nSubject: in\r\n\r\nbody\r\n--b--\r\n";

/// The parts of the example of RFC 3501, section 6.4.5.
const NUMBERED_PARTS: &str =
    "Subject: out\r\nContent-Type: multipart/mixed; boundary=a\r\n\r\n--a\r\n\r\none\r\n--a\r\nContent-Type: application/octet-stream\r\n\r\ntwo\r\n--a\r\nContent-Type: message/rfc822\r\n\r\nSubject: three\r\nContent-Type: multipart/mixed; boundary=b\r\n\r\n--b\r\n\r\nthree one\r\n--b\r\n\r\nthree two\r\n--b--\r\n--a\r\nContent-Type: multipart/mixed; boundary=c\r\n\r\n--c\r\nContent-Type: image/gif\r\n\r\nfour one\r\n--c\r\nContent-Type: message/rfc822\r\n\r\nSubject: four two\r\nContent-Type: multipart/mixed; boundary=d\r\n\r\n--d\r\n\r\nfour two one\r\n--d\r\nContent-Type: multipart/alternative; boundary=e\r\n\r\n--e\r\n\r\nplain\r\n--e\r\nContent-Type: text/richtext\r\n\r\nrich\r\n--e--\r\n--d--\r\n--c--\r\n--a--\r\n";

/// The arguments of FETCH, those of the profile, the items before the whole text in its answer, the
/// message, and what is shown between the parentheses.
type Row = (
    &'static str,
    &'static str,
    &'static str,
    &'static str,
    &'static str,
);

const ROWS: &[Row] = &[
    // RFC 3501, section 8.
    (
        " 12 full\r\n",
        " 12 (FLAGS INTERNALDATE RFC822.SIZE BODY.PEEK[])\r\n",
        "FLAGS (\\Seen) INTERNALDATE \"17-Jul-1996 02:44:25 -0700\" RFC822.SIZE 4286 ",
        MINUTES,
        "FLAGS (\\Seen) INTERNALDATE \"17-Jul-1996 02:44:25 -0700\" RFC822.SIZE 4286 ENVELOPE (\"Wed, 17 Jul 1996 02:23:25 -0700 (PDT)\" \"IMAP4rev1 WG mtg summary and minutes\" ((\"Terry Gray\" NIL \"gray\" \"cac.washington.edu\")) ((\"Terry Gray\" NIL \"gray\" \"cac.washington.edu\")) ((\"Terry Gray\" NIL \"gray\" \"cac.washington.edu\")) ((NIL NIL \"imap\" \"cac.washington.edu\")) ((NIL NIL \"minutes\" \"CNRI.Reston.VA.US\")(\"John Klensin\" NIL \"KLENSIN\" \"MIT.EDU\")) NIL NIL \"<B27397-0100000@cac.washington.edu>\") BODY (\"TEXT\" \"PLAIN\" (\"CHARSET\" \"US-ASCII\") NIL NIL \"7bit\" 7 1)",
    ),
    (
        " 1:* (UID BODYSTRUCTURE) (CHANGEDSINCE 5)\r\n",
        " 1:* (UID BODY.PEEK[]) (CHANGEDSINCE 5)\r\n",
        "UID 5 ",
        MINUTES,
        "UID 5 BODYSTRUCTURE (\"TEXT\" \"PLAIN\" (\"CHARSET\" \"US-ASCII\") NIL NIL \"7bit\" 7 1 NIL NIL NIL NIL)",
    ),
    (
        " 1 (rfc822.text RFC822.HEADER)\r\n",
        " 1 (BODY[])\r\n",
        "",
        "a: b\r\n\r\nc\r\n",
        "RFC822.TEXT {3}\r\nc\r\n RFC822.HEADER {8}\r\na: b\r\n\r\n",
    ),
    (
        " 1 RFC822\r\n",
        " 1 (BODY[])\r\n",
        "",
        "\r\nc",
        "RFC822 {3}\r\n\r\nc",
    ),
    (
        " 1 RFC822.PEEK\r\n",
        " 1 (BODY.PEEK[])\r\n",
        "",
        "\r\nc",
        "RFC822 {3}\r\n\r\nc",
    ),
    (
        " 1 rfc822.text.peek\r\n",
        " 1 (BODY.PEEK[])\r\n",
        "",
        "\r\nc",
        "RFC822.TEXT {1}\r\nc",
    ),
    // RFC 3501, section 6.4.5: numbers of parts.
    (
        " 1 BODY[1]\r\n",
        " 1 (BODY[])\r\n",
        "",
        TWO_PARTS,
        "BODY[1] {3}\r\none",
    ),
    (
        " 1 body.peek[1]<1.1>\r\n",
        " 1 (BODY.PEEK[])\r\n",
        "",
        TWO_PARTS,
        "BODY[1]<1> {1}\r\nn",
    ),
    (
        " 1 BODY[1]<3.9>\r\n",
        " 1 (BODY[])\r\n",
        "",
        TWO_PARTS,
        "BODY[1]<3> {0}\r\n",
    ),
    (
        " 1 (BODY.PEEK[1.MIME] BODY.PEEK[2.mime])\r\n",
        " 1 (BODY.PEEK[])\r\n",
        "",
        TWO_PARTS,
        "BODY[1.MIME] {2}\r\n\r\n BODY[2.MIME] {32}\r\nContent-Type: message/rfc822\r\n\r\n",
    ),
    (
        " 1 (BODY[2] FLAGS)\r\n",
        " 1 (FLAGS BODY[])\r\n",
        "FLAGS () ",
        TWO_PARTS,
        "FLAGS () BODY[2] {19}\r\nSubject: in\r\n\r\nbody",
    ),
    (
        " 1 (BODY.PEEK[2.HEADER] BODY.PEEK[2.TEXT] BODY.PEEK[2.1] BODY.PEEK[2.1.MIME])\r\n",
        " 1 (BODY.PEEK[])\r\n",
        "",
        TWO_PARTS,
        "BODY[2.HEADER] {15}\r\nSubject: in\r\n\r\n BODY[2.TEXT] {4}\r\nbody BODY[2.1] {4}\r\nbody BODY[2.1.MIME] {15}\r\nSubject: in\r\n\r\n",
    ),
    (
        " 1 (BODY.PEEK[2.HEADER.FIELDS (SUBJECT \"x]y\")] BODY.PEEK[2.HEADER.FIELDS.NOT (subject)])\r\n",
        " 1 (BODY.PEEK[])\r\n",
        "",
        TWO_PARTS,
        "BODY[2.HEADER.FIELDS (SUBJECT x]y)] {15}\r\nSubject: in\r\n\r\n BODY[2.HEADER.FIELDS.NOT (subject)] {2}\r\n\r\n",
    ),
    (
        " 1 (BODY[3] BODY[1.1] BODY[1.HEADER] BODY[2.2])\r\n",
        " 1 (BODY[])\r\n",
        "",
        TWO_PARTS,
        "BODY[3] NIL BODY[1.1] NIL BODY[1.HEADER] NIL BODY[2.2] NIL",
    ),
    (
        " 1 (BODY.PEEK[1] BODY.PEEK[2] BODY.PEEK[3.HEADER] BODY.PEEK[3.1] BODY.PEEK[3.2] BODY.PEEK[4.1] BODY.PEEK[4.1.MIME] BODY.PEEK[4.2.HEADER] BODY.PEEK[4.2.1] BODY.PEEK[4.2.2.1] BODY.PEEK[4.2.2.2] BODY.PEEK[4.2.2.3])\r\n",
        " 1 (BODY.PEEK[])\r\n",
        "",
        NUMBERED_PARTS,
        "BODY[1] {3}\r\none BODY[2] {3}\r\ntwo BODY[3.HEADER] {61}\r\nSubject: three\r\nContent-Type: multipart/mixed; boundary=b\r\n\r\n BODY[3.1] {9}\r\nthree one BODY[3.2] {9}\r\nthree two BODY[4.1] {8}\r\nfour one BODY[4.1.MIME] {27}\r\nContent-Type: image/gif\r\n\r\n BODY[4.2.HEADER] {64}\r\nSubject: four two\r\nContent-Type: multipart/mixed; boundary=d\r\n\r\n BODY[4.2.1] {12}\r\nfour two one BODY[4.2.2.1] {5}\r\nplain BODY[4.2.2.2] {4}\r\nrich BODY[4.2.2.3] NIL",
    ),
    // The body of what is no multipart is part 1.
    (
        " 1 BODY[1]\r\n",
        " 1 (BODY[])\r\n",
        "",
        "a: b\r\n\r\nc\r\n",
        "BODY[1] {3}\r\nc\r\n",
    ),
    (
        " 1 BODY[2]\r\n",
        " 1 (BODY[])\r\n",
        "",
        "a: b\r\n\r\nc\r\n",
        "BODY[2] NIL",
    ),
    // Sections of the profile, in the client's order.
    (
        " 1 (BODY[HEADER] BODY[1] BODY.PEEK[TEXT]<0.1> BODY[])\r\n",
        " 1 (BODY[])\r\n",
        "",
        "a: b\r\n\r\nc\r\n",
        "BODY[HEADER] {8}\r\na: b\r\n\r\n BODY[1] {3}\r\nc\r\n BODY[TEXT]<0> {1}\r\nc BODY[] {11}\r\na: b\r\n\r\nc\r\n",
    ),
];

/// Arguments that aren't planned: the profile judges them.
const OTHERS: &[&str] = &[
    "\r\n",
    " 1\r\n",
    " 1 FLAGS\r\n",
    " 1 (FLAGS UID)\r\n",
    " 1 (ENVELOPE ALL)\r\n",
    " 1 (ENVELOPE,UID)\r\n",
    " 1 (ENVELOPE\r\n",
    " 1 ()\r\n",
    " 1 BODY[1\r\n",
    " 1 BODY[1.MIMES]\r\n",
    " 1 BODY[MIME]\r\n",
    " 1 BODY[1.]\r\n",
    " 1 BODY[4294967296]\r\n",
    " 1 BODYSTRUCTURES\r\n",
    " 1 BINARY[1]\r\n",
];

/// What the profile is asked for, and what is shown of its answer.
fn row_text(alloc: Global, row: &Row) -> Result<String, AllocError> {
    let (arguments, _, plain, message, _) = *row;
    match plan_fetch(alloc, arguments.as_bytes())? {
        Some(FetchRequest::Planned { rest, plan }) => {
            let rest = latin(alloc, &rest)?;
            let shown = shown_text(alloc, &plan, plain, message)?;
            format!(in alloc; "{rest}{shown}")
        }
        _ => format!(in alloc; "not planned"),
    }
}

/// What is shown of the answer with the whole text of a message.
fn shown_text(
    alloc: Global,
    plan: &FetchPlan,
    plain: &str,
    message: &str,
) -> Result<String, AllocError> {
    let len = message.len();
    let reply = format!(in alloc; "* 12 FETCH ({plain}BODY[] {{{len}}}\r\n{message})\r\n")?;
    let mut text = Vec::new(alloc);
    if let Some((answer, _)) = read(alloc, reply.as_bytes())? {
        push_shown(alloc, plan, &answer, &mut text)?;
    }
    latin(alloc, &text)
}

/// Appends what is shown of an answer, if it is one to FETCH.
fn push_shown(
    alloc: Global,
    plan: &FetchPlan,
    answer: &Answer,
    text: &mut Vec<u8>,
) -> Result<(), AllocError> {
    match answer {
        Answer::Fetch { number, items } => show_fetch(alloc, plan, *number, items, text),
        _ => Ok(()),
    }
}

/// The first row that isn't as it says, if any: what it is, and what it should be.
fn first_wrong_row(alloc: Global) -> Result<Option<String>, AllocError> {
    for row in ROWS {
        let (_, rest, _, _, items) = *row;
        let text = row_text(alloc, row)?;
        let expected = format!(in alloc; "{rest}* 12 FETCH ({items})\r\n")?;
        if text != expected {
            return Ok(Some(format!(in alloc; "{text}\n{expected}")?));
        }
    }
    Ok(None)
}

#[test]
fn items_are_made_of_the_text(rt: HostRuntime) -> Result<(), Fail> {
    let wrong = first_wrong_row(rt.alloc())?;
    assert_eq!(rt; wrong.as_deref(), None);
    Ok(())
}

/// The first arguments that are planned although the profile should judge them, if any.
fn first_planned(alloc: Global) -> Result<Option<&'static str>, AllocError> {
    for arguments in OTHERS {
        if plan_fetch(alloc, arguments.as_bytes())?.is_some() {
            return Ok(Some(arguments));
        }
    }
    Ok(None)
}

#[test]
fn others_are_left_to_the_profile(rt: HostRuntime) -> Result<(), Fail> {
    assert_eq!(rt; first_planned(rt.alloc())?, None);
    Ok(())
}

/// Whether a part with the number 0 is found.
fn has_part_zero(alloc: Global, arguments: &str) -> Result<bool, AllocError> {
    match plan_fetch(alloc, arguments.as_bytes())? {
        Some(FetchRequest::PartZero) => Ok(true),
        _ => Ok(false),
    }
}

#[test]
fn part_zero_is_refused(rt: HostRuntime) -> Result<(), Fail> {
    let alloc = rt.alloc();
    let zero = has_part_zero(alloc, " 1 BODY[0]\r\n")?;
    assert!(rt; zero);
    let below = has_part_zero(alloc, " 1 (UID BODY.PEEK[1.0.TEXT])\r\n")?;
    assert!(rt; below);
    let leading = has_part_zero(alloc, " 1 BODY[01]\r\n")?;
    assert!(rt; leading);
    Ok(())
}
