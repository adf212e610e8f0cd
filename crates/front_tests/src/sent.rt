//! SEARCH by the days on which messages were sent (RFC 3501, section 6.4.4).

use crate::descriptions::tagged_text;
use imap_answers::Answer;
use imap_grammar::parse;
use imap_print::read;
use rev1_front::{Awaited, Mode, SentDay, Taken, sent_days, take, take_with_days};
use std::alloc::{AllocError, Global};
use std::test::Fail;

/// Headers of messages with the UIDs 2, 4, 6 and so on. The days: 1 February 1994, the same day in
/// another zone and another form, the day after it, none, none, 1 February 2021, and none.
const HEADERS: &[&str] = &[
    "Date: Tue, 1 Feb 1994 23:59:59 -0800\r\n\r\n",
    "X: y\r\ndate:\r\n 01 feb 94 (Tuesday) 00:00 +0000\r\nDate: 5 Mar 2000\r\n\r\n",
    "Date: 2-Feb-1994\r\n\r\n",
    "Date: 31 Feb 1994 00:00:00 +0000\r\n\r\n",
    "Subject: no date\r\n\r\nDate: 1 Feb 1994\r\n",
    "Date: Mon, 1 February 21 10:00:00 GMT\r\n\r\n",
    "Date: tomorrow\r\n\r\n",
];

/// A frame, and the frame of the profile that it is with these messages.
const ROWS: &[(&str, &str)] = &[
    ("a SEARCH SENTON 1-Feb-1994\r\n", "a SEARCH UID 2,4\r\n"),
    (
        "a SEARCH sentbefore \"2-Feb-1994\"\r\n",
        "a SEARCH UID 2,4\r\n",
    ),
    (
        "a SEARCH SENTSINCE 2-Feb-1994 SEEN\r\n",
        "a SEARCH UID 6,12 SEEN\r\n",
    ),
    ("a SEARCH SENTON 3-Feb-1994\r\n", "a SEARCH NOT ALL\r\n"),
    (
        "a UID SEARCH (OR SENTSINCE 1-Jan-2020 NOT SENTBEFORE 2-Feb-1994) SUBJECT SENTON\r\n",
        "a UID SEARCH (OR UID 12 NOT UID 2,4) SUBJECT SENTON\r\n",
    ),
];

/// The days in the messages.
fn days(alloc: Global) -> Result<Vec<SentDay>, AllocError> {
    let mut answers = Vec::new(alloc);
    for i in 0..HEADERS.len() {
        let uid = 2 * i + 2;
        let number = i + 1;
        let header = HEADERS[i];
        let len = header.len();
        let text = format!(in alloc;
            "* {number} FETCH (UID {uid} BODY[] {{{len}}}\r\n{header})\r\n"
        )?;
        push_answer(alloc, text.as_bytes(), &mut answers)?;
    }
    sent_days(alloc, &answers)
}

fn push_answer(alloc: Global, text: &[u8], answers: &mut Vec<Answer>) -> Result<(), AllocError> {
    match read(alloc, text)? {
        None => Ok(()),
        Some((answer, _)) => Ok(answers.push(answer)?),
    }
}

/// The FETCH for the days, and the search with them, as text.
fn search_text(alloc: Global, days: &[SentDay], frame: &str) -> Result<String, AllocError> {
    let first = take(alloc, Mode::Rev1, &Awaited::Command, frame.as_bytes())?;
    if !matches!(&first, Taken::AsksDays { .. }) {
        return format!(in alloc; "no question for days");
    }
    match take_with_days(alloc, Mode::Rev1, days, frame.as_bytes())? {
        Taken::Command { tagged, form: _ } => tagged_text(alloc, &tagged),
        _ => format!(in alloc; "no command"),
    }
}

/// The command that a frame of the profile spells, as text.
fn expected_text(alloc: Global, frame: &str) -> Result<String, AllocError> {
    match parse(alloc, frame.as_bytes()) {
        Ok(tagged) => tagged_text(alloc, &tagged),
        Err(_) => format!(in alloc; "not of the profile"),
    }
}

/// The first search that isn't as its row says, if any.
fn first_wrong_search(alloc: Global) -> Result<Option<String>, AllocError> {
    let days = days(alloc)?;
    for row in ROWS {
        let (frame, inner) = *row;
        let text = search_text(alloc, &days, frame)?;
        let expected = expected_text(alloc, inner)?;
        if text != expected {
            return Ok(Some(format!(in alloc; "{frame}{text}\n{expected}")?));
        }
    }
    Ok(None)
}

#[test]
fn searches_find_days(rt: HostRuntime) -> Result<(), Fail> {
    let wrong = first_wrong_search(rt.alloc())?;
    assert_eq!(rt; wrong.as_deref(), None);
    Ok(())
}

/// Whether a frame is refused at once, without a question for days.
fn is_refused(alloc: Global, frame: &str) -> Result<bool, AllocError> {
    let taken = take(alloc, Mode::Rev1, &Awaited::Command, frame.as_bytes())?;
    Ok(matches!(&taken, Taken::Answer(_)))
}

#[test]
fn other_dates_are_refused(rt: HostRuntime) -> Result<(), Fail> {
    let alloc = rt.alloc();
    let no_day = is_refused(alloc, "a SEARCH SENTON 31-Feb-1994\r\n")?;
    assert!(rt; no_day);
    let no_date = is_refused(alloc, "a SEARCH SENTON\r\n")?;
    assert!(rt; no_date);
    let other_fault = is_refused(alloc, "a SEARCH SENTON 1-Feb-1994 XYZZY\r\n")?;
    assert!(rt; other_fault);
    Ok(())
}
