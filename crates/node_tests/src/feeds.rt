//! The notes of a feed, and sessions that learn of more changes than their feed can hold.

use crate::node_sessions::{
    NodeSession, answers, begin, begin_at, deliver_last, may_have_unsent_changes,
};
use idle_feed::{Feed, TakenNotes};
use session_view::Note;
use std::alloc::Global;

#[test]
fn a_feed_gives_its_notes(rt: HostRuntime) {
    assert!(rt; gives_its_notes(rt.alloc(), 3) == Some(true));
    assert!(rt; gives_its_notes(rt.alloc(), 4_096) == Some(true));
}

#[test]
fn a_feed_that_missed_a_note_resyncs_once(rt: HostRuntime) {
    assert!(rt; resyncs_once(rt.alloc(), 4_097) == Some(true));
}

#[test]
fn more_changes_than_a_feed_holds_are_sent(rt: HostRuntime) {
    assert!(rt; is_sent_once(rt.alloc(), 4_097) == Some(true));
}

#[test]
fn as_many_changes_as_a_feed_holds_are_sent(rt: HostRuntime) {
    assert!(rt; is_sent_once(rt.alloc(), 3) == Some(true));
}

#[test]
fn own_commands_leave_nothing_unsent(rt: HostRuntime) {
    let own = [
        "c FETCH 1 FLAGS\r\n",
        "d NOOP\r\n",
        "e STORE 1 +FLAGS (\\Seen)\r\n",
        "f IDLE\r\n",
        "DONE\r\n",
        "g FETCH 9 FLAGS\r\n",
        "h STORE 1 +FLAGS (\\Deleted)\r\n",
        "i UID EXPUNGE 1\r\n",
        "j APPEND INBOX {1+}\r\ny\r\n",
        "k APPEND other {1+}\r\ny\r\n",
    ];
    assert!(rt; has_unsent_after(rt.alloc(), &own, b"----------") == Some(true));
}

#[test]
fn changes_elsewhere_are_unsent_until_shown(rt: HostRuntime) {
    let mixed = [
        "c FETCH 1 FLAGS\r\n",
        "elsewhere d APPEND INBOX {1+}\r\ny\r\n",
        "e NOOP\r\n",
        "elsewhere f STORE 1 +FLAGS (\\Deleted)\r\n",
        "g FETCH 1 FLAGS\r\n",
        "elsewhere h EXPUNGE\r\n",
        "i FETCH 1 FLAGS\r\n",
        "j NOOP\r\n",
        "elsewhere k CREATE other\r\n",
        "elsewhere l APPEND other {1+}\r\ny\r\n",
        "elsewhere m APPEND INBOX {1+}\r\ny\r\n",
        "n IDLE\r\n",
        "DONE\r\n",
    ];
    assert!(rt; has_unsent_after(rt.alloc(), &mixed, b"-!-!-!!---!!-") == Some(true));
}

#[test]
fn select_leaves_nothing_unsent(rt: HostRuntime) {
    let selected = [
        "c SELECT INBOX\r\n",
        "d EXAMINE INBOX\r\n",
        "elsewhere e STORE 1 +FLAGS (\\Seen)\r\n",
        "f SELECT INBOX\r\n",
        "g UNSELECT\r\n",
        "elsewhere h APPEND INBOX {1+}\r\ny\r\n",
        "i SELECT INBOX\r\n",
        "j FETCH 2 FLAGS\r\n",
    ];
    assert!(rt; has_unsent_after(rt.alloc(), &selected, b"--!-----") == Some(true));
}

/// Whether, after each of these steps, something may have to be sent to a session that has selected
/// INBOX with one message: `!` in `expected` for yes, `-` for no. A step `elsewhere ..` is taken at
/// another replica, whose last operation is then delivered.
fn has_unsent_after(alloc: Global, steps: &[&str], expected: &[u8]) -> Option<bool> {
    let mut other = begin(alloc, "joe", "secret")?;
    let mut reader = begin_at(alloc, 2, "joe", "secret")?;
    answers(
        alloc,
        &mut other,
        "a LOGIN joe secret\r\nb APPEND INBOX {1+}\r\nx\r\nc SELECT INBOX\r\n",
    )?;
    deliver_last(alloc, &other, &mut reader)?;
    answers(
        alloc,
        &mut reader,
        "a LOGIN joe secret\r\nb SELECT INBOX\r\n",
    )?;
    let mut output = Vec::new(alloc);
    for step in steps {
        take_step(alloc, &mut other, &mut reader, step)?;
        output
            .push(if may_have_unsent_changes(&reader) {
                b'!'
            } else {
                b'-'
            })
            .ok()?;
    }
    Some(output.as_slice() == expected)
}

fn take_step(
    alloc: Global,
    other: &mut NodeSession,
    reader: &mut NodeSession,
    step: &str,
) -> Option<()> {
    match step.strip_prefix("elsewhere ") {
        Some(text) => {
            answers(alloc, other, text)?;
            deliver_last(alloc, other, reader)
        }
        None => {
            answers(alloc, reader, step)?;
            Some(())
        }
    }
}

/// The note at a place of a list that has each kind.
fn note_at(place: u32) -> Note {
    match place % 4 {
        0 => Note::New { uid: place },
        1 => Note::Gone { uid: place },
        2 => Note::Changed { uid: place },
        _ => Note::Ended,
    }
}

/// The first `count` notes.
fn first_notes(alloc: Global, count: u32) -> Option<Vec<Note>> {
    let mut notes = Vec::new(alloc);
    for place in 0..count {
        notes.push(note_at(place)).ok()?;
    }
    Some(notes)
}

/// A feed to which the first `count` notes were added.
fn feed_of(alloc: Global, count: u32) -> Option<Feed> {
    let mut feed = Feed::new(alloc);
    for place in 0..count {
        feed.ready(1).ok()?;
        feed.note(note_at(place));
    }
    Some(feed)
}

/// Whether the first call of `take` gives these notes in their order, and the second none.
fn gives_its_notes(alloc: Global, count: u32) -> Option<bool> {
    let notes = first_notes(alloc, count)?;
    let mut feed = feed_of(alloc, count)?;
    Some(takes(&mut feed, &notes) && takes(&mut feed, &[]))
}

/// Whether the first call of `take` gives a resync, and the second no notes.
fn resyncs_once(alloc: Global, count: u32) -> Option<bool> {
    let mut feed = feed_of(alloc, count)?;
    Some(takes_resync(&mut feed) && takes(&mut feed, &[]))
}

/// Whether `take` gives just these notes.
fn takes(feed: &mut Feed, expected: &[Note]) -> bool {
    match feed.take() {
        TakenNotes::Changes { changes } => changes.notes() == expected,
        TakenNotes::Resync => false,
    }
}

/// Whether `take` gives a resync.
fn takes_resync(feed: &mut Feed) -> bool {
    match feed.take() {
        TakenNotes::Changes { .. } => false,
        TakenNotes::Resync => true,
    }
}

/// Whether a session at one replica is sent one answer for `changes` changes, an odd number, that
/// another replica makes to the flags of its only message.
fn is_sent_once(alloc: Global, changes: u32) -> Option<bool> {
    let mut writer = begin(alloc, "joe", "secret")?;
    let mut reader = begin_at(alloc, 2, "joe", "secret")?;
    answers(
        alloc,
        &mut writer,
        "a LOGIN joe secret\r\nb APPEND INBOX {1+}\r\nx\r\nc SELECT INBOX\r\n",
    )?;
    deliver_last(alloc, &writer, &mut reader)?;
    answers(
        alloc,
        &mut reader,
        "a LOGIN joe secret\r\nb SELECT INBOX\r\nc NOOP\r\n",
    )?;
    for change in 0..changes {
        let command = if change % 2 == 0 {
            "d STORE 1 +FLAGS (\\Seen)\r\n"
        } else {
            "d STORE 1 -FLAGS (\\Seen)\r\n"
        };
        answers(alloc, &mut writer, command)?;
        deliver_last(alloc, &writer, &mut reader)?;
    }
    let output = answers(alloc, &mut reader, "d NOOP\r\ne NOOP\r\n")?;
    Some(
        output.as_slice()
            == b"* 1 FETCH (UID 1 FLAGS (\\Seen))|d OK NOOP completed|e OK NOOP completed|".as_slice(),
    )
}
