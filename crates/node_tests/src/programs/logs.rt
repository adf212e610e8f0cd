//! Dumps of logs: readers and writers that fail, and the line and the status with which one ends.

use crate::programs::devices::{BoundedWriter, OneOctetReader};
use crate::programs::screen::Screen;
use log_dump::{LogDumpEnd, dump_log};
use mail_replay::{dump_log_file, dump_log_from};
use std::alloc::Global;
use std::io::{ErrorKind, Read};

/// A log of one operation, and of the beginning of a batch that a crash cut short. The checksums
/// are those of another program.
const LOG: &str = r#"A0AE879A log 1 1
0306D4EA commit 0
419D5627 op 1:1 - create work
EB592093 commit 35
1E0076A5 op 1:2 1=1 app"#;

const DUMP: &str = r#"dump 1
op 1:1 - create work
folder INBOX -
folder work 1:1
end
"#;

/// A log whose third line is no entry.
const UNSOUND_LOG: &str = r#"A0AE879A log 1 1
0306D4EA commit 0
9A71BB4C hello
"#;

/// How the dump of the log ends at a reader that fails once, after `before` octets, and whether
/// this text was written.
fn ends(alloc: Global, before: usize, fault: ErrorKind, end: LogDumpEnd, text: &str) -> bool {
    let mut reader = OneOctetReader {
        octets: LOG.as_bytes(),
        before,
        fault: Some(fault),
    };
    let mut printed = Vec::new(alloc);
    dump_log(alloc, &mut reader, &mut printed) == end && printed.as_slice() == text.as_bytes()
}

fn reports_each_reader(alloc: Global) -> bool {
    ends(
        alloc,
        0,
        ErrorKind::Other,
        LogDumpEnd::ReadFailed,
        "cannot read\n",
    ) && ends(
        alloc,
        40,
        ErrorKind::Other,
        LogDumpEnd::ReadFailed,
        "cannot read\n",
    ) && ends(
        alloc,
        40,
        ErrorKind::OutOfMemory,
        LogDumpEnd::NoMemory,
        "no memory\n",
    ) && ends(alloc, 40, ErrorKind::Interrupted, LogDumpEnd::Done, DUMP)
}

#[test]
fn reports_readers_of_logs_that_fail(rt: HostRuntime) {
    assert!(rt; reports_each_reader(rt.alloc()));
}

/// How the dump of the log ends at a writer of this size, and the number of octets that it took, if
/// they begin the dump.
fn written(alloc: Global, room: usize, flushes: bool) -> (LogDumpEnd, Option<usize>) {
    let mut reader = LOG.as_bytes();
    let mut writer = BoundedWriter {
        taken: Vec::new(alloc),
        room,
        flushes,
    };
    let end = dump_log(alloc, &mut reader, &mut writer);
    let begins = DUMP.as_bytes().starts_with(&writer.taken);
    (end, begins.then_some(writer.taken.len()))
}

/// The first size of a writer, less than the dump, at which it doesn't end with a failed write and
/// that many octets.
fn first_wrong_room(alloc: Global) -> Option<usize> {
    (0..DUMP.len()).find(|room| written(alloc, *room, true)
        != (LogDumpEnd::WriteFailed, Some(*room)))
}

#[test]
fn reports_writers_of_dumps_that_fail(rt: HostRuntime) {
    let alloc = rt.alloc();
    let whole = DUMP.len();
    assert_eq!(rt; first_wrong_room(alloc), None);
    assert_eq!(rt;
        written(alloc, whole, true),
        (LogDumpEnd::Done, Some(whole))
    );
    assert_eq!(rt;
        written(alloc, whole, false),
        (LogDumpEnd::WriteFailed, Some(whole))
    );
}

/// Whether the program that dumps this reader's log ends with this status and prints this text.
fn shows<S: Read + Drop>(alloc: Global, log: S, status: u8, text: &str) -> bool {
    let screen = Screen::new(alloc, true);
    dump_log_from(&(&screen, alloc), log) == status && screen.has_shown(text)
}

/// Whether the program ends with status 3 if it can't print.
fn fails_without_a_screen(alloc: Global) -> bool {
    let screen = Screen::new(alloc, false);
    dump_log_from(&(&screen, alloc), LOG.as_bytes()) == 3
}

fn gives_each_status(alloc: Global) -> bool {
    let broken = OneOctetReader {
        octets: LOG.as_bytes(),
        before: 40,
        fault: Some(ErrorKind::Other),
    };
    shows(alloc, LOG.as_bytes(), 0, DUMP)
        && shows(alloc, "".as_bytes(), 3, "unreadable: octet 0\n")
        && shows(alloc, UNSOUND_LOG.as_bytes(), 3, "unreadable: octet 35\n")
        && shows(alloc, broken, 3, "cannot read\n")
        && fails_without_a_screen(alloc)
}

#[test]
fn gives_the_status_of_a_dump(rt: HostRuntime) {
    assert!(rt; gives_each_status(rt.alloc()));
    assert_eq!(rt; dump_log_file(&rt, "no file has this name"), 3);
}
