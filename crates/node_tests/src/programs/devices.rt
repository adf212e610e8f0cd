//! Replays from readers and to writers that fail, and the line and the status that end a replay.

use mail_replay::{MAX_READS, ReplayEnd, replay, write_last_line};
use std::alloc::Global;
use std::io;
use std::io::{ErrorKind, Read, Write};

const FIRST_RUN: &str = r#"node 1
open 1 x
line x a1 CREATE work
line x a2 LIST "" *
show 1
"#;

const FIRST_RUN_PRINTS: &str = r#"x S: * PREAUTH [CAPABILITY IMAP4rev2 IDLE CONDSTORE] ready
x C: a1 CREATE work
x S: a1 OK CREATE completed
x C: a2 LIST "" *
x S: * LIST () "/" INBOX
x S: * LIST () "/" work
x S: a2 OK LIST completed
dump 1
op 1:1 - create work
folder INBOX -
folder work 1:1
end
"#;

/// A reader that gives one octet per read, and once, after `before` reads, an error of this kind
/// instead.
#[derive(Drop)]
pub struct OneOctetReader {
    pub octets: &'static [u8],
    pub before: usize,
    pub fault: Option<ErrorKind>,
}

impl Read for OneOctetReader {
    fn read(&mut self, buf: &mut [u8]) -> io::Result<usize> {
        if self.before == 0 {
            if let Some(kind) = self.fault.take() {
                return Err(kind.into());
            }
        }
        self.before = self.before.saturating_sub(1);
        if self.octets.is_empty() || buf.is_empty() {
            return Ok(0);
        }
        buf[0] = self.octets[0];
        self.octets = &self.octets[1..];
        Ok(1)
    }
}

/// A reader that gives empty lines without end, and counts its reads.
#[derive(Drop)]
struct EmptyLinesReader {
    reads: u64,
}

impl Read for EmptyLinesReader {
    fn read(&mut self, buf: &mut [u8]) -> io::Result<usize> {
        self.reads = self.reads.saturating_add(1);
        if buf.is_empty() {
            return Ok(0);
        }
        buf[0] = b'\n';
        Ok(1)
    }
}

/// A writer that takes one octet per write and `room` octets in all, and may fail to flush.
#[derive(Drop)]
pub struct BoundedWriter {
    pub taken: Vec<u8>,
    pub room: usize,
    pub flushes: bool,
}

impl Write for BoundedWriter {
    fn write(&mut self, buf: &[u8]) -> io::Result<usize> {
        if self.room == 0 {
            return Err(ErrorKind::Other.into());
        }
        if buf.is_empty() {
            return Ok(0);
        }
        self.taken.push(buf[0])?;
        self.room -= 1;
        Ok(1)
    }

    fn flush(&mut self) -> io::Result<()> {
        if self.flushes {
            Ok(())
        } else {
            Err(ErrorKind::Other.into())
        }
    }
}

/// A reader that fails after `before` octets of the first run, how the replay ends, and how many
/// lines are printed by then.
#[derive(Clone, Copy)]
struct FailingReplay {
    before: usize,
    fault: ErrorKind,
    end: ReplayEnd,
    lines: usize,
}

const fn row(before: usize, fault: ErrorKind, end: ReplayEnd, lines: usize) -> FailingReplay {
    FailingReplay {
        before,
        fault,
        end,
        lines,
    }
}

fn first_wrong_reader(alloc: Global) -> Option<usize> {
    let readers = [
        row(0, ErrorKind::Other, ReplayEnd::ReadFailed, 0),
        row(7, ErrorKind::Other, ReplayEnd::ReadFailed, 0),
        row(15, ErrorKind::Other, ReplayEnd::ReadFailed, 0),
        row(16, ErrorKind::Other, ReplayEnd::ReadFailed, 1),
        row(38, ErrorKind::Other, ReplayEnd::ReadFailed, 3),
        row(45, ErrorKind::OutOfMemory, ReplayEnd::ReadFailed, 3),
        row(65, ErrorKind::Other, ReplayEnd::ReadFailed, 12),
        row(38, ErrorKind::Interrupted, ReplayEnd::Done, 12),
    ];
    readers
        .iter()
        .position(|reader| !fails_as_expected(alloc, *reader))
}

fn fails_as_expected(alloc: Global, failing: FailingReplay) -> bool {
    let mut reader = OneOctetReader {
        octets: FIRST_RUN.as_bytes(),
        before: failing.before,
        fault: Some(failing.fault),
    };
    let mut printed = Vec::new(alloc);
    let end = replay(alloc, &mut reader, &mut printed);
    let lines = printed.iter().filter(|octet| **octet == b'\n').count();
    end == failing.end
        && lines == failing.lines
        && FIRST_RUN_PRINTS.as_bytes().starts_with(&printed)
}

#[test]
fn reports_readers_that_fail(rt: HostRuntime) {
    assert_eq!(rt; first_wrong_reader(rt.alloc()), None);
}

fn ends_at_the_limit(alloc: Global) -> bool {
    let mut reader = EmptyLinesReader { reads: 0 };
    let mut printed: Vec<u8> = Vec::new(alloc);
    let end = replay(alloc, &mut reader, &mut printed);
    end == ReplayEnd::ReadFailed && reader.reads == MAX_READS && printed.is_empty()
}

#[test]
fn reads_no_more_than_its_limit(rt: HostRuntime) {
    assert!(rt; ends_at_the_limit(rt.alloc()) && MAX_READS == 16_777_216);
}

/// How the first run ends at a writer of this size, whether the octets that it took are a prefix of
/// the run's output, and their number.
fn written(alloc: Global, room: usize, flushes: bool) -> (ReplayEnd, bool, usize) {
    let mut reader = FIRST_RUN.as_bytes();
    let mut writer = BoundedWriter {
        taken: Vec::new(alloc),
        room,
        flushes,
    };
    let end = replay(alloc, &mut reader, &mut writer);
    let begins = FIRST_RUN_PRINTS.as_bytes().starts_with(&writer.taken);
    (end, begins, writer.taken.len())
}

/// The first size of a writer, less than the output, at which the first run doesn't end with a
/// failed write and that many octets.
fn first_wrong_room(alloc: Global) -> Option<usize> {
    (0..FIRST_RUN_PRINTS.len()).find(|room| written(alloc, *room, true)
        != (ReplayEnd::WriteFailed, true, *room))
}

#[test]
fn reports_writers_that_fail(rt: HostRuntime) {
    assert_eq!(rt; first_wrong_room(rt.alloc()), None);
    let whole = FIRST_RUN_PRINTS.len();
    assert_eq!(rt;
        written(rt.alloc(), whole, true),
        (ReplayEnd::Done, true, whole)
    );
    assert_eq!(rt; written(rt.alloc(), 1_000, false).0, ReplayEnd::WriteFailed);
}

fn ends_with_line(alloc: Global, end: ReplayEnd, line: &str, status: u8) -> bool {
    let mut printed = Vec::new(alloc);
    write_last_line(alloc, end, &mut printed) == status && printed.as_slice() == line.as_bytes()
}

fn reports_each_end(alloc: Global) -> bool {
    ends_with_line(alloc, ReplayEnd::Done, "", 0)
        && ends_with_line(
            alloc,
            ReplayEnd::BadScript { line: 2 },
            "bad script: line 2\n",
            3,
        )
        && ends_with_line(alloc, ReplayEnd::ReadFailed, "cannot read\n", 3)
        && ends_with_line(alloc, ReplayEnd::WriteFailed, "", 3)
        && ends_with_line(alloc, ReplayEnd::NoMemory, "no memory\n", 3)
}

#[test]
fn reports_the_end(rt: HostRuntime) {
    assert!(rt; reports_each_end(rt.alloc()));
}
