//! Audits: inputs that arrive in pieces, readers and writers that fail, and the status with which
//! an audit ends.

use crate::programs::screen::Screen;
use mail_audit::{AuditEnd, MAX_READS, audit};
use mail_replay::{audit_file, audit_from};
use std::alloc::{AllocError, Global};
use std::io;
use std::io::{ErrorKind, Read, Write};

/// A session in which a message is expunged while FETCH is in progress and NOOP reports it (RFC
/// 9051, 7.5.1), and a dump.
const RIGHT: &str = r#"x S: * PREAUTH [CAPABILITY IMAP4rev2 IDLE CONDSTORE] ready
x C: a1 SELECT INBOX
x S: * 3 EXISTS
x S: a1 OK [READ-WRITE] SELECT completed
x C: a2 FETCH 1:3 UID
x S: * 1 FETCH (UID 1)
x S: * 3 FETCH (UID 3)
x S: a2 OK [EXPUNGEISSUED] FETCH completed
x C: a3 NOOP
x S: * 2 EXPUNGE
x S: a3 OK NOOP completed
dump 1
op 1:1 - create work
folder INBOX -
folder work 1:1
end
"#;

/// FETCH reports that a message was expunged, which it mustn't (RFC 9051, 7.5.1).
const WRONG: &str = r#"x C: a1 SELECT INBOX
x S: * 3 EXISTS
x S: a1 OK [READ-WRITE] SELECT completed
x C: a2 FETCH 1 UID
x S: * 2 EXPUNGE
x S: a2 OK FETCH completed
"#;

/// A dump without the folder that its operation creates.
const WRONG_DUMP: &str = "dump 1\nop 1:1 - create work\nfolder INBOX -\nend\n";

/// An input, how its audit ends, and the line that it prints.
#[derive(Clone, Copy)]
struct Case {
    input: &'static str,
    end: AuditEnd,
    line: &'static str,
}

const fn row(input: &'static str, end: AuditEnd, line: &'static str) -> Case {
    Case { input, end, line }
}

/// Right, wrong and unreadable inputs, whose last lines end with a line feed or without one.
fn cases() -> [Case; 8] {
    [
        row("", AuditEnd::Yes, "yes\n"),
        row(RIGHT, AuditEnd::Yes, "yes\n"),
        row("settle: Ok", AuditEnd::Yes, "yes\n"),
        row(WRONG, AuditEnd::No(5), "no: line 5\n"),
        row(WRONG_DUMP, AuditEnd::No(4), "no: line 4\n"),
        row(
            "settle: Ok\nx S: * 1 EXPUNGE",
            AuditEnd::No(2),
            "no: line 2\n",
        ),
        row(
            "settle: Ok\nhello\nsettle: Ok\n",
            AuditEnd::Unreadable(2),
            "unreadable: line 2\n",
        ),
        row(
            "dump 1\nop 1:1 - create work",
            AuditEnd::Unreadable(2),
            "unreadable: line 2\n",
        ),
    ]
}

/// A reader that gives at most `piece` octets per read, and `Interrupted` instead at each read
/// whose number is divisible by `every`; at none if that is 0.
#[derive(Drop)]
struct InterruptedReader<'a> {
    octets: &'a [u8],
    piece: usize,
    every: u64,
    reads: u64,
}

impl Read for InterruptedReader<'_> {
    fn read(&mut self, buf: &mut [u8]) -> io::Result<usize> {
        self.reads = self.reads.saturating_add(1);
        if self.reads.checked_rem(self.every) == Some(0) {
            return Err(ErrorKind::Interrupted.into());
        }
        let count = self.piece.min(buf.len()).min(self.octets.len());
        let (given, rest) = self.octets.split_at(count);
        buf[..count].copy_from_slice(given);
        self.octets = rest;
        Ok(count)
    }
}

/// A reader that gives one octet per read and fails once, after `before` reads.
#[derive(Drop)]
struct FailingReader {
    octets: &'static [u8],
    before: usize,
    fault: Option<ErrorKind>,
}

impl Read for FailingReader {
    fn read(&mut self, buf: &mut [u8]) -> io::Result<usize> {
        if self.before == 0 {
            if let Some(kind) = self.fault.take() {
                return Err(kind.into());
            }
        }
        self.before = self.before.saturating_sub(1);
        let one = buf.len().min(1);
        self.octets.read(&mut buf[..one])
    }
}

/// A reader that is interrupted `interruptions` times, and then gives its octets at once.
#[derive(Drop)]
struct LateReader {
    octets: &'static [u8],
    interruptions: u64,
    reads: u64,
}

impl Read for LateReader {
    fn read(&mut self, buf: &mut [u8]) -> io::Result<usize> {
        self.reads = self.reads.saturating_add(1);
        if self.reads <= self.interruptions {
            return Err(ErrorKind::Interrupted.into());
        }
        self.octets.read(buf)
    }
}

/// A writer that takes at most `piece` octets per write and fails once, after `before` writes. It
/// may fail to flush.
#[derive(Drop)]
struct FailingWriter {
    taken: Vec<u8>,
    piece: usize,
    before: usize,
    fault: Option<ErrorKind>,
    flushes: bool,
}

impl Write for FailingWriter {
    fn write(&mut self, buf: &[u8]) -> io::Result<usize> {
        if self.before == 0 {
            if let Some(kind) = self.fault.take() {
                return Err(kind.into());
            }
        }
        self.before = self.before.saturating_sub(1);
        let count = self.piece.min(buf.len());
        self.taken.extend_from_slice(&buf[..count])?;
        Ok(count)
    }

    fn flush(&mut self) -> io::Result<()> {
        if self.flushes {
            Ok(())
        } else {
            Err(ErrorKind::Other.into())
        }
    }
}

/// Whether the audit of this reader's input has this end and writes this line.
fn ends<R: Read>(alloc: Global, reader: &mut R, end: AuditEnd, line: &str) -> bool {
    let mut written = Vec::new(alloc);
    audit(alloc, reader, &mut written) == end && written.as_slice() == line.as_bytes()
}

/// Whether the audit of an input ends as the case says. The input arrives in pieces of at most as
/// many octets as the first part of `how`, and each read whose number is divisible by the second is
/// interrupted.
fn ends_as_expected(alloc: Global, input: &[u8], how: (usize, u64), case: Case) -> bool {
    let mut reader = InterruptedReader {
        octets: input,
        piece: how.0,
        every: how.1,
        reads: 0,
    };
    ends(alloc, &mut reader, case.end, case.line)
}

/// Whether the audit of a case ends as it should, whatever the pieces.
fn audits_in_pieces(alloc: Global, case: Case) -> bool {
    [(65_536, 0), (100_000, 2), (1, 0), (1, 2), (7, 3)]
        .iter()
        .all(|how| ends_as_expected(alloc, case.input.as_bytes(), *how, case))
}

fn first_wrong_case(alloc: Global) -> Option<usize> {
    cases()
        .iter()
        .position(|case| !audits_in_pieces(alloc, *case))
}

#[test]
fn audits_input_in_pieces(rt: HostRuntime) {
    assert_eq!(rt; first_wrong_case(rt.alloc()), None);
}

/// The lines of a session, 6,000 commands with their answers, and a last line.
fn long_input(alloc: Global, last: &str) -> Result<Vec<u8>, AllocError> {
    let mut input = Vec::new(alloc);
    for _ in 0..6_000 {
        input.extend_from_slice(b"x C: a NOOP\nx S: a OK NOOP completed\n")?;
    }
    input.extend_from_slice(last.as_bytes())?;
    Ok(input)
}

/// Whether a long input with this last line, of more than three full pieces, is audited to its end.
fn is_read_whole(alloc: Global, case: Case) -> bool {
    match long_input(alloc, case.input) {
        Ok(input) => {
            input.len() > 196_608
                && ends_as_expected(alloc, &input, (65_536, 0), case)
                && ends_as_expected(alloc, &input, (4_099, 3), case)
        }
        Err(AllocError) => false,
    }
}

fn reads_to_the_end(alloc: Global) -> bool {
    is_read_whole(alloc, row("", AuditEnd::Yes, "yes\n"))
        && is_read_whole(
            alloc,
            row(
                "x S: * 1 EXPUNGE\n",
                AuditEnd::No(12_001),
                "no: line 12001\n",
            ),
        )
        && is_read_whole(
            alloc,
            row(
                "hello",
                AuditEnd::Unreadable(12_001),
                "unreadable: line 12001\n",
            ),
        )
}

#[test]
fn audits_a_long_input_to_its_end(rt: HostRuntime) {
    assert!(rt; reads_to_the_end(rt.alloc()));
}

/// Whether an audit of the right input, at one octet per read, ends with the read that fails, the
/// one after `before` others.
fn breaks_off(alloc: Global, before: usize, fault: ErrorKind) -> bool {
    let mut reader = FailingReader {
        octets: RIGHT.as_bytes(),
        before,
        fault: Some(fault),
    };
    ends(alloc, &mut reader, AuditEnd::ReadFailed, "cannot read\n")
}

/// The number of reads before the first failure at which an audit of the right input, at one octet
/// per read, has a wrong end.
fn first_wrong_read(alloc: Global) -> Option<usize> {
    (0..=RIGHT.len()).find(|before| !breaks_off(alloc, *before, ErrorKind::Other))
}

fn reports_each_fault(alloc: Global) -> bool {
    breaks_off(alloc, 70, ErrorKind::OutOfMemory)
        && breaks_off(alloc, 70, ErrorKind::UnexpectedEof)
        && breaks_off(alloc, 70, ErrorKind::WouldBlock)
}

#[test]
fn reports_reads_that_fail(rt: HostRuntime) {
    assert_eq!(rt; first_wrong_read(rt.alloc()), None);
    assert!(rt; reports_each_fault(rt.alloc()));
}

/// Whether the audit of an input after `interruptions` interruptions has this end, writes this
/// line, and makes as many reads as it may.
fn ends_after(alloc: Global, interruptions: u64, end: AuditEnd, line: &str) -> bool {
    let mut reader = LateReader {
        octets: b"settle: Ok\n",
        interruptions,
        reads: 0,
    };
    ends(alloc, &mut reader, end, line) && reader.reads == MAX_READS
}

fn reads_up_to_the_limit(alloc: Global) -> bool {
    ends_after(alloc, MAX_READS - 2, AuditEnd::Yes, "yes\n")
        && ends_after(alloc, MAX_READS - 1, AuditEnd::ReadFailed, "cannot read\n")
}

#[test]
fn reads_no_more_than_its_limit(rt: HostRuntime) {
    assert!(rt; reads_up_to_the_limit(rt.alloc()) && MAX_READS == 16_777_216);
}

/// How the audit of a case ends at a writer, and how many octets of its line the writer took;
/// `None` if the writer took other octets.
fn written(alloc: Global, case: Case, writer: &mut FailingWriter) -> (AuditEnd, Option<usize>) {
    let mut reader = case.input.as_bytes();
    let end = audit(alloc, &mut reader, writer);
    if case.line.as_bytes().starts_with(&writer.taken) {
        (end, Some(writer.taken.len()))
    } else {
        (end, None)
    }
}

/// Whether the audit of a case at a writer that fails after `before` writes ends with `WriteFailed`
/// and a part of the line, or, if it makes no further writes, as at any other writer.
fn fails_after(alloc: Global, case: Case, piece: usize, before: usize) -> bool {
    let mut writer = FailingWriter {
        taken: Vec::new(alloc),
        piece,
        before,
        fault: Some(ErrorKind::Other),
        flushes: true,
    };
    let (end, count) = written(alloc, case, &mut writer);
    if writer.fault.is_none() {
        end == AuditEnd::WriteFailed && count.is_some_and(|count| count < case.line.len())
    } else {
        before > 0 && end == case.end && count == Some(case.line.len())
    }
}

/// Whether `fails_after` is true of any number of writes.
fn fails_anywhere(alloc: Global, case: Case, piece: usize) -> bool {
    (0..=case.line.len()).all(|before| fails_after(alloc, case, piece, before))
}

fn first_wrong_write(alloc: Global) -> Option<usize> {
    cases().iter().position(|case| {
        !fails_anywhere(alloc, *case, 1)
            || !fails_anywhere(alloc, *case, 5)
            || !fails_anywhere(alloc, *case, 1_000)
    })
}

#[test]
fn reports_writes_that_fail(rt: HostRuntime) {
    assert_eq!(rt; first_wrong_write(rt.alloc()), None);
}

/// How the audit of a wrong input ends at a writer that takes at most `piece` octets per write, has
/// this fault at its third write, and may fail to flush; and how many octets of the line it took.
fn written_wrong(
    alloc: Global,
    piece: usize,
    fault: Option<ErrorKind>,
    flushes: bool,
) -> (AuditEnd, Option<usize>) {
    let mut writer = FailingWriter {
        taken: Vec::new(alloc),
        piece,
        before: 2,
        fault,
        flushes,
    };
    written(
        alloc,
        row(WRONG, AuditEnd::No(5), "no: line 5\n"),
        &mut writer,
    )
}

#[test]
fn writes_the_whole_line(rt: HostRuntime) {
    let alloc = rt.alloc();
    let whole = Some(11);
    assert_eq!(rt;
        written_wrong(alloc, 1, None, true),
        (AuditEnd::No(5), whole)
    );
    let interrupted = Some(ErrorKind::Interrupted);
    assert_eq!(rt;
        written_wrong(alloc, 1, interrupted, true),
        (AuditEnd::No(5), whole)
    );
    assert_eq!(rt;
        written_wrong(alloc, 1, None, false),
        (AuditEnd::WriteFailed, whole)
    );
    assert_eq!(rt;
        written_wrong(alloc, 0, None, true),
        (AuditEnd::WriteFailed, Some(0))
    );
}

/// Whether the program that audits this reader's input ends with this status and prints this line.
fn shows<S: Read + Drop>(alloc: Global, input: S, status: u8, line: &str) -> bool {
    let screen = Screen::new(alloc, true);
    audit_from(&(&screen, alloc), input) == status && screen.has_shown(line)
}

/// Whether the program ends with status 3 if it can't print.
fn fails_without_a_screen(alloc: Global) -> bool {
    let screen = Screen::new(alloc, false);
    audit_from(&(&screen, alloc), RIGHT.as_bytes()) == 3
}

fn gives_each_status(alloc: Global) -> bool {
    let broken = FailingReader {
        octets: RIGHT.as_bytes(),
        before: 70,
        fault: Some(ErrorKind::Other),
    };
    shows(alloc, RIGHT.as_bytes(), 0, "yes\n")
        && shows(alloc, WRONG.as_bytes(), 1, "no: line 5\n")
        && shows(alloc, "hello".as_bytes(), 3, "unreadable: line 1\n")
        && shows(alloc, broken, 3, "cannot read\n")
        && fails_without_a_screen(alloc)
}

#[test]
fn gives_the_status_of_an_audit(rt: HostRuntime) {
    assert!(rt; gives_each_status(rt.alloc()));
    assert_eq!(rt; audit_file(&rt, "no file has this name"), 3);
}
