//! Logs that are fed to a reader whole and in pieces, beside what `recover` finds in the whole.

ghost use Rattle.op_log.specs.Lines.{IsText};

use crate::fixtures::{LINES, Trouble, replica};
use crate::memory_logs::octets_with;
use crc32c::Crc32c;
use crdt_ops::{SoundOp, write_op};
use op_log::{Entry, LogContents, LogFault, LogReader, octets_from, push_line, recover};
use std::alloc::Global;
use std::test::Fail;
use tags_clocks::ReplicaId;

/// The numbers of octets of pieces.
const SIZES: &[usize] = &[1, 2, 3, 7, 64, 4096];

/// What is read of a log of a replica that is fed in pieces of so many octets.
fn read_in_pieces(
    alloc: Global,
    log: &[u8],
    size: usize,
    name: ReplicaId,
) -> Result<LogContents, LogFault> {
    let checksums = Crc32c::new();
    let mut reader = LogReader::new(alloc, name);
    for piece in log.chunks(size.max(1)) {
        reader.feed(alloc, &checksums, piece)?;
    }
    Ok(reader.finish())
}

/// Appends the text of an operation, and a line end.
fn push_op(alloc: Global, op: &SoundOp, text: &mut Vec<u8>) -> Result<(), Trouble> {
    write_op(alloc, op, text)?;
    text.push(b'\n')?;
    Ok(())
}

/// Appends the number of octets of the committed lines, whether the first names a replica, which
/// other one is named, how many octets had been synced, and the octets after these lines.
fn push_end(
    alloc: Global,
    found: (usize, bool, Option<ReplicaId>, u64),
    rest: &[u8],
    text: &mut Vec<u8>,
) -> Result<(), Trouble> {
    let (octets, begins, other, synced) = found;
    let other = match other {
        Some(name) => name.get(),
        None => 0,
    };
    let numbers = format!(in alloc; "{octets} {begins} {other} {synced}\n")?;
    text.extend_from_slice(numbers.as_str().as_bytes())?;
    text.extend_from_slice(rest)?;
    Ok(())
}

/// What a reader says of a log.
fn text_of_contents(
    alloc: Global,
    read: Result<LogContents, LogFault>,
) -> Result<Vec<u8>, Trouble> {
    let mut text = Vec::new(alloc);
    match read {
        Ok(found) => {
            for op in &found.ops {
                push_op(alloc, op, &mut text)?;
            }
            let rest = octets_from(&found.kept, found.start, found.octets).unwrap_or(b"none");
            let end = (found.octets, found.begins, found.other, found.synced);
            push_end(alloc, end, rest, &mut text)?;
        }
        Err(fault) => {
            let fault = format!(in alloc; "{fault}")?;
            text.extend_from_slice(fault.as_str().as_bytes())?;
        }
    }
    Ok(text)
}

/// What `recover` says of a log.
fn text_of_recovered(alloc: Global, log: &[u8], name: ReplicaId) -> Result<Vec<u8>, Trouble> {
    let mut text = Vec::new(alloc);
    match recover(alloc, &Crc32c::new(), log) {
        Ok(found) => {
            let begins = matches!(found.entries.first(), Some(Entry::Begin { .. }));
            let mut other = None;
            let mut said = 0;
            for entry in &found.entries {
                match entry {
                    Entry::Begin { replica } => {
                        if other.is_none() && *replica != name {
                            other = Some(*replica);
                        }
                    }
                    Entry::Apply { op } => push_op(alloc, op, &mut text)?,
                    Entry::Commit { synced } => said = *synced,
                }
            }
            let end = (found.octets, begins, other, said);
            push_end(alloc, end, &log[found.octets..], &mut text)?;
        }
        Err(fault) => {
            let fault = format!(in alloc; "{fault}")?;
            text.extend_from_slice(fault.as_str().as_bytes())?;
        }
    }
    Ok(text)
}

/// The first size of pieces in which a log says something else than in the whole.
fn wrong_size(alloc: Global, log: &[u8], name: ReplicaId) -> Result<Option<usize>, Trouble> {
    let whole = text_of_recovered(alloc, log, name)?;
    for size in SIZES {
        let read = text_of_contents(alloc, read_in_pieces(alloc, log, *size, name))?;
        if read != whole {
            return Ok(Some(*size));
        }
    }
    Ok(None)
}

/// Whether a log says the same in pieces of each size, as that of replica 1 and of replica 2.
fn is_same_in_pieces(alloc: Global, log: &[u8]) -> Result<bool, Trouble> {
    let own = wrong_size(alloc, log, replica(1)?)?;
    let other = wrong_size(alloc, log, replica(2)?)?;
    Ok(own.is_none() && other.is_none())
}

/// A log of three batches, after which comes that of a log whose commits say less, and zeros.
fn long_log(alloc: Global) -> Result<Vec<u8>, Trouble> {
    let mut log = octets_with(alloc, LINES, 0)?;
    log.extend_from_slice(&octets_with(alloc, &["1:1 - create work"], 9)?)?;
    Ok(log)
}

/// The first number of octets of which a log that is cut there says something else in pieces.
fn wrong_cut(alloc: Global) -> Result<Option<usize>, Trouble> {
    let log = long_log(alloc)?;
    for end in 0..log.len() + 1 {
        if !is_same_in_pieces(alloc, &log[..end])? {
            return Ok(Some(end));
        }
    }
    Ok(None)
}

#[test]
fn pieces_of_torn_logs_say_what_the_whole_says(rt: HostRuntime) -> Result<(), Fail> {
    assert_eq!(rt; wrong_cut(rt.alloc())?, None);
    Ok(())
}

/// The first octet of a log that, if it is another one, says something else in pieces.
fn wrong_octet(alloc: Global, other: u8) -> Result<Option<usize>, Trouble> {
    let mut log = long_log(alloc)?;
    for place in 0..log.len() {
        let octet = log[place];
        log[place] = other;
        if !is_same_in_pieces(alloc, &log)? {
            return Ok(Some(place));
        }
        log[place] = octet;
    }
    Ok(None)
}

#[test]
fn pieces_of_damaged_logs_say_what_the_whole_says(rt: HostRuntime) -> Result<(), Fail> {
    assert_eq!(rt; wrong_octet(rt.alloc(), b'~')?, None);
    assert_eq!(rt; wrong_octet(rt.alloc(), b'\n')?, None);
    Ok(())
}

/// A log with a line that is the text of no entry, after some that are read and before others.
fn log_with_line(alloc: Global, front: &[u8], text: &[u8]) -> Result<Vec<u8>, Trouble>
    requires { IsText text.now }
{
    let mut log = front.to_vec(alloc)?;
    push_line(&Crc32c::new(), text, &mut log)?;
    log.extend_from_slice(&octets_with(alloc, LINES, 0)?)?;
    Ok(log)
}

/// Whether logs that aren't read have the same fault in pieces: of an unsound line, also the first,
/// and of a later format.
fn have_same_faults(alloc: Global) -> Result<bool, Trouble> {
    let log = long_log(alloc)?;
    let front = log.get(..log.len().saturating_sub(9)).unwrap_or(&[]);
    let later = log_with_line(alloc, front, b"op 1:1 - destroy work")?;
    let first = log_with_line(alloc, b"", b"op 1:1 - destroy work")?;
    let format = log_with_line(alloc, b"", b"log 2 1")?;
    Ok(
        is_same_in_pieces(alloc, &later)?
            && is_same_in_pieces(alloc, &first)?
            && is_same_in_pieces(alloc, &format)?,
    )
}

#[test]
fn pieces_have_the_faults_of_the_whole(rt: HostRuntime) -> Result<(), Fail> {
    assert!(rt; have_same_faults(rt.alloc())?);
    Ok(())
}
