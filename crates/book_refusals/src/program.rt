//! The program: its input, its output and its status.

use crate::event_watch::EventWatch;
use crate::play::play;
use crate::play_state::PlayRecord;
use std::alloc::{AllocError, Global};
use std::io;
use std::io::{ErrorKind, Read, Write};

/// The largest number of reads.
const MAX_READS: u64 = 16_777_216;

/// The largest number of octets that one read gives.
const PIECE_OCTETS: usize = 4_096;

/// Plays the script on the standard input, and returns the program's status: 0 if every line was
/// played, otherwise 3. The standard error says so if an event was refused.
pub fn run<R: Input + Print + Eprint + AllocGlobal>(rt: &R) -> u8 {
    let alloc = rt.alloc();
    let mut record = PlayRecord::new(alloc, EventWatch::new(alloc));
    let played = play_input(alloc, rt.reader(), &mut record);
    if record.watch.has_event() {
        let _ = eprintln!(rt; "an event was refused");
    }
    match played {
        Ok(status) => print(rt, &record.printed, status),
        Err(AllocError) => print(rt, b"no memory\n", 3),
    }
}

/// Writes the output, and returns the status: 3 if that fails.
fn print<R: Print>(rt: &R, printed: &[u8], status: u8) -> u8 {
    let mut writer = io::writer(rt);
    if writer.write_all(printed).is_err() {
        return 3;
    }
    if writer.flush().is_err() {
        return 3;
    }
    status
}

fn play_input<S: Read + Drop>(
    alloc: Global,
    mut reader: S,
    record: &mut PlayRecord,
) -> Result<u8, AllocError> {
    let mut script = Vec::new(alloc);
    read_all(&mut reader, &mut script)?;
    play(alloc, &script, record)
}

/// Reads up to the end of the script, or to the first read that fails.
fn read_all<S: Read>(reader: &mut S, script: &mut Vec<u8>) -> Result<(), AllocError> {
    let mut piece = [0u8; PIECE_OCTETS];
    for _read in 0..MAX_READS {
        match reader.read(&mut piece) {
            Ok(0) => return Ok(()),
            Ok(count) => append(script, &piece[..count])?,
            Err(error) => {
                if error.kind() != ErrorKind::Interrupted {
                    return Ok(());
                }
            }
        }
    }
    Ok(())
}

/// Appends a piece, once more if memory runs out.
fn append(script: &mut Vec<u8>, piece: &[u8]) -> Result<(), AllocError> {
    match script.extend_from_slice(piece) {
        Ok(()) => Ok(()),
        Err(AllocError) => script.extend_from_slice(piece),
    }
}
