//! The dump of a log that a reader has, written to a writer.

ghost use Rattle.std.specs.Prelude.{◌≡◌, ◌≢◌, ℕ, List, IfErr, IfOk, MatchResult, OnOk, Some};
ghost use Rattle.std.specs.Io.KnownBytes.{Appends, Keeps};
ghost use Rattle.log_dump.specs.LogDumps.{IsLogDump};
ghost use Rattle.log_dump.specs.Output.{IsFailedEnd, IsOutput, line_of_end};
ghost use Rattle.log_dump.specs.declared.dump_end.LogDumpEnd.TheVariants.{Unreadable};
ghost use Rattle.log_dump.specs.declared.dump_end.LogDumpEnd.TheVariants.{WriteFailed as NotWritten};

use crate::dump::dump_of_log;
use crate::dump_end::LogDumpEnd;
use crate::fault::LogDumpFault;
use std::alloc::{AllocError, Global};
use std::io::{ErrorKind, Read, Write};
use text_fields::push_number;

/// Reads a log to its end, and writes its dump, or a line that reports why there is none:
/// `unreadable: octet N`, `cannot read` or `no memory`. Nothing is known of what a writer that
/// failed wrote.
pub fn dump_log<R: Read, W: Write>(alloc: Global, reader: &mut R, writer: &mut W) -> LogDumpEnd
    ensures { (log : List ℕ)
        → R.remaining reader.old ≡ Some log
        → result ≢ NotWritten
        → (out : List ℕ)
        × IsOutput log result out
        × Appends (W.contents writer.old) (W.contents writer.new) out }
{
    match read_dump(alloc, reader) {
        Ok(text) => write_text(&text, LogDumpEnd::Done, writer),
        Err(end) => write_end(alloc, end, writer),
    }
}

/// The dump of the log that a reader has, or how it ends without one.
fn read_dump<R: Read>(alloc: Global, reader: &mut R) -> Result<Vec<u8>, LogDumpEnd>
    ensures { (log : List ℕ)
        → R.remaining reader.old ≡ Some log
        → MatchResult result (λ text. IsLogDump log text.items) (IsFailedEnd log) }
{
    let mut log = Vec::new(alloc);
    match reader.read_to_end(&mut log) {
        Ok(_) => dump_or_end(alloc, &log),
        Err(error) => {
            if error.kind() == ErrorKind::OutOfMemory {
                Err(LogDumpEnd::NoMemory)
            } else {
                Err(LogDumpEnd::ReadFailed)
            }
        }
    }
}

/// The dump of a log, or how it ends without one.
fn dump_or_end(alloc: Global, log: &[u8]) -> Result<Vec<u8>, LogDumpEnd>
    ensures { MatchResult result (λ text. IsLogDump log.now text.items) (IsFailedEnd log.now) }
{
    match dump_of_log(alloc, log) {
        Ok(text) => Ok(text),
        Err(LogDumpFault::Unreadable { octets }) => Err(LogDumpEnd::Unreadable { octets }),
        Err(LogDumpFault::NoMemory) => Err(LogDumpEnd::NoMemory),
    }
}

/// Writes the line that reports an end. If memory runs out for it, the end is `NoMemory`.
fn write_end<W: Write>(alloc: Global, end: LogDumpEnd, writer: &mut W) -> LogDumpEnd
    ensures { (log : List ℕ)
        → IsFailedEnd log end
        → result ≢ NotWritten
        → (out : List ℕ)
        × IsOutput log result out
        × Appends (W.contents writer.old) (W.contents writer.new) out }
{
    match line_of_end(alloc, end) {
        Ok(line) => write_text(&line, end, writer),
        Err(AllocError) => write_text(b"no memory\n", LogDumpEnd::NoMemory, writer),
    }
}

/// The line that reports an end.
fn line_of_end(alloc: Global, end: LogDumpEnd) -> Result<Vec<u8>, AllocError>
    ensures { IfOk result (λ line. line.items ≡ line_of_end end) }
{
    match end {
        LogDumpEnd::Done => b"".to_vec(alloc),
        LogDumpEnd::Unreadable { octets } => unreadable_line(alloc, octets),
        LogDumpEnd::ReadFailed => b"cannot read\n".to_vec(alloc),
        LogDumpEnd::WriteFailed => b"".to_vec(alloc),
        LogDumpEnd::NoMemory => b"no memory\n".to_vec(alloc),
    }
}

/// The line that reports where a log can't be read.
fn unreadable_line(alloc: Global, octets: usize) -> Result<Vec<u8>, AllocError>
    ensures { IfOk result (λ line. line.items ≡ line_of_end (Unreadable octets)) }
{
    let mut line = b"unreadable: octet ".to_vec(alloc)?;
    push_number(octets as u64, &mut line)?;
    line.push(b'\n')?;
    Ok(line)
}

/// Writes a text; the result is this end, or `WriteFailed` if the writer fails.
fn write_text<W: Write>(text: &[u8], end: LogDumpEnd, writer: &mut W) -> LogDumpEnd
    ensures { result ≢ NotWritten
        → (result ≡ end) × Appends (W.contents writer.old) (W.contents writer.new) text.now }
{
    match write_whole(text, writer) {
        Ok(()) => end,
        Err(end) => end,
    }
}

fn write_whole<W: Write>(text: &[u8], writer: &mut W) -> Result<(), LogDumpEnd>
    ensures ok { OnOk result (Appends (W.contents writer.old) (W.contents writer.new) text.now) }
    ensures err { IfErr result (λ why. why ≡ NotWritten) }
{
    write(text, writer)?;
    flush(writer)
}

fn write<W: Write>(text: &[u8], writer: &mut W) -> Result<(), LogDumpEnd>
    ensures ok { OnOk result (Appends (W.contents writer.old) (W.contents writer.new) text.now) }
    ensures err { IfErr result (λ why. why ≡ NotWritten) }
{
    match writer.write_all(text) {
        Ok(()) => Ok(()),
        Err(_) => Err(LogDumpEnd::WriteFailed),
    }
}

fn flush<W: Write>(writer: &mut W) -> Result<(), LogDumpEnd>
    ensures bytes { Keeps (W.contents writer.old) (W.contents writer.new) }
    ensures err { IfErr result (λ why. why ≡ NotWritten) }
{
    match writer.flush() {
        Ok(()) => Ok(()),
        Err(_) => Err(LogDumpEnd::WriteFailed),
    }
}
