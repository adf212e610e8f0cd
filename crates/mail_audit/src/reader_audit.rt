//! The audit of a reader's octets, whose verdict goes to a writer.

ghost use Rattle.std.specs.Prelude.{◌≡◌, ◌≢◌, ◌++◌, ◌+◌, ◌^◌, ◌<◌, ℕ, List, [], ◌∷◌, None, Some};
ghost use Rattle.std.specs.Prelude.{IfErr, IfOk, MatchOption, OnOk, length};
ghost use Rattle.std.specs.Fmt.{decimal};
ghost use Rattle.std.specs.Io.KnownBytes.{Appends, Keeps};
ghost use Rattle.mail_script.specs.Lines.{lines_of};
ghost use Rattle.mail_script.specs.Reading.{cut_at};
ghost use Rattle.mail_audit.specs.Audits.{IsVerdict, end_text};
ghost use Rattle.mail_audit.specs.AuditProgress.{HasAdvanced, EndsAt, EndsWithin, HasTaken};
ghost use Rattle.mail_audit.specs.declared.verdict.AuditEnd.TheVariants.{WriteFailed as NotWritten};

use crate::line_audit::Audit;
use crate::verdict::AuditEnd;
use itoa::Buffer;
use mail_script::ScriptLines;
use std::alloc::{AllocError, Global};
use std::io::{ErrorKind, Read, Write};

/// The largest number of reads in one audit.
pub const MAX_READS: u64 = 16_777_216;

/// The largest number of octets that one read gives.
pub const PIECE_OCTETS: usize = 65_536;

/// Audits the output of scripts, and writes the verdict as one line.
///
/// The result is `Yes` if every transcript is explained and every dump is right. `No` names the
/// first line that can't follow the lines before it, `Unreadable` the first line that no script
/// prints; `ReadFailed` says that the reader failed, or that 16,777,216 reads didn't reach the end
/// of the input; `WriteFailed` that the writer failed; `NoMemory` that memory ran out.
pub fn audit<R: Read, W: Write>(alloc: Global, reader: &mut R, writer: &mut W) -> AuditEnd
    ensures audits { (input : List ℕ)
        → R.remaining reader.old ≡ Some input
        → IsVerdict (lines_of input) result }
    ensures written { result ≢ NotWritten
        → Appends (W.contents writer.old) (W.contents writer.new) (end_text result) }
{
    let end = match room_for(alloc, PIECE_OCTETS) {
        Ok(mut piece) => judge(alloc, reader, &mut piece),
        Err(AllocError) => AuditEnd::NoMemory,
    };
    match write_end(end, writer) {
        Ok(()) => end,
        Err(end) => end,
    }
}

/// An audit and the part of its input that it hasn't taken.
#[derive(Drop)]
struct Progress {
    audit: Audit,
    /// The octets that were read and not yet taken.
    lines: ScriptLines,
}

/// Reads an input in pieces, into the given buffer, and audits its lines.
fn judge<R: Read>(alloc: Global, reader: &mut R, piece: &mut [u8]) -> AuditEnd
    requires { length piece.old ≡ PIECE_OCTETS }
    ensures { (input : List ℕ)
        → R.remaining reader.old ≡ Some input
        → IsVerdict (lines_of input) result }
{
    let mut progress = Progress {
        audit: Audit::new(alloc),
        lines: ScriptLines::new(alloc),
    };
    for _read in 0..MAX_READS {
        match reader.read(piece) {
            Ok(0) => return take_last(alloc, progress),
            Ok(count) => {
                if let Some(end) = take_piece(alloc, &mut progress, &piece[..count]) {
                    return end;
                }
            }
            Err(error) => {
                if error.kind() != ErrorKind::Interrupted {
                    return AuditEnd::ReadFailed;
                }
            }
        }
    }
    AuditEnd::ReadFailed
}

/// A buffer of `octets` zero octets; `Err` if memory runs out.
fn room_for(alloc: Global, octets: usize) -> Result<Vec<u8>, AllocError>
    ensures { IfOk result (λ room. length room.items ≡ octets) }
{
    vec![in alloc; 0u8; octets]
}

/// Takes the lines that a piece completes; `Some` if the audit ends at one of them.
fn take_piece(alloc: Global, progress: &mut Progress, piece: &[u8]) -> Option<AuditEnd>
    requires room { progress.old.audit.taken + length progress.old.lines + length piece.now
        < 2 ^ 64 }
    requires has_taken { (front : List (List ℕ)) × HasTaken front progress.old.audit }
    ensures { (front : List (List ℕ))
        → HasTaken front progress.old.audit
        → MatchOption result
        (HasAdvanced front progress.old.audit (progress.old.lines ++ piece.now) progress.new.audit
        progress.new.lines × (cut_at 10 progress.new.lines ≡ None))
        (EndsWithin front (progress.old.lines ++ piece.now)) }
{
    let Ok(()) = progress.lines.push(piece) else {
        return Some(AuditEnd::NoMemory);
    };
    'lines: loop {
        match progress.lines.next_line(alloc) {
            Err(_) => return Some(AuditEnd::NoMemory),
            Ok(None) => return None,
            Ok(Some(line)) => {
                if let Some(end) = take_line(alloc, &mut progress.audit, line.as_bytes()) {
                    return Some(end);
                }
            }
        }
    }
}

/// Takes the next line; `Some` if the audit ends at it.
fn take_line(alloc: Global, audit: &mut Audit, line: &[u8]) -> Option<AuditEnd>
    requires room { audit.old.taken + 1 < 2 ^ 64 }
    requires has_taken { (lines : List (List ℕ)) × HasTaken lines audit.old }
    ensures { (lines : List (List ℕ)) → HasTaken lines audit.old
        → MatchOption result (HasTaken (lines ++ line.now ∷ []) audit.new) (EndsAt lines line.now) }
{
    match audit.take(alloc, line) {
        Ok(end) => end,
        Err(AllocError) => Some(AuditEnd::NoMemory),
    }
}

/// Takes the last line, which has no LF, if there is one, and ends the audit.
fn take_last(alloc: Global, progress: Progress) -> AuditEnd
    requires room { progress.audit.taken + 1 < 2 ^ 64 }
    requires rest { cut_at 10 progress.lines ≡ None }
    requires has_taken { (front : List (List ℕ)) × HasTaken front progress.audit }
    ensures { (front : List (List ℕ))
        → HasTaken front progress.audit
        → IsVerdict (front ++ lines_of progress.lines) result }
{
    let Progress { mut audit, lines } = progress;
    let line = lines.into_rest();
    if line.as_bytes().is_empty() {
        return end_of(alloc, audit);
    }
    match take_line(alloc, &mut audit, line.as_bytes()) {
        Some(end) => end,
        None => end_of(alloc, audit),
    }
}

/// The verdict at the end of the input.
fn end_of(alloc: Global, audit: Audit) -> AuditEnd
    requires { (lines : List (List ℕ)) × HasTaken lines audit }
    ensures { (lines : List (List ℕ)) → HasTaken lines audit → IsVerdict lines result }
{
    match audit.end(alloc) {
        Ok(end) => end,
        Err(AllocError) => AuditEnd::NoMemory,
    }
}

/// Writes a verdict.
fn write_end<W: Write>(end: AuditEnd, writer: &mut W) -> Result<(), AuditEnd>
    ensures ok { OnOk result
        (Appends (W.contents writer.old) (W.contents writer.new) (end_text end)) }
    ensures err { IfErr result (λ why. why ≡ NotWritten) }
{
    match end {
        AuditEnd::Yes => write(b"yes\n", writer)?,
        AuditEnd::No(line) => write_numbered(b"no: line ", line, writer)?,
        AuditEnd::Unreadable(line) => write_numbered(b"unreadable: line ", line, writer)?,
        AuditEnd::ReadFailed => write(b"cannot read\n", writer)?,
        AuditEnd::WriteFailed => {}
        AuditEnd::NoMemory => write(b"no memory\n", writer)?,
    }
    flush(writer)
}

/// Writes a word, the number of a line, and LF.
fn write_numbered<W: Write>(word: &[u8], line: u64, writer: &mut W) -> Result<(), AuditEnd>
    ensures ok { OnOk result (Appends (W.contents writer.old) (W.contents writer.new)
        (word.now ++ (decimal line ++ 10 ∷ []))) }
    ensures err { IfErr result (λ why. why ≡ NotWritten) }
{
    write(word, writer)?;
    let mut buffer = Buffer::new();
    write(buffer.format(line).as_bytes(), writer)?;
    write(b"\n", writer)
}

fn write<W: Write>(octets: &[u8], writer: &mut W) -> Result<(), AuditEnd>
    ensures ok { OnOk result (Appends (W.contents writer.old) (W.contents writer.new) octets.now) }
    ensures err { IfErr result (λ why. why ≡ NotWritten) }
{
    match writer.write_all(octets) {
        Ok(()) => Ok(()),
        Err(_) => Err(AuditEnd::WriteFailed),
    }
}

fn flush<W: Write>(writer: &mut W) -> Result<(), AuditEnd>
    ensures bytes { Keeps (W.contents writer.old) (W.contents writer.new) }
    ensures err { IfErr result (λ why. why ≡ NotWritten) }
{
    match writer.flush() {
        Ok(()) => Ok(()),
        Err(_) => Err(AuditEnd::WriteFailed),
    }
}
