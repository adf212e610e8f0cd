//! The replay of a script, from its reader's octets to the writer's.

ghost use Rattle.std.specs.Prelude.{◌≡◌, ◌++◌, ◌+◌, ◌^◌, ◌<◌, ◌≤◌, ℕ, List, [], ◌∷◌, None, Some};
ghost use Rattle.std.specs.Prelude.{IfErr, IfOk, IfSome, OnOk, OnErr, length};
ghost use Rattle.std.specs.Io.KnownBytes.{Appends, Keeps};
ghost use Rattle.mail_script.specs.Lines.{lines_of};
ghost use Rattle.mail_script.specs.Reading.{cut_at};
ghost use Rattle.mail_script.specs.Script.{Means};
ghost use Rattle.mail_script.specs.declared.script.ScriptLine.{ScriptLine};
ghost use Rattle.mail_replay.specs.Lines.{IsBad, ServesLine, ServesInPart};
ghost use Rattle.mail_replay.specs.Replays.{EndsEarly, FirstInPart, HasBadLine, HasServedLines};
ghost use Rattle.mail_replay.specs.Replays.{HasLineWithoutMemory, Replays, ServesAll};
ghost use Rattle.mail_replay.specs.ScriptState.{ScriptContents, script_contents_of};
ghost use Rattle.mail_replay.specs.declared.replay_end.ReplayEnd.TheVariants.{Done, WriteFailed};

use crate::replay_end::ReplayEnd;
use crate::script_service::{ServeFault, serve_line};
use crate::script_state::ScriptState;
use mail_script::ScriptLines;
use std::alloc::{AllocError, Global};
use std::io::{ErrorKind, Read, Write};
use std::mem;

/// The largest number of reads in one replay.
pub const MAX_READS: u64 = 16_777_216;

/// The largest number of octets that one read gives.
pub const PIECE_OCTETS: usize = 65_536;

/// Replays a script: serves its lines in order, and writes the output of each line once it is
/// served.
///
/// The result is `Done` after the last line. `BadScript` names the first line that can't be served;
/// `ReadFailed` says that the reader failed, or that 16,777,216 reads didn't reach the end of the
/// script; `WriteFailed` that the writer failed; `NoMemory` that memory ran out for a line or its
/// output. The output of the earlier lines stays written.
pub fn replay<R: Read, W: Write>(alloc: Global, reader: &mut R, writer: &mut W) -> ReplayEnd
    ensures { (script : List ℕ)
        → R.remaining reader.old ≡ Some script
        → Replays script result (R.remaining reader.new) (W.contents writer.old)
        (W.contents writer.new) }
{
    match play(alloc, reader, writer) {
        Ok(()) => ReplayEnd::Done,
        Err(end) => end,
    }
}

/// The state of a replay between pieces.
#[derive(Drop)]
struct Progress {
    setup: ScriptState,
    /// The octets of the script that were read and not yet served.
    lines: ScriptLines,
    /// The number of lines served.
    served: u64,
}

fn play<R: Read, W: Write>(alloc: Global, reader: &mut R, writer: &mut W) -> Result<(), ReplayEnd>
    ensures ok { OnOk result ((script : List ℕ) → R.remaining reader.old ≡ Some script
        → Replays script Done (R.remaining reader.new) (W.contents writer.old)
        (W.contents writer.new)) }
    ensures err { IfErr result (λ end. (script : List ℕ) → R.remaining reader.old ≡ Some script
        → Replays script end (R.remaining reader.new) (W.contents writer.old)
        (W.contents writer.new)) }
{
    let Ok(mut piece) = room_for(alloc, PIECE_OCTETS) else {
        return Err(ReplayEnd::NoMemory);
    };
    serve_pieces(alloc, reader, &mut piece, writer)
}

/// Reads a script in pieces, into the given buffer, and serves its lines.
fn serve_pieces<R: Read, W: Write>(
    alloc: Global,
    reader: &mut R,
    piece: &mut [u8],
    writer: &mut W,
) -> Result<(), ReplayEnd>
    requires { length piece.old ≡ PIECE_OCTETS }
    ensures ok { OnOk result ((script : List ℕ) → R.remaining reader.old ≡ Some script
        → Replays script Done (R.remaining reader.new) (W.contents writer.old)
        (W.contents writer.new)) }
    ensures err { IfErr result (λ end. (script : List ℕ) → R.remaining reader.old ≡ Some script
        → Replays script end (R.remaining reader.new) (W.contents writer.old)
        (W.contents writer.new)) }
{
    let mut progress = Progress {
        setup: ScriptState::new(alloc),
        lines: ScriptLines::new(alloc),
        served: 0,
    };
    for _read in 0..MAX_READS {
        match reader.read(piece) {
            Ok(0) => return serve_last(alloc, &mut progress, writer),
            Ok(count) => serve_piece(alloc, &mut progress, &piece[..count], writer)?,
            Err(error) => {
                if error.kind() != ErrorKind::Interrupted {
                    return Err(ReplayEnd::ReadFailed);
                }
            }
        }
    }
    Err(ReplayEnd::ReadFailed)
}

/// A buffer of `octets` zero octets; `Err` if memory runs out.
fn room_for(alloc: Global, octets: usize) -> Result<Vec<u8>, AllocError>
    ensures { IfOk result (λ room. length room.items ≡ octets) }
{
    vec![in alloc; 0u8; octets]
}

/// Serves the lines that a piece completes.
fn serve_piece<W: Write>(
    alloc: Global,
    progress: &mut Progress,
    piece: &[u8],
    writer: &mut W,
) -> Result<(), ReplayEnd>
    requires { progress.old.served + length progress.old.lines + length piece.now < 2 ^ 64 }
    ensures ok { OnOk result (HasServedLines (W.contents writer.old)
        (script_contents_of progress.old.setup) progress.old.served
        (progress.old.lines ++ piece.now) (W.contents writer.new)
        (script_contents_of progress.new.setup) progress.new.served progress.new.lines) }
    ensures rest { OnOk result (cut_at 10 progress.new.lines ≡ None) }
    ensures err { IfErr result (EndsEarly
        (HasBadLine (W.contents writer.old) (script_contents_of progress.old.setup)
        progress.old.served (progress.old.lines ++ piece.now) (W.contents writer.new))
        (HasLineWithoutMemory (W.contents writer.old) (script_contents_of progress.old.setup)
        (progress.old.lines ++ piece.now) (W.contents writer.new))) }
{
    let Ok(()) = progress.lines.push(piece) else {
        return Err(ReplayEnd::NoMemory);
    };
    'lines: loop {
        match progress.lines.next_line(alloc) {
            Err(_) => return Err(ReplayEnd::NoMemory),
            Ok(None) => return flush(writer),
            Ok(Some(line)) => serve_next(alloc, progress, line.as_bytes(), writer)?,
        }
    }
}

/// Serves the next line, and counts it.
fn serve_next<W: Write>(
    alloc: Global,
    progress: &mut Progress,
    line: &[u8],
    writer: &mut W,
) -> Result<(), ReplayEnd>
    requires { progress.old.served + 1 < 2 ^ 64 }
    ensures lines { progress.new.lines ≡ progress.old.lines }
    ensures ok { OnOk result ((meaning : ScriptLine) × (more : List ℕ) × Means line.now meaning
        × ServesLine (script_contents_of progress.old.setup) meaning more
        (script_contents_of progress.new.setup)
        × Appends (W.contents writer.old) (W.contents writer.new) more
        × (progress.new.served ≡ progress.old.served + 1)) }
    ensures err { IfErr result (EndsEarly
        (λ number. (number ≡ progress.old.served + 1)
        × IsBad (script_contents_of progress.old.setup) line.now
        × Appends (W.contents writer.old) (W.contents writer.new) []) ((more : List ℕ)
        × ServesInPart (script_contents_of progress.old.setup) line.now more
        × Appends (W.contents writer.old) (W.contents writer.new) more)) }
{
    progress.served += 1;
    let mut printed = Vec::new(alloc);
    let served = serve_line(alloc, &mut progress.setup, line, &mut printed);
    if writer.write_all(&printed).is_err() {
        return Err(ReplayEnd::WriteFailed);
    }
    match served {
        Ok(()) => Ok(()),
        Err(ServeFault::BadScript) => Err(ReplayEnd::BadScript {
            line: progress.served,
        }),
        Err(ServeFault::NoMemory) => Err(ReplayEnd::NoMemory),
    }
}

/// Serves the last line, which has no LF, if there is one.
fn serve_last<W: Write>(
    alloc: Global,
    progress: &mut Progress,
    writer: &mut W,
) -> Result<(), ReplayEnd>
    requires room { progress.old.served + 1 < 2 ^ 64 }
    requires rest { cut_at 10 progress.old.lines ≡ None }
    ensures ok { OnOk result ((out : List ℕ) × (after : ScriptContents)
        × ServesAll (script_contents_of progress.old.setup) (lines_of progress.old.lines) out after
        × Appends (W.contents writer.old) (W.contents writer.new) out) }
    ensures err { IfErr result (EndsEarly
        (λ number. (number ≡ progress.old.served + 1)
        × (lines_of progress.old.lines ≡ progress.old.lines ∷ [])
        × IsBad (script_contents_of progress.old.setup) progress.old.lines
        × Appends (W.contents writer.old) (W.contents writer.new) []) ((more : List ℕ)
        × FirstInPart (script_contents_of progress.old.setup) (lines_of progress.old.lines) more
        × Appends (W.contents writer.old) (W.contents writer.new) more)) }
{
    let line = mem::replace(&mut progress.lines, ScriptLines::new(alloc)).into_rest();
    serve_rest(alloc, progress, line.as_bytes(), writer)?;
    flush(writer)
}

/// Serves a line without an LF, unless it is empty.
fn serve_rest<W: Write>(
    alloc: Global,
    progress: &mut Progress,
    line: &[u8],
    writer: &mut W,
) -> Result<(), ReplayEnd>
    requires room { progress.old.served + 1 < 2 ^ 64 }
    requires rest { cut_at 10 line.now ≡ None }
    ensures ok { OnOk result ((out : List ℕ) × (after : ScriptContents)
        × ServesAll (script_contents_of progress.old.setup) (lines_of line.now) out after
        × Appends (W.contents writer.old) (W.contents writer.new) out) }
    ensures err { IfErr result (EndsEarly
        (λ number. (number ≡ progress.old.served + 1) × (lines_of line.now ≡ line.now ∷ [])
        × IsBad (script_contents_of progress.old.setup) line.now
        × Appends (W.contents writer.old) (W.contents writer.new) []) ((more : List ℕ)
        × FirstInPart (script_contents_of progress.old.setup) (lines_of line.now) more
        × Appends (W.contents writer.old) (W.contents writer.new) more)) }
{
    if line.is_empty() {
        return Ok(());
    }
    serve_next(alloc, progress, line, writer)
}

fn flush<W: Write>(writer: &mut W) -> Result<(), ReplayEnd>
    ensures bytes { Keeps (W.contents writer.old) (W.contents writer.new) }
    ensures err { IfErr result (λ end. end ≡ WriteFailed) }
{
    match writer.flush() {
        Ok(()) => Ok(()),
        Err(_) => Err(ReplayEnd::WriteFailed),
    }
}
