//! The last line of the program's output, and its status after a replay.

ghost use Rattle.std.specs.Prelude.{◌≡◌, IfOk};
ghost use Rattle.mail_script.specs.Outcomes.{outcome_line};
ghost use Rattle.mail_replay.specs.Statuses.{last_line_of, status_of};

use crate::replay_end::ReplayEnd;
use mail_script::{OutcomeLine, write_outcome};
use std::alloc::{AllocError, Global};
use std::io::Write;

/// The program's status after a replay: 0 if every line was served, otherwise 3.
pub fn status(end: ReplayEnd) -> u8
    ensures { result ≡ status_of end }
{
    match end {
        ReplayEnd::Done => 0,
        _ => 3,
    }
}

/// The last line of the output, which reports why the replay ended early; `None` if it didn't, or
/// if the writer failed.
pub fn last_line(end: ReplayEnd) -> Option<OutcomeLine>
    ensures { result ≡ last_line_of end }
{
    match end {
        ReplayEnd::Done | ReplayEnd::WriteFailed => None,
        ReplayEnd::BadScript { line } => Some(OutcomeLine::BadScript { line }),
        ReplayEnd::ReadFailed => Some(OutcomeLine::CannotRead),
        ReplayEnd::NoMemory => Some(OutcomeLine::NoMemory),
    }
}

/// Writes the last line, if any, and returns the program's status.
pub fn write_last_line<W: Write>(alloc: Global, end: ReplayEnd, writer: &mut W) -> u8
    ensures { result ≡ status_of end }
{
    if let Some(outcome) = last_line(end) {
        let _ = match outcome_text(alloc, outcome) {
            Ok(text) => writer.write_all(&text),
            Err(AllocError) => writer.write_all(b"no memory\n"),
        };
        let _ = writer.flush();
    }
    status(end)
}

fn outcome_text(alloc: Global, outcome: OutcomeLine) -> Result<Vec<u8>, AllocError>
    ensures { IfOk result (λ text. text.items ≡ outcome_line outcome) }
{
    let mut text = Vec::new(alloc);
    write_outcome(outcome, &mut text)?;
    Ok(text)
}
