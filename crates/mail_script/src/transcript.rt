//! The lines of a transcript, which shows what the client and the server sent in a session.

ghost use Rattle.std.specs.Prelude.{◌≡◌, ◌++◌, ℕ, List, OnErr, OnOk};
ghost use Rattle.mail_script.specs.Transcript.{mark_of, transcript_line, without_line_end};

use crate::session_name::SessionName;
use imap_types::{Escape, write_escaped};
use std::alloc::AllocError;

/// Who sent the octets that a line shows.
#[derive(Clone, Copy, Debug, PartialEq, Eq)]
pub enum Speaker {
    /// The client, which sent a frame.
    Client,
    /// The server, which sent an answer.
    Server,
}

impl Speaker {
    fn mark(self) -> &'static [u8]
        ensures { result.now ≡ mark_of self }
    {
        match self {
            Speaker::Client => b" C: ",
            Speaker::Server => b" S: ",
        }
    }
}

/// Appends `NAME C: ` or `NAME S: `, then the frame or answer without its closing CRLF, escaped so
/// that spaces stay as they are, then LF; `Err` if memory runs out, and then `out` is unchanged.
pub fn write_transcript_line(
    session: &SessionName,
    speaker: Speaker,
    octets: &[u8],
    out: &mut Vec<u8>,
) -> Result<(), AllocError>
    ensures ok { OnOk result
        (out.new.items ≡ out.old.items ++ transcript_line session.now speaker octets.now) }
    ensures err { OnErr result (out.new.items ≡ out.old.items) }
{
    let start = out.len();
    if let Err(e) = push_line(session, speaker, octets, out) {
        out.truncate(start);
        return Err(e);
    }
    Ok(())
}

fn push_line(
    session: &SessionName,
    speaker: Speaker,
    octets: &[u8],
    out: &mut Vec<u8>,
) -> Result<(), AllocError>
    ensures ok { OnOk result
        (out.new.items ≡ out.old.items ++ transcript_line session.now speaker octets.now) }
    ensures prefix { (more : List ℕ) × (out.new.items ≡ out.old.items ++ more) }
{
    out.extend_from_slice(session.as_bytes())?;
    out.extend_from_slice(speaker.mark())?;
    write_escaped(Escape::Text, without_line_end(octets), out)?;
    out.extend_from_slice(b"\n")?;
    Ok(())
}

fn without_line_end(octets: &[u8]) -> &[u8]
    ensures { result.now ≡ without_line_end octets.now }
{
    match octets.strip_suffix(b"\r\n".as_slice()) {
        Some(front) => front,
        None => octets,
    }
}
