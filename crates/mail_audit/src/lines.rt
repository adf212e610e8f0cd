//! Readers of the lines of transcripts, and of the first lines of dumps.

ghost use Rattle.std.specs.Prelude.{◌≡◌, ◌++◌, ◌∷◌, ℕ, List, IfOk, IsTrue, MatchOption};
ghost use Rattle.imap_types.specs.Escape.{AreOctets, escape_text};
ghost use Rattle.imap_types.specs.declared.escape.Escape.TheVariants.{Text as TextEscape};
ghost use Rattle.mail_script.specs.Fields.{IsReplica, is_session_name};
ghost use Rattle.mail_script.specs.Transcript.{mark_of};
ghost use Rattle.mail_script.specs.declared.transcript.Speaker.{Speaker};
ghost use Rattle.mail_audit.specs.Audits.{IsDumpBegin, IsSpokenLine, spoken_line};
ghost use Rattle.mail_audit.specs.Dumps.{dump_line};

use imap_types::{Escape, EscapeFault, Octets, read_escaped};
use mail_script::{SessionName, Speaker};
use std::alloc::{AllocError, Global};
use tags_clocks::ReplicaId;
use text_fields::split;

/// The session, the speaker and the octets that a line of a transcript shows.
#[derive(Drop)]
pub struct SpokenLine {
    pub session: SessionName,
    pub speaker: Speaker,
    /// The octets that were sent, unescaped and without their closing CRLF.
    pub text: Octets,
}

/// Reads a line of a transcript; `None` if it is none, and `Err` if memory runs out.
pub fn read_spoken(alloc: Global, line: &[u8]) -> Result<Option<SpokenLine>, AllocError>
    ensures { IfOk result (λ parsed. MatchOption parsed (IsSpokenLine line.now → ⊥)
        (λ spoken. IsTrue (is_session_name spoken.session) × AreOctets spoken.text
        × (line.now ≡ spoken_line spoken.session spoken.speaker spoken.text))) }
{
    let Some((name, sent)) = split(b' ', line) else {
        return Ok(None);
    };
    let Some((speaker, text)) = speech(sent) else {
        return Ok(None);
    };
    let Some(text) = unescape_or_none(alloc, text)? else {
        return Ok(None);
    };
    match SessionName::new(name.to_vec(alloc)?) {
        None => Ok(None),
        Some(session) => Ok(Some(SpokenLine {
            session,
            speaker,
            text,
        })),
    }
}

/// The speaker, and the text after the speaker's mark.
fn speech(sent: &[u8]) -> Option<(Speaker, &[u8])>
    ensures { MatchOption result
        ((speaker : Speaker) (text : List ℕ) → 32 ∷ sent.now ≡ mark_of speaker ++ text → ⊥)
        (λ speech. 32 ∷ sent.now ≡ mark_of speech.0 ++ speech.1.now) }
{
    match sent.strip_prefix(b"C: ".as_slice()) {
        Some(frame) => Some((Speaker::Client, frame)),
        None => match sent.strip_prefix(b"S: ".as_slice()) {
            Some(answer) => Some((Speaker::Server, answer)),
            None => None,
        },
    }
}

/// Undoes the escape that preserves spaces; `None` if the text isn't escaped in this way, and `Err`
/// if memory runs out.
fn unescape_or_none(alloc: Global, text: &[u8]) -> Result<Option<Octets>, AllocError>
    ensures { IfOk result (λ parsed. MatchOption parsed
        ((octets : List ℕ) → AreOctets octets → text.now ≡ escape_text TextEscape octets → ⊥)
        (λ octets. AreOctets octets × (text.now ≡ escape_text TextEscape octets))) }
{
    match read_escaped(alloc, Escape::Text, text) {
        Ok(octets) => Ok(Some(octets)),
        Err(EscapeFault::NotEscaped) => Ok(None),
        Err(EscapeFault::NoMemory) => Err(AllocError),
    }
}

/// The replica whose dump begins at this line, if any.
pub fn replica_of_dump(line: &[u8]) -> Option<ReplicaId>
    ensures { MatchOption result (IsDumpBegin line.now → ⊥)
        (λ replica. IsReplica replica × (line.now ≡ dump_line replica)) }
{
    match line.strip_prefix(b"dump ".as_slice()) {
        Some(number) => text_fields::replica(number),
        None => None,
    }
}
