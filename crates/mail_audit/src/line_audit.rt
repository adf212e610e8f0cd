//! The audit of an input, line by line.

ghost use Rattle.std.specs.Prelude.{◌≡◌, ◌+◌, ◌<◌, ◌^◌, ℕ, List, [], ◌∷◌, ◌++◌, IfOk, IsTrue};
ghost use Rattle.std.specs.Prelude.{MatchOption, None, length};
ghost use Rattle.imap_types.specs.Escape.{AreOctets};
ghost use Rattle.mail_script.specs.Fields.{is_session_name};
ghost use Rattle.mail_audit.specs.Audits.{IsVerdict, IsSpokenLine, Part, spoken_line};
ghost use Rattle.mail_audit.specs.AuditProgress.{AreAudited, EndsAt, IsOpen, HasTaken};

use crate::lines::{SpokenLine, read_spoken, replica_of_dump};
use crate::open_dump::{DumpStep, OpenDump};
use crate::results::is_result;
use crate::sessions::AuditSessions;
use crate::verdict::AuditEnd;
use imap_types::Octets;
use std::alloc::{AllocError, Global};

/// The state of an audit between lines.
#[derive(Drop)]
pub struct Audit {
    pub sessions: AuditSessions,
    /// The dump that has begun and not ended.
    pub dump: Option<OpenDump>,
    /// The number of lines taken.
    pub taken: u64,
}

impl Audit {
    /// An audit that has taken no line.
    pub fn new(alloc: Global) -> Audit
        ensures { HasTaken [] result }
    {
        Audit {
            sessions: AuditSessions::new(alloc),
            dump: None,
            taken: 0,
        }
    }

    /// Takes the next line; `Some` if the audit ends at it. After an `Err`, which means that memory
    /// ran out, the audit can't be used.
    pub fn take(&mut self, alloc: Global, line: &[u8]) -> Result<Option<AuditEnd>, AllocError>
        requires room { self.old.taken + 1 < 2 ^ 64 }
        requires has_taken { (lines : List (List ℕ)) × HasTaken lines self.old }
        ensures { (lines : List (List ℕ)) → HasTaken lines self.old
            → IfOk result (λ end. MatchOption end (HasTaken (lines ++ line.now ∷ []) self.new)
            (EndsAt lines line.now)) }
    {
        self.taken += 1;
        match self.dump.take() {
            Some(dump) => self.take_in_dump(alloc, dump, line),
            None => match read_spoken(alloc, line)? {
                Some(spoken) => self.accept(alloc, spoken),
                None => self.take_other(alloc, line),
            },
        }
    }

    /// Takes a line of a dump.
    fn take_in_dump(
        &mut self,
        alloc: Global,
        dump: OpenDump,
        line: &[u8],
    ) -> Result<Option<AuditEnd>, AllocError>
        requires { (lines : List (List ℕ))
            × IsOpen lines self.old.sessions dump
            × (self.old.taken ≡ length lines + 1) }
        ensures { (lines : List (List ℕ))
            → IsOpen lines self.old.sessions dump
            → self.old.taken ≡ length lines + 1 → self.old.dump ≡ None
            → IfOk result (λ end. MatchOption end (HasTaken (lines ++ line.now ∷ []) self.new)
            (EndsAt lines line.now)) }
    {
        let mut dump = dump;
        let step = dump.take(alloc, line, self.taken)?;
        match step {
            DumpStep::Continues => {
                self.dump = Some(dump);
                Ok(None)
            }
            DumpStep::Ends => Ok(None),
            DumpStep::Wrong(number) => Ok(Some(AuditEnd::No(number))),
            DumpStep::Unreadable => Ok(Some(AuditEnd::Unreadable(self.taken))),
        }
    }

    /// Takes a line of a transcript.
    fn accept(&mut self, alloc: Global, spoken: SpokenLine) -> Result<Option<AuditEnd>, AllocError>
        ensures { (lines : List (List ℕ)) (parts : List Part)
            → AreAudited lines parts self.old.sessions
            → self.old.taken ≡ length lines + 1 → self.old.dump ≡ None
            → IsTrue (is_session_name spoken.session)
            → AreOctets spoken.text
            → IfOk result (λ end. MatchOption end
            (HasTaken (lines ++ spoken_line spoken.session spoken.speaker spoken.text ∷ [])
            self.new) (EndsAt lines (spoken_line spoken.session spoken.speaker spoken.text))) }
    {
        let SpokenLine {
            session,
            speaker,
            text,
        } = spoken;
        imap_grammar::one_reading();
        imap_print::one_reading();
        let octets = with_line_end(text)?;
        if self.sessions.accept(alloc, session, speaker, &octets)? {
            Ok(None)
        } else {
            Ok(Some(AuditEnd::No(self.taken)))
        }
    }

    /// Takes a line that belongs to no transcript and to no dump that began before it.
    fn take_other(&mut self, alloc: Global, line: &[u8]) -> Result<Option<AuditEnd>, AllocError>
        ensures { (lines : List (List ℕ)) (parts : List Part)
            → AreAudited lines parts self.old.sessions
            → self.old.taken ≡ length lines + 1 → self.old.dump ≡ None
            → (IsSpokenLine line.now → ⊥)
            → IfOk result (λ end. MatchOption end (HasTaken (lines ++ line.now ∷ []) self.new)
            (EndsAt lines line.now)) }
    {
        if let Some(replica) = replica_of_dump(line) {
            self.dump = Some(OpenDump::new(alloc, self.taken, replica));
            return Ok(None);
        }
        if is_result(alloc, line)? {
            Ok(None)
        } else {
            Ok(Some(AuditEnd::Unreadable(self.taken)))
        }
    }

    /// The verdict if the input ends here; `Err` if memory runs out.
    pub fn end(self, alloc: Global) -> Result<AuditEnd, AllocError>
        requires { (lines : List (List ℕ)) × HasTaken lines self }
        ensures { (lines : List (List ℕ)) → HasTaken lines self → IfOk result (IsVerdict lines) }
    {
        let Audit { dump, taken, .. } = self;
        match dump {
            None => Ok(AuditEnd::Yes),
            Some(dump) => dump.end(alloc, taken),
        }
    }
}

/// The octets that were sent, with their closing CRLF; `Err` if memory runs out.
fn with_line_end(text: Octets) -> Result<Vec<u8>, AllocError>
    ensures { IfOk result (λ octets. octets.items ≡ text ++ 13 ∷ 10 ∷ []) }
{
    let mut octets = text.into_vec();
    octets.extend_from_slice(b"\r\n")?;
    Ok(octets)
}
