//! The sessions whose transcripts are audited.

ghost use Rattle.std.specs.Prelude.{◌≡◌, ◌<◌, ◌+◌, false, ℕ, List, [], ◌∷◌, ◌++◌, IfOk, length};
ghost use Rattle.std.specs.Str.{bytes_eq};
ghost use Rattle.mail_audit.specs.KnownSessions.{DecidesSent};
ghost use Rattle.mail_audit.specs.Sessions.{known_for, place_or_end};

use crate::transcript::Transcript;
use indexmap::IndexMap;
use mail_script::{SessionName, Speaker};
use std::alloc::{AllocError, Global};
use std::marker::Model;

/// The sessions by name, in the order of their first lines, with the knowledge of each.
#[derive(Drop)]
pub struct AuditSessions {
    audited: IndexMap<Vec<u8>, Transcript>,
}

impl Model for AuditSessions {
    ghost use Rattle.std.specs.Prelude.{List};
    ghost use Rattle.mail_audit.specs.Sessions.{Session, sessions_of};

    ghost Value = { List Session };

    ghost view = { λ s. sessions_of s.audited.entries };
}

impl AuditSessions {
    /// No sessions.
    pub fn new(alloc: Global) -> AuditSessions
        ensures { result ≡ [] }
    {
        AuditSessions {
            audited: IndexMap::new(alloc),
        }
    }

    /// Takes octets that were sent in a session, CRLF included; `false` if they can't follow what
    /// was sent there before. `Err` if memory runs out.
    pub fn accept(
        &mut self,
        alloc: Global,
        session: SessionName,
        speaker: Speaker,
        octets: &[u8],
    ) -> Result<bool, AllocError>
        ensures sent { IfOk result (λ audited. DecidesSent (known_for session self.old)
            (record { speaker = speaker; octets = octets.now }) audited
            (known_for session self.new)) }
        ensures others { IfOk result (λ audited. (other : List ℕ) → bytes_eq other session ≡ false
            → known_for other self.new ≡ known_for other self.old) }
    {
        let place = self.place_of(alloc, session)?;
        match self.audited.get_index_mut(place) {
            None => unreachable!(),
            Some(transcript) => transcript.accept(alloc, speaker, octets),
        }
    }

    /// The place of a session, which is added at the end if it is new; `Err` if memory runs out.
    fn place_of(&mut self, alloc: Global, session: SessionName) -> Result<usize, AllocError>
        ensures within { IfOk result (λ place. place < length self.new) }
        ensures first { IfOk result (λ place. place ≡ place_or_end session self.new) }
        ensures same { IfOk result
            (λ place. (other : List ℕ) → known_for other self.new ≡ known_for other self.old) }
    {
        if let Some(place) = self.audited.get_index_of(session.as_bytes()) {
            return Ok(place);
        }
        let name = session.as_bytes().to_vec(alloc)?;
        let (place, _) = self.audited.insert_full(name, Transcript::new(alloc))?;
        Ok(place)
    }
}
