//! One FETCH answer in compact form.

ghost use Rattle.std.specs.Prelude.{◌≡◌, ◌↔◌, IfSome, IsTrue};
ghost use Rattle.std.specs.Option.{option_map};
ghost use Rattle.replica_lock.specs.FetchAnswers.{answer_of, answer_with, flags_of, items_of};
ghost use Rattle.replica_lock.specs.FetchAnswers.{some_if_nonzero};

use imap_answers::{Answer, FetchItems, Sections};
use imap_types::Flags;

/// The system flags of a message (RFC 9051, section 2.3.2).
#[derive(Clone, Copy)]
pub struct SystemFlags {
    /// `\Answered`.
    pub answered: bool,
    /// `\Flagged`.
    pub flagged: bool,
    /// `\Deleted`.
    pub deleted: bool,
    /// `\Seen`.
    pub seen: bool,
    /// `\Draft`.
    pub draft: bool,
}

/// The items of a FETCH answer but for parts of the text, if they are only UID, flags without
/// keywords, and mod-sequence.
#[derive(Clone, Copy)]
pub struct FetchLine {
    /// The message's number, from 1 on.
    pub number: u32,
    /// Its UID; 0 if the answer has none.
    pub uid: u32,
    /// Its mod-sequence; 0 if the answer has none.
    pub modseq: u64,
    /// Its flags, if the answer has them.
    pub flags: Option<SystemFlags>,
}

impl SystemFlags {
    /// These flags; `None` if there are keywords among them.
    fn from_flags(flags: &Flags) -> Option<SystemFlags>
        ensures { IfSome result (λ system. flags_of system ≡ flags.now) }
    {
        if !flags.keywords.is_empty() {
            return None;
        }
        Some(SystemFlags {
            answered: flags.answered,
            flagged: flags.flagged,
            deleted: flags.deleted,
            seen: flags.seen,
            draft: flags.draft,
        })
    }

    /// Whether the flags are exactly these.
    fn are_flags(&self, flags: &Flags) -> bool
        ensures { IsTrue result ↔ (flags_of self.now ≡ flags.now) }
    {
        self.answered == flags.answered
            && self.flagged == flags.flagged
            && self.deleted == flags.deleted
            && self.seen == flags.seen
            && self.draft == flags.draft
            && flags.keywords.is_empty()
    }
}

impl FetchLine {
    /// The line of an answer; `None` if it has none.
    pub(crate) fn from_answer(answer: &Answer) -> Option<FetchLine>
        ensures { IfSome result (λ line. answer_of line ≡ answer.now) }
    {
        let Answer::Fetch { number, items } = answer else {
            return None;
        };
        if !items.sections.parts().is_empty() {
            return None;
        }
        FetchLine::without_parts(*number, items)
    }

    /// The line of these items but for the parts of the text; `None` if they have none.
    pub(crate) fn without_parts(number: u32, items: &FetchItems) -> Option<FetchLine>
        ensures { IfSome result
            (λ line. (line.number ≡ number) × (items_of line items.now.sections ≡ items.now)) }
    {
        if items.date.is_some() || items.size.is_some() {
            return None;
        }
        Some(FetchLine {
            number,
            uid: stored_uid(items.uid)?,
            modseq: stored_modseq(items.modseq)?,
            flags: stored_flags(&items.flags)?,
        })
    }

    /// Whether this is the line of the answer, which has no parts of a text.
    pub(crate) fn is_line_of(&self, answer: &Answer) -> bool
        ensures { IsTrue result ↔ (answer_of self.now ≡ answer.now) }
    {
        match answer {
            Answer::Fetch { number, items } => {
                self.number == *number && self.agrees(items) && items.sections.parts().is_empty()
            }
            _ => false,
        }
    }

    /// Whether this is the line of the answer, which has these parts of the message's text.
    pub(crate) fn is_line_with(&self, sections: &Sections, answer: &Answer) -> bool
        ensures { IsTrue result ↔ (answer_with sections.now self.now ≡ answer.now) }
    {
        match answer {
            Answer::Fetch { number, items } => {
                self.number == *number && self.agrees(items) && sections.same(&items.sections)
            }
            _ => false,
        }
    }

    /// Whether this is the line of these items but for the parts of the text.
    pub(crate) fn agrees(&self, items: &FetchItems) -> bool
        ensures { IsTrue result ↔ (items_of self.now items.now.sections ≡ items.now) }
    {
        uid_if_nonzero(self.uid) == items.uid
            && modseq_if_nonzero(self.modseq) == items.modseq
            && are_stored_flags(&self.flags, &items.flags)
            && items.date.is_none()
            && items.size.is_none()
    }
}

fn uid_if_nonzero(uid: u32) -> Option<u32>
    ensures { result ≡ some_if_nonzero uid }
{
    if uid == 0 { None } else { Some(uid) }
}

fn modseq_if_nonzero(modseq: u64) -> Option<u64>
    ensures { result ≡ some_if_nonzero modseq }
{
    if modseq == 0 { None } else { Some(modseq) }
}

/// The stored form of a UID: 0 for none. `None` if it is 0, which no UID is.
fn stored_uid(uid: Option<u32>) -> Option<u32>
    ensures { IfSome result (λ form. some_if_nonzero form ≡ uid) }
{
    match uid {
        None => Some(0),
        Some(0) => None,
        Some(uid) => Some(uid),
    }
}

/// The stored form of a mod-sequence: 0 for none. `None` if it is 0, which no mod-sequence is.
fn stored_modseq(modseq: Option<u64>) -> Option<u64>
    ensures { IfSome result (λ form. some_if_nonzero form ≡ modseq) }
{
    match modseq {
        None => Some(0),
        Some(0) => None,
        Some(modseq) => Some(modseq),
    }
}

/// The stored form of flags; `None` if there are keywords among them.
fn stored_flags(flags: &Option<Flags>) -> Option<Option<SystemFlags>>
    ensures { IfSome result (λ form. option_map flags_of form ≡ flags.now) }
{
    match flags {
        None => Some(None),
        Some(flags) => Some(Some(SystemFlags::from_flags(flags)?)),
    }
}

/// Whether the stored flags are these flags.
fn are_stored_flags(stored: &Option<SystemFlags>, flags: &Option<Flags>) -> bool
    ensures { IsTrue result ↔ (option_map flags_of stored.now ≡ flags.now) }
{
    match (stored, flags) {
        (Some(stored), Some(flags)) => stored.are_flags(flags),
        (None, None) => true,
        _ => false,
    }
}
