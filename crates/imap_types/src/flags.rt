//! The flags of a message (RFC 9051, section 2.3.2).

ghost use Rattle.std.specs.Prelude.{◌≡◌, ◌↔◌, ◌≤◌, [], length, false, IfOk, IsTrue};
ghost use Rattle.std.specs.List.{list_all};
ghost use Rattle.imap_types.specs.Keywords.{is_lawful_keyword};
ghost use Rattle.imap_types.specs.Flags.{IsLawfulFlags};

use crate::keywords::is_lawful_keyword;
use crate::{Keywords, Octets};
use std::alloc::{AllocError, Global};

/// The most keywords that a message may have.
pub const MAX_KEYWORDS: usize = 32;

/// A message's flags: the system flags and the keywords (RFC 9051, section 2.3.2).
#[derive(Drop)]
pub struct Flags {
    /// `\Answered`.
    pub answered: bool,
    /// `\Flagged`.
    pub flagged: bool,
    /// `\Deleted`.
    pub deleted: bool,
    /// `\Seen`.
    pub seen: bool,
    /// `\Draft`.
    pub draft: bool,
    /// All other flags.
    pub keywords: Keywords,
}

impl Flags {
    /// No flags; doesn't allocate.
    pub fn none(alloc: Global) -> Flags
        ensures answered { result.answered ≡ false }
        ensures flagged { result.flagged ≡ false }
        ensures deleted { result.deleted ≡ false }
        ensures seen { result.seen ≡ false }
        ensures draft { result.draft ≡ false }
        ensures keywords { result.keywords ≡ [] }
    {
        Flags {
            answered: false,
            flagged: false,
            deleted: false,
            seen: false,
            draft: false,
            keywords: Keywords::empty(alloc),
        }
    }

    /// Whether both have the same flags.
    pub fn same(&self, other: &Flags) -> bool
        ensures { IsTrue result ↔ (self.now ≡ other.now) }
    {
        self.answered == other.answered
            && self.flagged == other.flagged
            && self.deleted == other.deleted
            && self.seen == other.seen
            && self.draft == other.draft
            && self.keywords.same(&other.keywords)
    }

    /// A copy of the flags. `Err` if memory runs out.
    pub fn copy(&self, alloc: Global) -> Result<Flags, AllocError>
        ensures { IfOk result (λ copied. copied ≡ self.now) }
    {
        Ok(Flags {
            answered: self.answered,
            flagged: self.flagged,
            deleted: self.deleted,
            seen: self.seen,
            draft: self.draft,
            keywords: self.keywords.copy(alloc)?,
        })
    }

    /// Whether a message may have these flags: at most 32 keywords, each of 1 to 64 atom octets.
    pub fn is_lawful(&self) -> bool
        ensures { IsTrue result ↔ IsLawfulFlags self.now }
    {
        self.keywords.len() <= MAX_KEYWORDS && are_lawful(self.keywords.as_slice())
    }
}

fn are_lawful(keywords: &[Octets]) -> bool
    ensures { result ≡ list_all is_lawful_keyword keywords.now }
{
    for keyword in keywords {
        if !is_lawful_keyword(keyword.as_bytes()) {
            return false;
        }
    }
    true
}
