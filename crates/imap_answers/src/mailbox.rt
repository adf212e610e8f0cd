//! The data of mailboxes and of searches in LIST, STATUS and ESEARCH answers.

ghost use Rattle.std.specs.Prelude.{◌≡◌, ◌↔◌, IfOk, IsTrue};

use imap_types::NumberSet;
use std::alloc::{AllocError, Global};

/// The state of a name in LIST (RFC 9051, section 7.3.1).
#[derive(Clone, Copy, Debug, PartialEq, Eq)]
pub enum MailboxState {
    /// A mailbox, which can be selected.
    Selectable,
    /// Only a level of the hierarchy above other mailboxes.
    NoSelect,
    /// No mailbox has this name.
    NonExistent,
}

impl MailboxState {
    ghost use Rattle.std.specs.Prelude.{◌≡◌};
    ghost use Rattle.imap_answers.specs.Words.{attributes_text};

    /// The attributes in LIST of a name in this state, by whether it is subscribed.
    pub fn attributes(self, subscribed: bool) -> &'static [u8]
        ensures { result.now ≡ attributes_text self subscribed }
    {
        match (self, subscribed) {
            (MailboxState::Selectable, false) => b"()",
            (MailboxState::Selectable, true) => b"(\\Subscribed)",
            (MailboxState::NoSelect, false) => b"(\\Noselect)",
            (MailboxState::NoSelect, true) => b"(\\Noselect \\Subscribed)",
            (MailboxState::NonExistent, false) => b"(\\NonExistent)",
            (MailboxState::NonExistent, true) => b"(\\NonExistent \\Subscribed)",
        }
    }
}

/// The items of a mailbox that STATUS sends; `None` for those that weren't asked for (RFC 9051,
/// section 7.3.3; RFC 7162, section 3.1.7).
#[derive(Clone, Copy, Debug, PartialEq, Eq)]
pub struct StatusItems {
    /// The number of messages.
    pub messages: Option<u32>,
    /// The UIDNEXT, from 1 on.
    pub uidnext: Option<u32>,
    /// The UIDVALIDITY, from 1 on.
    pub uidvalidity: Option<u32>,
    /// The number of messages without `\Seen`.
    pub unseen: Option<u32>,
    /// The number of messages with `\Deleted`.
    pub deleted: Option<u32>,
    /// The total length of all messages in octets.
    pub size: Option<u64>,
    /// The greatest mod-sequence, from 1 on.
    pub highest_modseq: Option<u64>,
}

/// The results of a search; `None` for those that weren't asked for (RFC 9051, section 7.3.4; RFC
/// 7162, section 3.1.10).
pub struct SearchResults {
    /// The least hit, a message number or UID from 1 on.
    pub min: Option<u32>,
    /// The greatest hit, a message number or UID from 1 on.
    pub max: Option<u32>,
    /// All hits; empty if there are none or ALL wasn't asked for.
    pub all: NumberSet,
    /// The number of hits.
    pub count: Option<u32>,
    /// The greatest mod-sequence among the hits, from 1 on.
    pub modseq: Option<u64>,
}

// By hand, so that crates above drop it whole.
impl Drop for SearchResults {
    fn drop(self) {
        let Self {
            min: _,
            max: _,
            all: _,
            count: _,
            modseq: _,
        } = self;
    }
}

impl SearchResults {
    /// Whether both are the same results, compared by value.
    pub fn same(&self, other: &SearchResults) -> bool
        ensures { IsTrue result ↔ (self.now ≡ other.now) }
    {
        self.min == other.min
            && self.max == other.max
            && self.all.same(&other.all)
            && self.count == other.count
            && self.modseq == other.modseq
    }

    /// Equal results; `Err` if memory runs out.
    pub fn copy(&self, alloc: Global) -> Result<SearchResults, AllocError>
        ensures { IfOk result (λ copied. copied ≡ self.now) }
    {
        Ok(SearchResults {
            min: self.min,
            max: self.max,
            all: self.all.copy(alloc)?,
            count: self.count,
            modseq: self.modseq,
        })
    }
}
