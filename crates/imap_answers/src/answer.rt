//! An answer to a client as one value (RFC 9051, section 7).

ghost use Rattle.std.specs.Prelude.{◌≡◌, ◌↔◌, IfOk, IsTrue};

use crate::codes::{Code, Notice};
use crate::fetch_items::FetchItems;
use crate::fixed_words::{
    ByeReason, CompletedWord, Continuation, EnabledExtensions, Login, Refusal,
};
use crate::mailbox::{MailboxState, SearchResults, StatusItems};
use imap_types::{Flags, Name, Octets};
use std::alloc::{AllocError, Global};

/// One answer to a client (RFC 9051, section 7). `IsPrintable` (`specs/Printable`) says which
/// values may be sent.
pub enum Answer {
    /// The greeting of a connection.
    Greeting {
        login: Login,
    },
    /// The server waits for more from the client.
    Continue {
        with: Continuation,
    },
    /// The server's capabilities.
    Capability,
    /// The extensions that are on now.
    Enabled {
        extensions: EnabledExtensions,
    },
    /// The namespaces of mailboxes (RFC 9051, section 7.3.2).
    Namespace,
    /// The flags of the mailbox.
    Flags {
        flags: Flags,
    },
    /// How many messages the mailbox has.
    Exists {
        count: u32,
    },
    /// The message with this number, from 1 on, was removed.
    Expunge {
        number: u32,
    },
    /// A mailbox, or a level above mailboxes.
    List {
        name: Name,
        state: MailboxState,
        subscribed: bool,
    },
    /// An untagged OK with a code.
    UntaggedOk {
        notice: Notice,
    },
    /// The counts and numbers that STATUS asked for.
    Status {
        name: Name,
        items: StatusItems,
    },
    /// The hits of the search with this tag: message numbers, or UIDs.
    Search {
        tag: Octets,
        by_uid: bool,
        results: SearchResults,
    },
    /// Data of the message with this number, from 1 on.
    Fetch {
        number: u32,
        items: FetchItems,
    },
    /// The server closes the connection.
    Bye {
        reason: ByeReason,
    },
    /// `BAD` for a line without a tag.
    NoTag,
    /// `NO` for literals that are too long, after a line without a tag.
    LiteralTooLong,
    /// The command with this tag is completed.
    Completed {
        tag: Octets,
        code: Option<Code>,
        command: CompletedWord,
    },
    /// The command with this tag is refused.
    Refused {
        tag: Octets,
        reason: Refusal,
    },
}

// By hand, so that crates above drop it whole.
impl Drop for Answer {
    fn drop(self) {
        match self {
            Self::Greeting { login: _ } => {}
            Self::Continue { with: _ } => {}
            Self::Capability => {}
            Self::Enabled { extensions: _ } => {}
            Self::Namespace => {}
            Self::Flags { flags: _ } => {}
            Self::Exists { count: _ } => {}
            Self::Expunge { number: _ } => {}
            Self::List {
                name: _,
                state: _,
                subscribed: _,
            } => {}
            Self::UntaggedOk { notice: _ } => {}
            Self::Status { name: _, items: _ } => {}
            Self::Search {
                tag: _,
                by_uid: _,
                results: _,
            } => {}
            Self::Fetch {
                number: _,
                items: _,
            } => {}
            Self::Bye { reason: _ } => {}
            Self::NoTag => {}
            Self::LiteralTooLong => {}
            Self::Completed {
                tag: _,
                code: _,
                command: _,
            } => {}
            Self::Refused { tag: _, reason: _ } => {}
        }
    }
}

impl Answer {
    /// Whether both are the same answer, compared by value.
    pub fn same(&self, other: &Answer) -> bool
        ensures { IsTrue result ↔ (self.now ≡ other.now) }
    {
        match (self, other) {
            (Answer::Greeting { login }, Answer::Greeting { login: other }) => login == other,
            (Answer::Continue { with }, Answer::Continue { with: other }) => with == other,
            (Answer::Capability, Answer::Capability) => true,
            (Answer::Enabled { extensions }, Answer::Enabled { extensions: others }) => {
                extensions == others
            }
            (Answer::Namespace, Answer::Namespace) => true,
            (Answer::Flags { flags }, Answer::Flags { flags: others }) => flags.same(others),
            (Answer::Exists { count }, Answer::Exists { count: other }) => count == other,
            (Answer::Expunge { number }, Answer::Expunge { number: other }) => number == other,
            (
                Answer::List {
                    name,
                    state,
                    subscribed,
                },
                Answer::List {
                    name: other,
                    state: other_state,
                    subscribed: other_subscribed,
                },
            ) => name.same(other) && state == other_state && subscribed == other_subscribed,
            (Answer::UntaggedOk { notice }, Answer::UntaggedOk { notice: other }) => notice.same(
                other,
            ),
            (
                Answer::Status { name, items },
                Answer::Status {
                    name: other,
                    items: others,
                },
            ) => name.same(other) && are_same_items(items, others),
            (
                Answer::Search {
                    tag,
                    by_uid,
                    results,
                },
                Answer::Search {
                    tag: other,
                    by_uid: other_by_uid,
                    results: others,
                },
            ) => tag.same(other) && by_uid == other_by_uid && results.same(others),
            (
                Answer::Fetch { number, items },
                Answer::Fetch {
                    number: other,
                    items: others,
                },
            ) => number == other && items.same(others),
            (Answer::Bye { reason }, Answer::Bye { reason: other }) => reason == other,
            (Answer::NoTag, Answer::NoTag) => true,
            (Answer::LiteralTooLong, Answer::LiteralTooLong) => true,
            (
                Answer::Completed { tag, code, command },
                Answer::Completed {
                    tag: other,
                    code: other_code,
                    command: other_command,
                },
            ) => tag.same(other) && are_same_codes(code, other_code) && command == other_command,
            (
                Answer::Refused { tag, reason },
                Answer::Refused {
                    tag: other,
                    reason: other_reason,
                },
            ) => tag.same(other) && reason == other_reason,
            _ => false,
        }
    }

    /// An equal answer; `Err` if memory runs out.
    pub fn copy(&self, alloc: Global) -> Result<Answer, AllocError>
        ensures { IfOk result (λ copied. copied ≡ self.now) }
    {
        Ok(match self {
            Answer::Greeting { login } => Answer::Greeting { login: *login },
            Answer::Continue { with } => Answer::Continue { with: *with },
            Answer::Capability => Answer::Capability,
            Answer::Enabled { extensions } => Answer::Enabled {
                extensions: *extensions,
            },
            Answer::Namespace => Answer::Namespace,
            Answer::Flags { flags } => Answer::Flags {
                flags: flags.copy(alloc)?,
            },
            Answer::Exists { count } => Answer::Exists { count: *count },
            Answer::Expunge { number } => Answer::Expunge { number: *number },
            Answer::List {
                name,
                state,
                subscribed,
            } => Answer::List {
                name: name.copy(alloc)?,
                state: *state,
                subscribed: *subscribed,
            },
            Answer::UntaggedOk { notice } => Answer::UntaggedOk {
                notice: notice.copy(alloc)?,
            },
            Answer::Status { name, items } => Answer::Status {
                name: name.copy(alloc)?,
                items: *items,
            },
            Answer::Search {
                tag,
                by_uid,
                results,
            } => Answer::Search {
                tag: tag.copy(alloc)?,
                by_uid: *by_uid,
                results: results.copy(alloc)?,
            },
            Answer::Fetch { number, items } => Answer::Fetch {
                number: *number,
                items: items.copy(alloc)?,
            },
            Answer::Bye { reason } => Answer::Bye { reason: *reason },
            Answer::NoTag => Answer::NoTag,
            Answer::LiteralTooLong => Answer::LiteralTooLong,
            Answer::Completed { tag, code, command } => Answer::Completed {
                tag: tag.copy(alloc)?,
                code: copy_code(alloc, code)?,
                command: *command,
            },
            Answer::Refused { tag, reason } => Answer::Refused {
                tag: tag.copy(alloc)?,
                reason: *reason,
            },
        })
    }
}

/// Whether both have the same STATUS items.
fn are_same_items(items: &StatusItems, others: &StatusItems) -> bool
    ensures { IsTrue result ↔ (items.now ≡ others.now) }
{
    are_same_counts(items, others)
        && items.uidnext == others.uidnext
        && items.uidvalidity == others.uidvalidity
        && items.highest_modseq == others.highest_modseq
}

/// Whether the counts of messages and the sizes are the same.
fn are_same_counts(items: &StatusItems, others: &StatusItems) -> bool
    ensures { IsTrue result
        ↔ ((items.now.messages ≡ others.now.messages) × (items.now.unseen ≡ others.now.unseen)
        × (items.now.deleted ≡ others.now.deleted) × (items.now.size ≡ others.now.size)) }
{
    items.messages == others.messages
        && items.unseen == others.unseen
        && items.deleted == others.deleted
        && items.size == others.size
}

/// Whether both are the same code, or both none.
fn are_same_codes(code: &Option<Code>, other: &Option<Code>) -> bool
    ensures { IsTrue result ↔ (code.now ≡ other.now) }
{
    match (code, other) {
        (None, None) => true,
        (Some(code), Some(other)) => code.same(other),
        _ => false,
    }
}

/// An equal code, if any; `Err` if memory runs out.
fn copy_code(alloc: Global, code: &Option<Code>) -> Result<Option<Code>, AllocError>
    ensures { IfOk result (λ copied. copied ≡ code.now) }
{
    Ok(match code {
        None => None,
        Some(code) => Some(code.copy(alloc)?),
    })
}
