//! Commands, and commands with their tags.

use crate::arguments::{Append, Fetch, ListNames, Search, Store, Transfer};
use crate::status::StatusItem;
use crate::written_values::WrittenValues;
use imap_types::{Name, Octets, SequenceSet};

/// A command and its tag (RFC 9051, section 2.2.1).
#[derive(Drop)]
pub struct Tagged {
    /// One or more octets, which the tagged answer repeats.
    pub tag: Octets,
    /// The command without its tag.
    pub command: Command,
}

/// A command of a client (RFC 9051, section 6). In mailbox names, INBOX of any case is in capitals;
/// names are otherwise unchanged and unchecked. Sets name message numbers, or UIDs if `by_uid` (RFC
/// 9051, section 6.4.9).
pub enum Command {
    /// RFC 9051, section 6.1.1.
    Capability,
    /// RFC 9051, section 6.1.2.
    Noop,
    /// RFC 9051, section 6.1.3.
    Logout,
    /// RFC 9051, section 6.2.3.
    Login {
        user: Octets,
        password: Octets,
    },
    /// RFC 9051, section 6.3.1. The names, as they were written.
    Enable {
        names: WrittenValues<Octets>,
    },
    /// RFC 9051, section 6.3.2; `condstore` turns mod-sequences on (RFC 7162, section 3.1.8).
    Select {
        name: Name,
        condstore: bool,
    },
    /// RFC 9051, section 6.3.3; `condstore` as in `Select`.
    Examine {
        name: Name,
        condstore: bool,
    },
    /// RFC 9051, section 6.3.4.
    Create {
        name: Name,
    },
    /// RFC 9051, section 6.3.5.
    Delete {
        name: Name,
    },
    /// RFC 9051, section 6.3.7.
    Subscribe {
        name: Name,
    },
    /// RFC 9051, section 6.3.8.
    Unsubscribe {
        name: Name,
    },
    /// LIST (RFC 9051, section 6.3.9).
    ListNames(ListNames),
    /// RFC 9051, section 6.3.10.
    Namespace,
    /// RFC 9051, section 6.3.11. One or more items, as they were written.
    Status {
        name: Name,
        items: WrittenValues<StatusItem>,
    },
    /// RFC 9051, section 6.3.12.
    Append(Append),
    /// RFC 2177, section 3.
    Idle,
    /// RFC 9051, section 6.4.1.
    Close,
    /// RFC 9051, section 6.4.2.
    Unselect,
    /// RFC 9051, section 6.4.3.
    Expunge,
    /// UID EXPUNGE (RFC 9051, section 6.4.9).
    UidExpunge {
        uids: SequenceSet,
    },
    /// RFC 9051, section 6.4.4.
    Search(Search),
    /// RFC 9051, section 6.4.5.
    Fetch(Fetch),
    /// RFC 9051, section 6.4.6.
    Store(Store),
    /// RFC 9051, section 6.4.7.
    Copy(Transfer),
    /// RFC 9051, section 6.4.8.
    Move(Transfer),
}

// By hand, so that crates above drop it whole.
impl Drop for Command {
    fn drop(self) {
        match self {
            Self::Capability => {}
            Self::Noop => {}
            Self::Logout => {}
            Self::Login {
                user: _,
                password: _,
            } => {}
            Self::Enable { names: _ } => {}
            Self::Select {
                name: _,
                condstore: _,
            } => {}
            Self::Examine {
                name: _,
                condstore: _,
            } => {}
            Self::Create { name: _ } => {}
            Self::Delete { name: _ } => {}
            Self::Subscribe { name: _ } => {}
            Self::Unsubscribe { name: _ } => {}
            Self::ListNames(_) => {}
            Self::Namespace => {}
            Self::Status { name: _, items: _ } => {}
            Self::Append(_) => {}
            Self::Idle => {}
            Self::Close => {}
            Self::Unselect => {}
            Self::Expunge => {}
            Self::UidExpunge { uids: _ } => {}
            Self::Search(_) => {}
            Self::Fetch(_) => {}
            Self::Store(_) => {}
            Self::Copy(_) => {}
            Self::Move(_) => {}
        }
    }
}
