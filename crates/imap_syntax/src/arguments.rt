//! The arguments of commands that have several.

use crate::fetch::FetchItem;
use crate::search::SearchOption;
use crate::steps::SearchSteps;
use crate::store::StoreAction;
use crate::written_values::WrittenValues;
use imap_types::{DateTime, Flags, Name, Octets, SequenceSet, Text};

/// The arguments of LIST (RFC 9051, section 6.3.9).
pub struct ListNames {
    /// Whether the selection option SUBSCRIBED is given.
    pub subscribed_only: bool,
    pub reference: Octets,
    pub pattern: Octets,
    /// Whether the return option SUBSCRIBED is given.
    pub return_subscribed: bool,
}

// By hand, so that crates above drop it whole.
impl Drop for ListNames {
    fn drop(self) {
        let Self {
            subscribed_only: _,
            reference: _,
            pattern: _,
            return_subscribed: _,
        } = self;
    }
}

/// The arguments of APPEND (RFC 9051, section 6.3.12).
pub struct Append {
    pub name: Name,
    pub flags: Flags,
    /// The message's internal date; if it is missing, the message gets the moment of the command.
    pub date: Option<DateTime>,
    pub text: Text,
}

// By hand, so that crates above drop it whole.
impl Drop for Append {
    fn drop(self) {
        let Self {
            name: _,
            flags: _,
            date: _,
            text: _,
        } = self;
    }
}

/// The arguments of SEARCH (RFC 9051, section 6.4.4). A charset, which is UTF-8 or US-ASCII, isn't
/// stored.
pub struct Search {
    pub by_uid: bool,
    /// The return options, as they were written.
    pub options: WrittenValues<SearchOption>,
    /// The steps of the key in postfix order: each follows the steps of its operands.
    pub steps: SearchSteps,
}

// By hand, so that crates above drop it whole.
impl Drop for Search {
    fn drop(self) {
        let Self {
            by_uid: _,
            options: _,
            steps: _,
        } = self;
    }
}

/// The arguments of FETCH (RFC 9051, section 6.4.5).
pub struct Fetch {
    pub by_uid: bool,
    /// Message numbers, or UIDs if `by_uid`.
    pub messages: SequenceSet,
    /// One or more items, as they were written; FAST is replaced by its three items.
    pub items: WrittenValues<FetchItem>,
    /// A mod-sequence of at most 2^63 - 1 (RFC 7162, section 3.1.4.1).
    pub changed_since: Option<u64>,
}

// By hand, so that crates above drop it whole.
impl Drop for Fetch {
    fn drop(self) {
        let Self {
            by_uid: _,
            messages: _,
            items: _,
            changed_since: _,
        } = self;
    }
}

/// The arguments of STORE (RFC 9051, section 6.4.6).
pub struct Store {
    pub by_uid: bool,
    /// Message numbers, or UIDs if `by_uid`.
    pub messages: SequenceSet,
    /// A mod-sequence of at most 2^63 - 1 (RFC 7162, section 3.1.3).
    pub unchanged_since: Option<u64>,
    pub action: StoreAction,
    pub flags: Flags,
}

// By hand, so that crates above drop it whole.
impl Drop for Store {
    fn drop(self) {
        let Self {
            by_uid: _,
            messages: _,
            unchanged_since: _,
            action: _,
            flags: _,
        } = self;
    }
}

/// The arguments of COPY and MOVE (RFC 9051, sections 6.4.7 and 6.4.8).
pub struct Transfer {
    pub by_uid: bool,
    /// Message numbers, or UIDs if `by_uid`.
    pub messages: SequenceSet,
    /// The destination mailbox.
    pub name: Name,
}

// By hand, so that crates above drop it whole.
impl Drop for Transfer {
    fn drop(self) {
        let Self {
            by_uid: _,
            messages: _,
            name: _,
        } = self;
    }
}
