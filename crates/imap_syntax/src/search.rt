//! Options and keys of SEARCH.

use crate::flags::SystemFlag;
use imap_types::{Day, Octets, SequenceSet};

/// A return option of SEARCH (RFC 9051, section 6.4.4).
#[derive(Clone, Copy, Debug, PartialEq, Eq)]
pub enum SearchOption {
    /// The least matching number.
    Min,
    /// The greatest matching number.
    Max,
    /// All matching numbers.
    All,
    /// The number of matching messages.
    Count,
}

/// The part of a message in which SEARCH looks for a text.
#[derive(Clone, Copy, Debug, PartialEq, Eq)]
pub enum TextPlace {
    Bcc,
    Cc,
    From,
    Subject,
    To,
    /// The text after the header.
    Body,
    /// The whole message.
    Text,
}

/// The relation of the day of a message's internal date, as it is written in its own zone, to the
/// day that a key names.
#[derive(Clone, Copy, Debug, PartialEq, Eq)]
pub enum DateRelation {
    /// Earlier than the named day.
    Before,
    /// The named day.
    On,
    /// The named day or later.
    Since,
}

/// A single test of a message (RFC 9051, section 6.4.4).
pub enum SearchTest {
    All,
    /// The system flag is set, or isn't.
    System { flag: SystemFlag, is_set: bool },
    /// The keyword is set, or isn't; the keyword is stored as it was written.
    Keyword { keyword: Octets, is_set: bool },
    /// The text occurs at this place.
    Holds { place: TextPlace, text: Octets },
    /// The text occurs in a header field of this name.
    Header { name: Octets, text: Octets },
    /// The day of the internal date has this relation to `day`, a day that exists.
    Dated { order: DateRelation, day: Day },
    /// The message has more than `octets` octets, a number of at most 2^63 - 1.
    Larger { octets: u64 },
    /// The message has fewer than `octets` octets, a number of at most 2^63 - 1.
    Smaller { octets: u64 },
    /// The message's mod-sequence is at least `value`, which is at most 2^63 - 1 (RFC 7162, section
    /// 3.1.5).
    ModSeq { value: u64 },
    Uids { uids: SequenceSet },
    Numbers { numbers: SequenceSet },
}

// By hand, so that crates above drop it whole.
impl Drop for SearchTest {
    fn drop(self) {
        match self {
            Self::All => {}
            Self::System { flag: _, is_set: _ } => {}
            Self::Keyword {
                keyword: _,
                is_set: _,
            } => {}
            Self::Holds { place: _, text: _ } => {}
            Self::Header { name: _, text: _ } => {}
            Self::Dated { order: _, day: _ } => {}
            Self::Larger { octets: _ } => {}
            Self::Smaller { octets: _ } => {}
            Self::ModSeq { value: _ } => {}
            Self::Uids { uids: _ } => {}
            Self::Numbers { numbers: _ } => {}
        }
    }
}

/// A step of a search; it follows the steps of its operands.
pub enum SearchStep {
    Test(SearchTest),
    /// Negates the last result.
    Not,
    /// Whether either of the last two results is true.
    Or,
    /// Whether both of the last two results are true.
    And,
}

// By hand, so that crates above drop it whole.
impl Drop for SearchStep {
    fn drop(self) {
        match self {
            Self::Test(_) => {}
            Self::Not => {}
            Self::Or => {}
            Self::And => {}
        }
    }
}

/// The words with which search keys begin (RFC 9051, section 9, search-key).
#[derive(Clone, Copy)]
pub enum SearchKeyWord {
    All,
    System { flag: SystemFlag, is_set: bool },
    Keyword { is_set: bool },
    Place { place: TextPlace },
    Header,
    Dated { order: DateRelation },
    Larger,
    Smaller,
    ModSeq,
    Uid,
    Not,
    Or,
}
