//! The values that commands, answers and operations are made of: octet strings, message texts,
//! mailbox names, flags, date-times, days, moments, sets of numbers, sequence sets and sections. It
//! also holds the versions of a message with the union of their flags, and the escape in which
//! lines of text spell octets.
//!
//! Contracts see each type as the value that it stands for: an octet string as the list of its
//! octets, a set of numbers as the rising list of its numbers. A type with an invariant is made by
//! a call that returns `None` exactly when the invariant fails: a date-time is one that RFC 9051
//! spells, on an existing day; keywords are in lower case, distinct and ascending. What
//! `write_escaped` writes, `read_escaped` reads back, and it reads nothing else.
//!
//! Types that own memory take over a `Vec`, or copy one after taking an allocator. A copy that runs
//! out of memory is an `Err` and leaves nothing.
//!
//! # Decided
//!
//! - **A message's keywords are a `SmallVec` with room for one in itself**: most messages have none
//!   or one. Elements of the toolchain's `SmallVec` are made with an allocator (`MadeWith`),
//!   whereas Rust's are made by `Default`; `Octets` implements it. The versions of a message stay a
//!   `Vec`, since callers borrow them as a slice next to those of other messages, and later
//!   operations give lists of their own.
//! - The escape is one type with two rules: in a field a space is escaped, in a text that ends its
//!   line it stands for itself.
//! - Year 0000 is a leap year of the proleptic calendar; second 60 is accepted in every minute; a
//!   date-time keeps its month as it was written, and only a space in the day becomes a zero.
//! - A day in SEARCH is a `Day` of our own, three numbers that `jiff` checks against the calendar:
//!   `jiff`'s `Date` carries proofs, and two readings of one frame have to be equal as values.
#![tactic(auto)]

mod date_time;
mod day;
mod escape;
mod flag_tests;
mod flags;
mod keywords;
mod moment;
mod name;
mod number_set;
mod octets;
mod section;
mod sequence_set;
mod text;
mod unions;
mod version;
mod versions;

pub use date_time::{DATE_TIME_OCTETS, DateTime};
pub use day::Day;
pub use escape::{Escape, EscapeFault, read_escaped, write_escaped};
pub use flags::{Flags, MAX_KEYWORDS};
pub use keywords::{
    Keywords, MAX_KEYWORD_OCTETS, is_astring_octet, is_atom_octet, is_lawful_keyword,
};
pub use moment::{LAST_MOMENT, Moment};
pub use name::Name;
pub use number_set::{NumberSet, Run};
pub use octets::Octets;
pub use section::{FieldNames, Section};
pub use sequence_set::{SequenceBound, SequenceRange, SequenceSet};
pub use text::Text;
pub use unions::add_flags;
pub use version::{Version, copy_versions};
pub use versions::Versions;
