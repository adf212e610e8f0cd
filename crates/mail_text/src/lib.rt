//! The texts of messages (RFC 5322): header and body, header fields by name, partial texts, words
//! compared without case; and the date-times of moments.
//!
//! `header` and `body` divide a text at its first empty line; `fields` and `other_fields` select
//! header fields as FETCH asks for them (RFC 9051, section 6.4.5.1); `partial` cuts a range of
//! octets. `contains_nocase` and `field_contains_nocase` look for a word as SEARCH does (RFC 9051,
//! section 6.4.4); `field_value` gives the value of the first field of a name. `civil` gives the
//! date-time of a moment in UTC, `written_day` the day of a date-time in its own zone.
//!
//! Contracts define each result as a filter or a cut of the whole text: the text's lines, the
//! fields that these lines form, and those among them that are selected. Calls that make new octets
//! return `Err` if memory runs out; all others take none.
//!
//! # Decided
//!
//! - `bstr` finds octets in messages. Its contracts define the result of each search in the terms
//!   of `memchr`, which is a dependency only for its lemmas.
#![tactic(auto)]

mod dates;
mod field_words;
mod header_and_body;
mod header_fields;
mod text_lines;
mod text_search;

pub use dates::{civil, date_ok, written_day};
pub use field_words::{field_contains_nocase, field_value};
pub use header_and_body::{body, header, partial};
pub use header_fields::{fields, other_fields, trim_end_blanks};
pub use text_search::contains_nocase;
