//! Answers of the server as values, with the definition of their texts (RFC 9051, section 7).
//!
//! [`Answer`] has one variant for each kind of line that the server sends: greetings, untagged
//! answers, continuation requests and tagged lines. Parts that are one fixed text each give that
//! text by `text` or `attributes`, and their contracts say that it is the one of `specs/Words`.
//! `specs/AnswerText` defines the one text of each answer (`text_of_answer`), and `specs/Printable`
//! says which answers may be sent (`IsPrintable`). Printing and reading are in `imap_print`.
//!
//! Contracts promise that `same` is true exactly for equal values, and that `copy` gives an equal
//! value or `Err` if memory runs out; no call changes an answer.
//!
//! # Decided
//!
//! - An answer that may be sent meets the grammar of responses: numbers are from 1 on where the
//!   RFCs write nz-number, mod-sequences are from 1 on, FETCH and STATUS send at least one item,
//!   HEADER.FIELDS names at least one field, and COPYUID has as many copies as sources. RFC 9051
//!   would let STATUS send nothing, but no command asks for that, so no server of ours sends it.
#![tactic(auto)]

mod answer;
mod codes;
mod fetch_items;
mod fixed_words;
mod mailbox;

pub use answer::Answer;
pub use codes::{Code, Notice};
pub use fetch_items::{FetchItems, SectionData, Sections};
pub use fixed_words::{ByeReason, CompletedWord, Continuation, EnabledExtensions, Login, Refusal};
pub use mailbox::{MailboxState, SearchResults, StatusItems};
