//! Printing and reading of the server's answers (RFC 9051, section 7).
//!
//! [`print`] appends the one text of an answer, `text_of_answer` of `imap_answers`, with its line
//! end, or leaves the octets before it unchanged if memory runs out. It takes any `Answer`, even
//! one that may not be sent.
//!
//! [`read`] returns the answer whose text the octets begin with, and the length of that text. An
//! answer that is read may be sent (`IsPrintable`), and each answer that may be sent is read from
//! its text, whatever follows the text, unless memory runs out. [`one_reading`] is the law that
//! octets begin with the text of at most one such answer. `read` prints the answer that it read and
//! compares the text with the octets, so that its contract rests on that of `print`.
//!
//! Modules named `.._printers` and `.._readers` contain one function for each part of an answer;
//! `specs/Reading` and `specs/ReadingAnswers` define what a reader gives for any octets.
#![tactic(auto)]

mod answer_reader;
mod fault;
mod fixed_texts;
mod item_readers;
mod line_readers;
mod list_printers;
mod part_printers;
mod printable;
mod printer;
mod scanner;
mod strings;

pub use answer_reader::{one_reading, read};
pub use imap_answers::{
    Answer, ByeReason, Code, CompletedWord, Continuation, EnabledExtensions, FetchItems, Login,
    MailboxState, Notice, Refusal, SearchResults, SectionData, Sections, StatusItems,
};
pub use printer::print;
