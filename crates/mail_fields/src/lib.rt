//! The values of structured header fields: their elements, types with parameters, lists of
//! addresses and of words (RFC 5322, sections 3.2 and 3.4; RFC 2045, section 5.1; RFC 2183; RFC
//! 3282).
//!
//! `elements_of` reads any octets as blanks, comments, quoted strings and other octets.
//! `media_type` gives the type, subtype and parameters of a Content-Type, `token_with_parameters`
//! the token and parameters of a field such as Content-Disposition, `words_of` the words of a
//! Content-Language. A value's sections end before semicolons outside quoted strings and comments;
//! a section that isn't `name=value` is left out. A value that isn't quoted may have octets that
//! RFC 2045 wants quoted, such as `=`. `push_addresses` appends the addresses of a value to a list,
//! `addresses_named` gives those of all fields of a name as one list.
//!
//! The contracts define each result by a reading of the whole value, element by element
//! (`specs/HeaderValues.antt`, `specs/Parameters.antt`, `specs/Addresses.antt`,
//! `specs/AddressWords.antt`, `specs/FieldValues.antt`); the laws are that types in RFC 2045's form
//! and mailboxes in RFC 5322's are read as they were written (`written_types_are_read`,
//! `written_addresses_are_read`). All calls take any octets, in time that is linear in their
//! number. `Err` is returned only if memory runs out.
//!
//! # Decided
//!
//! - A mailbox's name is its phrase, or the last comment after it if it has no phrase. Its local
//!   part is unquoted, its domain is without blanks and comments. A local part or a domain that is
//!   missing is empty.
//! - Words without an `@` and angle brackets are a local part if no blanks part them, and else a
//!   name. If an `@` comes before angle brackets, the run of words before it is no part of the
//!   name.
//! - In angle brackets a comma or semicolon ends the mailbox only after the domain's `@`: before it
//!   routes may have commas, and what is read is a local part.
//! - A colon begins a group only after words, and not within a group. A semicolon ends a group, and
//!   a mailbox outside of groups. A field's end ends a group.
#![tactic(auto)]

mod address_list;
mod address_words;
mod element_words;
mod elements;
mod field_values;
mod laws;
mod mailboxes;
mod parameters;
mod sections;
mod word_lists;

pub use address_list::{Address, push_addresses};
pub use address_words::trimmed;
pub use elements::{Element, Within, elements_of};
pub use field_values::addresses_named;
pub use laws::{written_addresses_are_read, written_types_are_read};
pub use mailboxes::Mailbox;
pub use parameters::{
    MediaType, Parameter, TokenWithParameters, media_type, token_with_parameters,
};
pub use word_lists::words_of;
