//! The commands of IMAP4rev2 (RFC 9051) that this server accepts, as values, and the definition of
//! which frame spells which command.
//!
//! A `Command` is the command's word with its arguments; a `Tagged` adds the tag. The types ensure
//! the properties of a command: sets name numbers from 1, a search's steps are those of one key
//! (`IsKey` of `specs/SearchKeys.antt`), flags are a set.
//!
//! `specs/Commands.antt` says which frame spells which command (`IsSpelled`), production by
//! production, in the names and sections of RFC 9051, RFC 7162 and RFC 2177. The languages from
//! which it is built are in `specs/Languages.antt`; `specs/Faults.antt` says when a frame has a tag
//! and names a command. Reading frames is left to the crates above.
//!
//! # Decided
//!
//! - LIST is `Command::ListNames`, since a variant `List` would hide the library's name in
//!   definitions. Lists of items (ENABLE, STATUS, FETCH, RETURN) are stored as written; FAST is
//!   replaced by its three items. `1` and `1:1` are one range. CHARSET isn't stored.
//! - SEARCH is stored as steps in postfix order, so that a stack evaluates it without recursion.
//!   Their type, `SearchSteps`, contains the steps of one key and nothing else.
#![tactic(auto)]

mod arguments;
mod command;
mod fetch;
mod flags;
mod idle;
mod octet_class;
mod search;
mod status;
mod steps;
mod store;
mod word;
mod written_values;

pub use arguments::{Append, Fetch, ListNames, Search, Store, Transfer};
pub use command::{Command, Tagged};
pub use fetch::{FetchItem, FetchWord, Partial, SectionWord};
pub use flags::{Flag, SystemFlag};
pub use idle::IdleLine;
pub use octet_class::OctetClass;
pub use search::{DateRelation, SearchKeyWord, SearchOption, SearchStep, SearchTest, TextPlace};
pub use status::StatusItem;
pub use steps::SearchSteps;
pub use store::{StoreAction, StoreMode};
pub use word::CommandWord;
pub use written_values::WrittenValues;
