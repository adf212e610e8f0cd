//! The parser of commands: from a whole frame to the command that it spells (RFC 9051, section 9).
//!
//! `imap_syntax` has the commands as values and defines, production by production, which frame
//! spells which command (`IsSpelled`). [`parse`] answers exactly that: a command if the frame
//! spells it, unless memory runs out, and `NoTag` or `UnknownCommand` exactly when there is no tag
//! or no command's word; a lack of memory never hides these two. [`one_reading`] is the law that no
//! frame spells two commands. [`tag_of`] gives a frame's tag, and [`idle_line`] says whether a
//! frame ends IDLE. A fault changes nothing.
//!
//! A module reads the arguments of one command or one kind of value: each function takes octets,
//! and gives a value and the rest or a fault. Its contract equates it with a reading function of
//! specs/, and proofs/ shows that these functions and the definitions of `imap_syntax` agree both
//! ways.
//!
//! # Decided
//!
//! - A frame that spells no command is `NotInProfile` if it begins a form of IMAP that this server
//!   doesn't support, else `BadSyntax`. `$` counts as such a form whatever follows it; so does BODY
//!   without `[`, while BODY.PEEK without it is bad syntax; another charset counts even if no key
//!   follows. No contract says which of the two faults a frame gets; `imap_cases` tests it.
#![tactic(auto)]

mod append;
mod arguments;
mod class;
mod dates;
mod element_list;
mod fault;
mod fetch;
mod flags;
mod frame_parser;
mod grammar_word;
mod idle;
mod keys;
mod listing;
mod modifier;
mod numbers;
mod scan;
mod search;
mod search_args;
mod sets;
mod status;
mod store;
mod text;

pub use fault::ParseFault;
pub use frame_parser::{one_reading, parse, tag_of};
pub use idle::idle_line;
pub use imap_syntax::{
    Append, Command, CommandWord, DateRelation, Fetch, FetchItem, Flag, IdleLine, ListNames,
    Partial, Search, SearchOption, SearchStep, SearchTest, StatusItem, Store, StoreAction,
    StoreMode, SystemFlag, Tagged, TextPlace, Transfer, WrittenValues,
};
