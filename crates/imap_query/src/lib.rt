//! The answers to LIST, STATUS, SEARCH and FETCH, computed from the rows of a mailbox's listing.
//!
//! Nothing here changes a mailbox: the functions take folders, rows and the messages that a
//! session's view shows, and return values. Contracts pin each result by definitions in the terms
//! of RFC 9051 and RFC 7162: `list` and `list_names` by the names that a pattern matches
//! (`specs/Patterns`, `specs/ListEntries`, `specs/ListNames`), `status` by counts over the listing
//! (`specs/Status`), `search` by the key that its steps spell (`specs/KeyHits`, `specs/Search`),
//! and `fetch` by each named message before and after the command (`specs/FetchCommand`). An `Err`
//! always means that memory ran out, and leaves everything as it was.
//!
//! # Decided
//!
//! - `list` returns entries, and `list_names` the answers to LIST: scripts of cases compare
//!   entries.
//! - `status` and `search` return the contents of their answers, without the mailbox's name and the
//!   tag, which the command adds.
#![tactic(auto)]

mod answer_room;
mod fetch_command;
mod heads;
mod keys;
mod laws;
mod list_answers;
mod list_entries;
mod mailbox_status;
mod messages;
mod pattern;
mod search_command;
mod viewed_message;

pub use answer_room::make_room;
pub use fetch_command::{
    FetchMode, any_sets_seen, fetch, fetch_unchanged, has_changed_since, is_seen_set,
};
pub use laws::{one_key, spelled_steps_are_a_key};
pub use list_answers::{ListMode, list_names};
pub use list_entries::{ListEntry, list, one_list};
pub use mailbox_status::{MailboxCounters, status};
pub use pattern::matches;
pub use search_command::{Hit, search};
pub use viewed_message::ViewedMessage;
