//! Folders and their messages, as a replicated value (Jungnickel, Oldenburg, Loibl, OPODIS 2017).
//!
//! [`Folders`] has a table for each folder, found by its name: the present folder tags of the
//! operations applied, each message with all its versions (its present message tags), found by its
//! origin, and the origin of each version by its id. Besides these tables it has the dates and
//! texts of all Appends.
//!
//! Its contents are functions of folder and id, whatever the tables; that the tables agree with one
//! another is an invariant. Applying an operation is its effect on the contents, and takes no
//! memory once prepared. Concurrent operations commute, so folders keep the laws of `Replicated`.
//! What is read from folders after a causal list of sound operations is what the set of these
//! operations means, and `exists_after` and `has_version_after` give what it will mean with
//! operations that are yet to be applied.
//!
//! # Decided
//!
//! - A folder's versions and the dates and texts of Appends are separate tables: an origin's Append
//!   may be applied after a Store that names it, and may be of another folder. Contracts see the
//!   contents as functions of name and id; the tables are borrowed as they are (`FolderMessages`),
//!   and only the windows of `mailbox_rows` and the look ahead at one folder read them.
//! - A folder that lost its last tag still has its empty table and its place in the index: a name
//!   that is used again finds it, and no removal takes room that was made for pending operations.
//!   `exists` and `names` ask whether the folder has a tag.
#![tactic(auto)]

mod after_ops;
mod folder;
mod folder_lists;
mod folders;
mod laws;
mod message_reader;
mod message_ref;
mod op_room;
mod tag_changes;
mod tag_counts;
mod tag_insertion;
mod tag_removal;

pub use folder::Folder;
pub use folders::Folders;
pub use laws::{contents_follow_the_set, folders_for_all_orders};
pub use message_ref::MessageRef;
