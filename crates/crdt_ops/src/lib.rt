//! The operations that replicas exchange (Jungnickel, Oldenburg, Loibl, OPODIS 2017): an `Op` has
//! an id, a clock of its causes, and a `Kind`.
//!
//! [`check`] turns exactly the sound operations, those that replicas may apply, into a [`SoundOp`];
//! any other operation is returned with its first fault. [`write_op`] appends exactly the one text
//! of an operation, and [`read_op`] reads exactly the texts that spell one, sound or not.
//!
//! `specs/Sets.antt` defines what a set of operations means: its folders, messages with their
//! versions, delete sets and subscriptions, by filters over the set, so that no list order matters.
//! The laws [`one_set_means_one`] and [`present_tags_are_listed`] say so, and say what the lists
//! contain. The lines of folders, messages and subscriptions in a dump are here too.
//!
//! # Decided
//!
//! - Folders and subscriptions of a set are defined by insertion in order. That each such list is
//!   the ascending list of exactly its elements is the law `present_tags_are_listed` beside the
//!   definition, so that the crates above can compute with the definition.
//! - `expunge NAME -` and `store NAME FLAGS - ORIGIN` are texts of operations, though of unsound
//!   ones: how many old ids an operation names is checked after everything else.
//! - A Store may name an origin other than that of the ids that it removes. The Store's id is then
//!   a version of the message of the origin that it names; if that origin has no version in the
//!   folder, a message begins. No command issues such a Store.
#![tactic(auto)]

mod dump_lines;
mod fault;
mod fields;
mod flags;
mod ids;
mod kind;
mod laws;
mod message;
mod name_lists;
mod op;
mod op_copies;
mod read;
mod sound_op;
mod verb;
mod write;

pub use dump_lines::{push_messages, push_name_line};
pub use fault::OpFault;
pub use fields::read_clock;
pub use ids::Ids;
pub use kind::{Kind, MAX_OLD_IDS};
pub use laws::{one_set_means_one, present_tags_are_listed};
pub use message::Message;
pub use name_lists::insert_name;
pub use op::{Op, SoundOp};
pub use op_copies::copy_ops;
pub use read::{one_operation, read_op};
pub use sound_op::{Unsound, check, into_sound_op};
pub use write::{write_clock, write_flags, write_id, write_ids, write_op};
