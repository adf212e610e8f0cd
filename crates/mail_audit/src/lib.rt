//! The audit of scripts' output: whether the answers that clients were sent, and the dumps, can be
//! right.
//!
//! An input consists of the lines of transcripts, lines that report results, and dumps. This crate
//! shares no code with nodes and conversations: it reads frames by the grammar, answers and
//! operations by their texts, and applies operations as replicas do.
//!
//! The contract of `audit` says what each verdict means. After `Yes` the input consists of such
//! parts; each session's transcript is explained: ascending UIDs of 32 bits can be assigned to all
//! messages, expunged ones included, so that every answer fits; and each dump is right: its op
//! lines are sound operations, ascending, each with op lines for all its causes, followed by the
//! lines that the set of them defines. After `No` or `Unreadable` everything before the named line,
//! or before the dump that contains it, is right. `explained_if_it_passes` says that a transcript
//! is explained exactly when each event fits what was known before it.
//!
//! # Decided
//!
//! - Op lines that are causes of each other are a `No`, since no replica can apply them, though a
//!   set with such operations would have a meaning; a dump whose lines are right for the set is
//!   refused at its first op line that can't be applied. The audit searches for such op lines only
//!   if other lines follow the op lines and nothing else is wrong: an input that ends among them is
//!   unreadable there, since its lines begin a dump that is right by the definition.
//!
//! - An input that ends, or can't be read further, among op lines is a `No` if an operation lacks a
//!   cause whose id isn't above the last op line, be that line good or bad: no later line can bring
//!   the cause without being out of order.
//!
//! - `op` is a lawful session name: a line that begins with it and spells no operation is read as a
//!   line of a transcript before it is called unreadable.
//!
//! - A result line is one whose text is that of an outcome, with ids, replicas and counts in their
//!   ranges. A delivery's `Applied 0` is accepted, since the format leaves it open.
//!
//! - If the audit says that a line can't be read, its contract says that everything before it is
//!   right, and that the line belongs to no transcript, begins no dump and reports no result, or
//!   belongs to a dump that hasn't ended before it. That such a line of a dump can't be read is
//!   tested.
//!
//! - The knowledge of a session's messages is stored by its exceptions: the places of expunged
//!   messages, and of those whose UIDs were reported, both in order. So `* 4294967295 EXISTS` costs
//!   no memory.
//!
//! - Both are stored in a `tree_list`, and not in a vector: if messages were reported from the last
//!   one down, each would move all later ones in the vector. std's maps can't say which entry is at
//!   a place, so the tree is our own.
//!
//! - A session is looked up by its name in an `IndexMap`. Commands in progress are numbered as they
//!   begin and stored by number in a `BTreeMap`, with the numbers of each tag, so an answer finds
//!   the first command with its tag in logarithmic time.
#![tactic(auto)]

mod dump_state;
mod event;
mod expected_lines;
mod expunged_places;
mod gaps;
mod in_progress;
mod laws;
mod line_audit;
mod line_forms;
mod lines;
mod op_lines;
mod open_dump;
mod reader_audit;
mod results;
mod sessions;
mod slots;
mod transcript;
mod verdict;

pub use laws::explained_if_it_passes;
pub use reader_audit::{MAX_READS, audit};
pub use verdict::AuditEnd;
