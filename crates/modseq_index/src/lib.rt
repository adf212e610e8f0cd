//! `ModSeqIndex`: which message got which mod-sequence, by ascending mod-sequence (RFC 7162,
//! section 3.1).
//!
//! An entry is a mod-sequence with the UID of the message that got it. A new mod-sequence is no
//! less than all earlier ones, so an entry is appended, and the entries above a mod-sequence are
//! found by a binary search. Contracts see the index as the list of its entries and its room, the
//! number of entries that can be noted without asking for memory.
//!
//! # Decided
//!
//! - Noting an entry takes no memory and never leaves the entry out: it requires room, which
//!   `reserve` makes, and a mod-sequence that is no less than the latest. The caller knows both.
//! - A message's earlier entries stay when it gets another mod-sequence; the index knows no
//!   messages. `from_entries` makes an index of current entries only.
#![tactic(auto)]

mod index;

pub use index::{ModSeqEntry, ModSeqIndex};
