//! The framer: it reads the octets of a connection as commands, in whatever pieces they arrive (RFC
//! 9051, section 2.2.2).
//!
//! A command is any number of lines that end with a literal's mark, `{n}` or `{n+}`, each followed
//! by the literal's n octets, and then a line that doesn't end with a mark. Between two pieces of
//! input a `Framer` stores what was read of the next command. `feed` returns whole commands,
//! `+ ready` after a mark `{n}`, and commands that are refused because a literal passes the limit.
//!
//! `specs/Frames.antt` defines which commands a stream has and which octet makes a fault;
//! `specs/Framing.antt` defines what the framer computes, octet by octet. The laws join the two:
//! pieces don't matter, a stream of commands gives these commands, commands that are given without
//! a fault are the stream's, and the first octet that makes a fault ends it.
//!
//! # Decided
//!
//! - A mark's number may have leading zeros and any number of digits; a number that doesn't fit in
//!   a machine word is above any limit. Framing knows no grammar: a line that ends with a mark
//!   continues with a literal, even inside a quoted string; `~{n}` ends with a mark. A literal's
//!   last CR and an LF after it don't end a line. NUL inside a literal is refused too.
//! - If the last of 8,192 octets outside literals ends a mark, the literal is read; the first octet
//!   after it is one too many. If the octet that is one too many is NUL, the fault is `NUL in
//!   text`; if it ends a mark that passes the limit, the fault is `line too long`.
//! - If memory runs out, some of the first items of the piece are returned, and the framer can't be
//!   used further. Memory may run out at any octet, so no contract says how many items there are.
#![tactic(auto)]

mod fault;
mod framer;
mod item;
mod item_cut;
mod laws;
mod limits;
mod literal_mark;
mod progress;

pub use fault::{FrameFault, FrameFaultKind};
pub use framer::Framer;
pub use item::{Frame, Item};
pub use laws::{cuts_change_nothing, faults_come_first, frames_are_read, read_items_are_frames};
pub use limits::Limits;
