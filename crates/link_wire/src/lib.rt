//! The lines and frames that two processes exchange over a link: hello and proof lines, and then
//! frames of messages, of one line each.
//!
//! A frame is a header, `LEN TAG` and LF, and LEN octets of payload; TAG is the digest of the
//! frame's number, LEN and the payload under a key. [`Framer`] gives the payload of each frame
//! whose digest is right, up to the first octet that makes a fault; [`FrameWriter`] appends the
//! next frame. [`read_payload`] gives the messages of a payload's lines, if every line spells one
//! that may be acted on, and [`write_message`] appends the one line of a message.
//!
//! `specs/Frames.antt` defines the frames of a stream and the octet that makes a fault;
//! `specs/Framing.antt` defines what the framer computes, octet by octet. `specs/MessageForm.antt`
//! defines which lines spell a message, and `specs/Hello.antt` the lines before the frames. The
//! laws say what the readers give, however the stream was cut into pieces, and that each line
//! spells at most one message, hello or proof.
//!
//! # Decided
//!
//! - The digest has the frame's number in its stream, from 1: a frame that is lost, repeated or
//!   moved makes the fault `BadDigest`, as a changed one does. Keys differ by direction and by
//!   connection, since each contains both hello lines.
//! - A payload is read whole before any of its messages is given: one bad line, and none is.
//! - A `have` has 16 octets for each entry of its clock. The writer doesn't test it.
//! - An operation's line is written from a reference, without a copy ([`write_op_line`]).
//! - That each operation in memory has a text (`IsInForm`) is no clause here: who states that what
//!   was written is read has it as a premise, or from `op_has_text` of `op_log`.
//! - A line or a frame says who has the secret, not when: that each frame is new on this connection
//!   follows from its number and the nonces of both hello lines.
#![tactic(auto)]

mod digest;
mod fault;
mod frame_cut;
mod frame_writer;
mod framer;
mod header;
mod hello;
mod hello_writer;
mod laws;
mod limits;
mod line_cutter;
mod line_fault;
mod line_reader;
mod line_word;
mod line_writer;
mod payload;
mod payload_reader;
mod progress;
mod reason_reader;
mod secret;
mod wire_message;

pub use digest::frame_digest;
pub use fault::{FrameError, FrameFault};
pub use frame_writer::{FrameWriter, WriteFault};
pub use framer::Framer;
pub use hello::{Hello, HelloFault, read_hello, read_proof};
pub use hello_writer::{write_hello, write_proof};
pub use laws::{
    cuts_change_nothing, cuts_change_nothing_after_lines, digests_are_tags, faults_come_first,
    frames_are_read, lines_are_read, lines_are_the_stream, one_hello, one_message, one_payload,
    one_proof, read_payloads_are_authentic, read_payloads_are_frames, written_frames_are_frames,
};
pub use limits::Limits;
pub use line_cutter::{CutFault, LineCutter};
pub use line_fault::LineFault;
pub use line_reader::read_message;
pub use line_writer::{write_message, write_op_line};
pub use payload::Payload;
pub use payload_reader::read_payload;
pub use secret::{Side, frame_key, proof_digest};
pub use wire_message::{ByeReason, WireMessage};
