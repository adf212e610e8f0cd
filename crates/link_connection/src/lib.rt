//! The two halves of a link after its hello lines: [`receive`] acts on the messages of a peer's
//! frames, and [`send_ops`] writes the operations that a peer lacks.
//!
//! Of what a source gives, [`receive`] acts on just the messages of the frames whose digest is
//! right, up to the first fault, whole payloads in their order (`specs/Received.antt`); so what a
//! receiver takes are the first operations of these frames (`specs/ReceivedOps.antt`). What
//! [`send_ops`] writes is one frame of the operations that its source of operations gives for a
//! clock, and the clock is raised by just these (`specs/Sent.antt`).
#![tactic(auto)]

mod laws;
mod link_reader;
mod link_writer;
mod op_source;
mod receive_end;
mod receiver;
mod send_fault;

pub use laws::received_ops_are_authentic;
pub use link_reader::receive;
pub use link_writer::send_ops;
pub use op_source::OpSource;
pub use receive_end::ReceiveEnd;
pub use receiver::Receiver;
pub use send_fault::SendFault;
