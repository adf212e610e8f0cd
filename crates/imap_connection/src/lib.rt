//! Connections to replicas: from the octets of a connection to its answers, and the dump of a
//! replica as text.
//!
//! [`talk`] is a conversation with a session of a node, in turns, as a script plays it.
//! [`converse`] is one with a mail client, over any [`Source`], [`Sink`] and [`Port`]. The items of
//! `imap_node` that their callers need are re-exported here.
//!
//! What the contracts promise:
//!
//! - `talk`: the turns are those of the defined conversation (`specs/Talks`), each frame at the
//!   moment of the piece that completes it, however the octets were cut and whatever other sessions
//!   and replicas do between the pieces (`laws`).
//! - `converse`: the port is opened and closed, and given each command and each line of IDLE in the
//!   octets read, once and in their order. What is written is the greeting, the answers in order
//!   and the BYE of the end (`specs/Conversations`).
//! - `NodePort`: over the port of a node, `converse` has the conversation that `talk` has
//!   (`nodes_converse`, `specs/NodeTalks`).
//! - `write_dump` writes the applied operations, each once and ascending, and the folders, messages
//!   and subscriptions that the set of them defines (`specs/Dumps`).
//!
//! # Decided
//!
//! - A fault that follows a LOGOUT in the same piece of input is dropped with everything else after
//!   it, as it would be if it arrived in a piece of its own.
//! - `talk` returns the turns before a fault. If memory ran out there is no BYE among them, since
//!   it could not be printed either.
//! - `converse` buffers its answers, and writes them in one write after the last answer to the
//!   octets of a read, before it reads again, or once 64 KiB are buffered after an item. Therefore
//!   a sink has no call that flushes, and nothing is buffered while the client is awaited.
//! - Brief commands (`is_brief` of `imap_commands`: NOOP, CAPABILITY, NAMESPACE, ENABLE) wait until
//!   another command arrives or the piece is used up, and are then given to the port together. If
//!   memory runs out for the reply to one of them, the connection ends after the answers before it
//!   and the first complete ones of this reply; the commands after it, which issue nothing, were
//!   carried out, each with its entry in the journal. A command that takes longer, or issues
//!   operations, is given on its own, so that other sessions can take turns between any two of
//!   these.
//! - A session idles after an IDLE that was answered by a `Done`, with the tag of that command,
//!   until the next line. `converse` tracks this itself, so that a port needn't report it.
//! - A conversation ends in `WriteFailed` if any write failed, even the last one, after the session
//!   is closed (`IsConversation`).
//! - A node's port contains its others (`Others`, a type parameter): `converse` borrows its port
//!   for the whole conversation, so whoever uses the node between two calls has to use it through
//!   the port. `Others::take_turn` also returns the moment of the next command. The law
//!   `nodes_converse` is a function of that parameter, as laws on replicated values are functions
//!   of theirs.
//! - A LOGOUT leaves the session open until the port is closed, and others may use the node in
//!   between. The node at the end is then as they left it, with the session closed (`ClosesAfter`);
//!   the conversation over items closes the session at once.
#![tactic(auto)]

mod answer_writer;
mod batch;
mod conversations;
mod dump;
mod end_reason;
mod fault;
mod interleaving;
mod io_traits;
mod laws;
mod memory_io;
mod node_port;
mod node_talks;
mod replies;
mod request;
mod request_steps;
mod talk_steps;
mod turn;
mod turn_writer;
mod wire;

pub use answer_writer::{write_if_full, write_pending};
pub use conversations::{converse, converse_within, write_last};
pub use dump::write_dump;
pub use end_reason::{Ended, end_reason_of, log_text_of};
pub use fault::PortFault;
pub use imap_node::{
    Answers, Auth, Credentials, MAX_SESSIONS, Node, OpenFault, Reply, ReplyOps, Session, SessionNo,
    State,
};
pub use interleaving::{Deliveries, NoOthers, Others};
pub use io_traits::{Port, Sink, Source};
pub use laws::{
    commands_are_answered, faults_can_be_printed, faults_end_the_stream, one_dump,
    others_come_between, pieces_are_one_stream,
};
pub use memory_io::{MemorySink, MemorySource};
pub use node_port::NodePort;
pub use node_talks::nodes_converse;
pub use replies::is_out_of_memory;
pub use request::{Request, request_of};
pub use talk_steps::{poll_turns, talk};
pub use turn::{TalkFault, TalkFaultKind, Turn};
pub use wire::Wire;
