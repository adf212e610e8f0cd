//! The links of a process: connections to other processes, over which its replica and theirs
//! exchange operations.
//!
//! [`serve_links`] begins and serves them, over a [`LinkReplica`]. A connection begins with hello
//! and proof lines of both ends ([`dial_peer`], [`accept_peer`]); of the connections whose peers
//! proved themselves at most one with each name is a link ([`admission_of`]). Its reader acts on the
//! messages of the peer's frames, and its writer sends what the peer lacks, says what this end has
//! and lacks, and that it is alive ([`LinkTimes`]).
//!
//! What the contracts promise:
//!
//! - [`dial_peer`] and [`accept_peer`]: what a link that was begun rests on (`specs/Handshakes`): the
//!   lines of both ends, the peer's proof by the secret, the keys of the frames, and the octets that
//!   came after the lines. Until a dialer proves itself, its acceptor says no more than its hello.
//! - [`admission_of`]: which connections become links. [`LinkSlots`], which all threads share under a
//!   lock: there are at most 64 links, no two with one name, and at most 16 accepted connections
//!   whose peers haven't proved themselves, the oldest of which makes place for another
//!   (`specs/Slots`).
//! - [`OpBatch`]: how many operations are sent in one frame (`specs/Batches`). The frames themselves
//!   are `link_connection`'s.
//! - [`PeerNews`], [`LinkTimes`], [`BackOff`], [`secret_of`]: each value.
//!
//! Nothing is proved of threads, sockets and time, of what [`LinkReplica`] does with an operation,
//! nor that a fork is found.
//!
//! # Decided
//!
//! - A link has no queue. Its writer keeps a clock of what the peer has or was sent; the reader
//!   leaves what it learned of the peer's clock to the writer ([`PeerNews`]), so that only one
//!   thread changes that clock.
//! - A replica gives at most 256 of the operations that a clock doesn't cover at a time, and the
//!   writer sends them in frames of at most 256 operations or 1 MiB, by the bound of each
//!   operation's line ([`OpBatch`]). So the memory that a link costs doesn't grow with what its peer
//!   lacks. If a frame is outside the limits, the next one has half as many operations.
//! - An operation that the replica has is delivered again, and noted as a repeat.
//! - All threads of all links wait on one signal, which is given after each sync and each message
//!   of a peer. There are few of them.
//! - What a process draws for its connections is computed from octets that it draws when it starts,
//!   under a count, so that only the start needs the system's random source.
//! - A connection that this process opened isn't counted among those whose peers haven't proved
//!   themselves: a flood of strangers can't end it.
//! - After a link that was cut a dialer waits as after the first failure; after one that an end
//!   ended for a reason it waits longer each time.
//! - An end that ends a link for a reason stops writing and drops what still arrives for up to two
//!   seconds: if it closed the connection at once, the reason might be lost. For the same reason an
//!   end whose writes fail still reads.
#![tactic(auto)]

mod back_off;
mod chains;
mod connection;
mod handshake;
mod handshake_fault;
mod lacking;
mod line_input;
mod link_receiver;
mod link_replica;
mod link_slots;
mod link_socket;
mod link_table;
mod link_threads;
mod link_times;
mod link_writer;
mod links;
mod live_link;
mod op_batch;
mod peer_news;
mod reasons;
mod secret_file;
mod signal;

pub use back_off::BackOff;
pub use chains::Chains;
pub use connection::LinkConnection;
pub use handshake::{LinkKeys, OwnEnd, ProvedPeer, accept_peer, dial_peer, send_refusal};
pub use handshake_fault::HandshakeFault;
pub use link_replica::{Delivery, LinkReplica};
pub use link_slots::{LinkSlots, RefusedPeer};
pub use link_table::{Admission, LinkEntry, MOST_LINKS, admission_of};
pub use link_threads::serve_links;
pub use link_times::LinkTimes;
pub use links::{LinkPeer, LinkSetup, Links};
pub use live_link::LinkContext;
pub use op_batch::OpBatch;
pub use peer_news::{LinkEnding, PeerClocks, PeerNews};
pub use secret_file::{read_secret, secret_of};
pub use signal::LinkSignal;
