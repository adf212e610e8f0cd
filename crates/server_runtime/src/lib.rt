//! A mail server of linked replicas: the path from a command line to a running server, the
//! connections that it serves, the links of its replicas, and how replicas join it.
//!
//! [`run`] reads the command line and serves; [`serve`] runs all replicas, each in a thread of its
//! own. A replica's threads share its [`ReplicaContext`], and others reach it by its
//! [`ReplicaHandle`].
//!
//! The contract of [`serve`] says how each replica ended, and that the headline holds of the books
//! that are returned (`server_laws`), forgotten entries included. Other contracts are about one
//! connection. That of [`converse_over`] says: one call of the replica opens the session, each
//! command and each line of IDLE that the octets read spell is one call in that session, with
//! entries in the journal in the same order, and the output is the greeting, the printed outcomes
//! of these calls, and a BYE. That of [`totals_of`] says that the totals in the log are counts over
//! the whole history, forgotten entries included. The exchange between threads is tested and not
//! proved.
//!
//! A replica with a store ([`ReplicaStore`]) writes what it applied to a log. Whoever must not go
//! on before operations are synced, such as a connection before it writes its answers, waits until
//! they are, and if no other thread has the log, writes and syncs it itself, for all that wait. A
//! thread of the replica looks after the log each second.
//!
//! # Decided
//!
//! - `serve` takes the allocator, the server's state (who may log in, when to stop) and one setup
//!   for each replica, with its listener: a thread of a replica needs all three, and one list puts
//!   them together. A connection's thread is no public call; `converse_over` is, so that tests can
//!   give it other devices.
//! - The server raises the C library's thresholds at its start, by a block of 1 MiB that it
//!   allocates and frees (`raise_memory_thresholds`): the program can't call `mallopt`, and whoever
//!   starts the server would forget an environment variable. The library then takes blocks of up to
//!   that size from memory that it owns, and returns the end of an arena to the system only if 2
//!   MiB of it are unused. Both grow with the largest block that is freed. A block of 33 MB left
//!   twice as much unused memory in the arenas after looks at large mailboxes.
//! - What a session's pass no longer needs is freed before its connection reads: if it isn't small,
//!   a piece at a time until the client's next octets arrive, and 32 pieces even then
//!   (`PendingMemory::free`). If another thread freed it, the C library would join its blocks at a
//!   later command, which takes milliseconds: they are in the arena of the connection's thread.
//! - Each replica's ledger is named in a call of its own, by `Brand`: a function can't call itself
//!   with another ledger, so a program with a list of replicas starts a thread for each, and that
//!   thread's function names the ledger.
//! - A replica that hasn't joined yet is sent nothing. It asks for what is issued while it joins,
//!   since its first messages ask all others: those operations are in its peers' lists by then.
//! - A peer makes copies of its operations in a thread of its own, since each replica's ledger has
//!   a name that only its own threads know. A replica that gets no copies within a minute can't
//!   join.
//! - The thread whose connection ended first starts the joins, and waits for each; a connection
//!   that ends in the meantime waits too. So `--stop-after` is checked after all joins.
//! - A replica whose list of others can't be made since memory runs out can't join, like one that
//!   can't listen: the program prints `cannot join`, and the run continues.
//! - The port's clauses name no pass and no node before and after a call (`OpensByCall`,
//!   `StepsByCall`): the pass is under a lock, and no contract can name what is under a lock, so
//!   they say that a call was made, with its event, its outcome and its place, and not which pass
//!   made it. The port stores its session and the place of its last call, and checks, under the
//!   lock, that the pass has that session and isn't before that place, which is always true. Hence
//!   its commands are given in one session, the places of its calls rise, and the order of commands
//!   is the order of their entries. Under the lock, clauses are about the pass itself (`OpensIn`,
//!   `StepsIn`, `IsClosedIn`).
//! - No clause of the port describes the state after `close`: it could only say that some two
//!   passes, before and after, meet `IsClosedIn`, and each pass without a session meets it with
//!   itself. `close_in` has that clause, about its own pass, and
//!   `server_tests::a_connection_waits_for_another` fails if a close does nothing.
//! - If the journal has no room, the connection ends as if memory had run out. A call that is
//!   passed over ends it as a cut journal does.
//! - If a command was carried out, but memory runs out for copying its reply out of the lock, the
//!   connection ends with `* BYE no memory`, and the command gets no answer.
//! - The feeder writes only while its connection's thread waits for the client (`SharedPhase`): all
//!   earlier answers are written by then, and come before its own. It waits while the session
//!   doesn't idle, and polls only after an entry that concerns its own session. If its answers
//!   can't be written or printed, it shuts the connection down.
//! - If the connection's thread is at work when the feeder would poll, the feeder waits and looks
//!   at the same entries again: a client may have sent only the first octets of a line, after which
//!   the session still idles.
//! - The feeder waits for changes only while its pass has a session: a close then still follows,
//!   and ends the wait. Otherwise a connection that ended just before would wait for another
//!   client's command.
//! - A command that may issue operations holds its replica's `ReplicaHandle::send_lock` until they
//!   are sent, so that those of several connections don't overtake each other on the way. If they
//!   did, the receiving replica would hold them and have to ask for what it lacks.
//! - With a store the replica's own operations are sent by whoever synced them, in the order of the
//!   log, and no command takes `send_lock`. A request for what a replica lacks shows a clock that
//!   may count operations which aren't synced: who is asked concludes nothing from it.
//! - Which operations answers show is the number that the replica had applied at the session's last
//!   call (`Pass::listed`), so an answer also waits for operations of other sessions that it
//!   doesn't show: which ones it shows would have to be found out for each command.
//! - Room in the log is asked for before a command or a delivery is carried out: once the replica
//!   applied it, a write that fails can't be undone. Zeros are written ahead, a MiB at a time, 16
//!   MiB by the thread that looks after the log and else as many as are lacking, so that a full
//!   disk is met then, and a sync needs no new space. A command that lacks room is given again once
//!   there is some. One that may need more than 4 GiB is refused at once, since the bound of a
//!   text's line is three times its octets and its zeros would fill the disk.
//! - A disk that was found to be full isn't tried for a second. Deliveries that are refused
//!   meanwhile are asked for by the thread that looks after the log, once there is room: if each
//!   asked for all that is lacking, the answers would be refused too, and pile up.
//! - After a failed write or sync the log is never tried again, and nothing of the replica is
//!   written any more, not even answers that show nothing new: a client of such a replica should
//!   go to another one.
//! - A replica is restored by delivering its operations to a new one, before anything is written.
//!   The logs of the replicas that aren't started are read too, for an operation that a started one
//!   issued and its own log lacks: it would give the number again. A log of theirs that can't be
//!   read is passed over, or it couldn't be left out.
//! - A read of a connection polls for octets for 50 microseconds before it sleeps, if the previous
//!   octets arrived within that time (`SocketReader`), and lets other threads run between two
//!   polls: waking a thread takes longer than answering most commands. So a client that sends one
//!   command after another is answered sooner, at the cost of a processor that would idle; a slow
//!   client costs at most one such poll after each time that it was quick, and a session that idles
//!   costs none. Meanwhile the socket doesn't block, for writes either, so a writer that would have
//!   to wait lets it block again (`SocketWriter`). Reads of that connection then sleep at once: a
//!   client that is sent more than a socket can hold seldom waits for each command, and reads that
//!   used the clock to measure whether they slept made STOREs slower (20,669 and 23,655 a second,
//!   measured by turns in seven rounds). The reason isn't known; perhaps a poll that lets others
//!   run sometimes takes long too.
//! - A connection's gate is passed once for each command, with its number, before the turn in which
//!   several brief commands are carried out.
//! - Passes of connections that ended are used again, so that a server that runs for long doesn't
//!   run out of them.
//! - After the end of a conversation the server shuts down its side of the connection and drops
//!   what the client still sends, up to 16 MiB, until it pauses for a second and for at most two.
//!   Closing a connection while octets are unread resets it, which may take the BYE from the client
//!   (RFC 9293, section 3.6.1).
//! - Limits on time are the socket's own (`SocketReader`, `SocketWriter`), so that a limit is a
//!   read or a write that failed, and the contracts of conversations cover it. Before a client is
//!   logged in each read gets what is left of its time. A read or a write that has waited for more
//!   than half of its time is taken for one that has waited for all of it: a socket that doesn't
//!   block answers at once, and which of the two it does is known only to who set it last.
//! - A connection adds what its client did to the replica's counts only after 256 commands and at
//!   its end (`ClientState::count`): all connections of the replica would wait for each other at
//!   each command.
//! - A LOGIN waits in its connection's thread, before the pass's lock is taken, on a condition that
//!   the end of the connection signals (`ClientState::wait`).
//! - While as many clients aren't logged in as may be, the replica takes the next connection only
//!   once the oldest of them has had time for a LOGIN (`ReplicaClients::await_place`): a flood of
//!   clients would end each other, and the owner's, within a few milliseconds. Further ones wait in
//!   the system's queue.
//! - A connection that was accepted waits in a list for its thread (`ServedReplica::accepted`): if
//!   no thread can be made, its pass isn't lost with the thread's closure. A thread whose
//!   connection ended waits a second for another one (`ConnectionDemand`).
//! - `serve_over` takes connections and gates as two lists, and cuts the passes itself: a
//!   connection for which no pass can be cut is turned away. Connections are `TcpStream`s, since
//!   two threads share one and either may shut it down.
#![tactic(auto)]

mod accepting;
mod client_counts;
mod client_state;
mod connection_demand;
mod connection_threads;
mod feeder;
mod joining_replica;
mod link_opening;
mod link_peers;
mod linked_replica;
mod pass_file;
mod peer_sender;
mod program;
mod replica_clients;
mod replica_end;
mod replica_handle;
mod replica_store;
mod replica_threads;
mod restoring;
mod server_state;
mod session_port;
mod session_reader;
mod session_renames;
mod shared_phase;
mod socket;
mod store_taker;
mod synced_sink;
mod totals;

pub use client_counts::{ClientCounts, SharedCounts};
pub use client_state::{ClientConnection, ClientState, EndCause, ReadAllowance};
pub use connection_threads::{ReplicaContext, converse_over, converse_over_within};
pub use joining_replica::{JoinOutcome, JoiningReplica};
pub use pass_file::pass_of;
pub use peer_sender::PeerSender;
pub use program::{RunFault, open_all, run};
pub use replica_clients::ReplicaClients;
pub use replica_end::ReplicaEnd;
pub use replica_handle::{CopyRequest, JoinSignal, JoiningReplicas, ReplicaHandle};
pub use replica_store::{ReplicaStore, SyncFault};
pub use replica_threads::{ReplicaSetup, StartMode, serve, serve_over};
pub use restoring::{RestoreFault, RestoredReplica, UnrestoredReplica};
pub use server_settings::{
    Access, ClientLimits, CommandLine, GivenAccess, Join, LinkWords, Place, SettingsFault,
    UsageFault, access_of, read_settings,
};
pub use server_state::{Rev1Listener, ServerState, StopCounter};
pub use session_port::{PassLocks, SessionPort, SessionPosition};
pub use shared_phase::SharedPhase;
pub use totals::{Totals, totals_of};
