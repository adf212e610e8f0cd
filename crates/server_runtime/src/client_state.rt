//! The client of a connection: whether it has logged in, how long the server waits for it, and why
//! the server ended its connection.

use crate::client_counts::ClientCounts;
use server_settings::ClientLimits;
use std::net::{Shutdown, SocketAddr, TcpStream};
use std::rt::Clock;
use std::sync::{Condvar, Mutex, Wait};
use std::time::{Duration, Instant};

/// The most octets that are read from a client before it has logged in.
const MOST_UNKNOWN_OCTETS: usize = 65_536;

/// After how many commands what a client did is added to its replica's counts, for which all
/// connections wait.
const COUNTED_AT_ONCE: u64 = 256;

/// The number of refused LOGINs after which a connection ends.
const MOST_REFUSALS: u32 = 5;

/// Why the server ended a connection.
#[derive(Clone, Copy, Debug, PartialEq, Eq)]
pub enum EndCause {
    /// The client didn't log in in time.
    LoginTime,
    /// The client, which is logged in, was silent for too long.
    IdleTime,
    /// The client left an answer untaken for too long.
    WriteTime,
    /// The client sent too much before it logged in.
    UnknownOctets,
    /// Too many LOGINs of the client were refused.
    Refusals,
    /// Another client, which came later, took its place.
    MadeRoom,
}

impl EndCause {
    /// The text for the log.
    pub fn text(self) -> &'static str {
        match self {
            EndCause::LoginTime => "timed out before login",
            EndCause::IdleTime => "timed out",
            EndCause::WriteTime => "timed out in a write",
            EndCause::UnknownOctets => "too much before login",
            EndCause::Refusals => "too many refused logins",
            EndCause::MadeRoom => "made room for another",
        }
    }
}

/// What a client has done so far.
#[derive(Clone, Copy, Debug, PartialEq, Eq)]
struct ClientProgress {
    /// Whether it is logged in.
    is_known: bool,
    /// The octets that it sent before it was logged in.
    octets: usize,
    /// How many of its LOGINs were refused.
    refusals: u32,
    /// How long it left answers untaken before it was logged in.
    write_time: Duration,
    /// What it did that isn't in the replica's counts yet.
    uncounted: ClientCounts,
    /// Why its connection was ended, if it was.
    cause: Option<EndCause>,
}

/// How long the next read of a connection may wait, and how many octets it may read at most.
#[derive(Clone, Copy, Debug, PartialEq, Eq)]
pub struct ReadAllowance {
    /// The time, more than none.
    pub time: Duration,
    /// The octets, at least one.
    pub octets: usize,
}

/// The state of a connection's client, for the threads that share it.
#[derive(Drop)]
pub struct ClientState {
    limits: ClientLimits,
    /// When the connection began; `None` if the clock couldn't be read.
    began: Option<Instant>,
    progress: Mutex<ClientProgress>,
    /// Signals that the connection was ended.
    ended: Condvar,
}

impl ClientState {
    /// The state of a client that has just connected; `is_known` if it needn't log in.
    pub fn new<R: Clock>(rt: &R, limits: ClientLimits, is_known: bool) -> ClientState {
        ClientState {
            limits,
            began: Instant::now(rt).ok(),
            progress: Mutex::new(ClientProgress {
                is_known,
                octets: 0,
                refusals: 0,
                write_time: Duration::ZERO,
                uncounted: ClientCounts::NONE,
                cause: None,
            }),
            ended: Condvar::new(),
        }
    }

    /// How long ago the client connected; `None` if the clock can't be read.
    pub fn time_since_start<R: Clock>(&self, rt: &R) -> Option<Duration> {
        self.began?.elapsed(rt).ok()
    }

    /// Counts commands of the client, and the octets of the messages in them. Once there are many,
    /// they are returned for the replica's counts.
    pub fn count<R: Wait>(&self, rt: &R, commands: u64, octets: u64) -> Option<ClientCounts> {
        let mut progress = self.progress.lock(rt);
        progress.uncounted.add(ClientCounts {
            commands,
            octets,
            ..ClientCounts::NONE
        });
        if progress.uncounted.commands < COUNTED_AT_ONCE {
            return None;
        }
        let counts = progress.uncounted;
        progress.uncounted = ClientCounts::NONE;
        Some(counts)
    }

    /// What the client did that isn't in the replica's counts yet; it is taken for these.
    pub fn take_counts<R: Wait>(&self, rt: &R) -> ClientCounts {
        let mut progress = self.progress.lock(rt);
        let counts = progress.uncounted;
        progress.uncounted = ClientCounts::NONE;
        counts
    }

    /// Whether the client is logged in, or needn't log in.
    pub fn is_known<R: Wait>(&self, rt: &R) -> bool {
        self.progress.lock(rt).is_known
    }

    /// Notes that the client logged in.
    pub fn log_in<R: Wait>(&self, rt: &R) {
        self.progress.lock(rt).is_known = true;
    }

    /// Notes that a LOGIN of the client was refused. After the fifth the connection ends.
    pub fn refuse<R: Wait>(&self, rt: &R) {
        let mut progress = self.progress.lock(rt);
        progress.refusals = progress.refusals.saturating_add(1);
        if progress.refusals >= MOST_REFUSALS && progress.cause.is_none() {
            progress.cause = Some(EndCause::Refusals);
        }
    }

    /// How long the client's next LOGIN waits before it is judged: 1, 2, 4 and 8 seconds after one,
    /// two, three and four that were refused.
    pub fn login_delay<R: Wait>(&self, rt: &R) -> Duration {
        let seconds = match self.progress.lock(rt).refusals {
            0 => 0,
            1 => 1,
            2 => 2,
            3 => 4,
            _ => 8,
        };
        Duration::from_secs(seconds)
    }

    /// Waits for this time. False if the connection was ended meanwhile.
    pub fn wait<R: Wait + Clock>(&self, rt: &R, time: Duration) -> bool {
        let (progress, _) = self.ended.wait_timeout_while(
            rt,
            self.progress.lock(rt),
            time,
            |progress| progress.cause.is_none(),
        );
        progress.cause.is_none()
    }

    /// Notes why the connection ends, unless it was ended before, and wakes who waits for it.
    pub fn end<R: Wait>(&self, rt: &R, cause: EndCause) {
        let mut progress = self.progress.lock(rt);
        if progress.cause.is_none() {
            progress.cause = Some(cause);
        }
        self.ended.notify_all();
    }

    /// Notes that the connection ends since another client takes its place, and wakes who waits for
    /// it. False if the client has logged in, or its connection was ended before.
    fn make_room<R: Wait>(&self, rt: &R) -> bool {
        let mut progress = self.progress.lock(rt);
        if progress.is_known || progress.cause.is_some() {
            return false;
        }
        progress.cause = Some(EndCause::MadeRoom);
        self.ended.notify_all();
        true
    }

    /// Notes that the client isn't logged in any more. False if it wasn't, or if the server has
    /// ended its connection.
    pub fn log_out<R: Wait>(&self, rt: &R) -> bool {
        let mut progress = self.progress.lock(rt);
        let was_known = progress.is_known && progress.cause.is_none();
        progress.is_known = false;
        was_known
    }

    /// Why the server ended the connection; `None` if it didn't.
    pub fn cause<R: Wait>(&self, rt: &R) -> Option<EndCause> {
        self.progress.lock(rt).cause
    }

    /// What the next read may take; `None` if the connection ends.
    pub fn allowance<R: Wait + Clock>(&self, rt: &R) -> Option<ReadAllowance> {
        let mut progress = self.progress.lock(rt);
        if progress.cause.is_some() {
            return None;
        }
        if progress.is_known {
            return Some(ReadAllowance {
                time: Duration::from_secs(u64::from(self.limits.idle_time)),
                octets: usize::MAX,
            });
        }
        let octets = MOST_UNKNOWN_OCTETS.saturating_sub(progress.octets);
        if octets == 0 {
            progress.cause = Some(EndCause::UnknownOctets);
            return None;
        }
        let time = self.login_time_left(rt);
        if time.is_zero() {
            progress.cause = Some(EndCause::LoginTime);
            return None;
        }
        Some(ReadAllowance { time, octets })
    }

    /// What is left of the time in which the client has to log in.
    fn login_time_left<R: Clock>(&self, rt: &R) -> Duration {
        let time = Duration::from_secs(u64::from(self.limits.login_time));
        match self.began {
            Some(began) => match began.elapsed(rt) {
                Ok(elapsed) => time.saturating_sub(elapsed),
                Err(_) => time,
            },
            None => time,
        }
    }

    /// Notes that the client sent these octets.
    pub fn note_octets<R: Wait>(&self, rt: &R, count: usize) {
        let mut progress = self.progress.lock(rt);
        if !progress.is_known {
            progress.octets = progress.octets.saturating_add(count);
        }
    }

    /// Notes that a read waited for as long as it may.
    pub fn time_out_read<R: Wait>(&self, rt: &R) {
        let cause = if self.is_known(rt) {
            EndCause::IdleTime
        } else {
            EndCause::LoginTime
        };
        self.end(rt, cause);
    }

    /// Whether a write that waited for so long is to fail. Before the client is logged in, all its
    /// writes together may wait as long as one may later, apart from those of less than a tenth of
    /// a second.
    pub fn is_write_late<R: Wait>(&self, rt: &R, waited: Duration) -> bool {
        if waited < Duration::from_millis(100) {
            return false;
        }
        let mut progress = self.progress.lock(rt);
        if progress.is_known {
            return false;
        }
        progress.write_time = progress.write_time.saturating_add(waited);
        progress.write_time > self.write_time()
    }

    /// How long a write may wait.
    pub fn write_time(&self) -> Duration {
        Duration::from_secs(u64::from(self.limits.write_time))
    }
}

/// A connection, for the threads that serve it and for those that may end it.
#[derive(Drop)]
pub struct ClientConnection {
    /// Its number among those of its replica.
    pub number: u64,
    /// Its client's address, if the system knew it.
    pub address: Option<SocketAddr>,
    /// Its socket.
    pub stream: TcpStream,
    /// Its client's state.
    pub state: ClientState,
}

impl ClientConnection {
    /// Its socket; the rest is dropped.
    pub fn into_stream(self) -> TcpStream {
        let ClientConnection {
            number: _,
            address: _,
            stream,
            state,
        } = self;
        drop(state);
        stream
    }

    /// Ends the connection since another client takes its place: its reads and writes end, and a
    /// thread that waits for it is woken. Nothing happens if its client has logged in meanwhile.
    pub fn make_room<R: Wait>(&self, rt: &R) {
        if self.state.make_room(rt) {
            let _ = self.stream.shutdown(Shutdown::Both);
        }
    }
}
