//! The clients of a replica: those that aren't logged in, and the LOGINs that were refused.

use crate::client_counts::{ClientCounts, SharedCounts};
use crate::client_state::{ClientConnection, ClientState};
use imap_node::MAX_SESSIONS;
use server_settings::ClientLimits;
use std::alloc::{AllocFailed, Global};
use std::net::TcpStream;
use std::rt::Clock;
use std::sync::{Arc, Mutex, Wait};
use std::thread;
use std::time::{Duration, Instant};
use tags_clocks::ReplicaId;

/// The most connections of a replica whose clients aren't logged in, or are taking leave.
const MOST_STRANGERS: usize = 128;

/// The most connections that a replica serves at once, those that were ended included.
const MOST_SERVED: usize = MAX_SESSIONS + MOST_STRANGERS;

/// How long a client that isn't logged in is let stay before another one takes its place, in
/// milliseconds: long enough for one LOGIN.
const LEAST_STAY: u64 = 50;

/// How many LOGINs a replica may refuse within a minute until each waits before it is judged.
const MOST_REFUSALS_A_MINUTE: usize = 10;

/// How long each LOGIN then waits, in seconds.
const GUESSED_DELAY: u64 = 1;

/// The clients of a replica.
#[derive(Drop)]
pub struct ReplicaClients {
    /// The replica.
    pub replica: ReplicaId,
    /// What they have done so far.
    pub counts: SharedCounts,
    /// How many connections are served.
    served: Mutex<usize>,
    /// The number of the next connection.
    next_number: Mutex<u64>,
    /// The connections whose clients aren't logged in, or are taking leave; the oldest first.
    strangers: Mutex<Vec<Arc<ClientConnection>>>,
    refusals: Mutex<RefusalTimes>,
}

impl ReplicaClients {
    /// The clients of a replica that nobody has connected to.
    pub fn new(alloc: Global, replica: ReplicaId) -> ReplicaClients {
        ReplicaClients {
            replica,
            counts: SharedCounts::new(),
            served: Mutex::new(0),
            next_number: Mutex::new(0),
            strangers: Mutex::new(Vec::new(alloc)),
            refusals: Mutex::new(RefusalTimes::new()),
        }
    }

    /// Notes that a connection is served from now on. False if as many are as may be.
    pub fn begin<R: Wait>(&self, rt: &R) -> bool {
        let mut served = self.served.lock(rt);
        if *served >= MOST_SERVED {
            return false;
        }
        *served += 1;
        true
    }

    /// Notes that a connection isn't served any more.
    pub fn finish<R: Wait>(&self, rt: &R) {
        let mut served = self.served.lock(rt);
        *served = served.saturating_sub(1);
    }

    /// A new connection; `is_known` if its client needn't log in. If memory runs out, its socket is
    /// returned.
    pub fn connect<R: Wait + Clock>(
        &self,
        rt: &R,
        alloc: Global,
        limits: ClientLimits,
        is_known: bool,
        stream: TcpStream,
    ) -> Result<Arc<ClientConnection>, TcpStream> {
        self.counts.add(
            rt,
            ClientCounts {
                connections: 1,
                ..ClientCounts::NONE
            },
        );
        let connection = ClientConnection {
            number: self.take_number(rt),
            address: stream.peer_addr().ok(),
            stream,
            state: ClientState::new(rt, limits, is_known),
        };
        match Arc::new(alloc, connection) {
            Ok(connection) => Ok(connection),
            Err(AllocFailed { value }) => Err(value.into_stream()),
        }
    }

    fn take_number<R: Wait>(&self, rt: &R) -> u64 {
        let mut next_number = self.next_number.lock(rt);
        let number = *next_number;
        *next_number = number.wrapping_add(1);
        number
    }

    /// Waits until one more client may take a place of those that aren't logged in: one is free, or
    /// the oldest client has had its own for `LEAST_STAY`.
    pub fn await_place<R: Wait + Clock>(&self, rt: &R) {
        let stayed = self.stay_of_oldest(rt);
        if let Some(stayed) = stayed {
            thread::sleep(rt, Duration::from_millis(LEAST_STAY).saturating_sub(stayed));
        }
    }

    /// How long ago the oldest of the clients that aren't logged in connected. `None` if a place is
    /// free, or if the clock can't be read.
    fn stay_of_oldest<R: Wait + Clock>(&self, rt: &R) -> Option<Duration> {
        let strangers = self.strangers.lock(rt);
        if strangers.len() < MOST_STRANGERS {
            return None;
        }
        strangers.first()?.state.time_since_start(rt)
    }

    /// Adds a connection whose client isn't logged in, or is taking leave. If there are as many as
    /// there may be, the oldest ends. False if memory runs out.
    pub fn add_stranger<R: Wait>(&self, rt: &R, connection: &Arc<ClientConnection>) -> bool {
        let Ok(connection) = Arc::try_clone(connection) else {
            return false;
        };
        let mut strangers = self.strangers.lock(rt);
        let oldest = take_oldest(&mut strangers);
        let is_added = strangers.push(connection).is_ok();
        drop(strangers);
        if let Some(oldest) = oldest {
            oldest.make_room(rt);
        }
        is_added
    }

    /// Takes out a connection whose client is logged in, or has left.
    pub fn remove_stranger<R: Wait>(&self, rt: &R, number: u64) {
        let removed = take_numbered(&mut self.strangers.lock(rt), number);
        drop(removed);
    }

    /// Notes that a LOGIN was refused.
    pub fn note_refusal<R: Wait + Clock>(&self, rt: &R) {
        self.counts.add(
            rt,
            ClientCounts {
                refused_logins: 1,
                ..ClientCounts::NONE
            },
        );
        if let Ok(now) = Instant::now(rt) {
            self.refusals.lock(rt).note(now);
        }
    }

    /// How long each LOGIN waits before it is judged: a second while more than ten were refused
    /// within a minute.
    pub fn login_delay<R: Wait + Clock>(&self, rt: &R) -> Duration {
        match Instant::now(rt) {
            Ok(now) if self.refusals.lock(rt).are_many(now) => Duration::from_secs(GUESSED_DELAY),
            _ => Duration::ZERO,
        }
    }
}

/// Takes out the oldest of these connections, if there are as many as there may be.
fn take_oldest(strangers: &mut Vec<Arc<ClientConnection>>) -> Option<Arc<ClientConnection>> {
    if strangers.len() < MOST_STRANGERS {
        return None;
    }
    Some(strangers.remove(0))
}

/// Takes out the connection with this number, if it is there.
fn take_numbered(
    strangers: &mut Vec<Arc<ClientConnection>>,
    number: u64,
) -> Option<Arc<ClientConnection>> {
    let place = strangers.iter().position(|it| it.number == number)?;
    Some(strangers.remove(place))
}

/// When the last LOGINs were refused.
#[derive(Clone, Copy, Debug, PartialEq, Eq)]
struct RefusalTimes {
    times: [Option<Instant>; MOST_REFUSALS_A_MINUTE + 1],
    /// The place of the oldest time.
    oldest: usize,
}

impl RefusalTimes {
    /// None was refused.
    fn new() -> RefusalTimes {
        RefusalTimes {
            times: [None; MOST_REFUSALS_A_MINUTE + 1],
            oldest: 0,
        }
    }

    /// Notes one that was refused now.
    fn note(&mut self, now: Instant) {
        let place = self.oldest % self.times.len();
        self.times[place] = Some(now);
        self.oldest = (place + 1) % self.times.len();
    }

    /// Whether more than ten were refused within the last minute.
    fn are_many(&self, now: Instant) -> bool {
        match self.times[self.oldest % self.times.len()] {
            Some(time) => now.duration_since(time) < Duration::from_secs(60),
            None => false,
        }
    }
}
