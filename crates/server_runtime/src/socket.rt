//! A client's socket, for the connection's thread that reads from it and for the threads that write
//! to it.

ghost use Rattle.std.specs.Prelude.{IfSome};
ghost use Rattle.std.specs.Io.{ReadsAtMost};

use crate::client_state::{ClientConnection, EndCause, ReadAllowance};
use std::io::{ErrorKind, Read, Write};
use std::net::TcpStream;
use std::rt::Clock;
use std::sync::Wait;
use std::time::{Duration, Instant};
use std::{io, thread};

/// How long a read polls for octets before it sleeps until some arrive, in microseconds. Waking a
/// thread takes longer than answering most commands.
const SOON: u64 = 50;

/// The largest number of polls of one read, whatever the clock says.
const MAX_POLLS: u32 = 100_000;

/// A reader of what a client sends. If the last octets arrived soon, as from a client that sends
/// one command after another, a read polls for the next ones for a while, and lets other threads
/// run between two polls; only then does it sleep. A slow client costs nothing further: after
/// octets that arrived late, a read sleeps at once. A read fails if the client takes too long, or
/// if its connection was ended.
#[derive(Drop)]
pub struct SocketReader<'a, R: Wait + Clock> {
    rt: &'a R,
    connection: &'a ClientConnection,
    /// How long the socket lets a read sleep, if it was set.
    sleeps_for: Option<Duration>,
    /// Whether the next read polls before it sleeps. The socket doesn't block then, unless a write
    /// has set it to block.
    polls: bool,
}

impl<'a, R: Wait + Clock> SocketReader<'a, R> {
    /// A reader of this connection, which blocks while it has no octets.
    pub fn new(rt: &'a R, connection: &'a ClientConnection) -> SocketReader<'a, R> {
        SocketReader {
            rt,
            connection,
            sleeps_for: None,
            polls: false,
        }
    }

    /// Reads some octets within this time.
    fn read_within(&mut self, buf: &mut [u8], time: Duration) -> io::Result<usize>
        ensures { ReadsAtMost result buf.new }
    {
        if self.sleeps_for != Some(time) {
            self.stream().set_read_timeout(Some(time))?;
            self.sleeps_for = Some(time);
        }
        let started = Instant::now(self.rt).ok();
        if self.polls {
            if let Some(outcome) = self.poll_soon(started, time, buf) {
                return outcome;
            }
        }
        let outcome = self.wait_octets(buf);
        self.polls = is_soon(elapsed_since(self.rt, started))
            && self.stream().set_nonblocking(true).is_ok();
        outcome
    }

    fn stream(&self) -> &'a TcpStream {
        let connection = self.connection;
        &connection.stream
    }

    /// Polls until there are octets, an end or a fault. `None` if they don't arrive soon. If a write
    /// has set the socket to block, a poll sleeps, and may take all the time that the read has.
    fn poll_soon(
        &self,
        started: Option<Instant>,
        time: Duration,
        buf: &mut [u8],
    ) -> Option<io::Result<usize>>
        ensures { IfSome result (λ outcome. ReadsAtMost outcome buf.new) }
    {
        let mut stream = self.stream();
        for _ in 0..MAX_POLLS {
            let outcome = stream.read(buf);
            if !would_wait(&outcome) {
                return Some(outcome);
            }
            let elapsed = elapsed_since(self.rt, started);
            if elapsed.is_some_and(|it| it > time / 2) {
                return Some(outcome);
            }
            if !is_soon(elapsed) {
                return None;
            }
            thread::yield_now();
        }
        None
    }

    /// Sleeps until there are octets, an end or a fault, or the socket's time for reads is over.
    fn wait_octets(&mut self, buf: &mut [u8]) -> io::Result<usize>
        ensures { ReadsAtMost result buf.new }
    {
        let mut stream = self.stream();
        if self.polls {
            self.polls = false;
            stream.set_nonblocking(false)?;
        }
        stream.read(buf)
    }
}

impl<'a, R: Wait + Clock> Read for SocketReader<'a, R> {
    fn read(&mut self, buf: &mut [u8]) -> io::Result<usize> {
        let state = &self.connection.state;
        let Some(ReadAllowance { time, octets }) = state.allowance(self.rt) else {
            return Err(io::Error::from(ErrorKind::TimedOut));
        };
        let most = buf.len().min(octets);
        let outcome = self.read_within(&mut buf[..most], time);
        match &outcome {
            Ok(count) => state.note_octets(self.rt, *count),
            Err(why) => {
                if why.kind() == ErrorKind::WouldBlock {
                    state.time_out_read(self.rt);
                }
            }
        }
        outcome
    }
}

/// A writer to a client. A write waits until the socket takes some octets, even if a read has set
/// it not to block, and fails if that takes too long.
#[derive(Drop)]
pub struct SocketWriter<'a, R: Wait + Clock> {
    rt: &'a R,
    connection: &'a ClientConnection,
}

impl<'a, R: Wait + Clock> SocketWriter<'a, R> {
    /// A writer to this connection.
    pub fn new(rt: &'a R, connection: &'a ClientConnection) -> SocketWriter<'a, R> {
        SocketWriter { rt, connection }
    }
}

impl<'a, R: Wait + Clock> Write for SocketWriter<'a, R> {
    fn write(&mut self, buf: &[u8]) -> io::Result<usize> {
        let mut stream = &self.connection.stream;
        let state = &self.connection.state;
        let started = Instant::now(self.rt).ok();
        let mut taken = stream.write(buf);
        let mut waited = elapsed_since(self.rt, started).unwrap_or(Duration::ZERO);
        if would_wait(&taken) && waited <= state.write_time() / 2 {
            stream.set_nonblocking(false)?;
            taken = stream.write(buf);
            waited = elapsed_since(self.rt, started).unwrap_or(Duration::ZERO);
        }
        if would_wait(&taken) || state.is_write_late(self.rt, waited) {
            state.end(self.rt, EndCause::WriteTime);
            return Err(io::Error::from(ErrorKind::TimedOut));
        }
        taken
    }

    fn flush(&mut self) -> io::Result<()> {
        Ok(())
    }
}

/// Whether a socket would have had to block.
fn would_wait(outcome: &io::Result<usize>) -> bool {
    match outcome {
        Ok(_) => false,
        Err(why) => why.kind() == ErrorKind::WouldBlock,
    }
}

/// How much time has passed since then; `None` if the clock can't be read, or couldn't then.
fn elapsed_since<R: Clock>(rt: &R, started: Option<Instant>) -> Option<Duration> {
    let started = started?;
    started.elapsed(rt).ok()
}

/// Whether so little time has passed that a read polls; false if that isn't known.
fn is_soon(elapsed: Option<Duration>) -> bool {
    elapsed.is_some_and(|time| time < Duration::from_micros(SOON))
}
