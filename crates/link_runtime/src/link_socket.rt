//! A connection's socket while its link begins.

ghost use Rattle.std.specs.Io.{ReadsAtMost};

use crate::connection::LinkConnection;
use crate::links::Links;
use std::io;
use std::io::{ErrorKind, Read};
use std::net::{Shutdown, TcpStream};
use std::rt::Clock;
use std::time::Duration;

/// How long a link may take to begin, in milliseconds.
const BEGIN_TIME: u64 = 10_000;

/// How long a peer may be silent, in seconds.
const SILENT_TIME: u64 = 30;

/// How long a peer may leave octets untaken, in seconds.
const WRITE_TIME: u64 = 30;

/// A reader of the lines that begin a link, which all have to arrive within ten seconds.
#[derive(Drop)]
pub struct BeginReader<'a, R: Clock> {
    rt: &'a R,
    links: &'a Links<'a>,
    stream: &'a TcpStream,
    until: u64,
}

impl<'a, R: Clock> BeginReader<'a, R> {
    /// A reader from now on.
    pub fn new(rt: &'a R, links: &'a Links<'a>, stream: &'a TcpStream) -> BeginReader<'a, R> {
        BeginReader {
            rt,
            links,
            stream,
            until: links.now(rt).saturating_add(BEGIN_TIME),
        }
    }
}

impl<'a, R: Clock> Read for BeginReader<'a, R> {
    fn read(&mut self, buf: &mut [u8]) -> io::Result<usize> {
        let left = self.until.saturating_sub(self.links.now(self.rt));
        if left == 0 {
            return Err(io::Error::from(ErrorKind::TimedOut));
        }
        self.stream
            .set_read_timeout(Some(Duration::from_millis(left)))?;
        let mut stream = self.stream;
        stream.read(buf)
    }
}

/// Sets the limits on time of writes, and that they aren't put off.
pub fn prepare(stream: &TcpStream) {
    let _ = stream.set_nodelay(true);
    let _ = stream.set_write_timeout(Some(Duration::from_secs(WRITE_TIME)));
}

/// Sets the limit on a peer's silence. False if the system doesn't.
pub fn limit_silence(stream: &TcpStream) -> bool {
    stream
        .set_read_timeout(Some(Duration::from_secs(SILENT_TIME)))
        .is_ok()
}

/// How long taking leave of a peer lasts at most, in milliseconds.
const LEAVE_TIME: u64 = 2_000;

/// Ends the writes of a connection.
pub fn end_writes(connection: &LinkConnection) {
    let _ = connection.stream.shutdown(Shutdown::Write);
}

/// Ends the writes of a connection, and drops what the peer still sends, for two seconds at most. A
/// connection that is closed while octets are unread is reset, which may take the last line from
/// the peer (RFC 9293, section 3.6.1).
pub fn take_leave<R: Clock>(rt: &R, links: &Links<'_>, connection: &LinkConnection) {
    end_writes(connection);
    let until = links.now(rt).saturating_add(LEAVE_TIME);
    let mut piece = [0u8; 4_096];
    for _ in 0..65_536u32 {
        let left = until.saturating_sub(links.now(rt));
        if left == 0 || !read_within(connection, left, &mut piece) {
            break;
        }
    }
    connection.close();
}

/// Reads some octets within so many milliseconds. False if there are none.
fn read_within(connection: &LinkConnection, time: u64, piece: &mut [u8]) -> bool {
    let time = Duration::from_millis(time);
    if connection.stream.set_read_timeout(Some(time)).is_err() {
        return false;
    }
    let mut stream = &connection.stream;
    match stream.read(piece) {
        Ok(count) => count > 0,
        Err(_) => false,
    }
}
