//! Clients over sockets that send a command and wait for its answer.

use std::alloc::Global;
use std::io;
use std::io::{Read, Write};
use std::net::{Net, SocketAddr, TcpListener, TcpStream};
use std::time::Duration;

/// A client's side of a connection, with all that it has read.
#[derive(Drop)]
pub struct Client {
    stream: TcpStream,
    output: Vec<u8>,
    has_succeeded: bool,
}

impl Client {
    /// Connects, and waits for the greeting. A client that receives nothing for twenty seconds
    /// fails.
    pub fn connect<R: Net<Listener = TcpListener, Stream = TcpStream>>(
        rt: &R,
        alloc: Global,
        address: SocketAddr,
    ) -> io::Result<Client> {
        let stream = TcpStream::connect(rt, address)?;
        stream.set_read_timeout(Some(Duration::from_secs(20)))?;
        let mut client = Client {
            stream,
            output: Vec::new(alloc),
            has_succeeded: true,
        };
        client.await_text(b"ready\r\n");
        Ok(client)
    }

    /// Whether it has received all that it has waited for.
    pub fn has_succeeded(&self) -> bool {
        self.has_succeeded
    }

    /// Whether it has received a text.
    pub fn has_received(&self, text: &[u8]) -> bool {
        self.output
            .windows(text.len().max(1))
            .any(|part| part == text)
    }

    /// Waits until it has received a text. After a failed wait it does nothing.
    pub fn await_text(&mut self, text: &[u8]) {
        if self.has_succeeded {
            self.has_succeeded = matches!(self.read_until(text), Ok(true));
        }
    }

    /// Sends commands, and waits for a text. After a failed wait it does nothing.
    pub fn exchange(&mut self, input: &[u8], output: &[u8]) {
        if self.has_succeeded {
            self.has_succeeded = self.send(input).is_ok();
            self.await_text(output)
        }
    }

    /// Sends commands, and waits for nothing. After a failed wait it does nothing.
    pub fn send_only(&mut self, input: &[u8]) {
        if self.has_succeeded {
            self.has_succeeded = self.send(input).is_ok();
        }
    }

    /// Waits until octets have arrived, and leaves without having read them, which resets the
    /// connection (RFC 1122, section 4.2.2.13). False if there are none.
    pub fn leave_unread(self) -> bool {
        let mut piece = [0u8; 1];
        let has_arrived = matches!(self.stream.peek(&mut piece), Ok(1));
        self.has_succeeded && has_arrived
    }

    /// Waits until the connection ends. After a failed wait it does nothing.
    pub fn await_end(&mut self) {
        for _ in 0..100_000u32 {
            if !self.has_succeeded {
                return;
            }
            match self.read() {
                Ok(true) => {}
                Ok(false) => return,
                Err(_) => self.has_succeeded = false,
            }
        }
        self.has_succeeded = false;
    }

    /// Sends commands until the connection takes no more, and at most 64 MiB.
    pub fn send_all(&mut self, input: &[u8]) {
        for _ in 0..1_000_000u32 {
            if self.send(input).is_err() {
                return;
            }
        }
    }

    /// Drops all that it has received.
    pub fn clear_output(&mut self) {
        self.output.clear();
    }

    /// Waits for `count` more octets, and drops them. After a failed wait it does nothing.
    pub fn skip(&mut self, count: usize) {
        if self.has_succeeded {
            self.has_succeeded = matches!(self.discard(count), Ok(true));
        }
    }

    /// Reads `count` octets, at most 4,096 at once; false if the connection ends first.
    fn discard(&self, count: usize) -> io::Result<bool> {
        let mut piece = [0u8; 4_096];
        let mut reader = &self.stream;
        let mut left = count;
        for _ in 0..10_000_000u32 {
            if left == 0 {
                return Ok(true);
            }
            let most = left.min(4_096);
            let read = reader.read(&mut piece[..most])?;
            if read == 0 {
                return Ok(false);
            }
            left = left.saturating_sub(read);
        }
        Ok(false)
    }

    fn send(&self, input: &[u8]) -> io::Result<()> {
        let mut writer = &self.stream;
        writer.write_all(input)
    }

    /// Reads until it has received a text; false if the connection ends first.
    fn read_until(&mut self, text: &[u8]) -> io::Result<bool> {
        for _ in 0..100_000u32 {
            if self.has_received(text) {
                return Ok(true);
            }
            if !self.read()? {
                return Ok(false);
            }
        }
        Ok(false)
    }

    /// Reads once; false if the connection has ended.
    fn read(&mut self) -> io::Result<bool> {
        let mut piece = [0u8; 512];
        let mut reader = &self.stream;
        let count = reader.read(&mut piece)?;
        self.output.extend_from_slice(&piece[..count])?;
        Ok(count != 0)
    }
}
