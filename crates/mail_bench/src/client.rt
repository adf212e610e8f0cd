//! A client's side of a connection: it sends a command and awaits its end.

ghost use Rattle.std.specs.Prelude.{◌≤◌, IfOk, length, vec_len};

use crate::answers::{Answer, answer_of};
use crate::commands::{Command, MailboxCommand, PlainCommand, push_line};
use crate::fault::{BenchFault, read_fault, status_result};
use crate::replies::Reading;
use std::alloc::Global;
use std::io::{ErrorKind, Read, Write};
use std::net::{Net, TcpListener, TcpStream};
use std::time::Duration;

/// The longest wait of a read, in seconds; then the read fails.
const PATIENCE: u64 = 30;

/// The largest number of octets in one read.
const PIECE: usize = 65_536;

/// The largest number of reads for one answer.
const MAX_READS: u32 = 100_000_000;

/// The largest number of answers that are read for one command.
const MAX_ANSWERS: u32 = 100_000_000;

/// The number of times that an interrupted read is tried.
const MAX_TRIES: u32 = 1_000;

/// A client's side of a connection.
pub struct Client {
    stream: TcpStream,
    reading: Reading,
    piece: Vec<u8>,
    at: usize,
    end: usize,
    line: Vec<u8>,
    sent: u64,
    leaves: bool,
    messages: u32,
    ghost before_end: { at ≤ end },
    ghost within: { end ≤ vec_len piece },
}

// Written by hand, so crates above drop it whole.
impl Drop for Client {
    fn drop(self) {
        let Self {
            stream: _,
            reading: _,
            piece: _,
            at: _,
            end: _,
            line: _,
            sent: _,
            leaves: _,
            messages: _,
        } = self;
    }
}

/// The ability to connect to servers: one bound with one method, in place of the many of `Net`.
pub trait Dial {
    /// Connects to this address.
    fn dial(&self, address: &str) -> Result<TcpStream, BenchFault>;
}

impl<R: Net<Listener = TcpListener, Stream = TcpStream>> Dial for R {
    fn dial(&self, address: &str) -> Result<TcpStream, BenchFault> {
        match TcpStream::connect(self, address) {
            Ok(stream) => Ok(stream),
            Err(_) => Err(BenchFault::Connect),
        }
    }
}

impl Client {
    /// Connects, and waits for the greeting.
    pub fn connect<R: Dial>(rt: &R, alloc: Global, address: &str) -> Result<Client, BenchFault> {
        let mut client = Client::from_stream(alloc, rt.dial(address)?)?;
        client.greet()?;
        Ok(client)
    }

    fn from_stream(alloc: Global, stream: TcpStream) -> Result<Client, BenchFault> {
        let patience = Some(Duration::from_secs(PATIENCE));
        if stream.set_nodelay(true).is_err() || stream.set_read_timeout(patience).is_err() {
            return Err(BenchFault::Connect);
        }
        let piece = vec![in alloc; 0u8; PIECE]?;
        Ok(Client {
            stream,
            reading: Reading::new(alloc),
            piece,
            at: 0,
            end: 0,
            line: Vec::new(alloc),
            sent: 0,
            leaves: false,
            messages: 0,
        })
    }

    fn greet(&mut self) -> Result<(), BenchFault> {
        match self.receive(0)? {
            Answer::Other => Ok(()),
            Answer::Bye => Err(BenchFault::Bye),
            _ => Err(BenchFault::Unreadable),
        }
    }

    /// The number of messages that the server reported last.
    pub fn messages(&self) -> u32 {
        self.messages
    }

    /// Logs in.
    pub fn login(&mut self, user: &str, pass: &str) -> Result<(), BenchFault> {
        self.run(Command::Login { user, pass })
    }

    /// Selects a mailbox.
    pub fn select(&mut self, name: &str) -> Result<(), BenchFault> {
        self.messages = 0;
        self.run(Command::Mailbox {
            ask: MailboxCommand::Select,
            name,
        })
    }

    /// Logs out.
    pub fn logout(&mut self) -> Result<(), BenchFault> {
        self.leaves = true;
        self.run(Command::Plain(PlainCommand::Logout))
    }

    /// Sends a command, and waits until it is answered OK.
    pub fn run(&mut self, command: Command<'_>) -> Result<(), BenchFault> {
        let number = self.ask(command)?;
        self.await_end(number)
    }

    /// Sends `count` NOOPs in one write, and waits until all are answered OK.
    pub fn run_noops(&mut self, count: u64) -> Result<(), BenchFault> {
        self.line.clear();
        let first = self.sent;
        for _ in 0..count {
            self.push(Command::Plain(PlainCommand::Noop))?;
        }
        self.send()?;
        for number in first..first.saturating_add(count) {
            self.await_end(number)?;
        }
        Ok(())
    }

    /// Appends a message to a mailbox, as a synchronizing literal.
    pub fn append(&mut self, name: &str, message: &[u8]) -> Result<(), BenchFault> {
        let number = self.begin_append(name, message.len())?;
        self.finish(message, number)
    }

    /// Announces a message, waits until the server asks for it, and returns the command's number.
    pub fn begin_append(&mut self, name: &str, octets: usize) -> Result<u64, BenchFault> {
        self.announce(Command::Append { name, octets })
    }

    /// Begins to idle, and returns the command's number.
    pub fn idle(&mut self) -> Result<u64, BenchFault> {
        self.announce(Command::Plain(PlainCommand::Idle))
    }

    /// Waits until the server reports that the mailbox has at least `least` messages.
    pub fn await_messages(&mut self, least: u32) -> Result<(), BenchFault> {
        for _ in 0..MAX_ANSWERS {
            match self.receive(0)? {
                Answer::Exists(_) if self.messages >= least => return Ok(()),
                Answer::Exists(_) | Answer::Other => {}
                Answer::Bye => return Err(BenchFault::Bye),
                _ => return Err(BenchFault::Unreadable),
            }
        }
        Err(BenchFault::Endless)
    }

    /// Ends idling.
    pub fn done(&mut self, number: u64) -> Result<(), BenchFault> {
        self.finish(b"DONE", number)
    }

    /// Sends the first part of a command, waits until the server asks for more, and returns the
    /// command's number.
    fn announce(&mut self, command: Command<'_>) -> Result<u64, BenchFault> {
        let number = self.ask(command)?;
        self.await_continue(number)?;
        Ok(number)
    }

    /// Sends the rest of the command with this number, and waits until it is answered OK.
    pub fn finish(&mut self, more: &[u8], number: u64) -> Result<(), BenchFault> {
        self.line.clear();
        self.line.extend_from_slice(more)?;
        self.line.extend_from_slice(b"\r\n")?;
        self.send()?;
        self.await_end(number)
    }

    /// Sends a command, and returns its number.
    fn ask(&mut self, command: Command<'_>) -> Result<u64, BenchFault> {
        self.line.clear();
        let number = self.push(command)?;
        self.send()?;
        Ok(number)
    }

    /// Adds a command to the octets that are to be sent, and returns its number.
    fn push(&mut self, command: Command<'_>) -> Result<u64, BenchFault> {
        let number = self.sent;
        self.sent = self.sent.wrapping_add(1);
        push_line(command, number, &mut self.line)?;
        Ok(number)
    }

    fn send(&mut self) -> Result<(), BenchFault> {
        let mut writer = &self.stream;
        match writer.write_all(&self.line) {
            Ok(()) => Ok(()),
            Err(_) => Err(BenchFault::Write),
        }
    }

    /// Waits until the command with this number is answered OK.
    pub fn await_end(&mut self, number: u64) -> Result<(), BenchFault> {
        for _ in 0..MAX_ANSWERS {
            match self.receive(number)? {
                Answer::Ended(status) => return status_result(status),
                Answer::Exists(_) | Answer::Other => {}
                Answer::Bye if self.leaves => {}
                Answer::Bye => return Err(BenchFault::Bye),
                Answer::Continue | Answer::Unreadable => return Err(BenchFault::Unreadable),
            }
        }
        Err(BenchFault::Endless)
    }

    /// Waits until the server asks for more of the command with this number.
    fn await_continue(&mut self, number: u64) -> Result<(), BenchFault> {
        for _ in 0..MAX_ANSWERS {
            match self.receive(number)? {
                Answer::Continue => return Ok(()),
                Answer::Exists(_) | Answer::Other => {}
                Answer::Ended(status) => {
                    status_result(status)?;
                    return Err(BenchFault::Unreadable);
                }
                Answer::Bye => return Err(BenchFault::Bye),
                Answer::Unreadable => return Err(BenchFault::Unreadable),
            }
        }
        Err(BenchFault::Endless)
    }

    /// Reads the next answer, and returns its meaning while the end of the command with this number
    /// is awaited.
    fn receive(&mut self, number: u64) -> Result<Answer, BenchFault> {
        self.reading.begin();
        self.read_answer()?;
        let answer = answer_of(&self.reading.line, number);
        if let Answer::Exists(messages) = answer {
            self.messages = messages;
        }
        Ok(answer)
    }

    fn read_answer(&mut self) -> Result<(), BenchFault> {
        for _ in 0..MAX_READS {
            let count = self.reading.read(&self.piece[self.at..self.end])?;
            self.at += count;
            if self.reading.is_ended() {
                return Ok(());
            }
            self.refill()?;
        }
        Err(BenchFault::Endless)
    }

    fn refill(&mut self) -> Result<(), BenchFault> {
        self.at = 0;
        self.end = 0;
        let count = fill(&self.stream, &mut self.piece)?;
        self.end = count;
        Ok(())
    }
}

/// Reads the octets that have arrived, at least one, and returns their number.
fn fill(stream: &TcpStream, piece: &mut [u8]) -> Result<usize, BenchFault>
    ensures { IfOk result (λ count. count ≤ length piece.new) }
{
    let mut reader = stream;
    for _ in 0..MAX_TRIES {
        match reader.read(piece) {
            Ok(0) => return Err(BenchFault::Closed),
            Ok(count) => return Ok(count),
            Err(error) if error.kind() == ErrorKind::Interrupted => {}
            Err(error) => return Err(read_fault(&error)),
        }
    }
    Err(BenchFault::Read)
}
