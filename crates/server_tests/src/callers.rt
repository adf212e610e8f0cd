//! Clients over sockets, each in a thread of its own.

use crate::gates::{Signs, Way, wait_for};
use std::alloc::{AllocError, Global};
use std::io;
use std::io::{Read, Write};
use std::net::{Shutdown, TcpStream};
use std::sync::Wait;
use std::sync::atomic::Ordering;

/// How a client behaves after its commands.
#[derive(Clone, Copy)]
pub enum Manner {
    /// It closes its side for writing, and reads everything.
    Reads,
    /// It waits until this number of other clients read everything, and then closes its side for
    /// writing and reads everything.
    Waits(u64),
    /// It waits until this number of other clients read everything, and then leaves without having
    /// read anything.
    Deaf(u64),
}

/// A client that will connect.
#[derive(Drop)]
pub struct Caller {
    /// The octets that it sends.
    pub input: Vec<u8>,
    /// How it behaves.
    pub manner: Manner,
    /// The gate that is passed before each of its commands.
    pub way: Way,
}

/// A client's side of a connection.
#[derive(Drop)]
pub struct Line {
    /// The connection.
    pub stream: TcpStream,
    /// The client.
    pub caller: Caller,
}

/// What a client reads; empty if it reads nothing or fails.
pub fn receive<R: Wait>(rt: &R, alloc: Global, signs: &Signs, line: Line) -> Vec<u8> {
    let Line { stream, caller } = line;
    let Caller {
        input,
        manner,
        way: _,
    } = caller;
    let mut writer = &stream;
    let _ = writer.write_all(&input);
    match manner {
        Manner::Reads => {
            let output = receive_rest(alloc, &stream);
            let _ = signs.received.fetch_add(1, Ordering::SeqCst);
            output
        }
        Manner::Waits(others) => {
            wait_for(rt, &signs.received, others);
            receive_rest(alloc, &stream)
        }
        Manner::Deaf(others) => {
            wait_for(rt, &signs.received, others);
            Vec::new(alloc)
        }
    }
}

/// Closes the client's side for writing, and reads until the connection ends; empty if that fails.
fn receive_rest(alloc: Global, stream: &TcpStream) -> Vec<u8> {
    let mut output = Vec::new(alloc);
    let _ = stream.shutdown(Shutdown::Write);
    match read_all(stream, &mut output) {
        Ok(()) => output,
        Err(_) => Vec::new(alloc),
    }
}

fn read_all(stream: &TcpStream, output: &mut Vec<u8>) -> io::Result<()> {
    let mut piece = [0u8; 4_096];
    let mut reader = stream;
    for _ in 0..100_000u32 {
        let count = reader.read(&mut piece)?;
        if count == 0 {
            return Ok(());
        }
        output.extend_from_slice(&piece[..count])?;
    }
    Ok(())
}

/// A copy of the octets that a client sends.
pub fn input(alloc: Global, text: &[u8]) -> Result<Vec<u8>, AllocError> {
    let mut input = Vec::new(alloc);
    input.extend_from_slice(text)?;
    Ok(input)
}
