//! How tests read a stream.

use crate::frames::KEY;
use imap_connection::MemorySource;
use link_connection::{ReceiveEnd, Receiver, receive};
use link_wire::{Limits, WireMessage, write_message};
use std::alloc::Global;
use std::sync::Wait;

/// Collects the lines of messages, and ends the link at the message after `most` others.
#[derive(Drop)]
pub struct Collector {
    alloc: Global,
    lines: Vec<u8>,
    most: usize,
}

impl Receiver for Collector {
    ghost acts = { λ _ _ _ _. Unit {0} };

    fn act(&mut self, message: WireMessage) -> bool {
        if self.most == 0 {
            return false;
        }
        self.most -= 1;
        write_message(self.alloc, &message, &mut self.lines).is_ok()
    }
}

/// A stream as a test reads it: the octets that came with the hello lines, those after them, how
/// many are read at once, how many reads succeed, and how many messages are acted on.
#[derive(Clone, Copy)]
pub struct Reading<'a> {
    pub begun: &'a [u8],
    pub rest: &'a [u8],
    pub size: usize,
    pub reads: u64,
    pub most: usize,
}

/// The lines that are acted on, and the end.
pub fn read<W: Wait>(rt: &W, alloc: Global, reading: Reading<'_>) -> (Vec<u8>, ReceiveEnd) {
    let mut source = MemorySource::new(reading.rest, reading.size, reading.reads);
    let mut collector = Collector {
        alloc,
        lines: Vec::new(alloc),
        most: reading.most,
    };
    let begun = reading.begun;
    let end = receive(
        rt,
        alloc,
        Limits::STANDARD,
        KEY,
        begun,
        &mut source,
        &mut collector,
    );
    let Collector { lines, .. } = collector;
    (lines, end)
}

/// The same of all octets after the hello lines, in pieces of this size.
pub fn read_all<W: Wait>(
    rt: &W,
    alloc: Global,
    stream: &[u8],
    size: usize,
) -> (Vec<u8>, ReceiveEnd) {
    let reading = Reading {
        begun: b"",
        rest: stream,
        size,
        reads: u64::MAX,
        most: usize::MAX,
    };
    read(rt, alloc, reading)
}
