//! Sources and sinks in memory that fail at a given point, for tests.

ghost use Rattle.std.specs.Prelude.{◌≡◌, ℕ, List, Some, Bool};
ghost use Rattle.imap_connection.specs.Devices.{PutsOctet};

use crate::io_traits::{Sink, Source};

/// Octets in memory, read in pieces of limited length. After a given number of reads, all further
/// reads fail.
#[derive(Drop)]
pub struct MemorySource<'a> {
    rest: &'a [u8],
    most: usize,
    reads: u64,
    failed: u64,
    ended: bool,
}

impl<'a> MemorySource<'a> {
    /// The octets `rest`, in pieces of at most `most` octets, or of one if `most` is 0. The first
    /// `reads` reads succeed, the rest fail.
    pub fn new(rest: &'a [u8], most: usize, reads: u64) -> MemorySource<'a>
        ensures rest { result.rest.now ≡ rest.now }
        ensures failed { result.failed ≡ 0 }
    {
        MemorySource {
            rest,
            most: most.max(1),
            reads,
            failed: 0,
            ended: false,
        }
    }

    /// How many reads failed.
    pub fn failures(&self) -> u64
        ensures { result ≡ self.now.failed }
    {
        self.failed
    }
}

impl<'a> Source for MemorySource<'a> {
    ghost left = { λ s. Some s.rest.now };

    ghost failures = { λ s. s.failed };

    ghost is_ended = { λ s. s.ended };

    fn read(&mut self, piece: &mut [u8]) -> Option<usize> {
        if self.reads == 0 {
            self.failed += 1;
            return None;
        }
        self.reads -= 1;
        let rest = self.rest;
        let count = rest.len().min(piece.len()).min(self.most.max(1));
        if count == 0 {
            self.ended = true;
            return Some(0);
        }
        let (front, back) = rest.split_at(count);
        piece[..count].copy_from_slice(front);
        self.rest = back;
        Some(count)
    }
}

/// What was written, in memory, up to a limit: a write that would pass it fails, and so does
/// each later one with an octet. Each write appends octet by octet.
#[derive(Drop)]
pub struct MemorySink {
    octets: Vec<u8>,
    room: u64,
    failed: u64,
}

impl MemorySink {
    /// A sink that appends to `octets`, with room for `room` further octets.
    pub fn new(octets: Vec<u8>, room: u64) -> MemorySink
        ensures octets { result.octets.items ≡ octets.items }
        ensures failed { result.failed ≡ 0 }
    {
        MemorySink {
            octets,
            room,
            failed: 0,
        }
    }

    /// All octets, including those that it began with.
    pub fn octets(&self) -> &[u8]
        ensures { result.now ≡ self.now.octets.items }
    {
        &self.octets
    }

    /// All octets, with their memory.
    pub fn into_octets(self) -> Vec<u8>
        ensures { result.items ≡ self.octets.items }
    {
        let MemorySink {
            octets,
            room: _,
            failed: _,
        } = self;
        octets
    }

    /// How many writes failed.
    pub fn failures(&self) -> u64
        ensures { result ≡ self.now.failed }
    {
        self.failed
    }

    /// Takes one octet; `false` if it has no room, or memory runs out.
    fn put(&mut self, octet: u8) -> bool
        ensures taken { PutsOctet result self.old.octets.items octet self.new.octets.items }
        ensures failed { self.new.failed ≡ self.old.failed }
    {
        if self.room == 0 {
            return false;
        }
        self.room -= 1;
        self.octets.push(octet).is_ok()
    }
}

impl Sink for MemorySink {
    ghost taken = { λ s. Some s.octets.items };

    ghost failures = { λ s. s.failed };

    fn write(&mut self, octets: &[u8]) -> bool {
        for octet in octets {
            if !self.put(*octet) {
                self.failed += 1;
                return false;
            }
        }
        true
    }
}
