//! Readers and writers of std as sources and sinks.

ghost use Rattle.std.specs.Prelude.{◌≡◌, ◌≤◌, ℕ, None, Bool, length, take};
ghost use Rattle.std.specs.Io.KnownBytes.{Appends};

use crate::io_traits::{Sink, Source};
use std::io::{ErrorKind, Read, Write};

/// The most tries of a read, if the device reports each time that it was interrupted.
const MAX_READS: u32 = 1_000_000;

/// A device with the count of its failures. A read or write that was interrupted is tried again,
/// and counts as no failure. The octets read are unknown; those written are what the device took,
/// if its octets are known.
#[derive(Drop)]
pub struct Wire<T> {
    device: T,
    failed: u64,
    ended: bool,
}

impl<T> Wire<T> {
    /// A device that hasn't failed.
    pub fn new(device: T) -> Wire<T>
        ensures { result.failed ≡ 0 }
    {
        Wire {
            device,
            failed: 0,
            ended: false,
        }
    }

    /// How many reads and writes failed.
    pub fn failures(&self) -> u64
        ensures { result ≡ self.now.failed }
    {
        self.failed
    }
}

impl<T: Read> Source for Wire<T> {
    ghost left = { λ w. None };

    ghost failures = { λ w. w.failed };

    ghost is_ended = { λ w. w.ended };

    fn read(&mut self, piece: &mut [u8]) -> Option<usize> {
        for _read in 0..MAX_READS {
            match self.device.read(piece) {
                Ok(count) => {
                    if count == 0 {
                        self.ended = true;
                    }
                    return Some(count);
                }
                Err(why) => {
                    if why.kind() != ErrorKind::Interrupted {
                        break;
                    }
                }
            }
        }
        self.failed += 1;
        None
    }
}

impl<T: Write> Sink for Wire<T> {
    ghost taken = { λ w. T.contents w.device };

    ghost failures = { λ w. w.failed };

    fn write(&mut self, octets: &[u8]) -> bool {
        let sent = send(&mut self.device, octets);
        if sent < octets.len() {
            self.failed += 1;
            return false;
        }
        true
    }
}

/// Writes the octets. Returns how many the device took: all, or those before it failed.
fn send<T: Write>(device: &mut T, octets: &[u8]) -> usize
    ensures bound { result ≤ length octets.now }
    ensures taken { Appends (T.contents device.old) (T.contents device.new)
        (take result octets.now) }
{
    let mut sent = 0;
    'writes: for _ in 0..u64::MAX {
        if sent >= octets.len() {
            return sent;
        }
        match device.write(&octets[sent..]) {
            Ok(0) => return sent,
            Ok(count) => sent += count,
            Err(why) => {
                if why.kind() != ErrorKind::Interrupted {
                    return sent;
                }
            }
        }
    }
    sent
}
