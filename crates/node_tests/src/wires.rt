//! Devices of std that move one octet at a time, are interrupted, and fail.

use crate::devices::{INPUT, OUTPUT};
use crate::fake_port::FakePort;
use imap_connection::{Ended, Wire, converse};
use std::alloc::Global;
use std::io;
use std::io::{ErrorKind, Read, Write};
use std::sync::Wait;
use std::test::*;

/// A device that moves one octet per call and is interrupted at each third call. After `most` calls
/// it fails with `fault`, or moves nothing if that is `None`.
#[derive(Drop)]
struct OneOctetDevice<T> {
    inner: T,
    calls: u64,
    most: u64,
    fault: Option<ErrorKind>,
}

impl<T> OneOctetDevice<T> {
    /// The number of octets that this call moves, of `count`.
    fn turn(&mut self, count: usize) -> io::Result<usize> {
        self.calls = self.calls.saturating_add(1);
        if self.calls > self.most {
            return match self.fault {
                Some(kind) => Err(io::Error::from(kind)),
                None => Ok(0),
            };
        }
        if self.calls % 3 == 0 {
            return Err(io::Error::from(ErrorKind::Interrupted));
        }
        Ok(count.min(1))
    }
}

impl<T: Read> Read for OneOctetDevice<T> {
    fn read(&mut self, buf: &mut [u8]) -> io::Result<usize> {
        let count = self.turn(buf.len())?.min(buf.len());
        self.inner.read(&mut buf[..count])
    }
}

impl<T: Write> Write for OneOctetDevice<T> {
    fn write(&mut self, buf: &[u8]) -> io::Result<usize> {
        let count = self.turn(buf.len())?.min(buf.len());
        self.inner.write(&buf[..count])
    }

    fn flush(&mut self) -> io::Result<()> {
        Ok(())
    }
}

/// How a conversation ended, its output, how many reads and writes failed, and how often the
/// session was closed.
#[derive(Drop)]
struct Conversation {
    ended: Ended,
    output: Vec<u8>,
    failed: (u64, u64),
    closed: u32,
}

/// A conversation over devices of std, which fail with `fault` after `reads` reads and `writes`
/// writes, or move nothing if it is `None`.
fn run_with_devices<R: Wait>(
    rt: &R,
    alloc: Global,
    reads: u64,
    writes: u64,
    fault: Option<ErrorKind>,
) -> Conversation {
    let mut output = Vec::new(alloc);
    let mut source = Wire::new(OneOctetDevice {
        inner: INPUT,
        calls: 0,
        most: reads,
        fault,
    });
    let mut sink = Wire::new(OneOctetDevice {
        inner: &mut output,
        calls: 0,
        most: writes,
        fault,
    });
    let mut port = FakePort::new();
    let ended = converse(rt, alloc, &mut source, &mut sink, &mut port);
    let failed = (source.failures(), sink.failures());
    drop(sink);
    Conversation {
        ended,
        output,
        failed,
        closed: port.closed,
    }
}

/// The faults of devices; `None` for one that moves nothing any more.
const FAULTS: [Option<ErrorKind>; 4] = [
    Some(ErrorKind::WouldBlock),
    Some(ErrorKind::ConnectionReset),
    Some(ErrorKind::BrokenPipe),
    None,
];

/// Whether a conversation whose reads fail sent a prefix of the output, ended as its device did,
/// and closed the session. The output is whole if the device lasted.
fn is_lawful_reading(conversation: &Conversation, fault: Option<ErrorKind>) -> bool {
    let ended = match fault {
        Some(_) => Ended::ReadFailed,
        None => Ended::PeerClosed,
    };
    let is_whole = conversation.ended == Ended::Logout && conversation.output.as_slice() == OUTPUT;
    let is_cut = conversation.ended == ended && conversation.output.len() < OUTPUT.len();
    OUTPUT.starts_with(&conversation.output)
        && (is_whole || is_cut)
        && (conversation.ended == Ended::ReadFailed) == (conversation.failed.0 > 0)
        && conversation.failed.1 == 0
        && conversation.closed == 1
}

/// Whether a conversation whose writes fail sent a prefix of the output, ended as its device did,
/// and closed the session.
fn is_lawful_writing(conversation: &Conversation) -> bool {
    let is_whole = conversation.ended == Ended::Logout && conversation.output.as_slice() == OUTPUT;
    let is_cut = conversation.ended == Ended::WriteFailed
        && conversation.output.len() < OUTPUT.len();
    OUTPUT.starts_with(&conversation.output)
        && (is_whole || is_cut)
        && conversation.failed.0 == 0
        && (conversation.ended == Ended::WriteFailed) == (conversation.failed.1 > 0)
        && conversation.closed == 1
}

/// Whether a conversation whose reads fail after `reads` is lawful.
fn is_lawful_with_reads<R: Wait>(
    rt: &R,
    alloc: Global,
    reads: u64,
    fault: Option<ErrorKind>,
) -> bool {
    is_lawful_reading(&run_with_devices(rt, alloc, reads, u64::MAX, fault), fault)
}

/// The first number of reads after which a failure makes the conversation unlawful; the last
/// numbers tried are above that of its reads.
fn first_unlawful_read<R: Wait>(rt: &R, alloc: Global, fault: Option<ErrorKind>) -> Option<u64> {
    (0..200u64).find(|reads| !is_lawful_with_reads(rt, alloc, *reads, fault))
}

/// The first number of writes after which a failure makes the conversation unlawful.
fn first_unlawful_write<R: Wait>(rt: &R, alloc: Global, fault: Option<ErrorKind>) -> Option<u64> {
    (0..500u64).find(|writes| !is_lawful_writing(&run_with_devices(
        rt,
        alloc,
        u64::MAX,
        *writes,
        fault,
    )))
}

#[test]
fn octets_move_one_at_a_time(rt: HostRuntime) {
    let conversation = run_with_devices(&rt, rt.alloc(), u64::MAX, u64::MAX, None);
    assert!(rt; conversation.ended == Ended::Logout);
    assert!(rt; conversation.output.as_slice() == OUTPUT);
    assert_eq!(rt; conversation.failed, (0, 0));
}

#[test]
fn a_device_of_std_fails(rt: HostRuntime) {
    let fault = Some(ErrorKind::WouldBlock);
    let conversation = run_with_devices(&rt, rt.alloc(), 20, u64::MAX, fault);
    assert!(rt; conversation.ended == Ended::ReadFailed);
    assert!(rt;
        conversation.output.len() < OUTPUT.len() && OUTPUT.starts_with(&conversation.output)
    );
    assert_eq!(rt; conversation.failed, (1, 0));
    let conversation = run_with_devices(&rt, rt.alloc(), u64::MAX, 30, fault);
    assert!(rt; conversation.ended == Ended::WriteFailed);
    assert!(rt; conversation.output.as_slice() == &OUTPUT[..20]);
    assert_eq!(rt; conversation.failed, (0, 1));
}

#[test]
fn each_read_of_a_device_of_std_fails_in_turn(rt: HostRuntime) {
    for fault in FAULTS {
        assert_eq!(rt; first_unlawful_read(&rt, rt.alloc(), fault), None);
    }
}

#[test]
fn each_write_of_a_device_of_std_fails_in_turn(rt: HostRuntime) {
    for fault in FAULTS {
        assert_eq!(rt; first_unlawful_write(&rt, rt.alloc(), fault), None);
    }
}
