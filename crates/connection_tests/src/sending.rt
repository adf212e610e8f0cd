//! What a writer sends of a replica's operations, read again.

use crate::frames::KEY;
use crate::reading::read_all;
use crate::replica::{LINES, op_lines, replica_with_lines};
use imap_connection::MemorySink;
use link_connection::{ReceiveEnd, SendFault, send_ops};
use link_wire::{FrameWriter, Limits};
use std::alloc::Global;
use std::sync::Wait;
use tags_clocks::Clock;

/// What is sent at `limit` operations a frame, of `synced` operations, until nothing is left to
/// send; `None` if a call fails or sends another number than it should.
fn send_all(alloc: Global, limit: usize, synced: usize) -> Option<(Vec<u8>, Clock)> {
    let replica = replica_with_lines(alloc, synced)?;
    let mut covered = Clock::new(alloc);
    let mut writer = FrameWriter::new(Limits::STANDARD, KEY);
    let mut sink = MemorySink::new(Vec::new(alloc), u64::MAX);
    let mut left = synced.min(LINES.len());
    for _ in 0..LINES.len().saturating_add(1) {
        if sink.failures() != 0 {
            return None;
        }
        let sent = send_ops(alloc, &replica, limit, &mut covered, &mut writer, &mut sink);
        if sent != Ok(left.min(limit)) {
            return None;
        }
        left = left.saturating_sub(limit);
    }
    Some((sink.into_octets(), covered))
}

/// Whether the operations that may be sent are read again, in their order, and no others.
fn are_read_again<W: Wait>(rt: &W, alloc: Global, limit: usize, synced: usize) -> Option<bool> {
    let (stream, _) = send_all(alloc, limit, synced)?;
    let (lines, end) = read_all(rt, alloc, &stream, 40);
    Some(end == ReceiveEnd::Closed && lines == op_lines(alloc, 0, synced)?)
}

/// The first limit and number of synced operations with which other operations are read, if any.
fn first_wrong_limit<W: Wait>(rt: &W, alloc: Global) -> Option<(usize, usize)> {
    for limit in 1..7 {
        for synced in 0..6 {
            if are_read_again(rt, alloc, limit, synced) != Some(true) {
                return Some((limit, synced));
            }
        }
    }
    None
}

#[test]
fn sent_operations_are_read_again(rt: HostRuntime) {
    assert_eq!(rt; first_wrong_limit(&rt, rt.alloc()), None);
}

/// Whether the clock counts the operations that were sent, and no others.
fn is_clock_raised(alloc: Global) -> Option<bool> {
    let (_, first) = send_all(alloc, 1, 3)?;
    let (_, all) = send_all(alloc, 2, 5)?;
    Some(has_counts(&first, 2, 1) && has_counts(&all, 3, 2))
}

fn has_counts(clock: &Clock, of_first: u32, of_second: u32) -> bool {
    let entries = clock.entries();
    entries.len() == 2 && entries[0].1 == of_first && entries[1].1 == of_second
}

#[test]
fn clocks_are_raised_by_what_is_sent(rt: HostRuntime) {
    assert!(rt; is_clock_raised(rt.alloc()) == Some(true));
}

/// The answer of a sink with room for this many octets, what it took, and whether the clock is
/// still empty.
fn send_into_room(
    alloc: Global,
    limits: Limits,
    room: u64,
) -> Option<(Result<usize, SendFault>, Vec<u8>, bool)> {
    let replica = replica_with_lines(alloc, 5)?;
    let mut covered = Clock::new(alloc);
    let mut writer = FrameWriter::new(limits, KEY);
    let mut sink = MemorySink::new(Vec::new(alloc), room);
    let sent = send_ops(alloc, &replica, 2, &mut covered, &mut writer, &mut sink);
    let is_empty = covered.entries().is_empty();
    Some((sent, sink.into_octets(), is_empty))
}

/// The first room with another answer than a failed write that leaves the clock, if any. A first
/// frame of two operations has 77 octets.
fn first_wrong_room(alloc: Global) -> Option<u64> {
    for room in 0..77 {
        let Some((sent, taken, is_empty)) = send_into_room(alloc, Limits::STANDARD, room) else {
            return Some(room);
        };
        if sent != Err(SendFault::WriteFailed) || taken.len() as u64 != room || !is_empty {
            return Some(room);
        }
    }
    None
}

#[test]
fn failed_writes_leave_the_clock(rt: HostRuntime) {
    assert_eq!(rt; first_wrong_room(rt.alloc()), None);
    assert!(rt; is_sent_into_room(rt.alloc()) == Some(true));
}

/// Whether a first frame is sent into room for just its octets.
fn is_sent_into_room(alloc: Global) -> Option<bool> {
    let (sent, taken, is_empty) = send_into_room(alloc, Limits::STANDARD, 77)?;
    Some(sent == Ok(2) && taken.len() == 77 && !is_empty)
}

/// Whether lines that are longer than a payload may be are refused, and nothing is written.
fn is_refused(alloc: Global) -> Option<bool> {
    let limits = Limits {
        header: 41,
        payload: 30,
        frames: 10,
    };
    let (sent, taken, is_empty) = send_into_room(alloc, limits, 1000)?;
    Some(sent == Err(SendFault::OutsideLimits) && taken.is_empty() && is_empty)
}

#[test]
fn long_frames_are_refused(rt: HostRuntime) {
    assert!(rt; is_refused(rt.alloc()) == Some(true));
}
