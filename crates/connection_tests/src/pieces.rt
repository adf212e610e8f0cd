//! The recorded stream in pieces, cut, and with a receiver or a source that ends it.

use crate::frames::{FRAMES, count_whole, first_frames, first_lines};
use crate::reading::{Reading, read, read_all};
use link_connection::ReceiveEnd;
use std::alloc::{AllocError, Global};
use std::sync::Wait;
use std::test::Fail;

/// The first size of pieces in which not all lines are acted on, if any.
fn first_wrong_size<W: Wait>(rt: &W, alloc: Global) -> Result<Option<usize>, AllocError> {
    let stream = first_frames(alloc, FRAMES.len())?;
    let expected = first_lines(alloc, FRAMES.len())?;
    for size in 1..stream.len().saturating_add(1) {
        let (lines, end) = read_all(rt, alloc, &stream, size);
        if lines != expected || end != ReceiveEnd::Closed {
            return Ok(Some(size));
        }
    }
    Ok(None)
}

#[test]
fn streams_are_read_in_pieces_of_each_size(rt: HostRuntime) -> Result<(), Fail> {
    assert_eq!(rt; first_wrong_size(&rt, rt.alloc())?, None);
    Ok(())
}

/// The first place at which the stream is cut, with the octets before it read with the hello lines,
/// and not all lines are acted on, if any.
fn first_wrong_start<W: Wait>(rt: &W, alloc: Global) -> Result<Option<usize>, AllocError> {
    let stream = first_frames(alloc, FRAMES.len())?;
    let expected = first_lines(alloc, FRAMES.len())?;
    for place in 0..stream.len().saturating_add(1) {
        let (begun, rest) = stream.split_at(place.min(stream.len()));
        let reading = Reading {
            begun,
            rest,
            size: 50,
            reads: u64::MAX,
            most: usize::MAX,
        };
        let (lines, end) = read(rt, alloc, reading);
        if lines != expected || end != ReceiveEnd::Closed {
            return Ok(Some(place));
        }
    }
    Ok(None)
}

#[test]
fn octets_after_hello_lines_are_read(rt: HostRuntime) -> Result<(), Fail> {
    assert_eq!(rt; first_wrong_start(&rt, rt.alloc())?, None);
    Ok(())
}

/// The first place at which the stream ends and the lines of just the whole frames before it aren't
/// acted on, if any.
fn first_wrong_end<W: Wait>(rt: &W, alloc: Global) -> Result<Option<usize>, AllocError> {
    let stream = first_frames(alloc, FRAMES.len())?;
    for place in 0..stream.len().saturating_add(1) {
        let (front, _) = stream.split_at(place.min(stream.len()));
        let (lines, end) = read_all(rt, alloc, front, 7);
        if lines != first_lines(alloc, count_whole(place))? || end != ReceiveEnd::Closed {
            return Ok(Some(place));
        }
    }
    Ok(None)
}

#[test]
fn whole_frames_are_acted_on(rt: HostRuntime) -> Result<(), Fail> {
    assert_eq!(rt; first_wrong_end(&rt, rt.alloc())?, None);
    Ok(())
}

/// The first number of reads after which the source fails and the lines of just the whole frames
/// that were read aren't acted on, if any.
fn first_wrong_read<W: Wait>(rt: &W, alloc: Global) -> Result<Option<u64>, AllocError> {
    let stream = first_frames(alloc, FRAMES.len())?;
    for reads in 0..20 {
        let reading = Reading {
            begun: b"",
            rest: &stream,
            size: 10,
            reads,
            most: usize::MAX,
        };
        let (lines, end) = read(rt, alloc, reading);
        let whole = count_whole((reads as usize).saturating_mul(10));
        if lines != first_lines(alloc, whole)? || end != ReceiveEnd::ReadFailed {
            return Ok(Some(reads));
        }
    }
    Ok(None)
}

#[test]
fn failed_reads_are_reported(rt: HostRuntime) -> Result<(), Fail> {
    assert_eq!(rt; first_wrong_read(&rt, rt.alloc())?, None);
    Ok(())
}

/// The octets up to the end of the line `count`, or all if there are fewer.
fn front_of_lines(text: &[u8], count: usize) -> &[u8] {
    let mut left = count;
    for place in 0..text.len() {
        if left == 0 {
            return text.get(..place).unwrap_or(&[]);
        }
        if text[place] == b'\n' {
            left = left.saturating_sub(1);
        }
    }
    text
}

/// The first number of messages after which a receiver ends the link and not just these were acted
/// on, if any.
fn first_wrong_stop<W: Wait>(rt: &W, alloc: Global) -> Result<Option<usize>, AllocError> {
    let stream = first_frames(alloc, FRAMES.len())?;
    let expected = first_lines(alloc, FRAMES.len())?;
    for most in 0..9 {
        let reading = Reading {
            begun: b"",
            rest: &stream,
            size: 1000,
            reads: u64::MAX,
            most,
        };
        let (lines, end) = read(rt, alloc, reading);
        if lines.as_slice() != front_of_lines(&expected, most) || end != ReceiveEnd::Stopped {
            return Ok(Some(most));
        }
    }
    Ok(None)
}

#[test]
fn receivers_end_the_link(rt: HostRuntime) -> Result<(), Fail> {
    assert_eq!(rt; first_wrong_stop(&rt, rt.alloc())?, None);
    Ok(())
}
