//! Limits of frames and of lines: met, and passed by one.

use crate::recorded::{FRAMES, Given, KEY, first_payloads, frames_text, read_pieces};
use link_wire::{FrameFault, FrameWriter, Limits, LineCutter, WriteFault};
use std::alloc::{AllocError, Global};
use std::test::Fail;

/// The standard limits with another of payloads.
fn of_payload(payload: usize) -> Limits {
    Limits {
        payload,
        ..Limits::STANDARD
    }
}

/// The standard limits with another of frames.
fn of_frames(frames: u64) -> Limits {
    Limits {
        frames,
        ..Limits::STANDARD
    }
}

/// The standard limits with another of headers.
fn of_header(header: usize) -> Limits {
    Limits {
        header,
        ..Limits::STANDARD
    }
}

/// Whether the recorded stream within these limits gives its first `count` payloads and this fault.
fn gives(
    alloc: Global,
    limits: Limits,
    count: usize,
    fault: Option<FrameFault>,
) -> Result<bool, AllocError> {
    let stream = frames_text(alloc, 0, FRAMES.len())?;
    let (text, why): Given = read_pieces(alloc, limits, &stream, 20)?;
    Ok(text == first_payloads(alloc, count)? && why == fault)
}

#[test]
fn payloads_of_the_limit_are_read(rt: HostRuntime) -> Result<(), Fail> {
    assert!(rt; gives(rt.alloc(), of_payload(95), 10, None)?);
    assert!(rt; gives(rt.alloc(), of_payload(94), 2, Some(FrameFault::BadHeader))?);
    Ok(())
}

#[test]
fn as_many_frames_as_the_limit_are_read(rt: HostRuntime) -> Result<(), Fail> {
    assert!(rt; gives(rt.alloc(), of_frames(10), 10, None)?);
    assert!(rt; gives(rt.alloc(), of_frames(9), 9, Some(FrameFault::TooManyFrames))?);
    assert!(rt; gives(rt.alloc(), of_frames(0), 0, Some(FrameFault::TooManyFrames))?);
    Ok(())
}

#[test]
fn headers_of_the_limit_are_read(rt: HostRuntime) -> Result<(), Fail> {
    assert!(rt; gives(rt.alloc(), of_header(35), 10, None)?);
    assert!(rt; gives(rt.alloc(), of_header(34), 0, Some(FrameFault::BadHeader))?);
    Ok(())
}

/// Streams that have no frame, and the octets after which they are refused as a bad header.
const NO_HEADERS: &[(&[u8], usize)] = &[
    // A header of 42 octets.
    (b"111111111111111111111111111111111111111111", 42),
    // A length of zero, with a leading zero, above the limit by one, and not in digits.
    (b"0 4dbc8fa9dca46e99b5144e5d4d1690e3\n", 35),
    (b"05 4dbc8fa9dca46e99b5144e5d4d1690e3\n", 36),
    (b"67108865 4dbc8fa9dca46e99b5144e5d4d1690e3\n", 42),
    (b"five 4dbc8fa9dca46e99b5144e5d4d1690e3\n", 38),
    // A digest that is too short, too long or absent.
    (b"5 4dbc8fa9dca46e99b5144e5d4d1690e\n", 34),
    (b"5 4dbc8fa9dca46e99b5144e5d4d1690e30\n", 36),
    (b"5\n", 2),
    (b"\n", 1),
];

/// The first of these streams that is refused earlier, later or otherwise, if any.
fn first_wrong_stream(alloc: Global) -> Result<Option<usize>, AllocError> {
    for place in 0..NO_HEADERS.len() {
        let (stream, octets) = NO_HEADERS[place];
        let (front, _) = stream.split_at(octets.saturating_sub(1).min(stream.len()));
        let (_, before) = read_pieces(alloc, Limits::STANDARD, front, 5)?;
        let (whole, _) = stream.split_at(octets.min(stream.len()));
        let (_, fault) = read_pieces(alloc, Limits::STANDARD, whole, 5)?;
        if before.is_some() || fault != Some(FrameFault::BadHeader) {
            return Ok(Some(place));
        }
    }
    Ok(None)
}

#[test]
fn bad_headers_are_refused_at_their_end(rt: HostRuntime) -> Result<(), Fail> {
    assert_eq!(rt; first_wrong_stream(rt.alloc())?, None);
    Ok(())
}

#[test]
fn the_longest_payload_can_be_announced(rt: HostRuntime) -> Result<(), Fail> {
    let header = b"67108864 4dbc8fa9dca46e99b5144e5d4d1690e3\n";
    let (text, fault) = read_pieces(rt.alloc(), Limits::STANDARD, header, 100)?;
    assert!(rt; text.is_empty() && fault.is_none());
    Ok(())
}

/// What a writer within these limits answers to the recorded payloads: how many it writes before
/// the first that it refuses, if it writes just these and names the limits.
fn count_written(alloc: Global, limits: Limits) -> Result<Option<usize>, AllocError> {
    let mut writer = FrameWriter::new(limits, KEY);
    let mut stream = Vec::new(alloc);
    let mut count: usize = 0;
    for (_, payload) in FRAMES {
        match writer.write(payload, &mut stream) {
            Ok(()) => count = count.saturating_add(1),
            Err(WriteFault::OutsideLimits) => break,
            Err(WriteFault::NoMemory) => return Ok(None),
        }
    }
    let is_text = stream == frames_text(alloc, 0, count)?;
    Ok(if is_text { Some(count) } else { None })
}

#[test]
fn frames_outside_the_limits_are_not_written(rt: HostRuntime) -> Result<(), Fail> {
    assert_eq!(rt; count_written(rt.alloc(), of_payload(95))?, Some(10));
    assert_eq!(rt; count_written(rt.alloc(), of_payload(94))?, Some(2));
    assert_eq!(rt; count_written(rt.alloc(), of_frames(9))?, Some(9));
    assert_eq!(rt; count_written(rt.alloc(), of_header(34))?, Some(0));
    Ok(())
}

/// Whether a line of so many octets is given by a cutter of hello lines.
fn is_cut(alloc: Global, octets: usize) -> Result<bool, AllocError> {
    let mut stream = Vec::new(alloc);
    for _ in 0..octets {
        stream.extend_from_slice(b"x")?;
    }
    stream.extend_from_slice(b"\n")?;
    let mut cutter = LineCutter::new(alloc, LineCutter::LINE_OCTETS);
    match cutter.take(alloc, &stream) {
        Ok(Some((line, _))) => {
            Ok(line.as_bytes().len() == octets && stream.starts_with(line.as_bytes()))
        }
        Ok(None) => Ok(false),
        Err(_) => Ok(false),
    }
}

#[test]
fn lines_have_at_most_128_octets(rt: HostRuntime) -> Result<(), Fail> {
    assert!(rt; is_cut(rt.alloc(), 128)? && !is_cut(rt.alloc(), 129)?);
    Ok(())
}
