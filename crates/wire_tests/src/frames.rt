//! The recorded stream, whole, in pieces and cut at each place, and written again.

use crate::recorded::{FRAMES, KEY, feed, first_payloads, frames_text, read_pieces};
use link_wire::{FrameFault, FrameWriter, Framer, Limits, WriteFault};
use std::alloc::{AllocError, Global};
use std::test::Fail;

/// The first size of pieces in which the stream doesn't give its payloads, if any.
fn first_wrong_size(alloc: Global) -> Result<Option<usize>, AllocError> {
    let stream = frames_text(alloc, 0, FRAMES.len())?;
    let payloads = first_payloads(alloc, FRAMES.len())?;
    for size in 1..stream.len().saturating_add(1) {
        let (text, fault) = read_pieces(alloc, Limits::STANDARD, &stream, size)?;
        if text != payloads || fault.is_some() {
            return Ok(Some(size));
        }
    }
    Ok(None)
}

#[test]
fn frames_are_read_in_pieces_of_each_size(rt: HostRuntime) -> Result<(), Fail> {
    assert_eq!(rt; first_wrong_size(rt.alloc())?, None);
    Ok(())
}

/// How many of the recorded frames are whole in the first `octets` octets.
fn count_whole(octets: usize) -> usize {
    let mut count: usize = 0;
    let mut end: usize = 0;
    for (header, payload) in FRAMES {
        end = end
            .saturating_add(header.len())
            .saturating_add(payload.len());
        if end > octets {
            return count;
        }
        count = count.saturating_add(1);
    }
    count
}

/// The first place at which the stream is cut and then doesn't give the whole frames before it, or
/// doesn't give the others after it, if any.
fn first_wrong_cut(alloc: Global) -> Result<Option<usize>, AllocError> {
    let stream = frames_text(alloc, 0, FRAMES.len())?;
    for place in 0..stream.len().saturating_add(1) {
        if !is_read_when_cut(alloc, &stream, place)? {
            return Ok(Some(place));
        }
    }
    Ok(None)
}

fn is_read_when_cut(alloc: Global, stream: &[u8], place: usize) -> Result<bool, AllocError> {
    let (front, back) = stream.split_at(place.min(stream.len()));
    let mut framer = Framer::new(alloc, Limits::STANDARD, KEY);
    let mut text = Vec::new(alloc);
    let first = feed(alloc, &mut framer, front, &mut text)?;
    let are_first = text == first_payloads(alloc, count_whole(place))?;
    let second = feed(alloc, &mut framer, back, &mut text)?;
    let are_all = text == first_payloads(alloc, FRAMES.len())?;
    Ok(first.is_none() && second.is_none() && are_first && are_all)
}

#[test]
fn frames_are_read_when_cut_at_each_place(rt: HostRuntime) -> Result<(), Fail> {
    assert_eq!(rt; first_wrong_cut(rt.alloc())?, None);
    Ok(())
}

/// What a writer appends for the recorded payloads; before each it refuses an empty one.
fn written(alloc: Global) -> Result<Vec<u8>, WriteFault> {
    let mut writer = FrameWriter::new(Limits::STANDARD, KEY);
    let mut stream = Vec::new(alloc);
    for (_, payload) in FRAMES {
        if writer.write(b"", &mut stream) != Err(WriteFault::OutsideLimits) {
            return Ok(stream);
        }
        writer.write(payload, &mut stream)?;
    }
    Ok(stream)
}

fn is_written(alloc: Global) -> Result<bool, AllocError> {
    let stream = frames_text(alloc, 0, FRAMES.len())?;
    Ok(written(alloc) == Ok(stream))
}

#[test]
fn frames_are_written(rt: HostRuntime) -> Result<(), Fail> {
    assert!(rt; is_written(rt.alloc())?);
    Ok(())
}

/// What a framer answers after a fault to whole frames: the fault and the payloads.
fn answer_after_fault(alloc: Global) -> Result<(Vec<u8>, Option<FrameFault>), AllocError> {
    let stream = frames_text(alloc, 0, 1)?;
    let mut framer = Framer::new(alloc, Limits::STANDARD, KEY);
    let mut text = Vec::new(alloc);
    let _ = feed(alloc, &mut framer, b"no header\n", &mut text)?;
    let fault = feed(alloc, &mut framer, &stream, &mut text)?;
    Ok((text, fault))
}

#[test]
fn nothing_is_read_after_a_fault(rt: HostRuntime) -> Result<(), Fail> {
    let (text, fault) = answer_after_fault(rt.alloc())?;
    assert!(rt; text.is_empty() && fault == Some(FrameFault::Failed));
    Ok(())
}
