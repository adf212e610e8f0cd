//! The recorded stream with each octet changed, and with frames dropped, repeated and exchanged.

use crate::recorded::{FRAMES, first_payloads, frames_text, read_pieces};
use link_wire::{FrameFault, Limits};
use std::alloc::{AllocError, Global};
use std::test::Fail;

/// The bits that are changed in an octet, one change after another.
const CHANGES: &[u8] = &[0x01, 0x10, 0x80];

/// Octets after the stream, so that a header which announces more than before meets its digest.
const PADDING: &[u8] = &[b'x'; 200];

/// The octets of a header's digest and its LF.
const DIGEST_AND_LF: usize = 33;

/// The first frame and place in it at which some change isn't refused, if any.
fn first_unnoticed_place(alloc: Global) -> Result<Option<(usize, usize)>, AllocError> {
    for frame in 0..FRAMES.len() {
        let (header, payload) = FRAMES[frame];
        for place in 0..header.len().saturating_add(payload.len()) {
            if !are_refused(alloc, frame, place)? {
                return Ok(Some((frame, place)));
            }
        }
    }
    Ok(None)
}

/// Whether each change at this place of this frame is refused by name, and just the frames before
/// it are given.
fn are_refused(alloc: Global, frame: usize, place: usize) -> Result<bool, AllocError> {
    let start = frames_text(alloc, 0, frame)?.len();
    let payloads = first_payloads(alloc, frame)?;
    for change in CHANGES {
        let mut stream = frames_text(alloc, 0, FRAMES.len())?;
        stream.extend_from_slice(PADDING)?;
        change_octet(&mut stream, start.saturating_add(place), *change);
        let (text, fault) = read_pieces(alloc, Limits::STANDARD, &stream, 50)?;
        if text != payloads || !is_named(frame, place, fault) {
            return Ok(false);
        }
    }
    Ok(true)
}

/// Changes these bits of the octet at this place.
fn change_octet(stream: &mut Vec<u8>, place: usize, change: u8) {
    if let Some(octet) = stream.get_mut(place) {
        *octet ^= change;
    }
}

/// Whether this is the fault of a change at this place: a digest that differs for each octet of a
/// digest or of a payload, and for the length, the space and the LF also a line that is no header.
fn is_named(frame: usize, place: usize, fault: Option<FrameFault>) -> bool {
    let Some((header, _)) = FRAMES.get(frame) else {
        return false;
    };
    let digest = header.len().saturating_sub(DIGEST_AND_LF);
    let line_end = header.len().saturating_sub(1);
    let is_certain = digest <= place && place != line_end;
    fault == Some(FrameFault::BadDigest) || (!is_certain && fault == Some(FrameFault::BadHeader))
}

#[test]
fn each_changed_octet_is_refused(rt: HostRuntime) -> Result<(), Fail> {
    assert_eq!(rt; first_unnoticed_place(rt.alloc())?, None);
    Ok(())
}

/// The recorded frames with the frames from one place to another left out, or given twice, or after
/// the next ones.
enum Disorder {
    Dropped,
    Repeated,
    Exchanged,
}

/// The recorded stream with this done to the frame.
fn disordered(alloc: Global, frame: usize, disorder: &Disorder) -> Result<Vec<u8>, AllocError> {
    let count = FRAMES.len();
    let next = frame.saturating_add(1).min(count);
    let mut stream = frames_text(alloc, 0, frame)?;
    match disorder {
        Disorder::Dropped => {}
        Disorder::Repeated => {
            stream.extend_from_slice(&frames_text(alloc, frame, next)?)?;
            stream.extend_from_slice(&frames_text(alloc, frame, next)?)?;
        }
        Disorder::Exchanged => {
            stream.extend_from_slice(&frames_text(alloc, next, count)?)?;
            stream.extend_from_slice(&frames_text(alloc, frame, next)?)?;
        }
    }
    if !matches!(disorder, Disorder::Exchanged) {
        stream.extend_from_slice(&frames_text(alloc, next, count)?)?;
    }
    Ok(stream)
}

/// The first frame, before the last one, that can be treated so without `BadDigest` in its place,
/// if any.
fn first_unnoticed_frame(
    alloc: Global,
    disorder: &Disorder,
    given: usize,
) -> Result<Option<usize>, AllocError> {
    for frame in 0..FRAMES.len().saturating_sub(1) {
        let stream = disordered(alloc, frame, disorder)?;
        let (text, fault) = read_pieces(alloc, Limits::STANDARD, &stream, 1000)?;
        if text != first_payloads(alloc, frame.saturating_add(given))?
            || fault != Some(FrameFault::BadDigest)
        {
            return Ok(Some(frame));
        }
    }
    Ok(None)
}

#[test]
fn dropped_frames_are_noticed(rt: HostRuntime) -> Result<(), Fail> {
    assert_eq!(rt;
        first_unnoticed_frame(rt.alloc(), &Disorder::Dropped, 0)?,
        None
    );
    Ok(())
}

#[test]
fn repeated_frames_are_noticed(rt: HostRuntime) -> Result<(), Fail> {
    assert_eq!(rt;
        first_unnoticed_frame(rt.alloc(), &Disorder::Repeated, 1)?,
        None
    );
    Ok(())
}

#[test]
fn exchanged_frames_are_noticed(rt: HostRuntime) -> Result<(), Fail> {
    assert_eq!(rt;
        first_unnoticed_frame(rt.alloc(), &Disorder::Exchanged, 0)?,
        None
    );
    Ok(())
}
