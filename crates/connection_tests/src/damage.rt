//! The recorded stream with each octet changed.

use crate::frames::{FRAMES, first_frames, first_lines};
use crate::reading::read_all;
use link_connection::ReceiveEnd;
use link_wire::FrameFault;
use std::alloc::{AllocError, Global};
use std::sync::Wait;
use std::test::Fail;

/// The bits that are changed in an octet, one change after another.
const CHANGES: &[u8] = &[0x01, 0x80];

/// Octets after the stream, so that a header which announces more than before meets its digest.
const PADDING: &[u8] = &[b'x'; 200];

/// The first frame and place in it at which some change isn't refused, if any.
fn first_unnoticed_place<W: Wait>(
    rt: &W,
    alloc: Global,
) -> Result<Option<(usize, usize)>, AllocError> {
    for frame in 0..FRAMES.len() {
        let (header, payload) = FRAMES[frame];
        for place in 0..header.len().saturating_add(payload.len()) {
            if !are_refused(rt, alloc, frame, place)? {
                return Ok(Some((frame, place)));
            }
        }
    }
    Ok(None)
}

/// Whether each change at this place of this frame is refused, and just the lines of the frames
/// before it are acted on.
fn are_refused<W: Wait>(
    rt: &W,
    alloc: Global,
    frame: usize,
    place: usize,
) -> Result<bool, AllocError> {
    let start = first_frames(alloc, frame)?.len();
    let expected = first_lines(alloc, frame)?;
    for change in CHANGES {
        let mut stream = first_frames(alloc, FRAMES.len())?;
        stream.extend_from_slice(PADDING)?;
        change_octet(&mut stream, start.saturating_add(place), *change);
        let (lines, end) = read_all(rt, alloc, &stream, 50);
        if lines != expected || !is_fault(end) {
            return Ok(false);
        }
    }
    Ok(true)
}

/// Changes these bits of the octet at this place.
fn change_octet(stream: &mut Vec<u8>, place: usize, change: u8) {
    if let Some(octet) = stream.get_mut(place) {
        *octet ^= change;
    }
}

fn is_fault(end: ReceiveEnd) -> bool {
    end == ReceiveEnd::BadFrame(FrameFault::BadDigest)
        || end == ReceiveEnd::BadFrame(FrameFault::BadHeader)
}

#[test]
fn each_changed_octet_ends_the_link(rt: HostRuntime) -> Result<(), Fail> {
    assert_eq!(rt; first_unnoticed_place(&rt, rt.alloc())?, None);
    Ok(())
}
