//! Frames with a line that can't be acted on: nothing of such a frame is.

use crate::frames::KEY;
use crate::reading::read_all;
use crdt_ops::Unsound;
use link_connection::ReceiveEnd;
use link_wire::{FrameWriter, Limits, LineFault, WriteFault};
use std::alloc::Global;
use std::sync::Wait;
use std::test::Fail;

const FIRST: &[u8] = b"op 1:1 - create a\nping\n";

/// Payloads after the first, and the end that each makes.
const REFUSED: &[(&[u8], ReceiveEnd)] = &[
    (b"pong\n", ReceiveEnd::BadLine(LineFault::NotInForm)),
    (
        b"op 2:1 - create b\npong\nping\n",
        ReceiveEnd::BadLine(LineFault::NotInForm),
    ),
    (
        b"op 2:1 - create b\nping",
        ReceiveEnd::BadLine(LineFault::NotInForm),
    ),
    (
        b"op 2:1 - create b\nop 2:3 2=1 create c\nping\n",
        ReceiveEnd::BadLine(LineFault::Unsound(Unsound::OwnClockEntry)),
    ),
];

/// The frames of the first payload, of this one and of a `ping`.
fn stream_with(alloc: Global, payload: &[u8]) -> Result<Vec<u8>, WriteFault> {
    let mut writer = FrameWriter::new(Limits::STANDARD, KEY);
    let mut stream = Vec::new(alloc);
    writer.write(FIRST, &mut stream)?;
    writer.write(payload, &mut stream)?;
    writer.write(b"ping\n", &mut stream)?;
    Ok(stream)
}

/// The place of the first payload of which something was acted on, or with another end, if any.
fn first_wrong_payload<W: Wait>(rt: &W, alloc: Global) -> Result<Option<usize>, WriteFault> {
    for place in 0..REFUSED.len() {
        let (payload, expected) = REFUSED[place];
        let stream = stream_with(alloc, payload)?;
        let (lines, end) = read_all(rt, alloc, &stream, 1000);
        if lines.as_slice() != FIRST || end != expected {
            return Ok(Some(place));
        }
    }
    Ok(None)
}

#[test]
fn bad_lines_end_the_link(rt: HostRuntime) {
    assert!(rt; first_wrong_payload(&rt, rt.alloc()) == Ok(None));
}
