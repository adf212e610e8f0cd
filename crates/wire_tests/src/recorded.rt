//! A recorded stream of ten frames, and how tests read a stream.

use link_wire::{FrameFault, Framer, Limits, Payload};
use std::alloc::{AllocError, Global};

/// The key of the recorded stream: the octets from 0 to 31.
pub const KEY: [u8; 32] = [
    0, 1, 2, 3, 4, 5, 6, 7, 8, 9, 10, 11, 12, 13, 14, 15, 16, 17, 18, 19, 20, 21, 22, 23, 24, 25,
    26, 27, 28, 29, 30, 31,
];

/// The headers and payloads of the recorded stream; Python's `hmac` computed the digests.
pub const FRAMES: &[(&[u8], &[u8])] = &[
    (
        b"78 fd4b02d3edd54c1de9ba297f395f0310\n",
        b"have 1=3,2=1 000102030405060708090a0b0c0d0e0ff0f1f2f3f4f5f6f7f8f9fafbfcfdfeff\n",
    ),
    (
        b"18 3219aae7681d0d32bfc5b76f05b1bae4\n",
        b"op 1:1 - create a\n",
    ),
    (
        b"95 d51dd0bda3e6bd7272e41bcaf8e60e76\n",
        b"op 1:2 1=1 subscribe a\nop 1:3 1=2 append a ($forwarded) \"25-Dec-2023 10:00:00 +0000\" =a~0D~0Ab\n",
    ),
    (b"5 94e03f17931250b0e993c67bdf7c9c97\n", b"ping\n"),
    (b"13 132affab8cf95c067c8d308aeb77b8af\n", b"want 1=3,2=1\n"),
    (
        b"50 e8d68f5cf8d44a2a2821dc9408c81540\n",
        b"op 2:1 - create b\nop 2:2 2=1 unsubscribe b -\nping\n",
    ),
    (b"1 0e366c24b9138ed1aa8400aefb736247\n", b"x"),
    (b"2 c1a315b8f10df03ca713a0ef99611798\n", b"\n\n"),
    (
        b"30 1fca44869d6234b7f6c4dded0526907a\n",
        b"012345678901234567890123456789",
    ),
    (b"9 bf126af1aa7918db25b29c17067b6397\n", b"bye busy\n"),
];

/// What a reader gave: the payloads, each with a bar after it, and the fault if there was one.
pub type Given = (Vec<u8>, Option<FrameFault>);

/// The recorded frames from this one to before that one.
pub fn frames_text(alloc: Global, from: usize, to: usize) -> Result<Vec<u8>, AllocError> {
    let mut text = Vec::new(alloc);
    for place in 0..FRAMES.len() {
        if from <= place && place < to {
            let (header, payload) = FRAMES[place];
            text.extend_from_slice(header)?;
            text.extend_from_slice(payload)?;
        }
    }
    Ok(text)
}

/// The first `count` recorded payloads, as a reader gives them.
pub fn first_payloads(alloc: Global, count: usize) -> Result<Vec<u8>, AllocError> {
    let mut text = Vec::new(alloc);
    for place in 0..FRAMES.len() {
        if place < count {
            let (_, payload) = FRAMES[place];
            text.extend_from_slice(payload)?;
            text.extend_from_slice(b"|")?;
        }
    }
    Ok(text)
}

/// What is given of a stream in pieces of this many octets, up to the first fault.
pub fn read_pieces(
    alloc: Global,
    limits: Limits,
    stream: &[u8],
    size: usize,
) -> Result<Given, AllocError> {
    let mut text = Vec::new(alloc);
    let mut framer = Framer::new(alloc, limits, KEY);
    for piece in stream.chunks(size.max(1)) {
        let fault = feed(alloc, &mut framer, piece, &mut text)?;
        if fault.is_some() {
            return Ok((text, fault));
        }
    }
    Ok((text, None))
}

/// Appends the payloads that a piece completes, and returns the fault if there was one.
pub fn feed(
    alloc: Global,
    framer: &mut Framer,
    piece: &[u8],
    text: &mut Vec<u8>,
) -> Result<Option<FrameFault>, AllocError> {
    match framer.feed(alloc, piece) {
        Ok(payloads) => {
            push_payloads(&payloads, text)?;
            Ok(None)
        }
        Err(error) => {
            push_payloads(&error.payloads, text)?;
            Ok(Some(error.why))
        }
    }
}

fn push_payloads(payloads: &[Payload], text: &mut Vec<u8>) -> Result<(), AllocError> {
    for payload in payloads {
        text.extend_from_slice(payload.as_bytes())?;
        text.extend_from_slice(b"|")?;
    }
    Ok(())
}
