//! A recorded stream of six frames.

use std::alloc::{AllocError, Global};

/// The key of the recorded stream: the octets from 0 to 31.
pub const KEY: [u8; 32] = [
    0, 1, 2, 3, 4, 5, 6, 7, 8, 9, 10, 11, 12, 13, 14, 15, 16, 17, 18, 19, 20, 21, 22, 23, 24, 25,
    26, 27, 28, 29, 30, 31,
];

/// The headers and payloads of the recorded stream; Python's `hmac` computed the digests.
pub const FRAMES: &[(&[u8], &[u8])] = &[
    (
        b"78 fd4b02d3edd54c1de9ba297f395f0310\n",
        b"have 1=3,2=1 000102030405060708090a0b0c0d0e0ff0f1f2f3f4f5f6f7f8f9fafbfcfdfeff\n",
    ),
    (
        b"18 3219aae7681d0d32bfc5b76f05b1bae4\n",
        b"op 1:1 - create a\n",
    ),
    (
        b"95 d51dd0bda3e6bd7272e41bcaf8e60e76\n",
        b"op 1:2 1=1 subscribe a\nop 1:3 1=2 append a ($forwarded) \"25-Dec-2023 10:00:00 +0000\" =a~0D~0Ab\n",
    ),
    (b"5 94e03f17931250b0e993c67bdf7c9c97\n", b"ping\n"),
    (b"13 132affab8cf95c067c8d308aeb77b8af\n", b"want 1=3,2=1\n"),
    (
        b"50 e8d68f5cf8d44a2a2821dc9408c81540\n",
        b"op 2:1 - create b\nop 2:2 2=1 unsubscribe b -\nping\n",
    ),
];

/// The first `count` recorded frames.
pub fn first_frames(alloc: Global, count: usize) -> Result<Vec<u8>, AllocError> {
    let mut text = Vec::new(alloc);
    for place in 0..FRAMES.len() {
        if place < count {
            let (header, payload) = FRAMES[place];
            text.extend_from_slice(header)?;
            text.extend_from_slice(payload)?;
        }
    }
    Ok(text)
}

/// The lines of the first `count` recorded payloads.
pub fn first_lines(alloc: Global, count: usize) -> Result<Vec<u8>, AllocError> {
    let mut text = Vec::new(alloc);
    for place in 0..FRAMES.len() {
        if place < count {
            let (_, payload) = FRAMES[place];
            text.extend_from_slice(payload)?;
        }
    }
    Ok(text)
}

/// How many of the recorded frames are whole in the first `octets` octets.
pub fn count_whole(octets: usize) -> usize {
    let mut count: usize = 0;
    let mut end: usize = 0;
    for (header, payload) in FRAMES {
        end = end
            .saturating_add(header.len())
            .saturating_add(payload.len());
        if end > octets {
            return count;
        }
        count = count.saturating_add(1);
    }
    count
}
