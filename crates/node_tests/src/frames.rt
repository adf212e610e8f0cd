//! The octets of a frame.

use imap_lex::{Framer, Item, Limits};
use std::alloc::Global;

/// Whether a line is one frame, which yields the octets of the line.
fn yields_line(alloc: Global, line: &[u8]) -> bool {
    let mut framer = Framer::new(alloc, Limits::STANDARD);
    match framer.feed(alloc, line) {
        Ok(mut items) => items.len() == 1 && yields_octets(items.pop(), line),
        Err(_) => false,
    }
}

fn yields_octets(item: Option<Item>, octets: &[u8]) -> bool {
    match item {
        Some(Item::Frame(frame)) => frame.into_bytes().as_slice() == octets,
        _ => false,
    }
}

#[test]
fn frames_yield_their_octets(rt: HostRuntime) {
    assert!(rt; yields_line(rt.alloc(), b"a NOOP\r\n"));
}
