//! Lines that are cut from a stream, in pieces of each size, and the octets after them.

use link_wire::{CutFault, LineCutter};
use std::alloc::{AllocError, Global};
use std::test::Fail;

/// Streams, and what a cutter of lines of eight octets gives of them: the first line, a bar and all
/// octets after the line; or its fault.
const STREAMS: &[(&[u8], &[u8])] = &[
    (b"12345678\n9\n\n", b"12345678|9\n\n"),
    (b"\n9", b"|9"),
    (b"1\n", b"1|"),
    (b"\n\n", b"|\n"),
    (b"123456789\n", b"too long"),
    (b"1234567890", b"too long"),
    (b"12345678", b""),
    (b"", b""),
];

/// What is given of a stream in pieces of this many octets.
fn first_line(alloc: Global, stream: &[u8], size: usize) -> Result<Vec<u8>, AllocError> {
    let mut text = Vec::new(alloc);
    let mut cutter = LineCutter::new(alloc, 8);
    let mut is_cut = false;
    for piece in stream.chunks(size.max(1)) {
        if is_cut {
            text.extend_from_slice(piece)?;
        } else {
            match cutter.take(alloc, piece) {
                Ok(None) => {}
                Ok(Some((line, rest))) => {
                    push_line(line.as_bytes(), rest, &mut text)?;
                    is_cut = true;
                }
                Err(fault) => return text_of_fault(alloc, fault),
            }
        }
    }
    Ok(text)
}

fn push_line(line: &[u8], rest: &[u8], text: &mut Vec<u8>) -> Result<(), AllocError> {
    text.extend_from_slice(line)?;
    text.extend_from_slice(b"|")?;
    text.extend_from_slice(rest)
}

fn text_of_fault(alloc: Global, fault: CutFault) -> Result<Vec<u8>, AllocError> {
    match fault {
        CutFault::TooLong => b"too long".to_vec(alloc),
        CutFault::NoMemory => b"no memory".to_vec(alloc),
    }
}

/// The first row and size of pieces with another result, if any.
fn first_wrong_row(alloc: Global) -> Result<Option<(usize, usize)>, AllocError> {
    for row in 0..STREAMS.len() {
        let (stream, expected) = STREAMS[row];
        for size in 1..13 {
            let text = first_line(alloc, stream, size)?;
            if text.as_slice() != expected {
                return Ok(Some((row, size)));
            }
        }
    }
    Ok(None)
}

#[test]
fn lines_are_cut_in_pieces_of_each_size(rt: HostRuntime) -> Result<(), Fail> {
    assert_eq!(rt; first_wrong_row(rt.alloc())?, None);
    Ok(())
}

/// Whether a cutter that refused a piece takes a shorter one as if the first had never come.
fn is_unchanged_by_a_fault(alloc: Global) -> Result<bool, AllocError> {
    let mut cutter = LineCutter::new(alloc, 8);
    let is_open = matches!(cutter.take(alloc, b"1234"), Ok(None));
    let is_refused = matches!(cutter.take(alloc, b"56789\n"), Err(CutFault::TooLong));
    let is_given = match cutter.take(alloc, b"5678\n") {
        Ok(Some((line, rest))) => line.as_bytes() == b"12345678".as_slice() && rest.is_empty(),
        Ok(None) => false,
        Err(_) => false,
    };
    Ok(is_open && is_refused && is_given)
}

#[test]
fn refused_pieces_leave_the_cutter(rt: HostRuntime) -> Result<(), Fail> {
    assert!(rt; is_unchanged_by_a_fault(rt.alloc())?);
    Ok(())
}
