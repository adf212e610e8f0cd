//! Hello lines, proofs and keys; Python's `hmac` computed the digests.

use hex::encode;
use link_wire::{
    HelloFault, Side, frame_key, proof_digest, read_hello, read_proof, write_hello, write_proof,
};
use std::alloc::{AllocError, Global};
use std::test::Fail;

const DIALER: &[u8] =
    b"link 1 2 1 000102030405060708090a0b0c0d0e0f 6465666768696a6b6c6d6e6f707172737475767778797a7b7c7d7e7f80818283";

const ACCEPTOR: &[u8] =
    b"link 1 1 2 101112131415161718191a1b1c1d1e1f c8c9cacbcccdcecfd0d1d2d3d4d5d6d7d8d9dadbdcdddedfe0e1e2e3e4e5e6e7";

/// The secret: the octets from 0 to 31.
const SECRET: [u8; 32] = [
    0, 1, 2, 3, 4, 5, 6, 7, 8, 9, 10, 11, 12, 13, 14, 15, 16, 17, 18, 19, 20, 21, 22, 23, 24, 25,
    26, 27, 28, 29, 30, 31,
];

/// Lines that are no hello: none, another protocol, a version that isn't written so, names and
/// octets out of range, hex in upper case, too short and too long, and a space too many.
const NO_HELLOS: &[&[u8]] = &[
    b"",
    b"GET / HTTP/1.1\r",
    b"link",
    b"link ",
    b"link 1",
    b"link 1 ",
    b"link 01 2 1",
    b"link -1 2 1",
    b"link 4294967296 2 1",
    b"Link 2 2 1",
    b"link 1 0 1 000102030405060708090a0b0c0d0e0f 6465666768696a6b6c6d6e6f707172737475767778797a7b7c7d7e7f80818283",
    b"link 1 2 0 000102030405060708090a0b0c0d0e0f 6465666768696a6b6c6d6e6f707172737475767778797a7b7c7d7e7f80818283",
    b"link 1 65536 1 000102030405060708090a0b0c0d0e0f 6465666768696a6b6c6d6e6f707172737475767778797a7b7c7d7e7f80818283",
    b"link 1 02 1 000102030405060708090a0b0c0d0e0f 6465666768696a6b6c6d6e6f707172737475767778797a7b7c7d7e7f80818283",
    b"link 1 2 1 000102030405060708090A0B0C0D0E0F 6465666768696a6b6c6d6e6f707172737475767778797a7b7c7d7e7f80818283",
    b"link 1 2 1 000102030405060708090a0b0c0d0e0f 6465666768696A6B6C6D6E6F707172737475767778797A7B7C7D7E7F80818283",
    b"link 1 2 1 000102030405060708090a0b0c0d0e0 6465666768696a6b6c6d6e6f707172737475767778797a7b7c7d7e7f80818283",
    b"link 1 2 1 000102030405060708090a0b0c0d0e0f 6465666768696a6b6c6d6e6f707172737475767778797a7b7c7d7e7f8081828",
    b"link 1 2 1 000102030405060708090a0b0c0d0e0f 6465666768696a6b6c6d6e6f707172737475767778797a7b7c7d7e7f8081828384",
    b"link 1 2 1 000102030405060708090a0b0c0d0e0f 6465666768696a6b6c6d6e6f707172737475767778797a7b7c7d7e7f80818283 ",
    b"link 1  2 1 000102030405060708090a0b0c0d0e0f 6465666768696a6b6c6d6e6f707172737475767778797a7b7c7d7e7f80818283",
    b"proof 6465666768696a6b6c6d6e6f707172737475767778797a7b7c7d7e7f80818283",
];

/// Lines that begin as a hello of another version.
const OTHER_VERSIONS: &[&[u8]] = &[b"link 0 ", b"link 2 ", b"link 4294967295 2 1 whatever"];

/// Lines that are no proof.
const NO_PROOFS: &[&[u8]] = &[
    b"",
    b"proof",
    b"proof ",
    b"proof b3cc113d2637966c78766fe23d5502eec4e8c077d5abe17af1cd7a5252aa90e",
    b"proof b3cc113d2637966c78766fe23d5502eec4e8c077d5abe17af1cd7a5252aa90ed0",
    b"proof b3cc113d2637966c78766fe23d5502eec4e8c077d5abe17af1cd7a5252aa90ed\n",
    b"proof  b3cc113d2637966c78766fe23d5502eec4e8c077d5abe17af1cd7a5252aa90ed",
    b"proof B3CC113D2637966C78766FE23D5502EEC4E8C077D5ABE17AF1CD7A5252AA90ED",
    b"proof g3cc113d2637966c78766fe23d5502eec4e8c077d5abe17af1cd7a5252aa90ed",
    b"Proof b3cc113d2637966c78766fe23d5502eec4e8c077d5abe17af1cd7a5252aa90ed",
];

/// Whether the line of a hello is read, and written the same.
fn is_read_again(alloc: Global, line: &[u8]) -> Result<bool, AllocError> {
    let mut lines = Vec::new(alloc);
    match read_hello(line) {
        Ok(hello) => write_hello(&hello, &mut lines)?,
        Err(_) => return Ok(false),
    }
    Ok(lines.ends_with(b"\n") && lines.len() == line.len() + 1 && lines.starts_with(line))
}

#[test]
fn hellos_are_read_again(rt: HostRuntime) -> Result<(), Fail> {
    assert!(rt; is_read_again(rt.alloc(), DIALER)? && is_read_again(rt.alloc(), ACCEPTOR)?);
    Ok(())
}

/// The first of these lines with another fault than this one, if any.
fn first_without<'a>(lines: &[&'a [u8]], fault: HelloFault) -> Option<&'a [u8]> {
    for line in lines {
        if read_hello(line) != Err(fault) {
            return Some(*line);
        }
    }
    None
}

#[test]
fn other_lines_are_refused(rt: HostRuntime) {
    assert!(rt; first_without(NO_HELLOS, HelloFault::NotInForm).is_none());
    assert!(rt; first_without(OTHER_VERSIONS, HelloFault::OtherVersion).is_none());
}

/// The first place of the dialer's hello at which the line can end, if any.
fn first_short_hello() -> Option<usize> {
    for place in 0..DIALER.len() {
        if read_hello(&DIALER[..place]).is_ok() {
            return Some(place);
        }
    }
    None
}

#[test]
fn cut_hellos_are_refused(rt: HostRuntime) {
    assert_eq!(rt; first_short_hello(), None);
}

fn first_proof() -> Option<&'static [u8]> {
    for line in NO_PROOFS {
        if read_proof(line).is_some() {
            return Some(*line);
        }
    }
    None
}

#[test]
fn lines_that_are_no_proof_are_refused(rt: HostRuntime) {
    assert!(rt; first_proof().is_none());
}

/// Whether a digest has this hex, and the line of its proof is read again.
fn is_digest(alloc: Global, digest: [u8; 32], expected: &str) -> Result<bool, AllocError> {
    let text = encode(alloc, &digest)?;
    let mut lines = Vec::new(alloc);
    write_proof(&digest, &mut lines)?;
    let is_line = lines.ends_with(b"\n");
    let _ = lines.pop();
    Ok(text.as_str() == expected && is_line && read_proof(&lines) == Some(digest))
}

#[test]
fn proofs_are_those_of_their_side(rt: HostRuntime) -> Result<(), Fail> {
    assert!(rt;
        is_digest(
            rt.alloc(),
            proof_digest(&SECRET, Side::Dialer, DIALER, ACCEPTOR),
            "b3cc113d2637966c78766fe23d5502eec4e8c077d5abe17af1cd7a5252aa90ed",
        )?
    );
    assert!(rt;
        is_digest(
            rt.alloc(),
            proof_digest(&SECRET, Side::Acceptor, DIALER, ACCEPTOR),
            "25a6781b423b9ec8986aaa45e16d069e02172943766a272ef4befa8bff7668e6",
        )?
    );
    Ok(())
}

#[test]
fn keys_are_those_of_their_side(rt: HostRuntime) -> Result<(), Fail> {
    assert!(rt;
        is_digest(
            rt.alloc(),
            frame_key(&SECRET, Side::Dialer, DIALER, ACCEPTOR),
            "bf2e3233f72c64908da83e8b14351b8fcbb549f15e846f267fee807d468bcd3f",
        )?
    );
    assert!(rt;
        is_digest(
            rt.alloc(),
            frame_key(&SECRET, Side::Acceptor, DIALER, ACCEPTOR),
            "f89f04101626a8a28b97b5d3adc6fbbe1e1ffc7a7b977fcc66eea76ca31a8f02",
        )?
    );
    Ok(())
}
