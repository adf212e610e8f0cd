//! Faster bodies beside the plain ones whose results they have.

use crc32c::Crc32c;
use imap_types::{Escape, write_escaped};
use std::alloc::{AllocError, Global};

/// Up to this length, a text of each length is tried.
const SHORT: usize = 40;

/// The CRC-32C, an octet at a time and bit by bit (RFC 9260, appendix A).
fn plain_checksum(octets: &[u8]) -> u32 {
    let mut register = u32::MAX;
    for octet in octets {
        register = plain_register_after(register ^ u32::from(*octet));
    }
    !register
}

/// The register after the eight bits of an octet.
fn plain_register_after(register: u32) -> u32 {
    let mut register = register;
    for _ in 0..8u32 {
        register = if register % 2 == 1 {
            (register / 2) ^ 0x82F6_3B78
        } else {
            register / 2
        };
    }
    register
}

/// Octets in no order, by a linear congruential generator.
fn mixed_octets() -> [u8; 1003] {
    let mut octets = [0u8; 1003];
    let mut number = 1u32;
    for place in 0..1003usize {
        number = number.wrapping_mul(1_103_515_245).wrapping_add(12_345);
        octets[place] = (number / 65_536 % 256) as u8;
    }
    octets
}

/// Whether octets have the same checksum by the plain body.
fn is_plain_checksum(checksums: &Crc32c, octets: &[u8]) -> bool {
    checksums.checksum(octets) == plain_checksum(octets)
}

/// The first length of which the first octets have another checksum than by the plain body.
fn wrong_length(checksums: &Crc32c, octets: &[u8]) -> Option<usize> {
    for length in 0..SHORT + 1 {
        if !is_plain_checksum(checksums, octets.get(..length).unwrap_or(octets)) {
            return Some(length);
        }
    }
    if is_plain_checksum(checksums, octets) {
        None
    } else {
        Some(octets.len())
    }
}

#[test]
fn checksums_are_those_of_the_plain_body(rt: HostRuntime) {
    assert!(rt; wrong_length(&Crc32c::new(), &mixed_octets()).is_none());
}

/// The escape of octets, an octet at a time.
fn plain_escape(alloc: Global, escape: Escape, octets: &[u8]) -> Result<Vec<u8>, AllocError> {
    let mut text = Vec::new(alloc);
    for octet in octets {
        write_escaped(escape, &[*octet], &mut text)?;
    }
    Ok(text)
}

/// Whether octets have the same escape by the plain body.
fn is_plain_escape(alloc: Global, escape: Escape, octets: &[u8]) -> Result<bool, AllocError> {
    let mut text = Vec::new(alloc);
    write_escaped(escape, octets, &mut text)?;
    Ok(text.as_slice() == plain_escape(alloc, escape, octets)?.as_slice())
}

/// The first place at which another octet in a text of letters gives another escape than by the
/// plain body.
fn wrong_place(alloc: Global, escape: Escape, other: u8) -> Result<Option<usize>, AllocError> {
    for place in 0..100usize {
        let mut octets = [b'a'; 100];
        octets[place] = other;
        if !is_plain_escape(alloc, escape, &octets)? {
            return Ok(Some(place));
        }
    }
    Ok(None)
}

#[test]
fn escapes_are_those_of_the_plain_body(rt: HostRuntime) {
    for other in [b' ', b'~', b'\n', 0u8, 31, 33, 127, 255] {
        for escape in [Escape::Field, Escape::Text] {
            assert!(rt; wrong_place(rt.alloc(), escape, other).is_ok_and(|place| place.is_none()));
        }
    }
}
