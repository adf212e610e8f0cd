//! Digests under a key: the vectors of RFC 4231, section 4.

use hex::encode;
use keyed_digest::{KeyedHasher, are_equal, hmac};
use std::alloc::{AllocError, Global};
use std::test::Fail;

/// A key, a message, and the beginning of the digest, as the RFC prints it: of the fifth case it
/// prints 16 octets.
const VECTORS: &[(&[u8], &[u8], &str)] = &[
    (
        &[0x0b; 20],
        b"Hi There",
        "b0344c61d8db38535ca8afceaf0bf12b881dc200c9833da726e9376c2e32cff7",
    ),
    (
        b"Jefe",
        b"what do ya want for nothing?",
        "5bdcc146bf60754e6a042426089575c75a003f089d2739839dec58b964ec3843",
    ),
    (
        &[0xaa; 20],
        &[0xdd; 50],
        "773ea91e36800e46854db8ebd09181a72959098b3ef8c122d9635514ced565fe",
    ),
    (
        &[
            1, 2, 3, 4, 5, 6, 7, 8, 9, 10, 11, 12, 13, 14, 15, 16, 17, 18, 19, 20, 21, 22, 23, 24,
            25,
        ],
        &[0xcd; 50],
        "82558a389a443c0ea4cc819899f2083a85f0faa3e578f8077a2e3ff46729665b",
    ),
    (
        &[0x0c; 20],
        b"Test With Truncation",
        "a3b6167473100ee06e0c796c2955552b",
    ),
    (
        &[0xaa; 131],
        b"Test Using Larger Than Block-Size Key - Hash Key First",
        "60e431591ee0b67f0d8a26aacbf5b77f8e0bc6213728c5140546040f0ee37f54",
    ),
    (
        &[0xaa; 131],
        b"This is a test using a larger than block-size key and a larger than block-size data. The key needs to be hashed before being used by the HMAC algorithm.",
        "9b09ffa71b942fcb27635fbcd5b0e944bfdc63644f0713938a7f51535c3a35e2",
    ),
];

/// The place of the first vector with another digest, of the whole message or of two parts, if any.
fn first_wrong_vector(alloc: Global) -> Result<Option<usize>, AllocError> {
    for place in 0..VECTORS.len() {
        let (key, message, digest) = VECTORS[place];
        if !is_digest(alloc, &hmac(key, message), digest)?
            || !is_digest(alloc, &hmac_of_parts(key, message), digest)?
        {
            return Ok(Some(place));
        }
    }
    Ok(None)
}

fn is_digest(alloc: Global, digest: &[u8; 32], expected: &str) -> Result<bool, AllocError> {
    let text = encode(alloc, digest)?;
    Ok(text.as_bytes().starts_with(expected.as_bytes()))
}

/// The digest of a message that is given in two parts.
fn hmac_of_parts(key: &[u8], message: &[u8]) -> [u8; 32] {
    let (front, back) = message.split_at(message.len() / 2);
    let mut hasher = KeyedHasher::new(key);
    hasher.update(front);
    hasher.update(back);
    hasher.finalize()
}

#[test]
fn digests_are_those_of_the_rfc(rt: HostRuntime) -> Result<(), Fail> {
    assert_eq!(rt; first_wrong_vector(rt.alloc())?, None);
    Ok(())
}

/// The first place of a digest whose change isn't noticed, if any.
fn first_unnoticed_place() -> Option<usize> {
    let digest = hmac(b"Jefe", b"what do ya want for nothing?");
    for place in 0..32 {
        let mut other = digest;
        other[place] ^= 1;
        if are_equal(&digest, &other) {
            return Some(place);
        }
    }
    None
}

#[test]
fn each_octet_of_a_digest_is_compared(rt: HostRuntime) {
    assert_eq!(rt; first_unnoticed_place(), None);
}

#[test]
fn equal_digests_are_equal(rt: HostRuntime) {
    assert!(rt; are_equal(&hmac(b"", b""), &hmac_of_parts(b"", b"")));
}
