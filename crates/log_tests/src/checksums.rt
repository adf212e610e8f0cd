//! Checksums that other programs compute (RFC 3720, section B.4, and the usual check value).

use crc32c::Crc32c;

/// Octets, and their checksum.
const CHECKSUMS: &[(&[u8], u32)] = &[
    (b"", 0),
    (b"123456789", 0xE306_9283),
    (&[0; 32], 0x8A91_36AA),
    (&[0xFF; 32], 0x62A8_AB43),
];

/// Whether each has its checksum.
fn are_known(checksums: &Crc32c) -> bool {
    for (octets, sum) in CHECKSUMS {
        if checksums.checksum(octets) != *sum {
            return false;
        }
    }
    true
}

#[test]
fn checksums_are_known(rt: HostRuntime) {
    assert!(rt; are_known(&Crc32c::new()));
}
