//! CRC-32C, the cyclic redundancy check of Castagnoli, Bräuer and Herrmann (IEEE Transactions on
//! Communications 41, 1993), as SCTP computes it (RFC 9260, appendix A).
//!
//! `specs/Checksum.antt` defines the checksum bit by bit: a register is divided by the polynomial,
//! one bit of the octets after another. [`Crc32c::checksum`] equals it, eight octets at a time by
//! eight tables of 256 entries (slicing by eight; Kounavis and Berry, IEEE Transactions on
//! Computers 57, 2008). That entries stand for bits follows from the division's being linear: the
//! remainder of an exclusive or is the exclusive or of the remainders.
//!
//! # Decided
//!
//! - Eight tables of 256 entries, made by `new`, hold 8 KB; the processor's own instruction would
//!   need further proofs.
//! - The checksum shows damage, not intent: whoever can write to a log can write checksums.
#![tactic(auto)]

mod checksum;

pub use checksum::Crc32c;
