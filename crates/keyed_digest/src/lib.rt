//! HMAC-SHA256 (FIPS 198-1, RFC 2104) of a message in parts, and a comparison of digests without a
//! branch.
//!
//! `specs/Hmac.antt` defines the digest over SHA-256 as the crate `sha2` defines it. A
//! [`KeyedHasher`] has a key and the message so far, and [`hmac`] is the digest of one message.
//!
//! # Decided
//!
//! - Keys may have any length, zero included: whoever asks for secrets of some length tests it.
//! - [`are_equal`] reads every octet; its contract says nothing of time.
#![tactic(auto)]

mod compare;
mod hasher;
mod key;

pub use compare::are_equal;
pub use hasher::{KeyedHasher, hmac};
