//! Names of mailboxes in modified UTF-7, as IMAP4rev1 writes them (RFC 3501, section 5.1.3).
//!
//! `encode` gives a name's modified UTF-7, `decode` the name of which octets are the encoding.
//! Printable US-ASCII represents itself, `&` is `&-`, and all other characters that follow one
//! another are one shift: `&`, their UTF-16 in base64 without padding and with `,` for `/`, `-`.
//! So a name has one encoding, and `decode` refuses all other octets: a shift that could be shorter
//! or part of another one, a surrogate without its partner, bits that are left over, octets above
//! 126, control characters that aren't shifted, a shift that doesn't end.
//!
//! The contracts define an encoding by the whole name's runs (`specs/ModifiedUtf7.antt`), and what
//! is decoded by it, both ways. Calls return `Err` only if memory runs out.
#![tactic(auto)]

mod decoding;
mod encoding;
mod laws;
mod shifts;

pub use decoding::decode;
pub use encoding::encode;
pub use laws::encodings_are_distinct;
