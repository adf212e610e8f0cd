//! The lines that begin a link, read.

ghost use Rattle.std.specs.Prelude.{◌≡◌, ℕ, List, MatchOption, MatchResult, codes};
ghost use Rattle.std.specs.Option.{option_map};
ghost use Rattle.link_wire.specs.Hello.{IsHelloFault, IsHelloSpelled, IsProofSpelled, after_word};
ghost use Rattle.link_wire.specs.Hello.{hello_at, octets_at, proof_at, version_at};

use crate::line_word::spells;
use hex::{FromHex, encode_to_slice};
use tags_clocks::ReplicaId;
use text_fields::{number, replica, split};
use thiserror::Error;

/// What an end says of itself first.
#[derive(Clone, Copy, Debug, PartialEq, Eq)]
pub struct Hello {
    /// Its own name.
    pub own: ReplicaId,
    /// The name of the other end.
    pub other: ReplicaId,
    /// The octets that its process drew when it started.
    pub run: [u8; 16],
    /// The octets that it drew for this connection.
    pub nonce: [u8; 32],
}

/// Why a line isn't read as a hello.
#[derive(Clone, Copy, Debug, PartialEq, Eq, Error)]
pub enum HelloFault {
    /// It spells no hello.
    #[error("not the form of a hello")]
    NotInForm,
    /// It begins as a hello of another version than 1.
    #[error("another version")]
    OtherVersion,
}

/// The hello that a line spells; the line is given without its end.
pub fn read_hello(line: &[u8]) -> Result<Hello, HelloFault>
    ensures { MatchResult result
        (λ hello. IsHelloSpelled hello line.now)
        (λ fault. IsHelloFault fault line.now) }
{
    match read_version(line) {
        None => Err(HelloFault::NotInForm),
        Some((version, fields)) => {
            if version != 1 {
                return Err(HelloFault::OtherVersion);
            }
            match read_fields(fields) {
                None => Err(HelloFault::NotInForm),
                Some(hello) => Ok(hello),
            }
        }
    }
}

/// The digest of the proof that a line spells; the line is given without its end.
pub fn read_proof(line: &[u8]) -> Option<[u8; 32]>
    ensures { MatchOption result
        ((digest : List ℕ) → ¬ IsProofSpelled digest line.now)
        (λ digest. IsProofSpelled digest line.now) }
{
    read_proof_line(line)
}

#[tactic(auto, unfolding(crate::specs::Hello::proof_at))]
fn read_proof_line(line: &[u8]) -> Option<[u8; 32]>
    ensures { result ≡ proof_at line.now }
{
    let fields = split_word(line, b"proof")?;
    read_32_octets(fields)
}

/// The version of a hello and its other fields.
#[tactic(auto, unfolding(crate::specs::Hello::version_at))]
fn read_version(line: &[u8]) -> Option<(u64, &[u8])>
    ensures { option_map (λ parts. (parts.0, parts.1.now)) result ≡ version_at line.now }
{
    let fields = split_word(line, b"link")?;
    let (version, fields) = split(b' ', fields)?;
    let version = number(version, 4_294_967_295)?;
    Some((version, fields))
}

/// The fields of a hello after its version.
#[tactic(auto, unfolding(crate::specs::Hello::hello_at))]
fn read_fields(fields: &[u8]) -> Option<Hello>
    ensures { result ≡ hello_at fields.now }
{
    let (own, fields) = split(b' ', fields)?;
    let own = replica(own)?;
    let (other, fields) = split(b' ', fields)?;
    let other = replica(other)?;
    let (run, nonce) = split(b' ', fields)?;
    let run = read_16_octets(run)?;
    let nonce = read_32_octets(nonce)?;
    Some(Hello {
        own,
        other,
        run,
        nonce,
    })
}

/// The text after this first word and a space.
#[tactic(auto, unfolding(crate::specs::Hello::after_word))]
fn split_word<'a>(line: &'a [u8], word: &[u8]) -> Option<&'a [u8]>
    ensures { option_map (λ fields. fields.now) result ≡ after_word word.now line.now }
{
    let (first, fields) = split(b' ', line)?;
    if spells(first, word) {
        Some(fields)
    } else {
        None
    }
}

/// The 16 octets that lower-case hex spells.
#[tactic(auto, unfolding(crate::specs::Hello::octets_at))]
fn read_16_octets(text: &[u8]) -> Option<[u8; 16]>
    ensures { result ≡ octets_at 16 text.now }
{
    let octets = <[u8; 16] as FromHex>::from_hex(text).ok()?;
    let mut spelled = [0; 32];
    let _ = encode_to_slice(octets.as_slice(), &mut spelled);
    if spells(&spelled, text) {
        Some(octets)
    } else {
        None
    }
}

/// The 32 octets that lower-case hex spells.
#[tactic(auto, unfolding(crate::specs::Hello::octets_at))]
fn read_32_octets(text: &[u8]) -> Option<[u8; 32]>
    ensures { result ≡ octets_at 32 text.now }
{
    let octets = <[u8; 32] as FromHex>::from_hex(text).ok()?;
    let mut spelled = [0; 64];
    let _ = encode_to_slice(octets.as_slice(), &mut spelled);
    if spells(&spelled, text) {
        Some(octets)
    } else {
        None
    }
}
