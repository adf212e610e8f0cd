//! The octets that a frame carries.

ghost use Rattle.std.specs.Prelude.{◌≡◌};

use std::marker::Model;

/// The octets that a frame carries.
#[derive(Drop, Debug)]
pub struct Payload {
    octets: Vec<u8>,
}

impl Model for Payload {
    ghost use Rattle.std.specs.Prelude.{ℕ, List};

    ghost Value = { List ℕ };

    ghost view = { λ a. a.octets.items };
}

impl Payload {
    /// The payload of these octets, whose memory it takes over.
    pub fn new(octets: Vec<u8>) -> Payload
        ensures { result ≡ octets.items }
    {
        Self { octets }
    }

    /// The octets.
    pub fn as_bytes(&self) -> &[u8]
        ensures { result.now ≡ self.now }
    {
        &self.octets
    }
}
