//! The items that the framer returns.

ghost use Rattle.std.specs.Prelude.{◌≡◌};

use std::marker::Model;

/// The octets of a command, or of a refused prefix of one: its lines with their CRLFs, and its
/// literals.
#[derive(Drop, Debug)]
pub struct Frame {
    octets: Vec<u8>,
}

impl Model for Frame {
    ghost use Rattle.std.specs.Prelude.{ℕ, List};

    ghost Value = { List ℕ };

    ghost view = { λ a. a.octets.items };
}

impl Frame {
    /// The frame of these octets, in the vector's memory.
    pub fn new(octets: Vec<u8>) -> Frame
        ensures { result ≡ octets.items }
    {
        Self { octets }
    }

    /// The octets.
    pub fn bytes(&self) -> &[u8]
        ensures { result.now ≡ self.now }
    {
        &self.octets
    }

    /// The octets, with their memory.
    pub fn into_bytes(self) -> Vec<u8>
        ensures { result.items ≡ self }
    {
        let Frame { octets } = self;
        octets
    }
}

/// The items that a stream of commands gives, one after another.
#[derive(Drop, Debug)]
pub enum Item {
    /// The client waits after a mark `{n}`: `+ ready` is to be sent (RFC 9051, section 4.3).
    Ready,
    /// A whole command.
    Frame(Frame),
    /// The command up to a mark `{n}` and its CRLF, if the literal would pass the limit. This part
    /// is dropped, and the next command begins after it.
    Refused(Frame),
}
