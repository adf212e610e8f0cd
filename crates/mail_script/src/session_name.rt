//! The name of a session in a script.

ghost use Rattle.std.specs.Prelude.{◌≡◌, ◌↔◌, IfOk, IsTrue, SomeIff};
ghost use Rattle.std.specs.Char.{is_ascii_alphanumeric};
ghost use Rattle.std.specs.List.{list_all};
ghost use Rattle.mail_script.specs.Fields.{is_session_name};

use std::alloc::{AllocError, Global};
use std::marker::Model;

/// The length of the longest session name, in octets.
pub const MAX_SESSION_NAME_OCTETS: usize = 16;

/// The name of a session in a script: 1 to 16 ASCII letters or digits.
#[derive(Drop)]
pub struct SessionName {
    octets: Vec<u8>,
}

impl Model for SessionName {
    ghost use Rattle.std.specs.Prelude.{ℕ, List, IsTrue};
    ghost use Rattle.mail_script.specs.Fields.{is_session_name};

    ghost Value = { List ℕ };

    ghost view = { λ s. s.octets.items };

    ghost invariant = { λ s. IsTrue (is_session_name s.octets.items) };
}

impl SessionName {
    /// Makes a name of these octets, whose memory it takes over; `None` unless they are 1 to 16
    /// ASCII letters or digits.
    pub fn new(octets: Vec<u8>) -> Option<SessionName>
        ensures { SomeIff result (IsTrue (is_session_name octets.items)) octets.items }
    {
        if is_session_name(&octets) {
            Some(SessionName { octets })
        } else {
            None
        }
    }

    /// The name's octets.
    pub fn as_bytes(&self) -> &[u8]
        ensures value { result.now ≡ self.now }
        ensures lawful { IsTrue (is_session_name result.now) }
    {
        &self.octets
    }

    /// Whether two names are equal.
    pub fn same(&self, other: &SessionName) -> bool
        ensures { IsTrue result ↔ (self.now ≡ other.now) }
    {
        self.as_bytes() == other.as_bytes()
    }

    /// An equal name; `Err` if memory runs out.
    pub fn copy(&self, alloc: Global) -> Result<SessionName, AllocError>
        ensures { IfOk result (λ copied. copied ≡ self.now) }
    {
        Ok(SessionName {
            octets: self.as_bytes().to_vec(alloc)?,
        })
    }
}

/// Whether the octets may name a session: 1 to 16 ASCII letters or digits.
pub fn is_session_name(octets: &[u8]) -> bool
    ensures { result ≡ is_session_name octets.now }
{
    let has_lawful_length = !octets.is_empty() && octets.len() <= MAX_SESSION_NAME_OCTETS;
    has_lawful_length && has_letters_or_digits(octets)
}

fn has_letters_or_digits(octets: &[u8]) -> bool
    ensures { result ≡ list_all is_ascii_alphanumeric octets.now }
{
    octets.iter().all(|octet| octet.is_ascii_alphanumeric())
}
