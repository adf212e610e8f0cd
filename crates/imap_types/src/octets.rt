//! Octet strings.

ghost use Rattle.imap_types.specs.Ascending.{octet_order};
ghost use Rattle.std.specs.Prelude.{◌≡◌, ◌↔◌, IfOk, IsTrue};

use std::alloc::{AllocError, Global};
use std::cmp::Ordering;
use std::default::MadeWith;
use std::marker::Model;

/// Any octets, in memory of their own: a tag, a pattern, a keyword.
pub struct Octets {
    octets: Vec<u8>,
}

// By hand, so that crates above drop it whole.
impl Drop for Octets {
    fn drop(self) {
        let Self { octets: _ } = self;
    }
}

impl Model for Octets {
    ghost use Rattle.std.specs.Prelude.{ℕ, List};

    ghost Value = { List ℕ };

    ghost view = { λ o. o.octets.items };
}

impl MadeWith<Global> for Octets {
    ghost use Rattle.std.specs.Prelude.{◌≡◌, []};

    ghost is_made_with = { λ octets. octets ≡ [] };

    fn made_with(alloc: Global) -> Octets {
        Octets {
            octets: Vec::new(alloc),
        }
    }
}

impl Octets {
    /// These octets, in the vector's memory.
    pub fn new(octets: Vec<u8>) -> Octets
        ensures { result ≡ octets.items }
    {
        Octets { octets }
    }

    /// A copy of these octets. `Err` if memory runs out.
    pub fn from_slice(alloc: Global, octets: &[u8]) -> Result<Octets, AllocError>
        ensures { IfOk result (λ copied. copied ≡ octets.now) }
    {
        Ok(Octets {
            octets: octets.to_vec(alloc)?,
        })
    }

    /// The octets, with their memory.
    pub fn into_vec(self) -> Vec<u8>
        ensures { result.items ≡ self }
    {
        let Octets { octets } = self;
        octets
    }

    /// The octets.
    pub fn as_bytes(&self) -> &[u8]
        ensures { result.now ≡ self.now }
    {
        &self.octets
    }

    /// Whether both have the same octets.
    pub fn same(&self, other: &Octets) -> bool
        ensures { IsTrue result ↔ (self.now ≡ other.now) }
    {
        self.as_bytes() == other.as_bytes()
    }

    /// The order of the octets, by the first that differs.
    pub fn compare(&self, other: &Octets) -> Ordering
        ensures { result ≡ octet_order self.now other.now }
    {
        self.as_bytes().cmp(other.as_bytes())
    }

    /// A copy of the octets. `Err` if memory runs out.
    pub fn copy(&self, alloc: Global) -> Result<Octets, AllocError>
        ensures { IfOk result (λ copied. copied ≡ self.now) }
    {
        Octets::from_slice(alloc, self.as_bytes())
    }
}
