//! Texts of messages.

ghost use Rattle.std.specs.Prelude.{◌≡◌, ◌↔◌, IfOk, IsTrue};

use std::alloc::{AllocError, Global};
use std::marker::Model;
use std::sync::ArcSlice;

/// A message's text. Its copies share one memory, which is freed with the last of them.
pub struct Text {
    octets: ArcSlice<u8>,
}

// By hand, so that crates above drop it whole.
impl Drop for Text {
    fn drop(self) {
        let Self { octets: _ } = self;
    }
}

impl Model for Text {
    ghost use Rattle.std.specs.Prelude.{ℕ, List};
    ghost use Rattle.std.specs.Arc.{arc_slice_items};

    ghost Value = { List ℕ };

    ghost view = { λ t. arc_slice_items t.octets };
}

impl Text {
    /// The text of these octets, in the vector's memory. `Err` if memory runs out for the count of
    /// its copies.
    pub fn new(octets: Vec<u8>) -> Result<Text, AllocError>
        ensures { IfOk result (λ text. text ≡ octets.items) }
    {
        Ok(Text {
            octets: ArcSlice::from_vec(octets)?,
        })
    }

    /// The text of a copy of these octets. `Err` if memory runs out.
    pub fn from_slice(alloc: Global, octets: &[u8]) -> Result<Text, AllocError>
        ensures { IfOk result (λ text. text ≡ octets.now) }
    {
        Text::new(octets.to_vec(alloc)?)
    }

    /// The octets.
    pub fn as_bytes(&self) -> &[u8]
        ensures { result.now ≡ self.now }
    {
        self.octets.as_slice()
    }

    /// Whether both have the same octets.
    pub fn same(&self, other: &Text) -> bool
        ensures { IsTrue result ↔ (self.now ≡ other.now) }
    {
        self.as_bytes() == other.as_bytes()
    }

    /// A copy that shares the text's memory. `Err` if there are more copies than can be counted.
    pub fn copy(&self) -> Result<Text, AllocError>
        ensures { IfOk result (λ copied. copied ≡ self.now) }
    {
        Ok(Text {
            octets: self.octets.clone()?,
        })
    }
}
