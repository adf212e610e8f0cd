//! Sections of a message (RFC 9051, section 6.4.5.1).

use crate::keywords::are_same;
use crate::octets::Octets;
use std::alloc::{AllocError, Global};
use std::marker::Model;

/// A part of a message's text, as FETCH names it (RFC 9051, section 6.4.5.1).
pub enum Section {
    /// The whole text.
    Whole,
    /// The header, including the empty line that ends it.
    Header,
    /// The text after the header.
    Text,
    /// The header fields with these names.
    Fields { names: FieldNames },
    /// All other header fields.
    FieldsNot { names: FieldNames },
}

// By hand, so that crates above drop it whole.
impl Drop for Section {
    fn drop(self) {
        match self {
            Self::Whole => {}
            Self::Header => {}
            Self::Text => {}
            Self::Fields { names: _ } => {}
            Self::FieldsNot { names: _ } => {}
        }
    }
}

impl Section {
    ghost use Rattle.std.specs.Prelude.{◌≡◌, ◌↔◌, IfOk, IsTrue};

    /// Whether both are the same section, with names spelled alike.
    pub fn same(&self, other: &Section) -> bool
        ensures { IsTrue result ↔ (self.now ≡ other.now) }
    {
        match (self, other) {
            (Section::Whole, Section::Whole) => true,
            (Section::Header, Section::Header) => true,
            (Section::Text, Section::Text) => true,
            (Section::Fields { names }, Section::Fields { names: others }) => names.same(others),
            (Section::FieldsNot { names }, Section::FieldsNot { names: others }) => {
                names.same(others)
            }
            _ => false,
        }
    }

    /// A copy of the section. `Err` if memory runs out.
    pub fn copy(&self, alloc: Global) -> Result<Section, AllocError>
        ensures { IfOk result (λ copied. copied ≡ self.now) }
    {
        match self {
            Section::Whole => Ok(Section::Whole),
            Section::Header => Ok(Section::Header),
            Section::Text => Ok(Section::Text),
            Section::Fields { names } => Ok(Section::Fields {
                names: names.copy(alloc)?,
            }),
            Section::FieldsNot { names } => Ok(Section::FieldsNot {
                names: names.copy(alloc)?,
            }),
        }
    }
}

/// Names of header fields, in order, as they were written.
pub struct FieldNames {
    names: Vec<Octets>,
}

// By hand, so that crates above drop it whole.
impl Drop for FieldNames {
    fn drop(self) {
        let Self { names: _ } = self;
    }
}

impl Model for FieldNames {
    ghost use Rattle.std.specs.Prelude.{ℕ, List};

    ghost Value = { List (List ℕ) };

    ghost view = { λ n. n.names.items };
}

impl FieldNames {
    ghost use Rattle.std.specs.Prelude.{◌≡◌, ◌↔◌, IfOk, IsTrue};

    /// These names, in the vector's memory.
    pub fn new(names: Vec<Octets>) -> FieldNames
        ensures { result ≡ names.items }
    {
        FieldNames { names }
    }

    /// The names, in order.
    pub fn names(&self) -> &[Octets]
        ensures { result.now ≡ self.now }
    {
        &self.names
    }

    /// Whether both lists have the same names, spelled alike.
    pub fn same(&self, other: &FieldNames) -> bool
        ensures { IsTrue result ↔ (self.now ≡ other.now) }
    {
        are_same(self.names(), other.names())
    }

    /// A copy of the names. `Err` if memory runs out.
    pub fn copy(&self, alloc: Global) -> Result<FieldNames, AllocError>
        ensures { IfOk result (λ copied. copied ≡ self.now) }
    {
        let mut names = Vec::new(alloc);
        for name in self.names() {
            names.push(name.copy(alloc)?)?;
        }
        Ok(FieldNames { names })
    }
}
