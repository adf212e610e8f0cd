//! Names of mailboxes (RFC 9051, section 5.1).

ghost use Rattle.imap_types.specs.Ascending.{octet_order};
ghost use Rattle.std.specs.Prelude.{◌≡◌, ◌↔◌, IfOk, IsTrue, map};
ghost use Rattle.std.specs.Char.{to_ascii_uppercase};
ghost use Rattle.imap_types.specs.Names.{IsLawfulName, fold_inbox, has_octets, inbox, is_inbox};
ghost use Rattle.imap_types.specs.Names.{is_name_octet, levels_of};
ghost use Rattle.std.specs.List.{list_all};
ghost use Rattle.std.specs.Str.{IsUtf8};

use std::alloc::{AllocError, Global};
use std::cmp::Ordering;
use std::marker::Model;
use std::str;

/// The longest lawful name, in octets.
pub const MAX_NAME_OCTETS: usize = 255;

/// A mailbox name as octets, lawful or not (RFC 9051, section 5.1).
pub struct Name {
    octets: Vec<u8>,
}

// By hand, so that crates above drop it whole.
impl Drop for Name {
    fn drop(self) {
        let Self { octets: _ } = self;
    }
}

impl Model for Name {
    ghost use Rattle.std.specs.Prelude.{ℕ, List};

    ghost Value = { List ℕ };

    ghost view = { λ n. n.octets.items };
}

impl Name {
    /// The name of exactly these octets, in the vector's memory.
    pub fn new(octets: Vec<u8>) -> Name
        ensures { result ≡ octets.items }
    {
        Name { octets }
    }

    /// The name of a copy of these octets. `Err` if memory runs out.
    pub fn from_slice(alloc: Global, octets: &[u8]) -> Result<Name, AllocError>
        ensures { IfOk result (λ copied. copied ≡ octets.now) }
    {
        Ok(Name {
            octets: octets.to_vec(alloc)?,
        })
    }

    /// The name `INBOX`. `Err` if memory runs out.
    pub fn inbox(alloc: Global) -> Result<Name, AllocError>
        ensures { IfOk result (λ name. name ≡ inbox) }
    {
        Name::from_slice(alloc, b"INBOX")
    }

    /// The octets, with their memory.
    pub fn into_vec(self) -> Vec<u8>
        ensures { result.items ≡ self }
    {
        let Name { octets } = self;
        octets
    }

    /// The octets.
    pub fn as_bytes(&self) -> &[u8]
        ensures { result.now ≡ self.now }
    {
        &self.octets
    }

    /// Whether both have the same octets.
    pub fn same(&self, other: &Name) -> bool
        ensures { IsTrue result ↔ (self.now ≡ other.now) }
    {
        self.as_bytes() == other.as_bytes()
    }

    /// The order of the octets, by the first that differs.
    pub fn compare(&self, other: &Name) -> Ordering
        ensures { result ≡ octet_order self.now other.now }
    {
        self.as_bytes().cmp(other.as_bytes())
    }

    /// A copy of the name. `Err` if memory runs out.
    pub fn copy(&self, alloc: Global) -> Result<Name, AllocError>
        ensures { IfOk result (λ copied. copied ≡ self.now) }
    {
        Name::from_slice(alloc, self.as_bytes())
    }

    /// Whether the name is `INBOX` in any letter case (RFC 9051, section 5.1).
    pub fn is_inbox(&self) -> bool
        ensures { result ≡ is_inbox self.now }
    {
        self.as_bytes().eq_ignore_ascii_case(b"INBOX")
    }

    /// The name with `INBOX` of any case in capitals; any other name is unchanged.
    pub fn fold_inbox(self) -> Name
        ensures { result ≡ fold_inbox self }
    {
        if !self.is_inbox() {
            return self;
        }
        let mut octets = self.into_vec();
        capitalize(&mut octets);
        Name { octets }
    }

    /// Whether a mailbox may have this name: 1 to 255 octets of UTF-8 without controls, `%` and
    /// `*`, no empty level between separators `/`, and INBOX in capitals only.
    pub fn is_lawful(&self) -> bool
        ensures { IsTrue result ↔ IsLawfulName self.now }
    {
        let octets = self.as_bytes();
        let has_lawful_length = !octets.is_empty() && octets.len() <= MAX_NAME_OCTETS;
        has_lawful_length
            && is_utf8(octets)
            && has_name_octets(octets)
            && has_no_empty_level(octets)
            && is_folded(octets)
    }
}

fn capitalize(octets: &mut Vec<u8>)
    ensures { octets.new.items ≡ map to_ascii_uppercase octets.old.items }
{
    octets.make_ascii_uppercase();
}

fn is_utf8(octets: &[u8]) -> bool
    ensures { IsTrue result ↔ IsUtf8 octets.now }
{
    str::from_utf8(octets).is_ok()
}

fn has_name_octets(octets: &[u8]) -> bool
    ensures { result ≡ list_all is_name_octet octets.now }
{
    octets.iter().all(|octet| *octet >= 32 && *octet != 127 && *octet != b'%' && *octet != b'*')
}

fn has_no_empty_level(octets: &[u8]) -> bool
    ensures { result ≡ list_all has_octets (levels_of octets.now) }
{
    octets
        .split(|octet| *octet == b'/')
        .all(|level| !level.is_empty())
}

/// Whether a name that is INBOX in any letter case is in capitals.
fn is_folded(octets: &[u8]) -> bool
    ensures { IsTrue result ↔ (fold_inbox octets.now ≡ octets.now) }
{
    octets == b"INBOX".as_slice() || !octets.eq_ignore_ascii_case(b"INBOX")
}
