//! Sets of keywords, and the octets that they are made of.

ghost use Rattle.std.specs.Prelude.{◌≡◌, ◌↔◌, ◌≤◌, ◌==◌, [], length, if◌then◌else◌, IfErr, IfOk};
ghost use Rattle.std.specs.Prelude.{IsTrue, OnErr, OnOk};
ghost use Rattle.std.specs.List.{insert, list_all};
ghost use Rattle.imap_types.specs.Keywords.{are_ascending, are_keywords, has_keyword};
ghost use Rattle.imap_types.specs.Keywords.{is_astring_octet, is_atom_octet, is_lawful_keyword};
ghost use Rattle.imap_types.specs.Keywords.{is_lower_case, to_lower_case, with_word};

use crate::Octets;
use smallvec::SmallVec;
use std::alloc::{AllocError, Global};
use std::cmp::Ordering;
use std::marker::Model;

/// The longest keyword that a message may have, in octets.
pub const MAX_KEYWORD_OCTETS: usize = 64;

/// The number of keywords that are stored in the set itself; most messages have none or one.
const INLINE: usize = 1;

/// A set of keywords: each in lower case, distinct, ascending by octets (RFC 9051, section 2.3.2).
pub struct Keywords {
    words: SmallVec<Octets, INLINE>,
}

// By hand, so that crates above drop it whole.
impl Drop for Keywords {
    fn drop(self) {
        let Self { words: _ } = self;
    }
}

impl Model for Keywords {
    ghost use Rattle.std.specs.Prelude.{ℕ, List};
    ghost use Rattle.imap_types.specs.Keywords.{AreKeywords};

    ghost Value = { List (List ℕ) };

    ghost view = { λ k. k.words.items };

    ghost invariant = { λ k. AreKeywords k.words.items };
}

impl Keywords {
    ghost use Rattle.imap_types.specs.Keywords.{AreKeywords};

    /// No keywords; doesn't allocate.
    pub fn empty(alloc: Global) -> Keywords
        ensures { result ≡ [] }
    {
        Keywords {
            words: SmallVec::new(alloc),
        }
    }

    /// The set of these keywords, in the vector's memory; `None` if they aren't all in lower case,
    /// or don't ascend strictly.
    pub fn new(words: Vec<Octets>) -> Option<Keywords>
        ensures { result ≡ (if are_keywords words.items then Some words.items else None) }
    {
        if are_keywords(&words) {
            Some(Keywords {
                words: SmallVec::from(words),
            })
        } else {
            None
        }
    }

    /// Adds a keyword of any case, in lower case; a keyword that the set has changes nothing. `Err`
    /// if memory runs out; the set stays as it was.
    pub fn insert(&mut self, alloc: Global, keyword: &[u8]) -> Result<(), AllocError>
        ensures ok { OnOk result (self.new ≡ with_word (to_lower_case keyword.now) self.old) }
        ensures err { OnErr result (self.new ≡ self.old) }
    {
        let word = to_lower_case(alloc, keyword)?;
        if let Err(place) = place_of(self.as_slice(), word.as_bytes()) {
            self.words.insert(place, word)?;
        }
        Ok(())
    }

    /// Whether the set has this keyword, compared without case.
    pub fn contains(&self, keyword: &[u8]) -> bool
        ensures { result ≡ has_keyword keyword.now self.now }
    {
        contains(self.as_slice(), keyword)
    }

    /// The number of keywords.
    pub fn len(&self) -> usize
        ensures { result ≡ length self.now }
    {
        self.words.len()
    }

    /// Whether the set has no keywords.
    pub fn is_empty(&self) -> bool
        ensures { IsTrue result ↔ (self.now ≡ []) }
    {
        self.as_slice().is_empty()
    }

    /// The keywords, ascending by octets, each in lower case.
    pub fn as_slice(&self) -> &[Octets]
        ensures value { result.now ≡ self.now }
        ensures ascending { AreKeywords self.now }
    {
        self.words.as_slice()
    }

    /// Whether both sets have the same keywords.
    pub fn same(&self, other: &Keywords) -> bool
        ensures { IsTrue result ↔ (self.now ≡ other.now) }
    {
        are_same(self.as_slice(), other.as_slice())
    }

    /// A copy of the set. `Err` if memory runs out.
    pub fn copy(&self, alloc: Global) -> Result<Keywords, AllocError>
        ensures { IfOk result (λ copied. copied ≡ self.now) }
    {
        Ok(Keywords {
            words: copy_words(alloc, self.as_slice())?,
        })
    }
}

fn to_lower_case(alloc: Global, text: &[u8]) -> Result<Octets, AllocError>
    ensures { IfOk result (λ word. word ≡ to_lower_case text.now) }
{
    let mut octets = text.to_vec(alloc)?;
    octets.make_ascii_lowercase();
    Ok(Octets::new(octets))
}

/// The place of the text among ascending ones, or `Err` with the place at which it would be
/// inserted.
fn place_of(texts: &[Octets], text: &[u8]) -> Result<usize, usize>
    ensures present { IfOk result (λ place. with_word text.now texts.now ≡ texts.now) }
    ensures absent { IfErr result (λ place. (place ≤ length texts.now)
        × (with_word text.now texts.now ≡ insert texts.now place text.now)) }
{
    for (place, other) in texts.iter().enumerate() {
        match text.cmp(other.as_bytes()) {
            Ordering::Less => return Err(place),
            Ordering::Equal => return Ok(place),
            Ordering::Greater => {}
        }
    }
    Err(texts.len())
}

fn contains(words: &[Octets], keyword: &[u8]) -> bool
    ensures { result ≡ has_keyword keyword.now words.now }
{
    for word in words {
        if word.as_bytes().eq_ignore_ascii_case(keyword) {
            return true;
        }
    }
    false
}

/// Whether both lists have the same octet strings in the same order.
pub fn are_same(words: &[Octets], others: &[Octets]) -> bool
    ensures { IsTrue result ↔ (words.now ≡ others.now) }
{
    if words.len() != others.len() {
        return false;
    }
    for i in 0..words.len() {
        if !words[i].same(&others[i]) {
            return false;
        }
    }
    true
}

fn copy_words(alloc: Global, words: &[Octets]) -> Result<SmallVec<Octets, INLINE>, AllocError>
    ensures { IfOk result (λ copied. copied.items ≡ words.now) }
{
    let mut copies = SmallVec::new(alloc);
    copies.reserve(words.len())?;
    for word in words {
        copies.push(word.copy(alloc)?)?;
    }
    Ok(copies)
}

/// Whether a message may have this keyword: 1 to 64 atom octets (RFC 9051, section 9, atom).
pub fn is_lawful_keyword(keyword: &[u8]) -> bool
    ensures { result ≡ is_lawful_keyword keyword.now }
{
    !keyword.is_empty() && keyword.len() <= MAX_KEYWORD_OCTETS && has_atom_octets(keyword)
}

fn has_atom_octets(octets: &[u8]) -> bool
    ensures { result ≡ list_all is_atom_octet octets.now }
{
    octets.iter().all(|octet| is_atom_octet(*octet))
}

/// Whether the octet is one of an atom (RFC 9051, section 9, ATOM-CHAR).
pub fn is_atom_octet(octet: u8) -> bool
    ensures { result ≡ is_atom_octet octet }
{
    let is_special = match octet {
        b'(' | b')' | b'{' | b'%' | b'*' | b'"' | b'\\' | b']' => true,
        _ => false,
    };
    octet >= 33 && octet < 127 && !is_special
}

/// Whether the octet is one of an unquoted string (RFC 9051, section 9, ASTRING-CHAR).
pub fn is_astring_octet(octet: u8) -> bool
    ensures { result ≡ is_astring_octet octet }
{
    is_atom_octet(octet) || octet == b']'
}

/// Whether all words are in lower case and they ascend strictly.
fn are_keywords(words: &[Octets]) -> bool
    ensures { result ≡ are_keywords words.now }
{
    are_lower_case(words) && are_ascending(words)
}

fn are_lower_case(words: &[Octets]) -> bool
    ensures { result ≡ list_all is_lower_case words.now }
{
    for word in words {
        if !is_lower_case(word.as_bytes()) {
            return false;
        }
    }
    true
}

fn is_lower_case(word: &[u8]) -> bool
    ensures { result ≡ is_lower_case word.now }
{
    for octet in word {
        if octet.is_ascii_uppercase() {
            return false;
        }
    }
    true
}

fn are_ascending(words: &[Octets]) -> bool
    ensures { result ≡ are_ascending words.now }
{
    let mut rest = words;
    while let [first, tail @ ..] = rest {
        if let [second, ..] = tail {
            if first.compare(second) != Ordering::Less {
                return false;
            }
        }
        rest = tail;
    }
    true
}
