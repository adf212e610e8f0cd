//! The union of the flags of several versions (RFC 9051, section 2.3.2).

ghost use Rattle.std.specs.Prelude.{◌≡◌, ◌↔◌, IsTrue, OnOk};
ghost use Rattle.std.specs.List.{fold, flat_map, list_all, list_any};
ghost use Rattle.imap_types.specs.Keywords.{with_word};
ghost use Rattle.imap_types.specs.Members.{are_within, has_word};
ghost use Rattle.imap_types.specs.Unions.{united_flags, with_flags};

use crate::flags::Flags;
use crate::keywords::Keywords;
use crate::octets::Octets;
use crate::version::Version;
use std::alloc::{AllocError, Global};

/// Adds the flags of `more` to `union`. `Err` if memory runs out for a keyword; some keywords may
/// have been added then.
pub fn add_flags(alloc: Global, union: &mut Flags, more: &Flags) -> Result<(), AllocError>
    ensures { OnOk result (union.new ≡ with_flags union.old more.now) }
{
    add_keywords(alloc, &mut union.keywords, &more.keywords)?;
    union.answered = union.answered || more.answered;
    union.flagged = union.flagged || more.flagged;
    union.deleted = union.deleted || more.deleted;
    union.seen = union.seen || more.seen;
    union.draft = union.draft || more.draft;
    Ok(())
}

/// Adds the keywords of `more` to `union`. `Err` if memory runs out; some may have been added then.
fn add_keywords(alloc: Global, union: &mut Keywords, more: &Keywords) -> Result<(), AllocError>
    ensures { OnOk result (union.new ≡ fold (λ done word. with_word word done) union.old more.now) }
{
    for word in more.as_slice() {
        union.insert(alloc, word.as_bytes())?;
    }
    Ok(())
}

/// Adds the keywords of each version to `union`. `Err` if memory runs out; some may have been added
/// then.
pub fn add_version_keywords(
    alloc: Global,
    union: &mut Keywords,
    versions: &[Version],
) -> Result<(), AllocError>
    ensures { OnOk result (union.new
        ≡ fold (λ done word. with_word word done) union.old
        (flat_map (λ version. version.flags.keywords) versions.now)) }
{
    for version in versions {
        add_keywords(alloc, union, &version.flags.keywords)?;
    }
    Ok(())
}

/// Whether `keywords` is exactly the union of the versions' keywords.
pub fn is_keyword_union(versions: &[Version], keywords: &Keywords) -> bool
    ensures { IsTrue result ↔ ((united_flags versions.now).keywords ≡ keywords.now) }
{
    let words = keywords.as_slice();
    all_are_within(versions, words) && each_is_in_a_version(versions, words)
}

/// Whether each keyword of each version is one of these words.
fn all_are_within(versions: &[Version], words: &[Octets]) -> bool
    ensures { result
        ≡ list_all (λ version. are_within version.flags.keywords words.now) versions.now }
{
    versions.iter().all(|version| are_within(version.flags.keywords.as_slice(), words))
}

/// Whether each word is a keyword of some version.
fn each_is_in_a_version(versions: &[Version], words: &[Octets]) -> bool
    ensures { result
        ≡ list_all (λ word. list_any (λ version. has_word version.flags.keywords word) versions.now)
        words.now }
{
    words.iter().all(|word| is_in_a_version(versions, word))
}

/// Whether some version has this keyword.
fn is_in_a_version(versions: &[Version], word: &Octets) -> bool
    ensures { result ≡ list_any (λ version. has_word version.flags.keywords word.now) versions.now }
{
    versions.iter().any(|version| has_word(version.flags.keywords.as_slice(), word))
}

/// Whether each of the words is one of the others.
fn are_within(words: &[Octets], others: &[Octets]) -> bool
    ensures { result ≡ are_within words.now others.now }
{
    words.iter().all(|word| has_word(others, word))
}

/// Whether the word is one of these, octet by octet.
fn has_word(words: &[Octets], word: &Octets) -> bool
    ensures { result ≡ has_word words.now word.now }
{
    words
        .iter()
        .any(|other| word.as_bytes() == other.as_bytes())
}
