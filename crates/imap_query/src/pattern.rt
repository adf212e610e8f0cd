//! Patterns of LIST: the wildcards `*` and `%` (RFC 9051, section 6.3.9).

ghost use Rattle.std.specs.Prelude.{◌≡◌, ◌&&◌, ◌↔◌, IfOk, IsTrue, OnOk, length, map, not};
ghost use Rattle.std.specs.List.{list_all};
ghost use Rattle.std.specs.Char.{to_ascii_uppercase};
ghost use Rattle.imap_query.specs.Patterns.{IsPatternMatch};
ghost use Rattle.imap_query.specs.PatternRows.{answer_after, cell, cells, is_match, is_shown};
ghost use Rattle.imap_query.specs.PatternRows.{is_unset, is_wildcard, last_of, may_hold};
ghost use Rattle.imap_query.specs.PatternForms.{IsPatternAppended, ArePatternForms, MatchSameNames};
ghost use Rattle.imap_query.specs.PatternForms.{ends_with_wildcard};

use imap_types::Name;
use std::alloc::{AllocError, Global};
use std::marker::Model;

/// Whether a pattern matches a name, octet by octet: `*` matches any octets, `%` any but `/`
/// (RFC 9051, section 6.3.9). Time is at most linear in the product of both lengths, memory in the
/// name's length. `Err` if memory runs out.
pub fn matches(alloc: Global, pattern: &[u8], name: &[u8]) -> Result<bool, AllocError>
    ensures { IfOk result (λ yes. IsTrue yes ↔ IsPatternMatch pattern.now name.now) }
{
    is_match(alloc, pattern, name)
}

/// A pattern prepared for many names: neighbouring wildcards are merged. Contracts see it as
/// written.
#[derive(Drop)]
pub(crate) struct Pattern {
    written: Vec<u8>,
    /// The pattern with its wildcards merged: it matches the same names.
    plain: Vec<u8>,
    /// The pattern in capitals, with its wildcards merged.
    capitals: Vec<u8>,
}

impl Model for Pattern {
    ghost use Rattle.std.specs.Prelude.{ℕ, List};
    ghost use Rattle.imap_query.specs.PatternForms.{ArePatternForms};

    ghost Value = { List ℕ };

    ghost view = { λ p. p.written.items };

    ghost invariant = { λ p. ArePatternForms p.written.items p.plain.items p.capitals.items };
}

impl Pattern {
    ghost use Rattle.std.specs.Prelude.{◌≡◌, IfOk};

    /// Prepares a pattern; `Err` if memory runs out.
    pub(crate) fn new(alloc: Global, pattern: &[u8]) -> Result<Pattern, AllocError>
        ensures { IfOk result (λ made. made ≡ pattern.now) }
    {
        let written = pattern.to_vec(alloc)?;
        let plain = simpler(alloc, pattern)?;
        let capitals = in_capitals(alloc, pattern)?;
        Ok(Pattern {
            written,
            plain,
            capitals,
        })
    }

    /// The pattern as written.
    pub(crate) fn written(&self) -> &[u8]
        ensures { result.now ≡ self.now }
    {
        &self.written
    }
}

/// Whether a pattern matches a name, INBOX in any letter case. Each octet of the pattern that is no
/// wildcard uses up one of the name's, and reading ends when none is left, so time is at most
/// quadratic in the name's length. `Err` if memory runs out.
pub(crate) fn is_shown(alloc: Global, pattern: &Pattern, name: &Name) -> Result<bool, AllocError>
    ensures { IfOk result (λ yes. yes ≡ is_shown pattern.now name.now) }
{
    if !name.is_inbox() {
        return is_match(alloc, &pattern.plain, name.as_bytes());
    }
    is_match(alloc, &pattern.capitals, b"INBOX")
}

/// A pattern that matches the same names as this one in capitals, without neighbouring wildcards.
fn in_capitals(alloc: Global, pattern: &[u8]) -> Result<Vec<u8>, AllocError>
    ensures { IfOk result (λ made. MatchSameNames (map to_ascii_uppercase pattern.now) made.items) }
{
    let mut capitals = pattern.to_vec(alloc)?;
    capitals.make_ascii_uppercase();
    simpler(alloc, &capitals)
}

/// A pattern that matches the same names and has no neighbouring wildcards.
fn simpler(alloc: Global, pattern: &[u8]) -> Result<Vec<u8>, AllocError>
    ensures { IfOk result (λ made. MatchSameNames pattern.now made.items) }
{
    let mut made = Vec::new(alloc);
    for octet in pattern {
        add(&mut made, *octet)?;
    }
    Ok(made)
}

/// Adds an octet: `*` replaces a wildcard before it, and `%` is left out after one.
fn add(made: &mut Vec<u8>, octet: u8) -> Result<(), AllocError>
    ensures { OnOk result (IsPatternAppended octet made.old.items made.new.items) }
{
    if !are_wildcards(made, octet) {
        made.push(octet)?;
        return Ok(());
    }
    if octet == b'*' {
        let last = made.len() - 1;
        made[last] = b'*';
    }
    Ok(())
}

/// Whether this octet and the pattern's last octet are both wildcards.
fn are_wildcards(made: &[u8], octet: u8) -> bool
    ensures { result ≡ (ends_with_wildcard made.now && is_wildcard octet) }
{
    ends_with_wildcard(made) && is_wildcard(octet)
}

fn ends_with_wildcard(made: &[u8]) -> bool
    ensures { result ≡ ends_with_wildcard made.now }
{
    match made {
        [] => false,
        [.., last] => is_wildcard(*last),
    }
}

/// Reads the pattern once, and notes for each prefix of the name whether the part read matches it:
/// `first` for the empty prefix, `row` for the longer ones. Once it matches none, reading stops.
fn is_match(alloc: Global, pattern: &[u8], name: &[u8]) -> Result<bool, AllocError>
    ensures { IfOk result (λ yes. yes ≡ is_match pattern.now name.now) }
{
    let mut first = true;
    let mut row = vec![in alloc; false; name.len()]?;
    for octet in pattern {
        if is_unset(first, &row) {
            return Ok(false);
        }
        advance(*octet, first, &mut row, name);
        first = is_wildcard(*octet) && first;
    }
    Ok(last_of(first, &row))
}

/// Whether the part read matches no prefix.
fn is_unset(first: bool, row: &[bool]) -> bool
    ensures { result ≡ is_unset first row.now }
{
    !first && are_unset(row)
}

fn are_unset(row: &[bool]) -> bool
    ensures { result ≡ list_all not row.now }
{
    for here in row {
        if *here {
            return false;
        }
    }
    true
}

/// Turns the answers for the part of the pattern read so far into those with one more octet.
fn advance(octet: u8, first: bool, row: &mut [bool], name: &[u8])
    requires { length row.old ≡ length name.now }
    ensures { row.new ≡ cells octet first (is_wildcard octet && first) row.old name.now }
{
    let mut before = first;
    let mut made = is_wildcard(octet) && first;
    for at in 0..row.len() {
        let here = row[at];
        made = cell(octet, name[at], before, made, here);
        row[at] = made;
        before = here;
    }
}

/// Whether the pattern with one more octet matches the name with one more octet: `before` is the
/// answer without both added octets, `made` the one without the name's, `here` the one without the
/// pattern's.
fn cell(octet: u8, letter: u8, before: bool, made: bool, here: bool) -> bool
    ensures { result ≡ cell octet letter before made here }
{
    if is_wildcard(octet) {
        here || (made && may_hold(octet, letter))
    } else {
        before && letter == octet
    }
}

fn is_wildcard(octet: u8) -> bool
    ensures { result ≡ is_wildcard octet }
{
    octet == b'*' || octet == b'%'
}

fn may_hold(wildcard: u8, octet: u8) -> bool
    ensures { result ≡ may_hold wildcard octet }
{
    wildcard == b'*' || octet != b'/'
}

fn last_of(first: bool, row: &[bool]) -> bool
    ensures { result ≡ last_of first row.now }
{
    match row {
        [] => first,
        [.., last] => *last,
    }
}
