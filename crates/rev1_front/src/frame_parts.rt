//! A frame's tag, the word of its command, and what follows the word.

ghost use Rattle.std.specs.Prelude.{◌≡◌, ◌↔◌, ◌++◌, List, ℕ, IfOk, IsTrue, MatchOption, None};
ghost use Rattle.std.specs.Option.{option_map};
ghost use Rattle.imap_syntax.specs.Commands.{IsSpelled};
ghost use Rattle.imap_syntax.specs.Languages.{word};
ghost use Rattle.imap_syntax.specs.Strings.{is_in};
ghost use Rattle.imap_grammar.specs.Reading.{named, span};
ghost use Rattle.imap_grammar.specs.CommandReading.{tag_at};
ghost use Rattle.rev1_front.specs.FrameForms.{front_word_text, front_words, reworded};
ghost use Rattle.imap_syntax.specs.declared.command.Tagged.{Tagged};
ghost use Rattle.imap_grammar.specs.declared.fault.ParseFault.TheVariants.{NoMemory};
ghost use Rattle.imap_syntax.specs.declared.octet_class.OctetClass.TheVariants.{Tag, Atom};

use crate::tokens::is_word;
use imap_grammar::{ParseFault, parse};
use imap_syntax::Tagged;
use imap_types::{is_astring_octet, is_atom_octet};
use std::alloc::{AllocError, Global};

/// A frame, its tag, and what follows the word of its command.
#[derive(Clone, Copy)]
pub struct FrameParts<'a> {
    pub frame: &'a [u8],
    pub tag: &'a [u8],
    pub rest: &'a [u8],
}

/// The words of the commands that the front reads itself (RFC 3501, section 6; RFC 2971).
#[derive(Clone, Copy, Debug, PartialEq, Eq)]
pub enum FrontWord {
    Check,
    Id,
    Authenticate,
    Lsub,
    Rename,
    Status,
    Search,
    Uid,
}

/// The word that equals this text, ignoring ASCII case.
pub fn find_word(text: &[u8]) -> Option<FrontWord>
    ensures { result ≡ named front_word_text front_words text.now }
{
    if is_word(text, b"CHECK") {
        return Some(FrontWord::Check);
    }
    if is_word(text, b"ID") {
        return Some(FrontWord::Id);
    }
    if is_word(text, b"AUTHENTICATE") {
        return Some(FrontWord::Authenticate);
    }
    if is_word(text, b"LSUB") {
        return Some(FrontWord::Lsub);
    }
    if is_word(text, b"RENAME") {
        return Some(FrontWord::Rename);
    }
    if is_word(text, b"STATUS") {
        return Some(FrontWord::Status);
    }
    if is_word(text, b"SEARCH") {
        return Some(FrontWord::Search);
    }
    if is_word(text, b"UID") {
        return Some(FrontWord::Uid);
    }
    None
}

/// Whether an octet may be in a tag (RFC 3501, section 9, tag).
fn is_tag_octet(octet: u8) -> bool
    ensures { result ≡ is_in Tag octet }
{
    is_astring_octet(octet) && octet != b'+'
}

/// Splits the octets after their longest prefix of octets of a tag.
fn tag_span(octets: &[u8]) -> (&[u8], &[u8])
    ensures { (result.0.now, result.1.now) ≡ span (is_in Tag) octets.now }
{
    let mut len = 0;
    for octet in octets {
        if !is_tag_octet(*octet) {
            break;
        }
        len += 1;
    }
    octets.split_at(len)
}

/// Splits the octets after their longest prefix of atom octets.
pub fn atom_span(octets: &[u8]) -> (&[u8], &[u8])
    ensures { (result.0.now, result.1.now) ≡ span (is_in Atom) octets.now }
{
    let mut len = 0;
    for octet in octets {
        if !is_atom_octet(*octet) {
            break;
        }
        len += 1;
    }
    octets.split_at(len)
}

/// Splits a frame after its tag and space; `None` if it doesn't begin with a tag and a space.
pub fn split_tag(frame: &[u8]) -> Option<(&[u8], &[u8])>
    ensures { option_map (λ x. (x.0.now, x.1.now)) result ≡ tag_at frame.now }
{
    let (tag, rest) = tag_span(frame);
    if tag.is_empty() {
        return None;
    }
    match rest {
        [] => None,
        [first, rest @ ..] => {
            if *first != b' ' {
                return None;
            }
            Some((tag, rest))
        }
    }
}

/// A frame with this tag, this word and this rest. `Err` if memory runs out.
pub fn reworded(alloc: Global, tag: &[u8], word: &[u8], rest: &[u8]) -> Result<Vec<u8>, AllocError>
    ensures { IfOk result (λ frame. frame.items ≡ reworded tag.now word.now rest.now) }
{
    let mut frame = tag.to_vec(alloc)?;
    frame.extend_from_slice(b" ")?;
    frame.extend_from_slice(word)?;
    frame.extend_from_slice(rest)?;
    Ok(frame)
}

/// The command that a frame with this tag, word and rest spells in the profile; `None` if it spells
/// none.
pub fn parse_parts(
    alloc: Global,
    tag: &[u8],
    word: &[u8],
    rest: &[u8],
) -> Result<Option<Tagged>, AllocError>
    ensures { IfOk result (λ it. MatchOption it
        ((other : Tagged) → IsSpelled other (reworded tag.now word.now rest.now) → ⊥)
        (λ tagged. IsSpelled tagged (reworded tag.now word.now rest.now))) }
{
    let frame = reworded(alloc, tag, word, rest)?;
    match parse(alloc, &frame) {
        Ok(tagged) => Ok(Some(tagged)),
        Err(why) => none_read(why),
    }
}

/// No command, because of this fault. `Err` if memory ran out.
fn none_read(why: ParseFault) -> Result<Option<Tagged>, AllocError>
    ensures { IfOk result (λ it. (it ≡ None) × (why ≡ NoMemory → ⊥)) }
{
    match why {
        ParseFault::NoMemory => Err(AllocError),
        _ => Ok(None),
    }
}

/// The octets after a word, in any letter case, with which they begin; `None` if they don't.
pub fn after_prefix<'a>(octets: &'a [u8], letters: &[u8]) -> Option<&'a [u8]>
    ensures { MatchOption result
        ((front back : List ℕ) → word letters.now front → octets.now ≡ front ++ back → ⊥)
        (λ back. (front : List ℕ) × word letters.now front × (octets.now ≡ front ++ back.now)) }
{
    if octets.len() < letters.len() {
        return None;
    }
    let (front, back) = octets.split_at(letters.len());
    if !front.eq_ignore_ascii_case(letters) {
        return None;
    }
    Some(back)
}

/// The octets before an end; `None` if they don't end so.
pub fn before_suffix<'a>(octets: &'a [u8], end: &[u8]) -> Option<&'a [u8]>
    ensures { MatchOption result
        ((front : List ℕ) → octets.now ≡ front ++ end.now → ⊥)
        (λ front. octets.now ≡ front.now ++ end.now) }
{
    octets.strip_suffix(end)
}

/// The octets after those with which they begin; `None` if they begin otherwise.
pub fn after_start<'a>(octets: &'a [u8], start: &[u8]) -> Option<&'a [u8]>
    ensures { MatchOption result
        ((rest : List ℕ) → octets.now ≡ start.now ++ rest → ⊥)
        (λ rest. octets.now ≡ start.now ++ rest.now) }
{
    octets.strip_prefix(start)
}

/// Whether both have the same octets.
pub fn is_same(octets: &[u8], other: &[u8]) -> bool
    ensures { IsTrue result ↔ (octets.now ≡ other.now) }
{
    octets == other
}
