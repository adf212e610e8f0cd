//! STATUS with RECENT (RFC 3501, section 6.3.10).

ghost use Rattle.std.specs.Prelude.{◌≡◌, ◌++◌, ◌∷◌, [], IfOk, MatchOption, OnOk, Bool, List, ℕ};
ghost use Rattle.std.specs.Prelude.{false, codes, if◌then◌else◌};
ghost use Rattle.rev1_front.specs.StatusForms.{AreOthers, HasRecent, has_parenthesis, with_items};
ghost use Rattle.rev1_front.specs.StatusForms.{words_of};

use crate::frame_parts::before_suffix;
use crate::tokens::is_word;
use std::alloc::{AllocError, Global};

/// The arguments of STATUS without RECENT.
#[derive(Drop)]
pub struct OtherItems {
    /// What follows the word of the command: the other items, or MESSAGES if there are none.
    pub rest: Vec<u8>,
    /// Whether there are no other items.
    pub only_recent: bool,
}

/// The words of a text but RECENT.
#[derive(Drop)]
struct OtherWords {
    /// These words, with a space between them.
    text: Vec<u8>,
    /// Whether RECENT is among the words.
    has_recent: bool,
    /// Whether there are no others.
    is_empty: bool,
}

/// The arguments of STATUS, after its word, without RECENT; `None` if RECENT isn't among the items
/// between the last parenthesis and the end. `Err` if memory runs out.
pub fn without_recent(alloc: Global, rest: &[u8]) -> Result<Option<OtherItems>, AllocError>
    ensures { IfOk result (λ others. MatchOption others
        ((inner : List ℕ) (only_recent : Bool) → HasRecent rest.now inner only_recent → ⊥)
        (λ o. HasRecent rest.now o.rest.items o.only_recent)) }
{
    match split_items(rest) {
        None => Ok(None),
        Some((front, items)) => without_recent_item(alloc, front, items),
    }
}

/// The arguments with these items but RECENT; `None` if RECENT isn't one. `Err` if memory runs out.
fn without_recent_item(
    alloc: Global,
    front: &[u8],
    items: &[u8],
) -> Result<Option<OtherItems>, AllocError>
    requires { has_parenthesis items.now ≡ false }
    ensures { IfOk result (λ others. MatchOption others
        ((inner : List ℕ) (only_recent : Bool)
        → HasRecent (with_items front.now items.now) inner only_recent → ⊥)
        (λ o. HasRecent (with_items front.now items.now) o.rest.items o.only_recent)) }
{
    let others = other_words(alloc, items)?;
    if !others.has_recent {
        return Ok(None);
    }
    let rest = with_others(alloc, front, &others)?;
    Ok(Some(OtherItems {
        rest,
        only_recent: others.is_empty,
    }))
}

/// The arguments before the last `(`, and the text between it and `)` and CRLF at the end; `None`
/// if they have no such form.
fn split_items(rest: &[u8]) -> Option<(&[u8], &[u8])>
    ensures { MatchOption result
        ((front items : List ℕ) → rest.now ≡ with_items front items
        → has_parenthesis items ≡ false → ⊥)
        (λ x. (rest.now ≡ with_items x.0.now x.1.now) × (has_parenthesis x.1.now ≡ false)) }
{
    match before_suffix(rest, b")\r\n") {
        None => None,
        Some(text) => cut_at_last_parenthesis(text),
    }
}

/// The octets before the last `(` and those after it; `None` if there is none.
fn cut_at_last_parenthesis(text: &[u8]) -> Option<(&[u8], &[u8])>
    ensures { MatchOption result (has_parenthesis text.now ≡ false)
        (λ x. (text.now ≡ x.0.now ++ 40 ∷ x.1.now) × (has_parenthesis x.1.now ≡ false)) }
{
    for past in 0..text.len() {
        let place = text.len() - 1 - past;
        if text[place] == b'(' {
            return Some((&text[..place], &text[place + 1..]));
        }
    }
    None
}

/// The words of a text but RECENT. `Err` if memory runs out.
fn other_words(alloc: Global, text: &[u8]) -> Result<OtherWords, AllocError>
    ensures { IfOk result
        (λ o. AreOthers (words_of text.now) o.text.items o.has_recent o.is_empty) }
{
    let mut others = OtherWords {
        text: Vec::new(alloc),
        has_recent: false,
        is_empty: true,
    };
    let mut start = 0;
    for end in 0..text.len() {
        if text[end] != b' ' {
            continue;
        }
        push_word(&text[start..end], &mut others)?;
        start = end + 1;
    }
    push_word(&text[start..], &mut others)?;
    Ok(others)
}

/// Adds a word, unless it is RECENT. `Err` if memory runs out.
fn push_word(word: &[u8], others: &mut OtherWords) -> Result<(), AllocError>
    ensures { OnOk result ((words : List (List ℕ))
        → AreOthers words others.old.text.items others.old.has_recent others.old.is_empty
        → AreOthers (words ++ word.now ∷ [])
        others.new.text.items others.new.has_recent others.new.is_empty) }
{
    if is_word(word, b"RECENT") {
        others.has_recent = true;
        return Ok(());
    }
    push_separator(others.is_empty, &mut others.text)?;
    others.text.extend_from_slice(word)?;
    others.is_empty = false;
    Ok(())
}

/// Adds a space, unless there are no words yet. `Err` if memory runs out.
fn push_separator(is_empty: bool, text: &mut Vec<u8>) -> Result<(), AllocError>
    ensures { OnOk result
        (text.new.items ≡ text.old.items ++ (if is_empty then [] else 32 ∷ [])) }
{
    if is_empty {
        Ok(())
    } else {
        text.extend_from_slice(b" ")
    }
}

/// Arguments of STATUS with these words, or with MESSAGES if there are none. `Err` if memory runs
/// out.
fn with_others(alloc: Global, front: &[u8], others: &OtherWords) -> Result<Vec<u8>, AllocError>
    ensures { IfOk result (λ rest. rest.items ≡ with_items front.now
        (if others.now.is_empty then codes "MESSAGES" else others.now.text.items)) }
{
    let mut rest = front.to_vec(alloc)?;
    rest.extend_from_slice(b"(")?;
    rest.extend_from_slice(asked_text(others))?;
    rest.extend_from_slice(b")\r\n")?;
    Ok(rest)
}

/// The words, or MESSAGES if there are none.
fn asked_text(others: &OtherWords) -> &[u8]
    ensures { result.now
        ≡ (if others.now.is_empty then codes "MESSAGES" else others.now.text.items) }
{
    if others.is_empty {
        b"MESSAGES"
    } else {
        &others.text
    }
}
