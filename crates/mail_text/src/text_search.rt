//! Words in texts.

ghost use Rattle.std.specs.Prelude.{◌≡◌, IfOk};
ghost use Rattle.mail_text.specs.TextSearch.{is_prefix, occurs_in};

use bstr::ByteSlice;
use std::alloc::{AllocError, Global};

/// The longest text that is searched without a copy in lower case, by a look at each place.
const SHORT: usize = 128;

/// Whether a word occurs in a text, without regard to the case of ASCII letters; an empty word
/// occurs in any text. Time is linear in both lengths. `Err` if memory runs out for a lower-case
/// copy of either, of which a short text needs none.
pub fn contains_nocase(alloc: Global, text: &[u8], word: &[u8]) -> Result<bool, AllocError>
    ensures { IfOk result (λ is. is ≡ occurs_in word.now text.now) }
{
    if text.len() <= SHORT {
        return Ok(occurs_at_a_place(text, word));
    }
    let text = text.to_ascii_lowercase(alloc)?;
    let word = word.to_ascii_lowercase(alloc)?;
    Ok(text.as_slice().find(&word).is_some())
}

/// Does what `contains_nocase` does, by a look at each place of the text.
fn occurs_at_a_place(text: &[u8], word: &[u8]) -> bool
    ensures { result ≡ occurs_in word.now text.now }
{
    let mut rest = text;
    while let [_, tail @ ..] = rest {
        if is_prefix(word, rest) {
            return true;
        }
        rest = tail;
    }
    is_prefix(word, rest)
}

/// Whether a text begins with a word, compared without case.
fn is_prefix(word: &[u8], text: &[u8]) -> bool
    ensures { result ≡ is_prefix word.now text.now }
{
    if text.len() < word.len() {
        return false;
    }
    text[..word.len()].eq_ignore_ascii_case(word)
}
