//! Lists of words between commas, such as a Content-Language's (RFC 3282, section 2).

ghost use Rattle.std.specs.Prelude.{◌≡◌, ◌∷◌, ◌++◌, List, IfOk, OnOk};
ghost use Rattle.mail_fields.specs.WordLists.{ends_word, some_word, words_from, words_of};

use crate::address_words::push_octets;
use crate::elements::{Element, elements_of};
use imap_types::Octets;
use std::alloc::{AllocError, Global};

/// The words of a value that commas, blanks, comments or quoted strings part, each at least one
/// octet. Time is linear in the value's length. `Err` if memory runs out.
pub fn words_of(alloc: Global, value: &[u8]) -> Result<Vec<Octets>, AllocError>
    ensures { IfOk result (λ words. words.items ≡ words_of value.now) }
{
    let elements = elements_of(alloc, value)?;
    let mut words = Vec::new(alloc);
    let mut word = Vec::new(alloc);
    for element in &elements {
        read_element(alloc, element, &mut word, &mut words)?;
    }
    push_some_word(alloc, &word, &mut words)?;
    Ok(words)
}

/// Reads an element after the beginning of a word.
fn read_element(
    alloc: Global,
    element: &Element,
    word: &mut Vec<u8>,
    words: &mut Vec<Octets>,
) -> Result<(), AllocError>
    ensures { (rest : List Element) → OnOk result
        (words.new.items ++ words_from word.new.items rest
        ≡ words.old.items ++ words_from word.old.items (element.now ∷ rest)) }
{
    if ends_word(element) {
        push_some_word(alloc, word, words)?;
        word.clear();
        return Ok(());
    }
    push_octets(element, word)
}

/// Whether a word ends before an element.
fn ends_word(element: &Element) -> bool
    ensures { result ≡ ends_word element.now }
{
    match element {
        Element::Blank => true,
        Element::Comment(_) => true,
        Element::Octet(octet) => *octet == b',',
        Element::Quoted(_) => true,
    }
}

/// Appends a word, if it isn't empty.
fn push_some_word(alloc: Global, word: &[u8], words: &mut Vec<Octets>) -> Result<(), AllocError>
    ensures { OnOk result (words.new.items ≡ words.old.items ++ some_word word.now) }
{
    if word.is_empty() {
        return Ok(());
    }
    Ok(words.push(Octets::from_slice(alloc, word)?)?)
}
