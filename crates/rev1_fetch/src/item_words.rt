//! Words of items.

ghost use Rattle.std.specs.Prelude.{◌≡◌, Some};
ghost use Rattle.rev1_fetch.specs.FetchWords.{is_macro, is_plain, is_word, macro_items, word_item};
ghost use Rattle.rev1_fetch.specs.FetchWords.{worded};

use crate::text_item::TextWord;

/// Whether an item is this word, in any letter case.
fn is_word(item: &[u8], word: &[u8]) -> bool
    ensures { result ≡ is_word word.now item.now }
{
    item.eq_ignore_ascii_case(word)
}

/// Whether an item is ALL or FULL (RFC 3501, section 6.4.5).
pub fn is_macro(item: &[u8]) -> bool
    ensures { result ≡ is_macro item.now }
{
    is_word(item, b"ALL") || is_word(item, b"FULL")
}

/// The items that ALL or FULL means.
pub fn macro_items(item: &[u8]) -> &'static [u8]
    ensures { result.now ≡ macro_items item.now }
{
    if is_word(item, b"ALL") {
        b"FLAGS INTERNALDATE RFC822.SIZE ENVELOPE"
    } else {
        b"FLAGS INTERNALDATE RFC822.SIZE ENVELOPE BODY"
    }
}

/// Whether the profile has this item, and it has no brackets.
pub fn is_plain(item: &[u8]) -> bool
    ensures { result ≡ is_plain item.now }
{
    is_word(item, b"FLAGS")
        || is_word(item, b"INTERNALDATE")
        || is_word(item, b"MODSEQ")
        || is_word(item, b"RFC822.SIZE")
        || is_word(item, b"UID")
}

/// An item without brackets that the profile hasn't, and whether it sets `\Seen`.
#[derive(Clone, Copy, Debug, PartialEq, Eq)]
pub struct WordItem {
    pub word: TextWord,
    pub sets_seen: bool,
}

/// The item without brackets that a text names, if any.
pub fn word_item(item: &[u8]) -> Option<WordItem>
    ensures { result ≡ word_item item.now }
{
    if is_word(item, b"ENVELOPE") {
        return worded(TextWord::Envelope, false);
    }
    if is_word(item, b"BODY") {
        return worded(TextWord::Body, false);
    }
    if is_word(item, b"BODYSTRUCTURE") {
        return worded(TextWord::BodyStructure, false);
    }
    if is_word(item, b"RFC822") {
        return worded(TextWord::Rfc822, true);
    }
    if is_word(item, b"RFC822.PEEK") {
        return worded(TextWord::Rfc822, false);
    }
    if is_word(item, b"RFC822.HEADER") {
        return worded(TextWord::Rfc822Header, false);
    }
    if is_word(item, b"RFC822.TEXT") {
        return worded(TextWord::Rfc822Text, true);
    }
    if is_word(item, b"RFC822.TEXT.PEEK") {
        return worded(TextWord::Rfc822Text, false);
    }
    None
}

fn worded(word: TextWord, sets_seen: bool) -> Option<WordItem>
    ensures { result ≡ Some (worded word sets_seen) }
{
    Some(WordItem { word, sets_seen })
}
