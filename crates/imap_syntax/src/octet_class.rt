//! Classes of octets.

/// The classes of octets that stand for themselves in commands (RFC 9051, section 9).
#[derive(Clone, Copy)]
pub enum OctetClass {
    Tag,
    Atom,
    Astring,
    Pattern,
    Digit,
    /// The octets of an item's word: atom octets other than `[`, which ends the word.
    Item,
}
