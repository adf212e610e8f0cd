//! Items of FETCH that are made of the whole text of a message.

ghost use Rattle.std.specs.Prelude.{◌≡◌};

use imap_syntax::Partial;
use imap_types::Section;
use std::marker::Model;

/// An item that is made of the whole text.
#[derive(Drop)]
pub enum TextItem {
    /// An item without brackets.
    Word(TextWord),
    /// A section, of a part or of the whole message.
    Section(PartSection),
}

/// The words of items without brackets.
#[derive(Clone, Copy, Debug, PartialEq, Eq)]
pub enum TextWord {
    /// ENVELOPE.
    Envelope,
    /// BODY.
    Body,
    /// BODYSTRUCTURE: BODY with its extensions.
    BodyStructure,
    /// RFC822 and RFC822.PEEK, which BODY[] is since.
    Rfc822,
    /// RFC822.HEADER, which BODY.PEEK[HEADER] is since.
    Rfc822Header,
    /// RFC822.TEXT and RFC822.TEXT.PEEK, which BODY[TEXT] is since.
    Rfc822Text,
}

/// A section of a part (RFC 3501, section 6.4.5).
#[derive(Drop)]
pub struct PartSection {
    /// The part's number; empty for the whole message.
    pub path: PartPath,
    /// Whether the part's own header is asked for.
    pub is_mime: bool,
    /// The section otherwise.
    pub section: Section,
    pub partial: Option<Partial>,
}

/// The number of a part: its number among the parts of a message or of another part, after that
/// one's (RFC 3501, section 6.4.5). Contracts see it as a list.
#[derive(Drop)]
pub struct PartPath {
    numbers: Vec<u32>,
}

impl Model for PartPath {
    ghost use Rattle.std.specs.Prelude.{ℕ, List};

    ghost Value = { List ℕ };

    ghost view = { λ p. p.numbers.items };
}

impl PartPath {
    /// The number of these numbers, in the vector's memory.
    pub fn new(numbers: Vec<u32>) -> PartPath
        ensures { result ≡ numbers.items }
    {
        PartPath { numbers }
    }

    /// The numbers.
    pub fn numbers(&self) -> &[u32]
        ensures { result.now ≡ self.now }
    {
        &self.numbers
    }
}
