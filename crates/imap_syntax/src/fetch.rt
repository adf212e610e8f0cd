//! Items of FETCH.

use imap_types::Section;

/// An item of FETCH (RFC 9051, section 6.4.5).
pub enum FetchItem {
    Flags,
    InternalDate,
    /// RFC822.SIZE: the number of octets of the whole text.
    Size,
    Uid,
    /// RFC 7162, section 3.1.4.2.
    ModSeq,
    /// A section of the text; with `peek`, FETCH doesn't set `\Seen`.
    Body {
        peek: bool,
        section: Section,
        partial: Option<Partial>,
    },
}

// By hand, so that crates above drop it whole.
impl Drop for FetchItem {
    fn drop(self) {
        match self {
            Self::Flags => {}
            Self::InternalDate => {}
            Self::Size => {}
            Self::Uid => {}
            Self::ModSeq => {}
            Self::Body {
                peek: _,
                section: _,
                partial: _,
            } => {}
        }
    }
}

/// At most `count` octets of a section, at least 1, from its octet `start`, counted from 0 (RFC
/// 9051, section 6.4.5, partial).
#[derive(Clone, Copy, Debug, PartialEq, Eq)]
pub struct Partial {
    pub start: u32,
    pub count: u32,
}

/// The word of an item (RFC 9051, section 9, fetch-att).
#[derive(Clone, Copy)]
pub enum FetchWord {
    Flags,
    InternalDate,
    Size,
    Uid,
    ModSeq,
    Body,
    BodyPeek,
}

/// The word of a section (RFC 9051, section 9, section-msgtext).
#[derive(Clone, Copy)]
pub enum SectionWord {
    Header,
    Text,
    Fields,
    FieldsNot,
}
