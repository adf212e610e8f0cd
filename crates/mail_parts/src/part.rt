//! A part of a text: its kind, its level and its places.

/// What a part contains.
#[derive(Clone, Copy, Debug, PartialEq, Eq)]
pub enum PartKind {
    /// A body without parts.
    Single,
    /// A message, which is the one part below it (RFC 2046, section 5.2.1).
    Message,
    /// Parts (RFC 2046, section 5.1).
    Multipart,
    /// Parts that are too deep: to be taken as `application/octet-stream`.
    Opaque,
}

/// A part of a text. Places are numbers of octets before them in the text.
#[derive(Clone, Copy, Debug, PartialEq, Eq)]
pub struct Part {
    /// The number of parts that contain it.
    pub depth: u32,
    /// Whether it is a message if its header has no type.
    pub in_digest: bool,
    /// What it contains.
    pub kind: PartKind,
    /// Where its header begins.
    pub start: usize,
    /// Where its body begins.
    pub body: usize,
    /// Where its body ends.
    pub end: usize,
}
