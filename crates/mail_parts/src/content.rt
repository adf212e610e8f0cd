//! What a part contains, by its header.

ghost use Rattle.std.specs.Prelude.{◌≡◌, IfOk};
ghost use Rattle.mail_parts.specs.ContentTypes.{content_of, untyped_content};
ghost use Rattle.mail_parts.specs.Cuttings.{content_within};

use crate::content_type::{content_of_type, first_boundary};
use crate::part::PartKind;
use imap_types::Octets;
use mail_fields::media_type;
use mail_text::field_value;
use std::alloc::{AllocError, Global};

/// What a part contains by the type in its header.
#[derive(Drop)]
pub enum Content {
    /// A body without parts.
    Single,
    /// A message.
    Message,
    /// Parts between delimiter lines with this boundary.
    Multipart {
        /// The boundary, at least one octet.
        boundary: Octets,
        /// Whether its parts are messages if they have no type.
        is_digest: bool,
    },
    /// Parts that are too deep.
    Opaque,
}

impl Content {
    ghost use Rattle.mail_parts.specs.Entries.{kind_of};

    /// The kind of a part with this content.
    pub fn kind(&self) -> PartKind
        ensures { result ≡ kind_of self.now }
    {
        match self {
            Content::Single => PartKind::Single,
            Content::Message => PartKind::Message,
            Content::Multipart { .. } => PartKind::Multipart,
            Content::Opaque => PartKind::Opaque,
        }
    }
}

/// The deepest level. Its parts have no parts.
pub const LAST_DEPTH: u32 = 99;

/// What a part of this level contains by its header. `Err` if memory runs out.
pub fn content_at(
    alloc: Global,
    depth: u32,
    in_digest: bool,
    header: &[u8],
) -> Result<Content, AllocError>
    ensures { IfOk result (λ content. content
        ≡ content_within depth (content_of in_digest header.now)) }
{
    Ok(limited_content(depth, content_of(alloc, in_digest, header)?))
}

/// What a part of this level contains.
fn limited_content(depth: u32, content: Content) -> Content
    ensures { result ≡ content_within depth content }
{
    if depth < LAST_DEPTH {
        return content;
    }
    match content {
        Content::Single => Content::Single,
        Content::Message => Content::Opaque,
        Content::Multipart { .. } => Content::Opaque,
        Content::Opaque => Content::Opaque,
    }
}

/// What a part contains by the first Content-Type field of its header. `Err` if memory runs out.
#[tactic(auto, unfolding(crate::specs::ContentTypes::content_of))]
fn content_of(alloc: Global, in_digest: bool, header: &[u8]) -> Result<Content, AllocError>
    ensures { IfOk result (λ content. content ≡ content_of in_digest header.now) }
{
    let Some(value) = field_value(header, b"Content-Type") else {
        return Ok(untyped_content(in_digest));
    };
    let Some(media) = media_type(alloc, value)? else {
        return Ok(untyped_content(in_digest));
    };
    let boundary = first_boundary(alloc, &media.parameters)?;
    Ok(content_of_type(media.major.as_bytes(), media.minor.as_bytes(), boundary))
}

/// What a part without a type contains: a text, and in a digest a message.
pub fn untyped_content(in_digest: bool) -> Content
    ensures { result ≡ untyped_content in_digest }
{
    if in_digest {
        Content::Message
    } else {
        Content::Single
    }
}
