//! The type of a part, and the octets of its header and body.

ghost use Rattle.std.specs.Prelude.{◌≡◌, codes, IfOk};
ghost use Rattle.body_print.specs.Bodies.{is_text, line_count, media_in, media_of, media_or};
ghost use Rattle.body_print.specs.Bodies.{octets_between, opaque_media, plain_media};
ghost use Rattle.body_print.specs.Bodies.{plain_text, single_media};
ghost use Rattle.mail_text.specs.TextSearch.{field_value};

use crate::parameters::is_same_word;
use imap_types::Octets;
use mail_fields::{MediaType, media_type};
use mail_parts::{Part, PartKind};
use mail_text::field_value;
use std::alloc::{AllocError, Global};

/// The octets between two places of a text.
pub fn octets_between(start: usize, end: usize, text: &[u8]) -> &[u8]
    ensures { result.now ≡ octets_between start end text.now }
{
    let (_, rest) = text.split_at(start.min(text.len()));
    rest.split_at(end.saturating_sub(start).min(rest.len())).0
}

/// The number of CRLFs.
pub fn line_count(octets: &[u8]) -> usize
    ensures { result ≡ line_count octets.now }
{
    let mut count = 0;
    let mut after_cr = false;
    for octet in octets {
        if after_cr && *octet == b'\n' {
            count += 1;
        }
        after_cr = *octet == b'\r';
    }
    count
}

/// The type of a part with this header. `Err` if memory runs out.
pub fn media_of(alloc: Global, part: Part, header: &[u8]) -> Result<MediaType, AllocError>
    ensures { IfOk result (λ media. ((media.major, media.minor), media.parameters.items)
        ≡ media_of part header.now) }
{
    match part.kind {
        PartKind::Single => single_media(alloc, header),
        PartKind::Message => media_or(alloc, header, b"message", b"rfc822"),
        PartKind::Multipart => media_or(alloc, header, b"multipart", b"mixed"),
        PartKind::Opaque => opaque_media(alloc, header),
    }
}

/// The type in a header, or this one if there is none.
fn media_or(
    alloc: Global,
    header: &[u8],
    major: &[u8],
    minor: &[u8],
) -> Result<MediaType, AllocError>
    ensures { IfOk result (λ media. ((media.major, media.minor), media.parameters.items)
        ≡ media_or (plain_media major.now minor.now)
        (media_in (field_value (codes "Content-Type") header.now))) }
{
    let Some(value) = field_value(header, b"Content-Type") else {
        return plain_media(alloc, major, minor);
    };
    match media_type(alloc, value)? {
        None => plain_media(alloc, major, minor),
        Some(media) => Ok(media),
    }
}

/// A type without parameters.
fn plain_media(alloc: Global, major: &[u8], minor: &[u8]) -> Result<MediaType, AllocError>
    ensures { IfOk result (λ media. ((media.major, media.minor), media.parameters.items)
        ≡ plain_media major.now minor.now) }
{
    let major = Octets::from_slice(alloc, major)?;
    let minor = Octets::from_slice(alloc, minor)?;
    Ok(MediaType {
        major,
        minor,
        parameters: Vec::new(alloc),
    })
}

/// The type of a text without a type. `Err` if memory runs out.
pub fn plain_text(alloc: Global) -> Result<MediaType, AllocError>
    ensures { IfOk result (λ media. ((media.major, media.minor), media.parameters.items)
        ≡ plain_text) }
{
    plain_media(alloc, b"text", b"plain")
}

/// Whether a type is a text's.
pub fn is_text(media: &MediaType) -> bool
    ensures { result
        ≡ is_text ((media.now.major, media.now.minor), media.now.parameters.items) }
{
    is_same_word(b"text", media.major.as_bytes())
}

/// The type of a part without parts.
fn single_media(alloc: Global, header: &[u8]) -> Result<MediaType, AllocError>
    ensures { IfOk result (λ media. ((media.major, media.minor), media.parameters.items)
        ≡ single_media (media_or plain_text
        (media_in (field_value (codes "Content-Type") header.now)))) }
{
    let media = media_or(alloc, header, b"text", b"plain")?;
    if is_same_word(b"multipart", media.major.as_bytes()) {
        return plain_text(alloc);
    }
    Ok(media)
}

/// The type of a part that is too deep.
fn opaque_media(alloc: Global, header: &[u8]) -> Result<MediaType, AllocError>
    ensures { IfOk result (λ media. ((media.major, media.minor), media.parameters.items)
        ≡ opaque_media (media_or plain_text
        (media_in (field_value (codes "Content-Type") header.now)))) }
{
    let media = media_or(alloc, header, b"text", b"plain")?;
    let major = Octets::from_slice(alloc, b"application")?;
    let minor = Octets::from_slice(alloc, b"octet-stream")?;
    Ok(MediaType {
        major,
        minor,
        parameters: media.parameters,
    })
}
