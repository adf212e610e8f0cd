//! What a part contains by its type (RFC 2045, section 5.1).

ghost use Rattle.std.specs.Prelude.{◌≡◌, IfOk};
ghost use Rattle.mail_parts.specs.ContentTypes.{boundary_of, content_of_type, first_boundary};
ghost use Rattle.mail_parts.specs.ContentTypes.{is_same_word, multipart_content};

use crate::content::Content;
use imap_types::Octets;
use mail_fields::Parameter;
use mail_text::trim_end_blanks;
use std::alloc::{AllocError, Global};

/// The first boundary that isn't empty among parameters, else an empty text. `Err` if memory runs
/// out.
pub fn first_boundary(alloc: Global, parameters: &[Parameter]) -> Result<Vec<u8>, AllocError>
    ensures { IfOk result (λ boundary. boundary.items ≡ first_boundary parameters.now) }
{
    for parameter in parameters {
        let boundary = boundary_of(parameter);
        if !boundary.is_empty() {
            return boundary.to_vec(alloc);
        }
    }
    Ok(Vec::new(alloc))
}

/// The boundary that a parameter gives, without blanks at its end, if it gives one; else an empty
/// text.
fn boundary_of(parameter: &Parameter) -> &[u8]
    ensures { result.now ≡ boundary_of parameter.now }
{
    if is_same_word(b"boundary", parameter.name.as_bytes()) {
        trim_end_blanks(parameter.value.as_bytes())
    } else {
        parameter.value.as_bytes().split_at(0).0
    }
}

/// Whether two texts are the same but for the case of ASCII letters.
fn is_same_word(one: &[u8], other: &[u8]) -> bool
    ensures { result ≡ is_same_word one.now other.now }
{
    one.eq_ignore_ascii_case(other)
}

/// What a part with this type and boundary contains.
pub fn content_of_type(major: &[u8], minor: &[u8], boundary: Vec<u8>) -> Content
    ensures { result ≡ content_of_type major.now minor.now boundary.items }
{
    if is_same_word(b"multipart", major) {
        return multipart_content(minor, boundary);
    }
    if is_same_word(b"message", major) && is_same_word(b"rfc822", minor) {
        Content::Message
    } else {
        Content::Single
    }
}

/// What a multipart of this subtype contains: a text, if it has no boundary.
fn multipart_content(minor: &[u8], boundary: Vec<u8>) -> Content
    ensures { result ≡ multipart_content minor.now boundary.items }
{
    if boundary.is_empty() {
        return Content::Single;
    }
    Content::Multipart {
        boundary: Octets::new(boundary),
        is_digest: is_same_word(b"digest", minor),
    }
}
