//! Printing of bodies (RFC 3501, section 7.4.2). Each function appends a text to `out`. An `Err`,
//! if memory runs out, may leave part of it.

ghost use Rattle.std.specs.Prelude.{◌≡◌, ◌≤◌, ◌∷◌, ◌++◌, length, take, drop, IfOk, OnOk};
ghost use Rattle.body_print.specs.Bodies.{bodies_of, body_of, body_of_node, inner_header};
ghost use Rattle.body_print.specs.Bodies.{media_of, message_value, multipart_value, or_empty};
ghost use Rattle.body_print.specs.PartNodes.{nodes_of};
ghost use Rattle.body_print.specs.PartNodes.PartNode.{NodeOf};
ghost use Rattle.body_print.specs.Values.{joined_text, text_of};
ghost use Rattle.mail_parts.specs.Nesting.{parts_after, parts_below};

use crate::media::octets_between;
use crate::part_items::{
    push_empty_text, push_lines_end, push_message_start, push_multipart_end, push_single,
};
use crate::strings::push_nil;
use mail_parts::{Part, PartKind};
use std::alloc::{AllocError, Global};

/// Appends BODY of a text with these parts, as `mail_parts::cut` gives them, or BODYSTRUCTURE if
/// `extended` (RFC 3501, section 7.4.2; RFC 9051, section 7.5.2). Time is linear in the text's
/// length for each level of parts. `Err` if memory runs out; `out` may then have part of it.
pub fn push_body(
    alloc: Global,
    extended: bool,
    text: &[u8],
    parts: &[Part],
    out: &mut Vec<u8>,
) -> Result<(), AllocError>
    ensures { OnOk result (out.new.items
        ≡ out.old.items ++ text_of (body_of extended text.now parts.now)) }
{
    match parts {
        [] => push_nil(out),
        [part, inner @ ..] => push_part(alloc, extended, text, *part, inner, out),
    }
}

/// Appends the bodies of parts, each with those of the parts in it.
#[cycle(bodies)]
fn push_bodies(
    alloc: Global,
    extended: bool,
    text: &[u8],
    parts: &[Part],
    out: &mut Vec<u8>,
) -> Result<(), AllocError>
    ensures { OnOk result (out.new.items
        ≡ out.old.items ++ joined_text (bodies_of extended text.now parts.now)) }
{
    let mut rest = parts;
    for _ in 0..parts.len() {
        match rest {
            [] => return Ok(()),
            [part, tail @ ..] => {
                let count = push_first(alloc, extended, text, *part, tail, out)?;
                rest = tail.split_at(count).1;
            }
        }
    }
    Ok(())
}

/// Appends the body of a part with those in it, which the parts after it begin with, and gives
/// their number.
#[cycle(bodies)]
fn push_first(
    alloc: Global,
    extended: bool,
    text: &[u8],
    part: Part,
    tail: &[Part],
    out: &mut Vec<u8>,
) -> Result<usize, AllocError>
    ensures appended { IfOk result (λ count.
        out.new.items ++ joined_text (bodies_of extended text.now (drop count tail.now))
        ≡ out.old.items ++ joined_text (bodies_of extended text.now (part ∷ tail.now))) }
    ensures within { IfOk result (λ count. count ≤ length tail.now) }
{
    let count = count_below(part.depth, tail);
    let (inner, _) = tail.split_at(count);
    push_part(alloc, extended, text, part, inner, out)?;
    Ok(count)
}

/// Appends the body of a part with these parts in it.
#[cycle(bodies)]
fn push_part(
    alloc: Global,
    extended: bool,
    text: &[u8],
    part: Part,
    inner: &[Part],
    out: &mut Vec<u8>,
) -> Result<(), AllocError>
    ensures { OnOk result (out.new.items ≡ out.old.items ++ text_of
        (body_of_node extended text.now (NodeOf part (nodes_of inner.now)))) }
{
    let header = octets_between(part.start, part.body, text);
    let body = octets_between(part.body, part.end, text);
    match part.kind {
        PartKind::Single => push_single(alloc, extended, part, header, body, out),
        PartKind::Opaque => push_single(alloc, extended, part, header, body, out),
        PartKind::Message => { push_message(alloc, extended, text, part, header, body, inner, out) }
        PartKind::Multipart => push_multipart(alloc, extended, text, part, header, inner, out),
    }
}

/// Appends the body of a message with these parts in it.
#[cycle(bodies)]
fn push_message(
    alloc: Global,
    extended: bool,
    text: &[u8],
    part: Part,
    header: &[u8],
    body: &[u8],
    inner: &[Part],
    out: &mut Vec<u8>,
) -> Result<(), AllocError>
    ensures { OnOk result (out.new.items ≡ out.old.items ++ text_of (message_value extended
        header.now body.now (media_of part header.now)
        (inner_header text.now (nodes_of inner.now)) (bodies_of extended text.now inner.now))) }
{
    push_message_start(alloc, part, header, body, inner_header(text, inner), out)?;
    push_bodies(alloc, extended, text, inner, out)?;
    push_lines_end(alloc, extended, header, body, out)
}

/// Appends the body of a multipart with these parts in it.
#[cycle(bodies)]
fn push_multipart(
    alloc: Global,
    extended: bool,
    text: &[u8],
    part: Part,
    header: &[u8],
    inner: &[Part],
    out: &mut Vec<u8>,
) -> Result<(), AllocError>
    ensures { OnOk result (out.new.items ≡ out.old.items ++ text_of (multipart_value extended
        header.now (media_of part header.now) (bodies_of extended text.now inner.now))) }
{
    out.extend_from_slice(b"(")?;
    push_bodies_or_empty(alloc, extended, text, inner, out)?;
    push_multipart_end(alloc, extended, part, header, out)
}

/// Appends the bodies of a multipart's parts, or an empty text if it has none.
#[cycle(bodies)]
fn push_bodies_or_empty(
    alloc: Global,
    extended: bool,
    text: &[u8],
    inner: &[Part],
    out: &mut Vec<u8>,
) -> Result<(), AllocError>
    ensures { OnOk result (out.new.items ≡ out.old.items
        ++ joined_text (or_empty extended (bodies_of extended text.now inner.now))) }
{
    match inner {
        [] => push_empty_text(alloc, extended, out),
        [_, ..] => push_bodies(alloc, extended, text, inner, out),
    }
}

/// The header of the first part, or no octets if there is none.
fn inner_header<'a>(text: &'a [u8], parts: &[Part]) -> &'a [u8]
    ensures { result.now ≡ inner_header text.now (nodes_of parts.now) }
{
    match parts {
        [] => octets_between(0, 0, text),
        [part, ..] => octets_between(part.start, part.body, text),
    }
}

/// The number of parts at the beginning that are deeper than this.
fn count_below(depth: u32, parts: &[Part]) -> usize
    ensures below { take result parts.now ≡ parts_below depth parts.now }
    ensures after { drop result parts.now ≡ parts_after depth parts.now }
    ensures within { result ≤ length parts.now }
{
    for count in 0..parts.len() {
        if parts[count].depth <= depth {
            return count;
        }
    }
    parts.len()
}
