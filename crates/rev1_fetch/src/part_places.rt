//! The parts that have numbers (RFC 3501, section 6.4.5), and the octets of parts.

ghost use Rattle.std.specs.Prelude.{◌≡◌, ◌∷◌, true, false};
ghost use Rattle.std.specs.Option.{option_map};
ghost use Rattle.rev1_fetch.specs.PartPlaces.{child_at, numbered, numbered_by, only_part, part_at};
ghost use Rattle.rev1_fetch.specs.PartPlaces.{part_of_message, part_of_multipart, region_of};

use mail_parts::{Part, PartKind};

/// The part with this number, and those that begin after it; `None` if there is none. A number
/// below a message's counts the parts of that message, or is 1 if it is no multipart.
pub fn part_at<'a>(parts: &'a [Part], path: &[u32]) -> Option<&'a [Part]>
    ensures { option_map (λ found. found.now) result ≡ part_at path.now parts.now }
{
    let mut found = parts;
    let mut is_first = true;
    for number in path {
        match numbered(is_first, *number, found) {
            None => return None,
            Some(next) => found = next,
        }
        is_first = false;
    }
    Some(found)
}

/// The part with this number below the first of these.
fn numbered(is_first: bool, n: u32, parts: &[Part]) -> Option<&[Part]>
    ensures { option_map (λ found. found.now) result ≡ numbered is_first n parts.now }
{
    match parts {
        [] => None,
        [part, inner @ ..] => numbered_by(part.kind, is_first, part.depth, n, parts, inner),
    }
}

/// The part with this number below one of this kind and level.
fn numbered_by<'a>(
    kind: PartKind,
    is_first: bool,
    depth: u32,
    n: u32,
    parts: &'a [Part],
    inner: &'a [Part],
) -> Option<&'a [Part]>
    ensures { option_map (λ found. found.now) result
        ≡ numbered_by kind is_first depth n parts.now inner.now }
{
    match kind {
        PartKind::Multipart => child_at(depth, n, inner),
        PartKind::Message => {
            if is_first {
                only_part(n, parts)
            } else {
                part_of_message(depth, n, inner)
            }
        }
        PartKind::Single | PartKind::Opaque => { if is_first { only_part(n, parts) } else { None } }
    }
}

/// The part with this number below a message that is itself a part.
fn part_of_message(depth: u32, n: u32, inner: &[Part]) -> Option<&[Part]>
    ensures { option_map (λ found. found.now) result
        ≡ part_of_message n (child_at depth 1 inner.now) }
{
    match child_at(depth, 1, inner) {
        None => None,
        Some(message) => part_of_multipart(n, message),
    }
}

/// The part with this number below the first of these, if it is a multipart; else it is 1.
fn part_of_multipart(n: u32, parts: &[Part]) -> Option<&[Part]>
    ensures { option_map (λ found. found.now) result ≡ part_of_message n (Some parts.now) }
{
    match parts {
        [] => None,
        [part, inner @ ..] => match part.kind {
            PartKind::Multipart => child_at(part.depth, n, inner),
            PartKind::Message | PartKind::Single | PartKind::Opaque => only_part(n, parts),
        },
    }
}

/// A part that is no multipart: its number is 1.
fn only_part(n: u32, parts: &[Part]) -> Option<&[Part]>
    ensures { option_map (λ found. found.now) result ≡ only_part n parts.now }
{
    if n == 1 { Some(parts) } else { None }
}

/// The n-th of the parts of one at this level, and those after it; these are the parts after that
/// one.
pub fn child_at(depth: u32, n: u32, parts: &[Part]) -> Option<&[Part]>
    ensures { option_map (λ found. found.now) result ≡ child_at depth n parts.now }
{
    let mut rest = parts;
    let mut left = n;
    while let [part, tail @ ..] = rest {
        if part.depth <= depth {
            return None;
        }
        if part.depth - 1 == depth {
            if left <= 1 {
                return Some(rest);
            }
            left -= 1;
        }
        rest = tail;
    }
    None
}

/// The octets between two places.
pub fn region_of(text: &[u8], start: usize, end: usize) -> Option<&[u8]>
    ensures { option_map (λ found. found.now) result ≡ region_of text.now start end }
{
    if start <= end && end <= text.len() {
        Some(&text[start..end])
    } else {
        None
    }
}
