//! The parts of a text, read from its beginning to its end.

ghost use Rattle.std.specs.Prelude.{◌≡◌, ◌+◌, ◌-◌, ◌^◌, ◌<◌, ◌≤◌, ◌++◌, ◌∷◌, ℕ};
ghost use Rattle.std.specs.Prelude.{List, length, true, false, if◌then◌else◌, IfOk, OnOk};
ghost use Rattle.mail_text.specs.TextLines.{lines_of};
ghost use Rattle.mail_parts.specs.Compositions.{BeginsWithWhole};
ghost use Rattle.mail_parts.specs.Delimiters.{IsEnd};
ghost use Rattle.mail_parts.specs.Entries.{AreEntries};
ghost use Rattle.mail_parts.specs.Cuttings.{begins_part};
ghost use Rattle.mail_parts.specs.Nesting.{AreNested, EachPart, HasPlaces};
ghost use Rattle.mail_parts.specs.Reading.{AreTreesRead, IsBodyRead, IsOwnLineSize};
ghost use Rattle.mail_parts.specs.Reading.{IsPartLineSize, IsTreeRead, IsWithinDepth};
ghost use Rattle.mail_parts.specs.Reading.{begun_part, ended_part};
ghost use Rattle.mail_parts.specs.declared.part.Part.{Part};
ghost use Rattle.mail_parts.specs.declared.content.Content.TheVariants.{Multipart};

use crate::content::{Content, content_at};
use crate::delimiters::{is_closing, is_own_delimiter};
use crate::part::Part;
use crate::part_lines::{body_size, header_of, line_size};
use imap_types::Octets;
use std::alloc::{AllocError, Global};

/// The number of parts after which no multipart has a further one.
const MOST_PARTS: usize = 10_000;

/// Where a part begins.
#[derive(Clone, Copy)]
struct PartStart {
    /// The number of octets before it in the text.
    place: usize,
    /// The number of parts that contain it.
    depth: u32,
    /// Whether it is a message if its header has no type.
    in_digest: bool,
}

/// The parts of a text (RFC 2046, section 5.1), the whole text first, and each part before those
/// that it contains. Time is linear in the text's length for each of at most 100 levels. `Err` if
/// memory runs out.
pub fn cut(alloc: Global, text: &[u8]) -> Result<Vec<Part>, AllocError>
    ensures entries { IfOk result (λ parts. AreEntries text.now parts.items) }
    ensures places { IfOk result (λ parts. EachPart (HasPlaces (length text.now)) parts.items) }
    ensures nested { IfOk result (λ parts. AreNested parts.items) }
    ensures whole { IfOk result (λ parts. BeginsWithWhole text.now parts.items) }
{
    let mut boundaries = Vec::new(alloc);
    let mut parts = Vec::new(alloc);
    let start = PartStart {
        place: 0,
        depth: 0,
        in_digest: false,
    };
    read_part(alloc, text, start, &mut boundaries, &mut parts)?;
    Ok(parts)
}

/// Reads a part, and gives the number of its octets.
#[cycle(parts)]
fn read_part(
    alloc: Global,
    text: &[u8],
    start: PartStart,
    boundaries: &mut Vec<Octets>,
    parts: &mut Vec<Part>,
) -> Result<usize, AllocError>
    requires fits { start.place + length text.now < 2 ^ 64 }
    requires level { start.depth ≤ 99 }
    ensures read { IfOk result (λ size. IsTreeRead boundaries.old.items start.place start.depth
        start.in_digest text.now size parts.old.items parts.new.items) }
    ensures boundaries { OnOk result (boundaries.new.items ≡ boundaries.old.items) }
{
    let header = header_of(text, boundaries);
    let (octets, rest) = text.split_at(header.size);
    let content = content_at(alloc, start.depth, start.in_digest, octets)?;
    let index = parts.len();
    parts.push(begun_part(start, header.size, &content))?;
    let body = PartStart {
        place: start.place + header.size,
        depth: start.depth,
        in_digest: false,
    };
    let size = read_body(
        alloc,
        rest,
        body,
        &content,
        header.is_whole,
        boundaries,
        parts,
    )?;
    let end = end_of(body.place + size, size == rest.len());
    end_part(parts, index, end);
    Ok(header.size + size)
}

/// Reads the body of a part with this content, and gives the number of its octets.
#[cycle(parts)]
fn read_body(
    alloc: Global,
    text: &[u8],
    start: PartStart,
    content: &Content,
    is_whole: bool,
    boundaries: &mut Vec<Octets>,
    parts: &mut Vec<Part>,
) -> Result<usize, AllocError>
    requires fits { start.place + length text.now < 2 ^ 64 }
    requires level { start.depth ≤ 99 }
    requires within { IsWithinDepth start.depth content.now }
    requires cut { is_whole ≡ false → IsEnd boundaries.old.items (lines_of text.now) }
    ensures read { IfOk result (λ size. IsBodyRead boundaries.old.items start.place start.depth
        content.now is_whole text.now size parts.old.items parts.new.items) }
    ensures boundaries { OnOk result (boundaries.new.items ≡ boundaries.old.items) }
{
    match content {
        Content::Single => Ok(body_size(text, boundaries)),
        Content::Opaque => Ok(body_size(text, boundaries)),
        Content::Message => read_part(alloc, text, below(start, false), boundaries, parts),
        Content::Multipart {
            boundary,
            is_digest,
        } => {
            if !is_whole {
                return Ok(0);
            }
            read_multipart(
                alloc,
                text,
                below(start, *is_digest),
                boundary,
                boundaries,
                parts,
            )
        }
    }
}

/// Reads the body of a multipart, and gives the number of its octets. Its parts begin as `start`
/// says.
#[cycle(parts)]
fn read_multipart(
    alloc: Global,
    text: &[u8],
    start: PartStart,
    own: &Octets,
    boundaries: &mut Vec<Octets>,
    parts: &mut Vec<Part>,
) -> Result<usize, AllocError>
    requires fits { start.place + length text.now < 2 ^ 64 }
    requires level { start.depth ≤ 99 }
    ensures read { (depth : ℕ) → start.depth ≡ depth + 1 → IfOk result (λ size.
        IsBodyRead boundaries.old.items start.place depth (Multipart own.now start.in_digest) true
        text.now size parts.old.items parts.new.items) }
    ensures boundaries { OnOk result (boundaries.new.items ≡ boundaries.old.items) }
{
    boundaries.push(own.copy(alloc)?)?;
    let size = read_parts(alloc, text, start, own, boundaries, parts)?;
    let (_, rest) = text.split_at(size);
    let line = own_delimiter_size(rest, own.as_bytes(), boundaries);
    drop(boundaries.pop());
    if line == 0 {
        return Ok(size);
    }
    let (_, rest) = rest.split_at(line);
    Ok(size + line + body_size(rest, boundaries))
}

/// Reads the lines before a multipart's parts, and its parts, and gives the number of their octets.
#[cycle(parts)]
fn read_parts(
    alloc: Global,
    text: &[u8],
    start: PartStart,
    own: &Octets,
    boundaries: &mut Vec<Octets>,
    parts: &mut Vec<Part>,
) -> Result<usize, AllocError>
    requires fits { start.place + length text.now < 2 ^ 64 }
    requires level { start.depth ≤ 99 }
    ensures read { IfOk result (λ size. AreTreesRead boundaries.old.items own.now start.place
        start.depth start.in_digest text.now size parts.old.items parts.new.items) }
    ensures boundaries { OnOk result (boundaries.new.items ≡ boundaries.old.items) }
{
    let mut size = body_size(text, boundaries);
    for _ in 0..text.len() {
        let (_, rest) = text.split_at(size);
        let line = part_delimiter_size(rest, own.as_bytes(), boundaries, parts.len());
        if line == 0 {
            return Ok(size);
        }
        let (_, tail) = rest.split_at(line);
        let part = PartStart {
            place: start.place + size + line,
            depth: start.depth,
            in_digest: start.in_digest,
        };
        let part_size = read_part(alloc, tail, part, boundaries, parts)?;
        size = size + line + part_size;
    }
    Ok(size)
}

/// Where parts of a part begin, one level below it.
fn below(start: PartStart, in_digest: bool) -> PartStart
    requires { start.depth < 99 }
    ensures place { result.place ≡ start.place }
    ensures depth { result.depth ≡ start.depth + 1 }
    ensures in_digest { result.in_digest ≡ in_digest }
{
    PartStart {
        place: start.place,
        depth: start.depth + 1,
        in_digest,
    }
}

/// The size of the first line, if it is the innermost multipart's delimiter line, else 0.
fn own_delimiter_size(text: &[u8], own: &[u8], boundaries: &[Octets]) -> usize
    ensures { IsOwnLineSize boundaries.now own.now text.now result }
{
    if text.is_empty() {
        return 0;
    }
    let size = line_size(text);
    if is_own_delimiter(boundaries, own, text.split_at(size).0) {
        size
    } else {
        0
    }
}

/// The size of the first line, if a part of the innermost multipart begins with it, after this
/// number of the text's parts, else 0.
fn part_delimiter_size(text: &[u8], own: &[u8], boundaries: &[Octets], used: usize) -> usize
    ensures { IsPartLineSize boundaries.now own.now used text.now result }
{
    if text.is_empty() {
        return 0;
    }
    let size = line_size(text);
    if begins_part(boundaries, own, used, text.split_at(size).0) {
        size
    } else {
        0
    }
}

/// Whether a line begins a part of the innermost multipart.
fn begins_part(boundaries: &[Octets], own: &[u8], used: usize, line: &[u8]) -> bool
    ensures { result ≡ begins_part boundaries.now own.now used line.now }
{
    is_own_delimiter(boundaries, own, line) && !is_closing(own, line) && used < MOST_PARTS
}

/// The entry of a part whose header was read.
fn begun_part(start: PartStart, header: usize, content: &Content) -> Part
    requires { start.place + header < 2 ^ 64 }
    ensures { result ≡ begun_part start.place start.depth start.in_digest content.now header }
{
    Part {
        depth: start.depth,
        in_digest: start.in_digest,
        kind: content.kind(),
        start: start.place,
        body: start.place + header,
        end: start.place + header,
    }
}

/// The end of a part whose lines end at a place: the CRLF before a delimiter line is the
/// delimiter's.
fn end_of(place: usize, is_last: bool) -> usize
    ensures { result ≡ (if is_last then place else place - 2) }
{
    if is_last {
        place
    } else {
        place.saturating_sub(2)
    }
}

/// Sets the end of the part with this index: its header and its body don't begin after it.
fn end_part(parts: &mut Vec<Part>, index: usize, end: usize)
    requires { index < length parts.old.items }
    ensures { (front back : List Part) (part : Part) → length front ≡ index
        → parts.old.items ≡ front ++ part ∷ back
        → parts.new.items ≡ front ++ ended_part part end ∷ back }
{
    let part = parts[index];
    parts[index] = ended_part(part, end);
}

/// A part with its end.
fn ended_part(part: Part, end: usize) -> Part
    ensures { result ≡ ended_part part end }
{
    Part {
        start: part.start.min(end),
        body: part.body.min(end),
        end,
        ..part
    }
}
