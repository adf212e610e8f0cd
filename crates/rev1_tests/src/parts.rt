//! The parts of texts.

use mail_parts::{
    Part, PartKind, composed_are_cut, cut, one_cutting, single_is_text, written_boundaries_are_read,
};
use std::alloc::{AllocError, Global};
use std::test::Fail;

/// Texts with their parts: the level, the kind (`s` a single body, `m` a message, `p` a multipart,
/// `o` too deep), `d` in a digest, and the places where header, body and what follows begin.
const TEXTS: &[(&str, &str)] = &[
    // A text without a header.
    ("hi|", "0s 0 4 4;"),
    // No octets.
    ("", "0s 0 0 0;"),
    // Header and body.
    ("A: b||hi|", "0s 0 8 12;"),
    // Two parts, a preamble and an epilogue.
    (
        "~q||pre|--q||one|--q|A: b||two|--q--|epi|",
        "0p 0 45 92;1s 55 57 60;1s 67 75 78;",
    ),
    // The CRLF before a delimiter line is the delimiter's, also a header's empty line.
    ("~q||--q|A: b||--q--|", "0p 0 45 65;1s 50 56 56;"),
    // A delimiter line within a header.
    (
        "~q||--q|A: b|--q||x|--q--|",
        "0p 0 45 73;1s 50 54 54;1s 61 63 64;",
    ),
    // No closing delimiter line.
    ("~q||--q||one", "0p 0 45 55;1s 50 52 55;"),
    // Whatever follows a boundary.
    ("~q||--quite||one|--q--x||--q|", "0p 0 45 76;1s 54 56 59;"),
    // The longest boundary counts.
    (
        "~ab||--ab|~abc||--abc||in|--abcd||more|--ab||out|--ab--|",
        "0p 0 46 149;1p 52 99 126;2s 106 108 110;2s 120 122 126;1s 134 136 139;",
    ),
    // An outer boundary may be longer.
    (
        "~abc||--abc|~ab||--ab||in|--abc||out|--abc--|",
        "0p 0 47 135;1p 54 100 110;2s 106 108 110;1s 119 121 124;",
    ),
    // Of equals the innermost.
    (
        "~q||--q|~q||--q||in|--q--|--q--|",
        "0p 0 45 120;1p 50 95 111;2s 100 102 104;",
    ),
    // An outer delimiter line ends all within it.
    (
        "~o||--o|~i||--i||in|--o||out|--o--|",
        "0p 0 45 125;1p 50 95 104;2s 100 102 104;1s 111 113 116;",
    ),
    // The outer delimiter's CRLF, after an inner closing line.
    (
        "~o||--o|~i||--i||in|--i--|--o--|",
        "0p 0 45 120;1p 50 95 111;2s 100 102 104;",
    ),
    // A boundary in force right after the header.
    ("~q||--q||x|--q--|", "0p 0 45 62;1s 50 52 53;"),
    // Not yet in force in its own header.
    ("~q|--q||--q||x", "0p 0 50 58;1s 55 57 58;"),
    // A message with a multipart.
    (
        "Content-Type: message/rfc822||~q||--q||x|--q--|",
        "0m 0 32 94;1p 32 77 94;2s 82 84 85;",
    ),
    // A digest.
    (
        "Content-Type: multipart/digest; boundary=q||--q||Subject: s||x|--q|Content-Type: text/plain||y|--q--|",
        "0p 0 46 113;1md 51 53 68;2s 53 67 68;1sd 75 103 104;",
    ),
    // A message cut off by a delimiter line.
    (
        "~q||--q|Content-Type: message/rfc822|--q--|",
        "0p 0 45 87;1m 50 78 78;2s 78 78 78;",
    ),
    // A multipart cut off by a delimiter line.
    ("~q||--q|~i|--q--|", "0p 0 45 100;1p 50 91 91;"),
    // A multipart without boundary.
    ("Content-Type: multipart/mixed||--|x|", "0s 0 33 40;"),
    // No type and subtype.
    ("Content-Type: garbage; boundary=q||--q||x|", "0s 0 37 47;"),
    // The first field counts.
    ("Content-Type: text/plain|~q||--q||x|", "0s 0 71 81;"),
    // Comments, case and quoted pairs.
    (
        "CONTENT-TYPE : (a (b\\)) c) Multipart (;) / MIXED;x=\"a;boundary=n\";| BOUNDARY = \"\\q \"||--q||x|--q--|",
        "0p 0 89 106;1s 94 96 97;",
    ),
    // A boundary that isn't quoted.
    (
        "~----=_N/1||------=_N/1||x|------=_N/1--|",
        "0p 0 53 86;1s 66 68 69;",
    ),
    // Only CRLF ends a line.
    (
        "~q||\n--q\n\r--q|--q||x\n--q--|--q--|",
        "0p 0 45 79;1s 61 63 70;",
    ),
    // A part without lines: the CRLF before the closing line is the delimiter's.
    ("~q||--q|--q--|", "0p 0 45 57;1s 48 48 48;"),
];

/// The text of a row: `|` stands for CRLF, and `~` for the header field of a multipart up to its
/// boundary.
fn text_of_row(alloc: Global, row: &str) -> Result<Vec<u8>, AllocError> {
    let mut text = Vec::new(alloc);
    for octet in row.as_bytes() {
        match *octet {
            b'|' => text.extend_from_slice(b"\r\n")?,
            b'~' => text.extend_from_slice(b"Content-Type: multipart/mixed; boundary=")?,
            other => text.push(other)?,
        }
    }
    Ok(text)
}

/// The place of the first row whose text has other parts, if any.
fn first_wrong_row(alloc: Global) -> Result<Option<usize>, AllocError> {
    for place in 0..TEXTS.len() {
        let (row, parts) = TEXTS[place];
        let text = text_of_row(alloc, row)?;
        if listing(alloc, &text)?.as_slice() != parts.as_bytes() {
            return Ok(Some(place));
        }
    }
    Ok(None)
}

/// The parts of a text, each in the form of the rows.
fn listing(alloc: Global, text: &[u8]) -> Result<Vec<u8>, AllocError> {
    let mut listing = Vec::new(alloc);
    for part in &cut(alloc, text)? {
        push_part(alloc, &mut listing, part)?;
    }
    Ok(listing)
}

fn push_part(alloc: Global, listing: &mut Vec<u8>, part: &Part) -> Result<(), AllocError> {
    let kind = letter(part.kind);
    let digest = if part.in_digest { "d" } else { "" };
    let (depth, start, body, end) = (part.depth, part.start, part.body, part.end);
    let text = format!(in alloc; "{depth}{kind}{digest} {start} {body} {end};")?;
    listing.extend_from_slice(text.as_bytes())
}

fn letter(kind: PartKind) -> &'static str {
    match kind {
        PartKind::Single => "s",
        PartKind::Message => "m",
        PartKind::Multipart => "p",
        PartKind::Opaque => "o",
    }
}

/// A message within `levels` messages.
fn nested_messages(alloc: Global, levels: usize) -> Result<Vec<u8>, AllocError> {
    let mut text = Vec::new(alloc);
    for _ in 0..levels {
        text.extend_from_slice(b"Content-Type: message/rfc822\r\n\r\n")?;
    }
    Ok(text)
}

/// The number of parts of a text, and the kind of the last.
fn last_kind(alloc: Global, text: &[u8]) -> Result<(usize, Option<PartKind>), AllocError> {
    let parts = cut(alloc, text)?;
    let kind = match parts.last() {
        None => None,
        Some(part) => Some(part.kind),
    };
    Ok((parts.len(), kind))
}

/// A multipart with this number of empty parts.
fn many_parts(alloc: Global, count: usize) -> Result<Vec<u8>, AllocError> {
    let mut text = Vec::new(alloc);
    text.extend_from_slice(b"Content-Type: multipart/mixed; boundary=q\r\n\r\n")?;
    for _ in 0..count {
        text.extend_from_slice(b"--q\r\n\r\n")?;
    }
    Ok(text)
}

#[test]
fn texts_have_their_parts(rt: HostRuntime) -> Result<(), Fail> {
    assert_eq!(rt; first_wrong_row(rt.alloc())?, None);
    Ok(())
}

#[test]
fn deep_parts_are_opaque(rt: HostRuntime) -> Result<(), Fail> {
    let text = nested_messages(rt.alloc(), 99)?;
    assert_eq!(rt;
        last_kind(rt.alloc(), &text)?,
        (100, Some(PartKind::Single))
    );
    let text = nested_messages(rt.alloc(), 100)?;
    assert_eq!(rt;
        last_kind(rt.alloc(), &text)?,
        (100, Some(PartKind::Opaque))
    );
    Ok(())
}

#[test]
fn parts_have_a_limit(rt: HostRuntime) -> Result<(), Fail> {
    let text = many_parts(rt.alloc(), 9_999)?;
    assert_eq!(rt;
        last_kind(rt.alloc(), &text)?,
        (10_000, Some(PartKind::Single))
    );
    let text = many_parts(rt.alloc(), 10_001)?;
    assert_eq!(rt;
        last_kind(rt.alloc(), &text)?,
        (10_000, Some(PartKind::Single))
    );
    Ok(())
}

#[test]
fn laws_are_called(_rt: HostRuntime) {
    one_cutting();
    composed_are_cut();
    single_is_text();
    written_boundaries_are_read();
}
