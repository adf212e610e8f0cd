//! Names of mailboxes in modified UTF-7.

use mailbox_utf7::{decode, encode, encodings_are_distinct};
use std::alloc::{AllocError, Global};
use std::test::Fail;

/// Names with their one encoding: those of RFC 3501, section 5.1.3, then each length that UTF-16 in
/// base64 can have, characters of two units, and all that isn't printable.
const NAMES: &[(&str, &str)] = &[
    ("", ""),
    ("INBOX", "INBOX"),
    ("~peter/mail/台北/日本語", "~peter/mail/&U,BTFw-/&ZeVnLIqe-"),
    ("&", "&-"),
    ("a&b", "a&-b"),
    ("&&", "&-&-"),
    ("Entwürfe", "Entw&APw-rfe"),
    ("☺!", "&Jjo-!"),
    ("é", "&AOk-"),
    ("éé", "&AOkA6Q-"),
    ("ééé", "&AOkA6QDp-"),
    ("😀", "&2D3eAA-"),
    ("a😀-é~", "a&2D3eAA--&AOk-~"),
    ("\u{0}\u{1f} ~\u{7f}\u{80}", "&AAAAHw- ~&AH8AgA-"),
    (
        "\u{d7ff}\u{e000}\u{ffff}\u{10000}\u{10ffff}",
        "&1,,gAP,,2ADcANv,3,8-",
    ),
    ("é&é", "&AOk-&-&AOk-"),
];

/// Octets that are the encoding of no name.
const REFUSED: &[&[u8]] = &[
    // A shift that doesn't end, or is no base64.
    b"&",
    b"a&b",
    b"&Jjo",
    b"&Jjo!",
    b"&A-",
    b"&AOk=-",
    b"&U/BTFw-",
    // Bits that are left over: half a unit, or bits that aren't zero.
    b"&AA-",
    b"&AOkA-",
    b"&AOl-",
    b"&AOkA6R-",
    // Printable characters in a shift, and two shifts in place of one.
    b"&ACY-",
    b"&AGE-",
    b"&AOkAYQ-",
    b"&Jjo-&Jjo-",
    // A surrogate without its partner.
    b"&2D0-",
    b"&3gA-",
    b"&3gDYPQ-",
    b"&2D0AYQ-",
    // Octets that aren't printable.
    b"\xc3\xa9",
    b"a\x7f",
    b"\x00",
    b"\r\n",
    b"\xff",
];

/// The first name that isn't encoded or decoded as its row says, if any.
fn first_wrong_name(alloc: Global) -> Result<Option<&'static str>, AllocError> {
    for row in NAMES {
        let (name, encoding) = *row;
        if !is_encoded(alloc, name, encoding)? || !is_decoded(alloc, name, encoding)? {
            return Ok(Some(name));
        }
    }
    Ok(None)
}

fn is_encoded(alloc: Global, name: &str, encoding: &str) -> Result<bool, AllocError> {
    let octets = encode(alloc, name)?;
    Ok(octets.as_slice() == encoding.as_bytes())
}

fn is_decoded(alloc: Global, name: &str, encoding: &str) -> Result<bool, AllocError> {
    match decode(alloc, encoding.as_bytes())? {
        None => Ok(false),
        Some(decoded) => Ok(decoded.as_bytes() == name.as_bytes()),
    }
}

/// The place of the first row that is decoded although it must be refused, if any.
fn first_decoded(alloc: Global) -> Result<Option<usize>, AllocError> {
    for place in 0..REFUSED.len() {
        if decode(alloc, REFUSED[place])?.is_some() {
            return Ok(Some(place));
        }
    }
    Ok(None)
}

#[test]
fn names_have_their_encodings(rt: HostRuntime) -> Result<(), Fail> {
    assert_eq!(rt; first_wrong_name(rt.alloc())?, None);
    Ok(())
}

#[test]
fn other_octets_are_refused(rt: HostRuntime) -> Result<(), Fail> {
    assert_eq!(rt; first_decoded(rt.alloc())?, None);
    Ok(())
}

#[test]
fn laws_are_called(_rt: HostRuntime) {
    encodings_are_distinct();
}
