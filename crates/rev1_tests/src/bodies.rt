//! Envelopes and bodies of messages.

use body_print::{body_reads_back, envelope_reads_back, one_reading, push_body, push_envelope};
use mail_parts::cut;
use mail_text::header;
use std::alloc::{AllocError, Global};
use std::test::Fail;

/// Texts with their envelopes; `|` stands for CRLF.
const ENVELOPES: &[(&str, &str)] = &[
    // RFC 3501's example (sections 7.4.2 and 8).
    (
        "Date: Wed, 17 Jul 1996 02:23:25 -0700 (PDT)|From: Terry Gray <gray@cac.washington.edu>|Subject: IMAP4rev1 WG mtg summary and minutes|To: imap@cac.washington.edu|cc: minutes@CNRI.Reston.VA.US, John Klensin <KLENSIN@MIT.EDU>|Message-Id: <B27397-0100000@cac.washington.edu>|MIME-Version: 1.0|Content-Type: TEXT/PLAIN; CHARSET=US-ASCII||",
        "(\"Wed, 17 Jul 1996 02:23:25 -0700 (PDT)\" \"IMAP4rev1 WG mtg summary and minutes\" ((\"Terry Gray\" NIL \"gray\" \"cac.washington.edu\")) ((\"Terry Gray\" NIL \"gray\" \"cac.washington.edu\")) ((\"Terry Gray\" NIL \"gray\" \"cac.washington.edu\")) ((NIL NIL \"imap\" \"cac.washington.edu\")) ((NIL NIL \"minutes\" \"CNRI.Reston.VA.US\")(\"John Klensin\" NIL \"KLENSIN\" \"MIT.EDU\")) NIL NIL \"<B27397-0100000@cac.washington.edu>\")",
    ),
    // No fields.
    ("", "(NIL NIL NIL NIL NIL NIL NIL NIL NIL NIL)"),
    // An empty header.
    ("|hi|", "(NIL NIL NIL NIL NIL NIL NIL NIL NIL NIL)"),
    // Folded and empty values; the first field of a name.
    (
        "Subject:  a|\t\"b\" \\c |Date:|In-Reply-To: <x>| <y>|Subject: second||",
        "(\"\" \"a\t\\\"b\\\" \\\\c\" NIL NIL NIL NIL NIL NIL \"<x> <y>\" NIL)",
    ),
    // Sender and Reply-To; a group.
    (
        "From: a@b|Sender: c@d|Reply-To:|Bcc: G: e@f;||",
        "(NIL NIL ((NIL NIL \"a\" \"b\")) ((NIL NIL \"c\" \"d\")) ((NIL NIL \"a\" \"b\")) NIL NIL ((NIL NIL \"G\" NIL)(NIL NIL \"e\" \"f\")(NIL NIL NIL NIL)) NIL NIL)",
    ),
    // Several fields of one name are one list.
    (
        "To: a@b|To: G:c@d|Cc: e@f||",
        "(NIL NIL NIL NIL NIL ((NIL NIL \"a\" \"b\")(NIL NIL \"G\" NIL)(NIL NIL \"c\" \"d\")(NIL NIL NIL NIL)) ((NIL NIL \"e\" \"f\")) NIL NIL NIL)",
    ),
    // No addresses; words without one.
    (
        "From: ,|To: (x)|Reply-To: Words only||",
        "(NIL NIL NIL NIL ((\"Words only\" NIL \"\" \"\")) NIL NIL NIL NIL NIL)",
    ),
    // Octets above 127.
    (
        "Subject: é|From: é <é@é>||",
        "(NIL {2}|é (({2}|é NIL {2}|é {2}|é)) (({2}|é NIL {2}|é {2}|é)) (({2}|é NIL {2}|é {2}|é)) NIL NIL NIL NIL NIL)",
    ),
    // CR, LF and NUL.
    (
        "Subject: a\rb\nc\0||",
        "(NIL {6}|a\rb\nc\0 NIL NIL NIL NIL NIL NIL NIL NIL)",
    ),
    // A CR before a CRLF.
    (
        "Subject: a\r| b\r\r\n||",
        "(NIL {4}|a\r b NIL NIL NIL NIL NIL NIL NIL NIL)",
    ),
];

/// Texts with BODY and BODYSTRUCTURE; `|` stands for CRLF.
const BODIES: &[(&str, &str, &str)] = &[
    // No fields.
    (
        "||hi|",
        "(\"text\" \"plain\" (\"charset\" \"us-ascii\") NIL NIL \"7bit\" 6 2)",
        "(\"text\" \"plain\" (\"charset\" \"us-ascii\") NIL NIL \"7bit\" 6 2 NIL NIL NIL NIL)",
    ),
    // No octets.
    (
        "",
        "(\"text\" \"plain\" (\"charset\" \"us-ascii\") NIL NIL \"7bit\" 0 0)",
        "(\"text\" \"plain\" (\"charset\" \"us-ascii\") NIL NIL \"7bit\" 0 0 NIL NIL NIL NIL)",
    ),
    // Types and encodings are shown as written.
    (
        "Content-Type: TEXT/PLAIN; CHARSET=US-ASCII|Content-Transfer-Encoding: 7BIT||a|b|",
        "(\"TEXT\" \"PLAIN\" (\"CHARSET\" \"US-ASCII\") NIL NIL \"7BIT\" 6 2)",
        "(\"TEXT\" \"PLAIN\" (\"CHARSET\" \"US-ASCII\") NIL NIL \"7BIT\" 6 2 NIL NIL NIL NIL)",
    ),
    // A text without a charset.
    (
        "Content-Type: text/html; x=y||a",
        "(\"text\" \"html\" (\"x\" \"y\" \"charset\" \"us-ascii\") NIL NIL \"7bit\" 1 0)",
        "(\"text\" \"html\" (\"x\" \"y\" \"charset\" \"us-ascii\") NIL NIL \"7bit\" 1 0 NIL NIL NIL NIL)",
    ),
    // All fields.
    (
        "Content-Type: application/pdf; name=\"a \\\"b.pdf\"|Content-Transfer-Encoding: base64|Content-ID: <1@x>|Content-Description: A| file|Content-MD5: Q2hlY2s=|Content-Disposition: attachment; filename=a.pdf; size=3|Content-Language: en, de|Content-Location: http://x/||AAAA|",
        "(\"application\" \"pdf\" (\"name\" \"a \\\"b.pdf\") \"<1@x>\" \"A file\" \"base64\" 6)",
        "(\"application\" \"pdf\" (\"name\" \"a \\\"b.pdf\") \"<1@x>\" \"A file\" \"base64\" 6 \"Q2hlY2s=\" (\"attachment\" (\"filename\" \"a.pdf\" \"size\" \"3\")) (\"en\" \"de\") \"http://x/\")",
    ),
    // Two parts.
    (
        "Content-Type: multipart/mixed; boundary=q||pre|--q||one|--q|Content-Type: text/html||two|--q--|epi|",
        "((\"text\" \"plain\" (\"charset\" \"us-ascii\") NIL NIL \"7bit\" 3 0)(\"text\" \"html\" (\"charset\" \"us-ascii\") NIL NIL \"7bit\" 3 0) \"mixed\")",
        "((\"text\" \"plain\" (\"charset\" \"us-ascii\") NIL NIL \"7bit\" 3 0 NIL NIL NIL NIL)(\"text\" \"html\" (\"charset\" \"us-ascii\") NIL NIL \"7bit\" 3 0 NIL NIL NIL NIL) \"mixed\" (\"boundary\" \"q\") NIL NIL NIL)",
    ),
    // RFC 3501's example of two parts (section 7.4.2), with shorter bodies.
    (
        "Content-Type: MULTIPART/MIXED; boundary=q||--q|Content-Type: TEXT/PLAIN; CHARSET=US-ASCII|Content-Transfer-Encoding: 7BIT||a|--q|Content-Type: TEXT/PLAIN; CHARSET=US-ASCII; NAME=cc.diff|Content-ID: <960723163407.20117h@cac.washington.edu>|Content-Description: Compiler diff|Content-Transfer-Encoding: BASE64||QUFB|QUFB|--q--|",
        "((\"TEXT\" \"PLAIN\" (\"CHARSET\" \"US-ASCII\") NIL NIL \"7BIT\" 1 0)(\"TEXT\" \"PLAIN\" (\"CHARSET\" \"US-ASCII\" \"NAME\" \"cc.diff\") \"<960723163407.20117h@cac.washington.edu>\" \"Compiler diff\" \"BASE64\" 10 1) \"MIXED\")",
        "((\"TEXT\" \"PLAIN\" (\"CHARSET\" \"US-ASCII\") NIL NIL \"7BIT\" 1 0 NIL NIL NIL NIL)(\"TEXT\" \"PLAIN\" (\"CHARSET\" \"US-ASCII\" \"NAME\" \"cc.diff\") \"<960723163407.20117h@cac.washington.edu>\" \"Compiler diff\" \"BASE64\" 10 1 NIL NIL NIL NIL) \"MIXED\" (\"boundary\" \"q\") NIL NIL NIL)",
    ),
    // A multipart without parts shows an empty text.
    (
        "Content-Type: multipart/mixed; boundary=q||x|",
        "((\"text\" \"plain\" (\"charset\" \"us-ascii\") NIL NIL \"7bit\" 0 0) \"mixed\")",
        "((\"text\" \"plain\" (\"charset\" \"us-ascii\") NIL NIL \"7bit\" 0 0 NIL NIL NIL NIL) \"mixed\" (\"boundary\" \"q\") NIL NIL NIL)",
    ),
    // A multipart without boundary is a text.
    (
        "Content-Type: multipart/mixed||x|",
        "(\"text\" \"plain\" (\"charset\" \"us-ascii\") NIL NIL \"7bit\" 3 1)",
        "(\"text\" \"plain\" (\"charset\" \"us-ascii\") NIL NIL \"7bit\" 3 1 NIL NIL NIL NIL)",
    ),
    // A message.
    (
        "Content-Type: message/rfc822||Subject: in|From: a@b||x|y|",
        "(\"message\" \"rfc822\" NIL NIL NIL \"7bit\" 32 (NIL \"in\" ((NIL NIL \"a\" \"b\")) ((NIL NIL \"a\" \"b\")) ((NIL NIL \"a\" \"b\")) NIL NIL NIL NIL NIL) (\"text\" \"plain\" (\"charset\" \"us-ascii\") NIL NIL \"7bit\" 6 2) 5)",
        "(\"message\" \"rfc822\" NIL NIL NIL \"7bit\" 32 (NIL \"in\" ((NIL NIL \"a\" \"b\")) ((NIL NIL \"a\" \"b\")) ((NIL NIL \"a\" \"b\")) NIL NIL NIL NIL NIL) (\"text\" \"plain\" (\"charset\" \"us-ascii\") NIL NIL \"7bit\" 6 2 NIL NIL NIL NIL) 5 NIL NIL NIL NIL)",
    ),
    // A digest.
    (
        "Content-Type: multipart/digest; boundary=q||--q||Subject: s||x|--q|Content-Type: text/plain||y|--q--|",
        "((\"message\" \"rfc822\" NIL NIL NIL \"7bit\" 15 (NIL \"s\" NIL NIL NIL NIL NIL NIL NIL NIL) (\"text\" \"plain\" (\"charset\" \"us-ascii\") NIL NIL \"7bit\" 1 0) 2)(\"text\" \"plain\" (\"charset\" \"us-ascii\") NIL NIL \"7bit\" 1 0) \"digest\")",
        "((\"message\" \"rfc822\" NIL NIL NIL \"7bit\" 15 (NIL \"s\" NIL NIL NIL NIL NIL NIL NIL NIL) (\"text\" \"plain\" (\"charset\" \"us-ascii\") NIL NIL \"7bit\" 1 0 NIL NIL NIL NIL) 2 NIL NIL NIL NIL)(\"text\" \"plain\" (\"charset\" \"us-ascii\") NIL NIL \"7bit\" 1 0 NIL NIL NIL NIL) \"digest\" (\"boundary\" \"q\") NIL NIL NIL)",
    ),
    // Multiparts in a multipart and in a message.
    (
        "Content-Type: multipart/mixed; boundary=o|Content-Language: fr||--o|Content-Type: multipart/mixed; boundary=i||--i||in|--i--|--o|Content-Type: message/rfc822||Content-Type: multipart/mixed; boundary=j|Subject: m||--j||z|--j--|--o--|",
        "(((\"text\" \"plain\" (\"charset\" \"us-ascii\") NIL NIL \"7bit\" 2 0) \"mixed\")(\"message\" \"rfc822\" NIL NIL NIL \"7bit\" 72 (NIL \"m\" NIL NIL NIL NIL NIL NIL NIL NIL) ((\"text\" \"plain\" (\"charset\" \"us-ascii\") NIL NIL \"7bit\" 1 0) \"mixed\") 6) \"mixed\")",
        "(((\"text\" \"plain\" (\"charset\" \"us-ascii\") NIL NIL \"7bit\" 2 0 NIL NIL NIL NIL) \"mixed\" (\"boundary\" \"i\") NIL NIL NIL)(\"message\" \"rfc822\" NIL NIL NIL \"7bit\" 72 (NIL \"m\" NIL NIL NIL NIL NIL NIL NIL NIL) ((\"text\" \"plain\" (\"charset\" \"us-ascii\") NIL NIL \"7bit\" 1 0 NIL NIL NIL NIL) \"mixed\" (\"boundary\" \"j\") NIL NIL NIL) 6 NIL NIL NIL NIL) \"mixed\" (\"boundary\" \"o\") NIL (\"fr\") NIL)",
    ),
    // A multipart that is cut off.
    (
        "Content-Type: multipart/mixed; boundary=q||--q|Content-Type: multipart/mixed; boundary=i|--q--|",
        "(((\"text\" \"plain\" (\"charset\" \"us-ascii\") NIL NIL \"7bit\" 0 0) \"mixed\") \"mixed\")",
        "(((\"text\" \"plain\" (\"charset\" \"us-ascii\") NIL NIL \"7bit\" 0 0 NIL NIL NIL NIL) \"mixed\" (\"boundary\" \"i\") NIL NIL NIL) \"mixed\" (\"boundary\" \"q\") NIL NIL NIL)",
    ),
    // A message that is cut off.
    (
        "Content-Type: multipart/mixed; boundary=q||--q|Content-Type: message/rfc822|--q--|",
        "((\"message\" \"rfc822\" NIL NIL NIL \"7bit\" 0 (NIL NIL NIL NIL NIL NIL NIL NIL NIL NIL) (\"text\" \"plain\" (\"charset\" \"us-ascii\") NIL NIL \"7bit\" 0 0) 0) \"mixed\")",
        "((\"message\" \"rfc822\" NIL NIL NIL \"7bit\" 0 (NIL NIL NIL NIL NIL NIL NIL NIL NIL NIL) (\"text\" \"plain\" (\"charset\" \"us-ascii\") NIL NIL \"7bit\" 0 0 NIL NIL NIL NIL) 0 NIL NIL NIL NIL) \"mixed\" (\"boundary\" \"q\") NIL NIL NIL)",
    ),
    // A type that isn't one.
    (
        "Content-Type: garbage; a=b||x",
        "(\"text\" \"plain\" (\"charset\" \"us-ascii\") NIL NIL \"7bit\" 1 0)",
        "(\"text\" \"plain\" (\"charset\" \"us-ascii\") NIL NIL \"7bit\" 1 0 NIL NIL NIL NIL)",
    ),
    // Languages.
    (
        "Content-Language: (c) en (d), ,de||",
        "(\"text\" \"plain\" (\"charset\" \"us-ascii\") NIL NIL \"7bit\" 0 0)",
        "(\"text\" \"plain\" (\"charset\" \"us-ascii\") NIL NIL \"7bit\" 0 0 NIL NIL (\"en\" \"de\") NIL)",
    ),
    // Fields without a token, and an empty one.
    (
        "Content-Disposition: ;a=b|Content-Transfer-Encoding: ;|Content-ID: ||",
        "(\"text\" \"plain\" (\"charset\" \"us-ascii\") NIL NIL \"7bit\" 0 0)",
        "(\"text\" \"plain\" (\"charset\" \"us-ascii\") NIL NIL \"7bit\" 0 0 NIL NIL NIL NIL)",
    ),
    // A disposition without parameters.
    (
        "Content-Disposition: inline||",
        "(\"text\" \"plain\" (\"charset\" \"us-ascii\") NIL NIL \"7bit\" 0 0)",
        "(\"text\" \"plain\" (\"charset\" \"us-ascii\") NIL NIL \"7bit\" 0 0 NIL (\"inline\" NIL) NIL NIL)",
    ),
    // Names of parameters in any case; an empty value.
    (
        "Content-Type: Text/Plain; Charset=x; a=\"\"||",
        "(\"Text\" \"Plain\" (\"Charset\" \"x\" \"a\" \"\") NIL NIL \"7bit\" 0 0)",
        "(\"Text\" \"Plain\" (\"Charset\" \"x\" \"a\" \"\") NIL NIL \"7bit\" 0 0 NIL NIL NIL NIL)",
    ),
    // Octets above 127.
    (
        "Content-Type: text/plain; name=\"é\"|Content-Description: é||é",
        "(\"text\" \"plain\" (\"name\" {2}|é \"charset\" \"us-ascii\") NIL {2}|é \"7bit\" 2 0)",
        "(\"text\" \"plain\" (\"name\" {2}|é \"charset\" \"us-ascii\") NIL {2}|é \"7bit\" 2 0 NIL NIL NIL NIL)",
    ),
    // Continued parameters are shown as written.
    (
        "Content-Type: a/b; n*0*=us-ascii'en'x%20; n*1=y||",
        "(\"a\" \"b\" (\"n*0*\" \"us-ascii'en'x%20\" \"n*1\" \"y\") NIL NIL \"7bit\" 0)",
        "(\"a\" \"b\" (\"n*0*\" \"us-ascii'en'x%20\" \"n*1\" \"y\") NIL NIL \"7bit\" 0 NIL NIL NIL NIL)",
    ),
];

/// The octets of a row.
fn octets_of_row(alloc: Global, row: &str) -> Result<Vec<u8>, AllocError> {
    let mut octets = Vec::new(alloc);
    for octet in row.as_bytes() {
        match *octet {
            b'|' => octets.extend_from_slice(b"\r\n")?,
            other => octets.push(other)?,
        }
    }
    Ok(octets)
}

fn envelope_text(alloc: Global, text: &[u8]) -> Result<Vec<u8>, AllocError> {
    let mut out = Vec::new(alloc);
    push_envelope(alloc, header(text), &mut out)?;
    Ok(out)
}

fn body_text(alloc: Global, extended: bool, text: &[u8]) -> Result<Vec<u8>, AllocError> {
    let mut out = Vec::new(alloc);
    let parts = cut(alloc, text)?;
    push_body(alloc, extended, text, &parts, &mut out)?;
    Ok(out)
}

/// The place of the first row whose envelope is printed differently, if any.
fn first_wrong_envelope(alloc: Global) -> Result<Option<usize>, AllocError> {
    for place in 0..ENVELOPES.len() {
        let (row, shown) = ENVELOPES[place];
        let text = octets_of_row(alloc, row)?;
        let shown = octets_of_row(alloc, shown)?;
        if envelope_text(alloc, &text)?.as_slice() != shown.as_slice() {
            return Ok(Some(place));
        }
    }
    Ok(None)
}

/// The place of the first row whose body is printed differently, if any.
fn first_wrong_body(alloc: Global, extended: bool) -> Result<Option<usize>, AllocError> {
    for place in 0..BODIES.len() {
        let (row, body, structure) = BODIES[place];
        let text = octets_of_row(alloc, row)?;
        let shown = octets_of_row(alloc, if extended { structure } else { body })?;
        if body_text(alloc, extended, &text)?.as_slice() != shown.as_slice() {
            return Ok(Some(place));
        }
    }
    Ok(None)
}

/// What follows a quoted string, after its first quote; `None` if it doesn't end.
fn after_quoted(text: &[u8]) -> Option<&[u8]> {
    let mut rest = text;
    for _ in 0..text.len() {
        match rest {
            [] => return None,
            [b'"', more @ ..] => return Some(more),
            [b'\\', _, more @ ..] => rest = more,
            [_, more @ ..] => rest = more,
        }
    }
    None
}

/// What follows a literal, after its brace; `None` if it isn't one.
fn after_literal(text: &[u8]) -> Option<&[u8]> {
    let mut rest = text;
    let mut size = 0_usize;
    for _ in 0..text.len() {
        match rest {
            [b'}', b'\r', b'\n', more @ ..] => {
                if size > more.len() {
                    return None;
                }
                return Some(more.split_at(size).1);
            }
            [octet, more @ ..] => {
                if !octet.is_ascii_digit() {
                    return None;
                }
                let digit = octet.saturating_sub(b'0') as usize;
                size = size.saturating_mul(10).saturating_add(digit);
                rest = more;
            }
            [] => return None,
        }
    }
    None
}

/// Whether an octet is a blank, a digit, or of NIL.
fn is_atom_octet(octet: u8) -> bool {
    octet.is_ascii_digit() || octet == b' ' || octet == b'N' || octet == b'I' || octet == b'L'
}

/// Whether a text is a list whose parentheses and strings end, and nothing follows it.
fn is_one_list(text: &[u8]) -> bool {
    let mut rest = text;
    let mut depth = 0_usize;
    for _ in 0..text.len() {
        rest = match rest {
            [b'(', more @ ..] => {
                depth = depth.saturating_add(1);
                more
            }
            [b')', more @ ..] => {
                if depth <= 1 {
                    return depth == 1 && more.is_empty();
                }
                depth -= 1;
                more
            }
            [b'"', more @ ..] => match after_quoted(more) {
                None => return false,
                Some(more) => more,
            },
            [b'{', more @ ..] => match after_literal(more) {
                None => return false,
                Some(more) => more,
            },
            [octet, more @ ..] => {
                if !is_atom_octet(*octet) {
                    return false;
                }
                more
            }
            [] => return false,
        };
    }
    false
}

/// Whether envelope and bodies of a text can be read.
fn can_be_read(alloc: Global, text: &[u8]) -> Result<bool, AllocError> {
    Ok(
        is_one_list(&envelope_text(alloc, text)?)
            && is_one_list(&body_text(alloc, false, text)?)
            && is_one_list(&body_text(alloc, true, text)?),
    )
}

/// Whether a text can be read however one of its octets is changed to this one.
fn can_be_damaged(alloc: Global, text: &mut Vec<u8>, octet: u8) -> Result<bool, AllocError> {
    for place in 0..text.len() {
        if place < text.len() {
            let kept = text[place];
            text[place] = octet;
            if !can_be_read(alloc, text.as_slice())? {
                return Ok(false);
            }
            if place < text.len() {
                text[place] = kept;
            }
        }
    }
    Ok(true)
}

/// The place of the first body that can't be read if an octet is changed to this one, if any.
fn first_unreadable(alloc: Global, octet: u8) -> Result<Option<usize>, AllocError> {
    for place in 0..BODIES.len() {
        let (row, _, _) = BODIES[place];
        let mut text = octets_of_row(alloc, row)?;
        if !can_be_damaged(alloc, &mut text, octet)? {
            return Ok(Some(place));
        }
    }
    Ok(None)
}

/// A header field with this text, `count` times.
fn repeated(alloc: Global, name: &[u8], text: &[u8], count: usize) -> Result<Vec<u8>, AllocError> {
    let mut octets = Vec::new(alloc);
    octets.extend_from_slice(name)?;
    for _ in 0..count {
        octets.extend_from_slice(text)?;
    }
    Ok(octets)
}

#[test]
fn envelopes_are_printed(rt: HostRuntime) -> Result<(), Fail> {
    assert_eq!(rt; first_wrong_envelope(rt.alloc())?, None);
    Ok(())
}

#[test]
fn bodies_are_printed(rt: HostRuntime) -> Result<(), Fail> {
    assert_eq!(rt; first_wrong_body(rt.alloc(), false)?, None);
    assert_eq!(rt; first_wrong_body(rt.alloc(), true)?, None);
    Ok(())
}

#[test]
fn damaged_texts_can_be_read(rt: HostRuntime) -> Result<(), Fail> {
    assert_eq!(rt; first_unreadable(rt.alloc(), b'"')?, None);
    assert_eq!(rt; first_unreadable(rt.alloc(), b'(')?, None);
    assert_eq!(rt; first_unreadable(rt.alloc(), b'\n')?, None);
    assert_eq!(rt; first_unreadable(rt.alloc(), b'\xff')?, None);
    Ok(())
}

/// Each group is two entries, of 16 and of 17 octets, and the senders are shown three times.
#[test]
fn many_groups_are_printed(rt: HostRuntime) -> Result<(), Fail> {
    let text = repeated(rt.alloc(), b"From: ", b":;", 100_000)?;
    let envelope = envelope_text(rt.alloc(), &text)?;
    assert_eq!(rt; envelope.len(), 3 * (2 + 33 * 100_000) + 7 * 3 + 9 + 2);
    Ok(())
}

#[test]
fn hostile_texts_can_be_read(rt: HostRuntime) -> Result<(), Fail> {
    let comments = repeated(rt.alloc(), b"To: ", b"(", 200_000)?;
    assert_eq!(rt; can_be_read(rt.alloc(), &comments)?, true);
    let brackets = repeated(rt.alloc(), b"To: a ", b"<@a:b ", 50_000)?;
    assert_eq!(rt; can_be_read(rt.alloc(), &brackets)?, true);
    let parameters = repeated(rt.alloc(), b"Content-Type: a/b", b";a=\"\\", 50_000)?;
    assert_eq!(rt; can_be_read(rt.alloc(), &parameters)?, true);
    let fields = repeated(rt.alloc(), b"", b"To: a@b\r\n", 20_000)?;
    assert_eq!(rt; can_be_read(rt.alloc(), &fields)?, true);
    Ok(())
}

#[test]
fn print_laws_are_called(_rt: HostRuntime) {
    one_reading();
    envelope_reads_back();
    body_reads_back();
}
