//! The values of structured header fields.

use mail_fields::{Parameter, media_type, token_with_parameters, written_types_are_read};
use std::alloc::{AllocError, Global};
use std::test::Fail;

/// Values of Content-Type, with type, subtype and parameters; nothing for a value without type and
/// subtype. The first is an example of RFC 2045, section 5.1.
const TYPES: &[(&str, &str)] = &[
    (
        " text/plain; charset=us-ascii (Plain text)\r\n",
        "text/plain;charset=us-ascii",
    ),
    (
        " text/plain; charset=\"us-ascii\"\r\n",
        "text/plain;charset=us-ascii",
    ),
    ("Text/HTML", "Text/HTML"),
    (
        "(a (b) \\)) multipart / (c) mixed ;\r\n\tboundary = \"a\\\"b\\\\;c\" ; x=y",
        "multipart/mixed;boundary=a\"b\\;c;x=y",
    ),
    (
        "a/b;c=----=_N/1;d*0*=us'en'%20",
        "a/b;c=----=_N/1;d*0*=us'en'%20",
    ),
    ("a/b; c; =d; e=; f=\"g", "a/b;e=;f=g"),
    ("a/b c=d; e=f(g)h", "a/b;e=f"),
    ("garbage; a=b", ""),
    ("/b", ""),
    ("a/", ""),
    ("\"a\"/b", ""),
    ("", ""),
];

/// Values of Content-Disposition (RFC 2183, section 3), with token and parameters.
const TOKENS: &[(&str, &str)] = &[
    (" inline\r\n", "inline"),
    (
        " attachment; filename=genome.jpeg;\r\n modification-date=\"Wed, 12 Feb 1997\";",
        "attachment;filename=genome.jpeg;modification-date=Wed, 12 Feb 1997",
    ),
    ("; a=b", ""),
];

fn push_parameters(text: &mut Vec<u8>, parameters: &[Parameter]) -> Result<(), AllocError> {
    for parameter in parameters {
        text.push(b';')?;
        text.extend_from_slice(parameter.name.as_bytes())?;
        text.push(b'=')?;
        text.extend_from_slice(parameter.value.as_bytes())?;
    }
    Ok(())
}

fn type_text(alloc: Global, value: &str) -> Result<Vec<u8>, AllocError> {
    let mut text = Vec::new(alloc);
    let Some(media) = media_type(alloc, value.as_bytes())? else {
        return Ok(text);
    };
    text.extend_from_slice(media.major.as_bytes())?;
    text.push(b'/')?;
    text.extend_from_slice(media.minor.as_bytes())?;
    push_parameters(&mut text, &media.parameters)?;
    Ok(text)
}

fn token_text(alloc: Global, value: &str) -> Result<Vec<u8>, AllocError> {
    let mut text = Vec::new(alloc);
    let Some(found) = token_with_parameters(alloc, value.as_bytes())? else {
        return Ok(text);
    };
    text.extend_from_slice(found.token.as_bytes())?;
    push_parameters(&mut text, &found.parameters)?;
    Ok(text)
}

/// The place of the first type that is read differently, if any.
fn first_wrong_type(alloc: Global) -> Result<Option<usize>, AllocError> {
    for place in 0..TYPES.len() {
        let (value, text) = TYPES[place];
        if type_text(alloc, value)?.as_slice() != text.as_bytes() {
            return Ok(Some(place));
        }
    }
    Ok(None)
}

/// The place of the first token that is read differently, if any.
fn first_wrong_token(alloc: Global) -> Result<Option<usize>, AllocError> {
    for place in 0..TOKENS.len() {
        let (value, text) = TOKENS[place];
        if token_text(alloc, value)?.as_slice() != text.as_bytes() {
            return Ok(Some(place));
        }
    }
    Ok(None)
}

#[test]
fn types_are_read(rt: HostRuntime) -> Result<(), Fail> {
    assert_eq!(rt; first_wrong_type(rt.alloc())?, None);
    Ok(())
}

#[test]
fn tokens_are_read(rt: HostRuntime) -> Result<(), Fail> {
    assert_eq!(rt; first_wrong_token(rt.alloc())?, None);
    Ok(())
}

#[test]
fn laws_are_called(_rt: HostRuntime) {
    written_types_are_read();
}
