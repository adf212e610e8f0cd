//! The arguments of SEARCH (RFC 3501, section 6.4.4).

ghost use Rattle.std.specs.Prelude.{◌≡◌, ◌≤◌, ◌<◌, ◌+◌, ◌-◌, ◌^◌, IfOk, IfSome, Some, length, take};
ghost use Rattle.std.specs.Prelude.{not, ◌==◌};
ghost use Rattle.mail_text.specs.TextSearch.{is_prefix};
ghost use Rattle.imap_grammar.specs.Reading.{span};
ghost use Rattle.rev1_front.specs.SearchReading.{after_line, charset_len, charset_name, is_charset};
ghost use Rattle.rev1_front.specs.SearchReading.{known_len, paren_len, program_read, returned_len};
ghost use Rattle.rev1_front.specs.SearchReading.{search_read};
ghost use Rattle.rev1_front.specs.SearchSteps.{shown_arguments};

use crate::search_days::SentDay;
use crate::search_keys::profile_keys;
use crate::tokens::{is_word, token_len};
use std::alloc::{AllocError, Global};

/// The arguments of SEARCH in the profile.
#[derive(Drop)]
pub enum SearchArguments {
    /// These, after the word of the command.
    Profile {
        rest: Vec<u8>,
        /// Whether they depend on the days on which messages were sent.
        asks_sent: bool,
    },
    /// The charset isn't known.
    UnknownCharset,
}

/// The arguments of SEARCH, after its word, with keys of the profile. `Err` if memory runs out.
pub fn search_arguments(
    alloc: Global,
    days: &[SentDay],
    rest: &[u8],
) -> Result<SearchArguments, AllocError>
    ensures { IfOk result (λ read. shown_arguments read ≡ search_read days.now rest.now) }
{
    let (returned, program) = rest.split_at(returned_len(rest));
    match charset_len(program) {
        None => Ok(SearchArguments::UnknownCharset),
        Some(len) => program_arguments(alloc, days, returned, program, len),
    }
}

/// The arguments with these options, of which CHARSET and its name have this length. `Err` if
/// memory runs out.
fn program_arguments(
    alloc: Global,
    days: &[SentDay],
    returned: &[u8],
    program: &[u8],
    len: usize,
) -> Result<SearchArguments, AllocError>
    requires { len ≤ length program.now }
    ensures { IfOk result (λ read. shown_arguments read
        ≡ program_read days.now returned.now program.now (Some len)) }
{
    let (charset, keys) = program.split_at(len);
    let keys = profile_keys(alloc, days, keys)?;
    let mut arguments = returned.to_vec(alloc)?;
    arguments.extend_from_slice(charset)?;
    arguments.extend_from_slice(&keys.text)?;
    Ok(SearchArguments::Profile {
        rest: arguments,
        asks_sent: keys.asks_sent,
    })
}

/// Whether octets begin with a word, in any letter case.
pub fn has_prefix(octets: &[u8], word: &[u8]) -> bool
    ensures { result ≡ is_prefix word.now octets.now }
{
    octets[..word.len().min(octets.len())].eq_ignore_ascii_case(word)
}

/// How long RETURN with its options is, after a space; 0 without it.
fn returned_len(rest: &[u8]) -> usize
    ensures value { result ≡ returned_len rest.now }
    ensures within { result ≤ length rest.now }
{
    if has_prefix(rest, b" RETURN ") {
        paren_len(rest)
    } else {
        0
    }
}

/// How long the octets up to the first `)` are, with it; 0 if there is none.
fn paren_len(octets: &[u8]) -> usize
    ensures value { result ≡ paren_len octets.now }
    ensures within { result ≤ length octets.now }
{
    let (front, rest) = cut_before(octets, b')');
    if rest.is_empty() { 0 } else { front.len() + 1 }
}

/// Splits octets before the first that is this one.
fn cut_before(octets: &[u8], end: u8) -> (&[u8], &[u8])
    ensures { (result.0.now, result.1.now) ≡ span (λ octet. not (octet == end)) octets.now }
{
    let mut len = 0;
    for octet in octets {
        if *octet == end {
            break;
        }
        len += 1;
    }
    octets.split_at(len)
}

/// How long CHARSET with its name is, after a space; 0 without it, `None` if it isn't known.
fn charset_len(rest: &[u8]) -> Option<usize>
    ensures value { result ≡ charset_len rest.now }
    ensures within { IfSome result (λ len. len ≤ length rest.now) }
{
    if !has_prefix(rest, b" CHARSET ") {
        return Some(0);
    }
    if rest.len() < 9 {
        return Some(0);
    }
    known_len(&rest[9..])
}

/// The length of ` CHARSET ` and of the name that octets begin with; `None` if it isn't known.
fn known_len(octets: &[u8]) -> Option<usize>
    requires { length octets.now + 9 < 2 ^ 64 }
    ensures value { result ≡ known_len octets.now }
    ensures within { IfSome result (λ len. len ≤ length octets.now + 9) }
{
    let len = token_len(octets);
    if !is_charset(charset_name(&octets[..len])) {
        return None;
    }
    Some(9 + len)
}

/// The name in a token: without quotes, or after the CRLF of a literal.
fn charset_name(token: &[u8]) -> &[u8]
    ensures { result.now ≡ charset_name token.now }
{
    match token {
        [] => token,
        [first, rest @ ..] => match *first {
            b'"' => without_last(rest),
            b'{' => after_line(rest),
            _ => token,
        },
    }
}

/// The octets but the last.
fn without_last(octets: &[u8]) -> &[u8]
    ensures { result.now ≡ take (length octets.now - 1) octets.now }
{
    &octets[..octets.len().saturating_sub(1)]
}

/// The octets after the first LF.
fn after_line(octets: &[u8]) -> &[u8]
    ensures { result.now ≡ after_line octets.now }
{
    let (_, rest) = cut_before(octets, b'\n');
    match rest {
        [] => rest,
        [_, rest @ ..] => rest,
    }
}

/// Whether this charset is known; its name may be in any letter case.
fn is_charset(name: &[u8]) -> bool
    ensures { result ≡ is_charset name.now }
{
    is_word(name, b"UTF-8") || is_word(name, b"US-ASCII")
}
