//! The arguments of SEARCH (RFC 9051, section 6.4.4).

ghost use Rattle.std.specs.Prelude.{◌≡◌};
ghost use Rattle.imap_grammar.specs.KeyReading.{below_at, charset_at, charset_name_at, is_charset};
ghost use Rattle.imap_grammar.specs.KeyReading.{keys_at, maybe_options_at, returned_at};
ghost use Rattle.imap_grammar.specs.KeyReading.{returned_group_at, search_at};
ghost use Rattle.imap_syntax.specs.KeyWords.{option_word, search_options};
ghost use Rattle.imap_grammar.specs.Reading.{IsReading, named_at};

use crate::element_list::{ListElement, element_list};
use crate::fault::ParseFault;
use crate::grammar_word::find;
use crate::keys::keys;
use crate::modifier::fault_of_word;
use crate::scan::{skip, space, span};
use crate::text::spaced_text;
use imap_syntax::{Command, OctetClass, Search, SearchOption, SearchSteps, WrittenValues};
use std::alloc::Global;

/// The number of levels that NOT, OR and parentheses may nest.
const MAX_LEVELS: usize = 64;

/// The return options.
const SEARCH_OPTIONS: [SearchOption; 4] = [
    SearchOption::Min,
    SearchOption::Max,
    SearchOption::All,
    SearchOption::Count,
];

/// Reads the arguments of SEARCH: RETURN, CHARSET and the keys (RFC 9051, section 6.4.4).
pub fn search(alloc: Global, by_uid: bool, octets: &[u8]) -> Result<(Command, &[u8]), ParseFault>
    ensures { IsReading (λ x. (x.0, x.1.now)) result (search_at by_uid octets.now) }
{
    let (options, rest) = return_clause(alloc, space(octets)?)?;
    let rest = charset(alloc, rest)?;
    let (steps, rest) = key(alloc, rest)?;
    let search = Search {
        by_uid,
        options: WrittenValues::new(options),
        steps,
    };
    Ok((Command::Search(search), rest))
}

/// Reads the keys, which together are one key.
fn key(alloc: Global, octets: &[u8]) -> Result<(SearchSteps, &[u8]), ParseFault>
    ensures { IsReading (λ x. (x.0, x.1.now)) result (keys_at (below_at 65) octets.now) }
{
    let (steps, rest) = keys(alloc, MAX_LEVELS + 1, octets)?;
    Ok((SearchSteps::new(steps), rest))
}

/// Reads RETURN with its options and a space, or nothing.
fn return_clause(alloc: Global, octets: &[u8]) -> Result<(Vec<SearchOption>, &[u8]), ParseFault>
    ensures { IsReading (λ x. (x.0.items, x.1.now)) result (returned_at octets.now) }
{
    let (token, rest) = span(OctetClass::Item, octets);
    if !token.eq_ignore_ascii_case(b"RETURN") {
        return Ok((Vec::new(alloc), octets));
    }
    returned_group(alloc, rest)
}

/// Reads the options of RETURN, in parentheses, and the spaces around them.
fn returned_group(alloc: Global, octets: &[u8]) -> Result<(Vec<SearchOption>, &[u8]), ParseFault>
    ensures { IsReading (λ x. (x.0.items, x.1.now)) result (returned_group_at octets.now) }
{
    let rest = skip(space(octets)?, b"(")?;
    let (options, rest) = maybe_options(alloc, rest)?;
    let rest = skip(rest, b")")?;
    let rest = space(rest)?;
    Ok((options, rest))
}

/// Reads zero or more options up to the closing parenthesis.
fn maybe_options(alloc: Global, octets: &[u8]) -> Result<(Vec<SearchOption>, &[u8]), ParseFault>
    ensures { IsReading (λ x. (x.0.items, x.1.now)) result (maybe_options_at octets.now) }
{
    match octets {
        [] => Err(ParseFault::BadSyntax),
        [first, ..] => {
            if *first == b')' {
                return Ok((Vec::new(alloc), octets));
            }
            element_list::<Options>(alloc, b' ', octets)
        }
    }
}

/// Reads one option of a list.
struct Options;

impl ListElement for Options {
    type Value = SearchOption;

    ghost use Rattle.imap_syntax.specs.KeyWords.{option_word, search_options};
    ghost use Rattle.imap_grammar.specs.Reading.{named_at};

    ghost read_at = { named_at option_word search_options };

    fn read(_alloc: Global, octets: &[u8]) -> Result<(SearchOption, &[u8]), ParseFault> {
        search_option(octets)
    }
}

/// Reads an option. SAVE (RFC 9051, section 6.4.4.1) is one that this server doesn't support.
fn search_option(octets: &[u8]) -> Result<(SearchOption, &[u8]), ParseFault>
    ensures { IsReading (λ x. (x.0, x.1.now)) result
        (named_at option_word search_options octets.now) }
{
    let (token, rest) = span(OctetClass::Item, octets);
    match find(&SEARCH_OPTIONS, token) {
        Some(option) => Ok((option, rest)),
        None => Err(fault_of_word(octets, &[b"SAVE"])),
    }
}

/// The octets after CHARSET, its name and a space, or all octets if they don't begin with CHARSET.
fn charset(alloc: Global, octets: &[u8]) -> Result<&[u8], ParseFault>
    ensures { IsReading (λ rest. rest.now) result (charset_at octets.now) }
{
    let (token, rest) = span(OctetClass::Item, octets);
    if !token.eq_ignore_ascii_case(b"CHARSET") {
        return Ok(octets);
    }
    charset_name(alloc, rest)
}

/// The octets after a charset's name and a space. Only UTF-8 and US-ASCII are supported.
fn charset_name(alloc: Global, octets: &[u8]) -> Result<&[u8], ParseFault>
    ensures { IsReading (λ rest. rest.now) result (charset_name_at octets.now) }
{
    let (name, rest) = spaced_text(alloc, octets)?;
    if !is_charset(name.as_bytes()) {
        return Err(ParseFault::NotInProfile);
    }
    space(rest)
}

/// Whether this charset is supported; its name may be in any letter case.
fn is_charset(name: &[u8]) -> bool
    ensures { result ≡ is_charset name.now }
{
    name.eq_ignore_ascii_case(b"UTF-8") || name.eq_ignore_ascii_case(b"US-ASCII")
}
