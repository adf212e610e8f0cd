//! Flags of messages (RFC 9051, section 9, flag).

ghost use Rattle.std.specs.Prelude.{◌≡◌, IfOk, OnOk};
ghost use Rattle.imap_grammar.specs.Reading.{IsReading, flag_at, flag_group_at, flags_of};
ghost use Rattle.imap_grammar.specs.Reading.{maybe_flags_at, named_at, no_flags, store_flags_at};
ghost use Rattle.imap_grammar.specs.Reading.{stored_texts_at, with_flag};
ghost use Rattle.imap_syntax.specs.Words.{system_flags, system_word};

use crate::element_list::{ListElement, element_list};
use crate::fault::ParseFault;
use crate::grammar_word::{GrammarWord, find};
use crate::scan::{skip, span};
use crate::text::plain;
use imap_syntax::{Flag, OctetClass, SystemFlag};
use imap_types::{Flags, Octets};
use std::alloc::{AllocError, Global};

/// The system flags.
const SYSTEM_FLAGS: [SystemFlag; 5] = [
    SystemFlag::Answered,
    SystemFlag::Flagged,
    SystemFlag::Deleted,
    SystemFlag::Seen,
    SystemFlag::Draft,
];

impl GrammarWord for SystemFlag {
    ghost use Rattle.imap_syntax.specs.Words.{system_word};

    ghost word_of = { system_word };

    fn text(self) -> &'static [u8] {
        match self {
            SystemFlag::Answered => b"Answered",
            SystemFlag::Flagged => b"Flagged",
            SystemFlag::Deleted => b"Deleted",
            SystemFlag::Seen => b"Seen",
            SystemFlag::Draft => b"Draft",
        }
    }
}

/// Reads one flag of a list.
struct FlagTexts;

impl ListElement for FlagTexts {
    type Value = Flag;

    ghost use Rattle.imap_grammar.specs.Reading.{flag_at};

    ghost read_at = { flag_at };

    fn read(alloc: Global, octets: &[u8]) -> Result<(Flag, &[u8]), ParseFault> {
        one_flag(alloc, octets)
    }
}

/// Reads one flag: a `\` and a system flag, or a keyword.
fn one_flag(alloc: Global, octets: &[u8]) -> Result<(Flag, &[u8]), ParseFault>
    ensures { IsReading (λ x. (x.0, x.1.now)) result (flag_at octets.now) }
{
    match octets {
        [] => Err(ParseFault::BadSyntax),
        [first, rest @ ..] => {
            if *first == b'\\' {
                let (known, rest) = system_flag(rest)?;
                return Ok((Flag::System(known), rest));
            }
            let (keyword, rest) = plain(alloc, OctetClass::Atom, octets)?;
            Ok((Flag::Keyword(keyword), rest))
        }
    }
}

/// Reads a system flag after its `\`. Any other word is a flag that this server doesn't support.
fn system_flag(octets: &[u8]) -> Result<(SystemFlag, &[u8]), ParseFault>
    ensures { IsReading (λ x. (x.0, x.1.now)) result
        (named_at system_word system_flags octets.now) }
{
    let (token, rest) = span(OctetClass::Item, octets);
    match find(&SYSTEM_FLAGS, token) {
        Some(known) => Ok((known, rest)),
        None => {
            if token.is_empty() {
                return Err(ParseFault::BadSyntax);
            }
            Err(ParseFault::NotInProfile)
        }
    }
}

/// Reads flags in parentheses, or one or more without (RFC 9051, section 9, store-att-flags).
pub fn store_flags(alloc: Global, octets: &[u8]) -> Result<(Flags, &[u8]), ParseFault>
    ensures { IsReading (λ x. (x.0, x.1.now)) result (store_flags_at octets.now) }
{
    let (written, rest) = stored_texts(alloc, octets)?;
    Ok((collect_flags(alloc, &written)?, rest))
}

/// Reads the flags of STORE as they are written.
fn stored_texts(alloc: Global, octets: &[u8]) -> Result<(Vec<Flag>, &[u8]), ParseFault>
    ensures { IsReading (λ x. (x.0.items, x.1.now)) result (stored_texts_at octets.now) }
{
    match octets {
        [] => Err(ParseFault::BadSyntax),
        [first, ..] => {
            if *first == b'(' {
                return flag_group(alloc, octets);
            }
            element_list::<FlagTexts>(alloc, b' ', octets)
        }
    }
}

/// Reads zero or more flags in parentheses, as they are written (RFC 9051, section 9, flag-list).
pub fn flag_group(alloc: Global, octets: &[u8]) -> Result<(Vec<Flag>, &[u8]), ParseFault>
    ensures { IsReading (λ x. (x.0.items, x.1.now)) result (flag_group_at octets.now) }
{
    let rest = skip(octets, b"(")?;
    let (written, rest) = maybe_flags(alloc, rest)?;
    let rest = skip(rest, b")")?;
    Ok((written, rest))
}

/// Reads zero or more flags up to the closing parenthesis.
fn maybe_flags(alloc: Global, octets: &[u8]) -> Result<(Vec<Flag>, &[u8]), ParseFault>
    ensures { IsReading (λ x. (x.0.items, x.1.now)) result (maybe_flags_at octets.now) }
{
    match octets {
        [] => Err(ParseFault::BadSyntax),
        [first, ..] => {
            if *first == b')' {
                return Ok((Vec::new(alloc), octets));
            }
            element_list::<FlagTexts>(alloc, b' ', octets)
        }
    }
}

/// The set of these flags; `Err` if memory runs out.
pub fn collect_flags(alloc: Global, written: &[Flag]) -> Result<Flags, AllocError>
    ensures { IfOk result (λ flags. flags ≡ flags_of no_flags written.now) }
{
    let mut flags = Flags::none(alloc);
    for flag in written {
        add(alloc, &mut flags, flag)?;
    }
    Ok(flags)
}

/// Adds a flag to a set. An `Err`, if memory runs out, may leave `flags` changed.
fn add(alloc: Global, flags: &mut Flags, flag: &Flag) -> Result<(), AllocError>
    ensures { OnOk result (flags.new ≡ with_flag flags.old flag.now) }
{
    match flag {
        Flag::System(SystemFlag::Answered) => flags.answered = true,
        Flag::System(SystemFlag::Flagged) => flags.flagged = true,
        Flag::System(SystemFlag::Deleted) => flags.deleted = true,
        Flag::System(SystemFlag::Seen) => flags.seen = true,
        Flag::System(SystemFlag::Draft) => flags.draft = true,
        Flag::Keyword(keyword) => flags.keywords.insert(alloc, keyword.as_bytes())?,
    }
    Ok(())
}
