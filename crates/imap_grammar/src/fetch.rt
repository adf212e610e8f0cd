//! The arguments of FETCH (RFC 9051, section 6.4.5; RFC 7162, section 3.1.4).

ghost use Rattle.std.specs.Prelude.{◌≡◌, ◌⊎◌, IfOk};
ghost use Rattle.imap_grammar.specs.Reading.{IsReading, body_at, bracketed_at, fast_or_item_at};
ghost use Rattle.imap_grammar.specs.Reading.{fetched_at};
ghost use Rattle.imap_grammar.specs.Reading.{field_names_at, item_at, item_tail_at, named_at};
ghost use Rattle.imap_grammar.specs.Reading.{partial_at, section_at, section_tail_at};
ghost use Rattle.imap_grammar.specs.CommandReading.{fetch_at};
ghost use Rattle.imap_syntax.specs.Words.{fetch_word, fetch_words, section_word, section_words};
ghost use Rattle.imap_syntax.specs.Items.{fast_items};
ghost use Rattle.imap_grammar.specs.declared.fault.ParseFault.TheVariants.{BadSyntax, NotInProfile};

use crate::element_list::{ListElement, element_list};
use crate::fault::ParseFault;
use crate::grammar_word::{GrammarWord, find};
use crate::modifier::{changed_since, fault_of_word};
use crate::numbers::{number, nz};
use crate::scan::{skip, space, span};
use crate::sets::spaced_set;
use crate::text::text;
use imap_syntax::{
    Command, Fetch, FetchItem, FetchWord, OctetClass, Partial, SectionWord, WrittenValues,
};
use imap_types::{FieldNames, Octets, Section};
use std::alloc::{AllocError, Global};

/// The words that begin items.
const FETCH_WORDS: [FetchWord; 7] = [
    FetchWord::Flags,
    FetchWord::InternalDate,
    FetchWord::Size,
    FetchWord::Uid,
    FetchWord::ModSeq,
    FetchWord::Body,
    FetchWord::BodyPeek,
];

impl GrammarWord for FetchWord {
    ghost use Rattle.imap_syntax.specs.Words.{fetch_word};

    ghost word_of = { fetch_word };

    fn text(self) -> &'static [u8] {
        match self {
            FetchWord::Flags => b"FLAGS",
            FetchWord::InternalDate => b"INTERNALDATE",
            FetchWord::Size => b"RFC822.SIZE",
            FetchWord::Uid => b"UID",
            FetchWord::ModSeq => b"MODSEQ",
            FetchWord::Body => b"BODY",
            FetchWord::BodyPeek => b"BODY.PEEK",
        }
    }
}

/// The words that begin sections.
const SECTION_WORDS: [SectionWord; 4] = [
    SectionWord::Header,
    SectionWord::Text,
    SectionWord::Fields,
    SectionWord::FieldsNot,
];

impl GrammarWord for SectionWord {
    ghost use Rattle.imap_syntax.specs.Words.{section_word};

    ghost word_of = { section_word };

    fn text(self) -> &'static [u8] {
        match self {
            SectionWord::Header => b"HEADER",
            SectionWord::Text => b"TEXT",
            SectionWord::Fields => b"HEADER.FIELDS",
            SectionWord::FieldsNot => b"HEADER.FIELDS.NOT",
        }
    }
}

/// Reads the arguments of FETCH (RFC 9051, section 6.4.5; RFC 7162, section 3.1.4). Spare capacity
/// is released, since a journal stores the command for good.
pub fn fetch(alloc: Global, by_uid: bool, octets: &[u8]) -> Result<(Command, &[u8]), ParseFault>
    ensures { IsReading (λ x. (x.0, x.1.now)) result (fetch_at by_uid octets.now) }
{
    let (messages, rest) = spaced_set(alloc, octets)?;
    let (mut items, rest) = fetch_items(alloc, space(rest)?)?;
    items.shrink_to_fit();
    let (changed_since, rest) = changed_since(rest)?;
    let fetch = Fetch {
        by_uid,
        messages,
        items: WrittenValues::new(items),
        changed_since,
    };
    Ok((Command::Fetch(fetch), rest))
}

/// Reads items in parentheses, FAST, or one item.
fn fetch_items(alloc: Global, octets: &[u8]) -> Result<(Vec<FetchItem>, &[u8]), ParseFault>
    ensures { IsReading (λ x. (x.0.items, x.1.now)) result (fetched_at octets.now) }
{
    match octets {
        [] => Err(ParseFault::BadSyntax),
        [first, rest @ ..] => {
            if *first == b'(' {
                let (items, rest) = element_list::<Items>(alloc, b' ', rest)?;
                let rest = skip(rest, b")")?;
                return Ok((items, rest));
            }
            fast_or_item(alloc, octets)
        }
    }
}

/// Reads FAST or one item.
fn fast_or_item(alloc: Global, octets: &[u8]) -> Result<(Vec<FetchItem>, &[u8]), ParseFault>
    ensures { IsReading (λ x. (x.0.items, x.1.now)) result (fast_or_item_at octets.now) }
{
    let (token, rest) = span(OctetClass::Item, octets);
    if token.eq_ignore_ascii_case(b"FAST") {
        return Ok((fast(alloc)?, rest));
    }
    let (item, rest) = item(alloc, octets)?;
    let mut items = Vec::new(alloc);
    items.push(item)?;
    Ok((items, rest))
}

/// The three items that FAST means.
fn fast(alloc: Global) -> Result<Vec<FetchItem>, AllocError>
    ensures { IfOk result (λ items. items.items ≡ fast_items) }
{
    let mut items = Vec::new(alloc);
    items.push(FetchItem::Flags)?;
    items.push(FetchItem::InternalDate)?;
    items.push(FetchItem::Size)?;
    Ok(items)
}

/// Reads one item of a list.
struct Items;

impl ListElement for Items {
    type Value = FetchItem;

    ghost use Rattle.imap_grammar.specs.Reading.{item_at};

    ghost read_at = { item_at };

    fn read(alloc: Global, octets: &[u8]) -> Result<(FetchItem, &[u8]), ParseFault> {
        item(alloc, octets)
    }
}

/// Reads one item.
fn item(alloc: Global, octets: &[u8]) -> Result<(FetchItem, &[u8]), ParseFault>
    ensures { IsReading (λ x. (x.0, x.1.now)) result (item_at octets.now) }
{
    let (word, rest) = fetch_word(octets)?;
    item_tail(alloc, word, rest)
}

/// Reads an item's word. Some words belong to forms that this server doesn't support.
fn fetch_word(octets: &[u8]) -> Result<(FetchWord, &[u8]), ParseFault>
    ensures { IsReading (λ x. (x.0, x.1.now)) result (named_at fetch_word fetch_words octets.now) }
{
    let (token, rest) = span(OctetClass::Item, octets);
    match find(&FETCH_WORDS, token) {
        Some(word) => Ok((word, rest)),
        None => Err(fault_of_word(
            octets,
            &[
                b"ENVELOPE",
                b"BODYSTRUCTURE",
                b"BINARY",
                b"BINARY.PEEK",
                b"BINARY.SIZE",
                b"ALL",
                b"FULL",
                b"RFC822",
                b"RFC822.HEADER",
                b"RFC822.TEXT",
            ],
        )),
    }
}

/// Reads the rest of the item that this word begins.
fn item_tail(
    alloc: Global,
    word: FetchWord,
    octets: &[u8],
) -> Result<(FetchItem, &[u8]), ParseFault>
    ensures { IsReading (λ x. (x.0, x.1.now)) result (item_tail_at word octets.now) }
{
    match word {
        FetchWord::Flags => Ok((FetchItem::Flags, octets)),
        FetchWord::InternalDate => Ok((FetchItem::InternalDate, octets)),
        FetchWord::Size => Ok((FetchItem::Size, octets)),
        FetchWord::Uid => Ok((FetchItem::Uid, octets)),
        FetchWord::ModSeq => Ok((FetchItem::ModSeq, octets)),
        FetchWord::Body => body(alloc, false, octets),
        FetchWord::BodyPeek => body(alloc, true, octets),
    }
}

/// Reads the section and the partial range of BODY or BODY.PEEK.
fn body(alloc: Global, peek: bool, octets: &[u8]) -> Result<(FetchItem, &[u8]), ParseFault>
    ensures { IsReading (λ x. (x.0, x.1.now)) result (body_at peek octets.now) }
{
    let (section, rest) = bracketed_section(alloc, peek, octets)?;
    let (partial, rest) = partial_range(rest)?;
    Ok((
        FetchItem::Body {
            peek,
            section,
            partial,
        },
        rest,
    ))
}

/// Reads a section between brackets.
fn bracketed_section(
    alloc: Global,
    peek: bool,
    octets: &[u8],
) -> Result<(Section, &[u8]), ParseFault>
    ensures { IsReading (λ x. (x.0, x.1.now)) result (bracketed_at octets.now) }
{
    match octets {
        [] => Err(no_section(peek)),
        [first, rest @ ..] => {
            if *first != b'[' {
                return Err(no_section(peek));
            }
            let (section, rest) = section(alloc, rest)?;
            let rest = skip(rest, b"]")?;
            Ok((section, rest))
        }
    }
}

/// The fault if the brackets are missing. Without them only BODY is a form of IMAP, and this server
/// doesn't support it.
fn no_section(peek: bool) -> ParseFault
    ensures { (result ≡ BadSyntax) ⊎ (result ≡ NotInProfile) }
{
    if peek {
        ParseFault::BadSyntax
    } else {
        ParseFault::NotInProfile
    }
}

/// Reads a section up to its bracket; nothing means the whole text (RFC 9051, section 9,
/// section-spec).
fn section(alloc: Global, octets: &[u8]) -> Result<(Section, &[u8]), ParseFault>
    ensures { IsReading (λ x. (x.0, x.1.now)) result (section_at octets.now) }
{
    match octets {
        [] => Err(ParseFault::BadSyntax),
        [first, ..] => {
            if *first == b']' {
                return Ok((Section::Whole, octets));
            }
            let (word, rest) = section_word(octets)?;
            section_tail(alloc, word, rest)
        }
    }
}

/// Reads a section's word. Numbered parts and MIME are forms that this server doesn't support.
fn section_word(octets: &[u8]) -> Result<(SectionWord, &[u8]), ParseFault>
    ensures { IsReading (λ x. (x.0, x.1.now)) result
        (named_at section_word section_words octets.now) }
{
    let (token, rest) = span(OctetClass::Item, octets);
    match find(&SECTION_WORDS, token) {
        Some(word) => Ok((word, rest)),
        None => {
            let (digits, _) = span(OctetClass::Digit, octets);
            if !digits.is_empty() {
                return Err(ParseFault::NotInProfile);
            }
            Err(fault_of_word(octets, &[b"MIME"]))
        }
    }
}

/// Reads the rest of the section that this word begins.
fn section_tail(
    alloc: Global,
    word: SectionWord,
    octets: &[u8],
) -> Result<(Section, &[u8]), ParseFault>
    ensures { IsReading (λ x. (x.0, x.1.now)) result (section_tail_at word octets.now) }
{
    match word {
        SectionWord::Header => Ok((Section::Header, octets)),
        SectionWord::Text => Ok((Section::Text, octets)),
        SectionWord::Fields => {
            let (names, rest) = field_names(alloc, octets)?;
            Ok((Section::Fields { names }, rest))
        }
        SectionWord::FieldsNot => {
            let (names, rest) = field_names(alloc, octets)?;
            Ok((Section::FieldsNot { names }, rest))
        }
    }
}

/// Reads one astring of a list.
struct Astrings;

impl ListElement for Astrings {
    type Value = Octets;

    ghost use Rattle.imap_grammar.specs.Reading.{text_at};
    ghost use Rattle.imap_syntax.specs.declared.octet_class.OctetClass.TheVariants.{Astring};

    ghost read_at = { text_at Astring };

    fn read(alloc: Global, octets: &[u8]) -> Result<(Octets, &[u8]), ParseFault> {
        text(alloc, OctetClass::Astring, octets)
    }
}

/// Reads ` (name name ..)` (RFC 9051, section 9, header-list).
fn field_names(alloc: Global, octets: &[u8]) -> Result<(FieldNames, &[u8]), ParseFault>
    ensures { IsReading (λ x. (x.0, x.1.now)) result (field_names_at octets.now) }
{
    let rest = skip(space(octets)?, b"(")?;
    let (names, rest) = element_list::<Astrings>(alloc, b' ', rest)?;
    let rest = skip(rest, b")")?;
    Ok((FieldNames::new(names), rest))
}

/// Reads `<start.count>` or nothing (RFC 9051, section 9, partial).
fn partial_range(octets: &[u8]) -> Result<(Option<Partial>, &[u8]), ParseFault>
    ensures { IsReading (λ x. (x.0, x.1.now)) result (partial_at octets.now) }
{
    match octets {
        [] => Ok((None, octets)),
        [first, rest @ ..] => {
            if *first != b'<' {
                return Ok((None, octets));
            }
            let (start, rest) = number(rest, 4_294_967_295)?;
            let rest = skip(rest, b".")?;
            let (count, rest) = nz(rest)?;
            let rest = skip(rest, b">")?;
            Ok((
                Some(Partial {
                    start: start as u32,
                    count,
                }),
                rest,
            ))
        }
    }
}
