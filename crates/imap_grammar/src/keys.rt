//! The keys of SEARCH, read as steps in postfix order (RFC 9051, section 6.4.4; RFC 7162, section
//! 3.1.5).

ghost use Rattle.std.specs.Prelude.{◌≡◌, ◌⊎◌, ◌++◌, ◌∷◌, [], IfOk, OnOk, option_map};
ghost use Rattle.imap_grammar.specs.KeyReading.{below_at, keys_at, leaf_at, level_at, numbers_at};
ghost use Rattle.imap_grammar.specs.KeyReading.{worded_at};
ghost use Rattle.imap_syntax.specs.KeyWords.{key_word, key_words};
ghost use Rattle.imap_grammar.specs.Reading.{IsReading, map_read, named_at, next_at, number_at};
ghost use Rattle.imap_grammar.specs.Reading.{spaced};
ghost use Rattle.imap_grammar.specs.declared.fault.ParseFault.TheVariants.{BadSyntax, NotInProfile};
ghost use Rattle.imap_syntax.specs.declared.search.SearchKeyWord.TheVariants as key;
ghost use Rattle.imap_syntax.specs.declared.search.SearchStep.TheVariants.{And, Or, Test};

use crate::class::is_in;
use crate::dates::date;
use crate::fault::ParseFault;
use crate::grammar_word::find;
use crate::modifier::fault_of_word;
use crate::numbers::number;
use crate::scan::{skip, space, span};
use crate::sets::{set, spaced_set};
use crate::text::{plain, spaced_text, spaced_texts};
use imap_syntax::{
    DateRelation, OctetClass, SearchKeyWord, SearchStep, SearchTest, SystemFlag, TextPlace,
};
use std::alloc::{AllocError, Global};

/// The greatest number of octets and the greatest mod-sequence, 2^63 - 1 (RFC 9051, section 9,
/// number64).
const GREATEST: u64 = 9_223_372_036_854_775_807;

/// The words that begin keys.
const KEY_WORDS: [SearchKeyWord; 30] = [
    SearchKeyWord::All,
    SearchKeyWord::System {
        flag: SystemFlag::Answered,
        is_set: true,
    },
    SearchKeyWord::System {
        flag: SystemFlag::Answered,
        is_set: false,
    },
    SearchKeyWord::System {
        flag: SystemFlag::Flagged,
        is_set: true,
    },
    SearchKeyWord::System {
        flag: SystemFlag::Flagged,
        is_set: false,
    },
    SearchKeyWord::System {
        flag: SystemFlag::Deleted,
        is_set: true,
    },
    SearchKeyWord::System {
        flag: SystemFlag::Deleted,
        is_set: false,
    },
    SearchKeyWord::System {
        flag: SystemFlag::Seen,
        is_set: true,
    },
    SearchKeyWord::System {
        flag: SystemFlag::Seen,
        is_set: false,
    },
    SearchKeyWord::System {
        flag: SystemFlag::Draft,
        is_set: true,
    },
    SearchKeyWord::System {
        flag: SystemFlag::Draft,
        is_set: false,
    },
    SearchKeyWord::Keyword { is_set: true },
    SearchKeyWord::Keyword { is_set: false },
    SearchKeyWord::Place {
        place: TextPlace::Bcc,
    },
    SearchKeyWord::Place {
        place: TextPlace::Cc,
    },
    SearchKeyWord::Place {
        place: TextPlace::From,
    },
    SearchKeyWord::Place {
        place: TextPlace::Subject,
    },
    SearchKeyWord::Place {
        place: TextPlace::To,
    },
    SearchKeyWord::Place {
        place: TextPlace::Body,
    },
    SearchKeyWord::Place {
        place: TextPlace::Text,
    },
    SearchKeyWord::Header,
    SearchKeyWord::Dated {
        order: DateRelation::Before,
    },
    SearchKeyWord::Dated {
        order: DateRelation::On,
    },
    SearchKeyWord::Dated {
        order: DateRelation::Since,
    },
    SearchKeyWord::Larger,
    SearchKeyWord::Smaller,
    SearchKeyWord::ModSeq,
    SearchKeyWord::Uid,
    SearchKeyWord::Not,
    SearchKeyWord::Or,
];

/// Reads a key that nests at most `levels` levels of NOT, OR and parentheses, itself included.
#[cycle(keys)]
pub fn below(
    alloc: Global,
    levels: usize,
    octets: &[u8],
) -> Result<(Vec<SearchStep>, &[u8]), ParseFault>
    ensures { IsReading (λ x. (x.0.items, x.1.now)) result (below_at levels octets.now) }
{
    if levels == 0 {
        return Err(ParseFault::BadSyntax);
    }
    level(alloc, levels - 1, octets)
}

/// Reads a key whose inner keys nest at most `levels` levels.
#[cycle(keys)]
fn level(
    alloc: Global,
    levels: usize,
    octets: &[u8],
) -> Result<(Vec<SearchStep>, &[u8]), ParseFault>
    ensures { IsReading (λ x. (x.0.items, x.1.now)) result (level_at (below_at levels) octets.now) }
{
    match octets {
        [] => Err(ParseFault::BadSyntax),
        [first, rest @ ..] => {
            if *first == b'(' {
                let (steps, rest) = keys(alloc, levels, rest)?;
                let rest = skip(rest, b")")?;
                return Ok((steps, rest));
            }
            if is_in(OctetClass::Digit, *first) || *first == b'*' {
                return numbers(alloc, octets);
            }
            let (word, rest) = key_word(octets)?;
            key_of_word(alloc, levels, word, rest)
        }
    }
}

/// Reads a sequence set as a key.
fn numbers(alloc: Global, octets: &[u8]) -> Result<(Vec<SearchStep>, &[u8]), ParseFault>
    ensures { IsReading (λ x. (x.0.items, x.1.now)) result (numbers_at octets.now) }
{
    let (numbers, rest) = set(alloc, octets)?;
    Ok((steps_of_test(alloc, SearchTest::Numbers { numbers })?, rest))
}

/// The steps of a key that is one test.
fn steps_of_test(alloc: Global, test: SearchTest) -> Result<Vec<SearchStep>, AllocError>
    ensures { IfOk result (λ steps. steps.items ≡ Test test ∷ []) }
{
    let mut steps = Vec::new(alloc);
    steps.push(SearchStep::Test(test))?;
    Ok(steps)
}

/// Reads the word that begins a key.
fn key_word(octets: &[u8]) -> Result<(SearchKeyWord, &[u8]), ParseFault>
    ensures { IsReading (λ x. (x.0, x.1.now)) result (named_at key_word key_words octets.now) }
{
    let (token, rest) = span(OctetClass::Item, octets);
    match find(&KEY_WORDS, token) {
        Some(word) => Ok((word, rest)),
        None => Err(no_key(octets)),
    }
}

/// The fault of octets that begin no key. `$` (RFC 5182) and the keys for dates in headers are
/// forms that this server doesn't support.
fn no_key(octets: &[u8]) -> ParseFault
    ensures { (result ≡ BadSyntax) ⊎ (result ≡ NotInProfile) }
{
    if octets.starts_with(b"$") {
        return ParseFault::NotInProfile;
    }
    fault_of_word(octets, &[b"SENTBEFORE", b"SENTON", b"SENTSINCE"])
}

/// Reads the rest of the key that this word begins.
#[cycle(keys)]
fn key_of_word(
    alloc: Global,
    levels: usize,
    word: SearchKeyWord,
    octets: &[u8],
) -> Result<(Vec<SearchStep>, &[u8]), ParseFault>
    ensures { IsReading (λ x. (x.0.items, x.1.now)) result
        (worded_at (below_at levels) word octets.now) }
{
    match word {
        SearchKeyWord::Not => {
            let (mut steps, rest) = spaced_key(alloc, levels, octets)?;
            steps.push(SearchStep::Not)?;
            Ok((steps, rest))
        }
        SearchKeyWord::Or => {
            let (mut steps, rest) = spaced_key(alloc, levels, octets)?;
            let (second, rest) = spaced_key(alloc, levels, rest)?;
            or_key(&mut steps, second)?;
            Ok((steps, rest))
        }
        _ => leaf_key(alloc, word, octets),
    }
}

/// Reads a space and a key that nests at most `levels` levels.
#[cycle(keys)]
fn spaced_key(
    alloc: Global,
    levels: usize,
    octets: &[u8],
) -> Result<(Vec<SearchStep>, &[u8]), ParseFault>
    ensures { IsReading (λ x. (x.0.items, x.1.now)) result (spaced (below_at levels) octets.now) }
{
    below(alloc, levels, space(octets)?)
}

/// Reads the rest of a key that contains no other key.
fn leaf_key(
    alloc: Global,
    word: SearchKeyWord,
    octets: &[u8],
) -> Result<(Vec<SearchStep>, &[u8]), ParseFault>
    ensures { IsReading (λ x. (x.0.items, x.1.now)) result
        (map_read (λ test. Test test ∷ []) (leaf_at word) octets.now) }
{
    let (test, rest) = leaf(alloc, word, octets)?;
    Ok((steps_of_test(alloc, test)?, rest))
}

/// Joins the steps of two keys by OR. An `Err`, if memory runs out, may leave `steps` longer.
fn or_key(steps: &mut Vec<SearchStep>, second: Vec<SearchStep>) -> Result<(), AllocError>
    ensures { OnOk result (steps.new.items ≡ steps.old.items ++ second.items ++ Or ∷ []) }
{
    let mut second = second;
    steps.append(&mut second)?;
    steps.push(SearchStep::Or)?;
    Ok(())
}

/// Joins the steps of two keys by AND. An `Err`, if memory runs out, may leave `steps` longer.
fn and_key(steps: &mut Vec<SearchStep>, second: Vec<SearchStep>) -> Result<(), AllocError>
    ensures { OnOk result (steps.new.items ≡ steps.old.items ++ second.items ++ And ∷ []) }
{
    let mut second = second;
    steps.append(&mut second)?;
    steps.push(SearchStep::And)?;
    Ok(())
}

/// Reads one or more keys separated by single spaces, joined by AND.
#[cycle(keys)]
pub fn keys(
    alloc: Global,
    levels: usize,
    octets: &[u8],
) -> Result<(Vec<SearchStep>, &[u8]), ParseFault>
    ensures { IsReading (λ x. (x.0.items, x.1.now)) result (keys_at (below_at levels) octets.now) }
{
    let (mut steps, mut rest) = below(alloc, levels, octets)?;
    // Each turn takes a space, so there are at most as many turns as octets.
    for _ in 0..octets.len() {
        let Some((more, after)) = next_key(alloc, levels, rest)? else {
            return Ok((steps, rest));
        };
        and_key(&mut steps, more)?;
        rest = after;
    }
    Ok((steps, rest))
}

/// Reads a space and a key, if the octets begin with a space.
#[cycle(keys)]
fn next_key(
    alloc: Global,
    levels: usize,
    octets: &[u8],
) -> Result<Option<(Vec<SearchStep>, &[u8])>, ParseFault>
    ensures { IsReading (λ x. option_map (λ y. (y.0.items, y.1.now)) x) result
        (next_at 32 (below_at levels) octets.now) }
{
    match octets {
        [] => Ok(None),
        [first, rest @ ..] => {
            if *first != b' ' {
                return Ok(None);
            }
            let (more, rest) = below(alloc, levels, rest)?;
            Ok(Some((more, rest)))
        }
    }
}

/// Reads what follows the word of a key without inner keys, and returns its test.
fn leaf(
    alloc: Global,
    word: SearchKeyWord,
    octets: &[u8],
) -> Result<(SearchTest, &[u8]), ParseFault>
    ensures { IsReading (λ x. (x.0, x.1.now)) result (leaf_at word octets.now) }
{
    match word {
        SearchKeyWord::All => Ok((SearchTest::All, octets)),
        SearchKeyWord::System { flag, is_set } => Ok((SearchTest::System { flag, is_set }, octets)),
        SearchKeyWord::Keyword { is_set } => keyword(alloc, is_set, octets),
        SearchKeyWord::Place { place } => text_key(alloc, place, octets),
        SearchKeyWord::Header => header(alloc, octets),
        SearchKeyWord::Dated { order } => date_key(order, octets),
        SearchKeyWord::Larger => larger(octets),
        SearchKeyWord::Smaller => smaller(octets),
        SearchKeyWord::ModSeq => since(octets),
        SearchKeyWord::Uid => uids(alloc, octets),
        SearchKeyWord::Not => Err(ParseFault::BadSyntax),
        SearchKeyWord::Or => Err(ParseFault::BadSyntax),
    }
}

/// Reads the keyword of KEYWORD or UNKEYWORD.
fn keyword(alloc: Global, is_set: bool, octets: &[u8]) -> Result<(SearchTest, &[u8]), ParseFault>
    ensures { IsReading (λ x. (x.0, x.1.now)) result (leaf_at (key.Keyword is_set) octets.now) }
{
    let (keyword, rest) = plain(alloc, OctetClass::Atom, space(octets)?)?;
    Ok((SearchTest::Keyword { keyword, is_set }, rest))
}

/// Reads the text that must occur in a place of a message.
fn text_key(
    alloc: Global,
    place: TextPlace,
    octets: &[u8],
) -> Result<(SearchTest, &[u8]), ParseFault>
    ensures { IsReading (λ x. (x.0, x.1.now)) result (leaf_at (key.Place place) octets.now) }
{
    let (text, rest) = spaced_text(alloc, octets)?;
    Ok((SearchTest::Holds { place, text }, rest))
}

/// Reads the field name and the text of HEADER.
fn header(alloc: Global, octets: &[u8]) -> Result<(SearchTest, &[u8]), ParseFault>
    ensures { IsReading (λ x. (x.0, x.1.now)) result (leaf_at key.Header octets.now) }
{
    let ((name, text), rest) = spaced_texts(alloc, octets)?;
    Ok((SearchTest::Header { name, text }, rest))
}

/// Reads the day of BEFORE, ON or SINCE.
fn date_key(order: DateRelation, octets: &[u8]) -> Result<(SearchTest, &[u8]), ParseFault>
    ensures { IsReading (λ x. (x.0, x.1.now)) result (leaf_at (key.Dated order) octets.now) }
{
    let (day, rest) = date(space(octets)?)?;
    Ok((SearchTest::Dated { order, day }, rest))
}

/// Reads the size of LARGER.
fn larger(octets: &[u8]) -> Result<(SearchTest, &[u8]), ParseFault>
    ensures { IsReading (λ x. (x.0, x.1.now)) result (leaf_at key.Larger octets.now) }
{
    let (octets, rest) = size(octets)?;
    Ok((SearchTest::Larger { octets }, rest))
}

/// Reads the size of SMALLER.
fn smaller(octets: &[u8]) -> Result<(SearchTest, &[u8]), ParseFault>
    ensures { IsReading (λ x. (x.0, x.1.now)) result (leaf_at key.Smaller octets.now) }
{
    let (octets, rest) = size(octets)?;
    Ok((SearchTest::Smaller { octets }, rest))
}

/// Reads a space and a number of octets.
fn size(octets: &[u8]) -> Result<(u64, &[u8]), ParseFault>
    ensures { IsReading (λ x. (x.0, x.1.now)) result
        (spaced (number_at 9223372036854775807) octets.now) }
{
    number(space(octets)?, GREATEST)
}

/// Reads the mod-sequence of MODSEQ.
fn since(octets: &[u8]) -> Result<(SearchTest, &[u8]), ParseFault>
    ensures { IsReading (λ x. (x.0, x.1.now)) result (leaf_at key.ModSeq octets.now) }
{
    let (value, rest) = modseq(space(octets)?)?;
    Ok((SearchTest::ModSeq { value }, rest))
}

/// Reads the set of UID.
fn uids(alloc: Global, octets: &[u8]) -> Result<(SearchTest, &[u8]), ParseFault>
    ensures { IsReading (λ x. (x.0, x.1.now)) result (leaf_at key.Uid octets.now) }
{
    let (uids, rest) = spaced_set(alloc, octets)?;
    Ok((SearchTest::Uids { uids }, rest))
}

/// Reads a mod-sequence. An entry name before it (RFC 7162, section 3.1.5) is a form that this
/// server doesn't support.
fn modseq(octets: &[u8]) -> Result<(u64, &[u8]), ParseFault>
    ensures { IsReading (λ x. (x.0, x.1.now)) result (number_at 9223372036854775807 octets.now) }
{
    match octets {
        [] => Err(ParseFault::BadSyntax),
        [first, ..] => match *first {
            b'"' => Err(ParseFault::NotInProfile),
            _ => number(octets, GREATEST),
        },
    }
}
