//! The keys of SEARCH that IMAP4rev1 has and the profile hasn't (RFC 3501, section 6.4.4; RFC 7162,
//! section 3.1.5).

ghost use Rattle.std.specs.Prelude.{◌≡◌, ◌≤◌, ◌+◌, ◌++◌, ◌||◌, IfOk, length, take, drop};
ghost use Rattle.std.specs.List.{list_any};
ghost use Rattle.rev1_front.specs.SearchReading.{day_after_space, entry_len, first_key, is_word};
ghost use Rattle.rev1_front.specs.SearchReading.{key_of_word, key_word, modseq_key, profile_keys};
ghost use Rattle.rev1_front.specs.SearchReading.{sent_key_read, sent_order, text_count, text_keys};
ghost use Rattle.rev1_front.specs.SearchReading.{text_len, texts_len};

use crate::search_days::{SentDay, push_sent, search_day};
use crate::tokens::{is_word, token_len};
use imap_syntax::DateRelation;
use imap_types::Day;
use std::alloc::{AllocError, Global};

/// What the word of a key asks for, as far as the front cares.
#[derive(Clone, Copy, Debug, PartialEq, Eq)]
enum KeyWord {
    /// OLD: messages that aren't recent.
    Old,
    /// NEW and RECENT: recent messages.
    Recent,
    /// MODSEQ, maybe with the name and the type of an entry.
    ModSeq,
    /// SENTBEFORE, SENTON and SENTSINCE: messages whose Date has this relation to a day.
    Sent(DateRelation),
    /// A key with this number of texts after it, which are no keys.
    Texts(usize),
}

/// Keys of the profile.
#[derive(Drop)]
pub struct ProfileKeys {
    pub text: Vec<u8>,
    /// Whether the client's keys ask for the days on which messages were sent.
    pub asks_sent: bool,
}

/// Keys with those of IMAP4rev1 replaced by keys of the profile: OLD by ALL, since no message is
/// recent; NEW and RECENT by NOT ALL; MODSEQ with an entry by MODSEQ without; SENTBEFORE, SENTON
/// and SENTSINCE by UID with those of these days that have the relation, or by NOT ALL. `Err` if
/// memory runs out.
pub fn profile_keys(
    alloc: Global,
    days: &[SentDay],
    octets: &[u8],
) -> Result<ProfileKeys, AllocError>
    ensures { IfOk result (λ keys. (keys.text.items, keys.asks_sent)
        ≡ profile_keys days.now octets.now) }
{
    let mut keys = ProfileKeys {
        text: Vec::new(alloc),
        asks_sent: false,
    };
    let mut rest = octets;
    for turn in 0..octets.len() {
        if rest.is_empty() {
            return Ok(keys);
        }
        let len = push_key(alloc, days, rest, &mut keys)?;
        rest = &rest[len..];
    }
    Ok(keys)
}

/// Adds the key that the octets begin with, or one token that is no key; how many octets it is.
fn push_key(
    alloc: Global,
    days: &[SentDay],
    octets: &[u8],
    keys: &mut ProfileKeys,
) -> Result<usize, AllocError>
    ensures { IfOk result (λ len. (len ≤ length octets.now)
        × (len ≡ (first_key days.now octets.now).len)
        × (keys.new.text.items ≡ keys.old.text.items ++ (first_key days.now octets.now).text)
        × (keys.new.asks_sent ≡ (keys.old.asks_sent || (first_key days.now octets.now).asks))) }
{
    let len = token_len(octets);
    let word = key_word(&octets[..len]);
    push_key_of_word(alloc, days, octets, len, word, keys)
}

/// Adds the key with a word of this length and what follows it; how many octets it is.
fn push_key_of_word(
    alloc: Global,
    days: &[SentDay],
    octets: &[u8],
    len: usize,
    word: KeyWord,
    keys: &mut ProfileKeys,
) -> Result<usize, AllocError>
    requires { len ≤ length octets.now }
    ensures { IfOk result (λ end. (end ≤ length octets.now)
        × (end ≡ (key_of_word days.now octets.now len word).len)
        × (keys.new.text.items
        ≡ keys.old.text.items ++ (key_of_word days.now octets.now len word).text)
        × (keys.new.asks_sent
        ≡ (keys.old.asks_sent || (key_of_word days.now octets.now len word).asks))) }
{
    match word {
        KeyWord::Old => {
            keys.text.extend_from_slice(b"ALL")?;
            Ok(len)
        }
        KeyWord::Recent => {
            keys.text.extend_from_slice(b"NOT ALL")?;
            Ok(len)
        }
        KeyWord::ModSeq => push_modseq(octets, len, &mut keys.text),
        KeyWord::Sent(order) => push_sent_key(alloc, order, days, octets, len, keys),
        KeyWord::Texts(count) => push_texts(octets, len, count, &mut keys.text),
    }
}

/// Adds a key with a word of this length and this number of texts; how many octets it is.
fn push_texts(
    octets: &[u8],
    len: usize,
    count: usize,
    keys: &mut Vec<u8>,
) -> Result<usize, AllocError>
    requires { len ≤ length octets.now }
    ensures { IfOk result (λ end. (end ≤ length octets.now)
        × (end ≡ len + texts_len count (drop len octets.now))
        × (keys.new.items ≡ keys.old.items ++ take end octets.now)) }
{
    let end = texts_end(octets, len, count);
    keys.extend_from_slice(&octets[..end])?;
    Ok(end)
}

/// What a token asks for as a key.
fn key_word(token: &[u8]) -> KeyWord
    ensures { result ≡ key_word token.now }
{
    if is_word(token, b"OLD") {
        return KeyWord::Old;
    }
    if is_word(token, b"NEW") || is_word(token, b"RECENT") {
        return KeyWord::Recent;
    }
    if is_word(token, b"MODSEQ") {
        return KeyWord::ModSeq;
    }
    match sent_order(token) {
        Some(order) => KeyWord::Sent(order),
        None => KeyWord::Texts(text_count(token)),
    }
}

/// The relation that a key about the day on which a message was sent asks for.
fn sent_order(token: &[u8]) -> Option<DateRelation>
    ensures { result ≡ sent_order token.now }
{
    if is_word(token, b"SENTBEFORE") {
        return Some(DateRelation::Before);
    }
    if is_word(token, b"SENTON") {
        return Some(DateRelation::On);
    }
    if is_word(token, b"SENTSINCE") {
        return Some(DateRelation::Since);
    }
    None
}

/// How many texts follow a key.
fn text_count(token: &[u8]) -> usize
    ensures { result ≡ text_count token.now }
{
    if is_word(token, b"HEADER") {
        return 2;
    }
    if has_one_text(token) {
        return 1;
    }
    0
}

/// Whether one text follows a key.
fn has_one_text(token: &[u8]) -> bool
    ensures { result ≡ list_any (λ key. is_word key token.now) text_keys }
{
    is_word(token, b"BCC")
        || is_word(token, b"BEFORE")
        || is_word(token, b"BODY")
        || is_word(token, b"CC")
        || is_word(token, b"FROM")
        || is_word(token, b"KEYWORD")
        || is_word(token, b"LARGER")
        || is_word(token, b"ON")
        || is_word(token, b"SINCE")
        || is_word(token, b"SMALLER")
        || is_word(token, b"SUBJECT")
        || is_word(token, b"TEXT")
        || is_word(token, b"TO")
        || is_word(token, b"UID")
        || is_word(token, b"UNKEYWORD")
}

/// The place after this number of texts, each after a space, from this place on.
fn texts_end(octets: &[u8], start: usize, count: usize) -> usize
    requires { start ≤ length octets.now }
    ensures within { result ≤ length octets.now }
    ensures value { result ≡ start + texts_len count (drop start octets.now) }
{
    let mut end = start;
    for turn in 0..count {
        end = text_end(octets, end);
    }
    end
}

/// The place after a space and a text, from this place on; the same place if no space is there.
fn text_end(octets: &[u8], start: usize) -> usize
    requires { start ≤ length octets.now }
    ensures within { result ≤ length octets.now }
    ensures value { result ≡ start + text_len (drop start octets.now) }
{
    start + text_len(&octets[start..])
}

/// The length of a space and a text; 0 if the octets don't begin with a space.
fn text_len(octets: &[u8]) -> usize
    ensures within { result ≤ length octets.now }
    ensures value { result ≡ text_len octets.now }
{
    match octets {
        [] => 0,
        [first, text @ ..] => {
            if *first == b' ' {
                1 + token_len(text)
            } else {
                0
            }
        }
    }
}

/// Adds MODSEQ, which ends at this place, with its number and without an entry; how many octets
/// all of it is (RFC 7162, section 3.1.5).
fn push_modseq(octets: &[u8], len: usize, keys: &mut Vec<u8>) -> Result<usize, AllocError>
    requires { len ≤ length octets.now }
    ensures { IfOk result (λ end. (end ≤ length octets.now)
        × (end ≡ (modseq_key len octets.now).len)
        × (keys.new.items ≡ keys.old.items ++ (modseq_key len octets.now).text)) }
{
    let start = entry_end(octets, len);
    let end = text_end(octets, start);
    keys.extend_from_slice(&octets[..len])?;
    keys.extend_from_slice(&octets[start..end])?;
    Ok(end)
}

/// The place after an entry's name and type, from this place on; the same place if there are none.
fn entry_end(octets: &[u8], start: usize) -> usize
    requires { start ≤ length octets.now }
    ensures within { result ≤ length octets.now }
    ensures value { result ≡ start + entry_len (drop start octets.now) }
{
    if octets[start..].starts_with(b" \"") {
        texts_end(octets, start, 2)
    } else {
        start
    }
}

/// Adds what a key about the day on which a message was sent means; the key ends at this place, and
/// a date has to follow. How many octets all of it is.
fn push_sent_key(
    alloc: Global,
    order: DateRelation,
    days: &[SentDay],
    octets: &[u8],
    len: usize,
    keys: &mut ProfileKeys,
) -> Result<usize, AllocError>
    requires { len ≤ length octets.now }
    ensures { IfOk result (λ end. (end ≤ length octets.now)
        × (end ≡ (sent_key_read order days.now len octets.now).len)
        × (keys.new.text.items
        ≡ keys.old.text.items ++ (sent_key_read order days.now len octets.now).text)
        × (keys.new.asks_sent
        ≡ (keys.old.asks_sent || (sent_key_read order days.now len octets.now).asks))) }
{
    let end = text_end(octets, len);
    match day_after_space(&octets[len..end]) {
        None => keys.text.extend_from_slice(&octets[..end])?,
        Some(day) => {
            keys.asks_sent = true;
            push_sent(order, day, days, &mut keys.text)?;
        }
    }
    Ok(end)
}

/// The day that a space and a date name; `None` if they aren't such.
fn day_after_space(octets: &[u8]) -> Option<Day>
    ensures { result ≡ day_after_space octets.now }
{
    match octets {
        [] => None,
        [first, date @ ..] => {
            if *first != b' ' {
                return None;
            }
            search_day(date)
        }
    }
}
