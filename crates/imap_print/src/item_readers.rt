//! Reading of lists in answers. `is_first` says whether the next text is the first of its list. A
//! reader returns the value that it read, whether the text after it is still the first, and the
//! rest.

ghost use Rattle.std.specs.Prelude.{◌≡◌, true, codes, option_map};
ghost use Rattle.imap_print.specs.Reading.{IsReading, after, flag_at, item_at, lead};
ghost use Rattle.imap_print.specs.ReadingAnswers.{bodies_at, body_at, data_at, date_at, date_or};
ghost use Rattle.imap_print.specs.ReadingAnswers.{fetch_items_at, fields_at, flags_at, flags_from};
ghost use Rattle.imap_print.specs.ReadingAnswers.{flags_or, modseq_or, next_field_at, origin_or};
ghost use Rattle.imap_print.specs.ReadingAnswers.{permanent_at, permanent_from, section_at};
ghost use Rattle.imap_print.specs.ReadingAnswers.{small_option, status_items_at};

use crate::fault::ReadFault;
use crate::scanner::{
    capped_at_32_bits, counted_octets, expect, field, lead, literal, number, skip,
    value_before_text, words,
};
use imap_answers::{FetchItems, SectionData, Sections, StatusItems};
use imap_types::{DateTime, FieldNames, Flags, Keywords, Octets, Section, Text};
use std::alloc::Global;

/// The octets after a text of a list, if they begin with it.
fn skip_text<'a>(is_first: bool, text: &[u8], bytes: &'a [u8]) -> Option<&'a [u8]>
    ensures { option_map (λ rest. rest.now) result ≡ after (lead is_first text.now) bytes.now }
{
    if is_first {
        return skip(bytes, text);
    }
    match skip(bytes, b" ") {
        None => None,
        Some(rest) => skip(rest, text),
    }
}

/// Whether a flag comes next.
fn flag<'a>(is_first: bool, text: &[u8], bytes: &'a [u8]) -> (bool, bool, &'a [u8])
    ensures present { result.0 ≡ (flag_at is_first text.now bytes.now).0 }
    ensures none_yet { result.1 ≡ (flag_at is_first text.now bytes.now).1 }
    ensures rest { result.2.now ≡ (flag_at is_first text.now bytes.now).2 }
{
    match skip_text(is_first, text, bytes) {
        None => (false, is_first, bytes),
        Some(rest) => (true, false, rest),
    }
}

/// Reads a label and its number, if the label comes next.
pub fn item<'a>(is_first: bool, label: &[u8], bytes: &'a [u8]) -> (Option<u64>, bool, &'a [u8])
    ensures number { result.0 ≡ (item_at is_first label.now bytes.now).0 }
    ensures none_yet { result.1 ≡ (item_at is_first label.now bytes.now).1 }
    ensures rest { result.2.now ≡ (item_at is_first label.now bytes.now).2 }
{
    match skip_text(is_first, label, bytes) {
        None => (None, is_first, bytes),
        Some(digits) => {
            let (parsed, rest) = number(digits);
            (Some(parsed), false, rest)
        }
    }
}

/// The number as 32 bits, if any; greater numbers become 4,294,967,295.
pub fn narrow(number: Option<u64>) -> Option<u32>
    ensures { result ≡ small_option number }
{
    match number {
        None => None,
        Some(number) => Some(capped_at_32_bits(number)),
    }
}

/// Reads the flags of a list, and returns whether there are none.
#[tactic(auto, unfolding(crate::specs::ReadingAnswers::flags_from))]
fn flags_from(alloc: Global, bytes: &[u8]) -> Result<(Flags, bool, &[u8]), ReadFault>
    ensures { IsReading (λ x. (x.0, x.1, x.2.now)) result (flags_from bytes.now) }
{
    let (answered, none_yet, rest) = flag(true, b"\\Answered", bytes);
    let (flagged, none_yet, rest) = flag(none_yet, b"\\Flagged", rest);
    let (deleted, none_yet, rest) = flag(none_yet, b"\\Deleted", rest);
    let (seen, none_yet, rest) = flag(none_yet, b"\\Seen", rest);
    let (draft, none_yet, rest) = flag(none_yet, b"\\Draft", rest);
    let (parsed, rest) = words(alloc, bytes.len() + 1, none_yet, rest)?;
    let has_none = parsed.is_empty();
    match Keywords::new(parsed) {
        None => Err(ReadFault::NotPrinted),
        Some(keywords) => {
            let flags = Flags {
                answered,
                flagged,
                deleted,
                seen,
                draft,
                keywords,
            };
            Ok((flags, none_yet && has_none, rest))
        }
    }
}

/// Reads flags in parentheses.
#[tactic(auto, unfolding(crate::specs::ReadingAnswers::flags_at))]
pub fn flags(alloc: Global, bytes: &[u8]) -> Result<(Flags, &[u8]), ReadFault>
    ensures { IsReading (λ x. (x.0, x.1.now)) result (flags_at bytes.now) }
{
    let rest = expect(bytes, b"(")?;
    let (flags, _, rest) = flags_from(alloc, rest)?;
    value_before_text(flags, rest, b")")
}

/// Reads the flags that can be changed permanently, in parentheses (RFC 9051, section 7.1).
pub fn permanent_flags(alloc: Global, bytes: &[u8]) -> Result<(Option<Flags>, &[u8]), ReadFault>
    ensures { IsReading (λ x. (x.0, x.1.now)) result (permanent_at bytes.now) }
{
    match skip(bytes, b"()") {
        Some(rest) => Ok((None, rest)),
        None => {
            let rest = expect(bytes, b"(")?;
            permanent_from(alloc, rest)
        }
    }
}

/// Reads the flags that can be changed permanently, after the opening parenthesis.
#[tactic(auto, unfolding(crate::specs::ReadingAnswers::permanent_from))]
fn permanent_from(alloc: Global, bytes: &[u8]) -> Result<(Option<Flags>, &[u8]), ReadFault>
    ensures { IsReading (λ x. (x.0, x.1.now)) result (permanent_from bytes.now) }
{
    let (flags, none_yet, rest) = flags_from(alloc, bytes)?;
    match skip_text(none_yet, b"\\*", rest) {
        None => {
            drop(flags);
            Err(ReadFault::NotPrinted)
        }
        Some(rest) => value_before_text(Some(flags), rest, b")"),
    }
}

/// Reads the items of STATUS (RFC 9051, section 7.3.3).
#[tactic(auto, unfolding(crate::specs::ReadingAnswers::status_items_at))]
pub fn status_items(bytes: &[u8]) -> (StatusItems, &[u8])
    ensures items { result.0 ≡ (status_items_at bytes.now).0 }
    ensures rest { result.1.now ≡ (status_items_at bytes.now).1 }
{
    let (messages, none_yet, rest) = item(true, b"MESSAGES ", bytes);
    let (uidnext, none_yet, rest) = item(none_yet, b"UIDNEXT ", rest);
    let (uidvalidity, none_yet, rest) = item(none_yet, b"UIDVALIDITY ", rest);
    let (unseen, none_yet, rest) = item(none_yet, b"UNSEEN ", rest);
    let (deleted, none_yet, rest) = item(none_yet, b"DELETED ", rest);
    let (size, none_yet, rest) = item(none_yet, b"SIZE ", rest);
    let (highest_modseq, _, rest) = item(none_yet, b"HIGHESTMODSEQ ", rest);
    let items = StatusItems {
        messages: narrow(messages),
        uidnext: narrow(uidnext),
        uidvalidity: narrow(uidvalidity),
        unseen: narrow(unseen),
        deleted: narrow(deleted),
        size,
        highest_modseq,
    };
    (items, rest)
}

/// Reads fewer than `count` names of header fields, up to the closing parenthesis.
fn fields(alloc: Global, count: usize, bytes: &[u8]) -> Result<(FieldNames, &[u8]), ReadFault>
    ensures { IsReading (λ x. (x.0, x.1.now)) result (fields_at count true bytes.now) }
{
    let mut names = Vec::new(alloc);
    let mut none_yet = true;
    let mut rest = bytes;
    for _index in 0..count {
        match skip(rest, b")") {
            Some(unread) => return Ok((FieldNames::new(names), unread)),
            None => {}
        }
        let (name, tail) = next_field(alloc, none_yet, rest)?;
        names.push(name)?;
        none_yet = false;
        rest = tail;
    }
    Err(ReadFault::NotPrinted)
}

/// Reads the next name of a header field.
fn next_field(alloc: Global, is_first: bool, bytes: &[u8]) -> Result<(Octets, &[u8]), ReadFault>
    ensures { IsReading (λ x. (x.0, x.1.now)) result (next_field_at is_first bytes.now) }
{
    let rest = expect(bytes, lead(is_first))?;
    field(alloc, rest)
}

/// Reads the name of a section (RFC 9051, section 9, section-spec).
#[tactic(auto, unfolding(crate::specs::ReadingAnswers::section_at))]
fn section(alloc: Global, bytes: &[u8]) -> Result<(Section, &[u8]), ReadFault>
    ensures { IsReading (λ x. (x.0, x.1.now)) result (section_at bytes.now) }
{
    if let Some(rest) = skip(bytes, b"HEADER.FIELDS (") {
        let (names, rest) = fields(alloc, rest.len() + 1, rest)?;
        return Ok((Section::Fields { names }, rest));
    }
    if let Some(rest) = skip(bytes, b"HEADER.FIELDS.NOT (") {
        let (names, rest) = fields(alloc, rest.len() + 1, rest)?;
        return Ok((Section::FieldsNot { names }, rest));
    }
    if let Some(rest) = skip(bytes, b"HEADER") {
        return Ok((Section::Header, rest));
    }
    match skip(bytes, b"TEXT") {
        Some(rest) => Ok((Section::Text, rest)),
        None => Ok((Section::Whole, bytes)),
    }
}

/// Reads the offset of a partial range, if any.
fn origin(bytes: &[u8]) -> Result<(Option<u32>, &[u8]), ReadFault>
    ensures { IsReading (λ x. (x.0, x.1.now)) result
        (origin_or (after (codes "<") bytes.now) bytes.now) }
{
    match skip(bytes, b"<") {
        None => Ok((None, bytes)),
        Some(digits) => {
            let (parsed, rest) = number(digits);
            let rest = expect(rest, b">")?;
            Ok((Some(capped_at_32_bits(parsed)), rest))
        }
    }
}

/// Reads a section with its octets, after `BODY[`.
#[tactic(auto, unfolding(crate::specs::ReadingAnswers::body_at))]
fn body(alloc: Global, bytes: &[u8]) -> Result<(SectionData, &[u8]), ReadFault>
    ensures { IsReading (λ x. (x.0, x.1.now)) result (body_at bytes.now) }
{
    let (section, rest) = section(alloc, bytes)?;
    match octets_after(alloc, rest) {
        Err(fault) => {
            drop(section);
            Err(fault)
        }
        Ok(((origin, octets), rest)) => {
            let part = SectionData {
                section,
                origin,
                octets,
            };
            Ok((part, rest))
        }
    }
}

/// Reads what follows the name of a section: its offset, if any, and its octets.
#[tactic(auto, unfolding(crate::specs::ReadingAnswers::data_at))]
fn octets_after(alloc: Global, bytes: &[u8]) -> Result<((Option<u32>, Text), &[u8]), ReadFault>
    ensures { IsReading (λ x. (x.0, x.1.now)) result (data_at bytes.now) }
{
    let rest = expect(bytes, b"]")?;
    let (origin, rest) = origin(rest)?;
    let rest = expect(rest, b" ")?;
    let (octets, rest) = literal(alloc, rest)?;
    Ok(((origin, Text::new(octets.into_vec())?), rest))
}

/// Reads fewer than `count` sections with their octets, up to a text that begins none.
fn bodies(
    alloc: Global,
    count: usize,
    is_first: bool,
    bytes: &[u8],
) -> Result<(Sections, &[u8]), ReadFault>
    ensures { IsReading (λ x. (x.0, x.1.now)) result (bodies_at count is_first bytes.now) }
{
    let mut parts = Vec::new(alloc);
    let mut none_yet = is_first;
    let mut rest = bytes;
    for _index in 0..count {
        let unread = match skip_text(none_yet, b"BODY[", rest) {
            None => return Ok((Sections::new(parts), rest)),
            Some(unread) => unread,
        };
        let (part, tail) = body(alloc, unread)?;
        parts.push(part)?;
        none_yet = false;
        rest = tail;
    }
    Err(ReadFault::NotPrinted)
}

/// Reads the flags of a message, if they come next.
fn flags_item(
    alloc: Global,
    is_first: bool,
    bytes: &[u8],
) -> Result<(Option<Flags>, bool, &[u8]), ReadFault>
    ensures { IsReading (λ x. (x.0, x.1, x.2.now)) result
        (flags_or is_first (after (lead is_first (codes "FLAGS ")) bytes.now) bytes.now) }
{
    match skip_text(is_first, b"FLAGS ", bytes) {
        None => Ok((None, is_first, bytes)),
        Some(rest) => {
            let (flags, rest) = flags(alloc, rest)?;
            Ok((Some(flags), false, rest))
        }
    }
}

/// Reads a date-time of 28 octets.
#[tactic(auto, unfolding(crate::specs::ReadingAnswers::date_at))]
fn date(bytes: &[u8]) -> Result<(DateTime, &[u8]), ReadFault>
    ensures { IsReading (λ x. (x.0, x.1.now)) result (date_at bytes.now) }
{
    let (front, rest) = counted_octets(28, bytes)?;
    let mut octets = [0u8; 28];
    octets.copy_from_slice(front);
    match DateTime::new(octets) {
        None => Err(ReadFault::NotPrinted),
        Some(date) => Ok((date, rest)),
    }
}

/// Reads the internal date of a message, if it comes next.
fn date_item(is_first: bool, bytes: &[u8]) -> Result<(Option<DateTime>, bool, &[u8]), ReadFault>
    ensures { IsReading (λ x. (x.0, x.1, x.2.now)) result
        (date_or is_first (after (lead is_first (codes "INTERNALDATE ")) bytes.now) bytes.now) }
{
    match skip_text(is_first, b"INTERNALDATE ", bytes) {
        None => Ok((None, is_first, bytes)),
        Some(rest) => {
            let (date, rest) = date(rest)?;
            Ok((Some(date), false, rest))
        }
    }
}

/// Reads the mod-sequence of a message, if it comes next.
fn modseq_item(is_first: bool, bytes: &[u8]) -> Result<(Option<u64>, bool, &[u8]), ReadFault>
    ensures { IsReading (λ x. (x.0, x.1, x.2.now)) result
        (modseq_or is_first (after (lead is_first (codes "MODSEQ (")) bytes.now) bytes.now) }
{
    match skip_text(is_first, b"MODSEQ (", bytes) {
        None => Ok((None, is_first, bytes)),
        Some(digits) => {
            let (parsed, rest) = number(digits);
            let rest = expect(rest, b")")?;
            Ok((Some(parsed), false, rest))
        }
    }
}

/// Reads the items of FETCH (RFC 9051, section 7.5.2).
#[tactic(auto, unfolding(crate::specs::ReadingAnswers::fetch_items_at))]
pub fn fetch_items(alloc: Global, bytes: &[u8]) -> Result<(FetchItems, &[u8]), ReadFault>
    ensures { IsReading (λ x. (x.0, x.1.now)) result (fetch_items_at bytes.now) }
{
    let (uid, none_yet, rest) = item(true, b"UID ", bytes);
    let (flags, none_yet, rest) = flags_item(alloc, none_yet, rest)?;
    let (date, none_yet, rest) = date_item(none_yet, rest)?;
    let (size, none_yet, rest) = item(none_yet, b"RFC822.SIZE ", rest);
    let (modseq, none_yet, rest) = modseq_item(none_yet, rest)?;
    let (sections, rest) = bodies(alloc, rest.len() + 1, none_yet, rest)?;
    let items = FetchItems {
        uid: narrow(uid),
        flags,
        date,
        size,
        modseq,
        sections,
    };
    Ok((items, rest))
}
