//! The test whether an answer may be sent (RFC 9051, section 9). Types ensure most of its
//! conditions; the functions test tags, keywords, names, numbers from 1 on, and lists that must not
//! be empty. The functions without a result (`.._fits`) state what every value of a type satisfies.

ghost use Rattle.std.specs.Prelude.{◌≡◌, ◌↔◌, ◌+◌, ◌-◌, ◌^◌, min, not, ◌&&◌, ◌==◌, length, map};
ghost use Rattle.std.specs.Prelude.{suc, sum, IsTrue};
ghost use Rattle.std.specs.List.{list_all};
ghost use Rattle.imap_types.specs.DateTimes.{IsDateTime};
ghost use Rattle.imap_types.specs.Numbers.{AreRisingFrom, greatest, numbers_in};
ghost use Rattle.imap_answers.specs.Printable.{AreFetchItems, AreFieldNames, AreFlags, AreResults};
ghost use Rattle.imap_answers.specs.Printable.{AreStatusItems, Each, IsAtom, IsCode, IsCopied};
ghost use Rattle.imap_answers.specs.Printable.{IsFolded, IsModSeq, IsNonzero, IsNotice, IsPart};
ghost use Rattle.imap_answers.specs.Printable.{IsPrintable, IsSection, IsSet, IsSmall, IsTag};
ghost use Rattle.imap_answers.specs.Printable.{IsWide, IfPresent, has_mailbox_item};
ghost use Rattle.imap_answers.specs.Printable.{has_message_item};
ghost use Rattle.imap_print.specs.Reading.{is_in};

use crate::scanner::ScanClass;
use imap_answers::{Answer, Code, FetchItems, Notice, SearchResults, SectionData, StatusItems};
use imap_types::{DateTime, Flags, Name, NumberSet, Octets, Run, Section, Text};

/// Whether an answer may be sent (`IsPrintable` of `imap_answers`).
pub fn is_printable(answer: &Answer) -> bool
    ensures { IsTrue result ↔ IsPrintable answer.now }
{
    match answer {
        Answer::Flags { flags } => are_flags(flags),
        Answer::Exists { count } => {
            small_fits(*count);
            true
        }
        Answer::Expunge { number } => is_nonzero(*number),
        Answer::List { name, .. } => is_folded(name),
        Answer::UntaggedOk { notice } => is_notice(notice),
        Answer::Status { name, items } => is_folded(name) && are_status_items(items),
        Answer::Search { tag, results, .. } => is_tag(tag) && are_results(results),
        Answer::Fetch { number, items } => is_nonzero(*number) && are_fetch_items(items),
        Answer::Completed { tag, code, .. } => is_tag(tag) && is_code_if_any(code),
        Answer::Refused { tag, .. } => is_tag(tag),
        _ => true,
    }
}

/// Whether the code of an untagged OK may be sent.
fn is_notice(notice: &Notice) -> bool
    ensures { IsTrue result ↔ IsNotice notice.now }
{
    match notice {
        Notice::UidValidity { value } => is_nonzero(*value),
        Notice::UidNext { uid } => is_nonzero(*uid),
        Notice::PermanentFlags { flags } => are_flags_if_any(flags),
        Notice::HighestModSeq { modseq } => is_modseq(*modseq),
        Notice::CopyUid {
            uidvalidity,
            source,
            copies,
        } => is_copied(*uidvalidity, source, copies),
        _ => true,
    }
}

/// Whether a code may be sent, or there is none.
fn is_code_if_any(code: &Option<Code>) -> bool
    ensures { IsTrue result ↔ IfPresent IsCode code.now }
{
    match code {
        None => true,
        Some(code) => is_code(code),
    }
}

/// Whether the code of a tagged OK may be sent.
fn is_code(code: &Code) -> bool
    ensures { IsTrue result ↔ IsCode code.now }
{
    match code {
        Code::AppendUid { uidvalidity, uid } => is_nonzero(*uidvalidity) && is_nonzero(*uid),
        Code::CopyUid {
            uidvalidity,
            source,
            copies,
        } => is_copied(*uidvalidity, source, copies),
        Code::Modified { refused } => is_set(refused),
        _ => true,
    }
}

/// Whether the UIDVALIDITY is at least 1, and the sets have the same size and aren't empty.
fn is_copied(uidvalidity: u32, source: &NumberSet, copies: &NumberSet) -> bool
    ensures { IsTrue result ↔ IsCopied uidvalidity source.now copies.now }
{
    if !is_nonzero(uidvalidity) {
        return false;
    }
    if !is_set(source) {
        return false;
    }
    if !is_set(copies) {
        return false;
    }
    count(source) == count(copies)
}

/// The count of numbers in a set.
fn count(set: &NumberSet) -> u64
    ensures { result ≡ length set.now }
{
    set_fits(set);
    count_in(set.runs())
}

/// The count of numbers in runs, or the greatest `u64` if it is greater.
fn count_in(runs: &[Run]) -> u64
    ensures { result ≡ min (length (numbers_in runs.now)) (2 ^ 64 - 1) }
{
    let mut count: u64 = 0;
    for run in runs {
        count = count.saturating_add(size(run));
    }
    count
}

/// The count of numbers in a run.
fn size(run: &Run) -> u64
    ensures { result ≡ suc (run.now.last - run.now.first) }
{
    u64::from(run.last.saturating_sub(run.first)) + 1
}

/// Whether the items of STATUS may be sent.
fn are_status_items(items: &StatusItems) -> bool
    ensures { IsTrue result ↔ AreStatusItems items.now }
{
    small_fits_if_any(items.messages);
    small_fits_if_any(items.unseen);
    small_fits_if_any(items.deleted);
    wide_fits_if_any(items.size);
    if !is_nonzero_if_any(items.uidnext) {
        return false;
    }
    if !is_nonzero_if_any(items.uidvalidity) {
        return false;
    }
    if !is_modseq_if_any(items.highest_modseq) {
        return false;
    }
    has_mailbox_item(items)
}

/// Whether there is at least one item of a mailbox.
fn has_mailbox_item(items: &StatusItems) -> bool
    ensures { result ≡ has_mailbox_item items.now }
{
    items.messages.is_some()
        || items.uidnext.is_some()
        || items.uidvalidity.is_some()
        || items.unseen.is_some()
        || items.deleted.is_some()
        || items.size.is_some()
        || items.highest_modseq.is_some()
}

/// Whether the results of a search may be sent.
fn are_results(results: &SearchResults) -> bool
    ensures { IsTrue result ↔ AreResults results.now }
{
    set_fits(&results.all);
    small_fits_if_any(results.count);
    if !is_nonzero_if_any(results.min) {
        return false;
    }
    if !is_nonzero_if_any(results.max) {
        return false;
    }
    is_modseq_if_any(results.modseq)
}

/// Whether the items of FETCH may be sent.
fn are_fetch_items(items: &FetchItems) -> bool
    ensures { IsTrue result ↔ AreFetchItems items.now }
{
    date_fits(&items.date);
    wide_fits_if_any(items.size);
    if !is_nonzero_if_any(items.uid) {
        return false;
    }
    if !is_modseq_if_any(items.modseq) {
        return false;
    }
    if !are_flags_if_any(&items.flags) {
        return false;
    }
    if !are_parts(items.sections.parts()) {
        return false;
    }
    has_message_item(items)
}

/// Whether there is at least one item of a message.
fn has_message_item(items: &FetchItems) -> bool
    ensures { result ≡ has_message_item items.now }
{
    items.uid.is_some()
        || items.flags.is_some()
        || items.date.is_some()
        || items.size.is_some()
        || items.modseq.is_some()
        || !items.sections.parts().is_empty()
}

/// Whether the keywords of flags are atoms, or there are no flags.
fn are_flags_if_any(flags: &Option<Flags>) -> bool
    ensures { IsTrue result ↔ IfPresent AreFlags flags.now }
{
    match flags {
        None => true,
        Some(flags) => are_flags(flags),
    }
}

/// Whether the keywords of flags are atoms.
fn are_flags(flags: &Flags) -> bool
    ensures { IsTrue result ↔ AreFlags flags.now }
{
    are_atoms(flags.keywords.as_slice())
}

/// Whether all words are atoms.
fn are_atoms(words: &[Octets]) -> bool
    ensures { IsTrue result ↔ Each IsAtom words.now }
{
    for word in words {
        if !is_atom(word) {
            return false;
        }
    }
    true
}

/// Whether a word is an atom.
fn is_atom(word: &Octets) -> bool
    ensures { IsTrue result ↔ IsAtom word.now }
{
    is_word(ScanClass::Atom, word.as_bytes())
}

/// Whether octets are a tag.
fn is_tag(tag: &Octets) -> bool
    ensures { IsTrue result ↔ IsTag tag.now }
{
    is_word(ScanClass::Tag, tag.as_bytes())
}

/// Whether a word isn't empty and its octets all belong to a class.
fn is_word(class: ScanClass, word: &[u8]) -> bool
    ensures { result ≡ (not (length word.now == 0) && list_all (is_in class) word.now) }
{
    !word.is_empty() && are_in(class, word)
}

/// Whether all octets belong to a class.
fn are_in(class: ScanClass, octets: &[u8]) -> bool
    ensures { result ≡ list_all (is_in class) octets.now }
{
    for octet in octets {
        if !class.has(*octet) {
            return false;
        }
    }
    true
}

/// Whether a name is INBOX in capitals, or isn't INBOX in any letter case.
fn is_folded(name: &Name) -> bool
    ensures { IsTrue result ↔ IsFolded name.now }
{
    !name.is_inbox() || name.as_bytes() == b"INBOX".as_slice()
}

/// Whether a set isn't empty.
fn is_set(set: &NumberSet) -> bool
    ensures { IsTrue result ↔ IsSet set.now }
{
    set_fits(set);
    !set.is_empty()
}

/// States that a set is ascending and that its numbers have 32 bits.
fn set_fits(set: &NumberSet)
    ensures rising { AreRisingFrom 1 set.now }
    ensures small { IsSmall (greatest set.now) }
{
    let _runs = set.runs();
    let _greatest = set.greatest();
}

/// States that a date-time, if any, is well-formed.
fn date_fits(date: &Option<DateTime>)
    ensures { IfPresent IsDateTime date.now }
{
    if let Some(date) = date {
        let _octets = date.as_bytes();
    }
}

/// Whether all sections may be sent.
fn are_parts(parts: &[SectionData]) -> bool
    ensures { IsTrue result ↔ Each IsPart parts.now }
{
    for part in parts {
        if !is_part(part) {
            return false;
        }
    }
    true
}

/// Whether a section with its octets may be sent.
fn is_part(part: &SectionData) -> bool
    ensures { IsTrue result ↔ IsPart part.now }
{
    small_fits_if_any(part.origin);
    text_fits(&part.octets);
    is_section(&part.section)
}

/// Whether a section's list of field names, if it has one, isn't empty.
fn is_section(section: &Section) -> bool
    ensures { IsTrue result ↔ IsSection section.now }
{
    match section {
        Section::Fields { names } => are_field_names(names.names()),
        Section::FieldsNot { names } => are_field_names(names.names()),
        _ => true,
    }
}

/// Whether there is at least one name of a header field.
fn are_field_names(names: &[Octets]) -> bool
    ensures { IsTrue result ↔ AreFieldNames names.now }
{
    names_fit(names);
    !names.is_empty()
}

/// States that the lengths of names have 64 bits.
fn names_fit(names: &[Octets])
    ensures { Each (λ name. IsWide (length name)) names.now }
{
    for name in names {
        octets_fit(name);
    }
}

/// States that the length of an octet string has 64 bits.
fn octets_fit(octets: &Octets)
    ensures { IsWide (length octets.now) }
{
    let _count = octets.as_bytes().len();
}

/// States that the length of a text has 64 bits.
fn text_fits(text: &Text)
    ensures { IsWide (length text.now) }
{
    let _count = text.as_bytes().len();
}

/// Whether a number is at least 1.
fn is_nonzero(number: u32) -> bool
    ensures { IsTrue result ↔ IsNonzero number }
{
    number != 0
}

/// Whether a number is at least 1, or there is none.
fn is_nonzero_if_any(number: Option<u32>) -> bool
    ensures { IsTrue result ↔ IfPresent IsNonzero number }
{
    match number {
        None => true,
        Some(number) => is_nonzero(number),
    }
}

/// Whether a mod-sequence is at least 1.
fn is_modseq(modseq: u64) -> bool
    ensures { IsTrue result ↔ IsModSeq modseq }
{
    modseq != 0
}

/// Whether a mod-sequence is at least 1, or there is none.
fn is_modseq_if_any(modseq: Option<u64>) -> bool
    ensures { IsTrue result ↔ IfPresent IsModSeq modseq }
{
    match modseq {
        None => true,
        Some(modseq) => is_modseq(modseq),
    }
}

/// States that a number has 32 bits.
fn small_fits(number: u32)
    ensures { IsSmall number }
{}

/// States that a number, if any, has 32 bits.
fn small_fits_if_any(number: Option<u32>)
    ensures { IfPresent IsSmall number }
{}

/// States that a number, if any, has 64 bits.
fn wide_fits_if_any(number: Option<u64>)
    ensures { IfPresent IsWide number }
{}
