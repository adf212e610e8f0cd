//! Printing of lists in answers, with a space between texts. `is_first` says whether the texts are
//! the first of their list; the result says whether the next ones still are. An `Err`, if memory
//! runs out, may leave part of a text.

ghost use Rattle.std.specs.Prelude.{◌≡◌, ◌++◌, [], ◌∷◌, codes, map, true, if◌then◌else◌, IfOk};
ghost use Rattle.std.specs.Prelude.{OnOk};
ghost use Rattle.imap_types.specs.Flags.{flag_texts, text_if_set};
ghost use Rattle.imap_print.specs.Appending.{AppendsText, AppendsToList};
ghost use Rattle.imap_answers.specs.AnswerText.{body_text, date_item, fetch_texts, flags_item};
ghost use Rattle.imap_answers.specs.AnswerText.{modseq_item, status_texts};
ghost use Rattle.imap_answers.specs.Strings.{item};

use crate::part_printers::{push_body, push_date, push_flags, push_modseq};
use crate::strings::{push_label, push_text};
use imap_answers::{FetchItems, SectionData, StatusItems};
use imap_types::{DateTime, Flags, Octets};
use std::alloc::AllocError;

/// Appends the space before a text, unless it is the first.
fn push_space(is_first: bool, out: &mut Vec<u8>) -> Result<(), AllocError>
    ensures { OnOk result
        (AppendsText out.old.items out.new.items (if is_first then [] else codes " ")) }
{
    if is_first {
        return Ok(());
    }
    push_text(b" ", out)
}

/// Appends one text of a list.
fn push_word(is_first: bool, text: &[u8], out: &mut Vec<u8>) -> Result<bool, AllocError>
    ensures { IfOk result
        (λ none_yet. AppendsToList is_first (text.now ∷ []) out.old.items out.new.items none_yet) }
{
    push_space(is_first, out)?;
    push_text(text, out)?;
    Ok(false)
}

/// Appends a label and its number, if any.
fn push_item(
    is_first: bool,
    label: &[u8],
    number: Option<u64>,
    out: &mut Vec<u8>,
) -> Result<bool, AllocError>
    ensures { IfOk result
        (λ none_yet. AppendsToList is_first (item label.now number) out.old.items out.new.items
        none_yet) }
{
    match number {
        None => Ok(is_first),
        Some(number) => {
            push_space(is_first, out)?;
            push_label(label, number, out)?;
            Ok(false)
        }
    }
}

/// Appends a system flag's text, if the flag is set.
fn push_flag(
    is_first: bool,
    is_set: bool,
    text: &[u8],
    out: &mut Vec<u8>,
) -> Result<bool, AllocError>
    ensures { IfOk result (λ none_yet. AppendsToList is_first
        (text_if_set is_set text.now) out.old.items out.new.items none_yet) }
{
    if is_set {
        push_word(is_first, text, out)
    } else {
        Ok(is_first)
    }
}

/// Appends keywords.
fn push_keywords(is_first: bool, keywords: &[Octets], out: &mut Vec<u8>) -> Result<bool, AllocError>
    ensures { IfOk result
        (λ none_yet. AppendsToList is_first keywords.now out.old.items out.new.items none_yet) }
{
    let mut none_yet = is_first;
    for keyword in keywords {
        none_yet = push_word(none_yet, keyword.as_bytes(), out)?;
    }
    Ok(none_yet)
}

/// Appends flags in their order, and returns whether there are none.
pub fn push_flag_texts(flags: &Flags, out: &mut Vec<u8>) -> Result<bool, AllocError>
    ensures { IfOk result
        (λ none_yet. AppendsToList true (flag_texts flags.now) out.old.items out.new.items
        none_yet) }
{
    let none_yet = push_flag(true, flags.answered, b"\\Answered", out)?;
    let none_yet = push_flag(none_yet, flags.flagged, b"\\Flagged", out)?;
    let none_yet = push_flag(none_yet, flags.deleted, b"\\Deleted", out)?;
    let none_yet = push_flag(none_yet, flags.seen, b"\\Seen", out)?;
    let none_yet = push_flag(none_yet, flags.draft, b"\\Draft", out)?;
    let none_yet = push_keywords(none_yet, flags.keywords.as_slice(), out)?;
    Ok(none_yet)
}

/// Appends flags and then `\*`, the flag for any new keyword.
pub fn push_flags_and_any(flags: &Flags, out: &mut Vec<u8>) -> Result<bool, AllocError>
    ensures { IfOk result (λ none_yet. AppendsToList true (flag_texts flags.now ++ codes "\\*" ∷ [])
        out.old.items out.new.items none_yet) }
{
    let none_yet = push_flag_texts(flags, out)?;
    let none_yet = push_word(none_yet, b"\\*", out)?;
    Ok(none_yet)
}

/// Appends the items of STATUS (RFC 9051, section 7.3.3).
pub fn push_status_items(items: &StatusItems, out: &mut Vec<u8>) -> Result<bool, AllocError>
    ensures { IfOk result
        (λ none_yet. AppendsToList true (status_texts items.now) out.old.items out.new.items
        none_yet) }
{
    let none_yet = push_item(true, b"MESSAGES ", widen(items.messages), out)?;
    let none_yet = push_item(none_yet, b"UIDNEXT ", widen(items.uidnext), out)?;
    let none_yet = push_item(none_yet, b"UIDVALIDITY ", widen(items.uidvalidity), out)?;
    let none_yet = push_item(none_yet, b"UNSEEN ", widen(items.unseen), out)?;
    let none_yet = push_item(none_yet, b"DELETED ", widen(items.deleted), out)?;
    let none_yet = push_item(none_yet, b"SIZE ", items.size, out)?;
    let none_yet = push_item(none_yet, b"HIGHESTMODSEQ ", items.highest_modseq, out)?;
    Ok(none_yet)
}

/// Appends the items of FETCH (RFC 9051, section 7.5.2).
pub fn push_fetch_items(items: &FetchItems, out: &mut Vec<u8>) -> Result<bool, AllocError>
    ensures { IfOk result
        (λ none_yet. AppendsToList true (fetch_texts items.now) out.old.items out.new.items
        none_yet) }
{
    let none_yet = push_item(true, b"UID ", widen(items.uid), out)?;
    let none_yet = push_flags_item(none_yet, &items.flags, out)?;
    let none_yet = push_date_item(none_yet, &items.date, out)?;
    let none_yet = push_item(none_yet, b"RFC822.SIZE ", items.size, out)?;
    let none_yet = push_modseq_item(none_yet, items.modseq, out)?;
    let none_yet = push_bodies(none_yet, items.sections.parts(), out)?;
    Ok(none_yet)
}

/// Appends the flags of a message, if any.
fn push_flags_item(
    is_first: bool,
    flags: &Option<Flags>,
    out: &mut Vec<u8>,
) -> Result<bool, AllocError>
    ensures { IfOk result
        (λ none_yet. AppendsToList is_first (flags_item flags.now) out.old.items out.new.items
        none_yet) }
{
    match flags {
        None => Ok(is_first),
        Some(flags) => {
            push_space(is_first, out)?;
            push_flags(b"FLAGS (", flags, b")", out)?;
            Ok(false)
        }
    }
}

/// Appends the internal date of a message, if any.
fn push_date_item(
    is_first: bool,
    date: &Option<DateTime>,
    out: &mut Vec<u8>,
) -> Result<bool, AllocError>
    ensures { IfOk result
        (λ none_yet. AppendsToList is_first (date_item date.now) out.old.items out.new.items
        none_yet) }
{
    match date {
        None => Ok(is_first),
        Some(date) => {
            push_space(is_first, out)?;
            push_date(date, out)?;
            Ok(false)
        }
    }
}

/// Appends the mod-sequence of a message, if any.
fn push_modseq_item(
    is_first: bool,
    modseq: Option<u64>,
    out: &mut Vec<u8>,
) -> Result<bool, AllocError>
    ensures { IfOk result
        (λ none_yet. AppendsToList is_first (modseq_item modseq) out.old.items out.new.items
        none_yet) }
{
    match modseq {
        None => Ok(is_first),
        Some(modseq) => {
            push_space(is_first, out)?;
            push_modseq(modseq, out)?;
            Ok(false)
        }
    }
}

/// Appends sections with their octets.
fn push_bodies(is_first: bool, parts: &[SectionData], out: &mut Vec<u8>) -> Result<bool, AllocError>
    ensures { IfOk result
        (λ none_yet. AppendsToList is_first (map body_text parts.now) out.old.items out.new.items
        none_yet) }
{
    let mut none_yet = is_first;
    for part in parts {
        push_space(none_yet, out)?;
        push_body(part, out)?;
        none_yet = false;
    }
    Ok(none_yet)
}

/// The number as 64 bits, if any.
pub fn widen(number: Option<u32>) -> Option<u64>
    ensures { result ≡ number }
{
    number.map(u64::from)
}
