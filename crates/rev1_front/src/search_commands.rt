//! SEARCH and UID SEARCH with keys of IMAP4rev1 (RFC 3501, section 6.4.4).

ghost use Rattle.std.specs.Option.{option_copied};
ghost use Rattle.std.specs.Prelude.{◌≡◌, ◌++◌, Some, None, IfOk, MatchOption, List, ℕ, false};
ghost use Rattle.std.specs.Prelude.{codes};
ghost use Rattle.imap_syntax.specs.Faults.{begins_with_class};
ghost use Rattle.imap_syntax.specs.Languages.{◌⌢◌, sp, word};
ghost use Rattle.imap_syntax.specs.declared.command.Tagged.{Tagged};
ghost use Rattle.imap_syntax.specs.declared.octet_class.OctetClass.TheVariants.{Atom};
ghost use Rattle.rev1_front.specs.ClientFrames.{AsksDays, IsFetchOfTexts, IsKeySearch, IsSearch};
ghost use Rattle.rev1_front.specs.ClientFrames.{IsUidSearch, search_word};
ghost use Rattle.rev1_front.specs.declared.fixed_texts.FrontRefusal.TheVariants.{UnknownCharset};
ghost use Rattle.rev1_front.specs.declared.taken.Taken.{Taken};
ghost use Rattle.rev1_front.specs.declared.taken.Taken.TheVariants.{AsksDays as DaysAsked, Refused};

use crate::fixed_texts::FrontRefusal;
use crate::form::form_of;
use crate::frame_parts::{FrameParts, after_start, atom_span, parse_parts};
use crate::search_days::SentDay;
use crate::search_frame::{SearchArguments, search_arguments};
use crate::session::Mode;
use crate::taken::Taken;
use imap_types::Octets;
use std::alloc::{AllocError, Global};

/// UID SEARCH with keys of IMAP4rev1.
pub fn take_uid(
    alloc: Global,
    mode: Mode,
    days: Option<&[SentDay]>,
    parts: FrameParts<'_>,
) -> Result<Option<Taken>, AllocError>
    ensures { IfOk result (λ it. MatchOption it
        ((other : Taken) → IsUidSearch mode (option_copied days.entry) parts.entry.frame.now
        parts.entry.tag.now parts.entry.rest.now other → ⊥)
        (λ taken. IsUidSearch mode (option_copied days.entry) parts.entry.frame.now
        parts.entry.tag.now parts.entry.rest.now taken)) }
{
    let FrameParts { frame, tag, rest } = parts;
    match search_after_uid(rest) {
        None => Ok(None),
        Some(rest) => take_search(alloc, mode, days, true, FrameParts { frame, tag, rest }),
    }
}

/// What follows a space and the word SEARCH; `None` if another word is there.
fn search_after_uid(rest: &[u8]) -> Option<&[u8]>
    ensures { MatchOption result
        ((front back : List ℕ) → (sp ⌢ word (codes "SEARCH")) front → rest.now ≡ front ++ back
        → begins_with_class Atom back ≡ false → ⊥)
        (λ back. (front : List ℕ) × (sp ⌢ word (codes "SEARCH")) front
        × (rest.now ≡ front ++ back.now) × (begins_with_class Atom back.now ≡ false)) }
{
    match after_start(rest, b" ") {
        None => None,
        Some(rest) => after_search(rest),
    }
}

/// What follows the word SEARCH; `None` if another word is there.
fn after_search(octets: &[u8]) -> Option<&[u8]>
    ensures { MatchOption result
        ((front back : List ℕ) → word (codes "SEARCH") front → octets.now ≡ front ++ back
        → begins_with_class Atom back ≡ false → ⊥)
        (λ back. (front : List ℕ) × word (codes "SEARCH") front
        × (octets.now ≡ front ++ back.now) × (begins_with_class Atom back.now ≡ false)) }
{
    let (letters, rest) = atom_span(octets);
    if !letters.eq_ignore_ascii_case(b"SEARCH") {
        return None;
    }
    Some(rest)
}

/// SEARCH with keys of IMAP4rev1, or with a charset that isn't known.
pub fn take_search(
    alloc: Global,
    mode: Mode,
    days: Option<&[SentDay]>,
    by_uid: bool,
    parts: FrameParts<'_>,
) -> Result<Option<Taken>, AllocError>
    ensures { IfOk result (λ it. MatchOption it
        ((other : Taken) → IsSearch mode (option_copied days.entry) parts.entry.frame.now by_uid
        parts.entry.tag.now parts.entry.rest.now other → ⊥)
        (λ taken. IsSearch mode (option_copied days.entry) parts.entry.frame.now by_uid
        parts.entry.tag.now parts.entry.rest.now taken)) }
{
    match days {
        None => search_without_days(alloc, mode, by_uid, parts),
        Some(days) => search_with_days(alloc, mode, days, by_uid, parts),
    }
}

/// SEARCH while the days on which messages were sent aren't known.
fn search_without_days(
    alloc: Global,
    mode: Mode,
    by_uid: bool,
    parts: FrameParts<'_>,
) -> Result<Option<Taken>, AllocError>
    ensures { IfOk result (λ it. MatchOption it
        ((other : Taken) → IsSearch mode None parts.entry.frame.now by_uid parts.entry.tag.now
        parts.entry.rest.now other → ⊥)
        (λ taken. IsSearch mode None parts.entry.frame.now by_uid parts.entry.tag.now
        parts.entry.rest.now taken)) }
{
    let FrameParts { frame, tag, rest } = parts;
    match search_arguments(alloc, &[], rest)? {
        SearchArguments::UnknownCharset => Ok(Some(unknown_charset(alloc, tag)?)),
        SearchArguments::Profile { rest, asks_sent } => {
            if asks_sent {
                return ask_days(alloc, by_uid, tag, &rest);
            }
            take_keys(alloc, mode, frame, by_uid, tag, &rest)
        }
    }
}

/// SEARCH once the days on which messages were sent are known.
fn search_with_days(
    alloc: Global,
    mode: Mode,
    days: &[SentDay],
    by_uid: bool,
    parts: FrameParts<'_>,
) -> Result<Option<Taken>, AllocError>
    ensures { IfOk result (λ it. MatchOption it
        ((other : Taken) → IsSearch mode (Some days.now) parts.entry.frame.now by_uid
        parts.entry.tag.now parts.entry.rest.now other → ⊥)
        (λ taken. IsSearch mode (Some days.now) parts.entry.frame.now by_uid parts.entry.tag.now
        parts.entry.rest.now taken)) }
{
    let FrameParts { frame, tag, rest } = parts;
    match search_arguments(alloc, days, rest)? {
        SearchArguments::UnknownCharset => Ok(Some(unknown_charset(alloc, tag)?)),
        SearchArguments::Profile {
            rest,
            asks_sent: _asks_sent,
        } => { take_keys(alloc, mode, frame, by_uid, tag, &rest) }
    }
}

/// The refusal of a search in a charset that isn't known.
fn unknown_charset(alloc: Global, tag: &[u8]) -> Result<Taken, AllocError>
    ensures { IfOk result (λ it. it ≡ Refused tag.now UnknownCharset) }
{
    Ok(Taken::Refused {
        tag: Octets::from_slice(alloc, tag)?,
        reason: FrontRefusal::UnknownCharset,
    })
}

/// The word of SEARCH, of numbers or of UIDs.
fn search_word(by_uid: bool) -> &'static [u8]
    ensures { result.now ≡ search_word by_uid }
{
    if by_uid { b"UID SEARCH" } else { b"SEARCH" }
}

/// The whole texts of all messages, for the days in them; `None` if the search, with keys of the
/// profile, isn't one.
fn ask_days(
    alloc: Global,
    by_uid: bool,
    tag: &[u8],
    rest: &[u8],
) -> Result<Option<Taken>, AllocError>
    ensures { IfOk result (λ it. MatchOption it
        ((other : Taken) → AsksDays by_uid tag.now rest.now other → ⊥)
        (λ taken. AsksDays by_uid tag.now rest.now taken)) }
{
    match parse_parts(alloc, tag, search_word(by_uid), rest)? {
        None => Ok(None),
        Some(search) => {
            drop(search);
            fetch_texts(alloc, tag)
        }
    }
}

/// FETCH of the whole texts of all messages.
fn fetch_texts(alloc: Global, tag: &[u8]) -> Result<Option<Taken>, AllocError>
    ensures { IfOk result (λ it. MatchOption it
        ((fetch : Tagged) → IsFetchOfTexts tag.now fetch → ⊥)
        (λ taken. (fetch : Tagged) × IsFetchOfTexts tag.now fetch
        × (taken ≡ DaysAsked fetch))) }
{
    match parse_parts(alloc, tag, b"FETCH", b" 1:* (UID BODY.PEEK[])\r\n")? {
        None => Ok(None),
        Some(fetch) => Ok(Some(Taken::AsksDays { fetch })),
    }
}

/// SEARCH with these arguments of the profile.
fn take_keys(
    alloc: Global,
    mode: Mode,
    frame: &[u8],
    by_uid: bool,
    tag: &[u8],
    rest: &[u8],
) -> Result<Option<Taken>, AllocError>
    ensures { IfOk result (λ it. MatchOption it
        ((other : Taken) → IsKeySearch mode frame.now by_uid tag.now rest.now other → ⊥)
        (λ taken. IsKeySearch mode frame.now by_uid tag.now rest.now taken)) }
{
    match parse_parts(alloc, tag, search_word(by_uid), rest)? {
        None => Ok(None),
        Some(tagged) => {
            let form = form_of(mode, &tagged.command, frame);
            Ok(Some(Taken::Command { tagged, form }))
        }
    }
}
