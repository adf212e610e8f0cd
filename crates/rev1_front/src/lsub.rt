//! The answers to LSUB (RFC 3501, section 6.3.9).

ghost use Rattle.std.specs.Prelude.{◌≡◌, ◌↔◌, ◌⊎◌, ◌++◌, ◌∷◌, ◌<◌, ℕ, List, [], length, take};
ghost use Rattle.std.specs.Prelude.{OnErr, OnOk, IfOk, IsTrue, MatchOption, Bool, false, codes};
ghost use Rattle.std.specs.Prelude.{drop, map, min};
ghost use Rattle.std.specs.Char.{to_ascii_uppercase};
ghost use Rattle.imap_answers.specs.Strings.{crlf, name_text};
ghost use Rattle.imap_answers.specs.Words.{attributes_text};
ghost use Rattle.imap_answers.specs.declared.answer.Answer.{Answer};
ghost use Rattle.imap_answers.specs.declared.answer.Answer.TheVariants.{List as ListAnswer};
ghost use Rattle.imap_answers.specs.declared.mailbox.MailboxState.{MailboxState as StateOfMailbox};
ghost use Rattle.imap_query.specs.Patterns.{IsIn, IsNameMatch};
ghost use Rattle.rev1_front.specs.LsubLines.{AreLsubLines, IsLevelOf, IsListed, IsLsubLine};
ghost use Rattle.rev1_front.specs.LsubLines.{IsLsubText, IsMatchedLevel, IsShownOfName};
ghost use Rattle.rev1_front.specs.LsubLines.{is_absent, lsub_attributes};
ghost use Rattle.rev1_front.specs.LsubSteps.{AreLevels, IsEntry, IsLevelStep, IsOtherText};
ghost use Rattle.rev1_front.specs.Names.{IsOuter};
ghost use Rattle.rev1_front.specs.Showing.{IsFrontOf};

use crate::fixed_texts::print_parts;
use crate::frame_parts::before_suffix;
use crate::outer_names::outer_name;
use crate::session::Mode;
use imap_answers::{Answer, MailboxState};
use imap_print::print;
use imap_query::matches;
use imap_types::{Name, Octets};
use std::alloc::{AllocError, Global};

/// An LSUB of the names that a pattern matches, and the answers to LIST of all subscribed names.
#[derive(Clone, Copy)]
struct LsubQuery<'a> {
    mode: Mode,
    pattern: &'a [u8],
    answers: &'a [Answer],
}

/// What LSUB shows of one subscribed name.
#[derive(Drop)]
enum LsubEntry {
    /// The name itself, which the pattern matches.
    Own,
    /// This superior level of it.
    Level(Name),
    /// Nothing.
    Nothing,
}

/// Appends the answers to LSUB with a pattern, made of those to LIST of all subscribed names: the
/// names that the pattern matches, and, if `%` ends it, once each the levels above the others that
/// it matches. `Err` if memory runs out; then the lines of some of the first answers were appended.
pub fn show_lsub<'a>(
    alloc: Global,
    mode: Mode,
    pattern: &'a Octets,
    answers: &'a [Answer],
    text: &mut Vec<u8>,
) -> Result<(), AllocError>
    ensures ok { OnOk result ((given : List ℕ)
        × AreLsubLines mode pattern.now answers.now [] answers.now given
        × (text.new.items ≡ text.old.items ++ given)) }
    ensures err { OnErr result ((front : List Answer) × (given : List ℕ)
        × IsFrontOf front answers.now
        × AreLsubLines mode pattern.now answers.now [] front given
        × (text.new.items ≡ text.old.items ++ given)) }
{
    let octets = pattern.as_bytes();
    let query = LsubQuery {
        mode,
        pattern: octets,
        answers,
    };
    let mut levels = Vec::new(alloc);
    for answer in answers {
        show_answer(alloc, query, answer, &mut levels, text)?;
    }
    Ok(())
}

/// Appends what LSUB shows of one of the answers, after the earlier ones, for which these levels
/// were shown. `Err` if memory runs out; the text is then unchanged.
fn show_answer(
    alloc: Global,
    query: LsubQuery<'_>,
    answer: &Answer,
    levels: &mut Vec<Name>,
    text: &mut Vec<u8>,
) -> Result<(), AllocError>
    ensures ok { OnOk result ((earlier : List Answer)
        → AreLevels query.entry.pattern.now query.entry.answers.now earlier levels.old.items
        → (given : List ℕ)
        × IsLsubText query.entry.mode query.entry.pattern.now query.entry.answers.now earlier
        answer.now given
        × (text.new.items ≡ text.old.items ++ given)
        × AreLevels query.entry.pattern.now query.entry.answers.now (earlier ++ answer.now ∷ [])
        levels.new.items) }
    ensures err { OnErr result (text.new.items ≡ text.old.items) }
{
    match listed_name(answer) {
        None => print_other(answer, text),
        Some((name, state)) => show_name(alloc, query, name, state, levels, text),
    }
}

/// The name that LIST shows, and its state; `None` if the answer is another.
fn listed_name(answer: &Answer) -> Option<(&Name, MailboxState)>
    ensures { MatchOption result
        ((name : List ℕ) (state : StateOfMailbox) (subscribed : Bool)
        → answer.now ≡ ListAnswer name state subscribed → ⊥)
        (λ x. (subscribed : Bool) × (answer.now ≡ ListAnswer x.0.now x.1 subscribed)) }
{
    match answer {
        Answer::List { name, state, .. } => Some((name, *state)),
        _ => None,
    }
}

/// Appends another answer: the tagged line of LIST is that of LSUB. `Err` if memory runs out; the
/// text is then unchanged.
fn print_other(answer: &Answer, text: &mut Vec<u8>) -> Result<(), AllocError>
    ensures ok { OnOk result ((given : List ℕ) × IsOtherText answer.now given
        × (text.new.items ≡ text.old.items ++ given)) }
    ensures err { OnErr result (text.new.items ≡ text.old.items) }
{
    match answer {
        Answer::Completed { tag, .. } => {
            print_parts(tag.as_bytes(), b" OK LSUB completed", b"\r\n", text)
        }
        _ => print(answer, text),
    }
}

/// Appends what LSUB shows of one subscribed name. `Err` if memory runs out; the text is then
/// unchanged.
fn show_name(
    alloc: Global,
    query: LsubQuery<'_>,
    name: &Name,
    state: MailboxState,
    levels: &mut Vec<Name>,
    text: &mut Vec<u8>,
) -> Result<(), AllocError>
    ensures ok { OnOk result ((earlier : List Answer)
        → AreLevels query.entry.pattern.now query.entry.answers.now earlier levels.old.items
        → (given : List ℕ)
        × IsShownOfName query.entry.mode query.entry.pattern.now query.entry.answers.now earlier
        name.now state given
        × (text.new.items ≡ text.old.items ++ given)
        × ((subscribed : Bool) → AreLevels query.entry.pattern.now query.entry.answers.now
        (earlier ++ ListAnswer name.now state subscribed ∷ []) levels.new.items)) }
    ensures err { OnErr result (text.new.items ≡ text.old.items) }
{
    let LsubQuery {
        mode,
        pattern,
        answers,
    } = query;
    match shown_entry(alloc, pattern, name)? {
        LsubEntry::Own => print_lsub(alloc, mode, name, is_absent(state), text),
        LsubEntry::Nothing => Ok(()),
        LsubEntry::Level(level) => show_level(alloc, mode, level, answers, levels, text),
    }
}

/// Appends a level, unless it is among the names that LIST shows or among the levels. `Err` if
/// memory runs out; the text is then unchanged.
fn show_level(
    alloc: Global,
    mode: Mode,
    level: Name,
    answers: &[Answer],
    levels: &mut Vec<Name>,
    text: &mut Vec<u8>,
) -> Result<(), AllocError>
    ensures ok { OnOk result (IsLevelStep mode level answers.now
        levels.old.items levels.new.items text.old.items text.new.items) }
    ensures err { OnErr result (text.new.items ≡ text.old.items) }
{
    if is_shown(&level, answers, levels) {
        return Ok(());
    }
    levels.push(level.copy(alloc)?)?;
    print_lsub(alloc, mode, &level, true, text)
}

/// Whether a level is among the names that LIST shows or among the levels.
fn is_shown(level: &Name, answers: &[Answer], levels: &[Name]) -> bool
    ensures { IsTrue result ↔ (IsListed level.now answers.now ⊎ IsIn level.now levels.now) }
{
    is_listed(level, answers) || is_level(level, levels)
}

/// Whether no mailbox has this name.
fn is_absent(state: MailboxState) -> bool
    ensures { result ≡ is_absent state }
{
    match state {
        MailboxState::Selectable => false,
        MailboxState::NoSelect | MailboxState::NonExistent => true,
    }
}

/// Whether the name is one of those that LIST shows.
fn is_listed(level: &Name, answers: &[Answer]) -> bool
    ensures { IsTrue result ↔ IsListed level.now answers.now }
{
    for answer in answers {
        if is_of_name(level, answer) {
            return true;
        }
    }
    false
}

/// Whether an answer to LIST shows this name.
fn is_of_name(level: &Name, answer: &Answer) -> bool
    ensures { IsTrue result ↔ ((state : StateOfMailbox) × (subscribed : Bool)
        × (answer.now ≡ ListAnswer level.now state subscribed)) }
{
    match listed_name(answer) {
        None => false,
        Some((name, _)) => name.same(level),
    }
}

/// Whether the name is among these.
fn is_level(level: &Name, levels: &[Name]) -> bool
    ensures { IsTrue result ↔ IsIn level.now levels.now }
{
    for other in levels {
        if other.same(level) {
            return true;
        }
    }
    false
}

/// What LSUB shows of a subscribed name. `Err` if memory runs out.
fn shown_entry(alloc: Global, pattern: &[u8], name: &Name) -> Result<LsubEntry, AllocError>
    ensures { IfOk result (λ entry. IsEntry pattern.now name.now entry) }
{
    if is_match(alloc, pattern, name)? {
        return Ok(LsubEntry::Own);
    }
    if !ends_with_percent(pattern) {
        return Ok(LsubEntry::Nothing);
    }
    match highest_level(alloc, pattern, name.as_bytes())? {
        None => Ok(LsubEntry::Nothing),
        Some(level) => Ok(LsubEntry::Level(level)),
    }
}

/// Whether `%` ends a pattern.
fn ends_with_percent(pattern: &[u8]) -> bool
    ensures { IsTrue result ↔ ((front : List ℕ) × (pattern.now ≡ front ++ 37 ∷ [])) }
{
    before_suffix(pattern, b"%").is_some()
}

/// The longest superior level that a pattern matches. `Err` if memory runs out.
fn highest_level(alloc: Global, pattern: &[u8], name: &[u8]) -> Result<Option<Name>, AllocError>
    ensures { IfOk result (λ found. MatchOption found
        ((level : List ℕ) → IsLevelOf level name.now → IsNameMatch pattern.now level → ⊥)
        (λ level. IsMatchedLevel pattern.now name.now level)) }
{
    for past in 0..name.len() {
        let len = name.len() - 1 - past;
        if let Some(level) = matched_level(alloc, pattern, name, len)? {
            return Ok(Some(level));
        }
    }
    Ok(None)
}

/// The first `len` octets of a name, if they are a superior level that a pattern matches. `Err` if
/// memory runs out.
fn matched_level(
    alloc: Global,
    pattern: &[u8],
    name: &[u8],
    len: usize,
) -> Result<Option<Name>, AllocError>
    requires { len < length name.now }
    ensures { IfOk result (λ found. MatchOption found
        (IsLevelOf (take len name.now) name.now
        → IsNameMatch pattern.now (take len name.now) → ⊥)
        (λ level. (level ≡ take len name.now) × IsLevelOf level name.now
        × IsNameMatch pattern.now level)) }
{
    if name[len] != b'/' {
        return Ok(None);
    }
    let level = Name::from_slice(alloc, &name[..len])?;
    if !is_match(alloc, pattern, &level)? {
        return Ok(None);
    }
    Ok(Some(level))
}

/// Whether a pattern matches a name, INBOX in any letter case. `Err` if memory runs out.
fn is_match(alloc: Global, pattern: &[u8], name: &Name) -> Result<bool, AllocError>
    ensures { IfOk result (λ yes. IsTrue yes ↔ IsNameMatch pattern.now name.now) }
{
    if !name.is_inbox() {
        return matches(alloc, pattern, name.as_bytes());
    }
    let capitals = in_capitals(alloc, pattern)?;
    matches(alloc, &capitals, b"INBOX")
}

/// A pattern in capitals. `Err` if memory runs out.
fn in_capitals(alloc: Global, pattern: &[u8]) -> Result<Vec<u8>, AllocError>
    ensures { IfOk result (λ capitals. capitals.items ≡ map to_ascii_uppercase pattern.now) }
{
    let mut capitals = pattern.to_vec(alloc)?;
    capitals.make_ascii_uppercase();
    Ok(capitals)
}

/// Appends a line of LSUB. `Err` if memory runs out; the text is then unchanged.
fn print_lsub(
    alloc: Global,
    mode: Mode,
    name: &Name,
    is_absent: bool,
    text: &mut Vec<u8>,
) -> Result<(), AllocError>
    ensures ok { OnOk result ((line : List ℕ) × IsLsubLine mode name.now is_absent line
        × (text.new.items ≡ text.old.items ++ line)) }
    ensures err { OnErr result (text.new.items ≡ text.old.items) }
{
    let line = list_line(alloc, mode, name, is_absent)?;
    print_parts(b"* LSUB", after_label(&line), b"", text)
}

/// The octets after the first six, `* LIST`.
fn after_label(line: &[u8]) -> &[u8]
    ensures { result.now ≡ drop (min (length line.now) 6) line.now }
{
    let (_, rest) = line.split_at(line.len().min(6));
    rest
}

/// A line of LIST in place of LSUB. `Err` if memory runs out.
fn list_line(alloc: Global, mode: Mode, name: &Name, is_absent: bool) -> Result<Vec<u8>, AllocError>
    ensures { IfOk result (λ line. (outer : List ℕ) × IsOuter mode name.now outer
        × (line.items ≡ codes "* LIST " ++ lsub_attributes is_absent ++ codes " \"/\" "
        ++ name_text outer ++ crlf)) }
{
    let listed = Answer::List {
        name: outer_name(alloc, mode, name)?,
        state: listed_state(is_absent),
        subscribed: false,
    };
    let mut line = Vec::new(alloc);
    print(&listed, &mut line)?;
    Ok(line)
}

/// The state that a line of LIST shows.
fn listed_state(is_absent: bool) -> MailboxState
    ensures { attributes_text result false ≡ lsub_attributes is_absent }
{
    if is_absent {
        MailboxState::NoSelect
    } else {
        MailboxState::Selectable
    }
}
