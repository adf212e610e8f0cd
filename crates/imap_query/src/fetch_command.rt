//! The answers to FETCH (RFC 9051, section 6.4.5; RFC 7162, section 3.1.4).

ghost use Rattle.std.specs.Prelude.{◌≡◌, ◌||◌, ◌++◌, ◌∷◌, [], true, false, IfOk, OnOk};
ghost use Rattle.imap_answers.specs.declared.answer.Answer.TheVariants.{Fetch};
ghost use Rattle.std.specs.List.{list_any};
ghost use Rattle.imap_query.specs.FetchCommand.{answer_of, sections_of_items, asks_part};
ghost use Rattle.imap_query.specs.FetchCommand.{partial_octets};
ghost use Rattle.imap_query.specs.FetchCommand.{fetch_answers, is_above_changed_since, is_seen_set};
ghost use Rattle.imap_query.specs.FetchCommand.{items_of, origin_of, part_of, parts_of, section_of};
ghost use Rattle.imap_query.specs.FetchCommand.{section_part, sets_seen, reports_flags};
ghost use Rattle.imap_query.specs.FetchCommand.{reports_modseq};
ghost use Rattle.imap_query.specs.FetchCommand.{if_reported};
ghost use Rattle.imap_query.specs.declared.fetch_command.Part.TheVariants as part;
ghost use Rattle.mailbox_rows.specs.RowViews.{listed_message, row_of};
ghost use Rattle.mail_text.specs.HeaderFields.{fields_of};

use crate::answer_room::make_room;
use crate::heads::{are_answerable_by_heads, fetch_heads};
use crate::viewed_message::ViewedMessage;
use imap_answers::{Answer, FetchItems, SectionData, Sections};
use imap_syntax::{FetchItem, Partial};
use imap_types::{DateTime, Flags, Octets, Section, Text};
use mail_text::{body, fields, header, other_fields, partial};
use mailbox_rows::{Row, Rows};
use std::alloc::{AllocError, Global};

/// The form of a FETCH (RFC 9051, section 6.4.5; RFC 7162, section 3.1.4).
#[derive(Clone, Copy, Debug, PartialEq, Eq)]
pub struct FetchMode {
    /// Whether messages are named by UIDs, which the answers then include.
    pub by_uid: bool,
    /// Whether answers with flags include the mod-sequence (RFC 7162, section 3.1).
    pub condstore: bool,
    /// Whether the mailbox is read-write, so that reading a section sets `\Seen`.
    pub writable: bool,
    /// CHANGEDSINCE: only messages with mod-sequences above this one are fetched.
    pub changed_since: Option<u64>,
}

/// A FETCH: its items and its mode.
#[derive(Clone, Copy)]
pub(crate) struct FetchSpec<'a> {
    pub(crate) items: &'a [FetchItem],
    pub(crate) mode: FetchMode,
    /// The parts that the items ask for, worked out once for all messages.
    pub(crate) parts: FetchParts,
}

/// The parts that the items of a FETCH ask for.
#[derive(Clone, Copy, Debug, PartialEq, Eq)]
pub(crate) struct FetchParts {
    pub(crate) uid: bool,
    pub(crate) flags: bool,
    pub(crate) date: bool,
    pub(crate) size: bool,
    pub(crate) modseq: bool,
    pub(crate) sections: bool,
    /// Whether one of the items sets `\Seen`.
    pub(crate) seen: bool,
}

/// The part that an item of FETCH asks for, without the section that it names.
#[derive(Clone, Copy, Debug, PartialEq, Eq)]
enum Part {
    Uid,
    Flags,
    Date,
    Size,
    ModSeq,
    Section,
}

/// The answers to FETCH, in order, for those named messages that the listings before and after the
/// command both have, with the messages as they are after it (RFC 9051, section 6.4.5; RFC 7162,
/// section 3.1.4). A section costs one reading of the text up to the section's end, and a copy of
/// the octets returned. `Err` if memory runs out.
pub fn fetch(
    alloc: Global,
    named: &[ViewedMessage],
    before: &Rows<'_>,
    after: &Rows<'_>,
    items: &[FetchItem],
    mode: FetchMode,
) -> Result<Vec<Answer>, AllocError>
    ensures { IfOk result
        (λ answers. answers.items ≡ fetch_answers items.now mode before.now after.now named.now) }
{
    let asked = fetch_spec(items, mode);
    let mut answers = Vec::new(alloc);
    for shown in named {
        push_answer(alloc, before, after, asked, *shown, &mut answers)?;
    }
    Ok(answers)
}

/// The answers of [`fetch`] for a command that changes nothing, so that the listing after it is the
/// one before it. Each message is looked up once; with CHANGEDSINCE only those that changed, which
/// the listing finds by their mod-sequences. `Err` if memory runs out.
pub fn fetch_unchanged(
    alloc: Global,
    named: &[ViewedMessage],
    rows: &Rows<'_>,
    items: &[FetchItem],
    mode: FetchMode,
) -> Result<Vec<Answer>, AllocError>
    ensures { IfOk result
        (λ answers. answers.items ≡ fetch_answers items.now mode rows.now rows.now named.now) }
{
    match mode.changed_since {
        None => fetch_in(alloc, named, rows, items, mode),
        Some(modseq) => {
            let _count = rows.count();
            let changed = rows.changed_since(alloc, modseq)?;
            fetch_in(alloc, named, &changed, items, mode)
        }
    }
}

/// The number of answers for which room is made at once: one for each message and one for the line
/// that completes the command. With CHANGEDSINCE it is 0, since few messages have changed.
pub(crate) fn answers_at_once(named: &[ViewedMessage], mode: FetchMode) -> usize {
    match mode.changed_since {
        None => named.len().saturating_add(1),
        Some(_) => 0,
    }
}

/// The answers to FETCH for the named messages, from one listing.
fn fetch_in(
    alloc: Global,
    named: &[ViewedMessage],
    rows: &Rows<'_>,
    items: &[FetchItem],
    mode: FetchMode,
) -> Result<Vec<Answer>, AllocError>
    ensures { IfOk result
        (λ answers. answers.items ≡ fetch_answers items.now mode rows.now rows.now named.now) }
{
    let asked = fetch_spec(items, mode);
    if are_answerable_by_heads(asked.parts) {
        return fetch_heads(alloc, named, rows, asked);
    }
    let mut answers = Vec::with_capacity(alloc, answers_at_once(named, mode))?;
    for shown in named {
        push_unchanged(alloc, rows, asked, *shown, &mut answers)?;
    }
    Ok(answers)
}

/// These items and this mode, with the parts that the items ask for.
fn fetch_spec(items: &[FetchItem], mode: FetchMode) -> FetchSpec<'_>
    ensures items { result.items.now ≡ items.now }
    ensures mode { result.mode ≡ mode }
    ensures parts { result.parts ≡ parts_of items.now }
{
    let parts = parts_of(items);
    FetchSpec { items, mode, parts }
}

fn parts_of(items: &[FetchItem]) -> FetchParts
    ensures { result ≡ parts_of items.now }
{
    FetchParts {
        uid: asks_part(items, Part::Uid),
        flags: asks_part(items, Part::Flags),
        date: asks_part(items, Part::Date),
        size: asks_part(items, Part::Size),
        modseq: asks_part(items, Part::ModSeq),
        sections: asks_part(items, Part::Section),
        seen: any_sets_seen(items),
    }
}

/// Adds the answer for one message that the command leaves unchanged.
fn push_unchanged(
    alloc: Global,
    rows: &Rows<'_>,
    asked: FetchSpec<'_>,
    shown: ViewedMessage,
    answers: &mut Vec<Answer>,
) -> Result<(), AllocError>
    requires { asked.parts ≡ parts_of asked.items.now }
    ensures { OnOk result (answers.new.items
        ≡ answers.old.items
        ++ answer_of asked.entry.items.now asked.entry.mode shown (row_of shown.uid rows.now)
        (row_of shown.uid rows.now)) }
{
    match rows.row_near(shown.place(), shown.uid) {
        None => Ok(()),
        Some(row) => {
            if !has_changed_since(asked.mode.changed_since, &row) {
                return Ok(());
            }
            let reported = items_of(alloc, asked, &row, &row)?;
            push_fetch(answers, shown.number, reported)
        }
    }
}

/// Adds the answer for one message.
fn push_answer(
    alloc: Global,
    before: &Rows<'_>,
    after: &Rows<'_>,
    asked: FetchSpec<'_>,
    shown: ViewedMessage,
    answers: &mut Vec<Answer>,
) -> Result<(), AllocError>
    requires { asked.parts ≡ parts_of asked.items.now }
    ensures { OnOk result (answers.new.items
        ≡ answers.old.items
        ++ answer_of asked.entry.items.now asked.entry.mode shown (row_of shown.uid before.now)
        (row_of shown.uid after.now)) }
{
    match before.row_near(shown.place(), shown.uid) {
        None => Ok(()),
        Some(old) => match after.row_near(shown.place(), shown.uid) {
            None => Ok(()),
            Some(row) => {
                if !has_changed_since(asked.mode.changed_since, &old) {
                    return Ok(());
                }
                let reported = items_of(alloc, asked, &old, &row)?;
                push_fetch(answers, shown.number, reported)
            }
        },
    }
}

/// Adds an answer after making room for it, so that the push itself can't fail.
#[inline(always)]
pub(crate) fn push_fetch(
    answers: &mut Vec<Answer>,
    number: u32,
    items: FetchItems,
) -> Result<(), AllocError>
    ensures { OnOk result (answers.new.items ≡ answers.old.items ++ Fetch number items ∷ []) }
{
    make_room(answers)?;
    answers.push_reserved(Answer::Fetch { number, items });
    Ok(())
}

/// Whether a message's mod-sequence is above that of CHANGEDSINCE, if one is given (RFC 7162,
/// section 3.1.4.1).
pub fn has_changed_since(changed_since: Option<u64>, old: &Row<'_>) -> bool
    ensures { result ≡ is_above_changed_since changed_since (listed_message old.now) }
{
    match changed_since {
        None => true,
        Some(modseq) => old.modseq > modseq,
    }
}

/// The items of a message that was `old` before the command and is `row` after it.
fn items_of(
    alloc: Global,
    asked: FetchSpec<'_>,
    old: &Row<'_>,
    row: &Row<'_>,
) -> Result<FetchItems, AllocError>
    requires { asked.parts ≡ parts_of asked.items.now }
    ensures { IfOk result (λ reported. reported
        ≡ items_of asked.entry.items.now asked.entry.mode (listed_message old.now)
        (listed_message row.now)) }
{
    let sections = sections_if_asked(alloc, asked, row)?;
    let reports_flags = reports_flags(asked, old);
    let flags = flags_if_reported(alloc, reports_flags, row)?;
    Ok(FetchItems {
        uid: reports_uid(asked).then_some(row.uid),
        flags,
        date: date_if_asked(asked.parts.date, row),
        size: asked.parts.size.then_some(row.shown_text().len() as u64),
        modseq: reports_modseq(asked, reports_flags).then_some(row.modseq),
        sections,
    })
}

#[inline(always)]
pub(crate) fn reports_uid(asked: FetchSpec<'_>) -> bool
    requires { asked.parts ≡ parts_of asked.items.now }
    ensures { result ≡ (asked.entry.mode.by_uid || asks_part part.Uid asked.entry.items.now) }
{
    asked.mode.by_uid || asked.parts.uid
}

fn date_if_asked(reported: bool, row: &Row<'_>) -> Option<DateTime>
    ensures { result ≡ if_reported reported (listed_message row.now).date }
{
    if reported {
        Some(row.shown_date())
    } else {
        None
    }
}

fn flags_if_reported(
    alloc: Global,
    reported: bool,
    row: &Row<'_>,
) -> Result<Option<Flags>, AllocError>
    ensures { IfOk result (λ flags. flags ≡ if_reported reported (listed_message row.now).flags) }
{
    if !reported {
        return Ok(None);
    }
    Ok(Some(row.versions.flags(alloc)?))
}

/// Whether flags are reported: if they are asked for, or if reading a section sets `\Seen`.
fn reports_flags(asked: FetchSpec<'_>, old: &Row<'_>) -> bool
    requires { asked.parts ≡ parts_of asked.items.now }
    ensures { result
        ≡ reports_flags asked.entry.items.now asked.entry.mode (listed_message old.now) }
{
    asked.parts.flags || sets_seen_on(asked, old)
}

/// Equals [`is_seen_set`], by the parts that were worked out before.
fn sets_seen_on(asked: FetchSpec<'_>, old: &Row<'_>) -> bool
    requires { asked.parts ≡ parts_of asked.items.now }
    ensures { result ≡ is_seen_set asked.entry.items.now asked.entry.mode (listed_message old.now) }
{
    asked.mode.writable && asked.parts.seen && !old.versions.seen()
}

/// Whether FETCH sets `\Seen` on this message: if the mailbox is read-write, the message lacks the
/// flag and an item asks for a section without PEEK (RFC 9051, section 6.4.5.1).
pub fn is_seen_set(items: &[FetchItem], mode: FetchMode, old: &Row<'_>) -> bool
    ensures { result ≡ is_seen_set items.now mode (listed_message old.now) }
{
    mode.writable && !old.versions.seen() && any_sets_seen(items)
}

/// Whether one of the items sets `\Seen`: a section without PEEK (RFC 9051, section 6.4.5.1).
pub fn any_sets_seen(items: &[FetchItem]) -> bool
    ensures { result ≡ list_any sets_seen items.now }
{
    for item in items {
        if sets_seen(item) {
            return true;
        }
    }
    false
}

fn sets_seen(item: &FetchItem) -> bool
    ensures { result ≡ sets_seen item.now }
{
    match item {
        FetchItem::Body { peek, .. } => !*peek,
        _ => false,
    }
}

#[inline(always)]
pub(crate) fn reports_modseq(asked: FetchSpec<'_>, reports_flags: bool) -> bool
    requires { asked.parts ≡ parts_of asked.items.now }
    ensures { result ≡ reports_modseq asked.entry.items.now asked.entry.mode reports_flags }
{
    asked.parts.modseq
        || asked.mode.changed_since.is_some()
        || (asked.mode.condstore && reports_flags)
}

fn asks_part(items: &[FetchItem], part: Part) -> bool
    ensures { result ≡ asks_part part items.now }
{
    for item in items {
        if part_of(item) == part {
            return true;
        }
    }
    false
}

fn part_of(item: &FetchItem) -> Part
    ensures { result ≡ part_of item.now }
{
    match item {
        FetchItem::Uid => Part::Uid,
        FetchItem::Flags => Part::Flags,
        FetchItem::InternalDate => Part::Date,
        FetchItem::Size => Part::Size,
        FetchItem::ModSeq => Part::ModSeq,
        FetchItem::Body { .. } => Part::Section,
    }
}

/// The sections, if some are asked for.
fn sections_if_asked(
    alloc: Global,
    asked: FetchSpec<'_>,
    row: &Row<'_>,
) -> Result<Sections, AllocError>
    requires { asked.parts ≡ parts_of asked.items.now }
    ensures { IfOk result
        (λ sections. sections
        ≡ sections_of_items (listed_message row.now).text asked.entry.items.now) }
{
    if !asked.parts.sections {
        return Ok(Sections::new(Vec::new(alloc)));
    }
    sections(alloc, row, asked.items)
}

/// The sections that are asked for, in order, in no more memory than they need: a journal stores
/// them for good.
fn sections(alloc: Global, row: &Row<'_>, items: &[FetchItem]) -> Result<Sections, AllocError>
    ensures { IfOk result
        (λ sections. sections ≡ sections_of_items (listed_message row.now).text items.now) }
{
    let mut pieces = Vec::new(alloc);
    for item in items {
        push_section(alloc, row, item, &mut pieces)?;
    }
    pieces.shrink_to_fit();
    Ok(Sections::new(pieces))
}

fn push_section(
    alloc: Global,
    row: &Row<'_>,
    item: &FetchItem,
    pieces: &mut Vec<SectionData>,
) -> Result<(), AllocError>
    ensures { OnOk result
        (pieces.new.items
        ≡ pieces.old.items ++ section_part (listed_message row.now).text item.now) }
{
    match item {
        FetchItem::Body {
            section,
            partial,
            ..
        } => {
            let octets = section_of(alloc, section, *partial, row)?;
            let section = section.copy(alloc)?;
            let origin = origin_of(*partial);
            pieces.push(SectionData {
                section,
                origin,
                octets,
            })?;
            Ok(())
        }
        _ => Ok(()),
    }
}

/// The octets of a section that a FETCH returns.
fn section_of(
    alloc: Global,
    section: &Section,
    partial: Option<Partial>,
    row: &Row<'_>,
) -> Result<Text, AllocError>
    ensures { IfOk result (λ octets. octets
        ≡ partial_octets partial (section_of section.now (listed_message row.now).text)) }
{
    match section {
        Section::Whole => whole(alloc, row, partial),
        Section::Header => Text::from_slice(
            alloc,
            partial_octets(header(row.shown_text()), partial),
        ),
        Section::Text => Text::from_slice(alloc, partial_octets(body(row.shown_text()), partial)),
        Section::Fields { names } => named_fields(alloc, names.names(), partial, row),
        Section::FieldsNot { names } => unnamed_fields(alloc, names.names(), partial, row),
    }
}

/// The octets of the whole text that a FETCH returns, shared with the message if all are asked for.
fn whole(alloc: Global, row: &Row<'_>, partial: Option<Partial>) -> Result<Text, AllocError>
    ensures { IfOk result
        (λ octets. octets ≡ partial_octets partial (listed_message row.now).text) }
{
    match partial {
        None => row.copy_text(alloc),
        Some(_) => Text::from_slice(alloc, partial_octets(row.shown_text(), partial)),
    }
}

fn named_fields(
    alloc: Global,
    names: &[Octets],
    partial: Option<Partial>,
    row: &Row<'_>,
) -> Result<Text, AllocError>
    ensures { IfOk result (λ octets. octets
        ≡ partial_octets partial (fields_of true names.now (listed_message row.now).text)) }
{
    let chosen = fields(alloc, row.shown_text(), names)?;
    Text::from_slice(alloc, partial_octets(&chosen, partial))
}

fn unnamed_fields(
    alloc: Global,
    names: &[Octets],
    partial: Option<Partial>,
    row: &Row<'_>,
) -> Result<Text, AllocError>
    ensures { IfOk result (λ octets. octets
        ≡ partial_octets partial (fields_of false names.now (listed_message row.now).text)) }
{
    let chosen = other_fields(alloc, row.shown_text(), names)?;
    Text::from_slice(alloc, partial_octets(&chosen, partial))
}

fn partial_octets(octets: &[u8], range: Option<Partial>) -> &[u8]
    ensures { result.now ≡ partial_octets range octets.now }
{
    match range {
        None => octets,
        Some(range) => partial(octets, range.start, range.count),
    }
}

fn origin_of(range: Option<Partial>) -> Option<u32>
    ensures { result ≡ origin_of range }
{
    match range {
        None => None,
        Some(range) => Some(range.start),
    }
}
