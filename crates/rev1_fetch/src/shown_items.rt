//! The answers to a FETCH with a plan.

ghost use Rattle.std.specs.Prelude.{◌≡◌, ◌-◌, ◌++◌, [], Some, codes, decimal, drop, length, map};
ghost use Rattle.std.specs.Prelude.{not, take, IfOk, OnErr, OnOk, List, ℕ, if◌then◌else◌};
ghost use Rattle.std.specs.List.{list_any};
ghost use Rattle.std.specs.Option.{option_map};
ghost use Rattle.imap_answers.specs.AnswerText.{fetch_texts, origin_text, section_text};
ghost use Rattle.imap_answers.specs.AnswerText.{text_of_answer};
ghost use Rattle.imap_answers.specs.Strings.{literal_text, separated_by};
ghost use Rattle.imap_answers.specs.declared.answer.Answer.TheVariants.{Fetch as FetchAnswer};
ghost use Rattle.imap_grammar.specs.Reading.{is_nil};
ghost use Rattle.imap_print.specs.Appending.{has_none};
ghost use Rattle.mail_parts.specs.declared.part.Part.{Part as PartOf};
ghost use Rattle.rev1_fetch.specs.ShownItems.{ArePartsFor, IsShownFetch, in_range, inner_region};
ghost use Rattle.rev1_fetch.specs.ShownItems.{item_text, items_text, joint, kind_region};
ghost use Rattle.rev1_fetch.specs.ShownItems.{message_region};
ghost use Rattle.rev1_fetch.specs.ShownItems.{needs_parts, octets_or_nil, origin_of, part_region};
ghost use Rattle.rev1_fetch.specs.ShownItems.{path_text, planned_line, section_in_part};
ghost use Rattle.rev1_fetch.specs.ShownItems.{section_name, section_region, selected, whole_octets};
ghost use Rattle.rev1_fetch.specs.ShownItems.{whole_text, without_sections, word_text};
ghost use Rattle.rev1_fetch.specs.declared.text_item.TextItem.TheVariants.{Word as WordItem};

use crate::part_places::{child_at, part_at, region_of};
use crate::plan::FetchPlan;
use crate::text_item::{PartSection, TextItem, TextWord};
use body_print::{push_body, push_envelope};
use imap_answers::{Answer, FetchItems, SectionData, Sections};
use imap_print::print;
use imap_syntax::Partial;
use imap_types::{Section, Text};
use itoa::Buffer;
use mail_parts::{Part, PartKind, cut};
use mail_text::{body, fields, header, other_fields, partial};
use std::alloc::{AllocError, Global};

/// Appends the answer for the message with this number. `Err` if memory runs out; the text is then
/// unchanged.
pub fn show_fetch(
    alloc: Global,
    plan: &FetchPlan,
    number: u32,
    items: &FetchItems,
    text: &mut Vec<u8>,
) -> Result<(), AllocError>
    ensures ok { OnOk result ((line : List ℕ) × IsShownFetch plan.now number items.now line
        × (text.new.items ≡ text.old.items ++ line)) }
    ensures err { OnErr result (text.new.items ≡ text.old.items) }
{
    let line = shown_line(alloc, plan.items(), number, items)?;
    text.extend_from_slice(&line)
}

/// The answer for the message with this number.
fn shown_line(
    alloc: Global,
    plan: &[TextItem],
    number: u32,
    items: &FetchItems,
) -> Result<Vec<u8>, AllocError>
    ensures { IfOk result (λ line. IsShownFetch plan.now number items.now line.items) }
{
    match whole_text(items.sections.parts()) {
        None => printed(alloc, number, items.copy(alloc)?),
        Some(message) => planned_line(alloc, plan, number, items, message),
    }
}

/// The answer of the profile.
fn printed(alloc: Global, number: u32, items: FetchItems) -> Result<Vec<u8>, AllocError>
    ensures { IfOk result (λ line. line.items ≡ text_of_answer (FetchAnswer number items)) }
{
    let mut line = Vec::new(alloc);
    print(&Answer::Fetch { number, items }, &mut line)?;
    Ok(line)
}

/// The answer for a message whose whole text is known.
fn planned_line(
    alloc: Global,
    plan: &[TextItem],
    number: u32,
    items: &FetchItems,
    message: &[u8],
) -> Result<Vec<u8>, AllocError>
    ensures { IfOk result (λ line. (parts : List PartOf) × ArePartsFor plan.now message.now parts
        × (line.items ≡ planned_line plan.now number items.now message.now parts)) }
{
    let parts = parts_for(alloc, plan, message)?;
    let mut line = line_front(alloc, number, items)?;
    push_items(alloc, plan, message, &parts, has_plain(items), &mut line)?;
    line.extend_from_slice(b")\r\n")?;
    Ok(line)
}

/// The whole text, if the answer has it and no other section.
fn whole_text(parts: &[SectionData]) -> Option<&[u8]>
    ensures { option_map (λ text. text.now) result ≡ whole_text parts.now }
{
    match parts {
        [part] => whole_octets(&part.section, part.origin, part.octets.as_bytes()),
        _ => None,
    }
}

/// The octets of a section, if it is the whole text.
fn whole_octets<'a>(section: &Section, origin: Option<u32>, octets: &'a [u8]) -> Option<&'a [u8]>
    ensures { option_map (λ text. text.now) result ≡ whole_octets section.now origin octets.now }
{
    match section {
        Section::Whole => match origin {
            None => Some(octets),
            Some(_) => None,
        },
        _ => None,
    }
}

/// Whether an answer has items beside sections.
fn has_plain(items: &FetchItems) -> bool
    ensures { result ≡ not (has_none (fetch_texts (without_sections items.now))) }
{
    items.uid.is_some()
        || items.flags.is_some()
        || items.date.is_some()
        || items.size.is_some()
        || items.modseq.is_some()
}

/// The items without sections.
fn without_sections(alloc: Global, items: &FetchItems) -> Result<FetchItems, AllocError>
    ensures { IfOk result (λ plain. plain ≡ without_sections items.now) }
{
    let mut plain = items.copy(alloc)?;
    plain.sections = Sections::new(Vec::new(alloc));
    Ok(plain)
}

/// The answer of the profile without sections, up to its closing parenthesis.
#[tactic(auto, unfolding(imap_answers::specs::AnswerText::line_of_answer))]
fn line_front(alloc: Global, number: u32, items: &FetchItems) -> Result<Vec<u8>, AllocError>
    ensures { IfOk result (λ line. line.items ≡ codes "* " ++ decimal number ++ codes " FETCH ("
        ++ separated_by 32 (fetch_texts (without_sections items.now))) }
{
    let mut line = printed(alloc, number, without_sections(alloc, items)?)?;
    line.truncate(line.len().saturating_sub(3));
    Ok(line)
}

/// The parts of a message, if an item asks for one.
fn parts_for(alloc: Global, plan: &[TextItem], message: &[u8]) -> Result<Vec<Part>, AllocError>
    ensures { IfOk result (λ parts. ArePartsFor plan.now message.now parts.items) }
{
    if any_needs_parts(plan) {
        cut(alloc, message)
    } else {
        Ok(Vec::new(alloc))
    }
}

/// Whether an item asks for parts of the message.
fn any_needs_parts(items: &[TextItem]) -> bool
    ensures { result ≡ list_any needs_parts items.now }
{
    for item in items {
        if needs_parts(item) {
            return true;
        }
    }
    false
}

fn needs_parts(item: &TextItem) -> bool
    ensures { result ≡ needs_parts item.now }
{
    match item {
        TextItem::Word(word) => describes_parts(*word),
        TextItem::Section(asked) => !asked.path.numbers().is_empty(),
    }
}

fn describes_parts(word: TextWord) -> bool
    ensures { result ≡ needs_parts (WordItem word) }
{
    match word {
        TextWord::Body | TextWord::BodyStructure => true,
        _ => false,
    }
}

/// Appends the items of a plan, with a space before each but the first of the answer.
fn push_items(
    alloc: Global,
    plan: &[TextItem],
    message: &[u8],
    parts: &[Part],
    has_before: bool,
    line: &mut Vec<u8>,
) -> Result<(), AllocError>
    ensures { OnOk result (line.new.items ≡ line.old.items
        ++ items_text has_before (map (item_text message.now parts.now) plan.now)) }
{
    let mut is_later = has_before;
    for item in plan {
        push_separator(is_later, line)?;
        push_item(alloc, item, message, parts, line)?;
        is_later = true;
    }
    Ok(())
}

/// Appends a space, if an item is before it.
fn push_separator(is_later: bool, line: &mut Vec<u8>) -> Result<(), AllocError>
    ensures { OnOk result
        (line.new.items ≡ line.old.items ++ (if is_later then codes " " else [])) }
{
    if is_later {
        line.extend_from_slice(b" ")
    } else {
        Ok(())
    }
}

/// Appends an item, made of a message with these parts.
fn push_item(
    alloc: Global,
    item: &TextItem,
    message: &[u8],
    parts: &[Part],
    line: &mut Vec<u8>,
) -> Result<(), AllocError>
    ensures { OnOk result
        (line.new.items ≡ line.old.items ++ item_text message.now parts.now item.now) }
{
    match item {
        TextItem::Word(word) => push_word(alloc, *word, message, parts, line),
        TextItem::Section(asked) => push_section(alloc, asked, message, parts, line),
    }
}

/// Appends an item without brackets.
fn push_word(
    alloc: Global,
    word: TextWord,
    message: &[u8],
    parts: &[Part],
    line: &mut Vec<u8>,
) -> Result<(), AllocError>
    ensures { OnOk result
        (line.new.items ≡ line.old.items ++ word_text word message.now parts.now) }
{
    match word {
        TextWord::Envelope => {
            line.extend_from_slice(b"ENVELOPE ")?;
            push_envelope(alloc, header(message), line)
        }
        TextWord::Body => {
            line.extend_from_slice(b"BODY ")?;
            push_body(alloc, false, message, parts, line)
        }
        TextWord::BodyStructure => {
            line.extend_from_slice(b"BODYSTRUCTURE ")?;
            push_body(alloc, true, message, parts, line)
        }
        TextWord::Rfc822 => push_labelled(b"RFC822 ", message, line),
        TextWord::Rfc822Header => push_labelled(b"RFC822.HEADER ", header(message), line),
        TextWord::Rfc822Text => push_labelled(b"RFC822.TEXT ", body(message), line),
    }
}

/// Appends a label and a literal (RFC 3501, section 4.3).
fn push_labelled(label: &[u8], octets: &[u8], line: &mut Vec<u8>) -> Result<(), AllocError>
    ensures { OnOk result
        (line.new.items ≡ line.old.items ++ (label.now ++ literal_text octets.now)) }
{
    line.extend_from_slice(label)?;
    line.extend_from_slice(b"{")?;
    push_number(octets.len() as u64, line)?;
    line.extend_from_slice(b"}\r\n")?;
    line.extend_from_slice(octets)
}

/// Appends a number.
fn push_number(number: u64, line: &mut Vec<u8>) -> Result<(), AllocError>
    ensures { OnOk result (line.new.items ≡ line.old.items ++ decimal number) }
{
    let mut buffer = Buffer::new();
    line.extend_from_slice(buffer.format(number).as_bytes())
}

/// Appends a section: its name, a space and its octets, or NIL if there is no such part.
fn push_section(
    alloc: Global,
    asked: &PartSection,
    message: &[u8],
    parts: &[Part],
    line: &mut Vec<u8>,
) -> Result<(), AllocError>
    ensures { OnOk result (line.new.items ≡ line.old.items
        ++ (section_name asked.now
        ++ octets_or_nil asked.now (section_region asked.now message.now parts.now))) }
{
    push_name(alloc, asked, line)?;
    match section_region(asked, message, parts) {
        None => line.extend_from_slice(b" NIL"),
        Some(region) => push_region(alloc, asked, region, line),
    }
}

/// Appends a space and what a section and a range select of these octets.
fn push_region(
    alloc: Global,
    asked: &PartSection,
    region: &[u8],
    line: &mut Vec<u8>,
) -> Result<(), AllocError>
    ensures { OnOk result
        (line.new.items ≡ line.old.items ++ octets_or_nil asked.now (Some region.now)) }
{
    match &asked.section {
        Section::Fields { names } => {
            let selection = fields(alloc, region, names.names())?;
            push_labelled(b" ", in_range(asked.partial, &selection), line)
        }
        Section::FieldsNot { names } => {
            let selection = other_fields(alloc, region, names.names())?;
            push_labelled(b" ", in_range(asked.partial, &selection), line)
        }
        _ => push_labelled(b" ", in_range(asked.partial, region), line),
    }
}

/// The octets of a range, or all.
fn in_range(range: Option<Partial>, octets: &[u8]) -> &[u8]
    ensures { result.now ≡ in_range range octets.now }
{
    match range {
        None => octets,
        Some(range) => partial(octets, range.start, range.count),
    }
}

/// Appends the name of a section: `BODY[`, the part's number, the section, `]`, the first octet of
/// a range.
fn push_name(alloc: Global, asked: &PartSection, line: &mut Vec<u8>) -> Result<(), AllocError>
    ensures { OnOk result (line.new.items ≡ line.old.items ++ section_name asked.now) }
{
    let name = profile_name(alloc, asked)?;
    line.extend_from_slice(b"BODY[")?;
    push_path(asked.path.numbers(), line)?;
    line.extend_from_slice(joint(asked.is_mime, asked.path.numbers(), &asked.section))?;
    line.extend_from_slice(&name)
}

/// What joins the number of a part and a section.
fn joint(is_mime: bool, path: &[u32], section: &Section) -> &'static [u8]
    ensures { result.now ≡ joint is_mime (is_nil path.now) (section_text section.now) }
{
    if is_mime {
        return b".MIME";
    }
    if path.is_empty() || is_whole(section) {
        b""
    } else {
        b"."
    }
}

/// Whether a section is the whole text.
fn is_whole(section: &Section) -> bool
    ensures { result ≡ is_nil (section_text section.now) }
{
    match section {
        Section::Whole => true,
        _ => false,
    }
}

/// Appends the number of a part.
fn push_path(path: &[u32], line: &mut Vec<u8>) -> Result<(), AllocError>
    ensures { OnOk result (line.new.items ≡ line.old.items ++ path_text path.now) }
{
    let mut is_later = false;
    for number in path {
        push_point(is_later, line)?;
        push_number(u64::from(*number), line)?;
        is_later = true;
    }
    Ok(())
}

/// Appends a point, if a number is before it.
fn push_point(is_later: bool, line: &mut Vec<u8>) -> Result<(), AllocError>
    ensures { OnOk result
        (line.new.items ≡ line.old.items ++ (if is_later then codes "." else [])) }
{
    if is_later {
        line.extend_from_slice(b".")
    } else {
        Ok(())
    }
}

/// What the profile prints of a section after `BODY[`, up to the space before its octets.
fn profile_name(alloc: Global, asked: &PartSection) -> Result<Vec<u8>, AllocError>
    ensures { IfOk result (λ name. name.items ≡ section_text asked.now.section
        ++ (codes "]" ++ origin_text (origin_of asked.now.partial))) }
{
    let mut sections = Vec::new(alloc);
    sections.push(SectionData {
        section: asked.section.copy(alloc)?,
        origin: origin_of(asked.partial),
        octets: Text::new(Vec::new(alloc))?,
    })?;
    let items = FetchItems {
        uid: None,
        flags: None,
        date: None,
        size: None,
        modseq: None,
        sections: Sections::new(sections),
    };
    name_in(alloc, &printed(alloc, 1, items)?)
}

/// The octets between `* 1 FETCH (BODY[` and ` {0}`, CRLF, `)`, CRLF.
fn name_in(alloc: Global, line: &[u8]) -> Result<Vec<u8>, AllocError>
    ensures { IfOk result (λ name. name.items
        ≡ take (length line.now - 9 - 16) (drop 16 line.now)) }
{
    let end = line.len().saturating_sub(9);
    if end < 16 {
        return Ok(Vec::new(alloc));
    }
    line[16..end].to_vec(alloc)
}

/// The first octet of a range.
fn origin_of(range: Option<Partial>) -> Option<u32>
    ensures { result ≡ origin_of range }
{
    match range {
        None => None,
        Some(range) => Some(range.start),
    }
}

/// The octets of a section, or the header whose fields it selects; `None` if there are none.
fn section_region<'a>(asked: &PartSection, message: &'a [u8], parts: &[Part]) -> Option<&'a [u8]>
    ensures { option_map (λ region. region.now) result
        ≡ section_region asked.now message.now parts.now }
{
    if asked.path.numbers().is_empty() {
        return Some(message_region(&asked.section, message));
    }
    match part_at(parts, asked.path.numbers()) {
        None => None,
        Some(found) => part_region(asked.is_mime, &asked.section, message, found),
    }
}

/// The octets of a section of the whole message.
fn message_region<'a>(section: &Section, message: &'a [u8]) -> &'a [u8]
    ensures { result.now ≡ message_region section.now message.now }
{
    match section {
        Section::Whole => message,
        Section::Text => body(message),
        _ => header(message),
    }
}

/// The octets of a section of the first of these parts, or of its own header.
fn part_region<'a>(
    is_mime: bool,
    section: &Section,
    message: &'a [u8],
    parts: &[Part],
) -> Option<&'a [u8]>
    ensures { option_map (λ region. region.now) result
        ≡ part_region is_mime section.now message.now (Some parts.now) }
{
    match parts {
        [] => None,
        [part, inner @ ..] => {
            if is_mime {
                region_of(message, part.start, part.body)
            } else {
                section_in_part(section, message, part, inner)
            }
        }
    }
}

/// The octets of a section of a part: its body, or a section of the message that it contains.
fn section_in_part<'a>(
    section: &Section,
    message: &'a [u8],
    part: &Part,
    inner: &[Part],
) -> Option<&'a [u8]>
    ensures { option_map (λ region. region.now) result
        ≡ section_in_part section.now message.now part.now inner.now }
{
    match section {
        Section::Whole => region_of(message, part.body, part.end),
        _ => kind_region(section, part.kind, part.depth, message, inner),
    }
}

/// The octets of a section of the message that a part of this kind and level contains.
fn kind_region<'a>(
    section: &Section,
    kind: PartKind,
    depth: u32,
    message: &'a [u8],
    inner: &[Part],
) -> Option<&'a [u8]>
    ensures { option_map (λ region. region.now) result
        ≡ kind_region section.now kind depth message.now inner.now }
{
    match kind {
        PartKind::Message => match child_at(depth, 1, inner) {
            None => None,
            Some(found) => inner_region(section, message, found),
        },
        _ => None,
    }
}

/// The octets of a section of the message that is the first of these parts.
fn inner_region<'a>(section: &Section, message: &'a [u8], parts: &[Part]) -> Option<&'a [u8]>
    ensures { option_map (λ region. region.now) result
        ≡ inner_region section.now message.now (Some parts.now) }
{
    match parts {
        [] => None,
        [part, ..] => match section {
            Section::Text => region_of(message, part.body, part.end),
            _ => region_of(message, part.start, part.body),
        },
    }
}
