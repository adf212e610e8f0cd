//! Reading of items.

ghost use Rattle.std.specs.Prelude.{◌≡◌, ◌++◌, ◌∷◌, [], Ok, IfErr, IfOk, OnOk, Bool, not, ◌==◌};
ghost use Rattle.imap_grammar.specs.Reading.{span};
ghost use Rattle.rev1_fetch.specs.PartNumbers.{number_parts};
ghost use Rattle.rev1_fetch.specs.ReadItems.{Asked, IsAsked, IsOfNumber, IsSectionItem, IsUnread};
ghost use Rattle.rev1_fetch.specs.ReadItems.{asked_both, asked_plain, asked_text};
ghost use Rattle.rev1_fetch.specs.ReadSteps.{IsReadSection, IsSectionOfCommand, IsSectionOfItem};
ghost use Rattle.rev1_fetch.specs.ReadSteps.{IsSectionOfItems, IsUnreadSection, item_fault};
ghost use Rattle.rev1_fetch.specs.ReadSteps.{items_in};
ghost use Rattle.rev1_fetch.specs.declared.item_fault.ItemFault.TheVariants.{NoMemory};
ghost use Rattle.rev1_fetch.specs.declared.text_item.PartSection.{PartSection as SectionOfPart};
ghost use Rattle.rev1_fetch.specs.declared.text_item.TextItem.TheVariants.{Section as SectionItem};

use crate::item_fault::ItemFault;
use crate::item_words::{is_plain, word_item};
use crate::part_numbers::{PartNumber, part_number};
use crate::plan::ReadItems;
use crate::text_item::{PartPath, PartSection, TextItem};
use imap_grammar::{ParseFault, parse};
use imap_syntax::{Command, FetchItem, Partial};
use imap_types::Section;
use std::alloc::{AllocError, Global};

/// Reads an item. A fault may leave part of it.
pub fn push_item(alloc: Global, item: &[u8], read: &mut ReadItems) -> Result<(), ItemFault>
    ensures ok { OnOk result ((asked : Asked) × IsAsked item.now asked
        × (items_in read.new ≡ asked_both (items_in read.old) asked)) }
    ensures err { IfErr result (λ fault. IsUnread item.now fault) }
{
    if is_plain(item) {
        return push_plain(item, read);
    }
    match word_item(item) {
        Some(found) => push_text(TextItem::Word(found.word), found.sets_seen, read),
        None => push_section(alloc, item, read),
    }
}

/// Adds an item of the profile.
fn push_plain(item: &[u8], read: &mut ReadItems) -> Result<(), ItemFault>
    ensures ok { OnOk result
        (items_in read.new ≡ asked_both (items_in read.old) (asked_plain item.now)) }
    ensures err { IfErr result (λ fault. fault ≡ NoMemory) }
{
    read.plain.extend_from_slice(item)?;
    read.plain.extend_from_slice(b" ")?;
    Ok(())
}

/// Adds an item that is made of the whole text.
fn push_text(item: TextItem, sets_seen: bool, read: &mut ReadItems) -> Result<(), ItemFault>
    ensures ok { OnOk result
        (items_in read.new ≡ asked_both (items_in read.old) (asked_text item sets_seen)) }
    ensures err { IfErr result (λ fault. fault ≡ NoMemory) }
{
    read.items.push(item)?;
    read.sets_seen = read.sets_seen || sets_seen;
    Ok(())
}

/// Adds a section.
fn push_section(alloc: Global, item: &[u8], read: &mut ReadItems) -> Result<(), ItemFault>
    ensures ok { OnOk result ((section : SectionOfPart) × (peek : Bool)
        × IsSectionItem item.now (Ok (section, peek))
        × (items_in read.new
        ≡ asked_both (items_in read.old) (asked_text (SectionItem section) (not peek)))) }
    ensures err { IfErr result (λ fault. IsUnreadSection item.now fault) }
{
    let (section, peek) = part_section(alloc, item)?;
    push_text(TextItem::Section(section), !peek, read)
}

/// The section that an item names, and whether it leaves `\Seen`.
fn part_section(alloc: Global, item: &[u8]) -> Result<(PartSection, bool), ItemFault>
    ensures { IsSectionItem item.now result }
{
    let (front, rest) = cut_at_bracket(item);
    match rest {
        [] => Err(ItemFault::Unknown),
        [_, section @ ..] => {
            let PartNumber {
                path,
                is_mime,
                rest,
            } = part_number(alloc, section)?;
            numbered_section(alloc, front, path, is_mime, rest)
        }
    }
}

/// Splits an item before its first `[`.
fn cut_at_bracket(item: &[u8]) -> (&[u8], &[u8])
    ensures { (result.0.now, result.1.now) ≡ span (λ octet. not (octet == 91)) item.now }
{
    let mut len = 0;
    for octet in item {
        if *octet == b'[' {
            break;
        }
        len += 1;
    }
    item.split_at(len)
}

/// The section of the part with a number, by the octets before `[` and those after the number.
fn numbered_section(
    alloc: Global,
    front: &[u8],
    path: PartPath,
    is_mime: bool,
    rest: &[u8],
) -> Result<(PartSection, bool), ItemFault>
    ensures { IsOfNumber (front.now ++ 91 ∷ []) (number_parts path is_mime rest.now) result }
{
    let item = without_number(alloc, front, rest)?;
    let (section, partial, peek) = profile_section(alloc, &item)?;
    Ok((
        PartSection {
            path,
            is_mime,
            section,
            partial,
        },
        peek,
    ))
}

/// An item without the number of its part.
fn without_number(alloc: Global, front: &[u8], rest: &[u8]) -> Result<Vec<u8>, AllocError>
    ensures { IfOk result (λ item. item.items ≡ (front.now ++ 91 ∷ []) ++ rest.now) }
{
    let mut item = front.to_vec(alloc)?;
    item.extend_from_slice(b"[")?;
    item.extend_from_slice(rest)?;
    Ok(item)
}

/// The section of an item of the profile, its partial range, and whether it leaves `\Seen`.
fn profile_section(
    alloc: Global,
    item: &[u8],
) -> Result<(Section, Option<Partial>, bool), ItemFault>
    ensures { IsReadSection item.now result }
{
    let mut frame = b"a FETCH 1 ".to_vec(alloc)?;
    frame.extend_from_slice(item)?;
    frame.extend_from_slice(b"\r\n")?;
    match parse(alloc, &frame) {
        Ok(tagged) => command_section(alloc, &tagged.command),
        Err(why) => Err(item_fault(why)),
    }
}

/// What a fault of the profile's grammar says of an item.
fn item_fault(why: ParseFault) -> ItemFault
    ensures { result ≡ item_fault why }
{
    match why {
        ParseFault::NoMemory => ItemFault::NoMemory,
        _ => ItemFault::Unknown,
    }
}

/// The section that a FETCH of one item asks for.
fn command_section(
    alloc: Global,
    command: &Command,
) -> Result<(Section, Option<Partial>, bool), ItemFault>
    ensures { IsSectionOfCommand command.now result }
{
    let Command::Fetch(asked) = command else {
        return Err(ItemFault::Unknown);
    };
    items_section(alloc, asked.items.as_slice())
}

/// The section that these items are, if it is one.
fn items_section(
    alloc: Global,
    items: &[FetchItem],
) -> Result<(Section, Option<Partial>, bool), ItemFault>
    ensures { IsSectionOfItems items.now result }
{
    match items {
        [item] => item_section(alloc, item),
        _ => Err(ItemFault::Unknown),
    }
}

/// The section that an item is, if it is one.
fn item_section(
    alloc: Global,
    item: &FetchItem,
) -> Result<(Section, Option<Partial>, bool), ItemFault>
    ensures { IsSectionOfItem item.now result }
{
    match item {
        FetchItem::Body {
            peek,
            section,
            partial,
        } => Ok((section.copy(alloc)?, *partial, *peek)),
        _ => Err(ItemFault::Unknown),
    }
}
