//! Lists of addresses (RFC 5322, section 3.4).

ghost use Rattle.std.specs.Prelude.{◌≡◌, ◌+◌, ◌-◌, ◌<◌, ◌≤◌, ◌&&◌, ◌++◌, not, length, take};
ghost use Rattle.std.specs.Prelude.{drop, IfOk, OnOk};
ghost use Rattle.mail_fields.specs.Addresses.{addresses_of, after_octet_at, begins_group};
ghost use Rattle.mail_fields.specs.Addresses.{ends_mailbox, group_end, is_open, is_words};
ghost use Rattle.mail_fields.specs.Addresses.{place_after, section_addresses};
ghost use Rattle.mail_fields.specs.AddressReading.{addresses_at};
ghost use Rattle.mail_fields.specs.HeaderValues.{is_semicolon};
ghost use Rattle.mail_fields.specs.declared.address_list.Place.TheVariants.{Words};

use crate::address_words::{is_among, phrase_of};
use crate::element_words::skip_blanks;
use crate::elements::{Element, elements_of};
use crate::mailboxes::{Mailbox, mailbox_of};
use crate::sections::is_semicolon;
use imap_types::Octets;
use std::alloc::{AllocError, Global};

/// An entry of a list of addresses.
#[derive(Drop)]
pub enum Address {
    /// A mailbox.
    Mailbox(Mailbox),
    /// The beginning of a group with this name.
    GroupStart(Octets),
    /// The end of a group.
    GroupEnd,
}

/// Where a place of an address is.
#[derive(Clone, Copy)]
pub enum Place {
    /// Among the words at its beginning.
    Words,
    /// After an `@`, or after angle brackets.
    Domain,
    /// At the beginning of angle brackets.
    AngleStart,
    /// After an `@` at the beginning of angle brackets.
    AngleRoute,
    /// In the local part in angle brackets.
    AngleLocal,
    /// After the `@` in angle brackets.
    AngleDomain,
}

/// How far a list was read.
#[derive(Clone, Copy)]
pub struct ListPosition {
    /// Whether a group began that didn't end.
    in_group: bool,
    /// Where the next element is.
    place: Place,
    /// The number of elements before the present section.
    start: usize,
}

/// Appends the addresses of a field's value, in their order (RFC 5322, section 3.4). Time is linear
/// in the value's length. `Err` if memory runs out.
pub fn push_addresses(
    alloc: Global,
    value: &[u8],
    addresses: &mut Vec<Address>,
) -> Result<(), AllocError>
    ensures { OnOk result
        (addresses.new.items ≡ addresses.old.items ++ addresses_of value.now) }
{
    let elements = elements_of(alloc, value)?;
    let mut position = section_start(false, 0);
    for index in 0..elements.len() {
        position = read_element(alloc, &elements, index, position, addresses)?;
    }
    end_list(alloc, &elements, position, addresses)
}

/// Reads the end of a list.
fn end_list(
    alloc: Global,
    elements: &[Element],
    position: ListPosition,
    addresses: &mut Vec<Address>,
) -> Result<(), AllocError>
    requires { position.start ≤ length elements.now }
    ensures { OnOk result (addresses.new.items
        ≡ addresses.old.items ++ addresses_at position (length elements.now) elements.now) }
{
    let (_, section) = elements.split_at(position.start);
    push_section(alloc, section, addresses)?;
    push_group_end(position.in_group, addresses)
}

/// Reads the element with this index.
fn read_element(
    alloc: Global,
    elements: &[Element],
    index: usize,
    position: ListPosition,
    addresses: &mut Vec<Address>,
) -> Result<ListPosition, AllocError>
    requires index { index < length elements.now }
    requires start { position.start ≤ index }
    ensures addresses { IfOk result (λ next.
        addresses.new.items ++ addresses_at next (index + 1) elements.now
        ≡ addresses.old.items ++ addresses_at position index elements.now) }
    ensures start { IfOk result (λ next. next.start ≤ index + 1) }
{
    let element = &elements[index];
    let section = elements_between(elements, position.start, index);
    if begins_group(position.in_group, position.place, element) {
        let name = phrase_of(alloc, section)?;
        addresses.push(Address::GroupStart(Octets::new(name)))?;
        return Ok(section_start(true, index + 1));
    }
    if ends_mailbox(position.place, element) {
        push_section(alloc, section, addresses)?;
        push_group_end(ends_group(position.in_group, element), addresses)?;
        return Ok(section_start(remains_group(position.in_group, element), index + 1));
    }
    Ok(ListPosition {
        place: place_after(position.place, element),
        ..position
    })
}

/// The elements between two places.
fn elements_between(elements: &[Element], start: usize, end: usize) -> &[Element]
    requires ascending { start ≤ end }
    requires within { end ≤ length elements.now }
    ensures { result.now ≡ take (end - start) (drop start elements.now) }
{
    let (_, rest) = elements.split_at(start);
    rest.split_at(end - start).0
}

/// Whether a group ends with an element that ends a mailbox.
fn ends_group(in_group: bool, element: &Element) -> bool
    ensures { result ≡ (in_group && is_semicolon element.now) }
{
    in_group && is_semicolon(element)
}

/// Whether a group goes on after an element that ends a mailbox.
fn remains_group(in_group: bool, element: &Element) -> bool
    ensures { result ≡ (in_group && not (is_semicolon element.now)) }
{
    in_group && !is_semicolon(element)
}

/// The beginning of a section.
fn section_start(in_group: bool, start: usize) -> ListPosition
    ensures in_group { result.in_group ≡ in_group }
    ensures start { result.start ≡ start }
    ensures place { result.place ≡ Words }
{
    ListPosition {
        in_group,
        place: Place::Words,
        start,
    }
}

/// Appends the mailbox that a section is, if it has more than blanks and comments.
fn push_section(
    alloc: Global,
    section: &[Element],
    addresses: &mut Vec<Address>,
) -> Result<(), AllocError>
    ensures { OnOk result
        (addresses.new.items ≡ addresses.old.items ++ section_addresses section.now) }
{
    if skip_blanks(section).is_empty() {
        return Ok(());
    }
    Ok(addresses.push(Address::Mailbox(mailbox_of(alloc, section)?))?)
}

/// Appends the end of a group, if one ends.
fn push_group_end(in_group: bool, addresses: &mut Vec<Address>) -> Result<(), AllocError>
    ensures { OnOk result (addresses.new.items ≡ addresses.old.items ++ group_end in_group) }
{
    if in_group {
        addresses.push(Address::GroupEnd)?;
    }
    Ok(())
}

/// Whether a group begins with an element.
fn begins_group(in_group: bool, place: Place, element: &Element) -> bool
    ensures { result ≡ begins_group in_group place element.now }
{
    !in_group && is_words(place) && is_among(b":", element)
}

/// Whether a mailbox ends before an element.
fn ends_mailbox(place: Place, element: &Element) -> bool
    ensures { result ≡ ends_mailbox place element.now }
{
    is_open(place) && is_among(b",;", element)
}

/// Whether commas and semicolons end a mailbox at a place.
fn is_open(place: Place) -> bool
    ensures { result ≡ is_open place }
{
    match place {
        Place::Words => true,
        Place::Domain => true,
        Place::AngleStart => false,
        Place::AngleRoute => false,
        Place::AngleLocal => false,
        Place::AngleDomain => true,
    }
}

/// Whether a colon begins a group at a place.
fn is_words(place: Place) -> bool
    ensures { result ≡ is_words place }
{
    match place {
        Place::Words => true,
        Place::Domain => false,
        Place::AngleStart => false,
        Place::AngleRoute => false,
        Place::AngleLocal => false,
        Place::AngleDomain => false,
    }
}

/// The place after an element.
fn place_after(place: Place, element: &Element) -> Place
    ensures { result ≡ place_after place element.now }
{
    match element {
        Element::Blank => place,
        Element::Comment(_) => place,
        Element::Octet(octet) => after_octet_at(place, *octet),
        Element::Quoted(_) => after_octet_at(place, b'"'),
    }
}

/// The place after an octet.
fn after_octet_at(place: Place, octet: u8) -> Place
    ensures { result ≡ after_octet_at place octet }
{
    match place {
        Place::Words => match octet {
            b'<' => Place::AngleStart,
            b'@' => Place::Domain,
            _ => Place::Words,
        },
        Place::Domain => match octet {
            b'<' => Place::AngleStart,
            _ => Place::Domain,
        },
        Place::AngleStart => match octet {
            b'>' => Place::Domain,
            b'@' => Place::AngleRoute,
            _ => Place::AngleLocal,
        },
        Place::AngleRoute => match octet {
            b'>' => Place::Domain,
            b':' => Place::AngleLocal,
            _ => Place::AngleRoute,
        },
        Place::AngleLocal => match octet {
            b'>' => Place::Domain,
            b'@' => Place::AngleDomain,
            _ => Place::AngleLocal,
        },
        Place::AngleDomain => match octet {
            b'>' => Place::Domain,
            _ => Place::AngleDomain,
        },
    }
}
