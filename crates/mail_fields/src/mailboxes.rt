//! Mailboxes: the addresses of a list (RFC 5322, section 3.4).

ghost use Rattle.std.specs.Prelude.{◌≡◌, IfOk, length};
ghost use Rattle.mail_fields.specs.Addresses.{after_route, angle_mailbox, has_octet, has_route};
ghost use Rattle.mail_fields.specs.Addresses.{mailbox_of, name_or, name_words, plain_mailbox};
ghost use Rattle.mail_fields.specs.Addresses.{route_of, words_mailbox};
ghost use Rattle.mail_fields.specs.AddressWords.{after, before};

use crate::address_words::{
    comment_of, count_before, domain_of, joined_text, phrase_of, run_start,
};
use crate::element_words::{is_octet_first, skip_blanks};
use crate::elements::Element;
use imap_types::Octets;
use std::alloc::{AllocError, Global};

/// A mailbox.
#[derive(Drop)]
pub struct Mailbox {
    /// Its name, as it is to be shown; empty if it has none.
    pub name: Octets,
    /// The route to it, which begins with `@`; empty if it has none (RFC 5322, section 4.4).
    pub route: Octets,
    /// What comes before the `@`, without quotes; empty if it is missing.
    pub local_part: Octets,
    /// What comes after the `@`, without blanks and comments; empty if it is missing.
    pub host: Octets,
}

/// The elements before the first of these octets.
fn before<'a>(sought: &[u8], elements: &'a [Element]) -> &'a [Element]
    ensures { result.now ≡ before sought.now elements.now }
{
    elements.split_at(count_before(sought, elements)).0
}

/// The elements after the first of these octets.
fn after<'a>(sought: &[u8], elements: &'a [Element]) -> &'a [Element]
    ensures { result.now ≡ after sought.now elements.now }
{
    let (_, rest) = elements.split_at(count_before(sought, elements));
    if rest.is_empty() {
        return rest;
    }
    rest.split_at(1).1
}

/// Whether one of these octets is among elements.
fn has_octet(sought: &[u8], elements: &[Element]) -> bool
    ensures { result ≡ has_octet sought.now elements.now }
{
    count_before(sought, elements) < elements.len()
}

/// The mailbox that a section of a list is. `Err` if memory runs out.
pub fn mailbox_of(alloc: Global, section: &[Element]) -> Result<Mailbox, AllocError>
    ensures { IfOk result (λ mailbox. mailbox ≡ mailbox_of section.now) }
{
    let comment = comment_of(section);
    if has_octet(b"<", section) {
        let phrase = phrase_of(alloc, name_words(section))?;
        let name = name_or(alloc, comment, phrase)?;
        return angle_mailbox(alloc, name, before(b">", after(b"<", section)));
    }
    if has_octet(b"@", section) {
        return plain_mailbox(alloc, comment, before(b"@", section), after(b"@", section));
    }
    words_mailbox(alloc, comment, section)
}

/// The phrase, or the comment if there is no phrase.
fn name_or(alloc: Global, comment: &[u8], phrase: Vec<u8>) -> Result<Octets, AllocError>
    ensures { IfOk result (λ name. name ≡ name_or comment.now phrase.items) }
{
    if phrase.is_empty() {
        return Octets::from_slice(alloc, comment);
    }
    Ok(Octets::new(phrase))
}

/// The words before an address in angle brackets that are its name.
fn name_words(section: &[Element]) -> &[Element]
    ensures { result.now ≡ name_words section.now }
{
    if has_octet(b"@", before(b"<", section)) {
        let words = before(b"@", section);
        return words.split_at(run_start(words)).0;
    }
    before(b"<", section)
}

/// A mailbox by what is in its angle brackets.
fn angle_mailbox(alloc: Global, name: Octets, inside: &[Element]) -> Result<Mailbox, AllocError>
    ensures { IfOk result (λ mailbox. mailbox ≡ angle_mailbox name inside.now) }
{
    let route = route_of(alloc, inside)?;
    let address = after_route(inside);
    let local_part = joined_text(alloc, before(b"@", address))?;
    let host = domain_of(alloc, after(b"@", address))?;
    Ok(Mailbox {
        name,
        route: Octets::new(route),
        local_part: Octets::new(local_part),
        host: Octets::new(host),
    })
}

/// Whether an address in angle brackets has a route.
fn has_route(inside: &[Element]) -> bool
    ensures { result ≡ has_route inside.now }
{
    is_octet_first(b'@', skip_blanks(inside)) && has_octet(b":", inside)
}

/// The route in angle brackets; empty if there is none.
fn route_of(alloc: Global, inside: &[Element]) -> Result<Vec<u8>, AllocError>
    ensures { IfOk result (λ route. route.items ≡ route_of inside.now) }
{
    if has_route(inside) {
        return joined_text(alloc, before(b":", inside));
    }
    Ok(Vec::new(alloc))
}

/// What is in angle brackets after the route.
fn after_route(inside: &[Element]) -> &[Element]
    ensures { result.now ≡ after_route inside.now }
{
    if has_route(inside) {
        return after(b":", inside);
    }
    inside
}

/// A mailbox by the words before its `@` and what follows it.
fn plain_mailbox(
    alloc: Global,
    comment: &[u8],
    words: &[Element],
    rest: &[Element],
) -> Result<Mailbox, AllocError>
    ensures { IfOk result (λ mailbox. mailbox
        ≡ plain_mailbox comment.now words.now rest.now) }
{
    let (front, run) = words.split_at(run_start(words));
    let phrase = phrase_of(alloc, front)?;
    let name = name_or(alloc, comment, phrase)?;
    let local_part = joined_text(alloc, run)?;
    let host = domain_of(alloc, rest)?;
    Ok(Mailbox {
        name,
        route: Octets::new(Vec::new(alloc)),
        local_part: Octets::new(local_part),
        host: Octets::new(host),
    })
}

/// A mailbox by words without an `@`.
fn words_mailbox(alloc: Global, comment: &[u8], words: &[Element]) -> Result<Mailbox, AllocError>
    ensures { IfOk result (λ mailbox. mailbox ≡ words_mailbox comment.now words.now) }
{
    if run_start(words) == 0 {
        let name = Octets::from_slice(alloc, comment)?;
        let local_part = joined_text(alloc, words)?;
        return Ok(Mailbox {
            name,
            route: Octets::new(Vec::new(alloc)),
            local_part: Octets::new(local_part),
            host: Octets::new(Vec::new(alloc)),
        });
    }
    let name = phrase_of(alloc, words)?;
    Ok(Mailbox {
        name: Octets::new(name),
        route: Octets::new(Vec::new(alloc)),
        local_part: Octets::new(Vec::new(alloc)),
        host: Octets::new(Vec::new(alloc)),
    })
}
