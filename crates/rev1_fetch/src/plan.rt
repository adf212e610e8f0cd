//! What a FETCH of IMAP4rev1 asks the profile for, and what is made of the answers.

ghost use Rattle.std.specs.Prelude.{◌≡◌, ◌==◌, ◌&&◌, codes, if◌then◌else◌, IfErr, IfOk};
ghost use Rattle.rev1_fetch.specs.FetchPlans.{IsRequest, IsRequestOf, IsRequestRead, meant_items};
ghost use Rattle.rev1_fetch.specs.FetchPlans.{planned_text};
ghost use Rattle.rev1_fetch.specs.ItemPlaces.{is_outside, items_of};
ghost use Rattle.rev1_fetch.specs.ReadItems.{AreAsked, AreUnread};
ghost use Rattle.rev1_fetch.specs.ReadSteps.{items_in};

use crate::fetch_items::push_item;
use crate::item_fault::ItemFault;
use crate::item_places::{Place, is_outside, place_after};
use crate::item_words::{is_macro, macro_items};
use crate::items_text::{ItemList, item_list};
use crate::text_item::TextItem;
use std::alloc::{AllocError, Global};
use std::marker::Model;

/// What a FETCH asks for beside the profile, in the client's order. Contracts see it as a list.
#[derive(Drop)]
pub struct FetchPlan {
    items: Vec<TextItem>,
}

impl Model for FetchPlan {
    ghost use Rattle.std.specs.Prelude.{List};
    ghost use Rattle.rev1_fetch.specs.declared.text_item.TextItem.{TextItem};

    ghost Value = { List TextItem };

    ghost view = { λ p. p.items.items };
}

impl FetchPlan {
    /// The plan of these items, in the vector's memory.
    pub fn new(items: Vec<TextItem>) -> FetchPlan
        ensures { result ≡ items.items }
    {
        FetchPlan { items }
    }

    /// The items.
    pub fn items(&self) -> &[TextItem]
        ensures { result.now ≡ self.now }
    {
        &self.items
    }
}

/// A FETCH with items that the profile hasn't.
#[derive(Drop)]
pub enum FetchRequest {
    /// The profile is asked for these arguments, after the word of the command.
    Planned { rest: Vec<u8>, plan: FetchPlan },
    /// A part has the number 0.
    PartZero,
}

/// What is read of the items so far.
#[derive(Drop)]
pub struct ReadItems {
    /// Items of the profile, each with a space after it.
    pub plain: Vec<u8>,
    pub items: Vec<TextItem>,
    /// Whether an item sets `\Seen`.
    pub sets_seen: bool,
}

/// The plan of a FETCH with these arguments, after its word: a space, the messages, a space, items,
/// maybe a modifier, CRLF. `None` if they aren't such, or if no item needs the whole text. `Err` if
/// memory runs out.
pub fn plan_fetch(alloc: Global, rest: &[u8]) -> Result<Option<FetchRequest>, AllocError>
    ensures { IfOk result (λ request. IsRequest rest.now request) }
{
    match item_list(rest) {
        None => Ok(None),
        Some(list) => plan_items(alloc, list.front, list.items, list.is_single, list.back),
    }
}

/// The plan of a FETCH of items, without parentheses or with them, between these octets.
fn plan_items(
    alloc: Global,
    front: &[u8],
    items: &[u8],
    is_single: bool,
    back: &[u8],
) -> Result<Option<FetchRequest>, AllocError>
    ensures { IfOk result (λ request. IsRequestOf (record {
      front = front.now;
      items = items.now;
      is_single = is_single;
      back = back.now;
    }) request) }
{
    match read_items(alloc, meant_items(is_single, items)) {
        Ok(read) => planned(alloc, front, read, back),
        Err(ItemFault::NoMemory) => Err(AllocError),
        Err(ItemFault::PartZero) => Ok(Some(FetchRequest::PartZero)),
        Err(ItemFault::Unknown) => Ok(None),
    }
}

/// The items that are meant: those of a macro, or themselves.
fn meant_items(is_single: bool, items: &[u8]) -> &[u8]
    ensures { result.now ≡ meant_items is_single items.now }
{
    if is_single && is_macro(items) {
        macro_items(items)
    } else {
        items
    }
}

/// The request of the items that were read, between these octets; `None` if none of them needs the
/// whole text.
fn planned(
    alloc: Global,
    front: &[u8],
    read: ReadItems,
    back: &[u8],
) -> Result<Option<FetchRequest>, AllocError>
    ensures { IfOk result (λ request. IsRequestRead front.now back.now (items_in read) request) }
{
    if read.items.is_empty() {
        return Ok(None);
    }
    let ReadItems {
        plain,
        items,
        sets_seen,
    } = read;
    let rest = planned_text(alloc, front, &plain, sets_seen, back)?;
    Ok(Some(FetchRequest::Planned {
        rest,
        plan: FetchPlan::new(items),
    }))
}

/// The arguments of the profile: the messages, the client's other items, the whole text, and what
/// follows the items.
fn planned_text(
    alloc: Global,
    front: &[u8],
    plain: &[u8],
    sets_seen: bool,
    back: &[u8],
) -> Result<Vec<u8>, AllocError>
    ensures { IfOk result (λ rest. rest.items
        ≡ planned_text front.now plain.now sets_seen back.now) }
{
    let mut rest = front.to_vec(alloc)?;
    rest.extend_from_slice(b"(")?;
    rest.extend_from_slice(plain)?;
    rest.extend_from_slice(whole_item(sets_seen))?;
    rest.extend_from_slice(b")")?;
    rest.extend_from_slice(back)?;
    Ok(rest)
}

/// The item that asks for the whole text, and sets `\Seen` or not.
fn whole_item(sets_seen: bool) -> &'static [u8]
    ensures { result.now ≡ (if sets_seen then codes "BODY[]" else codes "BODY.PEEK[]") }
{
    if sets_seen { b"BODY[]" } else { b"BODY.PEEK[]" }
}

/// Reads items with a space between them.
fn read_items(alloc: Global, items: &[u8]) -> Result<ReadItems, ItemFault>
    ensures ok { IfOk result (λ read. AreAsked (items_of items.now) (items_in read)) }
    ensures err { IfErr result (λ fault. AreUnread (items_of items.now) fault) }
{
    let mut read = ReadItems {
        plain: Vec::new(alloc),
        items: Vec::new(alloc),
        sets_seen: false,
    };
    let mut place = Place::Outside;
    let mut start = 0;
    for end in 0..items.len() {
        if !divides(place, items[end]) {
            place = place_after(place, items[end]);
            continue;
        }
        push_item(alloc, &items[start..end], &mut read)?;
        start = end + 1;
        place = Place::Outside;
    }
    push_item(alloc, &items[start..], &mut read)?;
    Ok(read)
}

/// Whether an octet is between items.
fn divides(place: Place, octet: u8) -> bool
    ensures { result ≡ (is_outside place && (octet == 32)) }
{
    is_outside(place) && octet == b' '
}
