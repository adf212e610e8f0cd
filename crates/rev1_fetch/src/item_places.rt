//! Where items end.

ghost use Rattle.std.specs.Prelude.{◌≡◌, ◌≤◌, length};
ghost use Rattle.rev1_fetch.specs.ItemPlaces.{ends_items, is_outside, items_len, place_after};
ghost use Rattle.rev1_fetch.specs.declared.item_places.Place.TheVariants.{Outside as AtOutside};
ghost use Rattle.rev1_fetch.specs.declared.item_places.Place.TheVariants.{Brackets as InBrackets};
ghost use Rattle.rev1_fetch.specs.declared.item_places.Place.TheVariants.{Quotes as InQuotes};

use imap_types::is_astring_octet;

/// A place in an item.
#[derive(Clone, Copy, Debug, PartialEq, Eq)]
pub enum Place {
    /// Outside brackets.
    Outside,
    /// Between brackets, but not between quotes.
    Brackets,
    /// Between quotes.
    Quotes,
    /// After a `\` between quotes.
    Escape,
}

/// The place after an octet.
pub fn place_after(place: Place, octet: u8) -> Place
    ensures { result ≡ place_after place octet }
{
    match place {
        Place::Outside => after_outside(octet),
        Place::Brackets => after_brackets(octet),
        Place::Quotes => after_quotes(octet),
        Place::Escape => Place::Quotes,
    }
}

fn after_outside(octet: u8) -> Place
    ensures { result ≡ place_after AtOutside octet }
{
    if octet == b'[' {
        Place::Brackets
    } else {
        Place::Outside
    }
}

fn after_brackets(octet: u8) -> Place
    ensures { result ≡ place_after InBrackets octet }
{
    if octet == b'"' {
        return Place::Quotes;
    }
    if octet == b']' {
        return Place::Outside;
    }
    Place::Brackets
}

fn after_quotes(octet: u8) -> Place
    ensures { result ≡ place_after InQuotes octet }
{
    if octet == b'"' {
        return Place::Brackets;
    }
    if octet == b'\\' {
        return Place::Escape;
    }
    Place::Quotes
}

/// Whether brackets are closed.
pub fn is_outside(place: Place) -> bool
    ensures { result ≡ is_outside place }
{
    match place {
        Place::Outside => true,
        Place::Brackets | Place::Quotes | Place::Escape => false,
    }
}

/// Whether an octet ends items, of which there may be several.
fn ends_items(are_several: bool, place: Place, octet: u8) -> bool
    ensures { result ≡ ends_items are_several place octet }
{
    is_outside(place) && !is_astring_octet(octet) && !(are_several && octet == b' ')
}

/// How long the items are that octets begin with: one, or several with spaces between them.
pub fn items_len(are_several: bool, octets: &[u8]) -> usize
    ensures value { result ≡ items_len are_several AtOutside octets.now }
    ensures within { result ≤ length octets.now }
{
    let mut place = Place::Outside;
    let mut len = 0;
    for octet in octets {
        if ends_items(are_several, place, *octet) {
            break;
        }
        place = place_after(place, *octet);
        len += 1;
    }
    len
}
