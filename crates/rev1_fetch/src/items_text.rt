//! The places of items in the arguments of FETCH.

ghost use Rattle.std.specs.Prelude.{◌≡◌, ◌≤◌, ◌∷◌, Some, None, MatchOption, length};
ghost use Rattle.std.specs.Option.{option_map};
ghost use Rattle.rev1_fetch.specs.FetchArguments.{closed_items, cut_messages, fetch_arguments};
ghost use Rattle.rev1_fetch.specs.FetchArguments.{items_after, single_item, word_end};

use crate::item_places::items_len;

/// The arguments of FETCH, taken apart.
#[derive(Clone, Copy)]
pub struct ItemList<'a> {
    /// A space, the messages, a space.
    pub front: &'a [u8],
    /// The items, without parentheses.
    pub items: &'a [u8],
    /// Whether they are without parentheses.
    pub is_single: bool,
    /// What follows the items.
    pub back: &'a [u8],
}

/// The arguments of FETCH, taken apart; `None` if there are no items.
pub fn item_list(rest: &[u8]) -> Option<ItemList<'_>>
    ensures { MatchOption result (fetch_arguments rest.now ≡ None)
        (λ list. fetch_arguments rest.now ≡ Some (record {
          front = list.front.now;
          items = list.items.now;
          is_single = list.is_single;
          back = list.back.now;
        })) }
{
    match cut_messages(rest) {
        None => None,
        Some((front, items)) => items_after(front, items),
    }
}

/// Splits the arguments after the messages and a space; `None` if there is no second space.
fn cut_messages(rest: &[u8]) -> Option<(&[u8], &[u8])>
    ensures { option_map (λ x. (x.0.now, x.1.now)) result ≡ cut_messages rest.now }
{
    match rest {
        [] => None,
        [first, messages @ ..] => {
            if *first != b' ' {
                return None;
            }
            let end = word_end(messages);
            if end >= messages.len() {
                return None;
            }
            Some(rest.split_at(end + 2))
        }
    }
}

/// The items after the messages.
fn items_after<'a>(front: &'a [u8], rest: &'a [u8]) -> Option<ItemList<'a>>
    ensures { MatchOption result (items_after front.now rest.now ≡ None)
        (λ list. items_after front.now rest.now ≡ Some (record {
          front = list.front.now;
          items = list.items.now;
          is_single = list.is_single;
          back = list.back.now;
        })) }
{
    match rest {
        [] => single_item(front, rest),
        [first, list @ ..] => {
            if *first == b'(' {
                closed_items(front, list)
            } else {
                single_item(front, rest)
            }
        }
    }
}

/// One item without parentheses.
fn single_item<'a>(front: &'a [u8], rest: &'a [u8]) -> Option<ItemList<'a>>
    ensures { MatchOption result (single_item front.now rest.now ≡ None)
        (λ list. single_item front.now rest.now ≡ Some (record {
          front = list.front.now;
          items = list.items.now;
          is_single = list.is_single;
          back = list.back.now;
        })) }
{
    let (items, back) = rest.split_at(items_len(false, rest));
    Some(ItemList {
        front,
        items,
        is_single: true,
        back,
    })
}

/// Items from after an opening parenthesis on; `None` if the closing one is missing.
fn closed_items<'a>(front: &'a [u8], list: &'a [u8]) -> Option<ItemList<'a>>
    ensures { MatchOption result (items_after front.now (40 ∷ list.now) ≡ None)
        (λ shown. items_after front.now (40 ∷ list.now) ≡ Some (record {
          front = shown.front.now;
          items = shown.items.now;
          is_single = shown.is_single;
          back = shown.back.now;
        })) }
{
    let (items, rest) = list.split_at(items_len(true, list));
    match rest {
        [] => None,
        [first, back @ ..] => {
            if *first != b')' {
                return None;
            }
            Some(ItemList {
                front,
                items,
                is_single: false,
                back,
            })
        }
    }
}

/// The number of octets before the first space.
fn word_end(octets: &[u8]) -> usize
    ensures value { result ≡ word_end octets.now }
    ensures within { result ≤ length octets.now }
{
    let mut len = 0;
    for octet in octets {
        if *octet == b' ' {
            break;
        }
        len += 1;
    }
    len
}
