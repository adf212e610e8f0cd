//! Delivers operations in each order.

use crate::dump::put_state;
use crate::given::Given;
use crate::permutations::{is_causal, order, orders_of, precedes_a_cause};
use crate::setup::{Node, deliver, node};
use case_lines::{Trouble, Words};
use causal_inbox::{Arrival, Delivered};
use crdt_ops::SoundOp;
use merge_laws::Caused;
use std::alloc::{AllocError, Global};

/// The most operations that are delivered in each order.
const MOST: usize = 7;

/// The results of the orders that were tried.
#[derive(Clone, Copy)]
struct Tried {
    /// How many orders were tried.
    all: usize,
    /// How many of them deliver each operation after its causes.
    causal: usize,
    /// The number of the first that went wrong, if any.
    wrong: Option<usize>,
}

impl Tried {
    fn none() -> Tried {
        Tried {
            all: 0,
            causal: 0,
            wrong: None,
        }
    }

    fn note(&mut self, is_causal: bool, is_right: bool) {
        if !is_right && self.wrong.is_none() {
            self.wrong = Some(self.all);
        }
        if is_causal {
            self.causal = self.causal.saturating_add(1);
        }
        self.all = self.all.saturating_add(1);
    }
}

/// `orders`: delivers the operations in each order, each twice in a row, then all of them
/// twice, and in causal orders also each once. Puts how many orders there are, whether every
/// order had the right answers and the same result, and that result.
pub fn put_orders(given: &Given, answer: &mut Words) {
    if given.any.len() > MOST {
        answer.put_trouble(" ", Trouble::NotACase);
    } else {
        match end_of(answer.alloc(), given) {
            Some(end) => put_all(given, &end, answer),
            None => answer.give_up(),
        }
    }
}

fn put_all(given: &Given, end: &[u8], answer: &mut Words) {
    let tried = try_all(answer.alloc(), given, end);
    answer.put_number(" ", tried.all as u64);
    answer.put_number(" orders, ", tried.causal as u64);
    answer.put(" causal,");
    put_wrong(tried.wrong, given.any.len(), answer);
    answer.put_octets(end);
}

fn put_wrong(wrong: Option<usize>, count: usize, answer: &mut Words) {
    match wrong {
        None => answer.put(" all end alike"),
        Some(number) => {
            answer.put(" but not");
            put_order(number, count, answer);
        }
    }
}

/// Puts the places of an order, counted from 1.
fn put_order(number: usize, count: usize, answer: &mut Words) {
    match order(answer.alloc(), number, count) {
        Ok(order) => {
            for place in &order {
                answer.put_number(" ", (*place as u64).saturating_add(1));
            }
        }
        Err(AllocError) => answer.give_up(),
    }
}

/// The contents of an inbox that received the operations in the order of the case, as text; `None`
/// if memory ran out.
fn end_of(alloc: Global, given: &Given) -> Option<Vec<u8>> {
    match replica(alloc, given) {
        Some(mut inbox) => {
            deliver_all(alloc, &mut inbox, &given.any);
            contents(alloc, &inbox)
        }
        None => None,
    }
}

/// The contents of an inbox as text; `None` if memory ran out.
fn contents(alloc: Global, inbox: &Node) -> Option<Vec<u8>> {
    let mut answer = Words::new(alloc);
    put_state(inbox.value(), &mut answer);
    answer.finish().ok()
}

/// An inbox that received the operations that come first; `None` if memory ran out.
fn replica(alloc: Global, given: &Given) -> Option<Node> {
    match node(alloc) {
        Ok(mut inbox) => {
            deliver_all(alloc, &mut inbox, &given.first);
            Some(inbox)
        }
        Err(AllocError) => None,
    }
}

fn deliver_all(alloc: Global, inbox: &mut Node, ops: &[SoundOp]) {
    for op in ops {
        deliver_copy(alloc, inbox, op);
    }
}

/// Delivers a copy of the operation; `None` if it is refused, if the inbox stalls, or if memory
/// runs out.
fn deliver_copy(alloc: Global, inbox: &mut Node, op: &SoundOp) -> Option<Arrival> {
    match op.copy(alloc) {
        Ok(copied) => match deliver(alloc, inbox, copied) {
            Ok(
                Delivered {
                    arrival,
                    stalled: false,
                },
            ) => Some(arrival),
            _ => None,
        },
        Err(AllocError) => None,
    }
}

/// Delivers a copy of the operation at this place.
fn deliver_copy_at(alloc: Global, inbox: &mut Node, given: &Given, at: usize) -> Option<Arrival> {
    match given.any.get(at) {
        Some(op) => deliver_copy(alloc, inbox, op),
        None => None,
    }
}

fn try_all(alloc: Global, given: &Given, end: &[u8]) -> Tried {
    let mut tried = Tried::none();
    for number in 0..orders_of(given.any.len()) {
        try_one(alloc, given, number, end, &mut tried);
    }
    tried
}

fn try_one(alloc: Global, given: &Given, number: usize, end: &[u8], tried: &mut Tried) {
    match order(alloc, number, given.any.len()) {
        Ok(order) => {
            let is_causal = is_causal(&given.causes, &order);
            tried.note(is_causal, ends_alike(alloc, given, &order, is_causal, end));
        }
        Err(AllocError) => tried.note(false, false),
    }
}

/// Whether deliveries in this order have the right answers and result, however often each operation
/// is delivered.
fn ends_alike(alloc: Global, given: &Given, order: &[usize], is_causal: bool, end: &[u8]) -> bool {
    if !ends_with_contents(alloc, given, order, Way::EachTwice, end) {
        return false;
    }
    if !ends_with_contents(alloc, given, order, Way::AllTwice, end) {
        return false;
    }
    !is_causal || ends_with_contents(alloc, given, order, Way::AsDelivered, end)
}

/// How often operations are delivered.
#[derive(Clone, Copy)]
enum Way {
    /// Each twice in a row.
    EachTwice,
    /// All, and then all again.
    AllTwice,
    /// Each once, after its causes.
    AsDelivered,
}

/// Whether an inbox that received the operations that come first gives the right answers to the
/// others, and has these contents at the end.
fn ends_with_contents(alloc: Global, given: &Given, order: &[usize], way: Way, end: &[u8]) -> bool {
    match replica(alloc, given) {
        Some(mut inbox) => {
            let is_answered = is_answered(alloc, &mut inbox, given, order, way);
            is_answered && all_applied(alloc, given, &inbox, end)
        }
        None => false,
    }
}

fn is_answered(alloc: Global, inbox: &mut Node, given: &Given, order: &[usize], way: Way) -> bool {
    match way {
        Way::EachTwice => each_twice(alloc, inbox, given, order),
        Way::AllTwice => all_twice(alloc, inbox, given, order),
        Way::AsDelivered => as_delivered(alloc, inbox, given, order),
    }
}

/// Delivers each operation twice in a row. One that comes before a cause must be held, and the
/// second delivery must be a repeat.
fn each_twice(alloc: Global, inbox: &mut Node, given: &Given, order: &[usize]) -> bool {
    for at in order {
        if !is_repeated(alloc, inbox, given, order, *at) {
            return false;
        }
    }
    true
}

fn is_repeated(alloc: Global, inbox: &mut Node, given: &Given, order: &[usize], at: usize) -> bool {
    let arrival = deliver_copy_at(alloc, inbox, given, at);
    let again = deliver_copy_at(alloc, inbox, given, at);
    let is_held = arrival == Some(Arrival::Held);
    is_held == precedes_a_cause(&given.causes, order, at) && again == Some(Arrival::Repeat)
}

/// Delivers all operations, and then all again. The first time all are applied, the second time
/// none.
fn all_twice(alloc: Global, inbox: &mut Node, given: &Given, order: &[usize]) -> bool {
    let once = applied_in_round(alloc, inbox, given, order);
    let again = applied_in_round(alloc, inbox, given, order);
    once == order.len() && again == 0
}

/// The number of operations applied by delivering each operation once.
fn applied_in_round(alloc: Global, inbox: &mut Node, given: &Given, order: &[usize]) -> usize {
    let mut applied: usize = 0;
    for at in order {
        if let Some(Arrival::Applied(count)) = deliver_copy_at(alloc, inbox, given, *at) {
            applied = applied.saturating_add(count);
        }
    }
    applied
}

/// Delivers operations in a causal order. Each must be applied at once, and they must be listed in
/// this order.
fn as_delivered(alloc: Global, inbox: &mut Node, given: &Given, order: &[usize]) -> bool {
    for at in order {
        if deliver_copy_at(alloc, inbox, given, *at) != Some(Arrival::Applied(1)) {
            return false;
        }
    }
    are_listed(given, order, inbox.op_list())
}

/// Whether the list has the operations that come first, and then the others in this order.
fn are_listed(given: &Given, order: &[usize], list: &[SoundOp]) -> bool {
    for (at, op) in list.iter().enumerate() {
        match listed_at(given, order, at) {
            Some(other) if op.same(other) => {}
            _ => return false,
        }
    }
    true
}

/// The operation that must be at this place of the list.
fn listed_at<'a>(given: &'a Given, order: &[usize], at: usize) -> Option<&'a SoundOp> {
    match at.checked_sub(given.first.len()) {
        None => given.first.get(at),
        Some(place) => given.any.get(*order.get(place)?),
    }
}

/// Whether all operations were applied, none is held, and the inbox has these contents.
fn all_applied(alloc: Global, given: &Given, inbox: &Node, end: &[u8]) -> bool {
    let count = inbox.op_list().len().checked_sub(given.first.len());
    if count != Some(given.any.len()) || !inbox.held().is_empty() {
        return false;
    }
    match contents(alloc, inbox) {
        Some(text) => text.as_slice() == end,
        None => false,
    }
}
