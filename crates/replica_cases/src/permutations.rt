//! The orders of some operations, and which of them are causal.

use std::alloc::{AllocError, Global};

/// The number of orders of `count` operations.
pub fn orders_of(count: usize) -> usize {
    let mut orders: usize = 1;
    for next in 0..count {
        orders = orders.saturating_mul(next + 1);
    }
    orders
}

/// The order with this number, of `count` operations: each of them is inserted at one of the places
/// among those before it. `Err` if memory runs out.
pub fn order(alloc: Global, number: usize, count: usize) -> Result<Vec<usize>, AllocError> {
    let mut order = Vec::new(alloc);
    let mut code = number;
    for next in 0..count {
        let places = next + 1;
        let place = code % places;
        code = code / places;
        order.insert(place.min(order.len()), next)?;
    }
    Ok(order)
}

/// The place of an operation in an order; the length of the order if it isn't in it.
fn place(order: &[usize], op: usize) -> usize {
    for (at, other) in order.iter().enumerate() {
        if *other == op {
            return at;
        }
    }
    order.len()
}

/// Whether an operation comes before one of its causes.
pub fn precedes_a_cause(causes: &[(usize, usize)], order: &[usize], op: usize) -> bool {
    for (cause, later) in causes {
        if *later == op && place(order, *cause) > place(order, op) {
            return true;
        }
    }
    false
}

/// Whether no operation comes before one of its causes.
pub fn is_causal(causes: &[(usize, usize)], order: &[usize]) -> bool {
    for op in order {
        if precedes_a_cause(causes, order, *op) {
            return false;
        }
    }
    true
}
