//! Questions about ids and clocks.

use crate::fields::{Gathers, entry, id, id_of, take_each};
use case_lines::{Trouble, Words, pair, parts_around, replica};
use std::alloc::{AllocError, Global};
use tags_clocks::Clock;

/// A question about ids or clocks.
#[derive(Clone, Copy)]
pub enum ClockWord {
    /// `id R N`: the id of these numbers.
    Id,
    /// `clock RAISES`: the clock after these raises.
    Clock,
    /// `number R RAISES`: the replica's number.
    Number,
    /// `covers ID RAISES`: whether the clock covers the operation.
    Covers,
    /// `compare RAISES RAISES`: how the two clocks compare.
    Compare,
    /// `join RAISES RAISES`: the join.
    Join,
    /// `push ENTRIES`: which entries are taken, and the clock after them.
    Push,
}

/// Puts the answer to a question about ids or clocks.
pub fn answer_clock(word: ClockWord, fields: &str, answer: &mut Words) {
    let (first, second) = parts_around(fields, " ");
    match word {
        ClockWord::Id => put_checked_id(fields, answer),
        ClockWord::Push => push_all(fields, answer),
        ClockWord::Clock => put_raised(word, "", fields, answer),
        _ => put_raised(word, first, second, answer),
    }
}

fn put_checked_id(fields: &str, answer: &mut Words) {
    match pair(" ", fields) {
        Ok((replica, number)) => match id_of(replica, number) {
            Some(id) => answer.put_id(" ", id),
            None => answer.put(" none"),
        },
        Err(trouble) => answer.put_trouble(" ", trouble),
    }
}

/// The clock after these raises, one after another.
pub fn clock_of_raises(alloc: Global, text: &str) -> Result<Clock, Trouble> {
    let mut clock = Clock::new(alloc);
    if text != "-" {
        take_each(alloc, &mut clock, ',', text)?;
    }
    Ok(clock)
}

/// The fields of a clock are raises.
impl Gathers for Clock {
    fn take(&mut self, _alloc: Global, field: &str) -> Result<(), Trouble> {
        let (replica, number) = entry(field)?;
        self.raise(replica, number)?;
        Ok(())
    }
}

/// Puts the answer about the clock after these raises, and about what the line names before it.
fn put_raised(word: ClockWord, first: &str, raises: &str, answer: &mut Words) {
    match clock_of_raises(answer.alloc(), raises) {
        Ok(clock) => put_clock_answer(word, first, &clock, answer),
        Err(trouble) => answer.put_trouble(" ", trouble),
    }
}

fn put_clock_answer(word: ClockWord, first: &str, clock: &Clock, answer: &mut Words) {
    match word {
        ClockWord::Clock => put_copy(clock, answer),
        ClockWord::Number => put_number_of(first, clock, answer),
        ClockWord::Covers => put_covered(first, clock, answer),
        _ => put_comparison(word, first, clock, answer),
    }
}

/// Puts a copy of the clock.
fn put_copy(clock: &Clock, answer: &mut Words) {
    match clock.copy(answer.alloc()) {
        Ok(copied) => {
            answer.put_if(!copied.same(clock), " copied");
            answer.put_clock(" ", &copied);
        }
        Err(AllocError) => answer.give_up(),
    }
}

fn put_number_of(of: &str, clock: &Clock, answer: &mut Words) {
    match replica(of) {
        Ok(replica) => answer.put_number(" ", u64::from(clock.get(replica))),
        Err(trouble) => answer.put_trouble(" ", trouble),
    }
}

fn put_covered(of: &str, clock: &Clock, answer: &mut Words) {
    match id(of) {
        Ok(id) => answer.put_whether(" ", clock.covers(id)),
        Err(trouble) => answer.put_trouble(" ", trouble),
    }
}

/// Puts how the clock after these raises compares with another, or their join.
fn put_comparison(word: ClockWord, raises: &str, other: &Clock, answer: &mut Words) {
    match clock_of_raises(answer.alloc(), raises) {
        Ok(mut clock) => {
            if matches!(word, ClockWord::Compare) {
                put_order(&clock, other, answer);
            } else {
                put_join(&mut clock, other, answer);
            }
        }
        Err(trouble) => answer.put_trouble(" ", trouble),
    }
}

fn put_order(first: &Clock, second: &Clock, answer: &mut Words) {
    answer.put_name(" ", &first.compare(second));
    answer.put_if(first.is_covered_by(second), " within");
    answer.put_if(first.same(second), " same");
}

fn put_join(clock: &mut Clock, other: &Clock, answer: &mut Words) {
    match clock.join(answer.alloc(), other) {
        Ok(()) => answer.put_clock(" ", clock),
        Err(AllocError) => answer.give_up(),
    }
}

fn push_all(text: &str, answer: &mut Words) {
    let mut clock = Clock::new(answer.alloc());
    match push_each(&mut clock, text, answer) {
        Ok(()) => answer.put_clock(" ", &clock),
        Err(trouble) => answer.put_trouble(" ", trouble),
    }
}

fn push_each(clock: &mut Clock, text: &str, answer: &mut Words) -> Result<(), Trouble> {
    for part in text.split(',') {
        push(clock, part, answer)?;
    }
    Ok(())
}

fn push(clock: &mut Clock, part: &str, answer: &mut Words) -> Result<(), Trouble> {
    let (replica, number) = entry(part)?;
    answer.put_whether(" ", clock.push_entry(replica, number)?);
    Ok(())
}
