//! Writes sets of numbers as text.

use case_lines::Words;
use imap_types::NumberSet;
use std::alloc::{AllocError, Global};
use std::str;

/// Puts a word, and each run of the set after a space.
pub fn put_numbers(words: &mut Words, word: &str, numbers: &NumberSet) {
    words.put(word);
    for run in numbers.runs() {
        words.put_number(" ", run.first.into());
        words.put_number(":", run.last.into());
    }
}

/// Puts the runs of the set of these numbers, which ascend and are separated by single spaces.
pub fn put_set(alloc: Global, words: &mut Words, numbers: &[u8]) {
    match str::from_utf8(numbers) {
        Ok(numbers) => match set(alloc, numbers) {
            Ok(set) => put_numbers(words, "runs", &set),
            Err(AllocError) => words.give_up(),
        },
        Err(_) => words.put("no numbers"),
    }
}

/// The set of these numbers. A word that isn't a number counts as 0, which is in no set.
fn set(alloc: Global, numbers: &str) -> Result<NumberSet, AllocError> {
    let mut set = NumberSet::new(alloc);
    for digits in numbers.split(' ') {
        let number = digits.parse::<u32>().unwrap_or(0);
        if set.greatest() < number {
            set.push(number)?;
        }
    }
    Ok(set)
}
