//! What the case programs have in common: how they read the fields of a line, how they write its
//! answer, and how they compare it with the expected one.
//!
//! A case is a line that says what to compute, and below it the expected answer, in lines that
//! begin with two spaces. A case program reads the line's fields, computes the answer, and prints
//! the line again with that answer below it; `put_differences` compares the two texts.
//!
//! `cut`, `number` and others read fields; each gives `Trouble::NotACase` for a malformed field.
//! `Words` collects an answer: once memory has run out, its text is incomplete and `finish` gives
//! `Err`. `Trouble` says why a line has no answer. `Chance` gives the numbers by which cases are
//! generated.
//!
//! The functions promise no more than that they return, on any input.
#![tactic(auto)]

mod chance;
mod comparison;
mod fields;
mod trouble;
mod words;

pub use chance::Chance;
pub use comparison::put_differences;
pub use fields::{
    cut, long_number, meaning, name, number, octets, operation, pair, parts_around, replica,
    with_octet,
};
pub use trouble::Trouble;
pub use words::Words;
