//! Damages texts, and looks for the first place at which damage breaks a demand.

use crate::frames::is_answered;
use crate::round_trips::is_front_printed;
use crate::streams::is_same_in_pieces;
use case_lines::{Words, with_octet};
use imap_lex::Limits;
use std::alloc::{AllocError, Global};

/// A demand that a text must meet wherever it is damaged.
#[derive(Clone, Copy)]
pub enum Demand {
    /// It is a frame that is answered, and so is the part of it before the damaged place.
    Answered,
    /// It is a stream that gives the same in one piece and octet by octet.
    SameInPieces(Limits),
    /// No answer is read from it, or one that is printed as a prefix of it.
    ReadAsPrinted,
}

/// The octets that replace one octet of a text.
const DAMAGES: [u8; 5] = [0, 10, 32, 126, 255];

/// If the text has at most `longest` octets, puts a word and the first place where it can be
/// damaged so that the demand fails, if any.
pub fn put_failing(
    alloc: Global,
    words: &mut Words,
    demand: Demand,
    longest: usize,
    text: &[u8],
    word: &str,
) {
    if text.len() <= longest {
        let place = first_failing(alloc, words, demand, text);
        words.put_optional(word, place);
    }
}

/// The first place where a text can be damaged so that the demand fails, if any.
pub fn first_failing(alloc: Global, words: &mut Words, demand: Demand, text: &[u8]) -> Option<u64> {
    for place in 0..text.len() {
        let (front, _) = text.split_at(place);
        if !is_met_in_prefix(alloc, demand, front)
            || !is_met_at(alloc, words, demand, text, place)
        {
            return Some(place as u64);
        }
    }
    None
}

fn is_met_in_prefix(alloc: Global, demand: Demand, front: &[u8]) -> bool {
    match demand {
        Demand::Answered => is_answered(alloc, front),
        _ => true,
    }
}

/// Whether the demand is met with each damage at this place.
fn is_met_at(alloc: Global, words: &mut Words, demand: Demand, text: &[u8], place: usize) -> bool {
    for octet in DAMAGES {
        match with_octet(alloc, text, place, octet) {
            Ok(damaged) => {
                if !is_met(alloc, words, demand, &damaged) {
                    return false;
                }
            }
            Err(AllocError) => words.give_up(),
        }
    }
    true
}

fn is_met(alloc: Global, words: &mut Words, demand: Demand, text: &[u8]) -> bool {
    match demand {
        Demand::Answered => is_answered(alloc, text),
        Demand::SameInPieces(limits) => is_same_in_pieces(alloc, words, limits, text),
        Demand::ReadAsPrinted => is_front_printed(alloc, words, text),
    }
}
