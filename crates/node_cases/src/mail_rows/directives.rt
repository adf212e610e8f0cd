//! Directives: lines of a row that say what is done with its script, or that add to the script what
//! a line of text can't show.

use case_lines::Words;
use imap_types::{Escape, Octets, read_escaped};
use std::alloc::Global;

/// What is done with the script of a row.
#[derive(Clone, Copy)]
pub enum Way<'a> {
    /// It is replayed, and everything that it prints is put.
    Whole,
    /// It is replayed, and this number of its last lines is put.
    Last(usize),
    /// It is replayed, and the number of printed lines that equal this one is put.
    Count(&'a str),
    /// It is also replayed cut at each place, and with each octet replaced.
    Damage,
    /// It is replayed with octets, given in the escape, sent to a session in all ways of cutting
    /// them.
    Pieces { session: &'a str, text: &'a str },
    /// It is replayed with each of the following lines at its end, and again with this line after
    /// that one.
    Each(&'a str),
}

/// The way that a directive names; `None` if it names none.
pub fn way_of<'a>(word: &str, rest: &'a str) -> Option<Way<'a>> {
    match word {
        "last" => last_of(rest),
        "count" => Some(Way::Count(rest)),
        "damage" => Some(Way::Damage),
        "pieces" => Some(pieces_of(rest)),
        "each" => Some(Way::Each(rest)),
        _ => None,
    }
}

fn last_of<'a>(number: &'a str) -> Option<Way<'a>> {
    match number.parse::<usize>() {
        Ok(last) => Some(Way::Last(last)),
        Err(_) => None,
    }
}

fn pieces_of<'a>(rest: &'a str) -> Way<'a> {
    let (session, text) = cut(rest, ' ');
    Way::Pieces { session, text }
}

/// The text before the first separator, and the text after it; without a separator the whole text
/// and nothing.
pub fn cut<'a>(text: &'a str, separator: char) -> (&'a str, &'a str) {
    text.split_once(separator).unwrap_or((text, ""))
}

/// Adds the lines of a `fill` or `repeat` directive to a script; returns whether it is one.
pub fn build(word: &str, rest: &str, script: &mut Words) -> bool {
    let Some(pattern) = pattern_of(rest) else {
        return false;
    };
    match word {
        "fill" => fill(&pattern, script),
        "repeat" => repeat(&pattern, script),
        _ => false,
    }
}

/// The octets that a text in the escape spells; `None` if it isn't in the escape.
pub fn octets_of(alloc: Global, text: &str) -> Option<Octets> {
    read_escaped(alloc, Escape::Text, text.as_bytes()).ok()
}

/// Two words, and a line with a gap in it.
#[derive(Clone, Copy)]
struct Pattern<'a> {
    first: &'a str,
    second: &'a str,
    front: &'a str,
    back: &'a str,
}

fn pattern_of<'a>(rest: &'a str) -> Option<Pattern<'a>> {
    let (first, rest) = cut(rest, ' ');
    let (second, line) = cut(rest, ' ');
    let (front, back) = line.split_once("{}")?;
    Some(Pattern {
        first,
        second,
        front,
        back,
    })
}

/// Adds the line with its gap filled by the second word, repeated as often as the first word says.
fn fill(pattern: &Pattern, script: &mut Words) -> bool {
    let Ok(count) = pattern.first.parse::<u32>() else {
        return false;
    };
    script.put(pattern.front);
    for _ in 0..count {
        script.put(pattern.second);
    }
    script.put(pattern.back);
    script.put("\n");
    true
}

/// Adds the line once for each number from the first word to the second, with the number in its
/// gap.
fn repeat(pattern: &Pattern, script: &mut Words) -> bool {
    let (Ok(first), Ok(last)) = (pattern.first.parse::<u32>(), pattern.second.parse::<u32>()) else {
        return false;
    };
    for number in first..=last {
        script.put_number(pattern.front, u64::from(number));
        script.put(pattern.back);
        script.put("\n");
    }
    true
}
