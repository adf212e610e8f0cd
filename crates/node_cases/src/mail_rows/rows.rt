//! Plays rows, line by line.

use crate::mail_rows::block::{block_of, titled_cases};
use crate::mail_rows::cases::{damage_case, try_case};
use crate::mail_rows::cuts::{put_pieces, with_send};
use crate::mail_rows::damage::{DamageCount, put_damage, put_first_wrong, put_first_wrong_after};
use crate::mail_rows::directives::{Way, build, cut, octets_of, way_of};
use crate::mail_rows::replays::play_script;
use case_lines::Words;
use std::alloc::{AllocError, Global};

/// Plays the rows of a text, each after a line `== TITLE`, and puts those whose output isn't the
/// expected one. Places of scripts and transcripts are damaged as `tried` says. `Err` if memory
/// runs out.
pub fn check_rows(
    alloc: Global,
    file: &str,
    text: &str,
    tried: &mut DamageCount,
    report: &mut Words,
) -> Result<(), AllocError> {
    for row in titled_cases(file, text, report).split("\n== ") {
        let block = block_of(alloc, row)?;
        let mut page = Words::new(alloc);
        play_row(alloc, &block.input, tried, &mut page);
        block.put_difference(file, &page.finish()?, report);
    }
    Ok(())
}

/// A row as far as it was read.
#[derive(Drop)]
struct Row<'a> {
    script: Words,
    way: Way<'a>,
    tried: DamageCount,
}

fn play_row(alloc: Global, lines: &str, tried: &mut DamageCount, page: &mut Words) {
    let mut row = Row {
        script: Words::new(alloc),
        way: Way::Whole,
        tried: *tried,
    };
    for line in lines.split_terminator('\n') {
        take_line(alloc, line, &mut row, page);
    }
    *tried = row.tried;
    end_row(alloc, row.script.so_far(), row.way, page);
    damage_row(alloc, row.script.so_far(), row.way, tried, page);
}

/// Damages a row's script and transcript, and the line that sends its pieces.
fn damage_row(alloc: Global, script: &[u8], way: Way, tried: &mut DamageCount, page: &mut Words) {
    put_first_wrong(alloc, script, tried, page);
    if let Way::Pieces { session, text } = way {
        let whole = with_send(alloc, script, session, text);
        put_first_wrong_after(alloc, whole.so_far(), script.len(), tried, page);
    }
}

/// Takes a line of a row: a directive, a comment before the script, or a line of the script.
fn take_line<'a>(alloc: Global, line: &'a str, row: &mut Row<'a>, page: &mut Words) {
    if let Some(directive) = line.strip_prefix("% ") {
        let (word, rest) = cut(directive, ' ');
        if !execute(alloc, word, rest, row, page) {
            page.put("-- no directive: ");
            page.put(directive);
            page.put("\n");
        }
    } else if !(line.starts_with('#') && row.script.so_far().is_empty()) {
        take_octets(alloc, line.as_bytes(), b"\n", row, page);
    }
}

/// Executes a directive; returns whether the line is one.
fn execute<'a>(
    alloc: Global,
    word: &str,
    rest: &'a str,
    row: &mut Row<'a>,
    page: &mut Words,
) -> bool {
    if word == "octets" {
        let Some(octets) = octets_of(alloc, rest) else {
            return false;
        };
        take_octets(alloc, octets.as_bytes(), b"", row, page);
        return true;
    }
    let Some(way) = way_of(word, rest) else {
        return build(word, rest, &mut row.script);
    };
    if let Way::Each(_) = way {
        play_script(alloc, row.script.so_far()).put_report(page);
    }
    row.way = way;
    true
}

/// Takes a case if the row consists of cases; otherwise octets of the script, and then `end`.
fn take_octets(alloc: Global, octets: &[u8], end: &[u8], row: &mut Row, page: &mut Words) {
    if let Way::Each(then) = row.way {
        try_case(alloc, row.script.so_far(), octets, then, page);
        let mut tried = row.tried;
        damage_case(alloc, row.script.so_far(), octets, &mut tried, page);
        row.tried = tried;
    } else {
        row.script.put_octets(octets);
        row.script.put_octets(end);
    }
}

/// Plays a row's script in the way that the row asks for.
fn end_row(alloc: Global, script: &[u8], way: Way, page: &mut Words) {
    match way {
        Way::Whole => play_script(alloc, script).put_report(page),
        Way::Last(last) => play_script(alloc, script).put_last(last, page),
        Way::Count(line) => play_script(alloc, script).put_count(line, page),
        Way::Damage => put_damage(alloc, script, page),
        Way::Pieces { session, text } => put_pieces(alloc, script, session, text, page),
        Way::Each(_) => {}
    }
}
