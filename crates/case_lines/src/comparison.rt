//! Compares cases with their expected answers.

use crate::Words;

/// Puts each case of a text that differs from the same case of another one: its file, what the
/// first text has, and what the second text has. A case is a line, and the lines below it that
/// begin with two spaces.
pub fn put_differences(file: &str, expected: &[u8], printed: &[u8], to: &mut Words) {
    let (mut rest, mut others) = (expected, printed);
    for _ in 0..u64::MAX {
        if rest.is_empty() && others.is_empty() {
            break;
        }
        let (case, further) = cut_case(rest);
        let (other, further_others) = cut_case(others);
        put_if_other(file, case, other, to);
        rest = further;
        others = further_others;
    }
}

fn put_if_other(file: &str, case: &[u8], other: &[u8], to: &mut Words) {
    let (case, other) = (without_end(case), without_end(other));
    if case != other {
        to.put(file);
        to.put_after(": expected\n", case);
        to.put_after("\nbut the answer is\n", other);
        to.put("\n");
    }
}

/// The text without its last LF.
fn without_end(text: &[u8]) -> &[u8] {
    text.strip_suffix(b"\n").unwrap_or(text)
}

/// The first case, and the text after it.
fn cut_case(text: &[u8]) -> (&[u8], &[u8]) {
    text.split_at_checked(length_of_case(text))
        .unwrap_or((text, b""))
}

/// The length of the first case: up to the next line that doesn't begin with two spaces.
fn length_of_case(text: &[u8]) -> usize {
    let mut length: usize = 0;
    for line in text.split_inclusive(|octet| *octet == b'\n') {
        if length > 0 && !line.starts_with(b"  ") {
            break;
        }
        length = length.saturating_add(line.len());
    }
    length
}
