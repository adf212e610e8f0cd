//! A case of several lines: its title, its input and the expected output.

use case_lines::Words;
use std::alloc::{AllocError, Global};

/// A case. The lines of the expected output begin with two spaces and stand below the lines of the
/// input that print them.
#[derive(Drop)]
pub struct Block {
    /// The title, which follows `== `.
    pub title: String,
    /// The lines of the input.
    pub input: String,
    /// The expected output.
    pub expected: Vec<u8>,
}

/// The case that a text spells, which begins with its title. `Err` if memory runs out.
pub fn block_of(alloc: Global, text: &str) -> Result<Block, AllocError> {
    let (title, lines) = text.split_once('\n').unwrap_or((text, ""));
    let mut input = String::new(alloc);
    let mut expected = Vec::new(alloc);
    for line in lines.split_terminator('\n') {
        take_line(line, &mut input, &mut expected)?;
    }
    Ok(Block {
        title: String::from_str(alloc, title)?,
        input,
        expected,
    })
}

/// The cases of a text, each from its title on. If the text has none, or input before the first
/// one, this is put.
pub fn titled_cases<'a>(file: &str, text: &'a str, report: &mut Words) -> &'a str {
    let (head, cases) = text.split_once("\n== ").unwrap_or((text, ""));
    if cases.is_empty() || has_input(head) {
        report.put(file);
        report.put(": a line `== TITLE` must precede each case\n");
    }
    cases
}

/// Whether a text has a line that is neither empty nor a comment.
fn has_input(text: &str) -> bool {
    for line in text.split('\n') {
        if !line.is_empty() && !line.starts_with('#') {
            return true;
        }
    }
    false
}

fn take_line(line: &str, input: &mut String, expected: &mut Vec<u8>) -> Result<(), AllocError> {
    match line.strip_prefix("  ") {
        Some(answer) => {
            expected.extend_from_slice(answer.as_bytes())?;
            expected.push(b'\n')?;
        }
        None => {
            input.push_str(line)?;
            input.push('\n')?;
        }
    }
    Ok(())
}

impl Block {
    /// Puts the first line of the output that isn't the expected one, if there is one, after the
    /// file and the title.
    pub fn put_difference(&self, file: &str, output: &[u8], report: &mut Words) {
        if output == self.expected.as_slice() {
            return;
        }
        let mut lines = output.split(|octet| *octet == b'\n');
        let mut expected = self.expected.split(|octet| *octet == b'\n');
        for number in 1..u64::MAX {
            let (line, other) = (lines.next(), expected.next());
            if line != other {
                self.put_lines(file, number, line, other, report);
                return;
            }
        }
    }

    fn put_lines(
        &self,
        file: &str,
        number: u64,
        line: Option<&[u8]>,
        expected: Option<&[u8]>,
        report: &mut Words,
    ) {
        report.put(file);
        report.put(": == ");
        report.put(&self.title);
        report.put_number(": expected as line ", number);
        report.put_after("\n  ", expected.unwrap_or(b"(none)"));
        report.put_after("\nbut the output has\n  ", line.unwrap_or(b"(none)"));
        report.put("\n");
    }
}
