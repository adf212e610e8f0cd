//! Plays inputs of the audit, case by case.

use super::block::{block_of, titled_cases};
use case_lines::Words;
use imap_types::{Escape, read_escaped};
use mail_audit::audit;
use std::alloc::{AllocError, Global};

/// Plays the cases of a text, each after a line `== TITLE`, and puts those whose answer isn't the
/// expected one. `Err` if memory runs out.
pub fn check_audits(
    alloc: Global,
    file: &str,
    text: &str,
    report: &mut Words,
) -> Result<(), AllocError> {
    for case in titled_cases(file, text, report).split("\n== ") {
        check_case(alloc, file, case, report)?;
    }
    Ok(())
}

/// Compares the audit's answer to the input of a case with the expected one.
fn check_case(alloc: Global, file: &str, case: &str, report: &mut Words) -> Result<(), AllocError> {
    let block = block_of(alloc, case)?;
    let input = input_of(alloc, &block.input)?;
    let mut reader = input.as_slice();
    let mut output = Vec::new(alloc);
    let _end = audit(alloc, &mut reader, &mut output);
    block.put_difference(file, &output, report);
    Ok(())
}

/// The input that these lines spell.
pub(super) fn input_of(alloc: Global, lines: &str) -> Result<Vec<u8>, AllocError> {
    let mut input = Vec::new(alloc);
    for line in lines.split_terminator('\n') {
        take_line(alloc, line, &mut input)?;
    }
    Ok(input)
}

/// Takes a line of a case: an empty line, a comment, octets in the escape, or a line of the input.
fn take_line(alloc: Global, line: &str, input: &mut Vec<u8>) -> Result<(), AllocError> {
    if line.is_empty() || line.starts_with('#') {
        return Ok(());
    }
    match line.strip_prefix("% octets ") {
        Some(text) => take_octets(alloc, text, input),
        None => {
            input.extend_from_slice(line.as_bytes())?;
            input.push(b'\n')?;
            Ok(())
        }
    }
}

/// Takes octets that are given in the escape.
fn take_octets(alloc: Global, text: &str, input: &mut Vec<u8>) -> Result<(), AllocError> {
    match read_escaped(alloc, Escape::Text, text.as_bytes()) {
        Ok(octets) => input.extend_from_slice(octets.as_bytes()),
        Err(_) => input.extend_from_slice(b"not in the escape\n"),
    }
}
