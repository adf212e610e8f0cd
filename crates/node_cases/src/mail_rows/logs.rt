//! Plays logs, case by case.

use super::audits::input_of;
use super::block::{block_of, titled_cases};
use case_lines::Words;
use log_dump::{LogDumpEnd, dump_log};
use mail_audit::audit;
use std::alloc::{AllocError, Global};

/// Plays the cases of a text, each after a line `== TITLE`, and puts those whose output isn't the
/// expected one. `Err` if memory runs out.
pub fn check_logs(
    alloc: Global,
    file: &str,
    text: &str,
    report: &mut Words,
) -> Result<(), AllocError> {
    for case in titled_cases(file, text, report).split("\n== ") {
        let block = block_of(alloc, case)?;
        let output = output_of(alloc, &block.input)?;
        block.put_difference(file, &output, report);
    }
    Ok(())
}

/// What is printed of a log, and the audit's answer to a dump.
fn output_of(alloc: Global, lines: &str) -> Result<Vec<u8>, AllocError> {
    let log = input_of(alloc, lines)?;
    let mut output = Vec::new(alloc);
    let mut reader = log.as_slice();
    let mut printed = Vec::new(alloc);
    let end = dump_log(alloc, &mut reader, &mut printed);
    output.extend_from_slice(&printed)?;
    if end == LogDumpEnd::Done {
        put_audit(alloc, &printed, &mut output)?;
    }
    Ok(output)
}

/// Puts the audit's answer to a dump.
fn put_audit(alloc: Global, dump: &[u8], output: &mut Vec<u8>) -> Result<(), AllocError> {
    output.extend_from_slice(b"-- audit: ")?;
    let mut reader = dump;
    let _end = audit(alloc, &mut reader, output);
    Ok(())
}
