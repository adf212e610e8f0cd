//! The program: what its command line asks for, and the status with which it ends.

use crate::audit_run::{audit_file, audit_from};
use crate::log_run::{dump_log_file, dump_log_from};
use crate::program_request::{ProgramRequest, read_words};
use crate::replay_end::ReplayEnd;
use crate::replay_run::replay;
use crate::replay_status::write_last_line;
use clap::Error;
use clap::error::ErrorKind;
use std::io::{BufWriter, Read};
use std::rt::{Env, Files};
use std::{env, fs, io};

/// Reads the command line, does what it asks for, and returns the program's status: 0 if a script
/// was served to its end, an audit answered yes, a log's dump was printed, or help was asked for; 1
/// if an audit answered no; 2 if the command line is wrong; 3 if a script ended early, or an input
/// can't be audited, or a log can't be read.
pub fn run<R: Env + Files + Input + Print + AllocGlobal>(rt: &R) -> u8 {
    match words(rt) {
        Ok(words) => run_words(rt, &words),
        Err(_) => end_early(rt, ReplayEnd::NoMemory),
    }
}

fn words<R: Env + AllocGlobal>(rt: &R) -> io::Result<Vec<String>> {
    let words = env::args(rt)?.collect(rt.alloc())?;
    Ok(words)
}

fn run_words<R: Files + Input + Print + AllocGlobal>(rt: &R, words: &[String]) -> u8 {
    match read_words(rt.alloc(), words) {
        Ok(ProgramRequest::Replay { file: None }) => replay_from(rt, rt.reader()),
        Ok(ProgramRequest::Replay { file: Some(path) }) => match fs::open(rt, path) {
            Ok(file) => replay_from(rt, file),
            Err(_) => end_early(rt, ReplayEnd::ReadFailed),
        },
        Ok(ProgramRequest::Audit { file: None }) => audit_from(rt, rt.reader()),
        Ok(ProgramRequest::Audit { file: Some(path) }) => audit_file(rt, path),
        Ok(ProgramRequest::Log { file: None }) => dump_log_from(rt, rt.reader()),
        Ok(ProgramRequest::Log { file: Some(path) }) => dump_log_file(rt, path),
        Err(error) => explain(rt, error),
    }
}

/// Prints what was wrong with the command line, or the help that it asked for.
fn explain<R: Print + AllocGlobal>(rt: &R, error: Error) -> u8 {
    if error.kind() == ErrorKind::OutOfMemory {
        return end_early(rt, ReplayEnd::NoMemory);
    }
    let status = if error.use_stderr() { 2 } else { 0 };
    match rt.print(error) {
        Ok(()) => status,
        Err(_) => 3,
    }
}

fn replay_from<R: Print + AllocGlobal, S: Read + Drop>(rt: &R, mut script: S) -> u8 {
    match BufWriter::new(rt.alloc(), io::writer(rt)) {
        Ok(mut writer) => {
            let end = replay(rt.alloc(), &mut script, &mut writer);
            write_last_line(rt.alloc(), end, &mut writer)
        }
        Err(_) => end_early(rt, ReplayEnd::NoMemory),
    }
}

fn end_early<R: Print + AllocGlobal>(rt: &R, end: ReplayEnd) -> u8 {
    write_last_line(rt.alloc(), end, &mut io::writer(rt))
}
