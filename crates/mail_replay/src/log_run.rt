//! The program's dump of a log in a file or on the standard input.

ghost use Rattle.std.specs.Prelude.{◌≡◌};
ghost use Rattle.mail_replay.specs.Statuses.{log_status_of};

use crate::audit_run::report_failure;
use log_dump::{LogDumpEnd, dump_log};
use std::io::{BufWriter, Read};
use std::rt::Files;
use std::{fs, io};

/// The program's status after the dump of a log: 0 if it was written, otherwise 3.
pub fn log_status(end: LogDumpEnd) -> u8
    ensures { result ≡ log_status_of end }
{
    match end {
        LogDumpEnd::Done => 0,
        _ => 3,
    }
}

/// Prints the dump of the log in a file, or why there is none, and returns the program's status.
pub fn dump_log_file<R: Files + Print + AllocGlobal>(rt: &R, path: &str) -> u8 {
    match fs::open(rt, path) {
        Ok(file) => dump_log_from(rt, file),
        Err(_) => report_failure(rt, b"cannot read\n"),
    }
}

/// Prints the dump of the log that a reader has, or why there is none, and returns the program's
/// status.
pub fn dump_log_from<R: Print + AllocGlobal, S: Read + Drop>(rt: &R, mut log: S) -> u8 {
    match BufWriter::new(rt.alloc(), io::writer(rt)) {
        Ok(mut writer) => log_status(dump_log(rt.alloc(), &mut log, &mut writer)),
        Err(_) => report_failure(rt, b"no memory\n"),
    }
}
