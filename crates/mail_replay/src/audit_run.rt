//! The program's audit of a file or of the standard input.

ghost use Rattle.std.specs.Prelude.{◌≡◌};
ghost use Rattle.mail_replay.specs.Statuses.{audit_status_of};

use mail_audit::{AuditEnd, audit};
use std::io::{BufWriter, Read, Write};
use std::rt::Files;
use std::{fs, io};

/// The program's status after an audit: 0 if everything is right, 1 if something isn't, otherwise
/// 3.
pub fn status(end: AuditEnd) -> u8
    ensures { result ≡ audit_status_of end }
{
    match end {
        AuditEnd::Yes => 0,
        AuditEnd::No(_) => 1,
        _ => 3,
    }
}

/// Audits a file, and returns the program's status.
pub fn audit_file<R: Files + Print + AllocGlobal>(rt: &R, path: &str) -> u8 {
    match fs::open(rt, path) {
        Ok(file) => audit_from(rt, file),
        Err(_) => report_failure(rt, b"cannot read\n"),
    }
}

/// Audits the octets of a reader, and returns the program's status.
pub fn audit_from<R: Print + AllocGlobal, S: Read + Drop>(rt: &R, mut input: S) -> u8 {
    match BufWriter::new(rt.alloc(), io::writer(rt)) {
        Ok(mut writer) => status(audit(rt.alloc(), &mut input, &mut writer)),
        Err(_) => report_failure(rt, b"no memory\n"),
    }
}

/// Prints why an input isn't read, and returns the status 3.
pub(crate) fn report_failure<R: Print>(rt: &R, why: &[u8]) -> u8 {
    let mut writer = io::writer(rt);
    let _ = writer.write_all(why);
    let _ = writer.flush();
    3
}
