//! The command lines of `mail_tool`.

use clap::error::ErrorKind;
use mail_replay::{ProgramRequest, read_words};
use std::alloc::{AllocError, Global};

fn owned(alloc: Global, words: &[&str]) -> Result<Vec<String>, AllocError> {
    let mut owned = Vec::new(alloc);
    for word in words {
        owned.push(String::from_str(alloc, word)?)?;
    }
    Ok(owned)
}

/// Whether these words ask for the replay of this file.
fn asks_for(alloc: Global, words: &[&str], file: Option<&str>) -> bool {
    let Ok(words) = owned(alloc, words) else {
        return false;
    };
    match read_words(alloc, &words) {
        Ok(request) => request == ProgramRequest::Replay { file },
        Err(_) => false,
    }
}

/// Whether these words ask for the audit of this file.
fn asks_for_audit(alloc: Global, words: &[&str], file: Option<&str>) -> bool {
    let Ok(words) = owned(alloc, words) else {
        return false;
    };
    match read_words(alloc, &words) {
        Ok(request) => request == ProgramRequest::Audit { file },
        Err(_) => false,
    }
}

/// Whether these words ask for the dump of the log in this file.
fn asks_for_log(alloc: Global, words: &[&str], file: Option<&str>) -> bool {
    let Ok(words) = owned(alloc, words) else {
        return false;
    };
    match read_words(alloc, &words) {
        Ok(request) => request == ProgramRequest::Log { file },
        Err(_) => false,
    }
}

/// Whether these words are refused for this reason, with status 2.
fn are_refused(alloc: Global, words: &[&str], why: ErrorKind) -> bool {
    let Ok(words) = owned(alloc, words) else {
        return false;
    };
    match read_words(alloc, &words) {
        Ok(_) => false,
        Err(fault) => fault.kind() == why && fault.exit_code() == 2,
    }
}

fn reads_each_line(alloc: Global) -> bool {
    asks_for(alloc, &["mail_tool", "replay"], None)
        && asks_for(alloc, &["mail_tool", "replay", "a file"], Some("a file"))
        && are_refused(alloc, &["mail_tool"], ErrorKind::MissingSubcommand)
        && are_refused(alloc, &["mail_tool", "check"], ErrorKind::InvalidSubcommand)
        && asks_for_audit(alloc, &["mail_tool", "audit"], None)
        && asks_for_audit(alloc, &["mail_tool", "audit", "a file"], Some("a file"))
        && are_refused(
            alloc,
            &["mail_tool", "replay", "a", "b"],
            ErrorKind::UnknownArgument,
        )
}

fn reads_each_log_line(alloc: Global) -> bool {
    asks_for_log(alloc, &["mail_tool", "log"], None)
        && asks_for_log(alloc, &["mail_tool", "log", "a file"], Some("a file"))
        && are_refused(
            alloc,
            &["mail_tool", "log", "a", "b"],
            ErrorKind::UnknownArgument,
        )
}

#[test]
fn reads_the_command_line(rt: HostRuntime) {
    assert!(rt; reads_each_line(rt.alloc()));
    assert!(rt; reads_each_log_line(rt.alloc()));
}
