//! The program's command line.

use clap::{Arg, Command, Error};
use std::alloc::{AllocError, Global};

/// What the command line asks for.
#[derive(Clone, Copy, Debug, PartialEq, Eq)]
pub enum ProgramRequest<'a> {
    /// Replay the script in this file, or on the standard input.
    Replay { file: Option<&'a str> },
    /// Audit the output in this file, or on the standard input.
    Audit { file: Option<&'a str> },
    /// Dump the log in this file, or on the standard input.
    Log { file: Option<&'a str> },
}

/// Reads the words of a command line, which begin with the program's name.
pub fn read_words<'a>(alloc: Global, words: &'a [String]) -> Result<ProgramRequest<'a>, Error> {
    let matches = command_words(alloc)?.try_get_matches_from(words)?;
    Ok(match matches.subcommand() {
        Some(("audit", audit)) => ProgramRequest::Audit {
            file: audit.get_str("FILE"),
        },
        Some(("log", log)) => ProgramRequest::Log {
            file: log.get_str("FILE"),
        },
        Some((_, replay)) => ProgramRequest::Replay {
            file: replay.get_str("FILE"),
        },
        None => ProgramRequest::Replay { file: None },
    })
}

/// The words that the program knows; `Err` if memory runs out.
fn command_words<'a>(alloc: Global) -> Result<Command<'a>, AllocError> {
    let file = Arg::new(alloc, "FILE").help("The script; the standard input without it");
    let replay = Command::new(alloc, "replay")
        .about("Run a replay script")
        .arg(file)?;
    let input = Arg::new(alloc, "FILE").help(
        "What a script printed; the standard input without it",
    );
    let audit = Command::new(alloc, "audit")
        .about("Audit what a replay printed")
        .arg(input)?;
    let path = Arg::new(alloc, "FILE").help("The log; the standard input without it");
    let log = Command::new(alloc, "log")
        .about("Print the dump of a replica's log")
        .arg(path)?;
    Command::new(alloc, "mail_tool")
        .subcommand_required(true)
        .subcommand(replay)?
        .subcommand(audit)?
        .subcommand(log)
}
