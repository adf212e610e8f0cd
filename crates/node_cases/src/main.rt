//! Plays the cases of the folder `data`, and prints each whose answer isn't the expected one.
//!
//! `node_cases [--every N] [PATH ..]`: a PATH is a file of cases or a folder that has such files.
//! Without one, the folders in `data` are taken, or in the current folder if it has no folder
//! `data`; each of them is a subject. For each it prints the differences, and whether all is as
//! expected. Of the octets of all scripts, and of their output, each Nth is damaged, or each 128th.
//! docs/cases.md says what cases are.
//!
//! The cases themselves are played by the libraries `imap_cases`, `replica_cases` and
//! `world_cases`, and by two modules of this program: `mail_rows` for scripts, inputs of the audit
//! and logs, and `node_costs` for the time that a node's calls take.
#![tactic(auto)]

mod case_files;
mod case_parts;
mod mail_rows;
mod node_costs;

use crate::case_files::{files_of, is_folder, names_in, path_in};
use crate::case_parts::check_file;
use crate::mail_rows::DamageCount;
use case_lines::Words;
use std::alloc::AllocError;
use std::io::Write;
use std::{env, io};

/// Each place of scripts and transcripts whose number this divides is damaged, if no other number
/// is given.
const EVERY: u64 = 128;

/// The fewest scripts that must be damaged in all subjects, and the fewest transcripts.
const LEAST_DAMAGED: u64 = 2_000;

fn main(rt: HostRuntime) -> io::Result<()> {
    let words: Vec<String> = env::args(&rt)?.collect(rt.alloc())?;
    let (every, paths) = request(&words);
    let mut tried = DamageCount::near_edges(every.unwrap_or(EVERY));
    if paths.is_empty() {
        let folder = if is_folder(&rt, "data") { "data" } else { "." };
        let subjects = names_in(&rt, folder)?;
        check_all(&rt, folder, &subjects, &mut tried)?;
    } else {
        check_all(&rt, ".", paths, &mut tried)?;
    }
    print_damage(&rt, every, &tried)
}

/// The number after `--every`, if there is one, and the paths.
fn request(words: &[String]) -> (Option<u64>, &[String]) {
    let paths = words.get(1..).unwrap_or(&[]);
    match (paths.first(), paths.get(1)) {
        (Some(option), Some(number)) if option.as_str() == "--every" => {
            (number.parse::<u64>().ok(), paths.get(2..).unwrap_or(&[]))
        }
        _ => (None, paths),
    }
}

/// Plays the cases of each of these files or folders in a folder.
fn check_all(
    rt: &HostRuntime,
    folder: &str,
    names: &[String],
    tried: &mut DamageCount,
) -> io::Result<()> {
    for name in names {
        check(rt, folder, name, tried)?;
    }
    Ok(())
}

/// Plays the cases of a file or folder, and prints the differences, and whether there are none.
fn check(rt: &HostRuntime, folder: &str, name: &str, tried: &mut DamageCount) -> io::Result<()> {
    let path = path_in(rt, folder, name)?;
    let report = report_of(rt, &path, tried)?;
    if report.is_empty() {
        println!(*rt; "{name}: as expected")
    } else {
        io::writer(rt).write_all(&report)?;
        println!(*rt; "{name}: not as expected")
    }
}

/// The differences in the cases of a file or folder.
fn report_of(rt: &HostRuntime, path: &str, tried: &mut DamageCount) -> io::Result<Vec<u8>> {
    let mut report = Words::new(rt.alloc());
    let files = files_of(rt, path)?;
    for file in &files {
        check_file(rt, file, tried, &mut report)?;
    }
    match report.finish() {
        Ok(report) => Ok(report),
        Err(AllocError) => Err(io::Error::from(AllocError)),
    }
}

/// Prints whether enough scripts and transcripts were damaged; if a number was given after
/// `--every`, how many.
fn print_damage(rt: &HostRuntime, every: Option<u64>, tried: &DamageCount) -> io::Result<()> {
    let (replayed, audited) = tried.counts();
    if every.is_none() && replayed >= LEAST_DAMAGED && audited >= LEAST_DAMAGED {
        println!(*rt; "damaged: at least {LEAST_DAMAGED} scripts and as many transcripts")
    } else {
        println!(*rt; "damaged: {replayed} scripts and {audited} transcripts")
    }
}
