//! The parts of a file of cases, and which code plays them.

use crate::mail_rows::{DamageCount, check_audits, check_logs, check_rows};
use crate::node_costs;
use case_lines::{Words, put_differences};
use std::alloc::{AllocError, Global};
use std::{fs, io};

/// Plays the cases of a file, and puts those whose answer isn't the expected one. A line `=== KIND`
/// precedes the cases of each kind.
pub fn check_file(
    rt: &HostRuntime,
    file: &str,
    tried: &mut DamageCount,
    report: &mut Words,
) -> io::Result<()> {
    let text = fs::read_to_string(rt, file)?;
    if !is_case_file(file, &text) {
        report.put(file);
        report.put(": no cases: its name must end in .case, its first line name its source\n");
    }
    for part in text.as_str().split("\n=== ").skip(1) {
        check_part(rt, file, part, tried, report)?;
    }
    Ok(())
}

/// Whether the file has a name and a first line as files of cases do, and a part.
fn is_case_file(file: &str, text: &str) -> bool {
    file.ends_with(".case") && names_source(file, text) && text.contains("\n=== ")
}

/// Whether the first line names the source that the file's name begins with: `# RFC 9051, section
/// 6.3.1: ` for `9051-6.3.1-word.case`, `# docs/protocol.md: ` for `protocol-word.case`.
fn names_source(file: &str, text: &str) -> bool {
    let name = match file.rsplit_once('/') {
        Some((_, name)) => name,
        None => file,
    };
    let Some((source, rest)) = name.split_once('-') else {
        return false;
    };
    let (section, _) = rest.split_once('-').unwrap_or((rest, ""));
    after(text, &["# RFC ", source, ", section ", section, ": "]).is_some()
        || after(text, &["# docs/", source, ".md: "]).is_some()
}

/// What follows these words, with which a text begins; `None` if it doesn't.
fn after<'a>(text: &'a str, words: &[&str]) -> Option<&'a str> {
    let mut rest = text;
    for word in words {
        rest = rest.strip_prefix(*word)?;
    }
    Some(rest)
}

fn check_part(
    rt: &HostRuntime,
    file: &str,
    part: &str,
    tried: &mut DamageCount,
    report: &mut Words,
) -> io::Result<()> {
    let (kind, cases) = part.split_once('\n').unwrap_or((part, ""));
    let titled = part.strip_prefix(kind).unwrap_or(part);
    match kind {
        "costs" => node_costs::play(rt, cases)?,
        "audits" => check_audits(rt.alloc(), file, titled, report)?,
        "logs" => check_logs(rt.alloc(), file, titled, report)?,
        "rows" => check_rows(rt.alloc(), file, titled, tried, report)?,
        _ => {
            let printed = printed(rt.alloc(), kind, cases)?;
            put_differences(file, cases.as_bytes(), &printed, report);
        }
    }
    Ok(())
}

/// The cases of a kind, each with its answer below it. `Err` if memory runs out.
fn printed(alloc: Global, kind: &str, cases: &str) -> Result<Vec<u8>, AllocError> {
    match kind {
        "texts" => imap_cases::play(alloc, cases),
        "operations" => replica_cases::play(alloc, cases),
        "uids" => replica_cases::play_uids(alloc, cases),
        "views" => imap_cases::play_views(alloc, cases),
        "queries" => imap_cases::play_queries(alloc, cases),
        "idle" => world_cases::play_idle(alloc, cases),
        "worlds" => world_cases::play(alloc, cases),
        _ => b"no such kind\n".to_vec(alloc),
    }
}
