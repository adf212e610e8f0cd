//! The program `mail_tool`, which runs replay scripts, audits their output, and prints the dumps of
//! logs.
//!
//! `mail_tool replay FILE` runs a script: replicas, sessions, and what clients send in them, line
//! by line, and prints transcripts, outcomes and dumps. `mail_tool audit FILE` says whether such
//! output can be right. `mail_tool log FILE` prints the dump of the replica whose log the file is,
//! or after how many octets the log can't be read. Without FILE, they read the standard input.
//!
//! The program makes a single call, of `mail_replay::run`, which also gives its status: 0 if a
//! script was served to its end, an audit answered yes, a log's dump was printed, or help was asked
//! for; 1 if an audit answered no; 2 if the command line is wrong; 3 if a script ended early, an
//! input can't be audited, or a log can't be read. The contracts of `mail_replay`, `mail_audit` and
//! `log_dump` say what a replay writes, what an audit's answer means, and what is printed of a log.
#![tactic(auto)]

use std::process::ExitCode;

fn main(rt: HostRuntime) -> ExitCode {
    ExitCode::from(mail_replay::run(&rt))
}
