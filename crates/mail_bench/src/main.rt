//! The program `mail_bench`, which measures an IMAP server over connections of its own: how many
//! commands it answers, and how long they take (RFC 9051, RFC 3501).
//!
//! The command line names the server, a login, a mailbox and a workload, and how many messages,
//! connections and seconds to use. The mailbox is created and filled if need be. Then each
//! connection repeats the workload in a thread of its own. The program prints one line for each
//! measurement, with the rate and the ranks of the times.
//!
//! The contracts promise that answers are read, commands spelled, and times ranked as specs/
//! defines them: whatever octets a literal has, none is read as part of an answer's line
//! (`literals_are_passed`), so no message can be taken for an answer. The meaning of the command
//! line is that of clap's matches. Connections, threads and the output are safe, and were tested by
//! hand.
#![tactic(auto)]

mod answers;
mod bench_output;
mod client;
mod commands;
mod fault;
mod idle_state;
mod idling;
mod laws;
mod measurement;
mod preparation;
mod program;
mod replies;
mod report;
mod settings;
mod times;
mod work;
mod workload;

use std::process::ExitCode;

fn main(rt: HostRuntime) -> ExitCode {
    ExitCode::from(program::run(&rt))
}
