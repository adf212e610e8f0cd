//! A mail server of linked replicas: each listens at an address of its own, and its clients are
//! shown the changes that clients of the others made.
//!
//! The program has only `main`, so that its status is that of [`server_runtime::run`]: 0 if the
//! server stopped or help was asked for, 1 if it can't run, 2 if the words of its command line are
//! wrong. Its work, and the proofs about it, are in `server_runtime` and the crates below, where
//! tests can call it.
#![tactic(auto)]

use std::process::ExitCode;

fn main(rt: HostRuntime) -> ExitCode {
    ExitCode::from(server_runtime::run(&rt))
}
