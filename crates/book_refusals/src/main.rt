//! The program `book_refusals`, which plays the script on its standard input as `mail_tool replay`
//! does, but with books (`replica_lock::Book`) in place of nodes: each input of a session, delivery
//! and drain is an event of a book, each join makes a book, and each restart restores one. It
//! prints what `mail_tool replay` prints, and ends with the same status.
//!
//! It is made to be run with one allocation refused, by `tools/refuse_memory --book`. An event for
//! which memory ran out is given to its book once more, and the output must then be the same. What
//! needs memory besides is done once more too. Only the close of a session isn't given again, since
//! it takes no memory: if it is refused, `a close was refused` is printed.
//!
//! A refused event must leave its book as it was. So the text of all that the book has then is
//! compared with the text of what it had before the event, which a second play of the script
//! makes when it comes to the event, with all memory. If they differ, `changed by a refused event`
//! is printed at the end.
#![tactic(auto)]

mod answers;
mod deliveries;
mod event_source;
mod event_watch;
mod exchanges;
mod framing;
mod given_events;
mod joins;
mod lines;
mod play;
mod play_fault;
mod play_state;
mod program;
mod restarts;
mod session_lines;
mod state_text;
mod talk;

use std::process::ExitCode;

fn main(rt: HostRuntime) -> ExitCode {
    ExitCode::from(program::run(&rt))
}
