//! Times a node's calls, and how their times grow.

mod folders;
mod held;
mod mailbox;
mod memory;
mod node_session;
mod spans;

use std::io;

/// Executes lines, each a kind and numbers: `mailbox 500` issues commands in a mailbox of 500
/// messages, `folders 1000` creates 1,000 folders, `held 1000` delivers operations while 1,000 are
/// held, `memory 10000 1024` has two replicas store 10,000 messages of 1,024 octets. What was done
/// goes to the standard output, and how long calls took, in nanoseconds, to the standard error.
///
/// An error ends it after the output so far: a fault of the output or the clock, memory that runs
/// out, or a line of no known kind or without its numbers.
pub fn play(rt: &HostRuntime, lines: &str) -> io::Result<()> {
    for line in lines.lines() {
        play_line(rt, line)?;
    }
    Ok(())
}

fn play_line(rt: &HostRuntime, line: &str) -> io::Result<()> {
    let (kind, numbers) = line.split_once(' ').unwrap_or((line, ""));
    let (first, second) = numbers.split_once(' ').unwrap_or((numbers, "1"));
    let (Ok(count), Ok(size)) = (first.parse::<u32>(), second.parse::<u32>()) else {
        return Err(io::Error::other("not a line"));
    };
    match kind {
        "mailbox" => mailbox::times(rt, count),
        "folders" => folders::times(rt, count),
        "held" => held::times(rt, count),
        "memory" => memory::fill(rt, count, size),
        _ => Err(io::Error::other("not a line")),
    }
}
