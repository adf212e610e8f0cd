//! What sessions do while another one idles.

use crate::idle::scene::{client_after_select, give_text};
use case_lines::{Chance, Trouble};
use imap_node::{Node, SessionNo};
use std::alloc::{AllocError, Global};

/// A session creates the mailbox if it doesn't exist; otherwise it selects the mailbox and issues a
/// random command there.
pub fn random_command(
    alloc: Global,
    chance: &mut Chance,
    node: &mut Node,
    session: SessionNo,
    name: &str,
) -> Result<(), Trouble> {
    let count = message_count(alloc, node, session, name)?;
    let text = match count {
        None => format!(in alloc; "a CREATE {name}\r\n"),
        Some(count) => work(alloc, chance, name, count),
    };
    give_text(alloc, node, session, text?)
}

/// How many messages the mailbox has; `None` if it doesn't exist.
fn message_count(
    alloc: Global,
    node: &mut Node,
    session: SessionNo,
    name: &str,
) -> Result<Option<u32>, Trouble> {
    match client_after_select(alloc, node, session, name)? {
        Some(client) => {
            let count = client.count();
            drop(client);
            Ok(Some(u32::try_from(count).unwrap_or(u32::MAX)))
        }
        None => Ok(None),
    }
}

/// A random command in the mailbox, which has `count` messages.
fn work(alloc: Global, chance: &mut Chance, name: &str, count: u32) -> Result<String, AllocError> {
    let first = number(chance, count);
    match chance.below(14) {
        0 | 1 | 2 => append(alloc, chance, name),
        3 | 4 | 5 | 6 => store(alloc, chance, first),
        7 => format!(in alloc; "a EXPUNGE\r\n"),
        8 => format!(in alloc; "a UID EXPUNGE {first}:*\r\n"),
        9 => format!(in alloc; "a COPY {first} {name}\r\n"),
        10 => format!(in alloc; "a MOVE {first} other\r\n"),
        11 => format!(in alloc; "a MOVE {first} {name}\r\n"),
        12 => format!(in alloc; "a FETCH {first} BODY[]\r\n"),
        _ => leave(alloc, chance, name),
    }
}

/// The number of one of `count` messages; 1 if there are none.
fn number(chance: &mut Chance, count: u32) -> u32 {
    if count == 0 {
        return 1;
    }
    chance.below(count).saturating_add(1)
}

/// An APPEND of one octet with random flags.
pub fn append(alloc: Global, chance: &mut Chance, name: &str) -> Result<String, AllocError> {
    let flags = flags(chance);
    format!(in alloc; "a APPEND {name} ({flags}) {{1+}}\r\nx\r\n")
}

fn store(alloc: Global, chance: &mut Chance, first: u32) -> Result<String, AllocError> {
    let sign = sign(chance);
    let flags = flags(chance);
    format!(in alloc; "a STORE {first}:* {sign}FLAGS ({flags})\r\n")
}

fn sign(chance: &mut Chance) -> &'static str {
    match chance.below(3) {
        0 => "",
        1 => "+",
        _ => "-",
    }
}

fn flags(chance: &mut Chance) -> &'static str {
    match chance.below(6) {
        0 => "",
        1 | 2 => "\\Deleted",
        3 => "\\Seen",
        4 => "\\Flagged key",
        _ => "\\Answered \\Deleted",
    }
}

/// Closes the mailbox, which removes its deleted messages, or deletes the mailbox.
fn leave(alloc: Global, chance: &mut Chance, name: &str) -> Result<String, AllocError> {
    if chance.is_one_in(2) {
        format!(in alloc; "a DELETE {name}\r\n")
    } else {
        format!(in alloc; "a CLOSE\r\n")
    }
}
