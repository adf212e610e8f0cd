//! Random commands.

use case_lines::Chance;
use std::alloc::{AllocError, Global};

/// The effect of a command on its session's mailbox.
#[derive(Clone, Copy)]
pub enum MailboxEffect {
    /// It selects a mailbox.
    Selecting,
    /// It leaves the selected mailbox.
    Leaving,
    /// Neither.
    Other,
}

/// A command as a client sends it.
#[derive(Drop)]
pub struct ClientCommand {
    /// The command, with its tag and line end.
    pub text: String,
    /// Its effect on the session's mailbox.
    pub effect: MailboxEffect,
}

/// A random command. If no mailbox is selected, every second one selects a mailbox.
pub fn command(
    alloc: Global,
    chance: &mut Chance,
    is_selected: bool,
) -> Result<ClientCommand, AllocError> {
    if !is_selected && chance.is_one_in(2) {
        return select_command(alloc, chance);
    }
    match chance.below(20) {
        0 => select_command(alloc, chance),
        1 => unselect_command(alloc, chance),
        2 | 3 => other(store(alloc, chance)?),
        4 | 5 | 6 => other(mailbox_command(alloc, chance)?),
        7 | 8 | 9 | 10 => other(append(alloc, chance)?),
        11 | 12 | 13 => other(store(alloc, chance)?),
        14 | 15 => other(move_command(alloc, chance)?),
        16 | 17 => other(query_command(alloc, chance)?),
        _ => other(plain_command(alloc, chance)?),
    }
}

fn other(text: String) -> Result<ClientCommand, AllocError> {
    Ok(ClientCommand {
        text,
        effect: MailboxEffect::Other,
    })
}

fn select_command(alloc: Global, chance: &mut Chance) -> Result<ClientCommand, AllocError> {
    let name = name(chance);
    let word = if chance.is_one_in(6) {
        "EXAMINE"
    } else {
        "SELECT"
    };
    Ok(ClientCommand {
        text: format!(in alloc; "a {word} {name}\r\n")?,
        effect: MailboxEffect::Selecting,
    })
}

fn unselect_command(alloc: Global, chance: &mut Chance) -> Result<ClientCommand, AllocError> {
    let word = match chance.below(8) {
        0 => "LOGOUT",
        1 | 2 | 3 => "UNSELECT",
        _ => "CLOSE",
    };
    Ok(ClientCommand {
        text: format!(in alloc; "a {word}\r\n")?,
        effect: MailboxEffect::Leaving,
    })
}

/// Mostly INBOX, so that sessions and replicas meet there.
fn name(chance: &mut Chance) -> &'static str {
    match chance.below(6) {
        0 => "work",
        1 => "work/old",
        2 => "other",
        _ => "INBOX",
    }
}

fn mailbox_command(alloc: Global, chance: &mut Chance) -> Result<String, AllocError> {
    let name = name(chance);
    let word = match chance.below(8) {
        0 => "DELETE",
        1 => "SUBSCRIBE",
        2 => "UNSUBSCRIBE",
        _ => "CREATE",
    };
    format!(in alloc; "a {word} {name}\r\n")
}

fn append(alloc: Global, chance: &mut Chance) -> Result<String, AllocError> {
    let name = name(chance);
    let flags = flags(chance);
    format!(in alloc; "a APPEND {name} ({flags}) {{1+}}\r\nx\r\n")
}

fn store(alloc: Global, chance: &mut Chance) -> Result<String, AllocError> {
    let form = if chance.is_one_in(2) {
        "UID STORE"
    } else {
        "STORE"
    };
    let set = set(chance);
    let sign = sign(chance);
    let silent = if chance.is_one_in(3) { ".SILENT" } else { "" };
    let flags = flags(chance);
    format!(in alloc; "a {form} {set} {sign}FLAGS{silent} ({flags})\r\n")
}

fn sign(chance: &mut Chance) -> &'static str {
    match chance.below(4) {
        0 => "",
        1 => "-",
        _ => "+",
    }
}

fn set(chance: &mut Chance) -> &'static str {
    match chance.below(5) {
        0 => "1",
        1 => "*",
        2 => "2:3",
        3 => "1,3",
        _ => "1:*",
    }
}

fn flags(chance: &mut Chance) -> &'static str {
    match chance.below(6) {
        0 => "",
        1 | 2 => "\\Deleted",
        3 => "\\Seen",
        4 => "\\Flagged key",
        _ => "\\Answered \\Draft",
    }
}

fn move_command(alloc: Global, chance: &mut Chance) -> Result<String, AllocError> {
    let set = set(chance);
    let name = name(chance);
    match chance.below(6) {
        0 => format!(in alloc; "a COPY {set} {name}\r\n"),
        1 => format!(in alloc; "a UID COPY {set} {name}\r\n"),
        2 => format!(in alloc; "a MOVE {set} {name}\r\n"),
        3 => format!(in alloc; "a UID EXPUNGE {set}\r\n"),
        _ => format!(in alloc; "a EXPUNGE\r\n"),
    }
}

fn query_command(alloc: Global, chance: &mut Chance) -> Result<String, AllocError> {
    let set = set(chance);
    match chance.below(6) {
        0 => format!(in alloc; "a FETCH {set} (UID BODY[])\r\n"),
        1 => format!(in alloc; "a UID FETCH {set} (FLAGS MODSEQ)\r\n"),
        2 => format!(in alloc; "a SEARCH RETURN (ALL COUNT) UNSEEN\r\n"),
        3 => format!(in alloc; "a UID SEARCH {set} DELETED\r\n"),
        4 => format!(in alloc; "a STATUS INBOX (MESSAGES UIDNEXT HIGHESTMODSEQ)\r\n"),
        _ => format!(in alloc; "a LIST \"\" * RETURN (SUBSCRIBED)\r\n"),
    }
}

fn plain_command(alloc: Global, chance: &mut Chance) -> Result<String, AllocError> {
    let word = match chance.below(9) {
        0 => "CAPABILITY",
        1 => "NAMESPACE",
        2 => "ENABLE CONDSTORE",
        3 => "LOGIN u p",
        4 | 5 => "NOOP",
        _ => "IDLE",
    };
    format!(in alloc; "a {word}\r\n")
}
