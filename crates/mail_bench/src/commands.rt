//! The commands that the program sends, as texts (RFC 9051, sections 6 and 9).

ghost use Rattle.std.specs.Prelude.{◌≡◌, ◌++◌, IfOk, OnOk, vec_len};
ghost use Rattle.std.specs.List.{flat_map};
ghost use Rattle.mail_bench.specs.Commands.{announced_text, append_text, asked_text, command_text};
ghost use Rattle.mail_bench.specs.Commands.{counted_text, escaped, line_text, login_text};
ghost use Rattle.mail_bench.specs.Commands.{mailbox_verb_text, named_text, plain_text, quoted};
ghost use Rattle.mail_bench.specs.Commands.{tag_text, verb_text};

use std::alloc::{AllocError, Global};
use text_fields::push_number;

/// The fields of each message, and the empty line after them.
const FIELDS: &[u8] =
    b"From: bench@example.org\r\nTo: bench@example.org\r\nSubject: one of many\r\n\r\n";

/// A line of a message's text.
const TEXT: &[u8] = b"A line of sixty-four octets, which occurs in a message of bench.\r\n";

/// A command with no argument of its own.
#[derive(Clone, Copy)]
pub enum PlainCommand {
    /// NOOP.
    Noop,
    /// FETCH of the flags of all messages.
    FetchAllFlags,
    /// SEARCH UNSEEN.
    SearchUnseen,
    /// SEARCH for a subject.
    SearchSubject,
    /// IDLE.
    Idle,
    /// LOGOUT.
    Logout,
}

/// A command on one message, by its number in the selected mailbox.
#[derive(Clone, Copy)]
pub enum MessageCommand {
    /// FETCH of the message's whole text.
    FetchBody,
    /// STORE that sets `\Flagged`.
    Flag,
    /// STORE that clears `\Flagged`.
    Unflag,
}

/// A command on a mailbox, by its name.
#[derive(Clone, Copy)]
pub enum MailboxCommand {
    /// SELECT.
    Select,
    /// CREATE.
    Create,
}

/// A command. The texts in it are of printable ASCII.
#[derive(Clone, Copy)]
pub enum Command<'a> {
    /// A command with no argument of its own.
    Plain(PlainCommand),
    /// A command on a message.
    Message {
        /// Which command.
        ask: MessageCommand,
        /// The message's number, from 1.
        number: u32,
    },
    /// A command on a mailbox.
    Mailbox {
        /// Which command.
        ask: MailboxCommand,
        /// The mailbox's name.
        name: &'a str,
    },
    /// LOGIN.
    Login {
        /// The user.
        user: &'a str,
        /// The password.
        pass: &'a str,
    },
    /// APPEND, up to the announcement of its message.
    Append {
        /// The mailbox.
        name: &'a str,
        /// The number of octets in the message.
        octets: usize,
    },
}

/// Appends a command's line, with this number in its tag; `Err` if memory runs out.
pub fn push_line(command: Command<'_>, number: u64, out: &mut Vec<u8>) -> Result<(), AllocError>
    ensures { OnOk result (out.new.items ≡ out.old.items ++ line_text command.entry number) }
{
    push_tag(number, out)?;
    push_command(command, out)?;
    out.extend_from_slice(b"\r\n")
}

/// Appends a command's tag and the space after it.
fn push_tag(number: u64, out: &mut Vec<u8>) -> Result<(), AllocError>
    ensures { OnOk result (out.new.items ≡ out.old.items ++ tag_text number) }
{
    out.extend_from_slice(b"b")?;
    push_number(number, out)?;
    out.extend_from_slice(b" ")
}

fn push_command(command: Command<'_>, out: &mut Vec<u8>) -> Result<(), AllocError>
    ensures { OnOk result (out.new.items ≡ out.old.items ++ command_text command.entry) }
{
    match command {
        Command::Plain(ask) => out.extend_from_slice(plain(ask)),
        Command::Message { ask, number } => push_message(ask, number, out),
        Command::Mailbox { ask, name } => push_mailbox(ask, name, out),
        Command::Login { user, pass } => push_login(user, pass, out),
        Command::Append { name, octets } => push_append(name, octets, out),
    }
}

/// The text of a command with no argument of its own.
fn plain(ask: PlainCommand) -> &'static [u8]
    ensures { result.now ≡ plain_text ask }
{
    match ask {
        PlainCommand::Noop => b"NOOP",
        PlainCommand::FetchAllFlags => b"FETCH 1:* (FLAGS)",
        PlainCommand::SearchUnseen => b"SEARCH UNSEEN",
        PlainCommand::SearchSubject => b"SEARCH SUBJECT \"x\"",
        PlainCommand::Idle => b"IDLE",
        PlainCommand::Logout => b"LOGOUT",
    }
}

fn push_message(ask: MessageCommand, number: u32, out: &mut Vec<u8>) -> Result<(), AllocError>
    ensures { OnOk result (out.new.items ≡ out.old.items ++ counted_text ask number) }
{
    out.extend_from_slice(verb(ask))?;
    push_number(u64::from(number), out)?;
    out.extend_from_slice(message_verb_end(ask))
}

/// The text before a message's number.
fn verb(ask: MessageCommand) -> &'static [u8]
    ensures { result.now ≡ verb_text ask }
{
    match ask {
        MessageCommand::FetchBody => b"FETCH ",
        MessageCommand::Flag | MessageCommand::Unflag => b"STORE ",
    }
}

/// The text after a message's number.
fn message_verb_end(ask: MessageCommand) -> &'static [u8]
    ensures { result.now ≡ asked_text ask }
{
    match ask {
        MessageCommand::FetchBody => b" (BODY.PEEK[])",
        MessageCommand::Flag => b" +FLAGS (\\Flagged)",
        MessageCommand::Unflag => b" -FLAGS (\\Flagged)",
    }
}

fn push_mailbox(ask: MailboxCommand, name: &str, out: &mut Vec<u8>) -> Result<(), AllocError>
    ensures { OnOk result (out.new.items ≡ out.old.items ++ named_text ask name.now) }
{
    out.extend_from_slice(mailbox_verb(ask))?;
    push_quoted(name, out)
}

/// The text before a mailbox's name.
fn mailbox_verb(ask: MailboxCommand) -> &'static [u8]
    ensures { result.now ≡ mailbox_verb_text ask }
{
    match ask {
        MailboxCommand::Select => b"SELECT ",
        MailboxCommand::Create => b"CREATE ",
    }
}

fn push_login(user: &str, pass: &str, out: &mut Vec<u8>) -> Result<(), AllocError>
    ensures { OnOk result (out.new.items ≡ out.old.items ++ login_text user.now pass.now) }
{
    out.extend_from_slice(b"LOGIN ")?;
    push_quoted(user, out)?;
    out.extend_from_slice(b" ")?;
    push_quoted(pass, out)
}

fn push_append(name: &str, octets: usize, out: &mut Vec<u8>) -> Result<(), AllocError>
    ensures { OnOk result (out.new.items ≡ out.old.items ++ append_text name.now octets) }
{
    out.extend_from_slice(b"APPEND ")?;
    push_quoted(name, out)?;
    push_announcement(octets, out)
}

/// Appends the announcement of a synchronizing literal (RFC 9051, section 4.3).
fn push_announcement(octets: usize, out: &mut Vec<u8>) -> Result<(), AllocError>
    ensures { OnOk result (out.new.items ≡ out.old.items ++ announced_text octets) }
{
    out.extend_from_slice(b" {")?;
    push_number(octets as u64, out)?;
    out.extend_from_slice(b"}")
}

/// Appends a text as a quoted string.
fn push_quoted(text: &str, out: &mut Vec<u8>) -> Result<(), AllocError>
    ensures { OnOk result (out.new.items ≡ out.old.items ++ quoted text.now) }
{
    out.extend_from_slice(b"\"")?;
    push_escaped(text.as_bytes(), out)?;
    out.extend_from_slice(b"\"")
}

/// Appends octets with `\` before each `"` and `\`.
fn push_escaped(octets: &[u8], out: &mut Vec<u8>) -> Result<(), AllocError>
    ensures { OnOk result (out.new.items ≡ out.old.items ++ flat_map escaped octets.now) }
{
    for octet in octets {
        push_octet(*octet, out)?;
    }
    Ok(())
}

fn push_octet(octet: u8, out: &mut Vec<u8>) -> Result<(), AllocError>
    ensures { OnOk result (out.new.items ≡ out.old.items ++ escaped octet) }
{
    if octet == b'"' || octet == b'\\' {
        return out.extend_from_slice(&[b'\\', octet]);
    }
    out.extend_from_slice(&[octet])
}

/// A message of `octets` octets: its fields, an empty line, and lines of text, cut at the end.
/// `Err` if memory runs out.
pub fn message(alloc: Global, octets: usize) -> Result<Vec<u8>, AllocError>
    ensures { IfOk result (λ message. vec_len message ≡ octets) }
{
    let mut message = Vec::with_capacity(alloc, octets)?;
    for at in 0..octets {
        message.push(octet_at(at))?;
    }
    Ok(message)
}

/// The octet at a place of each message.
fn octet_at(at: usize) -> u8 {
    match FIELDS.get(at) {
        Some(octet) => *octet,
        None => TEXT[at % TEXT.len()],
    }
}
