//! Messages of a case, and their rows before and after a command.

ghost use Rattle.std.specs.Prelude.{◌≡◌};
ghost use Rattle.mailbox_rows.specs.RowViews.{owned_message};

use crate::parts::flags_named;
use crate::queries::fields::octets;
use case_lines::{Trouble, long_number, number, parts_around};
use imap_types::{DATE_TIME_OCTETS, DateTime, Escape, Flags, Text, Version, Versions};
use mailbox_rows::{OwnedRow, Rows, VersionsCow};
use std::alloc::Global;
use tags_clocks::{OpId, ReplicaId};

/// The part of a message that a command may change.
#[derive(Drop)]
pub struct MessageState {
    modseq: u64,
    /// Its one version, under an arbitrary id.
    versions: [Version; 1],
}

/// A message of the mailbox.
#[derive(Drop)]
pub struct Message {
    pub uid: u32,
    before: MessageState,
    /// Its state after a command, if the command changes it.
    after: Option<MessageState>,
    date: DateTime,
    text: Option<Text>,
}

impl Message {
    /// A message that no command changes.
    pub fn new(uid: u32, before: MessageState, date: DateTime, text: Option<Text>) -> Message {
        Message {
            uid,
            before,
            after: None,
            date,
            text,
        }
    }

    /// `MODSEQ FLAGS`: sets the message's state after a command.
    pub fn set_after(&mut self, alloc: Global, text: &str) -> Result<(), Trouble> {
        match state_in(alloc, text) {
            Ok(state) => {
                self.after = Some(state);
                Ok(())
            }
            Err(trouble) => Err(trouble),
        }
    }

    fn state_at(&self, is_after: bool) -> &MessageState {
        match &self.after {
            Some(after) => { if is_after { after } else { &self.before } }
            None => &self.before,
        }
    }

    /// Its row after the command, or before it.
    fn row(&self, is_after: bool) -> OwnedRow<'_>
        ensures { (owned_message result).uid ≡ self.now.uid }
    {
        let state = self.state_at(is_after);
        OwnedRow {
            uid: self.uid,
            modseq: state.modseq,
            origin: state.versions[0].id,
            versions: VersionsCow::Borrowed(Versions::new(&state.versions)),
            date: Some(&self.date),
            text: self.text.as_ref(),
        }
    }
}

/// `UID MODSEQ FLAGS "DATE" TEXT`.
pub fn message_in(alloc: Global, text: &str) -> Result<Message, Trouble> {
    let (uid, rest) = parts_around(text, " ");
    let (state, rest) = parts_around(rest, " \"");
    let (date, text) = parts_around(rest, "\" ");
    let uid = number(uid)?;
    let date = date_time(date.as_bytes())?;
    let text = text_in(alloc, text)?;
    match state_in(alloc, state) {
        Ok(before) => Ok(Message::new(uid, before, date, Some(text))),
        Err(trouble) => Err(trouble),
    }
}

fn text_in(alloc: Global, text: &str) -> Result<Text, Trouble> {
    let octets = octets(alloc, Escape::Text, text)?;
    Ok(Text::new(octets.into_vec())?)
}

/// `MODSEQ FLAGS`.
fn state_in(alloc: Global, text: &str) -> Result<MessageState, Trouble> {
    let (modseq, flags) = parts_around(text, " ");
    let modseq = long_number(modseq)?;
    match flags_in(alloc, flags) {
        Ok(flags) => state_with(modseq, flags),
        Err(trouble) => Err(trouble),
    }
}

/// The changeable part of a message with these flags.
pub fn state_with(modseq: u64, flags: Flags) -> Result<MessageState, Trouble> {
    match some_id() {
        Some(id) => Ok(MessageState {
            modseq,
            versions: [Version { id, flags }],
        }),
        None => {
            drop(flags);
            Err(Trouble::NotACase)
        }
    }
}

fn some_id() -> Option<OpId> {
    OpId::new(ReplicaId::new(1)?, 1)
}

/// `()`, or flags with spaces between them in parentheses.
fn flags_in(alloc: Global, text: &str) -> Result<Flags, Trouble> {
    match within(text) {
        Some(names) => Ok(flags_named(alloc, names)?),
        None => Err(Trouble::NotACase),
    }
}

/// The text between parentheses.
fn within(text: &str) -> Option<&str> {
    text.strip_prefix('(')?.strip_suffix(')')
}

/// The date-time whose text between quotes these octets are.
pub fn date_time(octets: &[u8]) -> Result<DateTime, Trouble> {
    if octets.len() != DATE_TIME_OCTETS - 2 {
        return Err(Trouble::NotACase);
    }
    let mut quoted = [b'"'; 28];
    quoted[1..27].copy_from_slice(octets);
    DateTime::new(quoted).ok_or(Trouble::NotACase)
}

/// The rows of these messages, after a command or before it. `Err` if the UIDs don't ascend, or if
/// memory runs out.
pub fn rows_of<'a>(
    alloc: Global,
    messages: &'a [Message],
    is_after: bool,
) -> Result<Rows<'a>, Trouble> {
    let mut rows = Vec::new(alloc);
    let mut low = 1;
    for message in messages {
        if u64::from(message.uid) < low {
            drop(rows);
            return Err(Trouble::NotACase);
        }
        if rows.reserve(1).is_err() {
            drop(rows);
            return Err(Trouble::NoMemory);
        }
        low = u64::from(message.uid) + 1;
        rows.push_reserved(message.row(is_after));
    }
    Ok(Rows::from_ascending(rows))
}
