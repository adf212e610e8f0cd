//! The mailbox that commands read.

use crate::queries::fields::{Gathers, add, gathered, set};
use crate::queries::messages::{Message, message_in};
use case_lines::{Trouble, long_number, meaning, number, parts_around};
use imap_query::{MailboxCounters, ViewedMessage};
use std::alloc::Global;

/// The mailbox that commands read, and how a session has selected it.
#[derive(Drop)]
pub struct Mailbox {
    /// Its messages, by ascending UID.
    pub messages: Vec<Message>,
    /// The messages that the session was shown.
    pub view: Vec<ViewedMessage>,
    pub counters: MailboxCounters,
    pub is_writable: bool,
    /// Whether mod-sequences are sent with flags.
    pub condstore: bool,
}

/// How mailboxes are selected: whether they are writable, and whether mod-sequences are sent with
/// flags.
const MODES: &[(&str, (bool, bool))] = &[
    ("read-write", (true, false)),
    ("read-write condstore", (true, true)),
    ("read-only", (false, false)),
    ("read-only condstore", (false, true)),
];

impl Mailbox {
    /// A read-write mailbox without messages.
    pub fn new(alloc: Global) -> Mailbox {
        Mailbox {
            messages: Vec::new(alloc),
            view: Vec::new(alloc),
            counters: MailboxCounters {
                uidvalidity: 1,
                uidnext: 1,
                highest_modseq: 1,
            },
            is_writable: true,
            condstore: false,
        }
    }

    /// Sets what a line names.
    pub fn set(&mut self, alloc: Global, kind: &str, rest: &str) -> Result<(), Trouble> {
        match kind {
            "message" => add(&mut self.messages, message_in(alloc, rest)),
            "after" => self.set_after(alloc, rest),
            "view" => set(&mut self.view, gathered(alloc, Vec::new(alloc), ',', rest)),
            "marks" => set(&mut self.counters, counters(rest)),
            _ => self.set_mode(rest),
        }
    }

    /// `UID MODSEQ FLAGS`: sets the state of the message with this UID after a command.
    fn set_after(&mut self, alloc: Global, text: &str) -> Result<(), Trouble> {
        let (uid, state) = parts_around(text, " ");
        let uid = number(uid)?;
        for message in &mut self.messages {
            if message.uid == uid {
                return message.set_after(alloc, state);
            }
        }
        Err(Trouble::NotACase)
    }

    /// `read-write` or `read-only`, then `condstore` or nothing.
    fn set_mode(&mut self, text: &str) -> Result<(), Trouble> {
        match meaning(MODES, text) {
            Some((is_writable, condstore)) => {
                self.is_writable = is_writable;
                self.condstore = condstore;
                Ok(())
            }
            None => Err(Trouble::NotACase),
        }
    }
}

/// `UIDVALIDITY UIDNEXT HIGHESTMODSEQ`.
fn counters(text: &str) -> Result<MailboxCounters, Trouble> {
    let (uidvalidity, rest) = parts_around(text, " ");
    let (uidnext, highest_modseq) = parts_around(rest, " ");
    Ok(MailboxCounters {
        uidvalidity: number(uidvalidity)?,
        uidnext: number(uidnext)?,
        highest_modseq: long_number(highest_modseq)?,
    })
}

/// UIDs of shown messages, which are numbered from 1.
impl Gathers for Vec<ViewedMessage> {
    fn take(&mut self, _alloc: Global, uid: &str) -> Result<(), Trouble> {
        let shown = ViewedMessage {
            number: u32::try_from(self.len())
                .unwrap_or(u32::MAX)
                .saturating_add(1),
            uid: number(uid)?,
        };
        self.push(shown)?;
        Ok(())
    }
}
