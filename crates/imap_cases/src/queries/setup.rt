//! The subjects of queries, and the lines that set them.

use crate::queries::fields::{gathered, octets, set};
use crate::queries::mailbox::Mailbox;
use case_lines::Trouble;
use imap_types::{Escape, Name, Octets};
use std::alloc::Global;

/// The subjects of queries: a text, a mailbox, and the names of folders and subscriptions.
#[derive(Drop)]
pub struct Setup {
    pub text: Octets,
    pub mailbox: Mailbox,
    pub folders: Vec<Name>,
    pub subscriptions: Vec<Name>,
}

/// The first words of the lines that set a subject.
const SETTINGS: &[&str] = &[
    "text",
    "mailbox",
    "folders",
    "subscriptions",
    "message",
    "after",
    "view",
    "marks",
    "mode",
];

/// Whether a line with this first word sets a subject.
pub fn is_setting(kind: &str) -> bool {
    for setting in SETTINGS {
        if *setting == kind {
            return true;
        }
    }
    false
}

impl Setup {
    /// An empty text, an empty mailbox and no names.
    pub fn new(alloc: Global) -> Setup {
        Setup {
            text: Octets::new(Vec::new(alloc)),
            mailbox: Mailbox::new(alloc),
            folders: Vec::new(alloc),
            subscriptions: Vec::new(alloc),
        }
    }

    /// Sets the subject that a line gives. `Err` leaves the others unchanged.
    pub fn set(&mut self, alloc: Global, kind: &str, rest: &str) -> Result<(), Trouble> {
        match kind {
            "text" => set(&mut self.text, octets(alloc, Escape::Text, rest)),
            "mailbox" => set(&mut self.mailbox, Ok(Mailbox::new(alloc))),
            "folders" => set_names(alloc, rest, &mut self.folders),
            "subscriptions" => set_names(alloc, rest, &mut self.subscriptions),
            _ => self.mailbox.set(alloc, kind, rest),
        }
    }
}

fn set_names(alloc: Global, text: &str, to: &mut Vec<Name>) -> Result<(), Trouble> {
    set(to, gathered(alloc, Vec::new(alloc), ' ', text))
}
