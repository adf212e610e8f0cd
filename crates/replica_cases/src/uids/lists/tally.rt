//! What occurred in generated lists.

use crate::uids::lists::counted_text::append_of;
use crate::uids::lists::generator::{LONG, OpList};
use crate::uids::lists::recount::{CountedFolder, CountedRow, Recount};
use case_lines::Words;
use imap_types::Name;

/// How many lists there were, and what occurred in them.
#[derive(Clone, Copy)]
pub struct Tally {
    lists: u64,
    long_lists: u64,
    has_versions: bool,
    has_gone: bool,
    has_other_origin: bool,
    has_deleted_folder: bool,
    has_recreated_folder: bool,
    has_next: bool,
}

impl Tally {
    /// No lists.
    pub fn none() -> Tally {
        Tally {
            lists: 0,
            long_lists: 0,
            has_versions: false,
            has_gone: false,
            has_other_origin: false,
            has_deleted_folder: false,
            has_recreated_folder: false,
            has_next: false,
        }
    }

    /// Notes a list.
    pub fn note_list(&mut self, list: &OpList) {
        self.lists = self.lists.saturating_add(1);
        if list.len() >= LONG {
            self.long_lists = self.long_lists.saturating_add(1);
        }
        self.has_next = self.has_next || !list.next.is_empty();
    }

    /// Notes the messages of the folder with this name.
    pub fn note_folder(&mut self, recount: &Recount<'_>, name: &Name, folder: &CountedFolder) {
        let first = u64::from(recount.start.k);
        match folder.uidvalidity {
            Some(number) if number / 65_536 > first.saturating_add(2) => {
                self.has_recreated_folder = true;
            }
            Some(_) => {}
            None => self.has_deleted_folder = self.has_deleted_folder || recount.has_existed(name),
        }
        self.has_gone = self.has_gone || folder.rows.len() < folder.uids as usize;
        for row in &folder.rows {
            self.note_row(recount, row);
        }
    }

    fn note_row(&mut self, recount: &Recount<'_>, row: &CountedRow) {
        self.has_versions = self.has_versions || row.versions.len() > 1;
        self.has_other_origin = self.has_other_origin || append_of(recount, &row.origin).is_none();
    }

    /// Puts how many lists there were, and what occurred.
    pub fn put_tally(&self, answer: &mut Words) {
        answer.put_number(" ", self.lists);
        answer.put_number(" lists, ", self.long_lists);
        answer.put(" of them of 150 to 300 operations\n  met:");
        answer.put_if(self.has_versions, " versions");
        answer.put_if(self.has_gone, " gone");
        answer.put_if(self.has_other_origin, " unknown-origin");
        answer.put_if(self.has_deleted_folder, " deleted");
        answer.put_if(self.has_recreated_folder, " recreated");
        answer.put_if(self.has_next, " next");
    }
}
