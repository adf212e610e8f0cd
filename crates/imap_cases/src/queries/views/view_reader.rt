//! Reads views, listings and sets from text.

use crate::queries::fields::{Gathers, add, gathered, take_each};
use crate::queries::messages::{Message, state_with};
use case_lines::{Trouble, long_number, number};
use chunk_list::ChunkList;
use imap_types::{DateTime, Flags, Name, SequenceBound, SequenceRange, SequenceSet};
use session_view::{View, ViewEntries, ViewEntry, are_rising};
use std::alloc::Global;

/// A view of INBOX, whose UIDs ascend.
pub fn view_in(alloc: Global, text: &str) -> Result<View, Trouble> {
    match gathered(alloc, ChunkList::new(alloc), ',', text) {
        Ok(entries) => view_of(alloc, entries),
        Err(trouble) => Err(trouble),
    }
}

fn view_of(alloc: Global, entries: ViewEntries) -> Result<View, Trouble> {
    if !are_rising(&entries) {
        drop(entries);
        return Err(Trouble::NotACase);
    }
    let Ok(name) = Name::inbox(alloc) else {
        drop(entries);
        return Err(Trouble::NoMemory);
    };
    Ok(View::new(name, 1, entries))
}

impl Gathers for ViewEntries {
    fn take(&mut self, alloc: Global, field: &str) -> Result<(), Trouble> {
        self.push(alloc, entry_in(alloc, field)?)?;
        Ok(())
    }
}

/// `UID/FLAGS`, or only `UID` if there are no flags.
fn entry_in(alloc: Global, text: &str) -> Result<ViewEntry, Trouble> {
    let (uid, flags) = text.split_once('/').unwrap_or((text, "-"));
    Ok(ViewEntry {
        uid: number(uid)?,
        flags: flags_in(alloc, flags)?,
    })
}

/// The flags that these letters spell, none for `-`.
fn flags_in(alloc: Global, text: &str) -> Result<Flags, Trouble> {
    let mut flags = Flags::none(alloc);
    let letters = if text == "-" { "" } else { text };
    for letter in letters.as_bytes() {
        set_flag(alloc, *letter, &mut flags)?;
    }
    Ok(flags)
}

/// Sets the flag of this letter.
fn set_flag(alloc: Global, letter: u8, flags: &mut Flags) -> Result<(), Trouble> {
    match letter {
        b'a' => flags.answered = true,
        b'f' => flags.flagged = true,
        b'd' => flags.deleted = true,
        b's' => flags.seen = true,
        b'r' => flags.draft = true,
        b'x' | b'y' => flags.keywords.insert(alloc, &[letter])?,
        _ => return Err(Trouble::NotACase),
    }
    Ok(())
}

/// The messages of a listing, in their order.
pub fn messages_in(alloc: Global, text: &str) -> Result<Vec<Message>, Trouble> {
    gathered(alloc, Vec::new(alloc), ',', text)
}

impl Gathers for Vec<Message> {
    fn take(&mut self, alloc: Global, field: &str) -> Result<(), Trouble> {
        add(self, message_in(alloc, field))
    }
}

/// `UID/FLAGS@MODSEQ`.
fn message_in(alloc: Global, text: &str) -> Result<Message, Trouble> {
    let (front, modseq) = text.split_once('@').unwrap_or((text, "1"));
    let modseq = long_number(modseq)?;
    let ViewEntry { uid, flags } = entry_in(alloc, front)?;
    let before = state_with(modseq, flags)?;
    Ok(Message::new(uid, before, DateTime::epoch(), None))
}

/// A set as a command spells it.
pub fn set_in(alloc: Global, text: &str) -> Result<SequenceSet, Trouble> {
    let mut ranges = Vec::new(alloc);
    match take_each(alloc, &mut ranges, ',', text) {
        Ok(()) => Ok(SequenceSet::new(ranges)),
        Err(trouble) => Err(trouble),
    }
}

impl Gathers for Vec<SequenceRange> {
    fn take(&mut self, _alloc: Global, field: &str) -> Result<(), Trouble> {
        add(self, range_in(field))
    }
}

fn range_in(text: &str) -> Result<SequenceRange, Trouble> {
    let (first, last) = text.split_once(':').unwrap_or((text, text));
    Ok(SequenceRange {
        first: bound_in(first)?,
        last: bound_in(last)?,
    })
}

fn bound_in(text: &str) -> Result<SequenceBound, Trouble> {
    if text == "*" {
        Ok(SequenceBound::Greatest)
    } else {
        match number(text) {
            Ok(number) => Ok(SequenceBound::Number(number)),
            Err(trouble) => Err(trouble),
        }
    }
}
