//! Writes the parts that commands and answers have in common as text.

use case_lines::Words;
use imap_types::{Day, Flags, Octets, Section};
use std::alloc::{AllocError, Global};

/// The octets of `front`, then those of `back`.
pub fn concat(alloc: Global, front: &[u8], back: &[u8]) -> Result<Vec<u8>, AllocError> {
    let mut whole = front.to_vec(alloc)?;
    whole.extend_from_slice(back)?;
    Ok(whole)
}

/// Puts each text between `<` and `>`, after a space.
pub fn put_texts(words: &mut Words, texts: &[Octets]) {
    for octets in texts {
        words.put_text(" ", octets.as_bytes());
    }
}

pub fn put_flags(words: &mut Words, flags: &Flags) {
    words.put("flags");
    words.put_if(flags.answered, " \\Answered");
    words.put_if(flags.flagged, " \\Flagged");
    words.put_if(flags.deleted, " \\Deleted");
    words.put_if(flags.seen, " \\Seen");
    words.put_if(flags.draft, " \\Draft");
    put_texts(words, flags.keywords.as_slice());
}

pub fn put_section(words: &mut Words, section: &Section) {
    match section {
        Section::Whole => words.put("whole"),
        Section::Header => words.put("header"),
        Section::Text => words.put("text"),
        Section::Fields { names } => {
            words.put("fields");
            put_texts(words, names.names());
        }
        Section::FieldsNot { names } => {
            words.put("fields-not");
            put_texts(words, names.names());
        }
    }
}

/// Sets the flag of this name.
fn set_flag(alloc: Global, flags: &mut Flags, name: &str) -> Result<(), AllocError> {
    match name {
        "\\Answered" => flags.answered = true,
        "\\Flagged" => flags.flagged = true,
        "\\Deleted" => flags.deleted = true,
        "\\Seen" => flags.seen = true,
        "\\Draft" => flags.draft = true,
        keyword => return flags.keywords.insert(alloc, keyword.as_bytes()),
    }
    Ok(())
}

/// The flags of these names, set in this order. The names are separated by single spaces.
pub fn flags_named(alloc: Global, names: &str) -> Result<Flags, AllocError> {
    let mut flags = Flags::none(alloc);
    for name in names.split(' ') {
        if !name.is_empty() {
            set_flag(alloc, &mut flags, name)?;
        }
    }
    Ok(flags)
}

/// Puts year, month and day, each after a word.
pub fn put_day(words: &mut Words, year: &str, month: &str, day: &str, of: Day) {
    words.put_number(year, of.year.into());
    words.put_number(month, of.month.into());
    words.put_number(day, of.day.into());
}
