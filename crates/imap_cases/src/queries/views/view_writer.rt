//! Writes views, answers and numbers as text.

use case_lines::Words;
use imap_answers::{Answer, FetchItems};
use imap_types::Flags;
use session_view::ViewEntries;

/// Puts the numbers with commas between them, `none` if there are none.
pub fn put_numbers(words: &mut Words, numbers: &[u32]) {
    let mut comma = "";
    for number in numbers {
        words.put_number(comma, u64::from(*number));
        comma = ",";
    }
    words.put_if(numbers.is_empty(), "none");
}

/// Puts the messages of a view, `-` if there are none.
pub fn put_entries(words: &mut Words, entries: &ViewEntries) {
    let mut comma = "";
    for entry in entries.iter_from(0) {
        words.put_number(comma, u64::from(entry.uid));
        put_flags(words, &entry.flags);
        comma = ",";
    }
    words.put_if(entries.is_empty(), "-");
}

fn put_flags(words: &mut Words, flags: &Flags) {
    words.put("/");
    words.put_if(flags.answered, "a");
    words.put_if(flags.flagged, "f");
    words.put_if(flags.deleted, "d");
    words.put_if(flags.seen, "s");
    words.put_if(flags.draft, "r");
    for keyword in flags.keywords.as_slice() {
        words.put_octets(keyword.as_bytes());
    }
    words.put_if(is_without_flags(flags), "-");
}

fn is_without_flags(flags: &Flags) -> bool {
    let has_system = flags.answered || flags.flagged || flags.deleted || flags.seen || flags.draft;
    !has_system && flags.keywords.is_empty()
}

/// Puts the answers with `, ` between them, `nothing` if there are none.
pub fn put_answers(words: &mut Words, answers: &[Answer]) {
    let mut comma = "";
    for answer in answers {
        words.put(comma);
        put_answer(words, answer);
        comma = ", ";
    }
    words.put_if(answers.is_empty(), "nothing");
}

fn put_answer(words: &mut Words, answer: &Answer) {
    match answer {
        Answer::Expunge { number } => words.put_number("expunge ", u64::from(*number)),
        Answer::Exists { count } => words.put_number("exists ", u64::from(*count)),
        Answer::Fetch { number, items } => {
            words.put_number("fetch ", u64::from(*number));
            put_items(words, items);
        }
        _ => words.put("no answer of a sync"),
    }
}

fn put_items(words: &mut Words, items: &FetchItems) {
    words.put_optional(" ", items.uid.map(u64::from));
    if let Some(flags) = &items.flags {
        put_flags(words, flags);
    }
    words.put_optional("@", items.modseq);
}
