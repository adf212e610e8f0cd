//! Writes answers as text.

use crate::numbers::put_numbers;
use crate::parts::{put_flags, put_section};
use case_lines::Words;
use imap_print::{Answer, Code, FetchItems, Notice, SearchResults, SectionData, StatusItems};
use imap_types::NumberSet;

pub fn put_answer(words: &mut Words, answer: &Answer) {
    match answer {
        Answer::Greeting { login } => words.put_name("greeting ", login),
        Answer::Continue { with } => words.put_name("continue ", with),
        Answer::Capability => words.put("capability"),
        Answer::Enabled { extensions } => words.put_name("enabled ", extensions),
        Answer::Namespace => words.put("namespace"),
        Answer::Exists { count } => words.put_number("exists ", (*count).into()),
        Answer::Expunge { number } => words.put_number("expunge ", (*number).into()),
        Answer::Bye { reason } => words.put_name("bye ", reason),
        Answer::NoTag => words.put("no-tag"),
        Answer::LiteralTooLong => words.put("literal-too-long"),
        _ => put_longer(words, answer),
    }
}

fn put_longer(words: &mut Words, answer: &Answer) {
    match answer {
        Answer::Flags { flags } => put_flags(words, flags),
        Answer::List {
            name,
            state,
            subscribed,
        } => {
            words.put_text("list ", name.as_bytes());
            words.put_name(" ", state);
            words.put_if(*subscribed, " subscribed");
        }
        Answer::UntaggedOk { notice } => put_notice(words, notice),
        Answer::Status { name, items } => {
            words.put_text("status ", name.as_bytes());
            put_status(words, items);
        }
        _ => put_longest(words, answer),
    }
}

fn put_longest(words: &mut Words, answer: &Answer) {
    match answer {
        Answer::Search {
            tag,
            by_uid,
            results,
        } => {
            words.put_text("search ", tag.as_bytes());
            words.put_if(*by_uid, " uid");
            put_results(words, results);
        }
        Answer::Fetch { number, items } => put_fetched(words, *number, items),
        Answer::Completed { tag, code, command } => {
            words.put_text("", tag.as_bytes());
            words.put_name(" completed ", command);
            put_code(words, code);
        }
        Answer::Refused { tag, reason } => {
            words.put_text("", tag.as_bytes());
            words.put_name(" refused ", reason);
        }
        _ => words.put("no answer of these"),
    }
}

fn put_notice(words: &mut Words, notice: &Notice) {
    match notice {
        Notice::Closed => words.put("closed"),
        Notice::UidValidity { value } => words.put_number("uidvalidity ", (*value).into()),
        Notice::UidNext { uid } => words.put_number("uidnext ", (*uid).into()),
        Notice::PermanentFlags { flags: None } => words.put("permanent none"),
        Notice::PermanentFlags { flags: Some(flags) } => {
            words.put("permanent ");
            put_flags(words, flags);
        }
        Notice::HighestModSeq { modseq } => words.put_number("highestmodseq ", *modseq),
        Notice::CopyUid {
            uidvalidity,
            source,
            copies,
        } => put_copies(words, *uidvalidity, source, copies),
    }
}

fn put_code(words: &mut Words, code: &Option<Code>) {
    match code {
        None => {}
        Some(Code::ReadWrite) => words.put(" read-write"),
        Some(Code::ReadOnly) => words.put(" read-only"),
        Some(Code::AppendUid { uidvalidity, uid }) => {
            words.put_number(" appended under ", (*uidvalidity).into());
            words.put_number(" uid ", (*uid).into());
        }
        Some(
            Code::CopyUid {
                uidvalidity,
                source,
                copies,
            },
        ) => {
            words.put(" ");
            put_copies(words, *uidvalidity, source, copies);
        }
        Some(Code::Modified { refused }) => put_numbers(words, " modified", refused),
        Some(Code::ExpungeIssued) => words.put(" expunge-issued"),
    }
}

fn put_copies(words: &mut Words, uidvalidity: u32, source: &NumberSet, copies: &NumberSet) {
    words.put_number("copied under ", uidvalidity.into());
    put_numbers(words, " from", source);
    put_numbers(words, " to", copies);
}

fn put_small(words: &mut Words, word: &str, number: Option<u32>) {
    if let Some(number) = number {
        words.put_number(word, number.into());
    }
}

fn put_status(words: &mut Words, items: &StatusItems) {
    put_small(words, " messages ", items.messages);
    put_small(words, " uidnext ", items.uidnext);
    put_small(words, " uidvalidity ", items.uidvalidity);
    put_small(words, " unseen ", items.unseen);
    put_small(words, " deleted ", items.deleted);
    words.put_optional(" size ", items.size);
    words.put_optional(" highestmodseq ", items.highest_modseq);
}

fn put_results(words: &mut Words, results: &SearchResults) {
    put_small(words, " min ", results.min);
    put_small(words, " max ", results.max);
    if !results.all.is_empty() {
        put_numbers(words, " all", &results.all);
    }
    put_small(words, " count ", results.count);
    words.put_optional(" modseq ", results.modseq);
}

fn put_fetched(words: &mut Words, number: u32, items: &FetchItems) {
    words.put_number("fetch ", number.into());
    put_small(words, " uid ", items.uid);
    if let Some(flags) = &items.flags {
        words.put(" ");
        put_flags(words, flags);
    }
    if let Some(date) = &items.date {
        words.put_after(" date ", date.as_bytes());
    }
    words.put_optional(" size ", items.size);
    words.put_optional(" modseq ", items.modseq);
    for part in items.sections.parts() {
        put_part(words, part);
    }
}

fn put_part(words: &mut Words, part: &SectionData) {
    words.put(" ");
    put_section(words, &part.section);
    put_small(words, " from ", part.origin);
    words.put_text(" is ", part.octets.as_bytes());
}
