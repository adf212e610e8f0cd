//! Reads answers and prints them again.

use crate::answers::put_answer;
use crate::damage::{Demand, put_failing};
use crate::parts::concat;
use case_lines::Words;
use imap_print::{Answer, MailboxState, print, read};
use imap_types::Name;
use std::alloc::{AllocError, Global};

/// Puts the answer that a text spells. If the text isn't the one text of that answer, the fault
/// follows. If a short text can be damaged so that it is read as an answer with another text, the
/// place follows.
pub fn put_read(alloc: Global, words: &mut Words, text: &[u8]) {
    match read(alloc, text) {
        Ok(Some((answer, length))) => {
            put_answer(words, &answer);
            let fault = fault_of_answer(alloc, words, &answer, length, text);
            words.put(fault);
            drop(answer);
        }
        Ok(None) => words.put("none"),
        Err(AllocError) => words.give_up(),
    }
    let word = ", misread where damaged at ";
    put_failing(
        alloc,
        words,
        Demand::ReadAsPrinted,
        MAX_PREFIXES,
        text,
        word,
    );
}

/// Whether a text is read as no answer, or as one that is printed as a prefix of the text.
pub fn is_front_printed(alloc: Global, words: &mut Words, text: &[u8]) -> bool {
    match read(alloc, text) {
        Ok(Some((answer, length))) => {
            let is_printed = is_printed(alloc, words, &answer, text.get(..length));
            drop(answer);
            is_printed
        }
        Ok(None) => true,
        Err(AllocError) => {
            words.give_up();
            false
        }
    }
}

/// The fault, if any. Printing the answer must append the text, whatever precedes it. Reading must
/// give the answer, whatever follows the text, and none from a shorter prefix of it. A copy of the
/// answer must be the same answer.
fn fault_of_answer(
    alloc: Global,
    words: &mut Words,
    answer: &Answer,
    length: usize,
    text: &[u8],
) -> &'static str {
    if length != text.len() {
        ", and more follows"
    } else if !is_printed(alloc, words, answer, Some(text)) {
        ", printed otherwise"
    } else if !is_copied(alloc, words, answer) {
        ", copied otherwise"
    } else if !is_read_before_all(alloc, words, answer, text) {
        ", read otherwise where more follows"
    } else if is_prefix_read(alloc, words, text) {
        ", and a front is read"
    } else {
        ""
    }
}

/// Whether printing the answer after other octets appends this text.
fn is_printed(alloc: Global, words: &mut Words, answer: &Answer, text: Option<&[u8]>) -> bool {
    match text_after(alloc, b"+ idling\r\n", answer) {
        Ok(out) => out.strip_prefix(b"+ idling\r\n") == text,
        Err(AllocError) => {
            words.give_up();
            false
        }
    }
}

fn is_copied(alloc: Global, words: &mut Words, answer: &Answer) -> bool {
    match answer.copy(alloc) {
        Ok(copy) => {
            let is_same = copy.same(answer);
            drop(copy);
            is_same
        }
        Err(AllocError) => {
            words.give_up();
            false
        }
    }
}

fn is_read_before_all(alloc: Global, words: &mut Words, answer: &Answer, text: &[u8]) -> bool {
    for more in [b"".as_slice(), b"\r\n", b" ok\r\n", b"1", b")\r\n", text] {
        if !is_read_before(alloc, words, answer, text, more) {
            return false;
        }
    }
    true
}

fn is_read_before(
    alloc: Global,
    words: &mut Words,
    answer: &Answer,
    text: &[u8],
    more: &[u8],
) -> bool {
    match concat(alloc, text, more) {
        Ok(input) => is_read_of(alloc, words, answer, text.len(), &input),
        Err(AllocError) => {
            words.give_up();
            false
        }
    }
}

/// Whether the answer is read from exactly the first `count` octets of an input.
fn is_read_of(
    alloc: Global,
    words: &mut Words,
    answer: &Answer,
    count: usize,
    input: &[u8],
) -> bool {
    match read(alloc, input) {
        Ok(Some((parsed, length))) => {
            let is_same = parsed.same(answer) && length == count;
            drop(parsed);
            is_same
        }
        Ok(None) => false,
        Err(AllocError) => {
            words.give_up();
            false
        }
    }
}

/// The greatest number of prefixes of a text that are read: the longest ones.
const MAX_PREFIXES: usize = 500;

fn is_prefix_read(alloc: Global, words: &mut Words, text: &[u8]) -> bool {
    for length in text.len().saturating_sub(MAX_PREFIXES)..text.len() {
        let (front, _) = text.split_at(length);
        if is_read(alloc, words, front) {
            return true;
        }
    }
    false
}

fn is_read(alloc: Global, words: &mut Words, text: &[u8]) -> bool {
    match read(alloc, text) {
        Ok(Some((answer, _))) => {
            drop(answer);
            true
        }
        Ok(None) => false,
        Err(AllocError) => {
            words.give_up();
            false
        }
    }
}

/// Puts a mailbox of this name in a LIST answer, as it is printed.
pub fn put_mailbox(alloc: Global, words: &mut Words, name: &[u8]) {
    match Name::from_slice(alloc, name) {
        Ok(name) => {
            let state = MailboxState::Selectable;
            let subscribed = false;
            put_printed(
                alloc,
                words,
                Answer::List {
                    name,
                    state,
                    subscribed,
                },
            );
        }
        Err(AllocError) => words.give_up(),
    }
}

/// Puts an answer as it is printed.
pub fn put_printed(alloc: Global, words: &mut Words, answer: Answer) {
    words.put_result(text_after(alloc, b"", &answer));
    drop(answer);
}

/// The octets `front`, and after them the answer as it is printed.
pub fn text_after(alloc: Global, front: &[u8], answer: &Answer) -> Result<Vec<u8>, AllocError> {
    let mut text = front.to_vec(alloc)?;
    print(answer, &mut text)?;
    Ok(text)
}
