//! The answers of commands that read mailboxes.

use crate::parts::concat;
use crate::queries::fields::octets;
use crate::queries::mailbox::Mailbox;
use crate::queries::messages::rows_of;
use crate::queries::searches::{are_rising, is_in_range, named_messages};
use crate::queries::setup::Setup;
use crate::round_trips::text_after;
use case_lines::{Trouble, Words};
use imap_answers::{Answer, SearchResults};
use imap_grammar::{Command, Fetch, ListNames, ParseFault, Search, StatusItem, Tagged, parse};
use imap_query::{FetchMode, ListMode, ViewedMessage, fetch, list_names, search, status};
use imap_types::{Escape, Name, Octets};
use mailbox_rows::Rows;
use std::alloc::{AllocError, Global};

/// Puts the answers to the command that a line spells, without the tagged one.
pub fn put_command(alloc: Global, words: &mut Words, setup: &Setup, line: &str) {
    match octets(alloc, Escape::Text, line) {
        Ok(line) => put_line(alloc, words, setup, line.as_bytes()),
        Err(trouble) => words.put_trouble("", trouble),
    }
}

fn put_line(alloc: Global, words: &mut Words, setup: &Setup, line: &[u8]) {
    match concat(alloc, line, b"\r\n") {
        Ok(frame) => put_frame(alloc, words, setup, &frame),
        Err(AllocError) => words.give_up(),
    }
}

fn put_frame(alloc: Global, words: &mut Words, setup: &Setup, frame: &[u8]) {
    match parse(alloc, frame) {
        Ok(tagged) => {
            put_tagged(alloc, words, setup, &tagged);
            drop(tagged);
        }
        Err(ParseFault::NoMemory) => words.give_up(),
        Err(_) => words.put_trouble("", Trouble::NotACase),
    }
}

fn put_tagged(alloc: Global, words: &mut Words, setup: &Setup, tagged: &Tagged) {
    match &tagged.command {
        Command::ListNames(list) => put_names(alloc, words, setup, list),
        _ => put_mailbox_answers(alloc, words, &setup.mailbox, tagged),
    }
}

fn put_names(alloc: Global, words: &mut Words, setup: &Setup, list: &ListNames) {
    let mode = ListMode {
        subscribed_only: list.subscribed_only,
        return_subscribed: list.return_subscribed,
    };
    let answers = list_names(
        alloc,
        list.reference.as_bytes(),
        list.pattern.as_bytes(),
        mode,
        &setup.folders,
        &setup.subscriptions,
    );
    put_answers(alloc, words, answers);
}

fn put_mailbox_answers(alloc: Global, words: &mut Words, mailbox: &Mailbox, tagged: &Tagged) {
    match rows_of(alloc, &mailbox.messages, false) {
        Ok(rows) => {
            put_answers_from_rows(alloc, words, mailbox, &rows, tagged);
            drop(rows);
        }
        Err(trouble) => words.put_trouble("", trouble),
    }
}

fn put_answers_from_rows(
    alloc: Global,
    words: &mut Words,
    mailbox: &Mailbox,
    rows: &Rows<'_>,
    tagged: &Tagged,
) {
    match &tagged.command {
        Command::Status { name, items } => {
            put_status(alloc, words, mailbox, rows, name, items.as_slice());
        }
        Command::Search(search) => put_search(alloc, words, mailbox, rows, &tagged.tag, search),
        Command::Fetch(fetch) => put_fetch(alloc, words, mailbox, rows, fetch),
        _ => words.put_trouble("", Trouble::NotACase),
    }
}

fn put_status(
    alloc: Global,
    words: &mut Words,
    mailbox: &Mailbox,
    rows: &Rows<'_>,
    name: &Name,
    items: &[StatusItem],
) {
    let items = status(rows, items, mailbox.counters);
    match name.copy(alloc) {
        Ok(name) => put_owned_answer(alloc, words, Answer::Status { name, items }),
        Err(AllocError) => words.give_up(),
    }
}

fn put_search(
    alloc: Global,
    words: &mut Words,
    mailbox: &Mailbox,
    rows: &Rows<'_>,
    tag: &Octets,
    request: &Search,
) {
    let by_uid = request.by_uid;
    if !are_rising(by_uid, &mailbox.view) {
        words.put_trouble("", Trouble::NotACase);
        return;
    }
    let steps = request.steps.as_slice();
    let options = request.options.as_slice();
    match search(alloc, &mailbox.view, rows, by_uid, steps, options) {
        Ok(results) => put_results(alloc, words, tag, by_uid, results),
        Err(AllocError) => words.give_up(),
    }
}

fn put_results(
    alloc: Global,
    words: &mut Words,
    tag: &Octets,
    by_uid: bool,
    results: SearchResults,
) {
    match tag.copy(alloc) {
        Ok(tag) => put_owned_answer(
            alloc,
            words,
            Answer::Search {
                tag,
                by_uid,
                results,
            },
        ),
        Err(AllocError) => {
            drop(results);
            words.give_up();
        }
    }
}

fn put_fetch(
    alloc: Global,
    words: &mut Words,
    mailbox: &Mailbox,
    before: &Rows<'_>,
    request: &Fetch,
) {
    let set = request.messages.ranges();
    if !is_in_range(&mailbox.view, set, request.by_uid) {
        words.put_trouble("", Trouble::OutOfRange);
        return;
    }
    match named_messages(alloc, &mailbox.view, set, request.by_uid) {
        Ok(named_messages) => put_fetch_answers(
            alloc,
            words,
            mailbox,
            &named_messages,
            before,
            request,
        ),
        Err(AllocError) => words.give_up(),
    }
}

/// Puts the answers of a FETCH of these messages, from their rows before and after the command.
fn put_fetch_answers(
    alloc: Global,
    words: &mut Words,
    mailbox: &Mailbox,
    named_messages: &[ViewedMessage],
    before: &Rows<'_>,
    request: &Fetch,
) {
    let mode = FetchMode {
        by_uid: request.by_uid,
        condstore: mailbox.condstore,
        writable: mailbox.is_writable,
        changed_since: request.changed_since,
    };
    match rows_of(alloc, &mailbox.messages, true) {
        Ok(after) => {
            let answers = fetch(
                alloc,
                named_messages,
                before,
                &after,
                request.items.as_slice(),
                mode,
            );
            drop(after);
            put_answers(alloc, words, answers);
        }
        Err(trouble) => words.put_trouble("", trouble),
    }
}

fn put_answers(alloc: Global, words: &mut Words, answers: Result<Vec<Answer>, AllocError>) {
    match answers {
        Ok(answers) => {
            put_each(alloc, words, &answers);
            drop(answers);
        }
        Err(AllocError) => words.give_up(),
    }
}

/// Puts each answer without its CRLF and with ` | ` between them, `nothing` if there are none.
fn put_each(alloc: Global, words: &mut Words, answers: &[Answer]) {
    let mut separator = "";
    for answer in answers {
        put_answer(alloc, words, separator, answer);
        separator = " | ";
    }
    words.put_if(answers.is_empty(), "nothing");
}

fn put_owned_answer(alloc: Global, words: &mut Words, answer: Answer) {
    put_answer(alloc, words, "", &answer);
    drop(answer);
}

fn put_answer(alloc: Global, words: &mut Words, separator: &str, answer: &Answer) {
    match text_after(alloc, b"", answer) {
        Ok(text) => words.put_escaped(
            separator,
            text.strip_suffix(b"\r\n".as_slice()).unwrap_or(&text),
        ),
        Err(AllocError) => words.give_up(),
    }
}
