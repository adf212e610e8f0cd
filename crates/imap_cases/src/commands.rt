//! Writes commands as text.

use crate::keys::put_steps;
use crate::parts::{put_flags, put_section, put_texts};
use case_lines::Words;
use imap_grammar::{Command, FetchItem, StoreAction, Tagged, Transfer};
use imap_types::{DateTime, SequenceBound, SequenceSet};
use std::fmt::Debug;

/// Puts the tag and the command.
pub fn put_tagged(words: &mut Words, tagged: &Tagged) {
    words.put_octets(tagged.tag.as_bytes());
    words.put(" ");
    put_command(words, &tagged.command);
}

fn put_command(words: &mut Words, command: &Command) {
    match command {
        Command::Capability => words.put("capability"),
        Command::Noop => words.put("noop"),
        Command::Logout => words.put("logout"),
        Command::Namespace => words.put("namespace"),
        Command::Idle => words.put("idle"),
        Command::Close => words.put("close"),
        Command::Unselect => words.put("unselect"),
        Command::Expunge => words.put("expunge"),
        Command::Create { name } => words.put_text("create ", name.as_bytes()),
        Command::Delete { name } => words.put_text("delete ", name.as_bytes()),
        Command::Subscribe { name } => words.put_text("subscribe ", name.as_bytes()),
        Command::Unsubscribe { name } => words.put_text("unsubscribe ", name.as_bytes()),
        _ => put_longer(words, command),
    }
}

fn put_longer(words: &mut Words, command: &Command) {
    match command {
        Command::Login { user, password } => {
            words.put_text("login ", user.as_bytes());
            words.put_text(" ", password.as_bytes());
        }
        Command::Enable { names } => {
            words.put("enable");
            put_texts(words, names.as_slice());
        }
        Command::Select { name, condstore } => {
            words.put_text("select ", name.as_bytes());
            words.put_if(*condstore, " condstore");
        }
        Command::Examine { name, condstore } => {
            words.put_text("examine ", name.as_bytes());
            words.put_if(*condstore, " condstore");
        }
        Command::Status { name, items } => {
            words.put_text("status ", name.as_bytes());
            put_each(words, items.as_slice());
        }
        _ => put_longest(words, command),
    }
}

fn put_longest(words: &mut Words, command: &Command) {
    match command {
        Command::ListNames(list) => {
            words.put_text("list ", list.reference.as_bytes());
            words.put_text(" ", list.pattern.as_bytes());
            words.put_if(list.subscribed_only, " subscribed-only");
            words.put_if(list.return_subscribed, " return-subscribed");
        }
        Command::Append(append) => {
            words.put_text("append ", append.name.as_bytes());
            words.put(" ");
            put_flags(words, &append.flags);
            put_date(words, &append.date);
            words.put_text(" text ", append.text.as_bytes());
        }
        _ => put_message_command(words, command),
    }
}

fn put_message_command(words: &mut Words, command: &Command) {
    match command {
        Command::UidExpunge { uids } => put_messages(words, true, "expunge", uids),
        Command::Copy(transfer) => put_transfer(words, "copy", transfer),
        Command::Move(transfer) => put_transfer(words, "move", transfer),
        _ => put_other_command(words, command),
    }
}

/// Puts a COPY or MOVE.
fn put_transfer(words: &mut Words, word: &str, transfer: &Transfer) {
    put_messages(words, transfer.by_uid, word, &transfer.messages);
    words.put_text(" ", transfer.name.as_bytes());
}

fn put_other_command(words: &mut Words, command: &Command) {
    match command {
        Command::Search(search) => {
            words.put_if(search.by_uid, "uid-");
            words.put("search");
            put_each(words, search.options.as_slice());
            put_steps(words, search.steps.as_slice());
        }
        Command::Fetch(fetch) => {
            put_messages(words, fetch.by_uid, "fetch", &fetch.messages);
            put_items(words, fetch.items.as_slice());
            words.put_optional(" since ", fetch.changed_since);
        }
        Command::Store(store) => {
            put_messages(words, store.by_uid, "store", &store.messages);
            words.put_optional(" unless-since ", store.unchanged_since);
            put_action(words, store.action);
            put_flags(words, &store.flags);
        }
        _ => words.put("no command of these"),
    }
}

/// Puts each value by its name in lower case, after a space.
fn put_each<T: Debug>(words: &mut Words, values: &[T]) {
    for value in values {
        words.put_lowered(" ", value);
    }
}

fn put_date(words: &mut Words, date: &Option<DateTime>) {
    match date {
        Some(date) => words.put_after(" date ", date.as_bytes()),
        None => words.put(" no-date"),
    }
}

/// Puts a word, after `uid-` if the set has UIDs, and the set's ranges.
fn put_messages(words: &mut Words, by_uid: bool, word: &str, messages: &SequenceSet) {
    words.put_if(by_uid, "uid-");
    words.put(word);
    put_set(words, messages);
}

/// Puts each range after a space.
pub fn put_set(words: &mut Words, set: &SequenceSet) {
    for range in set.ranges() {
        put_bound(words, " ", range.first);
        put_bound(words, ":", range.last);
    }
}

fn put_bound(words: &mut Words, word: &str, bound: SequenceBound) {
    match bound {
        SequenceBound::Number(number) => words.put_number(word, number.into()),
        SequenceBound::Greatest => words.put_after(word, b"*"),
    }
}

fn put_action(words: &mut Words, action: StoreAction) {
    words.put_lowered(" ", &action.mode);
    words.put_if(action.silent, " silently");
    words.put(" ");
}

fn put_items(words: &mut Words, items: &[FetchItem]) {
    for item in items {
        put_item(words, item);
    }
}

fn put_item(words: &mut Words, item: &FetchItem) {
    match item {
        FetchItem::Flags => words.put(" flags"),
        FetchItem::InternalDate => words.put(" internaldate"),
        FetchItem::Size => words.put(" size"),
        FetchItem::Uid => words.put(" uid"),
        FetchItem::ModSeq => words.put(" modseq"),
        FetchItem::Body {
            peek,
            section,
            partial,
        } => {
            words.put(" ");
            words.put_if(*peek, "peek-");
            put_section(words, section);
            if let Some(partial) = partial {
                words.put_number(" from ", partial.start.into());
                words.put_number(" at-most ", partial.count.into());
            }
        }
    }
}
