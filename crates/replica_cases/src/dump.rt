//! Writes folders, messages and subscriptions as text.

use crate::setup::Mailboxes;
use case_lines::Words;
use crdt_ops::{Ids, Message};
use folder_state::Folders;
use imap_types::{Name, Text};
use std::alloc::AllocError;
use subs_state::Subs;

/// Puts the folders with their messages, and the subscriptions, as the lines of a dump.
pub fn put_state(state: &Mailboxes, answer: &mut Words) {
    match state.first.names(answer.alloc()) {
        Ok(names) => put_folders(&state.first, &names, answer),
        Err(AllocError) => answer.give_up(),
    }
    match state.second.names(answer.alloc()) {
        Ok(names) => put_subscriptions(&state.second, &names, answer),
        Err(AllocError) => answer.give_up(),
    }
}

/// Puts the ids, unless memory ran out.
pub fn put_id_list(ids: Result<Ids, AllocError>, answer: &mut Words) {
    match ids {
        Ok(ids) => answer.put_ids(" ", &ids),
        Err(AllocError) => answer.give_up(),
    }
}

fn put_folders(folders: &Folders, names: &[Name], answer: &mut Words) {
    for name in names {
        answer.put_field("\n  folder ", name.as_bytes());
        put_id_list(folders.tags(answer.alloc(), name), answer);
        put_messages(folders, name, answer);
    }
}

fn put_messages(folders: &Folders, name: &Name, answer: &mut Words) {
    match folders.messages(answer.alloc(), name) {
        Ok(messages) => {
            for message in &messages {
                put_message(folders, name, message, answer);
            }
        }
        Err(AllocError) => answer.give_up(),
    }
}

fn put_message(folders: &Folders, name: &Name, message: &Message, answer: &mut Words) {
    put_copy(message, answer);
    answer.put_if(!is_stored(folders, name, message), " lent otherwise");
    put_versions(folders, name, message, answer);
}

/// Whether the folders return a reference to the same message.
fn is_stored(folders: &Folders, name: &Name, message: &Message) -> bool {
    match folders.message(name, &message.origin) {
        Some(stored) => {
            stored.origin == message.origin
                && is_text(stored.text, &message.text)
                && stored.versions.has_flags(&message.flags)
        }
        None => false,
    }
}

/// Whether the referenced text is this one.
fn is_text(stored: Option<&Text>, text: &Text) -> bool {
    match stored {
        Some(stored) => stored.same(text),
        None => text.as_bytes().is_empty(),
    }
}

/// Puts a remark if the folders report other versions of the message than it has.
fn put_versions(folders: &Folders, name: &Name, message: &Message, answer: &mut Words) {
    match folders.versions(answer.alloc(), name, &message.origin) {
        Ok(ids) => answer.put_if(!ids.same(&message.versions), " versions otherwise"),
        Err(AllocError) => answer.give_up(),
    }
}

/// Puts a copy of the message.
fn put_copy(message: &Message, answer: &mut Words) {
    match message.copy(answer.alloc()) {
        Ok(copied) => put_same(message, &copied, answer),
        Err(AllocError) => answer.give_up(),
    }
}

fn put_same(message: &Message, copied: &Message, answer: &mut Words) {
    answer.put("\n  ");
    answer.put_if(!copied.same(message), "copied ");
    answer.put_id("message ", copied.origin);
    answer.put_ids(" ", &copied.versions);
    answer.put_flags(" ", &copied.flags);
    answer.put_after(" ", copied.date.as_bytes());
    answer.put_escaped(" =", copied.text.as_bytes());
}

fn put_subscriptions(subs: &Subs, names: &[Name], answer: &mut Words) {
    for name in names {
        answer.put_field("\n  subscribed ", name.as_bytes());
        put_id_list(subs.tags(answer.alloc(), name), answer);
    }
}
