//! Questions about sets of ids and ascending lists of names.

use crate::fields::{Gathers, id, take_each};
use case_lines::{Trouble, Words, name, parts_around};
use crdt_ops::{Ids, insert_name};
use imap_types::Name;
use std::alloc::{AllocError, Global};

/// A question about a set.
#[derive(Clone, Copy)]
pub enum SetWord {
    /// `ids IDS`: the set of these ids.
    Ids,
    /// `contains ID IDS`: whether the id is among them.
    Contains,
    /// `names NAME NAME ..`: the names ascending, each once.
    Names,
}

/// Puts the answer to a question about a set.
pub fn answer_set(word: SetWord, fields: &str, answer: &mut Words) {
    let (of, ids) = parts_around(fields, " ");
    match word {
        SetWord::Ids => put_id_list(None, fields, answer),
        SetWord::Contains => put_id_list(Some(of), ids, answer),
        SetWord::Names => put_name_set(fields, answer),
    }
}

/// The fields of a set are its ids.
impl Gathers for Ids {
    fn take(&mut self, _alloc: Global, field: &str) -> Result<(), Trouble> {
        self.insert(id(field)?)?;
        Ok(())
    }
}

/// Puts the ids, or whether `of` is among them.
fn put_id_list(of: Option<&str>, text: &str, answer: &mut Words) {
    let mut ids = Ids::none(answer.alloc());
    match take_each(answer.alloc(), &mut ids, ',', text) {
        Ok(()) => match of {
            None => put_copy(&ids, answer),
            Some(of) => put_contained(of, &ids, answer),
        },
        Err(trouble) => answer.put_trouble(" ", trouble),
    }
}

/// Puts a copy of the ids.
fn put_copy(ids: &Ids, answer: &mut Words) {
    match ids.copy(answer.alloc()) {
        Ok(copied) => {
            answer.put_if(!copied.same(ids), " copied");
            answer.put_ids(" ", &copied);
        }
        Err(AllocError) => answer.give_up(),
    }
}

fn put_contained(of: &str, ids: &Ids, answer: &mut Words) {
    match id(of) {
        Ok(of) => answer.put_whether(" ", ids.contains(of)),
        Err(trouble) => answer.put_trouble(" ", trouble),
    }
}

fn put_name_set(fields: &str, answer: &mut Words) {
    let mut names: Vec<Name> = Vec::new(answer.alloc());
    match take_each(answer.alloc(), &mut names, ' ', fields) {
        Ok(()) => put_names(&names, answer),
        Err(trouble) => answer.put_trouble(" ", trouble),
    }
}

/// Each name is inserted at its place in the ascending list.
impl Gathers for Vec<Name> {
    fn take(&mut self, alloc: Global, field: &str) -> Result<(), Trouble> {
        let name = name(alloc, field)?;
        insert_name(alloc, self, &name)?;
        Ok(())
    }
}

fn put_names(names: &[Name], answer: &mut Words) {
    for name in names {
        answer.put_field(" ", name.as_bytes());
    }
}
