//! Reads the fields of a line: octets, names, and lists of them.

use case_lines::Trouble;
use imap_types::{Escape, Name, Octets};
use std::alloc::Global;

/// The octets that a text in the escape spells; `""` spells none.
pub fn octets(alloc: Global, escape: Escape, text: &str) -> Result<Octets, Trouble> {
    if text == "\"\"" {
        Ok(Octets::new(Vec::new(alloc)))
    } else {
        case_lines::octets(alloc, escape, text)
    }
}

/// A value that is built from fields, one after another.
pub trait Gathers {
    /// Takes the next field.
    fn take(&mut self, alloc: Global, field: &str) -> Result<(), Trouble>;
}

/// The value built from the fields between the separators; the empty one if the text is `-`.
pub fn gathered<G: Gathers + Drop>(
    alloc: Global,
    empty: G,
    separator: char,
    text: &str,
) -> Result<G, Trouble> {
    let mut gathered = empty;
    if text != "-" {
        take_each(alloc, &mut gathered, separator, text)?;
    }
    Ok(gathered)
}

/// Takes each field between the separators.
pub fn take_each<G: Gathers>(
    alloc: Global,
    gathered: &mut G,
    separator: char,
    text: &str,
) -> Result<(), Trouble> {
    for field in text.split(separator) {
        gathered.take(alloc, field)?;
    }
    Ok(())
}

/// Adds the item to a list, unless it is an error.
pub fn add<T: Drop>(list: &mut Vec<T>, item: Result<T, Trouble>) -> Result<(), Trouble> {
    list.push(item?)?;
    Ok(())
}

/// Replaces a value by another, unless that is an error.
pub fn set<T: Drop>(place: &mut T, value: Result<T, Trouble>) -> Result<(), Trouble> {
    *place = value?;
    Ok(())
}

impl Gathers for Vec<Octets> {
    fn take(&mut self, alloc: Global, field: &str) -> Result<(), Trouble> {
        add(self, octets(alloc, Escape::Field, field))
    }
}

impl Gathers for Vec<Name> {
    fn take(&mut self, alloc: Global, field: &str) -> Result<(), Trouble> {
        add(self, name(alloc, field))
    }
}

fn name(alloc: Global, field: &str) -> Result<Name, Trouble> {
    let octets = octets(alloc, Escape::Field, field)?;
    Ok(Name::new(octets.into_vec()))
}
