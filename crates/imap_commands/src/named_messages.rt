//! The messages that a command names, by their numbers in the view.

ghost use Rattle.std.specs.Prelude.{◌≡◌, ◌⊎◌, true, false, IfErr, IfOk};
ghost use Rattle.imap_answers.specs.declared.fixed_words.Refusal.TheVariants.{NoMemory};
ghost use Rattle.imap_answers.specs.declared.fixed_words.Refusal.TheVariants.{NoSuchMessage};
ghost use Rattle.imap_types.specs.Numbers.{AreRisingFrom};
ghost use Rattle.session_view.specs.Sets.{is_in_range, numbers_in_set};
ghost use Rattle.imap_commands.specs.MessageNames.{name_at, names_of, existing_messages};

use crate::report::{entry_at, message_at};
use imap_answers::Refusal;
use imap_types::{NumberSet, SequenceSet};
use mailbox_rows::Rows;
use session_view::{BadSet, View, ViewEntries};
use std::alloc::{AllocError, Global};

/// The numbers of the view's messages that a set names. `NoSuchMessage` if it names a number that
/// no message has; a set of UIDs may name any. `NoMemory` if memory runs out.
pub fn messages_named(
    alloc: Global,
    by_uid: bool,
    set: &SequenceSet,
    view: &View,
) -> Result<Vec<u32>, Refusal>
    ensures range { IfOk result (λ _. is_in_range by_uid set.now view.now.entries ≡ true) }
    ensures numbers { IfOk result
        (λ numbers. numbers.items ≡ numbers_in_set by_uid set.now view.now.entries) }
    ensures err { IfErr result (λ why. (why ≡ NoMemory)
        ⊎ ((why ≡ NoSuchMessage) × (is_in_range by_uid set.now view.now.entries ≡ false))) }
{
    match view.resolve(alloc, set, by_uid) {
        Ok(numbers) => Ok(numbers),
        Err(BadSet::OutOfRange) => Err(Refusal::NoSuchMessage),
        Err(BadSet::NoMemory) => Err(Refusal::NoMemory),
    }
}

/// The numbers among these whose messages the listing has.
pub fn existing_messages(
    alloc: Global,
    rows: &Rows<'_>,
    view: &ViewEntries,
    numbers: &[u32],
) -> Result<Vec<u32>, AllocError>
    ensures { IfOk result
        (λ existing. existing.items ≡ existing_messages rows.now view.now.items numbers.now) }
{
    let mut existing = Vec::new(alloc);
    for number in numbers {
        if message_at(rows, view, *number).is_some() {
            existing.push(*number)?;
        }
    }
    Ok(existing)
}

/// The names of the messages with these numbers: their UIDs or the numbers. `Err` if memory runs
/// out.
pub fn names_of(
    alloc: Global,
    by_uid: bool,
    view: &ViewEntries,
    numbers: &[u32],
) -> Result<Vec<u32>, AllocError>
    ensures { IfOk result (λ names. names.items ≡ names_of by_uid view.now.items numbers.now) }
{
    let mut names = Vec::with_capacity(alloc, numbers.len())?;
    for number in numbers {
        names.push(name_at(by_uid, view, *number))?;
    }
    Ok(names)
}

/// The name of the message with this number: its UID (0 if there is no such message) or the number.
fn name_at(by_uid: bool, view: &ViewEntries, number: u32) -> u32
    ensures { result ≡ name_at by_uid view.now.items number }
{
    if !by_uid {
        return number;
    }
    match entry_at(view, number) {
        Some(entry) => entry.uid,
        None => 0,
    }
}

/// The set of these numbers, which ascend and are at least 1. `Err` if memory runs out.
pub fn set_of(alloc: Global, numbers: &[u32]) -> Result<NumberSet, AllocError>
    requires { AreRisingFrom 1 numbers.now }
    ensures { IfOk result (λ set. set ≡ numbers.now) }
{
    let mut set = NumberSet::new(alloc);
    for number in numbers {
        set.push(*number)?;
    }
    Ok(set)
}
