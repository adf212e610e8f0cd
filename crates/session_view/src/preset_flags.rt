//! Flags that are set before a sync: those that a session sets silently, and those that a command's
//! own answers report.

ghost use Rattle.std.specs.Prelude.{◌≡◌, ◌++◌, ◌∷◌, true, List, IfOk, OnOk};
ghost use Rattle.session_view.specs.NoteChanges.{AreUpTo, all_fetched_flags, all_silent_notes};
ghost use Rattle.session_view.specs.NoteChanges.{fetched_flags, with_flags_restored, silent_notes};
ghost use Rattle.session_view.specs.Replay.{after_silent, with_flags_at};
ghost use Rattle.session_view.specs.declared.reply_replay.SilentFlags.{SilentFlags};

use crate::notes::Note;
use crate::reply_replay::SilentFlags;
use crate::view_entry::{ViewEntries, ViewEntry, uid_at};
use imap_answers::Answer;
use imap_types::Flags;
use std::alloc::{AllocError, Global};
use std::mem;

/// Those of these flags, in their order, that the view's messages don't have already. Setting only
/// these has the same result. Flags with a number that isn't above all earlier numbers stay, since
/// earlier flags may have changed their message. `Err` if memory runs out. Cost: a look-up for
/// each.
pub fn flags_to_set(
    alloc: Global,
    silents: &[SilentFlags],
    view: &ViewEntries,
) -> Result<Vec<SilentFlags>, AllocError>
    ensures { IfOk result
        (λ left. after_silent view.now.items left.items ≡ after_silent view.now.items silents.now) }
{
    let mut left = Vec::new(alloc);
    push_all_to_set(alloc, silents, view, 0, &mut left)?;
    Ok(left)
}

/// `flags_to_set` for flags that are set silently, followed by those that answers report.
pub fn silent_and_answer_flags(
    alloc: Global,
    silents: &[SilentFlags],
    answers: &[Answer],
    view: &ViewEntries,
) -> Result<Vec<SilentFlags>, AllocError>
    ensures { IfOk result (λ left. after_silent view.now.items left.items
        ≡ after_silent view.now.items (silents.now ++ all_fetched_flags answers.now)) }
{
    let mut left = Vec::new(alloc);
    let last = push_all_to_set(alloc, silents, view, 0, &mut left)?;
    push_all_answer_flags(alloc, answers, view, last, &mut left)?;
    Ok(left)
}

/// Appends each of these flags that `flags_to_set` leaves. `last` is the greatest number so far.
/// Returns the new greatest number. `Err` if memory runs out.
fn push_all_to_set(
    alloc: Global,
    silents: &[SilentFlags],
    view: &ViewEntries,
    last: u32,
    left: &mut Vec<SilentFlags>,
) -> Result<u32, AllocError>
    requires { AreUpTo last left.old.items }
    ensures up { IfOk result (λ last. AreUpTo last left.new.items) }
    ensures same { OnOk result ((rest : List SilentFlags)
        → after_silent view.now.items (left.new.items ++ rest)
        ≡ after_silent view.now.items (left.old.items ++ (silents.now ++ rest))) }
{
    let mut last = last;
    for silent in silents {
        last = push_to_set(alloc, silent.number, &silent.flags, view, last, left)?;
    }
    Ok(last)
}

/// Does what `push_all_to_set` does for the flags that answers report.
fn push_all_answer_flags(
    alloc: Global,
    answers: &[Answer],
    view: &ViewEntries,
    last: u32,
    left: &mut Vec<SilentFlags>,
) -> Result<u32, AllocError>
    requires { AreUpTo last left.old.items }
    ensures up { IfOk result (λ last. AreUpTo last left.new.items) }
    ensures same { OnOk result ((rest : List SilentFlags)
        → after_silent view.now.items (left.new.items ++ rest)
        ≡ after_silent view.now.items
        (left.old.items ++ (all_fetched_flags answers.now ++ rest))) }
{
    let mut last = last;
    for answer in answers {
        last = push_answer_flags(alloc, answer, view, last, left)?;
    }
    Ok(last)
}

/// Does what `push_all_to_set` does for the flags that one answer reports, if any.
fn push_answer_flags(
    alloc: Global,
    answer: &Answer,
    view: &ViewEntries,
    last: u32,
    left: &mut Vec<SilentFlags>,
) -> Result<u32, AllocError>
    requires { AreUpTo last left.old.items }
    ensures up { IfOk result (λ last. AreUpTo last left.new.items) }
    ensures same { OnOk result ((rest : List SilentFlags)
        → after_silent view.now.items (left.new.items ++ rest)
        ≡ after_silent view.now.items (left.old.items ++ (fetched_flags answer.now ++ rest))) }
{
    match answer {
        Answer::Fetch { number, items } => match &items.flags {
            Some(flags) => push_to_set(alloc, *number, flags, view, last, left),
            None => Ok(last),
        },
        _ => Ok(last),
    }
}

/// Appends these flags, unless their number is above `last` and the view's message has them.
/// Returns the new greatest number. `Err` if memory runs out.
#[tactic(auto, using(crate::proofs::FlagLemmas::left_out, crate::proofs::FlagLemmas::after_silent_append_one, crate::proofs::FlagLemmas::are_up_to_append))]
fn push_to_set(
    alloc: Global,
    number: u32,
    flags: &Flags,
    view: &ViewEntries,
    last: u32,
    left: &mut Vec<SilentFlags>,
) -> Result<u32, AllocError>
    requires { AreUpTo last left.old.items }
    ensures up { IfOk result (λ last. AreUpTo last left.new.items) }
    ensures same { OnOk result ((rest : List SilentFlags)
        → after_silent view.now.items (left.new.items ++ rest)
        ≡ after_silent view.now.items
        (left.old.items ++ record { number = number; flags = flags.now } ∷ rest)) }
{
    if last < number && has_flags(view, number, flags) {
        return Ok(last);
    }
    left.push(SilentFlags {
        number,
        flags: flags.copy(alloc)?,
    })?;
    Ok(last.max(number))
}

/// Whether the message with this number has these flags already.
#[tactic(auto, using(crate::proofs::FlagLemmas::flags_same))]
fn has_flags(view: &ViewEntries, number: u32, flags: &Flags) -> bool
    ensures { result ≡ true → with_flags_at view.now.items number flags.now ≡ view.now.items }
{
    if number == 0 {
        return false;
    }
    match view.get(number as usize - 1) {
        Some(entry) => entry.flags.same(flags),
        None => false,
    }
}

/// Does what `set_all_flags` does in a view's messages.
pub fn set_flags_in(silents: &mut Vec<SilentFlags>, entries: &mut ViewEntries)
    ensures set { entries.new.items ≡ after_silent entries.old.items silents.old.items }
    ensures back { with_flags_restored entries.new.items silents.new.items ≡ entries.old.items }
{
    let alloc = *silents.allocator();
    set_all_flags(alloc, silents.as_mut_slice(), entries);
}

/// Does what `restore_all_flags` does in a view's messages.
pub fn restore_flags_in(silents: &mut Vec<SilentFlags>, entries: &mut ViewEntries)
    ensures back { entries.new.items ≡ with_flags_restored entries.old.items silents.old.items }
    ensures set { after_silent entries.new.items silents.new.items ≡ entries.old.items }
{
    let alloc = *silents.allocator();
    restore_all_flags(alloc, silents.as_mut_slice(), entries);
}

/// Sets messages' flags, one after another, and leaves the old flags in `silents`. Takes no memory.
fn set_all_flags(alloc: Global, silents: &mut [SilentFlags], entries: &mut ViewEntries)
    ensures set { entries.new.items ≡ after_silent entries.old.items silents.old }
    ensures back { with_flags_restored entries.new.items silents.new ≡ entries.old.items }
{
    for i in 0..silents.len() {
        exchange(alloc, &mut silents[i], entries);
    }
}

/// Restores messages' flags, the last one first, and leaves the replaced flags in `silents`. Takes
/// no memory.
fn restore_all_flags(alloc: Global, silents: &mut [SilentFlags], entries: &mut ViewEntries)
    ensures back { entries.new.items ≡ with_flags_restored entries.old.items silents.old }
    ensures set { after_silent entries.new.items silents.new ≡ entries.old.items }
{
    for i in (0..silents.len()).rev() {
        exchange(alloc, &mut silents[i], entries);
    }
}

/// Exchanges these flags with those of the message with their number, if there is one. Takes no
/// memory.
fn exchange(alloc: Global, silent: &mut SilentFlags, entries: &mut ViewEntries)
    ensures set { entries.new.items
        ≡ with_flags_at entries.old.items silent.old.number silent.old.flags }
    ensures back { with_flags_at entries.new.items silent.new.number silent.new.flags
        ≡ entries.old.items }
{
    if silent.number == 0 {
        return;
    }
    if silent.number as usize > entries.len() {
        return;
    }
    let place = silent.number as usize - 1;
    let uid = uid_at(entries, place);
    let flags = mem::replace(&mut silent.flags, Flags::none(alloc));
    let ViewEntry { uid: _, flags } = entries.replace(place, ViewEntry { uid, flags });
    silent.flags = flags;
}

/// Appends a note of each message whose flags are set. `Err` if memory runs out.
pub fn push_flag_notes(
    silents: &[SilentFlags],
    view: &ViewEntries,
    notes: &mut Vec<Note>,
) -> Result<(), AllocError>
    ensures { OnOk result
        (notes.new.items ≡ notes.old.items ++ all_silent_notes view.now.items silents.now) }
{
    for silent in silents {
        push_flag_note(silent.number, view, notes)?;
    }
    Ok(())
}

/// Appends a note of the message with this number, if there is one. `Err` if memory runs out.
fn push_flag_note(number: u32, view: &ViewEntries, notes: &mut Vec<Note>) -> Result<(), AllocError>
    ensures { OnOk result
        (notes.new.items ≡ notes.old.items ++ silent_notes view.now.items number) }
{
    if number == 0 {
        return Ok(());
    }
    if number as usize > view.len() {
        return Ok(());
    }
    let uid = uid_at(view, number as usize - 1);
    notes.push(Note::Changed { uid })?;
    Ok(())
}
