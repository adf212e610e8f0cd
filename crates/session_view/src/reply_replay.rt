//! Replays of replies: a view after silent flags and untagged answers.

ghost use Rattle.std.specs.Prelude.{◌≡◌, ◌++◌, IfOk, OnOk};
ghost use Rattle.mailbox_rows.specs.RowViews.{AreRisingRows};
ghost use Rattle.session_view.specs.Views.{AreRising};
ghost use Rattle.session_view.specs.Replay.{after_answer, after_answers, after_silent};
ghost use Rattle.session_view.specs.Replay.{arrivals_up_to, with_fetched_flags, with_flags_at};
ghost use Rattle.session_view.specs.Replay.{view_after_reply, without_message};

use crate::comparison_sync::push_rows;
use crate::view_entry::{ViewEntries, ViewEntry, copy_entries, last_uid, uid_at};
use imap_answers::Answer;
use imap_types::Flags;
use mailbox_rows::Rows;
use std::alloc::{AllocError, Global};

/// The flags of a message that a session set without an answer (RFC 9051, section 6.4.6, .SILENT).
#[derive(Drop)]
pub struct SilentFlags {
    /// The message's number, from 1 on.
    pub number: u32,
    /// The flags that the message has from then on.
    pub flags: Flags,
}

/// The view's messages after a reply: first the session's silent flags are set, then the answers
/// are replayed one after another. `rows` is the listing from which EXISTS takes messages. `Err` if
/// memory runs out. Cost: a copy of the view, and a look-up for each answer.
pub fn replay_reply(
    alloc: Global,
    rows: &Rows<'_>,
    view: &ViewEntries,
    silents: &[SilentFlags],
    answers: &[Answer],
) -> Result<ViewEntries, AllocError>
    requires { AreRising 1 view.now.items }
    ensures entries { IfOk result (λ entries. entries.items
        ≡ view_after_reply rows.now view.now.items silents.now answers.now) }
    ensures rising { IfOk result (λ entries. AreRising 1 entries.items) }
{
    let _count = rows.count();
    let entries = replay_all(alloc, rows, view, silents, answers)?;
    Ok(entries)
}

fn replay_all(
    alloc: Global,
    rows: &Rows<'_>,
    view: &ViewEntries,
    silents: &[SilentFlags],
    answers: &[Answer],
) -> Result<ViewEntries, AllocError>
    ensures { IfOk result (λ entries. entries.items
        ≡ view_after_reply rows.now view.now.items silents.now answers.now) }
{
    let mut entries = copy_entries(alloc, view)?;
    for silent in silents {
        set_flags_at(alloc, silent.number, &silent.flags, &mut entries)?;
    }
    for answer in answers {
        take_answer(alloc, rows, answer, &mut entries)?;
    }
    Ok(entries)
}

/// Replays one answer. `Err` if memory runs out.
fn take_answer(
    alloc: Global,
    rows: &Rows<'_>,
    answer: &Answer,
    entries: &mut ViewEntries,
) -> Result<(), AllocError>
    ensures { OnOk result (entries.new.items ≡ after_answer rows.now entries.old.items answer.now) }
{
    match answer {
        Answer::Expunge { number } => take_out(*number, entries),
        Answer::Exists { count } => take_in(alloc, rows, *count, entries),
        Answer::Fetch { number, items } => match &items.flags {
            Some(flags) => set_flags_at(alloc, *number, flags, entries),
            None => Ok(()),
        },
        _ => Ok(()),
    }
}

/// Removes the message with this number, if there is one. Never fails.
fn take_out(number: u32, entries: &mut ViewEntries) -> Result<(), AllocError>
    ensures { OnOk result (entries.new.items ≡ without_message entries.old.items number) }
{
    take_number(number, entries);
    Ok(())
}

/// Removes the message with this number, if there is one. Takes no memory.
pub fn take_number(number: u32, entries: &mut ViewEntries)
    ensures { entries.new.items ≡ without_message entries.old.items number }
{
    if number == 0 {
        return;
    }
    if number as usize > entries.len() {
        return;
    }
    let _gone = entries.remove(number as usize - 1);
}

/// Appends the listing's next messages until there are `count`. `Err` if memory runs out.
fn take_in(
    alloc: Global,
    rows: &Rows<'_>,
    count: u32,
    entries: &mut ViewEntries,
) -> Result<(), AllocError>
    ensures { OnOk result
        (entries.new.items ≡ entries.old.items ++ arrivals_up_to rows.now entries.old.items count) }
{
    let uid = last_uid(entries);
    let missing = (count as usize).saturating_sub(entries.len());
    let _count = rows.count();
    push_rows(
        alloc,
        rows,
        rows.place_after_uid(uid),
        missing as u32,
        entries,
    )
}

/// Sets the flags of the message with this number to a copy of `flags`, if there is such a message.
/// `Err` if memory runs out.
fn set_flags_at(
    alloc: Global,
    number: u32,
    flags: &Flags,
    entries: &mut ViewEntries,
) -> Result<(), AllocError>
    ensures { OnOk result (entries.new.items ≡ with_flags_at entries.old.items number flags.now) }
{
    let copy = flags.copy(alloc)?;
    set_flags(number, copy, entries);
    Ok(())
}

/// Sets the flags of the message with this number, if there is one. Takes no memory.
pub fn set_flags(number: u32, flags: Flags, entries: &mut ViewEntries)
    ensures { entries.new.items ≡ with_flags_at entries.old.items number flags }
{
    if number == 0 {
        return;
    }
    if number as usize > entries.len() {
        return;
    }
    let place = number as usize - 1;
    let uid = uid_at(entries, place);
    let _old = entries.replace(place, ViewEntry { uid, flags });
}
