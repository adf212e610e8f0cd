//! Notes of what differs between a view and a listing.

ghost use Rattle.std.specs.Prelude.{◌≡◌, ◌++◌, List, IfOk, OnOk, Some, if◌then◌else◌, [], ◌∷◌};
ghost use Rattle.mailbox_rows.specs.ListedMessage.{ListedMessage};
ghost use Rattle.mailbox_rows.specs.RowViews.{listed_message, row_of};
ghost use Rattle.imap_cases.specs.Differences.{note_by_row, notes_of_entries, notes_of_rows};
ghost use Rattle.session_view.specs.NoteChanges.{NoteAllChanges};
ghost use Rattle.session_view.specs.Views.{has_uid, same_flags};
ghost use Rattle.session_view.specs.declared.notes.Note.TheVariants.{New};
ghost use Rattle.session_view.specs.declared.view_entry.ViewEntry.{ViewEntry};

use imap_types::Flags;
use mailbox_rows::{Row, Rows};
use session_view::{Changes, Note, ViewEntries, ViewEntry};
use std::alloc::{AllocError, Global};

/// Notes of each message that differs between a view and a listing, and of no other. `Err` if
/// memory runs out.
pub fn differences(
    alloc: Global,
    rows: &Rows<'_>,
    view: &ViewEntries,
) -> Result<Changes, AllocError>
    ensures { IfOk result (λ changes. NoteAllChanges changes rows.now view.now.items) }
{
    let mut notes = Vec::new(alloc);
    push_entry_notes(rows, view, &mut notes)?;
    push_row_notes(rows, view, &mut notes)?;
    Ok(Changes::new(notes))
}

/// The note that an incarnation ended, which names all messages. `Err` if memory runs out.
pub fn note_of_end(alloc: Global) -> Result<Changes, AllocError>
    ensures { IfOk result (λ changes. (rows : List ListedMessage) (view : List ViewEntry)
        → NoteAllChanges changes rows view) }
{
    let mut notes = Vec::new(alloc);
    notes.push(Note::Ended)?;
    Ok(Changes::new(notes))
}

/// Appends notes of the view's messages that are gone or have other flags.
fn push_entry_notes(
    rows: &Rows<'_>,
    view: &ViewEntries,
    notes: &mut Vec<Note>,
) -> Result<(), AllocError>
    ensures { OnOk result
        (notes.new.items ≡ notes.old.items ++ notes_of_entries rows.now view.now.items) }
{
    for entry in view.iter_from(0) {
        push_entry_note(rows, entry, notes)?;
    }
    Ok(())
}

fn push_entry_note(
    rows: &Rows<'_>,
    entry: &ViewEntry,
    notes: &mut Vec<Note>,
) -> Result<(), AllocError>
    ensures { OnOk result (notes.new.items
        ≡ notes.old.items ++ note_by_row entry.now (row_of entry.now.uid rows.now)) }
{
    match rows.row_of(entry.uid) {
        Some(row) => push_if_changed(entry, &row, notes)?,
        None => notes.push(Note::Gone { uid: entry.uid })?,
    }
    Ok(())
}

fn push_if_changed(
    entry: &ViewEntry,
    row: &Row<'_>,
    notes: &mut Vec<Note>,
) -> Result<(), AllocError>
    ensures { OnOk result (notes.new.items
        ≡ notes.old.items ++ note_by_row entry.now (Some (listed_message row.now))) }
{
    if !are_same(&entry.flags, row) {
        notes.push(Note::Changed { uid: entry.uid })?;
    }
    Ok(())
}

fn are_same(flags: &Flags, row: &Row<'_>) -> bool
    ensures { result ≡ same_flags flags.now (listed_message row.now).flags }
{
    row.versions.has_flags(flags)
}

/// Appends notes of the listing's messages that the view lacks.
fn push_row_notes(
    rows: &Rows<'_>,
    view: &ViewEntries,
    notes: &mut Vec<Note>,
) -> Result<(), AllocError>
    ensures { OnOk result
        (notes.new.items ≡ notes.old.items ++ notes_of_rows view.now.items rows.now) }
{
    for place in 0..rows.count() as usize {
        match rows.row_at(place) {
            Some(row) => push_if_new(view, row.uid, notes)?,
            None => return Ok(()),
        }
    }
    Ok(())
}

fn push_if_new(view: &ViewEntries, uid: u32, notes: &mut Vec<Note>) -> Result<(), AllocError>
    ensures { OnOk result (notes.new.items
        ≡ notes.old.items ++ (if has_uid view.now.items uid then [] else New uid ∷ [])) }
{
    if !has_uid(view, uid) {
        notes.push(Note::New { uid })?;
    }
    Ok(())
}

/// Whether the view has a message with this UID.
fn has_uid(view: &ViewEntries, uid: u32) -> bool
    ensures { result ≡ has_uid view.now.items uid }
{
    for entry in view.iter_from(0) {
        if entry.uid == uid {
            return true;
        }
    }
    false
}
