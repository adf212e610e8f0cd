//! Notes of what may differ between a view and its mailbox's listing.

ghost use Rattle.std.specs.Prelude.{◌≡◌, ◌==◌, ℕ, ◌++◌, List, IfOk, OnOk};
ghost use Rattle.std.specs.List.{list_any};
ghost use Rattle.mailbox_rows.specs.ListedMessage.{ListedMessage};
ghost use Rattle.session_view.specs.NoteChanges.{AreAscending, NoteAllChanges, is_end, uid_in};
ghost use Rattle.session_view.specs.NoteChanges.{uids_in, uids_of};
ghost use Rattle.session_view.specs.Notes.{NameAllDifferences};
ghost use Rattle.session_view.specs.Views.{AreRising};

use crate::view_entry::ViewEntries;
use std::alloc::{AllocError, Global};
use std::marker::Model;

/// A possible difference between a view and its mailbox's listing.
#[derive(Clone, Copy, Debug, PartialEq, Eq)]
pub enum Note {
    /// The message with this UID arrived.
    New { uid: u32 },
    /// The message with this UID is gone.
    Gone { uid: u32 },
    /// The message with this UID may have changed, or may be gone.
    Changed { uid: u32 },
    /// The mailbox's incarnation ended, so all of its messages are gone.
    Ended,
}

/// Notes of what may differ between a view and its mailbox's listing.
#[derive(Drop)]
pub struct Changes {
    notes: Vec<Note>,
}

impl Model for Changes {
    ghost use Rattle.std.specs.Prelude.{List};
    ghost use Rattle.session_view.specs.declared.notes.Note.{Note};

    ghost Value = { List Note };

    ghost view = { λ c. c.notes.items };
}

impl Changes {
    /// Turns these notes into `Changes`, in the same memory.
    pub fn new(notes: Vec<Note>) -> Changes
        ensures { result ≡ notes.items }
    {
        Changes { notes }
    }

    /// The notes, with their memory.
    pub fn into_notes(self) -> Vec<Note>
        ensures { result.items ≡ self }
    {
        let Changes { notes } = self;
        notes
    }

    /// The notes, in their order.
    pub fn notes(&self) -> &[Note]
        ensures { result.now ≡ self.now }
    {
        &self.notes
    }
}

/// The UIDs that the notes name, ascending. If the incarnation ended, they are all UIDs of the
/// view. `Err` if memory runs out.
pub fn noted_uids(alloc: Global, notes: &[Note], view: &ViewEntries) -> Result<Vec<u32>, AllocError>
    requires { AreRising 1 view.now.items }
    ensures ascending { IfOk result (λ uids. AreAscending 0 uids.items) }
    ensures covers { IfOk result (λ uids. (rows : List ListedMessage)
        → NoteAllChanges notes.now rows view.now.items
        → NameAllDifferences uids.items rows view.now.items) }
{
    if has_ended(notes) {
        return uids_of(alloc, view);
    }
    ascending_uids(alloc, notes)
}

/// The UIDs that the notes name one by one, ascending. `Err` if memory runs out.
fn ascending_uids(alloc: Global, notes: &[Note]) -> Result<Vec<u32>, AllocError>
    ensures ascending { IfOk result (λ uids. AreAscending 0 uids.items) }
    ensures same { IfOk result (λ uids. (uid : ℕ)
        → list_any (λ u. u == uid) uids.items ≡ list_any (λ u. u == uid) (uids_in notes.now)) }
{
    let mut uids = uids_in(alloc, notes)?;
    uids.sort_by_key(|uid| *uid)?;
    Ok(uids)
}

fn uids_in(alloc: Global, notes: &[Note]) -> Result<Vec<u32>, AllocError>
    ensures { IfOk result (λ uids. uids.items ≡ uids_in notes.now) }
{
    let mut uids = Vec::with_capacity(alloc, notes.len())?;
    for note in notes {
        push_uid(note, &mut uids)?;
    }
    Ok(uids)
}

fn push_uid(note: &Note, uids: &mut Vec<u32>) -> Result<(), AllocError>
    ensures { OnOk result (uids.new.items ≡ uids.old.items ++ uid_in note.now) }
{
    match note {
        Note::New { uid } => uids.push(*uid)?,
        Note::Gone { uid } => uids.push(*uid)?,
        Note::Changed { uid } => uids.push(*uid)?,
        Note::Ended => {}
    }
    Ok(())
}

/// The UIDs of a view's messages. `Err` if memory runs out.
fn uids_of(alloc: Global, view: &ViewEntries) -> Result<Vec<u32>, AllocError>
    ensures { IfOk result (λ uids. uids.items ≡ uids_of view.now.items) }
{
    let mut uids = Vec::with_capacity(alloc, view.len())?;
    for entry in view.iter_from(0) {
        uids.push(entry.uid)?;
    }
    Ok(uids)
}

/// Whether one of the notes says that the incarnation ended.
fn has_ended(notes: &[Note]) -> bool
    ensures { result ≡ list_any is_end notes.now }
{
    for note in notes {
        if is_end(note) {
            return true;
        }
    }
    false
}

fn is_end(note: &Note) -> bool
    ensures { result ≡ is_end note.now }
{
    match note {
        Note::Ended => true,
        _ => false,
    }
}
