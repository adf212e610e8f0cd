//! Change notes: what operations changed, mailbox by mailbox.

ghost use Rattle.std.specs.Prelude.{◌≡◌, ◌⊎◌, ◌≤◌, ◌<◌, ◌++◌, ◌∷◌, ℕ, List, [], true, IfOk, OnOk};
ghost use Rattle.crdt_ops.specs.declared.op.Op.{Op};
ghost use Rattle.crdt_ops.specs.Tags.{name_of};
ghost use Rattle.imap_node.specs.SessionFeeds.{AreChangeNotes, NotesNameIn, is_named, notes_in};
ghost use Rattle.imap_node.specs.ChangeNotes.{AreNotesSoFar, IsSnapshotOf, NamesTouched};
ghost use Rattle.imap_node.specs.Nodes.{IsReady};
ghost use Rattle.merge_laws.specs.Orders.{IsIn};
ghost use Rattle.session_view.specs.NoteChanges.{is_noted};
ghost use Rattle.uid_projection.specs.Incarnations.{uidvalidity_of};
ghost use Rattle.uid_projection.specs.UidsAndModSeqs.{uidnext_of};
ghost use Rattle.session_view.specs.declared.notes.Note.TheVariants.{Ended};
ghost use Rattle.uid_projection.specs.Applied.{IsApplied};
ghost use Rattle.uid_projection.specs.declared.first_numbers.Counters.{Counters};

use crate::replica::ReplicaState;
use crdt_ops::{Kind, SoundOp};
use imap_types::Name;
use session_view::Note;
use std::alloc::{AllocError, Global};
use std::marker::Model;

/// The notes of what operations changed in one mailbox.
#[derive(Drop)]
pub struct MailboxNotes {
    name: Name,
    notes: Vec<Note>,
}

impl Model for MailboxNotes {
    ghost use Rattle.imap_node.specs.SessionFeeds.{MailboxNotes};

    ghost Value = { MailboxNotes };

    ghost view = { λ f. record { name = f.name; notes = f.notes.items } };
}

/// The notes of what operations changed, for each mailbox that they name.
pub struct ChangeNotes {
    folders: Vec<MailboxNotes>,
}

// By hand, so that crates above drop it whole.
impl Drop for ChangeNotes {
    fn drop(self) {
        let Self { folders: _ } = self;
    }
}

impl Model for ChangeNotes {
    ghost use Rattle.std.specs.Prelude.{List};
    ghost use Rattle.imap_node.specs.SessionFeeds.{MailboxNotes};

    ghost Value = { List MailboxNotes };

    ghost view = { λ n. n.folders.items };
}

impl ChangeNotes {
    /// No change notes.
    pub fn none(alloc: Global) -> ChangeNotes
        ensures { result ≡ [] }
    {
        ChangeNotes {
            folders: Vec::new(alloc),
        }
    }

    /// The notes of the mailbox `name`; none if it isn't listed.
    pub fn notes_of<'a>(&'a self, name: &Name) -> &'a [Note]
        ensures { result.now ≡ notes_in self.now name.now }
    {
        notes_among(&self.folders, name)
    }

    /// Whether no mailbox is listed.
    pub fn is_empty(&self) -> bool
        ensures { result ≡ true → self.now ≡ [] }
    {
        self.folders.is_empty()
    }
}

/// The notes of the mailbox `name` in `folders`; none if it isn't listed there.
fn notes_among<'a>(folders: &'a [MailboxNotes], name: &Name) -> &'a [Note]
    ensures { result.now ≡ notes_in folders.now name.now }
{
    for folder in folders {
        if folder.name.as_bytes() == name.as_bytes() {
            return &folder.notes;
        }
    }
    &[]
}

/// A mailbox before operations that come next: its UIDVALIDITY, its UIDNEXT, and the UIDs whose
/// rows the operations change. These UIDs are looked up beforehand, while the messages that the
/// operations expunge still exist.
pub struct MailboxSnapshot {
    name: Name,
    uidvalidity: Option<u32>,
    uidnext: u32,
    touched: Vec<u32>,
}

// By hand, so that crates above drop it whole.
impl Drop for MailboxSnapshot {
    fn drop(self) {
        let Self {
            name: _,
            uidvalidity: _,
            uidnext: _,
            touched: _,
        } = self;
    }
}

impl Model for MailboxSnapshot {
    ghost use Rattle.imap_node.specs.ChangeNotes.{MailboxSnapshot};

    ghost Value = { MailboxSnapshot };

    ghost view = { λ a. record {
      name = a.name;
      uidvalidity = a.uidvalidity;
      uidnext = a.uidnext;
      touched = a.touched.items;
    } };
}

impl MailboxSnapshot {
    /// The mailbox `name` before `ops`, which come next; `Err` if memory runs out. Cost:
    /// proportional to what the operations name.
    pub fn before_ops(
        alloc: Global,
        replica: &ReplicaState,
        name: &Name,
        ops: &[SoundOp],
    ) -> Result<MailboxSnapshot, AllocError>
        ensures { IfOk result
            (λ snapshot. IsSnapshotOf replica.now.start replica.now.applied ops.now name.now
            snapshot) }
    {
        let (uidvalidity, uidnext) = replica.numbers(name);
        Ok(MailboxSnapshot {
            name: name.copy(alloc)?,
            uidvalidity,
            uidnext,
            touched: replica.touched_uids(alloc, name, ops)?,
        })
    }

    /// The mailbox's name.
    pub fn name(&self) -> &Name
        ensures { result.now ≡ self.now.name }
    {
        &self.name
    }

    /// Notes of what the operations changed in the mailbox, given its UIDVALIDITY and UIDNEXT after
    /// them; `Err` if memory runs out. Cost: proportional to what they changed.
    pub fn notes(
        self,
        alloc: Global,
        uidvalidity: Option<u32>,
        uidnext: u32,
    ) -> Result<MailboxNotes, AllocError>
        ensures name { IfOk result (λ folder. folder.name ≡ self.name) }
        ensures notes { (start : Counters) (before ops : List Op) → IsApplied (before ++ ops)
            → IsSnapshotOf start before ops self.name self
            → uidvalidity ≡ uidvalidity_of start self.name (before ++ ops)
            → uidnext ≡ uidnext_of start self.name (before ++ ops)
            → IfOk result
            (λ folder. NotesNameIn start before (before ++ ops) self.name folder.notes) }
    {
        let Self {
            name,
            uidvalidity: before,
            uidnext: first,
            touched,
        } = self;
        let notes = notes_after(alloc, before, uidvalidity, first, uidnext, &touched)?;
        Ok(MailboxNotes { name, notes })
    }
}

/// Notes of what may differ in a mailbox: everything, if its UIDVALIDITY changed or it had none;
/// else the messages with the UIDs `touched` and those from the old UIDNEXT up to the new one.
fn notes_after(
    alloc: Global,
    before: Option<u32>,
    now: Option<u32>,
    first: u32,
    uidnext: u32,
    touched: &[u32],
) -> Result<Vec<Note>, AllocError>
    ensures { IfOk result (λ notes. NamesTouched before now first uidnext touched.now notes.items) }
{
    if !is_same(before, now) {
        return all_may_differ(alloc);
    }
    let mut notes = Vec::with_capacity(alloc, touched.len())?;
    push_changed_notes(touched, &mut notes)?;
    push_new(first, uidnext, &mut notes)?;
    Ok(notes)
}

/// Whether there is a UIDVALIDITY, and it didn't change.
fn is_same(before: Option<u32>, now: Option<u32>) -> bool
    ensures { result ≡ true → before ≡ now }
{
    match (before, now) {
        (Some(before), Some(now)) => before == now,
        _ => false,
    }
}

/// The note that everything in a mailbox may differ.
fn all_may_differ(alloc: Global) -> Result<Vec<Note>, AllocError>
    ensures { IfOk result (λ notes. notes.items ≡ Ended ∷ []) }
{
    let mut notes = Vec::with_capacity(alloc, 1)?;
    notes.push_reserved(Note::Ended);
    Ok(notes)
}

/// Notes the messages with these UIDs as changed.
fn push_changed_notes(uids: &[u32], notes: &mut Vec<Note>) -> Result<(), AllocError>
    ensures { OnOk result ((uid : ℕ) → ((is_noted notes.old.items uid ≡ true) ⊎ IsIn uid uids.now)
        → is_noted notes.new.items uid ≡ true) }
{
    for uid in uids {
        notes.push(Note::Changed { uid: *uid })?;
    }
    Ok(())
}

/// Notes the messages with the UIDs from `first` up to, and without, `end` as new.
fn push_new(first: u32, end: u32, notes: &mut Vec<Note>) -> Result<(), AllocError>
    ensures { OnOk result ((uid : ℕ)
        → ((is_noted notes.old.items uid ≡ true) ⊎ ((first ≤ uid) × (uid < end)))
        → is_noted notes.new.items uid ≡ true) }
{
    for uid in first..end {
        notes.push(Note::New { uid })?;
    }
    Ok(())
}

/// What a replica's own next operations change in the mailboxes that they name; `Err` if memory
/// runs out. Cost: for each mailbox, proportional to what the operations name.
pub fn change_notes_of_issue(
    alloc: Global,
    replica: &ReplicaState,
    ops: &[SoundOp],
) -> Result<ChangeNotes, AllocError>
    requires { IsReady replica.now ops.now }
    ensures { IfOk result (λ change_notes. AreChangeNotes replica.now.start replica.now.applied
        (replica.now.applied ++ ops.now) change_notes) }
{
    let mut folders = Vec::new(alloc);
    for op in ops {
        push_notes_of_op(alloc, replica, ops, &op.op().kind, &mut folders)?;
    }
    Ok(ChangeNotes { folders })
}

/// Adds what the operations change in the mailbox that one of them names, unless it is listed
/// already.
fn push_notes_of_op(
    alloc: Global,
    replica: &ReplicaState,
    ops: &[SoundOp],
    kind: &Kind,
    folders: &mut Vec<MailboxNotes>,
) -> Result<(), AllocError>
    requires { IsReady replica.now ops.now }
    ensures { OnOk result (AreNotesSoFar replica.now.start replica.now.applied ops.now
        (name_of kind.now) folders.old.items folders.new.items) }
{
    let name = kind.name();
    if is_named(folders, name) {
        return Ok(());
    }
    folders.push(notes_of_mailbox(alloc, replica, ops, name)?)?;
    Ok(())
}

/// What the operations change in the mailbox `name`.
fn notes_of_mailbox(
    alloc: Global,
    replica: &ReplicaState,
    ops: &[SoundOp],
    name: &Name,
) -> Result<MailboxNotes, AllocError>
    requires { IsReady replica.now ops.now }
    ensures name { IfOk result (λ folder. folder.name ≡ name.now) }
    ensures notes { IfOk result (λ folder. NotesNameIn replica.now.start replica.now.applied
        (replica.now.applied ++ ops.now) name.now folder.notes) }
{
    let snapshot = MailboxSnapshot::before_ops(alloc, replica, name, ops)?;
    snapshot.notes(
        alloc,
        replica.uidvalidity_after(name, ops),
        replica.uidnext_after(name, ops),
    )
}

/// The mailbox that an operation names, before the operation; `Err` if memory runs out.
pub fn snapshot_of(
    alloc: Global,
    replica: &ReplicaState,
    ops: &[SoundOp],
) -> Result<MailboxSnapshot, AllocError>
    requires { (op : Op) × (ops.now ≡ op ∷ []) }
    ensures { (op : Op) → ops.now ≡ op ∷ []
        → IfOk result (λ snapshot. IsSnapshotOf replica.now.start replica.now.applied (op ∷ [])
        (name_of op.kind) snapshot) }
{
    let kind = &ops[0].op().kind;
    MailboxSnapshot::before_ops(alloc, replica, kind.name(), ops)
}

/// The changes of an operation that a replica has just applied, given the operation's mailbox
/// before it; `Err` if memory runs out. Cost: proportional to what it changed.
pub fn change_notes_of_delivery(
    alloc: Global,
    replica: &ReplicaState,
    snapshot: MailboxSnapshot,
) -> Result<ChangeNotes, AllocError>
    ensures { (before : List Op) (op : Op)
        → IsSnapshotOf replica.now.start before (op ∷ []) (name_of op.kind) snapshot
        → replica.now.applied ≡ before ++ op ∷ []
        → IfOk result
        (λ change_notes. AreChangeNotes replica.now.start before replica.now.applied change_notes) }
{
    let _list = replica.op_list();
    let uidvalidity = replica.uidvalidity(snapshot.name());
    let uidnext = replica.uidnext(snapshot.name());
    let folder = snapshot.notes(alloc, uidvalidity, uidnext)?;
    let mut folders = Vec::with_capacity(alloc, 1)?;
    folders.push_reserved(folder);
    Ok(ChangeNotes { folders })
}

/// Whether the mailbox `name` is among these.
fn is_named(folders: &[MailboxNotes], name: &Name) -> bool
    ensures { result ≡ is_named folders.now name.now }
{
    for folder in folders {
        if folder.name.as_bytes() == name.as_bytes() {
            return true;
        }
    }
    false
}
