//! Plans the sync of a view by its feed.

ghost use Rattle.std.specs.List.{list_any};
ghost use Rattle.std.specs.Prelude.{◌≡◌, ◌++◌, ◌∷◌, [], true, length, List, IfOk, OnOk};
ghost use Rattle.mailbox_rows.specs.ListedMessage.{ListedMessage};
ghost use Rattle.session_view.specs.NoteChanges.{NoteAllChanges, is_end};
ghost use Rattle.session_view.specs.Replay.{after_silent};
ghost use Rattle.session_view.specs.Sync.{expunges, sync_answers, view_after_sync};
ghost use Rattle.session_view.specs.Views.{entries_of};
ghost use Rattle.session_view.specs.declared.notes.Note.TheVariants.{Ended};
ghost use Rattle.session_view.specs.declared.view_entry.SyncKind.TheVariants.{Full};
ghost use Rattle.session_view.specs.declared.view_entry.ViewEntry.{ViewEntry};
ghost use Rattle.idle_feed.specs.NotedFeeds.{CanCommit, IsChangeTo, NotesAllOf};
ghost use Rattle.idle_feed.specs.NotedFeeds.{entries_after_change};

use crate::feed::Feed;
use crate::view_change::ViewChange;
use chunk_list::ChunkList;
use imap_answers::Answer;
use mailbox_rows::Rows;
use session_view::{
    Note, SilentFlags, SyncForm, SyncKind, SyncOutcome, SyncPlan, SyncPlanAfterFlags, View,
    count_of, equal_counts_suffice, notes_keep_up, replay_reply, sync_by_comparison,
};
use std::alloc::{AllocError, Global};

/// The plan of a sync: the answers that it sends, and the change that it makes to the view.
#[derive(Drop)]
pub struct PlannedSync {
    /// The answers that the sync sends.
    pub answers: Vec<Answer>,
    /// The change that the sync makes to the view.
    pub change: ViewChange,
}

/// Notes that name how a view differs from its mailbox's listing.
#[derive(Drop)]
pub struct NotedChanges<'a> {
    /// The differences between the view and an earlier listing.
    pub feed: &'a Feed,
    /// The differences between that listing and the current one.
    pub notes: &'a [Note],
}

/// Plans a sync that first sets `first`: flags that the session set itself or that were reported to
/// it. `noted` names every row that differs between the view and the listing. View and feed stay
/// unchanged, so nothing must be put back if the input is refused. `Err` if memory runs out. The
/// cost is a look-up for each note, and one pass over the view and the listing only if the feed
/// missed some notes. If the incarnation ended, the cost is an EXPUNGE for each of the view's
/// messages in a full sync, and nothing in a partial one.
pub fn plan(
    alloc: Global,
    view: &mut View,
    rows: &Rows<'_>,
    noted: NotedChanges<'_>,
    first: Vec<SilentFlags>,
    form: SyncForm,
) -> Result<PlannedSync, AllocError>
    requires { (before : List ListedMessage)
        × NotesAllOf noted.feed.now.pending before view.old.entries
        × NoteAllChanges noted.notes.now rows.now (entries_of before) }
    ensures same { view.new ≡ view.old }
    ensures answers { IfOk result (λ plan. plan.answers.items
        ≡ sync_answers form.kind form.modseq rows.now (after_silent view.old.entries first.items)) }
    ensures changed { IfOk result (λ plan. entries_after_change view.old.entries plan.change
        ≡ view_after_sync form.kind rows.now (after_silent view.old.entries first.items)) }
    ensures change { IfOk result (λ plan. IsChangeTo rows.now view.old.entries plan.change) }
    ensures can { IfOk result (λ plan. CanCommit view.old.entries plan.change) }
{
    let NotedChanges { feed, notes } = noted;
    let Some(feed_notes) = feed.notes() else {
        return plan_by_comparison(alloc, view, rows, first, form);
    };
    if rows.count() == 0 && (have_end(feed_notes) || have_end(notes)) {
        return plan_at_end(alloc, view, first, form);
    }
    let all = join_notes(alloc, feed_notes, notes)?;
    plan_in_place(alloc, view, rows, all, first, form)
}

/// The plan of a sync after the end of an incarnation, when nothing is listed: a full sync takes
/// all messages out, and a partial one takes none out. `Err` if memory runs out.
fn plan_at_end(
    alloc: Global,
    view: &View,
    first: Vec<SilentFlags>,
    form: SyncForm,
) -> Result<PlannedSync, AllocError>
    ensures answers { IfOk result (λ plan. plan.answers.items
        ≡ sync_answers form.kind form.modseq [] (after_silent view.now.entries first.items)) }
    ensures changed { IfOk result (λ plan. entries_after_change view.now.entries plan.change
        ≡ view_after_sync form.kind [] (after_silent view.now.entries first.items)) }
    ensures change { IfOk result (λ plan. IsChangeTo [] view.now.entries plan.change) }
    ensures can { IfOk result (λ plan. CanCommit view.now.entries plan.change) }
{
    match form.kind {
        SyncKind::Full => {
            drop(first);
            Ok(PlannedSync {
                answers: expunges_of_all(alloc, count_of(view.entries()))?,
                change: ViewChange::Rebuilt {
                    entries: ChunkList::new(alloc),
                    left: Vec::new(alloc),
                    whole: true,
                },
            })
        }
        SyncKind::Partial => Ok(PlannedSync {
            answers: Vec::new(alloc),
            change: ViewChange::Kept {
                first,
                left: all_may_differ(alloc)?,
            },
        }),
    }
}

/// EXPUNGE of all of `count` messages, from the greatest number down. `Err` if memory runs out.
fn expunges_of_all(alloc: Global, count: u32) -> Result<Vec<Answer>, AllocError>
    ensures { IfOk result (λ answers. (view : List ViewEntry) → length view ≡ count
        → answers.items ≡ expunges [] 1 view) }
{
    let mut answers = Vec::new(alloc);
    for place in (0..count).rev() {
        answers.push(Answer::Expunge { number: place + 1 })?;
    }
    Ok(answers)
}

/// The plan of a sync that looks at the whole view.
fn plan_by_comparison(
    alloc: Global,
    view: &mut View,
    rows: &Rows<'_>,
    first: Vec<SilentFlags>,
    form: SyncForm,
) -> Result<PlannedSync, AllocError>
    ensures same { view.new ≡ view.old }
    ensures answers { IfOk result (λ plan. plan.answers.items
        ≡ sync_answers form.kind form.modseq rows.now (after_silent view.old.entries first.items)) }
    ensures changed { IfOk result (λ plan. entries_after_change view.old.entries plan.change
        ≡ view_after_sync form.kind rows.now (after_silent view.old.entries first.items)) }
    ensures change { IfOk result (λ plan. IsChangeTo rows.now view.old.entries plan.change) }
    ensures can { IfOk result (λ plan. CanCommit view.old.entries plan.change) }
{
    match form.kind {
        SyncKind::Full => plan_rebuilt_view(alloc, view, rows, first, form),
        SyncKind::Partial => {
            notes_keep_up();
            plan_in_place(alloc, view, rows, all_may_differ(alloc)?, first, form)
        }
    }
}

/// The note that all messages may differ. `Err` if memory runs out.
fn all_may_differ(alloc: Global) -> Result<Vec<Note>, AllocError>
    ensures { IfOk result (λ notes. notes.items ≡ Ended ∷ []) }
{
    let mut notes = Vec::with_capacity(alloc, 1)?;
    notes.push_reserved(Note::Ended);
    Ok(notes)
}

/// Whether one of these notes says that an incarnation ended, so that all of its messages may
/// differ.
fn have_end(notes: &[Note]) -> bool
    ensures { result ≡ list_any is_end notes.now }
{
    for note in notes {
        if is_end(note) {
            return true;
        }
    }
    false
}

fn is_end(note: &Note) -> bool
    ensures { result ≡ is_end note.now }
{
    match note {
        Note::Ended => true,
        _ => false,
    }
}

/// All notes of both lists. `Err` if memory runs out.
fn join_notes(alloc: Global, notes: &[Note], more: &[Note]) -> Result<Vec<Note>, AllocError>
    ensures { IfOk result (λ all. all.items ≡ notes.now ++ more.now) }
{
    let mut all = Vec::new(alloc);
    push_notes(notes, &mut all)?;
    push_notes(more, &mut all)?;
    Ok(all)
}

fn push_notes(notes: &[Note], all: &mut Vec<Note>) -> Result<(), AllocError>
    ensures { OnOk result (all.new.items ≡ all.old.items ++ notes.now) }
{
    for note in notes {
        all.push(*note)?;
    }
    Ok(())
}

/// The plan of a sync that looks only at noted messages.
fn plan_in_place(
    alloc: Global,
    view: &mut View,
    rows: &Rows<'_>,
    notes: Vec<Note>,
    first: Vec<SilentFlags>,
    form: SyncForm,
) -> Result<PlannedSync, AllocError>
    requires { NoteAllChanges notes.items rows.now view.old.entries }
    ensures same { view.new ≡ view.old }
    ensures answers { IfOk result (λ plan. plan.answers.items
        ≡ sync_answers form.kind form.modseq rows.now (after_silent view.old.entries first.items)) }
    ensures changed { IfOk result (λ plan. entries_after_change view.old.entries plan.change
        ≡ view_after_sync form.kind rows.now (after_silent view.old.entries first.items)) }
    ensures change { IfOk result (λ plan. IsChangeTo rows.now view.old.entries plan.change) }
    ensures can { IfOk result (λ plan. CanCommit view.old.entries plan.change) }
{
    let SyncPlanAfterFlags { first, planned } = view.plan_sync_after_flags(
        alloc, rows, notes, first, form,
    )?;
    let SyncPlan {
        answers,
        patch,
        left,
        whole,
    } = planned;
    Ok(PlannedSync {
        answers,
        change: ViewChange::InPlace {
            first,
            patch,
            left,
            whole,
        },
    })
}

/// The plan of a full sync that compares the whole view and rebuilds it.
fn plan_rebuilt_view(
    alloc: Global,
    view: &View,
    rows: &Rows<'_>,
    first: Vec<SilentFlags>,
    form: SyncForm,
) -> Result<PlannedSync, AllocError>
    ensures answers { IfOk result (λ plan. plan.answers.items
        ≡ sync_answers form.kind form.modseq rows.now (after_silent view.now.entries first.items)) }
    ensures changed { IfOk result (λ plan. entries_after_change view.now.entries plan.change
        ≡ view_after_sync form.kind rows.now (after_silent view.now.entries first.items)) }
    ensures change { IfOk result (λ plan. IsChangeTo rows.now view.now.entries plan.change) }
    ensures can { IfOk result (λ plan. CanCommit view.now.entries plan.change) }
{
    equal_counts_suffice();
    let listed = rows.count();
    let replayed = replay_reply(alloc, rows, view.entries(), &first, &[])?;
    let SyncOutcome { entries, answers } = sync_by_comparison(
        alloc,
        form.kind,
        form.modseq,
        rows,
        &replayed,
    )?;
    let whole = is_all(form.kind, entries.len(), listed);
    Ok(PlannedSync {
        answers,
        change: ViewChange::Rebuilt {
            entries,
            left: Vec::new(alloc),
            whole,
        },
    })
}

/// Whether the sync is full and leaves `listed` messages.
fn is_all(kind: SyncKind, count: usize, listed: u32) -> bool
    ensures full { result ≡ true → kind ≡ Full }
    ensures count { result ≡ true → count ≡ listed }
{
    match kind {
        SyncKind::Full => count == listed as usize,
        SyncKind::Partial => false,
    }
}
