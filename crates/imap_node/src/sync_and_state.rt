//! What follows an input's own answers: the sync, and the session's state after it.

ghost use Rattle.std.specs.Prelude.{◌≡◌, ◌⊎◌, ◌++◌, List, true, [], IfOk, None, Some};
ghost use Rattle.imap_commands.specs.declared.session.State.{State};
ghost use Rattle.imap_commands.specs.declared.session.State.TheVariants.{Selected};
ghost use Rattle.mailbox_rows.specs.ListedMessage.{ListedMessage};
ghost use Rattle.std.specs.Option.{option_map};
ghost use Rattle.imap_node.specs.InputEffects.{IsFirstSight, IsListingFor, is_altering};
ghost use Rattle.imap_node.specs.InputEffects.{answers_of_sync, sync_result_after};
ghost use Rattle.imap_node.specs.InputEffects.{entries_after_sync};
ghost use Rattle.imap_node.specs.SessionFeeds.{AreChangeNotes, IsNotedFor, IsSettled};
ghost use Rattle.imap_node.specs.SessionChanges.{CanChangeSession, ShowsAll, changed_state};
ghost use Rattle.imap_node.specs.Mailboxes.{rows_for};
ghost use Rattle.imap_node.specs.Nodes.{IsReady};
ghost use Rattle.imap_node.specs.Replays.{view_of};
ghost use Rattle.session_view.specs.NoteChanges.{all_fetched_flags, is_shifting};
ghost use Rattle.session_view.specs.Replay.{after_silent, view_after_reply};
ghost use Rattle.session_view.specs.ViewState.{ViewState};
ghost use Rattle.session_view.specs.Sync.{sync_answers, view_after_sync};
ghost use Rattle.session_view.specs.Views.{AreRising};
ghost use Rattle.std.specs.List.{list_any};
ghost use Rattle.idle_feed.specs.NotedFeeds.{CanCommit, IsChangeTo, entries_after_change};

use crate::change_notes::ChangeNotes;
use crate::replica::ReplicaState;
use crate::replica_after::{ReplicaAfter, rows_after};
use crate::session_change::StateChange;
use crdt_ops::SoundOp;
use idle_feed::{Feed, NotedChanges, PlannedSync, plan};
use imap_answers::Answer;
use imap_commands::State;
use mailbox_rows::Rows;
use session_view::{
    SilentFlags, SyncForm, SyncKind, SyncOutcome, View, ViewEntries, are_shifting, replay_reply,
    sync_by_comparison,
};
use std::alloc::{AllocError, Global};
use std::marker::Model;

/// The kind of a sync, and what precedes the sync.
#[derive(Drop)]
pub struct SyncInput<'a> {
    /// Flags that are set silently.
    pub silent: &'a [SilentFlags],
    /// A command's own answers.
    pub own: &'a [Answer],
    /// The sync, if there is one.
    pub sync: Option<SyncKind>,
    /// Whether it reports mod-sequences.
    pub modseq: bool,
}

impl<'a> Model for SyncInput<'a> {
    ghost use Rattle.imap_node.specs.InputEffects.{SyncInput};

    ghost Value = { SyncInput };

    ghost view = { λ f. record {
      silent = f.silent.now;
      own = f.own.now;
      sync = f.sync;
      modseq = f.modseq;
    } };
}

/// What a session must still be sent, and what an input's own operations changed.
#[derive(Drop)]
pub struct UnsentChanges<'a> {
    /// What the session must still be sent.
    pub feed: &'a Feed,
    /// What the operations changed.
    pub change_notes: &'a ChangeNotes,
}

impl<'a> Model for UnsentChanges<'a> {
    ghost use Rattle.imap_node.specs.SessionFeeds.{UnsentChanges};

    ghost Value = { UnsentChanges };

    ghost view = { λ u. record {
      pending = u.feed.now.pending;
      change_notes = u.change_notes.now;
    } };
}

/// The answers of a sync, and the state after it, as a new one.
#[derive(Drop)]
pub struct RebuiltState {
    /// The answers that the sync sends.
    pub answers: Vec<Answer>,
    /// The state afterwards.
    pub state: State,
    /// Whether the state is known to show all messages that its mailbox has, as after SELECT.
    pub shows_all: bool,
}

/// The sync after `front`, and the state after it, rebuilt from `state`. `Err` if memory runs out.
pub fn sync_rebuilt_state(
    alloc: Global,
    replica: &ReplicaState,
    ops: &[SoundOp],
    state: State,
    front: &SyncInput<'_>,
) -> Result<RebuiltState, AllocError>
    requires { IsReady replica.now ops.now }
    ensures answers { IfOk result (λ rebuilt. rebuilt.answers.items
        ≡ (sync_result_after replica.now.start (replica.now.applied ++ ops.now) state
        front.now).answers) }
    ensures state { IfOk result (λ rebuilt. rebuilt.state
        ≡ (sync_result_after replica.now.start (replica.now.applied ++ ops.now) state
        front.now).state) }
    ensures shown { IfOk result
        (λ rebuilt. ShowsAll replica.now.start (replica.now.applied ++ ops.now)
        rebuilt.state rebuilt.shows_all) }
{
    match state {
        State::Selected { view, read_only } => {
            let rows = rows_after(alloc, replica, ops, &view)?;
            let is_first = is_first_sight(&view, front);
            let Ok((answers, view)) = answers_and_view(alloc, &rows, view, front) else {
                drop(rows);
                return Err(AllocError);
            };
            let shows_all = is_first && view.entries().len() == rows.count() as usize;
            drop(rows);
            Ok(RebuiltState {
                answers,
                state: State::Selected { view, read_only },
                shows_all,
            })
        }
        other => Ok(RebuiltState {
            answers: Vec::new(alloc),
            state: other,
            shows_all: false,
        }),
    }
}

/// Whether the view was empty, and the answers in `front` show messages as the mailbox has them.
fn is_first_sight(view: &View, front: &SyncInput<'_>) -> bool
    ensures { result ≡ true → IsFirstSight view.now.entries front.now }
{
    if front.sync.is_some() {
        return false;
    }
    view.entries().is_empty() && front.silent.is_empty() && !are_altering(front.own)
}

/// Whether some of these answers expunge a message or report a message's items.
fn are_altering(answers: &[Answer]) -> bool
    ensures { result ≡ list_any is_altering answers.now }
{
    for answer in answers {
        if is_altering(answer) {
            return true;
        }
    }
    false
}

fn is_altering(answer: &Answer) -> bool
    ensures { result ≡ is_altering answer.now }
{
    match answer {
        Answer::Expunge { .. } => true,
        Answer::Fetch { .. } => true,
        _ => false,
    }
}

/// The sync after `front`, and the change of the state, which itself stays as it was; `Err` if
/// memory runs out. Cost: proportional to what the session must still be sent and what the
/// operations changed; if the feed missed some, one pass over the view and the listing.
pub fn sync_in_place(
    alloc: Global,
    applied: &ReplicaAfter<'_>,
    made: Option<&Rows<'_>>,
    state: &mut State,
    unsent: &UnsentChanges<'_>,
    front: &SyncInput<'_>,
) -> Result<(Vec<Answer>, StateChange), AllocError>
    requires ready { IsReady applied.now.replica.now applied.now.ops.now }
    requires made { IsListingFor applied.now.replica.now.start
        (applied.now.replica.now.applied ++ applied.now.ops.now) state.old
        (option_map (λ rows. rows.now) made) }
    requires noted { (view : ViewState)
        → view_of state.old ≡ Some view
        → IsNotedFor applied.now.replica.now.start applied.now.replica.now.applied
        unsent.now.pending view }
    requires changes { AreChangeNotes applied.now.replica.now.start applied.now.replica.now.applied
        (applied.now.replica.now.applied ++ applied.now.ops.now) unsent.now.change_notes }
    ensures same { state.new ≡ state.old }
    ensures answers { IfOk result (λ e. e.0.items
        ≡ (sync_result_after applied.now.replica.now.start
        (applied.now.replica.now.applied ++ applied.now.ops.now) state.old front.now).answers) }
    ensures state { IfOk result (λ e. changed_state state.old e.1
        ≡ (sync_result_after applied.now.replica.now.start
        (applied.now.replica.now.applied ++ applied.now.ops.now) state.old front.now).state) }
    ensures can { IfOk result (λ e. CanChangeSession applied.now.replica.now.start
        (applied.now.replica.now.applied ++ applied.now.ops.now) state.old e.1) }
{
    if are_shifting(front.own) {
        return rebuild_state(alloc, applied.replica, applied.ops, state, front);
    }
    let first = flags_before_sync(alloc, state, front)?;
    if first.is_empty() && is_settled(state, unsent, front.sync) {
        drop(first);
        return Ok((Vec::new(alloc), StateChange::Stays { change: None }));
    }
    let Some(kind) = front.sync else {
        drop(first);
        return rebuild_state(alloc, applied.replica, applied.ops, state, front);
    };
    match state {
        State::Selected { view, .. } => {
            let form = SyncForm {
                kind,
                modseq: front.modseq,
            };
            let planned = plan_sync_of_view(alloc, applied, made, view, unsent, first, form)?;
            let PlannedSync { answers, change } = planned;
            Ok((
                answers,
                StateChange::Stays {
                    change: Some(change),
                },
            ))
        }
        _ => {
            drop(first);
            Ok((Vec::new(alloc), StateChange::Stays { change: None }))
        }
    }
}

/// The sync of a view after the flags `first` are set, and its change of the view, which itself
/// stays as it was.
fn plan_sync_of_view(
    alloc: Global,
    applied: &ReplicaAfter<'_>,
    made: Option<&Rows<'_>>,
    view: &mut View,
    unsent: &UnsentChanges<'_>,
    first: Vec<SilentFlags>,
    form: SyncForm,
) -> Result<PlannedSync, AllocError>
    requires ready { IsReady applied.now.replica.now applied.now.ops.now }
    requires made { (rows : List ListedMessage)
        → option_map (λ rows. rows.now) made ≡ Some rows
        → rows
        ≡ rows_for applied.now.replica.now.start
        (applied.now.replica.now.applied ++ applied.now.ops.now) view.old }
    requires noted { IsNotedFor applied.now.replica.now.start applied.now.replica.now.applied
        unsent.now.pending view.old }
    requires changes { AreChangeNotes applied.now.replica.now.start applied.now.replica.now.applied
        (applied.now.replica.now.applied ++ applied.now.ops.now) unsent.now.change_notes }
    ensures same { view.new ≡ view.old }
    ensures answers { IfOk result (λ plan. plan.answers.items
        ≡ sync_answers form.kind form.modseq
        (rows_for applied.now.replica.now.start
        (applied.now.replica.now.applied ++ applied.now.ops.now) view.old)
        (after_silent view.old.entries first.items)) }
    ensures changed { IfOk result (λ plan. entries_after_change view.old.entries plan.change
        ≡ view_after_sync form.kind
        (rows_for applied.now.replica.now.start
        (applied.now.replica.now.applied ++ applied.now.ops.now) view.old)
        (after_silent view.old.entries first.items)) }
    ensures change { IfOk result (λ plan. IsChangeTo
        (rows_for applied.now.replica.now.start
        (applied.now.replica.now.applied ++ applied.now.ops.now) view.old) view.old.entries
        plan.change) }
    ensures can { IfOk result (λ plan. CanCommit view.old.entries plan.change) }
{
    let noted = NotedChanges {
        feed: unsent.feed,
        notes: unsent.change_notes.notes_of(view.name()),
    };
    if let Some(rows) = made {
        return plan(alloc, view, rows, noted, first, form);
    }
    let rows = match rows_after(alloc, applied.replica, applied.ops, view) {
        Ok(rows) => rows,
        Err(error) => {
            drop(first);
            return Err(error);
        }
    };
    let planned = plan(alloc, view, &rows, noted, first, form);
    drop(rows);
    planned
}

/// The sync, and the state after it, on a copy of the state.
fn rebuild_state(
    alloc: Global,
    replica: &ReplicaState,
    ops: &[SoundOp],
    state: &State,
    front: &SyncInput<'_>,
) -> Result<(Vec<Answer>, StateChange), AllocError>
    requires { IsReady replica.now ops.now }
    ensures answers { IfOk result (λ e. e.0.items
        ≡ (sync_result_after replica.now.start (replica.now.applied ++ ops.now) state.now
        front.now).answers) }
    ensures state { IfOk result (λ e. changed_state state.now e.1
        ≡ (sync_result_after replica.now.start (replica.now.applied ++ ops.now) state.now
        front.now).state) }
    ensures can { IfOk result
        (λ e. CanChangeSession replica.now.start (replica.now.applied ++ ops.now) state.now e.1) }
{
    let state = state.copy(alloc)?;
    let RebuiltState {
        answers,
        state,
        shows_all,
    } = sync_rebuilt_state(alloc, replica, ops, state, front)?;
    Ok((answers, StateChange::Moves { state, shows_all }))
}

/// The flags that are set before a sync, silently and by FETCH answers, without those that the
/// messages of the view have already.
fn flags_before_sync(
    alloc: Global,
    state: &State,
    front: &SyncInput<'_>,
) -> Result<Vec<SilentFlags>, AllocError>
    ensures { IfOk result (λ first. (view : ViewState) → view_of state.now ≡ Some view
        → after_silent view.entries first.items
        ≡ after_silent view.entries (front.now.silent ++ all_fetched_flags front.now.own)) }
{
    match state {
        State::Selected { view, .. } => view.flags_before_sync(alloc, front.silent, front.own),
        _ => Ok(Vec::new(alloc)),
    }
}

/// Whether a sync has nothing to send: there is no sync or no selected mailbox, or the mailbox has
/// no notes, neither unsent ones nor those of the operations, and the feed missed none.
pub fn is_settled(state: &State, unsent: &UnsentChanges<'_>, sync: Option<SyncKind>) -> bool
    ensures { result ≡ true
        → (sync ≡ None)
        ⊎ ((view : ViewState) → view_of state.now ≡ Some view → IsSettled unsent.now view) }
{
    match (sync, state) {
        (Some(_), State::Selected { view, .. }) => shows_all(view, unsent),
        _ => true,
    }
}

/// Whether a view's mailbox has no notes.
fn shows_all(view: &View, unsent: &UnsentChanges<'_>) -> bool
    ensures { result ≡ true → IsSettled unsent.now view.now }
{
    let _entries = view.entries();
    let Some(notes) = unsent.feed.notes() else {
        return false;
    };
    notes.is_empty() && unsent.change_notes.notes_of(view.name()).is_empty()
}

/// The answers of the sync after `front`, and the view after it.
fn answers_and_view(
    alloc: Global,
    rows: &Rows<'_>,
    view: View,
    front: &SyncInput<'_>,
) -> Result<(Vec<Answer>, View), AllocError>
    ensures answers { IfOk result (λ s. s.0.items
        ≡ answers_of_sync front.now.sync front.now.modseq rows.now
        (view_after_reply rows.now view.entries front.now.silent front.now.own)) }
    ensures view { IfOk result (λ s. s.1
        ≡ record view {
          entries = entries_after_sync front.now.sync rows.now
              (view_after_reply rows.now view.entries front.now.silent front.now.own);
        }) }
{
    let entries = replay_reply(alloc, rows, view.entries(), front.silent, front.own)?;
    let (entries, answers) = answers_and_state(alloc, front.sync, front.modseq, rows, entries)?;
    Ok((answers, view.with_entries(entries)))
}

fn answers_and_state(
    alloc: Global,
    sync: Option<SyncKind>,
    modseq: bool,
    rows: &Rows<'_>,
    entries: ViewEntries,
) -> Result<(ViewEntries, Vec<Answer>), AllocError>
    requires { AreRising 1 entries.items }
    ensures entries { IfOk result
        (λ s. s.0.items ≡ entries_after_sync sync rows.now entries.items) }
    ensures rising { IfOk result (λ s. AreRising 1 s.0.items) }
    ensures answers { IfOk result
        (λ s. s.1.items ≡ answers_of_sync sync modseq rows.now entries.items) }
{
    match sync {
        None => Ok((entries, Vec::new(alloc))),
        Some(kind) => {
            let SyncOutcome { entries, answers } = sync_by_comparison(
                alloc, kind, modseq, rows, &entries,
            )?;
            Ok((entries, answers))
        }
    }
}
