//! The plan of an input: all of its work that takes memory.

ghost use Rattle.std.specs.Prelude.{◌≡◌, ◌++◌, ℕ, List, [], IfOk, IfErr, IsSome, Some};
ghost use Rattle.imap_commands.specs.MemoryFaults.{EqualsOrLacksMemory};
ghost use Rattle.imap_commands.specs.declared.session.Session.{Session};
ghost use Rattle.std.specs.Option.{option_map};
ghost use Rattle.imap_node.specs.InputEffects.{IsListingFor, answers_of_effect, effect_from};
ghost use Rattle.imap_node.specs.InputEffects.{sync_result_after, sync_result_of, state_or};
ghost use Rattle.imap_node.specs.SessionFeeds.{AreAllNoted, AreChangeNotes, IsNotedFor};
ghost use Rattle.imap_node.specs.SessionChanges.{CanChangeSession, changed_state};
ghost use Rattle.imap_node.specs.Nodes.{IsReady};
ghost use Rattle.imap_node.specs.Operations.{CanIssueAll};
ghost use Rattle.imap_node.specs.Plans.{IsPreparedReply, IsReadyInput};
ghost use Rattle.imap_node.specs.SettledNoops.{IsSettledNoop, IsNoop, settled_noop_reply};
ghost use Rattle.imap_node.specs.Replays.{view_of};
ghost use Rattle.imap_node.specs.Responses.{IsRefused, IsStamp};
ghost use Rattle.imap_node.specs.Responses.{messages_named_by_input, input_intent};
ghost use Rattle.imap_node.specs.Sessions.{IsOpen, session_at};
ghost use Rattle.session_view.specs.ViewState.{ViewState};

use crate::change_notes::{ChangeNotes, change_notes_of_issue};
use crate::feeds::Feeds;
use crate::input::Input;
use crate::input_effect::{
    EffectDraft, append_answers, completed_line, condstore_after, draft_effect, idling_after,
};
use crate::intents::input_intent;
use crate::ready_ops::{ReadyOps, ready_next_ops};
use crate::replica::ReplicaState;
use crate::replica_after::{ReplicaAfter, rows_after};
use crate::reply::{Answers, Reply, ReplyOps, ReplySilentFlags, copy_ops};
use crate::session_change::{SessionChange, StateChange};
use crate::sessions::{SessionNo, Sessions};
use crate::sync_and_state::{
    RebuiltState, SyncInput, UnsentChanges, is_settled, sync_in_place, sync_rebuilt_state,
};
use crdt_ops::SoundOp;
use idle_feed::Feed;
use imap_answers::{Answer, CompletedWord, Refusal};
use imap_commands::{Intent, NamedMessages, Session, State, stamp_for};
use imap_syntax::Command;
use imap_types::{DateTime, Octets};
use mailbox_rows::Rows;
use session_view::{SilentFlags, SyncKind};
use std::alloc::{AllocError, Global};

/// A session's next step.
#[derive(Drop)]
pub enum SessionStep {
    /// It stays as it is.
    Stays,
    /// Its mailbox is no longer selected.
    Leaves,
    /// It no longer idles.
    Wakes,
    /// Its input is carried out, and this is its change.
    Advances { update: SessionChange },
}

/// A node's plan for an input, with all the memory that it takes.
#[derive(Drop)]
pub struct Plan {
    pub(crate) number: SessionNo,
    pub(crate) reply: Reply,
    pub(crate) ops: ReadyOps,
    pub(crate) change_notes: ChangeNotes,
    pub(crate) next: SessionStep,
}

impl Plan {
    /// The node's reply.
    pub fn reply(&self) -> &Reply
        ensures { result.now ≡ self.now.reply }
    {
        &self.reply
    }
}

/// The answers to an input, and the change of its session.
#[derive(Drop)]
pub struct PreparedReply {
    pub answers: Answers,
    pub silent: ReplySilentFlags,
    pub update: SessionChange,
}

/// An input that can be carried out.
#[derive(Drop)]
pub struct PreparedInput {
    pub answered: PreparedReply,
    pub ops: ReadyOps,
    pub copies: ReplyOps,
    pub change_notes: ChangeNotes,
}

/// Makes the room for an input of an open session, and works out the reply to it. An error is the
/// reason to refuse the input, and leaves the received operations as they were. The sessions are
/// unchanged in either case.
pub fn prepare_input(
    alloc: Global,
    replica: &mut ReplicaState,
    sessions: &mut Sessions,
    feeds: &Feeds,
    number: SessionNo,
    input: &Input,
) -> Result<PreparedInput, Refusal>
    requires opened { IsOpen sessions.old number }
    requires noted { AreAllNoted replica.old.start replica.old.applied sessions.old feeds.now }
    ensures sessions { sessions.new ≡ sessions.old }
    ensures start { replica.new.start ≡ replica.old.start }
    ensures applied { replica.new.applied ≡ replica.old.applied }
    ensures held { replica.new.held ≡ replica.old.held }
    ensures ok { (s : Session)
        → session_at sessions.old number ≡ Some s
        → IfOk result (λ p. IsReadyInput replica.old replica.new s input.now p) }
    ensures err { (s : Session)
        → session_at sessions.old number ≡ Some s
        → IfErr result
        (λ why. IsRefused replica.old.start replica.old.applied s.state input.now why) }
{
    let place = number.get() - 1;
    let places = &mut sessions.places;
    if place >= places.len() {
        unreachable!()
    }
    match &mut places[place] {
        Some(session) => prepare(alloc, replica, session, feeds.feed_of(number), input),
        None => unreachable!(),
    }
}

/// `prepare_input`, given the session and its feed.
fn prepare(
    alloc: Global,
    replica: &mut ReplicaState,
    session: &mut Session,
    feed: &Feed,
    input: &Input,
) -> Result<PreparedInput, Refusal>
    requires noted { (view : ViewState)
        → view_of session.old.state ≡ Some view
        → IsNotedFor replica.old.start replica.old.applied feed.now.pending view }
    ensures session { session.new ≡ session.old }
    ensures start { replica.new.start ≡ replica.old.start }
    ensures applied { replica.new.applied ≡ replica.old.applied }
    ensures held { replica.new.held ≡ replica.old.held }
    ensures ok { IfOk result
        (λ p. IsReadyInput replica.old replica.new session.old input.now p) }
    ensures err { IfErr result
        (λ why. IsRefused replica.old.start replica.old.applied session.old.state input.now why) }
{
    if let Some(tag) = tag_of_settled_noop(alloc, session, feed, input) {
        return Ok(settled_noop_reply(alloc, session, tag)?);
    }
    let stamp = stamp_of(input);
    let Intent { kinds, named } = intent_within_numbers(alloc, replica, &stamp, session, input)?;
    let ops = ready_next_ops(alloc, replica, kinds)?;
    Ok(prepared_input(alloc, replica, session, feed, input, &named, ops)?)
}

/// The tag of a NOOP whose session has no unsent changes; `None` for any other input, and if the
/// session may have some.
fn tag_of_settled_noop<'a>(
    alloc: Global,
    session: &Session,
    feed: &Feed,
    input: &'a Input,
) -> Option<&'a Octets>
    ensures { (tag : List ℕ)
        → option_map (λ t. t.now) result ≡ Some tag
        → IsSettledNoop session.now.state feed.now.pending input.now tag }
{
    let tag = noop_tag(input)?;
    let change_notes = ChangeNotes::none(alloc);
    let unsent = UnsentChanges {
        feed,
        change_notes: &change_notes,
    };
    let has_nothing_unsent = is_settled(&session.state, &unsent, Some(SyncKind::Full));
    drop(change_notes);
    if has_nothing_unsent { Some(tag) } else { None }
}

/// The tag of a NOOP; `None` for any other input.
fn noop_tag(input: &Input) -> Option<&Octets>
    ensures { (tag : List ℕ) → option_map (λ t. t.now) result ≡ Some tag → IsNoop input.now tag }
{
    match input {
        Input::Command { tagged, .. } => match &tagged.command {
            Command::Noop => Some(&tagged.tag),
            _ => None,
        },
        _ => None,
    }
}

/// The reply to a NOOP with this tag whose session has no unsent changes: only its tagged line,
/// without a look at the replica.
fn settled_noop_reply(
    alloc: Global,
    session: &Session,
    tag: &Octets,
) -> Result<PreparedInput, AllocError>
    ensures { IfOk result (λ prepared. prepared ≡ settled_noop_reply session.now tag.now) }
{
    let answers = Answers::new(completed_line(alloc, tag, None, CompletedWord::Noop)?)?;
    let silent = ReplySilentFlags::new(Vec::new(alloc))?;
    let copies = ReplyOps::new(Vec::new(alloc))?;
    Ok(PreparedInput {
        answered: PreparedReply {
            answers,
            silent,
            update: SessionChange {
                state_change: StateChange::Stays { change: None },
                condstore: session.condstore,
                idling: None,
            },
        },
        ops: ReadyOps::new(Vec::new(alloc)),
        copies,
        change_notes: ChangeNotes::none(alloc),
    })
}

/// The date-time that an input records.
fn stamp_of(input: &Input) -> DateTime
    ensures { IsStamp input.now result }
{
    match input {
        Input::Command { moment, tagged } => stamp_for(&tagged.command, *moment),
        _ => DateTime::epoch(),
    }
}

/// An input's intent: kinds, all of which the replica may issue, and the messages that it names.
fn intent_within_numbers(
    alloc: Global,
    replica: &ReplicaState,
    stamp: &DateTime,
    session: &Session,
    input: &Input,
) -> Result<Intent, Refusal>
    ensures gives { EqualsOrLacksMemory (λ intended. intended.kinds.items) result
        (input_intent replica.now.start replica.now.applied stamp.now session.now.state input.now) }
    ensures named { IfOk result (λ intended. intended.named
        ≡ messages_named_by_input replica.now.start replica.now.applied session.now.state
        input.now) }
    ensures can { IfOk result (λ intended. CanIssueAll replica.now.applied intended.kinds.items) }
{
    let _list = replica.op_list();
    input_intent(alloc, replica, stamp, &session.state, input)
}

/// The reply to an input after its operations, with a copy of these for the other replicas, and
/// their change notes. `named` are the messages that the input named before its operations.
fn prepared_input(
    alloc: Global,
    replica: &ReplicaState,
    session: &mut Session,
    feed: &Feed,
    input: &Input,
    named: &NamedMessages,
    ops: Vec<SoundOp>,
) -> Result<PreparedInput, AllocError>
    requires ready { IsReady replica.now ops.items }
    requires named { named.now
        ≡ messages_named_by_input replica.now.start replica.now.applied session.old.state
        input.now }
    requires noted { (view : ViewState)
        → view_of session.old.state ≡ Some view
        → IsNotedFor replica.now.start replica.now.applied feed.now.pending view }
    ensures session { session.new ≡ session.old }
    ensures answered { IfOk result (λ p. IsPreparedReply replica.now.start replica.now.applied
        (replica.now.applied ++ ops.items) session.old input.now p.answered) }
    ensures can { IfOk result (λ p. CanChangeSession replica.now.start
        (replica.now.applied ++ ops.items) session.old.state p.answered.update.state_change) }
    ensures ops { IfOk result (λ p. p.ops ≡ ops.items) }
    ensures copies { IfOk result (λ p. p.copies ≡ ops.items) }
    ensures changes { IfOk result (λ p. AreChangeNotes replica.now.start replica.now.applied
        (replica.now.applied ++ ops.items) p.change_notes) }
{
    let ops = ReadyOps::new(ops);
    let copies = share_copies(alloc, ops.as_slice())?;
    let change_notes = change_notes_of_issue(alloc, replica, ops.as_slice())?;
    let unsent = UnsentChanges {
        feed,
        change_notes: &change_notes,
    };
    let answered = prepared_reply(
        alloc,
        replica,
        session,
        &unsent,
        input,
        named,
        ops.as_slice(),
    )?;
    Ok(PreparedInput {
        answered,
        ops,
        copies,
        change_notes: change_notes,
    })
}

/// Copies of the operations, in memory that further copies share.
fn share_copies(alloc: Global, ops: &[SoundOp]) -> Result<ReplyOps, AllocError>
    ensures { IfOk result (λ copies. copies ≡ ops.now) }
{
    let copies = copy_ops(alloc, ops)?;
    ReplyOps::new(copies)
}

/// The answers to an input after its operations, and the change of the session. `named` are the
/// messages that the input named before its operations.
fn prepared_reply(
    alloc: Global,
    replica: &ReplicaState,
    session: &mut Session,
    unsent: &UnsentChanges<'_>,
    input: &Input,
    named: &NamedMessages,
    ops: &[SoundOp],
) -> Result<PreparedReply, AllocError>
    requires ready { IsReady replica.now ops.now }
    requires named { named.now
        ≡ messages_named_by_input replica.now.start replica.now.applied session.old.state
        input.now }
    requires noted { (view : ViewState)
        → view_of session.old.state ≡ Some view
        → IsNotedFor replica.now.start replica.now.applied unsent.now.pending view }
    requires changes { AreChangeNotes replica.now.start replica.now.applied
        (replica.now.applied ++ ops.now) unsent.now.change_notes }
    ensures session { session.new ≡ session.old }
    ensures answered { IfOk result (λ a. IsPreparedReply replica.now.start replica.now.applied
        (replica.now.applied ++ ops.now) session.old input.now a) }
    ensures can { IfOk result (λ a. CanChangeSession replica.now.start
        (replica.now.applied ++ ops.now) session.old.state a.update.state_change) }
{
    let condstore = condstore_after(session, input);
    let idling = idling_after(alloc, session, input)?;
    let listing = listing_after_ops(alloc, replica, ops, &session.state, unsent.change_notes)?;
    let effect = draft_effect(alloc, replica, ops, listing.as_ref(), session, input, named)?;
    let ReplyParts {
        answers,
        silent,
        state_change,
    } = reply_of_effect(
        alloc,
        replica,
        ops,
        listing.as_ref(),
        &mut session.state,
        unsent,
        effect,
    )?;
    Ok(PreparedReply {
        answers,
        silent,
        update: SessionChange {
            state_change,
            condstore,
            idling,
        },
    })
}

/// The listing of the selected mailbox after the operations, made once for all that read it; `None`
/// if no mailbox is selected, or if the operations change nothing in it.
fn listing_after_ops<'a>(
    alloc: Global,
    replica: &'a ReplicaState,
    ops: &'a [SoundOp],
    state: &State,
    change_notes: &ChangeNotes,
) -> Result<Option<Rows<'a>>, AllocError>
    requires { IsReady replica.now ops.now }
    ensures { IfOk result
        (λ listing. IsListingFor replica.now.start (replica.now.applied ++ ops.now)
        state.now listing) }
{
    match state {
        State::Selected { view, .. } => {
            if change_notes.notes_of(view.name()).is_empty() {
                return Ok(None);
            }
            Ok(Some(rows_after(alloc, replica, ops, view)?))
        }
        _ => Ok(None),
    }
}

/// The answers to an input, the flags that it sets silently, and the change of the state.
struct ReplyParts {
    answers: Answers,
    silent: ReplySilentFlags,
    state_change: StateChange,
}

/// The answers to an input with this effect, and the change of the state.
fn reply_of_effect(
    alloc: Global,
    replica: &ReplicaState,
    ops: &[SoundOp],
    listing: Option<&Rows<'_>>,
    state: &mut State,
    unsent: &UnsentChanges<'_>,
    effect: EffectDraft,
) -> Result<ReplyParts, AllocError>
    requires ready { IsReady replica.now ops.now }
    requires listing { IsListingFor replica.now.start (replica.now.applied ++ ops.now) state.old
        (option_map (λ rows. rows.now) listing) }
    requires noted { (view : ViewState)
        → view_of state.old ≡ Some view
        → IsNotedFor replica.now.start replica.now.applied unsent.now.pending view }
    requires changes { AreChangeNotes replica.now.start replica.now.applied
        (replica.now.applied ++ ops.now) unsent.now.change_notes }
    ensures same { state.new ≡ state.old }
    ensures answers { IfOk result (λ t. t.answers
        ≡ answers_of_effect replica.now.start (replica.now.applied ++ ops.now)
        (effect_from state.old effect)) }
    ensures silent { IfOk result (λ t. t.silent ≡ effect.silent) }
    ensures state_change { IfOk result (λ t. changed_state state.old t.state_change
        ≡ (sync_result_of replica.now.start (replica.now.applied ++ ops.now)
        (effect_from state.old effect)).state) }
    ensures can { IfOk result (λ t. CanChangeSession replica.now.start
        (replica.now.applied ++ ops.now) state.old t.state_change) }
{
    let EffectDraft {
        silent,
        own,
        sync,
        modseq,
        moved,
        tail,
    } = effect;
    let sync_input = SyncInput {
        silent: &silent,
        own: &own,
        sync,
        modseq,
    };
    let applied = ReplicaAfter { replica, ops };
    let (answers, state_change) = sync_and_change(
        alloc,
        &applied,
        listing,
        state,
        unsent,
        moved,
        &sync_input,
    )?;
    match share_reply(own, answers, tail, silent) {
        Ok((answers, silent)) => Ok(ReplyParts {
            answers,
            silent,
            state_change,
        }),
        Err(error) => {
            drop(state_change);
            Err(error)
        }
    }
}

/// All answers in the order in which they are sent, and the silent flags, each in memory that
/// copies share.
fn share_reply(
    own: Vec<Answer>,
    synced: Vec<Answer>,
    tail: Vec<Answer>,
    silent: Vec<SilentFlags>,
) -> Result<(Answers, ReplySilentFlags), AllocError>
    ensures answers { IfOk result (λ s. s.0 ≡ own.items ++ (synced.items ++ tail.items)) }
    ensures silent { IfOk result (λ s. s.1 ≡ silent.items) }
{
    let answers = match join_answers(own, synced, tail) {
        Ok(answers) => answers,
        Err(error) => {
            drop(silent);
            return Err(error);
        }
    };
    let silent = ReplySilentFlags::new(silent)?;
    Ok((answers, silent))
}

/// All answers, in the order in which they are sent.
fn join_answers(
    own: Vec<Answer>,
    synced: Vec<Answer>,
    tail: Vec<Answer>,
) -> Result<Answers, AllocError>
    ensures { IfOk result (λ sent. sent ≡ own.items ++ (synced.items ++ tail.items)) }
{
    Answers::new(append_answers(own, append_answers(synced, tail)?)?)
}

/// The answers of a sync, and the change of the state. The change begins with `moved` if the input
/// changed the state.
fn sync_and_change(
    alloc: Global,
    applied: &ReplicaAfter<'_>,
    listing: Option<&Rows<'_>>,
    state: &mut State,
    unsent: &UnsentChanges<'_>,
    moved: Option<State>,
    sync_input: &SyncInput<'_>,
) -> Result<(Vec<Answer>, StateChange), AllocError>
    requires ready { IsReady applied.now.replica.now applied.now.ops.now }
    requires listing { IsListingFor applied.now.replica.now.start
        (applied.now.replica.now.applied ++ applied.now.ops.now) state.old
        (option_map (λ rows. rows.now) listing) }
    requires noted { (view : ViewState)
        → view_of state.old ≡ Some view
        → IsNotedFor applied.now.replica.now.start applied.now.replica.now.applied
        unsent.now.pending view }
    requires changes { AreChangeNotes applied.now.replica.now.start applied.now.replica.now.applied
        (applied.now.replica.now.applied ++ applied.now.ops.now) unsent.now.change_notes }
    ensures same { state.new ≡ state.old }
    ensures answers { IfOk result (λ e. e.0.items
        ≡ (sync_result_after applied.now.replica.now.start
        (applied.now.replica.now.applied ++ applied.now.ops.now) (state_or state.old moved)
        sync_input.now).answers) }
    ensures state { IfOk result (λ e. changed_state state.old e.1
        ≡ (sync_result_after applied.now.replica.now.start
        (applied.now.replica.now.applied ++ applied.now.ops.now) (state_or state.old moved)
        sync_input.now).state) }
    ensures can { IfOk result (λ e. CanChangeSession applied.now.replica.now.start
        (applied.now.replica.now.applied ++ applied.now.ops.now) state.old e.1) }
{
    match moved {
        Some(next) => {
            let RebuiltState {
                answers,
                state,
                shows_all,
            } = sync_rebuilt_state(alloc, applied.replica, applied.ops, next, sync_input)?;
            Ok((answers, StateChange::Moves { state, shows_all }))
        }
        None => sync_in_place(alloc, applied, listing, state, unsent, sync_input),
    }
}
