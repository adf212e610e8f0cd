//! The effect of an input that is carried out, apart from its operations.

ghost use Rattle.std.specs.Prelude.{◌≡◌, ◌++◌, ◌∷◌, [], IfOk, OnOk, Some};
ghost use Rattle.imap_answers.specs.declared.answer.Answer.TheVariants.{Completed};
ghost use Rattle.imap_node.specs.Commands.{messages_named_by_command, highest_answer_of};
ghost use Rattle.imap_node.specs.Commands.{highest_answer, condstore_answer, enables_condstore};
ghost use Rattle.imap_commands.specs.declared.session.State.{State};
ghost use Rattle.imap_node.specs.InputEffects.{IsListingFor, effect_from, state_or};
ghost use Rattle.std.specs.Option.{option_map};
ghost use Rattle.imap_node.specs.Nodes.{IsReady};
ghost use Rattle.imap_node.specs.Responses.{IsCommandEffect, IsInputEffect, tag_of_idle};
ghost use Rattle.imap_node.specs.Responses.{condstore_after, messages_named_by_input};
ghost use Rattle.imap_node.specs.Responses.{tagged_lines_of_idle, idling_after, sync_effect};
ghost use Rattle.imap_node.specs.Responses.{tagged_lines_of, report_effect};

use crate::input::Input;
use crate::input_rules::is_on;
use crate::replica::ReplicaState;
use crate::replica_after::ReplicaAfter;
use crdt_ops::SoundOp;
use imap_answers::{Answer, Code, CompletedWord, Notice};
use imap_commands::{
    CommandReport, NamedMessages, ReportInput, Session, State, command_report, is_enabling,
    is_idle, is_selecting, state_after_command, sync_of, word_of,
};
use imap_syntax::{Command, Tagged};
use imap_types::Octets;
use mailbox_rows::Rows;
use session_view::{SilentFlags, SyncKind, View};
use std::alloc::{AllocError, Global};
use std::marker::Model;

/// The effect of an input that is carried out, apart from its operations. A state that doesn't
/// change is left out.
#[derive(Drop)]
pub struct EffectDraft {
    /// The flags that it sets silently (RFC 9051, section 6.4.6).
    pub silent: Vec<SilentFlags>,
    /// Its own answers.
    pub own: Vec<Answer>,
    /// The sync after them, if there is one.
    pub sync: Option<SyncKind>,
    /// Whether the sync reports mod-sequences.
    pub modseq: bool,
    /// The state on which all these are replayed; `None` if it is the state before the input.
    pub moved: Option<State>,
    /// The answers that are sent last.
    pub tail: Vec<Answer>,
}

impl Model for EffectDraft {
    ghost use Rattle.imap_node.specs.InputEffects.{EffectDraft};

    ghost Value = { EffectDraft };

    ghost view = { λ c. record {
      silent = c.silent.items;
      own = c.own.items;
      sync = c.sync;
      modseq = c.modseq;
      moved = c.moved;
      tail = c.tail.items;
    } };
}

/// The effect of an input after its operations, using the messages that it named before them.
pub fn draft_effect(
    alloc: Global,
    replica: &ReplicaState,
    ops: &[SoundOp],
    made: Option<&Rows<'_>>,
    session: &Session,
    input: &Input,
    named: &NamedMessages,
) -> Result<EffectDraft, AllocError>
    requires ready { IsReady replica.now ops.now }
    requires made { IsListingFor replica.now.start (replica.now.applied ++ ops.now)
        session.now.state (option_map (λ rows. rows.now) made) }
    requires named { named.now
        ≡ messages_named_by_input replica.now.start replica.now.applied session.now.state
        input.now }
    ensures { IfOk result (λ effect. IsInputEffect replica.now.start replica.now.applied
        (replica.now.applied ++ ops.now) session.now input.now
        (effect_from session.now.state effect)) }
{
    match input {
        Input::Command { tagged, .. } => draft_command_effect(
            alloc, replica, ops, made, session, tagged, named,
        ),
        Input::Line { .. } => draft_sync_effect(alloc, session, idle_tail(alloc, &session.idling)?),
        Input::Poll => draft_sync_effect(alloc, session, Vec::new(alloc)),
    }
}

/// The effect of an input that is only a full sync, with `tail` sent after it.
fn draft_sync_effect(
    alloc: Global,
    session: &Session,
    tail: Vec<Answer>,
) -> Result<EffectDraft, AllocError>
    ensures { IfOk result
        (λ effect. effect_from session.now.state effect ≡ sync_effect session.now tail.items) }
{
    Ok(EffectDraft {
        silent: Vec::new(alloc),
        own: Vec::new(alloc),
        sync: Some(SyncKind::Full),
        modseq: session.condstore,
        moved: None,
        tail,
    })
}

/// The tagged line of an IDLE that ends.
fn idle_tail(alloc: Global, idling: &Option<Octets>) -> Result<Vec<Answer>, AllocError>
    ensures { IfOk result (λ tail. tail.items ≡ tagged_lines_of_idle idling.now) }
{
    match idling {
        None => Ok(Vec::new(alloc)),
        Some(tag) => completed_line(alloc, tag, None, CompletedWord::Idle),
    }
}

/// Only a tagged OK.
pub fn completed_line(
    alloc: Global,
    tag: &Octets,
    code: Option<Code>,
    command: CompletedWord,
) -> Result<Vec<Answer>, AllocError>
    ensures { IfOk result (λ tail. tail.items ≡ Completed tag.now code command ∷ []) }
{
    let mut tail = Vec::with_capacity(alloc, 1)?;
    let tag = tag.copy(alloc)?;
    tail.push_reserved(Answer::Completed { tag, code, command });
    Ok(tail)
}

/// The effect of a command after its operations, using the messages that it named before them.
fn draft_command_effect(
    alloc: Global,
    replica: &ReplicaState,
    ops: &[SoundOp],
    made: Option<&Rows<'_>>,
    session: &Session,
    tagged: &Tagged,
    named: &NamedMessages,
) -> Result<EffectDraft, AllocError>
    requires ready { IsReady replica.now ops.now }
    requires made { IsListingFor replica.now.start (replica.now.applied ++ ops.now)
        session.now.state (option_map (λ rows. rows.now) made) }
    requires named { named.now
        ≡ messages_named_by_command replica.now.start replica.now.applied session.now.state
        tagged.now.command }
    ensures { IfOk result (λ effect. IsCommandEffect replica.now.start replica.now.applied
        (replica.now.applied ++ ops.now) session.now tagged.now
        (effect_from session.now.state effect)) }
{
    let modseq = is_on(session, &tagged.command);
    let first = notice(alloc, replica, ops, session, &tagged.command)?;
    let after = ReplicaAfter { replica, ops };
    let input = ReportInput {
        state: &session.state,
        modseq,
        named,
    };
    let report = command_report(alloc, &after, &input, made, tagged)?;
    let moved = state_after_command(alloc, &after, &tagged.command)?;
    draft_report_effect(alloc, first, report, moved, modseq, tagged)
}

/// The effect of a command with this report; the report's answers are sent after the answers
/// `first`.
fn draft_report_effect(
    alloc: Global,
    first: Vec<Answer>,
    report: CommandReport,
    moved: Option<State>,
    modseq: bool,
    tagged: &Tagged,
) -> Result<EffectDraft, AllocError>
    ensures { IfOk result (λ effect. (state : State)
        → effect_from state effect
        ≡ report_effect first.items report (state_or state moved) modseq tagged.now.tag
        tagged.now.command) }
{
    let (own, silent, code) = report.into_parts();
    match effect_with_answers(alloc, first, own, code, tagged) {
        Ok((own, tail)) => Ok(EffectDraft {
            silent,
            own,
            sync: sync_of(&tagged.command),
            modseq,
            moved,
            tail,
        }),
        Err(error) => {
            drop(silent);
            drop(moved);
            Err(error)
        }
    }
}

/// A command's own answers after those in `first`, and its tagged line.
fn effect_with_answers(
    alloc: Global,
    first: Vec<Answer>,
    own: Vec<Answer>,
    code: Option<Code>,
    tagged: &Tagged,
) -> Result<(Vec<Answer>, Vec<Answer>), AllocError>
    ensures own { IfOk result (λ s. s.0.items ≡ first.items ++ own.items) }
    ensures tail { IfOk result
        (λ s. s.1.items ≡ tagged_lines_of tagged.now.tag tagged.now.command code) }
{
    let own = match append_answers(first, own) {
        Ok(own) => own,
        Err(error) => {
            drop(code);
            return Err(error);
        }
    };
    let tail = tail_of(alloc, &tagged.tag, code, &tagged.command)?;
    Ok((own, tail))
}

/// The tagged line of a command. IDLE gets none now, since its tagged line is sent when it ends.
fn tail_of(
    alloc: Global,
    tag: &Octets,
    code: Option<Code>,
    command: &Command,
) -> Result<Vec<Answer>, AllocError>
    ensures { IfOk result (λ tail. tail.items ≡ tagged_lines_of tag.now command.now code) }
{
    if is_idle(command) {
        drop(code);
        return Ok(Vec::new(alloc));
    }
    completed_line(alloc, tag, code, word_of(command))
}

/// The answers, then the others.
pub fn append_answers(answers: Vec<Answer>, others: Vec<Answer>) -> Result<Vec<Answer>, AllocError>
    ensures { IfOk result (λ all. all.items ≡ answers.items ++ others.items) }
{
    if others.is_empty() {
        drop(others);
        return Ok(answers);
    }
    if answers.is_empty() {
        drop(answers);
        return Ok(others);
    }
    let mut all = answers;
    let mut others = others;
    all.append(&mut others)?;
    Ok(all)
}

/// HIGHESTMODSEQ, which a command sends before its own answers if it turns mod-sequences on while a
/// mailbox is selected (RFC 7162, section 3.1).
fn notice(
    alloc: Global,
    replica: &ReplicaState,
    ops: &[SoundOp],
    session: &Session,
    command: &Command,
) -> Result<Vec<Answer>, AllocError>
    requires { IsReady replica.now ops.now }
    ensures { IfOk result (λ first. first.items
        ≡ condstore_answer replica.now.start (replica.now.applied ++ ops.now) session.now.state
        session.now.condstore command.now) }
{
    if !enables_condstore(session, command) {
        return Ok(Vec::new(alloc));
    }
    highest_of(alloc, replica, ops, &session.state)
}

fn enables_condstore(session: &Session, command: &Command) -> bool
    ensures { result ≡ enables_condstore session.now.condstore command.now }
{
    !session.condstore && (is_enabling(command) && !is_selecting(command))
}

fn highest_of(
    alloc: Global,
    replica: &ReplicaState,
    ops: &[SoundOp],
    state: &State,
) -> Result<Vec<Answer>, AllocError>
    requires { IsReady replica.now ops.now }
    ensures { IfOk result (λ first. first.items
        ≡ highest_answer_of replica.now.start (replica.now.applied ++ ops.now) state.now) }
{
    match state {
        State::Selected { view, .. } => highest_answer(
            alloc,
            view,
            replica.uidvalidity_after(view.name(), ops),
            replica.highest_after(view.name(), ops),
        ),
        _ => Ok(Vec::new(alloc)),
    }
}

fn highest_answer(
    alloc: Global,
    view: &View,
    uidvalidity: Option<u32>,
    modseq: u64,
) -> Result<Vec<Answer>, AllocError>
    ensures { IfOk result
        (λ first. first.items ≡ highest_answer view.now.uidvalidity uidvalidity modseq) }
{
    let mut first = Vec::with_capacity(alloc, 1)?;
    if let Some(now) = uidvalidity {
        if now == view.uidvalidity() {
            first.push_reserved(Answer::UntaggedOk {
                notice: Notice::HighestModSeq { modseq },
            });
        }
    }
    Ok(first)
}

/// Whether mod-sequences are on after an input.
pub fn condstore_after(session: &Session, input: &Input) -> bool
    ensures { result ≡ condstore_after session.now input.now }
{
    match input {
        Input::Command { tagged, .. } => is_on(session, &tagged.command),
        _ => session.condstore,
    }
}

/// The tag of the IDLE that continues after an input, if one does.
pub fn idling_after(
    alloc: Global,
    session: &Session,
    input: &Input,
) -> Result<Option<Octets>, AllocError>
    ensures { IfOk result (λ idling. idling ≡ idling_after session.now input.now) }
{
    match input {
        Input::Command { tagged, .. } => tag_of_idle(alloc, tagged),
        Input::Line { .. } => Ok(None),
        Input::Poll => copy_tag(alloc, &session.idling),
    }
}

/// The tag of the IDLE that a command begins, if it begins one.
fn tag_of_idle(alloc: Global, tagged: &Tagged) -> Result<Option<Octets>, AllocError>
    ensures { IfOk result (λ idling. idling ≡ tag_of_idle tagged.now) }
{
    if !is_idle(&tagged.command) {
        return Ok(None);
    }
    Ok(Some(tagged.tag.copy(alloc)?))
}

fn copy_tag(alloc: Global, tag: &Option<Octets>) -> Result<Option<Octets>, AllocError>
    ensures { IfOk result (λ copied. copied ≡ tag.now) }
{
    Ok(match tag {
        None => None,
        Some(tag) => Some(tag.copy(alloc)?),
    })
}
