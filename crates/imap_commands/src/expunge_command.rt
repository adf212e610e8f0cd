//! EXPUNGE, UID EXPUNGE and CLOSE (RFC 9051, sections 6.4.3, 6.4.9 and 6.4.1).

ghost use Rattle.std.specs.Prelude.{◌≡◌, ◌++◌, List, true, IfOk, OnOk};
ghost use Rattle.std.specs.List.{slice_get};
ghost use Rattle.imap_types.specs.declared.sequence_set.SequenceRange.{SequenceRange};
ghost use Rattle.mailbox_rows.specs.RowViews.{listed_message};
ghost use Rattle.imap_commands.specs.ExpungeCommand.{close_intent, expunge_at, expunge_of};
ghost use Rattle.imap_commands.specs.ExpungeCommand.{expunge_intent, expunges_at, expunges_of};
ghost use Rattle.imap_commands.specs.ExpungeCommand.{uid_expunge_report, uid_expunge_intent};
ghost use Rattle.imap_commands.specs.NamedMessages.{messages_named_by};
ghost use Rattle.imap_commands.specs.MemoryFaults.{EqualsOrLacksMemory};
ghost use Rattle.imap_commands.specs.ExpungeCommand.{close_rule, expunge_rule, uid_expunge_rule};
ghost use Rattle.imap_commands.specs.ExpungeCommand.{intent_to_close, intent_to_expunge};
ghost use Rattle.imap_commands.specs.ExpungeCommand.{intent_to_uid_expunge};
ghost use Rattle.imap_commands.specs.ExpungeCommand.{report_of_uid_expunge};
ghost use Rattle.imap_commands.specs.NamedMessages.{messages_named_in, no_messages_named};

use crate::command_args::OpenMailbox;
use crate::command_rule::CommandRule;
use crate::intent::{Intent, NamedMessages};
use crate::limits::{intent_within_limits, within_limits};
use crate::named_messages::messages_named;
use crate::replica_mail::{ReplicaMail, open_mailbox};
use crate::report::{CommandReport, gone_code};
use crate::report_input::ReportInput;
use crate::session::State;
use crate::versions::ids_of_versions;
use crdt_ops::Kind;
use imap_answers::{CompletedWord, Refusal};
use imap_types::{Name, SequenceSet};
use mailbox_rows::{Row, Rows};
use std::alloc::{AllocError, Global};

/// The intent of EXPUNGE (RFC 9051, section 6.4.3): it removes all listed messages with `\Deleted`,
/// also those that the session hasn't been shown yet. Otherwise the first reason for refusing it:
/// `ReadOnly`, `TooManyVersions` (more than 64 of a message that it removes). `NoMemory` may
/// replace any result. Each message is read once.
pub fn expunge_intent(alloc: Global, mailbox: &OpenMailbox<'_>) -> Result<Vec<Kind>, Refusal>
    ensures { EqualsOrLacksMemory (λ kinds. kinds.items) result (expunge_intent mailbox.now) }
{
    if mailbox.read_only {
        return Err(Refusal::ReadOnly);
    }
    within_limits(expunges_of(alloc, mailbox.name, &mailbox.rows)?)
}

/// The intent of CLOSE (RFC 9051, section 6.4.1): that of EXPUNGE, with `TooManyVersions` and
/// `NoMemory`; but in a read-only mailbox it issues nothing and isn't refused.
pub fn close_intent(alloc: Global, mailbox: &OpenMailbox<'_>) -> Result<Vec<Kind>, Refusal>
    ensures { EqualsOrLacksMemory (λ kinds. kinds.items) result (close_intent mailbox.now) }
{
    if mailbox.read_only {
        return Ok(Vec::new(alloc));
    }
    within_limits(expunges_of(alloc, mailbox.name, &mailbox.rows)?)
}

/// The Expunges of all messages with `\Deleted`.
fn expunges_of(alloc: Global, folder: &Name, before: &Rows<'_>) -> Result<Vec<Kind>, AllocError>
    ensures { IfOk result (λ kinds. kinds.items ≡ expunges_of folder.now before.now) }
{
    let mut kinds = Vec::new(alloc);
    for place in 0..before.count() as usize {
        push_expunge_at(alloc, folder, before, place, &mut kinds)?;
    }
    Ok(kinds)
}

/// Adds the Expunge of the message at this place of the listing, if it has `\Deleted`.
fn push_expunge_at(
    alloc: Global,
    folder: &Name,
    before: &Rows<'_>,
    place: usize,
    kinds: &mut Vec<Kind>,
) -> Result<(), AllocError>
    ensures { OnOk result
        (kinds.new.items ≡ kinds.old.items ++ expunge_at folder.now (slice_get before.now place)) }
{
    match before.row_at(place) {
        None => Ok(()),
        Some(row) => push_expunge(alloc, folder, &row, kinds),
    }
}

/// Adds the Expunge of a message, if it has `\Deleted`.
fn push_expunge(
    alloc: Global,
    folder: &Name,
    row: &Row<'_>,
    kinds: &mut Vec<Kind>,
) -> Result<(), AllocError>
    ensures { OnOk result
        (kinds.new.items ≡ kinds.old.items ++ expunge_of folder.now (listed_message row.now)) }
{
    if !row.versions.deleted() {
        return Ok(());
    }
    kinds.push(Kind::Expunge {
        folder: folder.copy(alloc)?,
        old_ids: ids_of_versions(alloc, &row.versions)?,
    })?;
    Ok(())
}

/// The intent of UID EXPUNGE (RFC 9051, section 6.4.9): it removes the view's messages that the set
/// names by UIDs and that have `\Deleted`. Otherwise the first reason for refusing it: `ReadOnly`,
/// `TooManyVersions` (more than 64 of a message that it removes). `NoMemory` may replace any
/// result.
pub fn uid_expunge_intent(
    alloc: Global,
    mailbox: &OpenMailbox<'_>,
    uids: &SequenceSet,
) -> Result<Intent, Refusal>
    ensures gives { EqualsOrLacksMemory (λ intent. intent.kinds.items) result
        (uid_expunge_intent mailbox.now uids.now) }
    ensures named { IfOk result
        (λ intent. intent.named ≡ messages_named_by true uids.now mailbox.now.view) }
{
    if mailbox.read_only {
        return Err(Refusal::ReadOnly);
    }
    let numbers = messages_named(alloc, true, uids, mailbox.view)?;
    let kinds = expunges_at(alloc, mailbox, &numbers)?;
    intent_within_limits(kinds, NamedMessages::new(numbers, Vec::new(alloc)))
}

/// The Expunges of the messages with these numbers and `\Deleted`.
fn expunges_at(
    alloc: Global,
    mailbox: &OpenMailbox<'_>,
    numbers: &[u32],
) -> Result<Vec<Kind>, AllocError>
    ensures { IfOk result (λ kinds. kinds.items
        ≡ expunges_at mailbox.now.name mailbox.now.rows mailbox.now.view numbers.now) }
{
    let mut kinds = Vec::new(alloc);
    for number in numbers {
        if let Some(row) = mailbox.message_at(*number) {
            push_expunge(alloc, mailbox.name, &row, &mut kinds)?;
        }
    }
    Ok(kinds)
}

/// The report of UID EXPUNGE, from the mailbox before it and the messages that it names:
/// EXPUNGEISSUED if some of them are gone.
pub fn uid_expunge_report(
    alloc: Global,
    mailbox: &OpenMailbox<'_>,
    named: &NamedMessages,
) -> CommandReport
    ensures { (uids : List SequenceRange)
        → named.now ≡ messages_named_by true uids mailbox.now.view
        → result ≡ uid_expunge_report mailbox.now uids }
{
    let code = gone_code(&mailbox.rows, mailbox.view.entries(), named.numbers());
    CommandReport::new(Vec::new(alloc), Vec::new(alloc), code)
}

pub(crate) fn expunge_rule() -> CommandRule
    ensures { result ≡ expunge_rule }
{
    CommandRule::issuing(CompletedWord::Expunge)
}

pub(crate) fn uid_expunge_rule() -> CommandRule
    ensures { result ≡ uid_expunge_rule }
{
    CommandRule::issuing(CompletedWord::UidExpunge)
}

/// The rule of CLOSE, after which there is no sync (RFC 9051, section 6.4.1).
pub(crate) fn close_rule() -> CommandRule
    ensures { result ≡ close_rule }
{
    CommandRule {
        sync: None,
        ..CommandRule::issuing(CompletedWord::Close)
    }
}

/// The intent of CLOSE in a session.
pub(crate) fn intent_to_close<R: ReplicaMail>(
    alloc: Global,
    replica: &R,
    state: &State,
) -> Result<Intent, Refusal>
    ensures gives { EqualsOrLacksMemory (λ intent. intent.kinds.items) result
        (intent_to_close (R.before replica.now) state.now) }
    ensures named { IfOk result (λ intent. intent.named ≡ no_messages_named) }
{
    let State::Selected { view, read_only } = state else {
        return Err(Refusal::NotNow);
    };
    let mailbox = open_mailbox(alloc, replica, view, *read_only)?;
    let kinds = close_intent(alloc, &mailbox);
    drop(mailbox);
    Ok(Intent::of_kinds(alloc, kinds?))
}

/// The intent of EXPUNGE in a session.
pub(crate) fn intent_to_expunge<R: ReplicaMail>(
    alloc: Global,
    replica: &R,
    state: &State,
) -> Result<Intent, Refusal>
    ensures gives { EqualsOrLacksMemory (λ intent. intent.kinds.items) result
        (intent_to_expunge (R.before replica.now) state.now) }
    ensures named { IfOk result (λ intent. intent.named ≡ no_messages_named) }
{
    let State::Selected { view, read_only } = state else {
        return Err(Refusal::NotNow);
    };
    let mailbox = open_mailbox(alloc, replica, view, *read_only)?;
    let kinds = expunge_intent(alloc, &mailbox);
    drop(mailbox);
    Ok(Intent::of_kinds(alloc, kinds?))
}

/// The intent of UID EXPUNGE in a session.
pub(crate) fn intent_to_uid_expunge<R: ReplicaMail>(
    alloc: Global,
    replica: &R,
    state: &State,
    uids: &SequenceSet,
) -> Result<Intent, Refusal>
    ensures gives { EqualsOrLacksMemory (λ intent. intent.kinds.items) result
        (intent_to_uid_expunge (R.before replica.now) state.now uids.now) }
    ensures named { IfOk result (λ intent. intent.named
        ≡ messages_named_in state.now true uids.now) }
{
    let State::Selected { view, read_only } = state else {
        return Err(Refusal::NotNow);
    };
    let mailbox = open_mailbox(alloc, replica, view, *read_only)?;
    let intent = uid_expunge_intent(alloc, &mailbox, uids);
    drop(mailbox);
    intent
}

/// The report of UID EXPUNGE in a session.
pub(crate) fn report_of_uid_expunge<R: ReplicaMail>(
    alloc: Global,
    replica: &R,
    input: &ReportInput<'_>,
) -> Result<CommandReport, AllocError>
    ensures { (uids : List SequenceRange)
        → input.now.named.now ≡ messages_named_in input.now.state.now true uids
        → IfOk result (λ report. report
        ≡ report_of_uid_expunge (R.before replica.now) input.now.state.now uids) }
{
    let State::Selected { view, read_only } = input.state else {
        return Ok(CommandReport::empty(alloc));
    };
    let mailbox = open_mailbox(alloc, replica, view, *read_only)?;
    Ok(uid_expunge_report(alloc, &mailbox, input.named))
}
