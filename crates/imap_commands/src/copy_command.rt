//! COPY, MOVE and their UID forms (RFC 9051, sections 6.4.7 and 6.4.8).

ghost use Rattle.std.specs.Prelude.{◌≡◌, ◌++◌, drop, map, IfOk, OnOk};
ghost use Rattle.std.specs.List.{slice_get};
ghost use Rattle.std.specs.Option.{option_to_list};
ghost use Rattle.imap_types.specs.Numbers.{AreRisingFrom};
ghost use Rattle.mailbox_rows.specs.RowViews.{rows_after_uid};
ghost use Rattle.imap_commands.specs.CopyCommand.{append_of, appends_of, copied_code, copies_in};
ghost use Rattle.imap_commands.specs.CopyCommand.{copy_report, copy_intent, move_report};
ghost use Rattle.imap_commands.specs.CopyCommand.{move_intent};
ghost use Rattle.imap_commands.specs.CopyCommand.{moved_answers, expunge_of_moved};
ghost use Rattle.imap_commands.specs.CopyCommand.{expunges_of_moved};
ghost use Rattle.imap_commands.specs.CopyCommand.{sources_of};
ghost use Rattle.imap_commands.specs.NamedMessages.{AreNamedBySome, messages_named_by};
ghost use Rattle.imap_commands.specs.MemoryFaults.{EqualsOrLacksMemory};
ghost use Rattle.imap_commands.specs.Report.{gone_code, message_at};
ghost use Rattle.imap_commands.specs.CopyCommand.{copy_rule, move_rule};
ghost use Rattle.imap_commands.specs.CopyCommand.{intent_to_copy, intent_to_move, report_of_copy};
ghost use Rattle.imap_commands.specs.CopyCommand.{report_of_move};
ghost use Rattle.imap_syntax.specs.declared.arguments.Transfer.{Transfer};
ghost use Rattle.imap_commands.specs.NamedMessages.{messages_named_in};

use crate::command_args::{CopyTarget, OpenMailbox};
use crate::command_rule::{CommandRule, word_by};
use crate::intent::{Intent, NamedMessages};
use crate::limits::intent_within_limits;
use crate::named_messages::{existing_messages, messages_named, names_of, set_of};
use crate::replica_mail::{ReplicaMail, copy_target, open_mailbox};
use crate::report::{CommandReport, gone_code};
use crate::report_input::ReportInput;
use crate::session::State;
use crate::versions::ids_of_versions;
use crdt_ops::Kind;
use imap_answers::{Answer, Code, CompletedWord, Notice, Refusal};
use imap_syntax::Transfer;
use imap_types::{Name, NumberSet};
use mailbox_rows::Rows;
use std::alloc::{AllocError, Global};

/// The outcome of a COPY or MOVE.
#[derive(Drop)]
struct Copied {
    /// The UIDs of the messages that were copied.
    source: NumberSet,
    /// The UIDs of their copies, in the same order.
    copies: NumberSet,
    /// The code EXPUNGEISSUED, if some of the named messages are gone.
    gone: Option<Code>,
}

/// The intent of COPY (RFC 9051, section 6.4.7): it appends the named messages to the destination,
/// and the copies share their texts. Otherwise the first reason for refusing it: `NoSuchMessage`,
/// `NoDestination` (the destination doesn't exist, by `exists`), `TooManyKeywords` (more than 32 on
/// a message). `NoMemory` may replace any result.
pub fn copy_intent(
    alloc: Global,
    mailbox: &OpenMailbox<'_>,
    request: &Transfer,
    exists: bool,
) -> Result<Intent, Refusal>
    ensures gives { EqualsOrLacksMemory (λ intent. intent.kinds.items) result
        (copy_intent mailbox.now request.now exists) }
    ensures named { IfOk result (λ intent. intent.named
        ≡ messages_named_by request.now.by_uid request.now.messages mailbox.now.view) }
{
    let numbers = messages_named(alloc, request.by_uid, &request.messages, mailbox.view)?;
    if !exists {
        return Err(Refusal::NoDestination);
    }
    let mut kinds = Vec::new(alloc);
    push_appends(alloc, &request.name, mailbox, &numbers, &mut kinds)?;
    intent_within_limits(kinds, NamedMessages::new(numbers, Vec::new(alloc)))
}

/// The intent of MOVE (RFC 9051, section 6.4.8): it first appends all named messages to the
/// destination, and then expunges them from the folder; the copies share their texts. Otherwise the
/// first reason for refusing it: `NoSuchMessage`, `ReadOnly`, `NoDestination` (the destination
/// doesn't exist, by `exists`), `TooManyKeywords` (more than 32 on a message), `TooManyVersions`
/// (more than 64 of one). `NoMemory` may replace any result.
pub fn move_intent(
    alloc: Global,
    mailbox: &OpenMailbox<'_>,
    request: &Transfer,
    exists: bool,
) -> Result<Intent, Refusal>
    ensures gives { EqualsOrLacksMemory (λ intent. intent.kinds.items) result
        (move_intent mailbox.now request.now exists) }
    ensures named { IfOk result (λ intent. intent.named
        ≡ messages_named_by request.now.by_uid request.now.messages mailbox.now.view) }
{
    let numbers = messages_named(alloc, request.by_uid, &request.messages, mailbox.view)?;
    if mailbox.read_only {
        return Err(Refusal::ReadOnly);
    }
    if !exists {
        return Err(Refusal::NoDestination);
    }
    let mut kinds = Vec::new(alloc);
    push_appends(alloc, &request.name, mailbox, &numbers, &mut kinds)?;
    push_removals(alloc, mailbox, &numbers, &mut kinds)?;
    intent_within_limits(kinds, NamedMessages::new(numbers, Vec::new(alloc)))
}

/// Adds the Appends of the listed messages with these numbers.
fn push_appends(
    alloc: Global,
    destination: &Name,
    mailbox: &OpenMailbox<'_>,
    numbers: &[u32],
    kinds: &mut Vec<Kind>,
) -> Result<(), AllocError>
    ensures { OnOk result (kinds.new.items
        ≡ kinds.old.items
        ++ appends_of destination.now mailbox.now.rows mailbox.now.view numbers.now) }
{
    for number in numbers {
        push_append(alloc, destination, mailbox, *number, kinds)?;
    }
    Ok(())
}

fn push_append(
    alloc: Global,
    destination: &Name,
    mailbox: &OpenMailbox<'_>,
    number: u32,
    kinds: &mut Vec<Kind>,
) -> Result<(), AllocError>
    ensures { OnOk result (kinds.new.items
        ≡ kinds.old.items
        ++ append_of destination.now (message_at mailbox.now.rows mailbox.now.view number)) }
{
    let Some(row) = mailbox.message_at(number) else {
        return Ok(());
    };
    let folder = destination.copy(alloc)?;
    let flags = row.versions.flags(alloc)?;
    let text = row.copy_text(alloc)?;
    kinds.push(Kind::Append {
        folder,
        flags,
        date: row.shown_date(),
        text,
    })?;
    Ok(())
}

/// Adds the Expunges of the listed messages with these numbers.
fn push_removals(
    alloc: Global,
    mailbox: &OpenMailbox<'_>,
    numbers: &[u32],
    kinds: &mut Vec<Kind>,
) -> Result<(), AllocError>
    ensures { OnOk result (kinds.new.items
        ≡ kinds.old.items
        ++ expunges_of_moved mailbox.now.name mailbox.now.rows mailbox.now.view numbers.now) }
{
    for number in numbers {
        push_removal(alloc, mailbox, *number, kinds)?;
    }
    Ok(())
}

fn push_removal(
    alloc: Global,
    mailbox: &OpenMailbox<'_>,
    number: u32,
    kinds: &mut Vec<Kind>,
) -> Result<(), AllocError>
    ensures { OnOk result (kinds.new.items
        ≡ kinds.old.items
        ++ expunge_of_moved mailbox.now.name
        (message_at mailbox.now.rows mailbox.now.view number)) }
{
    let Some(row) = mailbox.message_at(number) else {
        return Ok(());
    };
    kinds.push(Kind::Expunge {
        folder: mailbox.name.copy(alloc)?,
        old_ids: ids_of_versions(alloc, &row.versions)?,
    })?;
    Ok(())
}

/// The report of COPY, from the mailbox before it and the messages that it names: COPYUID, or if
/// nothing was copied, EXPUNGEISSUED if some messages are gone (RFC 9051, section 7.1). `Err` if
/// memory runs out.
pub fn copy_report(
    alloc: Global,
    mailbox: &OpenMailbox<'_>,
    target: &CopyTarget<'_>,
    named: &NamedMessages,
) -> Result<CommandReport, AllocError>
    requires { AreNamedBySome mailbox.now.view named.now }
    ensures { (request : Transfer)
        → named.now ≡ messages_named_by request.by_uid request.messages mailbox.now.view
        → IfOk result (λ sent. sent ≡ copy_report mailbox.now request target.now) }
{
    let Copied {
        source,
        copies,
        gone,
    } = copied_uids(alloc, mailbox, target, named)?;
    let code = copied_code(target.uidvalidity, source, copies, gone);
    Ok(CommandReport::new(Vec::new(alloc), Vec::new(alloc), code))
}

/// The report of MOVE, from the mailbox before it and the messages that it names: COPYUID as an
/// answer of its own, and the code EXPUNGEISSUED if some messages are gone (RFC 9051,
/// sections 6.4.8 and 7.1). `Err` if memory runs out.
pub fn move_report(
    alloc: Global,
    mailbox: &OpenMailbox<'_>,
    target: &CopyTarget<'_>,
    named: &NamedMessages,
) -> Result<CommandReport, AllocError>
    requires { AreNamedBySome mailbox.now.view named.now }
    ensures { (request : Transfer)
        → named.now ≡ messages_named_by request.by_uid request.messages mailbox.now.view
        → IfOk result (λ sent. sent ≡ move_report mailbox.now request target.now) }
{
    let Copied {
        source,
        copies,
        gone,
    } = copied_uids(alloc, mailbox, target, named)?;
    let own = moved_answers(alloc, target.uidvalidity, source, copies)?;
    Ok(CommandReport::new(own, Vec::new(alloc), gone))
}

/// The UIDs of the messages that were copied and of their copies, and the code for messages that
/// are gone.
fn copied_uids(
    alloc: Global,
    mailbox: &OpenMailbox<'_>,
    target: &CopyTarget<'_>,
    named: &NamedMessages,
) -> Result<Copied, AllocError>
    requires { AreNamedBySome mailbox.now.view named.now }
    ensures source { IfOk result
        (λ copied. copied.source ≡ sources_of mailbox.now.rows mailbox.now.view named.now.numbers) }
    ensures copies { IfOk result
        (λ copied. copied.copies ≡ copies_in target.now.uidnext target.now.rows) }
    ensures gone { IfOk result
        (λ copied. copied.gone ≡ gone_code mailbox.now.rows mailbox.now.view named.now.numbers) }
{
    let before = &mailbox.rows;
    let view = mailbox.view.entries();
    let existing = existing_messages(alloc, before, view, named.numbers())?;
    let uids = names_of(alloc, true, view, &existing)?;
    Ok(Copied {
        source: set_of(alloc, &uids)?,
        copies: copies_in(alloc, target.uidnext, &target.rows)?,
        gone: gone_code(before, view, named.numbers()),
    })
}

/// The UIDs of the messages that the command added to the destination.
fn copies_in(alloc: Global, uidnext: u32, target_rows: &Rows<'_>) -> Result<NumberSet, AllocError>
    ensures { IfOk result (λ copies. copies ≡ copies_in uidnext target_rows.now) }
{
    let uids = uids_above(alloc, uidnext.saturating_sub(1), target_rows)?;
    set_of(alloc, &uids)
}

/// The code of a COPY: COPYUID, or `gone` if nothing was copied.
fn copied_code(
    uidvalidity: u32,
    source: NumberSet,
    copies: NumberSet,
    gone: Option<Code>,
) -> Option<Code>
    ensures { result ≡ copied_code uidvalidity source copies gone }
{
    if source.is_empty() {
        return gone;
    }
    Some(Code::CopyUid {
        uidvalidity,
        source,
        copies,
    })
}

/// The answers of a MOVE: COPYUID, unless nothing was copied.
fn moved_answers(
    alloc: Global,
    uidvalidity: u32,
    source: NumberSet,
    copies: NumberSet,
) -> Result<Vec<Answer>, AllocError>
    ensures { IfOk result (λ own. own.items ≡ moved_answers uidvalidity source copies) }
{
    let mut own = Vec::new(alloc);
    if source.is_empty() {
        return Ok(own);
    }
    own.push(Answer::UntaggedOk {
        notice: Notice::CopyUid {
            uidvalidity,
            source,
            copies,
        },
    })?;
    Ok(own)
}

/// The listing's UIDs above this one.
fn uids_above(alloc: Global, uid: u32, rows: &Rows<'_>) -> Result<Vec<u32>, AllocError>
    ensures uids { IfOk result
        (λ uids. uids.items ≡ map (λ row. row.uid) (rows_after_uid uid rows.now)) }
    ensures rising { IfOk result (λ uids. AreRisingFrom 1 uids.items) }
{
    let _count = rows.count();
    let uids = uids_from(alloc, rows.place_after_uid(uid), rows)?;
    Ok(uids)
}

/// The UIDs of the message at this place and of those after it.
fn uids_from(alloc: Global, start: usize, rows: &Rows<'_>) -> Result<Vec<u32>, AllocError>
    ensures { IfOk result (λ uids. uids.items ≡ map (λ row. row.uid) (drop start rows.now)) }
{
    let mut uids = Vec::new(alloc);
    for place in start..rows.count() as usize {
        push_uid(rows, place, &mut uids)?;
    }
    Ok(uids)
}

/// Adds the UID of the message at this place.
fn push_uid(rows: &Rows<'_>, place: usize, uids: &mut Vec<u32>) -> Result<(), AllocError>
    ensures { OnOk result (uids.new.items
        ≡ uids.old.items ++ map (λ row. row.uid) (option_to_list (slice_get rows.now place))) }
{
    if let Some(row) = rows.row_at(place) {
        uids.push(row.uid)?;
    }
    Ok(())
}

pub(crate) fn copy_rule(request: &Transfer) -> CommandRule
    ensures { result ≡ copy_rule request.now }
{
    CommandRule::issuing(word_by(request.by_uid, CompletedWord::UidCopy, CompletedWord::Copy))
}

pub(crate) fn move_rule(request: &Transfer) -> CommandRule
    ensures { result ≡ move_rule request.now }
{
    CommandRule::issuing(word_by(request.by_uid, CompletedWord::UidMove, CompletedWord::Move))
}

/// The intent of COPY in a session.
pub(crate) fn intent_to_copy<R: ReplicaMail>(
    alloc: Global,
    replica: &R,
    state: &State,
    request: &Transfer,
) -> Result<Intent, Refusal>
    ensures gives { EqualsOrLacksMemory (λ intent. intent.kinds.items) result
        (intent_to_copy (R.before replica.now) state.now request.now) }
    ensures named { IfOk result (λ intent. intent.named
        ≡ messages_named_in state.now request.now.by_uid request.now.messages) }
{
    let State::Selected { view, read_only } = state else {
        return Err(Refusal::NotNow);
    };
    let mailbox = open_mailbox(alloc, replica, view, *read_only)?;
    let intent = copy_intent(alloc, &mailbox, request, replica.exists(&request.name));
    drop(mailbox);
    intent
}

/// The intent of MOVE in a session.
pub(crate) fn intent_to_move<R: ReplicaMail>(
    alloc: Global,
    replica: &R,
    state: &State,
    request: &Transfer,
) -> Result<Intent, Refusal>
    ensures gives { EqualsOrLacksMemory (λ intent. intent.kinds.items) result
        (intent_to_move (R.before replica.now) state.now request.now) }
    ensures named { IfOk result (λ intent. intent.named
        ≡ messages_named_in state.now request.now.by_uid request.now.messages) }
{
    let State::Selected { view, read_only } = state else {
        return Err(Refusal::NotNow);
    };
    let mailbox = open_mailbox(alloc, replica, view, *read_only)?;
    let intent = move_intent(alloc, &mailbox, request, replica.exists(&request.name));
    drop(mailbox);
    intent
}

/// The report of COPY in a session.
pub(crate) fn report_of_copy<R: ReplicaMail>(
    alloc: Global,
    replica: &R,
    input: &ReportInput<'_>,
    request: &Transfer,
) -> Result<CommandReport, AllocError>
    requires ready { R.is_ready replica.now }
    requires named { input.now.named.now
        ≡ messages_named_in input.now.state.now request.now.by_uid request.now.messages }
    ensures { IfOk result (λ report. report
        ≡ report_of_copy (R.before replica.now) (R.after replica.now) input.now.state.now
        request.now) }
{
    let State::Selected { view, read_only } = input.state else {
        return Ok(CommandReport::empty(alloc));
    };
    let mailbox = open_mailbox(alloc, replica, view, *read_only)?;
    let target = copy_target(alloc, replica, &request.name)?;
    let report = copy_report(alloc, &mailbox, &target, input.named);
    drop(target);
    drop(mailbox);
    report
}

/// The report of MOVE in a session.
pub(crate) fn report_of_move<R: ReplicaMail>(
    alloc: Global,
    replica: &R,
    input: &ReportInput<'_>,
    request: &Transfer,
) -> Result<CommandReport, AllocError>
    requires ready { R.is_ready replica.now }
    requires named { input.now.named.now
        ≡ messages_named_in input.now.state.now request.now.by_uid request.now.messages }
    ensures { IfOk result (λ report. report
        ≡ report_of_move (R.before replica.now) (R.after replica.now) input.now.state.now
        request.now) }
{
    let State::Selected { view, read_only } = input.state else {
        return Ok(CommandReport::empty(alloc));
    };
    let mailbox = open_mailbox(alloc, replica, view, *read_only)?;
    let target = copy_target(alloc, replica, &request.name)?;
    let report = move_report(alloc, &mailbox, &target, input.named);
    drop(target);
    drop(mailbox);
    report
}
