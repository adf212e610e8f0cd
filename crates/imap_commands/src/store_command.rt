//! STORE and UID STORE (RFC 9051, section 6.4.6; RFC 7162, section 3.1.3).

ghost use Rattle.std.specs.Prelude.{◌≡◌, ◌&&◌, ◌++◌, flat_map, not, is_some, IfOk, OnOk, Some};
ghost use Rattle.imap_types.specs.Numbers.{AreRisingFrom};
ghost use Rattle.mailbox_rows.specs.RowViews.{listed_message};
ghost use Rattle.imap_types.specs.Unions.{united_flags};
ghost use Rattle.imap_query.specs.FetchCommand.{if_reported};
ghost use Rattle.session_view.specs.Views.{same_flags};
ghost use Rattle.imap_commands.specs.NamedMessages.{messages_stored_by};
ghost use Rattle.imap_commands.specs.MemoryFaults.{EqualsOrLacksMemory};
ghost use Rattle.imap_commands.specs.MessageNames.{names_of};
ghost use Rattle.imap_commands.specs.StoreCommand.{is_refused, is_taken};
ghost use Rattle.imap_commands.specs.StoreCommand.{is_unchanged, modified_code, silent_flags_at};
ghost use Rattle.imap_commands.specs.StoreCommand.{silent_flags_of};
ghost use Rattle.imap_commands.specs.StoreCommand.{store_of, store_report, store_intent};
ghost use Rattle.imap_commands.specs.StoreCommand.{stored_answer};
ghost use Rattle.imap_commands.specs.StoreCommand.{stored_answers, stores_of, refused_messages};
ghost use Rattle.imap_commands.specs.StoreCommand.{taken_messages};
ghost use Rattle.imap_commands.specs.Report.{entry_at, gone_code, message_at};
ghost use Rattle.imap_commands.specs.StoreCommand.{store_rule};
ghost use Rattle.imap_commands.specs.StoreCommand.{intent_to_store, report_of_store};
ghost use Rattle.imap_commands.specs.MailStates.{IsListingFor};
ghost use Rattle.imap_commands.specs.NamedMessages.{messages_stored_in};
ghost use Rattle.std.specs.Option.{option_map};

use crate::command_args::OpenMailbox;
use crate::command_rule::{CommandRule, sync_kind_by, word_by};
use crate::flag_change::changed_flags;
use crate::intent::{Intent, NamedMessages};
use crate::limits::{are_lawful, intent_within_limits};
use crate::named_messages::{messages_named, names_of, set_of};
use crate::replica_mail::{ReplicaMail, open_mailbox, rows_after};
use crate::report::{CommandReport, entry_at, gone_code, message_at};
use crate::report_input::ReportInput;
use crate::session::State;
use crate::versions::ids_of_versions;
use crdt_ops::Kind;
use imap_answers::{Answer, Code, CompletedWord, FetchItems, Refusal, Sections};
use imap_syntax::Store;
use imap_types::{Flags, Versions};
use mailbox_rows::{Row, Rows};
use session_view::{SilentFlags, ViewEntries};
use std::alloc::{AllocError, Global};

/// The intent of STORE: one Store for each message whose flags change. Otherwise the first reason
/// for refusing it: `NoSuchMessage`, `ReadOnly`, `KeywordTooLong` (a keyword that no message may
/// bear), `TooManyKeywords` (more than 32 on a message that it changes), `TooManyVersions` (more
/// than 64 of such a message). `NoMemory` may replace any result. Each named message is looked up
/// twice, by binary search.
pub fn store_intent(
    alloc: Global,
    mailbox: &OpenMailbox<'_>,
    request: &Store,
) -> Result<Intent, Refusal>
    ensures gives { EqualsOrLacksMemory (λ intent. intent.kinds.items) result
        (store_intent mailbox.now request.now) }
    ensures named { IfOk result
        (λ intent. intent.named ≡ messages_stored_by mailbox.now request.now) }
{
    let numbers = messages_named(alloc, request.by_uid, &request.messages, mailbox.view)?;
    if mailbox.read_only {
        return Err(Refusal::ReadOnly);
    }
    if !are_lawful(request.flags.keywords.as_slice()) {
        return Err(Refusal::KeywordTooLong);
    }
    let view = mailbox.view.entries();
    let taken = taken_messages(
        alloc,
        &mailbox.rows,
        view,
        request.unchanged_since,
        &numbers,
    )?;
    let kinds = stores_of(alloc, mailbox, request, &taken)?;
    intent_within_limits(kinds, NamedMessages::new(numbers, taken))
}

/// Whether a message hasn't changed since the mod-sequence of UNCHANGEDSINCE, if one is given.
fn is_unchanged(since: Option<u64>, row: &Row<'_>) -> bool
    ensures { result ≡ is_unchanged since (listed_message row.now) }
{
    match since {
        None => true,
        Some(modseq) => row.modseq <= modseq,
    }
}

/// Whether the listing has the message with this number, and it hasn't changed.
fn is_taken(since: Option<u64>, rows: &Rows<'_>, view: &ViewEntries, number: u32) -> bool
    ensures { result ≡ is_taken since (message_at rows.now view.now.items number) }
{
    match message_at(rows, view, number) {
        None => false,
        Some(row) => is_unchanged(since, &row),
    }
}

/// Whether the listing has the message with this number, but it has changed.
fn is_refused(since: Option<u64>, rows: &Rows<'_>, view: &ViewEntries, number: u32) -> bool
    ensures { result ≡ is_refused since (message_at rows.now view.now.items number) }
{
    match message_at(rows, view, number) {
        None => false,
        Some(row) => !is_unchanged(since, &row),
    }
}

/// The numbers of the messages that STORE may change: listed and unchanged.
fn taken_messages(
    alloc: Global,
    before: &Rows<'_>,
    view: &ViewEntries,
    since: Option<u64>,
    numbers: &[u32],
) -> Result<Vec<u32>, AllocError>
    ensures { IfOk result
        (λ taken. taken.items ≡ taken_messages before.now view.now.items since numbers.now) }
{
    let mut taken = Vec::new(alloc);
    for number in numbers {
        if is_taken(since, before, view, *number) {
            taken.push(*number)?;
        }
    }
    Ok(taken)
}

/// The numbers of the messages that STORE refuses: listed, but changed.
fn refused_messages(
    alloc: Global,
    before: &Rows<'_>,
    view: &ViewEntries,
    since: Option<u64>,
    numbers: &[u32],
) -> Result<Vec<u32>, AllocError>
    ensures { IfOk result
        (λ refused. refused.items ≡ refused_messages before.now view.now.items since numbers.now) }
{
    let mut refused = Vec::new(alloc);
    for number in numbers {
        if is_refused(since, before, view, *number) {
            refused.push(*number)?;
        }
    }
    Ok(refused)
}

/// The Stores of those of the messages with these numbers whose flags change.
fn stores_of(
    alloc: Global,
    mailbox: &OpenMailbox<'_>,
    request: &Store,
    numbers: &[u32],
) -> Result<Vec<Kind>, AllocError>
    ensures { IfOk result (λ kinds. kinds.items ≡ stores_of mailbox.now request.now numbers.now) }
{
    let mut kinds = Vec::new(alloc);
    for number in numbers {
        push_store(alloc, mailbox, request, *number, &mut kinds)?;
    }
    Ok(kinds)
}

/// Adds the Store of a message, if its flags change: it replaces all versions of the message.
fn push_store(
    alloc: Global,
    mailbox: &OpenMailbox<'_>,
    request: &Store,
    number: u32,
    kinds: &mut Vec<Kind>,
) -> Result<(), AllocError>
    ensures { OnOk result (kinds.new.items
        ≡ kinds.old.items
        ++ store_of mailbox.now.name request.now.action.mode request.now.flags
        (message_at mailbox.now.rows mailbox.now.view number)) }
{
    let Some(row) = mailbox.message_at(number) else {
        return Ok(());
    };
    let old = row.versions.flags(alloc)?;
    let flags = changed_flags(alloc, request.action.mode, &old, &request.flags)?;
    if are_same(&flags, &old) {
        return Ok(());
    }
    kinds.push(Kind::Store {
        folder: mailbox.name.copy(alloc)?,
        flags,
        old_ids: ids_of_versions(alloc, &row.versions)?,
        origin: row.origin,
    })?;
    Ok(())
}

/// Whether both are equal.
fn are_same(flags: &Flags, others: &Flags) -> bool
    ensures { result ≡ same_flags flags.now others.now }
{
    flags.same(others)
}

/// The report of STORE, from the mailbox before it, the listing `after` it and the messages that it
/// names: a FETCH of each message that it could change, the flags that the session sets itself if
/// STORE is silent, and the code MODIFIED for the messages that UNCHANGEDSINCE refused, or
/// EXPUNGEISSUED if some are gone. `condstore` says whether CONDSTORE is on. `Err` if memory runs
/// out. Each named message is looked up at most three times, by binary search.
pub fn store_report(
    alloc: Global,
    mailbox: &OpenMailbox<'_>,
    after: &Rows<'_>,
    condstore: bool,
    request: &Store,
    named: &NamedMessages,
) -> Result<CommandReport, AllocError>
    requires { named.now ≡ messages_stored_by mailbox.now request.now }
    ensures { IfOk result
        (λ sent. sent ≡ store_report mailbox.now after.now condstore request.now) }
{
    let before = &mailbox.rows;
    let view = mailbox.view.entries();
    let numbers = named.numbers();
    let refused = refused_messages(alloc, before, view, request.unchanged_since, numbers)?;
    let code = store_code(alloc, before, view, request.by_uid, &refused, numbers)?;
    let own = stored_answers(alloc, after, view, condstore, request, named.stored())?;
    let silent = silent_flags_of(alloc, view, request, named.stored())?;
    Ok(CommandReport::new(own, silent, code))
}

/// The code of a STORE: MODIFIED with the refused messages, or if there are none, EXPUNGEISSUED if
/// some of the named messages are gone.
fn store_code(
    alloc: Global,
    before: &Rows<'_>,
    view: &ViewEntries,
    by_uid: bool,
    refused: &[u32],
    numbers: &[u32],
) -> Result<Option<Code>, AllocError>
    requires { AreRisingFrom 1 (names_of by_uid view.now.items refused.now) }
    ensures { IfOk result (λ code. code
        ≡ modified_code (names_of by_uid view.now.items refused.now)
        (gone_code before.now view.now.items numbers.now)) }
{
    let names = names_of(alloc, by_uid, view, refused)?;
    if names.is_empty() {
        return Ok(gone_code(before, view, numbers));
    }
    Ok(Some(Code::Modified {
        refused: set_of(alloc, &names)?,
    }))
}

/// The answers of STORE for the messages that it could change.
fn stored_answers(
    alloc: Global,
    after: &Rows<'_>,
    view: &ViewEntries,
    condstore: bool,
    request: &Store,
    taken: &[u32],
) -> Result<Vec<Answer>, AllocError>
    ensures { IfOk result (λ answers. answers.items
        ≡ stored_answers after.now view.now.items condstore request.now taken.now) }
{
    if answers_nothing(request.action.silent, request.unchanged_since) {
        return Ok(Vec::new(alloc));
    }
    answers_of(alloc, after, view, condstore, request, taken)
}

/// Whether STORE gives no answers: it is silent and has no UNCHANGEDSINCE.
fn answers_nothing(silent: bool, since: Option<u64>) -> bool
    ensures { result ≡ (silent && not (is_some since)) }
{
    silent && !since.is_some()
}

/// A FETCH of each message as it is after the command.
fn answers_of(
    alloc: Global,
    after: &Rows<'_>,
    view: &ViewEntries,
    condstore: bool,
    request: &Store,
    taken: &[u32],
) -> Result<Vec<Answer>, AllocError>
    ensures { IfOk result (λ answers. answers.items
        ≡ flat_map
        (λ n. stored_answer condstore request.now n (message_at after.now view.now.items n))
        taken.now) }
{
    let mut answers = Vec::new(alloc);
    for number in taken {
        if let Some(row) = message_at(after, view, *number) {
            push_answer(alloc, condstore, request, *number, &row, &mut answers)?;
        }
    }
    Ok(answers)
}

/// Adds the FETCH of the message with this number as it is after the command.
fn push_answer(
    alloc: Global,
    condstore: bool,
    request: &Store,
    number: u32,
    row: &Row<'_>,
    answers: &mut Vec<Answer>,
) -> Result<(), AllocError>
    ensures { OnOk result (answers.new.items
        ≡ answers.old.items
        ++ stored_answer condstore request.now number (Some (listed_message row.now))) }
{
    let flags = flags_if_reported(alloc, !request.action.silent, &row.versions)?;
    let with_modseq = request.unchanged_since.is_some() || condstore;
    answers.push(Answer::Fetch {
        number,
        items: FetchItems {
            uid: request.by_uid.then_some(row.uid),
            flags,
            date: None,
            size: None,
            modseq: with_modseq.then_some(row.modseq),
            sections: Sections::new(Vec::new(alloc)),
        },
    })?;
    Ok(())
}

/// The union of a message's flags, if they are reported.
fn flags_if_reported(
    alloc: Global,
    sent: bool,
    versions: &Versions<'_>,
) -> Result<Option<Flags>, AllocError>
    ensures { IfOk result (λ flags. flags ≡ if_reported sent (united_flags versions.now.list.now)) }
{
    if !sent {
        return Ok(None);
    }
    Ok(Some(versions.flags(alloc)?))
}

/// The flags that the session sets itself if STORE is silent.
fn silent_flags_of(
    alloc: Global,
    view: &ViewEntries,
    request: &Store,
    taken: &[u32],
) -> Result<Vec<SilentFlags>, AllocError>
    ensures { IfOk result (λ silent_flags. silent_flags.items
        ≡ silent_flags_of view.now.items request.now taken.now) }
{
    if !request.action.silent {
        return Ok(Vec::new(alloc));
    }
    silent_flags(alloc, view, request, taken)
}

fn silent_flags(
    alloc: Global,
    view: &ViewEntries,
    request: &Store,
    taken: &[u32],
) -> Result<Vec<SilentFlags>, AllocError>
    ensures { IfOk result (λ silent_flags. silent_flags.items
        ≡ flat_map
        (λ n. silent_flags_at request.now.action.mode request.now.flags n
        (entry_at view.now.items n))
        taken.now) }
{
    let mut silent_flags = Vec::new(alloc);
    for number in taken {
        push_silent(alloc, view, request, *number, &mut silent_flags)?;
    }
    Ok(silent_flags)
}

/// Adds the view's flags of a message, changed as STORE asks.
fn push_silent(
    alloc: Global,
    view: &ViewEntries,
    request: &Store,
    number: u32,
    silent_flags: &mut Vec<SilentFlags>,
) -> Result<(), AllocError>
    ensures { OnOk result (silent_flags.new.items
        ≡ silent_flags.old.items
        ++ silent_flags_at request.now.action.mode request.now.flags number
        (entry_at view.now.items number)) }
{
    let Some(entry) = entry_at(view, number) else {
        return Ok(());
    };
    silent_flags.push(SilentFlags {
        number,
        flags: changed_flags(alloc, request.action.mode, &entry.flags, &request.flags)?,
    })?;
    Ok(())
}

/// The rule of STORE, which turns mod-sequences on by UNCHANGEDSINCE (RFC 7162, section 3.1).
pub(crate) fn store_rule(request: &Store) -> CommandRule
    ensures { result ≡ store_rule request.now }
{
    let word = word_by(
        request.by_uid,
        CompletedWord::UidStore,
        CompletedWord::Store,
    );
    CommandRule {
        sync: Some(sync_kind_by(request.by_uid)),
        enables_condstore: request.unchanged_since.is_some(),
        ..CommandRule::issuing(word)
    }
}

/// The intent of STORE in a session.
pub(crate) fn intent_to_store<R: ReplicaMail>(
    alloc: Global,
    replica: &R,
    state: &State,
    request: &Store,
) -> Result<Intent, Refusal>
    ensures gives { EqualsOrLacksMemory (λ intent. intent.kinds.items) result
        (intent_to_store (R.before replica.now) state.now request.now) }
    ensures named { IfOk result (λ intent. intent.named
        ≡ messages_stored_in (R.before replica.now) state.now request.now) }
{
    let State::Selected { view, read_only } = state else {
        return Err(Refusal::NotNow);
    };
    let mailbox = open_mailbox(alloc, replica, view, *read_only)?;
    let intent = store_intent(alloc, &mailbox, request);
    drop(mailbox);
    intent
}

/// The report of STORE in a session.
pub(crate) fn report_of_store<R: ReplicaMail>(
    alloc: Global,
    replica: &R,
    input: &ReportInput<'_>,
    made: Option<&Rows<'_>>,
    request: &Store,
) -> Result<CommandReport, AllocError>
    requires ready { R.is_ready replica.now }
    requires made { IsListingFor (R.after replica.now) input.now.state.now
        (option_map (λ rows. rows.now) made) }
    requires named { input.now.named.now
        ≡ messages_stored_in (R.before replica.now) input.now.state.now request.now }
    ensures { IfOk result (λ report. report
        ≡ report_of_store (R.before replica.now) (R.after replica.now) input.now.state.now
        input.now.modseq request.now) }
{
    let State::Selected { view, read_only } = input.state else {
        return Ok(CommandReport::empty(alloc));
    };
    let mailbox = open_mailbox(alloc, replica, view, *read_only)?;
    if let Some(after) = made {
        return store_report(alloc, &mailbox, after, input.modseq, request, input.named);
    }
    let after = rows_after(alloc, replica, view)?;
    store_report(alloc, &mailbox, &after, input.modseq, request, input.named)
}
