//! FETCH and UID FETCH (RFC 9051, section 6.4.5; RFC 7162, section 3.1.4).

ghost use Rattle.std.specs.Prelude.{◌≡◌, ◌++◌, false, length, IfOk, OnOk};
ghost use Rattle.std.specs.Option.{option_map, unwrap_or};
ghost use Rattle.imap_query.specs.FetchCommand.{fetch_answers};
ghost use Rattle.imap_types.specs.Unions.{united_flags};
ghost use Rattle.imap_commands.specs.FetchCommand.{fetch_report, fetch_intent, mode_of, seen_flags};
ghost use Rattle.imap_commands.specs.FetchCommand.{seen_store, seen_stores, viewed_message_at};
ghost use Rattle.imap_commands.specs.FetchCommand.{viewed_messages_at};
ghost use Rattle.imap_commands.specs.NamedMessages.{messages_named_by};
ghost use Rattle.imap_commands.specs.MemoryFaults.{EqualsOrLacksMemory};
ghost use Rattle.imap_commands.specs.Report.{are_some_gone, entry_at, gone_code, message_at};
ghost use Rattle.imap_commands.specs.FetchCommand.{fetch_rule};
ghost use Rattle.imap_commands.specs.FetchCommand.{intent_to_fetch, report_of_fetch};
ghost use Rattle.imap_commands.specs.MailStates.{IsListingFor};
ghost use Rattle.imap_commands.specs.NamedMessages.{messages_named_in};

use crate::command_args::OpenMailbox;
use crate::command_rule::{CommandRule, sync_kind_by, word_by};
use crate::enable_command::fetch_asks_modseq;
use crate::intent::{Intent, NamedMessages};
use crate::limits::intent_within_limits;
use crate::named_messages::messages_named;
use crate::replica_mail::{ReplicaMail, open_mailbox, rows_after};
use crate::report::{CommandReport, entry_at, gone_code};
use crate::report_input::ReportInput;
use crate::session::State;
use crate::versions::ids_of_versions;
use crdt_ops::Kind;
use imap_answers::{Answer, Code, CompletedWord, Refusal};
use imap_query::{
    FetchMode, ViewedMessage, any_sets_seen, fetch, fetch_unchanged, has_changed_since,
    is_seen_set, make_room,
};
use imap_syntax::{Fetch, FetchItem};
use imap_types::{Flags, Versions};
use mailbox_rows::Rows;
use session_view::ViewEntries;
use std::alloc::{AllocError, Global};

/// The intent of FETCH (RFC 9051, section 6.4.5): it stores `\Seen` on the messages of which it
/// reads a section without PEEK. Otherwise the first reason for refusing it: `NoSuchMessage`,
/// `TooManyKeywords` (more than 32 on a message that gets `\Seen`), `TooManyVersions` (more than 64
/// of such a message). `NoMemory` may replace any result.
pub fn fetch_intent(
    alloc: Global,
    mailbox: &OpenMailbox<'_>,
    request: &Fetch,
) -> Result<Intent, Refusal>
    ensures gives { EqualsOrLacksMemory (λ intent. intent.kinds.items) result
        (fetch_intent mailbox.now request.now) }
    ensures named { IfOk result (λ intent. intent.named
        ≡ messages_named_by request.now.by_uid request.now.messages mailbox.now.view) }
{
    let numbers = messages_named(alloc, request.by_uid, &request.messages, mailbox.view)?;
    let kinds = seen_stores(alloc, mailbox, request, &numbers)?;
    intent_within_limits(kinds, NamedMessages::new(numbers, Vec::new(alloc)))
}

/// The mode of a FETCH, with CONDSTORE on or off.
fn mode_of(mailbox: &OpenMailbox<'_>, condstore: bool, request: &Fetch) -> FetchMode
    ensures { result ≡ mode_of mailbox.now condstore request.now }
{
    FetchMode {
        by_uid: request.by_uid,
        condstore,
        writable: !mailbox.read_only,
        changed_since: request.changed_since,
    }
}

/// The Stores of `\Seen` for the messages with these numbers.
fn seen_stores(
    alloc: Global,
    mailbox: &OpenMailbox<'_>,
    request: &Fetch,
    numbers: &[u32],
) -> Result<Vec<Kind>, AllocError>
    ensures { IfOk result (λ kinds. kinds.items ≡ seen_stores mailbox.now request.now numbers.now) }
{
    let mut kinds = Vec::new(alloc);
    if mailbox.read_only || !any_sets_seen(request.items.as_slice()) {
        return Ok(kinds);
    }
    for number in numbers {
        push_seen(alloc, mailbox, request, *number, &mut kinds)?;
    }
    Ok(kinds)
}

/// Adds the Store of `\Seen` for a message, if the listing has it and FETCH sets the flag on it.
fn push_seen(
    alloc: Global,
    mailbox: &OpenMailbox<'_>,
    request: &Fetch,
    number: u32,
    kinds: &mut Vec<Kind>,
) -> Result<(), AllocError>
    ensures { OnOk result (kinds.new.items
        ≡ kinds.old.items
        ++ seen_store mailbox.now.name request.now.items (mode_of mailbox.now false request.now)
        (message_at mailbox.now.rows mailbox.now.view number)) }
{
    let Some(row) = mailbox.message_at(number) else {
        return Ok(());
    };
    if !has_changed_since(request.changed_since, &row) {
        return Ok(());
    }
    if !is_seen_set(
        request.items.as_slice(),
        mode_of(mailbox, false, request),
        &row,
    ) {
        return Ok(());
    }
    kinds.push(Kind::Store {
        folder: mailbox.name.copy(alloc)?,
        flags: seen_flags(alloc, &row.versions)?,
        old_ids: ids_of_versions(alloc, &row.versions)?,
        origin: row.origin,
    })?;
    Ok(())
}

/// The union of a message's flags, with `\Seen`.
fn seen_flags(alloc: Global, versions: &Versions<'_>) -> Result<Flags, AllocError>
    ensures { IfOk result (λ seen. seen ≡ seen_flags (united_flags versions.now.list.now)) }
{
    let mut seen = versions.flags(alloc)?;
    seen.seen = true;
    Ok(seen)
}

/// The report of FETCH: the answers of `imap_query::fetch` for the named messages, and
/// EXPUNGEISSUED if some of them are gone. `after` is the listing after the command; `None`, for a
/// FETCH that issues nothing, means the one before it. `Err` if memory runs out. Cost: that of
/// `imap_query::fetch`, or of `fetch_unchanged` if `after` is `None`; and if a message has no
/// answer, one look-up of each message for the code.
pub fn fetch_report(
    alloc: Global,
    mailbox: &OpenMailbox<'_>,
    after: Option<&Rows<'_>>,
    condstore: bool,
    request: &Fetch,
    named: &NamedMessages,
) -> Result<CommandReport, AllocError>
    requires { named.now
        ≡ messages_named_by request.now.by_uid request.now.messages mailbox.now.view }
    ensures { IfOk result (λ sent. sent
        ≡ fetch_report mailbox.now
        (unwrap_or (option_map (λ rows. rows.now) after.entry) mailbox.now.rows) condstore
        request.now) }
{
    let before = &mailbox.rows;
    let view = mailbox.view.entries();
    let numbers = named.numbers();
    let shown = viewed_messages_at(alloc, view, numbers)?;
    let mode = mode_of(mailbox, condstore, request);
    let own = fetch_answers_of(alloc, &shown, before, after, request.items.as_slice(), mode)?;
    let code = code_for_answers(&own, before, view, numbers);
    Ok(CommandReport::new(own, Vec::new(alloc), code))
}

/// The code for messages that are gone: none if there is an answer for each message.
fn code_for_answers(
    sent: &[Answer],
    rows: &Rows<'_>,
    view: &ViewEntries,
    numbers: &[u32],
) -> Option<Code>
    requires { length sent.now ≡ length numbers.now
        → are_some_gone rows.now view.now.items numbers.now ≡ false }
    ensures { result ≡ gone_code rows.now view.now.items numbers.now }
{
    if sent.len() == numbers.len() {
        return None;
    }
    gone_code(rows, view, numbers)
}

/// The answers of FETCH, from the listings before and after it; `None` means an unchanged listing.
fn fetch_answers_of(
    alloc: Global,
    shown: &[ViewedMessage],
    before: &Rows<'_>,
    after: Option<&Rows<'_>>,
    items: &[FetchItem],
    mode: FetchMode,
) -> Result<Vec<Answer>, AllocError>
    ensures { IfOk result (λ answers. answers.items
        ≡ fetch_answers items.now mode before.now
        (unwrap_or (option_map (λ rows. rows.now) after.entry) before.now) shown.now) }
{
    match after {
        Some(after) => fetch(alloc, shown, before, after, items, mode),
        None => fetch_unchanged(alloc, shown, before, items, mode),
    }
}

/// The view's messages with these numbers, in the form that `imap_query` takes.
fn viewed_messages_at(
    alloc: Global,
    view: &ViewEntries,
    numbers: &[u32],
) -> Result<Vec<ViewedMessage>, AllocError>
    ensures { IfOk result (λ shown. shown.items ≡ viewed_messages_at view.now.items numbers.now) }
{
    let mut shown = Vec::with_capacity(alloc, numbers.len())?;
    for number in numbers {
        push_shown(view, *number, &mut shown)?;
    }
    Ok(shown)
}

fn push_shown(
    view: &ViewEntries,
    number: u32,
    shown: &mut Vec<ViewedMessage>,
) -> Result<(), AllocError>
    ensures { OnOk result
        (shown.new.items ≡ shown.old.items
        ++ viewed_message_at number (entry_at view.now.items number)) }
{
    if let Some(entry) = entry_at(view, number) {
        make_room(shown)?;
        shown.push_reserved(ViewedMessage {
            number,
            uid: entry.uid,
        });
    }
    Ok(())
}

/// The rule of FETCH, which may store `\Seen`, and turns mod-sequences on by MODSEQ and
/// CHANGEDSINCE (RFC 7162, section 3.1).
pub(crate) fn fetch_rule(request: &Fetch) -> CommandRule
    ensures { result ≡ fetch_rule request.now }
{
    let word = word_by(
        request.by_uid,
        CompletedWord::UidFetch,
        CompletedWord::Fetch,
    );
    CommandRule {
        sync: Some(sync_kind_by(request.by_uid)),
        enables_condstore: fetch_asks_modseq(request.items.as_slice(), request.changed_since),
        ..CommandRule::issuing(word)
    }
}

/// The intent of FETCH in a session.
pub(crate) fn intent_to_fetch<R: ReplicaMail>(
    alloc: Global,
    replica: &R,
    state: &State,
    request: &Fetch,
) -> Result<Intent, Refusal>
    ensures gives { EqualsOrLacksMemory (λ intent. intent.kinds.items) result
        (intent_to_fetch (R.before replica.now) state.now request.now) }
    ensures named { IfOk result (λ intent. intent.named
        ≡ messages_named_in state.now request.now.by_uid request.now.messages) }
{
    let State::Selected { view, read_only } = state else {
        return Err(Refusal::NotNow);
    };
    let mailbox = open_mailbox(alloc, replica, view, *read_only)?;
    let intent = fetch_intent(alloc, &mailbox, request);
    drop(mailbox);
    intent
}

/// The report of FETCH in a session.
pub(crate) fn report_of_fetch<R: ReplicaMail>(
    alloc: Global,
    replica: &R,
    input: &ReportInput<'_>,
    made: Option<&Rows<'_>>,
    request: &Fetch,
) -> Result<CommandReport, AllocError>
    requires ready { R.is_ready replica.now }
    requires made { IsListingFor (R.after replica.now) input.now.state.now
        (option_map (λ rows. rows.now) made) }
    requires named { input.now.named.now
        ≡ messages_named_in input.now.state.now request.now.by_uid request.now.messages }
    ensures { IfOk result (λ report. report
        ≡ report_of_fetch (R.before replica.now) (R.after replica.now) input.now.state.now
        input.now.modseq request.now) }
{
    let State::Selected { view, read_only } = input.state else {
        return Ok(CommandReport::empty(alloc));
    };
    let mailbox = open_mailbox(alloc, replica, view, *read_only)?;
    if replica.is_unchanged() {
        return fetch_report(alloc, &mailbox, None, input.modseq, request, input.named);
    }
    if let Some(after) = made {
        return fetch_report(
            alloc,
            &mailbox,
            Some(after),
            input.modseq,
            request,
            input.named,
        );
    }
    let after = rows_after(alloc, replica, view)?;
    fetch_report(
        alloc,
        &mailbox,
        Some(&after),
        input.modseq,
        request,
        input.named,
    )
}
