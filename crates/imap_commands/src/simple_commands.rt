//! Commands that only read, CAPABILITY, LIST, NAMESPACE and STATUS, and the one answer of IDLE and
//! of LOGOUT.

ghost use Rattle.std.specs.Prelude.{◌≡◌, ◌∷◌, [], IfOk};
ghost use Rattle.imap_commands.specs.SimpleCommands.{IsListReport, capability_report, idle_report};
ghost use Rattle.imap_commands.specs.SimpleCommands.{logout_report, namespace_report};
ghost use Rattle.imap_commands.specs.SimpleCommands.{status_report, status_intent};
ghost use Rattle.imap_commands.specs.MemoryFaults.{EqualsOrLacksMemory};
ghost use Rattle.imap_commands.specs.Report.{report_of_answers};
ghost use Rattle.imap_commands.specs.SimpleCommands.{capability_rule, idle_rule, list_rule};
ghost use Rattle.imap_commands.specs.SimpleCommands.{logout_rule};
ghost use Rattle.imap_commands.specs.SimpleCommands.{namespace_rule, noop_rule, status_rule};
ghost use Rattle.imap_commands.specs.SimpleCommands.{IsReportOfList, intent_to_status};
ghost use Rattle.imap_commands.specs.SimpleCommands.{report_of_status};
ghost use Rattle.imap_commands.specs.NamedMessages.{no_messages_named};

use crate::command_rule::CommandRule;
use crate::enable_command::status_asks_modseq;
use crate::intent::Intent;
use crate::replica_mail::{ReplicaMail, counters_after};
use crate::report::CommandReport;
use crate::session::State;
use crate::session_states::is_logged_in;
use crdt_ops::Kind;
use imap_answers::{Answer, ByeReason, CompletedWord, Continuation, Refusal};
use imap_query::{ListMode, MailboxCounters, list_names, status};
use imap_syntax::{ListNames, StatusItem};
use imap_types::{Name, Octets};
use mailbox_rows::Rows;
use std::alloc::{AllocError, Global};

/// The report of LIST, from the folders and the subscriptions (RFC 9051, section 6.3.9). It costs
/// what [`list_names`] costs. `Err` if memory runs out.
pub fn list_report(
    alloc: Global,
    mode: ListMode,
    reference: &Octets,
    pattern: &Octets,
    folders: &[Name],
    subscriptions: &[Name],
) -> Result<CommandReport, AllocError>
    ensures { IfOk result
        (λ sent. IsListReport mode reference.now pattern.now folders.now subscriptions.now sent) }
{
    let own = list_names(
        alloc,
        reference.as_bytes(),
        pattern.as_bytes(),
        mode,
        folders,
        subscriptions,
    )?;
    Ok(CommandReport::of_answers(alloc, own))
}

/// The intent of STATUS, which issues nothing (RFC 9051, section 6.3.11). `NoSuchMailbox` if the
/// mailbox doesn't exist.
pub fn status_intent(alloc: Global, exists: bool) -> Result<Vec<Kind>, Refusal>
    ensures { EqualsOrLacksMemory (λ kinds. kinds.items) result (status_intent exists) }
{
    if !exists {
        return Err(Refusal::NoSuchMailbox);
    }
    Ok(Vec::new(alloc))
}

/// The report of STATUS for a mailbox (RFC 9051, section 6.3.11). Time is linear in the listing.
/// `Err` if memory runs out.
pub fn status_report(
    alloc: Global,
    name: &Name,
    items: &[StatusItem],
    counters: MailboxCounters,
    rows: &Rows<'_>,
) -> Result<CommandReport, AllocError>
    ensures { IfOk result (λ sent. sent ≡ status_report name.now items.now counters rows.now) }
{
    let name = name.copy(alloc)?;
    let items = status(rows, items, counters);
    one_answer(alloc, Answer::Status { name, items })
}

/// The report of CAPABILITY (RFC 9051, section 6.1.1). `Err` if memory runs out.
pub fn capability_report(alloc: Global) -> Result<CommandReport, AllocError>
    ensures { IfOk result (λ sent. sent ≡ capability_report) }
{
    one_answer(alloc, Answer::Capability)
}

/// The report of NAMESPACE (RFC 9051, section 6.3.10). `Err` if memory runs out.
pub fn namespace_report(alloc: Global) -> Result<CommandReport, AllocError>
    ensures { IfOk result (λ sent. sent ≡ namespace_report) }
{
    one_answer(alloc, Answer::Namespace)
}

/// The report of LOGOUT (RFC 9051, section 6.1.3). `Err` if memory runs out.
pub fn logout_report(alloc: Global) -> Result<CommandReport, AllocError>
    ensures { IfOk result (λ sent. sent ≡ logout_report) }
{
    one_answer(
        alloc,
        Answer::Bye {
            reason: ByeReason::LoggingOut,
        },
    )
}

/// The report when an IDLE begins (RFC 2177, section 3). `Err` if memory runs out.
pub fn idle_report(alloc: Global) -> Result<CommandReport, AllocError>
    ensures { IfOk result (λ sent. sent ≡ idle_report) }
{
    one_answer(
        alloc,
        Answer::Continue {
            with: Continuation::Idling,
        },
    )
}

/// A report of only this answer. `Err` if memory runs out.
pub(crate) fn one_answer(alloc: Global, answer: Answer) -> Result<CommandReport, AllocError>
    ensures { IfOk result (λ sent. sent ≡ report_of_answers (answer ∷ [])) }
{
    let mut own = Vec::new(alloc);
    own.push(answer)?;
    Ok(CommandReport::of_answers(alloc, own))
}

pub(crate) fn capability_rule() -> CommandRule
    ensures { result ≡ capability_rule }
{
    CommandRule::brief(CompletedWord::Capability)
}

pub(crate) fn noop_rule() -> CommandRule
    ensures { result ≡ noop_rule }
{
    CommandRule::brief(CompletedWord::Noop)
}

pub(crate) fn namespace_rule() -> CommandRule
    ensures { result ≡ namespace_rule }
{
    CommandRule::brief(CompletedWord::Namespace)
}

pub(crate) fn list_rule() -> CommandRule
    ensures { result ≡ list_rule }
{
    CommandRule::plain(CompletedWord::List)
}

/// The rule of STATUS, which turns mod-sequences on if it asks for HIGHESTMODSEQ (RFC 7162, section
/// 3.1).
pub(crate) fn status_rule(items: &[StatusItem]) -> CommandRule
    ensures { result ≡ status_rule items.now }
{
    CommandRule {
        enables_condstore: status_asks_modseq(items),
        ..CommandRule::plain(CompletedWord::Status)
    }
}

/// The rule of LOGOUT, after which there is no sync.
pub(crate) fn logout_rule() -> CommandRule
    ensures { result ≡ logout_rule }
{
    CommandRule {
        sync: None,
        ..CommandRule::plain(CompletedWord::Logout)
    }
}

/// The rule of IDLE, whose tagged line is sent when it ends (RFC 2177, section 3).
pub(crate) fn idle_rule() -> CommandRule
    ensures { result ≡ idle_rule }
{
    CommandRule {
        sync: None,
        idles: true,
        ..CommandRule::plain(CompletedWord::Idle)
    }
}

/// The intent of STATUS in a session.
pub(crate) fn intent_to_status<R: ReplicaMail>(
    alloc: Global,
    replica: &R,
    state: &State,
    name: &Name,
) -> Result<Intent, Refusal>
    ensures gives { EqualsOrLacksMemory (λ intent. intent.kinds.items) result
        (intent_to_status (R.before replica.now) state.now name.now) }
    ensures named { IfOk result (λ intent. intent.named ≡ no_messages_named) }
{
    if !is_logged_in(state) {
        return Err(Refusal::NotNow);
    }
    let kinds = status_intent(alloc, replica.exists(name))?;
    Ok(Intent::of_kinds(alloc, kinds))
}

/// The report of STATUS on a mailbox as it is after the command.
pub(crate) fn report_of_status<R: ReplicaMail>(
    alloc: Global,
    replica: &R,
    name: &Name,
    items: &[StatusItem],
) -> Result<CommandReport, AllocError>
    requires { R.is_ready replica.now }
    ensures { IfOk result
        (λ sent. sent ≡ report_of_status (R.after replica.now) name.now items.now) }
{
    let rows = replica.rows_after(alloc, name)?;
    let counters = counters_after(replica, name);
    status_report(alloc, name, items, counters, &rows)
}

/// The report of LIST on a replica's mailboxes and subscriptions.
pub(crate) fn report_of_list<R: ReplicaMail>(
    alloc: Global,
    replica: &R,
    request: &ListNames,
) -> Result<CommandReport, AllocError>
    ensures { IfOk result (λ sent. IsReportOfList (R.before replica.now) request.now sent) }
{
    let folders = replica.folders(alloc)?;
    let subscriptions = replica.subscribed_names(alloc)?;
    let mode = ListMode {
        subscribed_only: request.subscribed_only,
        return_subscribed: request.return_subscribed,
    };
    list_report(
        alloc,
        mode,
        &request.reference,
        &request.pattern,
        &folders,
        &subscriptions,
    )
}
