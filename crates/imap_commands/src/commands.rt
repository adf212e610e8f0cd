//! The rules of all commands: a line each, which names the function of the command's family.

ghost use Rattle.std.specs.Prelude.{◌≡◌, IfOk};
ghost use Rattle.std.specs.Option.{option_map, unwrap_or};
ghost use Rattle.imap_commands.specs.Commands.{IsCommandReport, IsStampFor, command_intent};
ghost use Rattle.imap_commands.specs.Commands.{is_brief};
ghost use Rattle.imap_commands.specs.Commands.{is_enabling, is_idle, is_selecting, may_issue};
ghost use Rattle.imap_commands.specs.Commands.{messages_named_by_command, rule_of};
ghost use Rattle.imap_commands.specs.Commands.{state_after_command, sync_of, word_of};
ghost use Rattle.imap_commands.specs.MailStates.{IsListingFor};
ghost use Rattle.imap_commands.specs.MemoryFaults.{EqualsOrLacksMemory};
ghost use Rattle.imap_commands.specs.declared.session.State.{State};

use crate::append_command::{append_rule, intent_to_append, report_of_append};
use crate::command_rule::CommandRule;
use crate::copy_command::{
    copy_rule, intent_to_copy, intent_to_move, move_rule, report_of_copy, report_of_move,
};
use crate::enable_command::{enable_report, enable_rule};
use crate::expunge_command::{
    close_rule, expunge_rule, intent_to_close, intent_to_expunge, intent_to_uid_expunge,
    report_of_uid_expunge, uid_expunge_rule,
};
use crate::fetch_command::{fetch_rule, intent_to_fetch, report_of_fetch};
use crate::intent::Intent;
use crate::login::{intent_to_login, login_rule};
use crate::mailboxes::{
    create_rule, delete_rule, intent_to_create, intent_to_delete, intent_to_subscribe,
    intent_to_unsubscribe, subscribe_rule, unsubscribe_rule,
};
use crate::replica_mail::ReplicaMail;
use crate::report::CommandReport;
use crate::report_input::ReportInput;
use crate::search_command::{intent_to_search, report_of_search, search_rule};
use crate::select_command::{
    examine_rule, intent_to_select, report_of_select, select_rule, selected_state, unselect_rule,
};
use crate::session::State;
use crate::session_states::{nothing_if_logged_in, nothing_if_selected};
use crate::simple_commands::{
    capability_report, capability_rule, idle_report, idle_rule, intent_to_status, list_rule,
    logout_report, logout_rule, namespace_report, namespace_rule, noop_rule, report_of_list,
    report_of_status, status_rule,
};
use crate::store_command::{intent_to_store, report_of_store, store_rule};
use imap_answers::{CompletedWord, Refusal};
use imap_syntax::{Command, Tagged};
use imap_types::{DateTime, Moment};
use mail_text::civil;
use mailbox_rows::Rows;
use session_view::SyncKind;
use std::alloc::{AllocError, Global};

/// A command's rule, apart from its intent and its report.
pub fn rule_of(command: &Command) -> CommandRule
    ensures { result ≡ rule_of command.now }
{
    match command {
        Command::Capability => capability_rule(),
        Command::Noop => noop_rule(),
        Command::Logout => logout_rule(),
        Command::Login { .. } => login_rule(),
        Command::Enable { names } => enable_rule(names.as_slice()),
        Command::Select { condstore, .. } => select_rule(*condstore),
        Command::Examine { condstore, .. } => examine_rule(*condstore),
        Command::Create { .. } => create_rule(),
        Command::Delete { .. } => delete_rule(),
        Command::Subscribe { .. } => subscribe_rule(),
        Command::Unsubscribe { .. } => unsubscribe_rule(),
        Command::ListNames(_) => list_rule(),
        Command::Namespace => namespace_rule(),
        Command::Status { items, .. } => status_rule(items.as_slice()),
        Command::Append(_) => append_rule(),
        Command::Idle => idle_rule(),
        Command::Close => close_rule(),
        Command::Unselect => unselect_rule(),
        Command::Expunge => expunge_rule(),
        Command::UidExpunge { .. } => uid_expunge_rule(),
        Command::Search(search) => search_rule(search),
        Command::Fetch(fetch) => fetch_rule(fetch),
        Command::Store(store) => store_rule(store),
        Command::Copy(transfer) => copy_rule(transfer),
        Command::Move(transfer) => move_rule(transfer),
    }
}

/// A command's word in the tagged line.
pub fn word_of(command: &Command) -> CompletedWord
    ensures { result ≡ word_of command.now }
{
    rule_of(command).word
}

/// The kind of sync after a command; `None` if there is no sync.
pub fn sync_of(command: &Command) -> Option<SyncKind>
    ensures { result ≡ sync_of command.now }
{
    rule_of(command).sync
}

/// Whether a command turns mod-sequences on (RFC 7162, section 3.1).
pub fn is_enabling(command: &Command) -> bool
    ensures { result ≡ is_enabling command.now }
{
    rule_of(command).enables_condstore
}

/// Whether a command leaves the selected mailbox even if it is refused (RFC 9051, section 6.3.2).
pub fn is_selecting(command: &Command) -> bool
    ensures { result ≡ is_selecting command.now }
{
    rule_of(command).selects
}

/// Whether a command begins an IDLE, whose tagged line is sent when it ends (RFC 2177, section 3).
pub fn is_idle(command: &Command) -> bool
    ensures { result ≡ is_idle command.now }
{
    rule_of(command).idles
}

/// Whether a command may issue operations.
pub fn may_issue(command: &Command) -> bool
    ensures { result ≡ may_issue command.now }
{
    rule_of(command).may_issue
}

/// Whether a command is brief: it issues nothing, and what it answers depends on no mailbox.
pub fn is_brief(command: &Command) -> bool
    ensures { result ≡ is_brief command.now }
{
    rule_of(command).is_brief
}

/// The date-time recorded by a command that arrived at this moment: only APPEND records one.
pub fn stamp_for(command: &Command, moment: Moment) -> DateTime
    ensures { IsStampFor command.now moment result }
{
    match command {
        Command::Append(_) => civil(moment),
        _ => DateTime::epoch(),
    }
}

/// What a command issues, with the messages that it names, or the first reason to refuse it.
/// `stamp` is the date-time of its moment. `NoMemory` may replace any result.
pub fn command_intent<R: ReplicaMail>(
    alloc: Global,
    replica: &R,
    stamp: &DateTime,
    state: &State,
    command: &Command,
) -> Result<Intent, Refusal>
    ensures gives { EqualsOrLacksMemory (λ intended. intended.kinds.items) result
        (command_intent (R.before replica.now) stamp.now state.now command.now) }
    ensures named { IfOk result (λ intended. intended.named
        ≡ messages_named_by_command (R.before replica.now) state.now command.now) }
{
    match command {
        Command::Capability => Ok(Intent::nothing(alloc)),
        Command::Noop => Ok(Intent::nothing(alloc)),
        Command::Logout => Ok(Intent::nothing(alloc)),
        Command::Login { user, password } => intent_to_login(alloc, state, user, password),
        Command::Enable { .. } => nothing_if_logged_in(alloc, state),
        Command::Select { name, .. } => intent_to_select(alloc, replica, state, name),
        Command::Examine { name, .. } => intent_to_select(alloc, replica, state, name),
        Command::Create { name } => intent_to_create(alloc, replica, state, name),
        Command::Delete { name } => intent_to_delete(alloc, replica, state, name),
        Command::Subscribe { name } => intent_to_subscribe(alloc, replica, state, name),
        Command::Unsubscribe { name } => intent_to_unsubscribe(alloc, replica, state, name),
        Command::ListNames(_) => nothing_if_logged_in(alloc, state),
        Command::Namespace => nothing_if_logged_in(alloc, state),
        Command::Status { name, .. } => intent_to_status(alloc, replica, state, name),
        Command::Append(append) => intent_to_append(alloc, replica, stamp, state, append),
        Command::Idle => nothing_if_logged_in(alloc, state),
        Command::Close => intent_to_close(alloc, replica, state),
        Command::Unselect => nothing_if_selected(alloc, state),
        Command::Expunge => intent_to_expunge(alloc, replica, state),
        Command::UidExpunge { uids } => intent_to_uid_expunge(alloc, replica, state, uids),
        Command::Search(search) => intent_to_search(alloc, state, search.steps.as_slice()),
        Command::Fetch(fetch) => intent_to_fetch(alloc, replica, state, fetch),
        Command::Store(store) => intent_to_store(alloc, replica, state, store),
        Command::Copy(transfer) => intent_to_copy(alloc, replica, state, transfer),
        Command::Move(transfer) => intent_to_move(alloc, replica, state, transfer),
    }
}

/// A command's own report, from the replica before its operations and after them, from the messages
/// that it named before them, and from the selected mailbox's listing after them if it was made.
/// `Err` if memory runs out.
pub fn command_report<R: ReplicaMail>(
    alloc: Global,
    replica: &R,
    input: &ReportInput<'_>,
    made: Option<&Rows<'_>>,
    tagged: &Tagged,
) -> Result<CommandReport, AllocError>
    requires ready { R.is_ready replica.now }
    requires made { IsListingFor (R.after replica.now) input.now.state.now
        (option_map (λ rows. rows.now) made) }
    requires named { input.now.named.now
        ≡ messages_named_by_command (R.before replica.now) input.now.state.now tagged.now.command }
    ensures { IfOk result (λ report. IsCommandReport (R.before replica.now) (R.after replica.now)
        input.now.state.now input.now.modseq tagged.now.tag tagged.now.command report) }
{
    let Tagged { tag, command } = tagged;
    let state = input.state;
    match command {
        Command::Capability => capability_report(alloc),
        Command::Noop => Ok(CommandReport::empty(alloc)),
        Command::Logout => logout_report(alloc),
        Command::Login { .. } => Ok(CommandReport::empty(alloc)),
        Command::Enable { names } => enable_report(alloc, names.as_slice()),
        Command::Select { name, .. } => report_of_select(alloc, replica, state, false, name),
        Command::Examine { name, .. } => report_of_select(alloc, replica, state, true, name),
        Command::Create { .. } => Ok(CommandReport::empty(alloc)),
        Command::Delete { .. } => Ok(CommandReport::empty(alloc)),
        Command::Subscribe { .. } => Ok(CommandReport::empty(alloc)),
        Command::Unsubscribe { .. } => Ok(CommandReport::empty(alloc)),
        Command::ListNames(list) => report_of_list(alloc, replica, list),
        Command::Namespace => namespace_report(alloc),
        Command::Status { name, items } => report_of_status(alloc, replica, name, items.as_slice()),
        Command::Append(append) => Ok(report_of_append(alloc, replica, &append.name)),
        Command::Idle => idle_report(alloc),
        Command::Close => Ok(CommandReport::empty(alloc)),
        Command::Unselect => Ok(CommandReport::empty(alloc)),
        Command::Expunge => Ok(CommandReport::empty(alloc)),
        Command::UidExpunge { .. } => report_of_uid_expunge(alloc, replica, input),
        Command::Search(search) => report_of_search(alloc, replica, state, tag, search),
        Command::Fetch(fetch) => report_of_fetch(alloc, replica, input, made, fetch),
        Command::Store(store) => report_of_store(alloc, replica, input, made, store),
        Command::Copy(transfer) => report_of_copy(alloc, replica, input, transfer),
        Command::Move(transfer) => report_of_move(alloc, replica, input, transfer),
    }
}

/// The state after a command, from the replica after its operations and before its answers are
/// replayed; `None` if it is the state before the command. `Err` if memory runs out.
pub fn state_after_command<R: ReplicaMail>(
    alloc: Global,
    replica: &R,
    command: &Command,
) -> Result<Option<State>, AllocError>
    requires { R.is_ready replica.now }
    ensures { IfOk result (λ moved. (state : State)
        → unwrap_or moved state ≡ state_after_command (R.after replica.now) state command.now) }
{
    match command {
        Command::Login { .. } => Ok(Some(State::Authenticated)),
        Command::Select { name, .. } => Ok(Some(selected_state(alloc, replica, name, false)?)),
        Command::Examine { name, .. } => Ok(Some(selected_state(alloc, replica, name, true)?)),
        Command::Logout => Ok(Some(State::LoggedOut)),
        Command::Unselect => Ok(Some(State::Authenticated)),
        Command::Close => Ok(Some(State::Authenticated)),
        _ => Ok(None),
    }
}
