//! APPEND (RFC 9051, section 6.3.12).

ghost use Rattle.std.specs.Prelude.{◌≡◌, ◌∷◌, [], IfOk};
ghost use Rattle.crdt_ops.specs.declared.kind.Kind.TheVariants.{Append as AppendKind};
ghost use Rattle.imap_commands.specs.AppendCommand.{append_intent, append_report, append_rule};
ghost use Rattle.imap_commands.specs.AppendCommand.{given_date};
ghost use Rattle.imap_commands.specs.MemoryFaults.{EqualsOrLacksMemory};
ghost use Rattle.imap_commands.specs.AppendCommand.{intent_to_append, report_of_append};
ghost use Rattle.imap_commands.specs.NamedMessages.{no_messages_named};

use crate::command_rule::CommandRule;
use crate::intent::Intent;
use crate::limits::are_lawful;
use crate::mailboxes::one_kind;
use crate::replica_mail::{ReplicaMail, validity_after};
use crate::report::CommandReport;
use crate::session::State;
use crate::session_states::is_logged_in;
use crdt_ops::Kind;
use imap_answers::{Code, CompletedWord, Refusal};
use imap_syntax::Append;
use imap_types::{DateTime, Flags, MAX_KEYWORDS, Name, Text};
use std::alloc::{AllocError, Global};

/// The intent of APPEND (RFC 9051, section 6.3.12), or the first reason for refusing it:
/// `NoDestination` if the mailbox doesn't exist, `KeywordTooLong` if no message may bear one of the
/// keywords, `TooManyKeywords` if there are more than 32. A message without a date gets `stamp`,
/// the current date-time. `NoMemory` may replace any result.
pub fn append_intent(
    alloc: Global,
    exists: bool,
    stamp: &DateTime,
    request: &Append,
) -> Result<Vec<Kind>, Refusal>
    ensures { EqualsOrLacksMemory (λ kinds. kinds.items) result
        (append_intent exists stamp.now request.now) }
{
    if !exists {
        return Err(Refusal::NoDestination);
    }
    if !are_lawful(request.flags.keywords.as_slice()) {
        return Err(Refusal::KeywordTooLong);
    }
    if request.flags.keywords.len() > MAX_KEYWORDS {
        return Err(Refusal::TooManyKeywords);
    }
    let date = given_date(&request.date, stamp);
    Ok(append(alloc, &request.name, &request.flags, date, &request.text)?)
}

/// The date-time of the command, or `stamp` if it has none.
fn given_date(date: &Option<DateTime>, stamp: &DateTime) -> DateTime
    ensures { result ≡ given_date date.now stamp.now }
{
    match date {
        Some(date) => date.copy(),
        None => stamp.copy(),
    }
}

fn append(
    alloc: Global,
    name: &Name,
    flags: &Flags,
    date: DateTime,
    text: &Text,
) -> Result<Vec<Kind>, AllocError>
    ensures { IfOk result
        (λ kinds. kinds.items ≡ AppendKind name.now flags.now date text.now ∷ []) }
{
    let folder = name.copy(alloc)?;
    let flags = flags.copy(alloc)?;
    let text = text.copy()?;
    one_kind(
        alloc,
        Kind::Append {
            folder,
            flags,
            date,
            text,
        },
    )
}

/// The report of APPEND: the code APPENDUID with the mailbox's UIDVALIDITY and the message's UID
/// (RFC 9051, section 7.1).
pub fn append_report(alloc: Global, uidvalidity: u32, uid: u32) -> CommandReport
    ensures { result ≡ append_report uidvalidity uid }
{
    let code = Code::AppendUid { uidvalidity, uid };
    CommandReport::new(Vec::new(alloc), Vec::new(alloc), Some(code))
}

pub(crate) fn append_rule() -> CommandRule
    ensures { result ≡ append_rule }
{
    CommandRule::issuing(CompletedWord::Append)
}

/// The intent of APPEND in a session.
pub(crate) fn intent_to_append<R: ReplicaMail>(
    alloc: Global,
    replica: &R,
    stamp: &DateTime,
    state: &State,
    request: &Append,
) -> Result<Intent, Refusal>
    ensures gives { EqualsOrLacksMemory (λ intent. intent.kinds.items) result
        (intent_to_append (R.before replica.now) stamp.now state.now request.now) }
    ensures named { IfOk result (λ intent. intent.named ≡ no_messages_named) }
{
    if !is_logged_in(state) {
        return Err(Refusal::NotNow);
    }
    let kinds = append_intent(alloc, replica.exists(&request.name), stamp, request)?;
    Ok(Intent::of_kinds(alloc, kinds))
}

/// The report of APPEND, from the replica before the command and after it.
pub(crate) fn report_of_append<R: ReplicaMail>(
    alloc: Global,
    replica: &R,
    name: &Name,
) -> CommandReport
    requires { R.is_ready replica.now }
    ensures { result ≡ report_of_append (R.before replica.now) (R.after replica.now) name.now }
{
    append_report(alloc, validity_after(replica, name), replica.uidnext(name))
}
