//! SELECT and EXAMINE (RFC 9051, sections 6.3.2 and 6.3.3).

ghost use Rattle.std.specs.Prelude.{◌≡◌, ◌++◌, ◌+◌, ◌∷◌, [], false, drop, length, IfOk, OnOk};
ghost use Rattle.std.specs.List.{fold};
ghost use Rattle.imap_answers.specs.declared.answer.Answer.TheVariants.{Exists as ExistsAnswer};
ghost use Rattle.imap_answers.specs.declared.answer.Answer.TheVariants.{Flags as FlagsAnswer};
ghost use Rattle.imap_answers.specs.declared.answer.Answer.TheVariants.{List as ListAnswer};
ghost use Rattle.imap_answers.specs.declared.answer.Answer.TheVariants.{UntaggedOk as OkAnswer};
ghost use Rattle.imap_answers.specs.declared.codes.Notice.TheVariants.{HighestModSeq as HighestModSeqNotice};
ghost use Rattle.imap_answers.specs.declared.codes.Notice.TheVariants.{PermanentFlags as PermanentFlagsNotice};
ghost use Rattle.imap_answers.specs.declared.codes.Notice.TheVariants.{UidNext as UidNextNotice};
ghost use Rattle.imap_answers.specs.declared.codes.Notice.TheVariants.{UidValidity as UidValidityNotice};
ghost use Rattle.imap_answers.specs.declared.mailbox.MailboxState.TheVariants.{Selectable};
ghost use Rattle.imap_types.specs.Keywords.{to_lower_case, with_word};
ghost use Rattle.imap_types.specs.Unions.{united_flags};
ghost use Rattle.imap_commands.specs.MemoryFaults.{EqualsOrLacksMemory};
ghost use Rattle.imap_commands.specs.SelectCommand.{AreListedKeywords, IsSelectReport, access_code};
ghost use Rattle.imap_commands.specs.SelectCommand.{flags_in_use, mailbox_answers, permanent_flags};
ghost use Rattle.imap_commands.specs.SelectCommand.{select_report, select_intent};
ghost use Rattle.imap_commands.specs.SelectCommand.{examine_rule, select_rule, selecting_rule};
ghost use Rattle.imap_commands.specs.SelectCommand.{unselect_rule};
ghost use Rattle.imap_commands.specs.SelectCommand.{IsReportOfSelect, intent_to_select};
ghost use Rattle.imap_commands.specs.SelectCommand.{selected_state};
ghost use Rattle.imap_commands.specs.NamedMessages.{no_messages_named};

use crate::command_rule::CommandRule;
use crate::intent::Intent;
use crate::replica_mail::{ReplicaMail, counters_after, validity_after};
use crate::report::CommandReport;
use crate::session::State;
use crate::session_states::{is_logged_in, is_selected};
use crdt_ops::Kind;
use imap_answers::{Answer, Code, CompletedWord, MailboxState, Notice, Refusal};
use imap_query::MailboxCounters;
use imap_types::{Flags, Keywords, Name, Octets, Versions};
use mailbox_rows::Rows;
use session_view::{View, ViewEntries};
use std::alloc::{AllocError, Global};

/// The intent of SELECT and EXAMINE, which issue nothing. `NoSuchMailbox` if the mailbox doesn't
/// exist (RFC 9051, sections 6.3.2 and 6.3.3).
pub fn select_intent(alloc: Global, exists: bool) -> Result<Vec<Kind>, Refusal>
    ensures { EqualsOrLacksMemory (λ kinds. kinds.items) result (select_intent exists) }
{
    if !exists {
        return Err(Refusal::NoSuchMailbox);
    }
    Ok(Vec::new(alloc))
}

/// The report of SELECT and of EXAMINE, which selects read-only: CLOSED if another mailbox was
/// selected, and then the answers about the new mailbox (RFC 9051, sections 6.3.2 and 6.3.3; RFC
/// 7162, section 3.1.2.1). Each message's keywords are looked up among those collected so far.
/// `Err` if memory runs out.
pub fn select_report(
    alloc: Global,
    was_selected: bool,
    read_only: bool,
    name: &Name,
    counters: MailboxCounters,
    rows: &Rows<'_>,
) -> Result<CommandReport, AllocError>
    ensures { IfOk result
        (λ sent. IsSelectReport was_selected read_only name.now counters rows.now sent) }
{
    let keywords = listed_keywords(alloc, rows)?;
    let opened = Opened {
        name,
        counters,
        read_only,
    };
    report_with_flags(alloc, was_selected, &opened, rows, keywords)
}

/// The mailbox that is selected, its counters and the access to it.
#[derive(Drop)]
struct Opened<'a> {
    name: &'a Name,
    counters: MailboxCounters,
    read_only: bool,
}

/// The report for a mailbox whose messages bear these keywords.
fn report_with_flags(
    alloc: Global,
    was_selected: bool,
    opened: &Opened<'_>,
    rows: &Rows<'_>,
    keywords: Keywords,
) -> Result<CommandReport, AllocError>
    ensures { IfOk result (λ sent. sent
        ≡ select_report was_selected opened.now.read_only opened.now.name.now opened.now.counters
        rows.now keywords) }
{
    let mut own = Vec::new(alloc);
    if was_selected {
        own.push(Answer::UntaggedOk {
            notice: Notice::Closed,
        })?;
    }
    push_mailbox(alloc, opened, rows.count(), keywords, &mut own)?;
    let code = access_code(opened.read_only);
    Ok(CommandReport::new(own, Vec::new(alloc), Some(code)))
}

/// The code for the session's access to the mailbox.
fn access_code(read_only: bool) -> Code
    ensures { result ≡ access_code read_only }
{
    if read_only {
        Code::ReadOnly
    } else {
        Code::ReadWrite
    }
}

/// Adds the answers about the selected mailbox.
fn push_mailbox(
    alloc: Global,
    opened: &Opened<'_>,
    count: u32,
    keywords: Keywords,
    answers: &mut Vec<Answer>,
) -> Result<(), AllocError>
    ensures { OnOk result (answers.new.items
        ≡ answers.old.items
        ++ mailbox_answers opened.now.read_only opened.now.name.now opened.now.counters count
        (flags_in_use keywords)) }
{
    let flags = flags_in_use(keywords);
    let permanent = match permanent_flags(alloc, opened.read_only, &flags) {
        Ok(permanent) => permanent,
        Err(error) => {
            drop(flags);
            return Err(error);
        }
    };
    push_contents(alloc, flags, opened.name, count, answers)?;
    push_uids(opened.counters, answers)?;
    push_changes(permanent, opened.counters, answers)
}

/// Adds FLAGS with these flags, EXISTS and LIST.
fn push_contents(
    alloc: Global,
    flags: Flags,
    name: &Name,
    count: u32,
    answers: &mut Vec<Answer>,
) -> Result<(), AllocError>
    ensures { OnOk result (answers.new.items
        ≡ answers.old.items ++ FlagsAnswer flags ∷ ExistsAnswer count
        ∷ ListAnswer name.now Selectable false ∷ []) }
{
    let name = name.copy(alloc)?;
    answers.push(Answer::Flags { flags })?;
    answers.push(Answer::Exists { count })?;
    answers.push(Answer::List {
        name,
        state: MailboxState::Selectable,
        subscribed: false,
    })?;
    Ok(())
}

/// Adds UIDVALIDITY and UIDNEXT.
fn push_uids(counters: MailboxCounters, answers: &mut Vec<Answer>) -> Result<(), AllocError>
    ensures { OnOk result (answers.new.items
        ≡ answers.old.items ++ OkAnswer (UidValidityNotice counters.uidvalidity)
        ∷ OkAnswer (UidNextNotice counters.uidnext) ∷ []) }
{
    answers.push(Answer::UntaggedOk {
        notice: Notice::UidValidity {
            value: counters.uidvalidity,
        },
    })?;
    answers.push(Answer::UntaggedOk {
        notice: Notice::UidNext {
            uid: counters.uidnext,
        },
    })?;
    Ok(())
}

/// Adds PERMANENTFLAGS with these flags, and HIGHESTMODSEQ.
fn push_changes(
    permanent: Option<Flags>,
    counters: MailboxCounters,
    answers: &mut Vec<Answer>,
) -> Result<(), AllocError>
    ensures { OnOk result (answers.new.items
        ≡ answers.old.items ++ OkAnswer (PermanentFlagsNotice permanent)
        ∷ OkAnswer (HighestModSeqNotice counters.highest_modseq) ∷ []) }
{
    answers.push(Answer::UntaggedOk {
        notice: Notice::PermanentFlags { flags: permanent },
    })?;
    answers.push(Answer::UntaggedOk {
        notice: Notice::HighestModSeq {
            modseq: counters.highest_modseq,
        },
    })?;
    Ok(())
}

/// The flags in use that the session can change permanently; `None` if it only reads.
fn permanent_flags(
    alloc: Global,
    read_only: bool,
    flags: &Flags,
) -> Result<Option<Flags>, AllocError>
    ensures { IfOk result (λ permanent. permanent ≡ permanent_flags read_only flags.now) }
{
    if read_only {
        return Ok(None);
    }
    Ok(Some(flags.copy(alloc)?))
}

/// The flags in use in a mailbox: the system flags and these keywords.
fn flags_in_use(keywords: Keywords) -> Flags
    ensures { result ≡ flags_in_use keywords }
{
    Flags {
        answered: true,
        flagged: true,
        deleted: true,
        seen: true,
        draft: true,
        keywords,
    }
}

/// The keywords of all messages. Each is looked up among those collected so far.
fn listed_keywords(alloc: Global, rows: &Rows<'_>) -> Result<Keywords, AllocError>
    ensures { IfOk result (λ keywords. AreListedKeywords rows.now keywords) }
{
    let mut keywords = Keywords::empty(alloc);
    for place in 0..rows.count() {
        add_keywords_at(alloc, rows, place, &mut keywords)?;
    }
    Ok(keywords)
}

/// Adds the keywords of the message at this place.
fn add_keywords_at(
    alloc: Global,
    rows: &Rows<'_>,
    place: u32,
    keywords: &mut Keywords,
) -> Result<(), AllocError>
    ensures { OnOk result (fold
        (λ done row. fold (λ done word. with_word (to_lower_case word) done) done
        row.flags.keywords) keywords.new (drop (place + 1) rows.now)
        ≡ fold
        (λ done row. fold (λ done word. with_word (to_lower_case word) done) done
        row.flags.keywords) keywords.old (drop place rows.now)) }
{
    match rows.row_at(place as usize) {
        Some(row) => add_keywords_of(alloc, &row.versions, keywords),
        None => Ok(()),
    }
}

/// Adds the keywords of a message's versions.
fn add_keywords_of(
    alloc: Global,
    versions: &Versions<'_>,
    keywords: &mut Keywords,
) -> Result<(), AllocError>
    ensures { OnOk result (keywords.new
        ≡ fold (λ done word. with_word (to_lower_case word) done) keywords.old
        (united_flags versions.now.list.now).keywords) }
{
    let flags = versions.flags(alloc)?;
    add_keywords(alloc, flags.keywords.as_slice(), keywords)
}

fn add_keywords(alloc: Global, words: &[Octets], keywords: &mut Keywords) -> Result<(), AllocError>
    ensures { OnOk result (keywords.new
        ≡ fold (λ done word. with_word (to_lower_case word) done) keywords.old words.now) }
{
    for word in words {
        keywords.insert(alloc, word.as_bytes())?;
    }
    Ok(())
}

/// The rule of SELECT and EXAMINE, which leave the selected mailbox even if they are refused (RFC
/// 9051, section 6.3.2), and turn mod-sequences on by CONDSTORE (RFC 7162, section 3.1.8).
fn selecting_rule(word: CompletedWord, condstore: bool) -> CommandRule
    ensures { result ≡ selecting_rule word condstore }
{
    CommandRule {
        sync: None,
        enables_condstore: condstore,
        selects: true,
        ..CommandRule::plain(word)
    }
}

pub(crate) fn select_rule(condstore: bool) -> CommandRule
    ensures { result ≡ select_rule condstore }
{
    selecting_rule(CompletedWord::Select, condstore)
}

pub(crate) fn examine_rule(condstore: bool) -> CommandRule
    ensures { result ≡ examine_rule condstore }
{
    selecting_rule(CompletedWord::Examine, condstore)
}

/// The rule of UNSELECT, after which there is no sync (RFC 9051, section 6.4.2).
pub(crate) fn unselect_rule() -> CommandRule
    ensures { result ≡ unselect_rule }
{
    CommandRule {
        sync: None,
        ..CommandRule::plain(CompletedWord::Unselect)
    }
}

/// The intent of SELECT and EXAMINE in a session.
pub(crate) fn intent_to_select<R: ReplicaMail>(
    alloc: Global,
    replica: &R,
    state: &State,
    name: &Name,
) -> Result<Intent, Refusal>
    ensures gives { EqualsOrLacksMemory (λ intent. intent.kinds.items) result
        (intent_to_select (R.before replica.now) state.now name.now) }
    ensures named { IfOk result (λ intent. intent.named ≡ no_messages_named) }
{
    if !is_logged_in(state) {
        return Err(Refusal::NotNow);
    }
    let kinds = select_intent(alloc, replica.exists(name))?;
    Ok(Intent::of_kinds(alloc, kinds))
}

/// The report of SELECT and of EXAMINE, which selects read-only, in a session.
pub(crate) fn report_of_select<R: ReplicaMail>(
    alloc: Global,
    replica: &R,
    state: &State,
    read_only: bool,
    name: &Name,
) -> Result<CommandReport, AllocError>
    requires { R.is_ready replica.now }
    ensures { IfOk result (λ sent. IsReportOfSelect (R.after replica.now) state.now read_only
        name.now sent) }
{
    let rows = replica.rows_after(alloc, name)?;
    let counters = counters_after(replica, name);
    select_report(alloc, is_selected(state), read_only, name, counters, &rows)
}

/// The state of a session that has just selected a mailbox, and was shown no messages yet.
pub(crate) fn selected_state<R: ReplicaMail>(
    alloc: Global,
    replica: &R,
    name: &Name,
    read_only: bool,
) -> Result<State, AllocError>
    requires { R.is_ready replica.now }
    ensures { IfOk result
        (λ state. state ≡ selected_state (R.after replica.now) name.now read_only) }
{
    let uidvalidity = validity_after(replica, name);
    Ok(State::Selected {
        view: View::new(name.copy(alloc)?, uidvalidity, ViewEntries::new(alloc)),
        read_only,
    })
}
