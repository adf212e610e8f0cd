//! The answers to LIST, with subscriptions.

ghost use Rattle.std.specs.Prelude.{◌≡◌, ◌&&◌, ◌++◌, ◌∷◌, [], false, map, IfOk, OnOk};
ghost use Rattle.std.specs.Prelude.{if◌then◌else◌};
ghost use Rattle.imap_answers.specs.declared.answer.Answer.TheVariants.{List as ListAnswer};
ghost use Rattle.imap_answers.specs.declared.mailbox.MailboxState.TheVariants.{NoSelect};
ghost use Rattle.imap_query.specs.ListEntries.{names_of};
ghost use Rattle.imap_query.specs.ListNames.{ListsNames, name_answer, name_state};
ghost use Rattle.imap_query.specs.ListNames.{subscribed_answer, subscribed_state};
ghost use Rattle.imap_query.specs.Patterns.{is_among};
ghost use Rattle.imap_query.specs.Placing.{insert_all, shown_mailboxes};

use crate::list_entries::{ListEntry, insert_mailboxes, is_among, list};
use crate::pattern::Pattern;
use imap_answers::{Answer, MailboxState};
use imap_types::Name;
use std::alloc::{AllocError, Global};

/// The form of a LIST (RFC 9051, sections 6.3.9.1 and 6.3.9.2).
#[derive(Clone, Copy, Debug, PartialEq, Eq)]
pub struct ListMode {
    /// The selection option SUBSCRIBED: only subscribed names are shown.
    pub subscribed_only: bool,
    /// The return option SUBSCRIBED: the answers say which names are subscribed.
    pub return_subscribed: bool,
}

/// The answers to LIST, by ascending names (RFC 9051, section 6.3.9). An empty pattern gives the
/// root line, whatever the options. It costs as much as [`list`], and each name shown is compared
/// with the folders or the subscriptions. `Err` if memory runs out.
pub fn list_names(
    alloc: Global,
    reference: &[u8],
    pattern: &[u8],
    mode: ListMode,
    folders: &[Name],
    subscriptions: &[Name],
) -> Result<Vec<Answer>, AllocError>
    ensures { IfOk result (λ answers. ListsNames mode reference.now pattern.now folders.now
        subscriptions.now answers.items) }
{
    if pattern.is_empty() {
        return root(alloc);
    }
    if mode.subscribed_only {
        return subscribed_names(alloc, reference, pattern, folders, subscriptions);
    }
    let entries = list(alloc, reference, pattern, folders)?;
    name_answers(alloc, &entries, mode.return_subscribed, subscriptions)
}

/// The root line: the answer to an empty pattern.
fn root(alloc: Global) -> Result<Vec<Answer>, AllocError>
    ensures { IfOk result (λ answers. answers.items ≡ ListAnswer [] NoSelect false ∷ []) }
{
    let mut answers = Vec::new(alloc);
    push_list(
        &mut answers,
        Name::new(Vec::new(alloc)),
        MailboxState::NoSelect,
        false,
    )?;
    Ok(answers)
}

fn push_list(
    answers: &mut Vec<Answer>,
    name: Name,
    state: MailboxState,
    subscribed: bool,
) -> Result<(), AllocError>
    ensures { OnOk result
        (answers.new.items ≡ answers.old.items ++ ListAnswer name state subscribed ∷ []) }
{
    answers.push(Answer::List {
        name,
        state,
        subscribed,
    })?;
    Ok(())
}

/// One answer for each entry; with `returned` it says whether the name is subscribed.
fn name_answers(
    alloc: Global,
    entries: &[ListEntry],
    returned: bool,
    subscriptions: &[Name],
) -> Result<Vec<Answer>, AllocError>
    ensures { IfOk result
        (λ answers. answers.items ≡ map (name_answer returned subscriptions.now) entries.now) }
{
    let mut answers = Vec::new(alloc);
    for entry in entries {
        let subscribed = returned && is_among(subscriptions, entry.name.as_bytes());
        let name = entry.name.copy(alloc)?;
        push_list(&mut answers, name, name_state(entry.is_mailbox), subscribed)?;
    }
    Ok(answers)
}

fn name_state(is_mailbox: bool) -> MailboxState
    ensures { result ≡ name_state is_mailbox }
{
    if is_mailbox {
        MailboxState::Selectable
    } else {
        MailboxState::NoSelect
    }
}

/// The answers for the subscribed names that match reference and pattern.
fn subscribed_names(
    alloc: Global,
    reference: &[u8],
    pattern: &[u8],
    folders: &[Name],
    subscriptions: &[Name],
) -> Result<Vec<Answer>, AllocError>
    ensures { IfOk result (λ answers. answers.items
        ≡ map (subscribed_answer folders.now) (names_of
        (insert_all (shown_mailboxes (reference.now ++ pattern.now) subscriptions.now) []))) }
{
    let joined = append_name(alloc, reference, pattern)?;
    let entries = matching_names(alloc, &joined, subscriptions)?;
    subscribed_answers(alloc, &entries, folders)
}

fn append_name(alloc: Global, reference: &[u8], pattern: &[u8]) -> Result<Vec<u8>, AllocError>
    ensures { IfOk result (λ joined. joined.items ≡ reference.now ++ pattern.now) }
{
    let mut joined = reference.to_vec(alloc)?;
    joined.extend_from_slice(pattern)?;
    Ok(joined)
}

/// The names that match a pattern, in ascending order.
fn matching_names(
    alloc: Global,
    pattern: &[u8],
    names: &[Name],
) -> Result<Vec<ListEntry>, AllocError>
    ensures { IfOk result
        (λ entries. entries.items ≡ insert_all (shown_mailboxes pattern.now names.now) []) }
{
    let pattern = &Pattern::new(alloc, pattern)?;
    let mut entries = Vec::new(alloc);
    insert_mailboxes(alloc, pattern, names, &mut entries)?;
    Ok(entries)
}

fn subscribed_answers(
    alloc: Global,
    entries: &[ListEntry],
    folders: &[Name],
) -> Result<Vec<Answer>, AllocError>
    ensures { IfOk result
        (λ answers. answers.items ≡ map (subscribed_answer folders.now) (names_of entries.now)) }
{
    let mut answers = Vec::new(alloc);
    for entry in entries {
        let state = subscribed_state(is_among(folders, entry.name.as_bytes()));
        let name = entry.name.copy(alloc)?;
        push_list(&mut answers, name, state, true)?;
    }
    Ok(answers)
}

fn subscribed_state(exists: bool) -> MailboxState
    ensures { result ≡ subscribed_state exists }
{
    if exists {
        MailboxState::Selectable
    } else {
        MailboxState::NonExistent
    }
}
