//! CREATE, DELETE, SUBSCRIBE and UNSUBSCRIBE (RFC 9051, sections 6.3.4, 6.3.5, 6.3.7 and 6.3.8).

ghost use Rattle.std.specs.Prelude.{◌≡◌, ◌∷◌, [], IfOk};
ghost use Rattle.std.specs.Str.{bytes_eq};
ghost use Rattle.crdt_ops.specs.declared.kind.Kind.TheVariants.{Create as CreateKind};
ghost use Rattle.crdt_ops.specs.declared.kind.Kind.TheVariants.{Delete as DeleteKind};
ghost use Rattle.crdt_ops.specs.declared.kind.Kind.TheVariants.{Subscribe as SubscribeKind};
ghost use Rattle.imap_commands.specs.MemoryFaults.{EqualsOrLacksMemory};
ghost use Rattle.imap_commands.specs.Mailboxes.{create_intent, created_name, delete_intent};
ghost use Rattle.imap_commands.specs.Mailboxes.{is_lawful_name, subscribe_intent};
ghost use Rattle.imap_commands.specs.Mailboxes.{unsubscribe_intent, unsubscribes};
ghost use Rattle.imap_commands.specs.Mailboxes.{without_last_separator};
ghost use Rattle.imap_types.specs.Names.{inbox};
ghost use Rattle.imap_commands.specs.Mailboxes.{create_rule, delete_rule, subscribe_rule};
ghost use Rattle.imap_commands.specs.Mailboxes.{unsubscribe_rule};
ghost use Rattle.imap_commands.specs.Mailboxes.{intent_to_create, intent_to_delete};
ghost use Rattle.imap_commands.specs.Mailboxes.{intent_to_subscribe};
ghost use Rattle.imap_commands.specs.Mailboxes.{intent_to_unsubscribe};
ghost use Rattle.imap_commands.specs.MailStates.{are_some, is_subscribed_in};
ghost use Rattle.imap_commands.specs.NamedMessages.{no_messages_named};

use crate::command_rule::CommandRule;
use crate::intent::Intent;
use crate::replica_mail::ReplicaMail;
use crate::session::State;
use crate::session_states::is_logged_in;
use crdt_ops::{Ids, Kind};
use imap_answers::{CompletedWord, Refusal};
use imap_types::Name;
use std::alloc::{AllocError, Global};
use tags_clocks::OpId;

/// Whether a mailbox may bear this name (RFC 9051, section 5.1).
pub fn is_lawful_name(name: &Name) -> bool
    ensures { result ≡ is_lawful_name name.now }
{
    name.is_lawful()
}

/// The name of the mailbox that CREATE creates: the requested name without one `/` at its end, with
/// INBOX in capitals (RFC 9051, sections 5.1 and 6.3.4). `Err` if memory runs out.
pub fn created_name(alloc: Global, name: &Name) -> Result<Name, AllocError>
    ensures { IfOk result (λ made. made ≡ created_name name.now) }
{
    let mut octets = name.as_bytes().to_vec(alloc)?;
    drop_last_separator(&mut octets);
    Ok(Name::new(octets).fold_inbox())
}

fn drop_last_separator(octets: &mut Vec<u8>)
    ensures { octets.new.items ≡ without_last_separator octets.old.items }
{
    if let [.., b'/'] = octets.as_slice() {
        octets.truncate(octets.len() - 1);
    }
}

/// The intent of CREATE (RFC 9051, section 6.3.4). `NameNotAllowed` if no mailbox may bear the
/// created name; otherwise `MailboxExists` if `exists` says that one does. No superior levels are
/// created.
pub fn create_intent(alloc: Global, exists: bool, name: &Name) -> Result<Vec<Kind>, Refusal>
    ensures { EqualsOrLacksMemory (λ kinds. kinds.items) result (create_intent exists name.now) }
{
    let folder = created_name(alloc, name)?;
    if !is_lawful_name(&folder) {
        return Err(Refusal::NameNotAllowed);
    }
    if exists {
        return Err(Refusal::MailboxExists);
    }
    Ok(one_kind(alloc, Kind::Create { folder })?)
}

/// The intent of DELETE (RFC 9051, section 6.3.5). `NoSuchMailbox` if the mailbox doesn't exist;
/// otherwise `InboxStays` for INBOX. `seen` has the ids of all the folder's present tags, including
/// those of its messages.
pub fn delete_intent(
    alloc: Global,
    exists: bool,
    seen: Ids,
    name: &Name,
) -> Result<Vec<Kind>, Refusal>
    ensures { EqualsOrLacksMemory (λ kinds. kinds.items) result
        (delete_intent exists seen name.now) }
{
    if !exists {
        return Err(Refusal::NoSuchMailbox);
    }
    if is_inbox(name) {
        return Err(Refusal::InboxStays);
    }
    Ok(delete(alloc, seen, name)?)
}

fn delete(alloc: Global, seen: Ids, name: &Name) -> Result<Vec<Kind>, AllocError>
    ensures { IfOk result (λ kinds. kinds.items ≡ DeleteKind name.now seen ∷ []) }
{
    let folder = name.copy(alloc)?;
    one_kind(alloc, Kind::Delete { folder, seen })
}

fn is_inbox(name: &Name) -> bool
    ensures { result ≡ bytes_eq name.now inbox }
{
    name.as_bytes() == b"INBOX".as_slice()
}

/// The intent of SUBSCRIBE (RFC 9051, section 6.3.7). `NameNotAllowed` if no mailbox may bear the
/// name. For a name that is subscribed nothing is issued; the mailbox need not exist.
pub fn subscribe_intent(
    alloc: Global,
    is_subscribed: bool,
    name: &Name,
) -> Result<Vec<Kind>, Refusal>
    ensures { EqualsOrLacksMemory (λ kinds. kinds.items) result
        (subscribe_intent is_subscribed name.now) }
{
    if !is_lawful_name(name) {
        return Err(Refusal::NameNotAllowed);
    }
    if is_subscribed {
        return Ok(Vec::new(alloc));
    }
    Ok(subscribe(alloc, name)?)
}

fn subscribe(alloc: Global, name: &Name) -> Result<Vec<Kind>, AllocError>
    ensures { IfOk result (λ kinds. kinds.items ≡ SubscribeKind name.now ∷ []) }
{
    let name = name.copy(alloc)?;
    one_kind(alloc, Kind::Subscribe { name })
}

/// The intent of UNSUBSCRIBE (RFC 9051, section 6.3.8). `NameNotAllowed` if no mailbox may bear the
/// name. `seen` has the ids of the name's present subscription tags; if it has none, nothing is
/// issued.
pub fn unsubscribe_intent(alloc: Global, seen: Ids, name: &Name) -> Result<Vec<Kind>, Refusal>
    ensures { EqualsOrLacksMemory (λ kinds. kinds.items) result (unsubscribe_intent seen name.now) }
{
    if !is_lawful_name(name) {
        return Err(Refusal::NameNotAllowed);
    }
    Ok(unsubscribes(alloc, seen, name)?)
}

fn unsubscribes(alloc: Global, seen: Ids, name: &Name) -> Result<Vec<Kind>, AllocError>
    ensures { IfOk result (λ kinds. kinds.items ≡ unsubscribes seen name.now) }
{
    if seen.as_slice().is_empty() {
        return Ok(Vec::new(alloc));
    }
    let name = name.copy(alloc)?;
    one_kind(alloc, Kind::Unsubscribe { name, seen })
}

/// A list of only this kind.
pub(crate) fn one_kind(alloc: Global, kind: Kind) -> Result<Vec<Kind>, AllocError>
    ensures { IfOk result (λ kinds. kinds.items ≡ kind ∷ []) }
{
    let mut kinds = Vec::new(alloc);
    kinds.push(kind)?;
    Ok(kinds)
}

pub(crate) fn create_rule() -> CommandRule
    ensures { result ≡ create_rule }
{
    CommandRule::issuing(CompletedWord::Create)
}

pub(crate) fn delete_rule() -> CommandRule
    ensures { result ≡ delete_rule }
{
    CommandRule::issuing(CompletedWord::Delete)
}

pub(crate) fn subscribe_rule() -> CommandRule
    ensures { result ≡ subscribe_rule }
{
    CommandRule::issuing(CompletedWord::Subscribe)
}

pub(crate) fn unsubscribe_rule() -> CommandRule
    ensures { result ≡ unsubscribe_rule }
{
    CommandRule::issuing(CompletedWord::Unsubscribe)
}

/// The intent of CREATE in a session.
pub(crate) fn intent_to_create<R: ReplicaMail>(
    alloc: Global,
    replica: &R,
    state: &State,
    name: &Name,
) -> Result<Intent, Refusal>
    ensures gives { EqualsOrLacksMemory (λ intent. intent.kinds.items) result
        (intent_to_create (R.before replica.now) state.now name.now) }
    ensures named { IfOk result (λ intent. intent.named ≡ no_messages_named) }
{
    if !is_logged_in(state) {
        return Err(Refusal::NotNow);
    }
    let folder = created_name(alloc, name)?;
    let kinds = create_intent(alloc, replica.exists(&folder), name)?;
    Ok(Intent::of_kinds(alloc, kinds))
}

/// The intent of DELETE in a session.
pub(crate) fn intent_to_delete<R: ReplicaMail>(
    alloc: Global,
    replica: &R,
    state: &State,
    name: &Name,
) -> Result<Intent, Refusal>
    ensures gives { EqualsOrLacksMemory (λ intent. intent.kinds.items) result
        (intent_to_delete (R.before replica.now) state.now name.now) }
    ensures named { IfOk result (λ intent. intent.named ≡ no_messages_named) }
{
    if !is_logged_in(state) {
        return Err(Refusal::NotNow);
    }
    let seen = replica.delete_set(alloc, name)?;
    let kinds = delete_intent(alloc, replica.exists(name), seen, name)?;
    Ok(Intent::of_kinds(alloc, kinds))
}

/// The intent of SUBSCRIBE in a session.
pub(crate) fn intent_to_subscribe<R: ReplicaMail>(
    alloc: Global,
    replica: &R,
    state: &State,
    name: &Name,
) -> Result<Intent, Refusal>
    ensures gives { EqualsOrLacksMemory (λ intent. intent.kinds.items) result
        (intent_to_subscribe (R.before replica.now) state.now name.now) }
    ensures named { IfOk result (λ intent. intent.named ≡ no_messages_named) }
{
    if !is_logged_in(state) {
        return Err(Refusal::NotNow);
    }
    let kinds = subscribe_intent(alloc, is_subscribed_in(alloc, replica, name)?, name)?;
    Ok(Intent::of_kinds(alloc, kinds))
}

fn is_subscribed_in<R: ReplicaMail>(
    alloc: Global,
    replica: &R,
    name: &Name,
) -> Result<bool, AllocError>
    ensures { IfOk result (λ yes. yes ≡ is_subscribed_in (R.before replica.now) name.now) }
{
    let tags = replica.subscription_tags(alloc, name)?;
    Ok(are_some(tags.as_slice()))
}

fn are_some(ids: &[OpId]) -> bool
    ensures { result ≡ are_some ids.now }
{
    match ids {
        [] => false,
        [_, ..] => true,
    }
}

/// The intent of UNSUBSCRIBE in a session.
pub(crate) fn intent_to_unsubscribe<R: ReplicaMail>(
    alloc: Global,
    replica: &R,
    state: &State,
    name: &Name,
) -> Result<Intent, Refusal>
    ensures gives { EqualsOrLacksMemory (λ intent. intent.kinds.items) result
        (intent_to_unsubscribe (R.before replica.now) state.now name.now) }
    ensures named { IfOk result (λ intent. intent.named ≡ no_messages_named) }
{
    if !is_logged_in(state) {
        return Err(Refusal::NotNow);
    }
    let kinds = unsubscribe_intent(alloc, replica.subscription_tags(alloc, name)?, name)?;
    Ok(Intent::of_kinds(alloc, kinds))
}
