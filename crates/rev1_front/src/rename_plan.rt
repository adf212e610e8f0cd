//! Which mailboxes RENAME renames (RFC 3501, section 6.3.5).

ghost use Rattle.std.specs.Prelude.{◌≡◌, ◌++◌, IfOk, IfSome, List, ℕ, drop};
ghost use Rattle.imap_query.specs.Patterns.{is_among};
ghost use Rattle.imap_syntax.specs.Strings.{begins_with};
ghost use Rattle.rev1_front.specs.Renames.{IsRenamePlan, IsWithoutSeparator, any_exists, is_below};
ghost use Rattle.rev1_front.specs.Renames.{is_renamed, rename_fault, renamed_mailbox};
ghost use Rattle.rev1_front.specs.Renames.{renamed_mailboxes};

use crate::frame_parts::{after_start, before_suffix};
use imap_answers::Refusal;
use imap_types::Name;
use std::alloc::{AllocError, Global};

/// A mailbox and its new name.
#[derive(Drop)]
pub struct RenamedMailbox {
    pub from: Name,
    pub to: Name,
}

/// What RENAME does.
#[derive(Drop)]
pub enum RenamePlan {
    /// Nothing, for this reason.
    Refused(Refusal),
    /// It renames these mailboxes, in this order.
    Mailboxes(Vec<RenamedMailbox>),
}

/// The mailboxes that RENAME renames among those that exist: the one with the old name and all
/// below it, but of INBOX only itself. A separator at the end of the new name isn't part of it.
/// `Err` if memory runs out.
pub fn plan_rename(
    alloc: Global,
    from: &Name,
    to: &Name,
    mailboxes: &[Name],
) -> Result<RenamePlan, AllocError>
    ensures { IfOk result (λ plan. IsRenamePlan from.now to.now mailboxes.now plan) }
{
    let to = without_separator(to.as_bytes());
    let renamed = renamed_mailboxes(alloc, from, to, mailboxes)?;
    match rename_fault(from, to, &renamed, mailboxes) {
        Some(reason) => Ok(RenamePlan::Refused(reason)),
        None => Ok(RenamePlan::Mailboxes(renamed)),
    }
}

/// Why nothing is renamed, if so.
fn rename_fault(
    from: &Name,
    to: &[u8],
    renamed: &[RenamedMailbox],
    mailboxes: &[Name],
) -> Option<Refusal>
    requires { renamed.now ≡ renamed_mailboxes from.now to.now mailboxes.now }
    ensures { result ≡ rename_fault from.now to.now mailboxes.now }
{
    if renamed.is_empty() {
        return Some(Refusal::NoSuchMailbox);
    }
    if to == from.as_bytes() || is_below(from.as_bytes(), to) {
        return Some(Refusal::NameNotAllowed);
    }
    if to.eq_ignore_ascii_case(b"INBOX") || any_exists(renamed, mailboxes) {
        return Some(Refusal::MailboxExists);
    }
    None
}

/// A name without a separator at its end.
fn without_separator(name: &[u8]) -> &[u8]
    ensures { IsWithoutSeparator name.now result.now }
{
    match before_suffix(name, b"/") {
        Some(front) => front,
        None => name,
    }
}

/// The mailboxes that are renamed, with their new names. `Err` if memory runs out.
fn renamed_mailboxes(
    alloc: Global,
    from: &Name,
    to: &[u8],
    mailboxes: &[Name],
) -> Result<Vec<RenamedMailbox>, AllocError>
    ensures { IfOk result (λ renamed. renamed.items
        ≡ renamed_mailboxes from.now to.now mailboxes.now) }
{
    let mut renamed = Vec::new(alloc);
    for name in mailboxes {
        if is_renamed(from, name) {
            renamed.push(renamed_mailbox(alloc, from, to, name)?)?;
        }
    }
    Ok(renamed)
}

/// A mailbox with its new name. `Err` if memory runs out.
fn renamed_mailbox(
    alloc: Global,
    from: &Name,
    to: &[u8],
    name: &Name,
) -> Result<RenamedMailbox, AllocError>
    ensures { IfOk result (λ mailbox. mailbox ≡ renamed_mailbox from.now to.now name.now) }
{
    Ok(RenamedMailbox {
        from: name.copy(alloc)?,
        to: new_name(alloc, from.as_bytes().len(), to, name.as_bytes())?,
    })
}

/// Whether a mailbox is renamed.
fn is_renamed(from: &Name, name: &Name) -> bool
    ensures { result ≡ is_renamed from.now name.now }
{
    name.as_bytes() == from.as_bytes()
        || (!from.is_inbox() && is_below(from.as_bytes(), name.as_bytes()))
}

/// Whether a name is below another.
fn is_below(above: &[u8], name: &[u8]) -> bool
    ensures { result ≡ is_below above.now name.now }
{
    match after_start(name, above) {
        None => false,
        Some(rest) => begins_with_separator(rest),
    }
}

/// Whether octets begin with a separator.
fn begins_with_separator(octets: &[u8]) -> bool
    ensures { result ≡ begins_with 47 octets.now }
{
    match octets {
        [] => false,
        [first, ..] => *first == b'/',
    }
}

/// A name with its first octets replaced. `Err` if memory runs out.
fn new_name(alloc: Global, len: usize, to: &[u8], name: &[u8]) -> Result<Name, AllocError>
    ensures { IfOk result (λ renamed. renamed ≡ to.now ++ drop len name.now) }
{
    let mut octets = to.to_vec(alloc)?;
    octets.extend_from_slice(name.get(len..).unwrap_or(&[]))?;
    Ok(Name::new(octets))
}

/// Whether a mailbox has one of the new names.
fn any_exists(renamed: &[RenamedMailbox], mailboxes: &[Name]) -> bool
    ensures { result ≡ any_exists renamed.now mailboxes.now }
{
    for mailbox in renamed {
        if is_among(&mailbox.to, mailboxes) {
            return true;
        }
    }
    false
}

/// Whether a name is among these.
fn is_among(name: &Name, names: &[Name]) -> bool
    ensures { result ≡ is_among names.now name.now }
{
    for other in names {
        if other.as_bytes() == name.as_bytes() {
            return true;
        }
    }
    false
}
