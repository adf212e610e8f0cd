//! How STORE changes flags (RFC 9051, section 6.4.6).

ghost use Rattle.std.specs.Prelude.{◌≡◌, IfOk};
ghost use Rattle.imap_commands.specs.FlagChange.{changed_flags, remaining_keywords, removed_flags};
ghost use Rattle.imap_types.specs.Unions.{with_flags};

use imap_syntax::StoreMode;
use imap_types::{Flags, Keywords, Octets, add_flags};
use std::alloc::{AllocError, Global};

/// A message's flags after STORE, from its old flags and those given. `Err` if memory runs out.
/// Keywords are added one by one, each in time linear in their number.
#[tactic(auto, unfolding(crate::specs::FlagChange::changed_flags))]
pub fn changed_flags(
    alloc: Global,
    mode: StoreMode,
    old: &Flags,
    given: &Flags,
) -> Result<Flags, AllocError>
    ensures { IfOk result (λ flags. flags ≡ changed_flags mode old.now given.now) }
{
    match mode {
        StoreMode::Replace => given.copy(alloc),
        StoreMode::Add => with_flags_added(alloc, old, given),
        StoreMode::Remove => with_flags_removed(alloc, old, given),
    }
}

/// The old flags with the given ones.
fn with_flags_added(alloc: Global, old: &Flags, given: &Flags) -> Result<Flags, AllocError>
    ensures { IfOk result (λ flags. flags ≡ with_flags old.now given.now) }
{
    let mut flags = old.copy(alloc)?;
    add_flags(alloc, &mut flags, given)?;
    Ok(flags)
}

/// The old flags without the given ones.
fn with_flags_removed(alloc: Global, old: &Flags, given: &Flags) -> Result<Flags, AllocError>
    ensures { IfOk result (λ flags. flags ≡ removed_flags old.now given.now) }
{
    Ok(Flags {
        answered: old.answered && !given.answered,
        flagged: old.flagged && !given.flagged,
        deleted: old.deleted && !given.deleted,
        seen: old.seen && !given.seen,
        draft: old.draft && !given.draft,
        keywords: remaining_keywords(alloc, &given.keywords, &old.keywords)?,
    })
}

/// These keywords without the given ones.
fn remaining_keywords(
    alloc: Global,
    given: &Keywords,
    keywords: &Keywords,
) -> Result<Keywords, AllocError>
    ensures { IfOk result (λ left. left ≡ remaining_keywords given.now keywords.now) }
{
    match Keywords::new(remaining_words(alloc, given, keywords.as_slice())?) {
        Some(left) => Ok(left),
        None => unreachable!(),
    }
}

/// Those of these keywords that aren't among the given ones.
fn remaining_words(
    alloc: Global,
    given: &Keywords,
    keywords: &[Octets],
) -> Result<Vec<Octets>, AllocError>
    ensures { IfOk result (λ left. left.items ≡ remaining_keywords given.now keywords.now) }
{
    let mut left = Vec::new(alloc);
    for keyword in keywords {
        if !given.contains(keyword.as_bytes()) {
            left.push(keyword.copy(alloc)?)?;
        }
    }
    Ok(left)
}
