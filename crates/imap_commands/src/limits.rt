//! Limits of one operation: keywords and versions of a message.

ghost use Rattle.std.specs.Prelude.{◌≡◌, IfOk};
ghost use Rattle.std.specs.List.{list_all, list_any};
ghost use Rattle.imap_commands.specs.MemoryFaults.{EqualsOrLacksMemory};
ghost use Rattle.imap_types.specs.Keywords.{is_lawful_keyword};
ghost use Rattle.imap_commands.specs.Limits.{has_many_keywords, has_many_versions, within_limits};

use crate::intent::{Intent, NamedMessages};
use crdt_ops::{Kind, MAX_OLD_IDS};
use imap_answers::Refusal;
use imap_types::{MAX_KEYWORDS, Octets, is_lawful_keyword};

/// These operations, if all are within the limits. `TooManyKeywords` if one gives a message more
/// than 32 keywords; otherwise `TooManyVersions` if one names more than 64 versions of a message.
pub fn within_limits(kinds: Vec<Kind>) -> Result<Vec<Kind>, Refusal>
    ensures { EqualsOrLacksMemory (λ kinds. kinds.items) result (within_limits kinds.items) }
{
    if have_many_keywords(&kinds) {
        drop(kinds);
        return Err(Refusal::TooManyKeywords);
    }
    if have_many_versions(&kinds) {
        drop(kinds);
        return Err(Refusal::TooManyVersions);
    }
    Ok(kinds)
}

/// The intent with these operations and named messages, if all operations are within the limits;
/// otherwise the error of [`within_limits`].
pub fn intent_within_limits(kinds: Vec<Kind>, named: NamedMessages) -> Result<Intent, Refusal>
    ensures gives { EqualsOrLacksMemory (λ intent. intent.kinds.items) result
        (within_limits kinds.items) }
    ensures named { IfOk result (λ intent. intent.named ≡ named) }
{
    Ok(Intent {
        kinds: within_limits(kinds)?,
        named,
    })
}

fn have_many_keywords(kinds: &[Kind]) -> bool
    ensures { result ≡ list_any has_many_keywords kinds.now }
{
    for kind in kinds {
        if has_many_keywords(kind) {
            return true;
        }
    }
    false
}

fn have_many_versions(kinds: &[Kind]) -> bool
    ensures { result ≡ list_any has_many_versions kinds.now }
{
    for kind in kinds {
        if has_many_versions(kind) {
            return true;
        }
    }
    false
}

/// Whether messages may bear each of these keywords.
pub(crate) fn are_lawful(keywords: &[Octets]) -> bool
    ensures { result ≡ list_all is_lawful_keyword keywords.now }
{
    for keyword in keywords {
        if !is_lawful_keyword(keyword.as_bytes()) {
            return false;
        }
    }
    true
}

/// Whether an operation gives a message more than 32 keywords.
fn has_many_keywords(kind: &Kind) -> bool
    ensures { result ≡ has_many_keywords kind.now }
{
    match kind {
        Kind::Append { flags, .. } => flags.keywords.len() > MAX_KEYWORDS,
        Kind::Store { flags, .. } => flags.keywords.len() > MAX_KEYWORDS,
        Kind::Create { .. } => false,
        Kind::Delete { .. } => false,
        Kind::Expunge { .. } => false,
        Kind::Subscribe { .. } => false,
        Kind::Unsubscribe { .. } => false,
    }
}

/// Whether an operation names more than 64 versions of a message.
fn has_many_versions(kind: &Kind) -> bool
    ensures { result ≡ has_many_versions kind.now }
{
    match kind {
        Kind::Expunge { old_ids, .. } => old_ids.as_slice().len() > MAX_OLD_IDS,
        Kind::Store { old_ids, .. } => old_ids.as_slice().len() > MAX_OLD_IDS,
        Kind::Create { .. } => false,
        Kind::Delete { .. } => false,
        Kind::Append { .. } => false,
        Kind::Subscribe { .. } => false,
        Kind::Unsubscribe { .. } => false,
    }
}
