//! Tests of a flag in several versions of a message.

ghost use Rattle.std.specs.Prelude.{◌≡◌};
ghost use Rattle.std.specs.List.{list_any};
ghost use Rattle.imap_types.specs.Keywords.{has_keyword};

use crate::version::Version;

/// Whether any version is `\Answered`.
pub fn any_is_answered(versions: &[Version]) -> bool
    ensures { result ≡ list_any (λ version. version.flags.answered) versions.now }
{
    versions.iter().any(|version| version.flags.answered)
}

/// Whether any version is `\Flagged`.
pub fn any_is_flagged(versions: &[Version]) -> bool
    ensures { result ≡ list_any (λ version. version.flags.flagged) versions.now }
{
    versions.iter().any(|version| version.flags.flagged)
}

/// Whether any version is `\Deleted`.
pub fn any_is_deleted(versions: &[Version]) -> bool
    ensures { result ≡ list_any (λ version. version.flags.deleted) versions.now }
{
    versions.iter().any(|version| version.flags.deleted)
}

/// Whether any version is `\Seen`.
pub fn any_is_seen(versions: &[Version]) -> bool
    ensures { result ≡ list_any (λ version. version.flags.seen) versions.now }
{
    versions.iter().any(|version| version.flags.seen)
}

/// Whether any version is `\Draft`.
pub fn any_is_draft(versions: &[Version]) -> bool
    ensures { result ≡ list_any (λ version. version.flags.draft) versions.now }
{
    versions.iter().any(|version| version.flags.draft)
}

/// Whether any version has this keyword, compared without case.
pub fn any_has_keyword(versions: &[Version], word: &[u8]) -> bool
    ensures { result
        ≡ list_any (λ version. has_keyword word.now version.flags.keywords) versions.now }
{
    versions
        .iter()
        .any(|version| version.flags.keywords.contains(word))
}
