//! Tests of a single message's system flags.

ghost use Rattle.std.specs.Prelude.{◌≡◌};
ghost use Rattle.imap_query.specs.Messages.{has_flag, agrees_with, is_flagged};
ghost use Rattle.imap_types.specs.Unions.{united_flags};
ghost use Rattle.mailbox_rows.specs.RowViews.{listed_message};

use imap_syntax::SystemFlag;
use imap_types::Versions;
use mailbox_rows::Row;

/// Whether a message has the flag or lacks it, as `is_set` asks.
pub(crate) fn is_flagged(row: &Row<'_>, flag: SystemFlag, is_set: bool) -> bool
    ensures { result ≡ is_flagged flag is_set (listed_message row.now) }
{
    agrees_with(is_set, has_flag(flag, row.versions))
}

#[inline(always)]
pub(crate) fn agrees_with(expected: bool, is: bool) -> bool
    ensures { result ≡ agrees_with expected is }
{
    if expected { is } else { !is }
}

#[inline(always)]
pub(crate) fn has_flag(flag: SystemFlag, versions: Versions<'_>) -> bool
    ensures { result ≡ has_flag flag (united_flags versions.entry.list.now) }
{
    match flag {
        SystemFlag::Answered => versions.answered(),
        SystemFlag::Flagged => versions.flagged(),
        SystemFlag::Deleted => versions.deleted(),
        SystemFlag::Seen => versions.seen(),
        SystemFlag::Draft => versions.draft(),
    }
}
