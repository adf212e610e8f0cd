//! Whether what follows the committed lines of a log is damage, which no crash leaves.

ghost use Rattle.std.specs.Prelude.{◌≡◌, Option};
ghost use Rattle.std.specs.Option.{option_map};
ghost use Rattle.crdt_ops.specs.Reading.{parts_at};
ghost use Rattle.op_log.specs.Damage.{commit_synced, has_commit_beyond, line_synced};

use crate::format::is_above;
use crate::line::line_text;
use crc32c::Crc32c;
use text_fields::{number, split};

/// Whether a log is damaged of which only the first `octets` octets are committed lines, and `rest`
/// follows: a whole line of `rest` is that of a commit which says that more octets had been synced.
pub fn is_damaged(checksums: &Crc32c, octets: u64, rest: &[u8]) -> bool
    ensures { result ≡ has_commit_beyond octets (parts_at 10 rest.now) }
{
    let mut left = rest;
    while let Some((line, next)) = split(b'\n', left) {
        if is_above(octets, line_synced(checksums, line)) {
            return true;
        }
        left = next;
    }
    false
}

/// How many octets had been synced, by a line without its end; `None` if it isn't that of a commit.
fn line_synced(checksums: &Crc32c, line: &[u8]) -> Option<u64>
    ensures { result ≡ line_synced line.now }
{
    let text = line_text(checksums, line)?;
    commit_synced(text)
}

/// How many octets had been synced, by the text of a commit; `None` if it is none.
fn commit_synced(text: &[u8]) -> Option<u64>
    ensures { result ≡ commit_synced text.now }
{
    let field = text.strip_prefix(b"commit ")?;
    number(field, u64::MAX)
}
