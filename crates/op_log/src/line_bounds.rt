//! How many octets the lines of operations have at most, without writing them.

ghost use Rattle.std.specs.Prelude.{◌≡◌, ◌+◌, ◌*◌, min};
ghost use Rattle.op_log.specs.LineBounds.{content_bound, keywords_bound, line_bound, lines_bound};

use crdt_ops::{Kind, SoundOp};
use imap_types::Flags;
use merge_laws::Caused;

/// The octets of the lines of these operations, at most; the largest `u64` if that is more. A line
/// has about a third of that if it has a long text. It makes no pass over texts.
pub fn lines_bound(ops: &[SoundOp]) -> u64
    ensures { result ≡ min (lines_bound ops.now) 18446744073709551615 }
{
    let mut octets = 0u64;
    for op in ops {
        octets = octets.saturating_add(line_bound(op));
    }
    octets
}

/// The octets of an operation's line, at most; the largest `u64` if that is more.
pub fn line_bound(op: &SoundOp) -> u64
    ensures { result ≡ min (line_bound op.now) 18446744073709551615 }
{
    let op = op.op();
    let clock = (op.clock.entries().len() as u64).saturating_mul(17);
    let removed = (op.kind.removed_ids().len() as u64).saturating_mul(17);
    let name = (op.kind.name().as_bytes().len() as u64).saturating_mul(3);
    128u64
        .saturating_add(clock)
        .saturating_add(removed)
        .saturating_add(name)
        .saturating_add(content_bound(&op.kind))
}

fn content_bound(kind: &Kind) -> u64
    ensures { result ≡ min (content_bound kind.now) 18446744073709551615 }
{
    match kind {
        Kind::Append { flags, text, .. } => {
            let text = (text.as_bytes().len() as u64).saturating_mul(3);
            keywords_bound(flags).saturating_add(text)
        }
        Kind::Store { flags, .. } => keywords_bound(flags),
        _ => 0,
    }
}

fn keywords_bound(flags: &Flags) -> u64
    ensures { result ≡ min (keywords_bound flags.now) 18446744073709551615 }
{
    let mut octets = 0u64;
    for keyword in flags.keywords.as_slice() {
        let length = keyword.as_bytes().len() as u64;
        octets = octets.saturating_add(length.saturating_add(1));
    }
    octets
}
