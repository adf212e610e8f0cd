//! The format that a log's first line names.

ghost use Rattle.std.specs.Prelude.{◌≡◌, Option};
ghost use Rattle.op_log.specs.Formats.{format_at, is_above, is_later_format};

use text_fields::{number, split};

/// Whether the text of a first line names a later format than 1.
pub fn is_later_format(text: &[u8]) -> bool
    ensures { result ≡ is_later_format text.now }
{
    is_above(1, format_of(text))
}

/// The format that the text of a first line names; `None` if it names none.
fn format_of(text: &[u8]) -> Option<u64>
    ensures { result ≡ format_at text.now }
{
    let field = text.strip_prefix(b"log ")?;
    let (format, _) = split(b' ', field)?;
    number(format, u64::MAX)
}

/// Whether there is a number, and it is above the limit.
pub fn is_above(limit: u64, number: Option<u64>) -> bool
    ensures { result ≡ is_above limit number }
{
    match number {
        Some(number) => limit < number,
        None => false,
    }
}
