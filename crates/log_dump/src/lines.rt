//! The octets of a log's first lines, and those after them.

ghost use Rattle.std.specs.Prelude.{◌≡◌, ◌++◌, ℕ, List, drop, length};
ghost use Rattle.op_log.specs.Lines.{AreTexts, log_of};

use text_fields::split;

/// The number of octets of the first `count` lines of a log.
pub fn octets_of_lines(log: &[u8], count: usize) -> usize
    ensures { (texts : List (List ℕ)) (after : List ℕ) → AreTexts texts
        → log.now ≡ log_of texts ++ after → count ≡ length texts
        → result ≡ length (log_of texts) }
{
    let mut rest = log;
    for _line in 0..count {
        let Some((_, after)) = split(b'\n', rest) else {
            return 0;
        };
        rest = after;
    }
    log.len() - rest.len()
}

/// What follows the first `octets` octets of a log; nothing if it has no more.
pub fn rest_of_log(log: &[u8], octets: usize) -> &[u8]
    ensures { result.now ≡ drop octets log.now }
{
    if octets > log.len() {
        return &[];
    }
    &log[octets..]
}
