//! The choice of the one call that is refused.

ghost use Rattle.std.specs.Prelude.{◌≡◌, ◌-◌, ◌↔◌, if◌then◌else◌, IsTrue, None, Some, option_map};

/// Whether this call is refused: it is the one after `before` others. Counts the call; at most one
/// is refused.
pub fn is_refused(before: &mut Option<u32>) -> bool
    ensures refused { IsTrue result ↔ (before.old ≡ Some 0) }
    ensures left { before.new
        ≡ (if result then None else option_map (λ count. count - 1) before.old) }
{
    match *before {
        Some(0) => {
            *before = None;
            true
        }
        Some(count) => {
            *before = Some(count - 1);
            false
        }
        None => false,
    }
}
