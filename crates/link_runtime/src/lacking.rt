//! How much a peer lacks.

ghost use Rattle.std.specs.Prelude.{◌≡◌, min};
ghost use Rattle.link_runtime.specs.Lacking.{lacked_ops};

use tags_clocks::Clock;

/// How many operations the first clock covers and the second one doesn't; `u64::MAX` if there are
/// more.
pub fn lacked_ops(own: &Clock, covered: &Clock) -> u64
    ensures { result ≡ min 18446744073709551615 (lacked_ops own.now covered.now) }
{
    let mut count = 0u64;
    for (replica, number) in own.entries() {
        count = count.saturating_add(u64::from(number.saturating_sub(covered.get(*replica))));
    }
    count
}
