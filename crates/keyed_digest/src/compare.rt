//! A comparison of digests.

ghost use Rattle.std.specs.Prelude.{◌≡◌, ◌↔◌, IsTrue};

/// Whether two digests are equal. Every octet is read, whatever the earlier ones were, and nothing
/// branches on them: so is the code, but no contract speaks of time, and the compiler may change
/// it.
pub fn are_equal(first: &[u8; 32], second: &[u8; 32]) -> bool
    ensures { IsTrue result ↔ (first.now ≡ second.now) }
{
    let mut difference = 0;
    for place in 0..32 {
        difference |= first[place] ^ second[place];
    }
    difference == 0
}
