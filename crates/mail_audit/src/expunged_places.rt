//! Searches over the places of expunged messages.

ghost use Rattle.std.specs.Prelude.{◌↔◌, ℕ, ◌+◌, ◌<◌, ◌≤◌, IsTrue, get_or, length};
ghost use Rattle.mail_audit.specs.KnownUids.{AreExpunged};

use tree_list::TreeList;

/// The number of expunged messages before the existing message that follows the first `skipped`
/// existing ones.
pub fn expunged_before(expunged: &TreeList<u32>, skipped: u32) -> usize
    requires { (total : ℕ) × AreExpunged 0 expunged.now total }
    ensures within { result ≤ length expunged.now }
    ensures front { (i : ℕ) → i < result → get_or expunged.now i 0 ≤ skipped + i }
    ensures back { (i : ℕ) → result ≤ i → i < length expunged.now
        → skipped + i < get_or expunged.now i 0 }
{
    expunged.partition_point(|before, place| is_before(*place, skipped, before))
}

/// Whether an expunged message, which follows `before` expunged ones, comes before the existing
/// message that follows the first `skipped` existing ones.
fn is_before(expunged: u32, skipped: u32, before: usize) -> bool
    ensures { IsTrue result ↔ (expunged ≤ skipped + before) }
{
    match (expunged as usize).checked_sub(before) {
        None => true,
        Some(live) => live <= skipped as usize,
    }
}
