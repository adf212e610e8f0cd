//! Whether enough UIDs are left between the known ones.

ghost use Rattle.std.specs.Prelude.{◌≡◌, ◌↔◌, ℕ, ◌+◌, ◌-◌, ◌<◌, ◌≤◌, List, IsTrue, drop, length};
ghost use Rattle.mail_audit.specs.Gaps.{FitsAt, FitsAfter, FitsBefore, HasRoomFor, SplitsAt};
ghost use Rattle.mail_audit.specs.KnownUids.{ArePlaces};

use crate::slots::KnownUid;
use tree_list::TreeList;

/// The greatest UID (RFC 9051, section 2.3.1.1).
const LAST_UID: u64 = 4_294_967_295;

/// The number of known messages at lower places.
pub fn count_of_lower_places(entries: &TreeList<KnownUid>, place: u32) -> usize
    requires { (total : ℕ) × ArePlaces 0 entries.now total }
    ensures within { result ≤ length entries.now }
    ensures parts { SplitsAt place entries.now result }
{
    entries.partition_point(|_, entry| entry.place < place)
}

/// Whether UIDs are left for the messages after the last known one, of `total` messages in all.
pub fn has_room(entries: &TreeList<KnownUid>, total: u32) -> bool
    ensures { IsTrue result ↔ HasRoomFor 0 0 entries.now total }
{
    match entries.last() {
        None => true,
        Some(entry) => has_room_after(*entry, total),
    }
}

/// Whether UIDs are left for the messages after a known one, of `total` messages in all.
fn has_room_after(entry: KnownUid, total: u32) -> bool
    ensures { IsTrue result ↔ (entry.uid + (total - (entry.place + 1)) ≤ 4294967295) }
{
    let from = u64::from(entry.place) + 1;
    u64::from(entry.uid) + u64::from(total).saturating_sub(from) <= LAST_UID
}

/// Whether UIDs are left for the messages between two known ones.
fn has_room_between(entry: KnownUid, next: KnownUid) -> bool
    ensures { IsTrue result ↔ (entry.uid + (next.place - (entry.place + 1)) < next.uid) }
{
    let from = u64::from(entry.place) + 1;
    u64::from(entry.uid) + u64::from(next.place).saturating_sub(from) < u64::from(next.uid)
}

/// Whether UIDs are left on either side of a reported UID, which follows the first `at` known ones.
pub fn fits_between(entries: &TreeList<KnownUid>, at: usize, entry: KnownUid, total: u32) -> bool
    requires { at ≤ length entries.now }
    ensures { IsTrue result ↔ FitsAt 0 0 at entries.now entry total }
{
    fits_after(entries, at, entry) && fits_before(entries, at, entry, total)
}

/// Whether UIDs are left for the messages between the previous known one and this one.
fn fits_after(entries: &TreeList<KnownUid>, at: usize, entry: KnownUid) -> bool
    requires { at ≤ length entries.now }
    ensures { IsTrue result ↔ FitsAfter 0 0 at entries.now entry }
{
    let Some(before) = at.checked_sub(1) else {
        return entry.place < entry.uid;
    };
    match entries.get(before) {
        None => unreachable!(),
        Some(before) => has_room_between(*before, entry),
    }
}

/// Whether UIDs are left for the messages between this one and the next known one, or for all later
/// ones if no known one follows.
fn fits_before(entries: &TreeList<KnownUid>, at: usize, entry: KnownUid, total: u32) -> bool
    requires { at ≤ length entries.now }
    ensures { IsTrue result ↔ FitsBefore entry (drop at entries.now) total }
{
    match entries.get(at) {
        None => has_room_after(entry, total),
        Some(next) => has_room_between(entry, *next),
    }
}
