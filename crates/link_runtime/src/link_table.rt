//! Which connections of a process are links: at most one with each name.

ghost use Rattle.std.specs.Prelude.{◌≡◌, ◌↔◌, IsTrue, MatchOption};
ghost use Rattle.link_runtime.specs.LinkTables.{GivesWay, IsAdmission, IsLinkedAt, IsUnlinked};
ghost use Rattle.link_runtime.specs.declared.link_table.LinkEntry.{LinkEntry};

use tags_clocks::ReplicaId;

/// The most links of a process.
pub const MOST_LINKS: usize = 64;

/// A connection whose peer proved that it knows the secret.
#[derive(Clone, Copy, Debug, PartialEq, Eq)]
pub struct LinkEntry {
    /// Its number among those of this process.
    pub number: u64,
    /// The name of its peer.
    pub peer: ReplicaId,
    /// The octets that the peer's process drew when it started.
    pub run: [u8; 16],
    /// The name of the end that opened it.
    pub dialer: ReplicaId,
}

/// Whether a connection becomes a link.
#[derive(Clone, Copy, Debug, PartialEq, Eq)]
pub enum Admission {
    /// It does, beside the others.
    Added,
    /// It does, in place of the one at this place.
    Replaces(usize),
    /// It doesn't: its name is linked with another process, or by a connection that stays, or there
    /// are as many links as there may be.
    Busy,
}

/// Whether a new connection becomes a link. Of two connections with one process the one stays that
/// the lesser name opened, and of two that the same name opened the newer one; a link with another
/// process of the same name stays.
pub fn admission_of(entries: &[LinkEntry], new: &LinkEntry) -> Admission
    ensures { IsAdmission entries.now new.now result }
{
    match entry_place(entries, new.peer) {
        None => {
            if entries.len() >= MOST_LINKS {
                Admission::Busy
            } else {
                Admission::Added
            }
        }
        Some(at) => {
            if gives_way(&entries[at], new) {
                Admission::Replaces(at)
            } else {
                Admission::Busy
            }
        }
    }
}

/// Whether a link gives way to a new connection with the same name.
fn gives_way(old: &LinkEntry, new: &LinkEntry) -> bool
    ensures { IsTrue result ↔ GivesWay old.now new.now }
{
    old.run == new.run && new.dialer <= old.dialer
}

/// The place of the link with this name, if there is one.
pub fn entry_place(entries: &[LinkEntry], peer: ReplicaId) -> Option<usize>
    ensures { MatchOption result (IsUnlinked peer entries.now)
        (λ at. (entry : LinkEntry) × IsLinkedAt peer entries.now at entry) }
{
    for at in 0..entries.len() {
        if entries[at].peer == peer {
            return Some(at);
        }
    }
    None
}
