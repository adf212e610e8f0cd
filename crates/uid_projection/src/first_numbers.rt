//! `Counters`: the first numbers of a replica's counters.

ghost use Rattle.std.specs.Prelude.{◌≡◌};
ghost use Rattle.uid_projection.specs.UidsAndModSeqs.{first_uid};

use imap_types::Name;
use tags_clocks::ReplicaId;

/// The first numbers of a replica's counters.
#[derive(Clone, Copy, Debug, PartialEq, Eq)]
pub struct Counters {
    /// The replica, whose name is a part of each UIDVALIDITY.
    pub replica: ReplicaId,
    /// INBOX's first UID, normally 1.
    pub uid: u32,
    /// The k of the first incarnation of a folder other than INBOX, normally 1.
    pub k: u32,
}

/// The folder's first UID: INBOX's own, or 1.
pub fn first_of(start: &Counters, folder: &Name) -> u32
    ensures { result ≡ first_uid start.now folder.now }
{
    if folder.as_bytes() == b"INBOX".as_slice() {
        start.uid
    } else {
        1
    }
}
