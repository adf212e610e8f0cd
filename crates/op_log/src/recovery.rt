//! What a log says, also one that a crash left.

ghost use Rattle.std.specs.Prelude.{◌≡◌, ◌++◌, ℕ, List, IfErr, IfOk, MatchResult, map, take};
ghost use Rattle.crdt_ops.specs.Ops.{clock_of, id_of};
ghost use Rattle.merge_laws.specs.Orders.{IsCausal};
ghost use Rattle.op_log.specs.Crashes.{IsCrashState};
ghost use Rattle.op_log.specs.Entries.{AreLawful, EndsWithCommit, committed_entries, entry_text};
ghost use Rattle.op_log.specs.Entries.{is_commit, ops_of};
ghost use Rattle.op_log.specs.Formats.{line_fault};
ghost use Rattle.op_log.specs.Recovery.{IsLogFault, IsRecovered};
ghost use Rattle.op_log.specs.declared.entry.Entry.{Entry};
ghost use Rattle.op_log.specs.declared.recovery.LogFault.TheVariants.{NoMemory};

use crate::entry::{Entry, EntryFault, read_entry};
use crate::format::is_later_format;
use crate::line::first_text;
use crc32c::Crc32c;
use std::alloc::{AllocFailed, Global};
use thiserror::Error;

/// What a log says.
#[derive(Drop)]
pub struct Recovered {
    /// The entries up to the last commit, of the whole lines before the first that is unfinished
    /// or whose checksum isn't that of its text.
    pub entries: Vec<Entry>,
    /// The number of octets of these entries' lines.
    pub octets: usize,
}

/// Why a log isn't read.
#[derive(Clone, Copy, Debug, PartialEq, Eq, Error)]
pub enum LogFault {
    /// A line has the checksum of its text, but is the text of no entry: it was written by another
    /// program, or its operation isn't sound.
    #[error("unsound at octet {octets}")]
    Unsound {
        /// The number of octets before that line.
        octets: usize,
    },
    /// The first line names a later format than this program's.
    #[error("later format")]
    LaterFormat,
    /// Memory ran out for what the log says.
    #[error("no memory")]
    NoMemory,
}

impl<T: Drop> From<AllocFailed<T>> for LogFault {
    ghost use Rattle.std.specs.Prelude.{◌≡◌};
    ghost use Rattle.op_log.specs.declared.recovery.LogFault.TheVariants.{NoMemory};

    ghost from_gives = { λ _ e. e ≡ NoMemory };

    fn from(_fault: AllocFailed<T>) -> LogFault {
        LogFault::NoMemory
    }
}

/// Reads a log.
///
/// A crash may leave any log of which the lines of `synced`, whose last entry is a commit, had been
/// synced, and those of `unsynced` were being written. Of such a log this returns all of `synced`,
/// and then the whole batches among the first entries of `unsynced`; the only fault is `NoMemory`.
pub fn recover(alloc: Global, checksums: &Crc32c, log: &[u8]) -> Result<Recovered, LogFault>
    ensures read { IfOk result (λ found. IsRecovered log.now found.entries.items found.octets) }
    ensures fault { IfErr result (IsLogFault log.now) }
    ensures crash { (synced unsynced : List Entry) → AreLawful synced → AreLawful unsynced
        → EndsWithCommit synced
        → IsCrashState (map entry_text synced) (map entry_text unsynced) log.now
        → MatchResult result
        (λ found. (count : ℕ)
        × (found.entries.items ≡ synced ++ committed_entries (take count unsynced)))
        (λ fault. fault ≡ NoMemory) }
    ensures causal { (synced unsynced : List Entry) → AreLawful synced → AreLawful unsynced
        → EndsWithCommit synced
        → IsCrashState (map entry_text synced) (map entry_text unsynced) log.now
        → IsCausal id_of clock_of (ops_of (synced ++ unsynced))
        → IfOk result (λ found. IsCausal id_of clock_of (ops_of found.entries.items)) }
{
    read_entries(alloc, checksums, log)
}

fn read_entries(alloc: Global, checksums: &Crc32c, log: &[u8]) -> Result<Recovered, LogFault>
    ensures read { IfOk result (λ found. IsRecovered log.now found.entries.items found.octets) }
    ensures fault { IfErr result (IsLogFault log.now) }
{
    let mut entries = Vec::new(alloc);
    let mut rest = log;
    let mut count = 0;
    let mut octets = 0;
    while let Some((text, after)) = first_text(checksums, rest) {
        let entry = match read_entry(alloc, text) {
            Ok(entry) => entry,
            Err(EntryFault::NotAnEntry) => {
                let octets = log.len() - rest.len();
                return Err(line_fault(octets, text));
            }
            Err(EntryFault::NoMemory) => return Err(LogFault::NoMemory),
        };
        let ends = is_commit(&entry);
        entries.push(entry)?;
        rest = after;
        if ends {
            count = entries.len();
            octets = log.len() - rest.len();
        }
    }
    entries.truncate(count);
    Ok(Recovered { entries, octets })
}

/// The fault of a line after so many octets, whose text is that of no entry.
pub(crate) fn line_fault(octets: usize, text: &[u8]) -> LogFault
    ensures { result ≡ line_fault octets text.now }
{
    let is_first = octets == 0;
    if is_first && is_later_format(text) {
        LogFault::LaterFormat
    } else {
        LogFault::Unsound { octets }
    }
}

pub(crate) fn is_commit(entry: &Entry) -> bool
    ensures { result ≡ is_commit entry.now }
{
    matches!(entry, Entry::Commit { .. })
}
