//! The dump of a log.

ghost use Rattle.std.specs.Prelude.{◌≡◌, ◌++◌, ℕ, List, MatchResult, take};
ghost use Rattle.durable_log.specs.Logs.{IsCrashedLog};
ghost use Rattle.imap_connection.specs.Dumps.{IsDump};
ghost use Rattle.op_log.specs.Entries.{committed_entries, ops_of};
ghost use Rattle.op_log.specs.declared.entry.Entry.{Entry};
ghost use Rattle.log_dump.specs.EntryOrder.{AreInTurn};
ghost use Rattle.log_dump.specs.LogDumps.{IsLogDump, IsLogDumpFault, IsReadFault};
ghost use Rattle.log_dump.specs.LogDumps.{IsUndamagedLog};
ghost use Rattle.log_dump.specs.LogDumps.{dump_fault_of};
ghost use Rattle.log_dump.specs.Restoration.{IsEntriesFault};
ghost use Rattle.log_dump.specs.declared.fault.LogDumpFault.TheVariants.{NoMemory};

use crate::apply::{EntriesFault, restored_node};
use crate::fault::LogDumpFault;
use crate::lines::{octets_of_lines, rest_of_log};
use crc32c::Crc32c;
use imap_connection::{Node, write_dump};
use op_log::{Entry, LogFault, Recovered, is_damaged, recover};
use std::alloc::{AllocError, Global};

/// The dump of the replica whose log this is: of a replica with the name that the first line has,
/// which applied the operations of the committed batches in their order, and whose UIDs count from
/// 1. What a crash left after these is passed over.
///
/// `Unreadable` at the first line that is the text of no entry, if each line up to there has the
/// checksum of its text; else after the committed lines, if a later commit says that more had been
/// synced; else at octet 0, if the first line names no replica; else at the first committed line
/// that names another one, or whose operation can't be the next: it was applied already, or a cause
/// of it wasn't, or a counter has no number left for it. `NoMemory` if memory runs out.
///
/// Of a log that a crash left of a replica that wrote the entries `synced` and `unsynced`, of which
/// the first had been synced, it is the dump of a replica that applied all operations of `synced`,
/// and then those of whole batches of `unsynced`; the only fault is `NoMemory`.
pub fn dump_of_log(alloc: Global, log: &[u8]) -> Result<Vec<u8>, LogDumpFault>
    ensures dump { MatchResult result
        (λ text. IsLogDump log.now text.items) (IsLogDumpFault log.now) }
    ensures crash { (replica : ℕ) (synced unsynced : List Entry)
        → IsCrashedLog replica synced unsynced log.now
        → AreInTurn replica (synced ++ unsynced)
        → MatchResult result
        (λ text. (count : ℕ)
        × IsDump replica (ops_of (synced ++ committed_entries (take count unsynced))) text.items)
        (λ fault. fault ≡ NoMemory) }
{
    dump_or_fault(alloc, log)
}

fn dump_or_fault(alloc: Global, log: &[u8]) -> Result<Vec<u8>, LogDumpFault>
    ensures { MatchResult result
        (λ text. IsLogDump log.now text.items) (IsLogDumpFault log.now) }
{
    let entries = log_entries(alloc, log)?;
    let restored = restored_node(alloc, &entries);
    drop(entries);
    match restored {
        Ok(node) => node_dump(alloc, node),
        Err(fault) => Err(dump_fault_at(log, fault)),
    }
}

/// Why a log whose entries aren't applied has no dump.
fn dump_fault_at(log: &[u8], fault: EntriesFault) -> LogDumpFault
    ensures { (entries : List Entry) → IsUndamagedLog log.now entries
        → IsEntriesFault entries fault
        → IsLogDumpFault log.now result }
{
    match fault {
        EntriesFault::CannotFollow { place } => LogDumpFault::Unreadable {
            octets: octets_of_lines(log, place),
        },
        EntriesFault::NoMemory => LogDumpFault::NoMemory,
    }
}

/// The committed entries of a log that isn't damaged.
fn log_entries(alloc: Global, log: &[u8]) -> Result<Vec<Entry>, LogDumpFault>
    ensures { MatchResult result
        (λ entries. IsUndamagedLog log.now entries.items) (IsReadFault log.now) }
{
    let checksums = Crc32c::new();
    let found = match recover(alloc, &checksums, log) {
        Ok(found) => found,
        Err(fault) => return Err(dump_fault_of(fault)),
    };
    let Recovered { entries, octets } = found;
    if is_damaged(&checksums, octets as u64, rest_of_log(log, octets)) {
        drop(entries);
        return Err(LogDumpFault::Unreadable { octets });
    }
    Ok(entries)
}

/// Why a log that isn't read has no dump.
fn dump_fault_of(fault: LogFault) -> LogDumpFault
    ensures { result ≡ dump_fault_of fault }
{
    match fault {
        LogFault::Unsound { octets } => LogDumpFault::Unreadable { octets },
        LogFault::LaterFormat => LogDumpFault::Unreadable { octets: 0 },
        LogFault::NoMemory => LogDumpFault::NoMemory,
    }
}

/// The dump of a node; the only fault is `NoMemory`.
fn node_dump(alloc: Global, node: Node) -> Result<Vec<u8>, LogDumpFault>
    ensures { MatchResult result
        (λ text. IsDump node.state.start.replica node.state.applied text.items)
        (λ fault. fault ≡ NoMemory) }
{
    let mut text = Vec::new(alloc);
    let written = write_dump(alloc, &node, &mut text);
    drop(node);
    match written {
        Ok(()) => Ok(text),
        Err(AllocError) => {
            drop(text);
            Err(LogDumpFault::NoMemory)
        }
    }
}
