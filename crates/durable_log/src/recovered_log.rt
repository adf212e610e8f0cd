//! `RecoveredLog`: a log that was read and tested, before anything is written.

ghost use Rattle.std.specs.Prelude.{◌≡◌, ◌⊎◌, ◌++◌, ℕ, List, IfErr, IfOk, MatchResult, length};
ghost use Rattle.std.specs.Prelude.{take, true};
ghost use Rattle.crdt_ops.specs.Ops.{clock_of, id_of};
ghost use Rattle.merge_laws.specs.Orders.{IsCausal};
ghost use Rattle.op_log.specs.Entries.{committed_entries, ops_of};
ghost use Rattle.op_log.specs.declared.entry.Entry.{Entry};
ghost use Rattle.durable_log.specs.Logs.{HasOps, IsCrashedLog, IsRecoveredLog, IsStoreFault};
ghost use Rattle.durable_log.specs.declared.fault.StoreFault.TheVariants.{Failed, NoMemory};

use crate::device::LogDevice;
use crate::fault::StoreFault;
use crate::layout::{LogLayout, read_layout};
use crate::recovery::read_contents;
use crc32c::Crc32c;
use crdt_ops::SoundOp;
use op_log::LogContents;
use std::alloc::Global;
use tags_clocks::ReplicaId;

/// A log on a device that was read and tested, and to which nothing was written since.
#[derive(Drop)]
pub struct RecoveredLog<D: LogDevice> {
    pub(crate) device: D,
    pub(crate) checksums: Crc32c,
    pub(crate) layout: LogLayout,
    /// The number of operations in the committed lines.
    pub(crate) op_count: u64,
}

impl<D: LogDevice + Drop> RecoveredLog<D> {
    /// Reads the log of a replica, and returns its operations too, those of the committed entries
    /// in their order; nothing is written.
    ///
    /// Of a log that a crash left, these are the operations of all entries that had been synced,
    /// and then of whole batches of what was being written, in order; the only faults are
    /// `NoMemory` and `Failed`. Of any other log, `Unsound` and `LaterFormat` are those of
    /// [`op_log::recover`]; then `Damaged`, if a commit after the committed lines says that more
    /// had been synced, or the first line is missing; then `OtherReplica`. Never `NoSpace`.
    pub fn read(
        alloc: Global,
        device: D,
        replica: ReplicaId,
    ) -> Result<(RecoveredLog<D>, Vec<SoundOp>), StoreFault>
        ensures recovered { (D.state device).is_known ≡ true
            → IfOk result (λ found. HasOps D.state replica found.0 found.1.items) }
        ensures unchanged { IfOk result (λ found. D.state found.0.device ≡ D.state device) }
        ensures counted { IfOk result (λ found. found.0.op_count ≡ length found.1.items) }
        ensures fault { (D.state device).is_known ≡ true
            → IfErr result (IsStoreFault replica (D.state device).contents) }
        ensures crash { (synced unsynced : List Entry) → (D.state device).is_known ≡ true
            → IsCrashedLog replica synced unsynced (D.state device).contents
            → MatchResult result
            (λ found. (count : ℕ)
            × IsRecoveredLog D.state replica found.0
            (synced ++ committed_entries (take count unsynced))
            × (found.1.items ≡ ops_of (synced ++ committed_entries (take count unsynced))))
            (λ fault. (fault ≡ NoMemory) ⊎ (fault ≡ Failed)) }
        ensures causal { (synced unsynced : List Entry) → (D.state device).is_known ≡ true
            → IsCrashedLog replica synced unsynced (D.state device).contents
            → IsCausal id_of clock_of (ops_of (synced ++ unsynced))
            → IfOk result (λ found. IsCausal id_of clock_of found.1.items) }
    {
        read_log(alloc, device, replica)
    }
}

fn read_log<D: LogDevice + Drop>(
    alloc: Global,
    device: D,
    replica: ReplicaId,
) -> Result<(RecoveredLog<D>, Vec<SoundOp>), StoreFault>
    ensures recovered { (D.state device).is_known ≡ true
        → IfOk result (λ found. HasOps D.state replica found.0 found.1.items) }
    ensures unchanged { IfOk result (λ found. D.state found.0.device ≡ D.state device) }
    ensures counted { IfOk result (λ found. found.0.op_count ≡ length found.1.items) }
    ensures fault { (D.state device).is_known ≡ true
        → IfErr result (IsStoreFault replica (D.state device).contents) }
{
    let mut device = device;
    let checksums = Crc32c::new();
    let found = match read_contents(alloc, &mut device, &checksums, replica) {
        Ok(found) => found,
        Err(fault) => return Err(fault),
    };
    match read_layout(alloc, &mut device, &checksums, &found) {
        Ok(layout) => Ok(with_ops(device, checksums, layout, found)),
        Err(fault) => {
            drop(found);
            Err(fault)
        }
    }
}

/// The recovered log with this layout, of which this was read, and its operations.
fn with_ops<D: LogDevice + Drop>(
    device: D,
    checksums: Crc32c,
    layout: LogLayout,
    found: LogContents,
) -> (RecoveredLog<D>, Vec<SoundOp>)
    ensures device { result.0.device ≡ device }
    ensures layout { result.0.layout ≡ layout }
    ensures op_count { result.0.op_count ≡ length result.1.items }
    ensures ops { result.1.items ≡ found.ops.items }
{
    let LogContents {
        ops,
        octets: _,
        begins: _,
        other: _,
        synced: _,
        kept: _,
        start: _,
    } = found;
    let op_count = ops.len() as u64;
    (
        RecoveredLog {
            device,
            checksums,
            layout,
            op_count,
        },
        ops,
    )
}
