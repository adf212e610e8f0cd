//! `DurableLog`: a log that is written in batches, and synced.

ghost use Rattle.std.specs.Prelude.{◌≡◌, ◌≤◌, ◌+◌, ◌⊎◌, ◌++◌, ℕ, List, Err, IfErr, IfOk, OnErr};
ghost use Rattle.std.specs.Prelude.{OnOk, false, if◌then◌else◌, length, take, true};
ghost use Rattle.op_log.specs.Crashes.{IsPrefixOf};
ghost use Rattle.op_log.specs.Entries.{lines_of};
ghost use Rattle.op_log.specs.declared.entry.Entry.{Entry};
ghost use Rattle.durable_log.specs.Logs.{HasEntries, IsLastCommitCertain, IsRecoveredLog};
ghost use Rattle.durable_log.specs.Logs.{batch_entries, first_entries, missing_commit};
ghost use Rattle.durable_log.specs.declared.fault.StoreFault.TheVariants.{Failed, NoMemory};
ghost use Rattle.durable_log.specs.declared.fault.StoreFault.TheVariants.{NoSpace};

use crate::device::{DeviceFault, LogDevice};
use crate::fault::StoreFault;
use crate::layout::LogLayout;
use crate::lines::{push_batch, push_first_batch, zeros};
use crate::recovered_log::RecoveredLog;
use crc32c::Crc32c;
use crdt_ops::SoundOp;
use std::alloc::Global;
use tags_clocks::ReplicaId;

/// A log on a device. After a fault of the device it does nothing any more.
#[derive(Drop)]
pub struct DurableLog<D: LogDevice> {
    device: D,
    checksums: Crc32c,
    /// The number of octets of the lines that were written.
    written: usize,
    /// The number of octets of the lines that were synced.
    synced: usize,
    /// The number of zeros that are known to follow the lines that were written.
    room: usize,
    /// The number of operations that were written.
    op_count: u64,
    /// The number of operations that were synced.
    synced_count: u64,
    /// The number of operations of which the last commit says, at least, that they had been synced.
    said_count: u64,
    failed: bool,
}

impl<D: LogDevice + Drop> DurableLog<D> {
    /// Makes a log of a replica without operations, whatever the device contained, and syncs it.
    /// `Failed` if the device fails, also for want of space.
    pub fn create(alloc: Global, device: D, replica: ReplicaId) -> Result<DurableLog<D>, StoreFault>
        ensures entries { (D.state device).is_known ≡ true → IfOk result
            (λ log. HasEntries D.state replica log (first_entries replica)
            (first_entries replica)) }
        ensures counts { IfOk result (λ log. (log.op_count ≡ 0) × (log.synced_count ≡ 0)
            × (log.room ≡ 0) × (log.failed ≡ false)) }
        ensures fault { IfErr result (λ fault. (fault ≡ NoMemory) ⊎ (fault ≡ Failed)) }
    {
        let mut device = device;
        let checksums = Crc32c::new();
        let mut lines = Vec::new(alloc);
        let Ok(()) = push_first_batch(alloc, &checksums, replica, &mut lines) else {
            return Err(StoreFault::NoMemory);
        };
        let Ok(()) = device.cut(0) else {
            return Err(StoreFault::Failed);
        };
        let Ok(()) = device.write(0, &lines) else {
            return Err(StoreFault::Failed);
        };
        let Ok(()) = device.sync() else {
            return Err(StoreFault::Failed);
        };
        let octets = lines.len();
        Ok(DurableLog {
            device,
            checksums,
            written: octets,
            synced: octets,
            room: 0,
            op_count: 0,
            synced_count: 0,
            said_count: 0,
            failed: false,
        })
    }

    /// Opens a log: writes again what may not have reached the device, cuts off what follows the
    /// committed lines, unless only zeros do, and syncs that, before anything else is written.
    /// `Failed` if the device fails, also for want of space.
    pub fn open(recovered: RecoveredLog<D>) -> Result<DurableLog<D>, StoreFault>
        ensures entries { (replica : ℕ) (entries : List Entry)
            → IsRecoveredLog D.state replica recovered entries
            → IsLastCommitCertain entries (D.state recovered.device).certain
            → IfOk result (λ log. HasEntries D.state replica log entries entries) }
        ensures counts { IfOk result (λ log. (log.op_count ≡ recovered.op_count)
            × (log.synced_count ≡ recovered.op_count) × (log.room ≡ recovered.layout.room)
            × (log.failed ≡ false)) }
        ensures fault { IfErr result (λ fault. fault ≡ Failed) }
    {
        let RecoveredLog {
            device,
            checksums,
            layout,
            op_count,
        } = recovered;
        let LogLayout {
            octets,
            is_padded,
            room,
            place,
            unsynced,
        } = layout;
        let mut device = device;
        let Ok(()) = device.write(place, &unsynced) else {
            return Err(StoreFault::Failed);
        };
        let Ok(()) = cut_torn_end(&mut device, octets, is_padded) else {
            return Err(StoreFault::Failed);
        };
        let Ok(()) = device.sync() else {
            return Err(StoreFault::Failed);
        };
        Ok(DurableLog {
            device,
            checksums,
            written: octets,
            synced: octets,
            room,
            op_count,
            synced_count: op_count,
            said_count: 0,
            failed: false,
        })
    }

    /// The device, to which this log writes nothing more.
    pub fn into_device(self) -> D
        ensures { result ≡ self.device }
    {
        let DurableLog {
            device,
            checksums: _,
            written: _,
            synced: _,
            room: _,
            op_count: _,
            synced_count: _,
            said_count: _,
            failed: _,
        } = self;
        device
    }
}

/// Cuts off what follows the first `octets` octets, unless they are only zeros.
fn cut_torn_end<D: LogDevice>(
    device: &mut D,
    octets: usize,
    is_padded: bool,
) -> Result<(), DeviceFault>
    ensures known { (D.state device.new).is_known ≡ (D.state device.old).is_known }
    ensures contents { (D.state device.old).is_known ≡ true
        → octets ≤ length (D.state device.old).contents
        → OnOk result ((D.state device.new).contents
        ≡ (if is_padded then (D.state device.old).contents
        else take octets (D.state device.old).contents)) }
    ensures certain { (D.state device.old).is_known ≡ true
        → (D.state device.old).certain ≤ (D.state device.new).certain }
{
    if is_padded {
        return Ok(());
    }
    device.cut(octets)
}

impl<D: LogDevice> DurableLog<D> {
    /// The number of zeros that are known to follow the written lines: the octets of further
    /// batches that take no new space.
    pub fn room(&self) -> usize
        ensures { result ≡ self.now.room }
    {
        self.room
    }

    /// Whether the device failed. The log does nothing any more then.
    pub fn has_failed(&self) -> bool
        ensures { result ≡ self.now.failed }
    {
        self.failed
    }

    /// The number of operations that were written.
    pub fn op_count(&self) -> u64
        ensures { result ≡ self.now.op_count }
    {
        self.op_count
    }

    /// The number of operations that were synced: the first ones, which each crash leaves.
    pub fn synced_count(&self) -> u64
        ensures { result ≡ self.now.synced_count }
    {
        self.synced_count
    }

    /// Writes a batch: operations, which the replica applied after those that were written, and
    /// their commit, of some 20 octets. What fits the room takes no new space. `NoMemory` leaves
    /// the log as it was; after `Failed`, also for want of space, it does nothing any more, and
    /// what was synced before still is.
    pub fn append(&mut self, alloc: Global, ops: &[SoundOp]) -> Result<(), StoreFault>
        ensures ok { (replica : ℕ) (synced_entries entries : List Entry)
            → HasEntries D.state replica self.old synced_entries entries
            → OnOk result (HasEntries D.state replica self.new synced_entries
            (entries ++ batch_entries ops.now self.old.synced)) }
        ensures counts { OnOk result ((self.new.op_count ≡ self.old.op_count + length ops.now)
            × (self.new.synced_count ≡ self.old.synced_count)
            × (self.new.said_count ≡ self.old.synced_count)) }
        ensures fault { IfErr result
            (λ fault. ((fault ≡ NoMemory) × (self.new ≡ self.old))
            ⊎ ((fault ≡ Failed) × (self.new.failed ≡ true))) }
        ensures still { (replica : ℕ) (synced_entries entries : List Entry)
            → HasEntries D.state replica self.old synced_entries entries
            → OnErr result
            (IsPrefixOf (lines_of synced_entries) (D.state self.new.device).synced) }
        ensures stopped { self.old.failed ≡ true
            → (result ≡ Err Failed) × (self.new ≡ self.old) }
    {
        if self.failed {
            return Err(StoreFault::Failed);
        }
        let mut batch = Vec::new(alloc);
        let Ok(()) = push_batch(alloc, &self.checksums, ops, self.synced as u64, &mut batch) else {
            return Err(StoreFault::NoMemory);
        };
        let Some(written) = self.written.checked_add(batch.len()) else {
            return Err(StoreFault::NoMemory);
        };
        let Some(op_count) = self.op_count.checked_add(ops.len() as u64) else {
            return Err(StoreFault::NoMemory);
        };
        self.failed = true;
        let Ok(()) = self.device.write(self.written, &batch) else {
            return Err(StoreFault::Failed);
        };
        self.room = self.room.saturating_sub(batch.len());
        self.written = written;
        self.op_count = op_count;
        self.said_count = self.synced_count;
        self.failed = false;
        Ok(())
    }

    /// Writes a batch without operations if the last commit doesn't say of all operations that were
    /// synced that they were: a damaged line of theirs is then told from an unfinished end. Faults
    /// are those of [`DurableLog::append`].
    pub fn commit_if_behind(&mut self, alloc: Global) -> Result<(), StoreFault>
        ensures ok { (replica : ℕ) (synced_entries entries : List Entry)
            → HasEntries D.state replica self.old synced_entries entries
            → OnOk result (HasEntries D.state replica self.new synced_entries (entries
            ++ missing_commit self.old.said_count self.old.synced_count self.old.synced)) }
        ensures said { OnOk result (self.old.synced_count ≤ self.new.said_count) }
        ensures counts { OnOk result ((self.new.op_count ≡ self.old.op_count)
            × (self.new.synced_count ≡ self.old.synced_count)) }
        ensures fault { IfErr result
            (λ fault. ((fault ≡ NoMemory) × (self.new ≡ self.old))
            ⊎ ((fault ≡ Failed) × (self.new.failed ≡ true))) }
        ensures still { (replica : ℕ) (synced_entries entries : List Entry)
            → HasEntries D.state replica self.old synced_entries entries
            → OnErr result
            (IsPrefixOf (lines_of synced_entries) (D.state self.new.device).synced) }
        ensures stopped { self.old.failed ≡ true
            → (result ≡ Err Failed) × (self.new ≡ self.old) }
    {
        if self.failed {
            return Err(StoreFault::Failed);
        }
        if self.synced_count <= self.said_count {
            return Ok(());
        }
        self.append(alloc, &[])
    }

    /// Writes `octets` zeros after those that are known to follow the lines, so that later batches
    /// take no new space. It takes memory for as many octets: call it in steps. `NoMemory` leaves
    /// the log as it was, and so does `NoSpace`, after which the device has as many zeros there as
    /// before; after `Failed` the log does nothing any more, and what was synced before still is.
    pub fn grow(&mut self, alloc: Global, octets: usize) -> Result<(), StoreFault>
        ensures entries { (replica : ℕ) (synced_entries entries : List Entry)
            → HasEntries D.state replica self.old synced_entries entries
            → self.new.failed ≡ false
            → HasEntries D.state replica self.new synced_entries entries }
        ensures ok { OnOk result (self.new
            ≡ record self.old { device = self.new.device; room = self.old.room + octets }) }
        ensures fault { IfErr result
            (λ fault. ((fault ≡ NoMemory) × (self.new ≡ self.old))
            ⊎ ((fault ≡ NoSpace) × (self.new ≡ record self.old { device = self.new.device }))
            ⊎ ((fault ≡ Failed) × (self.new.failed ≡ true))) }
        ensures still { (replica : ℕ) (synced_entries entries : List Entry)
            → HasEntries D.state replica self.old synced_entries entries
            → IsPrefixOf (lines_of synced_entries) (D.state self.new.device).synced }
        ensures stopped { self.old.failed ≡ true
            → (result ≡ Err Failed) × (self.new ≡ self.old) }
    {
        if self.failed {
            return Err(StoreFault::Failed);
        }
        let Some(place) = self.written.checked_add(self.room) else {
            return Err(StoreFault::NoSpace);
        };
        let Some(room) = self.room.checked_add(octets) else {
            return Err(StoreFault::NoSpace);
        };
        let Ok(zeros) = zeros(alloc, octets) else {
            return Err(StoreFault::NoMemory);
        };
        match self.device.write(place, &zeros) {
            Ok(()) => {
                self.room = room;
                Ok(())
            }
            Err(DeviceFault::NoSpace) => match self.device.cut(place) {
                Ok(()) => Err(StoreFault::NoSpace),
                Err(_) => {
                    self.failed = true;
                    Err(StoreFault::Failed)
                }
            },
            Err(_) => {
                self.failed = true;
                Err(StoreFault::Failed)
            }
        }
    }

    /// Syncs what was written: from then on each crash leaves it. After `Failed` what was synced
    /// before still is, and the device isn't asked again: it may have forgotten what it didn't
    /// sync.
    pub fn sync(&mut self) -> Result<(), StoreFault>
        ensures ok { (replica : ℕ) (synced_entries entries : List Entry)
            → HasEntries D.state replica self.old synced_entries entries
            → OnOk result (HasEntries D.state replica self.new entries entries) }
        ensures counts { OnOk result (self.new ≡ record self.old {
          device = self.new.device;
          synced = self.old.written;
          synced_count = self.old.op_count;
        }) }
        ensures fault { IfErr result (λ fault. (fault ≡ Failed) × (self.new.failed ≡ true)) }
        ensures still { (replica : ℕ) (synced_entries entries : List Entry)
            → HasEntries D.state replica self.old synced_entries entries
            → OnErr result
            (IsPrefixOf (lines_of synced_entries) (D.state self.new.device).synced) }
        ensures stopped { self.old.failed ≡ true
            → (result ≡ Err Failed) × (self.new ≡ self.old) }
        ensures contents { (D.state self.old.device).is_known ≡ true
            → (D.state self.new.device).contents ≡ (D.state self.old.device).contents }
    {
        if self.failed {
            return Err(StoreFault::Failed);
        }
        self.failed = true;
        let Ok(()) = self.device.sync() else {
            return Err(StoreFault::Failed);
        };
        self.synced = self.written;
        self.synced_count = self.op_count;
        self.failed = false;
        Ok(())
    }
}
