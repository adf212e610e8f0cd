//! The octets of a log, read in pieces.

ghost use Rattle.std.specs.Prelude.{◌≡◌, ◌⊎◌, ◌<◌, ℕ, List, IfErr, IfOk, IfSome, MatchOption};
ghost use Rattle.std.specs.Prelude.{drop, take, true};
ghost use Rattle.op_log.specs.Readers.{AreContents, HasRead};
ghost use Rattle.op_log.specs.Recovery.{IsLogFault};
ghost use Rattle.op_log.specs.declared.entry.Entry.{Entry};
ghost use Rattle.durable_log.specs.Logs.{IsStoreFault};
ghost use Rattle.durable_log.specs.declared.fault.StoreFault.TheVariants.{Failed, NoMemory};

use crate::device::{DeviceFault, LogDevice};
use crate::fault::StoreFault;
use crc32c::Crc32c;
use op_log::{LogContents, LogFault, LogReader};
use std::alloc::Global;
use tags_clocks::ReplicaId;

/// The number of octets that are read at once.
const PIECE_OCTETS: usize = 0x10_0000;

/// What is read of a replica's log.
pub fn read_contents<D: LogDevice>(
    alloc: Global,
    device: &mut D,
    checksums: &Crc32c,
    replica: ReplicaId,
) -> Result<LogContents, StoreFault>
    ensures read { (D.state device.old).is_known ≡ true → IfOk result
        (λ found. (entries : List Entry)
        × AreContents replica (D.state device.old).contents entries found) }
    ensures unchanged { D.state device.new ≡ D.state device.old }
    ensures fault { (D.state device.old).is_known ≡ true
        → IfErr result (IsStoreFault replica (D.state device.old).contents) }
{
    let mut reader = LogReader::new(alloc, replica);
    let mut place = 0;
    loop {
        let next = match feed_piece(alloc, device, checksums, place, &mut reader) {
            Ok(next) => next,
            Err(fault) => return Err(fault),
        };
        match next {
            Some(end) => place = end,
            None => return Ok(reader.finish()),
        }
    }
}

/// Feeds a reader the octets at a place. The place after them, or `None` if they are the last.
fn feed_piece<D: LogDevice>(
    alloc: Global,
    device: &mut D,
    checksums: &Crc32c,
    place: usize,
    reader: &mut LogReader,
) -> Result<Option<usize>, StoreFault>
    ensures unchanged { D.state device.new ≡ D.state device.old }
    ensures later { IfOk result (λ next. IfSome next (λ end. place < end)) }
    ensures read { (replica : ℕ) → (D.state device.old).is_known ≡ true
        → HasRead replica (take place (D.state device.old).contents) reader.old
        → IfOk result (λ next. MatchOption next
        (HasRead replica (D.state device.old).contents reader.new)
        (λ end. HasRead replica (take end (D.state device.old).contents) reader.new)) }
    ensures fault { (replica : ℕ) → (D.state device.old).is_known ≡ true
        → HasRead replica (take place (D.state device.old).contents) reader.old
        → IfErr result (IsStoreFault replica (D.state device.old).contents) }
{
    let piece = match read_octets(alloc, device, place, PIECE_OCTETS) {
        Ok(piece) => piece,
        Err(fault) => return Err(fault),
    };
    if let Err(fault) = reader.feed(alloc, checksums, &piece) {
        return Err(store_fault_of(fault));
    }
    if piece.len() < PIECE_OCTETS {
        return Ok(None);
    }
    match place.checked_add(piece.len()) {
        Some(end) => Ok(Some(end)),
        None => Err(StoreFault::Failed),
    }
}

/// The octets of a device from a place on, at most `count`.
pub fn read_octets<D: LogDevice>(
    alloc: Global,
    device: &mut D,
    place: usize,
    count: usize,
) -> Result<Vec<u8>, StoreFault>
    ensures read { (D.state device.old).is_known ≡ true → IfOk result
        (λ octets. octets.items ≡ take count (drop place (D.state device.old).contents)) }
    ensures unchanged { D.state device.new ≡ D.state device.old }
    ensures fault { IfErr result (λ fault. (fault ≡ NoMemory) ⊎ (fault ≡ Failed)) }
{
    match device.read(alloc, place, count) {
        Ok(octets) => Ok(octets),
        Err(DeviceFault::NoMemory) => Err(StoreFault::NoMemory),
        Err(_) => Err(StoreFault::Failed),
    }
}

fn store_fault_of(fault: LogFault) -> StoreFault
    ensures { (replica : ℕ) (log : List ℕ) → IsLogFault log fault
        → IsStoreFault replica log result }
{
    match fault {
        LogFault::Unsound { octets } => StoreFault::Unsound { octets },
        LogFault::LaterFormat => StoreFault::LaterFormat,
        LogFault::NoMemory => StoreFault::NoMemory,
    }
}
