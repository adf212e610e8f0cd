//! `LogLayout`: where the lines of a log end, and what follows them.

ghost use Rattle.std.specs.Prelude.{◌≡◌, ◌⊎◌, ◌≤◌, ◌-◌, ℕ, List, IfErr, IfOk, None, Some, drop};
ghost use Rattle.std.specs.Prelude.{if◌then◌else◌, length, min, take, true};
ghost use Rattle.std.specs.Option.{option_map};
ghost use Rattle.crdt_ops.specs.Reading.{parts_at};
ghost use Rattle.op_log.specs.Damage.{has_commit_beyond};
ghost use Rattle.op_log.specs.Readers.{AreContents};
ghost use Rattle.op_log.specs.declared.entry.Entry.{Entry};
ghost use Rattle.durable_log.specs.Devices.{are_zeros};
ghost use Rattle.durable_log.specs.Logs.{IsLayout, IsStoreFault};
ghost use Rattle.durable_log.specs.declared.fault.StoreFault.TheVariants.{Damaged, Failed};
ghost use Rattle.durable_log.specs.declared.fault.StoreFault.TheVariants.{NoMemory, OtherReplica};

use crate::device::LogDevice;
use crate::fault::StoreFault;
use crate::recovery::read_octets;
use crc32c::Crc32c;
use op_log::{LogContents, is_damaged, octets_from};
use std::alloc::Global;

/// Where the committed lines of a log end, and what follows them.
#[derive(Drop)]
pub struct LogLayout {
    /// The number of octets of the committed lines.
    pub(crate) octets: usize,
    /// Whether only zeros follow these.
    pub(crate) is_padded: bool,
    /// The number of zeros that follow these once anything else is cut off.
    pub(crate) room: usize,
    /// The place from which what was written may not have reached the device.
    pub(crate) place: usize,
    /// The octets from there to the end of the committed lines.
    pub(crate) unsynced: Vec<u8>,
}

/// The layout of a log of which this was read, unless it is damaged or another replica's.
pub fn read_layout<D: LogDevice>(
    alloc: Global,
    device: &mut D,
    checksums: &Crc32c,
    found: &LogContents,
) -> Result<LogLayout, StoreFault>
    ensures unchanged { D.state device.new ≡ D.state device.old }
    ensures layout { (replica : ℕ) (entries : List Entry)
        → (D.state device.old).is_known ≡ true
        → AreContents replica (D.state device.old).contents entries found.now
        → IfOk result (IsLayout replica (D.state device.old).contents entries) }
    ensures fault { (replica : ℕ) (entries : List Entry)
        → (D.state device.old).is_known ≡ true
        → AreContents replica (D.state device.old).contents entries found.now
        → IfErr result (IsStoreFault replica (D.state device.old).contents) }
{
    let octets = found.octets;
    let Some(rest) = octets_from(&found.kept, found.start, octets) else {
        return Err(StoreFault::Failed);
    };
    if let Some(fault) = contents_fault(checksums, found, rest) {
        return Err(fault);
    }
    let place = lesser(found.synced, octets);
    let unsynced = match unsynced_octets(alloc, device, found, place) {
        Ok(unsynced) => unsynced,
        Err(fault) => return Err(fault),
    };
    let is_padded = are_zeros(rest);
    let room = room_after(rest, is_padded);
    Ok(LogLayout {
        octets,
        is_padded,
        room,
        place,
        unsynced,
    })
}

/// How many zeros follow the committed lines once all else is cut off, if `rest` follows them.
fn room_after(rest: &[u8], is_padded: bool) -> usize
    ensures { result ≡ (if is_padded then length rest.now else 0) }
{
    if is_padded { rest.len() } else { 0 }
}

/// The fault, if any, of a log of which this was read, and whose committed lines `rest` follows.
fn contents_fault(checksums: &Crc32c, found: &LogContents, rest: &[u8]) -> Option<StoreFault>
    ensures { result ≡ (if has_commit_beyond found.now.octets (parts_at 10 rest.now)
        then Some (Damaged found.now.octets) else (if found.now.begins
        then option_map OtherReplica found.now.other else Some (Damaged 0))) }
{
    let octets = found.octets;
    if is_damaged(checksums, octets as u64, rest) {
        return Some(StoreFault::Damaged { octets });
    }
    if !found.begins {
        return Some(StoreFault::Damaged { octets: 0 });
    }
    match found.other {
        Some(replica) => Some(StoreFault::OtherReplica { replica }),
        None => None,
    }
}

/// The octets of the committed lines from a place on. They are read again only if an earlier commit
/// said that they had been synced: others may be on the device no more.
fn unsynced_octets<D: LogDevice>(
    alloc: Global,
    device: &mut D,
    found: &LogContents,
    place: usize,
) -> Result<Vec<u8>, StoreFault>
    requires { place ≤ found.now.octets }
    ensures unchanged { D.state device.new ≡ D.state device.old }
    ensures octets { (replica : ℕ) (entries : List Entry)
        → (D.state device.old).is_known ≡ true
        → AreContents replica (D.state device.old).contents entries found.now
        → IfOk result (λ unsynced. unsynced.items
        ≡ take (found.now.octets - place) (drop place (D.state device.old).contents)) }
    ensures fault { IfErr result (λ fault. (fault ≡ NoMemory) ⊎ (fault ≡ Failed)) }
{
    let count = found.octets - place;
    match octets_from(&found.kept, found.start, place) {
        Some(octets) => copy_first(alloc, octets, count),
        None => read_octets(alloc, device, place, count),
    }
}

/// A copy of the first octets, at most `count`.
fn copy_first(alloc: Global, octets: &[u8], count: usize) -> Result<Vec<u8>, StoreFault>
    ensures octets { IfOk result (λ first. first.items ≡ take count octets.now) }
    ensures fault { IfErr result (λ fault. fault ≡ NoMemory) }
{
    match octets[..lesser(count as u64, octets.len())].to_vec(alloc) {
        Ok(first) => Ok(first),
        Err(_) => Err(StoreFault::NoMemory),
    }
}

/// Whether all octets are zero.
fn are_zeros(octets: &[u8]) -> bool
    ensures { result ≡ are_zeros octets.now }
{
    octets.iter().all(|octet| *octet == 0)
}

fn lesser(synced: u64, octets: usize) -> usize
    ensures { result ≡ min synced octets }
{
    if synced < octets as u64 {
        synced as usize
    } else {
        octets
    }
}
