//! `MemoryDevice`: a device in memory, for tests. It shows that the contracts of `LogDevice` agree.

ghost use Rattle.std.specs.Prelude.{◌≡◌, ◌≤◌, ◌++◌, ℕ, List, OnOk, drop, min, take, true};
ghost use Rattle.std.specs.Prelude.{vec_len};
ghost use Rattle.durable_log.specs.Devices.{with_octets_at};

use crate::device::{DeviceFault, LogDevice};
use std::alloc::{AllocError, Global};

/// Octets in memory, of which the first were synced.
#[derive(Drop)]
pub struct MemoryDevice {
    octets: Vec<u8>,
    /// The number of first octets that were synced and not written since.
    synced: usize,
    /// The number of first octets that a sync syncs.
    certain: usize,
    ghost within: { synced ≤ vec_len octets },
}

impl MemoryDevice {
    /// A device with these octets, all of them synced.
    pub fn new(octets: Vec<u8>) -> MemoryDevice
        ensures octets { result.octets ≡ octets }
        ensures synced { result.synced ≡ vec_len octets }
        ensures certain { result.certain ≡ vec_len octets }
    {
        let synced = octets.len();
        MemoryDevice {
            octets,
            synced,
            certain: synced,
        }
    }
}

impl LogDevice for MemoryDevice {
    ghost state = { λ m. record {
      is_known = true;
      contents = m.octets.items;
      synced = take m.synced m.octets.items;
      certain = m.certain;
    } };

    fn read(&mut self, alloc: Global, place: usize, count: usize) -> Result<Vec<u8>, DeviceFault> {
        match octets_at(&self.octets, place, count).to_vec(alloc) {
            Ok(octets) => Ok(octets),
            Err(_) => Err(DeviceFault::NoMemory),
        }
    }

    fn write(&mut self, place: usize, octets: &[u8]) -> Result<(), DeviceFault> {
        self.synced = lesser(self.synced, place);
        if self.octets.len() < place {
            return Err(DeviceFault::Failed);
        }
        let Some(end) = place.checked_add(octets.len()) else {
            return Err(DeviceFault::NoSpace);
        };
        match write_at(&mut self.octets, place, octets) {
            Ok(()) => {
                self.certain = certain_after(self.certain, place, end);
                Ok(())
            }
            Err(_) => Err(DeviceFault::NoMemory),
        }
    }

    fn sync(&mut self) -> Result<(), DeviceFault> {
        self.synced = lesser(self.certain, self.octets.len());
        Ok(())
    }

    fn cut(&mut self, octets: usize) -> Result<(), DeviceFault> {
        self.synced = lesser(self.synced, octets);
        self.octets.truncate(octets);
        Ok(())
    }
}

/// The octets from a place on, at most `count`.
fn octets_at(octets: &[u8], place: usize, count: usize) -> &[u8]
    ensures { result.now ≡ take count (drop place octets.now) }
{
    let rest = &octets[lesser(place, octets.len())..];
    &rest[..lesser(count, rest.len())]
}

fn lesser(one: usize, other: usize) -> usize
    ensures { result ≡ min one other }
{
    if one < other { one } else { other }
}

/// How many first octets are certain after those from a place to an end were written.
fn certain_after(certain: usize, place: usize, end: usize) -> usize
    ensures stays { certain ≤ result }
    ensures raised { place ≤ certain → end ≤ result }
{
    if place <= certain && certain < end {
        end
    } else {
        certain
    }
}

/// Writes octets at a place, over those that are there. After an `Err` those before the place are
/// unchanged.
fn write_at(contents: &mut Vec<u8>, place: usize, octets: &[u8]) -> Result<(), AllocError>
    requires { place ≤ vec_len contents.old }
    ensures ok { OnOk result
        (contents.new.items ≡ with_octets_at place octets.now contents.old.items) }
    ensures front { (more : List ℕ)
        × (contents.new.items ≡ take place contents.old.items ++ more) }
    ensures within { place ≤ vec_len contents.new }
{
    let tail = contents.split_off(place)?;
    contents.extend_from_slice(octets)?;
    if octets.len() < tail.len() {
        contents.extend_from_slice(&tail[octets.len()..])?;
    }
    Ok(())
}
