//! `FullDevice`: octets in memory of which there are at most so many, and whose calls fail after so
//! many.

ghost use Rattle.std.specs.Prelude.{[], false};

use durable_log::{DeviceFault, LogDevice};
use std::alloc::Global;

/// A device with room for some octets, some of whose calls succeed.
#[derive(Drop)]
pub struct FullDevice {
    /// What it contains.
    pub octets: Vec<u8>,
    /// The number of octets that it may contain.
    pub limit: usize,
    /// The number of writes, syncs and cuts that succeed before one fails.
    pub calls: u32,
}

impl FullDevice {
    /// An empty device.
    pub fn new(alloc: Global, limit: usize, calls: u32) -> FullDevice {
        FullDevice {
            octets: Vec::new(alloc),
            limit,
            calls,
        }
    }

    /// Counts a call; a fault if it is to fail.
    fn call(&mut self) -> Result<(), DeviceFault> {
        if self.calls == 0 {
            return Err(DeviceFault::Failed);
        }
        self.calls -= 1;
        Ok(())
    }

    /// Writes an octet at a place; a fault if there is no space for it.
    fn put(&mut self, place: usize, octet: u8) -> Result<(), DeviceFault> {
        if place < self.octets.len() {
            self.octets[place] = octet;
            return Ok(());
        }
        if self.octets.len() >= self.limit {
            return Err(DeviceFault::NoSpace);
        }
        match self.octets.push(octet) {
            Ok(()) => Ok(()),
            Err(_) => Err(DeviceFault::NoMemory),
        }
    }
}

impl LogDevice for FullDevice {
    ghost state = { λ _. record {
      is_known = false;
      contents = [];
      synced = [];
      certain = 0;
    } };

    fn read(&mut self, alloc: Global, place: usize, count: usize) -> Result<Vec<u8>, DeviceFault> {
        let mut octets = Vec::new(alloc);
        for octet in self.octets.iter().skip(place).take(count) {
            let Ok(()) = octets.push(*octet) else {
                return Err(DeviceFault::NoMemory);
            };
        }
        Ok(octets)
    }

    fn write(&mut self, place: usize, octets: &[u8]) -> Result<(), DeviceFault> {
        self.call()?;
        let mut at = place;
        for octet in octets {
            self.put(at, *octet)?;
            at = at.saturating_add(1);
        }
        Ok(())
    }

    fn sync(&mut self) -> Result<(), DeviceFault> {
        self.call()
    }

    fn cut(&mut self, octets: usize) -> Result<(), DeviceFault> {
        self.call()?;
        self.octets.truncate(octets);
        Ok(())
    }
}
