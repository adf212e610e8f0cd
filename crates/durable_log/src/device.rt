//! `LogDevice`: where a log is stored.

ghost use Rattle.std.specs.Prelude.{◌≡◌, ◌≤◌, ◌+◌, drop, length, take, true, IfOk, OnErr};
ghost use Rattle.std.specs.Prelude.{OnOk};
ghost use Rattle.op_log.specs.Crashes.{IsPrefixOf};
ghost use Rattle.durable_log.specs.Devices.{DeviceState, with_octets_at};

use std::alloc::Global;
use thiserror::Error;

/// Why a device didn't do what it was asked.
#[derive(Clone, Copy, Debug, PartialEq, Eq, Error)]
pub enum DeviceFault {
    /// Memory ran out.
    #[error("no memory")]
    NoMemory,
    /// The device has no space for more octets.
    #[error("no space")]
    NoSpace,
    /// The device failed.
    #[error("the device failed")]
    Failed,
}

/// Where a log is stored. Zeros may follow the log, so that later lines need no further space.
///
/// These contracts say what a device contains if its `is_known` is true. It is false of a file,
/// about which no contract of the library says anything: of a file they are trusted.
pub trait LogDevice {
    /// What contracts see of the device.
    ///
    /// A crash, also one during a call, leaves its octets `synced` before the call or after it, and
    /// any octets after these. Its number `certain` is that of the first octets which are on the
    /// device, or will be after the next sync. A restart leaves only those certain that had been
    /// synced: the system may return others that it never wrote to the device, and that no later
    /// sync writes. Octets that are written again are certain.
    ghost state: { Self → DeviceState };

    /// The octets from a place on, at most `count`; fewer only if the device has no more there.
    fn read(&mut self, alloc: Global, place: usize, count: usize) -> Result<Vec<u8>, DeviceFault>
        ensures read { (state self.old).is_known ≡ true → IfOk result
            (λ octets. octets.items ≡ take count (drop place (state self.old).contents)) }
        ensures unchanged { state self.new ≡ state self.old };

    /// Writes octets at a place, over those that are there. After an `Err` some may be written, and
    /// those before the place are unchanged.
    fn write(&mut self, place: usize, octets: &[u8]) -> Result<(), DeviceFault>
        ensures known { (state self.new).is_known ≡ (state self.old).is_known }
        ensures written { (state self.old).is_known ≡ true
            → place ≤ length (state self.old).contents
            → OnOk result ((state self.new).contents
            ≡ with_octets_at place octets.now (state self.old).contents) }
        ensures front { (state self.old).is_known ≡ true
            → place ≤ length (state self.old).contents
            → OnErr result
            (IsPrefixOf (take place (state self.old).contents) (state self.new).contents) }
        ensures synced { (state self.old).is_known ≡ true
            → (state self.new).synced ≡ take place (state self.old).synced }
        ensures raised { (state self.old).is_known ≡ true → place ≤ (state self.old).certain
            → OnOk result (place + length octets.now ≤ (state self.new).certain) }
        ensures certain { (state self.old).is_known ≡ true
            → (state self.old).certain ≤ (state self.new).certain };

    /// Syncs all octets that are certain. After an `Err` some may be synced, and no others are
    /// certain any more.
    fn sync(&mut self) -> Result<(), DeviceFault>
        ensures known { (state self.new).is_known ≡ (state self.old).is_known }
        ensures contents { (state self.old).is_known ≡ true
            → (state self.new).contents ≡ (state self.old).contents }
        ensures synced { (state self.old).is_known ≡ true → OnOk result
            ((state self.new).synced ≡ take (state self.old).certain (state self.old).contents) }
        ensures certain { (state self.old).is_known ≡ true
            → OnOk result ((state self.old).certain ≤ (state self.new).certain) }
        ensures still { (state self.old).is_known ≡ true
            → OnErr result (IsPrefixOf (state self.old).synced (state self.new).synced) };

    /// Cuts off what follows the first `octets` octets.
    fn cut(&mut self, octets: usize) -> Result<(), DeviceFault>
        ensures known { (state self.new).is_known ≡ (state self.old).is_known }
        ensures contents { (state self.old).is_known ≡ true
            → octets ≤ length (state self.old).contents
            → OnOk result
            ((state self.new).contents ≡ take octets (state self.old).contents) }
        ensures synced { (state self.old).is_known ≡ true
            → (state self.new).synced ≡ take octets (state self.old).synced }
        ensures certain { (state self.old).is_known ≡ true
            → (state self.old).certain ≤ (state self.new).certain };
}
