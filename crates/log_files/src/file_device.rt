//! `FileDevice`: the file of a log.

ghost use Rattle.std.specs.Prelude.{[], false};

use durable_log::{DeviceFault, LogDevice};
use std::alloc::Global;
use std::fs::File;
use std::io;
use std::io::ErrorKind;
use std::os::unix::fs::FileExt;

/// The file of a log, open for reading and writing. Contracts don't say what it contains; that a
/// file does what `LogDevice` says is trusted.
#[derive(Drop)]
pub struct FileDevice {
    file: File,
}

impl FileDevice {
    /// The device of an open file.
    pub(crate) fn new(file: File) -> FileDevice {
        FileDevice { file }
    }
}

impl LogDevice for FileDevice {
    ghost state = { λ _. record {
      is_known = false;
      contents = [];
      synced = [];
      certain = 0;
    } };

    fn read(&mut self, alloc: Global, place: usize, count: usize) -> Result<Vec<u8>, DeviceFault> {
        let Ok(metadata) = self.file.metadata() else {
            return Err(DeviceFault::Failed);
        };
        let rest = (metadata.len() as usize).saturating_sub(place);
        let mut octets = Vec::new(alloc);
        let Ok(()) = octets.resize(rest.min(count), 0) else {
            return Err(DeviceFault::NoMemory);
        };
        match self.file.read_exact_at(octets.as_mut_slice(), place as u64) {
            Ok(()) => Ok(octets),
            Err(_) => Err(DeviceFault::Failed),
        }
    }

    fn write(&mut self, place: usize, octets: &[u8]) -> Result<(), DeviceFault> {
        done(self.file.write_all_at(octets, place as u64))
    }

    fn sync(&mut self) -> Result<(), DeviceFault> {
        done(self.file.sync_data())
    }

    fn cut(&mut self, octets: usize) -> Result<(), DeviceFault> {
        match done(self.file.set_len(octets as u64)) {
            Ok(()) => done(self.file.sync_all()),
            Err(fault) => Err(fault),
        }
    }
}

/// The result of a call of the system: a full disk and a quota that is used up are want of space.
fn done(answer: io::Result<()>) -> Result<(), DeviceFault> {
    match answer {
        Ok(()) => Ok(()),
        Err(error) => match error.kind() {
            ErrorKind::StorageFull => Err(DeviceFault::NoSpace),
            ErrorKind::QuotaExceeded => Err(DeviceFault::NoSpace),
            _ => Err(DeviceFault::Failed),
        },
    }
}
