//! `StoreFolder`: the folder of a store, and the logs in it.

ghost use Rattle.std.specs.Prelude.{◌≡◌, ◌++◌, IfErr, IfOk, IfSome, codes, false, length};
ghost use Rattle.std.specs.Fmt.{decimal};
ghost use Rattle.std.specs.String.{string_bytes};
ghost use Rattle.log_files.specs.Faults.{IsMakeFault, IsOpenFault, IsReadFault};

use crate::fault::{FolderFault, folder_fault_of};
use crate::file_device::FileDevice;
use crate::folder_calls::{make_folders, open_file, open_or_make, sync_folder};
use crdt_ops::SoundOp;
use durable_log::{DurableLog, RecoveredLog, StoreFault};
use std::alloc::{AllocError, Global};
use std::fs;
use std::fs::{File, TryLockError};
use std::io::{ErrorKind, Read};
use std::rt::Files;
use tags_clocks::ReplicaId;

/// The folder of a store, with a log for each replica. It is locked as long as this value lives.
#[derive(Drop)]
pub struct StoreFolder {
    path: String,
    lock: File,
}

impl StoreFolder {
    /// Opens the folder of a store: makes it with its parents if there is none, for its owner only,
    /// locks it, and syncs the names in it, which a process that was killed may not have done.
    /// `InUse` if another process has locked it, `CannotWrite` if it can't be made, locked or
    /// synced, `NoMemory` if memory runs out.
    pub fn open<R: Files<File = File>>(
        rt: &R,
        alloc: Global,
        path: &str,
    ) -> Result<StoreFolder, FolderFault>
        ensures { IfErr result IsOpenFault }
    {
        let Ok(()) = make_folders(rt, path) else {
            return Err(FolderFault::CannotWrite);
        };
        let Ok(owned) = String::from_str(alloc, path) else {
            return Err(FolderFault::NoMemory);
        };
        let lock = match lock_folder(rt, alloc, path) {
            Ok(lock) => lock,
            Err(fault) => return Err(fault),
        };
        match sync_folder(rt, path) {
            Ok(()) => Ok(StoreFolder { path: owned, lock }),
            Err(_) => Err(FolderFault::CannotWrite),
        }
    }

    /// The replicas that have a log in the folder, in no order. `CannotWrite` if the folder can't be
    /// read, `NoMemory` if memory runs out.
    pub fn replicas<R: Files<File = File>>(
        &self,
        rt: &R,
        alloc: Global,
    ) -> Result<Vec<ReplicaId>, FolderFault>
        ensures { IfErr result IsMakeFault }
    {
        let Ok(mut folder) = rt.open_dir(self.path.as_str()) else {
            return Err(FolderFault::CannotWrite);
        };
        let mut names = Vec::new(alloc);
        let Ok(_) = folder.read_to_end(&mut names) else {
            return Err(FolderFault::CannotWrite);
        };
        match replicas_of_names(alloc, &names) {
            Ok(replicas) => Ok(replicas),
            Err(_) => Err(FolderFault::NoMemory),
        }
    }

    /// Reads the log of a replica, and returns its operations too; nothing is written. `None` if
    /// the replica has no log. Faults are those of `RecoveredLog::read`, and `CannotWrite` if the
    /// log can't be opened or read.
    pub fn read_log<R: Files<File = File>>(
        &self,
        rt: &R,
        alloc: Global,
        replica: ReplicaId,
    ) -> Result<Option<(RecoveredLog<FileDevice>, Vec<SoundOp>)>, FolderFault>
        ensures counted { IfOk result
            (λ found. IfSome found (λ log. log.0.op_count ≡ length log.1.items)) }
        ensures fault { IfErr result IsReadFault }
    {
        let Ok(name) = self.file_name(alloc, replica, "log") else {
            return Err(FolderFault::NoMemory);
        };
        match open_file(rt, name.as_str()) {
            Ok(file) => read_file(alloc, file, replica),
            Err(error) => no_file(error.kind()),
        }
    }

    /// Makes the log of a replica that has none, without operations: writes and syncs it under
    /// another name, gives it its name, and syncs the folder. After an `Err` the replica has no
    /// log, or this one without operations. `CannotWrite` if it has a log already, or the system
    /// refuses a call; `NoMemory` if memory runs out.
    pub fn create_log<R: Files<File = File>>(
        &self,
        rt: &R,
        alloc: Global,
        replica: ReplicaId,
    ) -> Result<DurableLog<FileDevice>, FolderFault>
        ensures counts { IfOk result (λ log. (log.op_count ≡ 0) × (log.synced_count ≡ 0)
            × (log.room ≡ 0) × (log.failed ≡ false)) }
        ensures fault { IfErr result IsMakeFault }
    {
        let Ok(unnamed) = self.file_name(alloc, replica, "new") else {
            return Err(FolderFault::NoMemory);
        };
        let Ok(name) = self.file_name(alloc, replica, "log") else {
            return Err(FolderFault::NoMemory);
        };
        let Ok(false) = fs::exists(rt, name.as_str()) else {
            return Err(FolderFault::CannotWrite);
        };
        let Ok(file) = open_or_make(rt, unnamed.as_str()) else {
            return Err(FolderFault::CannotWrite);
        };
        let log = match DurableLog::create(alloc, FileDevice::new(file), replica) {
            Ok(log) => log,
            Err(StoreFault::NoMemory) => return Err(FolderFault::NoMemory),
            Err(_) => return Err(FolderFault::CannotWrite),
        };
        let Ok(()) = fs::rename(rt, unnamed.as_str(), name.as_str()) else {
            return Err(FolderFault::CannotWrite);
        };
        let Ok(()) = sync_folder(rt, self.path.as_str()) else {
            return Err(FolderFault::CannotWrite);
        };
        Ok(log)
    }

    /// The path of a replica's file with this ending.
    fn file_name(
        &self,
        alloc: Global,
        replica: ReplicaId,
        ending: &str,
    ) -> Result<String, AllocError>
        ensures { IfOk result (λ name. string_bytes name ≡ string_bytes self.now.path
            ++ (codes "/replica-" ++ (decimal replica ++ (codes "." ++ ending.now)))) }
    {
        let folder = self.path.as_str();
        let number = replica.get();
        format!(in alloc; "{folder}/replica-{number}.{ending}")
    }
}

/// The replicas whose logs have these names, each of which a NUL ends. `Err` if memory runs out.
fn replicas_of_names(alloc: Global, names: &[u8]) -> Result<Vec<ReplicaId>, AllocError> {
    let mut replicas = Vec::new(alloc);
    for name in names.split(|octet| *octet == 0) {
        if let Some(replica) = replica_of_name(name) {
            replicas.push(replica)?;
        }
    }
    Ok(replicas)
}

/// The replica whose log has this name, if it is the name of a log.
fn replica_of_name(name: &[u8]) -> Option<ReplicaId> {
    let field = name.strip_prefix(b"replica-")?.strip_suffix(b".log")?;
    text_fields::replica(field)
}

/// Locks the folder at a path, as long as the returned file is open.
fn lock_folder<R: Files<File = File>>(
    rt: &R,
    alloc: Global,
    path: &str,
) -> Result<File, FolderFault>
    ensures { IfErr result IsOpenFault }
{
    let Ok(name) = format!(in alloc; "{path}/lock") else {
        return Err(FolderFault::NoMemory);
    };
    let Ok(file) = open_or_make(rt, name.as_str()) else {
        return Err(FolderFault::CannotWrite);
    };
    match file.try_lock() {
        Ok(()) => Ok(file),
        Err(TryLockError::WouldBlock) => Err(FolderFault::InUse),
        Err(TryLockError::Error(_)) => Err(FolderFault::CannotWrite),
    }
}

/// The log in an open file.
fn read_file(
    alloc: Global,
    file: File,
    replica: ReplicaId,
) -> Result<Option<(RecoveredLog<FileDevice>, Vec<SoundOp>)>, FolderFault>
    ensures counted { IfOk result
        (λ found. IfSome found (λ log. log.0.op_count ≡ length log.1.items)) }
    ensures fault { IfErr result IsReadFault }
{
    match RecoveredLog::read(alloc, FileDevice::new(file), replica) {
        Ok(found) => Ok(Some(found)),
        Err(fault) => Err(folder_fault_of(fault)),
    }
}

/// What a file that wasn't opened is: no log if there is no such file.
fn no_file(kind: ErrorKind) -> Result<Option<(RecoveredLog<FileDevice>, Vec<SoundOp>)>, FolderFault>
    ensures counted { IfOk result
        (λ found. IfSome found (λ log. log.0.op_count ≡ length log.1.items)) }
    ensures fault { IfErr result IsReadFault }
{
    match kind {
        ErrorKind::NotFound => Ok(None),
        _ => Err(FolderFault::CannotWrite),
    }
}
