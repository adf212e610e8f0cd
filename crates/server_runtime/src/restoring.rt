//! How replicas are restored from their logs, before they listen.

use crdt_ops::SoundOp;
use durable_log::{DurableLog, RecoveredLog, StoreFault};
use log_files::{FileDevice, FolderFault, StoreFolder};
use merge_laws::Caused;
use replica_lock::{Book, JoinFault};
use server_settings::{CommandLine, Place};
use std::alloc::Global;
use std::fmt;
use std::fs::File;
use std::rt::Files;
use tags_clocks::{OpId, ReplicaId};

/// A replica as its log leaves it.
#[derive(Drop)]
pub struct RestoredReplica {
    /// Its name.
    pub replica: ReplicaId,
    /// Its book.
    pub book: Book,
    /// Its log.
    pub log: DurableLog<FileDevice>,
}

/// Why a replica isn't restored. The program prints its text.
#[derive(Clone, Copy, Debug, PartialEq, Eq, thiserror::Error)]
pub enum RestoreFault {
    /// Its log can't be read or written.
    #[error("{0}")]
    Folder(FolderFault),
    /// Its operations aren't in a causal order.
    #[error("not causal at {}:{}", id.replica.get(), id.number.get())]
    NotCausal {
        /// The first that isn't ripe after those before it.
        id: OpId,
    },
    /// A counter has no number left for one of its operations.
    #[error("number used up")]
    Exhausted,
    /// Another replica of the store has an operation that this one issued and that its log lacks:
    /// it is an old copy.
    #[error("older than {}", other.get())]
    OlderThan {
        /// The other replica.
        other: ReplicaId,
    },
    /// Memory ran out.
    #[error("no memory")]
    NoMemory,
}

/// A replica that isn't restored, and why.
#[derive(Clone, Copy, Debug, PartialEq, Eq)]
pub struct UnrestoredReplica {
    /// Its name.
    pub replica: ReplicaId,
    /// Why.
    pub fault: RestoreFault,
}

impl fmt::Display for UnrestoredReplica {
    fn fmt<W: fmt::Write>(&self, f: &mut fmt::Formatter<W>) -> fmt::Result {
        let UnrestoredReplica { replica, fault } = self;
        write!(f, "cannot restore {}: {fault}", replica.get())
    }
}

/// A replica's log as it was read.
#[derive(Drop)]
struct FoundLog {
    replica: ReplicaId,
    /// The log; `None` if there is none yet.
    recovered: Option<RecoveredLog<FileDevice>>,
    /// Its operations.
    ops: Vec<SoundOp>,
}

/// Restores the replicas of a command line from the logs of a folder, those that are to join too;
/// a replica that has no log yet gets one without operations. All logs are read, compared with each
/// other and with the folder's other logs, and delivered before anything is written.
pub fn restore_all<R: Files<File = File>>(
    rt: &R,
    alloc: Global,
    folder: &StoreFolder,
    settings: &CommandLine<'_>,
) -> Result<Vec<RestoredReplica>, UnrestoredReplica> {
    let mut found = Vec::new(alloc);
    if let Err(unrestored) = find_logs(rt, alloc, folder, settings, &mut found) {
        drop(found);
        return Err(unrestored);
    }
    if let Err(unrestored) = compare_logs(rt, alloc, folder, &found) {
        drop(found);
        return Err(unrestored);
    }
    let mut delivered = Vec::new(alloc);
    if let Err(unrestored) = deliver_logs(alloc, found, &mut delivered) {
        drop(delivered);
        return Err(unrestored);
    }
    let mut restored = Vec::new(alloc);
    if let Err(unrestored) = open_logs(rt, alloc, folder, delivered, &mut restored) {
        drop(restored);
        return Err(unrestored);
    }
    Ok(restored)
}

/// Reads the logs of the replicas that listen, and of those that are to join.
fn find_logs<R: Files<File = File>>(
    rt: &R,
    alloc: Global,
    folder: &StoreFolder,
    settings: &CommandLine<'_>,
    found: &mut Vec<FoundLog>,
) -> Result<(), UnrestoredReplica> {
    for place in settings.places.iter() {
        find_log(rt, alloc, folder, place, found)?;
    }
    for join in settings.joins.iter() {
        find_log(rt, alloc, folder, &join.place, found)?;
    }
    Ok(())
}

/// Reads the log of a replica, if it has one.
fn find_log<R: Files<File = File>>(
    rt: &R,
    alloc: Global,
    folder: &StoreFolder,
    place: &Place<'_>,
    found: &mut Vec<FoundLog>,
) -> Result<(), UnrestoredReplica> {
    let Some(replica) = ReplicaId::new(u32::from(place.replica)) else {
        return Ok(());
    };
    let log = match folder.read_log(rt, alloc, replica) {
        Ok(Some((recovered, ops))) => FoundLog {
            replica,
            recovered: Some(recovered),
            ops,
        },
        Ok(None) => FoundLog {
            replica,
            recovered: None,
            ops: Vec::new(alloc),
        },
        Err(fault) => return Err(UnrestoredReplica::of_folder(replica, fault)),
    };
    found
        .push(log)
        .map_err(|_| UnrestoredReplica::without_memory(replica))
}

/// Looks for an operation that a replica issued and its log lacks, in the other logs that were
/// read, and then in the folder's other logs, of which those that can't be read are passed over.
fn compare_logs<R: Files<File = File>>(
    rt: &R,
    alloc: Global,
    folder: &StoreFolder,
    found: &[FoundLog],
) -> Result<(), UnrestoredReplica> {
    for log in found {
        compare_with(found, log.replica, &log.ops)?;
    }
    let Some(first) = found.first() else {
        return Ok(());
    };
    let replicas = match folder.replicas(rt, alloc) {
        Ok(replicas) => replicas,
        Err(fault) => return Err(UnrestoredReplica::of_folder(first.replica, fault)),
    };
    for replica in replicas {
        if !found.iter().any(|log| log.replica == replica) {
            compare_with_log(rt, alloc, folder, found, replica)?;
        }
    }
    Ok(())
}

/// Looks for such an operation in the log of another replica.
fn compare_with_log<R: Files<File = File>>(
    rt: &R,
    alloc: Global,
    folder: &StoreFolder,
    found: &[FoundLog],
    other: ReplicaId,
) -> Result<(), UnrestoredReplica> {
    let Ok(Some((recovered, ops))) = folder.read_log(rt, alloc, other) else {
        return Ok(());
    };
    drop(recovered);
    let compared = compare_with(found, other, &ops);
    drop(ops);
    compared
}

/// Looks for such an operation among those of another replica.
fn compare_with(
    found: &[FoundLog],
    other: ReplicaId,
    ops: &[SoundOp],
) -> Result<(), UnrestoredReplica> {
    for log in found {
        if last_number(log.replica, ops) > last_number(log.replica, &log.ops) {
            return Err(UnrestoredReplica {
                replica: log.replica,
                fault: RestoreFault::OlderThan { other },
            });
        }
    }
    Ok(())
}

/// The largest number among the operations that a replica issued; 0 if there are none.
fn last_number(replica: ReplicaId, ops: &[SoundOp]) -> u32 {
    let mut last = 0;
    for op in ops {
        let id = op.id();
        if id.replica == replica {
            last = last.max(id.number.get());
        }
    }
    last
}

/// A replica whose log was delivered, and the log; `None` if there is none yet.
#[derive(Drop)]
struct DeliveredLog {
    replica: ReplicaId,
    recovered: Option<RecoveredLog<FileDevice>>,
    book: Book,
}

/// Delivers the operations of each log to an unused replica.
fn deliver_logs(
    alloc: Global,
    found: Vec<FoundLog>,
    delivered: &mut Vec<DeliveredLog>,
) -> Result<(), UnrestoredReplica> {
    for log in found {
        let FoundLog {
            replica,
            recovered,
            ops,
        } = log;
        let book = match Book::restore(alloc, replica, ops) {
            Ok(book) => book,
            Err(fault) => {
                drop(recovered);
                return Err(UnrestoredReplica::of_book(replica, fault));
            }
        };
        let log = DeliveredLog {
            replica,
            recovered,
            book,
        };
        if delivered.push(log).is_err() {
            return Err(UnrestoredReplica::without_memory(replica));
        }
    }
    Ok(())
}

/// Opens each log, or makes one, so that it can be written.
fn open_logs<R: Files<File = File>>(
    rt: &R,
    alloc: Global,
    folder: &StoreFolder,
    delivered: Vec<DeliveredLog>,
    restored: &mut Vec<RestoredReplica>,
) -> Result<(), UnrestoredReplica> {
    for log in delivered {
        let DeliveredLog {
            replica,
            recovered,
            book,
        } = log;
        let log = match recovered {
            Some(recovered) => DurableLog::open(recovered).map_err(fault_of_open),
            None => folder.create_log(rt, alloc, replica),
        };
        let log = match log {
            Ok(log) => log,
            Err(fault) => {
                drop(book);
                return Err(UnrestoredReplica::of_folder(replica, fault));
            }
        };
        let found = RestoredReplica { replica, book, log };
        if restored.push(found).is_err() {
            return Err(UnrestoredReplica::without_memory(replica));
        }
    }
    Ok(())
}

/// Why a log that was read isn't opened.
fn fault_of_open(fault: StoreFault) -> FolderFault {
    match fault {
        StoreFault::NoMemory => FolderFault::NoMemory,
        _ => FolderFault::CannotWrite,
    }
}

impl UnrestoredReplica {
    /// It isn't restored since the folder of the logs, or its log, can't be used.
    pub fn of_folder(replica: ReplicaId, fault: FolderFault) -> UnrestoredReplica {
        UnrestoredReplica {
            replica,
            fault: RestoreFault::Folder(fault),
        }
    }

    fn without_memory(replica: ReplicaId) -> UnrestoredReplica {
        UnrestoredReplica {
            replica,
            fault: RestoreFault::NoMemory,
        }
    }

    fn of_book(replica: ReplicaId, fault: JoinFault) -> UnrestoredReplica {
        let fault = match fault {
            JoinFault::Own { id } | JoinFault::NotCausal { id } => RestoreFault::NotCausal { id },
            JoinFault::Exhausted => RestoreFault::Exhausted,
            JoinFault::NoMemory => RestoreFault::NoMemory,
        };
        UnrestoredReplica { replica, fault }
    }
}
