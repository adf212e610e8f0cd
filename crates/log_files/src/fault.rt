//! `FolderFault`: why a store or one of its logs can't be used.

ghost use Rattle.std.specs.Prelude.{◌≡◌};
ghost use Rattle.log_files.specs.Faults.{IsReadFault, folder_fault_of};

use durable_log::StoreFault;
use tags_clocks::ReplicaId;
use thiserror::Error;

/// Why a store or one of its logs can't be used.
#[derive(Clone, Copy, Debug, PartialEq, Eq, Error)]
pub enum FolderFault {
    /// Another process uses the store.
    #[error("store in use")]
    InUse,
    /// What was synced was damaged after these first octets, or the log lacks its first line.
    #[error("damaged at octet {octets}")]
    Damaged {
        /// The number of octets before the damage.
        octets: usize,
    },
    /// A line of the log names another replica.
    #[error("log of replica {}", replica.get())]
    OtherReplica {
        /// That replica.
        replica: ReplicaId,
    },
    /// The log's first line names a later format.
    #[error("later format")]
    LaterFormat,
    /// A line has the checksum of its text, but is the text of no entry.
    #[error("unsound at octet {octets}")]
    Unsound {
        /// The number of octets before that line.
        octets: usize,
    },
    /// The system refuses to make, open, read, write, sync, cut or rename a file or a folder.
    #[error("cannot write")]
    CannotWrite,
    /// Memory ran out; no log was changed.
    #[error("no memory")]
    NoMemory,
}

/// The fault of a log in a file.
pub(crate) fn folder_fault_of(fault: StoreFault) -> FolderFault
    ensures value { result ≡ folder_fault_of fault }
    ensures read { IsReadFault result }
{
    match fault {
        StoreFault::NoMemory => FolderFault::NoMemory,
        StoreFault::NoSpace => FolderFault::CannotWrite,
        StoreFault::Damaged { octets } => FolderFault::Damaged { octets },
        StoreFault::Unsound { octets } => FolderFault::Unsound { octets },
        StoreFault::LaterFormat => FolderFault::LaterFormat,
        StoreFault::OtherReplica { replica } => FolderFault::OtherReplica { replica },
        StoreFault::Failed => FolderFault::CannotWrite,
    }
}
