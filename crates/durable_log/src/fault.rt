//! `StoreFault`: why a log isn't opened, written or synced.

use crate::device::DeviceFault;
use op_log::LogFault;
use std::alloc::AllocError;
use tags_clocks::ReplicaId;
use thiserror::Error;

/// Why a log isn't opened, written or synced.
#[derive(Clone, Copy, Debug, PartialEq, Eq, Error)]
pub enum StoreFault {
    /// Memory ran out; nothing was done.
    #[error("no memory")]
    NoMemory,
    /// The device has no space for the zeros that were to be written ahead; the log is as it was.
    #[error("no space")]
    NoSpace,
    /// What was synced was damaged: a later commit says that more octets had been synced than these
    /// first ones, which are whole batches, or the log lacks its first line.
    #[error("damaged at octet {octets}")]
    Damaged {
        /// The number of octets before the damage.
        octets: usize,
    },
    /// A line has the checksum of its text, but is the text of no entry.
    #[error("unsound at octet {octets}")]
    Unsound {
        /// The number of octets before that line.
        octets: usize,
    },
    /// The log's first line names a later format.
    #[error("later format")]
    LaterFormat,
    /// A line names another replica.
    #[error("log of replica {}", replica.get())]
    OtherReplica {
        /// That replica.
        replica: ReplicaId,
    },
    /// The device failed, now or before. Nothing is asked of it again.
    #[error("the device failed")]
    Failed,
}

impl From<AllocError> for StoreFault {
    ghost use Rattle.std.specs.Prelude.{◌≡◌};
    ghost use Rattle.durable_log.specs.declared.fault.StoreFault.TheVariants.{NoMemory};

    ghost from_gives = { λ _ e. e ≡ NoMemory };

    fn from(_fault: AllocError) -> StoreFault {
        StoreFault::NoMemory
    }
}
